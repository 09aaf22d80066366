//! The laws of what is selected: each is the contract of a function that does nothing.

ghost use Rattle.std.specs.Prelude.{◌++◌, ◌∷◌, [], List};
ghost use Rattle.jl_types.specs.Events.Event.{Event};
ghost use Rattle.jl_types.specs.Events.History.{world_after};
ghost use Rattle.jl_hierarchy.specs.Constancy.{IsClosed};
ghost use Rattle.jl_resolve.specs.Constancy.{RecordsObject};
ghost use Rattle.jl_select.specs.Constancy.{ChosenStays, OutcomesStay};

/// The method that selection picks for a receiver's class and a method that are there stays through every event.
pub fn what_was_selected_stays()
    ensures { (h : List Event) (e : Event) → ChosenStays (world_after h).classes (world_after (h ++ e ∷ [])).classes }
{}

/// What invokevirtual, invokeinterface and invokespecial make of a selection stays through every event.
///
/// Two conditions: loader 0 recorded java/lang/Object before there was an interface, and after the event what is present still
/// rests on what is present.
pub fn outcomes_stay()
    ensures { (h : List Event) (e : Event) → RecordsObject (world_after h).classes → IsClosed (world_after (h ++ e ∷ [])).classes
        → OutcomesStay (world_after h).classes (world_after (h ++ e ∷ [])).classes }
{}
