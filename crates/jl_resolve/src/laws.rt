//! The law of what is resolved: the contract of a function that does nothing.

ghost use Rattle.std.specs.Prelude.{◌++◌, ◌∷◌, [], List};
ghost use Rattle.jl_types.specs.Events.Event.{Event};
ghost use Rattle.jl_types.specs.Events.History.{world_after};
ghost use Rattle.jl_hierarchy.specs.Constancy.{IsClosed};
ghost use Rattle.jl_resolve.specs.Constancy.{RecordsObject, SettledStays};

/// What a reference resolves to, for a caller that isn't retired, stays through every event once it waits for no class.
///
/// Two conditions: loader 0 recorded java/lang/Object before there was an interface, and after the event what is present still
/// rests on what is present.
pub fn what_was_resolved_stays()
    ensures { (h : List Event) (e : Event) → RecordsObject (world_after h).classes → IsClosed (world_after (h ++ e ∷ [])).classes
        → SettledStays (world_after h).classes (world_after (h ++ e ∷ [])).classes }
{}
