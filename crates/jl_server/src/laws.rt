//! The law of answers at once: it is the contract of a function that does nothing.

ghost use Rattle.std.specs.Prelude.{◌≡◌, ℕ, List, Some};
ghost use Rattle.jl_types.specs.declared.answer.Recv.{Recv};
ghost use Rattle.jl_types.specs.declared.answer.Answer.{Answer};
ghost use Rattle.jl_types.specs.declared.answer.Fast.TheVariants.{Now};
ghost use Rattle.jl_types.specs.declared.link.Link.{Link};
ghost use Rattle.jl_types.specs.Events.Event.{Event};
ghost use Rattle.jl_types.specs.Linkage.Calls.{dispatch};
ghost use Rattle.jl_types.specs.Events.Fast.{fast_answer};
ghost use Rattle.jl_types.specs.Events.History.{world_after, installed};
ghost use Rattle.jl_server.specs.Receivers.{FitsLink};

/// An answer at once is the call's answer in the world after the events, if the link looks at no receiver, or the receiver is null or an
/// object of a concrete class. At a direct link of invokevirtual that class has to be below the named class.
pub fn fast_answers_are_the_calls()
    ensures { (h : List Event) (s n : ℕ) (recv : Recv) (a : Answer) (link : Link)
        → installed h s ≡ Some link → FitsLink (world_after h) s link recv
        → fast_answer (Some link) n recv ≡ Now a
        → dispatch (world_after h) s recv ≡ a }
{}
