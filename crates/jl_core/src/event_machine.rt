//! What takes events one after another.

ghost use Rattle.std.specs.Prelude.{◌≡◌, IsOk, IfOk, IfErr, OnErr};
ghost use Rattle.jl_types.specs.Events.Verdict.{verdict};
ghost use Rattle.jl_core.specs.State.{State, world_of, IsAccepted, IsRefused};

use crate::machine::Core;
use jl_types::{Event, Refusal, Reply};
use std::alloc::{AllocError, Global};

/// What takes events one after another: a core, and what keeps one. A clause sees that core.
pub trait EventMachine {
    ghost state: { Self → State };

    /// Applies the event, as a core does, and answers the reply.
    ///
    /// # Errors
    ///
    /// The first refusal, or want of memory if there is none. What a clause sees has not changed then.
    fn accept(&mut self, alloc: Global, event: Event) -> Result<Reply, Refusal>
        ensures accepted { IfOk result (IsAccepted (state self.old) (state self.new) event) }
        ensures refused { IfErr result (IsRefused (verdict (state self.old).limits (world_of (state self.old)) event)) }
        ensures unchanged { OnErr result (state self.new ≡ state self.old) };

    /// Applies an event of which the caller knows that it is accepted, and answers the reply. The event isn't judged, so for an install no
    /// link is looked up. Want of memory is the only error, and what a clause sees has not changed then.
    fn accept_judged(&mut self, alloc: Global, event: Event) -> Result<Reply, AllocError>
        requires { IsOk (verdict (state self.old).limits (world_of (state self.old)) event) }
        ensures accepted { IfOk result (IsAccepted (state self.old) (state self.new) event) }
        ensures unchanged { OnErr result (state self.new ≡ state self.old) };
}

impl EventMachine for Core {
    ghost state = { λ core. core };

    fn accept(&mut self, alloc: Global, event: Event) -> Result<Reply, Refusal> {
        self.apply(alloc, event)
    }

    fn accept_judged(&mut self, alloc: Global, event: Event) -> Result<Reply, AllocError> {
        self.apply_judged(alloc, event)
    }
}
