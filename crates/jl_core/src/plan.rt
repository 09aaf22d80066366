//! A planned event, and the sites that it changes.

ghost use Rattle.std.specs.Prelude.{◌≡◌, ◌≤◌, length, IfOk};
ghost use Rattle.jl_types.specs.Events.Event.{Event};
ghost use Rattle.jl_core.specs.State.{events, world_of, IsAccepted};
ghost use Rattle.jl_core.specs.WorkBounds.{most_of_last};
ghost use Rattle.jl_core.specs.Plans.{IsPlanned};

use crate::instance::Instance;
use crate::slots::changed;
use jl_types::{Link, Reply, SiteNo};
use std::alloc::{AllocError, Global};
use std::marker::Model;

/// A planned event. A clause sees the core that it leads to, what it is answered, and the sites that it changes.
pub struct Planned {
    after: Instance,
    reply: Reply,
    slots: Vec<(SiteNo, Option<Link>)>,
    /// How many selections, special searches and evaluations of call sites the event took.
    work: u64,
}

/// Written out, so that what drops one makes one call of it and doesn't take apart what it holds.
impl Drop for Planned {
    fn drop(self) {
        let Planned {
            after: _after,
            reply: _reply,
            slots: _slots,
            work: _work,
        } = self;
    }
}

impl Model for Planned {
    ghost use Rattle.std.specs.Coded.{codes};
    ghost use Rattle.jl_types.specs.ForProofs.TargetCode.{target_code};
    ghost use Rattle.jl_core.specs.Plans.{Plan};

    ghost Value = { Plan };

    ghost coded = { Prim.hlevel (codes, target_code) };

    ghost view = { λ p. record { after = p.after; reply = p.reply; slots = p.slots.items } };

    ghost use Rattle.std.specs.Prelude.{◌≤◌};
    ghost use Rattle.jl_core.specs.State.{events};
    ghost use Rattle.jl_core.specs.WorkBounds.{most_of_last};

    ghost invariant = { λ p. p.work ≤ most_of_last (events p.after) };
}

impl Planned {
    /// The event that leads from the one instance to the other, with its reply.
    pub(crate) fn new(
        alloc: Global,
        before: &Instance,
        after: Instance,
        reply: Reply,
        work: u64,
    ) -> Result<Self, AllocError>
        requires { work ≤ most_of_last (events after) }
        ensures { IfOk result (λ plan. (e : Event) → IsAccepted before.now after e reply → IsPlanned before.now e plan) }
    {
        let slots = changed(alloc, before, &after)?;
        Ok(Planned {
            after,
            reply,
            slots,
            work,
        })
    }

    /// What the event is answered. Takes no memory.
    pub fn reply(&self) -> &Reply
        ensures { result.now ≡ self.now.reply }
    {
        &self.reply
    }

    /// The sites that the event changes, by rising number, each with its new link or none. Takes no memory.
    pub fn slots(&self) -> &[(SiteNo, Option<Link>)]
        ensures { result.now ≡ self.now.slots }
    {
        self.slots.as_slice()
    }

    /// How many selections, special searches and evaluations of call sites the event took, which is what
    /// [`last_work`](crate::Core::last_work) tells once it is committed. Takes no memory.
    pub fn work(&self) -> u64
        ensures { result ≤ most_of_last (events self.now.after) }
    {
        // Shows which events the planned core has.
        let _after = &self.after;
        self.work
    }

    /// How many classes and interfaces there are after the event. Takes no memory.
    pub fn class_count(&self) -> usize
        ensures { result ≡ length (world_of self.now.after).classes.rows }
    {
        self.after.world().classes.class_count()
    }

    /// The core that the event leads to, what it is answered, and how much work it took.
    pub(crate) fn into_parts(self) -> (Instance, Reply, u64)
        ensures core { result.0 ≡ self.after }
        ensures reply { result.1 ≡ self.reply }
        ensures work { result.2 ≤ most_of_last (events self.after) }
    {
        let Planned {
            after,
            reply,
            slots: _slots,
            work,
        } = self;
        (after, reply, work)
    }
}
