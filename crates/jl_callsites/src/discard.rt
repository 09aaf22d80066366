//! A target that is let go.

ghost use Rattle.std.specs.Prelude.{◌<◌, ◌+◌, ◌*◌};
ghost use Rattle.jl_callsites.specs.ForProofs.{turns_left};

use jl_types::{ClassId, MethodId, Part, SwitchId, Target};
use std::mem;

/// Lets the target go, however deep it is: its guards are turned until the first part of the one at the top is no guard, so no
/// call is as deep as the target, as it would be where a target is simply dropped. A refused target goes this way. Takes no
/// memory.
pub fn discard_target(target: Target) {
    let mut rest = target;
    loop {
        let Target { part } = rest;
        match part {
            Part::Method(_) => return,
            Part::Guard(point, first, fallback) => rest = turned(point, first, fallback),
            Part::Invoker(_) => return,
        }
    }
}

/// What is left of a guard of these parts. If the first part is no guard, that is the fallback. Else it is the guard of the first
/// part, with its own first part, and with a guard of all the others as its fallback.
fn turned(point: SwitchId, first: Box<Target>, fallback: Box<Target>) -> Target
    ensures { turns_left result < 2 * turns_left first.value + turns_left fallback.value + 1 }
{
    let mut room = first;
    // Stands there until another one comes.
    let any = Target::method(MethodId {
        class: ClassId::new(0),
        index: 0,
    });
    let Target { part } = mem::replace(&mut *room, any);
    match part {
        Part::Method(_) => Box::into_inner(fallback),
        Part::Guard(inner, first, second) => {
            *room = Target::guard(point, second, fallback);
            Target::guard(inner, first, room)
        }
        Part::Invoker(_) => Box::into_inner(fallback),
    }
}
