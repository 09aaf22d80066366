//! Events of the fresh core.

ghost use Rattle.std.specs.Prelude.{◌∷◌, [], OnOk, IfErr, option_to_list};
ghost use Rattle.jl_renewal.specs.Adds.{Adds, IsStoppedAt};

use jl_core::EventMachine;
use jl_types::{Event, Refusal};
use std::alloc::Global;

/// The fresh core accepts the event. A refusal is the error.
pub(crate) fn add<M: EventMachine>(
    alloc: Global,
    fresh: &mut M,
    event: Event,
) -> Result<(), Refusal>
    ensures adds { OnOk result (Adds (event ∷ []) (M.state fresh.old) (M.state fresh.new)) }
    ensures stops { IfErr result (IsStoppedAt (event ∷ []) (M.state fresh.old) (M.state fresh.new)) }
{
    match fresh.accept(alloc, event) {
        Ok(_) => Ok(()),
        Err(refusal) => Err(refusal),
    }
}

/// The fresh core accepts the event, if there is one. A refusal is the error.
pub(crate) fn add_if_any<M: EventMachine>(
    alloc: Global,
    fresh: &mut M,
    event: Option<Event>,
) -> Result<(), Refusal>
    ensures adds { OnOk result (Adds (option_to_list event) (M.state fresh.old) (M.state fresh.new)) }
    ensures stops { IfErr result (IsStoppedAt (option_to_list event) (M.state fresh.old) (M.state fresh.new)) }
{
    match event {
        Some(event) => add(alloc, fresh, event),
        None => Ok(()),
    }
}
