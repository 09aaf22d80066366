//! The events that make the switch points and call sites.

ghost use Rattle.std.specs.Prelude.{◌≡◌, option_map, option_to_list, IfOk, IfErr, OnOk};
ghost use Rattle.jl_types.specs.declared.event.EventOf.TheVariants as event;
ghost use Rattle.jl_renewal.specs.Renewal as renewal;
ghost use Rattle.jl_renewal.specs.Renewal.{new_switches, invalidation, new_call_sites};
ghost use Rattle.jl_renewal.specs.Adds.{Adds, IsStoppedAt};

use crate::apply::add_if_any;
use crate::links::push_if_any;
use crate::numbers::Renumbering;
use crate::targets::renumbered_target;
use jl_callsites::Sites;
use jl_core::EventMachine;
use jl_names::Seq;
use jl_types::{CallSiteId, Event, Refusal, SwitchId};
use std::alloc::{AllocError, Global};

/// Makes the switch points that stay. A refusal is the error.
pub(crate) fn add_switches<M: EventMachine>(
    alloc: Global,
    fresh: &mut M,
    numbers: &[Option<u32>],
) -> Result<(), Refusal>
    ensures adds { OnOk result (Adds (new_switches numbers.now) (M.state fresh.old) (M.state fresh.new)) }
    ensures stops { IfErr result (IsStoppedAt (new_switches numbers.now) (M.state fresh.old) (M.state fresh.new)) }
{
    for number in numbers {
        add_if_any(alloc, fresh, switch_event(*number))?;
    }
    Ok(())
}

/// A new switch point for what has a new number.
fn switch_event(number: Option<u32>) -> Option<Event>
    ensures { result ≡ option_map (λ n. event.NewSwitch) number }
{
    match number {
        Some(_) => Some(Event::NewSwitch),
        None => None,
    }
}

/// Makes those of them invalid that are. A refusal is the error.
pub(crate) fn add_invalidation<M: EventMachine>(
    alloc: Global,
    fresh: &mut M,
    old: &Sites,
    numbers: &Renumbering,
) -> Result<(), Refusal>
    ensures adds { OnOk result (Adds (invalidation (renewal.invalid_points old.now numbers.now)) (M.state fresh.old) (M.state fresh.new)) }
    ensures stops { IfErr result (IsStoppedAt (invalidation (renewal.invalid_points old.now numbers.now)) (M.state fresh.old) (M.state fresh.new)) }
{
    let points = invalid_points(alloc, old, numbers)?;
    add_if_any(alloc, fresh, invalidation_of(points))
}

/// That these switch points become invalid, if there are any.
fn invalidation_of(points: Vec<SwitchId>) -> Option<Event>
    ensures { option_to_list result ≡ invalidation points.items }
{
    if points.is_empty() {
        return None;
    }
    Some(Event::Invalidate(Seq::of(points)))
}

/// The new numbers of the switch points that stay and are invalid.
fn invalid_points(
    alloc: Global,
    old: &Sites,
    numbers: &Renumbering,
) -> Result<Vec<SwitchId>, AllocError>
    ensures { IfOk result (λ points. points.items ≡ renewal.invalid_points old.now numbers.now) }
{
    let mut points = Vec::new(alloc);
    for point in 0..old.few_switches() {
        push_if_any(
            &mut points,
            invalid_point(old, numbers, SwitchId::new(point as u32)),
        )?;
    }
    Ok(points)
}

/// The new number of the switch point, if it stays and is invalid.
fn invalid_point(old: &Sites, numbers: &Renumbering, point: SwitchId) -> Option<SwitchId>
    ensures { result ≡ renewal.invalid_point old.now numbers.now point }
{
    let new = numbers.switch(point)?;
    if old.is_valid(point) { None } else { Some(new) }
}

/// Makes the call sites that stay. A refusal is the error.
pub(crate) fn add_call_sites<M: EventMachine>(
    alloc: Global,
    fresh: &mut M,
    old: &Sites,
    numbers: &Renumbering,
) -> Result<(), Refusal>
    ensures adds { OnOk result (Adds (new_call_sites old.now numbers.now) (M.state fresh.old) (M.state fresh.new)) }
    ensures stops { IfErr result (IsStoppedAt (new_call_sites old.now numbers.now) (M.state fresh.old) (M.state fresh.new)) }
{
    for number in 0..old.few_call_sites() {
        let event = call_site_event(alloc, old, numbers, CallSiteId::new(number as u32))?;
        add_if_any(alloc, fresh, event)?;
    }
    Ok(())
}

/// The event that makes the call site with the target that it has now, if it stays.
fn call_site_event(
    alloc: Global,
    old: &Sites,
    numbers: &Renumbering,
    site: CallSiteId,
) -> Result<Option<Event>, AllocError>
    ensures { IfOk result (λ made. made ≡ renewal.new_call_site old.now numbers.now site) }
{
    let Some(_) = numbers.call_site(site) else {
        return Ok(None);
    };
    let Some(row) = old.call_site_at(site) else {
        return Ok(None);
    };
    let ty = row.ty().copy(alloc)?;
    let target = renumbered_target(alloc, numbers, row.target())?;
    Ok(Some(Event::NewCallSite(row.kind(), ty, target)))
}
