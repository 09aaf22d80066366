//! The events that request places and bind invokedynamics.

ghost use Rattle.std.specs.Prelude.{◌≡◌, filter_map, OnOk, IfErr};
ghost use Rattle.jl_renewal.specs.Renewal as renewal;
ghost use Rattle.jl_renewal.specs.Adds.{Adds, IsStoppedAt};

use crate::apply::add_if_any;
use crate::numbers::Renumbering;
use indexmap::IndexMap;
use jl_core::EventMachine;
use jl_places::Places;
use jl_types::{CallSiteId, Event, Place, Refusal, SiteNo};
use std::alloc::Global;

/// Requests the places in classes that stay, in order. A refusal is the error.
pub(crate) fn add_requests<M: EventMachine>(
    alloc: Global,
    fresh: &mut M,
    places: &Places,
    numbers: &Renumbering,
) -> Result<(), Refusal>
    ensures adds { OnOk result (Adds (filter_map (renewal.request numbers.now) places.now) (M.state fresh.old) (M.state fresh.new)) }
    ensures stops { IfErr result (IsStoppedAt (filter_map (renewal.request numbers.now) places.now) (M.state fresh.old) (M.state fresh.new)) }
{
    // Bounds the loop.
    let _count = places.len();
    let mut number = 0;
    while let Some(place) = places.get_index(number) {
        add_if_any(alloc, fresh, request(numbers, place))?;
        number += 1;
    }
    Ok(())
}

/// The request of the place, if its class stays.
pub(crate) fn request(numbers: &Renumbering, place: &Place) -> Option<Event>
    ensures { result ≡ renewal.request numbers.now place.now }
{
    let class = numbers.class(place.class)?;
    Some(Event::Request(Place {
        class,
        method: place.method,
        pc: place.pc,
    }))
}

/// Binds the invokedynamics that stay, in order. A refusal is the error.
pub(crate) fn add_bindings<M: EventMachine>(
    alloc: Global,
    fresh: &mut M,
    bindings: &IndexMap<SiteNo, CallSiteId>,
    numbers: &Renumbering,
) -> Result<(), Refusal>
    ensures adds { OnOk result (Adds (filter_map (renewal.binding numbers.now) bindings.now.entries) (M.state fresh.old) (M.state fresh.new)) }
    ensures stops { IfErr result (IsStoppedAt (filter_map (renewal.binding numbers.now) bindings.now.entries) (M.state fresh.old) (M.state fresh.new)) }
{
    let bound: Vec<(SiteNo, CallSiteId)> = bindings
        .iter()
        .map(|(site, call_site)| (*site, *call_site))
        .collect(alloc)?;
    add_each(alloc, fresh, bound.as_slice(), numbers)
}

/// Binds those of these that stay, in order. A refusal is the error.
fn add_each<M: EventMachine>(
    alloc: Global,
    fresh: &mut M,
    bound: &[(SiteNo, CallSiteId)],
    numbers: &Renumbering,
) -> Result<(), Refusal>
    ensures adds { OnOk result (Adds (filter_map (renewal.binding numbers.now) bound.now) (M.state fresh.old) (M.state fresh.new)) }
    ensures stops { IfErr result (IsStoppedAt (filter_map (renewal.binding numbers.now) bound.now) (M.state fresh.old) (M.state fresh.new)) }
{
    for one in bound {
        add_if_any(alloc, fresh, binding(numbers, one.0, one.1))?;
    }
    Ok(())
}

/// The binding of the site to the call site, if both stay.
pub(crate) fn binding(numbers: &Renumbering, site: SiteNo, call_site: CallSiteId) -> Option<Event>
    ensures { result ≡ renewal.binding numbers.now (site, call_site) }
{
    let site = numbers.site(site)?;
    let call_site = numbers.call_site(call_site)?;
    Some(Event::Bind(site, call_site))
}
