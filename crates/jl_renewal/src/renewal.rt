//! A fresh core that has what stays of an old one.

ghost use Rattle.std.specs.Prelude.{◌≡◌, IfOk, IfErr, OnOk};
ghost use Rattle.jl_types.specs.Events.Limits.{AreAllowed};
ghost use Rattle.jl_renewal.specs.Renewal.{IsRenewal, IsRefusedRenewal, IsPast, IsRefilled, site_events};
ghost use Rattle.jl_renewal.specs.Told.{told_renewal, IsFilledFrom, IsPartlyFilled};
ghost use Rattle.jl_renewal.specs.Adds.{Adds, IsStoppedAt};
ghost use Rattle.jl_core.specs.State.{world_of, empty_core};

use crate::call_sites::{add_call_sites, add_invalidation, add_switches};
use crate::classes::{add_classes, add_loaders};
use crate::links::{install_fresh, renumbered_links};
use crate::numbers::Renumbering;
use crate::places::{add_bindings, add_requests};
use crate::released::Released;
use crate::stays::renumbering;
use jl_core::{Core, Entry, EventMachine, Journal};
use jl_relink::World;
use jl_types::{Limits, Refusal};
use std::alloc::Global;

/// A fresh core that has what stays of the old one, in the same order, under new numbers. It gives numbers up to these limits, which may be
/// lower than the old core's. Each site that had a link has one. What stays is
///
/// - the loaders that aren't retired, with their classes and the sites in these
/// - the call sites and switch points that aren't released, if the owner hasn't let them go, or they are still needed
///
/// A site whose call site is released stays, and is no longer bound.
///
/// # Errors
///
/// Want of memory, or if more stay than the limits allow, the first of these:
///
/// - `SitesFull` of sites
/// - `LoadersFull` of loaders
/// - `Define(Full)` of classes
/// - `CallSite(Full)` of call sites or of switch points
///
/// No event is refused but for want of memory.
pub fn renew(
    alloc: Global,
    core: &Core,
    released: &Released,
    limits: Limits,
) -> Result<(Core, Renumbering), Refusal>
    requires { AreAllowed limits }
    ensures renewal { IfOk result (IsRenewal core.now released.now limits) }
    ensures refused { IfErr result (IsRefusedRenewal limits (world_of core.now) released.now) }
{
    let mut fresh = Core::with_limits(alloc, limits)?;
    let old = core.world();
    let numbers = refill(alloc, &mut fresh, old, core.log(), released, limits)?;
    let linked = core.list_links(alloc)?;
    let rows = renumbered_links(alloc, linked.as_slice(), &numbers)?;
    install_fresh(alloc, &mut fresh, rows.as_slice())?;
    Ok((fresh, numbers))
}

/// Gives an empty core of these limits, or what keeps one, what stays of the old core whose world and log these are. The links are left
/// out: those that [`fresh_links`](crate::fresh_links) tells are then to be installed by [`install_fresh`]. The log may have
/// [forgotten](Core::forget) what is past.
///
/// # Errors
///
/// Those of [`renew`]. The fresh core has then accepted some first events of the renewal, and no others.
pub fn refill<M: EventMachine>(
    alloc: Global,
    fresh: &mut M,
    old: &World,
    log: &Journal<Entry>,
    released: &Released,
    limits: Limits,
) -> Result<Renumbering, Refusal>
    requires past { IsPast old.now log.now }
    requires empty { M.state fresh.old ≡ empty_core limits }
    ensures refilled { IfOk result (λ numbers. IsRefilled old.now log.now released.now numbers (M.state fresh.old) (M.state fresh.new)) }
    ensures refused { IfErr result (IsRefusedRenewal limits old.now released.now) }
    ensures stops { IfErr result (IsPartlyFilled old.now log.now released.now limits (M.state fresh.old) (M.state fresh.new)) }
{
    try_refill(alloc, fresh, old, log, released, limits)
}

/// Does what [`refill`] does, if nobody has shown that the world and the log are of one past. Then an event may be refused, and that
/// refusal is the error.
///
/// # Errors
///
/// Those of [`refill`], and the refusal of an event. The fresh core has then accepted the events before that one, and no others.
pub fn try_refill<M: EventMachine>(
    alloc: Global,
    fresh: &mut M,
    old: &World,
    log: &Journal<Entry>,
    released: &Released,
    limits: Limits,
) -> Result<Renumbering, Refusal>
    requires empty { M.state fresh.old ≡ empty_core limits }
    ensures added { IfOk result (λ numbers. IsFilledFrom old.now log.now released.now numbers (M.state fresh.old) (M.state fresh.new)) }
    ensures past { IsPast old.now log.now
        → IfOk result (λ numbers. IsRefilled old.now log.now released.now numbers (M.state fresh.old) (M.state fresh.new)) }
    ensures refused { IsPast old.now log.now → IfErr result (IsRefusedRenewal limits old.now released.now) }
    ensures stops { IfErr result (IsPartlyFilled old.now log.now released.now limits (M.state fresh.old) (M.state fresh.new)) }
{
    // Shows that what is present rests on what is present.
    let _classes = old.classes.count_in_order();
    let numbers = renumbering(alloc, old, released, limits)?;
    add_all(alloc, fresh, old, log, &numbers)?;
    Ok(numbers)
}

/// Gives the fresh core what stays of the old one, but for the links. A refusal is the error.
fn add_all<M: EventMachine>(
    alloc: Global,
    fresh: &mut M,
    old: &World,
    log: &Journal<Entry>,
    numbers: &Renumbering,
) -> Result<(), Refusal>
    ensures adds { OnOk result (Adds (told_renewal old.now numbers.now log.now) (M.state fresh.old) (M.state fresh.new)) }
    ensures stops { IfErr result (IsStoppedAt (told_renewal old.now numbers.now log.now) (M.state fresh.old) (M.state fresh.new)) }
{
    add_loaders(alloc, fresh, numbers.loaders.as_slice())?;
    add_classes(alloc, fresh, old, numbers, log)?;
    add_sites(alloc, fresh, old, numbers)?;
    Ok(())
}

/// Makes the switch points and call sites, requests the places and binds the invokedynamics. A refusal is the error.
fn add_sites<M: EventMachine>(
    alloc: Global,
    fresh: &mut M,
    old: &World,
    numbers: &Renumbering,
) -> Result<(), Refusal>
    ensures adds { OnOk result (Adds (site_events old.now numbers.now) (M.state fresh.old) (M.state fresh.new)) }
    ensures stops { IfErr result (IsStoppedAt (site_events old.now numbers.now) (M.state fresh.old) (M.state fresh.new)) }
{
    add_switches(alloc, fresh, numbers.switches.as_slice())?;
    add_invalidation(alloc, fresh, &old.sites, numbers)?;
    add_call_sites(alloc, fresh, &old.sites, numbers)?;
    add_requests(alloc, fresh, &old.places, numbers)?;
    add_bindings(alloc, fresh, &old.bindings, numbers)?;
    Ok(())
}
