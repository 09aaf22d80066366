//! Events that an old core has accepted since its renewal began.

ghost use Rattle.std.specs.Prelude.{◌≡◌, OnOk, OnErr, IfErr, Some, None, IsOk};
ghost use Rattle.jl_types.specs.Events.Event.{Event};
ghost use Rattle.jl_types.specs.Events.Verdict.{verdict};
ghost use Rattle.jl_events.specs.Accepted.{event_of};
ghost use Rattle.jl_core.specs.State.{State, world_of};
ghost use Rattle.jl_renewal.specs.Carries as carries;
ghost use Rattle.jl_renewal.specs.Carries.{IsMade, IsNoted, IsCarried, IsUncarried, IsTaken, AreLeft, with_made, with_number};
ghost use Rattle.jl_renewal.specs.Moved.{Flags, IsBeside, IsFaultBeside};

use crate::carried::carried_event;
use crate::numbers::Renumbering;
use jl_core::{Accepted, Entry, EventMachine};
use jl_relink::World;
use jl_types::{Event, Made, Refusal};
use std::alloc::{AllocError, Global};

/// Why an entry isn't carried over.
#[derive(Debug, Drop)]
pub enum CarryFault {
    /// It names what the fresh core doesn't have: a call site or switch point that didn't come over, or something made by an entry that is
    /// gone itself. What it made is noted as gone, so that what later entries make keeps its number.
    Gone,
    /// The fresh core refuses the event: for want of memory alone, if it stands beside the old core
    /// ([`fresh_cores_stay_beside`](crate::fresh_cores_stay_beside)).
    Refused(Refusal),
}

/// Carries an entry of the old log over: the fresh core accepts its event under the new numbers, which then have what it made. If the
/// entry defines a class, the world `old` has that class. Entries are carried one by one, in order, from the first that the renewal didn't
/// have. An install changes nothing: links come over by [`fresh_links`](crate::fresh_links) once all else is there.
///
/// # Errors
///
/// [`CarryFault`]; want of memory is a refusal. The fresh core is as before then. So are the numbers after a refusal. If the fresh core
/// stands beside the old one as that accepts the entry, want of memory is the only refusal. Then only an event of a call site can be gone.
pub fn carry<M: EventMachine>(
    alloc: Global,
    fresh: &mut M,
    numbers: &mut Renumbering,
    old: &World,
    entry: &Entry,
) -> Result<(), CarryFault>
    ensures carried { OnOk result (IsCarried old.now entry.now numbers.old numbers.new (M.state fresh.old) (M.state fresh.new)) }
    ensures uncarried { IfErr result (IsUncarried old.now entry.now numbers.old (M.state fresh.old)) }
    ensures numbers { IfErr result (AreLeft entry.now.reply.made numbers.old numbers.new) }
    ensures unchanged { OnErr result (M.state fresh.new ≡ M.state fresh.old) }
    ensures beside { (k : Flags) (before : State) (e : Event) → IsBeside k before (M.state fresh.old) numbers.old
        → event_of old.now.classes.rows entry.now.event ≡ Some e → IsOk (verdict before.limits (world_of before) e) → IfErr result (IsFaultBeside e) }
{
    let told = entry.event();
    if let Accepted::Install(_) = told.get() {
        return Ok(());
    }
    match carried_event(alloc, numbers, old, told.get()) {
        Ok(Some(event)) => accept_or_fault(alloc, fresh, numbers, event, entry.made()),
        Ok(None) => match note_gone(numbers, entry.made()) {
            Ok(()) => Err(CarryFault::Gone),
            Err(_) => Err(CarryFault::Refused(Refusal::Memory)),
        },
        Err(_) => Err(CarryFault::Refused(Refusal::Memory)),
    }
}

/// The numbers have it that what an old event made is gone, if its number is the next one there. On an error the numbers
/// are as before.
fn note_gone(numbers: &mut Renumbering, made: Made) -> Result<(), AllocError>
    ensures noted { OnOk result (numbers.new ≡ with_made numbers.old made None) }
    ensures lacks { OnErr result (numbers.new ≡ numbers.old) }
{
    match made {
        Made::Nothing => Ok(()),
        Made::Loader(old) => note_none(&mut numbers.loaders, old.number()),
        Made::Class(old) => note_none(&mut numbers.classes, old.number()),
        Made::Site(old) => note_none(&mut numbers.sites, old.number()),
        Made::CallSite(old) => note_none(&mut numbers.call_sites, old.number()),
        Made::Switch(old) => note_none(&mut numbers.switches, old.number()),
    }
}

/// The list has none for the old number, if that is the next one there. On an error the list is as before.
fn note_none(numbers: &mut Vec<Option<u32>>, old: u32) -> Result<(), AllocError>
    ensures noted { OnOk result (numbers.new.items ≡ with_number numbers.old.items old None) }
    ensures lacks { OnErr result (numbers.new.items ≡ numbers.old.items) }
{
    if old as usize != numbers.len() {
        return Ok(());
    }
    numbers.reserve(1)?;
    numbers.push_reserved(None);
    Ok(())
}

/// [`accept_made`], whose refusal is told as a fault.
fn accept_or_fault<M: EventMachine>(
    alloc: Global,
    fresh: &mut M,
    numbers: &mut Renumbering,
    event: Event,
    made: Made,
) -> Result<(), CarryFault>
    ensures made { OnOk result (IsMade event made numbers.old numbers.new (M.state fresh.old) (M.state fresh.new)) }
    ensures fault { IfErr result (carries.IsFaultOf event (M.state fresh.old)) }
    ensures numbers { IfErr result (AreLeft made numbers.old numbers.new) }
    ensures unchanged { OnErr result (M.state fresh.new ≡ M.state fresh.old) }
{
    match accept_made(alloc, fresh, numbers, event, made) {
        Ok(()) => Ok(()),
        Err(refusal) => Err(CarryFault::Refused(refusal)),
    }
}

/// The fresh core accepts the event, which made this in the old core, and the numbers have what it made in the fresh one.
///
/// # Errors
///
/// The refusal; the fresh core and the numbers are as before then.
fn accept_made<M: EventMachine>(
    alloc: Global,
    fresh: &mut M,
    numbers: &mut Renumbering,
    event: Event,
    made: Made,
) -> Result<(), Refusal>
    ensures made { OnOk result (IsMade event made numbers.old numbers.new (M.state fresh.old) (M.state fresh.new)) }
    ensures refused { IfErr result (carries.IsRefusedIn (M.state fresh.old) event) }
    ensures numbers { OnErr result (numbers.new ≡ numbers.old) }
    ensures unchanged { OnErr result (M.state fresh.new ≡ M.state fresh.old) }
{
    match made {
        Made::Nothing => accept(alloc, fresh, event),
        Made::Loader(old) => accept_noting(alloc, fresh, &mut numbers.loaders, event, old.number()),
        Made::Class(old) => accept_noting(alloc, fresh, &mut numbers.classes, event, old.number()),
        Made::Site(old) => accept_noting(alloc, fresh, &mut numbers.sites, event, old.number()),
        Made::CallSite(old) => {
            accept_noting(alloc, fresh, &mut numbers.call_sites, event, old.number())
        }
        Made::Switch(old) => accept_noting(
            alloc,
            fresh,
            &mut numbers.switches,
            event,
            old.number(),
        ),
    }
}

/// The fresh core accepts the event.
///
/// # Errors
///
/// The refusal; the fresh core is as before then.
fn accept<M: EventMachine>(alloc: Global, fresh: &mut M, event: Event) -> Result<(), Refusal>
    ensures accepted { OnOk result (IsTaken event (M.state fresh.old) (M.state fresh.new)) }
    ensures refused { IfErr result (carries.IsRefusedIn (M.state fresh.old) event) }
    ensures unchanged { OnErr result (M.state fresh.new ≡ M.state fresh.old) }
{
    match fresh.accept(alloc, event) {
        Ok(_) => Ok(()),
        Err(refusal) => Err(refusal),
    }
}

/// The fresh core accepts the event, and the list has the number that this gave, if the old number is the next one there. The room for
/// it is made first.
///
/// # Errors
///
/// The refusal; the fresh core and the list are as before then.
fn accept_noting<M: EventMachine>(
    alloc: Global,
    fresh: &mut M,
    numbers: &mut Vec<Option<u32>>,
    event: Event,
    old: u32,
) -> Result<(), Refusal>
    ensures noted { OnOk result (IsNoted event old numbers.old.items numbers.new.items (M.state fresh.old) (M.state fresh.new)) }
    ensures refused { IfErr result (carries.IsRefusedIn (M.state fresh.old) event) }
    ensures numbers { OnErr result (numbers.new.items ≡ numbers.old.items) }
    ensures unchanged { OnErr result (M.state fresh.new ≡ M.state fresh.old) }
{
    let is_new = old as usize == numbers.len();
    numbers.reserve(1)?;
    match fresh.accept(alloc, event) {
        Ok(reply) => {
            if is_new {
                numbers.push_reserved(made_number(reply.made));
            }
            Ok(())
        }
        Err(refusal) => Err(refusal),
    }
}

/// The number that an event gave.
fn made_number(made: Made) -> Option<u32>
    ensures { result ≡ carries.made_number made }
{
    match made {
        Made::Nothing => None,
        Made::Loader(loader) => Some(loader.number()),
        Made::Class(class) => Some(class.number()),
        Made::Site(site) => Some(site.number()),
        Made::CallSite(site) => Some(site.number()),
        Made::Switch(point) => Some(point.number()),
    }
}
