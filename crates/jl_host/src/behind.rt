//! Links in shared pages, brought up to date where events have touched them.

ghost use Rattle.std.specs.Prelude.{◌≡◌, ◌<◌, ◌^◌, ◌==◌, nat_lt, ℕ, true, length, replicate, slice_set, None, IfOk, OnOk, OnErr};
ghost use Rattle.std.specs.List.{list_any};
ghost use Rattle.jl_types.specs.Events.History.{installed};
ghost use Rattle.jl_core.specs.State.{events};
ghost use Rattle.jl_core.specs.ForProofs.Touched.{has};
ghost use Rattle.jl_host.specs.Seats.{room_for};
ghost use Rattle.jl_host.specs.ForProofs.Behind.{IsNow, IsBehind, installs_at, touched_by};

use jl_cache::{KeptLink, KeptSlot};
use jl_core::{Accepted, Core, Entry};
use jl_slots::{PAGE, Slots};
use jl_types::SiteNo;
use std::alloc::{AllocError, Global};
use std::sync::Arc;

/// The site's link or none, by the number of the site. Its table is the one that the core has.
pub(crate) type Links = Slots<KeptSlot>;

/// No links, with a place for each of so many sites.
pub(crate) fn no_links(alloc: Global, max_sites: u32) -> Result<Arc<Links>, AllocError>
    ensures few { max_sites < 2 ^ 32 }
    ensures blank { IfOk result (λ links. links.value ≡ replicate (room_for max_sites) None) }
{
    let pages = (max_sites as usize + (PAGE - 1)) / PAGE;
    Ok(Arc::new(alloc, Slots::filled(alloc, KeptSlot::nothing(), pages)?)?)
}

/// Whether there is such a place.
fn is_within(links: &Arc<Links>, place: usize) -> bool
    ensures { result ≡ nat_lt place (length links.now.value) }
{
    links.get(place).is_some()
}

/// Writes the link, or none, at the place.
///
/// # Errors
///
/// Want of memory. Nothing has changed then.
fn put(links: &mut Arc<Links>, place: usize, slot: KeptSlot) -> Result<(), AllocError>
    requires { place < length links.old.value }
    ensures ok { OnOk result (links.new.value ≡ slice_set links.old.value place slot) }
    ensures err { OnErr result (links.new.value ≡ links.old.value) }
{
    let slots = Arc::make_mut(links)?;
    slots.set(place, slot)
}

/// What stands at the site now. More owners of a table than can be counted are an error.
fn slot_now(core: &Core, site: SiteNo) -> Result<KeptSlot, AllocError>
    ensures { IfOk result (λ slot. slot ≡ installed (events core.now) site) }
{
    match core.links().kept(site) {
        Some(kept) => kept.slot(),
        None => Ok(KeptSlot::nothing()),
    }
}

/// Writes the site's link as it is now.
///
/// # Errors
///
/// Want of memory. What was right is right.
fn write_site(links: &mut Arc<Links>, core: &Core, site: SiteNo) -> Result<(), AllocError>
    requires { length links.old.value ≡ room_for core.now.limits.sites }
    ensures all { length links.new.value ≡ room_for core.now.limits.sites }
    ensures kept { (s : ℕ) → IsNow core.now links.old.value s → IsNow core.now links.new.value s }
    ensures written { OnOk result (site < room_for core.now.limits.sites → IsNow core.now links.new.value site) }
{
    let place = site.number() as usize;
    if !is_within(links, place) {
        return Ok(());
    }
    let slot = slot_now(core, site)?;
    put(links, place, slot)
}

/// Writes the links of these sites as they are now.
///
/// # Errors
///
/// Want of memory. What was right is right.
fn write_sites(links: &mut Arc<Links>, core: &Core, sites: &[SiteNo]) -> Result<(), AllocError>
    requires { length links.old.value ≡ room_for core.now.limits.sites }
    ensures all { length links.new.value ≡ room_for core.now.limits.sites }
    ensures kept { (s : ℕ) → IsNow core.now links.old.value s → IsNow core.now links.new.value s }
    ensures written { OnOk result ((s : ℕ) → s < room_for core.now.limits.sites → has s sites.now ≡ true → IsNow core.now links.new.value s) }
{
    for site in sites {
        write_site(links, core, *site)?;
    }
    Ok(())
}

/// Writes the links of the sites of these rows as they are now.
///
/// # Errors
///
/// Want of memory. What was right is right.
fn write_rows<T: Drop>(
    links: &mut Arc<Links>,
    core: &Core,
    rows: &[(SiteNo, T)],
) -> Result<(), AllocError>
    requires { length links.old.value ≡ room_for core.now.limits.sites }
    ensures all { length links.new.value ≡ room_for core.now.limits.sites }
    ensures kept { (s : ℕ) → IsNow core.now links.old.value s → IsNow core.now links.new.value s }
    ensures written { OnOk result ((s : ℕ) → s < room_for core.now.limits.sites → list_any (λ row. row.0 == s) rows.now ≡ true
        → IsNow core.now links.new.value s) }
{
    for row in rows {
        write_site(links, core, row.0)?;
    }
    Ok(())
}

/// Writes the links of the sites that the event installs as they are now.
///
/// # Errors
///
/// Want of memory. What was right is right.
fn write_installed(links: &mut Arc<Links>, core: &Core, event: &Accepted) -> Result<(), AllocError>
    requires { length links.old.value ≡ room_for core.now.limits.sites }
    ensures all { length links.new.value ≡ room_for core.now.limits.sites }
    ensures kept { (s : ℕ) → IsNow core.now links.old.value s → IsNow core.now links.new.value s }
    ensures written { OnOk result ((s : ℕ) → s < room_for core.now.limits.sites → installs_at s event.now ≡ true → IsNow core.now links.new.value s) }
{
    match event {
        Accepted::Install(rows) => write_rows(links, core, rows.as_slice()),
        _ => Ok(()),
    }
}

/// Writes the links of the sites that these entries' events touched as they are now.
///
/// # Errors
///
/// Want of memory. What was right is right.
fn write_entries(links: &mut Arc<Links>, core: &Core, entries: &[Entry]) -> Result<(), AllocError>
    requires { length links.old.value ≡ room_for core.now.limits.sites }
    ensures all { length links.new.value ≡ room_for core.now.limits.sites }
    ensures kept { (s : ℕ) → IsNow core.now links.old.value s → IsNow core.now links.new.value s }
    ensures written { OnOk result ((s : ℕ) → s < room_for core.now.limits.sites → list_any (touched_by s) entries.now ≡ true
        → IsNow core.now links.new.value s) }
{
    for entry in entries {
        write_sites(links, core, entry.dropped())?;
        let event = entry.event();
        write_installed(links, core, event.get())?;
    }
    Ok(())
}

/// All links as they are now, in pages of their own. No page is made of sites that all have no link.
fn all_links(alloc: Global, core: &Core) -> Result<Arc<Links>, AllocError>
    ensures all { IfOk result (λ links. length links.value ≡ room_for core.now.limits.sites) }
    ensures now { IfOk result (λ links. (s : ℕ) → s < room_for core.now.limits.sites → IsNow core.now links.value s) }
{
    let rows = core.list_links(alloc)?;
    let mut links = no_links(alloc, core.limits().sites)?;
    write_rows(&mut links, core, rows.as_slice())?;
    Ok(links)
}

/// Brings the links up to date, which were so up to the `reached`-th event, and tells how many events there are. If some of the later
/// entries are past, all links are written anew.
///
/// # Errors
///
/// Want of memory. The links are behind the core as before.
pub(crate) fn catch_up(
    links: &mut Arc<Links>,
    alloc: Global,
    core: &Core,
    reached: u64,
) -> Result<u64, AllocError>
    requires { IsBehind links.old.value reached core.now }
    ensures still { IsBehind links.new.value reached core.now }
    ensures done { IfOk result (λ n. n ≡ length core.now.log) }
    ensures now { OnOk result ((s : ℕ) → s < room_for core.now.limits.sites → IsNow core.now links.new.value s) }
{
    let log = core.log();
    let count = log.len();
    let Some(entries) = log.kept_from(reached) else {
        *links = all_links(alloc, core)?;
        return Ok(count);
    };
    write_entries(links, core, entries)?;
    Ok(count)
}
