//! The sites that an event changes.

ghost use Rattle.std.specs.Prelude.{◌≡◌, ◌++◌, ◌∷◌, [], map, filter_map, option_map, IfOk, OnOk};
ghost use Rattle.std.specs.List.{cons_option};
ghost use Rattle.jl_types.specs.Events.Event.{Event};
ghost use Rattle.jl_types.specs.declared.event.Reply.{Reply};
ghost use Rattle.jl_types.specs.Events.Entries.{change, same_slot, slots_changed};
ghost use Rattle.jl_core.specs.State.{events, IsAccepted};
ghost use Rattle.jl_core.specs.ForProofs.Touched.{touched_by, AreTouched, slot_at};

use crate::instance::Instance;
use crate::log::Entry;
use crate::perform::each_once;
use jl_cache::{Cache, KeptLink};
use jl_events::Accepted;
use jl_types::{Link, SiteNo};
use std::alloc::{AllocError, Global};

/// The sites at which the one instance's last event changed the links of the other, by rising number, each with its new link or
/// none.
pub(crate) fn changed(
    alloc: Global,
    before: &Instance,
    after: &Instance,
) -> Result<Vec<(SiteNo, Option<Link>)>, AllocError>
    ensures { IfOk result (λ slots. (e : Event) (reply : Reply) → IsAccepted before.now after.now e reply → slots.items ≡ slots_changed (events before.now) e) }
{
    let Some(last) = after.log().next_after(before.log().len()) else {
        return Ok(Vec::new(alloc));
    };
    let sites = touched(alloc, last)?;
    slots_among(alloc, before.links(), after.links(), &sites)
}

/// The sites that the entry's event may change, by rising number.
fn touched(alloc: Global, entry: &Entry) -> Result<Vec<SiteNo>, AllocError>
    ensures { IfOk result (λ sites. AreTouched (touched_by entry.now.event entry.now.reply.dropped) sites.items) }
{
    let sites = listed(alloc, entry)?;
    Ok(each_once(sites))
}

/// The sites that the entry's event drops, and those that it installs.
fn listed(alloc: Global, entry: &Entry) -> Result<Vec<SiteNo>, AllocError>
    ensures { IfOk result (λ sites. sites.items ≡ touched_by entry.now.event entry.now.reply.dropped) }
{
    let sites = entry.dropped().to_vec(alloc)?;
    let event = entry.event();
    match event.get() {
        Accepted::Install(rows) => with_sites(sites, rows.as_slice()),
        _ => Ok(sites),
    }
}

/// These sites, followed by those of the links.
pub(crate) fn with_sites(
    sites: Vec<SiteNo>,
    rows: &[(SiteNo, KeptLink)],
) -> Result<Vec<SiteNo>, AllocError>
    ensures { IfOk result (λ all. all.items ≡ sites.items ++ map (λ row. row.0) rows.now) }
{
    let mut all = sites;
    all.extend(rows.iter().map(|row| row.0))?;
    Ok(all)
}

/// Of these sites those whose links differ, each with its new link or none.
fn slots_among(
    alloc: Global,
    before: &Cache,
    after: &Cache,
    sites: &[SiteNo],
) -> Result<Vec<(SiteNo, Option<Link>)>, AllocError>
    ensures { IfOk result (λ slots. slots.items ≡ filter_map (slot_at before.now after.now) sites.now) }
{
    let mut slots = Vec::new(alloc);
    for site in sites {
        add_slot(&mut slots, *site, before.get(*site), after.get(*site))?;
    }
    Ok(slots)
}

/// Adds the site with what stands there afterwards, if that differs.
fn add_slot(
    slots: &mut Vec<(SiteNo, Option<Link>)>,
    site: SiteNo,
    before: Option<Link>,
    after: Option<Link>,
) -> Result<(), AllocError>
    ensures { OnOk result (slots.new.items ≡ slots.old.items ++ cons_option (option_map (λ slot. (site, slot)) (change before after)) []) }
{
    if is_same(&before, &after) {
        return Ok(());
    }
    push_slot(slots, site, after)
}

/// Adds the site with what stands there.
fn push_slot<T: Copy>(slots: &mut Vec<(SiteNo, T)>, site: SiteNo, slot: T) -> Result<(), AllocError>
    ensures { OnOk result (slots.new.items ≡ slots.old.items ++ (site, slot) ∷ []) }
{
    slots.push((site, slot))?;
    Ok(())
}

/// Whether the same stands there.
fn is_same(before: &Option<Link>, after: &Option<Link>) -> bool
    ensures { result ≡ same_slot before.now after.now }
{
    match before {
        Some(before) => match after {
            Some(after) => *after == *before,
            None => false,
        },
        None => after.is_none(),
    }
}
