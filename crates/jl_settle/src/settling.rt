//! The links and the index once the world has changed.

ghost use Rattle.std.specs.Prelude.{◌≡◌, ◌==◌, ◌+◌, ◌^◌, ◌<◌, ◌≤◌, ℕ, true, false, sum_by, None, is_some, IfOk, OnOk, if◌then◌else◌};
ghost use Rattle.std.specs.List.{list_any};
ghost use Rattle.jl_cache.specs.Links.{link_at};
ghost use Rattle.jl_deps.specs.Indexes.{rests_at, rests_if, touched_by};
ghost use Rattle.jl_settle.specs.Settling.{AreUpToDate, HasChanged, most_asked};

use crate::lost::lost_among;
use jl_cache::Cache;
use jl_deps::{Index, rests_of};
use jl_relink::World;
use jl_types::{ClassId, Key, SiteNo, Work};
use std::alloc::{AllocError, Global};

/// Drops the links that aren't those from scratch any more, once an event with these keys has changed the world, and brings the index
/// up to date. It gives the sites whose links went, by rising number.
///
/// It looks only at sites that the event touches. It evaluates one link of all that select alike, and each of the others. If the event
/// defined a class, it asks only what a call runs on an object of this class.
///
/// # Errors
///
/// Want of memory. The links and the index are of no use then.
pub fn settle(
    alloc: Global,
    world: &World,
    links: &mut Cache,
    index: &mut Index,
    keys: &[Key],
    defined: Option<ClassId>,
    work: &mut Work,
) -> Result<Vec<SiteNo>, AllocError>
    requires changed { HasChanged world.now keys.now defined (link_at links.old) index.old }
    requires fits { work.old + sum_by (most_asked world.now defined) (touched_by index.old keys.now) < 2 ^ 64 }
    ensures ticks { OnOk result (work.new ≤ work.old + sum_by (most_asked world.now defined) (touched_by index.old keys.now)) }
    ensures up_to_date { IfOk result (λ lost. AreUpToDate world.now (λ s. false) (link_at links.old) (link_at links.new) index.new lost.items) }
{
    let asked = index.asked(alloc, keys)?;
    let gone = lost_among(alloc, world, links, index, asked.as_slice(), &defined, work)?;
    let lost = index.together(alloc, gone.as_slice())?;
    links.drop_changed(lost.as_slice());
    reindex(
        alloc,
        world,
        links,
        index,
        asked.as_slice(),
        lost.as_slice(),
        &defined,
    )?;
    Ok(lost)
}

/// Takes the sites whose links went out of the index. If no class was defined, it looks up what the other asked sites rest on, which may
/// have changed. On an error the index is of no use.
fn reindex(
    alloc: Global,
    world: &World,
    links: &Cache,
    index: &mut Index,
    asked: &[SiteNo],
    lost: &[SiteNo],
    defined: &Option<ClassId>,
) -> Result<(), AllocError>
    ensures taken { is_some defined.now ≡ true → OnOk result ((s : ℕ) → rests_at index.new s
        ≡ (if list_any (λ t. t == s) lost.now then None else rests_at index.old s)) }
    ensures looked_up { is_some defined.now ≡ false → OnOk result ((s : ℕ) → rests_at index.new s ≡ (if list_any (λ t. t == s) asked.now
        then rests_if world.now s (link_at links.now s) else if list_any (λ t. t == s) lost.now then None else rests_at index.old s)) }
{
    remove_all(index, lost);
    if defined.is_some() {
        return Ok(());
    }
    refresh(alloc, world, links, index, asked)
}

/// Takes these sites out of the index.
pub(crate) fn remove_all(index: &mut Index, sites: &[SiteNo])
    ensures { (s : ℕ) → rests_at index.new s ≡ (if list_any (λ t. t == s) sites.now then None else rests_at index.old s) }
{
    for site in sites {
        index.remove(*site);
    }
}

/// Each of these sites that has a link has in the index what that rests on, and each other one nothing. On an error the
/// index is of no use.
pub(crate) fn refresh(
    alloc: Global,
    world: &World,
    links: &Cache,
    index: &mut Index,
    sites: &[SiteNo],
) -> Result<(), AllocError>
    ensures { OnOk result ((s : ℕ) → rests_at index.new s ≡ (if list_any (λ t. t == s) sites.now
        then rests_if world.now s (link_at links.now s) else rests_at index.old s)) }
{
    for site in sites {
        refresh_site(alloc, world, links, index, *site)?;
    }
    Ok(())
}

/// If the site has a link, it has in the index what that rests on, and else nothing. On an error the index is of no
/// use.
fn refresh_site(
    alloc: Global,
    world: &World,
    links: &Cache,
    index: &mut Index,
    site: SiteNo,
) -> Result<(), AllocError>
    ensures { OnOk result ((s : ℕ) → rests_at index.new s ≡ (if site == s
        then rests_if world.now site (link_at links.now site) else rests_at index.old s)) }
{
    if links.kept(site).is_none() {
        index.remove(site);
        return Ok(());
    }
    let rests = rests_of(alloc, world, site)?;
    index.add(alloc, site, rests)
}
