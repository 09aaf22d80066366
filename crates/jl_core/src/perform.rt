//! What an accepted event changes: the world, the installed links, their index and the log. Nothing is judged here.

ghost use Rattle.std.specs.Prelude.{◌≡◌, ◌<◌, ◌^◌, ◌+◌, ◌≤◌, ◌++◌, ◌∷◌, [], List, false, length, IfOk, OnOk, ℕ};
ghost use Rattle.jl_types.specs.declared.event.EventOf.TheVariants as events;
ghost use Rattle.jl_types.specs.declared.key.Key as keys;
ghost use Rattle.jl_cache.specs.Links.{link_at};
ghost use Rattle.jl_settle.specs.Settling.{AreUpToDate};
ghost use Rattle.jl_events.specs.Changes.{IsAcceptable};
ghost use Rattle.jl_core.specs.ForProofs.Changes.{installs_at};
ghost use Rattle.jl_core.specs.ForProofs.Steps.{AreGone, AreRetired, IsRetirement, IsSound, HasStepped, IsStep, most_told};
ghost use Rattle.jl_core.specs.ForProofs.Touched.{AreTouched};

use crate::log::Entry;
use jl_cache::{Cache, KeptLink};
use jl_deps::{Index, keys_of};
use jl_events::{Accepted, defined_class, step_world};
use jl_journal::Journal;
use jl_names::Seq;
use jl_relink::World;
use jl_settle::{forget, install_rows, settle, sites_of};
use jl_types::{Event, Key, Made, Reply, SiteNo, Work};
use std::alloc::{AllocError, Global};
use std::slice::from_ref;
use std::sync::Arc;

/// Changes the world, the links and their index as the accepted event says, keeps it in the log, and answers it. Of the installed links
/// it looks at those that the event touches, and at no others.
///
/// # Errors
///
/// Want of memory, and then what is there is of no use.
pub(crate) fn perform(
    world: &mut Arc<World>,
    links: &mut Cache,
    index: &mut Index,
    log: &mut Journal<Entry>,
    alloc: Global,
    event: Event,
    work: &mut Work,
) -> Result<Reply, AllocError>
    requires accepted { IsAcceptable world.old.value event }
    requires sound { IsSound world.old.value links.old index.old }
    requires few { length world.old.value.places < 2 ^ 32 }
    requires small { work.old ≤ 2 ^ 28 }
    ensures { IfOk result (IsStep world.old.value world.new.value links.old links.new index.old index.new log.old log.new event work.old work.new) }
{
    let keys = keys_of(alloc, world, &event)?;
    let retired = retired_sites(alloc, world, &event)?;
    let (event, made) = step_world(world, alloc, event)?;
    let lost = relink(
        alloc,
        world,
        links,
        index,
        keys.as_slice(),
        retired.as_slice(),
        &event,
        work,
    )?;
    let reply = answered(log, alloc, made, event, lost)?;
    Ok(reply)
}

/// Sites that the event retires, each that has a link among them: what a retirement drops is found before the loader is gone.
fn retired_sites(alloc: Global, world: &World, event: &Event) -> Result<Vec<SiteNo>, AllocError>
    requires { length world.now.places < 2 ^ 32 }
    ensures { IfOk result (λ sites. AreRetired world.now event.now sites.items) }
{
    match event {
        Event::Retire(loader) => sites_of(alloc, world, from_ref(loader)),
        Event::RetireAll(loaders) => sites_of(alloc, world, loaders.as_slice()),
        _ => Ok(Vec::new(alloc)),
    }
}

/// Brings the links and the index up to date with the event, which has led to the world. It gives the sites whose links went. Want of
/// memory is an error; the links and the index are of no use then.
fn relink(
    alloc: Global,
    world: &World,
    links: &mut Cache,
    index: &mut Index,
    keys: &[Key],
    retired: &[SiteNo],
    event: &Accepted,
    work: &mut Work,
) -> Result<Vec<SiteNo>, AllocError>
    requires led { HasStepped world.now keys.now event.now links.old index.old }
    requires gone { AreGone world.now event.now links.old retired.now }
    requires small { work.old ≤ 2 ^ 28 }
    ensures up_to_date { IfOk result (λ lost. AreUpToDate world.now (λ s. installs_at s event.now) (link_at links.old) (link_at links.new)
        index.new lost.items) }
    ensures ticks { OnOk result (work.new ≤ work.old + most_told world.now event.now index.old keys.now) }
{
    match event {
        Accepted::Install(rows) => {
            let lost = install_links(alloc, world, links, index, rows.as_slice())?;
            Ok(lost)
        }
        Accepted::Retire(_) => {
            let lost = retire_links(alloc, world, links, index, keys, retired, event, work)?;
            Ok(lost)
        }
        Accepted::RetireAll(_) => {
            let lost = retire_links(alloc, world, links, index, keys, retired, event, work)?;
            Ok(lost)
        }
        _ => {
            let defined = defined_class(event);
            let lost = settle(alloc, world, links, index, keys, defined, work)?;
            Ok(lost)
        }
    }
}

/// Brings the links and the index up to date with an install of these rows. No link goes. On an error the links and the
/// index are of no use.
fn install_links(
    alloc: Global,
    world: &World,
    links: &mut Cache,
    index: &mut Index,
    rows: &[(SiteNo, KeptLink)],
) -> Result<Vec<SiteNo>, AllocError>
    requires { (keys : List keys.Key) × HasStepped world.now keys (events.Install rows.now) links.old index.old }
    ensures { IfOk result (λ lost. AreUpToDate world.now (λ s. installs_at s (events.Install rows.now)) (link_at links.old) (link_at links.new)
        index.new lost.items) }
{
    install_rows(alloc, world, links, index, rows)?;
    Ok(Vec::new(alloc))
}

/// Brings the links and the index up to date with a retirement. The links of the loaders' sites are dropped without a look at them. Of the
/// others those that the event touches are looked up, each once. It gives the sites whose links went. On an error the
/// links and the index are of no use.
fn retire_links(
    alloc: Global,
    world: &World,
    links: &mut Cache,
    index: &mut Index,
    keys: &[Key],
    retired: &[SiteNo],
    event: &Accepted,
    work: &mut Work,
) -> Result<Vec<SiteNo>, AllocError>
    requires is { (loaders : List ℕ) × IsRetirement event.now loaders }
    requires led { HasStepped world.now keys.now event.now links.old index.old }
    requires gone { AreGone world.now event.now links.old retired.now }
    requires small { work.old ≤ 2 ^ 28 }
    ensures up_to_date { IfOk result (λ lost. AreUpToDate world.now (λ s. false) (link_at links.old) (link_at links.new) index.new lost.items) }
    ensures ticks { OnOk result (work.new ≤ work.old + most_told world.now event.now index.old keys.now) }
{
    // Shows how few classes there are, which bounds the work.
    let _classes = world.classes.count_in_order();
    let mut gone = forget(alloc, links, index, retired)?;
    // Shows that the sites of the index rise.
    let _sites = index.len();
    let lost = settle(alloc, world, links, index, keys, None, work)?;
    gone.extend_from_slice(lost.as_slice())?;
    Ok(gone)
}

/// Keeps the event, which drops the links of these sites, in the log, and answers it. On an error the log is of no use.
fn answered(
    log: &mut Journal<Entry>,
    alloc: Global,
    made: Made,
    event: Accepted,
    lost: Vec<SiteNo>,
) -> Result<Reply, AllocError>
    ensures made { IfOk result (λ reply. reply.made ≡ made) }
    ensures dropped { IfOk result (λ reply. AreTouched lost.items reply.dropped) }
    ensures last { IfOk result (λ reply. log.new ≡ log.old ++ record { event = event; reply = reply } ∷ []) }
{
    let dropped = each_once(lost);
    let logged = dropped.as_slice().to_vec(alloc)?;
    log.push(Entry::new(alloc, event, reply(&made, logged))?)?;
    Ok(reply(&made, dropped))
}

/// The reply of what was made and the sites that were dropped.
fn reply(made: &Made, dropped: Vec<SiteNo>) -> Reply
    ensures made { result.made ≡ made.now }
    ensures dropped { result.dropped ≡ dropped.items }
{
    Reply {
        made: *made,
        dropped: Seq::of(dropped),
    }
}

/// The sites, each once, by rising number. Takes no memory.
pub(crate) fn each_once(sites: Vec<SiteNo>) -> Vec<SiteNo>
    ensures { AreTouched sites.items result.items }
{
    let mut sites = sites;
    sites.sort_unstable();
    sites.dedup();
    sites
}
