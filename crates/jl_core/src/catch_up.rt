//! An accepted event in an instance that is one event behind another one. It is not judged again, nothing is evaluated, and no
//! footprint is looked up: what the event changed is taken over from the instance ahead.

ghost use Rattle.std.specs.Prelude.{◌≡◌, ◌<◌, ◌^◌, ◌++◌, ◌∷◌, [], ℕ, false, Some, None, length, IfOk, OnOk, if◌then◌else◌};
ghost use Rattle.jl_types.specs.Events.Event.{Event};
ghost use Rattle.jl_types.specs.Events.Footprints as footprints;
ghost use Rattle.jl_types.specs.Events.Retirement.{retires_site};
ghost use Rattle.jl_cache.specs.Links.{link_at};
ghost use Rattle.jl_deps.specs.Indexes.{rests_at, IsIndex};
ghost use Rattle.jl_events.specs.Accepted.{event_of};
ghost use Rattle.jl_events.specs.Changes.{IsNext};
ghost use Rattle.jl_core.specs.ForProofs.Changes.{AreScratch, retires_at};
ghost use Rattle.jl_core.specs.ForProofs.Replays.{AreDropped, IsFurther, IsUntouched};
ghost use Rattle.jl_core.specs.ForProofs.Touched.{has};

use crate::log::Entry;
use crate::slots::with_sites;
use jl_cache::Cache;
use jl_deps::{
    Index, Keys, keys_of_definition, keys_of_points, keys_of_release, keys_of_retirement,
    keys_of_target,
};
use jl_events::{Accepted, catch_up_world};
use jl_journal::{Journal, Share};
use jl_names::Seq;
use jl_relink::World;
use jl_settle::{forget, sites_of, take_over};
use jl_types::{LoaderId, SiteNo};
use std::alloc::{AllocError, Global};
use std::slice::from_ref;
use std::sync::Arc;

/// Brings the world, the links, their index and the log up to date with the entry, the last one of those ahead. Want of memory is an
/// error; what is there is of no use then.
pub(crate) fn catch_up(
    world: &mut Arc<World>,
    links: &mut Cache,
    index: &mut Index,
    log: &mut Journal<Entry>,
    alloc: Global,
    world_ahead: &Arc<World>,
    links_ahead: &Cache,
    index_ahead: &Index,
    entry: &Entry,
) -> Result<(), AllocError>
    requires further { IsFurther world.old.value world_ahead.now.value entry.now.event links.old links_ahead.now index.old index_ahead.now }
    requires gone { AreDropped entry.now links.old links_ahead.now }
    requires few { length world.old.value.places < 2 ^ 32 }
    ensures world { OnOk result (world.new.value ≡ world_ahead.now.value) }
    ensures links { OnOk result ((s : ℕ) → link_at links.new s ≡ link_at links_ahead.now s) }
    ensures index { OnOk result (IsIndex world_ahead.now.value (link_at links.new) index.new) }
    ensures log { OnOk result (log.new ≡ log.old ++ entry.now ∷ []) }
{
    catch_up_links(
        alloc,
        world,
        world_ahead,
        links,
        index,
        links_ahead,
        index_ahead,
        entry,
    )?;
    let event = entry.event();
    catch_up_world(world, alloc, world_ahead, event.get())?;
    log.push(entry.share()?)?;
    Ok(())
}

/// Brings the links and their index up to date with the entry's event, which leads from the one world to the one ahead. If a class was
/// defined, what links rest on stays, so only the links that the event dropped are looked at. On an error what is there
/// is of no use.
fn catch_up_links(
    alloc: Global,
    world: &World,
    ahead: &World,
    links: &mut Cache,
    index: &mut Index,
    links_ahead: &Cache,
    index_ahead: &Index,
    entry: &Entry,
) -> Result<(), AllocError>
    requires further { IsFurther world.now ahead.now entry.now.event links.old links_ahead.now index.old index_ahead.now }
    requires gone { AreDropped entry.now links.old links_ahead.now }
    requires few { length world.now.places < 2 ^ 32 }
    ensures links { OnOk result ((s : ℕ) → link_at links.new s ≡ link_at links_ahead.now s) }
    ensures index { OnOk result (IsIndex ahead.now (link_at links.new) index.new) }
{
    let event = entry.event();
    match event.get() {
        Accepted::Define(_, _) => {
            forget(alloc, links, index, entry.dropped())?;
            Ok(())
        }
        event => catch_up_touched(
            alloc,
            world,
            ahead,
            links,
            index,
            links_ahead,
            index_ahead,
            event,
        ),
    }
}

/// Brings the links and their index up to date with any event, at each site that it touches. On an error what is there is
/// of no use.
fn catch_up_touched(
    alloc: Global,
    world: &World,
    ahead: &World,
    links: &mut Cache,
    index: &mut Index,
    links_ahead: &Cache,
    index_ahead: &Index,
    event: &Accepted,
) -> Result<(), AllocError>
    requires further { IsFurther world.now ahead.now event.now links.old links_ahead.now index.old index_ahead.now }
    requires few { length world.now.places < 2 ^ 32 }
    ensures links { OnOk result ((s : ℕ) → link_at links.new s ≡ link_at links_ahead.now s) }
    ensures index { OnOk result (IsIndex ahead.now (link_at links.new) index.new) }
{
    forget_retired(alloc, world, links, index, event)?;
    // Shows that the sites of the index rise.
    let _sites = index.len();
    let sites = changed_sites(alloc, world, ahead, index, event)?;
    take_over(
        alloc,
        links,
        index,
        links_ahead,
        index_ahead,
        sites.as_slice(),
    )?;
    Ok(())
}

/// If the event retires loaders, the sites in their classes have no links and no footprints any more.
fn forget_retired(
    alloc: Global,
    world: &World,
    links: &mut Cache,
    index: &mut Index,
    event: &Accepted,
) -> Result<(), AllocError>
    requires few { length world.now.places < 2 ^ 32 }
    requires scratch { AreScratch world.now links.old }
    requires indexed { IsIndex world.now (link_at links.old) index.old }
    ensures links { OnOk result ((s : ℕ) → link_at links.new s
        ≡ (if retires_at world.now event.now s then None else link_at links.old s)) }
    ensures index { OnOk result ((s : ℕ) → rests_at index.new s
        ≡ (if retires_at world.now event.now s then None else rests_at index.old s)) }
{
    match event {
        Accepted::Retire(loader) => {
            forget_sites_of(alloc, world, links, index, from_ref(loader))
        }
        Accepted::RetireAll(loaders) => {
            forget_sites_of(alloc, world, links, index, loaders.as_slice())
        }
        _ => Ok(()),
    }
}

/// The sites in the classes of the loaders have no links and no footprints any more.
fn forget_sites_of(
    alloc: Global,
    world: &World,
    links: &mut Cache,
    index: &mut Index,
    loaders: &[LoaderId],
) -> Result<(), AllocError>
    requires few { length world.now.places < 2 ^ 32 }
    requires scratch { AreScratch world.now links.old }
    requires indexed { IsIndex world.now (link_at links.old) index.old }
    ensures links { OnOk result ((s : ℕ) → link_at links.new s
        ≡ (if retires_site world.now loaders.now s then None else link_at links.old s)) }
    ensures index { OnOk result ((s : ℕ) → rests_at index.new s
        ≡ (if retires_site world.now loaders.now s then None else rests_at index.old s)) }
{
    let sites = sites_of(alloc, world, loaders)?;
    forget(alloc, links, index, sites.as_slice())?;
    Ok(())
}

/// The sites whose links and footprints the event may change.
fn changed_sites(
    alloc: Global,
    world: &World,
    ahead: &World,
    index: &Index,
    event: &Accepted,
) -> Result<Vec<SiteNo>, AllocError>
    requires { IsNext world.now ahead.now event.now }
    ensures { IfOk result (λ sites. (e : Event) → event_of ahead.now.classes.rows event.now ≡ Some e
        → (s : ℕ) → has s sites.items ≡ false → IsUntouched world.now index.now e s) }
{
    match event {
        Accepted::Install(rows) => {
            let sites = with_sites(Vec::new(alloc), rows.as_slice())?;
            Ok(sites)
        }
        _ => {
            let keys = keys_told(alloc, world, ahead, event)?;
            let sites = index.touched_by(alloc, keys.as_slice())?;
            Ok(sites)
        }
    }
}

/// What the event changes of what links rest on.
fn keys_told(
    alloc: Global,
    world: &World,
    ahead: &World,
    event: &Accepted,
) -> Result<Keys, AllocError>
    requires { IsNext world.now ahead.now event.now }
    ensures { IfOk result (λ keys. (e : Event) → event_of ahead.now.classes.rows event.now ≡ Some e → keys ≡ footprints.keys world.now e) }
{
    match event {
        Accepted::Define(loader, class) => {
            let made = ahead.classes.class_at(*class).unwrap();
            keys_of_definition(alloc, &world.classes, *loader, made.file())
        }
        Accepted::SetTarget(site, _) => keys_of_target(alloc, *site),
        Accepted::Invalidate(points) => keys_of_points(alloc, &world.sites, points.as_slice()),
        Accepted::Retire(loader) => keys_of_retirement(alloc, &world.classes, from_ref(loader)),
        Accepted::RetireAll(loaders) => {
            keys_of_retirement(alloc, &world.classes, loaders.as_slice())
        }
        Accepted::Release(call_sites, _) => keys_of_release(alloc, call_sites.as_slice()),
        _ => Ok(Seq::of(Vec::new(alloc))),
    }
}
