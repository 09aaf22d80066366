//! What an event changes of what links rest on.

ghost use Rattle.std.specs.Prelude.{◌≡◌, ◌==◌, ◌||◌, ◌&&◌, ◌++◌, ◌∷◌, ℕ, [], map, length, IfOk, OnOk};
ghost use Rattle.std.specs.List.{list_any};
ghost use Rattle.jl_types.specs.Events.Definitions as definitions;
ghost use Rattle.jl_types.specs.Events.Retirement.{losing_receivers};
ghost use Rattle.jl_types.specs.Linkage.Targets as targets;
ghost use Rattle.jl_types.specs.declared.key.Key.TheVariants as key;
ghost use Rattle.jl_types.specs.Events.Footprints as footprints;

use crate::footprint::{push_points, push_targets};
use jl_callsites::Sites;
use jl_class::ClassFile;
use jl_hierarchy::Classes;
use jl_names::Seq;
use jl_relink::World;
use jl_types::{CallSiteId, ClassId, Event, Key, LoaderId, SwitchId};
use std::alloc::{AllocError, Global};
use std::slice::from_ref;

/// What an event changes of what links rest on, as keys. Those of a release are in the order in which it lists them. All others rise, none
/// of them twice.
pub type Keys = Seq<Key>;

/// What the event, which the world is to accept, changes of what links rest on.
pub fn keys_of(alloc: Global, world: &World, event: &Event) -> Result<Keys, AllocError>
    ensures { IfOk result (λ keys. keys ≡ footprints.keys world.now event.now) }
{
    match event {
        Event::Define(loader, file) => keys_of_definition(alloc, &world.classes, *loader, file),
        Event::SetTarget(site, _) => keys_of_target(alloc, *site),
        Event::Invalidate(points) => keys_of_points(alloc, &world.sites, points.as_slice()),
        Event::Retire(loader) => keys_of_retirement(alloc, &world.classes, from_ref(loader)),
        Event::RetireAll(loaders) => keys_of_retirement(alloc, &world.classes, loaders.as_slice()),
        Event::Release(call_sites, _) => keys_of_release(alloc, call_sites.as_slice()),
        _ => Ok(Seq::of(Vec::new(alloc))),
    }
}

/// What a definition changes. If objects may be of the class that the loader makes of the file, that is the receivers of the ancestors of
/// the class. Else it is nothing.
pub fn keys_of_definition(
    alloc: Global,
    classes: &Classes,
    loader: LoaderId,
    file: &ClassFile,
) -> Result<Keys, AllocError>
    ensures { IfOk result (λ keys. keys ≡ footprints.of_class (definitions.defined classes.now loader file.now) (length classes.now.rows)) }
{
    let gaining = classes.gaining_receiver(alloc, loader, file)?;
    let mut keys = Vec::with_capacity(alloc, gaining.len())?;
    push_receivers(&mut keys, &gaining)?;
    Ok(Seq::of(keys))
}

/// What a retirement changes: the receivers of the ancestors of the loaders' classes that objects may be of.
pub fn keys_of_retirement(
    alloc: Global,
    classes: &Classes,
    loaders: &[LoaderId],
) -> Result<Keys, AllocError>
    ensures { IfOk result (λ keys. keys ≡ map key.Receivers (losing_receivers classes.now loaders.now)) }
{
    let losing = classes.losing_receivers(alloc, loaders)?;
    let mut keys = Vec::with_capacity(alloc, losing.len())?;
    push_receivers(&mut keys, &losing)?;
    Ok(Seq::of(keys))
}

/// Adds the receivers of these classes.
fn push_receivers(keys: &mut Vec<Key>, classes: &[ClassId]) -> Result<(), AllocError>
    ensures { OnOk result (keys.new.items ≡ keys.old.items ++ map key.Receivers classes.now) }
{
    for class in classes {
        keys.push(Key::Receivers(*class))?;
    }
    Ok(())
}

/// What a new target changes.
pub fn keys_of_target(alloc: Global, site: CallSiteId) -> Result<Keys, AllocError>
    ensures { IfOk result (λ keys. keys ≡ key.Target site ∷ []) }
{
    let mut keys = Vec::new(alloc);
    keys.push(Key::Target(site))?;
    Ok(Seq::of(keys))
}

/// What a release of these call sites changes. The switch points that go with them change nothing more, since only targets that go guard
/// by them.
pub fn keys_of_release(alloc: Global, call_sites: &[CallSiteId]) -> Result<Keys, AllocError>
    ensures { IfOk result (λ keys. keys ≡ map key.Target call_sites.now) }
{
    let mut keys = Vec::with_capacity(alloc, call_sites.len())?;
    push_targets(&mut keys, call_sites)?;
    Ok(Seq::of(keys))
}

/// What an invalidation of these points changes: those that are valid aren't any more.
pub fn keys_of_points(alloc: Global, sites: &Sites, points: &[SwitchId]) -> Result<Keys, AllocError>
    ensures { IfOk result (λ keys. keys ≡ map key.Valid (footprints.still_valid sites.now points.now)) }
{
    let valid = valid_among(alloc, sites, points)?;
    let mut keys = Vec::with_capacity(alloc, valid.len())?;
    push_points(&mut keys, &valid)?;
    Ok(Seq::of(keys))
}

/// Those of the points that are valid, each once, by rising number.
fn valid_among(
    alloc: Global,
    sites: &Sites,
    points: &[SwitchId],
) -> Result<Vec<SwitchId>, AllocError>
    ensures { IfOk result (λ valid. valid.items ≡ footprints.still_valid sites.now points.now) }
{
    let mut valid = Vec::new(alloc);
    push_valid(sites, points, &mut valid)?;
    valid.sort_unstable();
    valid.dedup();
    Ok(valid)
}

/// Adds those of the points that are valid.
fn push_valid(
    sites: &Sites,
    points: &[SwitchId],
    valid: &mut Vec<SwitchId>,
) -> Result<(), AllocError>
    ensures { OnOk result ((p : ℕ) → list_any (λ q. q == p) valid.new.items
        ≡ (list_any (λ q. q == p) valid.old.items || (list_any (λ q. q == p) points.now && targets.is_valid sites.now p))) }
{
    for point in points {
        push_if(valid, sites.is_valid(*point), *point)?;
    }
    Ok(())
}

/// Adds the point, if so.
fn push_if(valid: &mut Vec<SwitchId>, is_valid: bool, point: SwitchId) -> Result<(), AllocError>
    ensures { OnOk result ((p : ℕ) → list_any (λ q. q == p) valid.new.items
        ≡ (list_any (λ q. q == p) valid.old.items || ((point == p) && is_valid))) }
{
    if is_valid {
        valid.push(point)?;
    }
    Ok(())
}
