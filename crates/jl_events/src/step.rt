//! The world after an accepted event, and what the log keeps of the event.

ghost use Rattle.std.specs.Prelude.{◌≡◌, ◌<◌, ◌^◌, length, IfOk};
ghost use Rattle.jl_types.specs.declared.event.EventOf.TheVariants as events;
ghost use Rattle.jl_types.specs.declared.event.Made.TheVariants as made;
ghost use Rattle.jl_events.specs.Changes.{IsAcceptable, IsStepped};

use crate::accepted::Accepted;
use crate::changes::{
    add_binding, add_call_site, add_class, add_delegation, add_loader, add_place, add_switch,
    put_invalid, put_released, put_target, retire_all, retire_loader,
};
use jl_cache::kept_rows;
use jl_class::ClassFile;
use jl_names::{Name, Seq};
use jl_relink::World;
use jl_types::{
    CallSiteId, CallSiteKind, Event, Link, LoaderId, Made, Place, SiteNo, SwitchId, Target,
};
use std::alloc::{AllocError, Global};
use std::sync::Arc;

/// Changes the world as the accepted event says. It gives what the log keeps of the event, and what the event gave a number to. If
/// others hold the world, too, a copy of it is changed. On an error the world is of no use.
pub fn step_world(
    world: &mut Arc<World>,
    alloc: Global,
    event: Event,
) -> Result<(Accepted, Made), AllocError>
    requires accepted { IsAcceptable world.old.value event }
    requires few { length world.old.value.places < 2 ^ 32 }
    ensures { IfOk result (λ told. IsStepped world.old.value world.new.value event told.0 told.1) }
{
    match Arc::get_mut(world) {
        Some(world) => step_owned(world, alloc, event),
        None => step_copy(world, alloc, event),
    }
}

/// Puts a copy of the world that the accepted event has changed in its place. An install changes no world and copies none.
fn step_copy(
    world: &mut Arc<World>,
    alloc: Global,
    event: Event,
) -> Result<(Accepted, Made), AllocError>
    requires accepted { IsAcceptable world.old.value event }
    requires few { length world.old.value.places < 2 ^ 32 }
    ensures { IfOk result (λ told. IsStepped world.old.value world.new.value event told.0 told.1) }
{
    match event {
        Event::Install(rows) => install(alloc, rows.as_slice()),
        event => {
            let mut copy = world.copy(alloc)?;
            let told = step_owned(&mut copy, alloc, event)?;
            *world = Arc::new(alloc, copy)?;
            Ok(told)
        }
    }
}

/// Changes a world that no other holds as the accepted event says.
fn step_owned(
    world: &mut World,
    alloc: Global,
    event: Event,
) -> Result<(Accepted, Made), AllocError>
    requires accepted { IsAcceptable world.old event }
    requires few { length world.old.places < 2 ^ 32 }
    ensures { IfOk result (λ told. IsStepped world.old world.new event told.0 told.1) }
{
    match event {
        Event::NewLoader => {
            let loader = add_loader(world, alloc)?;
            Ok((Accepted::NewLoader, Made::Loader(loader)))
        }
        Event::Define(loader, file) => define(world, alloc, loader, file),
        Event::Delegate(loader, name, to) => delegate(world, alloc, loader, name, to),
        Event::Request(place) => request(world, alloc, place),
        Event::NewCallSite(kind, ty, target) => new_call_site(world, alloc, kind, ty, target),
        Event::SetTarget(site, target) => set_target(world, alloc, site, target),
        Event::NewSwitch => {
            let point = add_switch(world)?;
            Ok((Accepted::NewSwitch, Made::Switch(point)))
        }
        Event::Invalidate(points) => Ok(invalidate(world, points)),
        Event::Bind(site, call_site) => bind(world, site, call_site),
        Event::Install(rows) => install(alloc, rows.as_slice()),
        Event::Retire(loader) => retire(world, alloc, loader),
        Event::RetireAll(loaders) => retire_each(world, alloc, loaders),
        Event::Release(call_sites, points) => Ok(release(world, call_sites, points)),
    }
}

/// Changes the world as a definition says.
fn define(
    world: &mut World,
    alloc: Global,
    loader: LoaderId,
    file: ClassFile,
) -> Result<(Accepted, Made), AllocError>
    requires { IsAcceptable world.old (events.Define loader file) }
    ensures { IfOk result (λ told. IsStepped world.old world.new (events.Define loader file) told.0 told.1) }
{
    let class = add_class(world, alloc, loader, file)?;
    Ok((Accepted::Define(loader, class), Made::Class(class)))
}

/// Changes the world as a delegation says.
fn delegate(
    world: &mut World,
    alloc: Global,
    loader: LoaderId,
    name: Name,
    to: LoaderId,
) -> Result<(Accepted, Made), AllocError>
    requires { IsAcceptable world.old (events.Delegate loader name to) }
    ensures { IfOk result (λ told. IsStepped world.old world.new (events.Delegate loader name to) told.0 told.1) }
{
    add_delegation(world, alloc, loader, &name, to)?;
    Ok((Accepted::Delegate(loader, name, to), Made::Nothing))
}

/// Changes the world as a request says.
fn request(world: &mut World, alloc: Global, place: Place) -> Result<(Accepted, Made), AllocError>
    requires accepted { IsAcceptable world.old (events.Request place) }
    requires few { length world.old.places < 2 ^ 32 }
    ensures { IfOk result (λ told. IsStepped world.old world.new (events.Request place) told.0 told.1) }
{
    let site = add_place(world, alloc, &place)?;
    Ok((Accepted::Request(place), Made::Site(site)))
}

/// Adds a new call site to the world.
fn new_call_site(
    world: &mut World,
    alloc: Global,
    kind: CallSiteKind,
    ty: Name,
    target: Target,
) -> Result<(Accepted, Made), AllocError>
    requires { IsAcceptable world.old (events.NewCallSite kind ty target) }
    ensures { IfOk result (λ told. IsStepped world.old world.new (events.NewCallSite kind ty target) told.0 told.1) }
{
    let site = add_call_site(world, alloc, kind, &ty, &target)?;
    Ok((
        Accepted::NewCallSite(kind, ty, target),
        Made::CallSite(site),
    ))
}

/// Gives a call site of the world its new target.
fn set_target(
    world: &mut World,
    alloc: Global,
    site: CallSiteId,
    target: Target,
) -> Result<(Accepted, Made), AllocError>
    requires { IsAcceptable world.old (events.SetTarget site target) }
    ensures { IfOk result (λ told. IsStepped world.old world.new (events.SetTarget site target) told.0 told.1) }
{
    put_target(world, alloc, site, &target)?;
    Ok((Accepted::SetTarget(site, target), Made::Nothing))
}

/// Changes the world as an invalidation says. Takes no memory.
fn invalidate(world: &mut World, points: Seq<SwitchId>) -> (Accepted, Made)
    requires { IsAcceptable world.old (events.Invalidate points) }
    ensures { IsStepped world.old world.new (events.Invalidate points) result.0 result.1 }
{
    put_invalid(world, points.as_slice());
    (Accepted::Invalidate(points), Made::Nothing)
}

/// Changes the world as a binding says.
fn bind(
    world: &mut World,
    site: SiteNo,
    call_site: CallSiteId,
) -> Result<(Accepted, Made), AllocError>
    requires { IsAcceptable world.old (events.Bind site call_site) }
    ensures { IfOk result (λ told. IsStepped world.old world.new (events.Bind site call_site) told.0 told.1) }
{
    add_binding(world, site, call_site)?;
    Ok((Accepted::Bind(site, call_site), Made::Nothing))
}

/// What the log keeps of an install of these rows, which changes no world.
fn install(alloc: Global, rows: &[(SiteNo, Link)]) -> Result<(Accepted, Made), AllocError>
    ensures { IfOk result (λ told. (told.0 ≡ events.Install rows.now) × (told.1 ≡ made.Nothing)) }
{
    let kept = kept_rows(alloc, rows)?;
    Ok((Accepted::Install(Seq::of(kept)), Made::Nothing))
}

/// Changes the world as a retirement says.
fn retire(
    world: &mut World,
    alloc: Global,
    loader: LoaderId,
) -> Result<(Accepted, Made), AllocError>
    requires { IsAcceptable world.old (events.Retire loader) }
    ensures { IfOk result (λ told. IsStepped world.old world.new (events.Retire loader) told.0 told.1) }
{
    retire_loader(world, alloc, loader)?;
    Ok((Accepted::Retire(loader), Made::Nothing))
}

/// Changes the world as a retirement of several loaders at once says.
fn retire_each(
    world: &mut World,
    alloc: Global,
    loaders: Seq<LoaderId>,
) -> Result<(Accepted, Made), AllocError>
    requires { IsAcceptable world.old (events.RetireAll loaders) }
    ensures { IfOk result (λ told. IsStepped world.old world.new (events.RetireAll loaders) told.0 told.1) }
{
    retire_all(world, alloc, loaders.as_slice())?;
    Ok((Accepted::RetireAll(loaders), Made::Nothing))
}

/// Changes the world as a release says. Takes no memory.
fn release(
    world: &mut World,
    call_sites: Seq<CallSiteId>,
    points: Seq<SwitchId>,
) -> (Accepted, Made)
    requires { IsAcceptable world.old (events.Release call_sites points) }
    ensures { IsStepped world.old world.new (events.Release call_sites points) result.0 result.1 }
{
    put_released(world, call_sites.as_slice(), points.as_slice());
    (Accepted::Release(call_sites, points), Made::Nothing)
}
