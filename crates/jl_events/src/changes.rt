//! What an accepted event makes of the world. Nothing is judged, so a new event and one that another instance has made go the same way.
//! Want of memory is an error of each, and then the world is of no use.

ghost use Rattle.std.specs.Prelude.{◌≡◌, ◌<◌, ◌^◌, length, IfOk, OnOk};
ghost use Rattle.jl_types.specs.declared.event.EventOf.TheVariants as event;
ghost use Rattle.jl_types.specs.declared.event.Made.TheVariants as made;
ghost use Rattle.jl_events.specs.Changes.{IsAcceptable, IsMoved};

use jl_callsites::copy_target;
use jl_class::ClassFile;
use jl_names::Name;
use jl_relink::World;
use jl_types::{CallSiteId, CallSiteKind, ClassId, LoaderId, Place, SiteNo, SwitchId, Target};
use std::alloc::{AllocError, Global};
use std::slice::from_ref;

/// One loader more.
pub(crate) fn add_loader(world: &mut World, alloc: Global) -> Result<LoaderId, AllocError>
    requires { IsAcceptable world.old event.NewLoader }
    ensures { IfOk result (λ loader. IsMoved world.old world.new event.NewLoader (made.Loader loader)) }
{
    let loader = world.classes.add_loader(alloc)?;
    Ok(loader)
}

/// The class that the loader makes of the file (JVMS SE 17 §5.3.5).
pub(crate) fn add_class(
    world: &mut World,
    alloc: Global,
    loader: LoaderId,
    file: ClassFile,
) -> Result<ClassId, AllocError>
    requires { IsAcceptable world.old (event.Define loader file) }
    ensures moved { IfOk result (λ class. IsMoved world.old world.new (event.Define loader file) (made.Class class)) }
    ensures number { IfOk result (λ class. class ≡ length world.old.classes.rows) }
{
    let class = world.classes.add(alloc, loader, file)?;
    Ok(class)
}

/// The loader finds a class of the other one (§5.3).
pub(crate) fn add_delegation(
    world: &mut World,
    alloc: Global,
    loader: LoaderId,
    name: &Name,
    to: LoaderId,
) -> Result<(), AllocError>
    requires { IsAcceptable world.old (event.Delegate loader name.now to) }
    ensures { OnOk result (IsMoved world.old world.new (event.Delegate loader name.now to) made.Nothing) }
{
    world
        .classes
        .add_delegation(alloc, loader, name.as_slice(), to)?;
    Ok(())
}

/// The place has a number. One that is requested already keeps it.
pub(crate) fn add_place(
    world: &mut World,
    alloc: Global,
    place: &Place,
) -> Result<SiteNo, AllocError>
    requires accepted { IsAcceptable world.old (event.Request place.now) }
    requires few { length world.old.places < 2 ^ 32 }
    ensures { IfOk result (λ site. IsMoved world.old world.new (event.Request place.now) (made.Site site)) }
{
    if let Some(site) = world.places.get_index_of(place) {
        return Ok(SiteNo::new(site as u32));
    }
    let site = SiteNo::new(world.site_count() as u32);
    world.places.push(alloc, *place)?;
    Ok(site)
}

/// One call site more (java.lang.invoke.CallSite).
pub(crate) fn add_call_site(
    world: &mut World,
    alloc: Global,
    kind: CallSiteKind,
    ty: &Name,
    target: &Target,
) -> Result<CallSiteId, AllocError>
    requires { IsAcceptable world.old (event.NewCallSite kind ty.now target.now) }
    ensures { IfOk result (λ site. IsMoved world.old world.new (event.NewCallSite kind ty.now target.now) (made.CallSite site)) }
{
    let ty = ty.copy(alloc)?;
    let target = copy_target(alloc, target)?;
    let site = world.sites.add_site(kind, ty, target)?;
    Ok(site)
}

/// The call site gets another target.
pub(crate) fn put_target(
    world: &mut World,
    alloc: Global,
    site: CallSiteId,
    target: &Target,
) -> Result<(), AllocError>
    requires { IsAcceptable world.old (event.SetTarget site target.now) }
    ensures { OnOk result (IsMoved world.old world.new (event.SetTarget site target.now) made.Nothing) }
{
    let target = copy_target(alloc, target)?;
    world.sites.put_target(site, target);
    Ok(())
}

/// One switch point more, which is valid (java.lang.invoke.SwitchPoint).
pub(crate) fn add_switch(world: &mut World) -> Result<SwitchId, AllocError>
    requires { IsAcceptable world.old event.NewSwitch }
    ensures { IfOk result (λ point. IsMoved world.old world.new event.NewSwitch (made.Switch point)) }
{
    let point = world.sites.add_switch()?;
    Ok(point)
}

/// The switch points are invalid from now on, for good. Takes no memory.
pub(crate) fn put_invalid(world: &mut World, points: &[SwitchId])
    requires { IsAcceptable world.old (event.Invalidate points.now) }
    ensures { IsMoved world.old world.new (event.Invalidate points.now) made.Nothing }
{
    world.sites.put_invalid(points);
}

/// The invokedynamic is bound to the call site (JVMS SE 17 §6.5).
pub(crate) fn add_binding(
    world: &mut World,
    site: SiteNo,
    call_site: CallSiteId,
) -> Result<(), AllocError>
    requires { IsAcceptable world.old (event.Bind site call_site) }
    ensures { OnOk result (IsMoved world.old world.new (event.Bind site call_site) made.Nothing) }
{
    world.bindings.insert(site, call_site)?;
    Ok(())
}

/// The loader goes, with the classes that it has defined (JLS SE 17 §12.7).
pub(crate) fn retire_loader(
    world: &mut World,
    alloc: Global,
    loader: LoaderId,
) -> Result<(), AllocError>
    requires { IsAcceptable world.old (event.Retire loader) }
    ensures { OnOk result (IsMoved world.old world.new (event.Retire loader) made.Nothing) }
{
    world.classes.retire(alloc, from_ref(&loader))?;
    Ok(())
}

/// The loaders go at once, with the classes that they have defined.
pub(crate) fn retire_all(
    world: &mut World,
    alloc: Global,
    loaders: &[LoaderId],
) -> Result<(), AllocError>
    requires { IsAcceptable world.old (event.RetireAll loaders.now) }
    ensures { OnOk result (IsMoved world.old world.new (event.RetireAll loaders.now) made.Nothing) }
{
    world.classes.retire(alloc, loaders)?;
    Ok(())
}

/// The call sites and switch points go (java.lang.invoke: CallSite, SwitchPoint). Takes no memory.
pub(crate) fn put_released(world: &mut World, call_sites: &[CallSiteId], points: &[SwitchId])
    requires { IsAcceptable world.old (event.Release call_sites.now points.now) }
    ensures { IsMoved world.old world.new (event.Release call_sites.now points.now) made.Nothing }
{
    world.sites.put_released(call_sites, points);
}
