//! What the link of a site rests on.

ghost use Rattle.std.specs.Prelude.{◌≡◌, ◌⊎◌, ◌++◌, [], ℕ, map, filter_map, Ok, IfOk, OnOk, option_to_list};
ghost use Rattle.jl_hierarchy.specs.ForProofs.Kept.{Rises};
ghost use Rattle.jl_types.specs.Linkage.Resolution as resolution;
ghost use Rattle.jl_types.specs.Linkage.Stages as stages;
ghost use Rattle.jl_types.specs.Linkage.Links.{link_of, scratch};
ghost use Rattle.jl_types.specs.declared.key.Key.TheVariants as key;
ghost use Rattle.jl_types.specs.Events.Footprints as footprints;
ghost use Rattle.jl_types.specs.Events.Footprints.{of_stage, call_site_in, point_in, path};
ghost use Rattle.jl_relink.specs.Placed.{asking};
ghost use Rattle.jl_deps.specs.ForProofs.Telling.{tells_receivers};
ghost use Rattle.jl_deps.specs.Ways.{has, way};
ghost use Rattle.jl_class.specs.declared.site.Kind.TheVariants.{Virtual, Interface};

use crate::form::Rests;
use crate::kept::Footprint;
use crate::resting::{of_resolution, rests_of};
use jl_callsites::Sites;
use jl_class::{Kind, Operand};
use jl_hierarchy::Classes;
use jl_names::LentName;
use jl_pool::Reference;
use jl_relink::{World, invocation_at};
use jl_resolve::named_class;
use jl_types::{CallSiteId, ClassId, Key, Link, Outcome, Part, Place, SiteNo, SwitchId, Target};
use std::alloc::{AllocError, Global};

/// What the link of the site rests on. No receiver is looked at.
pub fn footprint_of(alloc: Global, world: &World, site: SiteNo) -> Result<Footprint, AllocError>
    ensures { IfOk result (λ keys. keys ≡ footprints.footprint world.now site) }
{
    let Rests {
        footprint,
        form: _form,
    } = rests_of(alloc, world, site)?;
    Ok(footprint)
}

/// What the link of the invocation at this place rests on, of which this is the link from scratch. It needs no request. Takes no memory.
pub fn footprint_at(classes: &Classes, place: &Place, link: &Link) -> Footprint
    requires { scratch (asking classes.now place.now) 0 ≡ Ok link.now }
    ensures { result ≡ footprints.footprint (asking classes.now place.now) 0 }
{
    if !classes.is_present(place.class) {
        return Footprint::nothing();
    }
    let Some(invocation) = invocation_at(classes, place) else {
        return Footprint::nothing();
    };
    match invocation.operand() {
        Operand::Method(reference) => looked_at(
            classes,
            invocation.kind(),
            place.class,
            reference,
            link,
        ),
        Operand::CallSite(_) => Footprint::nothing(),
    }
}

/// The receivers of the class, if there is one. Takes no memory.
fn of_class(class: Option<ClassId>) -> Footprint
    ensures { result ≡ map key.Receivers (option_to_list class) }
{
    match class {
        Some(class) => Footprint::one(Key::Receivers(class)),
        None => Footprint::nothing(),
    }
}

/// The receivers that the link of an invocation of the reference in the caller's class, which is this one, rests on. If the instruction
/// looks at none, nothing is resolved. Takes no memory.
fn looked_at(
    classes: &Classes,
    kind: Kind,
    caller: ClassId,
    reference: &Reference<LentName<'_>>,
    link: &Link,
) -> Footprint
    requires { link_of classes.now
        (stages.by_resolution classes.now kind caller reference.now (resolution.resolved classes.now caller reference.now)) ≡ Ok link.now }
    ensures { of_stage classes.now (stages.by_resolution classes.now kind caller reference.now
        (resolution.resolved classes.now caller reference.now)) ≡ result }
{
    match kind {
        Kind::Virtual => selected_from(classes, kind, caller, reference, link),
        Kind::Interface => selected_from(classes, kind, caller, reference, link),
        Kind::Special => Footprint::nothing(),
        Kind::Static => Footprint::nothing(),
        Kind::Dynamic => Footprint::nothing(),
    }
}

/// The receivers that the link of an invocation of the reference, which is this one, rests on, if the instruction may select by the
/// receiver.
fn selected_from(
    classes: &Classes,
    kind: Kind,
    caller: ClassId,
    reference: &Reference<LentName<'_>>,
    link: &Link,
) -> Footprint
    requires selects { (kind ≡ Virtual) ⊎ (kind ≡ Interface) }
    requires link { link_of classes.now
        (stages.by_resolution classes.now kind caller reference.now (resolution.resolved classes.now caller reference.now)) ≡ Ok link.now }
    ensures { of_stage classes.now (stages.by_resolution classes.now kind caller reference.now
        (resolution.resolved classes.now caller reference.now)) ≡ result }
{
    if tells_receivers(classes, link) {
        return of_class(named_class(classes, caller, reference));
    }
    let Rests {
        footprint,
        form: _form,
    } = of_resolution(classes, kind, caller, reference);
    footprint
}

/// Whether the link of an instruction that may select by the receiver tells that it does. For a private method, and if linking fails,
/// no receiver is looked at.
fn tells_receivers(classes: &Classes, link: &Link) -> bool
    ensures { result ≡ tells_receivers classes.now link.now }
{
    match link {
        Link::Table(_, _) => true,
        Link::Mega => true,
        Link::Direct(Outcome::Run(method)) => !classes.is_private(method),
        Link::Direct(Outcome::Throws(_)) => false,
        Link::Fault(_) => false,
        Link::Plain(_) => false,
    }
}

/// The targets of the call sites on the path of this one, and the valid points on it.
pub(crate) fn of_call_site(
    alloc: Global,
    sites: &Sites,
    call_site: CallSiteId,
) -> Result<Footprint, AllocError>
    ensures { IfOk result (λ keys. keys ≡ footprints.of_call_site sites.now call_site) }
{
    let mut call_sites = Vec::new(alloc);
    let mut points = Vec::new(alloc);
    push_path(sites, call_site, &mut call_sites, &mut points)?;
    order_call_sites(&mut call_sites);
    order_points(&mut points);
    let mut keys = Vec::new(alloc);
    push_targets(&mut keys, call_sites.as_slice())?;
    push_points(&mut keys, points.as_slice())?;
    Footprint::of(alloc, keys)
}

/// Adds the targets of these call sites.
pub(crate) fn push_targets(keys: &mut Vec<Key>, call_sites: &[CallSiteId]) -> Result<(), AllocError>
    ensures { OnOk result (keys.new.items ≡ keys.old.items ++ map key.Target call_sites.now) }
{
    for call_site in call_sites {
        keys.push(Key::Target(*call_site))?;
    }
    Ok(())
}

/// Adds that these points are valid.
pub(crate) fn push_points(keys: &mut Vec<Key>, points: &[SwitchId]) -> Result<(), AllocError>
    ensures { OnOk result (keys.new.items ≡ keys.old.items ++ map key.Valid points.now) }
{
    for point in points {
        keys.push(Key::Valid(*point))?;
    }
    Ok(())
}

/// The call sites by rising number, each once.
fn order_call_sites(call_sites: &mut Vec<CallSiteId>)
    ensures rises { Rises call_sites.new.items }
    ensures same { (c : ℕ) → has c call_sites.new.items ≡ has c call_sites.old.items }
{
    call_sites.sort_unstable();
    call_sites.dedup();
}

/// The points by rising number, each once.
fn order_points(points: &mut Vec<SwitchId>)
    ensures rises { Rises points.new.items }
    ensures same { (p : ℕ) → has p points.new.items ≡ has p points.old.items }
{
    points.sort_unstable();
    points.dedup();
}

/// Adds the call sites on the path of this one, itself first, and the valid points on it, in order.
fn push_path(
    sites: &Sites,
    call_site: CallSiteId,
    call_sites: &mut Vec<CallSiteId>,
    points: &mut Vec<SwitchId>,
) -> Result<(), AllocError>
    ensures call_sites { OnOk result (call_sites.new.items
        ≡ call_sites.old.items ++ filter_map call_site_in (path sites.now call_site)) }
    ensures points { OnOk result (points.new.items ≡ points.old.items ++ filter_map point_in (path sites.now call_site)) }
{
    call_sites.push(call_site)?;
    match sites.call_site_at(call_site) {
        Some(found) => push_way(sites, call_site, found.target(), call_sites, points),
        None => Ok(()),
    }
}

/// Adds the call sites that a target of this one comes by, and the valid points, in order.
fn push_way(
    sites: &Sites,
    call_site: CallSiteId,
    target: &Target,
    call_sites: &mut Vec<CallSiteId>,
    points: &mut Vec<SwitchId>,
) -> Result<(), AllocError>
    ensures call_sites { OnOk result (call_sites.new.items
        ≡ call_sites.old.items ++ filter_map call_site_in (way sites.now call_site target.now)) }
    ensures points { OnOk result (points.new.items ≡ points.old.items ++ filter_map point_in (way sites.now call_site target.now)) }
{
    let mut call_site = call_site;
    let mut target = target;
    loop {
        match &target.part {
            Part::Method(_) => return Ok(()),
            Part::Guard(point, first, fallback) => {
                if sites.is_valid(*point) {
                    points.push(*point)?;
                    target = first;
                } else {
                    target = fallback;
                }
            }
            Part::Invoker(invoked) => {
                if invoked.number() >= call_site.number() {
                    return Ok(());
                }
                call_sites.push(*invoked)?;
                let Some(found) = sites.call_site_at(*invoked) else {
                    return Ok(());
                };
                target = found.target();
                call_site = *invoked;
            }
        }
    }
}
