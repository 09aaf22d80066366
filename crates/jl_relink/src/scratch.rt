//! The link of a site from scratch (JVMS SE 17 §6.5), where each selection, special search and evaluation is counted.

ghost use Rattle.std.specs.Prelude.{◌≡◌, ◌+◌, ◌^◌, ◌<◌, ◌≤◌};
ghost use Rattle.jl_types.specs.Linkage.Resolution as resolution;
ghost use Rattle.jl_types.specs.Linkage.Stages as stages;
ghost use Rattle.jl_types.specs.Linkage.Links as links;
ghost use Rattle.jl_types.specs.Events.Footprints.{of_stage, of_operand, most_by, most_for};
ghost use Rattle.jl_relink.specs.Placed.{asking};

use crate::link::selected_link;
use crate::located::{Located, locate, locate_at};
use crate::stage::{Stage, stage_of_reference};
use crate::world::World;
use jl_class::{Kind, Operand};
use jl_hierarchy::Classes;
use jl_names::LentName;
use jl_pool::Reference;
use jl_select::special_counted;
use jl_types::{CallSiteId, ClassId, Link, Missing, Place, SiteNo, Unlinked, Work};

/// The link of a site from scratch, or why it has none. Takes no memory.
pub fn link_of(world: &World, site: SiteNo) -> Result<Link, Unlinked>
    ensures { result ≡ links.scratch world.now site }
{
    // Shows how few classes there are, which bounds the work.
    let _count = world.classes.class_count();
    let mut work = Work::new();
    link_counted(world, site, &mut work)
}

/// Gives what [`link_of`] gives, and counts one tick for each selection, special search and evaluation of a call site. That is at most
/// one for each receiver that it looks at, and at most one if it looks at none. Takes no memory.
pub fn link_counted(world: &World, site: SiteNo, work: &mut Work) -> Result<Link, Unlinked>
    requires fits { work.old + most_for world.now site < 2 ^ 64 }
    ensures link { result ≡ links.scratch world.now site }
    ensures ticks { work.new ≤ work.old + most_for world.now site }
{
    match locate(world, site) {
        Ok(found) => invocation_link(world, site, &found, work),
        Err(reason) => Err(reason),
    }
}

/// The link from scratch of the invocation at this place, or why it has none. It needs no request. An invokedynamic has none, since it
/// is bound to no call site. Takes no memory.
pub fn link_at(classes: &Classes, place: &Place) -> Result<Link, Unlinked>
    ensures { result ≡ links.scratch (asking classes.now place.now) 0 }
{
    // Shows how few classes there are, which bounds the work.
    let _count = classes.class_count();
    let mut work = Work::new();
    let found = match locate_at(classes, place) {
        Ok(found) => found,
        Err(reason) => return Err(reason),
    };
    match found.invocation.operand() {
        Operand::Method(reference) => reference_link(
            classes,
            found.invocation.kind(),
            found.caller,
            reference,
            &mut work,
        ),
        Operand::CallSite(_) => Err(Unlinked::Unbound),
    }
}

/// The link of the site's invocation.
pub(crate) fn invocation_link(
    world: &World,
    site: SiteNo,
    found: &Located<'_>,
    work: &mut Work,
) -> Result<Link, Unlinked>
    requires fits { work.old + most_by world.now.classes
        (of_operand world.now site found.now.caller found.now.invocation.kind found.now.invocation.operand) < 2 ^ 64 }
    ensures link { result ≡ links.link_of world.now.classes
        (stages.by_operand world.now site found.now.caller found.now.invocation.kind found.now.invocation.operand) }
    ensures ticks { work.new ≤ work.old + most_by world.now.classes
        (of_operand world.now site found.now.caller found.now.invocation.kind found.now.invocation.operand) }
{
    match found.invocation.operand() {
        Operand::Method(reference) => reference_link(
            &world.classes,
            found.invocation.kind(),
            found.caller,
            reference,
            work,
        ),
        Operand::CallSite(_) => binding_link(world, world.bound_to(site), work),
    }
}

/// The link of an invocation of the reference in the caller's class.
fn reference_link(
    classes: &Classes,
    kind: Kind,
    caller: ClassId,
    reference: &Reference<LentName<'_>>,
    work: &mut Work,
) -> Result<Link, Unlinked>
    requires fits { work.old + most_by classes.now (of_stage classes.now (stages.by_resolution classes.now kind caller reference.now
        (resolution.resolved classes.now caller reference.now))) < 2 ^ 64 }
    ensures link { result ≡ links.link_of classes.now (stages.by_resolution classes.now kind caller reference.now
        (resolution.resolved classes.now caller reference.now)) }
    ensures ticks { work.new ≤ work.old + most_by classes.now (of_stage classes.now (stages.by_resolution classes.now kind caller
        reference.now (resolution.resolved classes.now caller reference.now))) }
{
    match stage_of_reference(classes, kind, caller, reference) {
        Stage::Waits(reason) => Err(reason),
        Stage::Fails(throwable) => Ok(Link::Fault(throwable)),
        Stage::Calls(method) => Ok(Link::Plain(method)),
        Stage::Selects(selection) => Ok(selected_link(classes, &selection, work)),
        Stage::Searches => match special_counted(classes, caller, reference, work) {
            Some(outcome) => Ok(Link::Direct(outcome)),
            None => Err(Unlinked::NotReady(Missing::Named)),
        },
    }
}

/// The link of an invokedynamic that is bound to this call site, or to none: it runs what the call site runs.
fn binding_link(
    world: &World,
    binding: Option<CallSiteId>,
    work: &mut Work,
) -> Result<Link, Unlinked>
    requires fits { work.old + 1 < 2 ^ 64 }
    ensures link { result ≡ links.link_of world.now.classes (stages.by_binding world.now.sites binding) }
    ensures ticks { work.new ≤ work.old + 1 }
{
    let Some(call_site) = binding else {
        return Err(Unlinked::Unbound);
    };
    match world.sites.evaluate_counted(call_site, work) {
        Some(method) => Ok(Link::Plain(method)),
        None => Err(Unlinked::Gone),
    }
}
