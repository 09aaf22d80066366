//! What the link of a site rests on, with its form.

ghost use Rattle.std.specs.Prelude.{◌≡◌, ◌⊎◌, IfOk};
ghost use Rattle.jl_class.specs.declared.site.Kind.TheVariants.{Virtual, Interface};
ghost use Rattle.jl_types.specs.Linkage.Resolution.{resolved};
ghost use Rattle.jl_types.specs.Linkage.Stages.{by_operand, by_resolution, by_kind};
ghost use Rattle.jl_types.specs.Events.Footprints.{of_stage, of_invocation, of_operand};
ghost use Rattle.jl_deps.specs.Forms as forms;
ghost use Rattle.jl_deps.specs.Forms.{form_of};

use crate::footprint::of_call_site;
use crate::form::{Form, Rests};
use jl_class::{Kind, Operand, Site};
use jl_hierarchy::Classes;
use jl_names::LentName;
use jl_pool::Reference;
use jl_relink::{World, invocation_at};
use jl_resolve::{Resolved, resolve_reference};
use jl_types::{ClassId, SiteNo};
use std::alloc::{AllocError, Global};

/// What the link of the site rests on, with its form. No receiver is looked at.
pub fn rests_of(alloc: Global, world: &World, site: SiteNo) -> Result<Rests, AllocError>
    ensures { IfOk result (λ rests. rests ≡ forms.rests world.now site) }
{
    let Some(place) = world.places.get_index(site.number() as usize) else {
        return Ok(Rests::nothing());
    };
    if !world.classes.is_present(place.class) {
        return Ok(Rests::nothing());
    }
    match invocation_at(&world.classes, place) {
        Some(invocation) => of_invocation(alloc, world, site, place.class, &invocation),
        None => Ok(Rests::nothing()),
    }
}

/// What the link of the site's invocation in the caller's class rests on, with its form.
fn of_invocation(
    alloc: Global,
    world: &World,
    site: SiteNo,
    caller: ClassId,
    invocation: &Site<'_>,
) -> Result<Rests, AllocError>
    ensures { IfOk result (λ rests. rests ≡ record {
      footprint = of_operand world.now site caller invocation.now.kind invocation.now.operand;
      form = form_of world.now.classes (by_operand world.now site caller invocation.now.kind invocation.now.operand);
    }) }
{
    match invocation.operand() {
        Operand::Method(reference) => Ok(of_reference(
            &world.classes,
            invocation.kind(),
            caller,
            reference,
        )),
        Operand::CallSite(_) => match world.bound_to(site) {
            Some(call_site) => Ok(Rests {
                footprint: of_call_site(alloc, &world.sites, call_site)?,
                form: Form::Other,
            }),
            None => Ok(Rests::nothing()),
        },
    }
}

/// What the link of an invocation of the reference rests on, with its form. If the instruction selects by no receiver, nothing is
/// resolved. Takes no memory.
fn of_reference(
    classes: &Classes,
    kind: Kind,
    caller: ClassId,
    reference: &Reference<LentName<'_>>,
) -> Rests
    ensures { result ≡ record {
      footprint = of_stage classes.now (by_resolution classes.now kind caller reference.now (resolved classes.now caller reference.now));
      form = form_of classes.now (by_resolution classes.now kind caller reference.now (resolved classes.now caller reference.now));
    } }
{
    match kind {
        Kind::Virtual => of_resolution(classes, kind, caller, reference),
        Kind::Interface => of_resolution(classes, kind, caller, reference),
        Kind::Special => Rests::nothing(),
        Kind::Static => Rests::nothing(),
        Kind::Dynamic => Rests::nothing(),
    }
}

/// What the link of an invocation of the reference rests on, with its form, if the instruction may select by the receiver. Takes no
/// memory.
pub(crate) fn of_resolution(
    classes: &Classes,
    kind: Kind,
    caller: ClassId,
    reference: &Reference<LentName<'_>>,
) -> Rests
    requires { (kind ≡ Virtual) ⊎ (kind ≡ Interface) }
    ensures { result ≡ record {
      footprint = of_stage classes.now (by_resolution classes.now kind caller reference.now (resolved classes.now caller reference.now));
      form = form_of classes.now (by_resolution classes.now kind caller reference.now (resolved classes.now caller reference.now));
    } }
{
    match resolve_reference(classes, caller, reference) {
        Ok(resolved) => of_resolved(classes, kind, caller, reference, &resolved),
        Err(_) => Rests::nothing(),
    }
}

/// What the link of an invocation of the resolved reference rests on, with its form, if the instruction may select by the receiver. Takes
/// no memory.
fn of_resolved(
    classes: &Classes,
    kind: Kind,
    caller: ClassId,
    reference: &Reference<LentName<'_>>,
    resolved: &Resolved,
) -> Rests
    requires { (kind ≡ Virtual) ⊎ (kind ≡ Interface) }
    ensures { result ≡ record {
      footprint = of_stage classes.now (by_kind classes.now kind caller reference.now resolved.now);
      form = form_of classes.now (by_kind classes.now kind caller reference.now resolved.now);
    } }
{
    match kind {
        Kind::Virtual => {
            if classes.is_static(&resolved.method) || classes.is_private(&resolved.method) {
                Rests::nothing()
            } else {
                Rests::selecting(resolved.named, Form::Virtual(resolved.method))
            }
        }
        Kind::Interface => {
            if classes.is_static(&resolved.method) {
                Rests::nothing()
            } else {
                Rests::selecting(resolved.named, Form::Interface(resolved.method))
            }
        }
        Kind::Special => Rests::nothing(),
        Kind::Static => Rests::nothing(),
        Kind::Dynamic => Rests::nothing(),
    }
}
