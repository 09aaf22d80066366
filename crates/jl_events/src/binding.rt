//! Why an invokedynamic isn't bound (JVMS SE 17 §6.5).

ghost use Rattle.std.specs.Prelude.{◌≡◌, slice_get};
ghost use Rattle.jl_class.specs.declared.site.Operand.TheVariants as operand;
ghost use Rattle.jl_types.specs.Events.Verdict as events;

use jl_class::Operand;
use jl_names::LentName;
use jl_pool::CallSiteSpecifier;
use jl_relink::{World, invocation_at};
use jl_types::{CallSiteFault, CallSiteId, Refusal, SiteNo};

/// Why the site isn't bound to the call site.
pub(crate) fn bind_refusal(world: &World, site: SiteNo, call_site: CallSiteId) -> Option<Refusal>
    ensures { result ≡ events.bind_fault world.now site call_site (slice_get world.now.places site) }
{
    let Some(place) = world.places.get_index(site.number() as usize) else {
        return Some(Refusal::UnknownSite { site });
    };
    if !world.classes.is_present(place.class) {
        return Some(Refusal::UnknownSite { site });
    }
    let Some(invocation) = invocation_at(&world.classes, place) else {
        return Some(Refusal::UnknownSite { site });
    };
    match invocation.operand() {
        Operand::Method(_) => Some(Refusal::NotDynamic),
        Operand::CallSite(specifier) => specifier_refusal(world, site, call_site, specifier),
    }
}

/// Why the invokedynamic of this specifier isn't bound to the call site.
fn specifier_refusal(
    world: &World,
    site: SiteNo,
    call_site: CallSiteId,
    specifier: &CallSiteSpecifier<LentName<'_>>,
) -> Option<Refusal>
    ensures { result ≡ events.operand_fault world.now site call_site (operand.CallSite specifier.now) }
{
    if let Some(bound) = world.bound_to(site) {
        return Some(Refusal::AlreadyBound(bound));
    }
    let Some(found) = world.sites.call_site_at(call_site) else {
        return Some(Refusal::CallSite(CallSiteFault::UnknownCallSite));
    };
    if found.ty().as_slice() != specifier.ty.as_slice() {
        return Some(Refusal::TypeMismatch);
    }
    None
}
