//! Whether a place may be requested.

ghost use Rattle.std.specs.Prelude.{◌≡◌, true, Some, Ok, Err, IfOk, IfErr};
ghost use Rattle.jl_class.specs.Site as site;
ghost use Rattle.jl_types.specs.Values.Members.{is_present};
ghost use Rattle.jl_types.specs.Linkage.Stages.{invocation_at};
ghost use Rattle.jl_types.specs.Events.Verdict as events;
ghost use Rattle.jl_types.specs.Events.Verdict.{verdict};
ghost use Rattle.jl_types.specs.declared.event.EventOf.TheVariants as event;
ghost use Rattle.jl_events.specs.Judging.{IsJudged};

use jl_class::Site;
use jl_relink::{World, invocation_at};
use jl_types::{Event, Limits, NotLinkable, Place, Refusal, is_polymorphic, names_array};

/// The request itself, if the world accepts it. A place that is requested already keeps its number.
///
/// # Errors
///
/// The first refusal.
pub(crate) fn judged_request(world: &World, limits: Limits, place: Place) -> Result<Event, Refusal>
    ensures { IsJudged (verdict limits world.now (event.Request place)) (event.Request place) result }
{
    let refusal = refusal_if_new(world, limits, &place)?;
    if world.places.get_index_of(&place).is_some() {
        return Ok(Event::Request(place));
    }
    if let Some(refusal) = refusal {
        return Err(refusal);
    }
    Ok(Event::Request(place))
}

/// The refusal that the place gets only if it isn't requested yet, or none. The error is a refusal that it gets anyway.
fn refusal_if_new(world: &World, limits: Limits, place: &Place) -> Result<Option<Refusal>, Refusal>
    ensures ok { IfOk result (λ refusal. (invocation : site.Site)
        × (invocation_at world.now.classes place.now ≡ Some invocation)
        × (refusal ≡ events.new_place_fault limits world.now invocation)
        × (is_present world.now.classes place.now.class ≡ true)) }
    ensures err { IfErr result (λ r. verdict limits world.now (event.Request place.now) ≡ Err r) }
{
    if !world.classes.is_present(place.class) {
        return Err(Refusal::UnknownClass);
    }
    match invocation_at(&world.classes, place) {
        Some(invocation) => Ok(new_place_refusal(world, limits, &invocation)),
        None => Err(Refusal::NoSuchPlace),
    }
}

/// The refusal of a place that isn't requested yet, by its invocation.
fn new_place_refusal(world: &World, limits: Limits, invocation: &Site<'_>) -> Option<Refusal>
    ensures { result ≡ events.new_place_fault limits world.now invocation.now }
{
    if names_array(invocation.operand()) {
        return Some(Refusal::NotLinkable(NotLinkable::ArrayReceiver));
    }
    if is_polymorphic(invocation.operand()) {
        return Some(Refusal::NotLinkable(NotLinkable::PolymorphicSignature));
    }
    if world.site_count() >= limits.sites as usize {
        return Some(Refusal::SitesFull);
    }
    None
}
