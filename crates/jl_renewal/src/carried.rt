//! Events under new numbers, where what they name may be gone.

ghost use Rattle.std.specs.Prelude.{◌≡◌, option_and_then, filter_map, IfOk};
ghost use Rattle.jl_types.specs.declared.event.EventOf.TheVariants as event;
ghost use Rattle.jl_events.specs.Accepted.{event_of};
ghost use Rattle.jl_renewal.specs.Numbers.{new_number};
ghost use Rattle.jl_renewal.specs.Carries as carries;

use crate::classes::definition;
use crate::numbers::Renumbering;
use crate::places::{binding, request};
use crate::targets::renumbered_method;
use jl_core::Accepted;
use jl_names::{Name, Seq};
use jl_relink::World;
use jl_types::{CallSiteId, Event, LoaderId, Part, SwitchId, Target};
use std::alloc::{AllocError, Global};

/// The event under the new numbers, or none if it names what is gone, or installs links.
pub(crate) fn carried_event(
    alloc: Global,
    numbers: &Renumbering,
    old: &World,
    event: &Accepted,
) -> Result<Option<Event>, AllocError>
    ensures { IfOk result (λ made. made ≡ option_and_then (carries.carried numbers.now) (event_of old.now.classes.rows event.now)) }
{
    match event {
        Accepted::NewLoader => Ok(Some(Event::NewLoader)),
        Accepted::Define(loader, class) => {
            definition(alloc, numbers, *loader, old.classes.class_at(*class))
        }
        Accepted::Delegate(loader, name, to) => delegation(alloc, numbers, *loader, name, *to),
        Accepted::Request(place) => Ok(request(numbers, place)),
        Accepted::NewCallSite(kind, ty, target) => {
            let Some(target) = carried_target(alloc, numbers, target)? else {
                return Ok(None);
            };
            Ok(Some(Event::NewCallSite(*kind, ty.copy(alloc)?, target)))
        }
        Accepted::SetTarget(site, target) => {
            let Some(site) = numbers.call_site(*site) else {
                return Ok(None);
            };
            let Some(target) = carried_target(alloc, numbers, target)? else {
                return Ok(None);
            };
            Ok(Some(Event::SetTarget(site, target)))
        }
        Accepted::NewSwitch => Ok(Some(Event::NewSwitch)),
        Accepted::Invalidate(points) => {
            let points = carried_points(alloc, numbers, points.as_slice())?;
            Ok(Some(Event::Invalidate(Seq::of(points))))
        }
        Accepted::Bind(site, call_site) => Ok(binding(numbers, *site, *call_site)),
        Accepted::Install(_) => Ok(None),
        Accepted::Retire(loader) => match numbers.loader(*loader) {
            Some(loader) => Ok(Some(Event::Retire(loader))),
            None => Ok(None),
        },
        Accepted::RetireAll(loaders) => {
            let loaders = carried_loaders(alloc, numbers, loaders.as_slice())?;
            Ok(Some(Event::RetireAll(Seq::of(loaders))))
        }
        Accepted::Release(call_sites, points) => {
            carried_release(alloc, numbers, call_sites.as_slice(), points.as_slice())
        }
    }
}

/// That a loader finds under the name what another one finds.
fn delegation(
    alloc: Global,
    numbers: &Renumbering,
    loader: LoaderId,
    name: &Name,
    to: LoaderId,
) -> Result<Option<Event>, AllocError>
    ensures { IfOk result (λ made. made ≡ carries.carried numbers.now (event.Delegate loader name.now to)) }
{
    let Some(loader) = numbers.loader(loader) else {
        return Ok(None);
    };
    let Some(to) = numbers.loader(to) else {
        return Ok(None);
    };
    Ok(Some(Event::Delegate(loader, name.copy(alloc)?, to)))
}

/// The target, or none if a part of it is gone. It recurses as deep as the target, and no call site has one that is deeper than 64.
fn carried_target(
    alloc: Global,
    numbers: &Renumbering,
    target: &Target,
) -> Result<Option<Target>, AllocError>
    ensures { IfOk result (λ made. made ≡ carries.carried_target numbers.now target.now) }
{
    match &target.part {
        Part::Method(method) => match numbers.class(method.class) {
            Some(_) => Ok(Some(Target::method(renumbered_method(numbers, method)))),
            None => Ok(None),
        },
        Part::Guard(point, first, fallback) => {
            let Some(point) = numbers.switch(*point) else {
                return Ok(None);
            };
            let Some(first) = carried_target(alloc, numbers, first)? else {
                return Ok(None);
            };
            let Some(fallback) = carried_target(alloc, numbers, fallback)? else {
                return Ok(None);
            };
            Ok(Some(Target::guard(point, Box::new(alloc, first)?, Box::new(alloc, fallback)?)))
        }
        Part::Invoker(site) => match numbers.call_site(*site) {
            Some(site) => Ok(Some(Target::invoker(site))),
            None => Ok(None),
        },
    }
}

/// The release of those call sites and switch points that aren't gone.
fn carried_release(
    alloc: Global,
    numbers: &Renumbering,
    call_sites: &[CallSiteId],
    points: &[SwitchId],
) -> Result<Option<Event>, AllocError>
    ensures { IfOk result (λ made. made ≡ carries.carried numbers.now (event.Release call_sites.now points.now)) }
{
    let call_sites = carried_call_sites(alloc, numbers, call_sites)?;
    let points = carried_points(alloc, numbers, points)?;
    Ok(Some(Event::Release(Seq::of(call_sites), Seq::of(points))))
}

/// The call sites that aren't gone.
fn carried_call_sites(
    alloc: Global,
    numbers: &Renumbering,
    call_sites: &[CallSiteId],
) -> Result<Vec<CallSiteId>, AllocError>
    ensures { IfOk result (λ made. made.items ≡ filter_map (new_number numbers.now.call_sites) call_sites.now) }
{
    call_sites
        .iter()
        .filter_map(|site| numbers.call_site(*site))
        .collect(alloc)
}

/// The switch points that aren't gone.
fn carried_points(
    alloc: Global,
    numbers: &Renumbering,
    points: &[SwitchId],
) -> Result<Vec<SwitchId>, AllocError>
    ensures { IfOk result (λ made. made.items ≡ filter_map (new_number numbers.now.switches) points.now) }
{
    points
        .iter()
        .filter_map(|point| numbers.switch(*point))
        .collect(alloc)
}

/// The loaders that aren't gone.
fn carried_loaders(
    alloc: Global,
    numbers: &Renumbering,
    loaders: &[LoaderId],
) -> Result<Vec<LoaderId>, AllocError>
    ensures { IfOk result (λ made. made.items ≡ filter_map (new_number numbers.now.loaders) loaders.now) }
{
    loaders
        .iter()
        .filter_map(|loader| numbers.loader(*loader))
        .collect(alloc)
}
