//! Whether an event is accepted. The verdict is asked here and nowhere else.

ghost use Rattle.std.specs.Prelude.{◌≡◌, ◌≤◌, ◌^◌, ◌∷◌, [], true, None, nat_le, length, option_map};
ghost use Rattle.std.specs.Bool.{then_some};
ghost use Rattle.jl_types.specs.declared.event.EventOf.TheVariants as event;
ghost use Rattle.jl_types.specs.declared.event.Made.{Made};
ghost use Rattle.jl_types.specs.declared.refusal.Refusal.TheVariants as refusal;
ghost use Rattle.jl_types.specs.Events.Definitions.{delegate_fault};
ghost use Rattle.jl_types.specs.Events.Retirement.{retire_fault};
ghost use Rattle.jl_types.specs.Events.Release.{release_fault};
ghost use Rattle.jl_types.specs.Events.Verdict.{retire_all_fault};
ghost use Rattle.jl_types.specs.Events.Verdict as events;
ghost use Rattle.jl_types.specs.Events.Verdict.{verdict};
ghost use Rattle.jl_events.specs.Judging.{IsJudged, most_to_judge};

use crate::binding::bind_refusal;
use crate::install::install_refusal;
use crate::request::judged_request;
use jl_callsites::discard_target;
use jl_class::ClassFile;
use jl_hierarchy::{Classes, Leaving};
use jl_relink::World;
use jl_types::{
    CallSiteFault, CallSiteId, Event, Limits, LoaderId, Refusal, RetireFault, SwitchId, Work,
};
use std::alloc::Global;
use std::slice::from_ref;

/// The event itself, if the world accepts it at these limits. The work is counted: only the links of an install are looked up.
///
/// # Errors
///
/// The first refusal.
pub fn judged(
    alloc: Global,
    world: &World,
    limits: Limits,
    event: Event,
    work: &mut Work,
) -> Result<Event, Refusal>
    requires few { length world.now.places ≤ limits.sites }
    requires nothing_yet { work.old ≡ 0 }
    ensures judged { IsJudged (verdict limits world.now event) event result }
    ensures ticks { work.new ≤ most_to_judge world.now event }
    ensures small { work.new ≤ 2 ^ 28 }
{
    match event {
        Event::NewLoader => unless(
            loader_refusal(&world.classes, limits.loaders),
            Event::NewLoader,
        ),
        Event::Define(loader, file) => match world.classes.admitted(loader, file, limits.classes) {
            Ok(file) => Ok(Event::Define(loader, file)),
            Err(fault) => Err(Refusal::Define(fault)),
        },
        Event::Delegate(loader, name, to) => {
            let refusal = delegation_refusal(&world.classes, loader, name.as_slice(), to);
            unless(refusal, Event::Delegate(loader, name, to))
        }
        Event::Request(place) => judged_request(world, limits, place),
        Event::NewCallSite(kind, ty, target) => {
            let fault = world
                .sites
                .new_site_fault(&world.classes, ty.as_slice(), &target, limits.call_sites);
            unless(of_call_site(fault), Event::NewCallSite(kind, ty, target))
        }
        Event::SetTarget(site, target) => {
            let fault = world.sites.set_target_fault(&world.classes, site, &target);
            unless(of_call_site(fault), Event::SetTarget(site, target))
        }
        Event::NewSwitch => unless(
            of_call_site(world.sites.new_switch_fault(limits.switches)),
            Event::NewSwitch,
        ),
        Event::Invalidate(points) => {
            let fault = world.sites.invalidate_fault(points.as_slice());
            unless(of_call_site(fault), Event::Invalidate(points))
        }
        Event::Bind(site, call_site) => unless(
            bind_refusal(world, site, call_site),
            Event::Bind(site, call_site),
        ),
        Event::Install(rows) => {
            let refusal = install_refusal(world, rows.as_slice(), work);
            unless(refusal, Event::Install(rows))
        }
        Event::Retire(loader) => unless(retire_refusal(world, loader), Event::Retire(loader)),
        Event::RetireAll(loaders) => {
            let refusal = retirement_refusal(alloc, world, loaders.as_slice());
            unless(refusal, Event::RetireAll(loaders))
        }
        Event::Release(call_sites, points) => {
            let refusal = release_refusal(alloc, world, call_sites.as_slice(), points.as_slice());
            unless(refusal, Event::Release(call_sites, points))
        }
    }
}

/// The event, unless there is a refusal.
pub(crate) fn unless(refusal: Option<Refusal>, event: Event) -> Result<Event, Refusal>
    ensures { (m : Made) → IsJudged (events.unless refusal m) event result }
{
    match refusal {
        Some(refusal) => {
            discard(event);
            Err(refusal)
        }
        None => Ok(event),
    }
}

/// Lets an event go that was refused, its target part by part, however deep that is.
fn discard(event: Event) {
    match event {
        Event::NewCallSite(_, _, target) => discard_target(target),
        Event::SetTarget(_, target) => discard_target(target),
        _ => {}
    }
}

/// Why no loader is added, if there may be so many.
fn loader_refusal(classes: &Classes, most_loaders: u32) -> Option<Refusal>
    ensures { result ≡ then_some (nat_le most_loaders (length classes.now.loaders)) refusal.LoadersFull }
{
    if classes.has_all_loaders(most_loaders) {
        Some(Refusal::LoadersFull)
    } else {
        None
    }
}

/// Why the loader doesn't find the other one's class.
fn delegation_refusal(
    classes: &Classes,
    loader: LoaderId,
    name: &[u8],
    to: LoaderId,
) -> Option<Refusal>
    ensures { result ≡ option_map refusal.Delegate (delegate_fault classes.now loader name.now to) }
{
    match classes.delegation(loader, name, to) {
        Ok(_) => None,
        Err(fault) => Some(Refusal::Delegate(fault)),
    }
}

/// Why the loader can't go.
fn retire_refusal(world: &World, loader: LoaderId) -> Option<Refusal>
    ensures { result ≡ option_map refusal.Retire (retire_fault world.now (loader ∷ []) loader) }
{
    let fault = loader_fault(world, from_ref(&loader), loader)?;
    Some(Refusal::Retire(fault))
}

/// Why the loader can't go if all of these go at once. A fault of classes comes before one of the targets of call sites.
fn loader_fault(world: &World, loaders: &[LoaderId], loader: LoaderId) -> Option<RetireFault>
    ensures { result ≡ retire_fault world.now loaders.now loader }
{
    if let Some(fault) = world.classes.retire_fault(loaders, loader) {
        return Some(fault);
    }
    let site = world.sites.targeted(&world.classes, loader)?;
    Some(RetireFault::Targeted(site))
}

/// Why the loaders can't go at once. If they can, the classes and the call sites are walked once. If one can't, or memory is
/// short, they are walked once more for each loader up to the first that can't.
fn retirement_refusal(alloc: Global, world: &World, loaders: &[LoaderId]) -> Option<Refusal>
    ensures { result ≡ retire_all_fault world.now loaders.now }
{
    if may_all_go(alloc, world, loaders) {
        return None;
    }
    first_held(world, loaders)
}

/// Whether it shows by one walk that the loaders can go at once. It doesn't if memory is short.
fn may_all_go(alloc: Global, world: &World, loaders: &[LoaderId]) -> bool
    ensures { result ≡ true → retire_all_fault world.now loaders.now ≡ None }
{
    let Ok(leaving) = Leaving::new(alloc, loaders) else {
        return false;
    };
    if world.classes.spares(&leaving) {
        return world.sites.spares(&world.classes, &leaving);
    }
    false
}

/// The refusal of the first of the loaders that can't go with the others.
fn first_held(world: &World, loaders: &[LoaderId]) -> Option<Refusal>
    ensures { result ≡ retire_all_fault world.now loaders.now }
{
    for loader in loaders {
        if let Some(fault) = loader_fault(world, loaders, *loader) {
            return Some(Refusal::RetireAll {
                loader: *loader,
                fault,
            });
        }
    }
    None
}

/// Why the call sites and switch points aren't let go.
fn release_refusal(
    alloc: Global,
    world: &World,
    call_sites: &[CallSiteId],
    points: &[SwitchId],
) -> Option<Refusal>
    ensures { result ≡ option_map refusal.Release (release_fault world.now.sites call_sites.now points.now) }
{
    let fault = world.sites.release_fault(alloc, call_sites, points)?;
    Some(Refusal::Release(fault))
}

/// The refusal that is this fault.
fn of_call_site(fault: Option<CallSiteFault>) -> Option<Refusal>
    ensures { result ≡ option_map refusal.CallSite fault }
{
    Some(Refusal::CallSite(fault?))
}
