//! Events by numbers and constant rows, so that the same one can be made twice.

use crate::classes::{Class, ClassRow, row_of};
use jl_class::ClassFile;
use jl_core::Core;
use jl_names::Seq;
use jl_relink::Prepared;
use jl_types::{
    CallSiteId, CallSiteKind, ClassId, Event, Link, LoaderId, MethodId, Outcome, Place, SiteNo,
    SwitchId, Target,
};
use rows_files::{CallRow, calling, class, named};
use std::alloc::{AllocError, Global};

/// A method, by its class and its number there.
pub(crate) type MethodAt = (u32, u16);

/// What a call site runs: methods, guards by their switch points, and other call sites by their numbers.
#[derive(Clone, Copy)]
pub(crate) enum Shape {
    /// A method.
    Method(MethodAt),
    /// A guard of two methods.
    Guard(u32, MethodAt, MethodAt),
    /// A guard of a method, with a guard of two methods as its fallback.
    GuardAfter(u32, MethodAt, u32, MethodAt, MethodAt),
    /// A guard of a guard of two methods, with a method as its fallback.
    Within(u32, u32, MethodAt, MethodAt, MethodAt),
    /// So many guards on a point, each the first part of the next one, round a method, which is the fallback of each.
    Firsts(u32, u32, MethodAt),
    /// Whatever a call site runs.
    Invoker(u32),
    /// A guard of what a call site runs and a method.
    InvokerOr(u32, u32, MethodAt),
}

/// An event.
#[derive(Clone, Copy)]
pub(crate) enum Step {
    /// A new loader.
    Loader,
    /// The loader defines the class.
    Define(u32, Class),
    /// The request of a place in the first method of the class.
    Request(u32, u32),
    /// A new call site of this type.
    CallSite(CallSiteKind, &'static str, Shape),
    /// Another target for the call site.
    Retarget(u32, Shape),
    /// A new switch point.
    Point,
    /// The switch points become invalid.
    Invalidate(&'static [u32]),
    /// The site is bound to the call site.
    Bind(u32, u32),
    /// The loader finds the class of this name that loader 0 finds.
    Delegate(u32, &'static str),
    /// The first loader finds the class of this name that the other one finds.
    Find(u32, &'static str, u32),
    /// The install of the links that these sites have now.
    Install(&'static [u32]),
    /// The install of the link that this site has now.
    InstallOne(u32),
    /// The install of a megamorphic link at each of these sites.
    Wrong(&'static [u32]),
    /// The install of a megamorphic link at site 0, so many times.
    WrongAgain(usize),
    /// The install of the link that runs class 1's first method on each object, at site 0.
    ByHand,
    /// The loader goes.
    Retire(u32),
    /// The loaders go at once.
    RetireAll(&'static [u32]),
    /// The call sites and the switch points go at once.
    Release(&'static [u32], &'static [u32]),
}

/// What is read of the row's class file, with these calls.
fn file_with(alloc: Global, row: &ClassRow, calls: &[CallRow]) -> Option<ClassFile> {
    match row.superclass {
        Some(superclass) => calling(
            alloc,
            row.name,
            row.flags,
            superclass,
            row.interfaces,
            calls,
            row.methods,
        ),
        None => class(alloc, row.name, row.flags, None, &[], row.methods),
    }
}

/// The definition of the class.
fn definition(alloc: Global, loader: u32, class: Class) -> Result<Event, AllocError> {
    let row = row_of(class);
    let mut calls = Vec::new(alloc);
    for _ in 0..row.times {
        calls.extend_from_slice(row.calls)?;
    }
    match file_with(alloc, row, &calls) {
        Some(file) => Ok(Event::Define(LoaderId::new(loader), file)),
        None => Err(AllocError),
    }
}

/// The method as a target.
fn method(at: &MethodAt) -> Target {
    Target::method(MethodId {
        class: ClassId::new(at.0),
        index: at.1,
    })
}

/// A guard of two targets.
fn guard(alloc: Global, point: u32, first: Target, fallback: Target) -> Result<Target, AllocError> {
    let first = Box::new(alloc, first)?;
    let fallback = Box::new(alloc, fallback)?;
    Ok(Target::guard(SwitchId::new(point), first, fallback))
}

/// A guard of two methods.
fn guard_of_methods(
    alloc: Global,
    point: u32,
    first: &MethodAt,
    fallback: &MethodAt,
) -> Result<Target, AllocError> {
    guard(alloc, point, method(first), method(fallback))
}

/// The target of this shape.
fn target(alloc: Global, shape: &Shape) -> Result<Target, AllocError> {
    match shape {
        Shape::Method(at) => Ok(method(at)),
        Shape::Guard(point, first, fallback) => guard_of_methods(alloc, *point, first, fallback),
        Shape::GuardAfter(outer, before, inner, first, fallback) => {
            let later = guard_of_methods(alloc, *inner, first, fallback)?;
            guard(alloc, *outer, method(before), later)
        }
        Shape::Within(outer, inner, first, fallback, later) => {
            let within = guard_of_methods(alloc, *inner, first, fallback)?;
            guard(alloc, *outer, within, method(later))
        }
        Shape::Firsts(guards, point, at) => {
            let mut target = method(at);
            for _ in 0..*guards {
                target = guard(alloc, *point, target, method(at))?;
            }
            Ok(target)
        }
        Shape::Invoker(site) => Ok(Target::invoker(CallSiteId::new(*site))),
        Shape::InvokerOr(point, site, fallback) => {
            let first = Target::invoker(CallSiteId::new(*site));
            guard(alloc, *point, first, method(fallback))
        }
    }
}

/// A new call site.
fn call_site(
    alloc: Global,
    kind: CallSiteKind,
    ty: &str,
    shape: &Shape,
) -> Result<Event, AllocError> {
    let ty = named(alloc, ty)?;
    Ok(Event::NewCallSite(kind, ty, target(alloc, shape)?))
}

/// These switch points.
fn switch_points(alloc: Global, numbers: &[u32]) -> Result<Seq<SwitchId>, AllocError> {
    let mut points = Vec::new(alloc);
    for number in numbers {
        points.push(SwitchId::new(*number))?;
    }
    Ok(Seq::of(points))
}

/// The release of these call sites and switch points.
fn release(alloc: Global, call_sites: &[u32], points: &[u32]) -> Result<Event, AllocError> {
    let mut sites = Vec::new(alloc);
    for number in call_sites {
        sites.push(CallSiteId::new(*number))?;
    }
    let points = switch_points(alloc, points)?;
    Ok(Event::Release(Seq::of(sites), points))
}

/// The retirement of these loaders at once.
fn retirement(alloc: Global, numbers: &[u32]) -> Result<Event, AllocError> {
    let mut loaders = Vec::new(alloc);
    for number in numbers {
        loaders.push(LoaderId::new(*number))?;
    }
    Ok(Event::RetireAll(Seq::of(loaders)))
}

/// The delegation of this name.
fn delegation(alloc: Global, loader: u32, name: &str, to: u32) -> Result<Event, AllocError> {
    let name = named(alloc, name)?;
    Ok(Event::Delegate(LoaderId::new(loader), name, LoaderId::new(to)))
}

/// These sites, each with the value.
fn with_each<T: Copy + Drop>(
    alloc: Global,
    numbers: &[u32],
    value: T,
) -> Result<Vec<(SiteNo, T)>, AllocError> {
    let mut rows = Vec::new(alloc);
    for number in numbers {
        rows.push((SiteNo::new(*number), value))?;
    }
    Ok(rows)
}

/// The install of this link at each of these sites.
fn install_each(alloc: Global, numbers: &[u32], link: Link) -> Result<Event, AllocError> {
    let rows = with_each(alloc, numbers, link)?;
    Ok(Event::Install(Seq::of(rows)))
}

/// The install of the links that a preparation gives the sites now, or of links that they haven't, if it gives none.
fn install(alloc: Global, core: &Core, numbers: &[u32]) -> Result<Event, AllocError> {
    let mut sites = Vec::new(alloc);
    for number in numbers {
        sites.push(SiteNo::new(*number))?;
    }
    match core.prepare(alloc, sites.as_slice()) {
        Ok(Prepared { serial: _, rows }) => Ok(Event::Install(rows)),
        Err(_) => install_each(alloc, numbers, Link::Mega),
    }
}

/// The first method of the class.
pub(crate) fn first(class: u32) -> MethodId {
    MethodId {
        class: ClassId::new(class),
        index: 0,
    }
}

/// The link that runs class 1's first method on each object.
pub(crate) fn runs_first() -> Link {
    Link::Direct(Outcome::Run(first(1)))
}

/// The step's event, over what the core has now.
pub(crate) fn event(alloc: Global, core: &Core, step: &Step) -> Result<Event, AllocError> {
    match step {
        Step::Loader => Ok(Event::NewLoader),
        Step::Define(loader, class) => definition(alloc, *loader, *class),
        Step::Request(class, pc) => Ok(Event::Request(Place {
            class: ClassId::new(*class),
            method: 0,
            pc: *pc,
        })),
        Step::CallSite(kind, ty, shape) => call_site(alloc, *kind, ty, shape),
        Step::Retarget(site, shape) => {
            let target = target(alloc, shape)?;
            Ok(Event::SetTarget(CallSiteId::new(*site), target))
        }
        Step::Point => Ok(Event::NewSwitch),
        Step::Invalidate(points) => Ok(Event::Invalidate(switch_points(alloc, points)?)),
        Step::Bind(site, call_site) => {
            Ok(Event::Bind(SiteNo::new(*site), CallSiteId::new(*call_site)))
        }
        Step::Delegate(loader, name) => delegation(alloc, *loader, name, 0),
        Step::Find(loader, name, to) => delegation(alloc, *loader, name, *to),
        Step::Install(sites) => install(alloc, core, sites),
        Step::InstallOne(site) => install(alloc, core, &[*site]),
        Step::Wrong(sites) => install_each(alloc, sites, Link::Mega),
        Step::WrongAgain(count) => {
            let sites = vec![in alloc; 0u32; *count]?;
            install_each(alloc, &sites, Link::Mega)
        }
        Step::ByHand => install_each(alloc, &[0], runs_first()),
        Step::Retire(loader) => Ok(Event::Retire(LoaderId::new(*loader))),
        Step::RetireAll(loaders) => retirement(alloc, loaders),
        Step::Release(call_sites, points) => release(alloc, call_sites, points),
    }
}

/// Whether the step is accepted.
pub(crate) fn is_done(alloc: Global, core: &mut Core, step: &Step) -> bool {
    match event(alloc, core, step) {
        Ok(event) => core.apply(alloc, event).is_ok(),
        Err(_) => false,
    }
}

/// Whether each step is accepted, one after another.
pub(crate) fn are_done(alloc: Global, core: &mut Core, steps: &[Step]) -> bool {
    let mut all = true;
    for step in steps {
        all = is_done(alloc, core, step) && all;
    }
    all
}
