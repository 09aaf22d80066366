//! What is asked of a core and of a server whose growths may be refused, one thing after another.

use crate::files::{A, B, C, M, OBJECT, T};
use jl_classfile::{ClassFault, read_class};
use jl_names::{Name, Seq};
use jl_types::{
    CallSiteId, CallSiteKind, ClassId, Event, Link, LoaderId, MethodId, Outcome, Place, SiteNo,
    SwitchId, Target,
};
use std::alloc::{AllocError, Global};
use std::io::{self, ErrorKind};

/// A method, by its class and its number there.
pub(crate) type MethodAt = (u32, u16);

/// An event, which can be made again.
#[derive(Clone, Copy)]
pub(crate) enum Change {
    /// The loader of this number defines the class of the file.
    Define(u32, &'static [u8]),
    /// A new loader.
    Loader,
    /// Loader 1 finds loader 0's class of this name.
    Delegate(&'static str),
    /// Loader 1 is retired.
    Retire,
    /// Call site 0 and the switch points 0 and 1 are released.
    Release,
    /// The request of the first place in the method.
    Request(MethodAt),
    /// A mutable call site of the type ()V: a guard on the switch point, of two methods.
    CallSite(u32, MethodAt, MethodAt),
    /// Such a guard as the target of call site 0.
    Retarget(u32, MethodAt, MethodAt),
    /// A new switch point.
    Switch,
    /// The switch point becomes invalid.
    Invalidate(u32),
    /// Site 0 is bound to call site 0.
    Bind,
    /// The install of the link at site 0 that runs this method for each receiver.
    InstallDirect(MethodAt),
    /// The install of the link at site 0 that runs this static method.
    InstallPlain(MethodAt),
}

/// What is asked.
#[derive(Clone, Copy)]
pub(crate) enum Ask {
    /// That the event is applied.
    Apply(Change),
    /// The installed links.
    Links,
    /// A snapshot.
    Snapshot,
    /// A preparation of site 0.
    Prepare,
    /// The call of site 0, on null or on an object of a class.
    Call(Option<u32>),
}

/// The name of what is asked, and that.
pub(crate) type Deed = (&'static str, Ask);

/// A site on A.f, with A, B below it and then C, which declares f again.
pub(crate) const RECEIVERS: &[Deed] = &[
    ("java/lang/Object", Ask::Apply(Change::Define(0, OBJECT))),
    ("A", Ask::Apply(Change::Define(0, A))),
    ("B", Ask::Apply(Change::Define(0, B))),
    ("M", Ask::Apply(Change::Define(0, M))),
    ("request", Ask::Apply(Change::Request((3, 0)))),
    ("preparation", Ask::Prepare),
    ("install", Ask::Apply(Change::InstallDirect((1, 0)))),
    ("links", Ask::Links),
    ("snapshot", Ask::Snapshot),
    ("C", Ask::Apply(Change::Define(0, C))),
    ("links", Ask::Links),
    ("call", Ask::Call(Some(4))),
    ("install", Ask::Apply(Change::InstallDirect((1, 0)))),
];

/// A site that is bound to a call site, whose target is a guard of two equal methods and then of two methods; and then the release of that.
pub(crate) const GUARDS: &[Deed] = &[
    ("java/lang/Object", Ask::Apply(Change::Define(0, OBJECT))),
    ("T", Ask::Apply(Change::Define(0, T))),
    ("request", Ask::Apply(Change::Request((1, 2)))),
    ("switch point", Ask::Apply(Change::Switch)),
    ("call site", Ask::Apply(Change::CallSite(0, (1, 0), (1, 0)))),
    ("binding", Ask::Apply(Change::Bind)),
    ("preparation", Ask::Prepare),
    ("install", Ask::Apply(Change::InstallPlain((1, 0)))),
    ("invalidation", Ask::Apply(Change::Invalidate(0))),
    ("links", Ask::Links),
    ("switch point", Ask::Apply(Change::Switch)),
    ("target", Ask::Apply(Change::Retarget(1, (1, 0), (1, 1)))),
    ("invalidation", Ask::Apply(Change::Invalidate(1))),
    ("links", Ask::Links),
    ("call", Ask::Call(None)),
    ("invalidation", Ask::Apply(Change::Invalidate(1))),
    ("install", Ask::Apply(Change::InstallPlain((1, 1)))),
    ("release", Ask::Apply(Change::Release)),
    ("links", Ask::Links),
    ("call", Ask::Call(None)),
    ("release", Ask::Apply(Change::Release)),
];

/// A site in a class of loader 1, on A.f, with A of loader 0 and B of loader 1 below it; and then the retirement of loader 1.
pub(crate) const RETIREMENT: &[Deed] = &[
    ("java/lang/Object", Ask::Apply(Change::Define(0, OBJECT))),
    ("A", Ask::Apply(Change::Define(0, A))),
    ("loader", Ask::Apply(Change::Loader)),
    (
        "delegation",
        Ask::Apply(Change::Delegate("java/lang/Object")),
    ),
    ("delegation", Ask::Apply(Change::Delegate("A"))),
    ("B", Ask::Apply(Change::Define(1, B))),
    ("M", Ask::Apply(Change::Define(1, M))),
    ("request", Ask::Apply(Change::Request((3, 0)))),
    ("install", Ask::Apply(Change::InstallDirect((1, 0)))),
    ("links", Ask::Links),
    ("snapshot", Ask::Snapshot),
    ("retirement", Ask::Apply(Change::Retire)),
    ("links", Ask::Links),
    ("call", Ask::Call(Some(1))),
    ("install", Ask::Apply(Change::InstallDirect((1, 0)))),
    ("retirement", Ask::Apply(Change::Retire)),
];

/// The method.
pub(crate) fn method(at: MethodAt) -> MethodId {
    MethodId {
        class: ClassId::new(at.0),
        index: at.1,
    }
}

/// A guard of two methods.
pub(crate) fn guard(
    alloc: Global,
    point: u32,
    first: MethodAt,
    fallback: MethodAt,
) -> Result<Target, AllocError> {
    let first = Box::new(alloc, Target::method(method(first)))?;
    let fallback = Box::new(alloc, Target::method(method(fallback)))?;
    Ok(Target::guard(SwitchId::new(point), first, fallback))
}

/// A mutable call site of the type ()V with this target.
pub(crate) fn call_site(alloc: Global, target: Target) -> Result<Event, AllocError> {
    let ty = Name::copied(alloc, b"()V")?;
    Ok(Event::NewCallSite(CallSiteKind::Mutable, ty, target))
}

/// The invalidation of the switch point.
pub(crate) fn invalidation(alloc: Global, point: u32) -> Result<Event, AllocError> {
    let mut points = Vec::new(alloc);
    points.push(SwitchId::new(point))?;
    Ok(Event::Invalidate(Seq::of(points)))
}

/// The release of call site 0 and the switch points 0 and 1.
fn release(alloc: Global) -> Result<Event, AllocError> {
    let mut call_sites = Vec::new(alloc);
    call_sites.push(CallSiteId::new(0))?;
    let mut points = Vec::new(alloc);
    points.push(SwitchId::new(0))?;
    points.push(SwitchId::new(1))?;
    Ok(Event::Release(Seq::of(call_sites), Seq::of(points)))
}

/// Site 0 with this.
fn at_site<L: Copy + Drop>(alloc: Global, link: L) -> Result<Seq<(SiteNo, L)>, AllocError> {
    let mut rows = Vec::new(alloc);
    rows.push((SiteNo::new(0), link))?;
    Ok(Seq::of(rows))
}

/// The install of the link at site 0.
fn install(alloc: Global, link: Link) -> Result<Event, AllocError> {
    Ok(Event::Install(at_site(alloc, link)?))
}

/// The request of the first place in the method.
pub(crate) fn request(at: MethodAt) -> Event {
    Event::Request(Place {
        class: ClassId::new(at.0),
        method: at.1,
        pc: 0,
    })
}

/// The event of a change that is no definition.
fn small_event(alloc: Global, change: &Change) -> Result<Event, AllocError> {
    match change {
        Change::Define(..) | Change::Switch => Ok(Event::NewSwitch),
        Change::Loader => Ok(Event::NewLoader),
        Change::Delegate(name) => {
            let name = Name::copied(alloc, name.as_bytes())?;
            Ok(Event::Delegate(LoaderId::new(1), name, LoaderId::new(0)))
        }
        Change::Retire => Ok(Event::Retire(LoaderId::new(1))),
        Change::Release => release(alloc),
        Change::Request(at) => Ok(request(*at)),
        Change::CallSite(point, first, fallback) => {
            call_site(alloc, guard(alloc, *point, *first, *fallback)?)
        }
        Change::Retarget(point, first, fallback) => Ok(Event::SetTarget(
            CallSiteId::new(0),
            guard(alloc, *point, *first, *fallback)?,
        )),
        Change::Invalidate(point) => invalidation(alloc, *point),
        Change::Bind => Ok(Event::Bind(SiteNo::new(0), CallSiteId::new(0))),
        Change::InstallDirect(at) => install(alloc, Link::Direct(Outcome::Run(method(*at)))),
        Change::InstallPlain(at) => install(alloc, Link::Plain(method(*at))),
    }
}

/// The event of the change.
///
/// # Errors
///
/// Want of memory (ErrorKind::OutOfMemory), and a file that isn't read otherwise.
pub(crate) fn event(alloc: Global, change: &Change) -> io::Result<Event> {
    match change {
        Change::Define(loader, bytes) => match read_class(alloc, bytes) {
            Ok(file) => Ok(Event::Define(LoaderId::new(*loader), file)),
            Err(ClassFault::Memory) => Err(ErrorKind::OutOfMemory.into()),
            Err(_) => Err(ErrorKind::InvalidData.into()),
        },
        other => Ok(small_event(alloc, other)?),
    }
}
