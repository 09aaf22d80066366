//! Events that can be made again, and the worlds of the tests.

use crate::deeds::Class::*;
use crate::deeds::Deed::*;
use jl_class::ClassFile;
use jl_names::Seq;
use jl_relink::Prepared;
use jl_types::{
    CallSiteId, CallSiteKind, ClassId, Event, LoaderId, MethodId, Place, PrepareFault, SiteNo,
    SwitchId, Target,
};
use rows_files::{CallRow, MethodRow, calling, named};
use std::alloc::{AllocError, Global};

/// The classes of the tests, all of them public.
#[derive(Clone, Copy)]
pub(crate) enum Class {
    /// java/lang/Object.
    Object,
    /// It has a method f.
    A,
    /// Below A, without a method.
    B,
    /// Below A, which overrides A.f, and so R.
    C,
    R,
    /// Below class Sub4, which overrides its method.
    E,
    /// It calls A.f by invokevirtual.
    M,
    /// It calls A.f at 64 sites, by instructions of 3 bytes.
    Many,
    /// Four invokedynamic, of 5 bytes each, and its methods 1 and 2 for their call sites.
    T,
    /// Three static calls of its own method 1, and one of a class that isn't there.
    W,
}

/// The name, the superclass, if there is one, the calls that the first method makes, if there are any, and the other methods.
struct ClassRow(
    &'static str,
    Option<&'static str>,
    &'static [CallRow],
    &'static [MethodRow],
);

const OBJECT: Option<&str> = Some(rows_files::OBJECT);

/// The method that A has and others override.
const F: &[MethodRow] = &[("f", "()V", 1)];

/// No methods.
const NO_METHODS: &[MethodRow] = &[];

const FOUR: &[CallRow] = &[
    CallRow::Dynamic("x"),
    CallRow::Dynamic("y"),
    CallRow::Dynamic("z"),
    CallRow::Dynamic("w"),
];

const TARGETS: &[MethodRow] = &[("a", "()V", 9), ("b", "()V", 9)];

const STATICS: &[CallRow] = &[
    CallRow::Static("W", "a"),
    CallRow::Static("W", "a"),
    CallRow::Static("W", "a"),
    CallRow::Static("Absent", "a"),
];

const OBJECT_ROW: &ClassRow = &ClassRow(rows_files::OBJECT, None, &[], &[]);

const A_ROW: &ClassRow = &ClassRow("A", OBJECT, &[], F);

const B_ROW: &ClassRow = &ClassRow("B", Some("A"), &[], &[]);

const C_ROW: &ClassRow = &ClassRow("C", Some("A"), &[], F);

const R_ROW: &ClassRow = &ClassRow("R", Some("A"), &[], F);

const E_ROW: &ClassRow = &ClassRow("E", Some("Sub4"), &[], F);

const M_ROW: &ClassRow = &ClassRow("M", OBJECT, &[CallRow::Virtual("A", "f")], &[]);

const MANY_ROW: &ClassRow = &ClassRow("V", OBJECT, &[CallRow::Virtual("A", "f"); 64], &[]);

const T_ROW: &ClassRow = &ClassRow("T", OBJECT, FOUR, TARGETS);

const W_ROW: &ClassRow = &ClassRow("W", OBJECT, STATICS, &[("a", "()V", 9)]);

/// What the class has.
fn row_of(class: Class) -> &'static ClassRow {
    match class {
        Object => OBJECT_ROW,
        A => A_ROW,
        B => B_ROW,
        C => C_ROW,
        R => R_ROW,
        E => E_ROW,
        M => M_ROW,
        Many => MANY_ROW,
        T => T_ROW,
        W => W_ROW,
    }
}

/// How many call sites there are, each bound to an invokedynamic of its own, which has the call site's number.
pub(crate) const CALL_SITES: u32 = 4;

/// An event that can be made again.
#[derive(Clone, Copy)]
pub(crate) enum Deed {
    /// The loader defines the class.
    Define(u32, Class),
    /// Loader 0 defines class D of this number, below A, which overrides A.f or doesn't.
    Below(u32, bool),
    /// A new loader.
    Loader,
    /// The loader finds this class of loader 0 by its name.
    Delegate(u32, Class),
    /// The first loader finds this class of the other one by its name.
    Find(u32, Class, u32),
    /// The request of the instruction at this pc of the class's first method.
    Request(u32, u32),
    /// A mutable call site more, of the class's method 1.
    CallSite(u32),
    /// A mutable call site more, of the class's method 1 while the switch point of this number is valid, and of its method 2 from then on.
    Guarded(u32, u32),
    /// The invokedynamic of this number is bound to the call site of that number.
    Bind(u32, u32),
    /// The call site of this number gets this method of class 1.
    Retarget(u32, u16),
    /// The call site of this number gets what a guarded one has, of this switch point and class.
    Guard(u32, u32, u32),
    /// The sites whose bits are set get the links that they have from scratch then.
    Install(u64),
    /// A new switch point.
    Switch,
    /// The switch point of this number becomes invalid.
    Invalidate(u32),
    /// The loader goes.
    Retire(u32),
    /// The loaders go at once.
    RetireAll(&'static [u32]),
    /// The call sites go at once.
    Release(&'static [u32]),
}

/// A class A 1 with a method, B 2 below it, and an installed site 0 of M 3, which calls that method: 6 events.
pub(crate) const ONE_SITE: &[Deed] = &[
    Define(0, Object),
    Define(0, A),
    Define(0, B),
    Define(0, M),
    Request(3, 0),
    Install(1),
];

/// The four invokedynamic of T 1, each bound to a call site, without links.
pub(crate) const DYNAMIC: &[Deed] = &[
    Define(0, Object),
    Define(0, T),
    CallSite(1),
    CallSite(1),
    CallSite(1),
    CallSite(1),
    Request(1, 0),
    Request(1, 5),
    Request(1, 10),
    Request(1, 15),
    Bind(0, 0),
    Bind(1, 1),
    Bind(2, 2),
    Bind(3, 3),
];

/// The four calls of W 1, without links.
pub(crate) const STATIC: &[Deed] = &[
    Define(0, Object),
    Define(0, W),
    Request(1, 0),
    Request(1, 3),
    Request(1, 6),
    Request(1, 9),
];

/// What is read of the class's file.
fn file(alloc: Global, class: Class) -> Option<ClassFile> {
    let ClassRow(name, superclass, calls, methods) = row_of(class);
    match superclass {
        Some(above) => calling(alloc, name, 33, above, &[], calls, methods),
        None => rows_files::class(alloc, name, 33, None, &[], methods),
    }
}

/// The definition of the class by the loader.
fn definition(loader: u32, file: Option<ClassFile>) -> Option<Event> {
    match file {
        Some(file) => Some(Event::Define(LoaderId::new(loader), file)),
        None => None,
    }
}

/// The class file of D of this number.
fn below(alloc: Global, number: u32, overrides: bool) -> Option<ClassFile> {
    let methods = if overrides { F } else { NO_METHODS };
    match format!(in alloc; "Sub{number}") {
        Ok(name) => rows_files::class(alloc, &name, 33, Some("A"), &[], methods),
        Err(_) => None,
    }
}

/// The method of the class.
pub(crate) fn method(class: u32, index: u16) -> MethodId {
    MethodId {
        class: ClassId::new(class),
        index,
    }
}

/// The class's method 1 while the switch point is valid, and its method 2 from then on.
fn guard(alloc: Global, point: u32, class: u32) -> Result<Target, AllocError> {
    let first = Box::new(alloc, Target::method(method(class, 1)))?;
    let fallback = Box::new(alloc, Target::method(method(class, 2)))?;
    Ok(Target::guard(SwitchId::new(point), first, fallback))
}

/// A mutable call site more, of this target, if it is there.
fn call_site(alloc: Global, target: Result<Target, AllocError>) -> Option<Event> {
    match (named(alloc, "()V"), target) {
        (Ok(ty), Ok(target)) => Some(Event::NewCallSite(CallSiteKind::Mutable, ty, target)),
        _ => None,
    }
}

/// The first loader finds this class of the other one by its name.
fn delegation(alloc: Global, loader: u32, class: Class, to: u32) -> Option<Event> {
    match named(alloc, row_of(class).0) {
        Ok(name) => Some(Event::Delegate(LoaderId::new(loader), name, LoaderId::new(to))),
        Err(_) => None,
    }
}

/// The loaders of these numbers.
fn loaders_of(alloc: Global, numbers: &[u32]) -> Result<Vec<LoaderId>, AllocError> {
    let mut loaders = Vec::new(alloc);
    for number in numbers {
        loaders.push(LoaderId::new(*number))?;
    }
    Ok(loaders)
}

/// The release of the call sites of these numbers, and of no switch point.
fn release(alloc: Global, numbers: &[u32]) -> Result<Event, AllocError> {
    let mut call_sites = Vec::new(alloc);
    for number in numbers {
        call_sites.push(CallSiteId::new(*number))?;
    }
    let points = Seq::of(Vec::new(alloc));
    Ok(Event::Release(Seq::of(call_sites), points))
}

/// The event, but for installs.
pub(crate) fn event(alloc: Global, deed: &Deed) -> Option<Event> {
    match deed {
        Define(loader, class) => definition(*loader, file(alloc, *class)),
        Below(number, overrides) => definition(0, below(alloc, *number, *overrides)),
        Loader => Some(Event::NewLoader),
        Delegate(loader, class) => delegation(alloc, *loader, *class, 0),
        Find(loader, class, to) => delegation(alloc, *loader, *class, *to),
        Request(class, pc) => Some(Event::Request(Place {
            class: ClassId::new(*class),
            method: 0,
            pc: *pc,
        })),
        CallSite(class) => call_site(alloc, Ok(Target::method(method(*class, 1)))),
        Guarded(point, class) => call_site(alloc, guard(alloc, *point, *class)),
        Bind(site, number) => Some(Event::Bind(SiteNo::new(*site), CallSiteId::new(*number))),
        Retarget(number, index) => Some(Event::SetTarget(
            CallSiteId::new(*number),
            Target::method(method(1, *index)),
        )),
        Guard(number, point, class) => match guard(alloc, *point, *class) {
            Ok(target) => Some(Event::SetTarget(CallSiteId::new(*number), target)),
            Err(_) => None,
        },
        Install(_) => None,
        Switch => Some(Event::NewSwitch),
        Invalidate(number) => match vec![in alloc; SwitchId::new(*number); 1] {
            Ok(points) => Some(Event::Invalidate(Seq::of(points))),
            Err(_) => None,
        },
        Retire(loader) => Some(Event::Retire(LoaderId::new(*loader))),
        RetireAll(numbers) => match loaders_of(alloc, numbers) {
            Ok(loaders) => Some(Event::RetireAll(Seq::of(loaders))),
            Err(_) => None,
        },
        Release(numbers) => release(alloc, numbers).ok(),
    }
}

/// The sites whose bits are set.
pub(crate) fn sites_from(alloc: Global, bits: u64) -> Result<Vec<SiteNo>, AllocError> {
    let mut sites = Vec::new(alloc);
    for number in 0..64u32 {
        if bits.wrapping_shr(number) % 2 == 1 {
            sites.push(SiteNo::new(number))?;
        }
    }
    Ok(sites)
}

/// The sites of these numbers.
pub(crate) fn numbered(alloc: Global, numbers: &[u32]) -> Result<Vec<SiteNo>, AllocError> {
    let mut sites = Vec::new(alloc);
    for number in numbers {
        sites.push(SiteNo::new(*number))?;
    }
    Ok(sites)
}

/// The install of what was prepared.
pub(crate) fn install(prepared: Result<Prepared, PrepareFault>) -> Option<Event> {
    match prepared {
        Ok(Prepared { serial: _, rows }) => Some(Event::Install(rows)),
        Err(_) => None,
    }
}

/// The retargeting of this round: each call site in turn, which gets another method each time.
pub(crate) fn turned(round: u32) -> Deed {
    let index = if (round / CALL_SITES) % 2 == 0 { 2 } else { 1 };
    Retarget(round % CALL_SITES, index)
}
