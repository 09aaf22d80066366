//! What refusals say by `Display`: the names that answers have under `refused`.

use jl_classfile::ClassFault;
use jl_code::CodeFault;
use jl_hierarchy::LoaderFault;
use jl_json::{FileRefusal, event_refusal_value, prepare_refusal_value};
use jl_names::{Name, NameFault};
use jl_pool::PoolFault;
use jl_sketch::SketchFault;
use jl_types::{
    CallSiteFault, CallSiteId, ClassId, DefineFault, DelegateFault, Link, LoaderId, NotLinkable,
    OrMemory, PrepareFault, Refusal, ReleaseFault, RetireFault, SiteNo, SitesFault, SwitchId,
};
use serde_json::Value;
use std::alloc::{AllocError, Global};
use std::fmt::Display;

/// Whether `{}` writes this.
fn says<F: Display>(alloc: Global, fault: &F, name: &str) -> bool {
    let mut text = String::new(alloc);
    match write!(text, "{fault}") {
        Ok(()) => text.as_str() == name,
        Err(_) => false,
    }
}

/// Whether the answer refuses by this name.
fn refuses(answer: Result<Value, AllocError>, name: &str) -> bool {
    match answer {
        Ok(value) => value.get("refused").and_then(|name| name.as_str()) == Some(name),
        Err(_) => false,
    }
}

/// Faults of class files, of their pools and their codes, and of sketches.
const FILES: &[(SketchFault, &str)] = &[
    (
        SketchFault::Refused(ClassFault::Pool(PoolFault::Truncated)),
        "Pool.Truncated",
    ),
    (
        SketchFault::Refused(ClassFault::Pool(PoolFault::BadTag(3))),
        "Pool.BadTag",
    ),
    (
        SketchFault::Refused(ClassFault::Pool(PoolFault::BadIndex(3))),
        "Pool.BadIndex",
    ),
    (
        SketchFault::Refused(ClassFault::Pool(PoolFault::BadUtf8(3))),
        "Pool.BadUtf8",
    ),
    (
        SketchFault::Refused(ClassFault::Pool(PoolFault::BadDescriptor(3))),
        "Pool.BadDescriptor",
    ),
    (
        SketchFault::Refused(ClassFault::Pool(PoolFault::Memory)),
        "Memory",
    ),
    (
        SketchFault::Refused(ClassFault::Code(1, CodeFault::BadOpcode(3))),
        "Code.BadOpcode",
    ),
    (
        SketchFault::Refused(ClassFault::Code(1, CodeFault::CutShort(3))),
        "Code.CutShort",
    ),
    (
        SketchFault::Refused(ClassFault::Code(1, CodeFault::BadSwitch(3))),
        "Code.BadSwitch",
    ),
    (
        SketchFault::Refused(ClassFault::Code(1, CodeFault::BadOperand(3))),
        "Code.BadOperand",
    ),
    (
        SketchFault::Refused(ClassFault::Code(1, CodeFault::BadLayout)),
        "Code.BadLayout",
    ),
    (
        SketchFault::Refused(ClassFault::Code(1, CodeFault::Memory)),
        "Memory",
    ),
    (SketchFault::Refused(ClassFault::TooLarge), "TooLarge"),
    (SketchFault::Refused(ClassFault::BadMagic), "BadMagic"),
    (SketchFault::Refused(ClassFault::BadVersion), "BadVersion"),
    (SketchFault::Refused(ClassFault::Truncated), "Truncated"),
    (SketchFault::Refused(ClassFault::ModuleFile), "ModuleFile"),
    (SketchFault::Refused(ClassFault::BadSuper), "BadSuper"),
    (
        SketchFault::Refused(ClassFault::DuplicateMethod(3)),
        "DuplicateMethod",
    ),
    (SketchFault::Refused(ClassFault::TwoCodes(3)), "TwoCodes"),
    (
        SketchFault::Refused(ClassFault::TrailingBytes),
        "TrailingBytes",
    ),
    (SketchFault::Refused(ClassFault::BadMember(3)), "BadMember"),
    (SketchFault::Refused(ClassFault::BadLink(3)), "BadLink"),
    (SketchFault::Refused(ClassFault::BadNest), "BadNest"),
    (SketchFault::Refused(ClassFault::Memory), "Memory"),
    (SketchFault::TooBig, "TooBig"),
    (SketchFault::CallsWithoutCode(3), "CallsWithoutCode"),
    (SketchFault::Memory, "Memory"),
];

/// The first place whose fault, or its answer, has another name, if there is one.
fn other_file(alloc: Global, rows: &[(SketchFault, &str)]) -> Option<usize> {
    for (place, (fault, name)) in rows.iter().enumerate() {
        let answer = FileRefusal::from(*fault).to_value(alloc);
        if !refuses(answer, name) || !says(alloc, fault, name) {
            return Some(place);
        }
    }
    None
}

const PREPARATIONS: &[&str] = &[
    "Prepare.UnknownSite",
    "Prepare.NotReady",
    "Prepare.Repeated",
    "Prepare.BatchSize",
    "Memory",
];

/// The first of the names that isn't that of the preparation's refusal, if there is one.
fn other_preparation(alloc: Global, names: &[&str]) -> Option<usize> {
    for (place, name) in names.iter().enumerate() {
        let fault = match place {
            0 => PrepareFault::UnknownSite(SiteNo::new(3)),
            1 => PrepareFault::NotReady(SiteNo::new(3)),
            2 => PrepareFault::Repeated(SiteNo::new(3)),
            3 => PrepareFault::BatchSize,
            _ => PrepareFault::Memory,
        };
        if !says(alloc, &fault, name) || !refuses(prepare_refusal_value(alloc, fault), name) {
            return Some(place);
        }
    }
    None
}

/// Why an event is refused, with no more than a number, by its place among the names below.
fn numbered(place: usize) -> Refusal {
    let site = SiteNo::new(3);
    match place {
        0 => Refusal::AlreadyBound(CallSiteId::new(3)),
        1 => Refusal::NotReady { site },
        2 => Refusal::UnknownSite { site },
        3 => Refusal::Repeated { site },
        4 => Refusal::from(SitesFault::Unknown(site)),
        5 => Refusal::from(SitesFault::Repeated(site)),
        6 => Refusal::CallSite(CallSiteFault::InvokerOrder(CallSiteId::new(3))),
        7 => Refusal::Stale {
            site,
            present: Link::Mega,
        },
        8 => Refusal::Retire(RetireFault::UnknownLoader),
        9 => Refusal::Retire(RetireFault::FirstLoader),
        10 => Refusal::Retire(RetireFault::Inherited(ClassId::new(3))),
        11 => Refusal::Retire(RetireFault::Recorded(LoaderId::new(3))),
        12 => Refusal::Retire(RetireFault::Targeted(CallSiteId::new(3))),
        13 => Refusal::RetireAll {
            loader: LoaderId::new(4),
            fault: RetireFault::Recorded(LoaderId::new(3)),
        },
        14 => Refusal::Release(ReleaseFault::UnknownCallSite(CallSiteId::new(3))),
        15 => Refusal::Release(ReleaseFault::UnknownSwitch(SwitchId::new(3))),
        16 => Refusal::Release(ReleaseFault::Invoked(CallSiteId::new(3))),
        _ => Refusal::Release(ReleaseFault::Guarded(CallSiteId::new(3))),
    }
}

const NUMBERED: &[&str] = &[
    "AlreadyBound",
    "NotReady",
    "UnknownSite",
    "Repeated",
    "UnknownSite",
    "Repeated",
    "CallSite.InvokerOrder",
    "Stale",
    "Retire.UnknownLoader",
    "Retire.FirstLoader",
    "Retire.Inherited",
    "Retire.Recorded",
    "Retire.Targeted",
    "Retire.Recorded",
    "Release.UnknownCallSite",
    "Release.UnknownSwitch",
    "Release.Invoked",
    "Release.Guarded",
];

/// Why an event is refused, with no more than a name, by its place among the names below.
fn plain(place: usize) -> Refusal {
    match place {
        0 => Refusal::UnknownClass,
        1 => Refusal::NoSuchPlace,
        2 => Refusal::NotLinkable(NotLinkable::ArrayReceiver),
        3 => Refusal::NotLinkable(NotLinkable::PolymorphicSignature),
        4 => Refusal::SitesFull,
        5 => Refusal::NotDynamic,
        6 => Refusal::TypeMismatch,
        7 => Refusal::BatchSize,
        8 => Refusal::Memory,
        9 => Refusal::LoadersFull,
        10 => Refusal::CallSite(CallSiteFault::UnknownCallSite),
        11 => Refusal::CallSite(CallSiteFault::Constant),
        12 => Refusal::CallSite(CallSiteFault::WrongType),
        13 => Refusal::CallSite(CallSiteFault::UnknownMethod),
        14 => Refusal::CallSite(CallSiteFault::NotStatic),
        15 => Refusal::CallSite(CallSiteFault::UnknownSwitch),
        16 => Refusal::CallSite(CallSiteFault::TooDeep),
        17 => Refusal::CallSite(CallSiteFault::Full),
        18 => Refusal::Delegate(DelegateFault::UnknownLoader),
        19 => Refusal::Delegate(DelegateFault::NotRecorded),
        20 => Refusal::Delegate(DelegateFault::AlreadyRecorded),
        21 => Refusal::Define(DefineFault::UnknownLoader),
        22 => Refusal::Define(DefineFault::AlreadyRecorded),
        23 => Refusal::Define(DefineFault::NamesItself),
        24 => Refusal::Define(DefineFault::SuperIsInterface),
        25 => Refusal::Define(DefineFault::FinalSuper),
        26 => Refusal::Define(DefineFault::SecondObject),
        _ => Refusal::Define(DefineFault::Full),
    }
}

const PLAIN: &[&str] = &[
    "UnknownClass",
    "NoSuchPlace",
    "NotLinkable.ArrayReceiver",
    "NotLinkable.PolymorphicSignature",
    "SitesFull",
    "NotDynamic",
    "TypeMismatch",
    "BatchSize",
    "Memory",
    "LoadersFull",
    "CallSite.UnknownCallSite",
    "CallSite.Constant",
    "CallSite.WrongType",
    "CallSite.UnknownMethod",
    "CallSite.NotStatic",
    "CallSite.UnknownSwitch",
    "CallSite.TooDeep",
    "CallSite.Full",
    "Delegate.UnknownLoader",
    "Delegate.NotRecorded",
    "Delegate.AlreadyRecorded",
    "Define.UnknownLoader",
    "Define.AlreadyRecorded",
    "Define.NamesItself",
    "Define.SuperIsInterface",
    "Define.FinalSuper",
    "Define.SecondObject",
    "Define.Full",
];

/// Whether both the refusal's text and its answer have the name.
fn is_refused(alloc: Global, refusal: &Refusal, name: &str) -> bool {
    says(alloc, refusal, name) && refuses(event_refusal_value(alloc, refusal), name)
}

/// Whether a definition that is refused for what is above it has the name, by its place among the names below.
fn is_parent_fault(alloc: Global, place: usize, name: &str) -> bool {
    let Ok(parent) = Name::copied(alloc, b"p/A") else {
        return false;
    };
    let fault = match place {
        0 => DefineFault::MissingParent(parent),
        1 => DefineFault::NotAnInterface(parent),
        _ => DefineFault::InaccessibleParent(parent),
    };
    is_refused(alloc, &Refusal::Define(fault), name)
}

const PARENTS: &[&str] = &[
    "Define.MissingParent",
    "Define.NotAnInterface",
    "Define.InaccessibleParent",
];

/// The first of the names that isn't that of the event's refusal with no more than a name, if there is one.
fn other_plain(alloc: Global, names: &[&str]) -> Option<usize> {
    for (place, name) in names.iter().enumerate() {
        if !is_refused(alloc, &plain(place), name) {
            return Some(place);
        }
    }
    None
}

/// The first of the names that isn't that of the event's refusal with no more than a number, if there is one.
fn other_numbered(alloc: Global, names: &[&str]) -> Option<usize> {
    for (place, name) in names.iter().enumerate() {
        if !is_refused(alloc, &numbered(place), name) {
            return Some(place);
        }
    }
    None
}

/// The first of the names that isn't that of a definition that is refused for what is above it, if there is one.
fn other_parent(alloc: Global, names: &[&str]) -> Option<usize> {
    for (place, name) in names.iter().enumerate() {
        if !is_parent_fault(alloc, place, name) {
            return Some(place);
        }
    }
    None
}

/// A name is refused if it is part of something, and so by no answer of its own.
const NAMES: &[(NameFault, &str)] = &[
    (NameFault::BadByte(3), "BadByte"),
    (NameFault::Truncated, "Truncated"),
    (NameFault::BadDescriptor(3), "BadDescriptor"),
    (NameFault::TooManySlots, "TooManySlots"),
    (NameFault::Memory, "Memory"),
];

/// The first of the names that isn't that of the fault, if there is one.
fn other_name(alloc: Global, rows: &[(NameFault, &str)]) -> Option<usize> {
    for (place, (fault, name)) in rows.iter().enumerate() {
        if !says(alloc, fault, name) {
            return Some(place);
        }
    }
    None
}

#[test]
fn file_faults_say_their_names(rt: HostRuntime) {
    assert_eq!(rt; other_file(rt.alloc(), FILES), None);
}

#[test]
fn preparations_say_their_names(rt: HostRuntime) {
    assert_eq!(rt; other_preparation(rt.alloc(), PREPARATIONS), None);
}

#[test]
fn refusals_say_their_names(rt: HostRuntime) {
    let others = [
        other_plain(rt.alloc(), PLAIN),
        other_numbered(rt.alloc(), NUMBERED),
        other_parent(rt.alloc(), PARENTS),
    ];
    assert_eq!(rt; others, [None; 3]);
}

#[test]
fn name_faults_say_their_names(rt: HostRuntime) {
    assert_eq!(rt; other_name(rt.alloc(), NAMES), None);
}

#[test]
fn loader_faults_say_their_names(rt: HostRuntime) {
    assert!(rt; says(rt.alloc(), &LoaderFault::Full, "LoadersFull"));
    assert!(rt; says(rt.alloc(), &LoaderFault::Memory, "Memory"));
}

#[test]
fn site_faults_say_their_names(rt: HostRuntime) {
    assert!(rt;
        says(
            rt.alloc(),
            &SitesFault::Unknown(SiteNo::new(3)),
            "UnknownSite"
        )
    );
    assert!(rt;
        says(
            rt.alloc(),
            &SitesFault::Repeated(SiteNo::new(3)),
            "Repeated"
        )
    );
}

#[test]
fn faults_or_memory_say_their_names(rt: HostRuntime) {
    let array = OrMemory::Fault(NotLinkable::ArrayReceiver);
    assert!(rt; says(rt.alloc(), &array, "NotLinkable.ArrayReceiver"));
    let memory: OrMemory<NotLinkable> = OrMemory::Memory;
    assert!(rt; says(rt.alloc(), &memory, "Memory"));
}

/// Whether the refusal of a file is answered by this name.
fn is_answered(alloc: Global, refusal: FileRefusal, name: &str) -> bool {
    refuses(refusal.to_value(alloc), name)
}

/// The faults of a part of a class file are answered by themselves, too.
#[test]
fn parts_are_refused_by_name(rt: HostRuntime) {
    assert!(rt;
        is_answered(
            rt.alloc(),
            FileRefusal::from(PoolFault::BadTag(3)),
            "Pool.BadTag"
        )
    );
    assert!(rt;
        is_answered(
            rt.alloc(),
            FileRefusal::from(CodeFault::CutShort(3)),
            "Code.CutShort"
        )
    );
}

#[test]
fn files_are_refused_by_name(rt: HostRuntime) {
    assert!(rt;
        is_answered(
            rt.alloc(),
            FileRefusal::from(ClassFault::BadMagic),
            "BadMagic"
        )
    );
}
