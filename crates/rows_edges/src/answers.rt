//! Answers as JSON: each form once.

use crate::answers::Kind::*;
use jl_classfile::ClassFault;
use jl_code::CodeFault;
use jl_json::{
    FileRefusal, answer_value, event_refusal_value, link_value, links_value, outcome_value,
    prepare_refusal_value, prepared_value, reply_value,
};
use jl_names::{Name, Seq};
use jl_sketch::SketchFault;
use jl_types::{
    Answer, CallSiteFault, CallSiteId, ClassId, DefineFault, DelegateFault, Link, LoaderId, Made,
    MethodId, Missing, NotLinkable, Outcome, PrepareFault, Refusal, Reply, SiteNo, SwitchId, Table,
    TableKind, Throwable, Unlinked,
};
use serde_json::Value;
use std::alloc::{AllocError, Global};

/// What is answered.
#[derive(Clone, Copy)]
enum Kind {
    Outcomes,
    Links,
    /// Rows of links, and these rows as a preparation gives them.
    Lists,
    Calls,
    /// Replies that drop the sites 1 and 4.
    Replies,
    /// Refusals of events, but for the next ones.
    Events,
    /// A refusal that names the class p/A.
    Parents,
    /// Refusals of call sites; the last one is of a target that invokes call site 7.
    CallSites,
    Preparations,
    Sketches,
}

/// Answers, in the order of their places.
const TEXTS: &[(Kind, &[&str])] = &[
    (
        Outcomes,
        &[r#"{"run":[1,2]}"#, r#"{"throws":"AbstractMethodError"}"#],
    ),
    (
        Links,
        &[
            r#"{"fault":"NoSuchMethodError"}"#,
            r#"{"plain":[1,2]}"#,
            r#"{"direct":{"run":[1,2]}}"#,
            r#"{"kind":"virtual","table":[[1,{"run":[1,0]}]]}"#,
            r#"{"kind":"interface","table":[]}"#,
            r#"{"mega":true}"#,
        ],
    ),
    (
        Lists,
        &[
            r#"{"links":[[0,{"mega":true}],[3,{"mega":true}]]}"#,
            r#"{"prepared":7,"rows":[[0,{"mega":true}]]}"#,
        ],
    ),
    (
        Calls,
        &[
            r#"{"run":[1,2]}"#,
            r#"{"throws":"NullPointerException"}"#,
            r#"{"refused":"BadReceiver"}"#,
            r#"{"unlinked":"NoSite"}"#,
            r#"{"unlinked":"NotReady","wants":"methodHost"}"#,
        ],
    ),
    (
        Replies,
        &[
            r#"{"dropped":[1,4]}"#,
            r#"{"dropped":[1,4],"loader":7}"#,
            r#"{"class":7,"dropped":[1,4]}"#,
            r#"{"dropped":[1,4],"site":7}"#,
            r#"{"callsite":7,"dropped":[1,4]}"#,
            r#"{"dropped":[1,4],"switch":7}"#,
        ],
    ),
    (
        Events,
        &[
            r#"{"refused":"BatchSize"}"#,
            r#"{"callsite":5,"refused":"AlreadyBound"}"#,
            r#"{"refused":"NotReady","site":0}"#,
            r#"{"present":{"kind":"virtual","table":[[1,{"run":[1,0]}]]},"refused":"Stale","site":0}"#,
            r#"{"refused":"NotLinkable.ArrayReceiver"}"#,
            r#"{"refused":"Delegate.NotRecorded"}"#,
            r#"{"refused":"Define.Full"}"#,
            r#"{"refused":"Memory"}"#,
            r#"{"callsite":0,"refused":"AlreadyBound"}"#,
            r#"{"refused":"NotDynamic"}"#,
            r#"{"refused":"TypeMismatch"}"#,
            r#"{"refused":"UnknownSite","site":7}"#,
        ],
    ),
    (
        Parents,
        &[r#"{"name":"p/A","refused":"Define.MissingParent"}"#],
    ),
    (
        CallSites,
        &[
            r#"{"refused":"CallSite.UnknownCallSite"}"#,
            r#"{"refused":"CallSite.Constant"}"#,
            r#"{"refused":"CallSite.WrongType"}"#,
            r#"{"refused":"CallSite.UnknownMethod"}"#,
            r#"{"refused":"CallSite.NotStatic"}"#,
            r#"{"refused":"CallSite.UnknownSwitch"}"#,
            r#"{"refused":"CallSite.TooDeep"}"#,
            r#"{"refused":"CallSite.Full"}"#,
            r#"{"callsite":7,"refused":"CallSite.InvokerOrder"}"#,
        ],
    ),
    (
        Preparations,
        &[
            r#"{"refused":"Prepare.NotReady","site":4}"#,
            r#"{"refused":"Prepare.BatchSize"}"#,
            r#"{"refused":"Memory"}"#,
        ],
    ),
    (
        Sketches,
        &[
            r#"{"refused":"TooBig"}"#,
            r#"{"method":3,"refused":"CallsWithoutCode"}"#,
            r#"{"at":7,"method":2,"refused":"Code.CutShort"}"#,
            r#"{"refused":"Memory"}"#,
        ],
    ),
];

fn method(index: u16) -> MethodId {
    MethodId {
        class: ClassId::new(1),
        index,
    }
}

/// The table of class 1, which runs its first method.
fn table() -> Link {
    let mut table = Table::new();
    table.push(ClassId::new(1), Outcome::Run(method(0)));
    Link::Table(TableKind::Virtual, table)
}

fn outcome(place: usize) -> Outcome {
    match place {
        0 => Outcome::Run(method(2)),
        _ => Outcome::Throws(Throwable::AbstractMethodError),
    }
}

fn link(place: usize) -> Link {
    match place {
        0 => Link::Fault(Throwable::NoSuchMethodError),
        1 => Link::Plain(method(2)),
        2 => Link::Direct(Outcome::Run(method(2))),
        3 => table(),
        4 => Link::Table(TableKind::Interface, Table::new()),
        _ => Link::Mega,
    }
}

fn answer(place: usize) -> Answer {
    match place {
        0 => Answer::Run(method(2)),
        1 => Answer::Throws(Throwable::NullPointerException),
        2 => Answer::BadReceiver,
        3 => Answer::Unlinked(Unlinked::NoSite),
        _ => Answer::Unlinked(Unlinked::NotReady(Missing::MethodHost)),
    }
}

fn made(place: usize) -> Made {
    match place {
        0 => Made::Nothing,
        1 => Made::Loader(LoaderId::new(7)),
        2 => Made::Class(ClassId::new(7)),
        3 => Made::Site(SiteNo::new(7)),
        4 => Made::CallSite(CallSiteId::new(7)),
        _ => Made::Switch(SwitchId::new(7)),
    }
}

/// What the event's refusal is answered.
fn refusal_value(alloc: Global, refusal: Refusal) -> Result<Value, AllocError> {
    event_refusal_value(alloc, &refusal)
}

fn event(place: usize) -> Refusal {
    let site = SiteNo::new(0);
    match place {
        0 => Refusal::BatchSize,
        1 => Refusal::AlreadyBound(CallSiteId::new(5)),
        2 => Refusal::NotReady { site },
        3 => Refusal::Stale {
            site,
            present: table(),
        },
        4 => Refusal::NotLinkable(NotLinkable::ArrayReceiver),
        5 => Refusal::Delegate(DelegateFault::NotRecorded),
        6 => Refusal::Define(DefineFault::Full),
        7 => Refusal::Memory,
        8 => Refusal::AlreadyBound(CallSiteId::new(0)),
        9 => Refusal::NotDynamic,
        10 => Refusal::TypeMismatch,
        _ => Refusal::UnknownSite {
            site: SiteNo::new(7),
        },
    }
}

fn call_site(place: usize) -> CallSiteFault {
    match place {
        0 => CallSiteFault::UnknownCallSite,
        1 => CallSiteFault::Constant,
        2 => CallSiteFault::WrongType,
        3 => CallSiteFault::UnknownMethod,
        4 => CallSiteFault::NotStatic,
        5 => CallSiteFault::UnknownSwitch,
        6 => CallSiteFault::TooDeep,
        7 => CallSiteFault::Full,
        _ => CallSiteFault::InvokerOrder(CallSiteId::new(7)),
    }
}

fn preparation(place: usize) -> PrepareFault {
    match place {
        0 => PrepareFault::NotReady(SiteNo::new(4)),
        1 => PrepareFault::BatchSize,
        _ => PrepareFault::Memory,
    }
}

fn sketch(place: usize) -> SketchFault {
    match place {
        0 => SketchFault::TooBig,
        1 => SketchFault::CallsWithoutCode(3),
        2 => SketchFault::Refused(ClassFault::Code(2, CodeFault::CutShort(7))),
        _ => SketchFault::Memory,
    }
}

/// The value of this kind at this place.
fn value(alloc: Global, kind: Kind, place: usize) -> Result<Value, AllocError> {
    match kind {
        Outcomes => outcome_value(alloc, outcome(place)),
        Links => link_value(alloc, link(place)),
        Lists => {
            let rows = [(SiteNo::new(0), Link::Mega), (SiteNo::new(3), Link::Mega)];
            match place {
                0 => links_value(alloc, &rows),
                _ => prepared_value(alloc, 7, &rows[..1]),
            }
        }
        Calls => answer_value(alloc, answer(place)),
        Replies => {
            let made = made(place);
            let dropped = Seq::of(vec![in alloc; SiteNo::new(1), SiteNo::new(4)]?);
            reply_value(alloc, &Reply { made, dropped })
        }
        Events => refusal_value(alloc, event(place)),
        Parents => {
            let fault = DefineFault::MissingParent(Name::copied(alloc, b"p/A")?);
            refusal_value(alloc, Refusal::Define(fault))
        }
        CallSites => refusal_value(alloc, Refusal::CallSite(call_site(place))),
        Preparations => prepare_refusal_value(alloc, preparation(place)),
        Sketches => FileRefusal::from(sketch(place)).to_value(alloc),
    }
}

/// Whether the value of this kind at this place has this text.
fn is_so(alloc: Global, kind: Kind, place: usize, want: &str) -> bool {
    let Ok(value) = value(alloc, kind, place) else {
        return false;
    };
    match value.to_string(alloc) {
        Ok(text) => text.as_str() == want,
        Err(_) => false,
    }
}

/// The first row with a text that differs and that text's place there, if there is one.
fn other(alloc: Global, rows: &[(Kind, &[&str])]) -> Option<(usize, usize)> {
    for (row, (kind, texts)) in rows.iter().enumerate() {
        for (place, want) in texts.iter().enumerate() {
            if !is_so(alloc, *kind, place, want) {
                return Some((row, place));
            }
        }
    }
    None
}

#[test]
fn answers(rt: HostRuntime) {
    assert_eq!(rt; other(rt.alloc(), TEXTS), None);
}
