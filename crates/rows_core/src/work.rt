//! How much work events take: events one after another, what each is answered, and the work that is told then.

use crate::classes::Class::{
    A, Abstract, Alone, B, C, Caller, D, E, Half, Heir, Last, M, Many, Object, T, Two, Z,
};
use crate::cores::{is_text, refused};
use crate::steps::Shape::*;
use crate::steps::Step::*;
use crate::steps::{Step, are_done, event, is_done};
use crate::work::Said::*;
use crate::work::Way::*;
use jl_core::Core;
use jl_types::CallSiteKind::Mutable;
use jl_types::{Event, Reply, Work};
use std::alloc::{AllocError, Global};
use std::process::Abort;

/// How an event is done.
#[derive(Clone, Copy)]
enum Way {
    /// In one call.
    Applied,
    /// In two: it is planned and committed.
    Committed,
    /// It is planned, and the plan is dropped.
    Dropped,
}

/// How it prints what an event is answered: the sites that it drops, or a refusal.
#[derive(Clone, Copy)]
enum Said {
    DropsNone,
    DropsFirst,
    DropsSecond,
    DropsBoth,
    DropsLast,
    Refuses(&'static str),
}

/// What is done and how, what it is answered, and the least and the most work that is told then.
type Row = (Way, Step, Said, u64, u64);

const N: (u32, u16) = (1, 1);

const O: (u32, u16) = (1, 2);

const P: (u32, u16) = (1, 3);

/// Sites 0 and 1 are M's calls.
const BY_CLASSES: &[Row] = &[
    (Applied, Define(0, Object), DropsNone, 0, 0),
    (Applied, Define(0, A), DropsNone, 0, 0),
    (Applied, Define(0, B), DropsNone, 0, 0),
    (Applied, Define(0, M), DropsNone, 0, 0),
    (Applied, Request(3, 0), DropsNone, 0, 0),
    // A and B are the receivers. No subclass of A has an f of its own, and one selection tells of both.
    (Applied, Install(&[0]), DropsNone, 1, 1),
    (Applied, Request(3, 3), DropsNone, 0, 0),
    // What a refused event took isn't told, but what the last accepted one did.
    (
        Applied,
        Wrong(&[0]),
        Refuses(
            "Stale { site: SiteNo(0), present: Direct(Run(MethodId { class: ClassId(1), index: 0 })) }",
        ),
        0,
        0,
    ),
    (
        Applied,
        Install(&[2, 0]),
        Refuses("UnknownSite { site: SiteNo(2) }"),
        0,
        0,
    ),
    (Applied, Install(&[1]), DropsNone, 0, 1),
    (Applied, Define(0, Alone), DropsNone, 0, 0),
    (Applied, Define(0, Abstract), DropsNone, 0, 0),
    (Applied, Define(0, C), DropsFirst, 1, 1),
    (
        Applied,
        Define(0, C),
        Refuses("Define(AlreadyRecorded)"),
        1,
        1,
    ),
    // The site has no link any more, and nothing is looked at.
    (Applied, Define(0, D), DropsNone, 0, 0),
    // A, B, C and D are the receivers; a table goes with each further one.
    (Applied, Install(&[0]), DropsNone, 1, 4),
    (Applied, Define(0, E), DropsFirst, 0, 1),
    (Applied, Loader, DropsNone, 0, 0),
];

/// Objects of B run A's f, as those of A do, so the link stays. That is known of its own while no subclass of A has an f.
const BY_CLASSES_THAT_CHANGE_NOTHING: &[Row] = &[
    (Applied, Define(0, Object), DropsNone, 0, 0),
    (Applied, Define(0, A), DropsNone, 0, 0),
    (Applied, Define(0, M), DropsNone, 0, 0),
    (Applied, Request(2, 0), DropsNone, 0, 0),
    (Applied, Install(&[0]), DropsNone, 1, 1),
    (Applied, Define(0, B), DropsNone, 1, 1),
    (Applied, Point, DropsNone, 0, 0),
    (Applied, Define(0, C), DropsFirst, 1, 1),
];

/// Objects of B run A's f, so the link stays, beside an abstract class that has an f.
const BY_CLASSES_BESIDE_AN_ABSTRACT_ONE: &[Row] = &[
    (Applied, Define(0, Object), DropsNone, 0, 0),
    (Applied, Define(0, A), DropsNone, 0, 0),
    (Applied, Define(0, M), DropsNone, 0, 0),
    (Applied, Define(0, Abstract), DropsNone, 0, 0),
    (Applied, Request(2, 0), DropsNone, 0, 0),
    (Applied, Install(&[0]), DropsNone, 1, 1),
    (Applied, Define(0, B), DropsNone, 1, 1),
    (Applied, Point, DropsNone, 0, 0),
    (Applied, Define(0, C), DropsFirst, 1, 1),
];

/// Sites 0 and 1 run Two.f, and site 2 runs Two.g.
const BY_GROUPS: &[Row] = &[
    (Applied, Define(0, Object), DropsNone, 0, 0),
    (Applied, Define(0, Two), DropsNone, 0, 0),
    (Applied, Define(0, Caller), DropsNone, 0, 0),
    (Applied, Request(2, 0), DropsNone, 0, 0),
    (Applied, Request(2, 6), DropsNone, 0, 0),
    (Applied, Install(&[0, 1]), DropsNone, 2, 2),
    // Both sites select the one method that the class inherits, and it is asked of once.
    (Applied, Define(0, Heir), DropsNone, 1, 1),
    (Applied, Request(2, 3), DropsNone, 0, 0),
    (Applied, Install(&[2]), DropsNone, 1, 1),
    // Each of the two methods is asked of once.
    (Applied, Loader, DropsNone, 0, 0),
    (Applied, Delegate(1, "Two"), DropsNone, 0, 0),
    (Applied, Define(1, Heir), DropsNone, 2, 2),
    // The class has an f of its own, which is asked of once for both sites; g is asked of once.
    (Applied, Define(0, Half), DropsBoth, 2, 2),
    // No site runs f any more.
    (Applied, Define(0, Last), DropsNone, 1, 1),
];

/// Nine receivers, of which each but B has an f of its own: no further one is asked of.
const BY_A_MEGAMORPHIC_LINK: &[Row] = &[
    (Applied, Define(0, Object), DropsNone, 0, 0),
    (Applied, Define(0, A), DropsNone, 0, 0),
    (Applied, Define(0, B), DropsNone, 0, 0),
    (Applied, Define(0, C), DropsNone, 0, 0),
    (Applied, Define(0, D), DropsNone, 0, 0),
    (Applied, Define(0, E), DropsNone, 0, 0),
    (Applied, Loader, DropsNone, 0, 0),
    (Applied, Delegate(1, "A"), DropsNone, 0, 0),
    (Applied, Define(1, C), DropsNone, 0, 0),
    (Applied, Define(1, D), DropsNone, 0, 0),
    (Applied, Define(1, E), DropsNone, 0, 0),
    (Applied, Loader, DropsNone, 0, 0),
    (Applied, Delegate(2, "A"), DropsNone, 0, 0),
    (Applied, Define(2, C), DropsNone, 0, 0),
    (Applied, Define(0, M), DropsNone, 0, 0),
    (Applied, Request(10, 0), DropsNone, 0, 0),
    (Applied, Install(&[0]), DropsNone, 1, 9),
    (Applied, Define(2, B), DropsNone, 0, 0),
    (Applied, Define(2, D), DropsNone, 0, 0),
];

/// What events take that are planned first.
const BY_PLANS: &[Row] = &[
    (Committed, Define(0, Object), DropsNone, 0, 0),
    (Committed, Define(0, A), DropsNone, 0, 0),
    (Committed, Define(0, M), DropsNone, 0, 0),
    (Committed, Define(0, Abstract), DropsNone, 0, 0),
    (Committed, Request(2, 0), DropsNone, 0, 0),
    (Dropped, Install(&[0]), DropsNone, 0, 0),
    (Committed, Install(&[0]), DropsNone, 1, 1),
    (Committed, Define(0, B), DropsNone, 1, 1),
    (
        Committed,
        Define(0, B),
        Refuses("Define(AlreadyRecorded)"),
        1,
        1,
    ),
    // A dropped plan leaves what the last event took, and the next plan has its own.
    (Dropped, Point, DropsNone, 1, 1),
    (Committed, Point, DropsNone, 0, 0),
    (Dropped, Define(0, C), DropsFirst, 0, 0),
    (Committed, Point, DropsNone, 0, 0),
    (Dropped, Point, DropsNone, 0, 0),
    (Committed, Define(0, C), DropsFirst, 1, 1),
    (Committed, Point, DropsNone, 0, 0),
];

/// What comes before a plan that changes nothing.
const BEFORE_PLANS: &[Row] = &[
    (Applied, Define(0, Object), DropsNone, 0, 0),
    (Applied, Define(0, A), DropsNone, 0, 0),
    (Applied, Define(0, M), DropsNone, 0, 0),
    (Applied, Request(2, 0), DropsNone, 0, 0),
];

/// What is planned and changes nothing, with the work that it takes: a plan that is dropped, and events that are refused. A is the one
/// receiver of the site.
const PLANNED: &[(Step, u64)] = &[
    (Install(&[0]), 1),
    (Define(0, B), 0),
    (Wrong(&[0]), 1),
    (Install(&[0, 0]), 0),
    (Define(0, A), 0),
];

/// M's first call, beside a thousand sites.
const BESIDE_A_THOUSAND: &[Row] = &[
    (Applied, Request(3, 0), DropsNone, 0, 0),
    (Applied, Install(&[1000]), DropsNone, 1, 1),
    (Applied, Define(0, Alone), DropsNone, 0, 0),
    (Applied, Define(0, C), DropsLast, 1, 1),
    (Applied, Define(0, D), DropsNone, 0, 0),
];

/// The classes that are defined before.
const FIRST: &[Step] = &[
    Define(0, Object),
    Define(0, A),
    Define(0, B),
    Define(0, M),
    Define(0, Z),
    Define(0, Many),
];

/// A guard whose methods are one.
const BY_ONE_POINT: &[Row] = &[
    (Applied, Define(0, Object), DropsNone, 0, 0),
    (Applied, Define(0, T), DropsNone, 0, 0),
    (Applied, Request(1, 0), DropsNone, 0, 0),
    (Applied, Point, DropsNone, 0, 0),
    (
        Applied,
        CallSite(Mutable, "()V", Guard(0, N, N)),
        DropsNone,
        0,
        0,
    ),
    (Applied, Bind(0, 0), DropsNone, 0, 0),
    (Applied, Install(&[0]), DropsNone, 1, 1),
    (Applied, Invalidate(&[0, 0]), DropsNone, 0, 1),
    (Applied, Invalidate(&[0, 0]), DropsNone, 0, 0),
];

/// A guard in the fallback of another one. Once the first point is invalid, the link rests on the second one.
const BY_POINTS_ONE_AFTER_ANOTHER: &[Row] = &[
    (Applied, Define(0, Object), DropsNone, 0, 0),
    (Applied, Define(0, T), DropsNone, 0, 0),
    (Applied, Request(1, 0), DropsNone, 0, 0),
    (Applied, Point, DropsNone, 0, 0),
    (Applied, Point, DropsNone, 0, 0),
    (Applied, Point, DropsNone, 0, 0),
    (
        Applied,
        CallSite(Mutable, "()V", GuardAfter(0, N, 1, N, O)),
        DropsNone,
        0,
        0,
    ),
    (Applied, Bind(0, 0), DropsNone, 0, 0),
    (Applied, Install(&[0]), DropsNone, 1, 1),
    (Applied, Invalidate(&[2, 2]), DropsNone, 0, 0),
    (Applied, Invalidate(&[0, 0]), DropsNone, 1, 1),
    (Applied, Invalidate(&[0, 2]), DropsNone, 0, 0),
    (Applied, Invalidate(&[1, 1]), DropsFirst, 1, 1),
    (Applied, Invalidate(&[1, 1]), DropsNone, 0, 0),
];

/// A guard in the fallback of another one, whose points become invalid in the other order: the second one isn't on the path before the
/// first one is invalid.
const BY_THE_SECOND_POINT_FIRST: &[Row] = &[
    (Applied, Define(0, Object), DropsNone, 0, 0),
    (Applied, Define(0, T), DropsNone, 0, 0),
    (Applied, Request(1, 0), DropsNone, 0, 0),
    (Applied, Point, DropsNone, 0, 0),
    (Applied, Point, DropsNone, 0, 0),
    (
        Applied,
        CallSite(Mutable, "()V", GuardAfter(0, N, 1, N, O)),
        DropsNone,
        0,
        0,
    ),
    (Applied, Bind(0, 0), DropsNone, 0, 0),
    (Applied, Install(&[0]), DropsNone, 1, 1),
    (Applied, Invalidate(&[1, 1]), DropsNone, 0, 0),
    (Applied, Invalidate(&[0, 0]), DropsFirst, 1, 1),
];

/// Guards in the first parts of others, so that both points are on the path. The first site's link stays, and the second one's goes.
const BY_TWO_POINTS_AT_ONCE: &[Row] = &[
    (Applied, Define(0, Object), DropsNone, 0, 0),
    (Applied, Define(0, T), DropsNone, 0, 0),
    (Applied, Request(1, 0), DropsNone, 0, 0),
    (Applied, Request(1, 5), DropsNone, 0, 0),
    (Applied, Point, DropsNone, 0, 0),
    (Applied, Point, DropsNone, 0, 0),
    (Applied, Point, DropsNone, 0, 0),
    (Applied, Point, DropsNone, 0, 0),
    (
        Applied,
        CallSite(Mutable, "()V", Within(0, 1, N, O, N)),
        DropsNone,
        0,
        0,
    ),
    (
        Applied,
        CallSite(Mutable, "()V", Within(2, 3, N, O, P)),
        DropsNone,
        0,
        0,
    ),
    (Applied, Bind(0, 0), DropsNone, 0, 0),
    (Applied, Bind(1, 1), DropsNone, 0, 0),
    (Applied, Install(&[0, 1]), DropsNone, 2, 2),
    (Applied, Invalidate(&[0, 1]), DropsNone, 1, 1),
    (Applied, Invalidate(&[2, 3]), DropsSecond, 1, 1),
    (Applied, Invalidate(&[2, 3]), DropsNone, 0, 0),
];

/// Two sites are bound to one call site. One that was dropped doesn't count before it is installed again.
const BY_TARGETS: &[Row] = &[
    (Applied, Define(0, Object), DropsNone, 0, 0),
    (Applied, Define(0, T), DropsNone, 0, 0),
    (Applied, Request(1, 0), DropsNone, 0, 0),
    (Applied, Request(1, 5), DropsNone, 0, 0),
    (
        Applied,
        CallSite(Mutable, "()V", Method(N)),
        DropsNone,
        0,
        0,
    ),
    (
        Applied,
        CallSite(Mutable, "()V", Method(N)),
        DropsNone,
        0,
        0,
    ),
    (Applied, Bind(0, 0), DropsNone, 0, 0),
    (Applied, Bind(1, 0), DropsNone, 0, 0),
    (Applied, Install(&[0, 1]), DropsNone, 2, 2),
    (Applied, Retarget(1, Method(O)), DropsNone, 0, 0),
    (Applied, Retarget(0, Method(O)), DropsBoth, 2, 2),
    (Applied, Retarget(0, Method(N)), DropsNone, 0, 0),
    (Applied, Retarget(0, Method(O)), DropsNone, 0, 0),
    (Applied, Install(&[1]), DropsNone, 1, 1),
    (Applied, Retarget(0, Method(O)), DropsNone, 1, 1),
    (
        Applied,
        Retarget(2, Method(O)),
        Refuses("CallSite(UnknownCallSite)"),
        1,
        1,
    ),
    (Applied, Retarget(0, Method(N)), DropsSecond, 1, 1),
    (Applied, Retarget(0, Method(O)), DropsNone, 0, 0),
];

/// Targets that change what the link rests on, and not the link.
const BY_NEW_GUARDS: &[Row] = &[
    (Applied, Define(0, Object), DropsNone, 0, 0),
    (Applied, Define(0, T), DropsNone, 0, 0),
    (Applied, Request(1, 0), DropsNone, 0, 0),
    (Applied, Point, DropsNone, 0, 0),
    (Applied, Point, DropsNone, 0, 0),
    (
        Applied,
        CallSite(Mutable, "()V", Guard(0, N, O)),
        DropsNone,
        0,
        0,
    ),
    (Applied, Bind(0, 0), DropsNone, 0, 0),
    (Applied, Install(&[0]), DropsNone, 1, 1),
    (Applied, Retarget(0, Method(N)), DropsNone, 1, 1),
    (Applied, Invalidate(&[0, 0]), DropsNone, 0, 0),
    (Applied, Retarget(0, Guard(1, N, O)), DropsNone, 1, 1),
    (Applied, Invalidate(&[1, 1]), DropsFirst, 1, 1),
];

/// The first site is bound to a call site that runs what the other one runs, which the second site is bound to.
const BY_INVOKED_TARGETS: &[Row] = &[
    (Applied, Define(0, Object), DropsNone, 0, 0),
    (Applied, Define(0, T), DropsNone, 0, 0),
    (Applied, Request(1, 0), DropsNone, 0, 0),
    (Applied, Request(1, 5), DropsNone, 0, 0),
    (
        Applied,
        CallSite(Mutable, "()V", Method(N)),
        DropsNone,
        0,
        0,
    ),
    (
        Applied,
        CallSite(Mutable, "()V", Invoker(0)),
        DropsNone,
        0,
        0,
    ),
    (Applied, Bind(0, 1), DropsNone, 0, 0),
    (Applied, Bind(1, 0), DropsNone, 0, 0),
    (Applied, Install(&[0, 1]), DropsNone, 2, 2),
    // What the other call sites on the path run is part of the one evaluation.
    (Applied, Retarget(0, Method(O)), DropsBoth, 2, 2),
    (Applied, Install(&[0, 1]), DropsNone, 2, 2),
    (Applied, Retarget(0, Method(O)), DropsNone, 2, 2),
    (Committed, Retarget(1, Method(O)), DropsNone, 1, 1),
    (Applied, Retarget(0, Method(N)), DropsSecond, 1, 1),
    (Applied, Retarget(1, Invoker(0)), DropsFirst, 1, 1),
    (
        Applied,
        Retarget(0, Invoker(1)),
        Refuses("CallSite(InvokerOrder(CallSiteId(1)))"),
        1,
        1,
    ),
    (
        Applied,
        CallSite(Mutable, "()V", Invoker(2)),
        Refuses("CallSite(InvokerOrder(CallSiteId(2)))"),
        1,
        1,
    ),
];

/// An invoked call site that a guard guards: once the point is invalid, the link doesn't rest on it.
const BY_INVOKED_TARGETS_OFF_THE_PATH: &[Row] = &[
    (Applied, Define(0, Object), DropsNone, 0, 0),
    (Applied, Define(0, T), DropsNone, 0, 0),
    (Applied, Request(1, 0), DropsNone, 0, 0),
    (Applied, Point, DropsNone, 0, 0),
    (
        Applied,
        CallSite(Mutable, "()V", Method(N)),
        DropsNone,
        0,
        0,
    ),
    (
        Applied,
        CallSite(Mutable, "()V", InvokerOr(0, 0, N)),
        DropsNone,
        0,
        0,
    ),
    (Applied, Bind(0, 1), DropsNone, 0, 0),
    (Applied, Install(&[0]), DropsNone, 1, 1),
    (Applied, Invalidate(&[0, 0]), DropsNone, 1, 1),
    (Applied, Retarget(0, Method(O)), DropsNone, 0, 0),
    (Applied, Retarget(1, Invoker(0)), DropsFirst, 1, 1),
];

/// How it prints.
fn text_of(said: Said) -> &'static str {
    match said {
        DropsNone => "[]",
        DropsFirst => "[SiteNo(0)]",
        DropsSecond => "[SiteNo(1)]",
        DropsBoth => "[SiteNo(0), SiteNo(1)]",
        DropsLast => "[SiteNo(1000)]",
        Refuses(text) => text,
    }
}

/// How the sites print that the reply names as dropped.
fn dropped_by(alloc: Global, reply: &Reply) -> Result<String, AllocError> {
    format!(in alloc; "{:?}", reply.dropped.as_slice())
}

/// How it prints what the event is answered: the sites that go, or the refusal.
fn answer(alloc: Global, core: &mut Core, way: Way, event: Event) -> Result<String, AllocError> {
    match way {
        Applied => match core.apply(alloc, event) {
            Ok(reply) => dropped_by(alloc, &reply),
            Err(refusal) => refused(alloc, &refusal),
        },
        Committed => match core.plan(alloc, event) {
            Ok(plan) => {
                let reply = core.commit(plan);
                dropped_by(alloc, &reply)
            }
            Err(refusal) => refused(alloc, &refusal),
        },
        Dropped => match core.plan(alloc, event) {
            Ok(plan) => dropped_by(alloc, plan.reply()),
            Err(refusal) => refused(alloc, &refusal),
        },
    }
}

/// Whether the row's event is answered as it says, and as much work is told then.
fn is_row(alloc: Global, core: &mut Core, row: &Row) -> bool {
    let Ok(event) = event(alloc, core, &row.1) else {
        return false;
    };
    let so = is_text(answer(alloc, core, row.0, event), text_of(row.2));
    let work = core.last_work();
    so && row.3 <= work && work <= row.4
}

/// The first row that isn't so, one after another, if there is one.
fn other(alloc: Global, core: &mut Core, rows: &[Row]) -> Option<usize> {
    for (index, row) in rows.iter().enumerate() {
        if !is_row(alloc, core, row) {
            return Some(index);
        }
    }
    None
}

/// The first row of a table that isn't so on a new core, if there is one.
fn other_in(alloc: Global, rows: &[Row]) -> Option<usize> {
    match Core::new(alloc, 3) {
        Ok(mut core) => {
            if core.last_work() > 0 {
                return Some(rows.len());
            }
            other(alloc, &mut core, rows)
        }
        Err(_) => Some(rows.len()),
    }
}

/// Asserts that each row of the table of this name is so on a new core.
fn assert_table(rt: &(impl Abort + AllocGlobal), table: &str, rows: &[Row]) {
    let other = other_in(rt.alloc(), rows);
    assert_eq!(rt; other, None, "in {table}");
}

#[test]
fn takes_one_walk_or_evaluation(rt: HostRuntime) {
    assert_table(&rt, "BY_CLASSES", BY_CLASSES);
    assert_table(
        &rt,
        "BY_CLASSES_THAT_CHANGE_NOTHING",
        BY_CLASSES_THAT_CHANGE_NOTHING,
    );
    assert_table(
        &rt,
        "BY_CLASSES_BESIDE_AN_ABSTRACT_ONE",
        BY_CLASSES_BESIDE_AN_ABSTRACT_ONE,
    );
    assert_table(&rt, "BY_GROUPS", BY_GROUPS);
    assert_table(&rt, "BY_A_MEGAMORPHIC_LINK", BY_A_MEGAMORPHIC_LINK);
    assert_table(&rt, "BY_PLANS", BY_PLANS);
    assert_table(&rt, "BY_ONE_POINT", BY_ONE_POINT);
    assert_table(
        &rt,
        "BY_POINTS_ONE_AFTER_ANOTHER",
        BY_POINTS_ONE_AFTER_ANOTHER,
    );
    assert_table(&rt, "BY_THE_SECOND_POINT_FIRST", BY_THE_SECOND_POINT_FIRST);
    assert_table(&rt, "BY_TWO_POINTS_AT_ONCE", BY_TWO_POINTS_AT_ONCE);
    assert_table(&rt, "BY_TARGETS", BY_TARGETS);
    assert_table(&rt, "BY_NEW_GUARDS", BY_NEW_GUARDS);
    assert_table(&rt, "BY_INVOKED_TARGETS", BY_INVOKED_TARGETS);
    assert_table(
        &rt,
        "BY_INVOKED_TARGETS_OFF_THE_PATH",
        BY_INVOKED_TARGETS_OFF_THE_PATH,
    );
}

/// Whether the plan of the step takes so much work, be it refused or not, and leaves what the last accepted event took, which is none.
fn is_planned(alloc: Global, core: &mut Core, step: &Step, work: u64) -> bool {
    let Ok(event) = event(alloc, core, step) else {
        return false;
    };
    let mut counted = Work::new();
    let taken = match core.plan_counted(alloc, event, &mut counted) {
        Ok(plan) => plan.work(),
        Err(_) => counted.ticks(),
    };
    taken == work && core.last_work() == 0
}

/// The first step whose plan takes other work, if there is one.
fn other_plan(alloc: Global, core: &mut Core, rows: &[(Step, u64)]) -> Option<usize> {
    for (index, (step, work)) in rows.iter().enumerate() {
        if !is_planned(alloc, core, step, *work) {
            return Some(index);
        }
    }
    None
}

/// Whether there is none on a new core, once what comes before is done.
fn are_planned(alloc: Global) -> bool {
    match Core::new(alloc, 2) {
        Ok(mut core) => {
            other(alloc, &mut core, BEFORE_PLANS).is_none()
                && other_plan(alloc, &mut core, PLANNED).is_none()
        }
        Err(_) => false,
    }
}

#[test]
fn tells_the_work_of_what_is_not_accepted(rt: HostRuntime) {
    assert!(rt; are_planned(rt.alloc()));
}

/// Whether each of the thousand calls is requested and installed.
fn are_thousand(alloc: Global, core: &mut Core) -> bool {
    for site in 0..1000u32 {
        if !is_done(alloc, core, &Request(5, site.wrapping_mul(3)))
            || !is_done(alloc, core, &InstallOne(site))
        {
            return false;
        }
    }
    core.links().len() == 1000
}

/// Whether no other site is looked at beside a thousand.
fn are_apart(alloc: Global) -> bool {
    match Core::new(alloc, 1001) {
        Ok(mut core) => {
            are_done(alloc, &mut core, FIRST)
                && are_thousand(alloc, &mut core)
                && other(alloc, &mut core, BESIDE_A_THOUSAND).is_none()
        }
        Err(_) => false,
    }
}

#[test]
fn looks_at_no_other_site(rt: HostRuntime) {
    assert!(rt; are_apart(rt.alloc()));
}
