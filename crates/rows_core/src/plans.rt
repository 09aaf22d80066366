//! Planned events: what they tell, and that they change nothing until they are committed.

use crate::classes::Class::{A, C, Itself, M, Object};
use crate::cores::{is_text, refused};
use crate::steps::Step::*;
use crate::steps::{Step, are_done, event};
use jl_core::{Core, Planned};
use std::alloc::{AllocError, Global};
use std::process::Abort;

const BEFORE: &[Step] = &[
    Define(0, Object),
    Define(0, A),
    Define(0, M),
    Define(0, Itself),
    Request(2, 0),
    Request(3, 0),
];

const INSTALLED: &str =
    "Reply { made: Nothing, dropped: Seq { items: [] } } [(SiteNo(0), Some(Direct(Run(MethodId { class: ClassId(1), index: 0 })))), (SiteNo(1), Some(Plain(MethodId { class: ClassId(3), index: 0 })))]";

const INSTALLED_AGAIN: &str = "Reply { made: Nothing, dropped: Seq { items: [] } } []";

const DEFINED: &str =
    "Reply { made: Class(ClassId(4)), dropped: Seq { items: [SiteNo(0)] } } [(SiteNo(0), None)]";

/// Whether the plan of a step is committed, or dropped; the step; how its plan prints; and how many events and links there are then.
type Row = (bool, Step, &'static str, u64, usize);

/// The installs are the second site's link and the first one's: N.m, and A.f on each object. C overrides that.
const PLANS: &[Row] = &[
    (false, Install(&[1, 0]), INSTALLED, 6, 0),
    (true, Install(&[1, 0]), INSTALLED, 7, 2),
    // The links are there, so no slot changes.
    (true, Install(&[1, 0]), INSTALLED_AGAIN, 8, 2),
    // The first site's link goes, and the other one stays.
    (false, Define(0, C), DEFINED, 8, 2),
    (true, Define(0, C), DEFINED, 9, 1),
    (true, Define(0, C), "Define(AlreadyRecorded)", 9, 1),
];

/// How a plan prints: its reply and its slots.
fn printed(alloc: Global, plan: &Planned) -> Result<String, AllocError> {
    format!(in alloc; "{:?} {:?}", plan.reply(), plan.slots())
}

/// How the plan of the step's event prints, or its refusal. The plan is committed, or dropped.
fn planned(
    alloc: Global,
    core: &mut Core,
    commits: bool,
    step: &Step,
) -> Result<String, AllocError> {
    let event = event(alloc, core, step)?;
    match core.plan(alloc, event) {
        Ok(plan) => {
            let text = printed(alloc, &plan);
            if !commits {
                return text;
            }
            let _reply = core.commit(plan);
            text
        }
        Err(refusal) => refused(alloc, &refusal),
    }
}

/// Whether the plan is as the row says, and leaves as many events and links.
fn is_row(alloc: Global, core: &mut Core, row: &Row) -> bool {
    let (commits, step, want, events, links) = row;
    is_text(planned(alloc, core, *commits, step), want)
        && core.log().len() == *events
        && core.links().len() == *links
}

/// The first row that isn't so, one after another, if there is one.
fn other(alloc: Global, core: &mut Core, rows: &[Row]) -> Option<usize> {
    for (index, row) in rows.iter().enumerate() {
        if !is_row(alloc, core, row) {
            return Some(index);
        }
    }
    None
}

/// Whether all are so on a new core.
fn are_so(alloc: Global) -> bool {
    match Core::new(alloc, 2) {
        Ok(mut core) => {
            are_done(alloc, &mut core, BEFORE) && other(alloc, &mut core, PLANS).is_none()
        }
        Err(_) => false,
    }
}

#[test]
fn tells_what_an_event_changes(rt: HostRuntime) {
    assert!(rt; are_so(rt.alloc()));
}
