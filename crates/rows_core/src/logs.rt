//! The events that a core accepted, as it keeps them.

use crate::classes::Class::{Object, T};
use crate::cores::is_text;
use crate::steps::Shape::Method;
use crate::steps::Step::*;
use crate::steps::{Step, is_done};
use jl_core::{Accepted, Core, Entry};
use jl_types::CallSiteKind::Mutable;
use jl_types::Event;
use std::alloc::{AllocError, Global};
use std::process::Abort;

/// The entries of a first loader, the events below and a second switch point, as they print.
const LOG: &[&str] = &[
    "Entry { event: NewLoader, reply: Reply { made: Loader(LoaderId(1)), dropped: Seq { items: [] } } }",
    "Entry { event: Define(LoaderId(0), ClassId(0)), reply: Reply { made: Class(ClassId(0)), dropped: Seq { items: [] } } }",
    "Entry { event: Define(LoaderId(0), ClassId(1)), reply: Reply { made: Class(ClassId(1)), dropped: Seq { items: [] } } }",
    "Entry { event: Delegate(LoaderId(1), b\"T\", LoaderId(0)), reply: Reply { made: Nothing, dropped: Seq { items: [] } } }",
    "Entry { event: Request(Place { class: ClassId(1), method: 0, pc: 0 }), reply: Reply { made: Site(SiteNo(0)), dropped: Seq { items: [] } } }",
    "Entry { event: NewSwitch, reply: Reply { made: Switch(SwitchId(0)), dropped: Seq { items: [] } } }",
    "Entry { event: NewCallSite(Mutable, b\"()V\", Target { part: Method(MethodId { class: ClassId(1), index: 1 }) }), reply: Reply { made: CallSite(CallSiteId(0)), dropped: Seq { items: [] } } }",
    "Entry { event: Bind(SiteNo(0), CallSiteId(0)), reply: Reply { made: Nothing, dropped: Seq { items: [] } } }",
    "Entry { event: Install(Seq { items: [(SiteNo(0), Plain(MethodId { class: ClassId(1), index: 1 }))] }), reply: Reply { made: Nothing, dropped: Seq { items: [] } } }",
    "Entry { event: SetTarget(CallSiteId(0), Target { part: Method(MethodId { class: ClassId(1), index: 2 }) }), reply: Reply { made: Nothing, dropped: Seq { items: [SiteNo(0)] } } }",
    "Entry { event: Invalidate(Seq { items: [SwitchId(0)] }), reply: Reply { made: Nothing, dropped: Seq { items: [] } } }",
    "Entry { event: NewSwitch, reply: Reply { made: Switch(SwitchId(1)), dropped: Seq { items: [] } } }",
];

/// Events, and whether they are accepted.
const EVENTS: &[(Step, bool)] = &[
    (Define(0, Object), true),
    // Loader 0 has one, so this has no entry.
    (Define(0, Object), false),
    (Define(0, T), true),
    (Delegate(1, "T"), true),
    (Request(1, 0), true),
    (Point, true),
    (CallSite(Mutable, "()V", Method((1, 1))), true),
    (Bind(0, 0), true),
    (Install(&[0]), true),
    (Retarget(0, Method((1, 2))), true),
    // The site has another link from scratch, so this has no entry.
    (Wrong(&[0]), false),
    (Invalidate(&[0]), true),
];

/// The places of the entries before the core forgets.
const ALL: &[usize] = &[0, 1, 2, 3, 4, 5, 6, 7, 8, 9, 10];

/// How the entry prints.
fn printed(alloc: Global, entry: &Entry) -> Result<String, AllocError> {
    format!(in alloc; "{entry:?}")
}

/// The name in the file of the class that the entry of a definition names.
fn defined_name(core: &Core, entry: usize) -> Option<&[u8]> {
    let event = core.log().kept().get(entry)?.event();
    let Accepted::Define(_, class) = event.get() else {
        return None;
    };
    let class = core.world().classes.class_at(*class)?;
    Some(class.file().name().as_slice())
}

/// Whether these are the entries at these places of the log.
fn are_at(alloc: Global, entries: &[Entry], places: &[usize], log: &[&str]) -> bool {
    let mut all = entries.len() == places.len();
    for (entry, place) in entries.iter().zip(places) {
        all = match log.get(*place) {
            Some(want) => is_text(printed(alloc, entry), want) && all,
            None => false,
        };
    }
    all
}

/// Whether the entries from the place on are these; or, if none are named, one of them was forgotten.
fn are_from(
    alloc: Global,
    core: &Core,
    place: u64,
    places: Option<&[usize]>,
    log: &[&str],
) -> bool {
    match (core.log().kept_from(place), places) {
        (Some(entries), Some(places)) => are_at(alloc, entries, places, log),
        (None, None) => true,
        _ => false,
    }
}

/// Whether the events are accepted, or refused, as is said, and have entries that print so, all of which are there.
fn are_kept(alloc: Global, core: &mut Core, events: &[(Step, bool)], log: &[&str]) -> bool {
    let mut all = true;
    for (step, is_accepted) in events {
        all = is_done(alloc, core, step) == *is_accepted && all;
    }
    all && core.log().len() == 11
        && are_from(alloc, core, 0, Some(ALL), log)
        && defined_name(core, 1) == Some(b"java/lang/Object".as_slice())
        && defined_name(core, 2) == Some(b"T".as_slice())
        && core.class_count() == 2
}

/// Whether the event is planned; it is committed then.
fn is_committed(alloc: Global, core: &mut Core, event: Event) -> bool {
    match core.plan(alloc, event) {
        Ok(planned) => {
            let _reply = core.commit(planned);
            true
        }
        Err(_) => false,
    }
}

/// Whether the core forgets all entries but the definitions, the delegation and the last one, accepts one event more after a plan that is
/// dropped, planned before or not, and then forgets what was the last one.
fn forgets(alloc: Global, core: &mut Core, is_planned: bool, log: &[&str]) -> bool {
    core.forget();
    let has_forgotten = core.log().len() == 11
        && are_at(alloc, core.log().kept(), &[1, 2, 3, 10], log)
        && are_from(alloc, core, 9, None, log)
        && are_from(alloc, core, 10, Some(&[10]), log);
    // The next event is made in a copy then.
    let is_dropped = core.plan(alloc, Event::NewSwitch).is_ok();
    let is_accepted = if is_planned {
        is_committed(alloc, core, Event::NewSwitch)
    } else {
        is_done(alloc, core, &Point)
    };
    let is_there = core.log().len() == 12
        && are_from(alloc, core, 8, None, log)
        && are_from(alloc, core, 10, Some(&[10, 11]), log);
    core.forget();
    has_forgotten
        && is_dropped
        && is_accepted
        && is_there
        && are_at(alloc, core.log().kept(), &[1, 2, 3, 11], log)
        && defined_name(core, 1) == Some(b"T".as_slice())
}

/// Whether a first loader is accepted, planned before or not, and then all this is so, and a snapshot counts the accepted events.
fn are_kept_after(alloc: Global, core: &mut Core, is_planned: bool) -> bool {
    let first = if is_planned {
        is_committed(alloc, core, Event::NewLoader)
    } else {
        is_done(alloc, core, &Loader)
    };
    let is_kept = are_kept(alloc, core, EVENTS, LOG);
    let has_forgotten = forgets(alloc, core, is_planned, LOG);
    match core.snapshot(alloc) {
        Ok(snapshot) => snapshot.serial() == 12 && first && is_kept && has_forgotten,
        Err(_) => false,
    }
}

/// Whether all this is so on a new core.
fn keeps(alloc: Global, is_planned: bool) -> bool {
    match Core::new(alloc, 1) {
        Ok(mut core) => are_kept_after(alloc, &mut core, is_planned),
        Err(_) => false,
    }
}

#[test]
fn keeps_the_accepted_events(rt: HostRuntime) {
    assert!(rt; keeps(rt.alloc(), false));
}

// The first event is planned and committed, so each further one is: the second instance comes after every kind of event.
#[test]
fn keeps_planned_events(rt: HostRuntime) {
    assert!(rt; keeps(rt.alloc(), true));
}
