//! Loaders that go at once, though none of them may go alone.

use crate::classes::Class::{A, B, C, D, M, Object};
use crate::cores::{is_text, links_printed, printed, refused};
use crate::steps::Step::*;
use crate::steps::{Step, are_done, event, first, is_done, runs_first};
use jl_core::Core;
use jl_names::Seq;
use jl_renewal::{Released, Renumbering, renew};
use jl_types::{Answer, ClassId, LoaderId, Recv, SiteNo, Unlinked};
use std::alloc::{AllocError, Global};
use std::process::Abort;

/// Loaders 1 and 2 each find a class of the other one. M 3 of loader 0 calls A.f at site 0, M 5 of loader 1 at site 1, M 7 of loader 2 at
/// site 2, all of which have the table of A, B, C 4 and D 6.
const BEFORE: &[Step] = &[
    Define(0, Object),
    Define(0, A),
    Define(0, B),
    Define(0, M),
    Loader,
    Loader,
    Delegate(1, rows_files::OBJECT),
    Delegate(1, "A"),
    Delegate(2, rows_files::OBJECT),
    Delegate(2, "A"),
    Define(1, C),
    Define(1, M),
    Define(2, D),
    Define(2, M),
    Find(1, "D", 2),
    Find(2, "C", 1),
    Request(3, 0),
    Request(5, 0),
    Request(7, 0),
    Install(&[0, 1, 2]),
    Point,
];

/// How many steps these are.
const COUNT: u64 = 21;

/// What is refused then, and how the refusal prints.
const REFUSED: &[(Step, &'static str)] = &[
    (Retire(1), "Err(Retire(Recorded(LoaderId(2))))"),
    (Retire(2), "Err(Retire(Recorded(LoaderId(1))))"),
    (
        RetireAll(&[1]),
        "Err(RetireAll { loader: LoaderId(1), fault: Recorded(LoaderId(2)) })",
    ),
    (
        RetireAll(&[2, 2]),
        "Err(RetireAll { loader: LoaderId(2), fault: Recorded(LoaderId(1)) })",
    ),
    // The first one of the list that can't go decides.
    (
        RetireAll(&[1, 2, 0]),
        "Err(RetireAll { loader: LoaderId(0), fault: FirstLoader })",
    ),
    (
        RetireAll(&[2, 9, 0, 1]),
        "Err(RetireAll { loader: LoaderId(9), fault: UnknownLoader })",
    ),
    (
        RetireAll(&[9, 1]),
        "Err(RetireAll { loader: LoaderId(9), fault: UnknownLoader })",
    ),
];

/// A call of a site on an object of a class, and the class whose first method it runs.
struct CallRow(u32, u32, u32);

const CALLS: &[CallRow] = &[
    CallRow(0, 1, 1),
    CallRow(0, 2, 1),
    CallRow(0, 4, 4),
    CallRow(0, 6, 6),
    CallRow(1, 6, 6),
    CallRow(2, 4, 4),
];

/// Once both are gone.
const CALLS_AFTER: &[CallRow] = &[CallRow(0, 1, 1), CallRow(0, 2, 1)];

/// How it prints that both go.
const GO: &str =
    "Ok(Reply { made: Nothing, dropped: Seq { items: [SiteNo(0), SiteNo(1), SiteNo(2)] } })";

/// How the entry of it prints.
const ENTRY: &str =
    "Entry { event: RetireAll(Seq { items: [LoaderId(2), LoaderId(1)] }), reply: Reply { made: Nothing, dropped: Seq { items: [SiteNo(0), SiteNo(1), SiteNo(2)] } } }";

/// The answer to the call.
fn called(core: &Core, site: u32, class: u32) -> Answer {
    core.call(SiteNo::new(site), Recv::Of(ClassId::new(class)))
}

/// Whether each call runs its method.
fn run_so(core: &Core, rows: &[CallRow]) -> bool {
    let mut all = true;
    for CallRow(site, class, declaring) in rows {
        all = called(core, *site, *class) == Answer::Run(first(*declaring)) && all;
    }
    all
}

/// Whether the step is refused so, and leaves the log, the links and the calls.
fn is_refused(alloc: Global, core: &mut Core, row: &(Step, &'static str)) -> bool {
    let (Ok(before), count) = (links_printed(alloc, core), core.log().len()) else {
        return false;
    };
    is_text(printed(alloc, core, &row.0), row.1)
        && is_text(links_printed(alloc, core), before.as_str())
        && core.log().len() == count
        && core.links().len() == 3
        && run_so(core, CALLS)
}

/// Whether each of these is refused so.
fn are_refused(alloc: Global, core: &mut Core, rows: &[(Step, &'static str)]) -> bool {
    let mut all = true;
    for row in rows {
        all = is_refused(alloc, core, row) && all;
    }
    all
}

/// How what the step is answered prints, if it is planned and committed.
pub(crate) fn committed(alloc: Global, core: &mut Core, step: &Step) -> Result<String, AllocError> {
    let event = event(alloc, core, step)?;
    match core.plan(alloc, event) {
        Ok(plan) => {
            let reply = core.commit(plan);
            format!(in alloc; "Ok({reply:?})")
        }
        Err(refusal) => refused(alloc, &refusal),
    }
}

/// Whether a plan that both go is made, and let go.
pub(crate) fn is_planned(alloc: Global, core: &mut Core, step: &Step) -> bool {
    match event(alloc, core, step) {
        Ok(event) => core.plan(alloc, event).is_ok(),
        Err(_) => false,
    }
}

/// How the last entry prints.
pub(crate) fn last_entry(alloc: Global, core: &Core) -> Result<String, AllocError> {
    match core.log().kept().last() {
        Some(entry) => format!(in alloc; "{entry:?}"),
        None => Err(AllocError),
    }
}

/// Whether both are gone: their sites, and their classes, of which there is no object.
fn are_gone(core: &Core) -> bool {
    core.links().len() == 0
        && run_so(core, CALLS_AFTER)
        && called(core, 0, 4) == Answer::BadReceiver
        && called(core, 0, 6) == Answer::BadReceiver
        && called(core, 1, 1) == Answer::Unlinked(Unlinked::Gone)
        && called(core, 2, 1) == Answer::Unlinked(Unlinked::Gone)
}

/// Whether both go, at a plan or at once. One site is left to look at, once, with A and B, which are the receivers then.
fn go(alloc: Global, core: &mut Core, is_planned: bool) -> bool {
    let step = RetireAll(&[2, 1]);
    let answer = if is_planned {
        committed(alloc, core, &step)
    } else {
        printed(alloc, core, &step)
    };
    is_text(answer, GO)
        && core.last_work() >= 1
        && core.last_work() <= 2
        && core.log().len() == COUNT.wrapping_add(1)
        && is_text(last_entry(alloc, core), ENTRY)
        && are_gone(core)
}

/// What is let go before a renewal: nothing.
pub(crate) fn nothing_released(alloc: Global) -> Released {
    Released {
        call_sites: Seq::of(Vec::new(alloc)),
        switches: Seq::of(Vec::new(alloc)),
    }
}

/// Whether the loaders, classes and sites that are gone have no number.
fn are_numbers(numbers: &Renumbering) -> bool {
    numbers.loader(LoaderId::new(0)) == Some(LoaderId::new(0))
        && numbers.loader(LoaderId::new(1)).is_none()
        && numbers.loader(LoaderId::new(2)).is_none()
        && numbers.loader(LoaderId::new(3)) == Some(LoaderId::new(1))
        && numbers.class(ClassId::new(3)) == Some(ClassId::new(3))
        && numbers.class(ClassId::new(4)).is_none()
        && numbers.class(ClassId::new(7)).is_none()
        && numbers.site(SiteNo::new(0)) == Some(SiteNo::new(0))
        && numbers.site(SiteNo::new(1)).is_none()
        && numbers.site(SiteNo::new(2)).is_none()
}

/// Whether a renewal keeps what is left, once the site of loader 0 is linked and there is a loader 3.
fn is_renewed(alloc: Global, core: &mut Core) -> bool {
    let is_linked = are_done(alloc, core, &[Install(&[0]), Loader])
        && core.links().get(SiteNo::new(0)) == Some(runs_first());
    match renew(alloc, core, &nothing_released(alloc), core.limits()) {
        Ok((fresh, numbers)) => {
            is_linked
                && are_numbers(&numbers)
                && fresh.class_count() == 4
                && fresh.links().get(SiteNo::new(0)) == Some(runs_first())
                && run_so(&fresh, CALLS_AFTER)
        }
        Err(_) => false,
    }
}

/// All of it on a core. What comes after a plan is made in a second instance, which catches up on it.
fn goes_on(alloc: Global, core: &mut Core, by_plans: bool) -> bool {
    are_done(alloc, core, BEFORE)
        && core.log().len() == COUNT
        && are_refused(alloc, core, REFUSED)
        && (!by_plans || is_planned(alloc, core, &RetireAll(&[1, 2])))
        && run_so(core, CALLS)
        && go(alloc, core, by_plans)
        && is_done(alloc, core, &Point)
        && are_gone(core)
        && is_text(
            printed(alloc, core, &RetireAll(&[2])),
            "Err(RetireAll { loader: LoaderId(2), fault: UnknownLoader })",
        )
        && is_renewed(alloc, core)
}

/// Whether all of it is so on a new core.
fn go_at_once(alloc: Global, by_plans: bool) -> bool {
    match Core::new(alloc, 3) {
        Ok(mut core) => goes_on(alloc, &mut core, by_plans),
        Err(_) => false,
    }
}

#[test]
fn loaders_go_at_once(rt: HostRuntime) {
    assert!(rt; go_at_once(rt.alloc(), false));
    assert!(rt; go_at_once(rt.alloc(), true));
}
