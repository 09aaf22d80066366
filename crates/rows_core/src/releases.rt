//! Call sites and switch points that are released.

use crate::classes::Class::{Object, T};
use crate::cores::{is_text, links_printed, printed};
use crate::steps::Shape::{Guard, Invoker, Method};
use crate::steps::Step::*;
use crate::steps::{Step, are_done, is_done};
use crate::together::{committed, is_planned, last_entry, nothing_released};
use jl_core::Core;
use jl_renewal::{Renumbering, renew};
use jl_types::CallSiteKind::{Constant, Mutable};
use jl_types::{Answer, CallSiteId, ClassId, LoaderId, MethodId, Recv, SiteNo, SwitchId, Unlinked};
use std::alloc::Global;
use std::process::Abort;

/// The call site 0 runs a method of class 2, which loader 1 has defined, and the call site 1 invokes that one. The call site 2 guards by the
/// switch point 0. Site 0 is bound to the call site 1, and site 1 to the call site 2.
const BEFORE: &[Step] = &[
    Define(0, Object),
    Define(0, T),
    Loader,
    Delegate(1, rows_files::OBJECT),
    Define(1, T),
    Request(1, 0),
    Request(1, 5),
    Point,
    Point,
    CallSite(Mutable, "()V", Method((2, 1))),
    CallSite(Mutable, "()V", Invoker(0)),
    CallSite(Constant, "()V", Guard(0, (1, 2), (1, 3))),
    Bind(0, 1),
    Bind(1, 2),
    Install(&[0, 1]),
];

/// How many steps these are.
const COUNT: u64 = 15;

/// What is refused then, and how the refusal prints.
const REFUSED: &[(Step, &'static str)] = &[
    (Retire(1), "Err(Retire(Targeted(CallSiteId(0))))"),
    // The first one of the list that isn't there, a call site before a switch point.
    (
        Release(&[0, 9, 7], &[8]),
        "Err(Release(UnknownCallSite(CallSiteId(9))))",
    ),
    (
        Release(&[0], &[0, 8, 7]),
        "Err(Release(UnknownSwitch(SwitchId(8))))",
    ),
    // Then what stays and names one of them.
    (Release(&[0], &[0]), "Err(Release(Invoked(CallSiteId(1))))"),
    (
        Release(&[1, 0], &[1, 0]),
        "Err(Release(Guarded(CallSiteId(2))))",
    ),
    (Release(&[], &[0]), "Err(Release(Guarded(CallSiteId(2))))"),
];

/// What is refused once the call sites 0 and 1 and the switch point 1 are released.
const REFUSED_AFTER: &[(Step, &'static str)] = &[
    (
        Retarget(0, Method((1, 1))),
        "Err(CallSite(UnknownCallSite))",
    ),
    (
        CallSite(Mutable, "()V", Invoker(1)),
        "Err(CallSite(UnknownCallSite))",
    ),
    (
        CallSite(Mutable, "()V", Guard(1, (1, 1), (1, 1))),
        "Err(CallSite(UnknownSwitch))",
    ),
    (Invalidate(&[0, 1]), "Err(CallSite(UnknownSwitch))"),
    (Bind(0, 2), "Err(AlreadyBound(CallSiteId(1)))"),
    (
        Release(&[2, 0], &[]),
        "Err(Release(UnknownCallSite(CallSiteId(0))))",
    ),
    (
        Release(&[2], &[0, 1]),
        "Err(Release(UnknownSwitch(SwitchId(1))))",
    ),
];

/// How it prints that they go.
const GO: &str = "Ok(Reply { made: Nothing, dropped: Seq { items: [SiteNo(0)] } })";

/// How the entry of it prints.
const ENTRY: &str =
    "Entry { event: Release(Seq { items: [CallSiteId(1), CallSiteId(0), CallSiteId(1)] }, Seq { items: [SwitchId(1)] }), reply: Reply { made: Nothing, dropped: Seq { items: [SiteNo(0)] } } }";

/// The answer to the call of the site.
fn called(core: &Core, site: u32) -> Answer {
    core.call(SiteNo::new(site), Recv::Null)
}

/// That the class's method at this place runs.
fn runs(class: u32, index: u16) -> Answer {
    Answer::Run(MethodId {
        class: ClassId::new(class),
        index,
    })
}

/// Whether both sites are linked.
fn are_linked(core: &Core) -> bool {
    core.links().len() == 2 && called(core, 0) == runs(2, 1) && called(core, 1) == runs(1, 2)
}

/// Whether site 0 is gone, and site 1 is still linked.
fn is_gone(core: &Core) -> bool {
    core.links().len() == 1
        && called(core, 0) == Answer::Unlinked(Unlinked::Gone)
        && called(core, 1) == runs(1, 2)
}

/// Whether the step is refused so, and leaves the log and the links.
fn is_refused(alloc: Global, core: &mut Core, row: &(Step, &'static str)) -> bool {
    let (Ok(before), count) = (links_printed(alloc, core), core.log().len()) else {
        return false;
    };
    is_text(printed(alloc, core, &row.0), row.1)
        && is_text(links_printed(alloc, core), before.as_str())
        && core.log().len() == count
}

/// Whether each of these is refused so.
fn are_refused(alloc: Global, core: &mut Core, rows: &[(Step, &'static str)]) -> bool {
    let mut all = true;
    for row in rows {
        all = is_refused(alloc, core, row) && all;
    }
    all
}

/// Whether they go, at a plan or at once. One site is left to look at.
fn go(alloc: Global, core: &mut Core, by_plans: bool) -> bool {
    let step = Release(&[1, 0, 1], &[1]);
    let answer = if by_plans {
        committed(alloc, core, &step)
    } else {
        printed(alloc, core, &step)
    };
    is_text(answer, GO)
        && core.last_work() <= 1
        && core.log().len() == COUNT.wrapping_add(1)
        && is_text(last_entry(alloc, core), ENTRY)
        && is_gone(core)
}

/// Whether no number is given again.
fn are_numbered(alloc: Global, core: &mut Core) -> bool {
    is_text(
        printed(alloc, core, &CallSite(Mutable, "()V", Method((1, 1)))),
        "Ok(Reply { made: CallSite(CallSiteId(3)), dropped: Seq { items: [] } })",
    ) && is_text(
        printed(alloc, core, &Point),
        "Ok(Reply { made: Switch(SwitchId(2)), dropped: Seq { items: [] } })",
    )
}

/// Whether what is gone has no number in a fresh core.
fn are_numbers(numbers: &Renumbering) -> bool {
    numbers.call_site(CallSiteId::new(0)).is_none()
        && numbers.call_site(CallSiteId::new(1)).is_none()
        && numbers.call_site(CallSiteId::new(2)) == Some(CallSiteId::new(0))
        && numbers.call_site(CallSiteId::new(3)) == Some(CallSiteId::new(1))
        && numbers.switch(SwitchId::new(0)) == Some(SwitchId::new(0))
        && numbers.switch(SwitchId::new(1)).is_none()
        && numbers.switch(SwitchId::new(2)) == Some(SwitchId::new(1))
        && numbers.loader(LoaderId::new(1)).is_none()
        && numbers.site(SiteNo::new(0)) == Some(SiteNo::new(0))
        && numbers.site(SiteNo::new(1)) == Some(SiteNo::new(1))
}

/// Whether site 0 isn't bound any more in a fresh core, and site 1 is linked there.
fn is_renewed(alloc: Global, core: &Core) -> bool {
    match renew(alloc, core, &nothing_released(alloc), core.limits()) {
        Ok((fresh, numbers)) => {
            are_numbers(&numbers)
                && fresh.links().len() == 1
                && called(&fresh, 0) == Answer::Unlinked(Unlinked::Unbound)
                && called(&fresh, 1) == runs(1, 2)
        }
        Err(_) => false,
    }
}

/// All of it on a core. What comes after a plan is made in a second instance, which catches up on it.
fn goes_on(alloc: Global, core: &mut Core, by_plans: bool) -> bool {
    are_done(alloc, core, BEFORE)
        && core.log().len() == COUNT
        && are_refused(alloc, core, REFUSED)
        && (!by_plans || is_planned(alloc, core, &Release(&[0, 1], &[])))
        && are_linked(core)
        && go(alloc, core, by_plans)
        && are_refused(alloc, core, REFUSED_AFTER)
        && are_numbered(alloc, core)
        && is_done(alloc, core, &Retire(1))
        && is_done(alloc, core, &Release(&[], &[]))
        && is_gone(core)
        && is_renewed(alloc, core)
        && is_done(alloc, core, &Release(&[2], &[0]))
        && core.links().len() == 0
}

/// Whether all of it is so on a new core.
fn are_released(alloc: Global, by_plans: bool) -> bool {
    match Core::new(alloc, 2) {
        Ok(mut core) => goes_on(alloc, &mut core, by_plans),
        Err(_) => false,
    }
}

#[test]
fn call_sites_are_released(rt: HostRuntime) {
    assert!(rt; are_released(rt.alloc(), false));
    assert!(rt; are_released(rt.alloc(), true));
}
