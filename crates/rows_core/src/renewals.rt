//! Renewals: what stays of a core, under which numbers, and entries that are carried over.

ghost use Rattle.std.specs.Prelude.{◌≡◌};
ghost use Rattle.jl_types.specs.Events.Limits.{fixed};
ghost use Rattle.jl_core.specs.State.{empty_core};

use crate::classes::Class::{A, C, D, E, Itself, M, Object, T};
use crate::steps::Shape::{Guard, Invoker, InvokerOr, Method};
use crate::steps::Step::*;
use crate::steps::{Step, are_done, is_done};
use jl_core::Core;
use jl_names::Seq;
use jl_renewal::{
    CarryFault, Released, Renumbering, carry, fresh_links, install_all, refill, renew,
};
use jl_types::CallSiteKind::{Mutable, Volatile};
use jl_types::{
    Answer, CallSiteFault, CallSiteId, ClassId, DefineFault, Limits, LoaderId, MethodId, Recv,
    Refusal, SiteNo, SwitchId,
};
use std::alloc::{AllocError, Global};
use std::process::Abort;

/// Loader 1 finds A, has defined C, class 6, and stays; loader 2 has defined N, class 4, with site 1, and goes. Call site 1 is bound at
/// site 0; 2, which nobody needs, invokes 0, and so does 3, which is kept for its owner alone and guards by the invalid switch point 2.
const BEFORE: &[Step] = &[
    Loader,
    Loader,
    Define(0, Object),
    Define(0, A),
    Define(0, T),
    Define(0, M),
    Delegate(2, rows_files::OBJECT),
    Define(2, Itself),
    Define(0, D),
    Delegate(1, "A"),
    Define(1, C),
    Point,
    Point,
    Point,
    Invalidate(&[1, 2]),
    CallSite(Mutable, "()V", Method((2, 1))),
    CallSite(Mutable, "()V", Guard(0, (2, 1), (2, 2))),
    CallSite(Mutable, "()V", Invoker(0)),
    CallSite(Volatile, "()V", InvokerOr(2, 0, (2, 3))),
    Request(2, 0),
    Request(4, 0),
    Request(3, 0),
    Request(3, 3),
    Bind(0, 1),
    Retire(2),
    Install(&[0, 2, 3]),
];

/// The call sites and the switch points of these numbers are let go; 9 was never given.
const GONE: &[u32] = &[0, 1, 2, 9];

/// What comes while the fresh core is filled, with all eleven kinds of events. Loader 3 finds java/lang/Object and defines another T, class
/// 7, whose site 5 is bound to call site 4. Site 4 is bound to call site 3. Loader 1 goes. A place is requested that was requested already.
const MEANWHILE: &[Step] = &[
    Loader,
    Delegate(3, rows_files::OBJECT),
    Define(3, T),
    Define(0, E),
    Retarget(1, Guard(0, (2, 3), (2, 2))),
    Point,
    Invalidate(&[0, 1]),
    CallSite(Mutable, "()V", InvokerOr(3, 1, (7, 1))),
    Request(2, 5),
    Request(7, 0),
    Request(3, 0),
    Bind(4, 3),
    Bind(5, 4),
    Retire(1),
    Install(&[0, 2, 4, 5]),
];

/// A call of a site on an object of a class, and the method that it runs, by its class and number there, in the fresh core.
struct CallRow(u32, u32, u32, u16);

/// D is class 4 now, and C class 5. Call site 1 runs T's first other method while its switch point is valid, and so does site 0.
const CALLS: &[CallRow] = &[
    CallRow(0, 1, 2, 1),
    CallRow(1, 1, 1, 0),
    CallRow(1, 4, 4, 0),
    CallRow(1, 5, 5, 0),
    CallRow(2, 1, 3, 1),
];

/// E is class 7. Call site 1 has another target, and its switch point is invalid. Site 3 runs what an invalid switch point leaves. Site 4
/// runs what call site 1 runs, since the switch point that came meanwhile is valid.
const CALLS_AFTER: &[CallRow] = &[
    CallRow(0, 1, 2, 2),
    CallRow(1, 1, 1, 0),
    CallRow(1, 4, 4, 0),
    CallRow(1, 7, 7, 0),
    CallRow(2, 1, 3, 1),
    CallRow(3, 1, 2, 3),
    CallRow(4, 1, 2, 2),
];

/// A core of these. Want of memory is an error, and so is a step that is refused.
fn old_core(alloc: Global) -> Result<Core, AllocError> {
    let mut core = Core::new(alloc, 6)?;
    if are_done(alloc, &mut core, BEFORE) {
        Ok(core)
    } else {
        Err(AllocError)
    }
}

/// What is let go.
fn released(alloc: Global) -> Result<Released, AllocError> {
    let mut call_sites = Vec::new(alloc);
    let mut switches = Vec::new(alloc);
    for number in GONE {
        call_sites.push(CallSiteId::new(*number))?;
        switches.push(SwitchId::new(*number))?;
    }
    Ok(Released {
        call_sites: Seq::of(call_sites),
        switches: Seq::of(switches),
    })
}

/// Whether what stays has these numbers: the loader, class and site that are gone have none, and neither have call site 2 and switch point
/// 1.
fn are_numbers(numbers: &Renumbering) -> bool {
    let loaders = numbers.loader(LoaderId::new(0)) == Some(LoaderId::new(0))
        && numbers.loader(LoaderId::new(1)) == Some(LoaderId::new(1))
        && numbers.loader(LoaderId::new(2)).is_none();
    let classes = numbers.class(ClassId::new(3)) == Some(ClassId::new(3))
        && numbers.class(ClassId::new(4)).is_none()
        && numbers.class(ClassId::new(5)) == Some(ClassId::new(4))
        && numbers.class(ClassId::new(6)) == Some(ClassId::new(5));
    let call_sites = numbers.call_site(CallSiteId::new(0)) == Some(CallSiteId::new(0))
        && numbers.call_site(CallSiteId::new(1)) == Some(CallSiteId::new(1))
        && numbers.call_site(CallSiteId::new(2)).is_none()
        && numbers.call_site(CallSiteId::new(3)) == Some(CallSiteId::new(2));
    let switches = numbers.switch(SwitchId::new(0)) == Some(SwitchId::new(0))
        && numbers.switch(SwitchId::new(1)).is_none()
        && numbers.switch(SwitchId::new(2)) == Some(SwitchId::new(1));
    let sites = numbers.site(SiteNo::new(0)) == Some(SiteNo::new(0))
        && numbers.site(SiteNo::new(1)).is_none()
        && numbers.site(SiteNo::new(3)) == Some(SiteNo::new(2))
        && numbers.site(SiteNo::new(4)).is_none();
    loaders && classes && call_sites && switches && sites
}

/// Whether what came meanwhile has these numbers.
fn are_numbers_after(numbers: &Renumbering) -> bool {
    numbers.loader(LoaderId::new(3)) == Some(LoaderId::new(2))
        && numbers.class(ClassId::new(7)) == Some(ClassId::new(6))
        && numbers.class(ClassId::new(8)) == Some(ClassId::new(7))
        && numbers.switch(SwitchId::new(3)) == Some(SwitchId::new(2))
        && numbers.call_site(CallSiteId::new(4)) == Some(CallSiteId::new(3))
        && numbers.site(SiteNo::new(4)) == Some(SiteNo::new(3))
        && numbers.site(SiteNo::new(5)) == Some(SiteNo::new(4))
}

/// Whether each call runs its method.
fn run_so(core: &Core, rows: &[CallRow]) -> bool {
    let mut all = true;
    for CallRow(site, class, declaring, index) in rows {
        let method = MethodId {
            class: ClassId::new(*declaring),
            index: *index,
        };
        let answer = core.call(SiteNo::new(*site), Recv::Of(ClassId::new(*class)));
        all = answer == Answer::Run(method) && all;
    }
    all
}

/// As many of each kind as stay.
const ENOUGH: Limits = Limits {
    sites: 3,
    loaders: 2,
    classes: 6,
    call_sites: 3,
    switches: 2,
};

/// Limits of a fresh core, and of what more stays than they allow.
struct TooFew(Limits, &'static str);

/// One less of each kind in turn.
const TOO_FEW: &[TooFew] = &[
    TooFew(
        Limits {
            sites: 2,
            loaders: 2,
            classes: 6,
            call_sites: 3,
            switches: 2,
        },
        "sites",
    ),
    TooFew(
        Limits {
            sites: 3,
            loaders: 1,
            classes: 6,
            call_sites: 3,
            switches: 2,
        },
        "loaders",
    ),
    TooFew(
        Limits {
            sites: 3,
            loaders: 2,
            classes: 5,
            call_sites: 3,
            switches: 2,
        },
        "classes",
    ),
    TooFew(
        Limits {
            sites: 3,
            loaders: 2,
            classes: 6,
            call_sites: 2,
            switches: 2,
        },
        "call sites or switch points",
    ),
    TooFew(
        Limits {
            sites: 3,
            loaders: 2,
            classes: 6,
            call_sites: 3,
            switches: 1,
        },
        "call sites or switch points",
    ),
];

/// Of what more stays than a fresh core may have, by the refusal of a renewal.
fn more_stay(refusal: &Refusal) -> &'static str {
    match refusal {
        Refusal::SitesFull => "sites",
        Refusal::LoadersFull => "loaders",
        Refusal::Define(DefineFault::Full) => "classes",
        Refusal::CallSite(CallSiteFault::Full) => "call sites or switch points",
        _ => "",
    }
}

/// Whether a renewal with these limits, which a core may have, is refused for that.
fn is_refused(alloc: Global, old: &Core, released: &Released, row: &TooFew) -> bool {
    let limits = row.0;
    if !limits.are_allowed() {
        return false;
    }
    match renew(alloc, old, released, limits) {
        Ok(_) => false,
        Err(refusal) => more_stay(&refusal) == row.1,
    }
}

/// Whether each of these is refused.
fn are_refused(alloc: Global, old: &Core, released: &Released, rows: &[TooFew]) -> bool {
    let mut all = true;
    for row in rows {
        all = is_refused(alloc, old, released, row) && all;
    }
    all
}

/// Whether a renewal of the old core with these limits, which a core may have, is this: of its 19 events the last one installs all three
/// links.
fn is_renewed(alloc: Global, old: &Core, released: &Released, limits: Limits) -> bool {
    if !limits.are_allowed() {
        return false;
    }
    match renew(alloc, old, released, limits) {
        Ok((fresh, numbers)) => {
            are_numbers(&numbers)
                && fresh.log().len() == 19
                && fresh.links().len() == 3
                && run_so(&fresh, CALLS)
        }
        Err(_) => false,
    }
}

/// Whether it is so if the fresh core may have as many as stay, and is refused if that may have one less of a kind.
fn is_by_limits(alloc: Global, old: &Core, released: &Released) -> bool {
    is_renewed(alloc, old, released, ENOUGH) && are_refused(alloc, old, released, TOO_FEW)
}

/// Whether a renewal is so, or refused, by the limits, once the old core has forgotten what is past.
fn is_renewed_again(alloc: Global, old: &mut Core, released: &Released) -> bool {
    let is_past_there = old.log().kept_from(0).is_some();
    old.forget();
    is_past_there && old.log().kept_from(0).is_none() && is_by_limits(alloc, old, released)
}

/// All of it.
fn renews(alloc: Global) -> bool {
    match (old_core(alloc), released(alloc)) {
        (Ok(mut old), Ok(released)) => {
            is_by_limits(alloc, &old, &released) && is_renewed_again(alloc, &mut old, &released)
        }
        _ => false,
    }
}

/// Whether the last entry of the old core names what is gone.
fn names_gone(alloc: Global, fresh: &mut Core, numbers: &mut Renumbering, old: &Core) -> bool {
    match old.log().kept().last() {
        Some(entry) => matches!(
            carry(alloc, fresh, numbers, old.world(), entry),
            Err(CarryFault::Gone)
        ),
        None => false,
    }
}

/// Whether the links of the old core come over after all else.
fn links_come(alloc: Global, fresh: &mut Core, numbers: &Renumbering, old: &Core) -> bool {
    let Ok(linked) = old.list_links(alloc) else {
        return false;
    };
    let Ok(rows) = fresh_links(alloc, fresh.world(), linked.as_slice(), numbers) else {
        return false;
    };
    install_all(alloc, fresh, rows.as_slice()).is_ok()
        && fresh.links().len() == 5
        && old.links().len() == 5
}

/// Whether the entries of the old core from the place on are there and are carried over.
fn are_carried(
    alloc: Global,
    fresh: &mut Core,
    numbers: &mut Renumbering,
    old: &Core,
    from: u64,
) -> bool {
    let Some(entries) = old.log().kept_from(from) else {
        return false;
    };
    let mut all = true;
    for entry in entries {
        all = carry(alloc, fresh, numbers, old.world(), entry).is_ok() && all;
    }
    all
}

/// Whether what comes meanwhile is carried over, and then a retarget of a call site that was let go is not.
fn carries_on(alloc: Global, fresh: &mut Core, numbers: &mut Renumbering, old: &mut Core) -> bool {
    let from = old.log().len();
    are_done(alloc, old, MEANWHILE)
        && are_carried(alloc, fresh, numbers, old, from)
        && are_numbers_after(numbers)
        && fresh.class_count() == 8
        && links_come(alloc, fresh, numbers, old)
        && run_so(fresh, CALLS_AFTER)
        && is_done(alloc, old, &Retarget(2, Method((2, 2))))
        && names_gone(alloc, fresh, numbers, old)
}

/// All of it, from a fresh core that is filled.
fn fills(alloc: Global, fresh: &mut Core, old: &mut Core, released: &Released) -> bool
    requires { fresh.old ≡ empty_core (fixed 8) }
{
    match refill(
        alloc,
        fresh,
        old.world(),
        old.log(),
        released,
        Limits::fixed(8),
    ) {
        Ok(mut numbers) => are_numbers(&numbers) && carries_on(alloc, fresh, &mut numbers, old),
        Err(_) => false,
    }
}

/// Whether a fresh core of 8 sites is filled so, and all comes over.
fn fills_fresh(alloc: Global, old: &mut Core, released: &Released) -> bool {
    match Core::new(alloc, 8) {
        Ok(mut fresh) => fills(alloc, &mut fresh, old, released),
        Err(_) => false,
    }
}

/// Whether all comes over between new cores, of which the old one has forgotten what is past, or has not.
fn carries(alloc: Global, has_forgotten: bool) -> bool {
    match (old_core(alloc), released(alloc)) {
        (Ok(mut old), Ok(released)) => {
            if has_forgotten {
                old.forget();
            }
            fills_fresh(alloc, &mut old, &released)
        }
        _ => false,
    }
}

#[test]
fn renews_what_stays(rt: HostRuntime) {
    assert!(rt; renews(rt.alloc()));
}

#[test]
fn carries_entries_over(rt: HostRuntime) {
    assert!(rt; carries(rt.alloc(), false));
    assert!(rt; carries(rt.alloc(), true));
}
