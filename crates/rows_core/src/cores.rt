//! What lines of commands don't reach: a limit of places, rows made by hand, worlds of before, events that come later.

use crate::classes::Class::{A, C, Itself, M, Object, T};
use crate::steps::Shape::{Firsts, Method};
use crate::steps::Step::*;
use crate::steps::{Step, are_done, event, first, is_done, runs_first};
use jl_core::Core;
use jl_relink::{Prepared, Snapshot, World, dispatch, link_of, prepare};
use jl_types::CallSiteKind::Mutable;
use jl_types::{
    Answer, ClassId, Event, Limits, Link, Outcome, PrepareFault, Recv, Refusal, SiteNo, Table,
    TableKind, Unlinked,
};
use std::alloc::{AllocError, Global};
use std::process::Abort;

/// The limits of a core.
#[derive(Clone, Copy)]
enum Bounds {
    /// Those of the programs, with so many sites.
    Sites(u32),
    /// Its own.
    Own(Limits),
}

/// The limits, what comes before, so many times, and then events, one after another: how what each is answered prints, and whether a link
/// is installed then. The one link that is installed is that of site 0 that runs class 1's first method on each object.
struct Row(
    Bounds,
    &'static [Step],
    u32,
    &'static [(Step, &'static str, bool)],
);

/// A place keeps its number.
const REQUESTS: &Row = &Row(
    Bounds::Sites(1),
    &[Define(0, Object), Define(0, M), Define(0, Itself)],
    1,
    &[
        (
            Request(2, 0),
            "Ok(Reply { made: Site(SiteNo(0)), dropped: Seq { items: [] } })",
            false,
        ),
        // The place is there, so it isn't one too many; the other one is.
        (
            Request(2, 0),
            "Ok(Reply { made: Site(SiteNo(0)), dropped: Seq { items: [] } })",
            false,
        ),
        (Request(1, 0), "Err(SitesFull)", false),
        (Request(1, 1), "Err(NoSuchPlace)", false),
        (Request(9, 0), "Err(UnknownClass)", false),
    ],
);

/// Installs of a link at sites. Site 0 has no link yet, site 1 another one, and there is no site 2.
const INSTALLS: &Row = &Row(
    Bounds::Sites(2),
    &[
        Define(0, Object),
        Define(0, M),
        Define(0, Itself),
        Request(1, 0),
        Request(2, 0),
    ],
    1,
    &[
        (Wrong(&[]), "Err(BatchSize)", false),
        (Wrong(&[0]), "Err(NotReady { site: SiteNo(0) })", false),
        (Wrong(&[2]), "Err(UnknownSite { site: SiteNo(2) })", false),
        // The first bad row decides.
        (Wrong(&[0, 1]), "Err(NotReady { site: SiteNo(0) })", false),
        (
            Wrong(&[1, 0]),
            "Err(Stale { site: SiteNo(1), present: Plain(MethodId { class: ClassId(2), index: 0 }) })",
            false,
        ),
        // But all sites are looked at first.
        (
            Wrong(&[1, 2]),
            "Err(UnknownSite { site: SiteNo(2) })",
            false,
        ),
        (Wrong(&[0, 0]), "Err(Repeated { site: SiteNo(0) })", false),
        (
            Wrong(&[0, 1, 1]),
            "Err(Repeated { site: SiteNo(1) })",
            false,
        ),
        (WrongAgain(256), "Err(Repeated { site: SiteNo(0) })", false),
        (WrongAgain(257), "Err(BatchSize)", false),
    ],
);

/// A link that no preparation gave, which is the one from scratch, and then another one, which isn't.
const BY_HAND: &Row = &Row(
    Bounds::Sites(1),
    &[Define(0, Object), Define(0, A), Define(0, M), Request(2, 0)],
    1,
    &[
        (
            ByHand,
            "Ok(Reply { made: Nothing, dropped: Seq { items: [] } })",
            true,
        ),
        (
            Wrong(&[0]),
            "Err(Stale { site: SiteNo(0), present: Direct(Run(MethodId { class: ClassId(1), index: 0 })) })",
            true,
        ),
    ],
);

/// There are 1,024 loaders at the most, of which the first one is there.
const LOADERS: &Row = &Row(
    Bounds::Sites(1),
    &[Loader],
    1022,
    &[
        (
            Loader,
            "Ok(Reply { made: Loader(LoaderId(1023)), dropped: Seq { items: [] } })",
            false,
        ),
        (Loader, "Err(LoadersFull)", false),
    ],
);

/// A core may have more loaders than the programs have.
const MORE_LOADERS: &Row = &Row(
    Bounds::Own(Limits {
        sites: 1,
        loaders: 1_025,
        classes: 1,
        call_sites: 1,
        switches: 1,
    }),
    &[Loader],
    1023,
    &[
        (
            Loader,
            "Ok(Reply { made: Loader(LoaderId(1024)), dropped: Seq { items: [] } })",
            false,
        ),
        (Loader, "Err(LoadersFull)", false),
    ],
);

/// Of each kind as many as the limits say, and then no more.
const OWN_LIMITS: &Row = &Row(
    Bounds::Own(Limits {
        sites: 1,
        loaders: 2,
        classes: 4,
        call_sites: 1,
        switches: 1,
    }),
    &[
        Define(0, Object),
        Define(0, T),
        Define(0, M),
        Define(0, Itself),
        Point,
        CallSite(Mutable, "()V", Method((1, 1))),
        Loader,
        Request(2, 0),
    ],
    1,
    &[
        (Define(0, A), "Err(Define(Full))", false),
        (Point, "Err(CallSite(Full))", false),
        (
            CallSite(Mutable, "()V", Method((1, 1))),
            "Err(CallSite(Full))",
            false,
        ),
        (Loader, "Err(LoadersFull)", false),
        (Request(3, 0), "Err(SitesFull)", false),
    ],
);

/// A refused target goes without a call as deep as it is: the stack has no room for a million calls.
const DEEP_TARGETS: &Row = &Row(
    Bounds::Sites(1),
    &[
        Define(0, Object),
        Define(0, T),
        Point,
        CallSite(Mutable, "()V", Method((1, 1))),
    ],
    1,
    &[
        (
            CallSite(Mutable, "()V", Firsts(1_000_000, 0, (1, 1))),
            "Err(CallSite(TooDeep))",
            false,
        ),
        (
            Retarget(0, Firsts(1_000_000, 0, (1, 1))),
            "Err(CallSite(TooDeep))",
            false,
        ),
    ],
);

const ROWS: &[&Row] = &[
    REQUESTS,
    INSTALLS,
    BY_HAND,
    LOADERS,
    MORE_LOADERS,
    OWN_LIMITS,
    DEEP_TARGETS,
];

/// How what the step is answered prints.
pub(crate) fn printed(alloc: Global, core: &mut Core, step: &Step) -> Result<String, AllocError> {
    let event = event(alloc, core, step)?;
    let answer = core.apply(alloc, event);
    format!(in alloc; "{answer:?}")
}

/// How the installed links print.
pub(crate) fn links_printed(alloc: Global, core: &Core) -> Result<String, AllocError> {
    let links = core.list_links(alloc)?;
    format!(in alloc; "{:?}", links.as_slice())
}

/// How the refusal prints.
pub(crate) fn refused(alloc: Global, refusal: &Refusal) -> Result<String, AllocError> {
    format!(in alloc; "{refusal:?}")
}

/// Whether the text was made, and is this.
pub(crate) fn is_text(text: Result<String, AllocError>, want: &str) -> bool {
    match text {
        Ok(text) => text.as_str() == want,
        Err(_) => false,
    }
}

/// Whether the row is so on the core.
fn is_so_on(alloc: Global, core: &mut Core, row: &Row) -> bool {
    let mut all = true;
    for _ in 0..row.2 {
        all = are_done(alloc, core, row.1) && all;
    }
    for (step, answer, is_linked) in row.3 {
        let links = if *is_linked {
            "[(SiteNo(0), Direct(Run(MethodId { class: ClassId(1), index: 0 })))]"
        } else {
            "[]"
        };
        all = is_text(printed(alloc, core, step), answer)
            && is_text(links_printed(alloc, core), links)
            && all;
    }
    all
}

/// The limits that these are.
fn limits_of(bounds: Bounds) -> Limits {
    match bounds {
        Bounds::Sites(sites) => Limits::fixed(sites),
        Bounds::Own(limits) => limits,
    }
}

/// Whether the row, whose limits a core may have, is so on a new core.
fn is_so(alloc: Global, row: &Row) -> bool {
    let limits = limits_of(row.0);
    if !limits.are_allowed() {
        return false;
    }
    match Core::with_limits(alloc, limits) {
        Ok(mut core) => is_so_on(alloc, &mut core, row),
        Err(_) => false,
    }
}

/// The first row that isn't so, if there is one.
fn other(alloc: Global, rows: &[&Row]) -> Option<usize> {
    for (index, row) in rows.iter().enumerate() {
        if !is_so(alloc, row) {
            return Some(index);
        }
    }
    None
}

#[test]
fn answers_and_refuses(rt: HostRuntime) {
    assert_eq!(rt; other(rt.alloc(), ROWS), None);
}

/// Site 0.
fn site() -> SiteNo {
    SiteNo::new(0)
}

/// The table of A and C, each with its own f.
fn runs_a_or_c() -> Link {
    let mut table = Table::new();
    table.push(ClassId::new(1), Outcome::Run(first(1)));
    table.push(ClassId::new(3), Outcome::Run(first(3)));
    Link::Table(TableKind::Virtual, table)
}

/// Whether the install of what was prepared after so many events, of site 0 with this link, is refused, since the site has another one now,
/// or accepted if there is none.
fn is_prepared(
    alloc: Global,
    core: &mut Core,
    prepared: Result<Prepared, PrepareFault>,
    after: (u64, Link),
    present: Option<Link>,
) -> bool {
    let Ok(Prepared { serial, rows }) = prepared else {
        return false;
    };
    let so = serial == after.0 && rows.as_slice() == [(site(), after.1)].as_slice();
    let refusal = core.apply(alloc, Event::Install(rows)).err();
    so && match (&refusal, present) {
        (Some(Refusal::Stale { site: at, present }), Some(link)) => {
            *at == site() && *present == link
        }
        (None, None) => true,
        _ => false,
    }
}

/// Whether a preparation in a snapshot that is taken now, once the class C is defined, gives the link of before, which comes too late.
fn is_of_before(alloc: Global, core: &mut Core) -> bool {
    let Ok(snapshot) = core.snapshot(alloc) else {
        return false;
    };
    let is_defined = is_done(alloc, core, &Define(0, C));
    let so = snapshot.serial() == 4 && link_of(snapshot.world(), site()) == Ok(runs_first());
    let prepared = prepare(alloc, &snapshot, &[site()]);
    is_prepared(
        alloc,
        core,
        prepared,
        (4, runs_first()),
        Some(runs_a_or_c()),
    ) && is_defined
        && so
}

/// Whether a preparation now gives the table, after four events and the class C: a refused one doesn't count.
fn is_of_now(alloc: Global, core: &mut Core) -> bool {
    let prepared = core.prepare(alloc, &[site()]);
    is_prepared(alloc, core, prepared, (5, runs_a_or_c()), None)
        && core.links().get(site()) == Some(runs_a_or_c())
        && core.links().get(SiteNo::new(1)).is_none()
        && core.call(site(), Recv::Of(ClassId::new(3))) == Answer::Run(first(3))
}

/// Whether both are so on a new core.
fn are_prepared(alloc: Global) -> bool {
    match Core::new(alloc, 1) {
        Ok(mut core) => {
            are_done(alloc, &mut core, BY_HAND.1)
                && is_of_before(alloc, &mut core)
                && is_of_now(alloc, &mut core)
        }
        Err(_) => false,
    }
}

#[test]
fn prepares_in_the_world_of_a_snapshot(rt: HostRuntime) {
    assert!(rt; are_prepared(rt.alloc()));
}

/// Whether nothing is in a snapshot of the copy of a new world, which has this count of events.
fn is_copied(alloc: Global) -> Result<bool, AllocError> {
    let world = World::new(alloc)?;
    let copy = world.copy(alloc)?;
    let snapshot = Snapshot::new(copy, 7);
    let answer = dispatch(snapshot.world(), site(), Recv::Null);
    Ok(
        snapshot.serial() == 7
            && link_of(snapshot.world(), site()) == Err(Unlinked::NoSite)
            && answer == Answer::Unlinked(Unlinked::NoSite),
    )
}

#[test]
fn copies_worlds(rt: HostRuntime) {
    assert!(rt; is_copied(rt.alloc()) == Ok(true));
}
