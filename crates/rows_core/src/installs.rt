//! Links that are looked up and installed in one call, and the instance that catches up in the meantime: each against a core that does
//! that by events alone.

use crate::classes::Class::{A, B, C, Itself, M, Object, T};
use crate::cores::is_text;
use crate::steps::Step::*;
use crate::steps::{Step, are_done, event};
use jl_core::Core;
use jl_types::SiteNo;
use std::alloc::{AllocError, Global};

/// Sites 0 and 1 have links, A.f on each object and N.m; site 2 is an invokedynamic that is bound to nothing.
const BEFORE: &[Step] = &[
    Define(0, Object),
    Define(0, A),
    Define(0, M),
    Define(0, Itself),
    Define(0, T),
    Request(2, 0),
    Request(3, 0),
    Request(4, 0),
];

/// Sites that are installed one after another, and how the answer prints.
const INSTALLS: &[(&[u32], &str)] = &[
    (&[], "Err(BatchSize)"),
    (&[7], "Err(UnknownSite(SiteNo(7)))"),
    (&[0, 0], "Err(Repeated(SiteNo(0)))"),
    (&[0, 2], "Err(NotReady(SiteNo(2)))"),
    (
        &[1, 0],
        "Ok(Reply { made: Nothing, dropped: Seq { items: [] } })",
    ),
    (
        &[0],
        "Ok(Reply { made: Nothing, dropped: Seq { items: [] } })",
    ),
    (&[0, 3], "Err(UnknownSite(SiteNo(3)))"),
];

/// These sites.
fn sites_from(alloc: Global, numbers: &[u32]) -> Result<Vec<SiteNo>, AllocError> {
    let mut sites = Vec::new(alloc);
    for number in numbers {
        sites.push(SiteNo::new(*number))?;
    }
    Ok(sites)
}

/// How the answer prints to an install of these sites in one call.
fn installed(alloc: Global, core: &mut Core, numbers: &[u32]) -> Result<String, AllocError> {
    let sites = sites_from(alloc, numbers)?;
    let answer = core.install(alloc, sites.as_slice());
    format!(in alloc; "{answer:?}")
}

/// How the answer to the step prints.
fn applied(alloc: Global, core: &mut Core, step: &Step) -> Result<String, AllocError> {
    let event = event(alloc, core, step)?;
    let answer = core.apply(alloc, event);
    format!(in alloc; "{answer:?}")
}

/// How the installed links print.
fn links(alloc: Global, core: &Core) -> Result<String, AllocError> {
    let rows = core.list_links(alloc)?;
    format!(in alloc; "{rows:?}")
}

/// Whether the two have as many events, the same links, and told the same work.
fn are_alike(alloc: Global, core: &Core, other: &Core) -> bool {
    core.log().len() == other.log().len()
        && core.last_work() == other.last_work()
        && match links(alloc, other) {
            Ok(text) => is_text(links(alloc, core), text.as_str()),
            Err(_) => false,
        }
}

/// Whether the row is answered so, and leaves what an install event leaves.
fn is_install(
    alloc: Global,
    core: &mut Core,
    other: &mut Core,
    row: &(&'static [u32], &str),
) -> bool {
    let so = is_text(installed(alloc, core, row.0), row.1);
    let _answer = applied(alloc, other, &Install(row.0));
    so && are_alike(alloc, core, other)
}

/// The first install that isn't so, one after another, if there is one.
fn other_install(alloc: Global, core: &mut Core, other: &mut Core) -> Option<usize> {
    for (index, row) in INSTALLS.iter().enumerate() {
        if !is_install(alloc, core, other, row) {
            return Some(index);
        }
    }
    None
}

/// Whether each is, on new cores.
fn are_installed(alloc: Global, core: &mut Core, other: &mut Core) -> bool {
    are_done(alloc, core, BEFORE)
        && are_done(alloc, other, BEFORE)
        && other_install(alloc, core, other).is_none()
        && core.links().len() == 2
}

/// What is done while one of the cores catches up before each, and twice.
const STEPS: &[Step] = &[
    Define(0, Object),
    Define(0, A),
    Define(0, M),
    Request(2, 0),
    Install(&[0]),
    Define(0, A),
    Define(0, B),
    Install(&[0]),
    Define(0, C),
    Install(&[0]),
    Loader,
    Retire(1),
    Point,
];

/// Whether the core catches up twice, and then the step is answered as the other one answers it.
fn is_caught_up(alloc: Global, core: &mut Core, other: &mut Core, step: &Step) -> bool {
    let done = core.catch_up(alloc).is_ok() && core.catch_up(alloc).is_ok();
    let so = match applied(alloc, other, step) {
        Ok(text) => is_text(applied(alloc, core, step), text.as_str()),
        Err(_) => false,
    };
    done && so && are_alike(alloc, core, other)
}

/// The first step that isn't so, one after another, if there is one.
fn other_step(alloc: Global, core: &mut Core, other: &mut Core) -> Option<usize> {
    for (index, step) in STEPS.iter().enumerate() {
        if !is_caught_up(alloc, core, other, step) {
            return Some(index);
        }
    }
    None
}

/// Whether the two agree at each step.
fn are_caught_up(alloc: Global, core: &mut Core, other: &mut Core) -> bool {
    other_step(alloc, core, other).is_none() && core.links().len() == 1
}

/// Two new cores.
fn new_cores(alloc: Global) -> Result<(Core, Core), AllocError> {
    Ok((Core::new(alloc, 3)?, Core::new(alloc, 3)?))
}

/// Whether installs are so on new cores.
fn installs_hold(alloc: Global) -> bool {
    match new_cores(alloc) {
        Ok((mut core, mut other)) => are_installed(alloc, &mut core, &mut other),
        Err(_) => false,
    }
}

/// Whether catching up is so on new cores.
fn catching_up_holds(alloc: Global) -> bool {
    match new_cores(alloc) {
        Ok((mut core, mut other)) => are_caught_up(alloc, &mut core, &mut other),
        Err(_) => false,
    }
}

#[test]
fn installs_what_it_looks_up(rt: HostRuntime) {
    assert!(rt; installs_hold(rt.alloc()));
}

#[test]
fn catches_up_in_the_meantime(rt: HostRuntime) {
    assert!(rt; catching_up_holds(rt.alloc()));
}
