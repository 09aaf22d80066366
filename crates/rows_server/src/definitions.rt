//! Definitions below a class whose method is called at installed sites: four threads define, and two others link and call meanwhile.

use crate::deeds::Class::*;
use crate::deeds::Deed::*;
use crate::deeds::{Deed, method};
use crate::workers::{Shared, Told, Worker, receiver};
use jl_relink::{Snapshot, dispatch};
use jl_server::Name;
use jl_types::{Answer, Fast, Link, Made, Outcome, SiteNo};
use std::sync::Wait;
use std::sync::atomic::{AtomicU64, Ordering};

/// So many threads define; they are the first ones.
pub(crate) const WRITERS: usize = 4;

/// The classes that each of them defines, if some of them override the method.
const ROUNDS: u32 = 500;

/// The classes that each of them defines, if none does.
const PLAIN_ROUNDS: u32 = 125;

/// If classes override the method, those of one round in so many do.
const STRETCH: u32 = 125;

/// The first such round. By then there are more than eight classes, too many for a table; and a link is looked up class by class until
/// one differs, so it comes early.
const OVERRIDING_ROUND: u32 = 8;

/// How many sites there are.
const SITES: u32 = 64;

/// All sites.
const ALL: &[u32] = &[
    0, 1, 2, 3, 4, 5, 6, 7, 8, 9, 10, 11, 12, 13, 14, 15, 16, 17, 18, 19, 20, 21, 22, 23, 24, 25,
    26, 27, 28, 29, 30, 31, 32, 33, 34, 35, 36, 37, 38, 39, 40, 41, 42, 43, 44, 45, 46, 47, 48, 49,
    50, 51, 52, 53, 54, 55, 56, 57, 58, 59, 60, 61, 62, 63,
];

/// The install of all of them.
const INSTALL: &Deed = &Install(u64::MAX);

/// What comes before, with the request of each site and their install.
pub(crate) const BEFORE: &[Deed] = &[Define(0, Object), Define(0, A), Define(0, Many)];

/// Whether the first caller requests all sites and installs them.
pub(crate) fn request_all<K: Name, R: Wait, S: Wait + Drop>(
    shared: &Shared<'_, K, R, S>,
    workers: &mut [Worker<K>],
) -> bool {
    let Some(first) = workers.first_mut() else {
        return false;
    };
    let mut all = true;
    for site in 0..SITES {
        all = shared.does(first, &Request(2, site.wrapping_mul(3))) && all;
    }
    shared.does(first, INSTALL) && all
}

/// How many classes each of the threads defines.
fn rounds(overriding: bool) -> u32 {
    if overriding { ROUNDS } else { PLAIN_ROUNDS }
}

/// Tells the others of the class, and gives whether there is one.
fn tell(newest: &AtomicU64, made: Made) -> bool {
    match made {
        Made::Class(class) => {
            newest.store(u64::from(class.number()), Ordering::SeqCst);
            true
        }
        _ => false,
    }
}

/// Defines the class, and tells the others of it.
pub(crate) fn define<K: Name, R: Wait, S: Wait + Drop>(
    shared: &Shared<'_, K, R, S>,
    worker: &mut Worker<K>,
    number: u32,
    overrides: bool,
) {
    let is_defined = shared.does(worker, &Below(number, overrides));
    let (_, made) = worker.last();
    let is_told = if overrides {
        tell(&shared.overrider, made)
    } else {
        tell(&shared.plain, made)
    };
    worker.expect(is_defined && is_told);
}

/// Defines the classes of the writer of this number.
pub(crate) fn define_all<K: Name, R: Wait, S: Wait + Drop>(
    shared: &Shared<'_, K, R, S>,
    worker: &mut Worker<K>,
    writer: usize,
    overriding: bool,
) {
    let writer = u32::try_from(writer).unwrap_or(u32::MAX);
    let mut number = writer.wrapping_mul(ROUNDS);
    for round in 0..rounds(overriding) {
        define(
            shared,
            worker,
            number,
            overriding && round % STRETCH == OVERRIDING_ROUND,
        );
        number = number.wrapping_add(1);
    }
    shared.come.fetch_add(1, Ordering::SeqCst);
}

/// The class that was told last, or 0.
pub(crate) fn newest(told: &AtomicU64) -> u32 {
    u32::try_from(told.load(Ordering::SeqCst)).unwrap_or(0)
}

/// That the class's own method runs.
fn runs(class: u32) -> Answer {
    Answer::Run(method(class, 0))
}

/// Whether a call on an object of the class, if there is one, runs the other class's method or misses.
pub(crate) fn is_legal<K: Name>(
    worker: &mut Worker<K>,
    site: u32,
    class: u32,
    runner: u32,
) -> bool {
    if class == 0 {
        return true;
    }
    let answer = worker.call(site, Some(class));
    answer == Fast::Miss || answer == Fast::Now(runs(runner))
}

/// Whether calls of the site run A.f on an A, unless they miss, and on objects of the newest classes what these run. If nothing
/// overrides A.f its link stays, so that no call on an A misses.
pub(crate) fn are_legal<K: Name, R: Wait, S: Wait + Drop>(
    shared: &Shared<'_, K, R, S>,
    worker: &mut Worker<K>,
    site: u32,
    overriding: bool,
) -> bool {
    let plain = newest(&shared.plain);
    let overrider = newest(&shared.overrider);
    let answer = worker.call(site, Some(1));
    (answer == Fast::Now(runs(1)) || (overriding && answer == Fast::Miss))
        && is_legal(worker, site, plain, 1)
        && is_legal(worker, site, overrider, overrider)
}

/// Links and calls, until all is defined.
pub(crate) fn link_all<K: Name, R: Wait, S: Wait + Drop>(
    shared: &Shared<'_, K, R, S>,
    worker: &mut Worker<K>,
    overriding: bool,
) {
    let mut turn = 0u32;
    for _ in shared.rt.forever() {
        let is_last = shared.come.load(Ordering::SeqCst) >= WRITERS as u64;
        // Eight of them at a time.
        let eight = 0xffu64.wrapping_shl((turn % 8).wrapping_mul(8));
        let _installed = shared.does(worker, &Install(eight));
        let so = are_legal(shared, worker, turn % SITES, overriding);
        worker.expect(so);
        if is_last {
            break;
        }
        turn = turn.wrapping_add(1);
    }
}

/// The answer to a call on an object of the class: the one at once, or, if that is a miss, the one in the snapshot.
fn answer<K: Name>(worker: &mut Worker<K>, snapshot: &Snapshot, site: u32, class: u32) -> Answer {
    match worker.call(site, Some(class)) {
        Fast::Now(answer) => answer,
        _ => dispatch(snapshot.world(), SiteNo::new(site), receiver(Some(class))),
    }
}

/// Whether calls of each site run A.f on an A and on an object of a class that doesn't override it, and the overriding method on one of a
/// class that does, if there is one.
fn run_the_right_method<K: Name>(
    worker: &mut Worker<K>,
    snapshot: &Snapshot,
    plain: u32,
    overrider: u32,
) -> bool {
    let mut all = true;
    for site in 0..SITES {
        all = answer(worker, snapshot, site, 1) == runs(1)
            && answer(worker, snapshot, site, plain) == runs(1)
            && (overrider == 0 || answer(worker, snapshot, site, overrider) == runs(overrider))
            && all;
    }
    all
}

/// The link of each site: a call looks at the classes if one of them overrides A.f, since they are too many for a table, and runs it at
/// once if none does.
fn link(overriding: bool) -> Link {
    if overriding {
        Link::Mega
    } else {
        Link::Direct(Outcome::Run(method(1, 0)))
    }
}

/// Whether all sites are linked and called as they must be, once the first caller has installed them again.
pub(crate) fn are_called<K: Name, R: Wait, S: Wait + Drop>(
    shared: &Shared<'_, K, R, S>,
    workers: &mut [Worker<K>],
    overriding: bool,
) -> bool {
    let Some(first) = workers.first_mut() else {
        return false;
    };
    let plain = newest(&shared.plain);
    let overrider = newest(&shared.overrider);
    if !shared.does(first, INSTALL) || overriding != (overrider > 0) {
        return false;
    }
    match shared.snapshot(&mut first.caller) {
        Some(snapshot) => {
            shared.are_linked(&mut first.caller, ALL, &link(overriding))
                && run_the_right_method(first, &snapshot, plain, overrider)
        }
        None => false,
    }
}

/// Whether there are at least as many events as there must be: 68 before the threads begin, their classes, an install of each of the
/// two that link once all is defined, and the last one. And whether each site's link went once, at the first class that overrides A.f.
pub(crate) fn are_enough(told: &[Told], overriding: bool) -> bool {
    let least = (rounds(overriding) as usize)
        .saturating_mul(4)
        .saturating_add(71);
    let mut dropped = 0usize;
    for told in told {
        dropped = dropped.saturating_add(told.reply.dropped.as_slice().len());
    }
    told.len() >= least && dropped == if overriding { SITES as usize } else { 0 }
}
