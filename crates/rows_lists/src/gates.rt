//! A probe that holds one pair back until another one was seen, so that two threads have to look at them. It wants a machine of
//! two processors or more. If `LEAST_PIECE` of jl_relink is over 16,384, one thread looks at all pairs in order, and the first test fails.

use crate::worlds::{SITES, Shape, sites, snapshot};
use jl_relink::{Probe, Snapshot, prepare_wide_seen};
use std::alloc::Global;
use std::sync::atomic::{AtomicU64, Ordering};
use std::test::Fail;
use std::thread::Threads;

/// The receivers of each site, and the place of the last pair.
const RECEIVERS: u32 = 64;

const LAST: usize = 16_383;

/// How often a hold looks before it gives up.
const LOOKS: u64 = 200_000_000;

/// Holds one pair back until another one was seen, and counts the pairs.
#[derive(Drop)]
struct Hold {
    held: usize,
    until: usize,
    seen: AtomicU64,
    gave_up: AtomicU64,
    count: AtomicU64,
}

impl Probe for Hold {
    fn at(&self, place: usize) {
        self.count.fetch_add(1, Ordering::SeqCst);
        if place == self.until {
            self.seen.store(1, Ordering::SeqCst);
        }
        if place == self.held {
            for _ in 0..LOOKS {
                if self.seen.load(Ordering::SeqCst) == 1 {
                    return;
                }
            }
            self.gave_up.store(1, Ordering::SeqCst);
        }
    }
}

/// Whether one pair, held until another one is looked at, is met by it, and each pair is looked at once.
fn meets(
    rt: &(impl Threads + Sync),
    alloc: Global,
    snapshot: &Snapshot,
    held: usize,
    until: usize,
) -> bool {
    let hold = Hold {
        held,
        until,
        seen: AtomicU64::new(0),
        gave_up: AtomicU64::new(0),
        count: AtomicU64::new(0),
    };
    let Ok(sites) = sites(alloc, SITES) else {
        return false;
    };
    match prepare_wide_seen(rt, alloc, snapshot, sites.as_slice(), &hold) {
        Ok(prepared) => {
            prepared.rows.as_slice().len() == SITES as usize
                && hold.gave_up.load(Ordering::SeqCst) == 0
                && hold.count.load(Ordering::SeqCst) == LAST as u64 + 1
        }
        Err(_) => false,
    }
}

/// Whether the pair that is held is met by the other one, and each pair is looked at once, in a world of `RECEIVERS` receivers.
fn meets_in_it(rt: &(impl Threads + Sync), alloc: Global, held: usize, until: usize) -> bool {
    match snapshot(alloc, Shape::Beside, RECEIVERS) {
        Some(snapshot) => meets(rt, alloc, &snapshot, held, until),
        None => false,
    }
}

#[test]
fn first_waits_for_last(rt: HostRuntime) -> Result<(), Fail> {
    assert!(rt; meets_in_it(&rt, rt.alloc(), 0, LAST));
    Ok(())
}

#[test]
fn last_waits_for_first(rt: HostRuntime) -> Result<(), Fail> {
    assert!(rt; meets_in_it(&rt, rt.alloc(), LAST, 0));
    Ok(())
}
