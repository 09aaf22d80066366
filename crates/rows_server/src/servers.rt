//! The tests, each on servers of its own. What was accepted in most of them is done once more by one core, and then the server goes.

ghost use Rattle.std.specs.Prelude.{◌≡◌, ◌≤◌};

use crate::acts::{acts, calls_both};
use crate::deeds::{DYNAMIC, Deed};
use crate::definitions::{BEFORE, are_called, request_all};
use crate::farms::{BETWEEN, DURING, Farm, MEETING, MIXED, is_farm};
use crate::races::race_of;
use crate::replays::{ALL, are_dense, gathered, is_replayed, storm};
use crate::rows::{FULL, ROWS, Row, is_row};
use crate::scripts::Part;
use crate::scripts::Says::IsClosed;
use crate::workers::{Shared, Told, Worker, employ};
use crate::{definitions, replays};
use jl_server::{LinkServer, Name, Parts};
use jl_types::{Fast, Limits};
use rows_threads::{Round, at_once};
use std::alloc::{AllocError, Global};
use std::marker::Brand;
use std::process::Abort;
use std::sync::atomic::AtomicU64;
use std::sync::{Mutex, Wait};
use std::thread::Threads;

/// How often a race is run.
const RACES: usize = 1000;

/// How often a farm runs whose threads are to meet in many ways.
const FARMS: usize = 100;

/// The limits of a server that reaches each of them.
const FEW: Limits = Limits {
    sites: 1,
    loaders: 2,
    classes: 3,
    call_sites: 1,
    switches: 1,
};

/// What is done on a new server.
#[derive(Clone, Copy)]
enum Test {
    /// The row of two callers.
    Row(&'static Row),
    /// The row of two callers of a server that reaches its limits.
    Full,
    /// The race about the retirement, or about the definition.
    Race(bool),
    /// The farm of so many workers.
    Farm(usize, &'static Farm),
    /// The storm, and then a farm of three workers while one thread retargets.
    Storm,
    /// Classes are defined of which some override the method, or none does.
    Definitions(bool),
}

/// How many callers there are: beside a farm's workers one that prepares all, and one that retargets.
fn callers_of(test: Test) -> usize
    ensures { (1 ≤ result) × (result ≤ 64) }
{
    match test {
        Test::Row(_) | Test::Full | Test::Race(_) => 2,
        Test::Farm(workers, _) => if workers < 17 { workers + 2 } else { 2 },
        Test::Storm => 9,
        Test::Definitions(_) => 6,
    }
}

impl<'a, K: Name, R: Wait, S: Wait + Drop> Round<Worker<K>> for Shared<'a, K, R, S> {
    fn turn(&self, index: usize, worker: &mut Worker<K>) {
        match self.part {
            Part::Nothing => {}
            Part::Race(retires) => {
                let race = race_of(retires);
                let all = if index == 0 { race.first } else { race.second };
                for act in all {
                    let so = acts(self, worker, act);
                    worker.expect(so);
                }
            }
            Part::Storm => storm(self, worker, index),
            Part::Definitions(overriding) => {
                if index < definitions::WRITERS {
                    definitions::define_all(self, worker, index, overriding);
                } else {
                    definitions::link_all(self, worker, overriding);
                }
            }
        }
    }
}

/// Does all that the threads do.
fn run<K: Name + Send + Sync, R: Threads + Wait + Sync, S: Wait + Drop + Send + Sync>(
    shared: &Shared<'_, K, R, S>,
    workers: &mut [Worker<K>],
) {
    at_once(shared.rt, shared, workers);
}

/// Whether the first caller does all of this.
fn begins<K: Name, R: Wait, S: Wait + Drop>(
    shared: &Shared<'_, K, R, S>,
    workers: &mut [Worker<K>],
    deeds: &[Deed],
) -> bool {
    match workers.first_mut() {
        Some(first) => shared.does_all(first, deeds),
        None => false,
    }
}

/// Does what comes before the threads, and tells whether it was so.
fn is_begun<K: Name, R: Wait, S: Wait + Drop>(
    shared: &Shared<'_, K, R, S>,
    workers: &mut [Worker<K>],
    test: Test,
) -> bool {
    match test {
        Test::Row(_) | Test::Full => true,
        Test::Race(retires) => begins(shared, workers, race_of(retires).before),
        Test::Farm(_, farm) => begins(shared, workers, farm.before()),
        Test::Storm => begins(shared, workers, DYNAMIC) && begins(shared, workers, &[*ALL]),
        Test::Definitions(_) => begins(shared, workers, BEFORE) && request_all(shared, workers),
    }
}

/// Whether what comes after the threads is so. The first caller is left, or both of a row.
fn is_done<K: Name + Send + Sync, R: Threads + Wait + Sync, S: Wait + Drop + Send + Sync>(
    shared: &Shared<'_, K, R, S>,
    workers: &mut Vec<Worker<K>>,
    test: Test,
) -> bool {
    match test {
        Test::Row(row) => is_row(shared, workers.as_mut_slice(), row),
        Test::Full => is_row(shared, workers.as_mut_slice(), FULL),
        Test::Race(_) => true,
        Test::Farm(count, farm) => is_farm(shared, workers, count, farm),
        Test::Storm => is_farm(shared, workers, 3, DURING),
        Test::Definitions(overriding) => are_called(shared, workers, overriding),
    }
}

/// Whether all that was accepted has the serials from 1 on, and gives the same in one core, or is as much as it must be.
fn is_told<K: Name, R: Wait, S: Wait + Drop>(
    shared: &Shared<'_, K, R, S>,
    worker: &mut Worker<K>,
    test: Test,
    told: &[Told],
) -> bool {
    let so = match test {
        Test::Race(_) => true,
        Test::Definitions(overriding) => definitions::are_enough(told, overriding),
        Test::Storm => replays::are_enough(told) && is_replayed(shared, worker, told),
        _ => is_replayed(shared, worker, told),
    };
    so && are_dense(told)
}

/// Whether all that these were told to be accepted is so.
fn are_told<K: Name, R: Wait, S: Wait + Drop>(
    shared: &Shared<'_, K, R, S>,
    workers: &mut [Worker<K>],
    test: Test,
) -> bool {
    match (&gathered(shared.alloc, workers), workers.first_mut()) {
        (Some(told), Some(first)) => is_told(shared, first, test, told.as_slice()),
        _ => false,
    }
}

/// Whether the test is so.
fn holds<K: Name + Send + Sync, R: Threads + Wait + Sync, S: Wait + Drop + Send + Sync>(
    rt: &R,
    alloc: Global,
    server: &LinkServer<K, S>,
    workers: &mut Vec<Worker<K>>,
    test: Test,
) -> bool {
    let part = match test {
        Test::Race(retires) => Part::Race(retires),
        Test::Storm => Part::Storm,
        Test::Definitions(overriding) => Part::Definitions(overriding),
        _ => Part::Nothing,
    };
    let shared = Shared {
        rt,
        alloc,
        server,
        part,
        told: Mutex::new(None),
        come: AtomicU64::new(0),
        plain: AtomicU64::new(0),
        overrider: AtomicU64::new(0),
    };
    let begun = is_begun(&shared, workers.as_mut_slice(), test);
    run(&shared, workers.as_mut_slice());
    begun && is_done(&shared, workers, test) && are_told(&shared, workers.as_mut_slice(), test)
}

/// Whether the callers' calls are closed.
fn are_closed<K: Name>(workers: &mut [Worker<K>]) -> bool {
    let mut all = true;
    for worker in workers {
        all = worker.call(0, None) == Fast::Closed
            && calls_both(&mut worker.caller, IsClosed, IsClosed)
            && all;
    }
    all
}

/// Whether the test is so, on the server, and calls are closed from its end on.
fn is_so_on<K: Name + Send + Sync, R: Threads + Wait + Sync, S: Wait + Drop + Send + Sync>(
    rt: &R,
    alloc: Global,
    server: LinkServer<K, S>,
    workers: Result<Vec<Worker<K>>, AllocError>,
    test: Test,
) -> bool {
    match workers {
        Ok(mut workers) => {
            let so = holds(rt, alloc, &server, &mut workers, test);
            drop(server);
            so && are_closed(workers.as_mut_slice())
        }
        Err(_) => false,
    }
}

/// Whether the test is so, on the server of these parts, and calls are closed from its end on.
fn is_so<K: Name + Send + Sync, R: Threads + Wait + Sync>(
    rt: &R,
    alloc: Global,
    parts: Parts,
    test: Test,
) -> bool
    requires book { parts.book ≡ K.book }
    requires limits { parts.limits ≡ K.limits }
{
    match parts.start::<K, &R>(alloc, rt) {
        Ok((server, callers)) => is_so_on(rt, alloc, server, employ(alloc, callers), test),
        Err(_) => false,
    }
}

/// The limits of the test's server.
fn limits_of(test: Test) -> Limits {
    match test {
        Test::Full => FEW,
        _ => Limits::fixed(64),
    }
}

/// Whether the test is so on a new server.
fn is_right<R: Threads + Wait + Sync>(rt: &R, alloc: Global, test: Test) -> bool {
    let limits = limits_of(test);
    if !limits.are_allowed() {
        return false;
    }
    match Parts::with_limits(alloc, limits, callers_of(test)) {
        Ok(parts) => is_so::<Brand, R>(rt, alloc, parts, test),
        Err(_) => false,
    }
}

#[test]
fn two_callers(rt: HostRuntime) {
    for (index, row) in ROWS.iter().enumerate() {
        assert!(rt; is_right(&rt, rt.alloc(), Test::Row(row)), "{index}");
    }
}

#[test]
fn refuses_what_is_over_its_limits(rt: HostRuntime) {
    assert!(rt; is_right(&rt, rt.alloc(), Test::Full));
}

#[test]
fn never_runs_the_method_of_before(rt: HostRuntime) {
    for turn in 0..RACES {
        assert!(rt; is_right(&rt, rt.alloc(), Test::Race(false)), "{turn}");
    }
}

#[test]
fn misses_at_a_retired_site(rt: HostRuntime) {
    for turn in 0..RACES {
        assert!(rt; is_right(&rt, rt.alloc(), Test::Race(true)), "{turn}");
    }
}

#[test]
fn links_stay_where_nothing_overrides(rt: HostRuntime) {
    assert!(rt; is_right(&rt, rt.alloc(), Test::Definitions(false)));
}

#[test]
fn links_go_once_where_classes_override(rt: HostRuntime) {
    assert!(rt; is_right(&rt, rt.alloc(), Test::Definitions(true)));
}

#[test]
fn one_core_does_the_same(rt: HostRuntime) {
    assert!(rt; is_right(&rt, rt.alloc(), Test::Storm));
}

#[test]
fn reports_each_job(rt: HostRuntime) {
    for workers in [1usize, 2, 4, 16] {
        assert!(rt;
            is_right(&rt, rt.alloc(), Test::Farm(workers, MIXED)),
            "{workers}"
        );
    }
}

#[test]
fn stale_once_its_call_site_is_retargeted(rt: HostRuntime) {
    for (index, farm) in BETWEEN.iter().enumerate() {
        for workers in [1usize, 2, 4] {
            assert!(rt;
                is_right(&rt, rt.alloc(), Test::Farm(workers, farm)),
                "{index} {workers}"
            );
        }
    }
}

/// Two workers and more: jobs at the same time.
#[test]
fn runs_jobs_at_the_same_time(rt: HostRuntime) {
    for turn in 0..FARMS {
        for (workers, farm) in MEETING {
            assert!(rt;
                is_right(&rt, rt.alloc(), Test::Farm(*workers, farm)),
                "{turn}"
            );
        }
    }
}
