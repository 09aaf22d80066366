//! What several threads prepare is what one does.

use crate::worlds::{SITES, Shape, WITHOUT_LINK, sites, snapshot};
use jl_relink::{Prepared, Probe, Snapshot, prepare, prepare_wide, prepare_wide_seen};
use jl_types::{Link, Outcome, PrepareFault, SiteNo, TableKind};
use std::alloc::{AllocError, Global};
use std::sync::atomic::{AtomicU64, Ordering};
use std::test::Fail;
use std::thread::Threads;

/// The shape of a world, its receivers, the link of its sites, and how many pairs are looked at.
type Row = (Shape, u32, Kind, u64);

/// What kind of link each site has.
#[derive(Clone, Copy, PartialEq)]
enum Kind {
    Direct,
    Virtual,
    Interface,
    Mega,
    Other,
}

const ROWS: &[Row] = &[
    (Shape::Flat, 64, Kind::Direct, 0),
    (Shape::Chain, 64, Kind::Direct, 0),
    (Shape::Beside, 64, Kind::Direct, 16_384),
    (Shape::Own, 64, Kind::Mega, 16_384),
    (Shape::Own, 3, Kind::Virtual, 768),
    (Shape::Own, 8, Kind::Virtual, 2_048),
    (Shape::Own, 9, Kind::Mega, 2_304),
    (Shape::Implementers, 8, Kind::Interface, 2_048),
    (Shape::Implementers, 9, Kind::Mega, 0),
    (Shape::Implementers, 64, Kind::Mega, 0),
];

/// So many pairs and more may be looked at by several threads.
const WIDE: u64 = 1_024;

/// What was told of one place.
#[derive(Drop)]
struct Place {
    times: AtomicU64,
    /// How many places were told before.
    turn: AtomicU64,
}

/// Keeps each place that it is told, and how many it is told.
#[derive(Drop)]
struct Places {
    places: Vec<Place>,
    told: AtomicU64,
}

impl Places {
    /// Has room for so many places.
    fn new(alloc: Global, count: u64) -> Result<Places, AllocError> {
        let mut places = Vec::new(alloc);
        for _ in 0..count {
            places.push(Place {
                times: AtomicU64::new(0),
                turn: AtomicU64::new(0),
            })?;
        }
        Ok(Places {
            places,
            told: AtomicU64::new(0),
        })
    }

    /// Whether it was told as many places as it has room for, each of them once; in their order if one thread looks at all.
    fn are_each_once(&self) -> bool {
        let count = self.places.len() as u64;
        let mut all = self.told.load(Ordering::SeqCst) == count;
        for (number, place) in self.places.iter().enumerate() {
            let in_turn = place.turn.load(Ordering::SeqCst) == number as u64;
            all = all && place.times.load(Ordering::SeqCst) == 1 && (in_turn || count >= WIDE);
        }
        all
    }
}

impl Probe for Places {
    fn at(&self, place: usize) {
        let turn = self.told.fetch_add(1, Ordering::SeqCst);
        if let Some(place) = self.places.get(place) {
            place.times.fetch_add(1, Ordering::SeqCst);
            place.turn.store(turn, Ordering::SeqCst);
        }
    }
}

/// The kind of a link.
fn kind_of(link: &Link) -> Kind {
    match link {
        Link::Direct(Outcome::Run(_)) => Kind::Direct,
        Link::Direct(Outcome::Throws(_)) => Kind::Other,
        Link::Table(TableKind::Virtual, _) => Kind::Virtual,
        Link::Table(TableKind::Interface, _) => Kind::Interface,
        Link::Mega => Kind::Mega,
        Link::Fault(_) => Kind::Other,
        Link::Plain(_) => Kind::Other,
    }
}

/// Whether a preparation gives these rows, and the same number of events.
fn gives(prepared: Result<Prepared, PrepareFault>, alone: &Prepared) -> bool {
    let Ok(prepared) = prepared else {
        return false;
    };
    let rows = prepared.rows.as_slice();
    let mut all = prepared.serial == alone.serial && rows.len() == alone.rows.as_slice().len();
    for (row, want) in rows.iter().zip(alone.rows.as_slice()) {
        all = all && row == want;
    }
    all
}

/// Whether both forms give these rows, and look at so many pairs, at each once.
fn both_give(
    rt: &(impl Threads + Sync),
    alloc: Global,
    snapshot: &Snapshot,
    sites: &[SiteNo],
    alone: &Prepared,
    pairs: u64,
) -> bool {
    let Ok(places) = Places::new(alloc, pairs) else {
        return false;
    };
    let seen = gives(
        prepare_wide_seen(rt, alloc, snapshot, sites, &places),
        alone,
    );
    seen && places.are_each_once() && gives(prepare_wide(rt, alloc, snapshot, sites), alone)
}

/// Whether both forms give what a preparation by one thread gives for all sites of a snapshot, whose links are of the row's kind.
fn is_of(
    rt: &(impl Threads + Sync),
    alloc: Global,
    snapshot: &Snapshot,
    sites: &[SiteNo],
    row: &Row,
) -> bool {
    let Ok(alone) = prepare(alloc, snapshot, sites) else {
        return false;
    };
    let mut all = alone.rows.as_slice().len() == SITES as usize;
    for prepared in alone.rows.as_slice() {
        all = all && kind_of(&prepared.1) == row.2;
    }
    all && both_give(rt, alloc, snapshot, sites, &alone, row.3)
}

/// Whether all forms give what the row says.
fn is_so(rt: &(impl Threads + Sync), alloc: Global, row: &Row) -> bool {
    let Some(snapshot) = snapshot(alloc, row.0, row.1) else {
        return false;
    };
    match sites(alloc, SITES) {
        Ok(sites) => is_of(rt, alloc, &snapshot, sites.as_slice(), row),
        Err(_) => false,
    }
}

#[test]
fn gives_equal_rows(rt: HostRuntime) -> Result<(), Fail> {
    for row in ROWS {
        assert!(rt; is_so(&rt, rt.alloc(), row));
    }
    Ok(())
}

/// How many sites from 0 on, one site more, and what refuses them.
const REFUSED: &[(u32, u32, Refused)] = &[
    (256, 0, Refused::BatchSize),
    (255, 3, Refused::Repeated),
    (255, 300, Refused::UnknownSite),
    (255, WITHOUT_LINK, Refused::NotReady),
];

/// A fault, without its site.
#[derive(Clone, Copy)]
enum Refused {
    BatchSize,
    Repeated,
    UnknownSite,
    NotReady,
}

/// Whether a preparation has this fault.
fn fails(prepared: Result<Prepared, PrepareFault>, fault: &PrepareFault) -> bool {
    prepared.err() == Some(*fault)
}

/// Whether all forms have this fault, and look at no pair.
fn all_fail(
    rt: &(impl Threads + Sync),
    alloc: Global,
    snapshot: &Snapshot,
    sites: &[SiteNo],
    fault: &PrepareFault,
) -> bool {
    let Ok(none) = Places::new(alloc, 0) else {
        return false;
    };
    fails(prepare(alloc, snapshot, sites), fault)
        && fails(prepare_wide(rt, alloc, snapshot, sites), fault)
        && fails(prepare_wide_seen(rt, alloc, snapshot, sites, &none), fault)
        && none.are_each_once()
}

/// Whether all forms refuse so many sites from 0 on, and this one more.
fn is_refused(
    rt: &(impl Threads + Sync),
    alloc: Global,
    snapshot: &Snapshot,
    row: &(u32, u32, Refused),
) -> bool {
    let last = SiteNo::new(row.1);
    let fault = match row.2 {
        Refused::BatchSize => PrepareFault::BatchSize,
        Refused::Repeated => PrepareFault::Repeated(last),
        Refused::UnknownSite => PrepareFault::UnknownSite(last),
        Refused::NotReady => PrepareFault::NotReady(last),
    };
    match sites(alloc, row.0) {
        Ok(mut sites) => {
            sites.push(last).is_ok() && all_fail(rt, alloc, snapshot, sites.as_slice(), &fault)
        }
        Err(_) => false,
    }
}

/// Whether all forms refuse each row.
fn all_are_refused(rt: &(impl Threads + Sync), alloc: Global) -> bool {
    match snapshot(alloc, Shape::Flat, 2) {
        Some(snapshot) => REFUSED
            .iter()
            .all(|row| is_refused(rt, alloc, &snapshot, row)),
        None => false,
    }
}

#[test]
fn refuses_alike(rt: HostRuntime) -> Result<(), Fail> {
    assert!(rt; all_are_refused(&rt, rt.alloc()));
    Ok(())
}
