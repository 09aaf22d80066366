//! What a fresh server takes over from an old one, in which threads go on: what stays, its links, and the entries that come meanwhile. The old
//! server has forgotten what was past by then.

ghost use Rattle.std.specs.Prelude.{◌≡◌, []};
ghost use Rattle.jl_renewal.specs.Renewal.{IsPast};

use crate::acts::is_forgotten;
use crate::carrying::Comes::*;
use crate::deeds::Deed::Request;
use crate::deeds::{Deed, method};
use crate::workers::{Shared, Worker, receiver};
use jl_cache::KeptLink;
use jl_core::{Accepted, Entry};
use jl_names::Seq;
use jl_relink::World;
use jl_renewal::{Released, Renumbering, carry, fresh_links, install_all, refill};
use jl_server::{Book, Caller, LinkServer, Name, Past};
use jl_types::{Answer, CallSiteId, Fast, Limits, Link, Made, Refusal, SiteNo, SwitchId, Unlinked};
use std::alloc::{AllocError, Global};
use std::sync::Wait;

/// The answer to a call in the fresh server.
#[derive(Clone, Copy)]
pub(crate) enum Comes {
    /// The class's method of this number runs.
    Runs(u32, u16),
    IsNoReceiver,
    IsGone,
}

/// A call of a site, on an object of a class or on null, its answer, and whether it is answered at once.
#[derive(Clone, Copy)]
pub(crate) struct CallRow(
    pub(crate) u32,
    pub(crate) Option<u32>,
    pub(crate) Comes,
    pub(crate) bool,
);

/// The answer to the call.
fn answer(comes: Comes) -> Answer {
    match comes {
        Runs(class, index) => Answer::Run(method(class, index)),
        IsNoReceiver => Answer::BadReceiver,
        IsGone => Answer::Unlinked(Unlinked::Gone),
    }
}

/// Whether the call is answered so by the server, if that is asked, and at once by nothing else.
pub(crate) fn is_called<L: Name, R: Wait, S: Wait + Drop>(
    rt: &R,
    server: &LinkServer<L, S>,
    worker: &mut Worker<L>,
    row: &CallRow,
) -> bool {
    let CallRow(site, class, comes, at_once) = row;
    let answer = answer(*comes);
    let fast = worker.call(*site, *class);
    let (site, receiver) = (SiteNo::new(*site), receiver(*class));
    worker.caller.ask(rt, server, site, receiver) == answer
        && (fast == Fast::Now(answer) || !*at_once && fast == Fast::Miss)
}

/// Whether the old server accepts the first events, the request of a site in the class that the last of them defines, and the others.
pub(crate) fn adds<K: Name, R: Wait, S: Wait + Drop>(
    old: &Shared<'_, K, R, S>,
    worker: &mut Worker<K>,
    first: &[Deed],
    others: &[Deed],
) -> bool {
    let so = old.does_all(worker, first);
    let (_, made) = worker.last();
    match made {
        Made::Class(class) => {
            old.does(worker, &Request(class.number(), 0)) && old.does_all(worker, others) && so
        }
        _ => false,
    }
}

/// The call sites and the switch points of these numbers, which are let go.
fn released(alloc: Global, gone: &[u32]) -> Result<Released, AllocError> {
    let mut call_sites = Vec::new(alloc);
    let mut switches = Vec::new(alloc);
    for number in gone {
        call_sites.push(CallSiteId::new(*number))?;
        switches.push(SwitchId::new(*number))?;
    }
    Ok(Released {
        call_sites: Seq::of(call_sites),
        switches: Seq::of(switches),
    })
}

/// Gives the book what stays in the old server.
fn refilled<K: Name, L: Name, S: Wait + Drop>(
    alloc: Global,
    book: &mut Book<L, S>,
    past: &Past<K>,
    gone: &[u32],
    limits: Limits,
) -> Result<Renumbering, Refusal>
    requires past { IsPast past.now.world.world past.now.log }
    requires book { book.old ≡ [] }
    requires limits { limits ≡ L.limits }
{
    let released = released(alloc, gone)?;
    refill(
        alloc,
        book,
        past.world.world(),
        &past.log,
        &released,
        limits,
    )
}

/// Gives the book what stays in the old server, which has forgotten what is past, and tells how many events that server has accepted.
pub(crate) fn begin<K: Name, L: Name, R: Wait, S: Wait + Drop>(
    old: &Shared<'_, K, R, S>,
    caller: &mut Caller<K>,
    book: &mut Book<L, S>,
    gone: &[u32],
    limits: Limits,
) -> Option<(u64, Renumbering)>
    requires book { book.old ≡ [] }
    requires limits { limits ≡ L.limits }
{
    old.server.forget(old.rt);
    if !is_forgotten(old, caller, 0) {
        return None;
    }
    match &caller.past(old.rt, old.alloc, old.server) {
        Ok(past) => match refilled(old.alloc, book, past, gone, limits) {
            Ok(numbers) => Some((past.seen.serial(), numbers)),
            Err(_) => None,
        },
        Err(_) => None,
    }
}

/// Whether the sites among these that the book has get the links that they have there now.
fn are_installed<L: Name, S: Wait + Drop>(
    alloc: Global,
    book: &mut Book<L, S>,
    numbers: &Renumbering,
    linked: &[(SiteNo, Link)],
) -> bool {
    let rows = match &book.snapshot(alloc) {
        Ok((snapshot, _seen)) => fresh_links(alloc, snapshot.world(), linked, numbers),
        Err(_) => Err(AllocError),
    };
    match &rows {
        Ok(rows) => install_all(alloc, book, rows.as_slice()).is_ok(),
        Err(_) => false,
    }
}

/// Whether the links that the old server has come over.
pub(crate) fn links_come<K: Name, L: Name, R: Wait, S: Wait + Drop>(
    old: &Shared<'_, K, R, S>,
    caller: &mut Caller<K>,
    book: &mut Book<L, S>,
    numbers: &Renumbering,
) -> bool {
    match &old.server.links(old.rt, old.alloc, caller) {
        Ok(list) => are_installed(old.alloc, book, numbers, list.rows.as_slice()),
        Err(_) => false,
    }
}

/// Adds a row.
fn put<T: Drop>(rows: &mut Vec<T>, row: T) -> Result<(), AllocError> {
    rows.push(row)?;
    Ok(())
}

/// The sites of an install with their links.
fn plain_rows(
    alloc: Global,
    rows: &[(SiteNo, KeptLink)],
) -> Result<Vec<(SiteNo, Link)>, AllocError> {
    let mut plain = Vec::with_capacity(alloc, rows.len())?;
    for row in rows {
        put(&mut plain, (row.0, row.1.get()))?;
    }
    Ok(plain)
}

/// Whether the entry is carried over, an install by the links that its sites have in the book then.
fn is_carried<L: Name, S: Wait + Drop>(
    alloc: Global,
    book: &mut Book<L, S>,
    numbers: &mut Renumbering,
    world: &World,
    entry: &Entry,
) -> bool {
    let event = entry.event();
    match event.get() {
        Accepted::Install(rows) => match &plain_rows(alloc, rows.as_slice()) {
            Ok(rows) => are_installed(alloc, book, numbers, rows.as_slice()),
            Err(_) => false,
        },
        _ => carry(alloc, book, numbers, world, entry).is_ok(),
    }
}

/// Whether all these entries are carried over.
fn are_carried<L: Name, S: Wait + Drop>(
    alloc: Global,
    book: &mut Book<L, S>,
    numbers: &mut Renumbering,
    world: &World,
    entries: &[Entry],
) -> bool {
    let mut all = true;
    for entry in entries {
        all = is_carried(alloc, book, numbers, world, entry) && all;
    }
    all
}

/// Whether all entries after the first so many are carried over. That is how many there are then.
pub(crate) fn carries<K: Name, L: Name, R: Wait, S: Wait + Drop>(
    old: &Shared<'_, K, R, S>,
    caller: &mut Caller<K>,
    book: &mut Book<L, S>,
    numbers: &mut Renumbering,
    from: &mut u64,
) -> bool {
    match &caller.entries(old.rt, old.alloc, old.server, *from) {
        Ok(since) => {
            *from = since.seen.serial();
            are_carried(
                old.alloc,
                book,
                numbers,
                since.world.world(),
                since.entries.as_slice(),
            )
        }
        Err(_) => false,
    }
}

/// Whether each site of the old rows has the number of the fresh row in its place.
fn are_sites(old: &[(SiteNo, Link)], fresh: &[(SiteNo, Link)], numbers: &Renumbering) -> bool {
    let mut all = true;
    for (was, is) in old.iter().zip(fresh) {
        all = numbers.site(was.0) == Some(is.0) && all;
    }
    all
}

/// Whether after so many entries the old server has so many links, and the book has one at just the same sites.
pub(crate) fn have_links<K: Name, L: Name, R: Wait, S: Wait + Drop>(
    old: &Shared<'_, K, R, S>,
    caller: &mut Caller<K>,
    book: &Book<L, S>,
    numbers: &Renumbering,
    from: u64,
    count: usize,
) -> bool {
    match (
        &old.server.links(old.rt, old.alloc, caller),
        &book.links(old.alloc),
    ) {
        (Ok(list), Ok(links)) => {
            let (was, is) = (list.rows.as_slice(), links.as_slice());
            list.serial == from
                && was.len() == count
                && is.len() == count
                && are_sites(was, is, numbers)
        }
        _ => false,
    }
}
