//! Ten servers, one after another: each goes over to a fresh one while events come, in one thread. Who opens a server picks its name, and no
//! function may call itself with another name than its own. So what is done with a fresh server is part of the type of what is done with
//! the old one.

ghost use Rattle.std.specs.Prelude.{◌≡◌, []};

use crate::carrying::Comes::*;
use crate::carrying::{CallRow, adds, begin, carries, have_links, is_called, links_come};
use crate::deeds::Class::*;
use crate::deeds::Deed;
use crate::deeds::Deed::*;
use crate::scripts::Part;
use crate::workers::{Shared, Worker, employ};
use jl_server::{Book, Caller, LinkServer, Name, Parts};
use jl_types::Limits;
use std::alloc::Global;
use std::marker::{Brand, PhantomData};
use std::process::Abort;
use std::sync::atomic::AtomicU64;
use std::sync::{Mutex, Wait};

/// How many sites may be requested.
const SITES: u32 = 8;

/// How often a server goes over to a fresh one.
const RENEWALS: u32 = 9;

/// What the first server has: M 3 by loader 1, which goes, and M 4 by loader 2 with site 1. Call site 0 runs T's method 2, since switch point
/// 0 is invalid, and call site 1 its method 1.
const FIRST: &[Deed] = &[
    Define(0, Object),
    Define(0, A),
    Define(0, T),
    Loader,
    Delegate(1, Object),
    Delegate(1, A),
    Define(1, M),
    Request(3, 0),
    Loader,
    Delegate(2, Object),
    Delegate(2, A),
    Define(2, M),
    Request(4, 0),
    Switch,
    Switch,
    Guarded(0, 2),
    Guarded(1, 2),
    Install(2),
    Invalidate(0),
    Retire(1),
];

/// What each server is asked while the next one is filled, after a class below A that overrides A.f: loader 3 defines another M.
const BETWEEN: &[Deed] = &[Loader, Delegate(3, Object), Delegate(3, A), Define(3, M)];

/// The rest of it, once that M's site is requested, which is 2. Loader 2 goes, and there are call site 2 and switch point 2, as there were 1
/// before.
const THEN: &[Deed] = &[Switch, Guarded(2, 2), Invalidate(1), Install(4), Retire(2)];

/// The call site and the switch point of this number are let go each time, so that the others get the numbers that the first server had.
const GONE: &[u32] = &[0];

/// Of M's sites one is linked then.
const LINKS: usize = 1;

/// What the last server is asked: both call sites are bound.
const LAST: &[Deed] = &[Request(2, 0), Request(2, 5), Bind(2, 0), Bind(3, 1)];

/// The answers to its calls. Eight renewals have let a loader's M go, so the first eight classes below A are 3 to 10; M 11 is gone, the
/// ninth class is 12, and M 13. The one site that is left of M is 1.
const CALLS: &[CallRow] = &[
    CallRow(0, Some(1), IsGone, false),
    CallRow(1, Some(1), Runs(1, 0), false),
    CallRow(1, Some(3), Runs(3, 0), false),
    CallRow(1, Some(10), Runs(10, 0), false),
    CallRow(1, Some(11), IsNoReceiver, false),
    CallRow(1, Some(12), Runs(12, 0), false),
    CallRow(1, Some(13), IsNoReceiver, false),
    CallRow(2, None, Runs(2, 2), false),
    CallRow(3, None, Runs(2, 1), false),
];

/// What is done with a server, whatever its name is.
trait Then<R: Wait> {
    /// Whether all is so with the server and its caller, which so many servers came before.
    fn holds<'a, K: Name>(
        rt: &'a R,
        alloc: Global,
        server: LinkServer<K, &'a R>,
        worker: Worker<K>,
        number: u32,
    ) -> bool;
}

/// It is called.
struct Called;

/// It goes over to a fresh one, with which the rest is done.
struct Over<T> {
    rest: PhantomData<T>,
}

type OverThree = Over<Over<Over<Called>>>;

type OverSix = Over<Over<Over<OverThree>>>;

type OverNine = Over<Over<Over<OverSix>>>;

/// What functions share that take one caller of the server.
fn shared<'a, K: Name, R: Wait, S: Wait + Drop>(
    rt: &'a R,
    alloc: Global,
    server: &'a LinkServer<K, S>,
) -> Shared<'a, K, R, S> {
    Shared {
        rt,
        alloc,
        server,
        part: Part::Nothing,
        told: Mutex::new(None),
        come: AtomicU64::new(0),
        plain: AtomicU64::new(0),
        overrider: AtomicU64::new(0),
    }
}

/// Whether all comes over into the book: what stays, the links, and what is added then.
fn comes_over<K: Name, L: Name, R: Wait, S: Wait + Drop>(
    old: &Shared<'_, K, R, S>,
    worker: &mut Worker<K>,
    book: &mut Book<L, S>,
    limits: Limits,
    number: u32,
) -> bool
    requires book { book.old ≡ [] }
    requires limits { limits ≡ L.limits }
{
    match begin(old, &mut worker.caller, book, GONE, limits) {
        Some((from, mut numbers)) => {
            let mut from = from;
            links_come(old, &mut worker.caller, book, &numbers)
                && old.does(worker, &Below(number, true))
                && adds(old, worker, BETWEEN, THEN)
                && carries(old, &mut worker.caller, book, &mut numbers, &mut from)
                && have_links(old, &mut worker.caller, book, &numbers, from, LINKS)
        }
        None => false,
    }
}

/// Whether all comes over into the book, and the rest is so with its server. The old one is let go before.
fn goes_over<'a, K: Name, L: Name, R: Wait, T: Then<R>>(
    rt: &'a R,
    alloc: Global,
    old: (LinkServer<K, &'a R>, Worker<K>),
    fresh: (Book<L, &'a R>, Worker<L>),
    limits: Limits,
    number: u32,
) -> bool
    requires book { fresh.0 ≡ [] }
    requires limits { limits ≡ L.limits }
{
    let (server, mut worker) = old;
    let (mut book, caller) = fresh;
    let so = comes_over(
        &shared(rt, alloc, &server),
        &mut worker,
        &mut book,
        limits,
        number,
    );
    drop(worker);
    drop(server);
    so && T::holds::<L>(
        rt,
        alloc,
        LinkServer::of(book),
        caller,
        number.wrapping_add(1),
    )
}

/// Whether all comes over into the book of a fresh server of these parts, and the rest is so with that server.
fn opens<'a, K: Name, L: Name, R: Wait, T: Then<R>>(
    rt: &'a R,
    alloc: Global,
    old: (LinkServer<K, &'a R>, Worker<K>),
    fresh: Parts,
    limits: Limits,
    number: u32,
) -> bool
    requires book { fresh.book ≡ L.book }
    requires limits { fresh.limits ≡ L.limits }
    requires same { limits ≡ L.limits }
{
    match fresh.open::<L, &R>(alloc, rt) {
        Ok((book, callers)) => match worker_of(alloc, callers) {
            Some(caller) => {
                goes_over::<K, L, R, T>(rt, alloc, old, (book, caller), limits, number)
            }
            None => false,
        },
        Err(_) => false,
    }
}

/// A worker for the one caller.
fn worker_of<K: Name>(alloc: Global, callers: Vec<Caller<K>>) -> Option<Worker<K>> {
    match employ(alloc, callers) {
        Ok(mut workers) => workers.pop(),
        Err(_) => None,
    }
}

impl<R: Wait> Then<R> for Called {
    fn holds<'a, K: Name>(
        rt: &'a R,
        alloc: Global,
        server: LinkServer<K, &'a R>,
        worker: Worker<K>,
        number: u32,
    ) -> bool {
        let mut worker = worker;
        let mut all = number == RENEWALS && shared(rt, alloc, &server).does_all(&mut worker, LAST);
        for row in CALLS {
            all = is_called(rt, &server, &mut worker, row) && all;
        }
        all
    }
}

impl<R: Wait, T: Then<R>> Then<R> for Over<T> {
    fn holds<'a, K: Name>(
        rt: &'a R,
        alloc: Global,
        server: LinkServer<K, &'a R>,
        worker: Worker<K>,
        number: u32,
    ) -> bool {
        match Parts::new(alloc, SITES, 1) {
            Ok(fresh) => {
                let limits = Limits::fixed(SITES);
                opens::<K, Brand, R, T>(rt, alloc, (server, worker), fresh, limits, number)
            }
            Err(_) => false,
        }
    }
}

/// Whether the first server begins so, and the others come after it.
fn begins<'a, K: Name, R: Wait>(
    rt: &'a R,
    alloc: Global,
    server: LinkServer<K, &'a R>,
    worker: Worker<K>,
) -> bool {
    let mut worker = worker;
    let begun = shared(rt, alloc, &server).does_all(&mut worker, FIRST);
    <OverNine as Then<R>>::holds::<K>(rt, alloc, server, worker, 0) && begun
}

/// Whether the server of these parts begins so, and the others come after it.
fn is_started<K: Name, R: Wait>(rt: &R, alloc: Global, parts: Parts) -> bool
    requires book { parts.book ≡ K.book }
    requires limits { parts.limits ≡ K.limits }
{
    match parts.start::<K, &R>(alloc, rt) {
        Ok((server, callers)) => match worker_of(alloc, callers) {
            Some(worker) => begins(rt, alloc, server, worker),
            None => false,
        },
        Err(_) => false,
    }
}

/// Whether ten servers are so, one after another.
fn is_chain<R: Wait>(rt: &R, alloc: Global) -> bool {
    match Parts::new(alloc, SITES, 1) {
        Ok(parts) => is_started::<Brand, R>(rt, alloc, parts),
        Err(_) => false,
    }
}

#[test]
fn ten_servers_one_after_another(rt: HostRuntime) {
    assert!(rt; is_chain(&rt, rt.alloc()));
}
