//! A server goes over to a fresh one while threads define and call. The fresh book is filled beside the old server, and takes over its
//! links and what it accepts meanwhile. The book's own server answers from then on. The threads stop to write for the last entries alone.

ghost use Rattle.std.specs.Prelude.{◌≡◌, []};

use crate::carrying::Comes::*;
use crate::carrying::{CallRow, adds, begin, carries, have_links, is_called, links_come};
use crate::deeds::Class::*;
use crate::deeds::Deed::*;
use crate::deeds::{Deed, event};
use crate::definitions::{are_legal, define, newest};
use crate::scripts::Part;
use crate::workers::{Shared, Worker, employ};
use jl_renewal::Renumbering;
use jl_server::{Book, Caller, LinkServer, Name, Parts};
use jl_types::{ClassId, Limits};
use rows_threads::{Round, at_once};
use std::alloc::{AllocError, Global};
use std::marker::{Brand, Model};
use std::process::Abort;
use std::sync::atomic::{AtomicU64, Ordering};
use std::sync::{Mutex, Wait};
use std::thread;
use std::thread::Threads;

/// How often a server is renewed.
const TURNS: usize = 10;

/// The first threads write, the last one renews, and those between them call.
const THREADS: usize = 6;

const WRITERS: usize = 2;

/// How many sites may be requested.
const SITES: u32 = 64;

/// The most classes that a writer defines in the old server, and those that it then defines in the fresh one.
const ROUNDS: u32 = 400;

const LATER: u32 = 20;

/// One class in so many overrides the method. A writer defines so many at the least.
const STRETCH: u32 = 8;

/// How often a thread calls in the fresh server.
const CALLS_LATER: usize = 200;

/// How often the entries that came meanwhile are carried over at the least before the writers are to stop.
const TIMES: usize = 3;

/// How many threads write, those that install among them.
const INSTALLERS: u64 = 5;

/// The install of the sites that the threads call.
const INSTALL: Deed = Install(0xff);

/// What comes before. Loader 2 goes, with C 2, M 3 and site 8. Loader 1 has defined Many 4, loader 0 T 5, loader 3 R 6, which overrides A.f.
/// Switch point 1 is invalid. Call site 1 guards by it and is bound at site 9; call site 2 is bound to nothing.
const BEFORE: &[Deed] = &[
    Define(0, Object),
    Define(0, A),
    Loader,
    Loader,
    Loader,
    Delegate(2, Object),
    Delegate(2, A),
    Define(2, C),
    Define(2, M),
    Delegate(1, Object),
    Delegate(1, A),
    Define(1, Many),
    Define(0, T),
    Delegate(3, Object),
    Delegate(3, A),
    Define(3, R),
    Switch,
    Switch,
    Switch,
    Invalidate(1),
    CallSite(5),
    Guarded(1, 5),
    CallSite(5),
    Request(4, 0),
    Request(4, 3),
    Request(4, 6),
    Request(4, 9),
    Request(4, 12),
    Request(4, 15),
    Request(4, 18),
    Request(4, 21),
    Request(3, 0),
    Request(5, 0),
    Bind(9, 1),
    Install(0x3ff),
    Retire(2),
    Install(0x2ff),
];

/// The call site and the switch point of this number are let go.
const GONE: &[u32] = &[0];

/// What the first writer adds once the fresh book is filled: loader 4 finds what M wants, and defines M.
const MEANWHILE: &[Deed] = &[Loader, Delegate(4, Object), Delegate(4, A), Define(4, M)];

/// What it adds once it has requested M's site, which is 10. Call site 3 guards by the valid switch point 3 and is bound at site 11. Call site
/// 2 guards by switch point 2, which becomes invalid. R goes.
const THEN: &[Deed] = &[
    Switch,
    Guarded(3, 5),
    Request(5, 5),
    Bind(11, 3),
    Install(0x800),
    Guard(2, 2, 5),
    Invalidate(2),
    Retire(3),
];

/// What it adds once it is to stop. Call site 4, which is bound at site 12, guards by switch point 4, which becomes invalid. Site 12 is requested
/// twice. Sites 9 and 11 aren't installed again: the link of 9 comes with the first links, and that of 11 with an entry before the stop.
const LAST: &[Deed] = &[
    Switch,
    CallSite(5),
    Request(5, 10),
    Request(5, 10),
    Bind(12, 4),
    Guard(4, 4, 5),
    Invalidate(4),
    Install(0x14ff),
];

/// How many sites are linked then: 0 to 7, and 9 to 12.
const LINKS: usize = 12;

/// What it adds in the fresh server, in which T is class 3: the call site that was bound to nothing is 1 and is bound at site 12.
const LATER_STILL: &[Deed] = &[Request(3, 15), Bind(12, 1)];

/// Many is class 2 in the fresh server, T 3 and R 4. Loader 3 is 2 and has gone. Site 8 was 9, whose switch point is invalid: T's method
/// 2 runs. Site 9 is M's. Site 10 was 11, whose switch point is valid; site 11 was 12, whose one isn't.
const CALLS: &[CallRow] = &[
    CallRow(0, Some(1), Runs(1, 0), false),
    CallRow(0, Some(4), IsNoReceiver, false),
    CallRow(8, None, Runs(3, 2), true),
    CallRow(9, Some(1), Runs(1, 0), false),
    CallRow(10, None, Runs(3, 1), true),
    CallRow(11, None, Runs(3, 2), true),
];

/// The call site that was bound to nothing has got a guard by a switch point that is invalid.
const LATER_CALL: &CallRow = &CallRow(12, None, Runs(3, 2), false);

/// A book that has taken no event, and its limits.
struct Fresh<L: Name, S: Wait + Drop> {
    book: Book<L, S>,
    limits: Limits,
}

impl<L: Name, S: Wait + Drop> Model for Fresh<L, S> {
    ghost use Rattle.std.specs.Prelude.{◌≡◌, []};
    ghost use Rattle.jl_types.specs.declared.limits.Limits.{Limits};

    ghost Value = { Limits };

    ghost view = { λ f. f.limits };

    ghost invariant = { λ f. (f.book ≡ []) × (f.limits ≡ L.limits) };
}

/// Written out, so that what drops one makes one call of it and doesn't take apart what it holds.
impl<L: Name, S: Wait + Drop> Drop for Fresh<L, S> {
    fn drop(self) {
        let Fresh {
            book: _book,
            limits: _limits,
        } = self;
    }
}

impl<L: Name, S: Wait + Drop> Fresh<L, S> {
    fn into_parts(self) -> (Book<L, S>, Limits)
        ensures book { result.0 ≡ [] }
        ensures limits { result.1 ≡ L.limits }
    {
        let Fresh { book, limits } = self;
        (book, limits)
    }
}

/// The fresh server, and the numbers that what stays has there.
struct Pair<L: Name, S: Wait + Drop> {
    server: LinkServer<L, S>,
    numbers: Renumbering,
}

/// Written out, so that what drops one makes one call of it and doesn't take apart what it holds.
impl<L: Name, S: Wait + Drop> Drop for Pair<L, S> {
    fn drop(self) {
        let Pair {
            server: _server,
            numbers: _numbers,
        } = self;
    }
}

/// A thread's callers of the old server and the fresh one; and the fresh one's book, which one of the threads has.
struct Mover<K: Name, L: Name, S: Wait + Drop> {
    old: Worker<K>,
    fresh: Worker<L>,
    book: Option<Fresh<L, S>>,
}

/// Written out, so that what drops one makes one call of it and doesn't take apart what it holds.
impl<K: Name, L: Name, S: Wait + Drop> Drop for Mover<K, L, S> {
    fn drop(self) {
        let Mover {
            old: _old,
            fresh: _fresh,
            book: _book,
        } = self;
    }
}

/// What the threads share: what they share of the old server, of which `come` counts those that have stopped to write, and the fresh one.
#[derive(Drop)]
struct Renewal<'a, K: Name, L: Name, R: Wait, S: Wait + Drop> {
    old: Shared<'a, K, R, S>,
    pair: Mutex<Option<Pair<L, S>>>,
    /// 1 once the writers are to stop.
    stop: AtomicU64,
    /// 1 once the fresh book is filled, or won't be; 2 once the first writer has added what comes meanwhile.
    begun: AtomicU64,
    /// 1 once the fresh server is there, or won't be.
    moved: AtomicU64,
}

/// Waits until the count is so high.
fn wait<R: Wait>(rt: &R, count: &AtomicU64, least: u64) {
    for _ in rt.forever() {
        if count.load(Ordering::SeqCst) >= least {
            break;
        }
        thread::yield_now();
    }
}

/// Whether the fresh server accepts the deed's event.
fn does_later<K: Name, L: Name, R: Wait, S: Wait + Drop>(
    renewal: &Renewal<'_, K, L, R, S>,
    caller: &mut Caller<L>,
    deed: &Deed,
) -> bool {
    let (rt, alloc) = (renewal.old.rt, renewal.old.alloc);
    match (&*renewal.pair.lock(rt), event(alloc, deed)) {
        (Some(pair), Some(event)) => caller.apply(rt, alloc, &pair.server, event).is_ok(),
        _ => false,
    }
}

/// Defines classes in the old server until it is to stop.
fn define_on<K: Name, L: Name, R: Wait, S: Wait + Drop>(
    renewal: &Renewal<'_, K, L, R, S>,
    worker: &mut Worker<K>,
    number: &mut u32,
) {
    for round in 0..ROUNDS {
        if round >= STRETCH && renewal.stop.load(Ordering::SeqCst) > 0 {
            break;
        }
        define(
            &renewal.old,
            worker,
            *number,
            round % STRETCH == STRETCH - 1,
        );
        *number = number.wrapping_add(1);
    }
}

/// Adds in the fresh server what the first writer adds there, and tells whether it was accepted and the call is answered as it must be.
fn adds_later<K: Name, L: Name, R: Wait, S: Wait + Drop>(
    renewal: &Renewal<'_, K, L, R, S>,
    worker: &mut Worker<L>,
) -> bool {
    let mut all = true;
    for deed in LATER_STILL {
        all = does_later(renewal, &mut worker.caller, deed) && all;
    }
    is_so_later(renewal, worker, LATER_CALL) && all
}

/// Defines classes in the old server until it is to stop, and then some more in the fresh one. The first writer adds all else.
fn write<K: Name, L: Name, R: Wait, S: Wait + Drop>(
    renewal: &Renewal<'_, K, L, R, S>,
    mover: &mut Mover<K, L, S>,
    writer: usize,
) {
    if writer == 0 {
        wait(renewal.old.rt, &renewal.begun, 1);
        let so = adds(&renewal.old, &mut mover.old, MEANWHILE, THEN);
        mover.old.expect(so);
        renewal.begun.store(2, Ordering::SeqCst);
    }
    let writer_number = u32::try_from(writer).unwrap_or(u32::MAX);
    let mut number = writer_number.wrapping_mul(ROUNDS.saturating_add(LATER));
    define_on(renewal, &mut mover.old, &mut number);
    if writer == 0 {
        let so = renewal.old.does_all(&mut mover.old, LAST);
        mover.old.expect(so);
    }
    renewal.old.come.fetch_add(1, Ordering::SeqCst);
    wait(renewal.old.rt, &renewal.moved, 1);
    if writer == 0 {
        let so = adds_later(renewal, &mut mover.fresh);
        mover.fresh.expect(so);
    }
    for _ in 0..LATER {
        let so = does_later(renewal, &mut mover.fresh.caller, &Below(number, false));
        mover.fresh.expect(so);
        number = number.wrapping_add(1);
    }
}

/// The new number of the class, or 0, which java/lang/Object has.
fn new_number(numbers: &Renumbering, old: u32) -> u32 {
    match numbers.class(ClassId::new(old)) {
        Some(class) => class.number(),
        None => 0,
    }
}

/// The new numbers of A and of the newest classes, if all of them have one.
fn new_numbers<K: Name, L: Name, R: Wait, S: Wait + Drop>(
    renewal: &Renewal<'_, K, L, R, S>,
) -> (u32, u32, u32) {
    match &*renewal.pair.lock(renewal.old.rt) {
        Some(pair) => (
            new_number(&pair.numbers, 1),
            new_number(&pair.numbers, newest(&renewal.old.plain)),
            new_number(&pair.numbers, newest(&renewal.old.overrider)),
        ),
        None => (0, 0, 0),
    }
}

/// Whether the call is answered so in the fresh server.
fn is_so_later<K: Name, L: Name, R: Wait, S: Wait + Drop>(
    renewal: &Renewal<'_, K, L, R, S>,
    worker: &mut Worker<L>,
    row: &CallRow,
) -> bool {
    let rt = renewal.old.rt;
    match &*renewal.pair.lock(rt) {
        Some(pair) => is_called(rt, &pair.server, worker, row),
        None => false,
    }
}

/// Calls in the old server, and installs there now and then, until the writers are to stop.
fn call_and_install<K: Name, L: Name, R: Wait, S: Wait + Drop>(
    renewal: &Renewal<'_, K, L, R, S>,
    worker: &mut Worker<K>,
) {
    let mut turn = 0u32;
    for _ in renewal.old.rt.forever() {
        if renewal.stop.load(Ordering::SeqCst) > 0 {
            break;
        }
        if turn % STRETCH == 0 {
            let _installed = renewal.old.does(worker, &INSTALL);
        }
        let so = are_legal(&renewal.old, worker, 0, true);
        worker.expect(so);
        turn = turn.wrapping_add(1);
    }
    renewal.old.come.fetch_add(1, Ordering::SeqCst);
}

/// Calls in the fresh server, by the new numbers.
fn call_later<K: Name, L: Name, R: Wait, S: Wait + Drop>(
    renewal: &Renewal<'_, K, L, R, S>,
    worker: &mut Worker<L>,
) {
    let (a, plain, overrider) = new_numbers(renewal);
    worker.expect(a > 0 && plain > 0 && overrider > 0);
    let on_plain = CallRow(0, Some(plain), Runs(a, 0), false);
    let on_overrider = CallRow(0, Some(overrider), Runs(overrider, 0), false);
    for _ in 0..CALLS_LATER {
        let mut so = is_so_later(renewal, worker, &on_plain)
            && is_so_later(renewal, worker, &on_overrider);
        for row in CALLS {
            so = is_so_later(renewal, worker, row) && so;
        }
        worker.expect(so);
    }
}

/// Calls in the old server until there is a fresh one, and then in that.
fn call<K: Name, L: Name, R: Wait, S: Wait + Drop>(
    renewal: &Renewal<'_, K, L, R, S>,
    mover: &mut Mover<K, L, S>,
) {
    call_and_install(renewal, &mut mover.old);
    for _ in renewal.old.rt.forever() {
        if renewal.moved.load(Ordering::SeqCst) > 0 {
            break;
        }
        let so = are_legal(&renewal.old, &mut mover.old, 0, true);
        mover.old.expect(so);
    }
    call_later(renewal, &mut mover.fresh);
}

/// Whether the links come, and all that comes after the first so many events is carried over: all of it but the last entries while the
/// writers write, and these once they have stopped.
fn carries_on<K: Name, L: Name, R: Wait, S: Wait + Drop>(
    renewal: &Renewal<'_, K, L, R, S>,
    caller: &mut Caller<K>,
    book: &mut Book<L, S>,
    numbers: &mut Renumbering,
    from: u64,
) -> bool {
    let old = &renewal.old;
    let mut from = from;
    let mut all = links_come(old, caller, book, numbers);
    for _ in 0..TIMES {
        all = carries(old, caller, book, numbers, &mut from) && all;
    }
    wait(old.rt, &renewal.begun, 2);
    all = carries(old, caller, book, numbers, &mut from) && all;
    renewal.stop.store(1, Ordering::SeqCst);
    wait(old.rt, &old.come, INSTALLERS);
    carries(old, caller, book, numbers, &mut from)
        && all
        && have_links(old, caller, book, numbers, from, LINKS)
}

/// The numbers, if all comes over into the book.
fn come_over<K: Name, L: Name, R: Wait, S: Wait + Drop>(
    renewal: &Renewal<'_, K, L, R, S>,
    caller: &mut Caller<K>,
    book: &mut Book<L, S>,
    limits: Limits,
) -> Option<Renumbering>
    requires book { book.old ≡ [] }
    requires limits { limits ≡ L.limits }
{
    match begin(&renewal.old, caller, book, GONE, limits) {
        Some((from, mut numbers)) => {
            renewal.begun.store(1, Ordering::SeqCst);
            if carries_on(renewal, caller, book, &mut numbers, from) {
                Some(numbers)
            } else {
                None
            }
        }
        None => None,
    }
}

/// The server of the book, if all comes over.
fn renewed<K: Name, L: Name, R: Wait, S: Wait + Drop>(
    renewal: &Renewal<'_, K, L, R, S>,
    caller: &mut Caller<K>,
    fresh: Fresh<L, S>,
) -> Option<Pair<L, S>> {
    let (mut book, limits) = fresh.into_parts();
    match come_over(renewal, caller, &mut book, limits) {
        Some(numbers) => Some(Pair {
            server: LinkServer::of(book),
            numbers,
        }),
        None => None,
    }
}

/// Goes over to the fresh server. Whatever comes of it, nobody waits for it any more.
fn renew<K: Name, L: Name, R: Wait, S: Wait + Drop>(
    renewal: &Renewal<'_, K, L, R, S>,
    worker: &mut Worker<K>,
    fresh: Fresh<L, S>,
) {
    let pair = renewed(renewal, &mut worker.caller, fresh);
    worker.expect(pair.is_some());
    *renewal.pair.lock(renewal.old.rt) = pair;
    renewal.begun.store(1, Ordering::SeqCst);
    renewal.stop.store(1, Ordering::SeqCst);
    renewal.moved.store(1, Ordering::SeqCst);
}

impl<'a, K: Name, L: Name, R: Wait, S: Wait + Drop> Round<Mover<K, L, S>>
    for Renewal<'a, K, L, R, S> {
    fn turn(&self, index: usize, mover: &mut Mover<K, L, S>) {
        match mover.book.take() {
            Some(fresh) => renew(self, &mut mover.old, fresh),
            None => {
                if index < WRITERS {
                    write(self, mover, index);
                } else {
                    call(self, mover);
                }
            }
        }
    }
}

/// Does all that the threads do.
fn run<
    K: Name + Send + Sync,
    L: Name + Send + Sync,
    R: Threads + Wait + Sync,
    S: Wait + Drop + Send + Sync,
>(renewal: &Renewal<'_, K, L, R, S>, movers: &mut [Mover<K, L, S>]) {
    at_once(renewal.old.rt, renewal, movers);
}

/// Whether nothing was wrong.
fn are_right<K: Name, L: Name, S: Wait + Drop>(movers: &[Mover<K, L, S>]) -> bool {
    let mut wrong = 0u64;
    for mover in movers {
        wrong |= mover.old.wrong | mover.fresh.wrong;
    }
    wrong == 0
}

/// Whether the threads go over from this server to the fresh one.
fn holds<
    K: Name + Send + Sync,
    L: Name + Send + Sync,
    R: Threads + Wait + Sync,
    S: Wait + Drop + Send + Sync,
>(rt: &R, alloc: Global, server: &LinkServer<K, S>, movers: &mut [Mover<K, L, S>]) -> bool {
    let renewal = Renewal {
        old: Shared {
            rt,
            alloc,
            server,
            part: Part::Nothing,
            told: Mutex::new(None),
            come: AtomicU64::new(0),
            plain: AtomicU64::new(0),
            overrider: AtomicU64::new(0),
        },
        pair: Mutex::new(None),
        stop: AtomicU64::new(0),
        begun: AtomicU64::new(0),
        moved: AtomicU64::new(0),
    };
    let begun = match movers.first_mut() {
        Some(first) => renewal.old.does_all(&mut first.old, BEFORE),
        None => false,
    };
    run(&renewal, movers);
    begun && are_right(movers)
}

/// A thread's callers for each caller of the old server. Want of memory is an error, and so is a lack of callers of the fresh one.
fn movers<K: Name, L: Name, S: Wait + Drop>(
    alloc: Global,
    old: Vec<Worker<K>>,
    fresh: &mut Vec<Worker<L>>,
) -> Result<Vec<Mover<K, L, S>>, AllocError> {
    let mut movers = Vec::with_capacity(alloc, old.len())?;
    for old in old {
        let Some(fresh) = fresh.pop() else {
            return Err(AllocError);
        };
        movers.push(Mover {
            old,
            fresh,
            book: None,
        })?;
    }
    Ok(movers)
}

/// Gives the book to the last thread, if there is one.
fn give<K: Name, L: Name, S: Wait + Drop>(movers: &mut [Mover<K, L, S>], fresh: Fresh<L, S>) {
    match movers.last_mut() {
        Some(last) => last.book = Some(fresh),
        None => drop(fresh),
    }
}

/// Whether these callers of the two servers do so.
fn is_so<
    K: Name + Send + Sync,
    L: Name + Send + Sync,
    R: Threads + Wait + Sync,
    S: Wait + Drop + Send + Sync,
>(
    rt: &R,
    alloc: Global,
    server: &LinkServer<K, S>,
    old: Vec<Worker<K>>,
    callers: &mut Vec<Worker<L>>,
    fresh: Fresh<L, S>,
) -> bool {
    match movers(alloc, old, callers) {
        Ok(mut movers) => {
            give(movers.as_mut_slice(), fresh);
            holds(rt, alloc, server, movers.as_mut_slice())
        }
        Err(_) => false,
    }
}

/// Whether callers of the old server and those of the fresh one, whose book these parts give, do so.
fn is_opened<'a, K: Name + Send + Sync, L: Name + Send + Sync, R: Threads + Wait + Sync>(
    rt: &'a R,
    alloc: Global,
    server: &LinkServer<K, &'a R>,
    old: Vec<Worker<K>>,
    fresh: Parts,
    limits: Limits,
) -> bool
    requires book { fresh.book ≡ L.book }
    requires limits { fresh.limits ≡ L.limits }
    requires same { limits ≡ L.limits }
{
    match fresh.open::<L, &R>(alloc, rt) {
        Ok((book, callers)) => match employ(alloc, callers) {
            Ok(mut callers) => is_so(rt, alloc, server, old, &mut callers, Fresh { book, limits }),
            Err(_) => false,
        },
        Err(_) => false,
    }
}

/// Whether callers of the old server and of a fresh one of `SITES` sites do so.
fn is_made<'a, K: Name + Send + Sync, R: Threads + Wait + Sync>(
    rt: &'a R,
    alloc: Global,
    server: &LinkServer<K, &'a R>,
    old: Vec<Worker<K>>,
) -> bool {
    match Parts::new(alloc, SITES, THREADS) {
        Ok(fresh) => {
            let limits = Limits::fixed(SITES);
            is_opened::<K, Brand, R>(rt, alloc, server, old, fresh, limits)
        }
        Err(_) => false,
    }
}

/// Whether callers of the old server of these parts and of a fresh one do so.
fn is_started<K: Name + Send + Sync, R: Threads + Wait + Sync>(
    rt: &R,
    alloc: Global,
    old: Parts,
) -> bool
    requires book { old.book ≡ K.book }
    requires limits { old.limits ≡ K.limits }
{
    match old.start::<K, &R>(alloc, rt) {
        Ok((server, callers)) => match employ(alloc, callers) {
            Ok(workers) => is_made(rt, alloc, &server, workers),
            Err(_) => false,
        },
        Err(_) => false,
    }
}

/// Whether threads go over from a new server to a fresh one.
fn is_renewed<R: Threads + Wait + Sync>(rt: &R, alloc: Global) -> bool {
    match Parts::new(alloc, SITES, THREADS) {
        Ok(old) => is_started::<Brand, R>(rt, alloc, old),
        Err(_) => false,
    }
}

#[test]
fn goes_over_while_threads_call(rt: HostRuntime) {
    for turn in 0..TURNS {
        assert!(rt; is_renewed(&rt, rt.alloc()), "{turn}");
    }
}
