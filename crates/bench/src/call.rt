//! Does calls and events in threads, to be timed from outside, at sites that are installed before. The words after `call` are, in order:
//!
//! - how many threads there are;
//! - which calls;
//! - the calls of each thread;
//! - the sets of each one's memo;
//! - the most sites;
//! - how often the last site is installed again before;
//! - whether the first thread does that until all others are done.
//!
//! The calls on null, at the sites in a scattered order, are:
//!
//! - `null`: one by one;
//! - `together`: in entries of 64.
//!
//! The calls on objects of 64 classes, or of eight, from the fourth class on, are:
//!
//! - `drawn`: only the drawing of the site and class;
//! - `table`: on objects of eight;
//! - `memo`: by a memo;
//! - `got`: by the memo alone;
//! - `asked`: under the server's lock.
//!
//! What a memo doesn't remember is asked under the lock. Sites and classes are drawn low ones more often than high ones: a site below a
//! number that was drawn, and a class below one that was drawn so. It prints how many calls were answered without the lock, or under it if
//! that was asked for, and how many events that thread applied.

use crate::serve::Desk;
use crate::told::{number_or, tell};
use jl_names::Seq;
use jl_relink::{Prepared, prepare};
use jl_server::{Caller, LinkServer, Memo, Name};
use jl_types::{Answer, ClassId, Event, Fast, Link, Recv, SiteNo};
use rows_threads::{Round, at_once};
use std::alloc::{AllocError, Global};
use std::io;
use std::sync::Wait;
use std::sync::atomic::{AtomicU64, Ordering};
use std::thread::Threads;
use std::time::Instant;

/// How many calls an entry has, if it has several.
const TOGETHER: usize = 64;

/// How far the next call's site is, which shares no divisor with 1,000.
const STEP: u32 = 389;

/// The first class of which there are objects.
const FIRST: u32 = 3;

/// Which calls are made.
#[derive(Clone, Copy)]
enum Kind {
    Null,
    Together,
    Drawn,
    Table,
    Memo,
    Got,
    Asked,
}

/// What is to be done: which calls, at how many sites, how many by each thread, and how many threads call.
#[derive(Clone, Copy)]
struct Work {
    kind: Kind,
    sites: u32,
    calls: u32,
    busy: u64,
}

/// The calls of this name.
fn kind_of(word: Option<&str>) -> Kind {
    match word {
        Some("together") => Kind::Together,
        Some("drawn") => Kind::Drawn,
        Some("table") => Kind::Table,
        Some("memo") => Kind::Memo,
        Some("got") => Kind::Got,
        Some("asked") => Kind::Asked,
        _ => Kind::Null,
    }
}

/// A number that is less than this (Knuth, The Art of Computer Programming, volume 2, 3.3.4).
fn below(seed: &mut u32, limit: u32) -> u32 {
    *seed = seed.wrapping_mul(1_664_525).wrapping_add(1_013_904_223);
    (*seed / 65_536).wrapping_mul(limit) / 65_536
}

/// One that is less than a number that is drawn, too, so that low ones come up more often.
fn low(seed: &mut u32, limit: u32) -> u32 {
    let most = below(seed, limit);
    below(seed, most.wrapping_add(1))
}

/// How far the next call's site is, of so many.
fn step_of(sites: u32) -> u32 {
    STEP.checked_rem(sites).unwrap_or(0)
}

/// The site that is so far from this one, of so many.
fn next(site: u32, step: u32, sites: u32) -> u32 {
    let next = site.wrapping_add(step);
    if next < sites {
        next
    } else {
        next.wrapping_sub(sites)
    }
}

/// Whether it was answered.
fn is_now(answer: Fast) -> bool {
    match answer {
        Fast::Now(_) => true,
        _ => false,
    }
}

/// So many calls on null. Counts the answers.
fn null_calls<K: Name>(caller: &mut Caller<K>, sites: u32, calls: u32) -> u64 {
    let step = step_of(sites);
    let mut answers = 0u64;
    let mut site = 0;
    for _ in 0..calls {
        if is_now(caller.call(SiteNo::new(site), Recv::Null)) {
            answers = answers.wrapping_add(1);
        }
        site = next(site, step, sites);
    }
    answers
}

/// The next calls, of which the first is at this site. Gives the site after them.
fn fill_entry(calls: &mut [(SiteNo, Recv)], first: u32, sites: u32) -> u32 {
    let step = step_of(sites);
    let mut site = first;
    for call in calls.iter_mut() {
        *call = (SiteNo::new(site), Recv::Null);
        site = next(site, step, sites);
    }
    site
}

/// How many were answered.
fn count(answers: &[Fast]) -> u64 {
    let mut count = 0u64;
    for answer in answers {
        if is_now(*answer) {
            count = count.wrapping_add(1);
        }
    }
    count
}

/// So many calls on null, in entries of several. Counts the answers.
fn calls_together<K: Name>(caller: &mut Caller<K>, sites: u32, calls: u32) -> u64 {
    let mut rows = [(SiteNo::new(0), Recv::Null); TOGETHER];
    let mut found = [Fast::Miss; TOGETHER];
    let mut answers = 0u64;
    let mut site = 0;
    for _ in 0..calls as usize / TOGETHER {
        site = fill_entry(rows.as_mut_slice(), site, sites);
        caller.call_all(rows.as_slice(), found.as_mut_slice());
        answers = answers.wrapping_add(count(found.as_slice()));
    }
    answers
}

/// One thread's caller and memo, and whether it applies events.
struct Job<K: Name> {
    writes: bool,
    caller: Caller<K>,
    memo: Memo<K>,
}

/// Written out, so that what drops one makes one call of it and doesn't take apart what it holds.
impl<K: Name> Drop for Job<K> {
    fn drop(self) {
        let Job {
            writes: _writes,
            caller: _caller,
            memo: _memo,
        } = self;
    }
}

/// What all threads share: of the counts, how many threads still call, how many events there were, and how many answers.
#[derive(Drop)]
struct Common<'a, K: Name, R: Wait, S: Wait + Drop> {
    rt: &'a R,
    alloc: Global,
    server: &'a LinkServer<K, S>,
    kind: Kind,
    sites: u32,
    calls: u32,
    busy: AtomicU64,
    events: AtomicU64,
    answers: AtomicU64,
}

impl<'a, K: Name, R: Wait, S: Wait + Drop> Common<'a, K, R, S> {
    /// Asks under the lock, so that the memo remembers it. The call itself counts as not answered.
    fn is_asked(&self, job: &mut Job<K>, site: SiteNo, class: ClassId) -> bool {
        let _ = job
            .caller
            .ask_with(self.rt, self.server, &mut job.memo, site, Recv::Of(class));
        false
    }

    /// Whether the call is answered.
    fn is_answered(&self, job: &mut Job<K>, site: SiteNo, class: ClassId) -> bool {
        match self.kind {
            Kind::Memo => {
                is_now(job.caller.call_with(&job.memo, site, Recv::Of(class)))
                    || self.is_asked(job, site, class)
            }
            Kind::Got => job.memo.get(site, class).is_some() || self.is_asked(job, site, class),
            Kind::Asked => match job.caller.ask(self.rt, self.server, site, Recv::Of(class)) {
                Answer::Run(_) => true,
                _ => false,
            },
            Kind::Table => is_now(job.caller.call(site, Recv::Of(class))),
            _ => site.number() < self.sites,
        }
    }

    /// So many calls that are drawn. Counts the answers.
    fn drawn_calls(&self, job: &mut Job<K>, classes: u32) -> u64 {
        let mut seed = 1u32;
        let mut answers = 0u64;
        for _ in 0..self.calls {
            let site = SiteNo::new(low(&mut seed, self.sites));
            let most = below(&mut seed, classes);
            let class = FIRST.wrapping_add(low(&mut seed, most.wrapping_add(1)));
            if self.is_answered(job, site, ClassId::new(class)) {
                answers = answers.wrapping_add(1);
            }
        }
        answers
    }

    /// Installs of the last site until no thread calls. Counts them.
    fn write_on(&self, caller: &mut Caller<K>) -> u64 {
        let mut number = 0u64;
        for _ in self.rt.forever() {
            if self.busy.load(Ordering::SeqCst) == 0 {
                break;
            }
            link(
                self.rt,
                self.alloc,
                self.server,
                caller,
                self.sites.wrapping_sub(1),
            );
            number = number.wrapping_add(1);
        }
        number
    }
}

impl<'a, K: Name, R: Wait, S: Wait + Drop> Round<Job<K>> for Common<'a, K, R, S> {
    /// It applies events, or it calls.
    fn turn(&self, _index: usize, job: &mut Job<K>) {
        if job.writes {
            let events = self.write_on(&mut job.caller);
            self.events.store(events, Ordering::SeqCst);
        } else {
            let answers = match self.kind {
                Kind::Null => null_calls(&mut job.caller, self.sites, self.calls),
                Kind::Together => calls_together(&mut job.caller, self.sites, self.calls),
                Kind::Table => self.drawn_calls(job, 8),
                _ => self.drawn_calls(job, 64),
            };
            self.answers.fetch_add(answers, Ordering::SeqCst);
            self.busy.fetch_sub(1, Ordering::SeqCst);
        }
    }
}

/// The site's link from scratch, in a snapshot that is let go.
fn prepared<K: Name, R: Wait, S: Wait + Drop>(
    rt: &R,
    alloc: Global,
    server: &LinkServer<K, S>,
    caller: &mut Caller<K>,
    site: u32,
) -> Option<Seq<(SiteNo, Link)>> {
    match &caller.snapshot(rt, alloc, server) {
        Ok((snapshot, _seen)) => match prepare(alloc, snapshot, [SiteNo::new(site)].as_slice()) {
            Ok(Prepared { serial: _, rows }) => Some(rows),
            Err(_) => None,
        },
        Err(_) => None,
    }
}

/// Links the site from scratch, and installs its link.
fn link<K: Name, R: Wait, S: Wait + Drop>(
    rt: &R,
    alloc: Global,
    server: &LinkServer<K, S>,
    caller: &mut Caller<K>,
    site: u32,
) {
    if let Some(rows) = prepared(rt, alloc, server, caller, site) {
        let _ = caller.apply(rt, alloc, server, Event::Install(rows));
    }
}

/// Links each of so many sites, and the last one so many times more.
fn link_each<K: Name, S: Wait + Drop>(alloc: Global, desk: &mut Desk<K, S>, sites: u32, more: u32) {
    for site in 0..sites {
        link(&desk.handle, alloc, &desk.server, &mut desk.caller, site);
    }
    for _ in 0..more {
        let last = sites.wrapping_sub(1);
        link(&desk.handle, alloc, &desk.server, &mut desk.caller, last);
    }
}

/// Each caller with a memo of so many sets. The first one applies events, if one is to.
fn jobs<K: Name>(
    alloc: Global,
    callers: Vec<Caller<K>>,
    sets: u32,
    writes: bool,
) -> Result<Vec<Job<K>>, AllocError> {
    let mut jobs = Vec::with_capacity(alloc, callers.len())?;
    let mut writes = writes;
    for caller in callers {
        let memo = Memo::new(alloc, caller.seen(), sets)?;
        jobs.push(Job {
            writes,
            caller,
            memo,
        })?;
        writes = false;
    }
    Ok(jobs)
}

/// Starts the threads, whose callers lie side by side. Gives how many answers and events there were.
fn all<K: Name + Send + Sync, R: Threads + Wait + Sync, S: Wait + Drop + Send + Sync>(
    rt: &R,
    alloc: Global,
    server: &LinkServer<K, S>,
    work: Work,
    jobs: &mut [Job<K>],
) -> (u64, u64) {
    let common = Common {
        rt,
        alloc,
        server,
        kind: work.kind,
        sites: work.sites,
        calls: work.calls,
        busy: AtomicU64::new(work.busy),
        events: AtomicU64::new(0),
        answers: AtomicU64::new(0),
    };
    at_once(rt, &common, jobs);
    (
        common.answers.load(Ordering::SeqCst),
        common.events.load(Ordering::SeqCst),
    )
}

/// Measures what the words say.
pub(crate) fn measure<
    K: Name + Send + Sync,
    R: Threads + Wait + Sync,
    S: Wait + Drop + Send + Sync,
>(
    rt: &HostRuntime,
    handle: &R,
    desk: &mut Desk<K, S>,
    callers: Vec<Caller<K>>,
    sites: u32,
    words: &[String],
) -> io::Result<()> {
    link_each(rt.alloc(), desk, sites, number_or(words, 6, 0));
    let writers = number_or(words, 7, 0).min(1);
    let work = Work {
        kind: kind_of(words.get(2).map(|word| word.as_str())),
        sites,
        calls: number_or(words, 3, 0),
        busy: (callers.len() as u64).saturating_sub(writers as u64),
    };
    let sets = number_or(words, 4, 8_192);
    let mut jobs = jobs(rt.alloc(), callers, sets, writers > 0)?;
    let start = Instant::now(rt)?;
    let (answers, events) = all(handle, rt.alloc(), &desk.server, work, jobs.as_mut_slice());
    tell(rt, "answers", answers, &start)?;
    tell(rt, "events", events, &start)
}
