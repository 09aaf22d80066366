//! Callers that keep what they are told, and what the threads of a test share.

use crate::deeds::{Deed, event, install, sites_from};
use crate::scripts::Part;
use jl_relink::{Snapshot, prepare};
use jl_server::{Caller, Denied, LinkServer, Memo, Name, Receipt, Seen};
use jl_types::{ClassId, Event, Fast, Link, Made, Recv, Refusal, Reply, SiteNo};
use std::alloc::{AllocError, Global};
use std::sync::atomic::AtomicU64;
use std::sync::{Mutex, Wait};

/// An event that was accepted, and what it was answered.
pub(crate) struct Told {
    pub(crate) serial: u64,
    pub(crate) deed: Deed,
    pub(crate) reply: Reply,
}

/// Written out, so that what drops one makes one call of it and doesn't take apart what it holds.
impl Drop for Told {
    fn drop(self) {
        let Told {
            serial: _serial,
            deed: _deed,
            reply: _reply,
        } = self;
    }
}

/// One caller, its accepted events, and how often something was not as it must be.
pub(crate) struct Worker<K: Name> {
    pub(crate) caller: Caller<K>,
    pub(crate) told: Vec<Told>,
    pub(crate) wrong: u64,
}

/// Written out, so that what drops one makes one call of it and doesn't take apart what it holds.
impl<K: Name> Drop for Worker<K> {
    fn drop(self) {
        let Worker {
            caller: _caller,
            told: _told,
            wrong: _wrong,
        } = self;
    }
}

/// What an event was answered, after a list of so many events. It is none if the answer shows another list.
type Answered = (u64, Result<Reply, Refusal>);

/// An object of the class, or null.
pub(crate) fn receiver(class: Option<u32>) -> Recv {
    match class {
        Some(class) => Recv::Of(ClassId::new(class)),
        None => Recv::Null,
    }
}

impl<K: Name> Worker<K> {
    /// The caller alone.
    pub(crate) fn into_caller(self) -> Caller<K> {
        let Worker {
            caller,
            told: _told,
            wrong: _wrong,
        } = self;
        caller
    }

    pub(crate) fn expect(&mut self, so: bool) {
        if !so {
            self.wrong = self.wrong.saturating_add(1);
        }
    }

    /// Keeps an accepted event, which comes after so many.
    pub(crate) fn keep(&mut self, before: u64, told: Told) {
        let later = before < told.serial;
        let kept = self.told.push(told).is_ok();
        self.expect(kept && later);
    }

    /// Keeps what was accepted, and tells whether it was. What is refused is to be an install that comes too late.
    fn hear(&mut self, before: u64, deed: &Deed, answered: Answered) -> bool {
        let (serial, answer) = answered;
        match answer {
            Ok(reply) => {
                let deed = *deed;
                self.keep(
                    before,
                    Told {
                        serial,
                        deed,
                        reply,
                    },
                );
                true
            }
            Err(refusal) => {
                let is_late = matches!(&refusal, Refusal::Stale { .. });
                self.expect(is_late && matches!(deed, Deed::Install(_)));
                false
            }
        }
    }

    /// The serial of its last event, and what that made.
    pub(crate) fn last(&self) -> (u64, Made) {
        match self.told.last() {
            Some(told) => (told.serial, told.reply.made),
            None => (0, Made::Nothing),
        }
    }

    /// What a call on an object of the class, or on null, is answered at once. It has no `Wait` bound: a call waits for nobody.
    pub(crate) fn call(&mut self, site: u32, class: Option<u32>) -> Fast {
        self.caller.call(SiteNo::new(site), receiver(class))
    }

    /// What a call on an object of the class, or on null, is answered at once by the memo.
    pub(crate) fn call_with(&mut self, memo: &Memo<K>, site: u32, class: Option<u32>) -> Fast {
        self.caller
            .call_with(memo, SiteNo::new(site), receiver(class))
    }
}

/// What the threads of a test share.
#[derive(Drop)]
pub(crate) struct Shared<'a, K: Name, R: Wait, S: Wait + Drop> {
    pub(crate) rt: &'a R,
    pub(crate) alloc: Global,
    pub(crate) server: &'a LinkServer<K, S>,
    pub(crate) part: Part,
    /// What one of them tells another one.
    pub(crate) told: Mutex<Option<Seen<K>>>,
    /// How often one of them has come to a place at which others wait.
    pub(crate) come: AtomicU64,
    /// The newest class that doesn't override A.f, and the newest one that does; 0 before there is one.
    pub(crate) plain: AtomicU64,
    pub(crate) overrider: AtomicU64,
}

impl<'a, K: Name, R: Wait, S: Wait + Drop> Shared<'a, K, R, S> {
    /// What the event is answered.
    pub(crate) fn answer(&self, caller: &mut Caller<K>, event: Event) -> Answered {
        match caller.apply(self.rt, self.alloc, self.server, event) {
            Ok(receipt) => {
                let Receipt {
                    serial,
                    reply,
                    seen,
                } = receipt;
                (if seen.serial() == serial { serial } else { 0 }, Ok(reply))
            }
            Err(denied) => {
                let Denied { refusal, seen } = denied;
                (seen.serial(), Err(refusal))
            }
        }
    }

    /// The snapshot that the caller takes now.
    pub(crate) fn snapshot(&self, caller: &mut Caller<K>) -> Option<Snapshot> {
        match caller.snapshot(self.rt, self.alloc, self.server) {
            Ok((snapshot, _seen)) => Some(snapshot),
            Err(_) => None,
        }
    }

    /// The install of these sites' links as they are in a snapshot that is taken now.
    fn install(&self, caller: &mut Caller<K>, sites: &[SiteNo]) -> Option<Event> {
        match &self.snapshot(caller) {
            Some(snapshot) => install(prepare(self.alloc, snapshot, sites)),
            None => None,
        }
    }

    /// The deed's event, if there is one now.
    pub(crate) fn event(&self, caller: &mut Caller<K>, deed: &Deed) -> Option<Event> {
        match deed {
            Deed::Install(bits) => match &sites_from(self.alloc, *bits) {
                Ok(sites) => self.install(caller, sites.as_slice()),
                Err(_) => None,
            },
            _ => event(self.alloc, deed),
        }
    }

    /// Does it, and tells whether it was accepted.
    pub(crate) fn does(&self, worker: &mut Worker<K>, deed: &Deed) -> bool {
        match self.event(&mut worker.caller, deed) {
            Some(event) => {
                let before = worker.caller.seen().serial();
                let answered = self.answer(&mut worker.caller, event);
                worker.hear(before, deed, answered)
            }
            None => {
                worker.expect(false);
                false
            }
        }
    }

    /// Does all of this, one after another, and tells whether it was accepted.
    pub(crate) fn does_all(&self, worker: &mut Worker<K>, deeds: &[Deed]) -> bool {
        let mut all = true;
        for deed in deeds {
            all = self.does(worker, deed) && all;
        }
        all
    }

    /// Whether just these sites have a link, which is this one, after all that the caller has seen.
    pub(crate) fn are_linked(&self, caller: &mut Caller<K>, sites: &[u32], link: &Link) -> bool {
        match &self.server.links(self.rt, self.alloc, caller) {
            Ok(list) => {
                list.serial == caller.seen().serial() && are_all(list.rows.as_slice(), sites, link)
            }
            Err(_) => false,
        }
    }
}

/// Whether just these sites have a link, which is this one.
fn are_all(rows: &[(SiteNo, Link)], sites: &[u32], link: &Link) -> bool {
    let mut all = rows.len() == sites.len();
    for (row, site) in rows.iter().zip(sites) {
        all = all && row.0.number() == *site && row.1 == *link;
    }
    all
}

/// A worker for each caller.
pub(crate) fn employ<K: Name>(
    alloc: Global,
    callers: Vec<Caller<K>>,
) -> Result<Vec<Worker<K>>, AllocError> {
    let mut workers = Vec::with_capacity(alloc, callers.len())?;
    for caller in callers {
        workers.push(Worker {
            caller,
            told: Vec::new(alloc),
            wrong: 0,
        })?;
    }
    Ok(workers)
}
