//! Farms of compilers on a server, whose call sites are retargeted meanwhile, or one of whose jobs is held back.

use crate::deeds::{DYNAMIC, Deed, STATIC, method, numbered, turned};
use crate::farms::Before::*;
use crate::farms::Kind::*;
use crate::workers::{Shared, Told, Worker};
use jl_farm::{FarmFault, Gate, JobOutcome, Report, run};
use jl_names::Seq;
use jl_server::{Caller, Name};
use jl_types::{Link, SiteNo};
use std::alloc::{AllocError, Global};
use std::sync::atomic::{AtomicU64, Ordering};
use std::sync::{Mutex, Wait};
use std::thread;
use std::thread::Threads;

/// How often a job that is held back looks, and lets other threads go on, before it gives up: for several seconds.
const LOOKS: u64 = 20_000_000;

/// The outcome of a job.
#[derive(Clone, Copy, PartialEq, Eq)]
pub(crate) enum Kind {
    Installed,
    Stale,
    NotReady,
    Bad,
    Memory,
}

/// A job by its sites' numbers, and the outcome that it is to have.
type Job = (&'static [u32], Kind);

/// What happens while the farm runs.
#[derive(Clone, Copy)]
pub(crate) enum Turns {
    /// Nothing.
    Never,
    /// This job is held back until that one has its outcome.
    Held(usize, usize),
    /// Once this job's links were looked up, and are next to be installed, this call site is retargeted.
    Between(usize, u32),
    /// The thread that has taken job 0 retargets one call site after another before it prepares that, until all other jobs are done.
    During,
}

/// What comes before a farm.
#[derive(Clone, Copy)]
enum Before {
    /// The four static calls of W.
    Statics,
    /// The four invokedynamic of T.
    Dynamics,
}

/// Jobs on a server with no links.
pub(crate) struct Farm {
    before: Before,
    turns: Turns,
    jobs: &'static [Job],
    /// The sites that have a link in the end, to class 1's method 1, if that is certain.
    linked: Option<&'static [u32]>,
}

impl Farm {
    /// What comes before.
    pub(crate) fn before(&self) -> &'static [Deed] {
        match self.before {
            Statics => STATIC,
            Dynamics => DYNAMIC,
        }
    }
}

/// Jobs of every kind.
pub(crate) const MIXED: &Farm = &Farm {
    before: Statics,
    turns: Turns::Never,
    jobs: &[
        (&[0], Installed),
        (&[2, 1], Installed),
        (&[3], NotReady),
        (&[], Bad),
        (&[0, 1, 0], Bad),
        (&[4], Bad),
        (&[1, 3], NotReady),
        (&[0], Installed),
    ],
    linked: Some(&[0, 1, 2]),
};

/// Three jobs of one site each, of which the second one is held back until the third one is done.
const EARLIER_HELD: &Farm = &Farm {
    before: Statics,
    turns: Turns::Held(1, 2),
    jobs: &[(&[0], Installed), (&[1], Installed), (&[2], Installed)],
    linked: Some(&[0, 1, 2]),
};

/// Three jobs of one site each, of which the third one is held back until the second one is done.
const LATER_HELD: &Farm = &Farm {
    before: Statics,
    turns: Turns::Held(2, 1),
    jobs: &[(&[0], Installed), (&[1], Installed), (&[2], Installed)],
    linked: Some(&[0, 1, 2]),
};

/// A job is stale if a call site of its own was retargeted, and then none of its sites gets a link. The others are installed.
pub(crate) const BETWEEN: &[Farm] = &[
    Farm {
        before: Dynamics,
        turns: Turns::Between(2, 2),
        jobs: &[
            (&[0], Installed),
            (&[1], Installed),
            (&[2], Stale),
            (&[3], Installed),
        ],
        linked: Some(&[0, 1, 3]),
    },
    Farm {
        before: Dynamics,
        turns: Turns::Between(0, 0),
        jobs: &[
            (&[0], Stale),
            (&[1], Installed),
            (&[2], Installed),
            (&[3], Installed),
        ],
        linked: Some(&[1, 2, 3]),
    },
    Farm {
        before: Dynamics,
        turns: Turns::Between(1, 2),
        jobs: &[(&[0], Installed), (&[1, 2], Stale), (&[3], Installed)],
        linked: Some(&[0, 3]),
    },
    Farm {
        before: Dynamics,
        turns: Turns::Between(0, 0),
        jobs: &[(&[3, 2, 1, 0], Stale)],
        linked: Some(&[]),
    },
    Farm {
        before: Dynamics,
        turns: Turns::Between(0, 3),
        jobs: &[(&[0], Installed), (&[1], Installed)],
        linked: Some(&[0, 1]),
    },
];

/// A job that is held until all others are done, and eight that share sites: each of these is installed or stale.
pub(crate) const DURING: &Farm = &Farm {
    before: Dynamics,
    turns: Turns::During,
    jobs: &[
        (&[0], Installed),
        (&[0], Installed),
        (&[1], Installed),
        (&[2], Installed),
        (&[3], Installed),
        (&[0, 1], Installed),
        (&[3, 2], Installed),
        (&[3, 2, 1, 0], Installed),
        (&[1, 3], Installed),
    ],
    linked: None,
};

/// Two jobs of one site.
const TWICE: &Farm = &Farm {
    before: Dynamics,
    turns: Turns::Never,
    jobs: &[(&[0], Installed), (&[0], Installed)],
    linked: Some(&[0]),
};

/// Farms whose threads are to meet in many ways, by how many workers they have.
pub(crate) const MEETING: &[(usize, &Farm)] = &[
    (2, EARLIER_HELD),
    (2, LATER_HELD),
    (2, TWICE),
    (4, DURING),
];

/// A gate that holds a job back, or retargets call sites by a caller of its own, and counts the jobs that pass it.
#[derive(Drop)]
struct Turner<'a, K: Name, R: Wait, S: Wait + Drop> {
    shared: &'a Shared<'a, K, R, S>,
    worker: Mutex<Worker<K>>,
    farm: &'static Farm,
    begun: AtomicU64,
    done: AtomicU64,
    /// How many jobs were told to have their outcome while each of their sites had a link.
    linked: AtomicU64,
    /// Whether the job that another one waits for is done.
    met: AtomicU64,
    gave_up: AtomicU64,
}

impl<'a, K: Name, R: Wait, S: Wait + Drop> Turner<'a, K, R, S> {
    /// Retargets a call site.
    fn retarget(&self, deed: &Deed) {
        let mut worker = self.worker.lock(self.shared.rt);
        let _accepted = self.shared.does(&mut worker, deed);
    }

    /// Retargets one call site after another, until all jobs but one are done.
    fn retarget_all(&self) {
        let mut round = 0u32;
        for _ in self.shared.rt.forever() {
            self.retarget(&turned(round));
            let done = self.done.load(Ordering::SeqCst);
            if done.saturating_add(1) >= self.farm.jobs.len() as u64 {
                break;
            }
            round = round.wrapping_add(1);
        }
    }

    /// Waits until the job that this one waits for is done.
    fn hold(&self) {
        for _ in 0..LOOKS {
            if self.met.load(Ordering::SeqCst) == 1 {
                return;
            }
            thread::yield_now();
        }
        self.gave_up.store(1, Ordering::SeqCst);
    }

    /// Whether each site of the job, if it is none that is bad, has a link.
    fn is_linked(&self, job: usize) -> bool {
        let Some((sites, Installed | Stale)) = self.farm.jobs.get(job) else {
            return false;
        };
        let mut worker = self.worker.lock(self.shared.rt);
        let Shared {
            rt,
            alloc,
            server,
            ..
        } = self.shared;
        match &server.links(*rt, *alloc, &mut worker.caller) {
            Ok(list) => have_links(list.rows.as_slice(), sites),
            Err(_) => false,
        }
    }

    /// Whether each job has passed, and as many were told to have their outcome with links as were installed, if no link goes
    /// meanwhile: an installed job has its links when this is told, and another one has none. And whether as many call sites were
    /// retargeted as the farm says.
    fn is_passed(&self, installed: u64, turned: usize) -> bool {
        let jobs = self.farm.jobs.len() as u64;
        let linked = self.linked.load(Ordering::SeqCst) == installed;
        let so = match self.farm.turns {
            Turns::Never => linked && turned == 0,
            Turns::Held(..) => linked && self.met.load(Ordering::SeqCst) == 1,
            Turns::Between(..) => linked && turned == 1,
            Turns::During => turned > 0,
        };
        so && self.begun.load(Ordering::SeqCst) == jobs
            && self.done.load(Ordering::SeqCst) == jobs
            && self.gave_up.load(Ordering::SeqCst) == 0
    }
}

impl<'a, K: Name, R: Wait, S: Wait + Drop> Gate for Turner<'a, K, R, S> {
    fn before_prepare(&self, job: usize) {
        self.begun.fetch_add(1, Ordering::SeqCst);
        match self.farm.turns {
            Turns::During => {
                if job == 0 {
                    self.retarget_all();
                }
            }
            Turns::Held(held, _) => {
                if job == held {
                    self.hold();
                }
            }
            _ => {}
        }
    }

    fn before_install(&self, job: usize) {
        if let Turns::Between(at, call_site) = self.farm.turns {
            if at == job {
                self.retarget(&Deed::Retarget(call_site, 2));
            }
        }
    }

    fn after_install(&self, job: usize) {
        if self.is_linked(job) {
            self.linked.fetch_add(1, Ordering::SeqCst);
        }
        if let Turns::Held(_, until) = self.farm.turns {
            if until == job {
                self.met.store(1, Ordering::SeqCst);
            }
        }
        self.done.fetch_add(1, Ordering::SeqCst);
    }
}

/// Whether each site of these numbers has a link.
fn have_links(links: &[(SiteNo, Link)], numbers: &[u32]) -> bool {
    let mut all = true;
    for number in numbers {
        let mut has = false;
        for link in links {
            has = has || link.0.number() == *number;
        }
        all = all && has;
    }
    all
}

/// The bits of these sites.
fn bits_of(sites: &[u32]) -> u64 {
    let mut bits = 0u64;
    for site in sites {
        bits |= 1u64.wrapping_shl(*site);
    }
    bits
}

/// What the job came to. The event by which it was installed is kept.
fn heard<K: Name>(worker: &mut Worker<K>, job: &Job, outcome: JobOutcome<K>) -> Kind {
    match outcome {
        JobOutcome::Installed(receipt) => {
            let told = Told {
                serial: receipt.serial,
                deed: Deed::Install(bits_of(job.0)),
                reply: receipt.reply,
            };
            worker.keep(0, told);
            Installed
        }
        JobOutcome::Stale(_, _) => Stale,
        JobOutcome::NotReady(_) => NotReady,
        JobOutcome::Bad(_) => Bad,
        JobOutcome::Memory => Memory,
    }
}

/// How many of the jobs were installed. There is to be one report for each job, in order, of its kind, or stale if another one's thread
/// retargets.
fn installed<K: Name>(worker: &mut Worker<K>, farm: &Farm, reports: Vec<Report<K>>) -> u64 {
    let mut count = 0u64;
    worker.expect(reports.len() == farm.jobs.len());
    for (place, (report, job)) in reports.into_iter().zip(farm.jobs).enumerate() {
        worker.expect(report.job == place);
        let kind = heard(worker, job, report.outcome);
        let may_be_stale = place > 0 && matches!(farm.turns, Turns::During);
        worker.expect(kind == job.1 || (kind == Stale && may_be_stale));
        if kind == Installed {
            count = count.saturating_add(1);
        }
    }
    count
}

fn jobs_of(alloc: Global, rows: &[Job]) -> Result<Vec<Seq<SiteNo>>, AllocError> {
    let mut jobs = Vec::new(alloc);
    for (numbers, _kind) in rows {
        jobs.push(Seq::of(numbered(alloc, numbers)?))?;
    }
    Ok(jobs)
}

/// The reports of the gate's farm.
fn reports_on<K: Name + Send + Sync, R: Threads + Wait + Sync, S: Wait + Drop + Send + Sync>(
    gate: &Turner<'_, K, R, S>,
    crew: Vec<Caller<K>>,
) -> Result<Vec<Report<K>>, FarmFault> {
    let Ok(jobs) = jobs_of(gate.shared.alloc, gate.farm.jobs) else {
        return Err(FarmFault::Memory);
    };
    if crew.is_empty() || crew.len() > 16 || jobs.len() > 65_536 {
        return Err(FarmFault::NoThread);
    }
    let Shared {
        rt,
        alloc,
        server,
        ..
    } = gate.shared;
    run(*rt, *alloc, *server, jobs, crew, gate)
}

/// So many of the callers, or all that there are, which have learnt what the first one has seen.
fn crew_of<K: Name>(
    alloc: Global,
    workers: &mut Vec<Worker<K>>,
    count: usize,
) -> Result<Vec<Caller<K>>, AllocError> {
    let mut crew = Vec::new(alloc);
    for _ in 0..count {
        if let (Some(last), Some(first)) = (workers.pop(), workers.first()) {
            let mut caller = last.into_caller();
            caller.learn(first.caller.seen());
            crew.push(caller)?;
        }
    }
    Ok(crew)
}

/// Runs the farm by so many of the callers. The gate's one and the first one keep what was accepted, and what went wrong.
fn runs<K: Name + Send + Sync, R: Threads + Wait + Sync, S: Wait + Drop + Send + Sync>(
    shared: &Shared<'_, K, R, S>,
    first: &mut Worker<K>,
    second: Worker<K>,
    crew: Vec<Caller<K>>,
    farm: &'static Farm,
) -> Result<(), AllocError> {
    let gate = Turner {
        shared,
        worker: Mutex::new(second),
        farm,
        begun: AtomicU64::new(0),
        done: AtomicU64::new(0),
        linked: AtomicU64::new(0),
        met: AtomicU64::new(0),
        gave_up: AtomicU64::new(0),
    };
    let reports = reports_on(&gate, crew);
    let mut second = gate.worker.lock(shared.rt);
    let turned = second.told.len();
    let so = match reports {
        Ok(reports) => gate.is_passed(installed(first, farm, reports), turned),
        Err(_) => false,
    };
    first.expect(so && second.wrong == 0);
    first.told.append(&mut second.told)
}

/// Whether the farm of a crew of so many of the callers was as it says, on a server on which all that comes before is done. Of the other
/// callers the first one is left.
pub(crate) fn is_farm<
    K: Name + Send + Sync,
    R: Threads + Wait + Sync,
    S: Wait + Drop + Send + Sync,
>(
    shared: &Shared<'_, K, R, S>,
    workers: &mut Vec<Worker<K>>,
    count: usize,
    farm: &'static Farm,
) -> bool {
    let Ok(crew) = crew_of(shared.alloc, workers, count) else {
        return false;
    };
    match (workers.pop(), workers.first_mut()) {
        (Some(second), Some(first)) => {
            runs(shared, first, second, crew, farm).is_ok()
                && match farm.linked {
                    Some(sites) => {
                        shared.are_linked(&mut first.caller, sites, &Link::Plain(method(1, 1)))
                    }
                    None => true,
                }
        }
        _ => false,
    }
}
