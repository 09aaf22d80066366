//! Times a farm: has workers link the sites, so many a job, the second word after `farm`.

use crate::link::sites_from;
use crate::serve::Desk;
use crate::told::tell;
use jl_farm::{FarmFault, Gate, JobOutcome, Report, run};
use jl_names::Seq;
use jl_server::{Caller, Name};
use jl_types::SiteNo;
use std::alloc::{AllocError, Global};
use std::io::{self, ErrorKind};
use std::sync::Wait;
use std::thread::Threads;
use std::time::Instant;

/// A gate that is told and does nothing.
#[derive(Drop)]
struct Open;

impl Gate for Open {
    fn before_prepare(&self, _job: usize) {}

    fn after_install(&self, _job: usize) {}
}

/// A list of these sites.
fn job_of(alloc: Global, sites: &[SiteNo]) -> Result<Seq<SiteNo>, AllocError> {
    let mut job = Vec::new(alloc);
    job.extend_from_slice(sites)?;
    Ok(Seq::of(job))
}

/// The sites by rising number, so many a job.
fn jobs_of(alloc: Global, sites: &[SiteNo], each: usize) -> Result<Vec<Seq<SiteNo>>, AllocError> {
    let mut jobs = Vec::new(alloc);
    for part in sites.chunks(each.max(1)) {
        jobs.push(job_of(alloc, part)?)?;
    }
    Ok(jobs)
}

/// How many jobs were installed.
fn installed<K: Name>(reports: &[Report<K>]) -> u64 {
    let mut count = 0u64;
    for report in reports {
        if let JobOutcome::Installed(_) = &report.outcome {
            count = count.saturating_add(1);
        }
    }
    count
}

/// How many of the jobs are installed by workers that have learnt what the caller has seen.
fn farm<K: Name + Send + Sync, R: Threads + Wait + Sync, S: Wait + Drop + Send + Sync>(
    handle: &R,
    alloc: Global,
    desk: &Desk<K, S>,
    mut workers: Vec<Caller<K>>,
    jobs: Vec<Seq<SiteNo>>,
) -> Result<u64, FarmFault> {
    for worker in &mut workers {
        worker.learn(desk.caller.seen());
    }
    if workers.is_empty() || workers.len() > 16 || jobs.len() > 65_536 {
        return Err(FarmFault::NoThread);
    }
    let reports = run(handle, alloc, &desk.server, jobs, workers, &Open)?;
    Ok(installed(reports.as_slice()))
}

/// Measures it.
pub(crate) fn measure<
    K: Name + Send + Sync,
    R: Threads + Wait + Sync,
    S: Wait + Drop + Send + Sync,
>(
    rt: &HostRuntime,
    handle: &R,
    desk: &Desk<K, S>,
    workers: Vec<Caller<K>>,
    sites: u32,
    each: u32,
) -> io::Result<()> {
    let sites = sites_from(rt.alloc(), sites)?;
    let jobs = jobs_of(rt.alloc(), sites.as_slice(), each as usize)?;
    let start = Instant::now(rt)?;
    match farm(handle, rt.alloc(), desk, workers, jobs) {
        Ok(count) => tell(rt, "jobs", count, &start),
        Err(_) => Err(ErrorKind::OutOfMemory.into()),
    }
}
