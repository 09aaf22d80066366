//! What all workers of a farm share, and what one of them does.

ghost use Rattle.std.specs.Prelude.{◌≡◌, ◌<◌, false, [], None, IfOk, OnOk};
ghost use mathlib.Core.List.{IsPrefix};
ghost use Rattle.crossbeam_queue.specs.Passes.{view, IsPassOf};
ghost use Rattle.jl_types.specs.Events.Entries.{IsLegal};
ghost use Rattle.jl_types.specs.Events.Preparation.{prepare_fault, ArePrepared};
ghost use Rattle.jl_farm.specs.ForProofs.Queued.{KnowsAll};
ghost use Rattle.jl_farm.specs.Reports.{IsShown, job_sites, world_of};
ghost use Rattle.jl_farm.specs.ForProofs.Work.{Works, HasPart, HasSeen, refused_as, unprepared_as};

use crate::crew::Task;
use crate::gate::Gate;
use crate::job_queue::{JobQueue, next_job};
use crate::report::{JobOutcome, Report};
use crate::worker::Worker;
use jl_names::Seq;
use jl_relink::prepare;
use jl_server::{Caller, Denied, LinkServer, Name, Seen};
use jl_types::{Event, Link, PrepareFault, Refusal, SiteNo};
use std::alloc::{AllocError, Global};
use std::sync::Wait;

/// What all workers share.
#[derive(Drop)]
pub(crate) struct Shared<'a, K: Name, G: Gate, R: Wait, S: Wait + Drop> {
    pub(crate) rt: &'a R,
    pub(crate) alloc: Global,
    pub(crate) server: &'a LinkServer<K, S>,
    pub(crate) jobs: &'a [Seq<SiteNo>],
    pub(crate) gate: &'a G,
    pub(crate) queue: &'a JobQueue,
}

impl<'a, K: Name, G: Gate, R: Wait, S: Wait + Drop> Task<Worker<K>> for Shared<'a, K, G, R, S> {
    ghost accepts = { λ floor worker. IsPassOf floor.queue.now worker.pass × HasPart worker };

    ghost leaves = { λ floor old new. IsPassOf floor.queue.now new.pass × Works K.limits floor.jobs.now old new };

    // A worker that has no memory leaves the jobs to the others.
    fn serve(&self, worker: &mut Worker<K>) {
        let _done = self.work(worker);
    }
}

impl<'a, K: Name, G: Gate, R: Wait, S: Wait + Drop> Shared<'a, K, G, R, S> {
    /// Takes jobs and reports them, until there is none left. Want of memory for a report is an error; no job was taken for it then.
    pub(crate) fn work(&self, worker: &mut Worker<K>) -> Result<(), AllocError>
        requires pass { IsPassOf self.now.queue.now worker.old.pass }
        requires part { 0 < (view worker.old.pass).parts }
        ensures pass { IsPassOf self.now.queue.now worker.new.pass }
        ensures works { Works K.limits self.now.jobs.now worker.old worker.new }
        ensures done { OnOk result (KnowsAll (view worker.new.pass) []) }
    {
        for _ in self.rt.forever() {
            if !self.one(worker)? {
                return Ok(());
            }
        }
        unreachable!()
    }

    /// Takes one job and reports it, and tells whether there was one.
    fn one(&self, worker: &mut Worker<K>) -> Result<bool, AllocError>
        requires pass { IsPassOf self.now.queue.now worker.old.pass }
        requires part { 0 < (view worker.old.pass).parts }
        ensures pass { IsPassOf self.now.queue.now worker.new.pass }
        ensures works { Works K.limits self.now.jobs.now worker.old worker.new }
        ensures done { IfOk result (λ one. one ≡ false → KnowsAll (view worker.new.pass) []) }
    {
        worker.reports.reserve(1)?;
        let Some(job) = next_job(self.rt, self.queue, &mut worker.pass) else {
            return Ok(false);
        };
        let report = self.report(&mut worker.caller, job);
        worker.reports.push_reserved(report);
        Ok(true)
    }

    /// Runs the job, and reports it.
    fn report(&self, caller: &mut Caller<K>, job: usize) -> Report<K>
        ensures own { IsPrefix caller.old caller.new }
        ensures job { result.job ≡ job }
        ensures shown { IsShown K.limits caller.old (job_sites self.now.jobs.now job) result.outcome }
        ensures seen { HasSeen caller.new result.outcome }
    {
        self.gate.before_prepare(job);
        let outcome = self.outcome(caller, job);
        self.gate.after_install(job);
        Report { job, outcome }
    }

    /// Prepares the sites of the job in a snapshot, and installs their links.
    fn outcome(&self, caller: &mut Caller<K>, job: usize) -> JobOutcome<K>
        ensures own { IsPrefix caller.old caller.new }
        ensures shown { IsShown K.limits caller.old (job_sites self.now.jobs.now job) result }
        ensures seen { HasSeen caller.new result }
    {
        let sites = sites_at(self.jobs, job);
        let Ok((snapshot, seen)) = caller.snapshot(self.rt, self.alloc, self.server) else {
            return JobOutcome::Memory;
        };
        match prepare(self.alloc, &snapshot, sites) {
            Ok(prepared) => {
                self.gate.before_install(job);
                self.install(caller, sites, seen, prepared.rows)
            }
            Err(fault) => unprepared(seen, fault),
        }
    }

    /// Installs the rows, which were prepared of these sites after this list. If nothing but installs came since, they aren't looked up
    /// once more.
    fn install(
        &self,
        caller: &mut Caller<K>,
        sites: &[SiteNo],
        prepared: Seen<K>,
        rows: Seq<(SiteNo, Link)>,
    ) -> JobOutcome<K>
        requires prepared { (prepared ≡ caller.old) × IsLegal K.limits caller.old }
        requires batch { prepare_fault (world_of caller.old) sites.now ≡ None }
        requires rows { ArePrepared (world_of caller.old) sites.now rows }
        ensures own { IsPrefix caller.old caller.new }
        ensures shown { IsShown K.limits caller.old sites.now result }
        ensures seen { HasSeen caller.new result }
    {
        let install = Event::Install(rows);
        match caller.apply_judged(self.rt, self.alloc, self.server, install, &prepared) {
            Ok(receipt) => JobOutcome::Installed(receipt),
            Err(denied) => refused(prepared, denied),
        }
    }
}

/// The sites of the job of this number.
fn sites_at(jobs: &[Seq<SiteNo>], job: usize) -> &[SiteNo]
    ensures { result.now ≡ job_sites jobs.now job }
{
    match jobs.get(job) {
        Some(sites) => sites.as_slice(),
        None => &[],
    }
}

/// The outcome of a job whose sites weren't prepared after this list.
fn unprepared<K: Name>(seen: Seen<K>, fault: PrepareFault) -> JobOutcome<K>
    ensures { result ≡ unprepared_as seen fault }
{
    match fault {
        PrepareFault::NotReady(_) => JobOutcome::NotReady(seen),
        PrepareFault::UnknownSite(_) => JobOutcome::Bad(seen),
        PrepareFault::Repeated(_) => JobOutcome::Bad(seen),
        PrepareFault::BatchSize => JobOutcome::Bad(seen),
        PrepareFault::Memory => JobOutcome::Memory,
    }
}

/// The outcome of a job whose install was refused.
fn refused<K: Name>(prepared: Seen<K>, denied: Denied<K>) -> JobOutcome<K>
    ensures { result ≡ refused_as prepared denied.seen denied.refusal }
{
    let Denied { refusal, seen } = denied;
    match refusal {
        Refusal::Stale { .. } => JobOutcome::Stale(prepared, seen),
        Refusal::NotReady { .. } => JobOutcome::Stale(prepared, seen),
        Refusal::UnknownSite { .. } => JobOutcome::Bad(seen),
        Refusal::Repeated { .. } => JobOutcome::Bad(seen),
        Refusal::BatchSize => JobOutcome::Bad(seen),
        _ => JobOutcome::Memory,
    }
}
