//! A farm for the sites that were requested, and the line that tells its links and the outcomes of its jobs.

ghost use Rattle.std.specs.Prelude.{◌≡◌, ◌≤◌, [], ◌∷◌, All, IfOk, IfErr, vec_len};
ghost use Rattle.std.specs.List.{range_with_len};
ghost use mathlib.Core.List.{IsPrefix};
ghost use Rattle.serde_json.specs.View.{view};
ghost use Rattle.serde_json.specs.Written.{compact_text};
ghost use Rattle.jl_types.specs.Events.History.{site_numbers};
ghost use Rattle.jl_types.specs.Events.Entries.{IsLegal, events_of};
ghost use Rattle.jl_farm.specs.Reports.{IsReport, AreOfOneHistory, jobs_of};
ghost use Rattle.jl_cli.specs.Farms.{job_of_each, outcome_name, reports_data, last_data, IsLastLine};
ghost use Rattle.jl_cli.specs.ForProofs.Farms.{IsUnwritten, IsOfFarm};

use crate::farm_fault::FarmLineFault;
use crate::served::ServerCommands;
use jl_farm::{Gate, JobOutcome, Report, run};
use jl_json::farm_value;
use jl_names::Seq;
use jl_server::{Caller, Name, Seen};
use jl_session::text_of;
use jl_types::SiteNo;
use serde_json::{Value, json};
use std::alloc::{AllocError, Global};
use std::sync::Wait;
use std::thread::Threads;

impl<'a, K: Name, H: Wait, S: Wait + Drop> ServerCommands<'a, K, H, S> {
    /// One job for each requested site, in order.
    fn jobs(&self, caller: &mut Caller<K>) -> Result<Vec<Seq<SiteNo>>, AllocError>
        requires { K.limits.sites ≤ 65536 }
        ensures own { IsPrefix caller.old caller.new }
        ensures jobs { IfOk result (λ jobs. jobs.items ≡ job_of_each (site_numbers (events_of caller.new))) }
        ensures numbers { IfOk result (λ jobs. range_with_len 0 (vec_len jobs) ≡ site_numbers (events_of caller.new)) }
        ensures most { IfOk result (λ jobs. vec_len jobs ≤ 65536) }
    {
        let (snapshot, _seen) = caller.snapshot(self.rt, self.alloc, self.server)?;
        each_site(self.alloc, snapshot.world().site_count())
    }

    /// The links that are installed, and these reports.
    fn last_value(&self, caller: &mut Caller<K>, reports: &[Report<K>]) -> Result<Value, AllocError>
        ensures own { IsPrefix caller.old caller.new }
        ensures legal { IfOk result (λ _. IsLegal K.limits caller.new) }
        ensures value { IfOk result (λ v. view v ≡ last_data caller.new reports.now) }
    {
        let reports = reports_value(self.alloc, reports)?;
        let list = self.server.links(self.rt, self.alloc, caller)?;
        farm_value(self.alloc, list.rows.as_slice(), reports)
    }
}

/// The text of what the links and these reports are.
fn last_text<K: Name, H: Wait, S: Wait + Drop>(
    served: &ServerCommands<'_, K, H, S>,
    caller: &mut Caller<K>,
    reports: &[Report<K>],
) -> Result<Vec<u8>, AllocError>
    ensures own { IsPrefix caller.old caller.new }
    ensures legal { IfOk result (λ _. IsLegal K.limits caller.new) }
    ensures text { IfOk result (λ text. text.items ≡ compact_text (last_data caller.new reports.now)) }
{
    let answer = served.last_value(caller, reports)?;
    text_of(served.alloc, &answer)
}

/// One job for each of so many sites, by rising number.
fn each_site(alloc: Global, count: usize) -> Result<Vec<Seq<SiteNo>>, AllocError>
    requires { count ≤ 65536 }
    ensures jobs { IfOk result (λ jobs. jobs.items ≡ job_of_each (range_with_len 0 count)) }
    ensures length { IfOk result (λ jobs. vec_len jobs ≡ count) }
{
    let mut jobs = Vec::new(alloc);
    for number in 0..count {
        let job = one_site(alloc, number)?;
        jobs.push(job)?;
    }
    Ok(jobs)
}

/// The job of one site.
fn one_site(alloc: Global, number: usize) -> Result<Seq<SiteNo>, AllocError>
    requires { number ≤ 65536 }
    ensures { IfOk result (λ job. job ≡ number ∷ []) }
{
    let mut sites = Vec::new(alloc);
    sites.push(SiteNo::new(number as u32))?;
    Ok(Seq::of(sites))
}

/// A gate that lets each job pass.
#[derive(Drop)]
struct Open;

impl Gate for Open {
    fn before_prepare(&self, _job: usize) {}

    fn after_install(&self, _job: usize) {}
}

/// The report of each of these jobs by these workers. A fault is the farm's own, and is told as such.
fn run_jobs<K: Name + Send + Sync, H: Threads + Wait + Sync, S: Wait + Drop + Send + Sync>(
    served: &ServerCommands<'_, K, H, S>,
    jobs: Vec<Seq<SiteNo>>,
    workers: Vec<Caller<K>>,
) -> Result<Vec<Report<K>>, FarmLineFault>
    requires workers { (1 ≤ vec_len workers) × (vec_len workers ≤ 16) }
    requires jobs { vec_len jobs ≤ 65536 }
    ensures jobs { IfOk result (λ reports. jobs_of reports.items ≡ range_with_len 0 (vec_len jobs)) }
    ensures shown { IfOk result (λ reports. All (IsReport K.limits workers.items jobs.items) reports.items) }
    ensures history { IfOk result (λ reports. AreOfOneHistory reports.items) }
    ensures farm { IfErr result IsOfFarm }
    ensures unwritten { IfErr result IsUnwritten }
{
    match run(served.rt, served.alloc, served.server, jobs, workers, &Open) {
        Ok(reports) => Ok(reports),
        Err(fault) => Err(FarmLineFault::Farm(fault)),
    }
}

/// Each of these learns what was seen.
fn tell_all<K: Name>(workers: &mut [Caller<K>], seen: &Seen<K>)
    ensures { All (IsPrefix seen.now) workers.new }
{
    for worker in workers.iter_mut() {
        worker.learn(seen);
    }
}

/// The text of the farm's answer: the links that the workers leave installed, and the outcome of each job.
///
/// # Errors
///
/// - [`FarmLineFault::Line`]: want of memory, of no other fault.
/// - [`FarmLineFault::Farm`]: the farm has no reports.
pub(crate) fn farm_text<
    K: Name + Send + Sync,
    H: Threads + Wait + Sync,
    S: Wait + Drop + Send + Sync,
>(
    served: &ServerCommands<'_, K, H, S>,
    caller: &mut Caller<K>,
    workers: Vec<Caller<K>>,
) -> Result<Vec<u8>, FarmLineFault>
    requires workers { (1 ≤ vec_len workers) × (vec_len workers ≤ 16) }
    requires sites { K.limits.sites ≤ 65536 }
    ensures text { IfOk result (λ text. IsLastLine K K.limits caller.old text.items) }
    ensures unwritten { IfErr result IsUnwritten }
{
    let mut workers = workers;
    tell_all(workers.as_mut_slice(), caller.seen());
    let jobs = served.jobs(caller)?;
    let reports = run_jobs(served, jobs, workers)?;
    Ok(last_text(served, caller, reports.as_slice())?)
}

/// The name of a job's outcome.
fn name_of<K: Name>(outcome: &JobOutcome<K>) -> &'static str
    ensures { result.now ≡ outcome_name outcome.now }
{
    match outcome {
        JobOutcome::Installed(_) => "Installed",
        JobOutcome::Stale(_, _) => "Stale",
        JobOutcome::NotReady(_) => "NotReady",
        JobOutcome::Bad(_) => "Bad",
        JobOutcome::Memory => "Memory",
    }
}

/// The names of the outcomes of jobs, in order.
#[tactic(auto, unfolding(crate::specs::Farms::reports_data))]
fn reports_value<K: Name>(alloc: Global, reports: &[Report<K>]) -> Result<Value, AllocError>
    ensures { IfOk result (λ v. view v ≡ reports_data reports.now) }
{
    let mut names = Vec::new(alloc);
    for report in reports {
        let name = name_of(&report.outcome);
        names.push(json!(in alloc; name)?)?;
    }
    Ok(Value::Array(names))
}
