//! The farm.

ghost use Rattle.std.specs.Prelude.{◌≡◌, ◌≤◌, ◌+◌, [], ℕ, true, false, length, All, IsOk, IfOk, IfErr, vec_len};
ghost use Rattle.std.specs.List.{AllZip, sum_by, range_with_len};
ghost use Rattle.std.specs.List.Sorted.{IsPermutation, IsNonDecreasingBy};
ghost use mathlib.Core.List.{IsPrefix};
ghost use Rattle.crossbeam_queue.specs.Passes.{view, IsPassOf};
ghost use Rattle.jl_farm.specs.Reports.{IsReport, jobs_of, lists_of, installs_of, AreOfOneHistory, AreOfSameSites};
ghost use Rattle.jl_farm.specs.ForProofs.Queued.{pass_view};
ghost use Rattle.jl_farm.specs.ForProofs.Work.{Works, HasReported, HasOne, HasPart};

use crate::crew::{at_once, gather, hire};
use crate::fault::FarmFault;
use crate::gate::Gate;
use crate::job_queue::{JobPass, JobQueue, queue_of, take_over};
use crate::report::{JobOutcome, Report};
use crate::shared::Shared;
use crate::worker::Worker;
use jl_names::Seq;
use jl_server::{Caller, LinkServer, Name};
use jl_types::SiteNo;
use std::alloc::{AllocError, Global};
use std::snapshot::Snapshot;
use std::sync::Wait;
use std::thread;
use std::thread::{JoinHandle, Threads};

/// Runs the jobs, each once, by one worker for each caller: the job's sites are prepared in a snapshot of the server, and their links
/// installed as one batch. There are 1 to 16 callers, and at most 65,536 jobs. Gives a report of each job, in the order of the jobs. All
/// lists of events that the reports name begin one list. Reports that name one install are of jobs of the same sites. There are no more of
/// these than there are workers. Without jobs it makes no thread, takes no memory and gives no reports.
///
/// # Errors
///
/// - [`FarmFault::NoThread`]: no thread could be made, and no job has run.
/// - [`FarmFault::Memory`]: want of memory. What was installed by then stays so.
pub fn run<
    K: Name + Send + Sync,
    G: Gate + Sync,
    R: Threads + Wait + Sync,
    S: Wait + Drop + Send + Sync,
>(
    rt: &R,
    alloc: Global,
    server: &LinkServer<K, S>,
    jobs: Vec<Seq<SiteNo>>,
    workers: Vec<Caller<K>>,
    gate: &G,
) -> Result<Vec<Report<K>>, FarmFault>
    requires workers { (1 ≤ vec_len workers) × (vec_len workers ≤ 16) }
    requires jobs { vec_len jobs ≤ 65536 }
    ensures jobs { IfOk result (λ reports. jobs_of reports.items ≡ range_with_len 0 (vec_len jobs)) }
    ensures shown { IfOk result (λ reports. All (IsReport K.limits workers.items jobs.items) reports.items) }
    ensures history { IfOk result (λ reports. AreOfOneHistory reports.items) }
    ensures sites { IfOk result (λ reports. AreOfSameSites jobs.items reports.items) }
    ensures installs { IfOk result (λ reports. (serial : ℕ) → installs_of serial reports.items ≤ vec_len workers) }
    ensures idle { vec_len jobs ≡ 0 → IsOk result }
{
    if jobs.len() == 0 {
        return Ok(Vec::new(alloc));
    }
    run_some(rt, alloc, server, jobs, workers, gate)
}

/// Runs the jobs, of which there is at least one, and gives a report of each, as [`run`] does.
fn run_some<
    K: Name + Send + Sync,
    G: Gate + Sync,
    R: Threads + Wait + Sync,
    S: Wait + Drop + Send + Sync,
>(
    rt: &R,
    alloc: Global,
    server: &LinkServer<K, S>,
    jobs: Vec<Seq<SiteNo>>,
    workers: Vec<Caller<K>>,
    gate: &G,
) -> Result<Vec<Report<K>>, FarmFault>
    requires workers { (1 ≤ vec_len workers) × (vec_len workers ≤ 16) }
    requires jobs { vec_len jobs ≤ 65536 }
    ensures jobs { IfOk result (λ reports. jobs_of reports.items ≡ range_with_len 0 (vec_len jobs)) }
    ensures shown { IfOk result (λ reports. All (IsReport K.limits workers.items jobs.items) reports.items) }
    ensures history { IfOk result (λ reports. AreOfOneHistory reports.items) }
    ensures sites { IfOk result (λ reports. AreOfSameSites jobs.items reports.items) }
    ensures installs { IfOk result (λ reports. (serial : ℕ) → installs_of serial reports.items ≤ vec_len workers) }
{
    if !has_thread(rt) {
        return Err(FarmFault::NoThread);
    }
    let all = jobs.as_slice();
    let (queue, pass) = queue_of(rt, alloc, all.len())?;
    let reports = run_queued(rt, alloc, server, all, &queue, pass, workers, gate)?;
    Ok(reports)
}

/// Runs the jobs, which are queued, and gives a report of each, as [`run`] does.
fn run_queued<
    K: Name + Send + Sync,
    G: Gate + Sync,
    R: Threads + Wait + Sync,
    S: Wait + Drop + Send + Sync,
>(
    rt: &R,
    alloc: Global,
    server: &LinkServer<K, S>,
    jobs: &[Seq<SiteNo>],
    queue: &JobQueue,
    pass: JobPass,
    workers: Vec<Caller<K>>,
    gate: &G,
) -> Result<Vec<Report<K>>, AllocError>
    requires workers { (1 ≤ vec_len workers) × (vec_len workers ≤ 16) }
    requires pass { IsPassOf queue.now pass × (view pass ≡ pass_view 1024 (range_with_len 0 (length jobs.now)) []) }
    ensures jobs { IfOk result (λ reports. jobs_of reports.items ≡ range_with_len 0 (length jobs.now)) }
    ensures shown { IfOk result (λ reports. All (IsReport K.limits workers.items jobs.now) reports.items) }
    ensures history { IfOk result (λ reports. AreOfOneHistory reports.items) }
    ensures sites { IfOk result (λ reports. AreOfSameSites jobs.now reports.items) }
    ensures installs { IfOk result (λ reports. (serial : ℕ) → installs_of serial reports.items ≤ vec_len workers) }
{
    let callers = Snapshot::of(&workers);
    let mut pass = pass;
    let mut crew = hire(alloc, queue, &mut pass, workers)?;
    let floor = Shared {
        rt,
        alloc,
        server,
        jobs,
        gate,
        queue,
    };
    serve_all(rt, &floor, &mut crew);
    let reports = finish(&floor, &callers, pass, crew)?;
    Ok(in_order(reports))
}

/// Whether a thread can be made. Of those that are made later, each that can't be has its work done by another one.
fn has_thread<R: Threads>(rt: &R) -> bool {
    is_made(rt, thread::spawn(rt, || ()))
}

/// Whether the thread was made. It waits for it.
fn is_made<R: Threads, E: Drop>(rt: &R, spawned: Result<JoinHandle<()>, E>) -> bool
    ensures made { IfOk spawned (λ _. result ≡ true) }
    ensures refused { IfErr spawned (λ _. result ≡ false) }
{
    match spawned {
        Ok(child) => {
            child.join(rt);
            true
        }
        Err(_) => false,
    }
}

/// All workers take jobs and report them, each in a thread of its own.
fn serve_all<
    K: Name + Send + Sync,
    G: Gate + Sync,
    R: Threads + Wait + Sync,
    S: Wait + Drop + Send + Sync,
>(rt: &R, floor: &Shared<'_, K, G, R, S>, crew: &mut Vec<Worker<K>>)
    requires { All (λ worker. IsPassOf floor.now.queue.now worker.pass × HasPart worker) crew.old.items }
    ensures { AllZip (λ old new. IsPassOf floor.now.queue.now new.pass × Works K.limits floor.now.jobs.now old new) crew.old.items crew.new.items }
{
    at_once(rt, floor, crew.as_mut_slice());
}

/// All reports, once nothing is queued. The last worker takes over what the others took, and runs what they may have left for want of
/// memory.
fn finish<K: Name, G: Gate, R: Wait, S: Wait + Drop>(
    floor: &Shared<'_, K, G, R, S>,
    callers: &Snapshot<Vec<Caller<K>>>,
    pass: JobPass,
    crew: Vec<Worker<K>>,
) -> Result<Vec<Report<K>>, AllocError>
    requires pass { IsPassOf floor.now.queue.now pass × ((view pass).taken ≡ []) }
    requires parts { ((view pass).parts + vec_len crew ≡ 1024) × (1 ≤ vec_len crew) }
    requires crew { All (λ worker. IsPassOf floor.now.queue.now worker.pass × HasOne worker
        × HasReported K.limits callers.now.value.items floor.now.jobs.now worker) crew.items }
    ensures weighs { IfOk result (λ reports. (weight : ℕ → ℕ) → sum_by weight (view pass).put ≡ sum_by weight (jobs_of reports.items)) }
    ensures shown { IfOk result (λ reports. All (IsReport K.limits callers.now.value.items floor.now.jobs.now) reports.items) }
    ensures history { IfOk result (λ reports. AreOfOneHistory reports.items) }
    ensures installs { IfOk result (λ reports. (serial : ℕ) → installs_of serial reports.items ≤ vec_len crew) }
{
    let mut crew = crew;
    let Some(mut lead) = crew.pop() else {
        unreachable!()
    };
    take_over(floor.queue, &mut lead.pass, pass);
    gather(callers, floor.jobs, floor.queue, &mut lead, crew)?;
    floor.work(&mut lead)?;
    let Worker {
        caller,
        pass: _turn,
        reports,
    } = lead;
    learn_all(caller, reports.as_slice());
    Ok(reports)
}

/// Shows that all lists that the reports name begin one: what this caller has seen, once it has learnt each.
fn learn_all<K: Name>(caller: Caller<K>, reports: &[Report<K>])
    ensures { AreOfOneHistory reports.now }
{
    let mut caller = caller;
    for report in reports {
        learn(&mut caller, &report.outcome);
    }
}

/// Learns the lists that the outcome names.
fn learn<K: Name>(caller: &mut Caller<K>, outcome: &JobOutcome<K>)
    ensures own { IsPrefix caller.old caller.new }
    ensures named { All (λ list. IsPrefix list caller.new) (lists_of outcome.now) }
{
    match outcome {
        JobOutcome::Installed(receipt) => caller.learn(&receipt.seen),
        JobOutcome::Stale(first, second) => {
            caller.learn(first);
            caller.learn(second);
        }
        JobOutcome::NotReady(list) => caller.learn(list),
        JobOutcome::Bad(list) => caller.learn(list),
        JobOutcome::Memory => {}
    }
}

/// The reports by rising job.
fn in_order<K: Name>(reports: Vec<Report<K>>) -> Vec<Report<K>>
    ensures all { IsPermutation reports.items result.items }
    ensures rising { IsNonDecreasingBy (λ report. report.job) result.items }
{
    let mut reports = reports;
    reports.sort_unstable_by_key(|report| report.job);
    reports
}
