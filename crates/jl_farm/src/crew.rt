//! The workers of a farm, together.

ghost use Rattle.std.specs.Prelude.{◌≡◌, ◌<◌, ◌≤◌, ◌+◌, ◌-◌, ℕ, length, slice_index_or, All, IfOk, OnOk, vec_len};
ghost use Rattle.crossbeam_queue.specs.Passes.{view, IsPassOf};
ghost use Rattle.jl_farm.specs.ForProofs.Queued.{pass_view};
ghost use Rattle.jl_farm.specs.ForProofs.Work.{IsHired, HasReported, HasOne, HasTaken};

use crate::job_queue::{JobPass, JobQueue, one_more, take_over};
use crate::worker::Worker;
use jl_names::Seq;
use jl_server::{Caller, Name};
use jl_types::SiteNo;
use std::alloc::{AllocError, Global};
use std::snapshot::Snapshot;
use std::thread::{Threads, for_each_mut};

/// A worker of each caller.
pub(crate) fn hire<K: Name>(
    alloc: Global,
    queue: &JobQueue,
    pass: &mut JobPass,
    callers: Vec<Caller<K>>,
) -> Result<Vec<Worker<K>>, AllocError>
    requires pass { IsPassOf queue.now pass.old }
    requires parts { vec_len callers < (view pass.old).parts }
    ensures pass { OnOk result (IsPassOf queue.now pass.new) }
    ensures left { OnOk result (view pass.new ≡ pass_view ((view pass.old).parts - vec_len callers) (view pass.old).put (view pass.old).taken) }
    ensures crew { IfOk result (λ crew. All (λ worker. IsHired callers.items worker × IsPassOf queue.now worker.pass) crew.items) }
    ensures count { IfOk result (λ crew. vec_len crew ≡ vec_len callers) }
{
    let mut callers = callers;
    let mut crew = Vec::with_capacity(alloc, callers.len())?;
    while let Some(caller) = callers.pop() {
        let worker = Worker {
            caller,
            pass: one_more(queue, pass),
            reports: Vec::new(alloc),
        };
        crew.push(worker)?;
    }
    Ok(crew)
}

/// What each of several threads does with what is its own.
pub(crate) trait Task<W> {
    ghost accepts: { Self → W → Type 0 };

    ghost leaves: { Self → W → W → Type 0 };

    /// Does the task by the worker.
    fn serve(&self, worker: &mut W)
        requires { accepts self.now worker.old }
        ensures { leaves self.now worker.old worker.new };
}

/// Does the task in a thread for each worker, and comes back once all have. If no thread can be made, what it would have done is done
/// here.
pub(crate) fn at_once<T: Task<W> + Sync, W: Send, R: Threads + Sync>(
    rt: &R,
    shift: &T,
    workers: &mut [W],
)
    requires { All (T.accepts shift.now) workers.old }
    ensures { (k : ℕ) (d : W) → k < length workers.old → T.leaves shift.now (slice_index_or workers.old k d) (slice_index_or workers.new k d) }
{
    let count = workers.len();
    if count > 0 {
        for_each_mut(rt, workers, count, &|_index, worker| shift.serve(worker));
    }
}

/// The first worker takes over the turns and the reports of the others.
pub(crate) fn gather<K: Name>(
    callers: &Snapshot<Vec<Caller<K>>>,
    jobs: &[Seq<SiteNo>],
    queue: &JobQueue,
    lead: &mut Worker<K>,
    crew: Vec<Worker<K>>,
) -> Result<(), AllocError>
    requires pass { IsPassOf queue.now lead.old.pass }
    requires lead { HasReported K.limits callers.now.value.items jobs.now lead.old }
    requires crew { All (λ worker. IsPassOf queue.now worker.pass × HasOne worker
        × HasReported K.limits callers.now.value.items jobs.now worker) crew.items }
    ensures pass { OnOk result (IsPassOf queue.now lead.new.pass) }
    ensures lead { OnOk result (HasReported K.limits callers.now.value.items jobs.now lead.new) }
    ensures put { OnOk result ((view lead.new.pass).put ≡ (view lead.old.pass).put) }
    ensures parts { OnOk result ((view lead.new.pass).parts ≡ (view lead.old.pass).parts + vec_len crew) }
    ensures taken { OnOk result (HasTaken (vec_len crew) lead.old lead.new) }
{
    let mut crew = crew;
    while let Some(other) = crew.pop() {
        take_in(callers, jobs, queue, lead, other)?;
    }
    Ok(())
}

/// The first worker takes over the turn and the reports of another one.
fn take_in<K: Name>(
    callers: &Snapshot<Vec<Caller<K>>>,
    jobs: &[Seq<SiteNo>],
    queue: &JobQueue,
    lead: &mut Worker<K>,
    other: Worker<K>,
) -> Result<(), AllocError>
    requires turns { IsPassOf queue.now lead.old.pass × IsPassOf queue.now other.pass }
    requires lead { HasReported K.limits callers.now.value.items jobs.now lead.old }
    requires one { HasOne other }
    requires other { HasReported K.limits callers.now.value.items jobs.now other }
    ensures pass { OnOk result (IsPassOf queue.now lead.new.pass) }
    ensures lead { OnOk result (HasReported K.limits callers.now.value.items jobs.now lead.new) }
    ensures put { OnOk result ((view lead.new.pass).put ≡ (view lead.old.pass).put) }
    ensures parts { OnOk result ((view lead.new.pass).parts ≡ (view lead.old.pass).parts + 1) }
    ensures taken { OnOk result (HasTaken 1 lead.old lead.new) }
{
    let Worker {
        caller: _caller,
        pass,
        mut reports,
    } = other;
    lead.reports.append(&mut reports)?;
    take_over(queue, &mut lead.pass, pass);
    Ok(())
}
