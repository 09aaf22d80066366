//! The queue of jobs, by number. Its rule is that each job is queued or was taken once.

ghost use Rattle.std.specs.Prelude.{◌≡◌, ◌<◌, ◌≤◌, ◌++◌, ◌∷◌, [], ◌-◌, ◌+◌, IfOk, MatchOption};
ghost use Rattle.std.specs.List.{range_with_len};
ghost use Rattle.crossbeam_queue.specs.Passes.{view, IsPassOf, ruled_capacity};
ghost use Rattle.jl_farm.specs.ForProofs.Queued.{pass_view, AreQueued, KnowsAll};

use crossbeam_queue::protocol::{Join, Lesson, Outcome, Protocol, Split};
use crossbeam_queue::{Pass, RuledArrayQueue};
use std::alloc::{AllocError, Global};
use std::collections::LinkedList;
use std::sync::Wait;

/// What a pass has put and taken, and its parts of the right to know the whole. No value of it is made.
pub struct PassView {
    pub parts: u64,
    pub put: LinkedList<usize>,
    pub taken: LinkedList<usize>,
}

/// The rule.
pub struct EachJobOnce;

impl Protocol<usize, PassView> for EachJobOnce {
    ghost use Rattle.std.specs.Prelude.{[]};
    ghost use Rattle.jl_farm.specs.ForProofs.Queued.{pass_view, AreQueued};

    ghost holds = { AreQueued };

    ghost first = { pass_view 1024 [] [] };
}

struct Puts;

impl Outcome<usize, PassView> for Puts {
    ghost then = { λ v x w. w ≡ pass_view v.parts (v.put ++ x ∷ []) v.taken };
}

impl Lesson<usize, PassView> for Puts {
    ghost fact = { KnowsAll };
}

struct Takes;

impl Outcome<usize, PassView> for Takes {
    ghost then = { λ v x w. w ≡ pass_view v.parts v.put (v.taken ++ x ∷ []) };
}

impl Lesson<usize, PassView> for Takes {
    ghost fact = { KnowsAll };
}

/// One part of a pass becomes a pass of its own, which has put and taken nothing; two passes become one.
struct Cut;

impl Split<PassView> for Cut {
    ghost use Rattle.std.specs.Prelude.{[], ◌-◌};
    ghost use Rattle.jl_farm.specs.ForProofs.Queued.{pass_view};

    ghost left = { λ v. pass_view (v.parts - 1) v.put v.taken };

    ghost right = { λ v. pass_view 1 [] [] };
}

impl Join<PassView> for Cut {
    ghost use Rattle.std.specs.Prelude.{[], ◌+◌, ◌++◌};
    ghost use Rattle.jl_farm.specs.ForProofs.Queued.{pass_view};

    ghost both = { λ v w. pass_view (v.parts + w.parts) (v.put ++ w.put) (v.taken ++ w.taken) };

    ghost spent = { pass_view 0 [] [] };
}

/// The queue of jobs.
pub(crate) type JobQueue = RuledArrayQueue<usize, PassView, EachJobOnce>;

/// A right to take jobs.
pub(crate) type JobPass = Pass<usize, PassView>;

/// A queue of the jobs below this number, in their order, and the pass that put them.
pub(crate) fn queue_of<R: Wait>(
    rt: &R,
    alloc: Global,
    jobs: usize,
) -> Result<(JobQueue, JobPass), AllocError>
    ensures { IfOk result (λ r. IsPassOf r.0 r.1 × (view r.1 ≡ pass_view 1024 (range_with_len 0 jobs) [])) }
{
    let (queue, mut pass) = JobQueue::ruled(alloc, jobs.max(1))?;
    put_all(rt, &queue, &mut pass, jobs);
    Ok((queue, pass))
}

/// Puts the jobs below this number, one after another. There is room for each.
fn put_all<R: Wait>(rt: &R, queue: &JobQueue, pass: &mut JobPass, jobs: usize)
    requires pass { IsPassOf queue.now pass.old × (view pass.old ≡ pass_view 1024 [] []) }
    requires room { jobs ≤ ruled_capacity queue.now }
    ensures { IsPassOf queue.now pass.new × (view pass.new ≡ pass_view 1024 (range_with_len 0 jobs) []) }
{
    for job in 0..jobs {
        match queue.push_as::<Puts, R>(rt, pass, job) {
            Ok(()) => {}
            Err(_) => unreachable!(),
        }
    }
}

/// The next job; none once all were taken.
pub(crate) fn next_job<R: Wait>(rt: &R, queue: &JobQueue, pass: &mut JobPass) -> Option<usize>
    requires pass { IsPassOf queue.now pass.old }
    requires part { 0 < (view pass.old).parts }
    ensures pass { IsPassOf queue.now pass.new }
    ensures next { MatchOption result
        ((view pass.new ≡ view pass.old) × KnowsAll (view pass.old) [])
        (λ job. view pass.new ≡ pass_view (view pass.old).parts (view pass.old).put ((view pass.old).taken ++ job ∷ [])) }
{
    queue.pop_as::<Takes, R>(rt, pass)
}

/// A turn for one more worker, which has taken nothing.
pub(crate) fn one_more(queue: &JobQueue, pass: &mut JobPass) -> JobPass
    requires pass { IsPassOf queue.now pass.old }
    requires parts { 1 < (view pass.old).parts }
    ensures turns { IsPassOf queue.now pass.new × IsPassOf queue.now result }
    ensures left { view pass.new ≡ pass_view ((view pass.old).parts - 1) (view pass.old).put (view pass.old).taken }
    ensures new { view result ≡ pass_view 1 [] [] }
{
    queue.another::<Cut>(pass)
}

/// Takes over what another turn has put and taken.
pub(crate) fn take_over(queue: &JobQueue, pass: &mut JobPass, other: JobPass)
    requires turns { IsPassOf queue.now pass.old × IsPassOf queue.now other }
    ensures pass { IsPassOf queue.now pass.new }
    ensures both { view pass.new ≡ pass_view ((view pass.old).parts + (view other).parts) ((view pass.old).put ++ (view other).put) ((view pass.old).taken
        ++ (view other).taken) }
{
    queue.absorb::<Cut>(pass, other);
}
