//! A farm of compilers: workers, each in a thread of its own, take jobs from a queue; a job's sites are prepared in a snapshot of a link
//! server, and installed as one batch.
//!
//! The contract is that of [`run`]: there is one report for each job, and what a report says of its job is shown by the lists of accepted
//! events that it names (`specs/Reports`). `specs/ForProofs` has the rule of the queue, a means of proof.
#![tactic(auto)]

mod crew;
mod farm;
mod fault;
mod gate;
mod job_queue;
mod report;
mod shared;
mod worker;

pub use farm::run;
pub use fault::FarmFault;
pub use gate::Gate;
pub use report::{JobOutcome, Report};
