//! Outcomes of jobs.

use jl_server::{Name, Receipt, Seen};

/// The outcome of a job.
#[derive(Drop)]
pub enum JobOutcome<K: Name> {
    /// Its links were installed, by the event of this receipt.
    Installed(Receipt<K>),
    /// Some link had changed between the preparation, after the first list, and the install, which was refused after the second.
    Stale(Seen<K>, Seen<K>),
    /// Some site had no link to prepare after this list.
    NotReady(Seen<K>),
    /// It has no site or over 256, one twice, or one that isn't requested after this list.
    Bad(Seen<K>),
    /// Want of memory.
    Memory,
}

/// A job, and its outcome.
#[derive(Drop)]
pub struct Report<K: Name> {
    /// The job's place in the list of jobs, from 0.
    pub job: usize,
    pub outcome: JobOutcome<K>,
}
