//! Workers.

use crate::job_queue::JobPass;
use crate::report::Report;
use jl_server::{Caller, Name};

/// A caller of the server with a turn at the queue, and the reports of the jobs that it took, in that order.
#[derive(Drop)]
pub(crate) struct Worker<K: Name> {
    pub(crate) caller: Caller<K>,
    pub(crate) pass: JobPass,
    pub(crate) reports: Vec<Report<K>>,
}
