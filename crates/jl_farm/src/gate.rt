//! What is told of jobs while they run.

/// What is told of each job, by the thread that runs it. It may hold the job back, which holds its worker back.
pub trait Gate {
    /// The job is next to be prepared.
    fn before_prepare(&self, job: usize);

    /// The job's links were looked up, and are next to be installed.
    fn before_install(&self, _job: usize) {}

    /// The job has its outcome, be that an install or not.
    fn after_install(&self, job: usize);
}
