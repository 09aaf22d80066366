//! Work that several threads do at once, for the programs and tests of this repository that need threads.
#![tactic(auto)]

use std::thread::{Threads, for_each_mut};

/// What each of several threads does with what is its own.
pub trait Round<W> {
    /// What the thread of this number, from 0, does with its worker.
    fn turn(&self, index: usize, worker: &mut W);
}

/// Does it in as many threads as there are workers, and comes back once all have.
pub fn at_once<T: Round<W> + Sync, W: Send, R: Threads + Sync>(
    rt: &R,
    round: &T,
    workers: &mut [W],
) {
    let count = workers.len();
    if count > 0 {
        for_each_mut(
            rt,
            workers,
            count,
            &|index, worker| { round.turn(index, worker) },
        );
    }
}
