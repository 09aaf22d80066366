//! How far a report is, for someone who looks on.

use std::io::{IsTerminal, Write};
use std::time::{Clock, Duration, Instant};

/// So many seconds a report may take before it tells how far it is.
const PATIENCE: u64 = 2;
/// So many thousandths of a second later it tells again.
const PAUSE: u64 = 200;
/// The clock is looked at once for so many classes.
const CLASSES_A_LOOK: usize = 64;

/// A line on a terminal, which tells how far a report is once it takes long.
#[derive(Clone, Copy)]
pub(crate) struct Progress {
    /// When the report began, if anyone looks on.
    start: Option<Instant>,
    /// So long after it the line is written next.
    next: Duration,
    /// Whether the line is there.
    is_there: bool,
}

impl Progress {
    /// No line yet, and never one if this is no terminal.
    pub(crate) fn new<R: Clock, E: IsTerminal>(rt: &R, errors: &E) -> Self {
        Progress {
            start: if errors.is_terminal() {
                Instant::now(rt).ok()
            } else {
                None
            },
            next: Duration::from_secs(PATIENCE),
            is_there: false,
        }
    }

    /// So many of all classes are reported: writes that, if it is time.
    pub(crate) fn tell<R: Clock, E: Write>(
        &mut self,
        rt: &R,
        done: usize,
        all: usize,
        errors: &mut E,
    ) {
        if done % CLASSES_A_LOOK != 0 {
            return;
        }
        let Some(elapsed) = self.elapsed(rt) else {
            return;
        };
        if elapsed < self.next {
            return;
        }
        self.next = elapsed.saturating_add(Duration::from_millis(PAUSE));
        if write!(errors, "\rlinkd: {done} of {all} classes").is_ok() {
            self.is_there = true;
        } else {
            self.start = None;
        }
    }

    /// How long the report takes so far, if anyone looks on.
    fn elapsed<R: Clock>(&self, rt: &R) -> Option<Duration> {
        self.start?.elapsed(rt).ok()
    }

    /// Takes the line away, if there is one.
    pub(crate) fn end<E: Write>(&mut self, errors: &mut E) {
        if self.is_there {
            self.is_there = write!(errors, "\r\x1b[K").is_err();
        }
    }
}
