//! A reader or writer for tests, which fails once.

ghost use Rattle.std.specs.Prelude.{◌≡◌, ◌<◌, length, IfOk};
ghost use Rattle.std.specs.Io.{ReadsAtMost, WritesAtMost};
ghost use Rattle.std.specs.Io.KnownBytes.{ReadConsumes, WriteAppends};
ghost use Rattle.jl_lines.specs.Devices.{one_more, CountsFailure};
ghost use Rattle.jl_lines.specs.FailAt.{inner_of, before_of, failing_of, calls_of, failures_of};
ghost use Rattle.jl_lines.specs.FailAt.{IsFailing, CountsCall, FailsThere, FailsAsWithin};

use crate::failed::Failed;
use crate::sink::Sink;
use crate::source::Source;
use std::snapshot::Snapshot;

/// For tests: a source or sink that fails at one call, and is otherwise the one within. It counts
/// by itself.
#[derive(Drop)]
pub struct FailAt<T> {
    inner: T,
    /// What it was before the last read.
    last: Snapshot<T>,
    failing: u64,
    calls: u64,
    failures: u64,
}

impl<T> FailAt<T> {
    /// Fails at this call, counted from 1; with 0 at none.
    pub fn new(inner: T, failing: u64) -> Self
        ensures inner { inner_of result ≡ inner }
        ensures failing { failing_of result ≡ failing }
        ensures none { (calls_of result ≡ 0) × (failures_of result ≡ 0) }
    {
        FailAt {
            last: Snapshot::of(&inner),
            inner,
            failing,
            calls: 0,
            failures: 0,
        }
    }

    /// The source or sink within.
    pub fn into_inner(self) -> T
        ensures { result ≡ inner_of self }
    {
        self.inner
    }
}

impl<T: Source> Source for FailAt<T> {
    ghost remaining = { λ f. T.remaining f.inner };

    ghost before = { λ f. T.remaining f.last.value };

    ghost reads = { λ f. f.calls };

    ghost failures = { λ f. f.failures };

    fn read_some(&mut self, buffer: &mut [u8]) -> Result<usize, Failed>
        ensures room { ReadsAtMost result buffer.new }
        ensures bytes { ReadConsumes (T.remaining (inner_of self.old)) (T.remaining (inner_of self.new)) result buffer.new }
        ensures before { before_of T.remaining self.new ≡ T.remaining (inner_of self.old) }
        ensures reads { calls_of self.new ≡ one_more (calls_of self.old) }
        ensures failures { CountsFailure (failures_of self.old) (failures_of self.new) result }
        ensures call { CountsCall self.old self.new }
        ensures there { FailsThere self.old self.new result }
        ensures unread { IsFailing self.old → buffer.new ≡ buffer.old }
        ensures within { FailsAsWithin T.failures self.old self.new result }
        ensures read { ¬ IsFailing self.old → T.reads (inner_of self.new) ≡ one_more (T.reads (inner_of self.old)) }
    {
        self.calls = self.calls.saturating_add(1);
        self.last = Snapshot::of(&self.inner);
        if self.calls == self.failing {
            self.failures = self.failures.saturating_add(1);
            return Err(Failed);
        }
        match self.inner.read_some(buffer) {
            Ok(count) => Ok(count),
            Err(_) => {
                self.failures = self.failures.saturating_add(1);
                Err(Failed)
            }
        }
    }
}

impl<T: Sink> Sink for FailAt<T> {
    ghost contents = { λ f. T.contents f.inner };

    ghost failures = { λ f. f.failures };

    fn write_some(&mut self, bytes: &[u8]) -> Result<usize, Failed>
        ensures some { IfOk result (λ n. 0 < length bytes.now → 0 < n) }
        ensures bound { WritesAtMost result bytes.now }
        ensures bytes { WriteAppends (T.contents (inner_of self.old)) (T.contents (inner_of self.new)) result bytes.now }
        ensures failures { CountsFailure (failures_of self.old) (failures_of self.new) result }
        ensures call { CountsCall self.old self.new }
        ensures there { FailsThere self.old self.new result }
        ensures within { FailsAsWithin T.failures self.old self.new result }
    {
        self.calls = self.calls.saturating_add(1);
        if self.calls == self.failing {
            self.failures = self.failures.saturating_add(1);
            return Err(Failed);
        }
        match self.inner.write_some(bytes) {
            Ok(count) => Ok(count),
            Err(_) => {
                self.failures = self.failures.saturating_add(1);
                Err(Failed)
            }
        }
    }
}
