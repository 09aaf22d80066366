//! Readers and writers of std that count.

ghost use Rattle.std.specs.Prelude.{◌≡◌};

use crate::failed::Failed;
use crate::sink::Sink;
use crate::source::Source;
use std::io::{Read, Write};
use std::snapshot::Snapshot;

/// A reader or writer of std that counts its reads, and the calls that failed, up to 2^64 - 1, where a
/// count stays. A writer is not flushed, so it should hold no bytes back.
#[derive(Drop)]
pub struct Counted<T> {
    inner: T,
    /// What it was before the last read.
    last: Snapshot<T>,
    reads: u64,
    failures: u64,
}

impl<T> Counted<T> {
    ghost use Rattle.jl_lines.specs.Counted.{inner_of, reads_of, failures_of};

    /// Nothing counted yet.
    pub fn new(inner: T) -> Self
        ensures inner { inner_of result ≡ inner }
        ensures none { (reads_of result ≡ 0) × (failures_of result ≡ 0) }
    {
        Counted {
            last: Snapshot::of(&inner),
            inner,
            reads: 0,
            failures: 0,
        }
    }

    /// The reader or writer itself.
    pub fn into_inner(self) -> T
        ensures { result ≡ inner_of self }
    {
        self.inner
    }
}

impl<T: Read> Source for Counted<T> {
    ghost remaining = { λ c. T.remaining c.inner };

    ghost before = { λ c. T.remaining c.last.value };

    ghost reads = { λ c. c.reads };

    ghost failures = { λ c. c.failures };

    fn read_some(&mut self, buffer: &mut [u8]) -> Result<usize, Failed> {
        self.reads = self.reads.saturating_add(1);
        self.last = Snapshot::of(&self.inner);
        match self.inner.read(buffer) {
            Ok(count) => Ok(count),
            Err(_) => {
                self.failures = self.failures.saturating_add(1);
                Err(Failed)
            }
        }
    }
}

impl<T: Write> Sink for Counted<T> {
    ghost contents = { λ c. T.contents c.inner };

    ghost failures = { λ c. c.failures };

    fn write_some(&mut self, bytes: &[u8]) -> Result<usize, Failed> {
        match self.inner.write(bytes) {
            Ok(count) if count > 0 || bytes.is_empty() => Ok(count),
            _ => {
                self.failures = self.failures.saturating_add(1);
                Err(Failed)
            }
        }
    }
}
