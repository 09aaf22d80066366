//! The part of the input that was read and not yet answered.

ghost use Rattle.std.specs.Prelude.{◌≡◌, ◌<◌, ◌≤◌, ◌++◌, length, IfOk, OnErr, IsTrue};
ghost use Rattle.std.specs.Prelude.{◌↔◌, drop, List, [], ℕ};
ghost use Rattle.std.specs.Io.KnownBytes.{Consumes, IsAtEnd, Keeps};
ghost use Rattle.jl_lines.specs.Devices.{one_more, CountsFailure};

use crate::failed::Failed;
use crate::source::Source;
use std::alloc::{AllocError, Global};
use std::marker::Model;

/// The most bytes of a line, without its newline.
pub const MOST_IN_LINE: usize = 2_100_000;

/// The most bytes of one read, which bounds what its lines' answers take.
const MOST_IN_READ: usize = 65_536;

/// The bytes that were read and not yet answered, up to a longest line and its newline. A clause
/// sees these bytes.
#[derive(Drop)]
pub struct LineBuffer {
    bytes: Vec<u8>,
    filled: usize,
}

impl Model for LineBuffer {
    ghost use Rattle.std.specs.Prelude.{List, ℕ, ◌≡◌, ◌≤◌, take, vec_len};

    ghost Value = { List ℕ };

    ghost view = { λ b. take b.filled b.bytes.items };

    ghost invariant = { λ b. (b.filled ≤ vec_len b.bytes) × (vec_len b.bytes ≡ 2100001) };
}

impl LineBuffer {
    /// No bytes yet.
    pub fn new(alloc: Global) -> Result<Self, AllocError>
        ensures { IfOk result (λ b. b ≡ []) }
    {
        let bytes = vec![in alloc; 0u8; MOST_IN_LINE + 1]?;
        Ok(LineBuffer { bytes, filled: 0 })
    }

    /// The bytes.
    pub fn as_slice(&self) -> &[u8]
        ensures value { result.now ≡ self.now }
        ensures bound { length self.now ≤ 2100001 }
    {
        &self.bytes[..self.filled]
    }

    /// Whether there is no room for another byte.
    pub fn is_full(&self) -> bool
        ensures { IsTrue result ↔ (length self.now ≡ 2100001) }
    {
        self.filled == self.bytes.len()
    }

    /// Reads more bytes after these, and tells how many: none at the end of the input.
    ///
    /// # Errors
    ///
    /// [`Failed`] if the read failed. The bytes stay.
    pub fn read_from<R: Source>(&mut self, reader: &mut R) -> Result<usize, Failed>
        requires { length self.old < 2100001 }
        ensures more { IfOk result (λ n. (piece : List ℕ) × (length piece ≡ n)
            × (self.new ≡ self.old ++ piece)
            × Consumes (R.remaining reader.old) (R.remaining reader.new) piece) }
        ensures end { IfOk result (λ n. n ≡ 0 → IsAtEnd (R.remaining reader.new)) }
        ensures err { OnErr result ((self.new ≡ self.old)
            × Keeps (R.remaining reader.old) (R.remaining reader.new)) }
        ensures before { R.before reader.new ≡ R.remaining reader.old }
        ensures reads { R.reads reader.new ≡ one_more (R.reads reader.old) }
        ensures failures { CountsFailure (R.failures reader.old) (R.failures reader.new) result }
    {
        let end = (self.bytes.len() - self.filled).min(MOST_IN_READ) + self.filled;
        let count = reader.read_some(&mut self.bytes[self.filled..end])?;
        self.filled += count;
        Ok(count)
    }

    /// Drops so many bytes from the front.
    pub fn discard(&mut self, count: usize)
        requires { count ≤ length self.old }
        ensures { self.new ≡ drop count self.old }
    {
        self.bytes.copy_within(count..self.filled, 0);
        self.filled -= count;
    }
}
