//! What answers are written to.

ghost use Rattle.std.specs.Prelude.{◌≡◌, ◌<◌, ℕ, List, Option, None, length, IfOk};
ghost use Rattle.std.specs.Io.{WritesAtMost};
ghost use Rattle.std.specs.Io.KnownBytes.{WriteAppends};
ghost use Rattle.jl_lines.specs.Devices.{CountsFailure};

use crate::failed::Failed;

/// What bytes are written to. It counts the writes that failed, up to 2^64 - 1, where the count
/// stays.
pub trait Sink {
    // The bytes that the writer holds, if they are known.
    ghost contents: { Self → Option (List ℕ) } = { λ _. None };

    // How many writes failed.
    ghost failures: { Self → ℕ };

    /// Writes bytes from the front of these, and tells how many: at least one, if there is one.
    ///
    /// # Errors
    ///
    /// [`Failed`] if the write failed, or took none of some bytes. Nothing was written then.
    fn write_some(&mut self, bytes: &[u8]) -> Result<usize, Failed>
        ensures some { IfOk result (λ n. 0 < length bytes.now → 0 < n) }
        ensures bound { WritesAtMost result bytes.now }
        ensures bytes { WriteAppends (contents self.old) (contents self.new) result bytes.now }
        ensures failures { CountsFailure (failures self.old) (failures self.new) result };
}
