//! What lines are read from.

ghost use Rattle.std.specs.Prelude.{◌≡◌, ℕ, List, Option, None};
ghost use Rattle.std.specs.Io.{ReadsAtMost};
ghost use Rattle.std.specs.Io.KnownBytes.{ReadConsumes};
ghost use Rattle.jl_lines.specs.Devices.{one_more, CountsFailure};

use crate::failed::Failed;

/// What bytes are read from. It counts its reads, and those that failed, up to 2^64 - 1, where a
/// count stays.
pub trait Source {
    // The bytes that reads give from here on, if they are known.
    ghost remaining: { Self → Option (List ℕ) } = { λ _. None };

    // What was left to read before the last read, if that is known.
    ghost before: { Self → Option (List ℕ) } = { λ _. None };

    // How many reads there were.
    ghost reads: { Self → ℕ };

    // How many of them failed.
    ghost failures: { Self → ℕ };

    /// Reads bytes into the front of the buffer, and tells how many: none at the end of the input,
    /// or with no room.
    ///
    /// # Errors
    ///
    /// [`Failed`] if the read failed. No byte is lost by that.
    fn read_some(&mut self, buffer: &mut [u8]) -> Result<usize, Failed>
        ensures room { ReadsAtMost result buffer.new }
        ensures bytes { ReadConsumes (remaining self.old) (remaining self.new) result buffer.new }
        ensures before { before self.new ≡ remaining self.old }
        ensures reads { reads self.new ≡ one_more (reads self.old) }
        ensures failures { CountsFailure (failures self.old) (failures self.new) result };
}
