//! What the program does that is called with words.

ghost use Rattle.std.specs.Prelude.{◌≡◌, ◌≤◌, ◌^◌, ◌-◌, ◌⊎◌, map, string_bytes, IfOk, IfErr};
ghost use Rattle.jl_lines.specs.Devices.{HasRisen};
ghost use Rattle.jl_words.specs.declared.words.WordsFault.TheVariants.{BadWords};
ghost use Rattle.jl_words.specs.Words.{AskForNothing};
ghost use Rattle.jl_cli.specs.declared.ending.Ending.TheVariants.{DeviceFailed};
ghost use Rattle.jl_cli.specs.Asked.{DoesAsked};

use crate::ending::Ending;
use crate::farm_lines::run_farm;
use crate::runs::run_lines;
use jl_lines::{Sink, Source};
use jl_words::{Words, WordsFault, read_words};
use std::alloc::Global;
use std::sync::Wait;
use std::thread::Threads;

/// Does what the words ask for, the program's name first, over the lines of an input, and tells how the program ends. It ends with the end
/// of the input once all its lines were answered, and with a failed device if one failed or was read 2^64 - 1 times.
///
/// # Errors
///
/// Those of [`read_words`]. Nothing was read or written then.
pub fn obey_words<H: Threads + Wait + Sync, R: Source, W: Sink>(
    rt: &H,
    alloc: Global,
    words: &[String],
    reader: &mut R,
    writer: &mut W,
) -> Result<Ending, WordsFault>
    ensures answered { IfOk result (λ ending. DoesAsked (map string_bytes words.now) ending (R.remaining reader.old) (R.remaining reader.new)
        (W.contents writer.old) (W.contents writer.new)) }
    ensures device { IfOk result (λ ending. ending ≡ DeviceFailed
        → HasRisen (R.failures reader.old) (R.failures reader.new)
        ⊎ (HasRisen (W.failures writer.old) (W.failures writer.new)
        ⊎ (2 ^ 64 - 1 ≤ R.reads reader.new))) }
    ensures refused { IfErr result (λ fault. fault ≡ BadWords → AskForNothing (map string_bytes words.now)) }
    ensures unchanged { IfErr result (λ fault. (reader.new ≡ reader.old) × (writer.new ≡ writer.old)) }
{
    match read_words(alloc, words)? {
        Words::Lines(mode) => Ok(Ending::of_lines(run_lines(alloc, mode, reader, writer))),
        Words::Farm(workers) => Ok(Ending::of_farm(run_farm(rt, alloc, workers, reader, writer))),
    }
}
