//! A farm over the lines of an input.

ghost use Rattle.std.specs.Prelude.{◌≡◌, ◌≢◌, ◌≤◌, ◌-◌, ◌^◌, ◌⊎◌, [], vec_len, IfErr, IfSome, OnOk, IsErrOf};
ghost use Rattle.std.specs.Io.KnownBytes.{Appends, Keeps, IsAtEnd};
ghost use Rattle.core.specs.declared.marker.Brand.{Brand};
ghost use Rattle.jl_types.specs.Events.Limits.{fixed};
ghost use Rattle.jl_lines.specs.declared.line_fault.LineFault.TheVariants.{Device, Memory};
ghost use Rattle.jl_cli.specs.declared.farm_fault.FarmLineFault.TheVariants.{Line};
ghost use Rattle.jl_lines.specs.Devices.{one_more, HasRisen};
ghost use Rattle.jl_lines.specs.Lines.{ended};
ghost use Rattle.jl_lines.specs.Answers.{AnswersFirst, AnswersRead};
ghost use Rattle.jl_cli.specs.Farms.{IsFarmAnswer, FarmsAll, FarmsEarlier, FarmLongIf};

use crate::farm::farm_text;
use crate::farm_fault::FarmLineFault;
use crate::served::ServerCommands;
use jl_lines::{LineFault, Sink, Source, answer_input, write_all};
use jl_server::{Caller, Name, Parts};
use std::alloc::Global;
use std::marker::Brand;
use std::sync::Wait;
use std::thread::Threads;

/// The most places that may be requested.
const MOST_SITES: u32 = 65_536;

/// Writes the last line.
///
/// # Errors
///
/// [`LineFault::Memory`], before anything is written; [`LineFault::Device`], if a write failed.
fn write_last<W: Sink>(text: Vec<u8>, writer: &mut W) -> Result<(), LineFault>
    ensures written { OnOk result (Appends (W.contents writer.old) (W.contents writer.new) (ended text.items)) }
    ensures memory { IfErr result (λ f. f ≢ Device → (f ≡ Memory)
        × Keeps (W.contents writer.old) (W.contents writer.new)) }
    ensures device { IsErrOf result LineFault.Device → W.failures writer.new ≡ one_more (W.failures writer.old) }
{
    let mut text = text;
    text.push(b'\n')?;
    write_all(writer, &text)?;
    Ok(())
}

/// Answers the lines by one caller of the server, and runs the farm by the others.
fn run_on<
    K: Name + Send + Sync,
    H: Threads + Wait + Sync,
    S: Wait + Drop + Send + Sync,
    R: Source,
    W: Sink,
>(
    served: &ServerCommands<'_, K, H, S>,
    caller: &mut Caller<K>,
    workers: Vec<Caller<K>>,
    reader: &mut R,
    writer: &mut W,
) -> Result<(), FarmLineFault>
    requires fresh { caller.old ≡ [] }
    requires workers { (1 ≤ vec_len workers) × (vec_len workers ≤ 16) }
    requires sites { K.limits.sites ≤ 65536 }
    ensures answered { OnOk result (IsAtEnd (R.remaining reader.new)
        × IfSome (R.remaining reader.old) (λ input. FarmsAll K K.limits input (W.contents writer.old) (W.contents writer.new))) }
    ensures whole { IfErr result
        (λ fault. (fault ≡ Line Device → ¬ HasRisen (W.failures writer.old) (W.failures writer.new))
        → IfSome (R.remaining reader.old) (λ input.
        (first : AnswersFirst (IsFarmAnswer K.limits) [] input (W.contents writer.old) (W.contents writer.new))
        × FarmLongIf fault first.after)) }
    ensures read { IsErrOf result (Line Device)
        → ¬ HasRisen (W.failures writer.old) (W.failures writer.new)
        → IfSome (R.remaining reader.old) (λ input. AnswersRead (IsFarmAnswer K.limits) [] input
        (R.remaining reader.new) (W.contents writer.old) (W.contents writer.new)) }
    ensures memory { IsErrOf result (Line Memory) → R.reads reader.new ≢ R.reads reader.old
        → IfSome (R.remaining reader.old) (λ input. FarmsEarlier K.limits input
        (R.before reader.new) (W.contents writer.old) (W.contents writer.new)) }
    ensures device { IsErrOf result (Line Device)
        → HasRisen (R.failures reader.old) (R.failures reader.new)
        ⊎ (HasRisen (W.failures writer.old) (W.failures writer.new)
        ⊎ (2 ^ 64 - 1 ≤ R.reads reader.new)) }
{
    answer_input(served.alloc, served.again(), caller, reader, writer)?;
    let text = farm_text(served, caller, workers)?;
    write_last(text, writer)?;
    Ok(())
}

/// Starts the server of these parts, and runs on it.
fn run_started<K: Name + Send + Sync, H: Threads + Wait + Sync, R: Source, W: Sink>(
    rt: &H,
    alloc: Global,
    parts: Parts,
    reader: &mut R,
    writer: &mut W,
) -> Result<(), FarmLineFault>
    requires book { parts.book ≡ K.book }
    requires sites { (parts.limits ≡ K.limits) × (parts.limits.sites ≤ 65536) }
    requires callers { (2 ≤ parts.callers) × (parts.callers ≤ 17) }
    ensures answered { OnOk result (IsAtEnd (R.remaining reader.new)
        × IfSome (R.remaining reader.old) (λ input. FarmsAll K K.limits input (W.contents writer.old) (W.contents writer.new))) }
    ensures whole { IfErr result
        (λ fault. (fault ≡ Line Device → ¬ HasRisen (W.failures writer.old) (W.failures writer.new))
        → IfSome (R.remaining reader.old) (λ input.
        (first : AnswersFirst (IsFarmAnswer K.limits) [] input (W.contents writer.old) (W.contents writer.new))
        × FarmLongIf fault first.after)) }
    ensures read { IsErrOf result (Line Device)
        → ¬ HasRisen (W.failures writer.old) (W.failures writer.new)
        → IfSome (R.remaining reader.old) (λ input. AnswersRead (IsFarmAnswer K.limits) [] input
        (R.remaining reader.new) (W.contents writer.old) (W.contents writer.new)) }
    ensures memory { IsErrOf result (Line Memory) → R.reads reader.new ≢ R.reads reader.old
        → IfSome (R.remaining reader.old) (λ input. FarmsEarlier K.limits input
        (R.before reader.new) (W.contents writer.old) (W.contents writer.new)) }
    ensures device { IsErrOf result (Line Device)
        → HasRisen (R.failures reader.old) (R.failures reader.new)
        ⊎ (HasRisen (W.failures writer.old) (W.failures writer.new)
        ⊎ (2 ^ 64 - 1 ≤ R.reads reader.new)) }
{
    let Ok((server, mut callers)) = parts.start::<K, &H>(alloc, rt) else {
        return Err(FarmLineFault::Line(LineFault::Memory));
    };
    let Some(caller) = callers.pop() else {
        unreachable!()
    };
    let mut caller = caller;
    let served = ServerCommands {
        rt,
        alloc,
        server: &server,
    };
    run_on(&served, &mut caller, callers, reader, writer)
}

/// Answers each line of the input, in order, to its end, as the mode run does, but by a link server. Preparations, installs, calls and
/// lists of links are no commands here. Then each requested site is a job of a farm of so many workers, from 1 to 16. One more line has
/// the links that they leave and the outcome of each job. It waits for its threads.
///
/// # Errors
///
/// - [`FarmLineFault::Line`]: why no more lines are answered, as in the mode run, and there is no last line. Want of memory for the
///   server or for the last line, or a failed write of it, is one, too. Unless a write failed, the answers to all lines before were
///   written whole.
/// - [`FarmLineFault::Farm`]: the farm has no reports. The answers to all lines were written, and no last line.
pub fn run_farm<H: Threads + Wait + Sync, R: Source, W: Sink>(
    rt: &H,
    alloc: Global,
    workers: u8,
    reader: &mut R,
    writer: &mut W,
) -> Result<(), FarmLineFault>
    requires { (1 ≤ workers) × (workers ≤ 16) }
    // The input was read to its end, and the answers to its lines were written, and then the last line.
    ensures answered { OnOk result (IsAtEnd (R.remaining reader.new)
        × IfSome (R.remaining reader.old) (λ input. FarmsAll Brand (fixed 65536) input (W.contents writer.old) (W.contents writer.new))) }
    // Unless a write failed, the answers to some first lines were written whole, and nothing else. If a line is said to be too long, the
    // next one is over the limit. If the farm failed, there is no next line.
    ensures whole { IfErr result
        (λ fault. (fault ≡ Line Device → ¬ HasRisen (W.failures writer.old) (W.failures writer.new))
        → IfSome (R.remaining reader.old) (λ input.
        (first : AnswersFirst (IsFarmAnswer (fixed 65536)) [] input (W.contents writer.old) (W.contents writer.new))
        × FarmLongIf fault first.after)) }
    // After a failed read these are all lines of which the newline was read.
    ensures read { IsErrOf result (Line Device)
        → ¬ HasRisen (W.failures writer.old) (W.failures writer.new)
        → IfSome (R.remaining reader.old) (λ input. AnswersRead (IsFarmAnswer (fixed 65536)) [] input
        (R.remaining reader.new) (W.contents writer.old) (W.contents writer.new)) }
    // After want of memory that followed a read, these are at least all lines of which the newline came with an earlier read.
    ensures memory { IsErrOf result (Line Memory) → R.reads reader.new ≢ R.reads reader.old
        → IfSome (R.remaining reader.old) (λ input. FarmsEarlier (fixed 65536) input
        (R.before reader.new) (W.contents writer.old) (W.contents writer.new)) }
    ensures device { IsErrOf result (Line Device)
        → HasRisen (R.failures reader.old) (R.failures reader.new)
        ⊎ (HasRisen (W.failures writer.old) (W.failures writer.new)
        ⊎ (2 ^ 64 - 1 ≤ R.reads reader.new)) }
{
    match Parts::new(alloc, MOST_SITES, usize::from(workers) + 1) {
        Ok(parts) => run_started::<Brand, H, R, W>(rt, alloc, parts, reader, writer),
        Err(_) => Err(FarmLineFault::Line(LineFault::Memory)),
    }
}
