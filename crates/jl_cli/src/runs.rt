//! Runs of the modes scan, sketch and run over the lines of an input.

ghost use Rattle.std.specs.Prelude.{◌≡◌, ◌≢◌, ◌≤◌, ◌-◌, ◌^◌, ◌⊎◌, IfErr, IfSome, OnOk, IsErrOf};
ghost use Rattle.std.specs.Io.KnownBytes.{IsAtEnd};
ghost use Rattle.jl_lines.specs.declared.line_fault.LineFault.TheVariants.{Device};
ghost use Rattle.jl_lines.specs.Devices.{HasRisen};
ghost use Rattle.jl_session.specs.Sessions.{new_session};
ghost use Rattle.jl_cli.specs.Modes.{IsAnswer};
ghost use Rattle.jl_lines.specs.Answers.{AnswersAll, AnswersFirst, AnswersRead, AnswersEarlier, LacksFirst, LongIf, LeftBy};

use crate::modes::{ClassFileLines, CoreCommands, SketchLines};
use jl_lines::{LineFault, Sink, Source, answer_input};
use jl_session::Session;
use jl_words::Mode;
use std::alloc::Global;

/// Answers each line of the input, in order, to its end: one line of output for each. What stands
/// after the last newline is a line, too, unless it is empty. The answers to what was read are
/// written before more is read. In the mode run the first line is answered by a new session, and
/// each further one by the session that the line before left.
///
/// # Errors
///
/// - [`LineFault::TooLong`]: the next line has over 2,100,000 bytes without its newline.
/// - [`LineFault::Device`]: a read or a write failed, or there were 2^64 - 1 reads.
/// - [`LineFault::Memory`]: want of memory for the session, the buffers, or the answer to a line.
///
/// Unless a write failed, the answers to some first lines were written whole:
///
/// - to all before the one that is too long;
/// - if a read failed, to all whose newline was read;
/// - for want of memory, at least to those whose newline came with an earlier read than the last one.
pub fn run_lines<R: Source, W: Sink>(
    alloc: Global,
    mode: Mode,
    reader: &mut R,
    writer: &mut W,
) -> Result<(), LineFault>
    // The input was read to its end, and the answers to its lines were written.
    ensures answered { OnOk result (IsAtEnd (R.remaining reader.new)
        × IfSome (R.remaining reader.old) (λ input. AnswersAll (IsAnswer mode) new_session input
        (W.contents writer.old) (W.contents writer.new))) }
    // Unless a write failed, the answers to some first lines were written whole, and the next line
    // is over the limit if one is said to be too long.
    ensures whole { IfErr result
        (λ f. (f ≡ Device → ¬ HasRisen (W.failures writer.old) (W.failures writer.new))
        → IfSome (R.remaining reader.old) (λ input.
        (first : AnswersFirst (IsAnswer mode) new_session input (W.contents writer.old) (W.contents writer.new))
        × LongIf f first.after)) }
    // After a failed read these are all lines of which the newline was read.
    ensures read { IsErrOf result LineFault.Device
        → ¬ HasRisen (W.failures writer.old) (W.failures writer.new)
        → IfSome (R.remaining reader.old) (λ input. AnswersRead (IsAnswer mode) new_session input
        (R.remaining reader.new) (W.contents writer.old) (W.contents writer.new)) }
    // After want of memory that followed a read, these are at least all lines of which the newline came with an earlier read.
    ensures memory { IsErrOf result LineFault.Memory → R.reads reader.new ≢ R.reads reader.old
        → IfSome (R.remaining reader.old) (λ input. AnswersEarlier (IsAnswer mode) new_session input
        (R.before reader.new) (W.contents writer.old) (W.contents writer.new)) }
    ensures device { IsErrOf result LineFault.Device
        → HasRisen (R.failures reader.old) (R.failures reader.new)
        ⊎ (HasRisen (W.failures writer.old) (W.failures writer.new)
        ⊎ (2 ^ 64 - 1 ≤ R.reads reader.new)) }
{
    let mut session = Session::new(alloc)?;
    run_lines_with(alloc, mode, &mut session, reader, writer)
}

/// Answers each line of the input as [`run_lines`] does, from this session on.
///
/// # Errors
///
/// Those of [`run_lines`]. Unless a write failed, the session is as the answered lines left it. After
/// want of memory it may have obeyed the next line, too, and no other.
pub fn run_lines_with<R: Source, W: Sink>(
    alloc: Global,
    mode: Mode,
    session: &mut Session,
    reader: &mut R,
    writer: &mut W,
) -> Result<(), LineFault>
    ensures answered { OnOk result (IsAtEnd (R.remaining reader.new)
        × IfSome (R.remaining reader.old) (λ input. (all : AnswersAll (IsAnswer mode) session.old input
        (W.contents writer.old) (W.contents writer.new)) × (session.new ≡ all.last))) }
    // Unless a write failed, no line was obeyed whose answer wasn't written, but for the next one
    // after want of memory.
    ensures whole { IfErr result
        (λ f. (f ≡ Device → ¬ HasRisen (W.failures writer.old) (W.failures writer.new))
        → IfSome (R.remaining reader.old) (λ input.
        (first : AnswersFirst (IsAnswer mode) session.old input (W.contents writer.old) (W.contents writer.new))
        × LongIf f first.after × LeftBy f (IsAnswer mode) first.last first.after session.new)) }
    ensures read { IsErrOf result LineFault.Device
        → ¬ HasRisen (W.failures writer.old) (W.failures writer.new)
        → IfSome (R.remaining reader.old) (λ input. (read : AnswersRead (IsAnswer mode) session.old input
        (R.remaining reader.new) (W.contents writer.old) (W.contents writer.new))
        × (session.new ≡ read.last)) }
    ensures memory { IsErrOf result LineFault.Memory → R.reads reader.new ≢ R.reads reader.old
        → IfSome (R.remaining reader.old) (λ input. (earlier : AnswersEarlier (IsAnswer mode) session.old input
        (R.before reader.new) (W.contents writer.old) (W.contents writer.new))
        × LacksFirst (IsAnswer mode) earlier.first.last earlier.first.after session.new) }
    ensures device { IsErrOf result LineFault.Device
        → HasRisen (R.failures reader.old) (R.failures reader.new)
        ⊎ (HasRisen (W.failures writer.old) (W.failures writer.new)
        ⊎ (2 ^ 64 - 1 ≤ R.reads reader.new)) }
{
    match mode {
        Mode::Scan => answer_input(alloc, ClassFileLines::new(alloc)?, session, reader, writer),
        Mode::Sketch => answer_input(alloc, SketchLines { alloc }, session, reader, writer),
        Mode::Run => answer_input(alloc, CoreCommands { alloc }, session, reader, writer),
    }
}
