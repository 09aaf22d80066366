//! Answers to the lines of an input, however a line is answered.

ghost use Rattle.std.specs.Prelude.{◌≡◌, ◌≢◌, ◌<◌, ◌≤◌, ◌-◌, ◌^◌, ◌⊎◌, List, ℕ, [], length, take};
ghost use Rattle.std.specs.Prelude.{IfErr, IfSome, OnOk, IsErrOf};
ghost use Rattle.std.specs.Io.KnownBytes.{Appends, Keeps, IsAtEnd};
ghost use Rattle.jl_lines.specs.declared.line_fault.LineFault.TheVariants.{TooLong, Device, Memory};
ghost use Rattle.jl_lines.specs.Devices.{one_more, HasRisen};
ghost use Rattle.jl_lines.specs.Lines.{lines_of, NoNewline};
ghost use Rattle.jl_lines.specs.Answers.{AreAnswers, LacksFirst, AnswersAll, AnswersFirst, AnswersRead, AnswersEarlier};
ghost use Rattle.jl_lines.specs.Answers.{LongIf, LeftBy};
ghost use Rattle.jl_lines.specs.ForProofs.Progress.{Writes, StopsBy, Leaves};

use crate::answer::Answer;
use crate::answers::Answers;
use crate::line_buffer::LineBuffer;
use crate::line_fault::LineFault;
use crate::sink::Sink;
use crate::source::Source;
use std::alloc::Global;

/// Answers what was read since a newline was last looked for, and drops the lines that were
/// answered. The answers are written, also those before a fault.
fn answer_piece<S, A: Answer<S>, W: Sink>(
    input: &mut LineBuffer,
    searched: usize,
    session: &mut S,
    answers: &mut Answers<A>,
    writer: &mut W,
) -> Result<(), LineFault>
    requires within { searched ≤ length input.old }
    requires none { NoNewline (take searched input.old) }
    requires empty { answers.old.text.items ≡ [] }
    ensures answered { OnOk result ((w : Writes A.says session.old input.old
        (W.contents writer.old) (W.contents writer.new))
        × (input.new ≡ w.left) × NoNewline w.left × (session.new ≡ w.last)) }
    ensures whole { IfErr result (λ f. f ≢ Device
        → (w : Writes A.says session.old input.old
        (W.contents writer.old) (W.contents writer.new))
        × StopsBy f A.says w.last w.left session.new × (answers.new.text.items ≡ [])) }
    ensures none { OnOk result (answers.new.text.items ≡ []) }
    ensures room { OnOk result (length input.new < 2100001) }
    ensures ok { OnOk result (W.failures writer.new ≡ W.failures writer.old) }
    ensures device { IsErrOf result LineFault.Device
        → W.failures writer.new ≡ one_more (W.failures writer.old) }
{
    let answered = answers.answer_lines(session, input.as_slice(), searched);
    answers.write_to(writer)?;
    let used = answered?;
    if used == 0 && input.is_full() {
        return Err(LineFault::TooLong);
    }
    input.discard(used);
    Ok(())
}

/// Answers what stands after the last newline, if anything does.
fn answer_rest<S, A: Answer<S>, W: Sink>(
    rest: &[u8],
    session: &mut S,
    answers: &mut Answers<A>,
    writer: &mut W,
) -> Result<(), LineFault>
    requires short { length rest.now ≤ 2100000 }
    requires one { NoNewline rest.now }
    requires empty { answers.old.text.items ≡ [] }
    ensures answered { OnOk result ((output : List ℕ)
        × AreAnswers A.says session.old (lines_of rest.now) output session.new
        × Appends (W.contents writer.old) (W.contents writer.new) output) }
    ensures whole { IfErr result (λ f. f ≢ Device
        → Keeps (W.contents writer.old) (W.contents writer.new) × (f ≢ TooLong)
        × LacksFirst A.says session.old (lines_of rest.now) session.new) }
    ensures ok { OnOk result (W.failures writer.new ≡ W.failures writer.old) }
    ensures device { IsErrOf result LineFault.Device
        → W.failures writer.new ≡ one_more (W.failures writer.old) }
{
    if !rest.is_empty() {
        answers.answer(session, rest)?;
    }
    answers.write_to(writer)?;
    Ok(())
}

/// Answers each line of what is read, in order, to its end.
fn answer_all<S, A: Answer<S>, R: Source, W: Sink>(
    input: &mut LineBuffer,
    session: &mut S,
    answers: &mut Answers<A>,
    reader: &mut R,
    writer: &mut W,
) -> Result<(), LineFault>
    requires unread { input.old ≡ [] }
    requires none { answers.old.text.items ≡ [] }
    ensures answered { OnOk result (IsAtEnd (R.remaining reader.new)
        × IfSome (R.remaining reader.old) (λ text. (all : AnswersAll A.says session.old text
        (W.contents writer.old) (W.contents writer.new)) × (session.new ≡ all.last))) }
    ensures left { IfErr result (λ f. Leaves A.says session.old session.new (R.remaining reader.old)
        (R.remaining reader.new) (R.before reader.new) (W.contents writer.old) (W.contents writer.new)
        (HasRisen (W.failures writer.old) (W.failures writer.new)) f) }
    ensures ok { OnOk result (W.failures writer.new ≡ W.failures writer.old) }
    ensures device { IsErrOf result LineFault.Device
        → HasRisen (R.failures reader.old) (R.failures reader.new)
        ⊎ (HasRisen (W.failures writer.old) (W.failures writer.new)
        ⊎ (2 ^ 64 - 1 ≤ R.reads reader.new)) }
{
    for _ in 0..u64::MAX {
        let searched = input.as_slice().len();
        if input.read_from(reader)? == 0 {
            return answer_rest(input.as_slice(), session, answers, writer);
        }
        answer_piece(input, searched, session, answers, writer)?;
    }
    Err(LineFault::Device)
}

/// Answers each line of the input, in order, to its end, from this session on.
///
/// # Errors
///
/// - [`LineFault::TooLong`]: the next line has over 2,100,000 bytes without its newline.
/// - [`LineFault::Device`]: a read or a write failed, or there were 2^64 - 1 reads.
/// - [`LineFault::Memory`]: want of memory for the buffers or the answer to a line.
///
/// Unless a write failed, the session is as the answered lines left it. After want of memory it may have obeyed the next line, too.
pub fn answer_input<S, A: Answer<S> + Drop, R: Source, W: Sink>(
    alloc: Global,
    by: A,
    session: &mut S,
    reader: &mut R,
    writer: &mut W,
) -> Result<(), LineFault>
    ensures answered { OnOk result (IsAtEnd (R.remaining reader.new)
        × IfSome (R.remaining reader.old) (λ input. (all : AnswersAll A.says session.old input
        (W.contents writer.old) (W.contents writer.new)) × (session.new ≡ all.last))) }
    ensures whole { IfErr result
        (λ f. (f ≡ Device → ¬ HasRisen (W.failures writer.old) (W.failures writer.new))
        → IfSome (R.remaining reader.old) (λ input.
        (first : AnswersFirst A.says session.old input (W.contents writer.old) (W.contents writer.new))
        × LongIf f first.after × LeftBy f A.says first.last first.after session.new)) }
    ensures read { IsErrOf result LineFault.Device
        → ¬ HasRisen (W.failures writer.old) (W.failures writer.new)
        → IfSome (R.remaining reader.old) (λ input. (read : AnswersRead A.says session.old input
        (R.remaining reader.new) (W.contents writer.old) (W.contents writer.new))
        × (session.new ≡ read.last)) }
    ensures memory { IsErrOf result LineFault.Memory → R.reads reader.new ≢ R.reads reader.old
        → IfSome (R.remaining reader.old) (λ input. (earlier : AnswersEarlier A.says session.old input
        (R.before reader.new) (W.contents writer.old) (W.contents writer.new))
        × LacksFirst A.says earlier.first.last earlier.first.after session.new) }
    ensures ok { OnOk result (W.failures writer.new ≡ W.failures writer.old) }
    ensures device { IsErrOf result LineFault.Device
        → HasRisen (R.failures reader.old) (R.failures reader.new)
        ⊎ (HasRisen (W.failures writer.old) (W.failures writer.new)
        ⊎ (2 ^ 64 - 1 ≤ R.reads reader.new)) }
{
    let mut input = LineBuffer::new(alloc)?;
    let mut answers = Answers::new(alloc, by);
    answer_all(&mut input, session, &mut answers, reader, writer)
}
