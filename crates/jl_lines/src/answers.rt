//! The answers to lines, gathered until they are written.

ghost use Rattle.std.specs.Prelude.{◌≡◌, ◌<◌, ◌≤◌, ◌++◌, [], ◌∷◌, List, ℕ, length, take};
ghost use Rattle.std.specs.Prelude.{IfOk, OnOk, OnErr, MatchOption, MatchResult};
ghost use Rattle.std.specs.Io.KnownBytes.{Appends};
ghost use Rattle.jl_lines.specs.Devices.{CountsFailure};
ghost use Rattle.jl_lines.specs.Answers.{Lacks};
ghost use Rattle.jl_lines.specs.Lines.{newline, NoNewline, ended};
ghost use Rattle.jl_lines.specs.ForProofs.Progress.{IsFirstNewline, Gathers, LacksNext};

use crate::answer::Answer;
use crate::failed::Failed;
use crate::sink::Sink;
use memchr::memchr;
use std::alloc::{AllocError, Global};

/// The answers that aren't written yet, each with a newline.
#[derive(Drop)]
pub(crate) struct Answers<A> {
    by: A,
    text: Vec<u8>,
}

impl<A> Answers<A> {
    /// No answers yet.
    pub(crate) fn new(alloc: Global, by: A) -> Self
        ensures { result.text.items ≡ [] }
    {
        Answers {
            by,
            text: Vec::new(alloc),
        }
    }

    /// Adds the answer to a line.
    ///
    /// # Errors
    ///
    /// [`AllocError`]. The answers stay; the line's command may have been obeyed.
    pub(crate) fn answer<S>(&mut self, session: &mut S, line: &[u8]) -> Result<(), AllocError>
    where
        A: Answer<S>,
        requires { length line.now ≤ 2100000 }
        ensures ok { OnOk result ((text : List ℕ) × A.says session.old line.now text session.new
            × (self.new.text.items ≡ self.old.text.items ++ ended text)) }
        ensures err { OnErr result (self.new.text.items ≡ self.old.text.items) }
        ensures lacks { OnErr result (Lacks A.says session.old line.now session.new) }
    {
        self.by.answer(session, line, &mut self.text)
    }

    /// Adds the answer to each whole line of the text, in which no newline stands before
    /// `searched`. Tells how many bytes these lines have.
    ///
    /// # Errors
    ///
    /// [`AllocError`]. The answers to the lines before were added; the next line's command may have been obeyed.
    pub(crate) fn answer_lines<S>(
        &mut self,
        session: &mut S,
        text: &[u8],
        searched: usize,
    ) -> Result<usize, AllocError>
    where
        A: Answer<S>,
        requires short { length text.now ≤ 2100001 }
        requires within { searched ≤ length text.now }
        requires none { NoNewline (take searched text.now) }
        ensures gathered { (g : Gathers A.says session.old text.now self.old.text.items
            self.new.text.items)
            × MatchResult result
            (λ used. (used ≡ length g.done) × NoNewline g.left × (session.new ≡ g.last))
            (λ _. LacksNext A.says g.last g.left session.new) }
        ensures bound { IfOk result (λ used. used ≤ length text.now) }
    {
        let mut rest = text;
        let mut searched = searched;
        while let Some((line, later)) = first_line(rest, searched) {
            self.answer(session, line)?;
            rest = later;
            searched = 0;
        }
        Ok(text.len() - rest.len())
    }

    /// Writes the answers, all of them, and has none then.
    ///
    /// # Errors
    ///
    /// [`Failed`] if a write failed.
    pub(crate) fn write_to<W: Sink>(&mut self, writer: &mut W) -> Result<(), Failed>
        ensures written { OnOk result (Appends (W.contents writer.old) (W.contents writer.new)
            self.old.text.items) }
        ensures none { OnOk result (self.new.text.items ≡ []) }
        ensures failures { CountsFailure (W.failures writer.old) (W.failures writer.new) result }
    {
        write_all(writer, &self.text)?;
        self.text.clear();
        Ok(())
    }
}

/// The first whole line, and what stands after its newline. No newline stands before `searched`.
fn first_line(text: &[u8], searched: usize) -> Option<(&[u8], &[u8])>
    requires within { searched ≤ length text.now }
    requires none { NoNewline (take searched text.now) }
    ensures { MatchOption result (NoNewline text.now)
        (λ parts. NoNewline parts.0.now × (text.now ≡ parts.0.now ++ newline ∷ parts.1.now)) }
{
    let end = newline_from(text, searched)?;
    Some((&text[..end], &text[end + 1..]))
}

/// Where the first newline stands. None stands before `searched`.
fn newline_from(text: &[u8], searched: usize) -> Option<usize>
    requires within { searched ≤ length text.now }
    requires none { NoNewline (take searched text.now) }
    ensures { MatchOption result (NoNewline text.now) (IsFirstNewline text.now) }
{
    let at = memchr(b'\n', &text[searched..])?;
    Some(searched + at)
}

/// Writes all of the bytes.
pub fn write_all<W: Sink>(writer: &mut W, bytes: &[u8]) -> Result<(), Failed>
    ensures written { OnOk result
        (Appends (W.contents writer.old) (W.contents writer.new) bytes.now) }
    ensures failures { CountsFailure (W.failures writer.old) (W.failures writer.new) result }
{
    let mut rest = bytes;
    while !rest.is_empty() {
        let count = writer.write_some(rest)?;
        rest = &rest[count..];
    }
    Ok(())
}
