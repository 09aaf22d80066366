//! How a line is answered.

ghost use Rattle.std.specs.Prelude.{◌≡◌, ◌≤◌, ◌++◌, List, ℕ, OnOk, OnErr, length};
ghost use Rattle.jl_lines.specs.Lines.{ended};
ghost use Rattle.jl_lines.specs.Answers.{Lacks};

use std::alloc::AllocError;

/// A way to answer lines by a session, which a line may change.
pub trait Answer<S> {
    // The session before, a line, a text that answers it, and the session afterwards.
    ghost says: { S → List ℕ → List ℕ → S → Type 0 };

    /// Adds the answer to a line, of at most 2,100,000 bytes, and a newline.
    ///
    /// # Errors
    ///
    /// [`AllocError`]. The output stays; the session does, too, or is as an answer leaves it.
    fn answer(
        &mut self,
        session: &mut S,
        line: &[u8],
        output: &mut Vec<u8>,
    ) -> Result<(), AllocError>
        requires { length line.now ≤ 2100000 }
        ensures ok { OnOk result ((text : List ℕ) × says session.old line.now text session.new
            × (output.new.items ≡ output.old.items ++ ended text)) }
        ensures err { OnErr result (output.new.items ≡ output.old.items) }
        ensures lacks { OnErr result (Lacks says session.old line.now session.new) };
}

/// Adds a text and a newline, or nothing if there is no memory.
pub fn add_answer(text: Vec<u8>, output: &mut Vec<u8>) -> Result<(), AllocError>
    ensures ok { OnOk result (output.new.items ≡ output.old.items ++ ended text.items) }
    ensures err { OnErr result (output.new.items ≡ output.old.items) }
{
    let mut text = text;
    text.push(b'\n')?;
    output.extend_from_slice(&text)
}
