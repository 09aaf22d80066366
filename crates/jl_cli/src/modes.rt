//! How a line of the modes scan, sketch and run is answered.

ghost use Rattle.std.specs.Prelude.{◌≡◌, vec_len};
ghost use Rattle.jl_words.specs.declared.words.Mode.TheVariants as mode;
ghost use Rattle.jl_cli.specs.Modes.{IsAnswer};

use jl_lines::{Answer, MOST_IN_LINE, add_answer};
use jl_session::{Session, add_scan_answer, sketch_answer};
use std::alloc::{AllocError, Global};

/// Answers lines of the mode scan: class files in hexadecimal.
#[derive(Drop)]
pub(crate) struct ClassFileLines {
    alloc: Global,
    /// For the bytes of a line.
    room: Vec<u8>,
    ghost roomy: { vec_len room ≡ 1050000 },
}

impl ClassFileLines {
    /// With room for the bytes of a longest line.
    pub(crate) fn new(alloc: Global) -> Result<Self, AllocError> {
        let room = vec![in alloc; 0u8; MOST_IN_LINE / 2]?;
        Ok(ClassFileLines { alloc, room })
    }
}

impl Answer<Session> for ClassFileLines {
    ghost says = { IsAnswer mode.Scan };

    fn answer(
        &mut self,
        _session: &mut Session,
        line: &[u8],
        output: &mut Vec<u8>,
    ) -> Result<(), AllocError> {
        let before = output.len();
        add_scan_answer(self.alloc, line, &mut self.room, output)?;
        if output.push(b'\n').is_err() {
            output.truncate(before);
            return Err(AllocError);
        }
        Ok(())
    }
}

/// Answers lines of the mode sketch.
#[derive(Drop)]
pub(crate) struct SketchLines {
    pub(crate) alloc: Global,
}

impl Answer<Session> for SketchLines {
    ghost says = { IsAnswer mode.Sketch };

    fn answer(
        &mut self,
        _session: &mut Session,
        line: &[u8],
        output: &mut Vec<u8>,
    ) -> Result<(), AllocError> {
        let text = sketch_answer(self.alloc, line)?;
        add_answer(text, output)
    }
}

/// Answers lines of the mode run: commands to the session.
#[derive(Drop)]
pub(crate) struct CoreCommands {
    pub(crate) alloc: Global,
}

impl Answer<Session> for CoreCommands {
    ghost says = { IsAnswer mode.Run };

    fn answer(
        &mut self,
        session: &mut Session,
        line: &[u8],
        output: &mut Vec<u8>,
    ) -> Result<(), AllocError> {
        let text = session.answer_text(self.alloc, line)?;
        add_answer(text, output)
    }
}
