//! How the program ends.

ghost use Rattle.std.specs.Prelude.{◌≡◌};
ghost use Rattle.std.specs.Io.KnownBytes.{Appends};
ghost use Rattle.jl_lines.specs.Devices.{HasRisen};

use crate::farm_fault::FarmLineFault;
use jl_lines::{LineFault, Sink, write_all};
use jl_words::WordsFault;

/// How the program ends.
#[derive(Clone, Copy, Debug, PartialEq, Eq)]
pub enum Ending {
    /// The input ended.
    InputEnded,
    /// The words ask for nothing.
    BadWords,
    /// The farm has no reports.
    FarmFailed,
    /// A line has over 2,100,000 bytes without its newline.
    LineTooLong,
    /// A read or a write failed.
    DeviceFailed,
    /// A report has no class.
    NothingReported,
    /// Want of memory for the words, a line or its answer, or a farm's server or last line.
    OutOfMemory,
}

impl Ending {
    ghost use Rattle.jl_cli.specs.Endings.{status_of, line_of, lines_end, farm_end, ending_of};

    /// The exit status.
    pub fn status(self) -> u8
        ensures { result ≡ status_of self }
    {
        match self {
            Ending::InputEnded => 0,
            Ending::BadWords => 1,
            Ending::FarmFailed => 1,
            Ending::LineTooLong => 2,
            Ending::DeviceFailed => 3,
            Ending::OutOfMemory => 4,
            Ending::NothingReported => 5,
        }
    }

    /// The line on the standard error, with its newline; empty if the input ended.
    pub fn line(self) -> &'static str
        ensures { result.now ≡ line_of self }
    {
        match self {
            Ending::InputEnded => "",
            Ending::BadWords => "linkd: bad words\n",
            Ending::FarmFailed => "linkd: farm failed\n",
            Ending::LineTooLong => "linkd: line too long\n",
            Ending::DeviceFailed => "linkd: input or output failed\n",
            Ending::OutOfMemory => "linkd: out of memory\n",
            Ending::NothingReported => "linkd: nothing to report\n",
        }
    }

    /// How a run of lines ends the program.
    pub fn of_lines(outcome: Result<(), LineFault>) -> Ending
        ensures { result ≡ ending_of lines_end outcome }
    {
        match outcome {
            Ok(()) => Ending::InputEnded,
            Err(fault) => fault.into(),
        }
    }

    /// How a farm over lines ends it.
    pub fn of_farm(outcome: Result<(), FarmLineFault>) -> Ending
        ensures { result ≡ ending_of farm_end outcome }
    {
        match outcome {
            Ok(()) => Ending::InputEnded,
            Err(fault) => fault.into(),
        }
    }

    /// Writes the line, if there is one, and gives the exit status, also if the write failed.
    pub fn tell<W: Sink>(self, errors: &mut W) -> u8
        ensures status { result ≡ status_of self }
        ensures line { ¬ HasRisen (W.failures errors.old) (W.failures errors.new)
            → Appends (W.contents errors.old) (W.contents errors.new) (line_of self) }
    {
        let _ = write_all(errors, self.line().as_bytes());
        self.status()
    }
}

impl From<WordsFault> for Ending {
    ghost use Rattle.jl_cli.specs.Endings.{words_end};

    ghost from_gives = { λ fault ending. ending ≡ words_end fault };

    fn from(fault: WordsFault) -> Ending {
        match fault {
            WordsFault::BadWords => Ending::BadWords,
            WordsFault::Memory => Ending::OutOfMemory,
        }
    }
}

impl From<LineFault> for Ending {
    ghost use Rattle.jl_cli.specs.Endings.{lines_end};

    ghost from_gives = { λ fault ending. ending ≡ lines_end fault };

    fn from(fault: LineFault) -> Ending {
        match fault {
            LineFault::TooLong => Ending::LineTooLong,
            LineFault::Device => Ending::DeviceFailed,
            LineFault::Memory => Ending::OutOfMemory,
        }
    }
}

impl From<FarmLineFault> for Ending {
    ghost use Rattle.jl_cli.specs.Endings.{farm_end};

    ghost from_gives = { λ fault ending. ending ≡ farm_end fault };

    fn from(fault: FarmLineFault) -> Ending {
        match fault {
            FarmLineFault::Line(fault) => fault.into(),
            FarmLineFault::Farm(_) => Ending::FarmFailed,
        }
    }
}
