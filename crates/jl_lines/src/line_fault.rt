//! Why a run over lines ends before its input does.

ghost use Rattle.std.specs.Prelude.{◌≡◌};
ghost use Rattle.jl_lines.specs.declared.line_fault.LineFault.TheVariants.{Device, Memory};

use crate::failed::Failed;
use std::alloc::{AllocError, AllocFailed};
use thiserror::Error;

/// Why a run over lines ends before its input does.
#[derive(Clone, Copy, Debug, PartialEq, Eq, Error)]
pub enum LineFault {
    /// A line has over 2,100,000 bytes without its newline.
    #[error("line too long")]
    TooLong = 2,
    /// A read or a write failed.
    #[error("input or output failed")]
    Device = 3,
    /// Want of memory for a line or its answer.
    #[error("out of memory")]
    Memory = 4,
}

impl From<Failed> for LineFault {
    ghost from_gives = { λ _ f. f ≡ Device };

    fn from(_failed: Failed) -> LineFault {
        LineFault::Device
    }
}

impl From<AllocError> for LineFault {
    ghost from_gives = { λ _ f. f ≡ Memory };

    fn from(_e: AllocError) -> LineFault {
        LineFault::Memory
    }
}

impl<T: Drop> From<AllocFailed<T>> for LineFault {
    ghost from_gives = { λ _ f. f ≡ Memory };

    fn from(_e: AllocFailed<T>) -> LineFault {
        LineFault::Memory
    }
}
