//! Why a farm over lines ends before its last line is written.

ghost use Rattle.std.specs.Prelude.{◌≡◌};
ghost use Rattle.jl_lines.specs.declared.line_fault.LineFault.TheVariants as line_fault;
ghost use Rattle.jl_cli.specs.declared.farm_fault.FarmLineFault.TheVariants.{Line, Farm};

use jl_farm::FarmFault;
use jl_lines::{Failed, LineFault};
use std::alloc::{AllocError, AllocFailed};
use thiserror::Error;

/// Why a farm over lines ends before its last line is written.
#[derive(Clone, Copy, Debug, PartialEq, Eq, Error)]
pub enum FarmLineFault {
    /// Why no more lines are answered, or why the last line of the farm could not be made or written.
    #[error("{0}")]
    Line(LineFault),
    /// There are no reports.
    #[error("farm failed")]
    Farm(FarmFault),
}

impl From<LineFault> for FarmLineFault {
    ghost from_gives = { λ fault f. f ≡ Line fault };

    fn from(fault: LineFault) -> FarmLineFault {
        FarmLineFault::Line(fault)
    }
}

impl From<Failed> for FarmLineFault {
    ghost from_gives = { λ _ f. f ≡ Line line_fault.Device };

    fn from(_failed: Failed) -> FarmLineFault {
        FarmLineFault::Line(LineFault::Device)
    }
}

impl From<AllocError> for FarmLineFault {
    ghost from_gives = { λ _ f. f ≡ Line line_fault.Memory };

    fn from(_e: AllocError) -> FarmLineFault {
        FarmLineFault::Line(LineFault::Memory)
    }
}

impl<T: Drop> From<AllocFailed<T>> for FarmLineFault {
    ghost from_gives = { λ _ f. f ≡ Line line_fault.Memory };

    fn from(_e: AllocFailed<T>) -> FarmLineFault {
        FarmLineFault::Line(LineFault::Memory)
    }
}
