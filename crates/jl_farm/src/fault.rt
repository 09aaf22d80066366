//! Why a farm has no reports.

ghost use Rattle.std.specs.Prelude.{◌≡◌};
ghost use Rattle.jl_farm.specs.declared.fault.FarmFault.TheVariants.{Memory};

use std::alloc::AllocError;
use thiserror::Error;

/// Why there are no reports. What jobs installed before it stays.
#[derive(Clone, Copy, Debug, PartialEq, Eq, Error)]
pub enum FarmFault {
    /// No thread could be made.
    #[error("NoThread")]
    NoThread,
    /// Want of memory.
    #[error("Memory")]
    Memory,
}

impl From<AllocError> for FarmFault {
    ghost from_gives = { λ _ f. f ≡ Memory };

    fn from(_e: AllocError) -> FarmFault {
        FarmFault::Memory
    }
}
