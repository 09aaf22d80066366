//! Why a sketch isn't written.

ghost use Rattle.std.specs.Prelude.{◌≡◌};
ghost use Rattle.jl_sketch.specs.declared.fault.SketchFault.TheVariants.{Memory};

use jl_classfile::ClassFault;
use std::alloc::{AllocError, AllocFailed};
use thiserror::Error;

/// Why a sketch isn't written, in the order in which faults are looked for.
#[derive(Clone, Copy, Debug, PartialEq, Eq, Error)]
pub enum SketchFault {
    /// A text of over 65,535 bytes, a list of over 65,535 entries, or over 65,534 constants.
    #[error("TooBig")]
    TooBig,
    /// This method, by its index, is abstract or native and has calls. It is the first such.
    #[error("CallsWithoutCode")]
    CallsWithoutCode(u16),
    /// The bytes would be no class file: why.
    #[error("{0}")]
    Refused(ClassFault),
    /// Want of memory.
    #[error("Memory")]
    Memory,
}

impl From<AllocError> for SketchFault {
    ghost from_gives = { λ _ f. f ≡ Memory };

    fn from(_e: AllocError) -> SketchFault {
        SketchFault::Memory
    }
}

impl<T: Drop> From<AllocFailed<T>> for SketchFault {
    ghost from_gives = { λ _ f. f ≡ Memory };

    fn from(_e: AllocFailed<T>) -> SketchFault {
        SketchFault::Memory
    }
}
