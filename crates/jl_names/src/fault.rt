//! Why a text is no name and no descriptor.

ghost use Rattle.std.specs.Prelude.{◌≡◌};
ghost use Rattle.jl_names.specs.declared.fault.NameFault.TheVariants.{Memory};

use std::alloc::{AllocError, AllocFailed};
use thiserror::Error;

/// Why a text of bytes is not what was asked for. A place is an offset in bytes from the text's
/// start.
#[derive(Clone, Copy, Debug, PartialEq, Eq, Error)]
pub enum NameFault {
    /// No unit's bytes begin at this place (JVMS SE 17 §4.4.7).
    #[error("BadByte")]
    BadByte(usize),
    /// The text ends within a unit's bytes.
    #[error("Truncated")]
    Truncated,
    /// A descriptor can't go on with the byte at this place. If the place is the text's length, it
    /// ends too early (JVMS SE 17 §4.3).
    #[error("BadDescriptor")]
    BadDescriptor(usize),
    /// A method descriptor by its grammar, but its parameters take over 255 slots (JVMS SE 17 §4.3.3).
    #[error("TooManySlots")]
    TooManySlots,
    /// An allocation was refused. Says nothing of the text.
    #[error("Memory")]
    Memory,
}

impl From<AllocError> for NameFault {
    ghost from_gives = { λ _ f. f ≡ Memory };

    fn from(_e: AllocError) -> NameFault {
        NameFault::Memory
    }
}

impl<T: Drop> From<AllocFailed<T>> for NameFault {
    ghost from_gives = { λ _ f. f ≡ Memory };

    fn from(_e: AllocFailed<T>) -> NameFault {
        NameFault::Memory
    }
}
