//! Why a server's entries aren't told.

ghost use Rattle.std.specs.Prelude.{◌≡◌};
ghost use Rattle.jl_server.specs.declared.fault.EntriesFault.TheVariants.{Memory};

use std::alloc::AllocError;
use thiserror::Error;

/// Why the entries from one on aren't told.
#[derive(Clone, Copy, Debug, PartialEq, Eq, Error)]
pub enum EntriesFault {
    /// One of them is past: it wasn't the last one when the server last forgot.
    #[error("Forgotten")]
    Forgotten,
    /// Want of memory.
    #[error("Memory")]
    Memory,
}

impl From<AllocError> for EntriesFault {
    ghost from_gives = { λ _ f. f ≡ Memory };

    fn from(_e: AllocError) -> EntriesFault {
        EntriesFault::Memory
    }
}
