//! Why bytes are no constant pool.

ghost use Rattle.std.specs.Prelude.{◌≡◌};
ghost use Rattle.jl_pool.specs.declared.pool_fault.PoolFault.TheVariants.{Memory};

use std::alloc::{AllocError, AllocFailed};
use thiserror::Error;

/// Why bytes are no constant pool (JVMS SE 17 §4.4). A number is an entry's index.
#[derive(Clone, Copy, Debug, PartialEq, Eq, Error)]
pub enum PoolFault {
    /// The bytes end before the pool does.
    #[error("Pool.Truncated")]
    Truncated,
    /// The tag of this entry is unknown, or the entry takes two numbers and only one is left. Number 0: the count is 0.
    #[error("Pool.BadTag")]
    BadTag(u16),
    /// This entry names a number that is unusable or holds an entry of a wrong kind.
    #[error("Pool.BadIndex")]
    BadIndex(u16),
    /// The text of this entry is no modified UTF-8 (§4.4.7).
    #[error("Pool.BadUtf8")]
    BadUtf8(u16),
    /// The name or descriptor that this entry names is of the wrong form (§4.2, §4.3).
    #[error("Pool.BadDescriptor")]
    BadDescriptor(u16),
    /// Want of memory.
    #[error("Memory")]
    Memory,
}

impl From<AllocError> for PoolFault {
    ghost from_gives = { λ _ f. f ≡ Memory };

    fn from(_e: AllocError) -> PoolFault {
        PoolFault::Memory
    }
}

impl<T: Drop> From<AllocFailed<T>> for PoolFault {
    ghost from_gives = { λ _ f. f ≡ Memory };

    fn from(_e: AllocFailed<T>) -> PoolFault {
        PoolFault::Memory
    }
}
