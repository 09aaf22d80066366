//! Why bytes are no code.

ghost use Rattle.std.specs.Prelude.{◌≡◌};
ghost use Rattle.jl_code.specs.declared.code_fault.CodeFault.TheVariants.{Memory};

use std::alloc::{AllocError, AllocFailed};
use thiserror::Error;

/// Why bytes are no code (JVMS SE 17 §4.7.3, §4.9). A number is an instruction's pc, in bytes from the code's start.
#[derive(Clone, Copy, Debug, PartialEq, Eq, Error)]
pub enum CodeFault {
    /// No instruction has this opcode.
    #[error("Code.BadOpcode")]
    BadOpcode(u16),
    /// The code ends within this instruction.
    #[error("Code.CutShort")]
    CutShort(u16),
    /// A switch whose bounds or number of pairs can't be.
    #[error("Code.BadSwitch")]
    BadSwitch(u16),
    /// An invocation whose operand may not stand there.
    #[error("Code.BadOperand")]
    BadOperand(u16),
    /// The parts of the attribute don't fill it exactly, or the code has no byte or over 65,535.
    #[error("Code.BadLayout")]
    BadLayout,
    /// Want of memory.
    #[error("Memory")]
    Memory,
}

impl From<AllocError> for CodeFault {
    ghost from_gives = { λ _ f. f ≡ Memory };

    fn from(_e: AllocError) -> CodeFault {
        CodeFault::Memory
    }
}

impl<T: Drop> From<AllocFailed<T>> for CodeFault {
    ghost from_gives = { λ _ f. f ≡ Memory };

    fn from(_e: AllocFailed<T>) -> CodeFault {
        CodeFault::Memory
    }
}
