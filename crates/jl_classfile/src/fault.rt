//! Why bytes are no class file.

ghost use Rattle.std.specs.Prelude.{◌≡◌};
ghost use Rattle.jl_classfile.specs.declared.fault.ClassFault.TheVariants.{Memory};

use jl_code::CodeFault;
use jl_pool::PoolFault;
use std::alloc::{AllocError, AllocFailed};
use thiserror::Error;

/// Why bytes are no class file (JVMS SE 17 §4.1, §4.8). If several faults hold, the first pass that fails tells which.
/// The passes are the size, the first eight bytes, the constant pool, the layout of the rest, the class and its
/// superclasses, the members, the class's attributes, and the codes.
#[derive(Clone, Copy, Debug, PartialEq, Eq, Error)]
pub enum ClassFault {
    /// Over 1,000,000 bytes.
    #[error("TooLarge")]
    TooLarge,
    /// The first four bytes aren't cafebabe.
    #[error("BadMagic")]
    BadMagic,
    /// The major version isn't 45 to the newest that is read (61 of SE 17), or from 56 on the minor version isn't 0.
    #[error("BadVersion")]
    BadVersion,
    /// The bytes end before the file does, outside its constant pool.
    #[error("Truncated")]
    Truncated,
    /// A fault of the constant pool (§4.4).
    #[error("{0}")]
    Pool(PoolFault),
    /// The file of a module: MODULE set, from version 53 on.
    #[error("ModuleFile")]
    ModuleFile,
    /// The superclass may not be so: java/lang/Object alone has none, and is no interface; an interface's is java/lang/Object.
    #[error("BadSuper")]
    BadSuper,
    /// This method, by its index, has the name and the descriptor of an earlier one.
    #[error("DuplicateMethod")]
    DuplicateMethod(u16),
    /// This method, by its index, has two Code attributes.
    #[error("TwoCodes")]
    TwoCodes(u16),
    /// A fault in the code of this method, by its index (§4.7.3).
    #[error("{1}")]
    Code(u16, CodeFault),
    /// Bytes follow the whole file.
    #[error("TrailingBytes")]
    TrailingBytes,
    /// The name, descriptor or flags of this member may not be so (§4.5, §4.6). Fields are counted first, then methods.
    #[error("BadMember")]
    BadMember(u32),
    /// No entry of the kind that is asked for stands at this number.
    #[error("BadLink")]
    BadLink(u16),
    /// The nest attributes may not be so (§4.7.28, §4.7.29).
    #[error("BadNest")]
    BadNest,
    /// Want of memory.
    #[error("Memory")]
    Memory,
}

impl From<AllocError> for ClassFault {
    ghost from_gives = { λ _ f. f ≡ Memory };

    fn from(_e: AllocError) -> ClassFault {
        ClassFault::Memory
    }
}

impl<T: Drop> From<AllocFailed<T>> for ClassFault {
    ghost from_gives = { λ _ f. f ≡ Memory };

    fn from(_e: AllocFailed<T>) -> ClassFault {
        ClassFault::Memory
    }
}
