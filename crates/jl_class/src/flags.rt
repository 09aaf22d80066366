//! Access flags (JVMS SE 17 §4.1, §4.5, §4.6).

ghost use Rattle.std.specs.Prelude.{◌≡◌};
ghost use Rattle.jl_class.specs.Flags.{has_flag};

/// Accessible from everywhere.
pub const PUBLIC: u16 = 0x0001;

/// Accessible in its nest alone.
pub const PRIVATE: u16 = 0x0002;

/// Accessible in its run-time package and to subclasses.
pub const PROTECTED: u16 = 0x0004;

/// Without a receiver.
pub const STATIC: u16 = 0x0008;

/// Without subclasses.
pub const FINAL: u16 = 0x0010;

/// With code that stands elsewhere.
pub const NATIVE: u16 = 0x0100;

/// An interface.
pub const INTERFACE: u16 = 0x0200;

/// Without objects, or without code.
pub const ABSTRACT: u16 = 0x0400;

/// The file of a module.
pub const MODULE: u16 = 0x8000;

/// Whether a flag is set.
pub fn has_flag(flags: u16, flag: u16) -> bool
    ensures { result ≡ has_flag flags flag }
{
    flags & flag != 0
}
