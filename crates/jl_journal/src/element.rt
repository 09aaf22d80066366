//! What a journal asks of its elements.

ghost use Rattle.std.specs.Prelude.{◌≡◌, Bool, IfOk};

use std::alloc::AllocError;

/// A value that tells whether it is kept when what is past is forgotten.
pub trait Keep: Sized + Drop {
    ghost keeps: { Self → Bool };

    /// Whether it is kept. Takes no memory.
    fn is_kept(&self) -> bool
        ensures { result ≡ keeps self.now };
}

/// A value that several owners can share.
pub trait Share: Sized + Drop {
    /// A copy of the value, which shares it with one owner more.
    ///
    /// # Errors
    ///
    /// Too many owners, or want of memory.
    fn share(&self) -> Result<Self, AllocError>
        ensures { IfOk result (λ shared. shared ≡ self.now) };
}
