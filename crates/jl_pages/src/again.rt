//! Values that can be copied with memory.

ghost use Rattle.std.specs.Prelude.{◌≡◌, IfOk};

use std::alloc::{AllocError, Global};

/// A value that can be copied, which may take memory.
pub trait Again: Sized + Drop {
    /// A copy of the value. The only error is want of memory.
    fn again(&self, alloc: Global) -> Result<Self, AllocError>
        ensures { IfOk result (λ again. again ≡ self.now) };
}
