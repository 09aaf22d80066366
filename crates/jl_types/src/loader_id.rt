//! Loaders by number.

ghost use Rattle.std.specs.Prelude.{◌≡◌};

use std::marker::Model;

/// A loader (JVMS SE 17 §5.3). Loader 0 is there from the start. A clause sees the number.
#[derive(Clone, Copy, Debug, PartialEq, Eq, PartialOrd, Ord, Hash)]
pub struct LoaderId(u32);

impl Model for LoaderId {
    ghost use Rattle.std.specs.Prelude.{ℕ};

    ghost Value = { ℕ };

    ghost view = { λ id. id.0 };

    ghost inverse = { λ n. record { 0 = n } };
}

impl LoaderId {
    /// The loader of this number.
    pub const fn new(number: u32) -> Self
        ensures { result ≡ number }
    {
        LoaderId(number)
    }

    /// Its number, from 0 upward.
    pub const fn number(self) -> u32
        ensures { result ≡ self }
    {
        self.0
    }
}
