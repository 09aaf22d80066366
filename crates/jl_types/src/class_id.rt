//! Classes by number.

ghost use Rattle.std.specs.Prelude.{◌≡◌};

use std::marker::Model;

/// A class or an interface, in order of definition; by default the first one. A clause sees the number.
#[derive(Clone, Copy, Debug, Default, PartialEq, Eq, PartialOrd, Ord, Hash)]
pub struct ClassId(u32);

impl Model for ClassId {
    ghost use Rattle.std.specs.Prelude.{ℕ};

    ghost Value = { ℕ };

    ghost view = { λ id. id.0 };

    ghost inverse = { λ n. record { 0 = n } };
}

impl ClassId {
    /// The class of this number.
    pub const fn new(number: u32) -> Self
        ensures { result ≡ number }
    {
        ClassId(number)
    }

    /// Its number, from 0 upward.
    pub const fn number(self) -> u32
        ensures { result ≡ self }
    {
        self.0
    }
}
