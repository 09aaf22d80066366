//! Switch points by number.

ghost use Rattle.std.specs.Prelude.{◌≡◌};

use std::marker::Model;

/// A switch point (java.lang.invoke.SwitchPoint), in the order in which they were made. A clause sees the number.
#[derive(Clone, Copy, Debug, PartialEq, Eq, PartialOrd, Ord, Hash)]
pub struct SwitchId(u32);

impl Model for SwitchId {
    ghost use Rattle.std.specs.Prelude.{ℕ};

    ghost Value = { ℕ };

    ghost view = { λ id. id.0 };

    ghost inverse = { λ n. record { 0 = n } };
}

impl SwitchId {
    /// The switch point of this number.
    pub const fn new(number: u32) -> Self
        ensures { result ≡ number }
    {
        SwitchId(number)
    }

    /// Its number, from 0 upward.
    pub const fn number(self) -> u32
        ensures { result ≡ self }
    {
        self.0
    }
}
