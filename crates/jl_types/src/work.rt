//! A count of work.

ghost use Rattle.std.specs.Prelude.{◌≡◌, ◌+◌, ◌^◌, ◌<◌};

use std::marker::Model;

/// How many selections, special searches and evaluations of call sites were made. A clause sees the count.
#[derive(Debug, Drop)]
pub struct Work {
    ticks: u64,
}

impl Model for Work {
    ghost use Rattle.std.specs.Prelude.{ℕ};

    ghost Value = { ℕ };

    ghost view = { λ w. w.ticks };
}

impl Work {
    /// Nothing was done yet.
    pub fn new() -> Self
        ensures { result ≡ 0 }
    {
        Work { ticks: 0 }
    }

    /// One more was made. Takes no memory.
    pub fn tick(&mut self)
        requires { self.old + 1 < 2 ^ 64 }
        ensures { self.new ≡ self.old + 1 }
    {
        self.ticks += 1;
    }

    /// That many more were made. Takes no memory.
    pub fn add(&mut self, count: u64)
        requires { self.old + count < 2 ^ 64 }
        ensures { self.new ≡ self.old + count }
    {
        self.ticks += count;
    }

    /// How many were made.
    pub fn ticks(&self) -> u64
        ensures { result ≡ self.now }
    {
        self.ticks
    }
}
