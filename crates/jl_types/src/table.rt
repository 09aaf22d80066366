//! Up to eight classes with their outcomes.

ghost use Rattle.std.specs.Prelude.{◌≡◌, ◌<◌, ◌++◌, ◌∷◌, ◌==◌, [], length};

use crate::answer::{Outcome, Throwable};
use crate::class_id::ClassId;
use std::marker::Model;

/// The most classes of a table: a polymorphic inline cache with more is megamorphic (Hölzle, Chambers and Ungar 1991).
pub const MOST_ROWS: usize = 8;

/// Up to eight classes, each with the outcome of a call on its objects. A clause sees the list of them. Takes no memory.
#[derive(Clone, Copy, Debug)]
pub struct Table {
    len: usize,
    rows: [(ClassId, Outcome); MOST_ROWS],
}

impl Model for Table {
    ghost use Rattle.std.specs.Prelude.{◌≡◌, ◌≤◌, List, ℕ, length, take};
    ghost use Rattle.std.proofs.Common.{length-take-le};
    ghost use Rattle.jl_types.specs.declared.answer.Outcome.{Outcome};
    ghost use Rattle.jl_types.specs.ForProofs.Padded.{padded, long_enough};

    ghost Value = { List (ℕ × Outcome) };

    ghost view = { λ t. take t.len t.rows };

    ghost invariant = { λ t. (t.len ≤ 8) × (padded (take t.len t.rows) ≡ t.rows) };

    ghost inverse = { λ rows. record { len = length rows; rows = padded rows } };

    ghost inverse_ok = { λ t h i. record { len = length-take-le t.len t.rows (long_enough t.len t.rows h.0 h.1) i; rows = h.1 i } };
}

impl Table {
    /// A table of no classes.
    pub fn new() -> Self
        ensures { result ≡ [] }
    {
        let nothing = (
            ClassId::new(0),
            Outcome::Throws(Throwable::NullPointerException),
        );
        Table {
            len: 0,
            rows: [nothing; MOST_ROWS],
        }
    }

    /// Whether it has eight classes.
    pub fn is_full(&self) -> bool
        ensures { result ≡ (length self.now == 8) }
    {
        self.len == MOST_ROWS
    }

    /// Adds a class after the others.
    pub fn push(&mut self, class: ClassId, outcome: Outcome)
        requires { length self.old < 8 }
        ensures { self.new ≡ self.old ++ (class, outcome) ∷ [] }
    {
        self.rows[self.len] = (class, outcome);
        self.len += 1;
    }

    /// The classes with their outcomes, in order.
    pub fn as_slice(&self) -> &[(ClassId, Outcome)]
        ensures { result.now ≡ self.now }
    {
        &self.rows[..self.len]
    }
}

impl PartialEq for Table {
    ghost use Rattle.std.specs.Cmp.Lexicographic.{pointwise};
    ghost use Rattle.jl_types.specs.ForProofs.Same.{same_row, tables_per};

    ghost eq = { pointwise same_row };

    ghost laws = { tables_per };

    fn eq(&self, other: &Table) -> bool {
        self.as_slice() == other.as_slice()
    }
}
