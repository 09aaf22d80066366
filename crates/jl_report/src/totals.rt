//! How many invocations of each instruction have which shape.

ghost use Rattle.std.specs.Prelude.{◌≡◌, ◌<◌, ◌++◌, [], ◌∷◌, List};
ghost use Rattle.jl_report.specs.declared.row.Row.{Row};
ghost use Rattle.jl_report.specs.Totals as totals;

use crate::row::Row;
use crate::shape::Shape;
use jl_class::Kind;
use std::marker::Model;

/// How many columns there are: eight shapes for each of five instructions.
const COLUMNS: usize = 40;

/// How many invocations of each instruction have each shape. A clause sees a count for each.
#[derive(Debug, Drop)]
pub struct Totals {
    counts: [u64; COLUMNS],
}

impl Model for Totals {
    ghost use Rattle.std.specs.Prelude.{ℕ, List};

    ghost Value = { List ℕ };

    ghost view = { λ t. t.counts };
}

impl Totals {
    /// The totals of no rows.
    pub fn new() -> Self
        ensures { totals.AreTotals result [] }
    {
        Totals {
            counts: [0; COLUMNS],
        }
    }

    /// Counts this row, too. A count stands still at the largest number of 64 bits.
    pub fn add(&mut self, row: &Row)
        ensures { (earlier : List Row) → totals.AreTotals self.old earlier → totals.AreTotals self.new (earlier ++ row.now ∷ []) }
    {
        let column = column(row.kind, Shape::of(&row.finding));
        self.counts[column] = self.counts[column].saturating_add(1);
    }

    /// How many invocations of the instruction have the shape.
    pub fn count(&self, kind: Kind, shape: Shape) -> u64
        ensures { result ≡ totals.told self.now kind shape }
    {
        self.counts[column(kind, shape)]
    }
}

/// The column of the instruction and the shape.
fn column(kind: Kind, shape: Shape) -> usize
    ensures column { result ≡ totals.column kind shape }
    ensures within { result < 40 }
{
    8 * kind_number(kind) + shape_number(shape)
}

fn kind_number(kind: Kind) -> usize
    ensures number { result ≡ totals.kind_number kind }
    ensures within { result < 5 }
{
    match kind {
        Kind::Virtual => 0,
        Kind::Special => 1,
        Kind::Static => 2,
        Kind::Interface => 3,
        Kind::Dynamic => 4,
    }
}

fn shape_number(shape: Shape) -> usize
    ensures number { result ≡ totals.shape_number shape }
    ensures within { result < 8 }
{
    match shape {
        Shape::Direct => 0,
        Shape::Table => 1,
        Shape::Mega => 2,
        Shape::NoReceivers => 3,
        Shape::Throws => 4,
        Shape::Waits => 5,
        Shape::Unbound => 6,
        Shape::NotLinkable => 7,
    }
}
