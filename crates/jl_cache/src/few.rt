//! Tables of one or two classes, in the room of a slot.

ghost use Rattle.std.specs.Prelude.{◌≡◌, ◌∷◌, [], IfSome};
ghost use Rattle.jl_cache.specs.ForProofs.Few.{row_of, rows_of};

use jl_types::{ClassId, MethodId, Outcome, Table};

/// A receiver's class and the method that runs, if the numbers of both classes fit 16 bits.
#[derive(Clone, Copy)]
pub(crate) struct ShortRow {
    pub(crate) receiver: u16,
    pub(crate) class: u16,
    pub(crate) index: u16,
}

/// One or two such rows.
#[derive(Clone, Copy)]
pub(crate) enum Few {
    One(ShortRow),
    Two(ShortRow, ShortRow),
}

/// The rows of the table, if there are one or two, they run methods, and their numbers fit.
pub(crate) fn few_of(table: &Table) -> Option<Few>
    ensures { IfSome result (λ few. rows_of few ≡ table.now) }
{
    match table.as_slice() {
        [first] => Some(Few::One(short_row(first)?)),
        [first, second] => Some(Few::Two(short_row(first)?, short_row(second)?)),
        _ => None,
    }
}

/// The row in little room, if it runs a method and its numbers fit.
fn short_row(row: &(ClassId, Outcome)) -> Option<ShortRow>
    ensures { IfSome result (λ short. row_of short ≡ row.now) }
{
    match row.1 {
        Outcome::Run(method) => short_of(row.0.number(), method.class.number(), method.index),
        Outcome::Throws(_) => None,
    }
}

/// The row of these numbers, if they fit.
fn short_of(receiver: u32, class: u32, index: u16) -> Option<ShortRow>
    ensures { IfSome result (λ short. (short.receiver ≡ receiver) × (short.class ≡ class) × (short.index ≡ index)) }
{
    if receiver < 65_536 && class < 65_536 {
        return Some(ShortRow {
            receiver: receiver as u16,
            class: class as u16,
            index,
        });
    }
    None
}

/// The class of the row.
pub(crate) fn receiver_of(row: &ShortRow) -> ClassId
    ensures { result ≡ row.now.receiver }
{
    ClassId::new(u32::from(row.receiver))
}

/// The method of the row.
pub(crate) fn method_of(row: &ShortRow) -> MethodId
    ensures { (result.class ≡ row.now.class) × (result.index ≡ row.now.index) }
{
    MethodId {
        class: ClassId::new(u32::from(row.class)),
        index: row.index,
    }
}

/// The table of these rows.
pub(crate) fn table_of(few: &Few) -> Table
    ensures { result ≡ rows_of few.now }
{
    let mut table = Table::new();
    match few {
        Few::One(row) => {
            table.push(receiver_of(row), Outcome::Run(method_of(row)));
        }
        Few::Two(first, second) => {
            table.push(receiver_of(first), Outcome::Run(method_of(first)));
            table.push(receiver_of(second), Outcome::Run(method_of(second)));
        }
    }
    table
}
