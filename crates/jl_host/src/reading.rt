//! Links that a host gives, as numbers.

ghost use Rattle.std.specs.Prelude.{◌≡◌, ◌≤◌, length, Some, None, option_map, IfOk, OnErr};
ghost use Rattle.jl_host.specs.Reading as reading;

use crate::shown::{LinkShown, Row};
use jl_relink::fill;
use jl_types::{ClassId, Link, MOST_ROWS, MethodId, Outcome, SiteNo, Table, TableKind, Throwable};
use std::alloc::{AllocError, Global};

/// A site with the link that it is to have.
#[repr(C)]
#[derive(Clone, Copy, Debug)]
pub struct LinkRow {
    pub site: u32,
    pub link: LinkShown,
}

/// What is thrown of this number.
fn throwable_of(number: u32) -> Option<Throwable>
    ensures { result ≡ reading.throwable_of number }
{
    match number {
        1 => Some(Throwable::NoSuchMethodError),
        2 => Some(Throwable::IllegalAccessError),
        3 => Some(Throwable::IncompatibleClassChangeError),
        4 => Some(Throwable::AbstractMethodError),
        5 => Some(Throwable::NullPointerException),
        _ => None,
    }
}

/// The method of these numbers, if a class can have so many.
pub(crate) fn method_of(class: u32, value: u32) -> Option<MethodId>
    ensures { result ≡ reading.method_of class value }
{
    let Ok(index) = u16::try_from(value) else {
        return None;
    };
    let class = ClassId::new(class);
    Some(MethodId { class, index })
}

/// The outcome that the row shows, if it shows one.
fn outcome_of(row: &Row) -> Option<Outcome>
    ensures { result ≡ reading.outcome_of row.now }
{
    match row.kind {
        0 => Some(Outcome::Run(method_of(row.class_number, row.value)?)),
        1 => Some(Outcome::Throws(throwable_of(row.value)?)),
        _ => None,
    }
}

/// A link of one row.
fn single_of(kind: u32, outcome: Outcome) -> Option<Link>
    ensures { result ≡ reading.single_of kind outcome }
{
    match outcome {
        Outcome::Run(method) => match kind {
            2 => Some(Link::Plain(method)),
            3 => Some(Link::Direct(Outcome::Run(method))),
            _ => None,
        },
        Outcome::Throws(throwable) => match kind {
            1 => Some(Link::Fault(throwable)),
            3 => Some(Link::Direct(Outcome::Throws(throwable))),
            _ => None,
        },
    }
}

/// The rows of a table, if each is one.
fn entries_of(rows: &[Row]) -> Option<Table>
    requires { length rows.now ≤ 8 }
    ensures { result ≡ reading.all_of reading.entry_of rows.now }
{
    let mut table = Table::new();
    for row in rows {
        let Some(outcome) = outcome_of(row) else {
            return None;
        };
        table.push(ClassId::new(row.receiver), outcome);
    }
    Some(table)
}

/// A table of so many rows.
fn table_of(kind: TableKind, count: u32, rows: &[Row; MOST_ROWS]) -> Option<Link>
    ensures { result ≡ reading.table_of kind count rows.now }
{
    let count = count as usize;
    if count > MOST_ROWS {
        return None;
    }
    match entries_of(&rows[..count]) {
        Some(table) => Some(Link::Table(kind, table)),
        None => None,
    }
}

/// A link that is no table: a megamorphic one, which has no row, or one of one row.
fn no_table_of(kind: u32, count: u32, row: &Row) -> Option<Link>
    ensures { result ≡ reading.no_table_of kind count row.now }
{
    match (kind, count) {
        (6, 0) => Some(Link::Mega),
        (6, _) => None,
        (_, 1) => single_of(kind, outcome_of(row)?),
        _ => None,
    }
}

/// The link of these numbers, if it is one.
fn link_of(shown: &LinkShown) -> Option<Link>
    ensures { result ≡ reading.link_of shown.now }
{
    match shown.kind {
        4 => table_of(TableKind::Virtual, shown.count, &shown.rows),
        5 => table_of(TableKind::Interface, shown.count, &shown.rows),
        kind => no_table_of(kind, shown.count, &shown.rows[0]),
    }
}

/// The site with its link. It is an error if that is none.
fn row_of(row: &LinkRow) -> Result<(SiteNo, Link), ()>
    ensures ok { IfOk result (λ read. reading.row_of row.now ≡ Some read) }
    ensures err { OnErr result (reading.row_of row.now ≡ None) }
{
    match link_of(&row.link) {
        Some(link) => Ok((SiteNo::new(row.site), link)),
        None => Err(()),
    }
}

/// The sites with their links, if each is one.
pub(crate) fn rows_of(
    alloc: Global,
    rows: &[LinkRow],
) -> Result<Option<Vec<(SiteNo, Link)>>, AllocError>
    ensures { IfOk result (λ read. option_map (λ links. links.items) read ≡ reading.rows_of rows.now) }
{
    let mut links = Vec::with_capacity(alloc, rows.len())?;
    match fill(rows, &mut links, |row| row_of(row)) {
        Ok(()) => Ok(Some(links)),
        Err(()) => Ok(None),
    }
}
