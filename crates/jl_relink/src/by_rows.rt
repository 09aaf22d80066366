//! The link of an invocation by the outcomes of its receivers.

ghost use Rattle.std.specs.Prelude.{◌≡◌, ◌≤◌, length};
ghost use Rattle.jl_types.specs.Linkage.Links.{virtual_link, table_or_mega};
ghost use Rattle.jl_relink.specs.ForProofs.Rows.{link_by_rows};

use crate::receivers::common_of;
use jl_types::{ClassId, Link, MOST_ROWS, Outcome, Table, TableKind};

/// The link of an invocation whose receivers have these outcomes. Nothing is walked.
pub(crate) fn link_by_rows(kind: TableKind, rows: &[(ClassId, Outcome)]) -> Link
    ensures { result ≡ link_by_rows kind rows.now }
{
    match kind {
        TableKind::Virtual => virtual_by_rows(rows),
        TableKind::Interface => table_or_mega(TableKind::Interface, rows),
    }
}

/// The link of an invokevirtual whose receivers have these outcomes. Nothing is walked.
pub(crate) fn virtual_by_rows(rows: &[(ClassId, Outcome)]) -> Link
    ensures { result ≡ virtual_link rows.now }
{
    match common_of(rows) {
        Some(method) => Link::Direct(Outcome::Run(method)),
        None => table_or_mega(TableKind::Virtual, rows),
    }
}

/// A table of these rows, or Mega if they are more than eight.
fn table_or_mega(kind: TableKind, rows: &[(ClassId, Outcome)]) -> Link
    ensures { result ≡ table_or_mega kind rows.now }
{
    if rows.len() > MOST_ROWS {
        return Link::Mega;
    }
    Link::Table(kind, table_of_rows(rows))
}

/// A table of these rows.
fn table_of_rows(rows: &[(ClassId, Outcome)]) -> Table
    requires { length rows.now ≤ 8 }
    ensures { result ≡ rows.now }
{
    let mut table = Table::new();
    for row in rows {
        table.push(row.0, row.1);
    }
    table
}
