//! The published table under its rule: what its writer does, and one caller's place at it.

ghost use Rattle.std.specs.Prelude.{◌≡◌, [], ◌∷◌, Some, drop, length, IfOk, IfErr, IfSome};
ghost use Rattle.left_right.specs.Sides.{view};
ghost use Rattle.jl_server.specs.ForProofs.Shown.{content, changed, tag_of, IsShown, Knows};

use crate::mark::Tag;
use crate::table::{Change, Table};
use atomic_table::{Join, Split};
use core::mem::replace_with;
use crossbeam_utils::rule::{Outcome, Protocol};
use left_right::reader::{Reader, Reading};
use left_right::writer::Writer;
use std::snapshot::Snapshot;
use std::sync::Wait;

/// The rule of the published table.
pub struct Rule;

impl Protocol<Table, Option<Tag>> for Rule {
    ghost use Rattle.std.specs.Prelude.{None};
    ghost use Rattle.jl_server.specs.ForProofs.Shown.{Ruled};

    ghost holds = { Ruled };

    ghost first = { None };
}

/// The writer publishes.
pub struct Publishing;

impl Outcome<Table, Option<Tag>> for Publishing {
    ghost use Rattle.jl_server.specs.ForProofs.Shown.{Publishes};

    ghost then = { Publishes };
}

/// A caller enters.
pub struct Entering;

impl Outcome<Table, Option<Tag>> for Entering {
    ghost use Rattle.jl_server.specs.ForProofs.Shown.{Enters};

    ghost then = { Enters };
}

/// The writer tells what it knows, and a caller learns it.
pub struct Tell;

impl Split<Option<Tag>> for Tell {
    ghost left = { λ v. v };

    ghost right = { λ v. v };
}

impl Join<Option<Tag>> for Tell {
    ghost use Rattle.std.specs.Prelude.{None};
    ghost use Rattle.jl_server.specs.ForProofs.Shown.{told};

    ghost both = { told };

    ghost spent = { None };
}

pub type TableWriter = Writer<Table, Change, Option<Tag>, Rule>;

pub type TableReader = Reader<Table, Option<Tag>, Rule>;

pub type TableReading = Reading<Table, Option<Tag>, Rule>;

/// Shows the change that was appended, which has the next list and is all that is pending. Takes no memory. It waits for those that still look
/// at the table from before the last call.
pub fn show<R: Wait>(rt: &R, writer: TableWriter, change: Snapshot<Change>) -> TableWriter
    requires pending { drop writer.behind writer.log.items ≡ change.value ∷ [] }
    requires same { change.value.list.reached.book ≡ writer.desk.shown.value.list.reached.book }
    requires shown { IsShown (content writer.desk.shown.value) → IsShown (changed (content writer.desk.shown.value) change.value) }
    ensures shown { content result.desk.shown.value ≡ changed (content writer.desk.shown.value) change.value }
    ensures settled { length (drop result.behind result.log.items) ≡ 0 }
    ensures known { view result.desk.place ≡ Some (tag_of (content result.desk.shown.value)) }
{
    let _ = change;
    let (writer, published) = writer.publish_as::<Publishing, R>(rt);
    published.unwrap();
    writer
}

/// Shows the change that was appended, as [`show`] does, by a writer that is lent. Takes no memory. It waits for those that still look at
/// the table from before the last call.
pub fn show_in<R: Wait>(rt: &R, writer: &mut TableWriter, change: Snapshot<Change>)
    requires pending { drop writer.old.behind writer.old.log.items ≡ change.value ∷ [] }
    requires same { change.value.list.reached.book ≡ writer.old.desk.shown.value.list.reached.book }
    requires shown { IsShown (content writer.old.desk.shown.value) → IsShown (changed (content writer.old.desk.shown.value) change.value) }
    ensures shown { content writer.new.desk.shown.value ≡ changed (content writer.old.desk.shown.value) change.value }
    ensures settled { length (drop writer.new.behind writer.new.log.items) ≡ 0 }
    ensures known { view writer.new.desk.place ≡ Some (tag_of (content writer.new.desk.shown.value)) }
{
    replace_with(writer, change, |writer, change| {
        (show(rt, writer, change), ())
    });
}

/// Publishes the change, which has the next list. If there is no memory the table is at its end, and there is no writer.
pub fn publish<R: Wait>(rt: &R, writer: TableWriter, change: Change) -> Option<TableWriter>
    requires settled { length (drop writer.behind writer.log.items) ≡ 0 }
    requires same { change.list.reached.book ≡ writer.desk.shown.value.list.reached.book }
    requires shown { IsShown (content writer.desk.shown.value) → IsShown (changed (content writer.desk.shown.value) change) }
    ensures shown { IfSome result (λ w. content w.desk.shown.value ≡ changed (content writer.desk.shown.value) change) }
    ensures settled { IfSome result (λ w. length (drop w.behind w.log.items) ≡ 0) }
    ensures known { IfSome result (λ w. view w.desk.place ≡ Some (tag_of (content w.desk.shown.value))) }
{
    let mut writer = writer;
    let known = Snapshot::of(&change);
    match writer.append(change) {
        Ok(()) => Some(show(rt, writer, known)),
        Err(_change) => {
            drop(writer.take(rt));
            None
        }
    }
}

/// Enters the table: what is found there is as it should be.
pub fn enter(reader: TableReader) -> Result<TableReading, TableReader>
    ensures refused { IfErr result (λ r. view r.place ≡ view reader.place) }
    ensures found { IfOk result (λ r. (view r.place ≡ view reader.place) × IsShown (content r.part.value) × Knows (content r.part.value) (view reader.place)) }
{
    reader.enter_as::<Entering>()
}
