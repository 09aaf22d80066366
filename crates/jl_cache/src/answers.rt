//! What an installed link answers without a look at the classes.

ghost use Rattle.std.specs.Prelude.{◌≡◌, ◌==◌, Some, find};
ghost use Rattle.std.specs.Option.{option_copied};
ghost use Rattle.jl_types.specs.declared.answer.Recv.TheVariants.{Of};
ghost use Rattle.jl_types.specs.declared.link.Link.TheVariants as variant;
ghost use Rattle.jl_types.specs.Events.Fast as fast;
ghost use Rattle.jl_cache.specs.Links.{fast_link};
ghost use Rattle.jl_cache.specs.ForProofs.Few.{rows_of};

use crate::few::{Few, method_of, receiver_of};
use jl_types::{Answer, ClassId, Fast, Link, Outcome, Recv, Table, TableKind, Throwable};

/// The answer to a call by the site's installed link alone: none if there is no link, or if it is megamorphic. Takes no memory.
pub fn fast(link: Option<Link>, recv: Recv) -> Fast
    ensures { result ≡ fast_link link recv }
{
    let Some(link) = link else {
        return Fast::Miss;
    };
    match &link {
        Link::Fault(throwable) => Fast::Now(Answer::Throws(*throwable)),
        Link::Plain(method) => Fast::Now(Answer::Run(*method)),
        Link::Direct(outcome) => match recv {
            Recv::Null => Fast::Now(Answer::Throws(Throwable::NullPointerException)),
            Recv::Of(_) => Fast::Now(Answer::from(*outcome)),
        },
        Link::Table(kind, table) => match recv {
            Recv::Null => Fast::Now(Answer::Throws(Throwable::NullPointerException)),
            Recv::Of(class) => Fast::Now(entry_answer(*kind, row_of(table.as_slice(), class))),
        },
        Link::Mega => Fast::Miss,
    }
}

/// The answer to a call by a link of one outcome, with so many classes: none if the receiver's class is newer. Takes no memory.
pub fn direct_answer(classes: usize, outcome: Outcome, recv: Recv) -> Fast
    ensures { result ≡ fast.fast_answer (Some (variant.Direct outcome)) classes recv }
{
    match recv {
        Recv::Null => Fast::Now(Answer::Throws(Throwable::NullPointerException)),
        Recv::Of(class) => {
            if is_newer(classes, class) {
                Fast::Miss
            } else {
                Fast::Now(Answer::from(outcome))
            }
        }
    }
}

/// The answer to a call by a table, with so many classes: none if the receiver's class is newer. Takes no memory.
pub fn table_answer(classes: usize, kind: TableKind, table: &Table, recv: Recv) -> Fast
    ensures { result ≡ fast.fast_answer (Some (variant.Table kind table.now)) classes recv }
{
    match recv {
        Recv::Null => Fast::Now(Answer::Throws(Throwable::NullPointerException)),
        Recv::Of(class) => row_for(classes, kind, table, class),
    }
}

/// The answer to a call by a table of one or two receivers, with so many classes: none if the receiver's class is newer. Takes no
/// memory.
pub(crate) fn few_answer(classes: usize, kind: TableKind, few: &Few, recv: Recv) -> Fast
    ensures { result ≡ fast.fast_answer (Some (variant.Table kind (rows_of few.now))) classes recv }
{
    match recv {
        Recv::Null => Fast::Now(Answer::Throws(Throwable::NullPointerException)),
        Recv::Of(class) => {
            if is_newer(classes, class) {
                Fast::Miss
            } else {
                Fast::Now(few_entry(kind, few, class))
            }
        }
    }
}

/// The answer of the row of the class, or the answer that there is if no row has it.
fn few_entry(kind: TableKind, few: &Few, class: ClassId) -> Answer
    ensures { result ≡ fast.entry_answer kind (find (λ row. row.0 == class) (rows_of few.now)) }
{
    match few {
        Few::One(row) => {
            if receiver_of(row) == class {
                Answer::Run(method_of(row))
            } else {
                entry_answer(kind, None)
            }
        }
        Few::Two(first, second) => {
            if receiver_of(first) == class {
                Answer::Run(method_of(first))
            } else if receiver_of(second) == class {
                Answer::Run(method_of(second))
            } else {
                entry_answer(kind, None)
            }
        }
    }
}

/// The answer by a table to a call on an object of the class, with so many classes: none if the class is newer.
fn row_for(classes: usize, kind: TableKind, table: &Table, class: ClassId) -> Fast
    ensures { result ≡ fast.fast_answer (Some (variant.Table kind table.now)) classes (Of class) }
{
    if is_newer(classes, class) {
        return Fast::Miss;
    }
    Fast::Now(entry_answer(kind, row_of(table.as_slice(), class)))
}

/// Whether the class came after so many classes.
fn is_newer(classes: usize, class: ClassId) -> bool
    ensures { result ≡ fast.is_newer classes (Of class) }
{
    classes <= class.number() as usize
}

/// The row of the receiver's class.
fn row_of(rows: &[(ClassId, Outcome)], class: ClassId) -> Option<&(ClassId, Outcome)>
    ensures { option_copied result ≡ find (λ row. row.0 == class) rows.now }
{
    rows.iter().find(|row| row.0 == class)
}

/// The answer of the row of the receiver's class, or the answer that there is without such a row.
fn entry_answer(kind: TableKind, row: Option<&(ClassId, Outcome)>) -> Answer
    ensures { result ≡ fast.entry_answer kind (option_copied row.entry) }
{
    match row {
        Some(row) => Answer::from(row.1),
        None => match kind {
            TableKind::Virtual => Answer::BadReceiver,
            TableKind::Interface => Answer::Throws(Throwable::IncompatibleClassChangeError),
        },
    }
}
