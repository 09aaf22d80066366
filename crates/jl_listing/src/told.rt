//! What is told of an invocation beside its link.

use crate::report_words::ReportWords;
use jl_hierarchy::Classes;
use jl_report::{Made, Report, Row, Shape, is_final_call, some_overrides_final};
use jl_types::MethodId;
use std::alloc::{AllocError, Global};

/// So many different methods are looked for, unless all are asked for.
const MOST_METHODS: usize = 3;

/// The different methods that an invocation can run.
#[derive(Drop)]
pub(crate) enum Methods {
    /// It isn't asked: its link looks at no receivers, or tells the one method.
    Unasked,
    /// These are all.
    All(Vec<MethodId>),
    /// There are more than two, and not all receivers were asked.
    Several,
}

/// What is found out once of all classes, for the marks of invocations.
pub(crate) struct Marks {
    /// Which classes an invokedynamic makes objects of.
    made: Made,
    /// Whether these may be classes that a JVM has taken: none overrides a FINAL method, and what is above a class is its superclasses and
    /// interfaces.
    are_derived: bool,
}

/// Written out, so that what drops one makes one call of it and doesn't take apart what it holds.
impl Drop for Marks {
    fn drop(self) {
        let Marks {
            made: _made,
            are_derived: _are_derived,
        } = self;
    }
}

impl Marks {
    /// The marks for these classes.
    pub(crate) fn of(alloc: Global, classes: &Classes) -> Result<Marks, AllocError> {
        Ok(Marks {
            made: Made::of(alloc, classes)?,
            are_derived: classes.are_superclass_chains() && !some_overrides_final(classes),
        })
    }
}

/// What is told of an invocation beside its link, or beside why it has none.
pub(crate) struct Note {
    pub(crate) methods: Methods,
    /// Whether the methods of a megamorphic one are told by their names.
    pub(crate) are_named: bool,
    /// Whether an invokedynamic may make further receivers.
    pub(crate) is_made: bool,
    /// Whether no class that a JVM takes drops its link, since the method is FINAL.
    pub(crate) is_final: bool,
}

/// Written out, so that what drops one makes one call of it and doesn't take apart what it holds.
impl Drop for Note {
    fn drop(self) {
        let Note {
            methods: _methods,
            are_named: _are_named,
            is_made: _is_made,
            is_final: _is_final,
        } = self;
    }
}

impl Note {
    /// Nothing.
    pub(crate) fn nothing() -> Note {
        Note {
            methods: Methods::Unasked,
            are_named: false,
            is_made: false,
            is_final: false,
        }
    }

    /// How many different methods it can run, if that is known.
    pub(crate) fn method_count(&self) -> Option<usize> {
        match &self.methods {
            Methods::All(methods) => Some(methods.len()),
            _ => None,
        }
    }
}

/// What is told of these invocations, in order: nothing of those that aren't reported.
pub(crate) fn notes_of(
    alloc: Global,
    report: &Report,
    marks: &Marks,
    asked: &ReportWords,
    rows: &[Row],
) -> Result<Vec<Note>, AllocError> {
    let mut notes = Vec::with_capacity(alloc, rows.len())?;
    for row in rows {
        let mut note = Note::nothing();
        if asked.chosen.takes_row(report.classes(), row) {
            note.methods = methods_of(alloc, report, asked, row)?;
            note.are_named = asked.all_receivers;
            note.is_made = marks.made.meets(row);
            note.is_final = marks.are_derived && is_final_call(report.classes(), row);
        }
        notes.push(note)?;
    }
    Ok(notes)
}

/// The methods that the invocation can run, if its link may run several.
fn methods_of(
    alloc: Global,
    report: &Report,
    asked: &ReportWords,
    row: &Row,
) -> Result<Methods, AllocError> {
    match Shape::of(&row.finding) {
        Shape::NoReceivers => Ok(Methods::All(Vec::new(alloc))),
        Shape::Table => all_methods(alloc, report, row),
        Shape::Mega if asked.all_receivers => all_methods(alloc, report, row),
        Shape::Mega => {
            let methods = report.methods_of(alloc, row, MOST_METHODS)?;
            if methods.len() < MOST_METHODS {
                Ok(Methods::All(methods))
            } else {
                Ok(Methods::Several)
            }
        }
        _ => Ok(Methods::Unasked),
    }
}

/// All methods that the invocation can run.
fn all_methods(alloc: Global, report: &Report, row: &Row) -> Result<Methods, AllocError> {
    Ok(Methods::All(report.methods_of(alloc, row, usize::MAX)?))
}
