//! What is found of an invocation, in words.

use crate::texts::names::push_name;
use crate::told::{Methods, Note};
use jl_class::{Operand, Site};
use jl_hierarchy::Classes;
use jl_json::throwable_name;
use jl_names::LentName;
use jl_report::{Finding, Row, is_open};
use jl_types::{
    ClassId, Link, MethodId, Missing, NotLinkable, Outcome, Table, Throwable, Unlinked,
};
use std::alloc::{AllocError, Global};

/// Appends a decimal number.
pub(crate) fn push_number(number: u64, out: &mut String) -> Result<(), AllocError> {
    write!(out, "{number}")
}

/// Appends the name of the class.
pub(crate) fn push_class(
    alloc: Global,
    classes: &Classes,
    class: ClassId,
    out: &mut String,
) -> Result<(), AllocError> {
    match classes.class_at(class) {
        Some(row) => push_name(alloc, row.file().name().as_slice(), out),
        None => Ok(()),
    }
}

/// Appends the class and the name of the method.
fn push_method(
    alloc: Global,
    classes: &Classes,
    method: &MethodId,
    out: &mut String,
) -> Result<(), AllocError> {
    let Some(row) = classes.class_at(method.class) else {
        return Ok(());
    };
    push_name(alloc, row.file().name().as_slice(), out)?;
    let methods = row.file().methods();
    let Some(found) = methods.at(method.index as usize) else {
        return Ok(());
    };
    out.push('.')?;
    push_name(alloc, found.name().as_slice(), out)
}

/// Appends what the invocation names.
pub(crate) fn push_operand(
    alloc: Global,
    operand: &Operand<LentName<'_>>,
    out: &mut String,
) -> Result<(), AllocError> {
    match operand {
        Operand::Method(reference) => {
            push_name(alloc, reference.owner.as_slice(), out)?;
            out.push('.')?;
            push_name(alloc, reference.name.as_slice(), out)?;
            push_name(alloc, reference.ty.as_slice(), out)
        }
        Operand::CallSite(specifier) => {
            push_name(alloc, specifier.name.as_slice(), out)?;
            push_name(alloc, specifier.ty.as_slice(), out)
        }
    }
}

/// Appends the outcome on objects of a class.
fn push_outcome(
    alloc: Global,
    classes: &Classes,
    outcome: Outcome,
    out: &mut String,
) -> Result<(), AllocError> {
    match outcome {
        Outcome::Run(method) => push_method(alloc, classes, &method, out),
        Outcome::Throws(throwable) => push_throws(throwable, out),
    }
}

/// Appends that each call throws this.
fn push_throws(throwable: Throwable, out: &mut String) -> Result<(), AllocError> {
    out.push_str("throws ")?;
    out.push_str(throwable_name(throwable))
}

/// Appends the table, each class with its outcome.
fn push_table(
    alloc: Global,
    classes: &Classes,
    table: &Table,
    note: &Note,
    out: &mut String,
) -> Result<(), AllocError> {
    let rows = table.as_slice();
    if rows.is_empty() {
        return out.push_str("no receivers");
    }
    out.push_str("table of ")?;
    push_number(rows.len() as u64, out)?;
    push_methods(" (", note, out)?;
    if note.method_count().is_some() {
        out.push(')')?;
    }
    let mut between = ": ";
    for row in rows {
        out.push_str(between)?;
        push_class(alloc, classes, row.0, out)?;
        out.push_str(" -> ")?;
        push_outcome(alloc, classes, row.1, out)?;
        between = ", ";
    }
    Ok(())
}

/// Appends the link.
fn push_link(
    alloc: Global,
    classes: &Classes,
    row: &Row,
    note: &Note,
    link: &Link,
    most: usize,
    out: &mut String,
) -> Result<(), AllocError> {
    match link {
        Link::Fault(throwable) => push_throws(*throwable, out),
        Link::Plain(method) => push_direct(alloc, classes, Outcome::Run(*method), out),
        Link::Direct(outcome) => push_direct(alloc, classes, *outcome, out),
        Link::Table(_, table) => push_table(alloc, classes, table, note, out),
        Link::Mega => {
            let count = match row.looked_at() {
                Some(class) if classes.has_class(class) => classes.receivers(class).len(),
                _ => 0,
            };
            write!(out, "mega ({count} receivers")?;
            push_methods(", ", note, out)?;
            out.push(')')?;
            push_named_methods(alloc, classes, note, most, out)
        }
    }
}

/// Appends the outcome of a link that is the same for each receiver.
fn push_direct(
    alloc: Global,
    classes: &Classes,
    outcome: Outcome,
    out: &mut String,
) -> Result<(), AllocError> {
    if let Outcome::Run(_) = outcome {
        out.push_str("direct ")?;
    }
    push_outcome(alloc, classes, outcome, out)
}

/// Appends how many different methods can run, if they were asked, after this text.
fn push_methods(before: &str, note: &Note, out: &mut String) -> Result<(), AllocError> {
    match &note.methods {
        Methods::Unasked => Ok(()),
        Methods::All(methods) => {
            let count = methods.len();
            let name = if count == 1 { "method" } else { "methods" };
            write!(out, "{before}{count} {name}")
        }
        Methods::Several => write!(out, "{before}3 methods or more"),
    }
}

/// Appends the methods that can run, so many at the most, if all receivers were asked for them.
fn push_named_methods(
    alloc: Global,
    classes: &Classes,
    note: &Note,
    most: usize,
    out: &mut String,
) -> Result<(), AllocError> {
    let (true, Methods::All(methods)) = (note.are_named, &note.methods) else {
        return Ok(());
    };
    for (place, method) in methods.iter().take(most).enumerate() {
        out.push_str(if place == 0 { ": " } else { ", " })?;
        push_method(alloc, classes, method, out)?;
    }
    let more = methods.len().saturating_sub(most);
    if more > 0 {
        write!(out, " and {more} more")?;
    }
    Ok(())
}

/// The class or interface of which a further one below may change the row's link, if there is one.
pub(crate) fn open_class(classes: &Classes, row: &Row) -> Option<ClassId> {
    if is_open(classes, row) {
        return row.looked_at();
    }
    None
}

/// Appends what the invocation waits for.
fn push_waits(
    alloc: Global,
    classes: &Classes,
    site: &Site<'_>,
    row: &Row,
    reason: Unlinked,
    out: &mut String,
) -> Result<(), AllocError> {
    match reason {
        Unlinked::NotReady(Missing::Named) => {
            out.push_str("waits for ")?;
            match site.operand() {
                Operand::Method(reference) => push_name(alloc, reference.owner.as_slice(), out),
                Operand::CallSite(_) => out.push_str("its call site"),
            }
        }
        Unlinked::NotReady(Missing::CallerHost) => push_host(alloc, classes, row.place.class, out),
        Unlinked::NotReady(Missing::MethodHost) => {
            out.push_str("waits for the nest host of the method's class")
        }
        Unlinked::Unbound => out.push_str("waits for its call site"),
        Unlinked::Gone => out.push_str("gone"),
        Unlinked::NoSite => out.push_str("no invocation"),
    }
}

/// Appends the nest host that is awaited.
fn push_host(
    alloc: Global,
    classes: &Classes,
    class: ClassId,
    out: &mut String,
) -> Result<(), AllocError> {
    out.push_str("waits for ")?;
    let Some(row) = classes.class_at(class) else {
        return Ok(());
    };
    match row.file().nest_host() {
        Some(name) => push_name(alloc, name.as_slice(), out),
        None => Ok(()),
    }
}

/// Appends what is found of the invocation, with so many of the methods of a megamorphic one at the most.
pub(crate) fn push_finding(
    alloc: Global,
    classes: &Classes,
    site: &Site<'_>,
    row: &Row,
    note: &Note,
    most: usize,
    out: &mut String,
) -> Result<(), AllocError> {
    match &row.finding {
        Finding::Linked(link) => {
            push_link(alloc, classes, row, note, link, most, out)?;
            if let Some(class) = open_class(classes, row) {
                out.push_str("; rests on the subclasses of ")?;
                push_class(alloc, classes, class, out)?;
                if note.is_final {
                    out.push_str("; FINAL, so no class that a JVM takes changes it")?;
                }
            }
            if note.is_made {
                out.push_str("; an invokedynamic may make further receivers")?;
            }
            Ok(())
        }
        Finding::Unlinked(reason) => push_waits(alloc, classes, site, row, *reason, out),
        Finding::NotLinkable(NotLinkable::ArrayReceiver) => {
            out.push_str("not linkable: ArrayReceiver")
        }
        Finding::NotLinkable(NotLinkable::PolymorphicSignature) => {
            out.push_str("not linkable: PolymorphicSignature")
        }
    }
}
