//! A report as JSON, an object a line.

use crate::left_out::LeftOut;
use crate::texts::elsewhere::Elsewhere;
use crate::texts::links::open_class;
use crate::texts::names::push_name;
use crate::texts::totals::{KINDS_BY_NAME, SHAPES_BY_KEY, Summary};
use crate::told::{Methods, Note};
use jl_class::{ClassFile, Method, Operand, Site};
use jl_hierarchy::Classes;
use jl_json::{instruction, table_kind, throwable_name};
use jl_report::{Finding, Row, Totals};
use jl_types::{ClassId, Link, Missing, NotLinkable, Outcome, Table, TableKind, Unlinked};
use json::Writer;
use serde_json::{Value, put};
use std::alloc::{AllocError, Global};
use std::str::from_utf8;

/// Writes a name, as text.
fn write_name(alloc: Global, name: &[u8], out: &mut Writer) -> Result<(), AllocError> {
    if let Ok(text) = from_utf8(name) {
        return out.string(text);
    }
    let mut text = String::new(alloc);
    push_name(alloc, name, &mut text)?;
    out.string(text.as_str())
}

/// Writes the name of the class.
fn write_class(
    alloc: Global,
    classes: &Classes,
    class: ClassId,
    out: &mut Writer,
) -> Result<(), AllocError> {
    match classes.class_at(class) {
        Some(row) => write_name(alloc, row.file().name().as_slice(), out),
        None => out.null(),
    }
}

/// Writes a text under the key.
fn write_text(key: &str, text: &str, out: &mut Writer) -> Result<(), AllocError> {
    out.key(key)?;
    out.string(text)
}

/// Writes a number under the key.
fn write_number(key: &str, number: u64, out: &mut Writer) -> Result<(), AllocError> {
    out.key(key)?;
    out.u64(number)
}

/// Writes a name under the key.
fn write_name_at(
    alloc: Global,
    key: &str,
    name: &[u8],
    out: &mut Writer,
) -> Result<(), AllocError> {
    out.key(key)?;
    write_name(alloc, name, out)
}

/// Writes the name of the class under the key.
fn write_class_at(
    alloc: Global,
    key: &str,
    classes: &Classes,
    class: ClassId,
    out: &mut Writer,
) -> Result<(), AllocError> {
    out.key(key)?;
    write_class(alloc, classes, class, out)
}

/// Writes an outcome: the class whose method runs, of the invocation's name and type, or what is thrown.
fn write_outcome(
    alloc: Global,
    classes: &Classes,
    outcome: Outcome,
    out: &mut Writer,
) -> Result<(), AllocError> {
    out.begin_object()?;
    match outcome {
        Outcome::Run(method) => write_class_at(alloc, "run", classes, method.class, out)?,
        Outcome::Throws(throwable) => write_text("throws", throwable_name(throwable), out)?,
    }
    out.end_object()
}

/// Writes the members of a link by a table: its kind, and each class with its outcome.
fn write_table(
    alloc: Global,
    classes: &Classes,
    kind: TableKind,
    table: &Table,
    out: &mut Writer,
) -> Result<(), AllocError> {
    write_text("kind", table_kind(kind), out)?;
    out.key("table")?;
    out.begin_array()?;
    for row in table.as_slice() {
        out.begin_array()?;
        write_class(alloc, classes, row.0, out)?;
        write_outcome(alloc, classes, row.1, out)?;
        out.end_array()?;
    }
    out.end_array()
}

/// Writes the members of a link.
fn write_link_members(
    alloc: Global,
    classes: &Classes,
    link: &Link,
    out: &mut Writer,
) -> Result<(), AllocError> {
    match link {
        Link::Fault(throwable) => write_text("fault", throwable_name(*throwable), out),
        Link::Plain(method) => write_class_at(alloc, "plain", classes, method.class, out),
        Link::Direct(outcome) => {
            out.key("direct")?;
            write_outcome(alloc, classes, *outcome, out)
        }
        Link::Table(kind, table) => write_table(alloc, classes, *kind, table, out),
        Link::Mega => {
            out.key("mega")?;
            out.boolean(true)
        }
    }
}

/// The row of an invocation before this class was defined after the others.
#[derive(Clone, Copy)]
pub(crate) struct Former<'a> {
    pub(crate) row: &'a Row,
    pub(crate) class: ClassId,
}

/// Writes the invocation of the row, which stands in this method, and what is found of it, with the link that it had and the class that
/// dropped it, if one did. Keys are in byte order.
pub(crate) fn write_line(
    alloc: Global,
    classes: &Classes,
    row: &Row,
    note: &Note,
    method: &Method<'_>,
    site: &Site<'_>,
    former: Option<&Former<'_>>,
    out: &mut Writer,
) -> Result<(), AllocError> {
    out.begin_object()?;
    if let Operand::CallSite(specifier) = site.operand() {
        write_number("bootstrap", u64::from(specifier.bootstrap), out)?;
    }
    write_class_at(alloc, "class", classes, row.place.class, out)?;
    if let Some(former) = former {
        write_link_of(alloc, "dropped", classes, former.row, out)?;
        write_class_at(alloc, "droppedBy", classes, former.class, out)?;
    }
    if note.is_final && open_class(classes, row).is_some() {
        out.key("final")?;
        out.boolean(true)?;
    }
    write_text("kind", instruction(row.kind), out)?;
    write_link_of(alloc, "link", classes, row, out)?;
    if note.is_made {
        out.key("made")?;
        out.boolean(true)?;
    }
    write_named(alloc, classes, row, note, method, site, out)?;
    out.end_object()
}

/// Writes the members of a line after those of the link.
fn write_named(
    alloc: Global,
    classes: &Classes,
    row: &Row,
    note: &Note,
    method: &Method<'_>,
    site: &Site<'_>,
    out: &mut Writer,
) -> Result<(), AllocError> {
    write_name_at(alloc, "method", method.name().as_slice(), out)?;
    write_name_at(alloc, "methodType", method.ty().as_slice(), out)?;
    if let Some(count) = note.method_count() {
        write_number("methods", count as u64, out)?;
    }
    write_operand(alloc, classes, row, note, site, out)?;
    write_unlinked(&row.finding, out)
}

/// Writes the link under the key, if there is one.
fn write_link_of(
    alloc: Global,
    key: &str,
    classes: &Classes,
    row: &Row,
    out: &mut Writer,
) -> Result<(), AllocError> {
    match &row.finding {
        Finding::Linked(link) => {
            out.key(key)?;
            out.begin_object()?;
            write_link_members(alloc, classes, link, out)?;
            out.end_object()
        }
        _ => Ok(()),
    }
}

/// Writes the classes of the methods that can run, of a megamorphic link whose receivers were all asked.
fn write_runs(
    alloc: Global,
    classes: &Classes,
    row: &Row,
    note: &Note,
    out: &mut Writer,
) -> Result<(), AllocError> {
    let (Finding::Linked(Link::Mega), Methods::All(methods)) = (&row.finding, &note.methods) else {
        return Ok(());
    };
    out.key("runs")?;
    out.begin_array()?;
    for method in methods {
        write_class(alloc, classes, method.class, out)?;
    }
    out.end_array()
}

/// Writes what the invocation names, and between these members its pc, why it is never linked, and what its link rests on.
fn write_operand(
    alloc: Global,
    classes: &Classes,
    row: &Row,
    note: &Note,
    site: &Site<'_>,
    out: &mut Writer,
) -> Result<(), AllocError> {
    match site.operand() {
        Operand::Method(reference) => {
            write_name_at(alloc, "name", reference.name.as_slice(), out)?;
            write_name_at(alloc, "of", reference.owner.as_slice(), out)?;
            write_between(alloc, classes, row, note, out)?;
            write_name_at(alloc, "type", reference.ty.as_slice(), out)
        }
        Operand::CallSite(specifier) => {
            write_name_at(alloc, "name", specifier.name.as_slice(), out)?;
            write_between(alloc, classes, row, note, out)?;
            write_name_at(alloc, "type", specifier.ty.as_slice(), out)
        }
    }
}

/// Writes the pc, why the invocation is never linked, what its link rests on, and the classes of the methods that can run.
fn write_between(
    alloc: Global,
    classes: &Classes,
    row: &Row,
    note: &Note,
    out: &mut Writer,
) -> Result<(), AllocError> {
    write_number("pc", u64::from(row.place.pc), out)?;
    if let Finding::NotLinkable(reason) = &row.finding {
        let name = match reason {
            NotLinkable::ArrayReceiver => "NotLinkable.ArrayReceiver",
            NotLinkable::PolymorphicSignature => "NotLinkable.PolymorphicSignature",
        };
        write_text("refused", name, out)?;
    }
    if let Some(class) = open_class(classes, row) {
        write_class_at(alloc, "restsOn", classes, class, out)?;
    }
    write_runs(alloc, classes, row, note, out)
}

/// Writes why the invocation has no link, if it has none.
fn write_unlinked(finding: &Finding, out: &mut Writer) -> Result<(), AllocError> {
    let Finding::Unlinked(reason) = finding else {
        return Ok(());
    };
    match reason {
        Unlinked::NotReady(missing) => {
            let wants = match missing {
                Missing::Named => "named",
                Missing::CallerHost => "callerHost",
                Missing::MethodHost => "methodHost",
            };
            write_text("unlinked", "NotReady", out)?;
            write_text("wants", wants, out)
        }
        Unlinked::Unbound => write_text("unlinked", "Unbound", out),
        Unlinked::Gone => write_text("unlinked", "Gone", out),
        Unlinked::NoSite => write_text("unlinked", "NoSite", out),
    }
}

/// Appends the file that is left out and why, as a line.
pub(crate) fn push_left_out_line(
    alloc: Global,
    one: LeftOut,
    out: &mut Vec<u8>,
) -> Result<(), AllocError> {
    let mut one = one;
    if let Value::Object(members) = &mut one.answer {
        let path = Value::try_from_str(alloc, one.path.as_str())?;
        put(members, alloc, "file", path)?;
    }
    out.extend_from_slice(one.answer.to_vec(alloc)?.as_slice())?;
    Ok(out.push(b'\n')?)
}

/// Appends why no class is there, as a line.
pub(crate) fn push_nothing_line(
    alloc: Global,
    nothing: &str,
    out: &mut Vec<u8>,
) -> Result<(), AllocError> {
    let mut line = Writer::new(Vec::new(alloc));
    line.begin_object()?;
    write_text("nothing", nothing, &mut line)?;
    line.end_object()?;
    out.extend_from_slice(line.into_inner().as_slice())?;
    Ok(out.push(b'\n')?)
}

/// Writes the totals.
pub(crate) fn write_totals(
    summary: &Summary,
    elsewhere: &Elsewhere,
    left_out: u64,
    out: &mut Writer,
) -> Result<(), AllocError> {
    out.begin_object()?;
    write_number("classes", summary.classes, out)?;
    elsewhere.write(out)?;
    if summary.later > 0 {
        write_number("later", summary.later, out)?;
    }
    write_number("leftOut", left_out, out)?;
    if summary.later > 0 {
        write_text("linkedAs", "SE 17", out)?;
    }
    write_kinds("made", &summary.made, out)?;
    write_kinds("oneMethod", &summary.one_method, out)?;
    write_kinds("totals", &summary.totals, out)?;
    write_kinds("twoMethods", &summary.two_methods, out)?;
    out.end_object()
}

/// Writes under the key how many invocations of each instruction have each shape, if there are any.
fn write_kinds(key: &str, totals: &Totals, out: &mut Writer) -> Result<(), AllocError> {
    out.key(key)?;
    out.begin_object()?;
    for kind in &KINDS_BY_NAME {
        out.key(instruction(*kind))?;
        out.begin_object()?;
        for (shape, key) in &SHAPES_BY_KEY {
            let count = totals.count(*kind, *shape);
            if count > 0 {
                write_number(key, count, out)?;
            }
        }
        out.end_object()?;
    }
    out.end_object()
}

/// Writes the class: its name, what it declares, its flags, and the classes above it.
pub(crate) fn write_class_line(
    alloc: Global,
    file: &ClassFile,
    out: &mut Writer,
) -> Result<(), AllocError> {
    out.begin_object()?;
    write_name_at(alloc, "class", file.name().as_slice(), out)?;
    write_declared(alloc, file, out)?;
    write_number("flags", u64::from(file.flags()), out)?;
    out.key("interfaces")?;
    out.begin_array()?;
    for name in file.interfaces() {
        write_name(alloc, name.as_slice(), out)?;
    }
    out.end_array()?;
    if let Some(name) = file.superclass() {
        write_name_at(alloc, "super", name.as_slice(), out)?;
    }
    out.end_object()
}

/// Writes the methods that the class declares.
fn write_declared(alloc: Global, file: &ClassFile, out: &mut Writer) -> Result<(), AllocError> {
    let methods = file.methods();
    out.key("declares")?;
    out.begin_array()?;
    for index in 0..methods.len() {
        if let Some(method) = methods.at(index) {
            out.begin_object()?;
            write_number("flags", u64::from(method.flags()), out)?;
            write_name_at(alloc, "name", method.name().as_slice(), out)?;
            write_name_at(alloc, "type", method.ty().as_slice(), out)?;
            out.end_object()?;
        }
    }
    out.end_array()
}
