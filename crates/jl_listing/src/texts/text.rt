//! A report as text.

use crate::left_out::{LeftOut, Whose};
use crate::texts::links::{push_class, push_finding, push_number, push_operand};
use crate::texts::names::{push_line, push_name};
use crate::told::Note;
use indexmap::IndexMap;
use jl_class::{ClassFile, Method, Site};
use jl_hierarchy::Classes;
use jl_json::instruction;
use jl_report::{Dropped, Row};
use jl_types::ClassId;
use serde_json::Value;
use std::alloc::{AllocError, Global};

/// Appends the class and the method.
pub(crate) fn push_method_line(
    alloc: Global,
    file: &ClassFile,
    method: &Method<'_>,
    out: &mut String,
) -> Result<(), AllocError> {
    let mut line = String::new(alloc);
    push_name(alloc, file.name().as_slice(), &mut line)?;
    push_method_end(alloc, method, &mut line)?;
    push_line(line.as_str(), out)
}

/// Appends the method after its class.
fn push_method_end(alloc: Global, method: &Method<'_>, out: &mut String) -> Result<(), AllocError> {
    out.push('.')?;
    push_name(alloc, method.name().as_slice(), out)?;
    push_name(alloc, method.ty().as_slice(), out)
}

/// Appends the invocation and what is found of it.
pub(crate) fn push_site_line(
    alloc: Global,
    classes: &Classes,
    site: &Site<'_>,
    row: &Row,
    note: &Note,
    out: &mut String,
) -> Result<(), AllocError> {
    let pc = site.pc();
    let name = instruction(row.kind);
    let mut line = String::new(alloc);
    write!(line, "{pc:>7} {name} ")?;
    push_operand(alloc, site.operand(), &mut line)?;
    line.push_str("  ")?;
    push_finding(alloc, classes, site, row, note, MOST_NAMED, &mut line)?;
    push_line(line.as_str(), out)
}

/// Appends the invocation, which stands in this method, and what is found of it once this class drops its link.
pub(crate) fn push_dropped(
    alloc: Global,
    classes: &Classes,
    class: ClassId,
    one: &Dropped,
    method: &Method<'_>,
    site: &Site<'_>,
    out: &mut String,
) -> Result<(), AllocError> {
    let mut line = String::from_str(alloc, "dropped by ")?;
    push_class(alloc, classes, class, &mut line)?;
    line.push_str(": ")?;
    push_class(alloc, classes, one.before.place.class, &mut line)?;
    push_method_end(alloc, method, &mut line)?;
    push_line(line.as_str(), out)?;
    let nothing = Note::nothing();
    push_site_line(alloc, classes, site, &one.before, &nothing, out)?;
    line.clear();
    line.push_str("        now  ")?;
    push_finding(
        alloc, classes, site, &one.after, &nothing, MOST_NAMED, &mut line,
    )?;
    push_line(line.as_str(), out)
}

/// So many methods are named in a line.
const MOST_NAMED: usize = 8;

/// What to do with an archive.
const ADVICE: &str = ": its classes have to be unpacked first (unzip, or tools/classes.py)";

/// Appends why a file is left out: the name of the refusal, what it is about, and what to do, if that is known.
pub(crate) fn push_reason(answer: &Value, out: &mut String) -> Result<(), AllocError> {
    let name = text_in(answer, "refused").unwrap_or("");
    push_kind(name, answer, out)?;
    if let Some(about) = text_in(answer, "name") {
        out.push(' ')?;
        out.push_str(about)?;
    }
    push_place(" method ", answer, "method", out)?;
    push_place(" at ", answer, "at", out)?;
    push_advice(name, out)
}

/// Appends the name of the refusal, and of a version that isn't read the version, with the option that takes it, if one does.
pub(crate) fn push_kind(name: &str, answer: &Value, out: &mut String) -> Result<(), AllocError> {
    out.push_str(name)?;
    let Some(version) = text_in(answer, "version") else {
        return Ok(());
    };
    write!(out, " {version}")?;
    if answer.get("release").is_none() {
        return Ok(());
    }
    push_place(" (--release ", answer, "release", out)?;
    out.push_str(" takes it)")
}

/// Appends what to do with files that are refused so, if that is known.
pub(crate) fn push_advice(name: &str, out: &mut String) -> Result<(), AllocError> {
    if name == "Archive" {
        out.push_str(ADVICE)?;
    }
    Ok(())
}

/// Appends how many files are left out. Those of classes that would be reported are told each, or by how many for each reason. Of the
/// others it appends how many there are, and how many of them are of which version that isn't read.
pub(crate) fn push_all_left_out(
    alloc: Global,
    left_out: &[LeftOut],
    is_each_told: bool,
    out: &mut String,
) -> Result<(), AllocError> {
    push_count("files that are left out", left_out, Whose::Reported, out)?;
    if is_each_told {
        for one in left_out {
            if one.whose == Whose::Reported {
                let path = one.path.as_str();
                let mut line = String::new(alloc);
                write!(line, "    {path}  ")?;
                push_reason(&one.answer, &mut line)?;
                push_line(line.as_str(), out)?;
            }
        }
    } else {
        push_reasons(alloc, left_out, Whose::Reported, out)?;
    }
    push_count("files of modules", left_out, Whose::Module, out)?;
    push_count("left out beside them", left_out, Whose::Beside, out)?;
    push_reasons(alloc, left_out, Whose::Beside, out)
}

/// Appends how many of the files that are left out are such, if there are any.
fn push_count(
    head: &str,
    left_out: &[LeftOut],
    whose: Whose,
    out: &mut String,
) -> Result<(), AllocError> {
    let count = left_out.iter().filter(|one| one.whose == whose).count();
    if count == 0 {
        return Ok(());
    }
    write!(out, "{head:<28}{count:>12}\n")
}

/// By what files are counted that are left out: the version that isn't read, or the name of the refusal. Of files beside the others only
/// those are counted that aren't read for their version.
fn counted_by(one: &LeftOut, whose: Whose) -> Option<&str> {
    if one.whose != whose {
        return None;
    }
    match text_in(&one.answer, "version") {
        Some(version) => Some(version),
        None if whose == Whose::Beside => None,
        None => text_in(&one.answer, "refused"),
    }
}

/// How many files are left out for a reason, and the first of them.
#[derive(Clone, Copy)]
pub(crate) struct Reason<'a> {
    pub(crate) count: u64,
    pub(crate) first: &'a LeftOut,
}

/// Counts the files that are left out and are such, for each reason.
pub(crate) fn count_reasons<'a>(
    left_out: &'a [LeftOut],
    whose: Whose,
    reasons: &mut IndexMap<&'a str, Reason<'a>>,
) -> Result<(), AllocError> {
    for one in left_out {
        if let Some(name) = counted_by(one, whose) {
            let reason = match reasons.get(name) {
                Some(Reason { count, first }) => Reason {
                    count: count.saturating_add(1),
                    first: *first,
                },
                None => Reason {
                    count: 1,
                    first: one,
                },
            };
            reasons.insert(name, reason)?;
        }
    }
    Ok(())
}

/// Appends for which reasons such files are left out, each with its count and the first of its files.
fn push_reasons(
    alloc: Global,
    left_out: &[LeftOut],
    whose: Whose,
    out: &mut String,
) -> Result<(), AllocError> {
    let mut reasons = IndexMap::new(alloc);
    count_reasons(left_out, whose, &mut reasons)?;
    for (_, reason) in &reasons {
        let Reason { count, first } = *reason;
        let name = text_in(&first.answer, "refused").unwrap_or("");
        let path = first.path.as_str();
        let mut line = String::new(alloc);
        write!(line, "    {count:>12}  ")?;
        push_kind(name, &first.answer, &mut line)?;
        write!(line, ", {path}")?;
        push_advice(name, &mut line)?;
        push_line(line.as_str(), out)?;
    }
    Ok(())
}

/// The text under the key.
pub(crate) fn text_in<'a>(answer: &'a Value, key: &str) -> Option<&'a str> {
    answer.get(key)?.as_str()
}

/// Appends the number under the key after this text, if there is one.
fn push_place(before: &str, answer: &Value, key: &str, out: &mut String) -> Result<(), AllocError> {
    let Some(value) = answer.get(key) else {
        return Ok(());
    };
    match value.as_u64() {
        Some(number) => {
            out.push_str(before)?;
            push_number(number, out)
        }
        None => Ok(()),
    }
}
