//! Why a report has no class.

use crate::left_out::{LeftOut, Whose};
use crate::texts::missing::MissingClasses;
use crate::texts::text::{Reason, count_reasons, push_advice, push_kind, text_in};
use indexmap::IndexMap;
use std::alloc::{AllocError, Global};

/// The reason for which most of the files are left out whose classes would be reported, the first of several.
fn most_frequent(alloc: Global, left_out: &[LeftOut]) -> Result<Option<Reason<'_>>, AllocError> {
    let mut reasons = IndexMap::new(alloc);
    count_reasons(left_out, Whose::Reported, &mut reasons)?;
    let mut most: Option<Reason<'_>> = None;
    for (_, reason) in &reasons {
        match most {
            Some(before) if before.count >= reason.count => {}
            _ => most = Some(*reason),
        }
    }
    Ok(most)
}

/// What is said of files that are left out so, and that no option takes.
fn said_of(refused: &str, release: bool) -> &'static str {
    match refused {
        "Archive" => "",
        "BadVersion" if release => "",
        "BadVersion" => ", and no release takes these",
        "Fifo" | "Socket" | "Device" => ", and only files and folders are read",
        "TooLarge" => ", and a class file has at most 1,000,000 bytes",
        _ if refused.starts_with("Define.") => ", so they make no classes",
        _ => ", and aren't class files that can be read",
    }
}

/// Appends why no class of the paths is there: the most frequent reason, and what to do.
pub(crate) fn push_nothing(
    alloc: Global,
    left_out: &[LeftOut],
    missing: &MissingClasses,
    out: &mut String,
) -> Result<(), AllocError> {
    out.push_str("no class of these paths ")?;
    let Some(reason) = most_frequent(alloc, left_out)? else {
        return out.push_str("was read: they have no files whose names end in .class");
    };
    let answer = &reason.first.answer;
    let refused = text_in(answer, "refused").unwrap_or("");
    if refused == "Define.MissingParent" {
        if let Some(root) = missing.sorted(alloc)?.first() {
            let name = root.name;
            write!(out, "has its parents: {name}")?;
            return out.push_str(" is missing, and --with takes the classes of a JDK or a library");
        }
    }
    let count = reason.count;
    let all = left_out
        .iter()
        .filter(|one| one.whose == Whose::Reported)
        .count();
    write!(out, "was read: {count} of {all} files are left out by ")?;
    push_kind(refused, answer, out)?;
    out.push_str(said_of(refused, answer.get("release").is_some()))?;
    push_advice(refused, out)
}
