//! A report, from paths to what is written.

use crate::breaks::add_further;
use crate::chosen::Chosen;
use crate::fault::ReportFault;
use crate::html::Read;
use crate::left_out::{LeftOut, add_no_classes, add_refused};
use crate::page::Page;
use crate::page_file::{write_page, written_over};
use crate::progress::Progress;
use crate::report_words::ReportWords;
use crate::texts::{Elsewhere, push_nothing, push_shown};
use crate::told::Marks;
use jl_class::ClassFile;
use jl_hierarchy::Classes;
use jl_names::Name;
use jl_paths::{Gathered, NoClass, PathFault, Source, read_all};
use jl_report::{Report, define_all, order_by_name};
use jl_types::{ClassId, LoaderId};
use std::alloc::Global;
use std::io::{ErrorKind, IsTerminal, Write};
use std::rt::Files;
use std::time::{Clock, SystemTime, UNIX_EPOCH};

/// What is told of the files beside their invocations.
#[derive(Drop)]
struct Missed {
    /// Those that are left out.
    left_out: Vec<LeftOut>,
    /// The paths that couldn't be read.
    faults: Vec<PathFault>,
    /// How many class files are of a version above those of SE 17.
    later: u64,
}

/// Reads the class files of the paths, and writes what is found of their invocations. A path that can't be read is told to `errors`. If
/// `out` is a closed pipe, it ends early and without an error, but writes the page that is asked for.
///
/// # Errors
///
/// - A page that would be written over class files, before anything is read.
/// - A path that couldn't be read, after the report of the others.
/// - No class to be reported, after the report of why.
/// - A failed write, or want of memory.
pub fn run_report<R: Files + AllocGlobal + Clock + Clone + Drop, W: Write, E: Write + IsTerminal>(
    rt: &R,
    asked: &ReportWords,
    out: &mut W,
    errors: &mut E,
) -> Result<(), ReportFault> {
    match report(rt, asked, out, errors) {
        Err(ReportFault::Closed) => Ok(()),
        ended => ended,
    }
}

/// Reads the class files of the paths, and writes the report, as [`run_report`] does. A closed pipe is an error, too.
fn report<R: Files + AllocGlobal + Clock + Clone + Drop, W: Write, E: Write + IsTerminal>(
    rt: &R,
    asked: &ReportWords,
    out: &mut W,
    errors: &mut E,
) -> Result<(), ReportFault> {
    if let Some(path) = written_over(rt, asked)? {
        return refuse_page(rt.alloc(), asked, path, out);
    }
    let mut page = Page::new(rt.alloc(), asked);
    let mut missed = Missed {
        left_out: Vec::new(rt.alloc()),
        faults: Vec::new(rt.alloc()),
        later: 0,
    };
    add_all(rt, asked, &mut page, &mut missed, out, errors)?;
    write_end(rt, asked, &mut page, missed, out, errors)
}

/// Tells that the page would be written over what is at this path.
///
/// # Errors
///
/// Always: [`ReportFault::BadWords`], or why that couldn't be told.
fn refuse_page<W: Write>(
    alloc: Global,
    asked: &ReportWords,
    path: &str,
    out: &mut W,
) -> Result<(), ReportFault> {
    let mut text = String::from_str(alloc, "error: the page '--html ")?;
    if let Some(page) = &asked.html {
        push_shown(page.as_str(), &mut text)?;
    }
    text.push_str("' would be written over class files, in '")?;
    push_shown(path, &mut text)?;
    text.push_str("'\n\n`linkd report --help` has all options.\n")?;
    match out.write_all(text.as_bytes()) {
        Ok(()) => Err(ReportFault::BadWords),
        Err(error) => match ReportFault::from(error) {
            ReportFault::Closed => Err(ReportFault::BadWords),
            fault => Err(fault),
        },
    }
}

/// Adds all invocations that are reported, and what further classes drop, and writes most of it.
fn add_all<R: Files + AllocGlobal + Clock + Clone + Drop, W: Write, E: Write + IsTerminal>(
    rt: &R,
    asked: &ReportWords,
    page: &mut Page,
    missed: &mut Missed,
    out: &mut W,
    errors: &mut E,
) -> Result<(), ReportFault> {
    let mut classes = Classes::new(rt.alloc())?;
    let listed = listed_of(rt, asked, &mut classes, page, missed)?;
    let marks = Marks::of(rt.alloc(), &classes)?;
    let mut report = Report::of(classes);
    add_classes(rt, asked, &report, &marks, &listed, page, out, errors)?;
    if !asked.breaks.is_empty() {
        add_breaks(rt, asked, &mut report, page, missed, out)?;
    }
    Ok(())
}

/// Defines the classes of the paths, and gives those that are reported, by name. If none is there, it is told why.
fn listed_of<R: Files + AllocGlobal + Clone + Drop>(
    rt: &R,
    asked: &ReportWords,
    classes: &mut Classes,
    page: &mut Page,
    missed: &mut Missed,
) -> Result<Vec<ClassId>, ReportFault> {
    let own = read_all(rt, &asked.paths, &asked.beside, asked.newest)?;
    let own = define_gathered(rt.alloc(), classes, own, page, missed)?;
    page.missing.count_classes(rt.alloc())?;
    let count = own.len();
    let listed = chosen_of(rt.alloc(), classes, own, &asked.chosen)?;
    page.summary.other_classes = count.saturating_sub(listed.len()) as u64;
    if listed.is_empty() {
        let nothing = why_nothing(rt.alloc(), count, page, &missed.left_out)?;
        page.add_nothing(rt.alloc(), nothing)?;
    }
    Ok(listed)
}

/// Why none of so many classes is reported.
fn why_nothing(
    alloc: Global,
    count: usize,
    page: &Page,
    left_out: &[LeftOut],
) -> Result<String, ReportFault> {
    let mut text = String::new(alloc);
    if count == 0 {
        push_nothing(alloc, left_out, &page.missing, &mut text)?;
    } else {
        write!(
            text,
            "--in takes none of the {count} classes of these paths"
        )?;
    }
    Ok(text)
}

/// Writes what is left of the report, its end, and the page of HTML, and tells of paths that couldn't be read.
fn write_end<R: Files + AllocGlobal + Clock, W: Write, E: Write>(
    rt: &R,
    asked: &ReportWords,
    page: &mut Page,
    missed: Missed,
    out: &mut W,
    errors: &mut E,
) -> Result<(), ReportFault> {
    let Missed {
        left_out,
        faults,
        later,
    } = missed;
    let mut faults = faults;
    page.summary.later = later;
    add_end(rt.alloc(), page, left_out)?;
    page.write(out)?;
    if let Some(path) = &asked.html {
        write_html(rt, asked, path.as_str(), page, &mut faults)?;
    }
    tell_faults(rt.alloc(), &faults, errors)?;
    if page.has_classes() {
        Ok(())
    } else {
        Err(ReportFault::Nothing)
    }
}

/// Seconds since 1970, or 0 if no clock tells them.
fn seconds_now<R: Clock>(rt: &R) -> u64 {
    match SystemTime::now(rt) {
        Ok(now) => match now.duration_since(UNIX_EPOCH) {
            Ok(since) => since.as_secs(),
            Err(_) => 0,
        },
        Err(_) => 0,
    }
}

/// Adds the files that are left out, by path, and the totals.
fn add_end(alloc: Global, page: &mut Page, left_out: Vec<LeftOut>) -> Result<(), ReportFault> {
    let mut left_out = left_out;
    left_out.sort_by(|a, b| a.path.as_str().cmp(b.path.as_str()))?;
    page.add_end(alloc, left_out)
}

/// Writes the page of HTML, if there is one, into the file of this path.
fn write_html<R: Files + AllocGlobal + Clock>(
    rt: &R,
    asked: &ReportWords,
    path: &str,
    page: &Page,
    faults: &mut Vec<PathFault>,
) -> Result<(), ReportFault> {
    let read = Read {
        words: &asked.words,
        paths: &asked.paths,
        beside: &asked.beside,
        seconds: seconds_now(rt),
    };
    let Some(text) = page.html_text(rt.alloc(), &read)? else {
        return Ok(());
    };
    match write_page(rt, path, text.as_str()) {
        Ok(()) => Ok(()),
        Err(error) => match error.kind() {
            ErrorKind::OutOfMemory => Err(ReportFault::Memory),
            kind => Ok(faults.push(PathFault {
                path: String::from_str(rt.alloc(), path)?,
                kind,
            })?),
        },
    }
}

/// Adds the invocations of the classes that are reported, and writes most of them.
fn add_classes<R: AllocGlobal + Clock, W: Write, E: Write + IsTerminal>(
    rt: &R,
    asked: &ReportWords,
    report: &Report,
    marks: &Marks,
    listed: &[ClassId],
    page: &mut Page,
    out: &mut W,
    errors: &mut E,
) -> Result<(), ReportFault> {
    let mut progress = Progress::new(rt, errors);
    for (done, class) in listed.iter().enumerate() {
        progress.tell(rt, done, listed.len(), errors);
        page.add_class(rt.alloc(), report, marks, asked, *class)?;
        page.write_if_full(out)?;
    }
    progress.end(errors);
    Ok(())
}

/// Adds what further classes drop, class by class.
fn add_breaks<R: Files + AllocGlobal + Clone + Drop, W: Write>(
    rt: &R,
    asked: &ReportWords,
    report: &mut Report,
    page: &mut Page,
    missed: &mut Missed,
    out: &mut W,
) -> Result<(), ReportFault> {
    let Gathered {
        files,
        sources,
        no_classes,
        faults,
        later,
    } = read_all(rt, &asked.breaks, &[], asked.newest)?;
    add_missed(rt.alloc(), no_classes, faults, later, missed)?;
    let refused = add_further(rt.alloc(), report, &asked.chosen, files, page, out)?;
    let _is_listed = add_refused(
        rt.alloc(),
        &sources,
        &[],
        refused,
        &mut page.missing,
        &mut missed.left_out,
    )?;
    page.add_breaks()
}

/// Defines the classes of what was read, and gives those of them that are to be reported.
fn define_gathered(
    alloc: Global,
    classes: &mut Classes,
    gathered: Gathered,
    page: &mut Page,
    missed: &mut Missed,
) -> Result<Vec<ClassId>, ReportFault> {
    let Gathered {
        files,
        sources,
        no_classes,
        faults,
        later,
    } = gathered;
    add_missed(alloc, no_classes, faults, later, missed)?;
    let names = names_of(alloc, &files)?;
    count_elsewhere(alloc, &sources, &names, &mut page.elsewhere)?;
    let refused = define_all(alloc, classes, files)?;
    let is_listed = add_refused(
        alloc,
        &sources,
        &names,
        refused,
        &mut page.missing,
        &mut missed.left_out,
    )?;
    listed_by_name(alloc, classes, &names, &is_listed)
}

/// Adds the files that are no class files, the paths that couldn't be read, and how many class files are of a version above those of SE 17.
fn add_missed(
    alloc: Global,
    no_classes: Vec<NoClass>,
    faults: Vec<PathFault>,
    later: u64,
    missed: &mut Missed,
) -> Result<(), ReportFault> {
    missed.later = missed.later.saturating_add(later);
    add_no_classes(alloc, no_classes, &mut missed.left_out)?;
    Ok(missed.faults.extend(faults)?)
}

/// Counts the files that would be reported and aren't at the places of their classes, of these names.
fn count_elsewhere(
    alloc: Global,
    sources: &[Source],
    names: &[Name],
    elsewhere: &mut Elsewhere,
) -> Result<(), ReportFault> {
    for (source, name) in sources.iter().zip(names) {
        if source.is_reported {
            elsewhere.add(alloc, source.path.as_str(), name.as_slice())?;
        }
    }
    Ok(())
}

/// The classes of the names that are marked.
fn listed_by_name(
    alloc: Global,
    classes: &Classes,
    names: &[Name],
    are_listed: &[bool],
) -> Result<Vec<ClassId>, ReportFault> {
    let mut listed = Vec::new(alloc);
    for (name, is_listed) in names.iter().zip(are_listed) {
        if *is_listed {
            if let Some(class) = classes.lookup(LoaderId::new(0), name.as_slice()) {
                listed.push(class)?;
            }
        }
    }
    Ok(listed)
}

/// The names of the classes of these files.
fn names_of(alloc: Global, files: &[ClassFile]) -> Result<Vec<Name>, ReportFault> {
    let mut names = Vec::with_capacity(alloc, files.len())?;
    for file in files {
        names.push(file.name().copy(alloc)?)?;
    }
    Ok(names)
}

/// Those of the classes that are reported, by name.
fn chosen_of(
    alloc: Global,
    classes: &Classes,
    own: Vec<ClassId>,
    chosen: &Chosen,
) -> Result<Vec<ClassId>, ReportFault> {
    let mut listed = Vec::new(alloc);
    for class in own {
        if let Some(row) = classes.class_at(class) {
            if chosen.takes_class(alloc, row.file().name().as_slice())? {
                listed.push(class)?;
            }
        }
    }
    order_by_name(alloc, classes, &mut listed)?;
    Ok(listed)
}

/// Tells of paths that couldn't be read.
///
/// # Errors
///
/// There is one.
fn tell_faults<E: Write>(
    alloc: Global,
    faults: &[PathFault],
    errors: &mut E,
) -> Result<(), ReportFault> {
    if faults.is_empty() {
        return Ok(());
    }
    for fault in faults {
        let kind = fault.kind;
        let mut line = String::from_str(alloc, "linkd: ")?;
        push_shown(fault.path.as_str(), &mut line)?;
        write!(line, ": {kind}\n")?;
        errors.write_all(line.as_bytes())?;
    }
    Err(ReportFault::Device)
}
