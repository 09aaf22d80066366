//! What a page shows, as JSON in the page.
//!
//! `texts` has each text once, and all others stand by their places there. Each of these is a list:
//!
//! - a class: its name and its methods;
//! - a method: its name, its descriptor and its invocations;
//! - an invocation: its pc, its instruction, the shape of its finding (0 to 5), the class, name and descriptor that it names, and its
//!   finding in words.
//!
//! Each list ends with a 0, so no element needs to know whether it is the last one.

use crate::html::page_text::{AFTER_ROWS, BEFORE_ROWS};
use crate::left_out::{LeftOut, Whose};
use crate::texts::{Elsewhere, MissingClasses, Summary, push_finding, push_name, push_reason};
use crate::told::Note;
use indexmap::IndexSet;
use jl_class::{Method, Operand, Site};
use jl_hierarchy::Classes;
use jl_json::instruction;
use jl_report::{Dropped, Row, Shape};
use jl_types::ClassId;
use std::alloc::{AllocError, Global};

/// What was read, and when.
#[derive(Clone, Copy)]
pub(crate) struct Read<'a> {
    /// The words that asked for the report.
    pub(crate) words: &'a [String],
    pub(crate) paths: &'a [String],
    pub(crate) beside: &'a [String],
    /// Seconds since 1970, or 0 if no clock tells them.
    pub(crate) seconds: u64,
}

/// What is told of a report in its page, beside its invocations and files.
#[derive(Clone, Copy)]
pub(crate) struct PageEnd<'a> {
    /// Why no class is there, or nothing.
    pub(crate) nothing: &'a str,
    pub(crate) summary: &'a Summary,
    pub(crate) missing: &'a MissingClasses,
    pub(crate) elsewhere: &'a Elsewhere,
    /// How many further classes there are.
    pub(crate) further: u64,
}

/// The invocations of a page.
pub(crate) struct HtmlPage {
    texts: IndexSet<String>,
    /// The classes that have invocations.
    classes: String,
    /// The class that is begun.
    class: String,
    /// The files that are left out.
    left_out: String,
    /// The invocations whose links further classes drop.
    dropped: String,
}

/// Written out, so that what drops one makes one call of it and doesn't take apart what it holds.
impl Drop for HtmlPage {
    fn drop(self) {
        let HtmlPage {
            texts: _texts,
            classes: _classes,
            class: _class,
            left_out: _left_out,
            dropped: _dropped,
        } = self;
    }
}

/// The number of a shape, as a page counts invocations.
fn part_of(shape: Shape) -> u8 {
    match shape {
        Shape::Direct => 0,
        Shape::Table => 1,
        Shape::Mega => 2,
        Shape::Throws => 3,
        Shape::NoReceivers => 4,
        Shape::NotLinkable => 4,
        Shape::Waits => 5,
        Shape::Unbound => 5,
    }
}

/// Appends the text as JSON has it, but no `<`, since that could end what a page has as a script.
fn push_json(text: &str, out: &mut String) -> Result<(), AllocError> {
    out.push('"')?;
    for c in text.chars() {
        match c {
            '"' => out.push_str("\\\"")?,
            '\\' => out.push_str("\\\\")?,
            '<' => out.push_str("\\u003c")?,
            '\0'..='\u{1f}' => {
                let code = u32::from(c);
                write!(out, "\\u00{code:02x}")?;
            }
            _ => out.push(c)?,
        }
    }
    out.push('"')
}

/// Appends a list of texts under the key.
fn push_texts(key: &str, texts: &[String], out: &mut String) -> Result<(), AllocError> {
    write!(out, "\"{key}\":[")?;
    for text in texts {
        push_json(text.as_str(), out)?;
        out.push(',')?;
    }
    out.push_str("0],\n")
}

impl HtmlPage {
    /// No classes.
    pub(crate) fn new(alloc: Global) -> HtmlPage {
        HtmlPage {
            texts: IndexSet::new(alloc),
            classes: String::new(alloc),
            class: String::new(alloc),
            left_out: String::new(alloc),
            dropped: String::new(alloc),
        }
    }

    /// The place of a text.
    fn place_of(&mut self, text: String) -> Result<usize, AllocError> {
        if let Some(place) = self.texts.get_index_of(text.as_str()) {
            return Ok(place);
        }
        let place = self.texts.len();
        self.texts.insert(text)?;
        Ok(place)
    }

    /// The place of a name.
    fn place_of_name(&mut self, alloc: Global, name: &[u8]) -> Result<usize, AllocError> {
        let mut text = String::new(alloc);
        push_name(alloc, name, &mut text)?;
        self.place_of(text)
    }

    /// Begins the class of this name.
    pub(crate) fn begin_class(&mut self, alloc: Global, name: &[u8]) -> Result<(), AllocError> {
        let name = self.place_of_name(alloc, name)?;
        self.class.clear();
        write!(self.class, "[{name},")
    }

    /// Ends the class, which has invocations.
    pub(crate) fn end_class(&mut self) -> Result<(), AllocError> {
        self.classes.push_str(self.class.as_str())?;
        self.classes.push_str("0],\n")
    }

    /// Begins a method of it, which has invocations.
    pub(crate) fn begin_method(
        &mut self,
        alloc: Global,
        method: &Method<'_>,
    ) -> Result<(), AllocError> {
        let name = self.place_of_name(alloc, method.name().as_slice())?;
        let ty = self.place_of_name(alloc, method.ty().as_slice())?;
        write!(self.class, "[{name},{ty},")
    }

    /// Ends the method.
    pub(crate) fn end_method(&mut self) -> Result<(), AllocError> {
        self.class.push_str("0],\n")
    }

    /// Adds an invocation of the method.
    pub(crate) fn add_row(
        &mut self,
        alloc: Global,
        classes: &Classes,
        site: &Site<'_>,
        row: &Row,
        note: &Note,
    ) -> Result<(), AllocError> {
        let pc = site.pc();
        let part = part_of(Shape::of(&row.finding));
        let kind = self.place_of_name(alloc, instruction(row.kind).as_bytes())?;
        write!(self.class, "[{pc},{kind},{part},")?;
        match site.operand() {
            Operand::Method(reference) => {
                self.push_named(alloc, reference.owner.as_slice())?;
                self.push_named(alloc, reference.name.as_slice())?;
                self.push_named(alloc, reference.ty.as_slice())?;
            }
            Operand::CallSite(specifier) => {
                self.push_named(alloc, b"".as_slice())?;
                self.push_named(alloc, specifier.name.as_slice())?;
                self.push_named(alloc, specifier.ty.as_slice())?;
            }
        }
        let words = self.place_of_finding(alloc, classes, site, row, note)?;
        write!(self.class, "{words}],")
    }

    /// The place of what is found of the invocation, in words.
    fn place_of_finding(
        &mut self,
        alloc: Global,
        classes: &Classes,
        site: &Site<'_>,
        row: &Row,
        note: &Note,
    ) -> Result<usize, AllocError> {
        let mut words = String::new(alloc);
        push_finding(alloc, classes, site, row, note, usize::MAX, &mut words)?;
        self.place_of(words)
    }

    /// The place of the name of a class.
    fn place_of_class(
        &mut self,
        alloc: Global,
        classes: &Classes,
        class: ClassId,
    ) -> Result<usize, AllocError> {
        match classes.class_at(class) {
            Some(row) => self.place_of_name(alloc, row.file().name().as_slice()),
            None => self.place_of(String::new(alloc)),
        }
    }

    /// Adds an invocation of the method whose link this class drops.
    pub(crate) fn add_dropped(
        &mut self,
        alloc: Global,
        classes: &Classes,
        class: ClassId,
        one: &Dropped,
        method: &Method<'_>,
        site: &Site<'_>,
    ) -> Result<(), AllocError> {
        let by = self.place_of_class(alloc, classes, class)?;
        let caller = self.place_of_class(alloc, classes, one.before.place.class)?;
        let name = self.place_of_name(alloc, method.name().as_slice())?;
        let ty = self.place_of_name(alloc, method.ty().as_slice())?;
        let kind = self.place_of_name(alloc, instruction(one.before.kind).as_bytes())?;
        let nothing = Note::nothing();
        let before = self.place_of_finding(alloc, classes, site, &one.before, &nothing)?;
        let after = self.place_of_finding(alloc, classes, site, &one.after, &nothing)?;
        let pc = site.pc();
        write!(
            self.dropped,
            "[{by},{caller},{name},{ty},{pc},{kind},{before},{after}],\n"
        )
    }

    /// Appends the place of a name.
    fn push_named(&mut self, alloc: Global, name: &[u8]) -> Result<(), AllocError> {
        let place = self.place_of_name(alloc, name)?;
        write!(self.class, "{place},")
    }

    /// Adds the files that are left out.
    pub(crate) fn add_left_out(
        &mut self,
        alloc: Global,
        left_out: &[LeftOut],
    ) -> Result<(), AllocError> {
        for one in left_out {
            if one.whose == Whose::Module {
                continue;
            }
            let mut reason = String::new(alloc);
            push_reason(&one.answer, &mut reason)?;
            self.left_out.push('[')?;
            push_json(one.path.as_str(), &mut self.left_out)?;
            self.left_out.push(',')?;
            push_json(reason.as_str(), &mut self.left_out)?;
            self.left_out.push_str("],\n")?;
        }
        Ok(())
    }

    /// The page.
    pub(crate) fn text(
        &self,
        alloc: Global,
        read: &Read<'_>,
        end: &PageEnd<'_>,
    ) -> Result<String, AllocError> {
        let mut out = String::from_str(alloc, BEFORE_ROWS)?;
        push_numbers(read.seconds, end, &mut out)?;
        push_texts("words", read.words, &mut out)?;
        push_texts("paths", read.paths, &mut out)?;
        push_texts("beside", read.beside, &mut out)?;
        push_texts("circles", &end.missing.circles(alloc)?, &mut out)?;
        push_missing(alloc, end.missing, &mut out)?;
        push_elsewhere(end.elsewhere, &mut out)?;
        push_texts("texts", self.texts.as_slice(), &mut out)?;
        out.push_str("\"dropped\":[")?;
        out.push_str(self.dropped.as_str())?;
        out.push_str("0],\n\"leftOut\":[")?;
        out.push_str(self.left_out.as_str())?;
        out.push_str("0],\n\"classes\":[")?;
        out.push_str(self.classes.as_str())?;
        out.push_str("0]}")?;
        out.push_str(AFTER_ROWS)?;
        Ok(out)
    }
}

/// Appends what is counted, when that was, and why nothing is, if it is nothing.
fn push_numbers(seconds: u64, end: &PageEnd<'_>, out: &mut String) -> Result<(), AllocError> {
    let Summary {
        later,
        other_invocations,
        other_classes,
        ..
    } = end.summary;
    let further = end.further;
    write!(
        out,
        "{{\"seconds\":{seconds},\"later\":{later},\"otherInvocations\":{other_invocations},"
    )?;
    write!(
        out,
        "\"otherClasses\":{other_classes},\"further\":{further},\"nothing\":"
    )?;
    push_json(end.nothing, out)?;
    out.push_str(",\n")
}

/// Appends how many class files aren't at their classes' places, and the first of them.
fn push_elsewhere(elsewhere: &Elsewhere, out: &mut String) -> Result<(), AllocError> {
    let count = elsewhere.count;
    write!(out, "\"elsewhere\":[{count},")?;
    push_json(elsewhere.path.as_str(), out)?;
    out.push(',')?;
    push_json(elsewhere.class.as_str(), out)?;
    out.push_str("],\n")
}

/// Appends the classes that aren't there, each with how many invocations wait for it and how many classes are left out below it.
fn push_missing(
    alloc: Global,
    missing: &MissingClasses,
    out: &mut String,
) -> Result<(), AllocError> {
    out.push_str("\"missing\":[")?;
    for one in missing.sorted(alloc)? {
        out.push('[')?;
        push_json(one.name, out)?;
        let invocations = one.invocations;
        let classes = one.classes;
        write!(out, ",{invocations},{classes}],")?;
    }
    out.push_str("0],\n")
}
