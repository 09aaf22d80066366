//! What a report writes.

use crate::chosen::Chosen;
use crate::fault::ReportFault;
use crate::html::{HtmlPage, PageEnd, Read};
use crate::left_out::LeftOut;
use crate::report_words::{Form, ReportWords};
use crate::texts::{
    Elsewhere, Former, MissingClasses, Summary, push_all_left_out, push_dropped,
    push_left_out_line, push_line, push_method_line, push_nothing_line, push_site_line,
    write_class_line, write_line, write_totals,
};
use crate::told::{Marks, Note, notes_of};
use jl_class::{ClassFile, Method, Site};
use jl_hierarchy::Classes;
use jl_report::{Dropped, Report, Row, keep_open};
use jl_types::ClassId;
use json::Writer;
use std::alloc::Global;
use std::io::Write;
use std::mem;

/// So many bytes are written at a time, or a few more.
const MOST_BYTES: usize = 65_536;

/// What is written next.
pub(crate) struct Page {
    form: Form,
    text: String,
    bytes: Vec<u8>,
    pub(crate) summary: Summary,
    pub(crate) missing: MissingClasses,
    pub(crate) elsewhere: Elsewhere,
    /// Why no class is there, or nothing.
    nothing: String,
    html: Option<HtmlPage>,
    /// Whether whoever read the report closed the pipe, and a page is still to be written.
    is_closed: bool,
    /// Whether further classes come.
    keeps_rows: bool,
    /// The invocations whose links a further class may drop.
    kept: Vec<Row>,
    /// How many further classes there are.
    further: u64,
    /// How many links they drop.
    dropped: u64,
}

/// Written out, so that what drops one makes one call of it and doesn't take apart what it holds.
impl Drop for Page {
    fn drop(self) {
        let Page {
            form: _form,
            text: _text,
            bytes: _bytes,
            summary: _summary,
            missing: _missing,
            elsewhere: _elsewhere,
            nothing: _nothing,
            html: _html,
            is_closed: _is_closed,
            keeps_rows: _keeps_rows,
            kept: _kept,
            further: _further,
            dropped: _dropped,
        } = self;
    }
}

impl Page {
    /// Nothing of what is asked for.
    pub(crate) fn new(alloc: Global, asked: &ReportWords) -> Self {
        Page {
            form: asked.form,
            text: String::new(alloc),
            bytes: Vec::new(alloc),
            summary: Summary::new(),
            missing: MissingClasses::new(alloc),
            elsewhere: Elsewhere::new(alloc),
            nothing: String::new(alloc),
            is_closed: false,
            html: asked.html.is_some().then(|| HtmlPage::new(alloc)),
            keeps_rows: !asked.breaks.is_empty(),
            kept: Vec::new(alloc),
            further: 0,
            dropped: 0,
        }
    }
}

impl Page {
    /// Defines the class of a further file, if it may be defined, and adds the invocations whose links it drops.
    pub(crate) fn add_further(
        &mut self,
        alloc: Global,
        report: &mut Report,
        chosen: &Chosen,
        file: ClassFile,
    ) -> Result<(), ReportFault> {
        let class = ClassId::new(report.classes().count_in_order() as u32);
        let mut dropped = Vec::new(alloc);
        if let Some(_) = report.add_class(alloc, file, &mut self.kept, &mut dropped)? {
            return Ok(());
        }
        self.further = self.further.saturating_add(1);
        for one in &dropped {
            if chosen.takes_row(report.classes(), &one.before) {
                self.add_dropped(alloc, report.classes(), class, one)?;
            }
        }
        Ok(())
    }

    /// Adds an invocation whose link this class drops.
    fn add_dropped(
        &mut self,
        alloc: Global,
        classes: &Classes,
        class: ClassId,
        one: &Dropped,
    ) -> Result<(), ReportFault> {
        self.dropped = self.dropped.saturating_add(1);
        let place = one.before.place;
        let Some(caller) = classes.class_at(place.class) else {
            return Ok(());
        };
        let methods = caller.file().methods();
        let Some(method) = methods.at(place.method as usize) else {
            return Ok(());
        };
        let Some(site) = method.sites().at_pc(place.pc) else {
            return Ok(());
        };
        if let Some(html) = &mut self.html {
            html.add_dropped(alloc, classes, class, one, &method, &site)?;
        }
        match self.form {
            Form::Totals => Ok(()),
            Form::Sites => {
                push_dropped(alloc, classes, class, one, &method, &site, &mut self.text)?;
                Ok(())
            }
            Form::Json => {
                let former = Former {
                    row: &one.before,
                    class,
                };
                let note = Note::nothing();
                self.add_line(
                    alloc,
                    classes,
                    &one.after,
                    &note,
                    &method,
                    &site,
                    Some(&former),
                )
            }
        }
    }

    /// Adds the invocation as a line of JSON.
    fn add_line(
        &mut self,
        alloc: Global,
        classes: &Classes,
        row: &Row,
        note: &Note,
        method: &Method<'_>,
        site: &Site<'_>,
        former: Option<&Former<'_>>,
    ) -> Result<(), ReportFault> {
        let mut out = Writer::new(mem::replace(&mut self.bytes, Vec::new(alloc)));
        write_line(alloc, classes, row, note, method, site, former, &mut out)?;
        self.bytes = out.into_inner();
        self.bytes.push(b'\n')?;
        Ok(())
    }

    /// Adds how many further classes there are, and how many links they drop.
    pub(crate) fn add_breaks(&mut self) -> Result<(), ReportFault> {
        if self.form == Form::Json {
            return Ok(());
        }
        let head = "further classes";
        let count = self.further;
        write!(self.text, "{head:<28}{count:>12}\n")?;
        let head = "links that they drop";
        let count = self.dropped;
        write!(self.text, "{head:<28}{count:>12}\n")?;
        Ok(())
    }

    /// Adds the class, if classes are told, and those of its invocations that are reported.
    pub(crate) fn add_class(
        &mut self,
        alloc: Global,
        report: &Report,
        marks: &Marks,
        asked: &ReportWords,
        class: ClassId,
    ) -> Result<(), ReportFault> {
        let rows = report.rows_in(alloc, class)?;
        let notes = notes_of(alloc, report, marks, asked, &rows)?;
        self.summary.classes = self.summary.classes.saturating_add(1);
        let Some(kept) = report.classes().class_at(class) else {
            return Ok(());
        };
        if asked.classes {
            self.add_class_line(alloc, kept.file())?;
        }
        self.add_methods(alloc, report, &asked.chosen, kept.file(), &rows, &notes)?;
        if self.keeps_rows {
            keep_open(report.classes(), rows, &mut self.kept)?;
        }
        Ok(())
    }

    /// Adds the class as a line of JSON.
    fn add_class_line(&mut self, alloc: Global, file: &ClassFile) -> Result<(), ReportFault> {
        let mut out = Writer::new(mem::replace(&mut self.bytes, Vec::new(alloc)));
        write_class_line(alloc, file, &mut out)?;
        self.bytes = out.into_inner();
        self.bytes.push(b'\n')?;
        Ok(())
    }

    /// Adds the invocations of each method of the class that are reported, of all of which these are the rows.
    fn add_methods(
        &mut self,
        alloc: Global,
        report: &Report,
        chosen: &Chosen,
        file: &ClassFile,
        rows: &[Row],
        notes: &[Note],
    ) -> Result<(), ReportFault> {
        let methods = file.methods();
        let mut rest = (rows, notes);
        let mut has_methods = false;
        for index in 0..methods.len() {
            if let Some(method) = methods.at(index) {
                let count = method.sites().len();
                let (rows, notes) = rest;
                if let (Some(rows), Some(notes)) = (
                    rows.split_at_checked(count),
                    notes.split_at_checked(count),
                ) {
                    rest = (rows.1, notes.1);
                    let own = (rows.0, notes.0);
                    if self.add_method(alloc, report, chosen, file, &method, own, has_methods)? {
                        has_methods = true;
                    }
                }
            }
        }
        match &mut self.html {
            Some(html) if has_methods => Ok(html.end_class()?),
            _ => Ok(()),
        }
    }

    /// Adds those of the method, of all of which these are the rows, and tells whether there are any.
    fn add_method(
        &mut self,
        alloc: Global,
        report: &Report,
        chosen: &Chosen,
        file: &ClassFile,
        method: &Method<'_>,
        own: (&[Row], &[Note]),
        is_class_begun: bool,
    ) -> Result<bool, ReportFault> {
        let sites = method.sites();
        let (rows, notes) = own;
        let mut is_begun = false;
        for (place, (row, note)) in rows.iter().zip(notes).enumerate() {
            if let Some(site) = sites.at(place) {
                if chosen.takes_row(report.classes(), row) {
                    if !is_begun {
                        self.begin_method(alloc, file, method, is_class_begun)?;
                        is_begun = true;
                    }
                    self.add_row(alloc, report, method, &site, row, note)?;
                } else {
                    self.summary.other_invocations = self
                        .summary
                        .other_invocations
                        .saturating_add(1);
                }
            }
        }
        match &mut self.html {
            Some(html) if is_begun => html.end_method()?,
            _ => {}
        }
        Ok(is_begun)
    }

    /// Adds the method, of which an invocation is reported, and its class, unless another one of it is there.
    fn begin_method(
        &mut self,
        alloc: Global,
        file: &ClassFile,
        method: &Method<'_>,
        is_class_begun: bool,
    ) -> Result<(), ReportFault> {
        self.summary.methods = self.summary.methods.saturating_add(1);
        if self.form == Form::Sites {
            push_method_line(alloc, file, method, &mut self.text)?;
        }
        if let Some(html) = &mut self.html {
            if !is_class_begun {
                html.begin_class(alloc, file.name().as_slice())?;
            }
            html.begin_method(alloc, method)?;
        }
        Ok(())
    }

    /// Adds the invocation of the row.
    fn add_row(
        &mut self,
        alloc: Global,
        report: &Report,
        method: &Method<'_>,
        site: &Site<'_>,
        row: &Row,
        note: &Note,
    ) -> Result<(), ReportFault> {
        self.summary.add(row, note);
        self.missing.add(alloc, site, row)?;
        let classes = report.classes();
        if let Some(html) = &mut self.html {
            html.add_row(alloc, classes, site, row, note)?;
        }
        match self.form {
            Form::Totals => {}
            Form::Sites => push_site_line(alloc, classes, site, row, note, &mut self.text)?,
            Form::Json => self.add_line(alloc, classes, row, note, method, site, None)?,
        }
        Ok(())
    }

    /// Adds why no class is there, as the first line.
    pub(crate) fn add_nothing(
        &mut self,
        alloc: Global,
        nothing: String,
    ) -> Result<(), ReportFault> {
        match self.form {
            Form::Json => push_nothing_line(alloc, nothing.as_str(), &mut self.bytes)?,
            _ => push_line(nothing.as_str(), &mut self.text)?,
        }
        self.nothing = nothing;
        Ok(())
    }

    /// Whether there was a class to be reported.
    pub(crate) fn has_classes(&self) -> bool {
        self.nothing.is_empty()
    }

    /// The page of HTML, if there is one. Want of memory is an error.
    pub(crate) fn html_text(
        &self,
        alloc: Global,
        read: &Read<'_>,
    ) -> Result<Option<String>, ReportFault> {
        let end = PageEnd {
            nothing: self.nothing.as_str(),
            summary: &self.summary,
            missing: &self.missing,
            elsewhere: &self.elsewhere,
            further: self.further,
        };
        match &self.html {
            Some(html) => Ok(Some(html.text(alloc, read, &end)?)),
            None => Ok(None),
        }
    }

    /// Adds the files that are left out, and the totals.
    pub(crate) fn add_end(
        &mut self,
        alloc: Global,
        left_out: Vec<LeftOut>,
    ) -> Result<(), ReportFault> {
        if let Some(html) = &mut self.html {
            html.add_left_out(alloc, &left_out)?;
        }
        if self.form == Form::Json {
            return self.add_end_lines(alloc, left_out);
        }
        self.summary.push(&mut self.text)?;
        self.missing.push(alloc, &mut self.text)?;
        self.elsewhere.push(alloc, &mut self.text)?;
        let is_each_told = self.form == Form::Sites;
        push_all_left_out(alloc, &left_out, is_each_told, &mut self.text)?;
        Ok(())
    }

    /// Adds the files that are left out, and the totals, as lines of JSON.
    fn add_end_lines(&mut self, alloc: Global, left_out: Vec<LeftOut>) -> Result<(), ReportFault> {
        let count = left_out.len() as u64;
        for one in left_out {
            push_left_out_line(alloc, one, &mut self.bytes)?;
        }
        let mut out = Writer::new(mem::replace(&mut self.bytes, Vec::new(alloc)));
        write_totals(&self.summary, &self.elsewhere, count, &mut out)?;
        self.bytes = out.into_inner();
        self.bytes.push(b'\n')?;
        Ok(())
    }

    /// Writes what there is, if it is long.
    pub(crate) fn write_if_full<W: Write>(&mut self, out: &mut W) -> Result<(), ReportFault> {
        if self.text.len() > MOST_BYTES || self.bytes.len() > MOST_BYTES {
            self.write(out)?;
        }
        Ok(())
    }

    /// Writes what there is. If the pipe is closed, and a page is asked for, nothing more is written but the page.
    pub(crate) fn write<W: Write>(&mut self, out: &mut W) -> Result<(), ReportFault> {
        if !self.is_closed {
            match write_both(self.text.as_bytes(), self.bytes.as_slice(), out) {
                Err(ReportFault::Closed) if self.html.is_some() => self.is_closed = true,
                written => written?,
            }
        }
        self.text.clear();
        self.bytes.clear();
        Ok(())
    }
}

/// Writes the one, and then the other.
fn write_both<W: Write>(first: &[u8], second: &[u8], out: &mut W) -> Result<(), ReportFault> {
    out.write_all(first)?;
    out.write_all(second)?;
    Ok(())
}
