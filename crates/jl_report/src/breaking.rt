//! Which links a further class drops.

ghost use Rattle.std.specs.Prelude.{◌≡◌, ◌++◌, filter, IfOk, OnOk};
ghost use Rattle.std.specs.List.{list_any};
ghost use Rattle.jl_types.specs.Events.Definitions as definitions;
ghost use Rattle.jl_types.specs.Events.Footprints as footprints;
ghost use Rattle.jl_types.specs.Events.History.{is_link};
ghost use Rattle.jl_report.specs.declared.row.Finding.TheVariants as finding;
ghost use Rattle.jl_report.specs.Drops as drops;

use crate::defining::{define_one, first_loader, is_barred};
use crate::report::{Report, rests_on};
use crate::row::{Finding, Row};
use jl_class::{ClassFile, FINAL, has_flag};
use jl_deps::keys_of_definition;
use jl_hierarchy::Classes;
use jl_relink::link_at;
use jl_types::{ClassId, Key, Link, Unlinked, same_link};
use std::alloc::{AllocError, Global};

/// An invocation whose link a further class drops.
#[derive(Debug)]
pub struct Dropped {
    /// Its row before, which has a link.
    pub before: Row,
    /// Its row once the class is there.
    pub after: Row,
}

/// Written out, so that what drops one makes one call of it and doesn't take apart what it holds.
impl Drop for Dropped {
    fn drop(self) {
        let Dropped {
            before: _before,
            after: _after,
        } = self;
    }
}

impl Report {
    /// Loader 0 defines the class of the file after the others. Those of the rows whose links it drops go over to `dropped`, in order,
    /// each with its invocation's row then. They are found by what they rest on: no link is looked up of a row that rests on nothing
    /// that the class changes. If the class may not be defined, the file is given back, and nothing changes.
    ///
    /// # Errors
    ///
    /// Want of memory. The class may be there then, and rows may be lost.
    pub fn add_class(
        &mut self,
        alloc: Global,
        file: ClassFile,
        rows: &mut Vec<Row>,
        dropped: &mut Vec<Dropped>,
    ) -> Result<Option<ClassFile>, AllocError>
        ensures { IfOk result (λ back.
            drops.IsAdded self.old self.new file rows.old.items rows.new.items dropped.old.items dropped.new.items back) }
    {
        if is_barred(&self.classes, &file) {
            return Ok(Some(file));
        }
        let keys = keys_of_definition(alloc, &self.classes, first_loader(), &file)?;
        define_one(alloc, &mut self.classes, file)?;
        drop_some(alloc, &self.classes, keys.as_slice(), rows, dropped)?;
        Ok(None)
    }
}

/// Adds those of the rows whose links a further class may change after the others that are kept.
pub fn keep_open(classes: &Classes, rows: Vec<Row>, kept: &mut Vec<Row>) -> Result<(), AllocError>
    ensures { OnOk result (kept.new.items ≡ kept.old.items ++ filter (drops.is_open classes.now) rows.items) }
{
    let mut rows = rows;
    rows.reverse();
    while let Some(row) = rows.pop() {
        if is_open(classes, &row) {
            kept.push(row)?;
        }
    }
    Ok(())
}

/// Whether a further class may change the row's link: it is another one than Mega, and rests on something that a further class may change.
pub fn is_open(classes: &Classes, row: &Row) -> bool
    ensures { result ≡ drops.is_open classes.now row.now }
{
    has_changing_link(&row.finding) && has_growing(classes, row.rests_on.as_slice())
}

/// Whether a further class may change one of these.
fn has_growing(classes: &Classes, keys: &[Key]) -> bool
    ensures { result ≡ list_any (drops.may_grow classes.now) keys.now }
{
    keys.iter().any(|key| may_grow(classes, key))
}

/// Whether a further class may change it: one may be below the class whose receivers it is.
fn may_grow(classes: &Classes, key: &Key) -> bool
    ensures { result ≡ drops.may_grow classes.now key.now }
{
    match key {
        Key::Receivers(class) => !is_final(classes, *class) || classes.is_interface(*class),
        Key::Target(_) => false,
        Key::Valid(_) => false,
    }
}

/// Whether the class has the flag FINAL.
fn is_final(classes: &Classes, class: ClassId) -> bool
    ensures { result ≡ definitions.is_final classes.now class }
{
    match classes.class_at(class) {
        Some(row) => has_flag(row.file().flags(), FINAL),
        None => false,
    }
}

/// Whether it has a link other than Mega. A further receiver leaves Mega as it is.
fn has_changing_link(finding: &Finding) -> bool
    ensures { result ≡ drops.has_changing_link finding.now }
{
    match finding {
        Finding::Linked(Link::Mega) => false,
        Finding::Linked(Link::Fault(_) | Link::Plain(_) | Link::Direct(_) | Link::Table(_, _)) =>
            true,
        Finding::Unlinked(_) => false,
        Finding::NotLinkable(_) => false,
    }
}

/// Takes the rows away whose links are dropped, once these keys have changed.
fn drop_some(
    alloc: Global,
    classes: &Classes,
    keys: &[Key],
    rows: &mut Vec<Row>,
    dropped: &mut Vec<Dropped>,
) -> Result<(), AllocError>
    ensures left { OnOk result (rows.new.items ≡ drops.left_among classes.now keys.now rows.old.items) }
    ensures dropped { OnOk result (dropped.new.items ≡ dropped.old.items ++ drops.dropped_among classes.now keys.now rows.old.items) }
{
    let mut left = Vec::new(alloc);
    rows.reverse();
    while let Some(before) = rows.pop() {
        match changed(classes, keys, &before) {
            Some(after) => dropped.push(Dropped { before, after })?,
            None => left.push(before)?,
        }
    }
    *rows = left;
    Ok(())
}

/// The row of the row's invocation now, if the row rests on one of the keys and its link isn't that of the invocation any more.
fn changed(classes: &Classes, keys: &[Key], row: &Row) -> Option<Row>
    ensures { result ≡ drops.now_changed classes.now keys.now row.now }
{
    if !meets(row.rests_on.as_slice(), keys) {
        return None;
    }
    match &row.finding {
        Finding::Linked(link) => without(classes, row, link),
        Finding::Unlinked(_) => None,
        Finding::NotLinkable(_) => None,
    }
}

/// The row of the row's invocation now, if this isn't its link.
fn without(classes: &Classes, row: &Row, link: &Link) -> Option<Row>
    ensures { result ≡ drops.now_without classes.now row.now (finding.Linked link.now) }
{
    let found = link_at(classes, &row.place);
    if is_link(&found, link) {
        return None;
    }
    let finding = Finding::of(found);
    Some(Row {
        place: row.place,
        kind: row.kind,
        finding,
        rests_on: rests_on(classes, &row.place, &finding),
    })
}

/// Whether it is this link.
fn is_link(found: &Result<Link, Unlinked>, link: &Link) -> bool
    ensures { result ≡ is_link found.now link.now }
{
    match found {
        Ok(found) => same_link(*found, *link),
        Err(_) => false,
    }
}

/// Whether the footprint has one of the keys.
fn meets(footprint: &[Key], keys: &[Key]) -> bool
    ensures { result ≡ footprints.meets footprint.now keys.now }
{
    footprint.iter().any(|key| keys.contains(key))
}
