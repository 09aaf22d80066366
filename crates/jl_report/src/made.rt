//! Which receivers may be objects of a class that no file has.

ghost use Rattle.std.specs.Prelude.{◌≡◌, ◌==◌, ◌<◌, ◌^◌, length, false, true, slice_set};
ghost use Rattle.std.specs.Prelude.{option_map, option_to_list, filter_map, IfOk, IfSome};
ghost use Rattle.std.specs.List.{flat_map, list_any};
ghost use Rattle.jl_report.specs.Made as made;
ghost use Rattle.jl_report.specs.ForProofs.Results as results;
ghost use Rattle.jl_report.specs.ForProofs.Marking.{AreMarked};

use crate::row::Row;
use jl_class::{Kind, Methods, Operand, Site, Sites};
use jl_hierarchy::Classes;
use jl_names::LentName;
use jl_types::{ClassId, Key, LoaderId};
use std::alloc::{AllocError, Global};
use std::marker::Model;

/// A mark for each class: whether an object that an invokedynamic gives, as a lambda, may be of it. No file has such an object's own class.
/// A clause sees the marks.
#[derive(Debug)]
pub struct Made {
    marks: Vec<bool>,
}

/// Written out, so that what drops one makes one call of it and doesn't take apart what it holds.
impl Drop for Made {
    fn drop(self) {
        let Made { marks: _marks } = self;
    }
}

impl Model for Made {
    ghost use Rattle.std.specs.Prelude.{Bool, List};

    ghost Value = { List Bool };

    ghost view = { λ made. made.marks.items };
}

impl Made {
    /// The marks of these classes.
    ///
    /// # Errors
    ///
    /// Want of memory.
    pub fn of(alloc: Global, classes: &Classes) -> Result<Made, AllocError>
        ensures { IfOk result (λ marks. marks ≡ made.marks_of classes.now) }
    {
        let mut marks = vec![in alloc; false; classes.class_count()]?;
        mark_classes(classes, marks.as_mut_slice());
        Ok(Made { marks })
    }

    /// Whether the row names an interface, and its link looks at receivers among which such objects may be.
    pub fn meets(&self, row: &Row) -> bool
        ensures { result ≡ made.meets_marks self.now row.now }
    {
        names_interface(row.kind) && has_marked(self.marks.as_slice(), row.rests_on.as_slice())
    }
}

/// Whether it names an interface: of the instructions that look at a receiver invokeinterface alone.
fn names_interface(kind: Kind) -> bool
    ensures { result ≡ made.names_interface kind }
{
    match kind {
        Kind::Interface => true,
        Kind::Virtual => false,
        Kind::Special => false,
        Kind::Static => false,
        Kind::Dynamic => false,
    }
}

/// Whether one of these is the receivers of a class that is marked.
fn has_marked(marks: &[bool], keys: &[Key]) -> bool
    ensures { result ≡ list_any (made.marked_receivers marks.now) keys.now }
{
    keys.iter().any(|key| are_marked(marks, key))
}

/// Whether it is the receivers of a class that is marked.
fn are_marked(marks: &[bool], key: &Key) -> bool
    ensures { result ≡ made.marked_receivers marks.now key.now }
{
    match key {
        Key::Receivers(class) => match marks.get(class.number() as usize) {
            Some(mark) => *mark,
            None => false,
        },
        Key::Target(_) => false,
        Key::Valid(_) => false,
    }
}

/// Marks what objects may be that the invokedynamics of all classes give.
fn mark_classes(classes: &Classes, marks: &mut [bool])
    ensures { AreMarked (made.is_above classes.now) (made.made classes.now) marks.old marks.new }
{
    // The classes can be counted.
    let _count = classes.count_in_order();
    let mut number = 0;
    while let Some(row) = classes.class_at(ClassId::new(number)) {
        mark_methods(classes, &row.file().methods(), marks);
        number += 1;
    }
}

/// Marks what objects may be that the invokedynamics of these methods give.
fn mark_methods(classes: &Classes, methods: &Methods<'_>, marks: &mut [bool])
    requires { length methods.now < 2 ^ 16 }
    ensures { AreMarked (made.is_above classes.now) (flat_map (made.made_in_method classes.now) methods.now) marks.old marks.new }
{
    let mut place = 0;
    while let Some(method) = methods.at(place) {
        mark_sites(classes, &method.sites(), marks);
        place += 1;
    }
}

/// Marks what objects may be that the invokedynamics among these instructions give.
fn mark_sites(classes: &Classes, sites: &Sites<'_>, marks: &mut [bool])
    ensures { AreMarked (made.is_above classes.now) (filter_map (made.made_by classes.now) sites.now) marks.old marks.new }
{
    // They can be counted, and so can their places.
    let _count = sites.len();
    let mut place = 0;
    while let Some(site) = sites.at(place) {
        mark_site(classes, &site, marks);
        place += 1;
    }
}

/// Marks what an object may be that the instruction makes: if its result is an interface, that and what is above it.
fn mark_site(classes: &Classes, site: &Site<'_>, marks: &mut [bool])
    ensures { AreMarked (made.is_above classes.now) (option_to_list (made.made_by classes.now site.now)) marks.old marks.new }
{
    let Some(class) = made_by(classes, site) else {
        return;
    };
    if !classes.is_interface(class) {
        return;
    }
    mark_all(classes.ancestors(class), marks);
}

/// The class of which the instruction makes an object.
fn made_by(classes: &Classes, site: &Site<'_>) -> Option<ClassId>
    ensures class { result ≡ made.made_by classes.now site.now }
    ensures there { IfSome result (λ class. class < length classes.now.rows) }
{
    classes.lookup(LoaderId::new(0), named_result(site.operand())?)
}

/// The class that the result of an invokedynamic is.
fn named_result<'a>(operand: &Operand<LentName<'a>>) -> Option<&'a [u8]>
    ensures { option_map (λ name. name.now) result ≡ made.named_result operand.now }
{
    match operand {
        Operand::Method(_) => None,
        Operand::CallSite(specifier) => result_class(specifier.ty.as_slice()),
    }
}

/// The class that the result of the method descriptor is.
fn result_class(text: &[u8]) -> Option<&[u8]>
    ensures { option_map (λ name. name.now) result ≡ results.result_class text.now }
{
    match after_parameters(text) {
        [b'L', name @ ..] => Some(&name[..name.len().saturating_sub(1)]),
        _ => None,
    }
}

/// What stands after the parameters of the method descriptor.
fn after_parameters(text: &[u8]) -> &[u8]
    ensures { result.now ≡ results.after_parameters false text.now }
{
    let mut in_name = false;
    for (place, byte) in text.iter().enumerate() {
        if closes(in_name, *byte) {
            return &text[place + 1..];
        }
        in_name = still_in_name(in_name, *byte);
    }
    &[]
}

/// Whether the byte closes the parameters.
fn closes(in_name: bool, byte: u8) -> bool
    ensures { result ≡ results.closes in_name byte }
{
    !in_name && byte == b')'
}

/// Whether the next byte stands in the name of a class.
fn still_in_name(in_name: bool, byte: u8) -> bool
    ensures { result ≡ results.still_in_name in_name byte }
{
    if in_name { byte != b';' } else { byte == b'L' }
}

/// Marks these classes.
fn mark_all(listed: &[ClassId], marks: &mut [bool])
    ensures { AreMarked (λ c d. d == c) listed.now marks.old marks.new }
{
    for class in listed {
        mark(*class, marks);
    }
}

/// Marks the class, if there is a place for it.
fn mark(class: ClassId, marks: &mut [bool])
    ensures { marks.new ≡ slice_set marks.old class true }
{
    let place = class.number() as usize;
    if place < marks.len() {
        marks[place] = true;
    }
}
