//! A class as it is kept, with the prints of its methods.

ghost use Rattle.std.specs.Prelude.{◌≡◌, ◌<◌, ◌≤◌, ◌^◌, false, length, position, slice_get, IfOk};
ghost use Rattle.std.specs.Option.{option_map_or};
ghost use Rattle.std.specs.List.{list_any};
ghost use Rattle.std.specs.List.Sorted.{IsNonDecreasingBy, IsPartitionPoint};
ghost use Rattle.jl_types.specs.Values.Members as members;
ghost use Rattle.jl_hierarchy.specs.declared.row.Printed.{Printed};
ghost use Rattle.jl_hierarchy.specs.Redeclared.{has_method};
ghost use Rattle.jl_hierarchy.specs.Prints.{print_of_method, printed_from, has_print, AreSorted};

use crate::name_and_type::{NameAndType, print_of};
use jl_class::{Method, Methods};
use jl_pages::Again;
use jl_types::Class;
use std::alloc::{AllocError, Global};
use std::marker::Model;
use std::sync::Arc;

/// A class as it is kept, which copies of the classes share. A clause sees the class alone.
pub(crate) struct Row {
    kept: Arc<Indexed>,
}

impl Model for Row {
    ghost use Rattle.jl_types.specs.Values.World.{Class};

    ghost Value = { Class };

    ghost view = { λ r. r.kept.value };
}

/// Written out, so that what drops a row makes one call of it and doesn't take apart what the row holds.
impl Drop for Row {
    fn drop(self) {
        let Row { kept: _kept } = self;
    }
}

impl Row {
    /// The class as it is kept.
    pub(crate) fn new(alloc: Global, class: Class) -> Result<Row, AllocError>
        ensures { IfOk result (λ row. row ≡ class) }
    {
        let kept = Indexed::new(alloc, class)?;
        Ok(Row {
            kept: Arc::new(alloc, kept)?,
        })
    }

    /// The class.
    pub(crate) fn class(&self) -> &Class
        ensures { result.now ≡ self.now }
    {
        &self.kept.class
    }

    /// A copy of the row, which shares the class. Too many copies are an error.
    pub(crate) fn copy(&self) -> Result<Row, AllocError>
        ensures { IfOk result (λ copy. copy ≡ self.now) }
    {
        Ok(Row {
            kept: Arc::try_clone(&self.kept)?,
        })
    }

    /// The place of the method of this name and descriptor.
    pub(crate) fn place_of(&self, sought: &NameAndType<'_>) -> Option<u16>
        ensures { result ≡ position (members.is_called sought.now.name sought.now.ty) self.now.file.methods }
    {
        let methods = methods_of(&self.kept.class);
        place_in(self.kept.prints.as_slice(), &methods, sought)
    }

    /// Whether a method has this print.
    pub(crate) fn has_print(&self, print: u64) -> bool
        ensures { result ≡ has_method print self.now.file.methods }
    {
        is_among(self.kept.prints.as_slice(), print)
    }
}

impl Again for Row {
    fn again(&self, _alloc: Global) -> Result<Row, AllocError> {
        self.copy()
    }
}

/// A method's print, with the method's place.
#[derive(Drop)]
struct Printed {
    print: u64,
    place: u16,
}

/// A class, with the prints of its methods in order, so that a look-up of a method that it doesn't declare seldom reads a
/// text. A clause sees the class alone.
struct Indexed {
    class: Class,
    prints: Vec<Printed>,
}

impl Model for Indexed {
    ghost use Rattle.jl_types.specs.Values.World.{Class};
    ghost use Rattle.jl_hierarchy.specs.Prints.{AreSorted};

    ghost Value = { Class };

    ghost view = { λ r. r.class };

    ghost invariant = { λ r. AreSorted r.prints.items r.class.file.methods };
}

/// Written out, so that what drops one makes one call of it and doesn't take apart what it holds.
impl Drop for Indexed {
    fn drop(self) {
        let Indexed {
            class: _class,
            prints: _prints,
        } = self;
    }
}

impl Indexed {
    /// The class with the prints of its methods.
    fn new(alloc: Global, class: Class) -> Result<Indexed, AllocError>
        ensures { IfOk result (λ indexed. indexed ≡ class) }
    {
        let prints = sorted_prints(alloc, &methods_of(&class))?;
        Ok(Indexed { class, prints })
    }
}

/// The methods that the class declares, in its file's order.
pub(crate) fn methods_of(row: &Class) -> Methods<'_>
    ensures methods { result ≡ row.now.file.methods }
    ensures few { length result < 2 ^ 16 }
{
    row.file().methods()
}

/// The prints of these methods in order, those of one print by their places.
fn sorted_prints(alloc: Global, methods: &Methods<'_>) -> Result<Vec<Printed>, AllocError>
    requires { length methods.now < 2 ^ 16 }
    ensures { IfOk result (λ prints. AreSorted prints.items methods.now) }
{
    let mut prints = prints_of(alloc, methods)?;
    prints.sort_by_key(|entry| entry.print)?;
    Ok(prints)
}

/// The prints of these methods.
fn prints_of(alloc: Global, methods: &Methods<'_>) -> Result<Vec<Printed>, AllocError>
    requires { length methods.now < 2 ^ 16 }
    ensures { IfOk result (λ prints. prints.items ≡ printed_from 0 methods.now) }
{
    let mut prints = Vec::with_capacity(alloc, methods.len())?;
    let mut place = 0;
    while let Some(method) = methods.at(place) {
        prints.push(Printed {
            print: print_of_method(&method),
            place: place as u16,
        })?;
        place += 1;
    }
    Ok(prints)
}

/// The print of the method's name and descriptor.
pub(crate) fn print_of_method(method: &Method<'_>) -> u64
    ensures { result ≡ print_of_method method.now }
{
    print_of(method.name().as_slice(), method.ty().as_slice())
}

/// The place of the method of the sought name and descriptor. `prints` has the methods' prints.
fn place_in(prints: &[Printed], methods: &Methods<'_>, sought: &NameAndType<'_>) -> Option<u16>
    requires { AreSorted prints.now methods.now }
    ensures { result ≡ position (members.is_called sought.now.name sought.now.ty) methods.now }
{
    let start = first_not_below(prints, sought.print());
    for entry in &prints[start..] {
        if entry.print != sought.print() {
            return None;
        }
        if is_at(methods, entry.place as usize, sought) {
            return Some(entry.place);
        }
    }
    None
}

/// Whether the print is one of these, which are in order.
fn is_among(prints: &[Printed], print: u64) -> bool
    requires { IsNonDecreasingBy (λ (e : Printed). e.print) prints.now }
    ensures { result ≡ list_any (has_print print) prints.now }
{
    match prints.get(first_not_below(prints, print)) {
        Some(entry) => entry.print == print,
        None => false,
    }
}

/// The place at which the prints that aren't below this one begin.
fn first_not_below(prints: &[Printed], print: u64) -> usize
    requires { IsNonDecreasingBy (λ (e : Printed). e.print) prints.now }
    ensures within { result ≤ length prints.now }
    ensures split { IsPartitionPoint (λ (e : Printed). e.print < print) (λ (e : Printed). print ≤ e.print) prints.now result }
{
    prints.partition_point(|entry| entry.print < print)
}

/// Whether the method at the place has this name and descriptor.
fn is_at(methods: &Methods<'_>, place: usize, sought: &NameAndType<'_>) -> bool
    ensures { result ≡ option_map_or (members.is_called sought.now.name sought.now.ty) (slice_get methods.now place) false }
{
    match methods.at(place) {
        Some(method) => {
            method.name().as_slice() == sought.name() && method.ty().as_slice() == sought.ty()
        }
        None => false,
    }
}
