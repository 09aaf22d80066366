//! The classes that are defined.

ghost use Rattle.std.specs.Prelude.{◌≡◌, ◌<◌, ◌≤◌, ◌^◌, length, slice_get, IfSome, IfOk};
ghost use Rattle.std.specs.Option.{option_copied};
ghost use Rattle.jl_types.specs.Values.World.{nothing_yet};
ghost use Rattle.jl_types.specs.Values.Members as members;
ghost use Rattle.jl_types.specs.Values.Ancestry.{AreOrdered};
ghost use Rattle.jl_hierarchy.specs.Constancy.{AreInOrder};

use crate::ancestor_list::AncestorList;
use crate::loader::Loader;
use crate::marks::Redeclared;
use crate::receiving::Receivers;
use crate::row::Row;
use indexmap::IndexSet;
use jl_pages::Paged;
use jl_types::{Class, ClassId, LoaderId};
use std::alloc::{AllocError, Global};
use std::marker::Model;
use std::sync::Arc;

/// The defined classes and interfaces, in order of definition, and what each loader finds by name (JVMS SE 17 §5.3). A
/// clause sees these alone.
///
/// Of each class its ancestors and its receivers are kept, so that a question about them walks no other class.
pub struct Classes {
    pub(crate) loaders: Vec<Loader>,
    pub(crate) rows: Paged<Row>,
    /// Of each class its ancestors, rising, itself the last. They never change.
    pub(crate) above: Paged<AncestorList>,
    /// Of each class its receivers, rising.
    pub(crate) below: Vec<Receivers>,
    /// The retired loaders, in the order in which they went.
    pub(crate) retired: IndexSet<LoaderId>,
    /// Of each class the methods that it sees and a proper subclass declares again. There may be more.
    pub(crate) marks: Arc<Redeclared>,
    /// Whether each ancestor of a class that isn't an interface is one of its superclasses.
    pub(crate) are_superclass_chains: bool,
}

// Written out, since a derived drop is proved anew in each crate that lets one go.
impl Drop for Classes {
    fn drop(self) {
        let Classes {
            loaders: _loaders,
            rows: _rows,
            above: _above,
            below: _below,
            retired: _retired,
            marks: _marks,
            are_superclass_chains: _are_lines,
        } = self;
    }
}

impl Model for Classes {
    ghost use Rattle.jl_types.specs.Values.World.{Classes};
    ghost use Rattle.jl_hierarchy.specs.ForProofs.Kept.{IsKept, lists};
    ghost use Rattle.jl_hierarchy.specs.Redeclared.{IsIndexed};

    ghost Value = { Classes };

    ghost view = { λ c. record { loaders = c.loaders.items; rows = c.rows.items; retired = c.retired.keys } };

    ghost invariant = { λ c. IsKept (record { loaders = c.loaders.items; rows = c.rows.items; retired = c.retired.keys }) c.above.items (lists c.below.items)
        × IsIndexed c.rows.items c.marks.value c.are_superclass_chains };
}

impl Classes {
    /// No classes, and loader 0, which has found nothing.
    pub fn new(alloc: Global) -> Result<Self, AllocError>
        ensures { IfOk result (λ classes. classes ≡ nothing_yet.classes) }
    {
        let mut loaders = Vec::new(alloc);
        loaders.push(Loader::new(alloc)?)?;
        Ok(Classes {
            loaders,
            rows: Paged::new(alloc),
            above: Paged::new(alloc),
            below: Vec::new(alloc),
            retired: IndexSet::new(alloc),
            marks: Arc::new(alloc, Redeclared::new(alloc))?,
            are_superclass_chains: true,
        })
    }

    /// The class of this number.
    pub fn class_at(&self, class: ClassId) -> Option<&Class>
        ensures found { option_copied result ≡ slice_get self.now.rows class }
        ensures ordered { AreOrdered self.now.rows }
    {
        Some(self.row_at(class)?.class())
    }

    /// The class of this number as it is kept.
    pub(crate) fn row_at(&self, class: ClassId) -> Option<&Row>
        ensures found { option_copied result ≡ slice_get self.now.rows class }
        ensures ordered { AreOrdered self.now.rows }
    {
        self.rows.get(class.number() as usize)
    }

    /// How many classes and interfaces there are. Takes no memory.
    pub fn class_count(&self) -> usize
        ensures { result ≡ length self.now.rows }
    {
        // Opens the invariant of the classes.
        let _ = &self.loaders;
        self.rows.len()
    }

    /// How many classes and interfaces there are, which came in order. Takes no memory.
    pub fn count_in_order(&self) -> usize
        ensures order { AreInOrder self.now }
        ensures few { length self.now.rows ≤ 2 ^ 20 }
        ensures count { result ≡ length self.now.rows }
    {
        // Opens the invariant of the classes.
        let _ = &self.loaders;
        self.class_count()
    }

    /// How many loaders there are, retired ones among them. Takes no memory.
    pub fn loader_count(&self) -> usize
        ensures few { length self.now.loaders ≤ 2 ^ 20 }
        ensures count { result ≡ length self.now.loaders }
    {
        // Opens the invariant of the classes.
        let _ = &self.rows;
        self.loaders.len()
    }

    /// Whether a class of this number was defined. It may be retired.
    pub fn has_class(&self, class: ClassId) -> bool
        ensures { result ≡ members.has_class self.now class }
    {
        self.class_at(class).is_some()
    }

    /// The class that the loader has recorded under the name (JVMS SE 17 §5.3).
    pub fn lookup(&self, loader: LoaderId, name: &[u8]) -> Option<ClassId>
        ensures found { result ≡ members.lookup self.now loader name.now }
        ensures there { IfSome result (λ class. class < length self.now.rows) }
    {
        // Opens the invariant: what is recorded is a class.
        let _ = &self.rows;
        self.found(loader, name)
    }

    /// The class that the loader has recorded under the name.
    fn found(&self, loader: LoaderId, name: &[u8]) -> Option<ClassId>
        ensures { result ≡ members.lookup self.now loader name.now }
    {
        self.loaders.get(loader.number() as usize)?.get(name)
    }
}
