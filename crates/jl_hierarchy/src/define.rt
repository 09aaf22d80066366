//! The definition of a class (JVMS SE 17 §5.3.5).

ghost use Rattle.std.specs.Prelude.{◌≡◌, ◌<◌, ◌≤◌, ◌^◌, ◌++◌, ◌∷◌, [], Some, None, Err, length, slice_get, option_and_then, true, All, IfOk, OnOk, OnErr};
ghost use Rattle.std.specs.Vec.{vec_len, vec_capacity};
ghost use Rattle.jl_types.specs.declared.refusal.DefineFault.{DefineFault};
ghost use Rattle.jl_types.specs.declared.refusal.OrMemory.TheVariants as or_memory;
ghost use Rattle.jl_types.specs.Values.Members.{recorded};
ghost use Rattle.jl_types.specs.Events.Definitions as definitions;
ghost use Rattle.jl_types.specs.Events.Definitions.{with_record};
ghost use Rattle.jl_class.specs.Flags.{extends_object};
ghost use Rattle.jl_hierarchy.specs.Constancy.{AreInOrder, Stays, AddsReceiver, MayDefine};
ghost use Rattle.jl_hierarchy.specs.ForProofs.Kept.{HasRoom, Rises, lists};
ghost use Rattle.jl_hierarchy.specs.ForProofs.Growing.{AreEven, IsNewClass, gaining, IsReceived, AreKept, AreAdded};

use crate::ancestor_list::AncestorList;
use crate::classes::Classes;
use crate::loader::{Loader, record_in};
use crate::marks::{Mark, Redeclared, add_marks};
use crate::receiving::{
    Receivers, append_to_each, is_concrete, own_receivers, receiving, reserve_each,
};
use crate::row::Row;
use jl_class::ClassFile;
use jl_pages::Paged;
use jl_types::{ClassId, DefineFault, LoaderId, OrMemory};
use std::alloc::{AllocError, Global};
use std::sync::Arc;

/// What the definition of a class adds.
#[derive(Drop)]
pub(crate) struct NewClass {
    row: Row,
    /// The number that the class gets.
    class: ClassId,
    is_concrete: bool,
    /// The ancestors but the class itself, by rising number.
    ancestors: Vec<ClassId>,
    /// The ancestors with the class itself.
    with_itself: AncestorList,
    /// The receivers of the class: itself or none.
    own: Receivers,
    /// What is marked of the superclasses. None, if every method is to be marked at each ancestor.
    marks: Option<Vec<Mark>>,
    /// Whether each ancestor that isn't an interface is one of the superclasses.
    is_line: bool,
}

impl Classes {
    /// The loader defines the class of the file (JVMS SE 17 §5.3.5), if there are fewer than `most_classes` so far. The class gets
    /// the next number. The other classes stay as they are, and so does what is known of them. The new one comes last among the
    /// receivers of its ancestors.
    ///
    /// # Errors
    ///
    /// The first fault of the definition; else want of memory. Nothing has changed then.
    pub fn define(
        &mut self,
        alloc: Global,
        loader: LoaderId,
        file: ClassFile,
        most_classes: u32,
    ) -> Result<ClassId, OrMemory<DefineFault>>
        requires { most_classes ≤ 2 ^ 20 }
        ensures number { IfOk result (λ class. class ≡ length self.old.rows) }
        ensures accepted { OnOk result (definitions.define_fault most_classes self.old loader file ≡ None) }
        ensures ok { OnOk result (self.new ≡ definitions.defined self.old loader file) }
        ensures in_order { OnOk result (AreInOrder self.old) }
        ensures stays { OnOk result (Stays self.old self.new) }
        ensures receivers { OnOk result (AddsReceiver self.old self.new) }
        ensures fault { (f : DefineFault) → result ≡ Err (or_memory.Fault f)
            → definitions.define_fault most_classes self.old loader file ≡ Some f }
        ensures memory { result ≡ Err or_memory.Memory → definitions.define_fault most_classes self.old loader file ≡ None }
        ensures err { OnErr result (self.new ≡ self.old) }
    {
        match self.admitted(loader, file, most_classes) {
            Ok(file) => Ok(self.add(alloc, loader, file)?),
            Err(fault) => Err(OrMemory::Fault(fault)),
        }
    }

    /// The loader defines the class of a file that it may define: the second half of [`define`](Classes::define). Every
    /// growth comes before the first change, or is that change.
    ///
    /// # Errors
    ///
    /// Want of memory. Nothing has changed then.
    pub fn add(
        &mut self,
        alloc: Global,
        loader: LoaderId,
        file: ClassFile,
    ) -> Result<ClassId, AllocError>
        requires accepted { MayDefine self.old loader file }
        requires room { length self.old.rows < 2 ^ 20 }
        ensures number { IfOk result (λ class. class ≡ length self.old.rows) }
        ensures ok { OnOk result (self.new ≡ definitions.defined self.old loader file) }
        ensures in_order { OnOk result (AreInOrder self.old) }
        ensures stays { OnOk result (Stays self.old self.new) }
        ensures receivers { OnOk result (AddsReceiver self.old self.new) }
        ensures err { OnErr result (self.new ≡ self.old) }
    {
        // The count tells that the classes came in order.
        let _count = self.count_in_order();
        let row = self.row_made(alloc, loader, file)?;
        let class = self.add_row(alloc, row)?;
        Ok(class)
    }

    /// Adds the class of the row, which its loader may define. Every growth comes before the first change, or is that change.
    ///
    /// # Errors
    ///
    /// Want of memory. Nothing has changed then.
    pub(crate) fn add_row(&mut self, alloc: Global, row: Row) -> Result<ClassId, AllocError>
        requires made { row ≡ definitions.class_made self.old row.loader row.file }
        requires accepted { MayDefine self.old row.loader row.file }
        requires room { length self.old.rows < 2 ^ 20 }
        requires interface { extends_object row.file.flags row.file.superclass ≡ true }
        ensures number { IfOk result (λ class. class ≡ length self.old.rows) }
        ensures ok { OnOk result (self.new ≡ definitions.defined self.old row.loader row.file) }
        ensures err { OnErr result (self.new ≡ self.old) }
    {
        let new_class = self.new_class(alloc, row)?;
        let class = new_class.class;
        let is_line = new_class.is_line;
        add_all(
            alloc,
            &mut self.loaders,
            &mut self.rows,
            &mut self.above,
            &mut self.below,
            &mut self.marks,
            new_class,
        )?;
        self.are_superclass_chains &= is_line;
        Ok(class)
    }

    /// What the class of the row adds, which its loader makes of its file.
    fn new_class(&self, alloc: Global, row: Row) -> Result<NewClass, AllocError>
        requires { row ≡ definitions.class_made self.now row.loader row.file }
        ensures { IfOk result (IsNewClass self.now row) }
    {
        let class = ClassId::new(self.rows.len() as u32);
        let is_concrete = is_concrete(row.class().file());
        let ancestors = self.proper_ancestors(alloc, row.class())?;
        let with_itself = AncestorList::of(alloc, &ancestors, class)?;
        let own = own_receivers(alloc, is_concrete, class)?;
        let marks = self.marks_of(alloc, row.class())?;
        let is_line = self.is_line(row.class());
        Ok(NewClass {
            row,
            class,
            is_concrete,
            ancestors,
            with_itself,
            own,
            marks,
            is_line,
        })
    }
}

/// Adds the class after the others, and its loader records it. Every growth comes before the first change, or is that change.
///
/// # Errors
///
/// Want of memory. Nothing has changed then, except that more may be marked.
fn add_all(
    alloc: Global,
    loaders: &mut Vec<Loader>,
    rows: &mut Paged<Row>,
    above: &mut Paged<AncestorList>,
    below: &mut Vec<Receivers>,
    marks: &mut Arc<Redeclared>,
    new_class: NewClass,
) -> Result<(), AllocError>
    requires even { AreEven rows.old.items above.old.items (lists below.old.items) }
    requires there { All (λ c. c < length rows.old.items) (gaining new_class) }
    requires rising { Rises (gaining new_class) }
    requires loader { new_class.row.loader < length loaders.old.items }
    requires fresh { option_and_then (recorded new_class.row.file.name) (slice_get loaders.old.items new_class.row.loader) ≡ None }
    ensures loaders { OnOk result (loaders.new.items
        ≡ with_record loaders.old.items new_class.row.loader new_class.row.file.name new_class.class) }
    ensures rows { OnOk result (rows.new.items ≡ rows.old.items ++ new_class.row ∷ []) }
    ensures above { OnOk result (above.new.items ≡ above.old.items ++ new_class.with_itself ∷ []) }
    ensures below { OnOk result (IsReceived new_class (lists below.old.items) (lists below.new.items)) }
    ensures marks { OnOk result (AreAdded new_class marks.new.value) }
    ensures kept { AreKept marks.old.value marks.new.value }
    ensures err { OnErr result ((loaders.new.items ≡ loaders.old.items) × (rows.new.items ≡ rows.old.items)
        × (above.new.items ≡ above.old.items) × (lists below.new.items ≡ lists below.old.items)) }
{
    make_ready(alloc, loaders, rows, above, below, marks, &new_class)?;
    push_all(rows, above, below, new_class);
    Ok(())
}

/// Does all that can fail when the class is added: makes room for it, marks what it marks, and at last lets its loader record it.
///
/// # Errors
///
/// Want of memory. Nothing has changed then, except that there may be more room, and more may be marked.
fn make_ready(
    alloc: Global,
    loaders: &mut Vec<Loader>,
    rows: &mut Paged<Row>,
    above: &mut Paged<AncestorList>,
    below: &mut Vec<Receivers>,
    marks: &mut Arc<Redeclared>,
    new_class: &NewClass,
) -> Result<(), AllocError>
    requires there { All (λ c. c < length below.old.items) (gaining new_class.now) }
    requires loader { new_class.now.row.loader < length loaders.old.items }
    requires fresh { option_and_then (recorded new_class.now.row.file.name) (slice_get loaders.old.items new_class.now.row.loader) ≡ None }
    ensures loaders { OnOk result (loaders.new.items
        ≡ with_record loaders.old.items new_class.now.row.loader new_class.now.row.file.name new_class.now.class) }
    ensures rows { rows.new.items ≡ rows.old.items }
    ensures above { above.new.items ≡ above.old.items }
    ensures below { lists below.new.items ≡ lists below.old.items }
    ensures row_room { OnOk result (rows.new.room ≡ true) }
    ensures above_room { OnOk result (above.new.room ≡ true) }
    ensures below_room { OnOk result (vec_len below.new < vec_capacity below.new) }
    ensures room { OnOk result (All (HasRoom below.new.items) (gaining new_class.now)) }
    ensures marks { OnOk result (AreAdded new_class.now marks.new.value) }
    ensures kept { AreKept marks.old.value marks.new.value }
    ensures err { OnErr result (loaders.new.items ≡ loaders.old.items) }
{
    let row = new_class.row.class();
    let name = row.file().name().as_slice().to_vec(alloc)?;
    let loader = row.loader();
    reserve_all(
        alloc,
        rows,
        above,
        below,
        receiving(new_class.is_concrete, &new_class.ancestors),
    )?;
    add_marks(marks, &new_class.marks, &new_class.ancestors)?;
    record_in(loaders, loader, name, new_class.class)
}

/// Makes room for one class more: for its row, its ancestors and its receivers, and in the list of each class that gets it as a receiver.
fn reserve_all(
    alloc: Global,
    rows: &mut Paged<Row>,
    above: &mut Paged<AncestorList>,
    below: &mut Vec<Receivers>,
    receiving: &[ClassId],
) -> Result<(), AllocError>
    requires { All (λ c. c < length below.old.items) receiving.now }
    ensures rows { rows.new.items ≡ rows.old.items }
    ensures above { above.new.items ≡ above.old.items }
    ensures below { lists below.new.items ≡ lists below.old.items }
    ensures row_room { OnOk result (rows.new.room ≡ true) }
    ensures above_room { OnOk result (above.new.room ≡ true) }
    ensures below_room { OnOk result (vec_len below.new < vec_capacity below.new) }
    ensures room { OnOk result (All (HasRoom below.new.items) receiving.now) }
{
    rows.reserve(alloc)?;
    above.reserve(alloc)?;
    below.reserve(1)?;
    reserve_each(below.as_mut_slice(), receiving)?;
    Ok(())
}

/// Adds a class after the others. There is room for it everywhere.
fn push_all(
    rows: &mut Paged<Row>,
    above: &mut Paged<AncestorList>,
    below: &mut Vec<Receivers>,
    new_class: NewClass,
)
    requires row_room { rows.old.room ≡ true }
    requires above_room { above.old.room ≡ true }
    requires few { (length rows.old.items < 2 ^ 32) × (length above.old.items < 2 ^ 32) }
    requires below_room { vec_len below.old < vec_capacity below.old }
    requires there { All (λ c. c < length below.old.items) (gaining new_class) }
    requires rising { Rises (gaining new_class) }
    requires room { All (HasRoom below.old.items) (gaining new_class) }
    ensures rows { rows.new.items ≡ rows.old.items ++ new_class.row ∷ [] }
    ensures above { above.new.items ≡ above.old.items ++ new_class.with_itself ∷ [] }
    ensures below { IsReceived new_class (lists below.old.items) (lists below.new.items) }
{
    let NewClass {
        row,
        class,
        is_concrete,
        ancestors,
        with_itself,
        own,
        marks: _marks,
        is_line: _is_line,
    } = new_class;
    append_to_each(
        below.as_mut_slice(),
        receiving(is_concrete, &ancestors),
        class,
    );
    below.push_reserved(own);
    above.push_reserved(with_itself);
    rows.push_reserved(row);
}
