//! The retirement of loaders with the classes that they have defined (JLS SE 17 §12.7).

ghost use Rattle.std.specs.Prelude.{◌≡◌, ◌<◌, ◌≤◌, ◌+◌, ◌-◌, ◌&&◌, ◌||◌, ◌==◌, ◌++◌, ◌∷◌, ℕ, None, All, find, filter, length, replicate, slice_get, [], OnOk};
ghost use Rattle.std.specs.Prelude.{OnErr, IfOk, true, if◌then◌else◌};
ghost use Rattle.std.specs.Option.{option_map_or};
ghost use Rattle.std.specs.List.{list_any, range_with_len};
ghost use Rattle.jl_types.specs.Values.Members as members;
ghost use Rattle.jl_types.specs.Events.Definitions as definitions;
ghost use Rattle.jl_types.specs.Events.Retirement as retirement;
ghost use Rattle.jl_hierarchy.specs.Constancy.{AreInOrder};
ghost use Rattle.jl_hierarchy.specs.ForProofs.Kept.{AreChanged, Rises, lists};
ghost use Rattle.jl_types.specs.ForProofs.Leaving.{inherits_any, records_any};
ghost use Rattle.jl_hierarchy.specs.Retiring.{is_row_of, is_row_of_any, own_classes, own_recorded, without};

use crate::classes::Classes;
use crate::leaving::{Leaving, each_once, is_listed};
use crate::loader::Loader;
use crate::receiving::Receivers;
use crate::row::Row;
use indexmap::IndexSet;
use jl_pages::Paged;
use jl_types::{ClassId, LoaderId, RetireFault};
use std::alloc::{AllocError, Global};

impl Classes {
    /// Whether the loader is retired.
    pub fn is_retired(&self, loader: LoaderId) -> bool
        ensures { result ≡ members.is_retired self.now loader }
    {
        // Opens the invariant of the classes.
        let _ = &self.rows;
        self.retired.contains(&loader)
    }

    /// Whether a class of this number was defined, and its loader isn't retired.
    pub fn is_present(&self, class: ClassId) -> bool
        ensures { result ≡ members.is_present self.now class }
    {
        match self.class_at(class) {
            Some(row) => !self.is_retired(row.loader()),
            None => false,
        }
    }

    /// Whether there was never such a loader, or it is retired.
    pub(crate) fn lacks_loader(&self, loader: LoaderId) -> bool
        ensures { result ≡ definitions.is_unknown self.now loader }
    {
        loader.number() as usize >= self.loaders.len() || self.is_retired(loader)
    }

    /// Whether the loader has defined the class.
    pub fn is_of(&self, loader: LoaderId, class: ClassId) -> bool
        ensures { result ≡ retirement.is_of self.now loader class }
    {
        match self.class_at(class) {
            Some(row) => row.loader() == loader,
            None => false,
        }
    }

    /// Whether one of the loaders has defined the class.
    pub fn is_of_any(&self, leaving: &Leaving, class: ClassId) -> bool
        ensures { result ≡ retirement.is_of_any self.now leaving.now class }
    {
        match self.class_at(class) {
            Some(row) => leaving.has(row.loader()),
            None => false,
        }
    }

    /// Whether one of the listed loaders has defined the class.
    fn is_of_listed(&self, loaders: &[LoaderId], class: ClassId) -> bool
        ensures { result ≡ retirement.is_of_any self.now loaders.now class }
    {
        match self.class_at(class) {
            Some(row) => is_listed(loaders, row.loader()),
            None => false,
        }
    }

    /// Why the loader can't go, if all of these go at once: the first fault that the classes alone show. Takes no memory.
    ///
    /// It walks over all classes, over the ancestors of those that came after the loader's first one, and over all that loaders record.
    pub fn retire_fault(&self, loaders: &[LoaderId], loader: LoaderId) -> Option<RetireFault>
        ensures { result ≡ retirement.classes_fault self.now loaders.now loader }
    {
        if self.lacks_loader(loader) {
            return Some(RetireFault::UnknownLoader);
        }
        if loader.number() == 0 {
            return Some(RetireFault::FirstLoader);
        }
        if let Some(class) = self.first_heir(loaders, loader) {
            return Some(RetireFault::Inherited(ClassId::new(class)));
        }
        if let Some(other) = self.first_recorder(loaders, loader) {
            return Some(RetireFault::Recorded(LoaderId::new(other)));
        }
        None
    }

    /// The number of the least present class that stays and has an ancestor of the loader. No class has one that came before the
    /// loader's first class.
    fn first_heir(&self, loaders: &[LoaderId], loader: LoaderId) -> Option<u32>
        ensures { result ≡ find (retirement.inherits_from self.now loaders.now loader) (members.numbers self.now) }
    {
        let first = self.first_of(loader)?;
        self.first_heir_from(loaders, loader, first)
    }

    /// The number of the first class that the loader has defined.
    fn first_of(&self, loader: LoaderId) -> Option<u32>
        ensures { result ≡ find (retirement.is_of self.now loader) (members.numbers self.now) }
    {
        let count = self.count_in_order() as u32;
        (0..count).find(|class| self.is_of(loader, ClassId::new(*class)))
    }

    /// As [`Self::first_heir`], of the classes from the first one on.
    fn first_heir_from(&self, loaders: &[LoaderId], loader: LoaderId, first: u32) -> Option<u32>
        ensures { result ≡ find (retirement.inherits_from self.now loaders.now loader) (range_with_len first (length self.now.rows - first)) }
    {
        let count = self.count_in_order() as u32;
        (first..count).find(|class| self.inherits_from(loaders, loader, ClassId::new(*class)))
    }

    /// Whether the class is a present one that stays, and has an ancestor of the loader.
    fn inherits_from(&self, loaders: &[LoaderId], loader: LoaderId, class: ClassId) -> bool
        ensures { result ≡ retirement.inherits_from self.now loaders.now loader class }
    {
        self.is_present(class)
            && !self.is_of_listed(loaders, class)
            && self.has_one_of(loader, self.ancestors(class))
    }

    /// Whether the loader has defined one of the classes.
    fn has_one_of(&self, loader: LoaderId, classes: &[ClassId]) -> bool
        ensures { result ≡ list_any (retirement.is_of self.now loader) classes.now }
    {
        classes.iter().any(|class| self.is_of(loader, *class))
    }

    /// The number of the least loader that stays and records a class of this one. It isn't retired, since a retired loader records nothing.
    fn first_recorder(&self, loaders: &[LoaderId], loader: LoaderId) -> Option<u32>
        ensures { result ≡ find (retirement.records_from self.now loaders.now loader) (range_with_len 0 (length self.now.loaders)) }
    {
        let count = self.loader_count() as u32;
        (0..count).find(|other| self.records_from(loaders, loader, LoaderId::new(*other)))
    }

    /// Whether the other loader stays, and records a class of this one.
    fn records_from(&self, loaders: &[LoaderId], loader: LoaderId, other: LoaderId) -> bool
        ensures { result ≡ retirement.records_from self.now loaders.now loader other }
    {
        match self.loaders.get(other.number() as usize) {
            Some(records) => {
                !is_listed(loaders, other) && records.has_one_of(&self.rows, loader)
            }
            None => false,
        }
    }

    /// Whether these loaders may go at once, as far as the classes alone show. Takes no memory.
    ///
    /// One walk goes over all classes, and over the ancestors of those that came after the loaders' first one. Another goes over all
    /// that the loaders that stay record.
    pub fn spares(&self, leaving: &Leaving) -> bool
        ensures { result ≡ true → retirement.MayRetire self.now leaving.now }
    {
        if self.may_not_go(leaving.listed.as_slice()) {
            return false;
        }
        if self.first_heir_of_any(leaving).is_some() {
            return false;
        }
        self.first_recorder_of_any(leaving).is_none()
    }

    /// Whether one of the loaders isn't there, is retired or is loader 0.
    fn may_not_go(&self, loaders: &[LoaderId]) -> bool
        ensures { result ≡ list_any (λ l. definitions.is_unknown self.now l || (l == 0)) loaders.now }
    {
        loaders
            .iter()
            .any(|loader| self.is_unknown_or_first(*loader))
    }

    /// Whether there was never such a loader, or it is retired, or it is loader 0.
    fn is_unknown_or_first(&self, loader: LoaderId) -> bool
        ensures { result ≡ (definitions.is_unknown self.now loader || (loader == 0)) }
    {
        self.lacks_loader(loader) || loader.number() == 0
    }

    /// The number of the least present class that stays and has an ancestor of one of the loaders.
    fn first_heir_of_any(&self, leaving: &Leaving) -> Option<u32>
        ensures { result ≡ find (inherits_any self.now leaving.now) (members.numbers self.now) }
    {
        let first = self.first_of_any(leaving)?;
        self.first_heir_of_any_from(leaving, first)
    }

    /// The number of the first class that one of the loaders has defined.
    fn first_of_any(&self, leaving: &Leaving) -> Option<u32>
        ensures { result ≡ find (retirement.is_of_any self.now leaving.now) (members.numbers self.now) }
    {
        let count = self.count_in_order() as u32;
        (0..count).find(|class| self.is_of_any(leaving, ClassId::new(*class)))
    }

    /// As [`Self::first_heir_of_any`], of the classes from the first one on.
    fn first_heir_of_any_from(&self, leaving: &Leaving, first: u32) -> Option<u32>
        ensures { result ≡ find (inherits_any self.now leaving.now) (range_with_len first (length self.now.rows - first)) }
    {
        let count = self.count_in_order() as u32;
        (first..count).find(|class| self.inherits_any(leaving, ClassId::new(*class)))
    }

    /// Whether the class is a present one that stays, and has an ancestor of one of the loaders.
    fn inherits_any(&self, leaving: &Leaving, class: ClassId) -> bool
        ensures { result ≡ inherits_any self.now leaving.now class }
    {
        self.is_present(class)
            && !self.is_of_any(leaving, class)
            && self.has_any_of(leaving, self.ancestors(class))
    }

    /// Whether one of the loaders has defined one of the classes.
    fn has_any_of(&self, leaving: &Leaving, classes: &[ClassId]) -> bool
        ensures { result ≡ list_any (retirement.is_of_any self.now leaving.now) classes.now }
    {
        classes.iter().any(|class| self.is_of_any(leaving, *class))
    }

    /// The number of the least loader that stays and records a class of one of these.
    fn first_recorder_of_any(&self, leaving: &Leaving) -> Option<u32>
        ensures { result ≡ find (records_any self.now leaving.now) (range_with_len 0 (length self.now.loaders)) }
    {
        let count = self.loader_count() as u32;
        (0..count).find(|other| self.records_any(leaving, LoaderId::new(*other)))
    }

    /// Whether the other loader stays, and records a class of one of these.
    fn records_any(&self, leaving: &Leaving, other: LoaderId) -> bool
        ensures { result ≡ records_any self.now leaving.now other }
    {
        match self.loaders.get(other.number() as usize) {
            Some(records) => !leaving.has(other) && records.has_any_of(&self.rows, leaving),
            None => false,
        }
    }

    /// The classes that lose a receiver if the loaders go, by rising number. It walks over what the loaders have recorded, and over
    /// the ancestors of their own classes.
    pub fn losing_receivers(
        &self,
        alloc: Global,
        loaders: &[LoaderId],
    ) -> Result<Vec<ClassId>, AllocError>
        ensures { IfOk result (λ losing. losing.items ≡ retirement.losing_receivers self.now loaders.now) }
    {
        // Opens the invariant of the classes.
        let _ = &self.rows;
        let own = self.classes_of_all(alloc, loaders)?;
        let concrete = self.concrete_among(alloc, &own)?;
        let losing = self.joined_ancestors(alloc, &concrete)?;
        Ok(losing)
    }

    /// The classes that these loaders have defined, one loader after another. A retired loader gives none. It walks over what they have
    /// recorded.
    pub fn classes_of_all(
        &self,
        alloc: Global,
        loaders: &[LoaderId],
    ) -> Result<Vec<ClassId>, AllocError>
        ensures { IfOk result (λ own. (c : ℕ) → list_any (λ k. k == c) own.items
            ≡ (members.is_present self.now c && retirement.is_of_any self.now loaders.now c)) }
    {
        let mut all = Vec::new(alloc);
        for loader in loaders {
            let own = self.own_classes(alloc, *loader)?;
            all.extend_from_slice(own.as_slice())?;
        }
        Ok(all)
    }

    /// The classes that the loader has defined, in the order in which it recorded them. A retired loader gives none. It walks over what
    /// the loader has recorded.
    pub fn own_classes(&self, alloc: Global, loader: LoaderId) -> Result<Vec<ClassId>, AllocError>
        ensures members { IfOk result (λ own. (c : ℕ) → list_any (λ k. k == c) own.items
            ≡ (members.is_present self.now c && retirement.is_of self.now loader c)) }
        ensures in_order { IfOk result (λ own. own.items ≡ own_classes self.now loader) }
    {
        // Opens the invariant of the classes.
        let _ = &self.rows;
        if self.is_retired(loader) {
            return Ok(Vec::new(alloc));
        }
        let own = self.own_recorded(alloc, loader)?;
        Ok(own)
    }

    /// The classes that the loader has recorded and defined.
    fn own_recorded(&self, alloc: Global, loader: LoaderId) -> Result<Vec<ClassId>, AllocError>
        ensures { IfOk result (λ own. own.items ≡ option_map_or (own_recorded self.now.rows loader) (slice_get self.now.loaders loader) []) }
    {
        let mut own = Vec::new(alloc);
        if let Some(records) = self.loaders.get(loader.number() as usize) {
            records.add_own(&self.rows, loader, &mut own)?;
        }
        Ok(own)
    }

    /// Those of the classes that objects may be of.
    fn concrete_among(&self, alloc: Global, classes: &[ClassId]) -> Result<Vec<ClassId>, AllocError>
        ensures { IfOk result (λ concrete. concrete.items ≡ filter (members.is_concrete self.now) classes.now) }
    {
        let mut concrete = Vec::new(alloc);
        for class in classes {
            let is_one = self.is_concrete(*class);
            push_if(&mut concrete, is_one, *class)?;
        }
        Ok(concrete)
    }

    /// The loaders go, with all that they have defined. They find nothing any more, and their classes are no receivers. Their numbers
    /// aren't given again. Nothing may speak against it.
    ///
    /// It walks over what the loaders have recorded, and over the receivers of the ancestors of their own classes, each once. Every
    /// growth comes before the first change, or is that change.
    ///
    /// # Errors
    ///
    /// Want of memory. Nothing has changed then.
    pub fn retire(&mut self, alloc: Global, loaders: &[LoaderId]) -> Result<(), AllocError>
        requires { retirement.MayRetire self.old loaders.now }
        ensures ok { OnOk result (self.new ≡ retirement.retired self.old loaders.now) }
        ensures in_order { OnOk result (AreInOrder self.old) }
        ensures err { OnErr result (self.new ≡ self.old) }
    {
        let losing = self.losing_receivers(alloc, loaders)?;
        let bare = bare_loaders(alloc, loaders.len())?;
        add_all(alloc, &mut self.retired, loaders)?;
        empty_all(&mut self.loaders, loaders, bare);
        drop_own_receivers(alloc, &self.rows, &mut self.below, &self.retired, &losing);
        Ok(())
    }
}

/// Adds the class, if so.
pub(crate) fn push_if(
    classes: &mut Vec<ClassId>,
    is_one: bool,
    class: ClassId,
) -> Result<(), AllocError>
    ensures { OnOk result (classes.new.items ≡ classes.old.items ++ (if is_one then class ∷ [] else [])) }
{
    if is_one {
        classes.push(class)?;
    }
    Ok(())
}

/// Adds each of the loaders that isn't among the retired ones yet.
///
/// # Errors
///
/// Want of memory. Nothing has changed then.
fn add_all(
    alloc: Global,
    retired: &mut IndexSet<LoaderId>,
    loaders: &[LoaderId],
) -> Result<(), AllocError>
    ensures ok { OnOk result (retired.new.keys ≡ retirement.gone_with retired.old.keys loaders.now) }
    ensures err { OnErr result (retired.new.keys ≡ retired.old.keys) }
{
    let mut leaving = each_once(alloc, loaders)?;
    retired.append(&mut leaving)?;
    Ok(())
}

/// So many loaders that find nothing.
fn bare_loaders(alloc: Global, count: usize) -> Result<Vec<Loader>, AllocError>
    ensures { IfOk result (λ bare. bare.items ≡ replicate count []) }
{
    let one = Loader::new(alloc)?;
    let mut bare = Vec::with_capacity(alloc, count)?;
    for _ in 0..count {
        bare.push(one.copy()?)?;
    }
    Ok(bare)
}

/// Makes these loaders find nothing any more: puts one of the bare loaders, of which there are as many, in the place of each.
fn empty_all(loaders: &mut Vec<Loader>, leaving: &[LoaderId], bare: Vec<Loader>)
    requires there { All (λ l. l < length loaders.old.items) leaving.now }
    requires bare { bare.items ≡ replicate (length leaving.now) [] }
    ensures { loaders.new.items ≡ retirement.emptied loaders.old.items leaving.now }
{
    empty_each(loaders.as_mut_slice(), leaving, bare);
}

/// Puts one of the bare loaders in the place of each of the leaving ones, in a slice of all loaders.
fn empty_each(loaders: &mut [Loader], leaving: &[LoaderId], bare: Vec<Loader>)
    requires there { All (λ l. l < length loaders.old) leaving.now }
    requires bare { bare.items ≡ replicate (length leaving.now) [] }
    ensures { loaders.new ≡ retirement.emptied loaders.old leaving.now }
{
    let mut bare = bare;
    for loader in leaving {
        loaders[loader.number() as usize] = next_bare(&mut bare);
    }
}

/// Takes the last of the bare loaders.
fn next_bare(bare: &mut Vec<Loader>) -> Loader
    requires some { 1 ≤ length bare.old.items }
    requires bare { bare.old.items ≡ replicate (length bare.old.items) [] }
    ensures bare { result ≡ [] }
    ensures fewer { length bare.new.items + 1 ≡ length bare.old.items }
    ensures left { bare.new.items ≡ replicate (length bare.new.items) [] }
{
    bare.pop().unwrap()
}

/// Takes the classes of retired loaders out of the receivers of each of these.
fn drop_own_receivers(
    alloc: Global,
    rows: &Paged<Row>,
    below: &mut Vec<Receivers>,
    retired: &IndexSet<LoaderId>,
    losing: &[ClassId],
)
    requires there { All (λ c. c < length below.old.items) losing.now }
    requires rising { Rises losing.now }
    ensures { AreChanged losing.now (without rows.now.items retired.now.keys) (lists below.old.items) (lists below.new.items) }
{
    drop_receivers(alloc, rows, below.as_mut_slice(), retired, losing);
}

/// Takes the classes of retired loaders out of the receivers of each losing class, in a slice of the receivers of all classes.
fn drop_receivers(
    alloc: Global,
    rows: &Paged<Row>,
    below: &mut [Receivers],
    retired: &IndexSet<LoaderId>,
    losing: &[ClassId],
)
    requires there { All (λ c. c < length below.old) losing.now }
    requires rising { Rises losing.now }
    ensures { AreChanged losing.now (without rows.now.items retired.now.keys) (lists below.old) (lists below.new) }
{
    for class in losing {
        drop_from(alloc, rows, &mut below[class.number() as usize], retired);
    }
}

/// Takes the classes of retired loaders out of the list. If nothing is left, the list keeps no room.
fn drop_from(
    alloc: Global,
    rows: &Paged<Row>,
    receivers: &mut Receivers,
    retired: &IndexSet<LoaderId>,
)
    ensures { receivers.new.items ≡ without rows.now.items retired.now.keys receivers.old.items }
{
    retain_others(rows, receivers, retired);
    if receivers.is_empty() {
        *receivers = Vec::new(alloc);
    }
}

/// Takes the classes of retired loaders out of the list.
fn retain_others(rows: &Paged<Row>, receivers: &mut Receivers, retired: &IndexSet<LoaderId>)
    ensures { receivers.new.items ≡ without rows.now.items retired.now.keys receivers.old.items }
{
    receivers.retain(|class| !is_row_of_any(rows, retired, *class));
}

/// Whether one of the loaders has defined the class.
fn is_row_of_any(rows: &Paged<Row>, loaders: &IndexSet<LoaderId>, class: ClassId) -> bool
    ensures { result ≡ is_row_of_any rows.now.items loaders.now.keys class }
{
    match rows.get(class.number() as usize) {
        Some(row) => loaders.contains(&row.class().loader()),
        None => false,
    }
}

/// Whether one of the leaving loaders has defined the class.
pub(crate) fn is_row_of_leaving(rows: &Paged<Row>, leaving: &Leaving, class: ClassId) -> bool
    ensures { result ≡ is_row_of_any rows.now.items leaving.now class }
{
    match rows.get(class.number() as usize) {
        Some(row) => leaving.has(row.class().loader()),
        None => false,
    }
}

/// Whether the loader has defined the class.
pub(crate) fn is_row_of(rows: &Paged<Row>, loader: LoaderId, class: ClassId) -> bool
    ensures { result ≡ is_row_of rows.now.items loader class }
{
    match rows.get(class.number() as usize) {
        Some(row) => row.class().loader() == loader,
        None => false,
    }
}
