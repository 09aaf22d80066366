//! What one loader finds by name.

ghost use Rattle.std.specs.Prelude.{◌≡◌, ◌<◌, ◌++◌, ◌∷◌, [], true, None, length, slice_get, option_and_then, IfOk, OnOk, OnErr};
ghost use Rattle.std.specs.List.{list_any};
ghost use Rattle.jl_types.specs.Values.Members.{recorded};
ghost use Rattle.jl_types.specs.Events.Definitions.{with_record};
ghost use Rattle.jl_hierarchy.specs.ForProofs.Kept.{are_new};
ghost use Rattle.jl_hierarchy.specs.Retiring.{is_row_of, is_row_of_any, own_recorded};

use crate::leaving::Leaving;
use crate::retire::{is_row_of, is_row_of_leaving, push_if};
use crate::row::Row;
use indexmap::IndexMap;
use jl_pages::Paged;
use jl_types::{ClassId, LoaderId};
use std::alloc::{AllocError, Global};
use std::marker::Model;
use std::sync::Arc;

/// The most records that a loader keeps apart from the older ones.
const MOST_RECENT: usize = 256;

/// The names under which a loader finds classes, each with its class (JVMS SE 17 §5.3). A clause sees the pairs, in the order in
/// which they were recorded.
///
/// Copies of the loader share the records. The recent ones are kept apart. So a loader that records more, while copies share what it
/// has, copies only the recent ones, and all of them once in 256 times.
pub(crate) struct Loader {
    older: Arc<Records>,
    /// Those after the older ones: 256 at the most.
    recent: Arc<Records>,
}

/// Written out, so that what drops one makes one call of it and doesn't take apart what it holds.
impl Drop for Loader {
    fn drop(self) {
        let Loader {
            older: _older,
            recent: _recent,
        } = self;
    }
}

impl Model for Loader {
    ghost use Rattle.std.specs.Prelude.{◌≡◌, List, ℕ, true, ◌++◌};
    ghost use Rattle.jl_hierarchy.specs.ForProofs.Kept.{are_new};

    ghost Value = { List (List ℕ × ℕ) };

    ghost view = { λ l. l.older.value ++ l.recent.value };

    ghost invariant = { λ l. are_new l.older.value l.recent.value ≡ true };
}

impl Loader {
    /// A loader that has found nothing.
    pub(crate) fn new(alloc: Global) -> Result<Self, AllocError>
        ensures { IfOk result (λ loader. loader ≡ []) }
    {
        Ok(Loader {
            older: Arc::new(alloc, Records::new(alloc))?,
            recent: Arc::new(alloc, Records::new(alloc))?,
        })
    }

    /// The class that is recorded under the name.
    pub(crate) fn get(&self, name: &[u8]) -> Option<ClassId>
        ensures { result ≡ recorded name.now self.now }
    {
        let recent = &self.recent;
        self.older.get(name).or_else(|| recent.get(name))
    }

    /// Whether one of the classes that are recorded is of the loader.
    pub(crate) fn has_one_of(&self, rows: &Paged<Row>, loader: LoaderId) -> bool
        ensures { result ≡ list_any (λ r. is_row_of rows.now.items loader r.1) self.now }
    {
        self.older.has_one_of(rows, loader) || self.recent.has_one_of(rows, loader)
    }

    /// Whether one of the classes that are recorded is of one of the loaders.
    pub(crate) fn has_any_of(&self, rows: &Paged<Row>, leaving: &Leaving) -> bool
        ensures { result ≡ list_any (λ r. is_row_of_any rows.now.items leaving.now r.1) self.now }
    {
        self.older.has_any_of(rows, leaving) || self.recent.has_any_of(rows, leaving)
    }

    /// Adds to `own` the recorded classes that the loader has defined.
    pub(crate) fn add_own(
        &self,
        rows: &Paged<Row>,
        loader: LoaderId,
        own: &mut Vec<ClassId>,
    ) -> Result<(), AllocError>
        ensures { OnOk result (own.new.items ≡ own.old.items ++ own_recorded rows.now.items loader self.now) }
    {
        self.older.add_own(rows, loader, own)?;
        self.recent.add_own(rows, loader, own)
    }

    /// A copy of the loader, which shares its records. Too many copies are an error.
    pub(crate) fn copy(&self) -> Result<Loader, AllocError>
        ensures { IfOk result (λ copy. copy ≡ self.now) }
    {
        Ok(Loader {
            older: Arc::try_clone(&self.older)?,
            recent: Arc::try_clone(&self.recent)?,
        })
    }

    /// Records the class under the name, which is new. Recent records that copies share are copied first. If there are as many recent
    /// ones as there may be, they move after the older ones, and older ones that copies share are copied first, too.
    ///
    /// # Errors
    ///
    /// Want of memory. Nothing has changed then.
    pub(crate) fn record(&mut self, name: Vec<u8>, class: ClassId) -> Result<(), AllocError>
        requires { recorded name.items self.old ≡ None }
        ensures ok { OnOk result (self.new ≡ self.old ++ (name.items, class) ∷ []) }
        ensures err { OnErr result (self.new ≡ self.old) }
    {
        record_after(&mut self.older, &mut self.recent, name, class)
    }
}

/// Records the class under the name, which is new to both, after the recent ones. If there are as many of these as there may be,
/// they move after the older ones first.
///
/// # Errors
///
/// Want of memory. Both together are as they were then, though the recent ones may have moved.
fn record_after(
    older: &mut Arc<Records>,
    recent: &mut Arc<Records>,
    name: Vec<u8>,
    class: ClassId,
) -> Result<(), AllocError>
    requires apart { are_new older.old.value recent.old.value ≡ true }
    requires fresh { recorded name.items (older.old.value ++ recent.old.value) ≡ None }
    ensures ok { OnOk result
        (older.new.value ++ recent.new.value ≡ (older.old.value ++ recent.old.value) ++ (name.items, class) ∷ []) }
    ensures err { OnErr result (older.new.value ++ recent.new.value ≡ older.old.value ++ recent.old.value) }
    ensures apart { are_new older.new.value recent.new.value ≡ true }
{
    make_room(older, recent)?;
    record_shared(recent, name, class)
}

/// Moves the recent records after the older ones, to which they are new, if there are as many as there may be. Records that others
/// hold, too, are copied first.
///
/// # Errors
///
/// Want of memory. Nothing has changed then.
fn make_room(older: &mut Arc<Records>, recent: &mut Arc<Records>) -> Result<(), AllocError>
    requires apart { are_new older.old.value recent.old.value ≡ true }
    ensures same { older.new.value ++ recent.new.value ≡ older.old.value ++ recent.old.value }
    ensures apart { are_new older.new.value recent.new.value ≡ true }
    ensures room { OnOk result (length recent.new.value < 256) }
{
    if recent.records.len() < MOST_RECENT {
        return Ok(());
    }
    let moved = Arc::make_mut(recent)?;
    let records = Arc::make_mut(older)?;
    records.append(moved)
}

/// Records the class under the name, which is new. Records that others hold, too, are copied first.
///
/// # Errors
///
/// Want of memory. Nothing has changed then.
fn record_shared(shared: &mut Arc<Records>, name: Vec<u8>, class: ClassId) -> Result<(), AllocError>
    requires { recorded name.items shared.old.value ≡ None }
    ensures ok { OnOk result (shared.new.value ≡ shared.old.value ++ (name.items, class) ∷ []) }
    ensures err { OnErr result (shared.new.value ≡ shared.old.value) }
{
    let records = Arc::make_mut(shared)?;
    records.record(name, class)
}

/// Names, each with its class. A clause sees the pairs, in the order in which they were recorded.
struct Records {
    records: IndexMap<Vec<u8>, ClassId>,
}

/// Written out, so that what drops one makes one call of it and doesn't take apart what it holds.
impl Drop for Records {
    fn drop(self) {
        let Records { records: _records } = self;
    }
}

impl Model for Records {
    ghost use Rattle.std.specs.Prelude.{List, ℕ};
    ghost use Rattle.jl_hierarchy.specs.ForProofs.Kept.{named};

    ghost Value = { List (List ℕ × ℕ) };

    ghost view = { λ l. named l.records.entries };
}

impl Clone for Records {
    ghost is_clone = { λ records copy. copy ≡ records };

    fn clone(&self) -> Result<Records, AllocError> {
        Ok(Records {
            records: self.records.clone()?,
        })
    }
}

impl Records {
    /// No names.
    fn new(alloc: Global) -> Self
        ensures { result ≡ [] }
    {
        Records {
            records: IndexMap::new(alloc),
        }
    }

    /// The class that is recorded under the name.
    fn get(&self, name: &[u8]) -> Option<ClassId>
        ensures { result ≡ recorded name.now self.now }
    {
        self.records.get(name).copied()
    }

    /// Whether one of the classes is of the loader.
    fn has_one_of(&self, rows: &Paged<Row>, loader: LoaderId) -> bool
        ensures { result ≡ list_any (λ r. is_row_of rows.now.items loader r.1) self.now }
    {
        // Bounds the loop.
        let _count = self.records.len();
        let mut place = 0;
        while let Some((_, class)) = self.records.get_index(place) {
            if is_row_of(rows, loader, *class) {
                return true;
            }
            place += 1;
        }
        false
    }

    /// Whether one of the classes is of one of the loaders.
    fn has_any_of(&self, rows: &Paged<Row>, leaving: &Leaving) -> bool
        ensures { result ≡ list_any (λ r. is_row_of_any rows.now.items leaving.now r.1) self.now }
    {
        // Bounds the loop.
        let _count = self.records.len();
        let mut place = 0;
        while let Some((_, class)) = self.records.get_index(place) {
            if is_row_of_leaving(rows, leaving, *class) {
                return true;
            }
            place += 1;
        }
        false
    }

    /// Adds to `own` the classes of these records that the loader has defined.
    fn add_own(
        &self,
        rows: &Paged<Row>,
        loader: LoaderId,
        own: &mut Vec<ClassId>,
    ) -> Result<(), AllocError>
        ensures { OnOk result (own.new.items ≡ own.old.items ++ own_recorded rows.now.items loader self.now) }
    {
        // Bounds the loop.
        let _count = self.records.len();
        let mut place = 0;
        while let Some((_, class)) = self.records.get_index(place) {
            let is_one = is_row_of(rows, loader, *class);
            push_if(own, is_one, *class)?;
            place += 1;
        }
        Ok(())
    }

    /// Records the class under the name, which is new.
    ///
    /// # Errors
    ///
    /// Want of memory. Nothing has changed then.
    fn record(&mut self, name: Vec<u8>, class: ClassId) -> Result<(), AllocError>
        requires { recorded name.items self.old ≡ None }
        ensures ok { OnOk result (self.new ≡ self.old ++ (name.items, class) ∷ []) }
        ensures err { OnErr result (self.new ≡ self.old) }
    {
        self.records.insert(name, class)?;
        Ok(())
    }

    /// Moves the other names after these, to which they are new.
    ///
    /// # Errors
    ///
    /// Want of memory. Nothing has changed then.
    fn append(&mut self, other: &mut Records) -> Result<(), AllocError>
        requires { are_new self.old other.old ≡ true }
        ensures ok { OnOk result (self.new ≡ self.old ++ other.old) }
        ensures emptied { OnOk result (other.new ≡ []) }
        ensures err { OnErr result (self.new ≡ self.old) }
        ensures other_err { OnErr result (other.new ≡ other.old) }
    {
        self.records.append(&mut other.records)
    }
}

/// The loader of this number records the class under the name, which is new to it.
///
/// # Errors
///
/// Want of memory. Nothing has changed then.
pub(crate) fn record_in(
    loaders: &mut Vec<Loader>,
    loader: LoaderId,
    name: Vec<u8>,
    class: ClassId,
) -> Result<(), AllocError>
    requires there { loader < length loaders.old.items }
    requires fresh { option_and_then (recorded name.items) (slice_get loaders.old.items loader) ≡ None }
    ensures ok { OnOk result (loaders.new.items ≡ with_record loaders.old.items loader name.items class) }
    ensures err { OnErr result (loaders.new.items ≡ loaders.old.items) }
{
    record_at(loaders.as_mut_slice(), loader, name, class)
}

/// The loader of this number in a slice of loaders records the class under the name, which is new to it.
fn record_at(
    loaders: &mut [Loader],
    loader: LoaderId,
    name: Vec<u8>,
    class: ClassId,
) -> Result<(), AllocError>
    requires there { loader < length loaders.old }
    requires fresh { option_and_then (recorded name.items) (slice_get loaders.old loader) ≡ None }
    ensures ok { OnOk result (loaders.new ≡ with_record loaders.old loader name.items class) }
    ensures err { OnErr result (loaders.new ≡ loaders.old) }
{
    loaders[loader.number() as usize].record(name, class)?;
    Ok(())
}
