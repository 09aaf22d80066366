//! New loaders, and delegation (JVMS SE 17 §5.3).

ghost use Rattle.std.specs.Prelude.{false, ◌≡◌, ◌↔◌, nat_le, ℕ, ◌<◌, ◌≤◌, ◌^◌, ◌++◌, ◌∷◌, [], Some, None, Err, length, IfOk, IfErr, OnOk, OnErr};
ghost use Rattle.jl_types.specs.declared.refusal.DelegateFault.{DelegateFault};
ghost use Rattle.jl_types.specs.declared.refusal.OrMemory.TheVariants as or_memory;
ghost use Rattle.jl_types.specs.Events.Definitions as definitions;
ghost use Rattle.jl_types.specs.Values.Members as members;
ghost use Rattle.jl_hierarchy.specs.Constancy.{AreInOrder, Stays};
ghost use Rattle.jl_hierarchy.specs.declared.delegate.LoaderFault.TheVariants as loader_fault;

use crate::classes::Classes;
use crate::loader::{Loader, record_in};
use jl_types::{ClassId, DelegateFault, LoaderId, OrMemory};
use std::alloc::{AllocError, Global};
use thiserror::Error;

/// Why a loader isn't made.
#[derive(Clone, Copy, Debug, PartialEq, Eq, Error)]
pub enum LoaderFault {
    /// There are as many loaders as there may be.
    #[error("LoadersFull")]
    Full,
    /// Want of memory.
    #[error("Memory")]
    Memory,
}

impl Classes {
    /// A new loader, which has found nothing, by its number.
    ///
    /// # Errors
    ///
    /// `Full` if there are so many loaders already; else want of memory. Nothing has changed then.
    pub fn new_loader(&mut self, alloc: Global, most_loaders: u32) -> Result<LoaderId, LoaderFault>
        requires { most_loaders ≤ 2 ^ 20 }
        ensures number { IfOk result (λ loader. loader ≡ length self.old.loaders) }
        ensures ok { OnOk result (self.new ≡ record self.old { loaders = self.old.loaders ++ [] ∷ [] }) }
        ensures in_order { OnOk result (AreInOrder self.old) }
        ensures stays { OnOk result (Stays self.old self.new) }
        ensures full { (result ≡ Err loader_fault.Full) ↔ (most_loaders ≤ length self.old.loaders) }
        ensures err { OnErr result (self.new ≡ self.old) }
    {
        if self.has_all_loaders(most_loaders) {
            return Err(LoaderFault::Full);
        }
        match self.add_loader(alloc) {
            Ok(loader) => Ok(loader),
            Err(_) => Err(LoaderFault::Memory),
        }
    }

    /// Whether there are at least so many loaders. Takes no memory.
    pub fn has_all_loaders(&self, most_loaders: u32) -> bool
        ensures { result ≡ nat_le most_loaders (length self.now.loaders) }
    {
        // Opens the invariant of the classes.
        let _ = &self.rows;
        self.loaders.len() >= most_loaders as usize
    }

    /// A new loader, which has found nothing, by its number. There have to be fewer than 2^20 so far. This is the second half of
    /// [`new_loader`](Classes::new_loader).
    ///
    /// # Errors
    ///
    /// Want of memory. Nothing has changed then.
    pub fn add_loader(&mut self, alloc: Global) -> Result<LoaderId, AllocError>
        requires { length self.old.loaders < 2 ^ 20 }
        ensures number { IfOk result (λ loader. loader ≡ length self.old.loaders) }
        ensures ok { OnOk result (self.new ≡ record self.old { loaders = self.old.loaders ++ [] ∷ [] }) }
        ensures in_order { OnOk result (AreInOrder self.old) }
        ensures stays { OnOk result (Stays self.old self.new) }
        ensures err { OnErr result (self.new ≡ self.old) }
    {
        let made = Loader::new(alloc)?;
        let loader = LoaderId::new(self.loaders.len() as u32);
        self.loaders.push(made)?;
        Ok(loader)
    }

    /// The loader finds the class that the other one has recorded under the name, from now on (JVMS SE 17 §5.3).
    ///
    /// # Errors
    ///
    /// The first fault of the delegation; else want of memory. Nothing has changed then.
    pub fn delegate(
        &mut self,
        alloc: Global,
        loader: LoaderId,
        name: &[u8],
        to: LoaderId,
    ) -> Result<(), OrMemory<DelegateFault>>
        ensures accepted { OnOk result (definitions.delegate_fault self.old loader name.now to ≡ None) }
        ensures ok { OnOk result (self.new ≡ definitions.delegated self.old loader name.now to) }
        ensures in_order { OnOk result (AreInOrder self.old) }
        ensures stays { OnOk result (Stays self.old self.new) }
        ensures fault { (f : DelegateFault) → result ≡ Err (or_memory.Fault f)
            → definitions.delegate_fault self.old loader name.now to ≡ Some f }
        ensures memory { result ≡ Err or_memory.Memory → definitions.delegate_fault self.old loader name.now to ≡ None }
        ensures err { OnErr result (self.new ≡ self.old) }
    {
        match self.delegation(loader, name, to) {
            Ok(class) => Ok(self.record(alloc, loader, name, class)?),
            Err(fault) => Err(OrMemory::Fault(fault)),
        }
    }

    /// The loader finds the class that the other one has recorded under the name, from now on. Nothing may speak against it. This
    /// is the second half of [`delegate`](Classes::delegate).
    ///
    /// # Errors
    ///
    /// Want of memory. Nothing has changed then.
    pub fn add_delegation(
        &mut self,
        alloc: Global,
        loader: LoaderId,
        name: &[u8],
        to: LoaderId,
    ) -> Result<(), AllocError>
        requires { definitions.delegate_fault self.old loader name.now to ≡ None }
        ensures ok { OnOk result (self.new ≡ definitions.delegated self.old loader name.now to) }
        ensures in_order { OnOk result (AreInOrder self.old) }
        ensures stays { OnOk result (Stays self.old self.new) }
        ensures err { OnErr result (self.new ≡ self.old) }
    {
        let class = self.lookup(to, name).unwrap();
        self.record(alloc, loader, name, class)
    }

    /// The loader records the class under the name, which is new to it.
    ///
    /// # Errors
    ///
    /// Want of memory. Nothing has changed then.
    fn record(
        &mut self,
        alloc: Global,
        loader: LoaderId,
        name: &[u8],
        class: ClassId,
    ) -> Result<(), AllocError>
        requires loader { loader < length self.old.loaders }
        requires fresh { members.lookup self.old loader name.now ≡ None }
        requires there { class < length self.old.rows }
        requires recorded { (to : ℕ) × (members.is_retired self.old to ≡ false) × (members.lookup self.old to name.now ≡ Some class) }
        ensures ok { OnOk result (self.new ≡ record self.old { loaders = definitions.with_record self.old.loaders loader name.now class }) }
        ensures in_order { OnOk result (AreInOrder self.old) }
        ensures stays { OnOk result (Stays self.old self.new) }
        ensures err { OnErr result (self.new ≡ self.old) }
    {
        let name = name.to_vec(alloc)?;
        record_in(&mut self.loaders, loader, name, class)?;
        Ok(())
    }

    /// The class that a delegation would record, if nothing speaks against it. Takes no memory.
    ///
    /// # Errors
    ///
    /// The first fault of the delegation.
    pub fn delegation(
        &self,
        loader: LoaderId,
        name: &[u8],
        to: LoaderId,
    ) -> Result<ClassId, DelegateFault>
        ensures alive { OnOk result (members.is_retired self.now to ≡ false) }
        ensures found { IfOk result (λ class. members.lookup self.now to name.now ≡ Some class) }
        ensures fresh { OnOk result (members.lookup self.now loader name.now ≡ None) }
        ensures loader { OnOk result (loader < length self.now.loaders) }
        ensures there { IfOk result (λ class. class < length self.now.rows) }
        ensures accepted { OnOk result (definitions.delegate_fault self.now loader name.now to ≡ None) }
        ensures fault { IfErr result (λ f. definitions.delegate_fault self.now loader name.now to ≡ Some f) }
    {
        if self.lacks_loader(loader) || self.lacks_loader(to) {
            return Err(DelegateFault::UnknownLoader);
        }
        let Some(class) = self.lookup(to, name) else {
            return Err(DelegateFault::NotRecorded);
        };
        if self.lookup(loader, name).is_some() {
            return Err(DelegateFault::AlreadyRecorded);
        }
        Ok(class)
    }
}
