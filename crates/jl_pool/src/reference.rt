//! What an entry of the pool names by its texts.

ghost use Rattle.std.specs.Prelude.{◌≡◌, IfOk};

use jl_names::{LentName, Name};
use std::alloc::{AllocError, Global};

/// A method by its class, name and descriptor (JVMS SE 17 §4.4.2). `itf` marks an InterfaceMethodref. `T` is how a text
/// is kept.
#[derive(Debug, Drop)]
pub struct Reference<T> {
    pub itf: bool,
    pub owner: T,
    pub name: T,
    pub ty: T,
}

impl<'a> Reference<LentName<'a>> {
    /// This reference with names that are kept. They share the blocks of the lent ones.
    pub fn kept(&self, alloc: Global) -> Result<Reference<Name>, AllocError>
        ensures { IfOk result (λ kept. kept ≡ self.now) }
    {
        Ok(Reference {
            itf: self.itf,
            owner: self.owner.copy(alloc)?,
            name: self.name.copy(alloc)?,
            ty: self.ty.copy(alloc)?,
        })
    }
}

impl Reference<Name> {
    /// This reference with names that are lent. Takes no memory.
    pub fn lent(&self) -> Reference<LentName<'_>>
        ensures { result ≡ self.now }
    {
        Reference {
            itf: self.itf,
            owner: LentName::of(&self.owner),
            name: LentName::of(&self.name),
            ty: LentName::of(&self.ty),
        }
    }

    /// A copy of the reference, whose names share their blocks with this one's.
    pub fn copy(&self, alloc: Global) -> Result<Self, AllocError>
        ensures { IfOk result (λ copy. copy ≡ self.now) }
    {
        self.lent().kept(alloc)
    }
}

/// A call site as an InvokeDynamic gives it (JVMS SE 17 §4.4.10): a number among the bootstrap methods, a name and a descriptor.
#[derive(Debug, Drop)]
pub struct CallSiteSpecifier<T> {
    pub bootstrap: u16,
    pub name: T,
    pub ty: T,
}

impl<'a> CallSiteSpecifier<LentName<'a>> {
    /// This specifier with names that are kept. They share the blocks of the lent ones.
    pub fn kept(&self, alloc: Global) -> Result<CallSiteSpecifier<Name>, AllocError>
        ensures { IfOk result (λ kept. kept ≡ self.now) }
    {
        Ok(CallSiteSpecifier {
            bootstrap: self.bootstrap,
            name: self.name.copy(alloc)?,
            ty: self.ty.copy(alloc)?,
        })
    }
}

impl CallSiteSpecifier<Name> {
    /// This specifier with names that are lent. Takes no memory.
    pub fn lent(&self) -> CallSiteSpecifier<LentName<'_>>
        ensures { result ≡ self.now }
    {
        CallSiteSpecifier {
            bootstrap: self.bootstrap,
            name: LentName::of(&self.name),
            ty: LentName::of(&self.ty),
        }
    }

    /// A copy of the specifier, whose names share their blocks with this one's.
    pub fn copy(&self, alloc: Global) -> Result<Self, AllocError>
        ensures { IfOk result (λ copy. copy ≡ self.now) }
    {
        self.lent().kept(alloc)
    }
}
