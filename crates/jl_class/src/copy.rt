//! A copy of what is kept of a class file.

ghost use Rattle.std.specs.Prelude.{◌≡◌, IfOk, option_copied};

use crate::class::ClassFile;
use jl_names::{Name, Seq};
use std::alloc::{AllocError, Global};
use std::sync::Arc;

impl ClassFile {
    /// A copy of the class file, which shares its methods and the bytes of its constants with this one. Want of memory is an error,
    /// and so are more copies than can be counted.
    pub fn copy(&self, alloc: Global) -> Result<ClassFile, AllocError>
        ensures { IfOk result (λ copy. copy ≡ self.now) }
    {
        let (name, superclass, interfaces) = self.copy_names(alloc)?;
        let (nest_host, nest_members) = self.copy_nest(alloc)?;
        Ok(ClassFile {
            kept: Arc::try_clone(&self.kept)?,
            name,
            flags: self.flags,
            superclass,
            interfaces,
            nest_host,
            nest_members,
        })
    }

    /// Copies of its name and of its parents' names.
    fn copy_names(&self, alloc: Global) -> Result<(Name, Option<Name>, Seq<Name>), AllocError>
        ensures { IfOk result (λ names. names ≡ (self.now.name, self.now.superclass, self.now.interfaces)) }
    {
        let name = self.name.copy(alloc)?;
        let superclass = copy_if_any(alloc, self.superclass.as_ref())?;
        let interfaces = copy_each(alloc, self.interfaces.as_slice())?;
        Ok((name, superclass, interfaces))
    }

    /// Copies of the names of its nest host and members.
    fn copy_nest(&self, alloc: Global) -> Result<(Option<Name>, Seq<Name>), AllocError>
        ensures { IfOk result (λ nest. nest ≡ (self.now.nest_host, self.now.nest_members)) }
    {
        let host = copy_if_any(alloc, self.nest_host.as_ref())?;
        let members = copy_each(alloc, self.nest_members.as_slice())?;
        Ok((host, members))
    }
}

/// A copy of the name, if there is one.
fn copy_if_any(alloc: Global, name: Option<&Name>) -> Result<Option<Name>, AllocError>
    ensures { IfOk result (λ copy. copy ≡ option_copied name.entry) }
{
    match name {
        Some(name) => Ok(Some(name.copy(alloc)?)),
        None => Ok(None),
    }
}

/// Copies of the names, in order.
fn copy_each(alloc: Global, names: &[Name]) -> Result<Seq<Name>, AllocError>
    ensures { IfOk result (λ copy. copy ≡ names.now) }
{
    let mut copies = Vec::with_capacity(alloc, names.len())?;
    for name in names {
        copies.push(name.copy(alloc)?)?;
    }
    Ok(Seq::of(copies))
}
