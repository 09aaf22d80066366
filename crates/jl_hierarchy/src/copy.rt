//! A copy of the classes.

ghost use Rattle.std.specs.Prelude.{◌≡◌, IfOk};
ghost use Rattle.jl_hierarchy.specs.ForProofs.Kept.{lists};

use crate::ancestor_list::AncestorList;
use crate::classes::Classes;
use crate::loader::Loader;
use crate::receiving::Receivers;
use crate::row::Row;
use indexmap::IndexSet;
use jl_pages::Paged;
use jl_types::LoaderId;
use std::alloc::{AllocError, Global};
use std::sync::Arc;

impl Classes {
    /// A copy of the classes, which shares with them the classes themselves, what loaders have recorded, and the marks. Want of memory
    /// is an error, and so are too many copies.
    pub fn copy(&self, alloc: Global) -> Result<Classes, AllocError>
        ensures { IfOk result (λ copy. copy ≡ self.now) }
    {
        let marks = Arc::try_clone(&self.marks)?;
        let (loaders, retired) = copy_loaders_and_retired(alloc, &self.loaders, &self.retired)?;
        let (rows, above) = copy_rows_and_ancestors(alloc, &self.rows, &self.above)?;
        Ok(Classes {
            loaders,
            rows,
            above,
            below: copy_below(alloc, self.below.as_slice())?,
            retired,
            marks,
            are_superclass_chains: self.are_superclass_chains,
        })
    }
}

/// Copies of the loaders, and a copy of the set of retired ones.
fn copy_loaders_and_retired(
    alloc: Global,
    loaders: &Vec<Loader>,
    retired: &IndexSet<LoaderId>,
) -> Result<(Vec<Loader>, IndexSet<LoaderId>), AllocError>
    ensures { IfOk result (λ made. (made.0.items ≡ loaders.now.items) × (made.1.keys ≡ retired.now.keys)) }
{
    let loaders = copy_loaders(alloc, loaders.as_slice())?;
    Ok((loaders, retired.clone()?))
}

/// Copies of the list of classes and of the list of their ancestors.
fn copy_rows_and_ancestors(
    alloc: Global,
    rows: &Paged<Row>,
    above: &Paged<AncestorList>,
) -> Result<(Paged<Row>, Paged<AncestorList>), AllocError>
    ensures { IfOk result (λ made. (made.0.items ≡ rows.now.items) × (made.1.items ≡ above.now.items)) }
{
    let rows = rows.copy(alloc)?;
    Ok((rows, above.copy(alloc)?))
}

/// Copies of the loaders, which share what these have recorded.
fn copy_loaders(alloc: Global, loaders: &[Loader]) -> Result<Vec<Loader>, AllocError>
    ensures { IfOk result (λ made. made.items ≡ loaders.now) }
{
    let mut made = Vec::with_capacity(alloc, loaders.len())?;
    for loader in loaders {
        made.push(loader.copy()?)?;
    }
    Ok(made)
}

/// Copies of the lists of receivers.
fn copy_below(alloc: Global, below: &[Receivers]) -> Result<Vec<Receivers>, AllocError>
    ensures { IfOk result (λ made. lists made.items ≡ lists below.now) }
{
    let mut made = Vec::with_capacity(alloc, below.len())?;
    for receivers in below {
        made.push(receivers.as_slice().to_vec(alloc)?)?;
    }
    Ok(made)
}
