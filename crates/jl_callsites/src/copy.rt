//! A copy of the call sites and switch points.

ghost use Rattle.std.specs.Prelude.{◌≡◌, IfOk};

use crate::call_site::CallSite;
use crate::sites::Sites;
use jl_types::{Part, Target};
use std::alloc::{AllocError, Global};

impl Sites {
    /// A copy of the call sites and switch points.
    pub fn copy(&self, alloc: Global) -> Result<Sites, AllocError>
        ensures { IfOk result (λ copy. copy ≡ self.now) }
    {
        Ok(Sites {
            call_sites: copy_call_sites(alloc, self.call_sites.as_slice())?,
            switches: self.switches.as_slice().to_vec(alloc)?,
        })
    }
}

/// A copy of the call sites.
fn copy_call_sites(
    alloc: Global,
    call_sites: &[Option<CallSite>],
) -> Result<Vec<Option<CallSite>>, AllocError>
    ensures { IfOk result (λ made. made.items ≡ call_sites.now) }
{
    let mut made = Vec::with_capacity(alloc, call_sites.len())?;
    for row in call_sites {
        made.push(copy_row(alloc, row)?)?;
    }
    Ok(made)
}

/// A copy of the call site, unless it is released.
fn copy_row(alloc: Global, row: &Option<CallSite>) -> Result<Option<CallSite>, AllocError>
    ensures { IfOk result (λ copy. copy ≡ row.now) }
{
    match row {
        Some(site) => Ok(Some(site.copy(alloc)?)),
        None => Ok(None),
    }
}

/// A copy of the target. It recurses as deep as the target, and no call site has one that is deeper than 64.
pub fn copy_target(alloc: Global, target: &Target) -> Result<Target, AllocError>
    ensures { IfOk result (λ copy. copy ≡ target.now) }
{
    match &target.part {
        Part::Method(method) => Ok(Target::method(*method)),
        Part::Guard(point, first, fallback) => {
            let first = Box::new(alloc, copy_target(alloc, first)?)?;
            let fallback = Box::new(alloc, copy_target(alloc, fallback)?)?;
            Ok(Target::guard(*point, first, fallback))
        }
        Part::Invoker(site) => Ok(Target::invoker(*site)),
    }
}
