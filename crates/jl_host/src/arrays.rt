//! Arrays of a host.

ghost use Rattle.std.specs.Prelude.{◌≡◌, ◌≤◌, ◌++◌, length, drop, IfOk};
ghost use Rattle.jl_host.specs.Copies.{IsCopied};

use crate::told::{DONE, TOO_SHORT};
use jl_types::{CallSiteId, LoaderId, SiteNo, SwitchId};
use std::alloc::{AllocError, Global};

/// The sites of these numbers.
pub(crate) fn sites_from(alloc: Global, numbers: &[u32]) -> Result<Vec<SiteNo>, AllocError>
    ensures { IfOk result (λ sites. sites.items ≡ numbers.now) }
{
    let mut sites = Vec::with_capacity(alloc, numbers.len())?;
    for number in numbers {
        sites.push(SiteNo::new(*number))?;
    }
    Ok(sites)
}

/// The loaders of these numbers.
pub(crate) fn loaders_from(alloc: Global, numbers: &[u32]) -> Result<Vec<LoaderId>, AllocError>
    ensures { IfOk result (λ loaders. loaders.items ≡ numbers.now) }
{
    let mut loaders = Vec::with_capacity(alloc, numbers.len())?;
    for number in numbers {
        loaders.push(LoaderId::new(*number))?;
    }
    Ok(loaders)
}

/// The call sites of these numbers.
pub(crate) fn call_sites_from(alloc: Global, numbers: &[u32]) -> Result<Vec<CallSiteId>, AllocError>
    ensures { IfOk result (λ call_sites. call_sites.items ≡ numbers.now) }
{
    let mut call_sites = Vec::with_capacity(alloc, numbers.len())?;
    for number in numbers {
        call_sites.push(CallSiteId::new(*number))?;
    }
    Ok(call_sites)
}

/// The switch points of these numbers.
pub(crate) fn switches_from(alloc: Global, numbers: &[u32]) -> Result<Vec<SwitchId>, AllocError>
    ensures { IfOk result (λ switches. switches.items ≡ numbers.now) }
{
    let mut switches = Vec::with_capacity(alloc, numbers.len())?;
    for number in numbers {
        switches.push(SwitchId::new(*number))?;
    }
    Ok(switches)
}

/// Copies the numbers of the sites to the front of the array, if they fit there, and tells how many there are.
pub(crate) fn copy_sites(sites: &[SiteNo], out: &mut [u32], count: &mut usize) -> u32
    ensures { IsCopied sites.now out.old result out.new count.new }
{
    *count = sites.len();
    if sites.len() > out.len() {
        return TOO_SHORT;
    }
    write_sites(sites, out);
    DONE
}

/// Writes the numbers of the sites to the front of the array, which has room for them.
fn write_sites(sites: &[SiteNo], out: &mut [u32])
    requires { length sites.now ≤ length out.old }
    ensures { out.new ≡ sites.now ++ drop (length sites.now) out.old }
{
    for (place, site) in sites.iter().enumerate() {
        out[place] = site.number();
    }
}

/// Copies the text to the front of the array, if it fits there, and tells how long it is.
pub(crate) fn copy_text(text: &[u8], out: &mut [u8], count: &mut usize) -> u32
    ensures { IsCopied text.now out.old result out.new count.new }
{
    *count = text.len();
    if text.len() > out.len() {
        return TOO_SHORT;
    }
    out[..text.len()].copy_from_slice(text);
    DONE
}
