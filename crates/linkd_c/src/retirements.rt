//! What C lets go of a linker: loaders with their classes, call sites and switch points.

ghost use Rattle.std.specs.Prelude.{Option};
ghost use types.Logic.{sem};
ghost use Rattle.jl_host.specs.Linkers.{Opened, IsRetire, IsRetireAll, IsRelease};
ghost use Rattle.linkd_c.specs.Handle.{linker_at, linker_left};

use crate::handles::Linkd;
use jl_host::{Linker, Told};
use std::alloc::Global;

/// The loader goes, with the classes that it has defined and the sites in them (JLS SE 17 §12.7).
#[unsafe(no_mangle)]
pub unsafe extern "C" fn linkd_retire(
    alloc: Global,
    at: *mut Linkd,
    loader: u32,
    told: &mut Told,
) -> u32
    ghost old: { Option Opened }
    requires* { sem 𝓛 (linker_at at old) }
    ensures* { sem 𝓛 (linker_left at (λ new. IsRetire loader old result told.new new)) }
{
    (*(at as *mut Linker)).retire(alloc, loader, told)
}

/// The loaders go at once, with the classes that they have defined and the sites in them, all or none.
#[unsafe(no_mangle)]
pub unsafe extern "C" fn linkd_retire_all(
    alloc: Global,
    at: *mut Linkd,
    loaders: &[u32],
    told: &mut Told,
) -> u32
    ghost old: { Option Opened }
    requires* { sem 𝓛 (linker_at at old) }
    ensures* { sem 𝓛 (linker_left at (λ new. IsRetireAll loaders.now old result told.new new)) }
{
    (*(at as *mut Linker)).retire_all(alloc, loaders, told)
}

/// The call sites and the switch points go at once, all or none. The sites that are bound to these call sites are gone.
#[unsafe(no_mangle)]
pub unsafe extern "C" fn linkd_release(
    alloc: Global,
    at: *mut Linkd,
    call_sites: &[u32],
    points: &[u32],
    told: &mut Told,
) -> u32
    ghost old: { Option Opened }
    requires* { sem 𝓛 (linker_at at old) }
    ensures* { sem 𝓛 (linker_left at (λ new. IsRelease call_sites.now points.now old result told.new new)) }
{
    (*(at as *mut Linker)).release(alloc, call_sites, points, told)
}
