//! What C asks of a renewal in steps.

ghost use Rattle.std.specs.Prelude.{◌≡◌, Option, None};
ghost use types.Logic.{sem};
ghost use Rattle.jl_host.specs.Linkers.{Opened};
ghost use Rattle.jl_host.specs.Renewals.{arrays_of, released_of};
ghost use Rattle.jl_host.specs.Renewing.{Renewing, IsBegin, IsTake, IsFill, IsFinish};
ghost use Rattle.linkd_c.specs.Handle.{linker_at, renewal_at, renewal_left, begun_left, finished_left, renewal_room, renewal_bytes, renewal_multiple};

use crate::handles::{Linkd, LinkdRenewal};
use jl_host::{Linker, Renewal, Told};
use std::alloc::Global;

/// The bytes of a renewal.
#[unsafe(no_mangle)]
pub extern "C" fn linkd_renewal_size() -> usize
    ensures { result ≡ renewal_bytes }
{
    std::mem::size_of::<Renewal>()
}

/// The number that a renewal's address is a multiple of.
#[unsafe(no_mangle)]
pub extern "C" fn linkd_renewal_align() -> usize
    ensures { result ≡ renewal_multiple }
{
    std::mem::align_of::<Renewal>()
}

/// Makes a renewal that hasn't begun of room for one.
#[unsafe(no_mangle)]
pub unsafe extern "C" fn linkd_renewal_blank(at: *mut LinkdRenewal)
    requires* { sem 𝓛 (renewal_room at) }
    ensures* { sem 𝓛 (renewal_at at None) }
{
    (at as *mut Renewal).write(Renewal::blank());
}

/// Begins a renewal of the linker as it is now.
#[unsafe(no_mangle)]
pub unsafe extern "C" fn linkd_renewal_begin_with(
    alloc: Global,
    at: *mut LinkdRenewal,
    from: *mut Linkd,
    max_sites: u32,
    released_call_sites: &[u32],
    released_switches: &[u32],
) -> u32
    ghost old: { Option Renewing × Option Opened }
    requires* renewal { sem 𝓛 (renewal_at at old.0) }
    requires* linker { sem 𝓛 (linker_at from old.1) }
    ensures* { sem 𝓛 (begun_left at from (λ new. IsBegin (released_of released_call_sites.now released_switches.now) max_sites old.0 old.1 result
        new.0 new.1)) }
{
    (*(at as *mut Renewal)).begin(
        alloc,
        &mut *(from as *mut Linker),
        max_sites,
        released_call_sites,
        released_switches,
    )
}

/// Takes the next of the events that the linker has accepted since the begin, and tells how many are left.
#[unsafe(no_mangle)]
pub unsafe extern "C" fn linkd_renewal_take(
    alloc: Global,
    at: *mut LinkdRenewal,
    from: *mut Linkd,
    most: usize,
    left: &mut usize,
) -> u32
    ghost old: { Option Renewing × Option Opened }
    requires* renewal { sem 𝓛 (renewal_at at old.0) }
    requires* linker { sem 𝓛 (linker_at from old.1) }
    ensures* { sem 𝓛 (begun_left at from (λ new. IsTake most old.0 old.1 left.old result left.new new.0 new.1)) }
{
    (*(at as *mut Renewal)).take(alloc, &mut *(from as *mut Linker), most, left)
}

/// Makes the fresh linker of what there was at the begin, and carries over what was taken. Takes no lock.
#[unsafe(no_mangle)]
pub unsafe extern "C" fn linkd_renewal_fill(
    alloc: Global,
    at: *mut LinkdRenewal,
    told: &mut Told,
) -> u32
    ghost old: { Option Renewing }
    requires* { sem 𝓛 (renewal_at at old) }
    ensures* { sem 𝓛 (renewal_left at (λ new. IsFill old result told.new new)) }
{
    (*(at as *mut Renewal)).fill(alloc, told)
}

/// Carries over what is left, opens the other linker over what was made, and writes the new numbers.
#[unsafe(no_mangle)]
pub unsafe extern "C" fn linkd_renewal_finish_into(
    alloc: Global,
    at: *mut LinkdRenewal,
    from: *mut Linkd,
    fresh: *mut Linkd,
    told: &mut Told,
    loaders: &mut [u32],
    classes: &mut [u32],
    sites: &mut [u32],
    call_sites: &mut [u32],
    switches: &mut [u32],
) -> u32
    ghost old: { Option Renewing × Option Opened × Option Opened }
    requires* renewal { sem 𝓛 (renewal_at at old.0) }
    requires* linker { sem 𝓛 (linker_at from old.1) }
    requires* fresh { sem 𝓛 (linker_at fresh old.2) }
    ensures* { sem 𝓛 (finished_left at from fresh (λ new. IsFinish old.0 old.1 old.2
        (arrays_of loaders.old classes.old sites.old call_sites.old switches.old) result told.new new.0 new.1 new.2
        (arrays_of loaders.new classes.new sites.new call_sites.new switches.new))) }
{
    (*(at as *mut Renewal)).finish(
        alloc,
        &mut *(from as *mut Linker),
        &mut *(fresh as *mut Linker),
        told,
        loaders,
        classes,
        sites,
        call_sites,
        switches,
    )
}

/// Lets go what was made. The renewal hasn't begun then.
#[unsafe(no_mangle)]
pub unsafe extern "C" fn linkd_renewal_leave(at: *mut LinkdRenewal)
    ghost old: { Option Renewing }
    requires* { sem 𝓛 (renewal_at at old) }
    ensures* { sem 𝓛 (renewal_left at (λ new. new ≡ None)) }
{
    (*(at as *mut Renewal)).leave();
}
