//! What C asks of the work that events take.

ghost use Rattle.std.specs.Prelude.{Option};
ghost use types.Logic.{sem};
ghost use Rattle.jl_host.specs.Linkers.{Opened};
ghost use Rattle.jl_host.specs.Asking.{IsLastWork, IsCatchUp};
ghost use Rattle.linkd_c.specs.Handle.{linker_at, linker_left};

use crate::handles::Linkd;
use jl_host::Linker;
use std::alloc::Global;

/// How much the last accepted event took. Takes no memory.
#[unsafe(no_mangle)]
pub unsafe extern "C" fn linkd_last_work(at: *mut Linkd, work: &mut u64) -> u32
    ghost old: { Option Opened }
    requires* { sem 𝓛 (linker_at at old) }
    ensures* { sem 𝓛 (linker_left at (λ new. IsLastWork old work.old result work.new new)) }
{
    (*(at as *mut Linker)).last_work(work)
}

/// Does the last event's work in the second instance of what the linker keeps, so that the next event doesn't pay for it.
#[unsafe(no_mangle)]
pub unsafe extern "C" fn linkd_catch_up(alloc: Global, at: *mut Linkd) -> u32
    ghost old: { Option Opened }
    requires* { sem 𝓛 (linker_at at old) }
    ensures* { sem 𝓛 (linker_left at (λ new. IsCatchUp old result new)) }
{
    (*(at as *mut Linker)).catch_up(alloc)
}
