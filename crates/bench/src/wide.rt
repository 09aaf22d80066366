//! Times preparations of so many sites, the second word, in one thread and in several, in so many rounds, the third word.

use crate::fill::fill;
use crate::input::Input;
use crate::link::sites_from;
use crate::told::{number_or, tell};
use jl_core::Core;
use jl_relink::{Prepared, Snapshot, prepare, prepare_wide};
use jl_types::{PrepareFault, SiteNo};
use std::io;
use std::thread::Threads;
use std::time::Instant;

/// How many links there are.
fn count(prepared: &Result<Prepared, PrepareFault>) -> u64 {
    match prepared {
        Ok(prepared) => prepared.rows.as_slice().len() as u64,
        Err(_) => 0,
    }
}

/// Times both forms.
fn time_both(
    rt: &HostRuntime,
    handle: &(impl Threads + Sync),
    snapshot: &Snapshot,
    sites: &[SiteNo],
) -> io::Result<()> {
    let start = Instant::now(rt)?;
    let found = count(&prepare(rt.alloc(), snapshot, sites));
    tell(rt, "prepared by one thread", found, &start)?;
    let start = Instant::now(rt)?;
    let found = count(&prepare_wide(handle, rt.alloc(), snapshot, sites));
    tell(rt, "prepared by several", found, &start)
}

/// Measures all of it.
pub(crate) fn measure(
    rt: &HostRuntime,
    handle: &(impl Threads + Sync),
    input: &Input,
    words: &[String],
) -> io::Result<()> {
    let mut core = Core::new(rt.alloc(), input.max_sites())?;
    let most = fill(rt, &mut core, input)?;
    let sites = sites_from(rt.alloc(), number_or(words, 1, 256).min(most))?;
    let snapshot = core.snapshot(rt.alloc())?;
    for _ in 0..number_or(words, 2, 1) {
        time_both(rt, handle, &snapshot, sites.as_slice())?;
    }
    Ok(())
}
