//! Times definitions with snapshots between them. The last class files are batches of definitions by a core:
//!
//! - without a snapshot;
//! - with one snapshot that is held through all;
//! - with a snapshot after each definition, of which none, one and two are held.

use crate::fill::define_each;
use crate::told::{number_or, tell};
use jl_core::Core;
use jl_relink::Snapshot;
use std::alloc::{AllocError, Global};
use std::io;
use std::time::Instant;

/// How many classes are timed at a time, if no word says it.
const BATCH: u32 = 200;

/// How many of the classes are defined, with a snapshot after each, of which so many are held: if there are more, the first goes.
fn define_between(
    alloc: Global,
    core: &mut Core,
    files: &[Vec<u8>],
    held: &mut Vec<Snapshot>,
    most: usize,
) -> Result<u64, AllocError> {
    let mut defined = 0u64;
    for file in files.chunks(1) {
        defined = defined.saturating_add(define_each(alloc, core, file));
        held.push(core.snapshot(alloc)?)?;
        if held.len() > most && !held.is_empty() {
            let _first = held.remove(0);
        }
    }
    Ok(defined)
}

/// Times the definition of the classes with what is held.
fn time_plain(rt: &HostRuntime, core: &mut Core, what: &str, files: &[Vec<u8>]) -> io::Result<()> {
    let start = Instant::now(rt)?;
    tell(rt, what, define_each(rt.alloc(), core, files), &start)
}

/// Times the definition of the classes with one snapshot that is held through all.
fn time_through(rt: &HostRuntime, core: &mut Core, files: &[Vec<u8>]) -> io::Result<()> {
    let held = core.snapshot(rt.alloc())?;
    time_plain(rt, core, "definitions with a snapshot held through", files)?;
    let start = Instant::now(rt)?;
    tell(rt, "events before that snapshot", held.serial(), &start)
}

/// Times the definition of the classes with a snapshot after each.
fn time_between(
    rt: &HostRuntime,
    core: &mut Core,
    files: &[Vec<u8>],
    most: usize,
) -> io::Result<()> {
    let mut held = Vec::new(rt.alloc());
    let start = Instant::now(rt)?;
    let defined = define_between(rt.alloc(), core, files, &mut held, most)?;
    tell(
        rt,
        "definitions with a snapshot after each",
        defined,
        &start,
    )
}

/// Measures all of it.
pub(crate) fn measure(rt: &HostRuntime, files: &[Vec<u8>], words: &[String]) -> io::Result<()> {
    let size = number_or(words, 1, BATCH).max(1) as usize;
    let mut core = Core::new(rt.alloc(), 1)?;
    let last = files.len().min(size.saturating_mul(5));
    let (most, rest) = files.split_at(files.len() - last);
    let (plain, rest) = rest.split_at(rest.len().min(size));
    let (through, between) = rest.split_at(rest.len().min(size));
    time_plain(rt, &mut core, "definitions before", most)?;
    time_plain(rt, &mut core, "definitions without a snapshot", plain)?;
    time_through(rt, &mut core, through)?;
    for (most, batch) in between.chunks(size).enumerate() {
        time_between(rt, &mut core, batch, most)?;
    }
    Ok(())
}
