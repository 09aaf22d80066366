//! Calls whose growths may be refused that have nothing to leave as it was: the parts of a server for as many callers as there may be, and a
//! preparation by several threads.

ghost use Rattle.std.specs.Prelude.{◌≡◌};

use crate::answers::{Called, tell_memory, told, told_link};
use crate::deeds::{Change, event};
use crate::files::{A, B, C, M, OBJECT};
use crate::marks::SITES;
use jl_core::Core;
use jl_relink::{Snapshot, prepare_wide};
use jl_server::{Name, Parts};
use jl_types::{PrepareFault, SiteNo};
use std::io::{self, ErrorKind};
use std::marker::Brand;
use std::sync::Wait;
use std::thread::Threads;

/// The most callers that a server may have.
const CALLERS: usize = 64;

/// Site 0 on A.f, with A and B below it, and with C, which declares f again, so that each receiver is looked at.
const CHANGES: [Change; 6] = [
    Change::Define(0, OBJECT),
    Change::Define(0, A),
    Change::Define(0, B),
    Change::Define(0, M),
    Change::Define(0, C),
    Change::Request((3, 0)),
];

const PARTS: Called = Called {
    of: "parts",
    deed: "for 64 callers",
};

const WIDE: Called = Called {
    of: "snapshot",
    deed: "preparation by several threads",
};

/// Starts the server of these parts, under a name, and lets it go.
fn start<K: Name, H: Wait>(rt: &HostRuntime, handle: &H, parts: Parts) -> io::Result<bool>
    requires book { parts.book ≡ K.book }
    requires limits { parts.limits ≡ K.limits }
{
    match &parts.start::<K, &H>(rt.alloc(), handle) {
        Ok((_server, callers)) => told(rt, PARTS, &callers.len()),
        Err(_) => Err(ErrorKind::OutOfMemory.into()),
    }
}

/// Makes the parts of a server, and starts it. Gives whether there was no memory for the parts.
fn make(rt: &HostRuntime, handle: &impl Wait) -> io::Result<bool> {
    match Parts::new(rt.alloc(), SITES, CALLERS) {
        Ok(parts) => start::<Brand, _>(rt, handle, parts),
        Err(_) => Ok(true),
    }
}

/// Makes the parts of a server, and starts it, and does so once more if there was no memory.
pub(crate) fn make_parts(rt: &HostRuntime, handle: &impl Wait) -> io::Result<()> {
    if make(rt, handle)? {
        tell_memory(rt, PARTS)?;
        if make(rt, handle)? {
            return Err(ErrorKind::OutOfMemory.into());
        }
    }
    Ok(())
}

/// Applies the events. Want of memory and a refusal are errors.
fn apply_all(rt: &HostRuntime, core: &mut Core) -> io::Result<()> {
    for change in &CHANGES {
        let event = event(rt.alloc(), change)?;
        if core.apply(rt.alloc(), event).is_err() {
            return Err(ErrorKind::OutOfMemory.into());
        }
    }
    Ok(())
}

/// Prepares site 0 and prints its link, and gives whether there was no memory.
fn prepare(
    rt: &HostRuntime,
    handle: &(impl Threads + Sync),
    snapshot: &Snapshot,
) -> io::Result<bool> {
    match &prepare_wide(handle, rt.alloc(), snapshot, [SiteNo::new(0)].as_slice()) {
        Ok(prepared) => match prepared.rows.as_slice().first() {
            Some((site, link)) => told_link(rt, WIDE, *site, link),
            None => Ok(false),
        },
        Err(PrepareFault::Memory) => Ok(true),
        Err(fault) => told(rt, WIDE, fault),
    }
}

/// Prepares site 0 and prints its link, and does so once more if there was no memory.
fn prepare_twice(
    rt: &HostRuntime,
    handle: &(impl Threads + Sync),
    snapshot: &Snapshot,
) -> io::Result<()> {
    if prepare(rt, handle, snapshot)? {
        tell_memory(rt, WIDE)?;
        if prepare(rt, handle, snapshot)? {
            return Err(ErrorKind::OutOfMemory.into());
        }
    }
    Ok(())
}

/// Prepares it in a snapshot of a core.
pub(crate) fn prepare_in_threads(
    rt: &HostRuntime,
    handle: &(impl Threads + Sync),
) -> io::Result<()> {
    let mut core = Core::new(rt.alloc(), SITES)?;
    apply_all(rt, &mut core)?;
    match &core.snapshot(rt.alloc()) {
        Ok(snapshot) => prepare_twice(rt, handle, snapshot),
        Err(_) => Err(ErrorKind::OutOfMemory.into()),
    }
}
