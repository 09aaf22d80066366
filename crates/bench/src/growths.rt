//! Makes calls that take memory, and prints what each is answered:
//!
//! - readings of class files;
//! - the events, links, snapshots and preparations of a core and of a link server;
//! - the parts of a server for many callers;
//! - a preparation by several threads.
//!
//! A call that is answered Memory is printed as such, with whether all that is seen of the state is as it was before, and is made once
//! more. A reading has no state, nor have the last two. If there was no memory outside the calls, or twice in a row, the exit status is 4.

ghost use Rattle.std.specs.Prelude.{◌≡◌};

use crate::cores::{OnCore, Way};
use crate::deeds::{Deed, GUARDS, RECEIVERS, RETIREMENT};
use crate::fresh::{make_parts, prepare_in_threads};
use crate::marks::SITES;
use crate::readings::read_all;
use crate::servers::OnServer;
use crate::watch::watch_all;
use jl_server::{Caller, LinkServer, Name, Parts};
use std::io::{self, ErrorKind};
use std::marker::Brand;
use std::sync::Wait;
use std::thread::Threads;

const WAYS: [Way; 3] = [Way::Follows, Way::Copies, Way::Shares];

/// Asks a core.
fn ask_core(rt: &HostRuntime, way: Way, deeds: &[Deed]) -> io::Result<()> {
    let mut core = OnCore::new(rt, way)?;
    watch_all(rt, &mut core, deeds)
}

/// Asks a server by its caller.
fn ask_caller<K: Name, S: Wait + Drop>(
    rt: &HostRuntime,
    handle: S,
    server: LinkServer<K, S>,
    callers: Vec<Caller<K>>,
    shares: bool,
    deeds: &[Deed],
) -> io::Result<()> {
    let mut callers = callers;
    match callers.pop() {
        Some(caller) => {
            let mut server = OnServer::new(handle, server, caller, shares);
            watch_all(rt, &mut server, deeds)
        }
        None => Ok(()),
    }
}

/// Asks the server of these parts, under a name.
fn ask_server<K: Name, H: Wait>(
    rt: &HostRuntime,
    handle: &H,
    parts: Parts,
    shares: bool,
    deeds: &[Deed],
) -> io::Result<()>
    requires book { parts.book ≡ K.book }
    requires limits { parts.limits ≡ K.limits }
{
    match parts.start::<K, &H>(rt.alloc(), handle) {
        Ok((server, callers)) => ask_caller(rt, handle, server, callers, shares, deeds),
        Err(_) => Err(ErrorKind::OutOfMemory.into()),
    }
}

/// Asks a server.
fn ask_new_server(
    rt: &HostRuntime,
    handle: &impl Wait,
    shares: bool,
    deeds: &[Deed],
) -> io::Result<()> {
    match Parts::new(rt.alloc(), SITES, 1) {
        Ok(parts) => ask_server::<Brand, _>(rt, handle, parts, shares, deeds),
        Err(_) => Err(ErrorKind::OutOfMemory.into()),
    }
}

/// Asks cores and servers.
fn ask_all(rt: &HostRuntime, handle: &impl Wait, deeds: &[Deed]) -> io::Result<()> {
    for way in &WAYS {
        ask_core(rt, *way, deeds)?;
    }
    ask_new_server(rt, handle, false, deeds)?;
    ask_new_server(rt, handle, true, deeds)
}

/// All calls.
pub(crate) fn call_all(rt: &HostRuntime, handle: &(impl Threads + Wait + Sync)) -> io::Result<()> {
    read_all(rt)?;
    make_parts(rt, handle)?;
    prepare_in_threads(rt, handle)?;
    ask_all(rt, handle, RECEIVERS)?;
    ask_all(rt, handle, GUARDS)?;
    ask_all(rt, handle, RETIREMENT)
}
