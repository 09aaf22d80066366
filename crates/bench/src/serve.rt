//! A link server whose first caller defines the classes of the input and requests its places.

ghost use Rattle.std.specs.Prelude.{◌≡◌};

use crate::fill::{Takes, fill};
use crate::input::Input;
use crate::told::number_or;
use crate::{call, farm};
use jl_class::ClassFile;
use jl_server::{Caller, LinkServer, Name, Parts};
use jl_types::{Event, LoaderId, Place};
use std::alloc::Global;
use std::io::{self, ErrorKind};
use std::marker::Brand;
use std::sync::Wait;
use std::thread::Threads;

/// The most workers or threads.
const MOST: u32 = 16;

/// A caller with its server, and what it waits by.
pub(crate) struct Desk<K: Name, S: Wait + Drop> {
    pub(crate) handle: S,
    pub(crate) server: LinkServer<K, S>,
    pub(crate) caller: Caller<K>,
}

/// Written out, so that what drops one makes one call of it and doesn't take apart what it holds.
impl<K: Name, S: Wait + Drop> Drop for Desk<K, S> {
    fn drop(self) {
        let Desk {
            handle: _handle,
            server: _server,
            caller: _caller,
        } = self;
    }
}

impl<K: Name, S: Wait + Drop> Desk<K, S> {
    /// Whether the event is accepted.
    fn accepts(&mut self, alloc: Global, event: Event) -> bool {
        self.caller
            .apply(&self.handle, alloc, &self.server, event)
            .is_ok()
    }
}

impl<K: Name, S: Wait + Drop> Takes for Desk<K, S> {
    fn defines(&mut self, alloc: Global, file: ClassFile) -> bool {
        self.accepts(alloc, Event::Define(LoaderId::new(0), file))
    }

    fn requests(&mut self, alloc: Global, place: Place) -> bool {
        self.accepts(alloc, Event::Request(place))
    }
}

/// Does what the words say at the server, whose other callers these are.
fn work<K: Name + Send + Sync, R: Threads + Wait + Sync, S: Wait + Drop + Send + Sync>(
    rt: &HostRuntime,
    handle: &R,
    desk: &mut Desk<K, S>,
    callers: Vec<Caller<K>>,
    input: &Input,
    words: &[String],
) -> io::Result<()> {
    let sites = fill(rt, desk, input)?;
    match words.get(0).map(|word| word.as_str()) {
        Some("farm") => farm::measure(rt, handle, desk, callers, sites, number_or(words, 2, 1)),
        _ => call::measure(rt, handle, desk, callers, sites, words),
    }
}

/// Has the last caller do the first work.
fn open<K: Name + Send + Sync, R: Threads + Wait + Sync, S: Wait + Drop + Send + Sync>(
    rt: &HostRuntime,
    handle: &R,
    own: S,
    server: LinkServer<K, S>,
    callers: Vec<Caller<K>>,
    input: &Input,
    words: &[String],
) -> io::Result<()> {
    let mut callers = callers;
    match callers.pop() {
        Some(caller) => {
            let mut desk = Desk {
                handle: own,
                server,
                caller,
            };
            work(rt, handle, &mut desk, callers, input, words)
        }
        None => Ok(()),
    }
}

/// Starts the server of these parts, under a name.
fn start<K: Name + Send + Sync, R: Threads + Wait + Sync>(
    rt: &HostRuntime,
    handle: &R,
    parts: Parts,
    input: &Input,
    words: &[String],
) -> io::Result<()>
    requires book { parts.book ≡ K.book }
    requires limits { parts.limits ≡ K.limits }
{
    match parts.start::<K, &R>(rt.alloc(), handle) {
        Ok((server, callers)) => open(rt, handle, handle, server, callers, input, words),
        Err(_) => Err(ErrorKind::OutOfMemory.into()),
    }
}

/// Measures what the words say.
pub(crate) fn measure<R: Threads + Wait + Sync>(
    rt: &HostRuntime,
    handle: &R,
    input: &Input,
    words: &[String],
) -> io::Result<()> {
    let workers = number_or(words, 1, 1);
    let sites = number_or(words, 5, input.max_sites());
    if workers > MOST || sites < 1 {
        return Ok(());
    }
    match Parts::new(rt.alloc(), sites, workers as usize + 1) {
        Ok(parts) => start::<Brand, R>(rt, handle, parts, input, words),
        Err(_) => Err(ErrorKind::OutOfMemory.into()),
    }
}
