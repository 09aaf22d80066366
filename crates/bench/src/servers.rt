//! The calls of a link server whose growths may be refused.

use crate::answers::{Called, tell_memory, tell_state, told};
use crate::cores::{receiver, told_prepared, told_refusal, told_reply};
use crate::deeds::{Ask, Change, event};
use crate::marks::{add, add_world};
use crate::watch::Watched;
use jl_relink::{Snapshot, prepare};
use jl_server::{Caller, LinkServer, Name};
use jl_types::{ClassId, Recv, SiteNo};
use std::io::{self, ErrorKind};
use std::sync::Wait;

/// A server that is watched, and its one caller.
pub(crate) struct OnServer<K: Name, S: Wait + Drop> {
    handle: S,
    server: LinkServer<K, S>,
    caller: Caller<K>,
    /// Whether snapshots hold the world and the one before while an event is applied.
    shares: bool,
    /// The world before the last event, if snapshots are held.
    held: Option<Snapshot>,
}

/// Written out, so that what drops one makes one call of it and doesn't take apart what it holds.
impl<K: Name, S: Wait + Drop> Drop for OnServer<K, S> {
    fn drop(self) {
        let OnServer {
            handle: _handle,
            server: _server,
            caller: _caller,
            shares: _shares,
            held: _held,
        } = self;
    }
}

/// A look at a part of the state.
#[derive(Clone, Copy)]
enum Look {
    Links,
    World,
}

impl<K: Name, S: Wait + Drop> OnServer<K, S> {
    pub(crate) fn new(
        handle: S,
        server: LinkServer<K, S>,
        caller: Caller<K>,
        shares: bool,
    ) -> Self {
        OnServer {
            handle,
            server,
            caller,
            shares,
            held: None,
        }
    }

    /// Applies the event of the change.
    fn apply_change(
        &mut self,
        rt: &HostRuntime,
        called: Called,
        change: &Change,
    ) -> io::Result<bool> {
        let event = event(rt.alloc(), change)?;
        match &self
            .caller
            .apply(&self.handle, rt.alloc(), &self.server, event)
        {
            Ok(receipt) => told_reply(rt, called, &receipt.reply),
            Err(denied) => told_refusal(rt, called, &denied.refusal),
        }
    }

    /// Applies the event of the change while a snapshot holds the world and another one the world before. If the event is answered, the
    /// first snapshot takes the place of the other one.
    fn apply_shared(
        &mut self,
        rt: &HostRuntime,
        called: Called,
        change: &Change,
    ) -> io::Result<bool> {
        let (snapshot, _seen) = self
            .caller
            .snapshot(&self.handle, rt.alloc(), &self.server)?;
        let lacks = self.apply_change(rt, called, change)?;
        if !lacks {
            self.held = Some(snapshot);
        }
        Ok(lacks)
    }

    /// A preparation of site 0 in a snapshot.
    fn prepare(&mut self, rt: &HostRuntime, called: Called) -> io::Result<bool> {
        let sites = [SiteNo::new(0)];
        match &self.caller.snapshot(&self.handle, rt.alloc(), &self.server) {
            Ok((snapshot, _seen)) => {
                told_prepared(rt, called, &prepare(rt.alloc(), snapshot, sites.as_slice()))
            }
            Err(_) => Err(ErrorKind::OutOfMemory.into()),
        }
    }

    /// Adds what is looked at: the installed links, or the world as a snapshot has it. Gives whether there was no memory.
    fn look(&mut self, rt: &HostRuntime, look: Look, text: &mut String) -> io::Result<bool> {
        match look {
            Look::Links => match &self
                .server
                .links(&self.handle, rt.alloc(), &mut self.caller)
            {
                Ok(list) => {
                    add(text, list)?;
                    Ok(false)
                }
                Err(_) => Ok(true),
            },
            Look::World => match &self.caller.snapshot(&self.handle, rt.alloc(), &self.server) {
                Ok((snapshot, seen)) => {
                    add(text, &(snapshot.serial(), seen.serial()))?;
                    add_world(text, snapshot.world())?;
                    Ok(false)
                }
                Err(_) => Ok(true),
            },
        }
    }

    /// Adds what is looked at. If there was no memory, it prints that, and whether the caller has seen what it had, and looks once more.
    fn look_twice(
        &mut self,
        rt: &HostRuntime,
        look: Look,
        deed: &'static str,
        text: &mut String,
    ) -> io::Result<()> {
        let called = Called {
            of: self.name(),
            deed,
        };
        let serial = self.caller.seen().serial();
        if self.look(rt, look, text)? {
            tell_memory(rt, called)?;
            tell_state(rt, called, self.caller.seen().serial() == serial)?;
            if self.look(rt, look, text)? {
                return Err(ErrorKind::OutOfMemory.into());
            }
        }
        Ok(())
    }
}

impl<K: Name, S: Wait + Drop> Watched for OnServer<K, S> {
    fn name(&self) -> &'static str {
        if self.shares {
            "server beside snapshots"
        } else {
            "server"
        }
    }

    fn mark(&mut self, rt: &HostRuntime, text: &mut String) -> io::Result<()> {
        add(text, &self.caller.seen().serial())?;
        for class in 0..6u32 {
            let receiver = Recv::Of(ClassId::new(class));
            add(text, &self.caller.call(SiteNo::new(0), receiver))?;
        }
        self.look_twice(rt, Look::Links, "a look at the links", text)?;
        self.look_twice(rt, Look::World, "a look at the world", text)
    }

    fn apply(&mut self, rt: &HostRuntime, called: Called, change: &Change) -> io::Result<bool> {
        if self.shares {
            self.apply_shared(rt, called, change)
        } else {
            self.apply_change(rt, called, change)
        }
    }

    fn ask(&mut self, rt: &HostRuntime, called: Called, ask: &Ask) -> io::Result<bool> {
        match ask {
            Ask::Links => match &self
                .server
                .links(&self.handle, rt.alloc(), &mut self.caller)
            {
                Ok(list) => told(rt, called, &list.rows.as_slice()),
                Err(_) => Ok(true),
            },
            Ask::Snapshot => match &self.caller.snapshot(&self.handle, rt.alloc(), &self.server) {
                Ok((snapshot, _seen)) => told(rt, called, &("events", snapshot.serial())),
                Err(_) => Ok(true),
            },
            Ask::Prepare => self.prepare(rt, called),
            Ask::Call(class) => {
                told(
                    rt,
                    called,
                    &self.caller.call(SiteNo::new(0), receiver(*class)),
                )
            }
            Ask::Apply(change) => self.apply(rt, called, change),
        }
    }
}
