//! The calls of a core whose growths may be refused.

use crate::answers::{Called, told, told_link};
use crate::deeds::{Ask, Change, event};
use crate::marks::{SITES, add_core};
use crate::watch::Watched;
use jl_core::Core;
use jl_relink::{Prepared, Snapshot};
use jl_types::{ClassId, PrepareFault, Recv, Refusal, Reply, SiteNo};
use std::alloc::AllocError;
use std::io;

/// How an event is applied.
#[derive(Clone, Copy)]
pub(crate) enum Way {
    /// After the one before.
    Follows,
    /// After a plan of the same event was dropped, so that all that the core keeps is copied.
    Copies,
    /// While snapshots hold its world and the one before, so that both instances that the core keeps are to change a copy.
    Shares,
}

/// A core that is watched.
pub(crate) struct OnCore {
    core: Core,
    way: Way,
    /// The world before the last event, if snapshots are held.
    held: Option<Snapshot>,
}

/// Written out, so that what drops one makes one call of it and doesn't take apart what it holds.
impl Drop for OnCore {
    fn drop(self) {
        let OnCore {
            core: _core,
            way: _way,
            held: _held,
        } = self;
    }
}

impl OnCore {
    /// A core of no events.
    pub(crate) fn new(rt: &HostRuntime, way: Way) -> Result<OnCore, AllocError> {
        Ok(OnCore {
            core: Core::new(rt.alloc(), SITES)?,
            way,
            held: None,
        })
    }
}

/// Who is called on.
pub(crate) fn receiver(class: Option<u32>) -> Recv {
    match class {
        Some(class) => Recv::Of(ClassId::new(class)),
        None => Recv::Null,
    }
}

/// Prints the reply.
pub(crate) fn told_reply(rt: &HostRuntime, called: Called, reply: &Reply) -> io::Result<bool> {
    told(rt, called, &(reply.made, reply.dropped.as_slice()))
}

/// Prints the refusal if it isn't want of memory, and gives whether it is. Of a stale link it prints the site and its present link.
pub(crate) fn told_refusal(
    rt: &HostRuntime,
    called: Called,
    refusal: &Refusal,
) -> io::Result<bool> {
    match refusal {
        Refusal::Memory => Ok(true),
        Refusal::Stale { site, present } => told_link(rt, called, *site, present),
        other => told(rt, called, other),
    }
}

/// Prints what was prepared, or why not unless for want of memory, and gives whether it is that.
pub(crate) fn told_prepared(
    rt: &HostRuntime,
    called: Called,
    prepared: &Result<Prepared, PrepareFault>,
) -> io::Result<bool> {
    match prepared {
        Ok(Prepared { serial: _, rows }) => told(rt, called, &rows.as_slice()),
        Err(PrepareFault::Memory) => Ok(true),
        Err(fault) => told(rt, called, fault),
    }
}

/// Applies the event of the change.
fn apply_change(
    rt: &HostRuntime,
    core: &mut Core,
    called: Called,
    change: &Change,
) -> io::Result<bool> {
    let event = event(rt.alloc(), change)?;
    match &core.apply(rt.alloc(), event) {
        Ok(reply) => told_reply(rt, called, reply),
        Err(refusal) => told_refusal(rt, called, refusal),
    }
}

/// Applies the event of the change after a plan of it was dropped.
fn apply_planned(
    rt: &HostRuntime,
    core: &mut Core,
    called: Called,
    change: &Change,
) -> io::Result<bool> {
    let planned = event(rt.alloc(), change)?;
    if let Err(Refusal::Memory) = &core.plan(rt.alloc(), planned) {
        return Ok(true);
    }
    apply_change(rt, core, called, change)
}

/// Applies the event of the change while a snapshot holds the world and another one the world before. If the event is answered, the
/// first snapshot takes the place of the other one.
fn apply_shared(
    rt: &HostRuntime,
    core: &mut Core,
    held: &mut Option<Snapshot>,
    called: Called,
    change: &Change,
) -> io::Result<bool> {
    let snapshot = core.snapshot(rt.alloc())?;
    let lacks = apply_change(rt, core, called, change)?;
    if !lacks {
        *held = Some(snapshot);
    }
    Ok(lacks)
}

impl Watched for OnCore {
    fn name(&self) -> &'static str {
        match self.way {
            Way::Follows => "core",
            Way::Copies => "core after a plan",
            Way::Shares => "core beside snapshots",
        }
    }

    fn mark(&mut self, _rt: &HostRuntime, text: &mut String) -> io::Result<()> {
        add_core(text, &self.core)?;
        Ok(())
    }

    fn apply(&mut self, rt: &HostRuntime, called: Called, change: &Change) -> io::Result<bool> {
        match self.way {
            Way::Follows => apply_change(rt, &mut self.core, called, change),
            Way::Copies => apply_planned(rt, &mut self.core, called, change),
            Way::Shares => apply_shared(rt, &mut self.core, &mut self.held, called, change),
        }
    }

    fn ask(&mut self, rt: &HostRuntime, called: Called, ask: &Ask) -> io::Result<bool> {
        match ask {
            Ask::Links => match &self.core.list_links(rt.alloc()) {
                Ok(links) => told(rt, called, links),
                Err(_) => Ok(true),
            },
            Ask::Snapshot => match &self.core.snapshot(rt.alloc()) {
                Ok(snapshot) => told(rt, called, &("events", snapshot.serial())),
                Err(_) => Ok(true),
            },
            Ask::Prepare => {
                let sites = [SiteNo::new(0)];
                told_prepared(rt, called, &self.core.prepare(rt.alloc(), sites.as_slice()))
            }
            Ask::Call(class) => {
                told(
                    rt,
                    called,
                    &self.core.call(SiteNo::new(0), receiver(*class)),
                )
            }
            Ask::Apply(change) => self.apply(rt, called, change),
        }
    }
}
