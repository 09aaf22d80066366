//! The accepted events, as a core keeps them.

ghost use Rattle.std.specs.Prelude.{◌≡◌, [], IfOk, IfSome};
ghost use Rattle.jl_types.specs.declared.event.EventOf.TheVariants as happened;
ghost use Rattle.jl_types.specs.declared.event.Made.TheVariants as making;
ghost use Rattle.jl_core.specs.Logs.{tells_classes};

use jl_events::Accepted;
use jl_journal::{Keep, Share};
use jl_types::{Made, Place, Reply, SiteNo};
use std::alloc::{AllocError, Global};
use std::fmt;
use std::marker::Model;
use std::sync::Arc;

/// An accepted event, and what it was answered. It is never changed, and the instances of a core share it. A request, of which there
/// are many, takes no block of its own.
pub struct Entry {
    kept: Kept,
}

/// What is kept of an entry: of a request that took no link its place and its site.
#[derive(Drop)]
enum Kept {
    Request(Place, SiteNo),
    Shared(Arc<Logged>),
}

/// What the owners of an entry share.
struct Logged {
    event: Accepted,
    reply: Reply,
}

/// Written out, so that what drops one makes one call of it and doesn't take apart what it holds.
impl Drop for Logged {
    fn drop(self) {
        let Logged {
            event: _event,
            reply: _reply,
        } = self;
    }
}

/// Written out, so that what drops one makes one call of it and doesn't take apart what it holds.
impl Drop for Entry {
    fn drop(self) {
        let Entry { kept: _kept } = self;
    }
}

/// An entry is printed as its event and its reply.
impl fmt::Debug for Entry {
    fn fmt<W: fmt::Write>(&self, f: &mut fmt::Formatter<W>) -> fmt::Result {
        match &self.kept {
            Kept::Request(place, site) => write!(
                f,
                "Entry {{ event: Request({place:?}), reply: Reply {{ made: Site({site:?}), dropped: Seq {{ items: [] }} }} }}"
            ),
            Kept::Shared(logged) => write!(
                f,
                "Entry {{ event: {:?}, reply: {:?} }}",
                logged.event, logged.reply
            ),
        }
    }
}

impl Model for Entry {
    ghost use Rattle.std.specs.Coded.{codes};
    ghost use Rattle.jl_types.specs.ForProofs.TargetCode.{target_code};
    ghost use Rattle.jl_core.specs.Logs as logs;
    ghost use Rattle.jl_core.specs.ForProofs.Entries.{entry_of};

    ghost Value = { logs.Entry };

    ghost coded = { Prim.hlevel (codes, target_code) };

    ghost view = { λ e. entry_of e.kept };
}

/// The event of an entry: lent, or made again for a request.
pub struct EntryEvent<'a> {
    whole: Whole<'a>,
}

/// An event, lent or made.
#[derive(Drop)]
enum Whole<'a> {
    Made(Accepted),
    Lent(&'a Accepted),
}

/// Written out, so that what drops one makes one call of it and doesn't take apart what it holds.
impl<'a> Drop for EntryEvent<'a> {
    fn drop(self) {
        let EntryEvent { whole: _whole } = self;
    }
}

impl<'a> Model for EntryEvent<'a> {
    ghost use Rattle.std.specs.Coded.{codes};
    ghost use Rattle.jl_types.specs.ForProofs.TargetCode.{target_code};
    ghost use Rattle.jl_events.specs.Accepted.{Accepted};
    ghost use Rattle.jl_core.specs.ForProofs.Entries.{event_in};

    ghost Value = { Accepted };

    ghost coded = { Prim.hlevel (codes, target_code) };

    ghost view = { λ e. event_in e.whole };
}

impl<'a> EntryEvent<'a> {
    /// The event.
    pub fn get(&self) -> &Accepted
        ensures { result.now ≡ self.now }
    {
        match &self.whole {
            Whole::Made(event) => event,
            Whole::Lent(event) => *event,
        }
    }
}

impl Entry {
    /// An entry of this event with its reply.
    pub(crate) fn new(alloc: Global, event: Accepted, reply: Reply) -> Result<Entry, AllocError>
        ensures { IfOk result (λ entry. entry ≡ record { event = event; reply = reply }) }
    {
        if let Some((place, site)) = plain_request(&event, &reply) {
            return Ok(Entry {
                kept: Kept::Request(place, site),
            });
        }
        Ok(Entry {
            kept: Kept::Shared(Arc::new(alloc, Logged { event, reply })?),
        })
    }

    /// The event; a definition names the class that it made. Takes no memory.
    pub fn event(&self) -> EntryEvent<'_>
        ensures { result ≡ self.now.event }
    {
        let whole = match &self.kept {
            Kept::Request(place, _) => Whole::Made(Accepted::Request(*place)),
            Kept::Shared(logged) => Whole::Lent(&logged.event),
        };
        EntryEvent { whole }
    }

    /// What the event gave a number to. Takes no memory.
    pub fn made(&self) -> Made
        ensures { result ≡ self.now.reply.made }
    {
        match &self.kept {
            Kept::Request(_, site) => Made::Site(*site),
            Kept::Shared(logged) => logged.reply.made,
        }
    }

    /// The sites that had a link before the event and have none after it, by rising number. Takes no memory.
    pub fn dropped(&self) -> &[SiteNo]
        ensures { result.now ≡ self.now.reply.dropped }
    {
        match &self.kept {
            Kept::Request(_, _) => &[],
            Kept::Shared(logged) => logged.reply.dropped.as_slice(),
        }
    }
}

/// The place and the site of a request that took no link.
fn plain_request(event: &Accepted, reply: &Reply) -> Option<(Place, SiteNo)>
    ensures { IfSome result (λ x. (event.now ≡ happened.Request x.0) × (reply.now ≡ record { made = making.Site x.1; dropped = [] })) }
{
    match (event, reply.made) {
        (Accepted::Request(place), Made::Site(site)) => {
            if reply.dropped.as_slice().is_empty() {
                return Some((*place, site));
            }
            None
        }
        _ => None,
    }
}

/// Definitions and delegations are kept when a log forgets: no world tells in which order loaders recorded classes.
impl Keep for Entry {
    ghost use Rattle.jl_core.specs.Logs.{is_kept};

    ghost keeps = { λ e. is_kept e };

    fn is_kept(&self) -> bool {
        let event = self.event();
        tells_classes(event.get())
    }
}

/// Whether the event is a definition or a delegation.
fn tells_classes(event: &Accepted) -> bool
    ensures { result ≡ tells_classes event.now }
{
    match event {
        Accepted::Define(_, _) | Accepted::Delegate(_, _, _) => true,
        Accepted::NewLoader
        | Accepted::Request(_)
        | Accepted::NewCallSite(_, _, _)
        | Accepted::SetTarget(_, _)
        | Accepted::NewSwitch
        | Accepted::Invalidate(_)
        | Accepted::Bind(_, _)
        | Accepted::Install(_)
        | Accepted::Retire(_)
        | Accepted::RetireAll(_)
        | Accepted::Release(_, _) => false,
    }
}

/// An entry is not copied but shared. It is an error if it can count no more owners.
impl Share for Entry {
    fn share(&self) -> Result<Entry, AllocError> {
        let kept = match &self.kept {
            Kept::Request(place, site) => Kept::Request(*place, *site),
            Kept::Shared(logged) => Kept::Shared(Arc::try_clone(logged)?),
        };
        Ok(Entry { kept })
    }
}

/// A second list of the entries. Both lists share them.
pub fn share_log(alloc: Global, log: &[Entry]) -> Result<Vec<Entry>, AllocError>
    ensures { IfOk result (λ copy. copy.items ≡ log.now) }
{
    let mut copy = Vec::with_capacity(alloc, log.len())?;
    for entry in log {
        copy.push(entry.share()?)?;
    }
    Ok(copy)
}
