//! Events, and the answers to them.

use crate::call_site_id::CallSiteId;
use crate::class_id::ClassId;
use crate::ids::Place;
use crate::link::Link;
use crate::loader_id::LoaderId;
use crate::site_no::SiteNo;
use crate::switch_id::SwitchId;
use crate::target::{CallSiteKind, Target};
use jl_class::ClassFile;
use jl_names::{Name, Seq};

/// What changes the classes, sites and links. A definition carries a `D`, and an install an `I`.
#[derive(Debug, Drop)]
pub enum EventOf<D, I> {
    /// A new loader.
    NewLoader,
    /// The loader defines a class (JVMS SE 17 §5.3.5).
    Define(LoaderId, D),
    /// The first loader finds under the name the class that the second one finds (§5.3).
    Delegate(LoaderId, Name, LoaderId),
    /// The invocation at the place is to be linked.
    Request(Place),
    /// A new call site, of this type and with its first target.
    NewCallSite(CallSiteKind, Name, Target),
    /// The call site gets another target.
    SetTarget(CallSiteId, Target),
    /// A new switch point, which is valid.
    NewSwitch,
    /// The switch points become invalid for good.
    Invalidate(Seq<SwitchId>),
    /// The invokedynamic is bound to the call site that its bootstrap method gave (JVMS SE 17 §6.5).
    Bind(SiteNo, CallSiteId),
    /// Sites get the links that they are to have.
    Install(I),
    /// The loader goes, with the classes that it has defined and the sites in them (JLS SE 17 §12.7).
    Retire(LoaderId),
    /// The loaders go at once, with the classes that they have defined and the sites in them. What one of them needs of another
    /// doesn't hold them back. One that comes twice goes once. If the list is empty, nothing changes.
    RetireAll(Seq<LoaderId>),
    /// The call sites and the switch points go at once. The targets of these call sites no longer hold what they name. Sites that
    /// are bound to one of these call sites have no link any more. One that comes twice goes once. If the lists are empty, nothing
    /// changes.
    Release(Seq<CallSiteId>, Seq<SwitchId>),
}

/// What changes the classes, sites and links: a definition carries the file of the class, an install the sites with their
/// links.
pub type Event = EventOf<ClassFile, Seq<(SiteNo, Link)>>;

/// What an event gave a number to.
#[derive(Clone, Copy, Debug, PartialEq, Eq)]
pub enum Made {
    Nothing,
    Loader(LoaderId),
    Class(ClassId),
    Site(SiteNo),
    CallSite(CallSiteId),
    Switch(SwitchId),
}

/// The answer to an accepted event: what it gave a number to, and the sites that had a link before it and have none after
/// it, by rising number.
#[derive(Debug, Drop)]
pub struct Reply {
    pub made: Made,
    pub dropped: Seq<SiteNo>,
}
