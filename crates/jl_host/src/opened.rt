//! What an open linker holds.

ghost use Rattle.std.specs.Prelude.{◌≡◌, ◌≤◌, ◌⊎◌, option_copied, IfOk, IfErr};
ghost use Rattle.jl_types.specs.Linkage.Calls.{dispatch};
ghost use Rattle.jl_types.specs.Events.History.{installed};
ghost use Rattle.jl_core.specs.State.{State, events, world_of};
ghost use Rattle.jl_types.specs.Events.Limits.{AreAllowed};
ghost use Rattle.jl_renewal.specs.Renewal.{IsRenewal};
ghost use Rattle.jl_host.specs.Numbers.{done, memory};
ghost use Rattle.jl_host.specs.Linkers.{opened_over, newly_opened, IsAsked, IsAskedIf, IsUnasked, call_site_of, IsDefinedUpTo, IsCheckedUpTo};
ghost use Rattle.jl_host.specs.Linkers.{IsInstalled, IsAnswered, last_dropped};
ghost use Rattle.jl_host.specs.Seats.{seen_of};
ghost use Rattle.jl_host.specs.Views.{IsGiven, present_of};
ghost use Rattle.jl_host.specs.Renewals.{counts_of, limits_for, released_of, IsShort};
ghost use Rattle.jl_host.specs.Renewing.{HasBegun};
ghost use Rattle.jl_host.specs.ForProofs.Behind.{IsBehind};

use crate::begun::{Begun, Claim};
use crate::behind::{Links, catch_up, no_links};
use crate::fresh::Start;
use crate::limits::limits_for;
use crate::renew::{Counts, released_of};
use crate::seat_view::SeatView;
use crate::shown::{LinkShown, link_shown};
use crate::told::{
    DONE, MALFORMED, MEMORY, Told, class_named, tell, tell_file, tell_unprepared, unasked,
};
use jl_classfile::read_class_up_to;
use jl_core::Core;
use jl_json::is_method_descriptor;
use jl_names::{Name, Seq};
use jl_renewal::{Released, Renumbering, only_sites_can_be_short, renew};
use jl_session::Session;
use jl_types::{
    Answer, CallSiteKind, Event, Limits, Link, LoaderId, Recv, Refusal, Reply, SiteNo, Target,
};
use std::alloc::{AllocError, Global};
use std::marker::Model;
use std::sync::Arc;

/// How many events are kept before all but the last one are forgotten.
const KEPT_EVENTS: u64 = 1024;

/// A session, the text of its last answer, the class that the refusal of the last event named, and its links in pages that seats share.
/// The links are brought up to date when a seat asks. A clause sees the session, the text and the class.
///
/// The session forgets its past events, whenever it has many of them and no renewal in steps is under way.
pub(crate) struct Opened {
    session: Session,
    said: Vec<u8>,
    named: Option<Name>,
    /// The links but for the sites that were touched by the events from the `reached`-th on.
    links: Arc<Links>,
    reached: u64,
    /// What the renewals in steps that are under way share, from the first one on.
    claim: Option<Arc<Claim>>,
}

// Written out, since a derived drop is proved anew in each crate that lets one go.
impl Drop for Opened {
    fn drop(self) {
        let Opened {
            session: _session,
            said: _said,
            named: _named,
            links: _links,
            reached: _reached,
            claim: _claim,
        } = self;
    }
}

impl Model for Opened {
    ghost use Rattle.std.specs.Coded.{codes};
    ghost use Rattle.jl_types.specs.ForProofs.TargetCode.{target_code};
    ghost use Rattle.jl_host.specs.Linkers.{Opened};
    ghost use Rattle.jl_host.specs.ForProofs.Behind.{IsBehind};

    ghost Value = { Opened };

    ghost coded = { Prim.hlevel (codes, target_code) };

    ghost view = { λ o. record { session = o.session; said = o.said.items; named = o.named } };

    ghost invariant = { λ o. IsBehind o.links.value o.reached o.session.core };
}

impl Opened {
    /// One without classes, which may have so many of each kind.
    pub(crate) fn new(alloc: Global, limits: Limits) -> Result<Opened, AllocError>
        requires { AreAllowed limits }
        ensures { IfOk result (λ opened. opened ≡ newly_opened limits) }
    {
        Opened::of(alloc, Core::with_limits(alloc, limits)?, limits.sites)
    }

    /// One over this core, in which so many places may be requested. Its pages have no link yet.
    fn of(alloc: Global, core: Core, max_sites: u32) -> Result<Opened, AllocError>
        requires { core.limits.sites ≡ max_sites }
        ensures { IfOk result (λ opened. opened ≡ opened_over core) }
    {
        let links = no_links(alloc, max_sites)?;
        Ok(Opened {
            session: Session::of(alloc, core),
            said: Vec::new(alloc),
            named: None,
            links,
            reached: 0,
            claim: None,
        })
    }

    /// One over this core, which has these links but for the sites that were touched by the events from the `reached`-th on. Takes no
    /// memory.
    pub(crate) fn with_links(alloc: Global, core: Core, links: Arc<Links>, reached: u64) -> Opened
        requires { IsBehind links.value reached core }
        ensures { result ≡ opened_over core }
    {
        Opened {
            session: Session::of(alloc, core),
            said: Vec::new(alloc),
            named: None,
            links,
            reached,
            claim: None,
        }
    }

    /// A renewal of this core that begins. The host has released these, and so many places may be requested in the fresh core.
    pub(crate) fn begun(
        &mut self,
        alloc: Global,
        call_sites: &[u32],
        switches: &[u32],
        max_sites: u32,
    ) -> Result<Begun, AllocError>
        requires { 1 ≤ max_sites }
        ensures same { self.new ≡ self.old }
        ensures begun { IfOk result (HasBegun self.old (released_of call_sites.now switches.now) max_sites) }
    {
        let released = released_of(alloc, call_sites, switches)?;
        let claim = claim_on(&mut self.claim, alloc)?;
        let links = self.links_now(alloc)?;
        let seen = self.core().snapshot(alloc)?;
        let past = self.core().log().copy(alloc)?;
        let start = Start::new(seen, past, self.counts().sites, links, released);
        let limits = limits_for(self.core(), max_sites);
        Begun::new(alloc, claim, start, limits)
    }

    /// One over a fresh core that has what stays of this one's, and the numbers of what stays. So many places may be requested there.
    ///
    /// # Errors
    ///
    /// `SitesFull` if more sites stay; want of memory.
    pub(crate) fn renewed(
        &self,
        alloc: Global,
        call_sites: &[u32],
        switches: &[u32],
        max_sites: u32,
    ) -> Result<(Opened, Renumbering), Refusal>
        requires { 1 ≤ max_sites }
        ensures renewal { IfOk result (λ made. (core : State) × (made.0 ≡ opened_over core)
            × IsRenewal self.now.session.core (released_of call_sites.now switches.now) (limits_for self.now.session.core max_sites)
            (core, made.1)) }
        ensures refused { IfErr result (IsShort max_sites self.now.session.core) }
    {
        let released = released_of(alloc, call_sites, switches)?;
        let (mut core, numbers) = renewed_core(alloc, self.core(), &released, max_sites)?;
        core.forget();
        Ok((Opened::of(alloc, core, max_sites)?, numbers))
    }

    /// How many there ever were of each.
    pub(crate) fn counts(&self) -> Counts
        ensures { result ≡ counts_of (world_of self.now.session.core) }
    {
        // Opens the invariant, which bounds the number of sites.
        let _links = &self.links;
        Counts::of(self.core())
    }

    /// The core.
    pub(crate) fn core(&self) -> &Core
        ensures { result.now ≡ self.now.session.core }
    {
        self.session.core()
    }

    /// The answer to a call now, and the link that is installed at its site. Takes no memory.
    pub(crate) fn asked(&self, site: SiteNo, recv: Recv) -> (Answer, Option<Link>)
        ensures answer { result.0 ≡ dispatch (world_of self.now.session.core) site recv }
        ensures link { result.1 ≡ installed (events self.now.session.core) site }
    {
        let core = self.core();
        (core.call(site, recv), core.links().get(site))
    }

    /// The text of the last answer.
    pub(crate) fn said(&self) -> &[u8]
        ensures { result.now ≡ self.now.said }
    {
        self.said.as_slice()
    }

    /// The class that the refusal of the last event told of by its name.
    pub(crate) fn refused_name(&self) -> Option<&Name>
        ensures { option_copied result ≡ self.now.named }
    {
        self.named.as_ref()
    }

    /// Asks the core for the event.
    pub(crate) fn submit(&mut self, alloc: Global, event: Event, told: &mut Told) -> u32
        ensures { IsAsked event self.old result told.new self.new }
    {
        let outcome = self.session.submit(alloc, event);
        let status = tell(&outcome, told);
        self.named = class_named(outcome);
        self.forget_past(alloc);
        status
    }

    /// Asks for the definition of the class that the bytes are, whose major version is at most `newest`.
    pub(crate) fn define_up_to(
        &mut self,
        alloc: Global,
        loader: LoaderId,
        newest: u16,
        bytes: &[u8],
        told: &mut Told,
    ) -> u32
        ensures { IsDefinedUpTo newest loader bytes.now self.old result told.new self.new }
    {
        match read_class_up_to(alloc, newest, bytes) {
            Ok(file) => self.submit(alloc, Event::Define(loader, file), told),
            Err(fault) => tell_file(fault, told),
        }
    }

    /// Whether the bytes are a class file whose major version is at most `newest`.
    pub(crate) fn check_up_to(
        &mut self,
        alloc: Global,
        newest: u16,
        bytes: &[u8],
        told: &mut Told,
    ) -> u32
        ensures { IsCheckedUpTo newest bytes.now self.old result told.new self.new }
    {
        match read_class_up_to(alloc, newest, bytes) {
            Ok(_file) => unasked(DONE, told),
            Err(fault) => tell_file(fault, told),
        }
    }

    /// Asks for a call site of this kind, with this type and this target, if these are all that.
    pub(crate) fn new_call_site(
        &mut self,
        alloc: Global,
        kind: Option<CallSiteKind>,
        ty: &[u8],
        target: Option<Target>,
        told: &mut Told,
    ) -> u32
        ensures { IsAskedIf (call_site_of kind ty.now target) self.old result told.new self.new ⊎ IsUnasked memory self.old result told.new self.new }
    {
        let Some(kind) = kind else {
            return unasked(MALFORMED, told);
        };
        let Some(target) = target else {
            return unasked(MALFORMED, told);
        };
        if !is_method_descriptor(ty) {
            return unasked(MALFORMED, told);
        }
        let Ok(ty) = Name::copied(alloc, ty) else {
            return unasked(MEMORY, told);
        };
        self.submit(alloc, Event::NewCallSite(kind, ty, target), told)
    }

    /// Prepares the sites in the core as it is, and installs their links. Each is looked up once.
    pub(crate) fn install(&mut self, alloc: Global, sites: &[SiteNo], told: &mut Told) -> u32
        ensures { IsInstalled sites.now self.old result told.new self.new }
    {
        match self.session.install(alloc, sites) {
            Ok(reply) => {
                let outcome = Ok(reply);
                let status = tell(&outcome, told);
                self.named = class_named(outcome);
                self.forget_past(alloc);
                status
            }
            Err(fault) => tell_unprepared(fault, told),
        }
    }

    /// Asks for the install of these links, and shows the present one if a link is stale.
    pub(crate) fn install_links(
        &mut self,
        alloc: Global,
        rows: Vec<(SiteNo, Link)>,
        told: &mut Told,
        present: &mut LinkShown,
    ) -> u32
        ensures { IsGiven rows.items self.old present.old result told.new present.new self.new }
    {
        let outcome = self.session.submit(alloc, Event::Install(Seq::of(rows)));
        show_present(&outcome, present);
        let status = tell(&outcome, told);
        self.named = class_named(outcome);
        self.forget_past(alloc);
        status
    }

    /// Lets the core catch up, so that the next event doesn't pay for the one before.
    pub(crate) fn catch_up(&mut self, alloc: Global) -> u32
        ensures same { self.new ≡ self.old }
        ensures status { (result ≡ done) ⊎ (result ≡ memory) }
    {
        if self.session.catch_up(alloc).is_err() {
            return MEMORY;
        }
        DONE
    }

    /// What the last accepted event dropped. Takes no memory.
    pub(crate) fn last_dropped(&self) -> &[SiteNo]
        ensures { result.now ≡ last_dropped self.now.session.core }
    {
        match self.session.core().log().kept().last() {
            Some(entry) => entry.dropped(),
            None => &[],
        }
    }

    /// Answers a command, and keeps the text of the answer.
    pub(crate) fn answer(&mut self, alloc: Global, line: &[u8], count: &mut usize) -> u32
        ensures { IsAnswered line.now self.old count.old result count.new self.new }
    {
        match self.session.answer_text(alloc, line) {
            Ok(text) => {
                *count = text.len();
                self.said = text;
                self.forget_past(alloc);
                DONE
            }
            Err(_) => MEMORY,
        }
    }

    /// The links as they are now, and how many classes there are.
    pub(crate) fn seen(&mut self, alloc: Global) -> Result<SeatView, AllocError>
        ensures same { self.new ≡ self.old }
        ensures seen { IfOk result (λ seen. seen ≡ seen_of self.old.session.core) }
    {
        let links = self.links_now(alloc)?;
        Ok(SeatView::new(links, self.session.core().class_count()))
    }

    /// The links as they are now, in pages that are shared.
    fn links_now(&mut self, alloc: Global) -> Result<Arc<Links>, AllocError>
        ensures same { self.new ≡ self.old }
        ensures links { IfOk result (λ links. links.value ≡ (seen_of self.old.session.core).links) }
    {
        let reached = catch_up(&mut self.links, alloc, self.session.core(), self.reached)?;
        self.reached = reached;
        let links = Arc::try_clone(&self.links)?;
        Ok(links)
    }

    /// Lets the session forget the past events, if many of them are kept and no renewal in steps is under way. Links that seats share are
    /// brought up to date before. If there is no memory for that, they are written anew when a seat asks.
    fn forget_past(&mut self, alloc: Global)
        ensures { self.new ≡ self.old }
    {
        if !keeps_many(self.session.core()) || !is_unclaimed(&mut self.claim) {
            return;
        }
        if self.reached > 0 {
            self.bring_links(alloc);
        }
        self.session.forget();
    }

    /// Brings the links up to date, unless there is no memory.
    fn bring_links(&mut self, alloc: Global)
        ensures { self.new ≡ self.old }
    {
        if let Ok(reached) = catch_up(&mut self.links, alloc, self.session.core(), self.reached) {
            self.reached = reached;
        }
    }
}

/// Whether so many of the last events aren't past.
fn keeps_many(core: &Core) -> bool {
    let log = core.log();
    match log.len().checked_sub(KEPT_EVENTS) {
        Some(place) => log.kept_from(place).is_some(),
        None => false,
    }
}

/// Whether no renewal has a share of the claim.
fn is_unclaimed(claim: &mut Option<Arc<Claim>>) -> bool {
    match claim {
        Some(claim) => Arc::get_mut(claim).is_some(),
        None => true,
    }
}

/// A share of the claim, which is made if there is none yet.
fn claim_on(claim: &mut Option<Arc<Claim>>, alloc: Global) -> Result<Arc<Claim>, AllocError> {
    if let Some(claim) = claim {
        let share = Arc::try_clone(claim)?;
        return Ok(share);
    }
    let own = Arc::new(alloc, Claim)?;
    let share = Arc::try_clone(&own)?;
    *claim = Some(own);
    Ok(share)
}

/// Shows the present link of a site whose link is stale.
fn show_present(outcome: &Result<Reply, Refusal>, present: &mut LinkShown)
    ensures { present.new ≡ present_of outcome.now present.old }
{
    if let Err(Refusal::Stale { present: link, .. }) = outcome {
        *present = link_shown(Some(*link));
    }
}

/// A fresh core that has what stays of this one, with its limits but for so many sites, and the numbers of what stays.
///
/// # Errors
///
/// `SitesFull` if more sites stay; want of memory.
fn renewed_core(
    alloc: Global,
    core: &Core,
    released: &Released,
    max_sites: u32,
) -> Result<(Core, Renumbering), Refusal>
    requires { 1 ≤ max_sites }
    ensures renewal { IfOk result (IsRenewal core.now released.now (limits_for core.now max_sites)) }
    ensures refused { IfErr result (IsShort max_sites core.now) }
{
    let limits = limits_for(core, max_sites);
    // What the core has is within its limits, so of what stays only the sites can be too many.
    only_sites_can_be_short();
    let _accepted = core.log();
    renew(alloc, core, released, limits)
}
