//! The linker.

ghost use Rattle.std.specs.Prelude.{◌≡◌, ◌≤◌, Some, None, option_map, option_copied, is_some, IfOk, OnErr};
ghost use Rattle.jl_types.specs.Linkage.Calls.{dispatch};
ghost use Rattle.jl_types.specs.Events.History.{installed};
ghost use Rattle.jl_core.specs.State.{events, world_of};
ghost use Rattle.jl_host.specs.Showing.{recv_of};
ghost use Rattle.jl_host.specs.Seats.{seen_of};
ghost use Rattle.jl_host.specs.Linkers.{IsOpen, IsOpenWith, limits_of, IsNewLoader, IsDefine, IsDefineUpTo, IsDelegate, IsRequest, IsNewCallSite};
ghost use Rattle.jl_host.specs.Linkers.{IsSetTarget, IsNewSwitch, IsInvalidate, kind_of, IfOpen, IsAsked};
ghost use Rattle.jl_host.specs.Linkers.{IsBind, IsRetire, IsRetireAll, IsRelease, IsInstall, IsDropped, IsTake, IsCall, IsLinkOf, IsAnswer};
ghost use Rattle.jl_session.specs.Sessions.{snapshot_of};
ghost use Rattle.jl_host.specs.Targets.{IsNewCallSiteOf, IsSetTargetOf};
ghost use Rattle.jl_host.specs.Views.{IsInstallLinks};
ghost use Rattle.jl_host.specs.Asking.{IsLookup, IsClassName, IsMethodName, IsMethodType, IsInvocations, IsRefusedName, IsAwaited, IsLastWork, IsCatchUp};
ghost use Rattle.jl_host.specs.Renewals.{IsCounts, IsCountsPresent, IsRenew, arrays_of, released_of};
ghost use Rattle.jl_host.specs.Renewing.{IsBegunOf};
ghost use Rattle.jl_host.specs.Linkers.{Opened as OpenedValue};

mod calls;

use crate::arrays::{
    call_sites_from, copy_sites, copy_text, loaders_from, sites_from, switches_from,
};
use crate::asked::{
    copy_awaited, copy_class_name, copy_invocations_of, copy_method_name, copy_method_type,
    copy_name, find_class,
};
use crate::begun::Begun;
use crate::invocations::Invocation;
use crate::limits::{limits_asked, may_be_asked, wide};
use crate::opened::Opened;
use crate::reading::{LinkRow, rows_of};
use crate::renew::{Counts, write_numbers};
use crate::seat_view::SeatView;
use crate::shown::{CallAnswer, LinkShown, answer_shown, link_shown, recv_of};
use crate::targets::{TargetPart, target_of};
use crate::told::{
    CLOSED, DONE, MALFORMED, MEMORY, OPEN_ALREADY, TOO_SHORT, Told, status_of_refusal, unasked,
};
use jl_classfile::NEWEST_OF_17;
use jl_names::{Name, Seq};
use jl_relink::Snapshot;
use jl_session::read_target;
use jl_types::{
    Answer, CallSiteId, CallSiteKind, ClassId, Event, Limits, Link, LoaderId, MOST_OF_A_KIND,
    Place, SiteNo,
};
use std::alloc::{AllocError, Global};
use std::marker::Model;

/// A linker that is open, or isn't. A clause sees what it holds.
pub struct Linker {
    opened: Option<Opened>,
}

// Written out, since a derived drop is proved anew in each crate that lets one go.
impl Drop for Linker {
    fn drop(self) {
        let Linker { opened: _opened } = self;
    }
}

impl Model for Linker {
    ghost use Rattle.std.specs.Prelude.{Option};
    ghost use Rattle.std.specs.Coded.{codes};
    ghost use Rattle.jl_types.specs.ForProofs.TargetCode.{target_code};
    ghost use Rattle.jl_host.specs.Linkers.{Opened};

    ghost Value = { Option Opened };

    ghost coded = { Prim.hlevel (codes, target_code) };

    ghost view = { λ l. l.opened };
}

impl Linker {
    /// One that isn't open.
    pub fn blank() -> Linker
        ensures { result ≡ None }
    {
        Linker { opened: None }
    }

    /// Opens it, without classes; so many places may be requested, 1 to 1,048,576, and there may be 1,048,576 loaders, classes, call sites
    /// and switch points. The status tells whether it was open already, no such number may be, or there was no memory.
    pub fn open(&mut self, alloc: Global, max_sites: u32) -> u32
        ensures { IsOpen max_sites self.old result self.new }
    {
        if self.opened.is_some() {
            return OPEN_ALREADY;
        }
        if max_sites == 0 || max_sites > MOST_OF_A_KIND {
            return MALFORMED;
        }
        match Opened::new(alloc, wide(max_sites)) {
            Ok(opened) => {
                self.opened = Some(opened);
                DONE
            }
            Err(_) => MEMORY,
        }
    }

    /// Opens it, without classes. Of each kind so many numbers are ever given: 1 to 1,048,576 sites, and at most 1,048,576 of each other
    /// kind, which 0 stands for. The status tells whether it was open already, there may not be so many, or there was no memory.
    pub fn open_with(
        &mut self,
        alloc: Global,
        sites: u32,
        loaders: u32,
        classes: u32,
        call_sites: u32,
        switches: u32,
    ) -> u32
        ensures { IsOpenWith (limits_of sites loaders classes call_sites switches) self.old result self.new }
    {
        if self.is_open() {
            return OPEN_ALREADY;
        }
        let asked = Limits {
            sites,
            loaders,
            classes,
            call_sites,
            switches,
        };
        if !may_be_asked(&asked) {
            return MALFORMED;
        }
        match Opened::new(alloc, limits_asked(&asked)) {
            Ok(opened) => {
                self.opened = Some(opened);
                DONE
            }
            Err(_) => MEMORY,
        }
    }

    /// Lets all go that it has.
    pub fn close(&mut self)
        ensures { self.new ≡ None }
    {
        self.opened = None;
    }

    /// One loader more.
    pub fn new_loader(&mut self, alloc: Global, told: &mut Told) -> u32
        ensures { IsNewLoader self.old result told.new self.new }
    {
        self.submit(alloc, Event::NewLoader, told)
    }

    /// The loader defines the class of a class file (JVMS SE 17 §4, §5.3.5) whose major version is at most 61, that of SE 17.
    pub fn define(&mut self, alloc: Global, loader: u32, bytes: &[u8], told: &mut Told) -> u32
        ensures { IsDefine loader bytes.now self.old result told.new self.new }
    {
        self.define_up_to(alloc, loader, NEWEST_OF_17, bytes, told)
    }

    /// The loader defines the class of a class file whose major version is at most `newest`, by [`jl_classfile::read_class_up_to`].
    pub fn define_up_to(
        &mut self,
        alloc: Global,
        loader: u32,
        newest: u16,
        bytes: &[u8],
        told: &mut Told,
    ) -> u32
        ensures { IsDefineUpTo newest loader bytes.now self.old result told.new self.new }
    {
        match &mut self.opened {
            Some(opened) => {
                opened.define_up_to(alloc, LoaderId::new(loader), newest, bytes, told)
            }
            None => unasked(CLOSED, told),
        }
    }

    /// The loader finds under the name the class that the loader `to` finds (§5.3).
    pub fn delegate(
        &mut self,
        alloc: Global,
        loader: u32,
        name: &[u8],
        to: u32,
        told: &mut Told,
    ) -> u32
        ensures { IsDelegate loader name.now to self.old result told.new self.new }
    {
        let Some(opened) = &mut self.opened else {
            return unasked(CLOSED, told);
        };
        let Ok(name) = Name::copied(alloc, name) else {
            return unasked(MEMORY, told);
        };
        let event = Event::Delegate(LoaderId::new(loader), name, LoaderId::new(to));
        opened.submit(alloc, event, told)
    }

    /// The invocation at the pc of a method is to be linked: the method's place is that among those that the class declares.
    pub fn request(
        &mut self,
        alloc: Global,
        class: u32,
        method: u32,
        pc: u32,
        told: &mut Told,
    ) -> u32
        ensures { IsRequest class method pc self.old result told.new self.new }
    {
        let Some(opened) = &mut self.opened else {
            return unasked(CLOSED, told);
        };
        let Ok(method) = u16::try_from(method) else {
            return unasked(MALFORMED, told);
        };
        let class = ClassId::new(class);
        opened.submit(alloc, Event::Request(Place { class, method, pc }), told)
    }

    /// One call site more: of this kind (1: constant, 2: mutable, 3: volatile), of this type, a method descriptor (§4.3.3), and with
    /// this first target, as JSON.
    pub fn new_call_site(
        &mut self,
        alloc: Global,
        kind: u32,
        ty: &[u8],
        target: &[u8],
        told: &mut Told,
    ) -> u32
        ensures { IsNewCallSite kind ty.now target.now self.old result told.new self.new }
    {
        let Some(opened) = &mut self.opened else {
            return unasked(CLOSED, told);
        };
        let Ok(target) = read_target(alloc, target) else {
            return unasked(MEMORY, told);
        };
        opened.new_call_site(alloc, kind_of(kind), ty, target, told)
    }

    /// One call site more, as by [`Linker::new_call_site`], with the first target that the parts are.
    pub fn new_call_site_of(
        &mut self,
        alloc: Global,
        kind: u32,
        ty: &[u8],
        parts: &[TargetPart],
        told: &mut Told,
    ) -> u32
        ensures { IsNewCallSiteOf kind ty.now parts.now self.old result told.new self.new }
    {
        let Some(opened) = &mut self.opened else {
            return unasked(CLOSED, told);
        };
        let Ok(target) = target_of(alloc, parts) else {
            return unasked(MEMORY, told);
        };
        opened.new_call_site(alloc, kind_of(kind), ty, target, told)
    }

    /// The call site gets another target, as JSON.
    pub fn set_target(
        &mut self,
        alloc: Global,
        call_site: u32,
        target: &[u8],
        told: &mut Told,
    ) -> u32
        ensures { IsSetTarget call_site target.now self.old result told.new self.new }
    {
        let Some(opened) = &mut self.opened else {
            return unasked(CLOSED, told);
        };
        let Ok(target) = read_target(alloc, target) else {
            return unasked(MEMORY, told);
        };
        let Some(target) = target else {
            return unasked(MALFORMED, told);
        };
        let event = Event::SetTarget(CallSiteId::new(call_site), target);
        opened.submit(alloc, event, told)
    }

    /// The call site gets another target, which the parts are.
    pub fn set_target_of(
        &mut self,
        alloc: Global,
        call_site: u32,
        parts: &[TargetPart],
        told: &mut Told,
    ) -> u32
        ensures { IsSetTargetOf call_site parts.now self.old result told.new self.new }
    {
        let Some(opened) = &mut self.opened else {
            return unasked(CLOSED, told);
        };
        let Ok(target) = target_of(alloc, parts) else {
            return unasked(MEMORY, told);
        };
        let Some(target) = target else {
            return unasked(MALFORMED, told);
        };
        opened.submit(
            alloc,
            Event::SetTarget(CallSiteId::new(call_site), target),
            told,
        )
    }

    /// One switch point more, valid.
    pub fn new_switch(&mut self, alloc: Global, told: &mut Told) -> u32
        ensures { IsNewSwitch self.old result told.new self.new }
    {
        self.submit(alloc, Event::NewSwitch, told)
    }

    /// The switch points become invalid for good.
    pub fn invalidate(&mut self, alloc: Global, switches: &[u32], told: &mut Told) -> u32
        ensures { IsInvalidate switches.now self.old result told.new self.new }
    {
        let Some(opened) = &mut self.opened else {
            return unasked(CLOSED, told);
        };
        let Ok(switches) = switches_from(alloc, switches) else {
            return unasked(MEMORY, told);
        };
        opened.submit(alloc, Event::Invalidate(Seq::of(switches)), told)
    }

    /// The invokedynamic's bootstrap method gave this call site (§6.5).
    pub fn bind(&mut self, alloc: Global, site: u32, call_site: u32, told: &mut Told) -> u32
        ensures { IsBind site call_site self.old result told.new self.new }
    {
        let event = Event::Bind(SiteNo::new(site), CallSiteId::new(call_site));
        self.submit(alloc, event, told)
    }

    /// The loader goes, with the classes that it has defined and the sites in them (JLS SE 17 §12.7).
    pub fn retire(&mut self, alloc: Global, loader: u32, told: &mut Told) -> u32
        ensures { IsRetire loader self.old result told.new self.new }
    {
        self.submit(alloc, Event::Retire(LoaderId::new(loader)), told)
    }

    /// The loaders go at once, with the classes that they have defined and the sites in them: all or none. The first one that can't go is
    /// told. What only one of them needs of another holds none back. If there are none, nothing changes.
    pub fn retire_all(&mut self, alloc: Global, loaders: &[u32], told: &mut Told) -> u32
        ensures { IsRetireAll loaders.now self.old result told.new self.new }
    {
        let Some(opened) = &mut self.opened else {
            return unasked(CLOSED, told);
        };
        let Ok(loaders) = loaders_from(alloc, loaders) else {
            return unasked(MEMORY, told);
        };
        opened.submit(alloc, Event::RetireAll(Seq::of(loaders)), told)
    }

    /// The call sites and the switch points go at once: all or none. The first one that isn't there is told, or the least call site that
    /// stays and whose target names one of them. A site that is bound to one of these call sites is gone. If there are none, nothing
    /// changes.
    pub fn release(
        &mut self,
        alloc: Global,
        call_sites: &[u32],
        points: &[u32],
        told: &mut Told,
    ) -> u32
        ensures { IsRelease call_sites.now points.now self.old result told.new self.new }
    {
        let Some(opened) = &mut self.opened else {
            return unasked(CLOSED, told);
        };
        let Ok(call_sites) = call_sites_from(alloc, call_sites) else {
            return unasked(MEMORY, told);
        };
        let Ok(points) = switches_from(alloc, points) else {
            return unasked(MEMORY, told);
        };
        let event = Event::Release(Seq::of(call_sites), Seq::of(points));
        opened.submit(alloc, event, told)
    }

    /// The sites are linked from scratch, 1 to 256 of them, and their links installed: all or none.
    pub fn install(&mut self, alloc: Global, sites: &[u32], told: &mut Told) -> u32
        ensures { IsInstall sites.now self.old result told.new self.new }
    {
        let Some(opened) = &mut self.opened else {
            return unasked(CLOSED, told);
        };
        let Ok(sites) = sites_from(alloc, sites) else {
            return unasked(MEMORY, told);
        };
        opened.install(alloc, sites.as_slice(), told)
    }

    /// The links of 1 to 256 sites are installed, wherever they were looked up: all or none. Each has to be its site's link from scratch
    /// now. The first site whose link is another one is told, and its present link written.
    pub fn install_links(
        &mut self,
        alloc: Global,
        rows: &[LinkRow],
        told: &mut Told,
        present: &mut LinkShown,
    ) -> u32
        ensures { IsInstallLinks rows.now self.old present.old result told.new present.new self.new }
    {
        let Some(opened) = &mut self.opened else {
            return unasked(CLOSED, told);
        };
        let Ok(rows) = rows_of(alloc, rows) else {
            return unasked(MEMORY, told);
        };
        let Some(rows) = rows else {
            return unasked(MALFORMED, told);
        };
        opened.install_links(alloc, rows, told, present)
    }

    /// Copies the sites, rising, whose links the last accepted event removed, and tells how many they are. Takes no memory.
    pub fn dropped(&mut self, out: &mut [u32], count: &mut usize) -> u32
        ensures { IsDropped self.old out.old count.old result out.new count.new self.new }
    {
        match &self.opened {
            Some(opened) => copy_sites(opened.last_dropped(), out, count),
            None => CLOSED,
        }
    }

    /// The answer to a call now, linked or not. Takes no memory.
    pub fn call(&mut self, site: u32, receiver: u32, answer: &mut CallAnswer) -> u32
        ensures { IsCall site receiver self.old answer.old result answer.new self.new }
    {
        let Some(opened) = &self.opened else {
            return CLOSED;
        };
        let found = opened.core().call(SiteNo::new(site), recv_of(receiver));
        *answer = answer_shown(found);
        DONE
    }

    /// The answer to a call now, and the link that is installed at its site, if the linker is open. Takes no memory.
    pub(crate) fn asked(&self, site: u32, receiver: u32) -> Option<(Answer, Option<Link>)>
        ensures { result ≡ option_map (λ opened. (
          dispatch (world_of opened.session.core) site (recv_of receiver),
          installed (events opened.session.core) site,
        )) self.now }
    {
        let Some(opened) = &self.opened else {
            return None;
        };
        Some(opened.asked(SiteNo::new(site), recv_of(receiver)))
    }

    /// The link that is installed at the site. Takes no memory.
    pub fn link_of(&mut self, site: u32, link: &mut LinkShown) -> u32
        ensures { IsLinkOf site self.old link.old result link.new self.new }
    {
        let Some(opened) = &self.opened else {
            return CLOSED;
        };
        *link = link_shown(opened.core().links().get(SiteNo::new(site)));
        DONE
    }

    /// The class that the loader finds under the name (JVMS SE 17 §5.3): one that it has defined or was delegated. Takes no memory.
    pub fn lookup(&mut self, loader: u32, name: &[u8], class: &mut u32) -> u32
        ensures { IsLookup loader name.now self.old class.old result class.new self.new }
    {
        match &self.opened {
            Some(opened) => find_class(opened.core(), loader, name, class),
            None => CLOSED,
        }
    }

    /// Copies the name of the class as its file has it (§4.2.1), be the class retired or not, and tells its length. Takes no memory.
    pub fn class_name(&mut self, class: u32, out: &mut [u8], count: &mut usize) -> u32
        ensures { IsClassName class self.old out.old count.old result out.new count.new self.new }
    {
        match &self.opened {
            Some(opened) => copy_class_name(opened.core(), class, out, count),
            None => CLOSED,
        }
    }

    /// Copies the name of the method (§4.2.2) at the place among those that the class declares, and tells its length. Takes no memory.
    pub fn method_name(&mut self, class: u32, method: u32, out: &mut [u8], count: &mut usize) -> u32
        ensures { IsMethodName class method self.old out.old count.old result out.new count.new self.new }
    {
        match &self.opened {
            Some(opened) => copy_method_name(opened.core(), class, method, out, count),
            None => CLOSED,
        }
    }

    /// Copies the descriptor of that method (§4.3.3), and tells its length. Takes no memory.
    pub fn method_type(&mut self, class: u32, method: u32, out: &mut [u8], count: &mut usize) -> u32
        ensures { IsMethodType class method self.old out.old count.old result out.new count.new self.new }
    {
        match &self.opened {
            Some(opened) => copy_method_type(opened.core(), class, method, out, count),
            None => CLOSED,
        }
    }

    /// Copies the invocations in that method's code (§6.5), by rising pc, and tells how many there are. Takes no memory.
    pub fn invocations(
        &mut self,
        class: u32,
        method: u32,
        out: &mut [Invocation],
        count: &mut usize,
    ) -> u32
        ensures { IsInvocations class method self.old out.old count.old result out.new count.new self.new }
    {
        match &self.opened {
            Some(opened) => copy_invocations_of(opened.core(), class, method, out, count),
            None => CLOSED,
        }
    }

    /// Copies the name of the class that the refusal of the last event told of, a parent that is missing, no interface or not accessible
    /// (§5.3.5), and tells its length. Commands as text leave it. Takes no memory.
    pub fn refused_name(&mut self, out: &mut [u8], count: &mut usize) -> u32
        ensures { IsRefusedName self.old out.old count.old result out.new count.new self.new }
    {
        match &self.opened {
            Some(opened) => copy_name(opened.refused_name(), out, count),
            None => CLOSED,
        }
    }

    /// Copies the name of the class for which the requested site waits, the one that its instruction names or a nest host that isn't
    /// recorded (§5.4.4), and tells its length. Takes no memory.
    pub fn awaited(&mut self, site: u32, out: &mut [u8], count: &mut usize) -> u32
        ensures { IsAwaited site self.old out.old count.old result out.new count.new self.new }
    {
        match &self.opened {
            Some(opened) => copy_awaited(opened.core(), site, out, count),
            None => CLOSED,
        }
    }

    /// How many selections, special searches and evaluations of call sites the last accepted event took. Takes no memory.
    pub fn last_work(&mut self, work: &mut u64) -> u32
        ensures { IsLastWork self.old work.old result work.new self.new }
    {
        let Some(opened) = &self.opened else {
            return CLOSED;
        };
        *work = opened.core().last_work();
        DONE
    }

    /// Does the last event in the second instance of all that the linker keeps, if it isn't done there, so that the next event doesn't pay
    /// for it. Want of memory loses that instance, and the next event copies the first one.
    pub fn catch_up(&mut self, alloc: Global) -> u32
        ensures { IsCatchUp self.old result self.new }
    {
        match &mut self.opened {
            Some(opened) => opened.catch_up(alloc),
            None => CLOSED,
        }
    }

    /// Answers any command of a session, as text. The answer is kept, and its length told.
    pub fn answer(&mut self, alloc: Global, line: &[u8], count: &mut usize) -> u32
        ensures { IsAnswer line.now self.old count.old result count.new self.new }
    {
        match &mut self.opened {
            Some(opened) => opened.answer(alloc, line, count),
            None => CLOSED,
        }
    }

    /// Copies the text of the last answer, and tells its length. Takes no memory.
    pub fn take(&mut self, out: &mut [u8], count: &mut usize) -> u32
        ensures { IsTake self.old out.old count.old result out.new count.new self.new }
    {
        match &self.opened {
            Some(opened) => copy_text(opened.said(), out, count),
            None => CLOSED,
        }
    }

    /// How many loaders, classes, sites, call sites and switch points there ever were, retired and released ones among them. Takes no memory.
    pub fn counts(&mut self, counts: &mut Counts) -> u32
        ensures { IsCounts self.old result counts.new self.new }
    {
        let Some(opened) = &self.opened else {
            *counts = Counts::none();
            return CLOSED;
        };
        *counts = opened.counts();
        DONE
    }

    /// How many of these are present: those that a renewal would take over now, if the host let none go.
    pub fn counts_present(&mut self, alloc: Global, counts: &mut Counts) -> u32
        ensures { IsCountsPresent self.old result counts.new self.new }
    {
        let Some(opened) = &self.opened else {
            *counts = Counts::none();
            return CLOSED;
        };
        match Counts::present(alloc, opened.core()) {
            Ok(present) => {
                *counts = present;
                DONE
            }
            Err(_) => {
                *counts = Counts::none();
                MEMORY
            }
        }
    }

    /// Opens the other linker over a fresh core that has what stays of this one's, but for the call sites and switch points that are
    /// released. So many places may be requested there, 1 to 1,048,576; its other limits are this one's. Of each loader, class, site,
    /// call site and switch point the new number is written, or `GONE`, to the front of its array. The status tells whether this linker
    /// isn't open or the other one is, no such number may be, an array is too short, more sites stay, or there was no memory.
    pub fn renew(
        &mut self,
        alloc: Global,
        fresh: &mut Linker,
        max_sites: u32,
        released_call_sites: &[u32],
        released_switches: &[u32],
        loaders: &mut [u32],
        classes: &mut [u32],
        sites: &mut [u32],
        call_sites: &mut [u32],
        switches: &mut [u32],
    ) -> u32
        ensures { IsRenew (released_of released_call_sites.now released_switches.now) max_sites self.old fresh.old
            (arrays_of loaders.old classes.old sites.old call_sites.old switches.old) result self.new fresh.new
            (arrays_of loaders.new classes.new sites.new call_sites.new switches.new) }
    {
        let Some(opened) = &self.opened else {
            return CLOSED;
        };
        if fresh.opened.is_some() {
            return OPEN_ALREADY;
        }
        if max_sites == 0 || max_sites > MOST_OF_A_KIND {
            return MALFORMED;
        }
        let counts = opened.counts();
        if !counts.fit(loaders, classes, sites, call_sites, switches) {
            return TOO_SHORT;
        }
        match opened.renewed(alloc, released_call_sites, released_switches, max_sites) {
            Ok((made, numbers)) => {
                write_numbers(&numbers, loaders, classes, sites, call_sites, switches);
                fresh.opened = Some(made);
                DONE
            }
            Err(refusal) => status_of_refusal(&refusal),
        }
    }

    /// Whether it is open.
    pub(crate) fn is_open(&self) -> bool
        ensures { result ≡ is_some self.now }
    {
        self.opened.is_some()
    }

    /// What it holds, if it is open.
    pub(crate) fn opened(&self) -> Option<&Opened>
        ensures { option_copied result ≡ self.now }
    {
        self.opened.as_ref()
    }

    /// Opens it over what was made.
    pub(crate) fn open_over(&mut self, opened: Opened)
        ensures { self.new ≡ Some opened }
    {
        self.opened = Some(opened);
    }

    /// A renewal that begins, if it is open. The host has released these, and so many places may be requested in the fresh linker.
    pub(crate) fn begun(
        &mut self,
        alloc: Global,
        call_sites: &[u32],
        switches: &[u32],
        max_sites: u32,
    ) -> Result<Option<Begun>, AllocError>
        requires { 1 ≤ max_sites }
        ensures same { self.new ≡ self.old }
        ensures begun { IfOk result (IsBegunOf self.old (released_of call_sites.now switches.now) max_sites) }
    {
        let Some(opened) = &mut self.opened else {
            return Ok(None);
        };
        let begun = opened.begun(alloc, call_sites, switches, max_sites)?;
        Ok(Some(begun))
    }

    /// Its links as they are now, and how many classes there are, if it is open.
    pub(crate) fn seen(&mut self, alloc: Global) -> Result<Option<SeatView>, AllocError>
        ensures same { self.new ≡ self.old }
        ensures seen { IfOk result (λ seen. seen ≡ option_map (λ opened. seen_of opened.session.core) self.old) }
        ensures open { OnErr result ((opened : OpenedValue) × (self.old ≡ Some opened)) }
    {
        let Some(opened) = &mut self.opened else {
            return Ok(None);
        };
        let seen = opened.seen(alloc)?;
        Ok(Some(seen))
    }

    /// What there is to link now, with the count of its events, if it is open.
    pub(crate) fn snapshot(&self, alloc: Global) -> Result<Option<Snapshot>, AllocError>
        ensures seen { IfOk result (λ seen. seen ≡ option_map (λ opened. snapshot_of opened.session) self.now) }
        ensures open { OnErr result ((opened : OpenedValue) × (self.now ≡ Some opened)) }
    {
        let Some(opened) = &self.opened else {
            return Ok(None);
        };
        let seen = opened.core().snapshot(alloc)?;
        Ok(Some(seen))
    }

    /// Asks for the event, if it is open.
    fn submit(&mut self, alloc: Global, event: Event, told: &mut Told) -> u32
        ensures { IfOpen (IsAsked event) self.old result told.new self.new }
    {
        match &mut self.opened {
            Some(opened) => opened.submit(alloc, event, told),
            None => unasked(CLOSED, told),
        }
    }
}

/// The kind of call site of this number.
fn kind_of(number: u32) -> Option<CallSiteKind>
    ensures { result ≡ kind_of number }
{
    match number {
        1 => Some(CallSiteKind::Constant),
        2 => Some(CallSiteKind::Mutable),
        3 => Some(CallSiteKind::Volatile),
        _ => None,
    }
}
