//! The event machine.

ghost use Rattle.std.specs.Prelude.{◌≡◌, ◌≤◌, ◌^◌, ◌⊎◌, ℕ, true, length, IsOk, IfOk, IfErr, OnOk, OnErr};
ghost use Rattle.std.specs.List.{list_all};
ghost use Rattle.jl_types.specs.declared.event.Reply.{Reply};
ghost use Rattle.jl_types.specs.declared.refusal.Refusal.TheVariants.{Memory};
ghost use Rattle.jl_types.specs.Linkage.Calls as calls;
ghost use Rattle.jl_types.specs.Events.Event.{Event};
ghost use Rattle.jl_types.specs.Events.Limits.{fixed, AreAllowed, IsWithin};
ghost use Rattle.jl_types.specs.Events.Verdict.{verdict};
ghost use Rattle.jl_types.specs.Events.History.{installed};
ghost use Rattle.jl_types.specs.Events.Footprints.{bound};
ghost use Rattle.jl_relink.specs.Laws.{has_read_file};
ghost use Rattle.jl_relink.specs.Preparations.{IsPreparation, IsFault};
ghost use Rattle.jl_cache.specs.Links.{link_at};
ghost use Rattle.jl_events.specs.Judging.{most_to_judge};
ghost use Rattle.jl_core.specs.State.{State, empty_core, events, world_of, links_of, AreAnswered, IsAccepted, IsRefused};
ghost use Rattle.jl_core.specs.Installs.{HasInstalled};
ghost use Rattle.jl_core.specs.Plans.{IsPlanned, IsAsPlanned};
ghost use Rattle.jl_core.specs.Logs.{shown, are_told, AreToldThen};
ghost use Rattle.jl_core.specs.WorkBounds.{most_of_last};

use crate::instance::Instance;
use crate::log::Entry;
use crate::plan::Planned;
use jl_cache::Cache;
use jl_journal::Journal;
use jl_relink::{Prepared, Snapshot, World, dispatch, prepare_counted, prepare_in};
use jl_types::{Answer, Event, Limits, Link, PrepareFault, Recv, Refusal, Reply, SiteNo, Work};
use std::alloc::{AllocError, Global};
use std::marker::Model;
use std::mem;

/// The accepted events, each with its reply. A clause sees these and the limits. What there is to link, and which links are installed,
/// follows from the events.
///
/// Once an event was planned, there is a second instance of all that is kept, at most one event behind. The next plan makes its event
/// there, without a change of the core. Want of memory loses the second instance, and so does a plan that is dropped. The next plan then
/// copies what the core keeps.
pub struct Core {
    present: Instance,
    next: Option<Instance>,
    /// How many selections, special searches and evaluations of call sites the last event took.
    last_work: u64,
}

// Written out, since a derived drop is proved anew in each crate that lets one go.
impl Drop for Core {
    fn drop(self) {
        let Core {
            present: _present,
            next: _next,
            last_work: _last_work,
        } = self;
    }
}

impl Model for Core {
    ghost use Rattle.std.specs.Prelude.{◌≤◌, IfSome};
    ghost use Rattle.std.specs.Coded.{codes};
    ghost use Rattle.jl_types.specs.ForProofs.TargetCode.{target_code};
    ghost use Rattle.jl_core.specs.State.{State, events};
    ghost use Rattle.jl_core.specs.ForProofs.Replays.{IsBehind};
    ghost use Rattle.jl_core.specs.WorkBounds.{most_of_last};

    ghost Value = { State };

    ghost coded = { Prim.hlevel (codes, target_code) };

    ghost view = { λ c. c.present };

    ghost invariant = { λ c. IfSome c.next (λ next. IsBehind next c.present) × (c.last_work ≤ most_of_last (events c.present)) };
}

impl Core {
    /// A core that has accepted no event, with the limits of the programs: so many places may be requested, and there may be 1,024
    /// loaders, and 65,536 classes, call sites and switch points.
    pub fn new(alloc: Global, max_sites: u32) -> Result<Self, AllocError>
        requires some { 1 ≤ max_sites }
        ensures { IfOk result (λ core. core ≡ empty_core (fixed max_sites)) }
    {
        Core::with_limits(alloc, Limits::fixed(max_sites))
    }

    /// A core that has accepted no event, with limits of its own: it has no classes, no requested places and no links.
    pub fn with_limits(alloc: Global, limits: Limits) -> Result<Self, AllocError>
        requires { AreAllowed limits }
        ensures { IfOk result (λ core. core ≡ empty_core limits) }
    {
        Ok(Core {
            present: Instance::new(alloc, limits)?,
            next: None,
            last_work: 0,
        })
    }

    /// How many of each kind it may give numbers to. Takes no memory.
    pub fn limits(&self) -> Limits
        ensures limits { result ≡ self.now.limits }
        ensures allowed { AreAllowed self.now.limits }
    {
        self.present.limits()
    }

    /// Applies the event. The reply tells what it gave a number to, and by rising number the sites whose links went, since they
    /// aren't those from scratch any more. A site whose link went has none until it is installed again.
    ///
    /// # Errors
    ///
    /// The first refusal, or want of memory if there is none. Nothing has changed then.
    pub fn apply(&mut self, alloc: Global, event: Event) -> Result<Reply, Refusal>
        ensures accepted { IfOk result (IsAccepted self.old self.new event) }
        ensures refused { IfErr result (IsRefused (verdict self.old.limits (world_of self.old) event)) }
        ensures unchanged { OnErr result (self.new ≡ self.old) }
    {
        let mut work = Work::new();
        let event = self.present.judged(alloc, event, &mut work)?;
        let (next, reply) = self.perform_next(alloc, event, &mut work)?;
        self.come_to(next, work.ticks());
        Ok(reply)
    }

    /// Does what [`apply`](Core::apply) does, for an event of which the caller knows that it is accepted. It isn't judged, so for an
    /// install no link is looked up. Want of memory is the only error, and nothing has changed then. [`last_work`](Core::last_work) tells
    /// what the change itself took, which is nothing for an install.
    pub fn apply_judged(&mut self, alloc: Global, event: Event) -> Result<Reply, AllocError>
        requires { IsOk (verdict self.old.limits (world_of self.old) event) }
        ensures accepted { IfOk result (IsAccepted self.old self.new event) }
        ensures unchanged { OnErr result (self.new ≡ self.old) }
    {
        let mut work = Work::new();
        let (after, reply) = self.perform_next(alloc, event, &mut work)?;
        self.come_to(after, work.ticks());
        Ok(reply)
    }

    /// Looks up the links of these sites from scratch, and installs them. It does what [`prepare`](Core::prepare) and then
    /// [`apply`](Core::apply) do, but looks up each link once, since what was prepared in the same world is accepted.
    /// [`last_work`](Core::last_work) tells what that took.
    ///
    /// # Errors
    ///
    /// Those of [`prepare`](Core::prepare). Nothing has changed then.
    pub fn install(&mut self, alloc: Global, sites: &[SiteNo]) -> Result<Reply, PrepareFault>
        ensures installed { IfOk result (λ reply. HasInstalled self.old sites.now self.new reply) }
        ensures refused { IfErr result (IsFault (world_of self.old) sites.now) }
        ensures unchanged { OnErr result (self.new ≡ self.old) }
    {
        let mut work = Work::new();
        let prepared = prepare_counted(alloc, self.world(), self.serial(), sites, &mut work)?;
        match self.perform_next(alloc, Event::Install(prepared.rows), &mut work) {
            Ok((next, reply)) => {
                let ticks = work.ticks();
                self.come_to(next, ticks);
                Ok(reply)
            }
            Err(_) => Err(PrepareFault::Memory),
        }
    }

    /// Makes the second instance equal to the core, if there is none or it is one event behind. Then the next event doesn't pay for the
    /// last one: a host calls this when it waits. No clause sees a change. On an error the next event copies what the core
    /// keeps.
    pub fn catch_up(&mut self, alloc: Global) -> Result<(), AllocError>
        ensures { self.new ≡ self.old }
    {
        let next = self.take_next(alloc)?;
        self.next = Some(next);
        Ok(())
    }

    /// The first half of [`apply`](Core::apply): every refusal and every growth, and no change. The plan tells what the event is
    /// answered and which sites it changes. A first plan copies what the core keeps, and so does one after a plan that was
    /// dropped, or that ended for want of memory. A world that a snapshot holds, too, is copied before it is changed.
    ///
    /// # Errors
    ///
    /// The first refusal, or want of memory if there is none.
    pub fn plan(&mut self, alloc: Global, event: Event) -> Result<Planned, Refusal>
        ensures planned { IfOk result (IsPlanned self.old event) }
        ensures refused { IfErr result (IsRefused (verdict self.old.limits (world_of self.old) event)) }
        ensures unchanged { self.new ≡ self.old }
    {
        let mut work = Work::new();
        self.plan_counted(alloc, event, &mut work)
    }

    /// Does what [`plan`](Core::plan) does, and counts the selections, special searches and evaluations of call sites that it takes. An
    /// accepted event takes no more than it may. Those of a refused event are counted, too.
    ///
    /// # Errors
    ///
    /// Those of [`plan`](Core::plan).
    pub fn plan_counted(
        &mut self,
        alloc: Global,
        event: Event,
        work: &mut Work,
    ) -> Result<Planned, Refusal>
        requires nothing_yet { work.old ≡ 0 }
        ensures planned { IfOk result (IsPlanned self.old event) }
        ensures refused { IfErr result (IsRefused (verdict self.old.limits (world_of self.old) event)) }
        ensures unchanged { self.new ≡ self.old }
        ensures ticks { OnOk result (work.new ≤ bound (events self.old) event) }
        ensures refused_ticks { IfErr result (λ refusal. (refusal ≡ Memory) ⊎ (work.new ≤ bound (events self.old) event)) }
    {
        let event = self.present.judged(alloc, event, work)?;
        let planned = self.plan_accepted(alloc, event, work)?;
        Ok(planned)
    }

    /// The first half of [`apply`](Core::apply) for an event of which the caller knows that it is accepted. It does what
    /// [`plan`](Core::plan) does, but the event isn't judged, so for an install no link is looked up. Want of memory is the only
    /// error.
    pub fn plan_judged(&mut self, alloc: Global, event: Event) -> Result<Planned, AllocError>
        requires { IsOk (verdict self.old.limits (world_of self.old) event) }
        ensures planned { IfOk result (IsPlanned self.old event) }
        ensures unchanged { self.new ≡ self.old }
    {
        let mut work = Work::new();
        self.plan_accepted(alloc, event, &mut work)
    }

    /// Plans an event that is accepted, and counts what that takes beside what it took to judge it.
    fn plan_accepted(
        &mut self,
        alloc: Global,
        event: Event,
        work: &mut Work,
    ) -> Result<Planned, AllocError>
        requires accepted { IsOk (verdict self.old.limits (world_of self.old) event) }
        requires judged { work.old ≤ most_to_judge (world_of self.old) event }
        requires small { work.old ≤ 2 ^ 28 }
        ensures planned { IfOk result (IsPlanned self.old event) }
        ensures unchanged { self.new ≡ self.old }
        ensures ticks { OnOk result (work.new ≤ bound (events self.old) event) }
    {
        let (next, reply) = self.perform_next(alloc, event, work)?;
        Planned::new(alloc, &self.present, next, reply, work.ticks())
    }

    /// The second instance after an event that is accepted, with its reply. It counts what that takes beside what it took to judge the
    /// event.
    fn perform_next(
        &mut self,
        alloc: Global,
        event: Event,
        work: &mut Work,
    ) -> Result<(Instance, Reply), AllocError>
        requires accepted { IsOk (verdict self.old.limits (world_of self.old) event) }
        requires judged { work.old ≤ most_to_judge (world_of self.old) event }
        requires small { work.old ≤ 2 ^ 28 }
        ensures accepted { IfOk result (λ next. IsAccepted self.old next.0 event next.1) }
        ensures unchanged { self.new ≡ self.old }
        ensures ticks { OnOk result (work.new ≤ bound (events self.old) event) }
        ensures work { IfOk result (λ next. work.new ≤ most_of_last (events next.0)) }
    {
        let next = self.take_next(alloc)?;
        let (after, reply) = next.perform(alloc, event, work)?;
        Ok((after, reply))
    }

    /// The second half of [`apply`](Core::apply): the core, which is as the plan left it, becomes what it was planned to be.
    /// Takes no memory.
    pub fn commit(&mut self, planned: Planned) -> Reply
        requires { IsAsPlanned self.old planned }
        ensures core { self.new ≡ planned.after }
        ensures reply { result ≡ planned.reply }
    {
        let (after, reply, work) = planned.into_parts();
        self.come_to(after, work);
        reply
    }

    /// The core becomes this instance, to which one event of so much work has led. Takes no memory.
    fn come_to(&mut self, after: Instance, work: u64)
        requires after { (e : Event) × (reply : Reply) × IsAccepted self.old after e reply }
        requires work { work ≤ most_of_last (events after) }
        ensures { self.new ≡ after }
    {
        let before = mem::replace(&mut self.present, after);
        self.next = Some(before);
        self.last_work = work;
    }

    /// The second instance, which is as the core is.
    fn take_next(&mut self, alloc: Global) -> Result<Instance, AllocError>
        ensures next { IfOk result (λ next. next ≡ self.old) }
        ensures unchanged { self.new ≡ self.old }
    {
        match self.next.take() {
            Some(next) => next.catch_up(alloc, &self.present),
            None => self.present.copy(alloc),
        }
    }

    /// How many selections, special searches and evaluations of call sites the last accepted event took. A selection counts one for each
    /// receiver that is looked at. It counts one also if no receiver has to be looked at, since no subclass redeclares the method. A
    /// refused event and a plan that was dropped leave the count. Takes no memory.
    pub fn last_work(&self) -> u64
        ensures { result ≤ most_of_last (events self.now) }
    {
        // Shows which events the core has.
        let _present = &self.present;
        self.last_work
    }

    /// The answer to a call. Takes no memory.
    pub fn call(&self, site: SiteNo, recv: Recv) -> Answer
        ensures { result ≡ calls.dispatch (world_of self.now) site recv }
    {
        dispatch(self.present.world(), site, recv)
    }

    /// The installed links. Takes no memory.
    pub fn links(&self) -> &Cache
        ensures { (s : ℕ) → link_at result.now s ≡ installed (events self.now) s }
    {
        self.present.links()
    }

    /// What there is to link. Of no kind there is more than the limits allow. Takes no memory.
    pub fn world(&self) -> &World
        ensures world { result.now ≡ world_of self.now }
        ensures within { IsWithin self.now.limits (world_of self.now) }
    {
        self.present.world()
    }

    /// How many classes and interfaces there are. Takes no memory.
    pub fn class_count(&self) -> usize
        ensures { result ≡ length (world_of self.now).classes.rows }
    {
        self.world().classes.class_count()
    }

    /// The accepted events in order, each with its reply, which is what the events before it say. An entry of a definition names its
    /// class, which has the loader and the file and was there once the event was accepted. Each class file was read. A clause sees all
    /// entries. Those that are [forgotten](Core::forget) can't be read any more. Takes no memory.
    pub fn log(&self) -> &Journal<Entry>
        ensures told { are_told (world_of self.now).classes.rows result.now ≡ true }
        ensures events { shown (world_of self.now).classes.rows result.now ≡ self.now.log }
        ensures answered { AreAnswered self.now }
        ensures told_then { AreToldThen self.now result.now }
        ensures files { list_all has_read_file (events self.now) ≡ true }
    {
        self.present.log()
    }

    /// Forgets the entries of all accepted events but the last one, so that they take no memory any more. Those of definitions and
    /// delegations stay, since a renewal tells them again. No clause sees a change, and no later event is
    /// answered otherwise. A core that never forgets lends all entries by [`log`](Core::log). Takes no memory.
    pub fn forget(&mut self)
        ensures { self.new ≡ self.old }
    {
        self.present.forget();
        forget_in(&mut self.next);
    }

    /// Looks up the links of these sites from scratch, as a preparation in a snapshot of now does, but without the snapshot.
    ///
    /// # Errors
    ///
    /// Those of [`prepare`](crate::prepare).
    pub fn prepare(&self, alloc: Global, sites: &[SiteNo]) -> Result<Prepared, PrepareFault>
        ensures { IsPreparation (record { world = world_of self.now; serial = length self.now.log }) sites.now result }
    {
        prepare_in(alloc, self.world(), self.serial(), sites)
    }

    /// Each site that has an installed link, with it, by rising number.
    pub fn list_links(&self, alloc: Global) -> Result<Vec<(SiteNo, Link)>, AllocError>
        ensures { IfOk result (λ rows. rows.items ≡ links_of self.now) }
    {
        self.links().list(alloc)
    }

    /// The world as it is, with the count of the events that were accepted. Of no kind it has more than the limits allow. It is not
    /// copied: an event that is to change it while the snapshot holds it changes a copy.
    pub fn snapshot(&self, _alloc: Global) -> Result<Snapshot, AllocError>
        ensures snapshot { IfOk result (λ snapshot. snapshot ≡ record { world = world_of self.now; serial = length self.now.log }) }
        ensures within { IfOk result (λ snapshot. IsWithin self.now.limits snapshot.world) }
    {
        Ok(Snapshot::sharing(self.present.shared_world()?, self.serial()))
    }

    /// How many events were accepted.
    fn serial(&self) -> u64
        ensures { result ≡ length self.now.log }
    {
        self.log().len()
    }
}

/// The second instance forgets, too, if there is one: all but its last entry.
fn forget_in(next: &mut Option<Instance>)
    ensures { next.new ≡ next.old }
{
    if let Some(next) = next {
        next.forget();
    }
}
