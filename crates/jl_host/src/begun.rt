//! What a renewal in steps has from its begin on.

ghost use Rattle.std.specs.Prelude.{◌≡◌, ◌≤◌, ◌<◌, ◌⊎◌, take, drop, length, ◌++◌, ◌+◌, ◌-◌, option_copied};
ghost use Rattle.std.specs.Prelude.{IfOk, IfErr, IfSome, IfNone, OnOk, OnErr};
ghost use Rattle.std.specs.Vec.{vec_len, vec_capacity};
ghost use Rattle.jl_types.specs.Events.Limits.{AreAllowed};
ghost use Rattle.jl_host.specs.Renewing as renewing;
ghost use Rattle.jl_host.specs.Renewing.{AreTaken, IsTakenFrom, IsUntaken, AreBrought, IsReady, IsUnready, IsFilled, IsFilledOn, IsFilledAll};
ghost use Rattle.jl_host.specs.Renewing.{AreAllCarried, HasStopped};

use crate::fresh::{Fresh, Start};
use crate::told::{DONE, MALFORMED, MEMORY, Told, tell, tell_released, unasked};
use jl_core::{Core, Entry, Journal, share_log};
use jl_relink::World;
use jl_renewal::CarryFault;
use jl_types::{Limits, Refusal};
use std::alloc::{AllocError, Global};
use std::marker::Model;
use std::mem;
use std::sync::Arc;

/// What a renewal shares with its linker while it is under way, so that this one forgets no event that is still to be taken.
#[derive(Drop)]
pub(crate) struct Claim;

/// What a renewal has from its begin on. A clause sees all but the entries that were carried over.
pub(crate) struct Begun {
    /// Until the fresh core is given away.
    claim: Option<Arc<Claim>>,
    /// What there was at the begin, until the fresh core is made.
    start: Option<Start>,
    /// The fresh core, from then on.
    fresh: Option<Fresh>,
    /// Its limits.
    limits: Limits,
    /// Up to which of the linker's events entries were taken.
    taken: u64,
    /// Those that were taken since the begin, of which the fresh core has the first `carried`.
    waiting: Vec<Entry>,
    carried: usize,
    /// The classes as they were when entries were taken, and nothing else.
    defined: World,
    /// Those that were there before. They are let go while no lock is held.
    past: Vec<World>,
}

// Written out, since a derived drop is proved anew in each crate that lets one go.
impl Drop for Begun {
    fn drop(self) {
        let Begun {
            claim: _claim,
            start: _start,
            fresh: _fresh,
            limits: _limits,
            taken: _taken,
            waiting: _waiting,
            carried: _carried,
            defined: _defined,
            past: _past,
        } = self;
    }
}

impl Model for Begun {
    ghost use Rattle.std.specs.Prelude.{◌≤◌, drop, length};
    ghost use Rattle.std.specs.Coded.{codes};
    ghost use Rattle.jl_types.specs.ForProofs.TargetCode.{target_code};
    ghost use Rattle.jl_types.specs.Events.Limits.{AreAllowed};
    ghost use Rattle.jl_host.specs.Renewing.{Renewing};

    ghost Value = { Renewing };

    ghost coded = { Prim.hlevel (codes, target_code) };

    ghost view = { λ b. record {
      start = b.start;
      fresh = b.fresh;
      limits = b.limits;
      taken = b.taken;
      waiting = drop b.carried b.waiting.items;
      defined = b.defined;
    } };

    ghost invariant = { λ b. AreAllowed b.limits × (b.carried ≤ length b.waiting.items) };
}

impl Begun {
    /// A renewal that begins, of which the fresh core is to have these limits.
    pub(crate) fn new(
        alloc: Global,
        claim: Arc<Claim>,
        start: Start,
        limits: Limits,
    ) -> Result<Begun, AllocError>
        requires { AreAllowed limits }
        ensures { IfOk result (λ begun. begun ≡ renewing.begun_from start limits) }
    {
        let defined = World::new(alloc)?;
        let taken = start.serial();
        Ok(Begun {
            claim: Some(claim),
            start: Some(start),
            fresh: None,
            limits,
            taken,
            waiting: Vec::new(alloc),
            carried: 0,
            defined,
            past: Vec::new(alloc),
        })
    }

    /// Up to which of the linker's events entries were taken.
    pub(crate) fn taken(&self) -> u64
        ensures { result ≡ self.now.taken }
    {
        self.taken
    }

    /// Takes the next entries of the core's log, at most so many, with its classes. Else nothing was taken, and the status tells why: there
    /// was no memory, or the core shows to be another one than that of the begin.
    pub(crate) fn take(&mut self, alloc: Global, core: &Core, most: usize) -> Result<(), u32>
        ensures taken { OnOk result (IsTakenFrom most core.now self.old self.new) }
        ensures untaken { IfErr result (IsUntaken core.now self.old) }
        ensures unchanged { OnErr result (self.new ≡ self.old) }
    {
        let Some(later) = later_entries(core.log(), self.taken) else {
            return Err(MALFORMED);
        };
        match self.take_these(alloc, core, portion(later, most)) {
            Ok(()) => Ok(()),
            Err(_) => Err(MEMORY),
        }
    }

    /// Takes these entries of the core's log, with its classes.
    ///
    /// # Errors
    ///
    /// Want of memory. Nothing was taken then.
    fn take_these(
        &mut self,
        alloc: Global,
        core: &Core,
        entries: &[Entry],
    ) -> Result<(), AllocError>
        ensures taken { OnOk result (AreTaken core.now entries.now self.old self.new) }
        ensures unchanged { OnErr result (self.new ≡ self.old) }
    {
        let count = entries.len();
        let Some(taken) = self.taken.checked_add(count as u64) else {
            return Err(AllocError);
        };
        let shared = share_log(alloc, entries)?;
        self.waiting.reserve(count)?;
        bring_classes(&mut self.defined, &mut self.past, alloc, core.world())?;
        push_all(&mut self.waiting, shared);
        self.taken = taken;
        Ok(())
    }

    /// Lets the classes go that earlier takes have brought.
    pub(crate) fn let_past_go(&mut self, alloc: Global)
        ensures { self.new ≡ self.old }
    {
        self.past = Vec::new(alloc);
    }

    /// Makes the fresh core, if it isn't there, and carries over what waits.
    pub(crate) fn fill(&mut self, alloc: Global, told: &mut Told) -> u32
        ensures { IsFilled self.old result told.new self.new }
    {
        match self.make(alloc) {
            Ok(()) => self.fill_on(alloc, told),
            Err(refusal) => tell(&Err(refusal), told),
        }
    }

    /// Makes the fresh core, if it isn't there.
    ///
    /// # Errors
    ///
    /// Those of [`Start::fresh`]. Nothing has changed then.
    fn make(&mut self, alloc: Global) -> Result<(), Refusal>
        ensures ready { OnOk result (IsReady self.old self.new) }
        ensures unready { IfErr result (IsUnready self.old) }
        ensures unchanged { OnErr result (self.new ≡ self.old) }
    {
        let Some(start) = &self.start else {
            return Ok(());
        };
        let fresh = start.fresh(alloc, self.limits)?;
        self.fresh = Some(fresh);
        self.start = None;
        Ok(())
    }

    /// Carries the entries over that wait, if the fresh core is there.
    fn fill_on(&mut self, alloc: Global, told: &mut Told) -> u32
        ensures { IsFilledOn self.old result told.new self.new }
    {
        match self.carry_all(alloc) {
            Ok(()) => unasked(DONE, told),
            Err(CarryFault::Refused(refusal)) => tell(&Err(refusal), told),
            Err(CarryFault::Gone) => tell_released(self.gone(), self.count_carried(), told),
        }
    }

    /// Carries the entries over that wait, if the fresh core is there, and brings its pages of links up to date.
    ///
    /// # Errors
    ///
    /// The fault of the first entry that isn't carried over; want of memory. What was carried over stays so.
    fn carry_all(&mut self, alloc: Global) -> Result<(), CarryFault>
        ensures carried { OnOk result (AreAllCarried self.old self.new) }
        ensures stopped { IfErr result (λ fault. HasStopped self.old fault self.new) }
    {
        let Some(fresh) = &mut self.fresh else {
            return Ok(());
        };
        fresh.carry_all(
            alloc,
            &self.defined,
            self.waiting.as_slice(),
            &mut self.carried,
        )?;
        self.waiting = Vec::new(alloc);
        self.carried = 0;
        fresh.catch_up(alloc)
    }

    /// The number of what is gone that the next entry names, or 0.
    fn gone(&self) -> u32
        ensures { result ≡ renewing.gone_number self.now }
    {
        match (&self.fresh, self.waiting.as_slice()[self.carried..].first()) {
            (Some(fresh), Some(entry)) => fresh.gone_of(entry).unwrap_or(0),
            _ => 0,
        }
    }

    /// How many of the linker's events the fresh core has.
    fn count_carried(&self) -> usize
        ensures { result ≡ self.now.taken - length self.now.waiting }
    {
        (self.taken as usize).saturating_sub(self.waiting.len() - self.carried)
    }

    /// Takes all that is left, and fills it in; or none, for the status.
    pub(crate) fn fill_all(&mut self, alloc: Global, core: &Core, told: &mut Told) -> u32
        ensures { IsFilledAll core.now self.old result told.new self.new }
    {
        match self.take(alloc, core, usize::MAX) {
            Ok(()) => self.fill(alloc, told),
            Err(status) => unasked(status, told),
        }
    }

    /// The fresh core, if it is there.
    pub(crate) fn fresh(&self) -> Option<&Fresh>
        ensures { option_copied result ≡ self.now.fresh }
    {
        self.fresh.as_ref()
    }

    /// Gives the fresh core away, if it is there, and lets the linker forget.
    pub(crate) fn take_fresh(&mut self) -> Option<Fresh>
        ensures { result ≡ self.old.fresh }
    {
        self.claim = None;
        self.fresh.take()
    }
}

/// The entries from the place on, if the log reaches up to there and none of these entries is past.
fn later_entries(log: &Journal<Entry>, place: u64) -> Option<&[Entry]>
    ensures rest { IfSome result (λ rest. (rest.now ≡ drop place log.now) × (place ≤ length log.now)) }
    ensures none { IfNone result ((length log.now < place) ⊎ (place + 1 < length log.now)) }
{
    if log.len() < place {
        return None;
    }
    log.kept_from(place)
}

/// The first entries, at most so many.
fn portion(entries: &[Entry], most: usize) -> &[Entry]
    ensures { result.now ≡ take most entries.now }
{
    &entries[..most.min(entries.len())]
}

/// The classes of the world take the place of these, unless there are no more of them. These are kept beside the earlier ones.
///
/// # Errors
///
/// Want of memory. Nothing has changed then.
fn bring_classes(
    defined: &mut World,
    past: &mut Vec<World>,
    alloc: Global,
    world: &World,
) -> Result<(), AllocError>
    ensures brought { OnOk result (AreBrought world.now.classes defined.old defined.new) }
    ensures unchanged { OnErr result (defined.new ≡ defined.old) }
{
    if world.classes.class_count() == defined.classes.class_count() {
        return Ok(());
    }
    past.reserve(1)?;
    let mut made = World::new(alloc)?;
    made.classes = world.classes.copy(alloc)?;
    past.push_reserved(mem::replace(defined, made));
    Ok(())
}

/// Adds all of these to the list, which has room for them.
fn push_all<T: Drop>(list: &mut Vec<T>, more: Vec<T>)
    requires { vec_len list.old + length more.items ≤ vec_capacity list.old }
    ensures { list.new.items ≡ list.old.items ++ more.items }
{
    for item in more {
        list.push_reserved(item);
    }
}
