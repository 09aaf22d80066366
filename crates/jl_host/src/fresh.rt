//! The fresh core of a renewal in steps.

ghost use Rattle.std.specs.Prelude.{◌≡◌, ◌≤◌, ◌++◌, drop, length, option_to_list, option_copied, IfOk, IfErr, OnOk, OnErr};
ghost use Rattle.jl_types.specs.declared.refusal.Refusal.TheVariants.{Memory};
ghost use Rattle.jl_types.specs.Events.Limits.{AreAllowed};
ghost use Rattle.jl_core.specs.State.{world_of};
ghost use Rattle.jl_renewal.specs.declared.entries.CarryFault.TheVariants.{Refused};
ghost use Rattle.jl_renewal.specs.Renewal.{fresh_rows};
ghost use Rattle.jl_host.specs.Linkers.{opened_over};
ghost use Rattle.jl_host.specs.Renewing as renewing;
ghost use Rattle.jl_host.specs.ForProofs.Starts.{ComesOver};
ghost use Rattle.jl_host.specs.Renewing.{IsMade, IsUnmade, IsLinked, AreUnlinked, IsCarriedOn, IsUncarriedOn, HasCarried, StopsBefore};

use crate::behind::{Links, catch_up, no_links};
use crate::opened::Opened;
use jl_cache::KeptLink;
use jl_core::{Accepted, Core, Entry, Journal};
use jl_names::Seq;
use jl_relink::{Snapshot, World};
use jl_renewal::{
    CarryFault, Released, Renumbering, carry, fresh_links, install_fresh, renumbered_links,
    try_refill,
};
use jl_types::{Event, Limits, Link, Part, Refusal, SiteNo, Target};
use std::alloc::{AllocError, Global};
use std::marker::Model;
use std::sync::Arc;

/// What there was at the begin of a renewal: what there was to link, the log of the events, which links were installed, and what its host
/// had released. A clause sees these. Links come over by their numbers, so that none is looked up.
pub(crate) struct Start {
    seen: Snapshot,
    past: Journal<Entry>,
    sites: u32,
    links: Arc<Links>,
    released: Released,
}

// Written out, since a derived drop is proved anew in each crate that lets one go.
impl Drop for Start {
    fn drop(self) {
        let Start {
            seen: _seen,
            past: _past,
            sites: _sites,
            links: _links,
            released: _released,
        } = self;
    }
}

impl Model for Start {
    ghost use Rattle.std.specs.Coded.{codes};
    ghost use Rattle.jl_types.specs.ForProofs.TargetCode.{target_code};
    ghost use Rattle.jl_host.specs.Renewing as renewing;

    ghost Value = { renewing.Start };

    ghost coded = { Prim.hlevel (codes, target_code) };

    ghost view = { λ s. record { seen = s.seen; past = s.past; sites = s.sites; links = s.links.value; released = s.released } };

    ghost use Rattle.jl_host.specs.Renewing.{listed};
    ghost use Rattle.jl_host.specs.ForProofs.Starts.{ComesOver};

    ghost invariant = { λ s. ComesOver s.seen.world s.past s.released (listed s.links.value s.sites) };
}

impl Start {
    /// What there was to link, the log, of how many sites, the installed links, and what was released.
    pub(crate) fn new(
        seen: Snapshot,
        past: Journal<Entry>,
        sites: u32,
        links: Arc<Links>,
        released: Released,
    ) -> Start
        requires { ComesOver seen.world past released (renewing.listed links.value sites) }
        ensures { result ≡ record { seen = seen; past = past; sites = sites; links = links.value; released = released } }
    {
        Start {
            seen,
            past,
            sites,
            links,
            released,
        }
    }

    /// How many events there were. Takes no memory.
    pub(crate) fn serial(&self) -> u64
        ensures { result ≡ self.now.seen.serial }
    {
        self.seen.serial()
    }

    /// A fresh core with these limits that has what stays.
    ///
    /// # Errors
    ///
    /// - `SitesFull` if more sites stay than may be requested there, and so for each kind.
    /// - Want of memory.
    /// - The refusal of an event, if the log is another one than that of what there was.
    pub(crate) fn fresh(&self, alloc: Global, limits: Limits) -> Result<Fresh, Refusal>
        requires { AreAllowed limits }
        ensures made { IfOk result (IsMade self.now limits) }
        ensures refused { IfErr result (IsUnmade self.now limits) }
    {
        let mut core = Core::with_limits(alloc, limits)?;
        let old = self.seen.world();
        let numbers = try_refill(alloc, &mut core, old, &self.past, &self.released, limits)?;
        let linked = listed(alloc, &self.links, self.sites)?;
        let rows = renumbered_links(alloc, linked.as_slice(), &numbers)?;
        install_fresh(alloc, &mut core, rows.as_slice())?;
        let links = no_links(alloc, limits.sites)?;
        Ok(Fresh {
            core,
            numbers,
            links,
            reached: 0,
        })
    }
}

/// Of the first so many sites each that has a link, with it.
fn listed(alloc: Global, links: &Links, sites: u32) -> Result<Vec<(SiteNo, Link)>, AllocError>
    ensures { IfOk result (λ rows. rows.items ≡ renewing.listed links.now sites) }
{
    (0..sites)
        .filter_map(|site| row_at(links, SiteNo::new(site)))
        .collect(alloc)
}

/// The site with its link, if it has one.
fn row_at(links: &Links, site: SiteNo) -> Option<(SiteNo, Link)>
    ensures { result ≡ renewing.row_at links.now site }
{
    let slot = links.get(site.number() as usize)?;
    match slot.get() {
        Some(link) => Some((site, link)),
        None => None,
    }
}

/// Adds the item, if there is one.
fn push_if_any<T: Drop>(items: &mut Vec<T>, item: Option<T>) -> Result<(), AllocError>
    ensures { OnOk result (items.new.items ≡ items.old.items ++ option_to_list item) }
{
    match item {
        Some(item) => {
            items.push(item)?;
            Ok(())
        }
        None => Ok(()),
    }
}

/// The fresh core, the numbers, and its links in pages that seats will share. A clause sees the core and the numbers.
pub(crate) struct Fresh {
    core: Core,
    numbers: Renumbering,
    /// The links but for the sites that were touched by the events from the `reached`-th on.
    links: Arc<Links>,
    reached: u64,
}

// Written out, since a derived drop is proved anew in each crate that lets one go.
impl Drop for Fresh {
    fn drop(self) {
        let Fresh {
            core: _core,
            numbers: _numbers,
            links: _links,
            reached: _reached,
        } = self;
    }
}

impl Model for Fresh {
    ghost use Rattle.std.specs.Coded.{codes};
    ghost use Rattle.jl_types.specs.ForProofs.TargetCode.{target_code};
    ghost use Rattle.jl_host.specs.Renewing as renewing;
    ghost use Rattle.jl_host.specs.ForProofs.Behind.{IsBehind};

    ghost Value = { renewing.Fresh };

    ghost coded = { Prim.hlevel (codes, target_code) };

    ghost view = { λ f. record { core = f.core; numbers = f.numbers } };

    ghost invariant = { λ f. IsBehind f.links.value f.reached f.core };
}

impl Fresh {
    /// The numbers.
    pub(crate) fn numbers(&self) -> &Renumbering
        ensures { result.now ≡ self.now.numbers }
    {
        &self.numbers
    }

    /// What a linker holds that is opened over the fresh core. Takes no memory.
    pub(crate) fn into_opened(self, alloc: Global) -> Opened
        ensures { result ≡ opened_over self.core }
    {
        let Fresh {
            core,
            numbers: _numbers,
            links,
            reached,
        } = self;
        Opened::with_links(alloc, core, links, reached)
    }

    /// Carries these entries over, from the `carried`-th on, one after another, and counts them.
    ///
    /// # Errors
    ///
    /// The fault of the first that isn't carried. Those before it are.
    pub(crate) fn carry_all(
        &mut self,
        alloc: Global,
        defined: &World,
        entries: &[Entry],
        carried: &mut usize,
    ) -> Result<(), CarryFault>
        requires { carried.old ≤ length entries.now }
        ensures most { carried.new ≤ length entries.now }
        ensures carried { OnOk result (HasCarried defined.now (drop carried.old entries.now) (drop carried.new entries.now) self.old self.new) }
        ensures all { OnOk result (carried.new ≡ length entries.now) }
        ensures uncarried { IfErr result (λ fault. StopsBefore defined.now (drop carried.old entries.now) (drop carried.new entries.now)
            self.old fault self.new) }
    {
        while let Some(entry) = entries.get(*carried) {
            self.carry(alloc, defined, entry)?;
            *carried += 1;
        }
        Ok(())
    }

    /// Carries an entry over, with its class among these if it defines one: its event, or, of an install, the links of its sites.
    ///
    /// # Errors
    ///
    /// The entry names what is gone; or the fresh core refuses its event; or there is no memory.
    fn carry(&mut self, alloc: Global, defined: &World, entry: &Entry) -> Result<(), CarryFault>
        ensures carried { OnOk result (IsCarriedOn defined.now entry.now self.old self.new) }
        ensures uncarried { IfErr result (λ fault. IsUncarriedOn defined.now entry.now self.old fault self.new) }
    {
        let event = entry.event();
        match installs_of(event.get()) {
            Some(rows) => match self.link(alloc, rows) {
                Ok(()) => Ok(()),
                Err(refusal) => Err(CarryFault::Refused(refusal)),
            },
            None => carry(alloc, &mut self.core, &mut self.numbers, defined, entry),
        }
    }

    /// Installs the links of those of these sites that have one, each from scratch, under the sites' new numbers.
    ///
    /// # Errors
    ///
    /// The refusal of the install, or want of memory. Nothing has changed then.
    fn link(&mut self, alloc: Global, rows: &[(SiteNo, KeptLink)]) -> Result<(), Refusal>
        ensures linked { OnOk result (IsLinked (fresh_rows (world_of self.old.core) self.old.numbers rows.now) self.old self.new) }
        ensures refused { IfErr result (AreUnlinked (fresh_rows (world_of self.old.core) self.old.numbers rows.now) self.old.core) }
        ensures unchanged { OnErr result (self.new ≡ self.old) }
    {
        let linked = given(alloc, rows)?;
        let rows = fresh_links(alloc, self.core.world(), linked.as_slice(), &self.numbers)?;
        if rows.is_empty() {
            return Ok(());
        }
        self.core.apply(alloc, Event::Install(Seq::of(rows)))?;
        Ok(())
    }

    /// Brings the pages of links up to date, and lets the core forget what is past. Want of memory is the only fault.
    pub(crate) fn catch_up(&mut self, alloc: Global) -> Result<(), CarryFault>
        ensures same { self.new ≡ self.old }
        ensures lacks { IfErr result (λ fault. fault ≡ Refused Memory) }
    {
        match catch_up(&mut self.links, alloc, &self.core, self.reached) {
            Ok(reached) => {
                self.reached = reached;
                self.core.forget();
                Ok(())
            }
            Err(_) => Err(CarryFault::Refused(Refusal::Memory)),
        }
    }

    /// The call site or switch point that the entry names and that is gone.
    pub(crate) fn gone_of(&self, entry: &Entry) -> Option<u32>
        ensures { result ≡ renewing.gone_of self.now.numbers entry.now.event }
    {
        let event = entry.event();
        match event.get() {
            Accepted::NewCallSite(_, _, target) => gone_in(&self.numbers, target),
            Accepted::SetTarget(site, target) => match self.numbers.call_site(*site) {
                Some(_) => gone_in(&self.numbers, target),
                None => Some(site.number()),
            },
            Accepted::Bind(_, site) => Some(site.number()),
            _ => None,
        }
    }
}

/// The rows that the event installs, if it is an install.
fn installs_of(event: &Accepted) -> Option<&[(SiteNo, KeptLink)]>
    ensures { option_copied result ≡ renewing.installs_of event.now }
{
    match event {
        Accepted::Install(rows) => Some(rows.as_slice()),
        _ => None,
    }
}

/// The links of the rows.
fn given(alloc: Global, rows: &[(SiteNo, KeptLink)]) -> Result<Vec<(SiteNo, Link)>, AllocError>
    ensures { IfOk result (λ given. given.items ≡ rows.now) }
{
    let mut given = Vec::with_capacity(alloc, rows.len())?;
    for row in rows {
        push_if_any(&mut given, Some((row.0, row.1.get())))?;
    }
    Ok(given)
}

/// The call site or switch point of the target that is gone.
fn gone_in(numbers: &Renumbering, target: &Target) -> Option<u32>
    ensures { result ≡ renewing.gone_in numbers.now target.now }
{
    match &target.part {
        Part::Method(_) => None,
        Part::Guard(point, first, fallback) => match numbers.switch(*point) {
            Some(_) => match gone_in(numbers, first) {
                Some(gone) => Some(gone),
                None => gone_in(numbers, fallback),
            },
            None => Some(point.number()),
        },
        Part::Invoker(site) => match numbers.call_site(*site) {
            Some(_) => None,
            None => Some(site.number()),
        },
    }
}
