//! The call sites and switch points.

ghost use Rattle.std.specs.Prelude.{◌≡◌, ◌≤◌, ◌^◌, true, not, length};
ghost use Rattle.std.specs.Option.{option_copied};
ghost use Rattle.jl_types.specs.Values.World.{nothing_yet, unreleased, is_missing};
ghost use Rattle.jl_types.specs.Linkage.Targets as targets;
ghost use Rattle.jl_callsites.specs.Known.{are_known};

use crate::call_site::CallSite;
use jl_types::{CallSiteId, SwitchId};
use std::alloc::Global;
use std::marker::Model;

/// The call sites and switch points, in the order in which they were made (java.lang.invoke). A clause sees the call sites,
/// and of each switch point whether it is valid. One that is released keeps its number, and nothing else is left of it.
pub struct Sites {
    pub(crate) call_sites: Vec<Option<CallSite>>,
    pub(crate) switches: Vec<Option<bool>>,
}

// Written out, since a derived drop is proved anew in each crate that lets one go.
impl Drop for Sites {
    fn drop(self) {
        let Sites {
            call_sites: _call_sites,
            switches: _switches,
        } = self;
    }
}

impl Model for Sites {
    ghost use Rattle.jl_types.specs.Values.World.{Sites};
    ghost use Rattle.jl_callsites.specs.ForProofs.{sites_code};

    ghost Value = { Sites };

    ghost coded = { sites_code };

    ghost view = { λ s. record { call_sites = s.call_sites.items; switches = s.switches.items } };

    ghost use Rattle.std.specs.Prelude.{◌≡◌, ◌≤◌, ◌^◌, true, length};
    ghost use Rattle.jl_callsites.specs.Known.{are_known};

    ghost invariant = { λ s. (are_known (record { call_sites = s.call_sites.items; switches = s.switches.items }) ≡ true)
        × (length s.call_sites.items ≤ 2 ^ 20) × (length s.switches.items ≤ 2 ^ 20) };
}

impl Sites {
    /// No call sites and no switch points. Takes no memory.
    pub fn new(alloc: Global) -> Self
        ensures { result ≡ nothing_yet.sites }
    {
        Sites {
            call_sites: Vec::new(alloc),
            switches: Vec::new(alloc),
        }
    }

    /// How many call sites were made: the number of the next one.
    pub fn call_site_count(&self) -> usize
        ensures { result ≡ length self.now.call_sites }
    {
        self.call_sites.as_slice().len()
    }

    /// How many call sites were made, which are as few as there may be. Takes no memory.
    pub fn few_call_sites(&self) -> usize
        ensures few { length self.now.call_sites ≤ 2 ^ 20 }
        ensures count { result ≡ length self.now.call_sites }
    {
        // Opens the invariant, which bounds the count.
        let _ = &self.switches;
        self.call_site_count()
    }

    /// How many switch points were made: the number of the next one.
    pub fn switch_count(&self) -> usize
        ensures { result ≡ length self.now.switches }
    {
        self.switches.as_slice().len()
    }

    /// How many switch points were made, which are as few as there may be. Takes no memory.
    pub fn few_switches(&self) -> usize
        ensures few { length self.now.switches ≤ 2 ^ 20 }
        ensures count { result ≡ length self.now.switches }
    {
        // Opens the invariant, which bounds the count.
        let _ = &self.call_sites;
        self.switch_count()
    }

    /// How many switch points were made, among which are those of all guards. Takes no memory.
    pub fn known_switches(&self) -> usize
        ensures known { are_known self.now ≡ true }
        ensures count { result ≡ length self.now.switches }
    {
        // Opens the invariant, by which the switch points of all guards were made.
        let _ = &self.call_sites;
        self.switch_count()
    }

    /// The call site of this number, unless it is released.
    pub fn call_site_at(&self, site: CallSiteId) -> Option<&CallSite>
        ensures { option_copied result ≡ unreleased self.now.call_sites site }
    {
        match self.call_sites.get(site.number() as usize) {
            Some(Some(row)) => Some(row),
            Some(None) => None,
            None => None,
        }
    }

    /// Whether there is a call site of this number, which isn't released.
    pub fn has_call_site(&self, site: CallSiteId) -> bool
        ensures { result ≡ not (is_missing self.now.call_sites site) }
    {
        self.call_site_at(site).is_some()
    }

    /// Whether there is a switch point of this number, which isn't released.
    pub fn has_switch(&self, point: SwitchId) -> bool
        ensures { result ≡ not (is_missing self.now.switches point) }
    {
        match self.switches.get(point.number() as usize) {
            Some(Some(_)) => true,
            Some(None) => false,
            None => false,
        }
    }

    /// Whether the switch point is valid (java.lang.invoke.SwitchPoint). One that isn't there or is released is not.
    pub fn is_valid(&self, point: SwitchId) -> bool
        ensures { result ≡ targets.is_valid self.now point }
    {
        match self.switches.get(point.number() as usize) {
            Some(Some(valid)) => *valid,
            Some(None) => false,
            None => false,
        }
    }
}
