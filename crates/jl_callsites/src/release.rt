//! Call sites and switch points that are let go (java.lang.invoke).

ghost use Rattle.std.specs.Prelude.{◌≡◌, ◌||◌, nat_le, false, None, find, length, IfOk};
ghost use Rattle.std.specs.List.{list_any};
ghost use Rattle.jl_types.specs.Values.World.{is_missing};
ghost use Rattle.jl_types.specs.Events.Retirement.{is_listed};
ghost use Rattle.jl_types.specs.Events.Release as release;
ghost use Rattle.jl_callsites.specs.Marks as marking;

use crate::call_site::CallSite;
use crate::sites::Sites;
use jl_types::{CallSiteId, Part, ReleaseFault, SwitchId, Target};
use std::alloc::{AllocError, Global};

impl Sites {
    /// Why these call sites and switch points aren't let go. It is the first of these that there is:
    ///
    /// - a call site of the list that isn't there or is released
    /// - a switch point of the list that isn't there or is released
    /// - the least call site that stays and invokes one of the call sites
    /// - the least call site that stays and guards by one of the switch points
    ///
    /// If nothing speaks against it, it is one walk over all targets, unless there is no memory for a mark of each number.
    pub fn release_fault(
        &self,
        alloc: Global,
        call_sites: &[CallSiteId],
        points: &[SwitchId],
    ) -> Option<ReleaseFault>
        ensures { result ≡ release.release_fault self.now call_sites.now points.now }
    {
        if let Some(site) = self.first_missing_site(call_sites) {
            return Some(ReleaseFault::UnknownCallSite(site));
        }
        if let Some(point) = self.first_missing_switch(points) {
            return Some(ReleaseFault::UnknownSwitch(point));
        }
        if let Ok(None) = self.first_needing(alloc, call_sites, points) {
            return None;
        }
        if let Some(site) = self.first_invoking(call_sites) {
            return Some(ReleaseFault::Invoked(CallSiteId::new(site)));
        }
        if let Some(site) = self.first_guarding(call_sites, points) {
            return Some(ReleaseFault::Guarded(CallSiteId::new(site)));
        }
        None
    }

    /// The first one of the call sites that isn't there or is released.
    fn first_missing_site(&self, call_sites: &[CallSiteId]) -> Option<CallSiteId>
        ensures { result ≡ find (is_missing self.now.call_sites) call_sites.now }
    {
        call_sites
            .iter()
            .copied()
            .find(|site| !self.has_call_site(*site))
    }

    /// The first one of the switch points that isn't there or is released.
    fn first_missing_switch(&self, points: &[SwitchId]) -> Option<SwitchId>
        ensures { result ≡ find (is_missing self.now.switches) points.now }
    {
        points
            .iter()
            .copied()
            .find(|point| !self.has_switch(*point))
    }

    /// The number of the least call site that stays and invokes one of these.
    fn first_invoking(&self, call_sites: &[CallSiteId]) -> Option<u32>
        ensures { result ≡ release.first_with self.now call_sites.now (release.invokes_one call_sites.now) }
    {
        let count = self.few_call_sites() as u32;
        (0..count).find(|site| self.stays_invoking(call_sites, CallSiteId::new(*site)))
    }

    /// Whether the call site stays and invokes one of these.
    fn stays_invoking(&self, call_sites: &[CallSiteId], site: CallSiteId) -> bool
        ensures { result ≡ release.stays_with self.now call_sites.now (release.invokes_one call_sites.now) site }
    {
        match self.call_site_at(site) {
            Some(row) => !is_site_listed(call_sites, site) && invokes_one(call_sites, row.target()),
            None => false,
        }
    }

    /// The number of the least call site that stays and guards by one of the switch points.
    fn first_guarding(&self, call_sites: &[CallSiteId], points: &[SwitchId]) -> Option<u32>
        ensures { result ≡ release.first_with self.now call_sites.now (release.guards_by_one points.now) }
    {
        let count = self.few_call_sites() as u32;
        (0..count).find(|site| self.stays_guarding(call_sites, points, CallSiteId::new(*site)))
    }

    /// Whether the call site stays and guards by one of the switch points.
    fn stays_guarding(
        &self,
        call_sites: &[CallSiteId],
        points: &[SwitchId],
        site: CallSiteId,
    ) -> bool
        ensures { result ≡ release.stays_with self.now call_sites.now (release.guards_by_one points.now) site }
    {
        match self.call_site_at(site) {
            Some(row) => !is_site_listed(call_sites, site) && guards_by_one(points, row.target()),
            None => false,
        }
    }

    /// The number of the least call site that stays and needs one of the call sites or of the switch points, all of which are there.
    fn first_needing(
        &self,
        alloc: Global,
        call_sites: &[CallSiteId],
        points: &[SwitchId],
    ) -> Result<Option<u32>, AllocError>
        requires call_sites { list_any (nat_le (length self.now.call_sites)) call_sites.now ≡ false }
        requires points { list_any (nat_le (length self.now.switches)) points.now ≡ false }
        ensures { IfOk result (λ first. first ≡ marking.first_marked self.now
            (marking.marked (length self.now.call_sites) call_sites.now) (marking.marked (length self.now.switches) points.now)) }
    {
        let sites = marked_sites(alloc, self.call_site_count(), call_sites)?;
        let switches = marked_switches(alloc, self.switch_count(), points)?;
        Ok(self.first_marked(sites.as_slice(), switches.as_slice()))
    }

    /// The number of the least call site that isn't marked and needs a call site or a switch point that is marked.
    fn first_marked(&self, sites: &[bool], switches: &[bool]) -> Option<u32>
        ensures { result ≡ marking.first_marked self.now sites.now switches.now }
    {
        let count = self.few_call_sites() as u32;
        (0..count).find(|site| self.stays_needing(sites, switches, CallSiteId::new(*site)))
    }

    /// Whether the call site isn't marked and needs a call site or a switch point that is marked.
    fn stays_needing(&self, sites: &[bool], switches: &[bool], site: CallSiteId) -> bool
        ensures { result ≡ marking.stays_needing self.now sites.now switches.now site }
    {
        match self.call_site_at(site) {
            Some(row) => {
                !is_marked(sites, site.number()) && needs_marked(sites, switches, row.target())
            }
            None => false,
        }
    }

    /// The call sites and switch points, which are there, are let go. They keep their numbers. Takes no memory.
    pub fn put_released(&mut self, call_sites: &[CallSiteId], points: &[SwitchId])
        requires call_sites { list_any (is_missing self.old.call_sites) call_sites.now ≡ false }
        requires points { list_any (is_missing self.old.switches) points.now ≡ false }
        ensures { self.new ≡ release.released_from self.old call_sites.now points.now }
    {
        release_sites_in(&mut self.call_sites, call_sites);
        release_switches_in(&mut self.switches, points);
    }
}

/// Whether the call site is one of these.
fn is_site_listed(call_sites: &[CallSiteId], site: CallSiteId) -> bool
    ensures { result ≡ is_listed call_sites.now site }
{
    call_sites.iter().any(|other| *other == site)
}

/// Whether the switch point is one of these.
fn is_switch_listed(points: &[SwitchId], point: SwitchId) -> bool
    ensures { result ≡ is_listed points.now point }
{
    points.iter().any(|other| *other == point)
}

/// Whether the target invokes one of the call sites, be it on a side that isn't taken.
fn invokes_one(call_sites: &[CallSiteId], target: &Target) -> bool
    ensures { result ≡ release.invokes_one call_sites.now target.now }
{
    match &target.part {
        Part::Method(_) => false,
        Part::Guard(_, first, fallback) => {
            invokes_one(call_sites, first) || invokes_one(call_sites, fallback)
        }
        Part::Invoker(site) => is_site_listed(call_sites, *site),
    }
}

/// Whether the target guards by one of the switch points, be it on a side that isn't taken.
fn guards_by_one(points: &[SwitchId], target: &Target) -> bool
    ensures { result ≡ release.guards_by_one points.now target.now }
{
    match &target.part {
        Part::Method(_) => false,
        Part::Guard(point, first, fallback) => {
            is_switch_listed(points, *point)
                || guards_by_one(points, first)
                || guards_by_one(points, fallback)
        }
        Part::Invoker(_) => false,
    }
}

/// Whether the target invokes a marked call site or guards by a marked switch point, be it on a side that isn't taken.
fn needs_marked(sites: &[bool], switches: &[bool], target: &Target) -> bool
    ensures { result ≡ marking.needs_marked sites.now switches.now target.now }
{
    match &target.part {
        Part::Method(_) => false,
        Part::Guard(point, first, fallback) => {
            is_marked(switches, point.number())
                || needs_marked(sites, switches, first)
                || needs_marked(sites, switches, fallback)
        }
        Part::Invoker(site) => is_marked(sites, site.number()),
    }
}

/// Whether the number is marked.
fn is_marked(marks: &[bool], number: u32) -> bool
    ensures { result ≡ marking.is_marked marks.now number }
{
    match marks.get(number as usize) {
        Some(mark) => *mark,
        None => false,
    }
}

/// A mark for each of so many call sites: whether it is listed.
fn marked_sites(alloc: Global, count: usize, listed: &[CallSiteId]) -> Result<Vec<bool>, AllocError>
    requires { list_any (nat_le count) listed.now ≡ false }
    ensures { IfOk result (λ marks. marks.items ≡ marking.marked count listed.now) }
{
    let mut marks = vec![in alloc; false; count]?;
    mark_sites(marks.as_mut_slice(), listed);
    Ok(marks)
}

/// These call sites are marked.
fn mark_sites(marks: &mut [bool], listed: &[CallSiteId])
    requires { list_any (nat_le (length marks.old)) listed.now ≡ false }
    ensures { marks.new ≡ marking.with_marks marks.old listed.now }
{
    for site in listed {
        marks[site.number() as usize] = true;
    }
}

/// A mark for each of so many switch points: whether it is listed.
fn marked_switches(
    alloc: Global,
    count: usize,
    listed: &[SwitchId],
) -> Result<Vec<bool>, AllocError>
    requires { list_any (nat_le count) listed.now ≡ false }
    ensures { IfOk result (λ marks. marks.items ≡ marking.marked count listed.now) }
{
    let mut marks = vec![in alloc; false; count]?;
    mark_switches(marks.as_mut_slice(), listed);
    Ok(marks)
}

/// These switch points are marked.
fn mark_switches(marks: &mut [bool], listed: &[SwitchId])
    requires { list_any (nat_le (length marks.old)) listed.now ≡ false }
    ensures { marks.new ≡ marking.with_marks marks.old listed.now }
{
    for point in listed {
        marks[point.number() as usize] = true;
    }
}

/// These call sites are let go.
fn release_sites_in(rows: &mut Vec<Option<CallSite>>, going: &[CallSiteId])
    requires { list_any (nat_le (length rows.old.items)) going.now ≡ false }
    ensures { rows.new.items ≡ release.without rows.old.items going.now }
{
    release_sites(rows.as_mut_slice(), going);
}

/// These switch points are let go.
fn release_switches_in(rows: &mut Vec<Option<bool>>, going: &[SwitchId])
    requires { list_any (nat_le (length rows.old.items)) going.now ≡ false }
    ensures { rows.new.items ≡ release.without rows.old.items going.now }
{
    release_switches(rows.as_mut_slice(), going);
}

/// In the slice of all call sites, these are let go.
fn release_sites(rows: &mut [Option<CallSite>], going: &[CallSiteId])
    requires { list_any (nat_le (length rows.old)) going.now ≡ false }
    ensures { rows.new ≡ release.without rows.old going.now }
{
    for site in going {
        rows[site.number() as usize] = None;
    }
}

/// In the slice of all switch points, these are let go.
fn release_switches(rows: &mut [Option<bool>], going: &[SwitchId])
    requires { list_any (nat_le (length rows.old)) going.now ≡ false }
    ensures { rows.new ≡ release.without rows.old going.now }
{
    for point in going {
        rows[point.number() as usize] = None;
    }
}
