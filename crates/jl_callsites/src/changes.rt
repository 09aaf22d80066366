//! New call sites and switch points, new targets, and switch points that become invalid (java.lang.invoke).

ghost use Rattle.std.specs.Prelude.{◌≡◌, ◌<◌, ◌≤◌, ◌^◌, nat_le, true, false, None, Some, Err, length, IfOk, IfErr, OnOk, OnErr};
ghost use Rattle.std.specs.List.{list_any};
ghost use Rattle.jl_types.specs.declared.refusal.CallSiteFault.{CallSiteFault};
ghost use Rattle.jl_types.specs.declared.refusal.OrMemory.TheVariants as or_memory;
ghost use Rattle.jl_types.specs.Values.World.{is_missing};
ghost use Rattle.jl_types.specs.Events.Verdict as events;
ghost use Rattle.jl_types.specs.Linkage.Targets as targets;
ghost use Rattle.jl_callsites.specs.Faults as faults;
ghost use Rattle.jl_types.specs.Linkage.Targets.{method_of};
ghost use Rattle.jl_callsites.specs.Known.{is_known, RunAsBefore, OthersRunAsBefore};

use crate::call_site::CallSite;
use crate::discard::discard_target;
use crate::sites::Sites;
use jl_hierarchy::Classes;
use jl_names::Name;
use jl_types::{CallSiteFault, CallSiteId, CallSiteKind, OrMemory, SwitchId, Target};
use std::alloc::AllocError;

impl Sites {
    /// Adds a call site of this kind and type with its first target (ConstantCallSite, MutableCallSite, VolatileCallSite).
    ///
    /// # Errors
    ///
    /// The first of these. Nothing has changed then.
    ///
    /// - `Full`: there are so many call sites already.
    /// - `TooDeep`: the target is deeper than 64, or has more than 255 parts.
    /// - The first fault of the target's parts. A guard comes before its parts, and the first part before the fallback.
    ///   - Of a guard: `UnknownSwitch`.
    ///   - Of a method: `UnknownMethod`, `NotStatic`, `WrongType` (WrongMethodTypeException).
    ///   - Of an invoker: `InvokerOrder`, `UnknownCallSite`, `WrongType`.
    /// - Want of memory.
    pub fn new_site(
        &mut self,
        classes: &Classes,
        kind: CallSiteKind,
        ty: Name,
        target: Target,
        most_call_sites: u32,
    ) -> Result<CallSiteId, OrMemory<CallSiteFault>>
        requires { most_call_sites ≤ 2 ^ 20 }
        ensures accepted { OnOk result (faults.new_site_fault most_call_sites classes.now self.old ty target ≡ None) }
        ensures number { IfOk result (λ site. site ≡ length self.old.call_sites) }
        ensures ok { OnOk result (self.new ≡ faults.with_site self.old kind ty target) }
        ensures runs { OnOk result (RunAsBefore self.old self.new) }
        ensures fault { (f : CallSiteFault) → result ≡ Err (or_memory.Fault f)
            → faults.new_site_fault most_call_sites classes.now self.old ty target ≡ Some f }
        ensures memory { result ≡ Err or_memory.Memory → faults.new_site_fault most_call_sites classes.now self.old ty target ≡ None }
        ensures err { OnErr result (self.new ≡ self.old) }
    {
        if let Some(fault) = self.new_site_fault(classes, ty.as_slice(), &target, most_call_sites) {
            discard_target(target);
            return Err(OrMemory::Fault(fault));
        }
        Ok(self.add_site(kind, ty, target)?)
    }

    /// The call site runs this target from now on (MutableCallSite.setTarget, VolatileCallSite.setTarget). Takes no memory.
    ///
    /// # Errors
    ///
    /// The first of these. Nothing has changed then.
    ///
    /// - `UnknownCallSite`.
    /// - `Constant`: the call site keeps its target (UnsupportedOperationException).
    /// - The faults of a target, as in [`new_site`](Sites::new_site).
    pub fn set_target(
        &mut self,
        classes: &Classes,
        site: CallSiteId,
        target: Target,
    ) -> Result<(), CallSiteFault>
        ensures accepted { OnOk result (faults.set_target_fault classes.now self.old site target ≡ None) }
        ensures ok { OnOk result (self.new ≡ faults.with_target self.old site target) }
        ensures runs { OnOk result (method_of self.new site ≡ targets.evaluated self.old site target) }
        ensures others { OnOk result (OthersRunAsBefore self.old self.new site) }
        ensures fault { IfErr result (λ f. faults.set_target_fault classes.now self.old site target ≡ Some f) }
        ensures err { OnErr result (self.new ≡ self.old) }
    {
        if let Some(fault) = self.set_target_fault(classes, site, &target) {
            discard_target(target);
            return Err(fault);
        }
        self.put_target(site, target);
        Ok(())
    }

    /// Adds a switch point, which is valid (java.lang.invoke.SwitchPoint).
    ///
    /// # Errors
    ///
    /// `Full` if there are so many already, else want of memory. Nothing has changed then.
    pub fn new_switch(&mut self, most_switches: u32) -> Result<SwitchId, OrMemory<CallSiteFault>>
        requires { most_switches ≤ 2 ^ 20 }
        ensures accepted { OnOk result (faults.new_switch_fault most_switches self.old ≡ None) }
        ensures number { IfOk result (λ point. point ≡ length self.old.switches) }
        ensures ok { OnOk result (self.new ≡ faults.with_switch self.old) }
        ensures runs { OnOk result (RunAsBefore self.old self.new) }
        ensures fault { (f : CallSiteFault) → result ≡ Err (or_memory.Fault f) → faults.new_switch_fault most_switches self.old ≡ Some f }
        ensures memory { result ≡ Err or_memory.Memory → faults.new_switch_fault most_switches self.old ≡ None }
        ensures err { OnErr result (self.new ≡ self.old) }
    {
        if let Some(fault) = self.new_switch_fault(most_switches) {
            return Err(OrMemory::Fault(fault));
        }
        Ok(self.add_switch()?)
    }

    /// The switch points are invalid from now on, for good (SwitchPoint.invalidateAll). The list may be empty, and a switch point in
    /// it may be invalid already or come twice. Takes no memory.
    ///
    /// # Errors
    ///
    /// `UnknownSwitch` if one of them isn't there or is released. Nothing has changed then.
    pub fn invalidate_all(&mut self, points: &[SwitchId]) -> Result<(), CallSiteFault>
        ensures accepted { OnOk result (faults.invalidate_fault self.old points.now ≡ None) }
        ensures ok { OnOk result (self.new ≡ faults.with_invalid self.old points.now) }
        ensures fault { IfErr result (λ f. faults.invalidate_fault self.old points.now ≡ Some f) }
        ensures err { OnErr result (self.new ≡ self.old) }
    {
        if let Some(fault) = self.invalidate_fault(points) {
            return Err(fault);
        }
        self.put_invalid(points);
        Ok(())
    }

    /// The switch points, which are there, are invalid from now on, for good: the second half of
    /// [`invalidate_all`](Sites::invalidate_all). Takes no memory.
    pub fn put_invalid(&mut self, points: &[SwitchId])
        requires { list_any (nat_le (length self.old.switches)) points.now ≡ false }
        ensures { self.new ≡ faults.with_invalid self.old points.now }
    {
        invalidate(self.switches.as_mut_slice(), points);
    }

    /// The call site, which is there, runs this target from now on: the second half of [`set_target`](Sites::set_target). The
    /// target's switch points are there, and it invokes only earlier call sites. Takes no memory.
    pub fn put_target(&mut self, site: CallSiteId, target: Target)
        requires there { is_missing self.old.call_sites site ≡ false }
        requires known { is_known (length self.old.switches) site target ≡ true }
        ensures put { self.new ≡ faults.with_target self.old site target }
        ensures runs { method_of self.new site ≡ targets.evaluated self.old site target }
        ensures others { OthersRunAsBefore self.old self.new site }
    {
        retarget_in(&mut self.call_sites, site, target);
    }

    /// Adds a call site: the second half of [`new_site`](Sites::new_site). There are fewer than there may be, and the target's
    /// switch points and invoked call sites are there.
    ///
    /// # Errors
    ///
    /// Want of memory. Nothing has changed then.
    pub fn add_site(
        &mut self,
        kind: CallSiteKind,
        ty: Name,
        target: Target,
    ) -> Result<CallSiteId, AllocError>
        requires room { length self.old.call_sites < 2 ^ 20 }
        requires known { is_known (length self.old.switches) (length self.old.call_sites) target ≡ true }
        ensures number { IfOk result (λ site. site ≡ length self.old.call_sites) }
        ensures ok { OnOk result (self.new ≡ faults.with_site self.old kind ty target) }
        ensures runs { OnOk result (RunAsBefore self.old self.new) }
        ensures err { OnErr result (self.new ≡ self.old) }
    {
        let site = CallSiteId::new(self.call_site_count() as u32);
        self.call_sites.push(Some(CallSite::new(kind, ty, target)))?;
        Ok(site)
    }

    /// Adds a switch point, which is valid: the second half of [`new_switch`](Sites::new_switch). There are fewer than there may be.
    ///
    /// # Errors
    ///
    /// Want of memory. Nothing has changed then.
    pub fn add_switch(&mut self) -> Result<SwitchId, AllocError>
        requires { length self.old.switches < 2 ^ 20 }
        ensures number { IfOk result (λ point. point ≡ length self.old.switches) }
        ensures ok { OnOk result (self.new ≡ faults.with_switch self.old) }
        ensures runs { OnOk result (RunAsBefore self.old self.new) }
        ensures err { OnErr result (self.new ≡ self.old) }
    {
        let point = SwitchId::new(self.switch_count() as u32);
        self.switches.push(Some(true))?;
        Ok(point)
    }
}

/// The call site of this number, which is there, runs this target from now on.
fn retarget_in(call_sites: &mut Vec<Option<CallSite>>, site: CallSiteId, target: Target)
    requires { is_missing call_sites.old.items site ≡ false }
    ensures { call_sites.new.items ≡ events.retargeted call_sites.old.items site target }
{
    retarget(call_sites.as_mut_slice(), site, target);
}

/// In the slice of all call sites, the one of this number, which is there, runs this target from now on.
fn retarget(call_sites: &mut [Option<CallSite>], site: CallSiteId, target: Target)
    requires { is_missing call_sites.old site ≡ false }
    ensures { call_sites.new ≡ events.retargeted call_sites.old site target }
{
    if let Some(row) = &mut call_sites[site.number() as usize] {
        row.retarget(target);
    }
}

/// The switch points, which are there, are invalid from now on.
fn invalidate(switches: &mut [Option<bool>], points: &[SwitchId])
    requires { list_any (nat_le (length switches.old)) points.now ≡ false }
    ensures { switches.new ≡ events.invalidated switches.old points.now }
{
    for point in points {
        switches[point.number() as usize] = Some(false);
    }
}
