//! Why a call site or a switch point isn't made or changed (java.lang.invoke).

ghost use Rattle.std.specs.Prelude.{◌≡◌, ◌<◌, nat_le, nat_lt, true, false, None, length};
ghost use Rattle.std.specs.List.{list_any};
ghost use Rattle.jl_types.specs.Values.World.{is_missing};
ghost use Rattle.jl_types.specs.Linkage.Targets as targets;
ghost use Rattle.jl_callsites.specs.Faults as faults;
ghost use Rattle.jl_callsites.specs.Faults.{world_of};
ghost use Rattle.jl_callsites.specs.Known.{is_known};

use crate::sites::Sites;
use crate::size::is_too_large;
use jl_class::begins_special;
use jl_hierarchy::Classes;
use jl_types::{CallSiteFault, CallSiteId, MethodId, Part, SwitchId, Target};

impl Sites {
    /// Why a call site of this type isn't made with this target, where there may be so many call sites. Takes no memory.
    pub fn new_site_fault(
        &self,
        classes: &Classes,
        ty: &[u8],
        target: &Target,
        most_call_sites: u32,
    ) -> Option<CallSiteFault>
        ensures first { result ≡ faults.new_site_fault most_call_sites classes.now self.now ty.now target.now }
        ensures room { result ≡ None → length self.now.call_sites < most_call_sites }
        ensures known { result ≡ None → is_known (length self.now.switches) (length self.now.call_sites) target.now ≡ true }
    {
        let count = self.call_site_count();
        if count >= most_call_sites as usize {
            return Some(CallSiteFault::Full);
        }
        self.target_fault(classes, CallSiteId::new(count as u32), ty, target)
    }

    /// Why the call site doesn't get this target. Takes no memory.
    pub fn set_target_fault(
        &self,
        classes: &Classes,
        site: CallSiteId,
        target: &Target,
    ) -> Option<CallSiteFault>
        ensures first { result ≡ faults.set_target_fault classes.now self.now site target.now }
        ensures there { result ≡ None → is_missing self.now.call_sites site ≡ false }
        ensures known { result ≡ None → is_known (length self.now.switches) site target.now ≡ true }
    {
        let Some(row) = self.call_site_at(site) else {
            return Some(CallSiteFault::UnknownCallSite);
        };
        if row.is_constant() {
            return Some(CallSiteFault::Constant);
        }
        self.target_fault(classes, site, row.ty().as_slice(), target)
    }

    /// Why no switch point is made, where there may be so many. Takes no memory.
    pub fn new_switch_fault(&self, most_switches: u32) -> Option<CallSiteFault>
        ensures first { result ≡ faults.new_switch_fault most_switches self.now }
        ensures room { result ≡ None → length self.now.switches < most_switches }
    {
        if self.switch_count() >= most_switches as usize {
            Some(CallSiteFault::Full)
        } else {
            None
        }
    }

    /// Why the switch points don't become invalid. Takes no memory.
    pub fn invalidate_fault(&self, points: &[SwitchId]) -> Option<CallSiteFault>
        ensures first { result ≡ faults.invalidate_fault self.now points.now }
        ensures there { result ≡ None → list_any (nat_le (length self.now.switches)) points.now ≡ false }
    {
        if self.lacks_one_of(points) {
            Some(CallSiteFault::UnknownSwitch)
        } else {
            None
        }
    }

    /// Whether one of the switch points isn't there.
    fn lacks_one_of(&self, points: &[SwitchId]) -> bool
        ensures { result ≡ list_any (is_missing self.now.switches) points.now }
    {
        points.iter().any(|point| !self.has_switch(*point))
    }

    /// Why the call site, of this type, doesn't get this target: its size, and then its parts.
    fn target_fault(
        &self,
        classes: &Classes,
        site: CallSiteId,
        ty: &[u8],
        target: &Target,
    ) -> Option<CallSiteFault>
        ensures first { result ≡ targets.target_fault (world_of classes.now self.now) site ty.now target.now }
        ensures known { result ≡ None → is_known (length self.now.switches) site target.now ≡ true }
    {
        if is_too_large(target) {
            return Some(CallSiteFault::TooDeep);
        }
        self.part_fault(classes, site, ty, target)
    }

    /// Why a part of a call site's target isn't taken: a guard before its parts, and the first part before the fallback.
    fn part_fault(
        &self,
        classes: &Classes,
        site: CallSiteId,
        ty: &[u8],
        target: &Target,
    ) -> Option<CallSiteFault>
        ensures first { result ≡ targets.part_fault (world_of classes.now self.now) site ty.now target.now }
        ensures known { result ≡ None → is_known (length self.now.switches) site target.now ≡ true }
    {
        match &target.part {
            Part::Method(method) => method_fault(classes, ty, method),
            Part::Guard(point, first, fallback) => {
                if self.lacks_switch(*point) {
                    return Some(CallSiteFault::UnknownSwitch);
                }
                match self.part_fault(classes, site, ty, first) {
                    Some(fault) => Some(fault),
                    None => self.part_fault(classes, site, ty, fallback),
                }
            }
            Part::Invoker(invoked) => self.invoker_fault(site, ty, *invoked),
        }
    }

    /// Why the call site, of this type, doesn't run what the other one runs.
    fn invoker_fault(
        &self,
        site: CallSiteId,
        ty: &[u8],
        invoked: CallSiteId,
    ) -> Option<CallSiteFault>
        ensures first { result ≡ faults.invoker_fault self.now site ty.now invoked }
        ensures known { result ≡ None → nat_lt invoked site ≡ true }
    {
        if invoked.number() >= site.number() {
            return Some(CallSiteFault::InvokerOrder(invoked));
        }
        match self.call_site_at(invoked) {
            Some(row) if row.ty().as_slice() == ty => None,
            Some(_) => Some(CallSiteFault::WrongType),
            None => Some(CallSiteFault::UnknownCallSite),
        }
    }

    /// Whether there is no such switch point, or it is released.
    fn lacks_switch(&self, point: SwitchId) -> bool
        ensures missing { result ≡ is_missing self.now.switches point }
        ensures known { result ≡ false → nat_lt point (length self.now.switches) ≡ true }
    {
        !self.has_switch(point)
    }
}

/// Why a call site of this type doesn't run the method: it isn't there or its name begins with `<`, it isn't static, or it is of another
/// type.
fn method_fault(classes: &Classes, ty: &[u8], method: &MethodId) -> Option<CallSiteFault>
    ensures { result ≡ faults.method_fault classes.now ty.now method.now }
{
    let Some(found) = classes.method_at(method) else {
        return Some(CallSiteFault::UnknownMethod);
    };
    if !classes.is_present(method.class) || begins_special(found.name().as_slice()) {
        return Some(CallSiteFault::UnknownMethod);
    }
    if !classes.is_static(method) {
        return Some(CallSiteFault::NotStatic);
    }
    if found.ty().as_slice() != ty {
        return Some(CallSiteFault::WrongType);
    }
    None
}
