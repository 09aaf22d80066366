//! What a call site runs now (java.lang.invoke: CallSite, CallSite.dynamicInvoker, SwitchPoint.guardWithTest; JVMS SE 17 §6.5, invokedynamic).

ghost use Rattle.std.specs.Prelude.{◌≡◌, ◌+◌, ◌^◌, ◌<◌};
ghost use Rattle.std.specs.Option.{option_copied};
ghost use Rattle.jl_types.specs.Linkage.Targets as targets;
ghost use Rattle.jl_callsites.specs.Earlier.{earlier_target};

use crate::sites::Sites;
use jl_types::{CallSiteId, MethodId, Part, Target, Work};

impl Sites {
    /// The method that the call site runs now, if there is such a call site, with one tick: this is an evaluation of a call site.
    /// Takes no memory.
    pub fn evaluate_counted(&self, site: CallSiteId, work: &mut Work) -> Option<MethodId>
        requires fits { work.old + 1 < 2 ^ 64 }
        ensures method { result ≡ targets.method_of self.now site }
        ensures ticks { work.new ≡ work.old + 1 }
    {
        work.tick();
        self.method_of(site)
    }

    /// The method that the call site runs now, if there is such a call site. Takes no memory.
    pub fn method_of(&self, site: CallSiteId) -> Option<MethodId>
        ensures { result ≡ targets.method_of self.now site }
    {
        self.evaluated(site, self.call_site_at(site)?.target())
    }

    /// The method that the target, as one of this call site, stands for now. It goes down one path of each target. Takes no memory.
    ///
    /// - A method stands for itself.
    /// - A guard stands for what its first part does while its switch point is valid, and then for what its fallback does.
    /// - An invoker stands for what its call site runs, which has to come before this one.
    pub fn evaluated(&self, site: CallSiteId, target: &Target) -> Option<MethodId>
        ensures { result ≡ targets.evaluated self.now site target.now }
    {
        let mut site = site;
        let mut target = target;
        loop {
            match &target.part {
                Part::Method(method) => return Some(*method),
                Part::Guard(point, first, fallback) => {
                    target = if self.is_valid(*point) {
                        first
                    } else {
                        fallback
                    };
                }
                Part::Invoker(invoked) => {
                    target = self.earlier_target(*invoked, site)?;
                    site = *invoked;
                }
            }
        }
    }

    /// The target of the invoked call site, if it comes before this one.
    pub fn earlier_target(&self, invoked: CallSiteId, site: CallSiteId) -> Option<&Target>
        ensures { option_copied result ≡ earlier_target self.now invoked site }
    {
        if invoked.number() >= site.number() {
            return None;
        }
        Some(self.call_site_at(invoked)?.target())
    }
}
