//! The laws of call sites: contracts of functions that do nothing.

ghost use Rattle.std.specs.Prelude.{◌≡◌, ℕ, List, length};
ghost use Rattle.jl_types.specs.declared.limits.Limits.{Limits};
ghost use Rattle.jl_types.specs.declared.event.EventOf.TheVariants as event;
ghost use Rattle.jl_types.specs.declared.event.Made.TheVariants as made;
ghost use Rattle.jl_types.specs.declared.target.CallSiteKind.{CallSiteKind};
ghost use Rattle.jl_types.specs.Values.Target.{Target};
ghost use Rattle.jl_types.specs.Values.World.{World};
ghost use Rattle.jl_class.specs.declared.site.Kind.{Kind};
ghost use Rattle.jl_class.specs.declared.site.Operand.TheVariants as operand;
ghost use Rattle.jl_pool.specs.declared.reference.CallSiteSpecifier.{CallSiteSpecifier};
ghost use Rattle.jl_types.specs.Linkage.Stages.{by_binding, by_operand, bound_to};
ghost use Rattle.jl_callsites.specs.Faults as faults;
ghost use Rattle.jl_callsites.specs.Laws.{ComesTo, Releases};

/// What the events of call sites and switch points do at a world: the changes of its classes and sites, whatever else is in it.
pub fn events_of_call_sites()
    ensures new_site { (limits : Limits) (w : World) (kind : CallSiteKind) (ty : List ℕ) (t : Target)
        → ComesTo limits w (event.NewCallSite kind ty t) (faults.new_site_fault limits.call_sites w.classes w.sites ty t)
        (made.CallSite (length w.sites.call_sites)) (faults.with_site w.sites kind ty t) }
    ensures set_target { (limits : Limits) (w : World) (c : ℕ) (t : Target)
        → ComesTo limits w (event.SetTarget c t) (faults.set_target_fault w.classes w.sites c t)
        made.Nothing (faults.with_target w.sites c t) }
    ensures new_switch { (limits : Limits) (w : World)
        → ComesTo limits w event.NewSwitch (faults.new_switch_fault limits.switches w.sites)
        (made.Switch (length w.sites.switches)) (faults.with_switch w.sites) }
    ensures invalidate { (limits : Limits) (w : World) (points : List ℕ)
        → ComesTo limits w (event.Invalidate points) (faults.invalidate_fault w.sites points)
        made.Nothing (faults.with_invalid w.sites points) }
    ensures release { (limits : Limits) (w : World) (call_sites points : List ℕ) → Releases limits w call_sites points }
{}

/// An invokedynamic runs what its call site runs (JVMS SE 17 §6.5).
pub fn bound_sites_run()
    ensures { (w : World) (s d : ℕ) (kind : Kind) (specifier : CallSiteSpecifier (List ℕ)) → by_operand w s d kind (operand.CallSite specifier)
        ≡ by_binding w.sites (bound_to w s) }
{}
