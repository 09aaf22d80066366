//! The laws of links: each is the contract of a function that does nothing.

ghost use Rattle.std.specs.Prelude.{◌≡◌, ℕ, ◌++◌, ◌∷◌, [], List, Ok, IsOk, true, false};
ghost use Rattle.jl_types.specs.declared.limits.Limits.{Limits};
ghost use Rattle.jl_types.specs.Events.Event.{Event};
ghost use Rattle.jl_types.specs.declared.event.EventOf.TheVariants as event;
ghost use Rattle.jl_types.specs.declared.ids.Place.{Place};
ghost use Rattle.jl_types.specs.declared.link.Link.{Link};
ghost use Rattle.jl_types.specs.declared.target.CallSiteKind.{CallSiteKind};
ghost use Rattle.jl_types.specs.Events.Verdict.{verdict, step};
ghost use Rattle.jl_types.specs.Events.History.{world_after, Settled};
ghost use Rattle.jl_types.specs.Linkage.Links.{scratch};
ghost use Rattle.jl_class.specs.Class.{ClassFile};
ghost use Rattle.jl_types.specs.Values.Target.{Target};
ghost use Rattle.jl_types.specs.Values.World.{World};
ghost use Rattle.jl_callsites.specs.Known.{RunAsBefore};
ghost use Rattle.jl_select.specs.Constancy.{IsConstant};
ghost use Rattle.jl_types.specs.Events.Footprints.{retires, touches, most_for};
ghost use Rattle.jl_relink.specs.Laws.{LinksStay, IsInOrder, SiteStays, OneMore, AreAccepted, changes_receivers};

/// The events that change no link: a site that has a link has the same one afterwards.
///
/// A delegation is one of these if what was resolved and selected stays. A new switch point is one if each call site runs what it ran
/// before.
pub fn links_stay()
    ensures new_loader { (w : World) → LinksStay w event.NewLoader }
    ensures delegate { (w : World) (loader : ℕ) (name : List ℕ) (to : ℕ)
        → IsConstant w.classes (step w (event.Delegate loader name to)).classes → LinksStay w (event.Delegate loader name to) }
    ensures request { (w : World) (place : Place) → LinksStay w (event.Request place) }
    ensures new_call_site { (w : World) (kind : CallSiteKind) (ty : List ℕ) (t : Target)
        → LinksStay w (event.NewCallSite kind ty t) }
    ensures new_switch { (w : World) → RunAsBefore w.sites (step w event.NewSwitch).sites → LinksStay w event.NewSwitch }
    ensures bind { (w : World) (s c : ℕ) → LinksStay w (event.Bind s c) }
    ensures install { (w : World) (rows : List (ℕ × Link)) → LinksStay w (event.Install rows) }
{}

/// An accepted event that changes nothing of what a site's link rests on, and doesn't retire the site, leaves the link, and what it
/// rests on. This holds
///
/// - of a settled site, after accepted events
/// - of a site that has a link, in any world whose classes came in order and whose guards and invokers have what they name
pub fn untouched_links_stay()
    ensures settled { (limits : Limits) (h : List Event) (e : Event) (s : ℕ) (l : Link) → AreAccepted limits h
        → IsOk (verdict limits (world_after h) e) → Settled h s l → retires (world_after h) e s ≡ false
        → touches (world_after h) e s ≡ false → SiteStays (world_after h) (world_after (h ++ e ∷ [])) s l }
    ensures linked { (limits : Limits) (w : World) (e : Event) (s : ℕ) (l : Link) → IsInOrder w → IsOk (verdict limits w e)
        → retires w e s ≡ false → touches w e s ≡ false → scratch w s ≡ Ok l → SiteStays w (step w e) s l }
{}

/// After accepted events classes came in order, and each guard has its switch point and each invoker its call site.
pub fn accepted_events_are_in_order()
    ensures { (limits : Limits) (h : List Event) → AreAccepted limits h → IsInOrder (world_after h) }
{}

/// If a definition touches a site, the link and the outcome of the new class as a receiver tell whether the link stays. No other
/// receiver counts. What the site's link rests on stays.
pub fn one_receiver_more()
    ensures { (w : World) (loader : ℕ) (file : ClassFile) (s : ℕ) (l : Link) → IsInOrder w
        → touches w (event.Define loader file) s ≡ true → scratch w s ≡ Ok l → OneMore w loader file s l }
{}

/// A site that an event other than a definition or a retirement touches takes one evaluation afterwards.
pub fn touched_sites_take_one_evaluation()
    ensures { (w : World) (e : Event) (s : ℕ) → changes_receivers e ≡ false → touches w e s ≡ true → most_for (step w e) s ≡ 1 }
{}
