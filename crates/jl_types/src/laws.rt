//! The laws of the definitions: each is the contract of a function that does nothing.

ghost use Rattle.std.specs.Prelude.{◌≡◌, ◌↔◌, ◌<◌, ◌≤◌, ◌++◌, ◌∷◌, [], ℕ, List, Some, None, Ok, Err, true, false, take, length, slice_get, find};
ghost use Rattle.std.specs.Prelude.{filter, not, ◌==◌, ◌&&◌, if◌then◌else◌, Decides, AllPairs, Contains};
ghost use Rattle.std.specs.List.{list_any};
ghost use Rattle.std.specs.Option.{option_map_or};
ghost use Rattle.jl_types.specs.declared.limits.Limits.{Limits};
ghost use Rattle.jl_types.specs.Events.Limits.{AreAllowed, IsWithin};
ghost use Rattle.jl_types.specs.declared.ids.MethodId.{MethodId};
ghost use Rattle.jl_types.specs.declared.answer.Throwable.{Throwable};
ghost use Rattle.jl_types.specs.declared.answer.Throwable.TheVariants.{NullPointerException};
ghost use Rattle.jl_types.specs.declared.answer.Unlinked.{Unlinked};
ghost use Rattle.jl_types.specs.declared.answer.Outcome.{Outcome};
ghost use Rattle.jl_types.specs.declared.answer.Recv.{Recv};
ghost use Rattle.jl_types.specs.declared.answer.Recv.TheVariants.{Null, Of};
ghost use Rattle.jl_types.specs.declared.answer.Answer.TheVariants as answer;
ghost use Rattle.jl_types.specs.declared.link.Link.{Link};
ghost use Rattle.jl_types.specs.declared.link.Link.TheVariants as link;
ghost use Rattle.jl_types.specs.declared.link.TableKind.{TableKind};
ghost use Rattle.jl_types.specs.Events.Event.{Event};
ghost use Rattle.jl_types.specs.declared.event.EventOf.TheVariants as event;
ghost use Rattle.jl_types.specs.declared.event.Made.TheVariants as made;
ghost use Rattle.jl_types.specs.declared.answer.Unlinked.TheVariants.{Gone};
ghost use Rattle.jl_types.specs.Events.Verdict.{Accepts, verdict, step};
ghost use Rattle.jl_types.specs.Values.World.{Class, Classes, Sites, World, unreleased};
ghost use Rattle.jl_types.specs.Values.Members.{is_concrete, is_package_private, is_present, lookup};
ghost use Rattle.jl_class.specs.Class.{ClassFile};
ghost use Rattle.jl_class.specs.Site.{Site};
ghost use Rattle.jl_class.specs.declared.site.Operand.TheVariants as operand;
ghost use Rattle.jl_pool.specs.declared.reference.CallSiteSpecifier.{CallSiteSpecifier};
ghost use Rattle.jl_types.specs.declared.ids.Place.{Place};
ghost use Rattle.jl_types.specs.Events.Definitions.{defined};
ghost use Rattle.jl_types.specs.Events.Retirement.{is_listed, is_of_any, retired, retires_site, targeted};
ghost use Rattle.jl_types.specs.Events.Release.{released_from};
ghost use Rattle.jl_types.specs.Values.Ancestry.{AreOrdered, IsAncestor, is_ancestor, ancestors, receivers, superclasses};
ghost use Rattle.jl_types.specs.Linkage.Overriding.{CanOverride, are_alike, can_override, is_visible, IsBridged};
ghost use Rattle.jl_types.specs.Linkage.Stages.{ResolvedCall, Selects, stage, bound_to, invocation_at};
ghost use Rattle.jl_types.specs.Linkage.Links.{scratch};
ghost use Rattle.jl_types.specs.Linkage.Calls.{answered, is_receiver, dispatch};
ghost use Rattle.jl_types.specs.Events.Fast.{entry_answer};
ghost use Rattle.jl_types.specs.Events.History.{world_after, scratch_after, installs, installed_at, Settled, installed, installed_links, kept};
ghost use Rattle.jl_types.specs.Events.Entries.{Entry, IsEntry, IsLegal, events_of, table_of, emptied, defines, classes_of};

/// After any events, the parents of a class were defined before it.
pub fn parents_come_first()
    ensures { (h : List Event) → AreOrdered (world_after h).classes.rows }
{}

/// A class is among its own ancestors, and ancestors of ancestors are ancestors. If parents come first, the test of
/// ancestors decides the relation.
pub fn ancestors_of_ancestors()
    ensures itself { (cs : Classes) (c : ℕ) (row : Class)
        → slice_get cs.rows c ≡ Some row → is_ancestor cs c c ≡ true }
    ensures onward { (cs : Classes) → AreOrdered cs.rows → (a b c : ℕ)
        → is_ancestor cs a b ≡ true → is_ancestor cs b c ≡ true → is_ancestor cs a c ≡ true }
    ensures decided { (cs : Classes) → AreOrdered cs.rows → (a x : ℕ) → Decides (is_ancestor cs a x) (IsAncestor cs.rows a x) }
{}

/// If parents come first, the list of a class's ancestors has exactly its ancestors.
pub fn ancestors_are_listed()
    ensures { (cs : Classes) → AreOrdered cs.rows → (a c : ℕ)
        → is_ancestor cs a c ≡ list_any (λ k. k == a) (ancestors cs.rows c) }
{}

/// The definition of a class leaves the ancestors of the others as they are. To the receivers of a class it adds the new class
/// if objects may be of the new one and it is below that class, and else none.
pub fn one_class_more()
    ensures ancestors { (cs : Classes) → AreOrdered cs.rows → (loader : ℕ) (file : ClassFile) (c : ℕ) → c < length cs.rows
        → ancestors (defined cs loader file).rows c ≡ ancestors cs.rows c }
    ensures receivers { (cs : Classes) → AreOrdered cs.rows → (loader : ℕ) (file : ClassFile) (c : ℕ)
        → let new = defined cs loader file in receivers new c
        ≡ receivers cs c ++ filter (λ x. is_concrete new x && is_ancestor new c x) (length cs.rows ∷ []) }
{}

/// The superclasses of a class, itself the first, are it and those of its direct superclass.
pub fn superclasses_upward()
    ensures { (cs : Classes) → AreOrdered cs.rows → (c : ℕ) (row : Class) → slice_get cs.rows c ≡ Some row
        → superclasses cs c ≡ c ∷ option_map_or (superclasses cs) row.superclass [] }
{}

/// If parents come first, the test of overriding decides the relation (JVMS SE 17 §5.4.5).
pub fn overriding_is_decided()
    ensures { (cs : Classes) → AreOrdered cs.rows → (c a : MethodId) → Decides (can_override cs c a) (CanOverride cs c a) }
{}

/// When a method overrides another one (JVMS SE 17 §5.4.5), which one walk up the superclasses decides:
///
/// - They have to be alike.
/// - If they are alike and the other one is visible, it does.
/// - If they are alike and the other one isn't visible, it does exactly if two things hold. The other one has no access flag. A class
///   between theirs, in the run-time package of the other one's class, declares a public or protected method that is alike.
pub fn overriding_in_one_walk()
    ensures alike { (cs : Classes) (c a : MethodId) → CanOverride cs c a → are_alike cs c a ≡ true }
    ensures visible { (cs : Classes) (c a : MethodId)
        → are_alike cs c a ≡ true → is_visible cs c a ≡ true → CanOverride cs c a }
    ensures bridged { (cs : Classes) → AreOrdered cs.rows → (c a : MethodId)
        → are_alike cs c a ≡ true → is_visible cs c a ≡ false
        → CanOverride cs c a ↔ ((is_package_private cs a ≡ true) × IsBridged cs c a) }
{}

/// A site has no link from scratch exactly if its calls are unlinked, for the same reason.
pub fn unlinked_calls()
    ensures { (w : World) (s : ℕ) (reason : Unlinked) (recv : Recv)
        → (scratch w s ≡ Err reason) ↔ (dispatch w s recv ≡ answer.Unlinked reason) }
{}

/// A link from scratch gives the answer of the call (Hölzle, Chambers and Ungar 1991).
pub fn links_give_the_answers()
    ensures fault { (w : World) (s : ℕ) (throwable : Throwable) (recv : Recv)
        → scratch w s ≡ Ok (link.Fault throwable) → dispatch w s recv ≡ answer.Throws throwable }
    ensures plain { (w : World) (s : ℕ) (m : MethodId) (recv : Recv)
        → scratch w s ≡ Ok (link.Plain m) → dispatch w s recv ≡ answer.Run m }
    ensures null { (w : World) (s : ℕ) (i : ResolvedCall)
        → stage w s ≡ Selects i → dispatch w s Null ≡ answer.Throws NullPointerException }
    ensures direct { (w : World) (s x : ℕ) (i : ResolvedCall) (outcome : Outcome)
        → stage w s ≡ Selects i → scratch w s ≡ Ok (link.Direct outcome)
        → is_receiver w.classes i x ≡ true → dispatch w s (Of x) ≡ answered outcome }
    ensures table { (w : World) (s x : ℕ) (kind : TableKind) (rows : List (ℕ × Outcome))
        → scratch w s ≡ Ok (link.Table kind rows)
        → is_concrete w.classes x ≡ true → dispatch w s (Of x) ≡ entry_answer kind (find (λ row. row.0 == x) rows) }
{}

/// An install is accepted exactly if it has 1 to 256 rows, of requested sites, none of them twice, and each link is the one
/// from scratch.
pub fn accepted_installs()
    ensures { (limits : Limits) (w : World) (rows : List (ℕ × Link))
        → (verdict limits w (event.Install rows) ≡ Ok made.Nothing) ↔ Accepts w rows }
{}

/// A site has an installed link exactly if it is settled with it. Then the site is requested, and its link from scratch was
/// that link in every world since an install of the site.
pub fn settled_links()
    ensures settled { (h : List Event) (s : ℕ) (l : Link) → (installed h s ≡ Some l) ↔ Settled h s l }
    ensures stayed { (h : List Event) (s : ℕ) (l : Link) → installed h s ≡ Some l
        → (since : ℕ) × (installed_at h since s ≡ true) × ((n : ℕ) → since < n → n ≤ length h → scratch_after h n s ≡ Ok l) }
    ensures requested { (h : List Event) (s : ℕ) (l : Link) → installed h s ≡ Some l → s < length (world_after h).places }
{}

/// The list of installed links has each site once, by rising number, and none is left out.
pub fn each_site_once()
    ensures rising { (h : List Event) → AllPairs (λ a b. a.0 < b.0) (installed_links h) }
    ensures each { (h : List Event) (s : ℕ) (l : Link) → (installed h s ≡ Some l) ↔ Contains (installed_links h) (s, l) }
{}

/// What one event more leaves installed at a site: its link from scratch afterwards, if the event installs the site or that
/// link was installed before.
pub fn one_event_more()
    ensures { (h : List Event) (e : Event) (s : ℕ)
        → installed (h ++ e ∷ []) s ≡ kept (installs s e) (installed h s) (scratch (world_after (h ++ e ∷ [])) s) }
{}

/// A beginning of a legal list is legal.
pub fn beginnings_are_legal()
    ensures { (limits : Limits) (entries : List Entry) → IsLegal limits entries → (n : ℕ) → IsLegal limits (take n entries) }
{}

/// The table of a legal list has a slot for each site that may be requested, with what is installed there after the list's
/// events. No site past the table was requested, so none has a link. No kind has more than the limits allow.
pub fn slots_are_the_links()
    ensures size { (limits : Limits) (entries : List Entry) → length (table_of limits entries) ≡ limits.sites }
    ensures links { (limits : Limits) (entries : List Entry) → IsLegal limits entries → (s : ℕ) → s < limits.sites
        → slice_get (table_of limits entries) s ≡ Some (installed (events_of entries) s) }
    ensures requested { (limits : Limits) (entries : List Entry) → IsLegal limits entries
        → length (world_after (events_of entries)).places ≤ limits.sites }
    ensures within { (limits : Limits) (entries : List Entry) → AreAllowed limits → IsLegal limits entries
        → IsWithin limits (world_after (events_of entries)) }
    ensures beyond { (limits : Limits) (entries : List Entry) → IsLegal limits entries → (s : ℕ) → limits.sites ≤ s
        → installed (events_of entries) s ≡ None }
{}

/// What the reply of an entry drops are the sites of its slots without a link, in order.
pub fn dropped_are_the_empty_slots()
    ensures { (limits : Limits) (h : List Event) (entry : Entry) → IsEntry limits h entry
        → entry.reply.dropped ≡ emptied entry.slots }
{}

/// A retirement takes the loaders' classes out of all lists of receivers, and leaves the sites in them without a link for good. No
/// other loader finds less than before. To retire a list of one loader is to retire that loader.
pub fn fewer_loaders()
    ensures receivers { (cs : Classes) (loaders : List ℕ) (c : ℕ)
        → receivers (retired cs loaders) c ≡ filter (λ x. not (is_of_any cs loaders x)) (receivers cs c) }
    ensures present { (cs : Classes) (loaders : List ℕ) (c : ℕ)
        → is_present (retired cs loaders) c ≡ (is_present cs c && not (is_of_any cs loaders c)) }
    ensures lookups { (cs : Classes) (loaders : List ℕ) (k : ℕ) (name : List ℕ) → is_listed loaders k ≡ false
        → lookup (retired cs loaders) k name ≡ lookup cs k name }
    ensures gone { (w : World) (loaders : List ℕ) (s : ℕ) → retires_site w loaders s ≡ true
        → scratch (step w (event.RetireAll loaders)) s ≡ Err Gone }
    ensures one { (w : World) (loader : ℕ) → step w (event.RetireAll (loader ∷ [])) ≡ step w (event.Retire loader) }
    ensures one_may { (limits : Limits) (w : World) (loader : ℕ) → (verdict limits w (event.RetireAll (loader ∷ [])) ≡ Ok made.Nothing)
        ↔ (verdict limits w (event.Retire loader) ≡ Ok made.Nothing) }
{}

/// A release takes away call sites and switch points. Those that go have nothing any more, and all others have what they had.
/// Numbers that were given count as before, so none is given again. An invokedynamic that is bound to a released call site has no
/// link then. No released call site holds a loader.
pub fn fewer_call_sites()
    ensures call_sites { (sites : Sites) (call_sites points : List ℕ) (c : ℕ) → unreleased (released_from sites call_sites points).call_sites c
        ≡ (if is_listed call_sites c then None else unreleased sites.call_sites c) }
    ensures switches { (sites : Sites) (call_sites points : List ℕ) (p : ℕ) → unreleased (released_from sites call_sites points).switches p
        ≡ (if is_listed points p then None else unreleased sites.switches p) }
    ensures numbers { (sites : Sites) (call_sites points : List ℕ) → let new = released_from sites call_sites points in
        (length new.call_sites ≡ length sites.call_sites) × (length new.switches ≡ length sites.switches) }
    ensures gone { (w : World) (call_sites points : List ℕ) (s c : ℕ) (place : Place) (site : Site) (specifier : CallSiteSpecifier (List ℕ))
        → slice_get w.places s ≡ Some place → invocation_at w.classes place ≡ Some site → site.operand ≡ operand.CallSite specifier
        → bound_to w s ≡ Some c → is_listed call_sites c ≡ true → scratch (step w (event.Release call_sites points)) s ≡ Err Gone }
    ensures targets { (w : World) (call_sites points : List ℕ) (loader c : ℕ) → let after = step w (event.Release call_sites points) in
        targeted after.classes after.sites.call_sites loader ≡ Some c → is_listed call_sites c ≡ false }
{}

/// There are as many classes after a list as events of it define one.
pub fn definitions_are_the_classes()
    ensures { (entries : List Entry) → classes_of entries ≡ length (filter defines (events_of entries)) }
{}
