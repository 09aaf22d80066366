//! The laws of a renewal: each is the contract of a function that does nothing.

ghost use Rattle.std.specs.Prelude.{◌≡◌, ◌↔◌, ℕ, nat_lt, List, ◌++◌, map, fold, Some, None, true, false, is_some, Contains, IsOk};
ghost use Rattle.std.specs.Bool.{then_some};
ghost use Rattle.std.specs.List.{list_all};
ghost use Rattle.jl_types.specs.declared.limits.Limits.{Limits};
ghost use Rattle.jl_types.specs.declared.refusal.Refusal.TheVariants.{SitesFull};
ghost use Rattle.jl_types.specs.declared.answer.Recv.{Recv};
ghost use Rattle.jl_types.specs.declared.event.EventOf.TheVariants as event;
ghost use Rattle.jl_types.specs.declared.link.Link.{Link};
ghost use Rattle.jl_types.specs.Linkage.Links.{scratch};
ghost use Rattle.jl_types.specs.Linkage.Calls.{dispatch};
ghost use Rattle.jl_types.specs.Events.Event.{Event};
ghost use Rattle.jl_types.specs.Events.Limits.{AreAllowed, AreNoFewer};
ghost use Rattle.jl_types.specs.Events.History.{world_after};
ghost use Rattle.jl_types.specs.declared.event.Made.{Made};
ghost use Rattle.jl_types.specs.declared.event.Reply.{Reply};
ghost use Rattle.jl_types.specs.Values.World.{World};
ghost use Rattle.jl_types.specs.Events.Verdict.{verdict, step};
ghost use Rattle.jl_relink.specs.Laws.{AreAccepted, has_read_file};
ghost use Rattle.jl_core.specs.State.{State, events, world_of, links_of, IsAccepted};
ghost use Rattle.jl_core.specs.Logs.{Entry};
ghost use Rattle.jl_renewal.specs.declared.released.Released.{Released};
ghost use Rattle.jl_renewal.specs.Numbers.{Numbers, how_many, renumbered};
ghost use Rattle.jl_renewal.specs.Staying.{numbers_of, staying_sites, is_alive};
ghost use Rattle.jl_renewal.specs.Renewal.{IsRenewal, IsRefilled, CameFrom, renewal, renewal_fault, fresh_rows};
ghost use Rattle.jl_renewal.specs.Adds.{Follow, Installs, InstallsFront};
ghost use Rattle.jl_renewal.specs.Carries.{carried, IsMade};
ghost use Rattle.jl_renewal.specs.Moved.{Flags, flags_of, AreThere, may_be_gone, moved_world, IsBeside, HaveSameLinks, HasNoOtherLinks, HasLinksOf};
ghost use Rattle.jl_renewal.specs.Moved.{renumbered_install};
ghost use Rattle.jl_renewal.specs.Renewed.{has_few_rows, renewed, renumbered_links, renumbered_result};
ghost use Rattle.jl_renewal.specs.Renewed.{renumbered_answer, renumbered_receiver, IsPresentReceiver};

/// No event of a renewal is refused if the fresh core may have what stays. What there is to link there is what stays of the old one.
pub fn renewals_are_accepted()
    ensures accepted { (old : State) (released : Released) (limits : Limits) → AreAccepted old.limits (events old)
        → renewal_fault limits (world_of old) released ≡ None → AreAccepted limits (renewal old released) }
    ensures world { (old : State) (released : Released) → AreAccepted old.limits (events old)
        → world_after (renewal old released) ≡ renewed (world_of old) released }
{}

/// If a fresh core has the limits of the old one but for how many sites it may have, only sites can be too many. It is refused exactly if
/// more sites stay than it may have, and by `SitesFull`.
pub fn only_sites_can_be_short()
    ensures { (old : State) (released : Released) (max_sites : ℕ) → AreAllowed old.limits → AreAccepted old.limits (events old)
        → renewal_fault (record old.limits { sites = max_sites }) (world_of old) released
        ≡ then_some (nat_lt max_sites (how_many (staying_sites (world_of old).classes (world_of old).places))) SitesFull }
{}

/// Linking commutes with renumbering: of each site that isn't gone, the link from scratch, and each call's answer, is the same under new
/// numbers. A site is gone if its class is retired, or if its call site is released. One whose call site is released stays, and is no
/// longer bound in the fresh core, so its bootstrap method may give another call site there.
pub fn linking_commutes()
    ensures links { (old : State) (released : Released) → AreAccepted old.limits (events old)
        → (s : ℕ) → is_alive (world_of old) s ≡ true
        → scratch (renewed (world_of old) released) (renumbered (numbers_of (world_of old) released).sites s)
        ≡ renumbered_result (numbers_of (world_of old) released) (scratch (world_of old) s) }
    ensures calls { (old : State) (released : Released) → AreAccepted old.limits (events old)
        → (s : ℕ) (recv : Recv) → is_alive (world_of old) s ≡ true → IsPresentReceiver (world_of old).classes recv
        → dispatch (renewed (world_of old) released) (renumbered (numbers_of (world_of old) released).sites s)
        (renumbered_receiver (numbers_of (world_of old) released) recv)
        ≡ renumbered_answer (numbers_of (world_of old) released) (dispatch (world_of old) s recv) }
{}

/// The links of the fresh core are exactly those of the old one, under new numbers.
pub fn links_come_over()
    ensures { (old fresh : State) (released : Released) (limits : Limits) (numbers : Numbers) → AreAccepted old.limits (events old)
        → IsRenewal old released limits (fresh, numbers)
        → (k : ℕ) (l : Link) → Contains (links_of fresh) (k, l) ↔ CameFrom (links_of old) numbers k l }
{}

/// In a core that was refilled, what stays of the old core's links is, under new numbers, the links that the sites have from scratch there.
/// Each link of a core is of few rows.
pub fn links_come_by_number()
    ensures rows { (old before fresh : State) (entries : List Entry) (released : Released) (n : Numbers) → AreAccepted old.limits (events old)
        → IsRefilled (world_of old) entries released n before fresh
        → fresh_rows (world_of fresh) n (links_of old) ≡ renumbered_links n (links_of old) }
    ensures few { (core : State) → list_all (λ row. has_few_rows row.1) (links_of core) ≡ true }
{}

/// Whatever an old core accepts after a renewal, the fresh one accepts under new numbers, if no event names what is gone and it may have as
/// many of each kind. Its world is then that of the old one under these numbers, without what is gone.
pub fn entries_come_over()
    ensures accepted { (old : State) (released : Released) (es fs : List Event) (limits : Limits) → AreAccepted old.limits (events old ++ es)
        → AreNoFewer old.limits limits → AreThere (flags_of (world_of old) released) es fs → Follow limits (renewed (world_of old) released) fs }
    ensures world { (old : State) (released : Released) (es fs : List Event) (limits : Limits) → AreAccepted old.limits (events old ++ es)
        → AreNoFewer old.limits limits → AreThere (flags_of (world_of old) released) es fs
        → fold step (renewed (world_of old) released) fs ≡ moved_world (flags_of (world_of old) released) (fold step (world_of old) es) }
{}

/// A fresh core that was refilled or renewed stands beside the old one, if it may have as many of each kind. As long as it does, it accepts
/// each event of the old one that names nothing that is gone, under the new numbers. It stands beside the old one after that event, too. So it
/// does after an install in either. An entry that [`carry`](crate::carry) takes over is thus refused for want of memory alone. Only an event of
/// a call site names what is gone: a new one, a new target, a bind.
pub fn fresh_cores_stay_beside()
    ensures first { (old before fresh : State) (entries : List Entry) (released : Released) (n : Numbers) → AreAccepted old.limits (events old)
        → AreNoFewer old.limits fresh.limits → IsRefilled (world_of old) entries released n before fresh
        → IsBeside (flags_of (world_of old) released) old fresh n }
    ensures renewed { (old fresh : State) (released : Released) (limits : Limits) (n : Numbers) → AreAccepted old.limits (events old)
        → AreNoFewer old.limits limits → IsRenewal old released limits (fresh, n) → IsBeside (flags_of (world_of old) released) old fresh n }
    ensures taken { (k : Flags) (old fresh : State) (n : Numbers) (e f : Event) → IsBeside k old fresh n
        → IsOk (verdict old.limits (world_of old) e) → carried n e ≡ Some f → IsOk (verdict fresh.limits (world_of fresh) f) }
    ensures there { (k : Flags) (old fresh : State) (n : Numbers) (e : Event) → IsBeside k old fresh n
        → IsOk (verdict old.limits (world_of old) e) → may_be_gone e ≡ false → is_some (carried n e) ≡ true }
    ensures beside { (k : Flags) (old after fresh fresh_after : State) (n m : Numbers) (e f : Event) (reply : Reply) → IsBeside k old fresh n
        → has_read_file e ≡ true → IsAccepted old after e reply → carried n e ≡ Some f → IsMade f reply.made n m fresh fresh_after
        → IsBeside k after fresh_after m }
    ensures passed { (k : Flags) (old after fresh : State) (n : Numbers) (rows : List (ℕ × Link)) (reply : Reply) → IsBeside k old fresh n
        → IsAccepted old after (event.Install rows) reply → IsBeside k after fresh n }
    ensures linked { (k : Flags) (old fresh fresh_after : State) (n : Numbers) (rows : List (ℕ × Link)) (reply : Reply) → IsBeside k old fresh n
        → IsAccepted fresh fresh_after (event.Install rows) reply → IsBeside k old fresh_after n }
{}

/// Linking commutes with renumbering in each fresh core that stands beside the old one: of each site that isn't gone the link from scratch is the
/// same under new numbers. So is each call's answer there, on null or on an object of a present class.
pub fn linking_commutes_beside()
    ensures links { (k : Flags) (old fresh : State) (n : Numbers) → IsBeside k old fresh n → (s : ℕ) → is_alive (world_of old) s ≡ true
        → scratch (world_of fresh) (renumbered n.sites s) ≡ renumbered_result n (scratch (world_of old) s) }
    ensures calls { (k : Flags) (old fresh : State) (n : Numbers) → IsBeside k old fresh n → (s : ℕ) (recv : Recv)
        → is_alive (world_of old) s ≡ true → IsPresentReceiver (world_of old).classes recv
        → dispatch (world_of fresh) (renumbered n.sites s) (renumbered_receiver n recv) ≡ renumbered_answer n (dispatch (world_of old) s recv) }
{}

/// After a renewal, and after a refill whose links were installed, the links of the fresh core are exactly those of the old one, under new
/// numbers. So it stays after each event that is carried over. So it stays after each install, if the fresh core installs the links of the same
/// sites. These are then the rows of the old one under new numbers, and the fresh core accepts them.
pub fn installed_links_stay_beside()
    ensures first { (old before between fresh : State) (entries : List Entry) (released : Released) (n : Numbers)
        → AreAccepted old.limits (events old) → IsRefilled (world_of old) entries released n before between
        → Installs (fresh_rows (world_of between) n (links_of old)) between fresh → HaveSameLinks old fresh n }
    ensures renewed { (old fresh : State) (released : Released) (limits : Limits) (n : Numbers) → AreAccepted old.limits (events old)
        → IsRenewal old released limits (fresh, n) → HaveSameLinks old fresh n }
    ensures carried { (k : Flags) (old after fresh fresh_after : State) (n m : Numbers) (e f : Event) (reply : Reply) → IsBeside k old fresh n
        → HaveSameLinks old fresh n → has_read_file e ≡ true → IsAccepted old after e reply → carried n e ≡ Some f
        → IsMade f reply.made n m fresh fresh_after → HaveSameLinks after fresh_after m }
    ensures rows { (k : Flags) (old fresh : State) (n : Numbers) (rows : List (ℕ × Link)) → IsBeside k old fresh n
        → IsOk (verdict old.limits (world_of old) (event.Install rows)) → fresh_rows (world_of fresh) n rows ≡ map (renumbered_install n) rows }
    ensures taken { (k : Flags) (old fresh : State) (n : Numbers) (rows : List (ℕ × Link)) → IsBeside k old fresh n
        → IsOk (verdict old.limits (world_of old) (event.Install rows))
        → IsOk (verdict fresh.limits (world_of fresh) (event.Install (fresh_rows (world_of fresh) n rows))) }
    ensures installed { (k : Flags) (old after fresh fresh_after : State) (n : Numbers) (rows : List (ℕ × Link)) (reply there : Reply)
        → IsBeside k old fresh n → HaveSameLinks old fresh n → IsAccepted old after (event.Install rows) reply
        → IsAccepted fresh fresh_after (event.Install (fresh_rows (world_of fresh) n rows)) there → HaveSameLinks after fresh_after n }
{}

/// The links of the old core may be read after its world, as the links of a later moment. A refilled core has no links yet. If each link
/// of a core is at a site of these, so it stays after some of these are installed, and after each event that is carried over. Once it
/// stands beside the old core of that moment, each of its links is one of the old core's, under new numbers.
pub fn links_may_be_read_later()
    ensures first { (linked : List (ℕ × Link)) (w : World) (entries : List Entry) (released : Released) (n : Numbers) (before fresh : State)
        → IsRefilled w entries released n before fresh → HasLinksOf linked fresh n }
    ensures installed { (linked left : List (ℕ × Link)) (fresh after : State) (n : Numbers) → HasLinksOf linked fresh n
        → InstallsFront (fresh_rows (world_of fresh) n linked) left fresh after → HasLinksOf linked after n }
    ensures carried { (linked : List (ℕ × Link)) (fresh after : State) (n m : Numbers) (old : Made) (e f : Event) → HasLinksOf linked fresh n
        → carried n e ≡ Some f → IsMade f old n m fresh after → HasLinksOf linked after m }
    ensures beside { (k : Flags) (old fresh : State) (n : Numbers) → IsBeside k old fresh n → HasLinksOf (links_of old) fresh n
        → HasNoOtherLinks old fresh n }
{}

/// Installs of the old core may be passed over, and its links be installed in the fresh one later. A refilled core has no links yet. If
/// each link of the fresh core is one of the old core's, under new numbers, so it stays
///
/// - after each event that is carried over
/// - after each install of the old core alone
/// - after some of the old core's links are installed
///
/// Once all of them are installed, the links of the fresh core are exactly these.
pub fn links_may_be_installed_later()
    ensures first { (old before fresh : State) (entries : List Entry) (released : Released) (n : Numbers)
        → IsRefilled (world_of old) entries released n before fresh → HasNoOtherLinks old fresh n }
    ensures carried { (k : Flags) (old after fresh fresh_after : State) (n m : Numbers) (e f : Event) (reply : Reply) → IsBeside k old fresh n
        → HasNoOtherLinks old fresh n → has_read_file e ≡ true → IsAccepted old after e reply → carried n e ≡ Some f
        → IsMade f reply.made n m fresh fresh_after → HasNoOtherLinks after fresh_after m }
    ensures passed { (k : Flags) (old after fresh : State) (n : Numbers) (rows : List (ℕ × Link)) (reply : Reply) → IsBeside k old fresh n
        → HasNoOtherLinks old fresh n → IsAccepted old after (event.Install rows) reply → HasNoOtherLinks after fresh n }
    ensures front { (k : Flags) (old between fresh : State) (n : Numbers) (left : List (ℕ × Link)) → IsBeside k old between n
        → HasNoOtherLinks old between n → InstallsFront (fresh_rows (world_of between) n (links_of old)) left between fresh
        → HasNoOtherLinks old fresh n }
    ensures all { (k : Flags) (old between fresh : State) (n : Numbers) → IsBeside k old between n → HasNoOtherLinks old between n
        → Installs (fresh_rows (world_of between) n (links_of old)) between fresh → HaveSameLinks old fresh n }
{}
