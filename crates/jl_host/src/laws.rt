//! The laws of links and targets as numbers, and of a renewal in steps: each is the contract of a function that does nothing.

ghost use Rattle.std.specs.Prelude.{◌≡◌, ◌==◌, ◌≤◌, ◌<◌, ◌^◌, ◌⊎◌, ◌++◌, ℕ, true, length, List, Option, Some, Ok, Err, is_some, if◌then◌else◌};
ghost use Rattle.jl_types.specs.declared.ids.MethodId.{MethodId};
ghost use Rattle.jl_types.specs.declared.answer.Recv.TheVariants.{Of};
ghost use Rattle.jl_types.specs.Values.Members.{method_at, is_concrete};
ghost use Rattle.jl_host.specs.Calling.{called};
ghost use Rattle.jl_types.specs.declared.answer.Missing.{Missing};
ghost use Rattle.jl_types.specs.declared.answer.Unlinked.TheVariants.{NotReady};
ghost use Rattle.jl_types.specs.declared.limits.Limits.{Limits};
ghost use Rattle.jl_types.specs.declared.link.Link.{Link};
ghost use Rattle.jl_types.specs.Events.Verdict.{Accepts};
ghost use Rattle.jl_types.specs.Events.Event.{Event};
ghost use Rattle.jl_types.specs.Events.History.{world_after};
ghost use Rattle.jl_types.specs.declared.event.Reply.{Reply};
ghost use Rattle.jl_types.specs.declared.refusal.Refusal.{Refusal};
ghost use Rattle.jl_types.specs.declared.refusal.Refusal.TheVariants.{Memory};
ghost use Rattle.jl_types.specs.Linkage.Links.{scratch};
ghost use Rattle.jl_relink.specs.Preparations.{Snapshot};
ghost use Rattle.jl_relink.specs.Laws.{AreAccepted, has_read_file};
ghost use Rattle.jl_core.specs.State.{State, events, world_of, IsAccepted};
ghost use Rattle.jl_renewal.specs.declared.released.Released.{Released};
ghost use Rattle.jl_renewal.specs.Numbers.{Numbers};
ghost use Rattle.jl_renewal.specs.Moved.{flags_of, IsBeside, HaveSameLinks};
ghost use Rattle.jl_host.specs.declared.reading.LinkRow.{LinkRow};
ghost use Rattle.jl_host.specs.declared.shown.LinkShown.{LinkShown};
ghost use Rattle.jl_host.specs.declared.told.Told.{Told};
ghost use Rattle.jl_types.specs.Values.World.{World};
ghost use Rattle.jl_host.specs.Awaiting.{awaited};
ghost use Rattle.jl_host.specs.Numbers.{done, memory};
ghost use Rattle.jl_host.specs.declared.shown.CallAnswer.{CallAnswer};
ghost use Rattle.jl_host.specs.Seats.{SeatView, IsSeatCall, IsSeatAnswer};
ghost use Rattle.jl_host.specs.Showing.{shown, otherwise, HasBits};
ghost use Rattle.jl_host.specs.Reading.{link_of, rows_of, is_shown_whole, runs_declarable};
ghost use Rattle.serde_json.specs.Read.{max_depth};
ghost use Rattle.jl_types.specs.Values.Target.{Target};
ghost use Rattle.jl_json.specs.CommandForms.{IsTarget};
ghost use Rattle.jl_host.specs.Targets.{nesting, parts_of, target_of};
ghost use Rattle.jl_host.specs.Linkers.{Opened};
ghost use Rattle.jl_host.specs.Views.{given, IsViewPrepare, IsInstallLinks};
ghost use Rattle.jl_host.specs.Renewals.{Arrays, with_numbers};
ghost use Rattle.jl_host.specs.Renewing.{Renewing, HasBegun, IsTakenFrom, IsUnready, IsFilled, IsFinished};
ghost use Rattle.jl_host.specs.UnderWay.{IsUnderWay, IsFillOrUnready};

/// What is shown of a link is read as that link. The link has at most eight rows, and each method that it runs is among the first 2^16
/// of its class, as those of a class file are (JVMS SE 17 §4.1).
pub fn shown_links_are_read_again()
    ensures { (link : Link) → is_shown_whole link ≡ true → link_of (shown link) ≡ Some link }
{}

/// The 64 bits that a seat answers are those of what a call at it writes, and of a miss if the seat was never refreshed.
pub fn seats_answer_what_calls_write()
    ensures { (site receiver status bits : ℕ) (had called answered : Option SeatView) (before after : CallAnswer)
        → IsSeatCall site receiver had before status after called → IsSeatAnswer site receiver had bits answered
        → HasBits (if status == done then after else otherwise 4 0) bits }
{}

/// The answer to a call of a method that no code makes stays on each object of a class that was there, whatever events come, as long as
/// objects may be of that class. So a host may keep it.
pub fn selections_stay()
    ensures { (h more : List Event) (m : MethodId) (x : ℕ) → is_some (method_at (world_after h).classes m) ≡ true
        → x < length (world_after h).classes.rows → is_concrete (world_after (h ++ more)).classes x ≡ true
        → called (world_after (h ++ more)).classes m (Of x) ≡ called (world_after h).classes m (Of x) }
{}

/// A target is read from its parts, unless it nests deeper than JSON may.
pub fn targets_are_read_from_parts()
    ensures { (t : Target) → IsTarget t → nesting t ≤ max_depth → target_of (parts_of t) ≡ Some t }
{}

/// What a view prepared is installed while the world is the one that was seen, unless there is no memory. Whenever links are installed that
/// are given, each of them is its site's link from scratch then. After accepted events of files that were read, as those of each core are,
/// each link from scratch runs methods that a class file may have (JVMS SE 17 §4.1).
pub fn given_links_are_from_scratch()
    ensures declarable { (limits : Limits) (h : List Event) → AreAccepted limits h → (s : ℕ) (link : Link) → scratch (world_after h) s ≡ Ok link
        → runs_declarable link ≡ true }
    ensures prepared { (seen : Snapshot) (old : Opened) (sites : List ℕ) (before links : List LinkShown) (told : Told) (view : Option Snapshot)
        → IsViewPrepare sites (Some seen) before done links told view → seen.world ≡ world_of old.session.core
        → AreAccepted old.session.core.limits (events old.session.core)
        → (present after : LinkShown) (status : ℕ) (said : Told) (new : Option Opened)
        → IsInstallLinks (given sites links) (Some old) present status said after new → (status ≡ done) ⊎ (status ≡ memory) }
    ensures installed { (rows : List LinkRow) (old : Opened) (present after : LinkShown) (told : Told) (new : Option Opened)
        → IsInstallLinks rows (Some old) present done told after new
        → (links : List (ℕ × Link)) × (rows_of rows ≡ Some links) × Accepts (world_of old.session.core) links }
{}

/// A site that isn't ready waits for a class that has a name: the one that its instruction names, or a nest host (JVMS SE 17 §5.4.4).
pub fn awaited_classes_are_named()
    ensures { (w : World) (s : ℕ) (missing : Missing) → scratch w s ≡ Err (NotReady missing)
        → (name : List ℕ) × (awaited s w ≡ Some name) }
{}

/// A renewal in steps is under way from its begin on: whatever the linker accepts meanwhile, as entries are taken and carried over,
/// whatever a fill answers, and if nothing is handed over. The linker that is handed over stands beside the old one as that is then, under
/// the numbers that were written, and has its links. So by [`linking_commutes_beside`](jl_renewal::linking_commutes_beside) links from
/// scratch and calls of sites that aren't gone are the same there. A site whose call site is released isn't bound there any more.
///
/// The fresh linker may have as many of each kind as the old one, so a fill is never refused for want of room. If it isn't done, it answers
/// want of memory, or that the next event is one of a call site and names what was released.
pub fn renewals_in_steps_stay_beside()
    ensures begun { (opened : Opened) (released : Released) (max_sites : ℕ) (renewing : Renewing)
        → AreAccepted opened.session.core.limits (events opened.session.core) → opened.session.core.limits.sites ≤ max_sites
        → HasBegun opened released max_sites renewing → IsUnderWay opened.session.core released opened.session.core renewing }
    ensures later { (begun core after : State) (released : Released) (renewing : Renewing) (e : Event) (reply : Reply)
        → IsUnderWay begun released core renewing → IsAccepted core after e reply → has_read_file e ≡ true
        → IsUnderWay begun released after renewing }
    ensures taken { (begun core : State) (released : Released) (old new : Renewing) (most : ℕ) → IsUnderWay begun released core old
        → IsTakenFrom most core old new → IsUnderWay begun released core new }
    ensures filled { (begun core : State) (released : Released) (old new : Renewing) (status : ℕ) (told : Told) → IsUnderWay begun released core old
        → IsFilled old status told new → IsUnderWay begun released core new }
    ensures why { (begun core : State) (released : Released) (old new : Renewing) (status : ℕ) (told : Told) → IsUnderWay begun released core old
        → IsFilled old status told new → IsFillOrUnready core old status new }
    ensures unready { (begun core : State) (released : Released) (renewing : Renewing) (r : Refusal) → IsUnderWay begun released core renewing
        → IsUnready renewing r → r ≡ Memory }
    ensures kept { (begun core : State) (released : Released) (old new : Renewing) (before after : Arrays) (status : ℕ) (told : Told)
        (fresh : Option Opened) → IsUnderWay begun released core old → IsFinished core old before status told (Some new) fresh after
        → IsUnderWay begun released core new }
    ensures handed_over { (begun core : State) (released : Released) (old : Renewing) (before after : Arrays) (status : ℕ) (told : Told)
        (new : Option Renewing) (opened : Opened) → IsUnderWay begun released core old → length core.log < 2 ^ 64
        → IsFinished core old before status told new (Some opened) after
        → (numbers : Numbers) × IsBeside (flags_of (world_of begun) released) core opened.session.core numbers
        × HaveSameLinks core opened.session.core numbers × (after ≡ with_numbers numbers before) }
{}
