//! The laws of a core: each is the contract of a function that does nothing.

ghost use Rattle.std.specs.Prelude.{◌≡◌, ◌↔◌, ◌<◌, ℕ, List, Some, Ok, length, slice_get, take, Contains};
ghost use Rattle.jl_types.specs.declared.limits.Limits.{Limits};
ghost use Rattle.jl_types.specs.Events.Event.{Event};
ghost use Rattle.jl_types.specs.declared.event.Reply.{Reply};
ghost use Rattle.jl_types.specs.declared.link.Link.{Link};
ghost use Rattle.jl_types.specs.Linkage.Links.{scratch};
ghost use Rattle.jl_types.specs.Events.History as history;
ghost use Rattle.jl_types.specs.Events.History.{Settled};
ghost use Rattle.jl_core.specs.State.{State, empty_core, events, world_of, links_of};
ghost use Rattle.jl_core.specs.Headline.{AreApplied};

/// The installed links are exactly those from scratch, in the present world, of all requested sites that aren't pending. A site is
/// pending until it is settled. After any events, each accepted one was answered as those before it say.
pub fn links_are_exact()
    ensures links { (core : State) (s : ℕ) (l : Link)
        → Contains (links_of core) (s, l)
        ↔ ((s < length (world_of core).places)
        × Settled (events core) s l
        × (scratch (world_of core) s ≡ Ok l)) }
    ensures log { (limits : Limits) (es : List Event) (core : State) → AreApplied (empty_core limits) es core
        → (n : ℕ) (e : Event) (reply : Reply) → slice_get core.log n ≡ Some (e, reply)
        → history.reply limits (take n (events core)) e ≡ Ok reply }
{}
