//! The laws of an index: contracts of functions that do nothing.

ghost use Rattle.std.specs.Prelude.{◌≡◌, ◌==◌, ◌&&◌, ℕ, List, Option, Some, Ok, IsOk, false, is_some};
ghost use Rattle.std.specs.List.{list_any};
ghost use Rattle.jl_types.specs.declared.limits.Limits.{Limits};
ghost use Rattle.jl_types.specs.Events.Event.{Event};
ghost use Rattle.jl_types.specs.declared.link.Link.{Link};
ghost use Rattle.jl_types.specs.Values.World.{World};
ghost use Rattle.jl_types.specs.Linkage.Links.{scratch};
ghost use Rattle.jl_types.specs.Events.History.{world_after, installed};
ghost use Rattle.jl_deps.specs.declared.form.Rests.{Rests};
ghost use Rattle.jl_types.specs.Events.Footprints as footprints;
ghost use Rattle.jl_types.specs.Events.Verdict.{verdict};
ghost use Rattle.jl_types.specs.Events.Footprints.{touches, keys, retires};
ghost use Rattle.jl_relink.specs.Laws.{IsInOrder};
ghost use Rattle.jl_deps.specs.Indexes.{AreRising, IsIndex, StaysIndexed, touched_by};

/// If the index has the footprint of each site that has a link, the sites that it gives for an event's keys are those that have a link
/// and that the event touches.
///
/// Nothing changes at any other site, if each link is the one from scratch, and the event is accepted and retires no site that has a link.
pub fn only_touched_sites_change()
    ensures touched { (w : World) (e : Event) (links : ℕ → Option Link) (index : List (ℕ × Rests)) → AreRising index
        → IsIndex w links index → (s : ℕ)
        → list_any (λ t. t == s) (touched_by index (keys w e)) ≡ (is_some (links s) && touches w e s) }
    ensures counted { (h : List Event) (e : Event) (index : List (ℕ × Rests)) → AreRising index
        → IsIndex (world_after h) (installed h) index → touched_by index (keys (world_after h) e) ≡ footprints.touched h e }
    ensures others { (limits : Limits) (w : World) (e : Event) (links : ℕ → Option Link) (index : List (ℕ × Rests)) → IsInOrder w
        → IsOk (verdict limits w e) → AreRising index → IsIndex w links index
        → ((s : ℕ) (l : Link) → links s ≡ Some l → scratch w s ≡ Ok l)
        → ((s : ℕ) (l : Link) → links s ≡ Some l → retires w e s ≡ false) → (s : ℕ)
        → list_any (λ t. t == s) (touched_by index (keys w e)) ≡ false → StaysIndexed w e links index s }
{}
