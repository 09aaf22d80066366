//! The laws of what is remembered: each is the contract of a function that does nothing.

ghost use Rattle.std.specs.Prelude.{◌≡◌, ◌⊎◌, ◌++◌, ◌≤◌, ℕ, true, List, Some, length};
ghost use Rattle.jl_types.specs.declared.answer.Outcome.{Outcome};
ghost use Rattle.jl_types.specs.declared.answer.Recv.TheVariants.{Of};
ghost use Rattle.jl_types.specs.Events.Event.{Event};
ghost use Rattle.jl_types.specs.Linkage.Calls.{answered, dispatch};
ghost use Rattle.jl_types.specs.Events.History.{world_after};
ghost use Rattle.jl_types.specs.Values.Members.{is_concrete};
ghost use Rattle.jl_hierarchy.specs.Constancy.{AreInOrder, IsClosed};
ghost use Rattle.jl_memo.specs.declared.set.Row.{Row};
ghost use Rattle.jl_memo.specs.declared.set.Set.{Set};
ghost use Rattle.jl_memo.specs.Memos.{remembered, put};
ghost use Rattle.jl_memo.specs.Answers.{is_site_present, IsRight};

/// A row that is right after some events tells the outcome of the call after all further events, while the site is present and objects
/// may be of the class. What is present has to rest on what is present, as it does after accepted events.
///
/// The row stays right if classes came in order.
pub fn what_is_remembered_stays()
    ensures answer { (h more : List Event) (s x : ℕ) (o : Outcome) → IsRight (world_after h) s x o → IsClosed (world_after (h ++ more)).classes
        → is_site_present (world_after (h ++ more)) s ≡ true → is_concrete (world_after (h ++ more)).classes x ≡ true
        → dispatch (world_after (h ++ more)) s (Of x) ≡ answered o }
    ensures right { (h more : List Event) (s x : ℕ) (o : Outcome) → IsRight (world_after h) s x o → AreInOrder (world_after (h ++ more)).classes
        → IsRight (world_after (h ++ more)) s x o }
{}

/// A row that is put is remembered, and what else is remembered then was remembered before.
pub fn what_is_put_is_remembered()
    ensures there { (sets : List Set) (row : Row) → 1 ≤ length sets
        → remembered (put sets row) row.site row.class ≡ Some row.outcome }
    ensures others { (sets : List Set) (row : Row) (s x : ℕ) (o : Outcome) → remembered (put sets row) s x ≡ Some o
        → (remembered sets s x ≡ Some o) ⊎ ((s ≡ row.site) × (x ≡ row.class) × (o ≡ row.outcome)) }
{}
