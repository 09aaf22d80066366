//! The outcome of every receiver of an invocation, if it is known without a look at each.

ghost use Rattle.std.specs.Prelude.{◌≡◌, ◌+◌, ◌^◌, ◌<◌, ◌≤◌, ℕ, true, length, if◌then◌else◌};
ghost use Rattle.jl_types.specs.declared.answer.Outcome.TheVariants.{Run};
ghost use Rattle.jl_types.specs.declared.link.Link.TheVariants.{Direct};
ghost use Rattle.jl_types.specs.declared.link.TableKind.TheVariants.{Virtual};
ghost use Rattle.jl_types.specs.Values.Ancestry as ancestry;
ghost use Rattle.jl_relink.specs.ForProofs.Rows.{rows_of, outcome_of, link_by_rows};

use crate::selection::Selection;
use jl_hierarchy::Classes;
use jl_select::runs_below;
use jl_types::{TableKind, Work};

/// Whether there is a receiver, and it is known that all of them run the method, since no subclass redeclares it. No receiver is
/// looked at.
pub(crate) fn all_run(classes: &Classes, selection: &Selection) -> bool
    requires { selection.now.named < length classes.now.rows }
    ensures some { result ≡ true → 1 ≤ length (ancestry.receivers classes.now selection.now.named) }
    ensures link { result ≡ true → link_by_rows selection.now.kind
        (rows_of classes.now selection.now (ancestry.receivers classes.now selection.now.named)) ≡ Direct (Run selection.now.method) }
{
    !classes.receivers(selection.named).is_empty() && each_runs(classes, selection)
}

/// Answers what [`all_run`] answers. If that is yes, it counts one tick, for the one selection that it stands for.
pub(crate) fn all_run_counted(classes: &Classes, selection: &Selection, work: &mut Work) -> bool
    requires named { selection.now.named < length classes.now.rows }
    requires fits { work.old + length (ancestry.receivers classes.now selection.now.named) < 2 ^ 64 }
    ensures link { result ≡ true → link_by_rows selection.now.kind
        (rows_of classes.now selection.now (ancestry.receivers classes.now selection.now.named)) ≡ Direct (Run selection.now.method) }
    ensures some { result ≡ true → 1 ≤ length (ancestry.receivers classes.now selection.now.named) }
    ensures ticks { work.new ≡ work.old + (if result then 1 else 0) }
{
    if all_run(classes, selection) {
        work.tick();
        return true;
    }
    false
}

/// Whether it is known, without a look at each, that every class below the named one runs the method.
pub(crate) fn each_runs(classes: &Classes, selection: &Selection) -> bool
    requires { selection.now.named < length classes.now.rows }
    ensures kind { result ≡ true → selection.now.kind ≡ Virtual }
    ensures run { result ≡ true → (x : ℕ) → ancestry.is_ancestor classes.now selection.now.named x ≡ true
        → outcome_of classes.now selection.now x ≡ Run selection.now.method }
{
    match selection.kind {
        TableKind::Virtual => runs_below(classes, selection.named, &selection.method),
        TableKind::Interface => false,
    }
}
