//! The outcomes of the receivers of an invocation, one after another.

ghost use Rattle.std.specs.Prelude.{◌≡◌, ◌+◌, ◌^◌, ◌<◌, ◌≤◌, None, length, All};
ghost use Rattle.jl_relink.specs.ForProofs.Rows.{run_on, joined, rows_of};

use crate::selection::{Selection, outcome_counted};
use jl_hierarchy::Classes;
use jl_types::{ClassId, MethodId, Outcome, Table, Work};

/// The method that each of these receivers runs, if there is a receiver and all run the same method. It ends at the first that
/// runs another one, or throws, with one tick at most for each up to there.
pub(crate) fn common_run(
    classes: &Classes,
    selection: &Selection,
    receivers: &[ClassId],
    work: &mut Work,
) -> Option<MethodId>
    requires there { All (λ x. x < length classes.now.rows) receivers.now }
    requires fits { work.old + length receivers.now < 2 ^ 64 }
    ensures run { result ≡ run_on None (rows_of classes.now selection.now receivers.now) }
    ensures ticks { work.new ≤ work.old + length receivers.now }
{
    let mut common = None;
    for receiver in receivers {
        common = Some(joined(common, outcome_counted(classes, selection, *receiver, work))?);
    }
    common
}

/// The method that each of these rows runs, if there is a row and all run the same method. Nothing is walked.
pub(crate) fn common_of(rows: &[(ClassId, Outcome)]) -> Option<MethodId>
    ensures { result ≡ run_on None rows.now }
{
    let mut common = None;
    for row in rows {
        common = Some(joined(common, row.1)?);
    }
    common
}

/// The method that earlier receivers and this one run, if they run the same method.
fn joined(earlier: Option<MethodId>, outcome: Outcome) -> Option<MethodId>
    ensures { result ≡ joined earlier outcome }
{
    let Outcome::Run(method) = outcome else {
        return None;
    };
    match earlier {
        None => Some(method),
        Some(first) => { if first == method { Some(first) } else { None } }
    }
}

/// Each of these receivers with its outcome, with one tick at most for each.
pub(crate) fn table_of(
    classes: &Classes,
    selection: &Selection,
    receivers: &[ClassId],
    work: &mut Work,
) -> Table
    requires there { All (λ x. x < length classes.now.rows) receivers.now }
    requires few { length receivers.now ≤ 8 }
    requires fits { work.old + length receivers.now < 2 ^ 64 }
    ensures rows { result ≡ rows_of classes.now selection.now receivers.now }
    ensures ticks { work.new ≤ work.old + length receivers.now }
{
    let mut table = Table::new();
    for receiver in receivers {
        table.push(
            *receiver,
            outcome_counted(classes, selection, *receiver, work),
        );
    }
    table
}
