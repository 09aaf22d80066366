//! The pairs of a batch's rows with their receivers.

ghost use Rattle.std.specs.Prelude.{◌≡◌, ◌<◌, ◌++◌, length, All, IfOk, OnOk};
ghost use Rattle.jl_relink.specs.ForProofs.Wide as plans;

use crate::link::receivers_of;
use crate::outline::{Outline, Pair};
use crate::selection::Selection;
use jl_hierarchy::Classes;
use jl_types::{ClassId, SiteNo};
use std::alloc::{AllocError, Global};

/// The pairs of the plan's rows with their receivers, in order.
pub(crate) fn pairs_of(
    alloc: Global,
    classes: &Classes,
    plan: &[(SiteNo, Outline)],
) -> Result<Vec<Pair>, AllocError>
    requires { All (λ row. plans.IsThere classes.now row.1) plan.now }
    ensures pairs { IfOk result (λ pairs. pairs.items ≡ plans.pairs_of classes.now plan.now) }
    ensures there { IfOk result (λ pairs. All (λ p. p.receiver < length classes.now.rows) pairs.items) }
{
    let mut pairs = Vec::new(alloc);
    for row in plan {
        add_row(&mut pairs, classes, row)?;
    }
    Ok(pairs)
}

/// Adds the pairs of one row.
fn add_row(
    pairs: &mut Vec<Pair>,
    classes: &Classes,
    row: &(SiteNo, Outline),
) -> Result<(), AllocError>
    requires { plans.IsThere classes.now row.now.1 }
    ensures pairs { OnOk result (pairs.new.items ≡ pairs.old.items ++ plans.pairs_in classes.now row.now.1) }
    ensures there { All (λ p. p.receiver < length classes.now.rows) (plans.pairs_in classes.now row.now.1) }
{
    match &row.1 {
        Outline::Depends(selection) => {
            add_pairs(pairs, selection, receivers_of(classes, selection.named))
        }
        Outline::Known(_) => Ok(()),
    }
}

/// Adds the pairs of a call with these receivers.
fn add_pairs(
    pairs: &mut Vec<Pair>,
    selection: &Selection,
    receivers: &[ClassId],
) -> Result<(), AllocError>
    ensures { OnOk result (pairs.new.items ≡ pairs.old.items ++ plans.pairs_with selection.now receivers.now) }
{
    for receiver in receivers {
        pairs.push(Pair {
            selection: *selection,
            receiver: *receiver,
        })?;
    }
    Ok(())
}

/// How many pairs the row has.
pub(crate) fn pair_count(classes: &Classes, row: &(SiteNo, Outline)) -> usize
    requires { plans.IsThere classes.now row.now.1 }
    ensures { result ≡ length (plans.pairs_in classes.now row.now.1) }
{
    match &row.1 {
        Outline::Depends(selection) => receivers_of(classes, selection.named).len(),
        Outline::Known(_) => 0,
    }
}
