//! A batch's rows, put together from what their receivers came to.

ghost use Rattle.std.specs.Prelude.{◌≡◌, map, All, IfOk};
ghost use Rattle.jl_relink.specs.ForProofs.Wide as plans;

use crate::by_rows::link_by_rows;
use crate::outline::Outline;
use crate::pairs::pair_count;
use jl_hierarchy::Classes;
use jl_types::{ClassId, Link, Outcome, SiteNo};
use std::alloc::{AllocError, Global};

/// The rows of the plan with their links, from what the pairs came to.
pub(crate) fn put_together(
    alloc: Global,
    classes: &Classes,
    plan: &[(SiteNo, Outline)],
    looked: &[(ClassId, Outcome)],
) -> Result<Vec<(SiteNo, Link)>, AllocError>
    requires there { All (λ row. plans.IsThere classes.now row.1) plan.now }
    requires looked { looked.now ≡ map (plans.looked_up classes.now) (plans.pairs_of classes.now plan.now) }
    ensures { IfOk result (λ rows. rows.items ≡ map (plans.row_of_plan classes.now) plan.now) }
{
    let mut rows = Vec::with_capacity(alloc, plan.len())?;
    let mut rest = looked;
    for row in plan {
        let (mine, later) = rest.split_at(pair_count(classes, row));
        rows.push(row_with(row, mine))?;
        rest = later;
    }
    Ok(rows)
}

/// The row with its link, by what its pairs came to.
fn row_with(row: &(SiteNo, Outline), looked: &[(ClassId, Outcome)]) -> (SiteNo, Link)
    ensures { result ≡ (row.now.0, plans.link_with row.now.1 looked.now) }
{
    match &row.1 {
        Outline::Known(link) => (row.0, *link),
        Outline::Depends(selection) => (row.0, link_by_rows(selection.kind, looked)),
    }
}
