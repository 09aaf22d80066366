//! What is known of the rows of a batch before any receiver is looked at.

ghost use Rattle.std.specs.Prelude.{◌≡◌, ◌<◌, None, Some, length, IfOk, IfErr, IfSome};
ghost use Rattle.jl_types.specs.Linkage.Links.{scratch};
ghost use Rattle.jl_types.specs.Events.Preparation.{link_fault, prepare_fault};
ghost use Rattle.jl_relink.specs.Preparations.{IsFault};
ghost use Rattle.jl_relink.specs.ForProofs.Wide as plans;

use crate::items::fill;
use crate::known::all_run;
use crate::preparation::room_for;
use crate::receiver::selection_at;
use crate::scratch::link_of;
use crate::selection::Selection;
use crate::world::World;
use jl_hierarchy::Classes;
use jl_types::{ClassId, Link, MOST_ROWS, Outcome, PrepareFault, SiteNo, TableKind};
use std::alloc::Global;

/// An invocation with one of its receivers.
#[derive(Clone, Copy)]
pub(crate) struct Pair {
    pub(crate) selection: Selection,
    pub(crate) receiver: ClassId,
}

/// What is known of a row.
#[derive(Clone, Copy)]
pub(crate) enum Outline {
    /// Its link.
    Known(Link),
    /// The outcomes of the receivers of this invocation decide its link.
    Depends(Selection),
}

/// The sites in order, each with what is known of its row, or the fault of the batch.
pub(crate) fn plan_of_batch(
    alloc: Global,
    world: &World,
    sites: &[SiteNo],
) -> Result<Vec<(SiteNo, Outline)>, PrepareFault>
    ensures plan { IfOk result (λ plan. (prepare_fault world.now sites.now ≡ None) × plans.ArePlanned world.now sites.now plan.items) }
    ensures fault { IfErr result (λ f. IsFault world.now sites.now f) }
{
    let mut plan = room_for(alloc, world, sites)?;
    fill(sites, &mut plan, |site| plan_of(world, *site))?;
    Ok(plan)
}

/// The site with what is known of its row.
fn plan_of(world: &World, site: SiteNo) -> Result<(SiteNo, Outline), PrepareFault>
    ensures ok { IfOk result (λ row. (row.0 ≡ site) × plans.IsPlanned world.now site row.1) }
    ensures err { IfErr result (λ f. link_fault site (scratch world.now site) ≡ Some f) }
{
    if let Some(planned) = planned_at(world, site) {
        return Ok((site, planned));
    }
    match link_of(world, site) {
        Ok(link) => Ok((site, Outline::Known(link))),
        Err(_) => Err(PrepareFault::NotReady(site)),
    }
}

/// What is known of the site if the outcomes of its receivers decide the link. If no subclass redeclares the method, all receivers run
/// it, so the link is known. Else the invocation is.
fn planned_at(world: &World, site: SiteNo) -> Option<Outline>
    ensures { IfSome result (λ planned. plans.IsPlanned world.now site planned) }
{
    let selection = selection_at(world, site)?;
    if !depends(&world.classes, &selection) {
        return None;
    }
    Some(planned_of(&world.classes, &selection))
}

/// What is known of an invocation whose link is decided by its receivers: the link, if no subclass redeclares the method, and else the
/// invocation.
fn planned_of(classes: &Classes, selection: &Selection) -> Outline
    requires { selection.now.named < length classes.now.rows }
    ensures link { plans.link_of_plan classes.now result ≡ plans.link_of_plan classes.now (plans.depends_on selection.now) }
    ensures there { plans.IsThere classes.now result }
{
    if all_run(classes, selection) {
        Outline::Known(Link::Direct(Outcome::Run(selection.method)))
    } else {
        Outline::Depends(*selection)
    }
}

/// Whether the outcomes of the receivers decide the link. They don't if an invokevirtual's method is private, or if an
/// invokeinterface has too many receivers for a table.
fn depends(classes: &Classes, selection: &Selection) -> bool
    requires { selection.now.named < length classes.now.rows }
    ensures { result ≡ plans.depends classes.now selection.now }
{
    match selection.kind {
        TableKind::Virtual => !classes.is_private(&selection.method),
        TableKind::Interface => classes.receivers(selection.named).len() <= MOST_ROWS,
    }
}
