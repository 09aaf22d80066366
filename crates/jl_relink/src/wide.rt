//! Links that several threads look up.

ghost use Rattle.std.specs.Prelude.{◌≡◌, ◌<◌, map, length, All, IfOk};
ghost use Rattle.jl_relink.specs.Preparations.{IsPreparation};
ghost use Rattle.jl_relink.specs.ForProofs.Wide as plans;

use crate::outline::{Outline, Pair, plan_of_batch};
use crate::pairs::pairs_of;
use crate::preparation::Prepared;
use crate::selection::outcome;
use crate::snapshot::Snapshot;
use crate::together::put_together;
use crate::world::World;
use jl_hierarchy::Classes;
use jl_names::Seq;
use jl_types::{ClassId, Link, Outcome, PrepareFault, SiteNo};
use rayon::prelude::*;
use std::alloc::{AllocError, Global};
use std::thread::Threads;

/// How many pairs a thread of its own looks at, at the least: making one takes some 30 microseconds.
const LEAST_PIECE: usize = 512;

/// What is told of each pair of a site and a receiver that is looked at, by the thread that looks. A site lists no pair if its link
/// is known without a look at each receiver:
///
/// - by the count of receivers, at an invokeinterface with more than eight
/// - by the marks of classes, at an invokevirtual whose method no subclass redeclares
pub trait Probe {
    /// The pair at this place is looked at, once. The pairs are numbered from 0 on, by the order of the sites, and those of one site by
    /// rising class of the receiver.
    fn at(&self, place: usize);
}

/// A probe that does nothing.
struct Silent;

impl Probe for Silent {
    fn at(&self, _place: usize) {}
}

/// Looks up the links of these sites from scratch, in the world of the snapshot (JVMS SE 17 §6.5). It gives what
/// [`prepare`](crate::prepare) gives, with as many threads as there are processors. Nothing is installed.
///
/// If a site's link depends on the outcomes of its receivers, it lists the pairs of the site with each of them. Threads look at the
/// pairs. It lists no pair
///
/// - of an invokeinterface with more than eight receivers, whose link is known by their count
/// - of an invokevirtual whose method no subclass redeclares, whose link is known by the marks of classes
///
/// It pays if `prepare` looks at many receivers. That is so if all receivers of a site run one method, which another subclass declares
/// again. 256 such sites with 64 to 2,048 receivers each, at some 0.04 microseconds a receiver, were 1.2 to 2.7 times as fast on four
/// processors that were two cores of two threads each. Both take about as long at 4,096 pairs and at 2,048. Fewer than 1,024 pairs one
/// thread looks at here, too. `prepare` is faster if more than eight receivers of an invokevirtual run several methods, since it ends
/// such a site after a few of them.
///
/// # Errors
///
/// Those of [`prepare`](crate::prepare), the first of these:
///
/// - Fewer than 1 or more than 256 sites.
/// - The first site that isn't requested or comes twice.
/// - The first site that has no link.
/// - Want of memory.
pub fn prepare_wide(
    rt: &(impl Threads + Sync),
    alloc: Global,
    snapshot: &Snapshot,
    sites: &[SiteNo],
) -> Result<Prepared, PrepareFault>
    ensures { IsPreparation snapshot.now sites.now result }
{
    prepare_wide_seen(rt, alloc, snapshot, sites, &Silent)
}

/// Does what [`prepare_wide`] does, and tells the probe of each pair of a site and a receiver.
///
/// # Errors
///
/// Those of [`prepare_wide`].
pub fn prepare_wide_seen<P: Probe + Sync>(
    rt: &(impl Threads + Sync),
    alloc: Global,
    snapshot: &Snapshot,
    sites: &[SiteNo],
    probe: &P,
) -> Result<Prepared, PrepareFault>
    ensures { IsPreparation snapshot.now sites.now result }
{
    wide_in(rt, alloc, snapshot.world(), snapshot.serial(), sites, probe)
}

/// Does what [`prepare_wide_seen`] does, in a world that is as it was after so many accepted events.
fn wide_in<P: Probe + Sync>(
    rt: &(impl Threads + Sync),
    alloc: Global,
    world: &World,
    serial: u64,
    sites: &[SiteNo],
    probe: &P,
) -> Result<Prepared, PrepareFault>
    ensures { IsPreparation (record { world = world.now; serial = serial }) sites.now result }
{
    let plan = plan_of_batch(alloc, world, sites)?;
    match rows_of_plan(rt, alloc, &world.classes, plan.as_slice(), probe) {
        Ok(rows) => Ok(Prepared {
            serial,
            rows: Seq::of(rows),
        }),
        Err(_) => Err(PrepareFault::Memory),
    }
}

/// The rows of the plan with their links.
fn rows_of_plan<P: Probe + Sync>(
    rt: &(impl Threads + Sync),
    alloc: Global,
    classes: &Classes,
    plan: &[(SiteNo, Outline)],
    probe: &P,
) -> Result<Vec<(SiteNo, Link)>, AllocError>
    requires { All (λ row. plans.IsThere classes.now row.1) plan.now }
    ensures { IfOk result (λ rows. rows.items ≡ map (plans.row_of_plan classes.now) plan.now) }
{
    let pairs = pairs_of(alloc, classes, plan)?;
    let looked = look_up(rt, alloc, classes, pairs.as_slice(), probe)?;
    put_together(alloc, classes, plan, looked.as_slice())
}

/// The outcome of each pair, in order, from as many threads as there are processors.
fn look_up<P: Probe + Sync>(
    rt: &(impl Threads + Sync),
    alloc: Global,
    classes: &Classes,
    pairs: &[Pair],
    probe: &P,
) -> Result<Vec<(ClassId, Outcome)>, AllocError>
    requires { All (λ p. p.receiver < length classes.now.rows) pairs.now }
    ensures { IfOk result (λ rows. rows.items ≡ map (plans.looked_up classes.now) pairs.now) }
{
    pairs
        .par_iter()
        .with_min_len(LEAST_PIECE)
        .enumerate()
        .map(
            |seen: (usize, &Pair)| -> (ClassId, Outcome)
                requires { seen.1.now.receiver < length classes.now.rows }
                ensures { result ≡ plans.looked_up classes.entry.now seen.entry.1.now }
            {
                let (place, pair) = seen;
                probe.at(place);
                (
                    pair.receiver,
                    outcome(classes, &pair.selection, pair.receiver),
                )
            },
        )
        .collect(rt, alloc)
}
