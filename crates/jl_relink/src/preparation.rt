//! Links that are looked up apart from the events, and installed later.

ghost use Rattle.std.specs.Prelude.{◌≡◌, ◌+◌, ◌^◌, ◌<◌, ◌≤◌, ◌⊎◌, [], ◌∷◌, ◌++◌, false, None, Some, sum_by, length, IfOk, IfErr, OnOk};
ghost use Rattle.std.specs.Vec.{vec_len, vec_capacity};
ghost use Rattle.jl_types.specs.Events.Batches.{is_bad_size};
ghost use Rattle.jl_types.specs.Events.Preparation as prepared;
ghost use Rattle.jl_types.specs.Events.Footprints.{most_for};
ghost use Rattle.jl_relink.specs.Preparations.{IsPreparation, IsFault};

use crate::batch::{is_bad_size, sites_fault};
use crate::earlier::{MOST_REMEMBERED, NO_ROW, link_beside};
use crate::scratch::link_of;
use crate::snapshot::Snapshot;
use crate::world::World;
use jl_names::Seq;
use jl_types::{Link, PrepareFault, SiteNo, Work};
use std::alloc::Global;

/// Sites with their links from scratch, as they were after so many accepted events.
#[derive(Debug, Drop)]
pub struct Prepared {
    pub serial: u64,
    pub rows: Seq<(SiteNo, Link)>,
}

/// Looks up the links of these sites from scratch, in the world of the snapshot. Nothing is installed.
/// [`prepare_wide`](crate::prepare_wide) says when that one is faster.
///
/// # Errors
///
/// The first of these:
///
/// - Fewer than 1 or more than 256 sites.
/// - The first site that isn't requested or comes twice.
/// - The first site that has no link.
/// - Want of memory.
pub fn prepare(
    alloc: Global,
    snapshot: &Snapshot,
    sites: &[SiteNo],
) -> Result<Prepared, PrepareFault>
    ensures { IsPreparation snapshot.now sites.now result }
{
    prepare_in(alloc, snapshot.world(), snapshot.serial(), sites)
}

/// Looks up the links of these sites from scratch in a world that is as it was after so many accepted events: what
/// [`prepare`] does in a snapshot, without a copy.
///
/// # Errors
///
/// Those of [`prepare`].
pub fn prepare_in(
    alloc: Global,
    world: &World,
    serial: u64,
    sites: &[SiteNo],
) -> Result<Prepared, PrepareFault>
    ensures { IsPreparation (record { world = world.now; serial = serial }) sites.now result }
{
    let mut work = Work::new();
    prepare_counted(alloc, world, serial, sites, &mut work)
}

/// Does what [`prepare_in`] does, and counts each selection, special search and evaluation of a call site.
///
/// # Errors
///
/// Those of [`prepare`].
pub fn prepare_counted(
    alloc: Global,
    world: &World,
    serial: u64,
    sites: &[SiteNo],
    work: &mut Work,
) -> Result<Prepared, PrepareFault>
    requires nothing_yet { work.old ≡ 0 }
    ensures prepared { IsPreparation (record { world = world.now; serial = serial }) sites.now result }
    ensures ticks { IfOk result (λ prepared. work.new ≤ sum_by (λ row. most_for world.now row.0) prepared.rows) }
    ensures small { work.new ≤ 2 ^ 28 }
{
    // Shows how few classes there are, which bounds the work.
    let _classes = world.classes.count_in_order();
    let mut rows = room_for(alloc, world, sites)?;
    push_rows(world, sites, &mut rows, work)?;
    Ok(Prepared {
        serial,
        rows: Seq::of(rows),
    })
}

/// Adds the sites in order, each with its link from scratch, to an empty list that has room for them.
fn push_rows(
    world: &World,
    sites: &[SiteNo],
    rows: &mut Vec<(SiteNo, Link)>,
    work: &mut Work,
) -> Result<(), PrepareFault>
    requires empty { rows.old.items ≡ [] }
    requires room { vec_len rows.old + length sites.now ≤ vec_capacity rows.old }
    requires fits { work.old + sum_by (most_for world.now) sites.now < 2 ^ 64 }
    ensures rows { OnOk result (prepared.ArePrepared world.now sites.now rows.new.items) }
    ensures unready { IfErr result (λ f. prepared.ready_fault world.now sites.now ≡ Some f) }
    ensures ticks { work.new ≤ work.old + sum_by (most_for world.now) sites.now }
{
    let mut remembered = [NO_ROW; MOST_REMEMBERED];
    for site in sites {
        let site = *site;
        match link_beside(world, site, rows.as_slice(), &mut remembered, work) {
            Ok(link) => push_row(rows, site, link),
            Err(_) => return Err(PrepareFault::NotReady(site)),
        }
    }
    Ok(())
}

/// Adds the row, for which there is room.
fn push_row<T: Copy>(rows: &mut Vec<(SiteNo, T)>, site: SiteNo, one: T)
    requires { vec_len rows.old + 1 ≤ vec_capacity rows.old }
    ensures items { rows.new.items ≡ rows.old.items ++ (site, one) ∷ [] }
    ensures len { vec_len rows.new ≡ vec_len rows.old + 1 }
    ensures capacity { vec_capacity rows.new ≡ vec_capacity rows.old }
{
    rows.push_reserved((site, one));
}

/// An empty list with room for something of each site, if the batch has the right size and its sites are requested, each once.
pub(crate) fn room_for<T: Drop>(
    alloc: Global,
    world: &World,
    sites: &[SiteNo],
) -> Result<Vec<T>, PrepareFault>
    ensures checked { OnOk result (prepared.prepare_fault world.now sites.now ≡ prepared.ready_fault world.now sites.now) }
    ensures few { OnOk result (is_bad_size (length sites.now) ≡ false) }
    ensures empty { IfOk result (λ made. made.items ≡ []) }
    ensures room { IfOk result (λ made. vec_len made + length sites.now ≤ vec_capacity made) }
    ensures fault { IfErr result (λ f. IsFault world.now sites.now f) }
{
    if is_bad_size(sites.len()) {
        return Err(PrepareFault::BatchSize);
    }
    if let Some(fault) = sites_fault(world, sites) {
        return Err(PrepareFault::from(fault));
    }
    match Vec::with_capacity(alloc, sites.len()) {
        Ok(made) => Ok(made),
        Err(_) => Err(ready_fault(world, sites).unwrap_or(PrepareFault::Memory)),
    }
}

/// The fault of the first site that has no link from scratch.
fn ready_fault(world: &World, sites: &[SiteNo]) -> Option<PrepareFault>
    ensures { result ≡ prepared.ready_fault world.now sites.now }
{
    for site in sites {
        if link_of(world, *site).is_err() {
            return Some(PrepareFault::NotReady(*site));
        }
    }
    None
}
