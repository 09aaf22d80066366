//! Times links by a core: looks up the links of all sites from scratch, four times, 256 at a time, installs them and calls each on null. A
//! site that isn't ready is left out. Prints how many links of each kind there are.

use crate::fill::{Takes, fill};
use crate::input::Input;
use crate::told::tell;
use jl_class::ClassFile;
use jl_core::Core;
use jl_names::Seq;
use jl_types::{Event, Link, LoaderId, Place, Recv, SiteNo};
use std::alloc::{AllocError, Global};
use std::io;
use std::time::Instant;

/// How many sites are looked up and installed at a time.
const BATCH: usize = 256;

/// How often the links are timed.
const ROUNDS: u32 = 4;

/// Sites with their links.
type Rows = Seq<(SiteNo, Link)>;

impl Takes for Core {
    fn defines(&mut self, alloc: Global, file: ClassFile) -> bool {
        is_accepted(alloc, self, Event::Define(LoaderId::new(0), file))
    }

    fn requests(&mut self, alloc: Global, place: Place) -> bool {
        is_accepted(alloc, self, Event::Request(place))
    }
}

/// Whether the event is accepted.
fn is_accepted(alloc: Global, core: &mut Core, event: Event) -> bool {
    core.apply(alloc, event).is_ok()
}

/// Adds the links of these sites, and says whether all have one.
fn add_rows(
    alloc: Global,
    core: &Core,
    sites: &[SiteNo],
    batches: &mut Vec<Rows>,
) -> Result<bool, AllocError> {
    match core.prepare(alloc, sites) {
        Ok(prepared) => {
            batches.push(prepared.rows)?;
            Ok(true)
        }
        Err(_) => Ok(false),
    }
}

/// Adds the links of these sites, 256 at a time, or, if one of them has none, of each alone that has one.
fn add_all(
    alloc: Global,
    core: &Core,
    sites: &[SiteNo],
    batches: &mut Vec<Rows>,
) -> Result<(), AllocError> {
    for batch in sites.chunks(BATCH) {
        if !add_rows(alloc, core, batch, batches)? {
            for site in batch {
                let _has_link = add_rows(alloc, core, &[*site], batches)?;
            }
        }
    }
    Ok(())
}

/// How many links there are of each kind: faults, one method, one outcome, a table, too many classes for one.
fn kinds_of(batches: &[Rows]) -> [u32; 5] {
    let mut kinds = [0u32; 5];
    for rows in batches {
        for row in rows.as_slice() {
            let kind = match &row.1 {
                Link::Fault(_) => 0,
                Link::Plain(_) => 1,
                Link::Direct(_) => 2,
                Link::Table(_, _) => 3,
                Link::Mega => 4usize,
            };
            if let Some(count) = kinds.get_mut(kind) {
                *count = count.saturating_add(1);
            }
        }
    }
    kinds
}

/// How many of the batches are installed.
fn install_each(alloc: Global, core: &mut Core, batches: Vec<Rows>) -> u64 {
    let mut installed = 0u64;
    for rows in batches {
        if is_accepted(alloc, core, Event::Install(rows)) {
            installed = installed.saturating_add(1);
        }
    }
    installed
}

/// The sites of the numbers below the count.
pub(crate) fn sites_from(alloc: Global, count: u32) -> Result<Vec<SiteNo>, AllocError> {
    let mut sites = Vec::new(alloc);
    for site in 0..count {
        sites.push(SiteNo::new(site))?;
    }
    Ok(sites)
}

/// Times the links of all sites. They are let go.
fn time_links(rt: &HostRuntime, core: &Core, sites: &[SiteNo]) -> io::Result<()> {
    let start = Instant::now(rt)?;
    let mut batches = Vec::new(rt.alloc());
    add_all(rt.alloc(), core, sites, &mut batches)?;
    tell(rt, "links", sites.len() as u64, &start)
}

/// Times the installs of all links.
pub(crate) fn time_installs(rt: &HostRuntime, core: &mut Core, sites: &[SiteNo]) -> io::Result<()> {
    let mut batches = Vec::new(rt.alloc());
    add_all(rt.alloc(), core, sites, &mut batches)?;
    let kinds = kinds_of(batches.as_slice());
    println!(rt; "faults, plain, direct, tables, megamorphic {kinds:?}")?;
    let start = Instant::now(rt)?;
    let installed = install_each(rt.alloc(), core, batches);
    tell(rt, "installs", installed, &start)
}

/// Times the links of all sites, their installs and calls.
fn time_all(rt: &HostRuntime, core: &mut Core, sites: &[SiteNo]) -> io::Result<()> {
    for _ in 0..ROUNDS {
        time_links(rt, core, sites)?;
    }
    time_installs(rt, core, sites)?;
    let start = Instant::now(rt)?;
    for site in sites {
        let _answer = core.call(*site, Recv::Null);
    }
    tell(rt, "calls on null", sites.len() as u64, &start)
}

/// Measures all of it.
pub(crate) fn measure(rt: &HostRuntime, input: &Input) -> io::Result<()> {
    let mut core = Core::new(rt.alloc(), input.max_sites())?;
    let count = fill(rt, &mut core, input)?;
    let sites = sites_from(rt.alloc(), count)?;
    time_all(rt, &mut core, sites.as_slice())
}
