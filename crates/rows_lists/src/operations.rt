//! An index against a plain list of what sites rest on, over operations that a fixed generator draws.

use crate::plain::{FORMS, KeySet, Plain, Row, SITES, form, keys};
use jl_deps::{Index, Rests};
use jl_types::SiteNo;
use std::alloc::{AllocError, Global};
use std::process::Abort;

/// How many operations are tried.
const OPERATIONS: u32 = 10_000;

/// A generator of numbers (Knuth's MMIX), which always draws the same.
#[derive(Drop)]
struct Draws {
    state: u64,
}

impl Draws {
    /// The next number, below the bound, which isn't 0.
    fn below(&mut self, bound: u32) -> u32 {
        self.state = self
            .state
            .wrapping_mul(6_364_136_223_846_793_005)
            .wrapping_add(1_442_695_040_888_963_407);
        let number = u32::try_from(self.state >> 33).unwrap_or(0);
        number.checked_rem(bound).unwrap_or(0)
    }
}

/// How often each operation was tried, how many sites were touched in all, and how many were together with one.
#[derive(Clone, Copy, Debug, PartialEq, Eq)]
struct Counts {
    added: u32,
    removed: u32,
    touching: u32,
    touched: usize,
    asking: u32,
    joining: u32,
    together: usize,
}

/// What is tried: the index, the plain list, and what was counted so far.
#[derive(Drop)]
struct Trial {
    index: Index,
    plain: Plain,
    counts: Counts,
}

/// Adds the site to both. Answers whether they agree at it then.
fn add(alloc: Global, trial: &mut Trial, site: u32, row: Row) -> Result<bool, AllocError> {
    let rests = Rests {
        footprint: keys(alloc, row.keys)?,
        form: form(row.form),
    };
    trial.index.add(alloc, SiteNo::new(site), rests)?;
    trial.plain.set(site, Some(row));
    trial.counts.added = trial.counts.added.wrapping_add(1);
    trial.plain.agrees_at(alloc, &trial.index, site)
}

/// Removes the site from both. Answers whether they agree at it then.
fn remove(alloc: Global, trial: &mut Trial, site: u32) -> Result<bool, AllocError> {
    trial.index.remove(SiteNo::new(site));
    trial.plain.set(site, None);
    trial.counts.removed = trial.counts.removed.wrapping_add(1);
    trial.plain.agrees_at(alloc, &trial.index, site)
}

/// Asks both which sites the keys touch. Answers whether they agree.
fn touch(alloc: Global, trial: &mut Trial, set: KeySet) -> Result<bool, AllocError> {
    let keys = keys(alloc, set)?;
    let sites = trial.index.touched_by(alloc, keys.as_slice())?;
    let want = trial.plain.touched(alloc, set)?;
    trial.counts.touching = trial.counts.touching.wrapping_add(1);
    trial.counts.touched = trial.counts.touched.wrapping_add(sites.len());
    Ok(sites.as_slice() == want.as_slice())
}

/// Asks the index which sites are asked under the keys. Answers whether these may be so.
fn ask(alloc: Global, trial: &mut Trial, set: KeySet) -> Result<bool, AllocError> {
    let keys = keys(alloc, set)?;
    let asked = trial.index.asked(alloc, keys.as_slice())?;
    let touched = trial.plain.touched(alloc, set)?;
    trial.counts.asking = trial.counts.asking.wrapping_add(1);
    Ok(
        trial
            .plain
            .may_be_asked(set, asked.as_slice(), touched.as_slice()),
    )
}

/// Asks both which sites are together with this one. Answers whether they agree.
fn join(alloc: Global, trial: &mut Trial, site: u32) -> Result<bool, AllocError> {
    let sites = trial.index.together(alloc, &[SiteNo::new(site)])?;
    let want = trial.plain.together(alloc, site)?;
    trial.counts.joining = trial.counts.joining.wrapping_add(1);
    trial.counts.together = trial.counts.together.wrapping_add(sites.len());
    Ok(sites.as_slice() == want.as_slice())
}

/// Tries one operation. Answers whether index and list agree.
fn try_one(alloc: Global, trial: &mut Trial, draws: &mut Draws) -> Result<bool, AllocError> {
    let site = draws.below(SITES);
    // Each of twelve keys is in the set once in four times.
    let keys = draws.below(4096) & draws.below(4096);
    let form = draws.below(FORMS);
    match draws.below(6) {
        0 => remove(alloc, trial, site),
        1 => touch(alloc, trial, keys),
        2 if form % 2 == 0 => ask(alloc, trial, keys),
        2 => join(alloc, trial, site),
        _ => add(alloc, trial, site, Row { keys, form }),
    }
}

/// Whether a copy of the index agrees with the list at each site.
fn agrees_copied(alloc: Global, trial: &Trial) -> Result<bool, AllocError> {
    let copy = trial.index.copy(alloc)?;
    for site in 0..SITES {
        if !trial.plain.agrees_at(alloc, &copy, site)? {
            return Ok(false);
        }
    }
    Ok(true)
}

/// Tries all operations. Answers what was counted, if index and list agreed each time, and a copy in the end.
fn try_all(alloc: Global, trial: &mut Trial) -> Result<Option<Counts>, AllocError> {
    let mut draws = Draws { state: 1 };
    for _ in 0..OPERATIONS {
        if !try_one(alloc, trial, &mut draws)? {
            return Ok(None);
        }
    }
    Ok(agrees_copied(alloc, trial)?.then_some(trial.counts))
}

/// Tries all operations on an index and a list of which nothing was tried yet.
fn counted(alloc: Global) -> Result<Option<Counts>, AllocError> {
    let mut trial = Trial {
        index: Index::new(alloc),
        plain: Plain::new(alloc)?,
        counts: Counts {
            added: 0,
            removed: 0,
            touching: 0,
            touched: 0,
            asking: 0,
            joining: 0,
            together: 0,
        },
    };
    try_all(alloc, &mut trial)
}

/// The counts are those of the same operations over sets, drawn and counted by another program.
#[test]
fn agrees_with_a_plain_list(rt: HostRuntime) -> Result<(), AllocError> {
    let counts = counted(rt.alloc())?;
    let want = Counts {
        added: 4_976,
        removed: 1_697,
        touching: 1_661,
        touched: 41_470,
        asking: 866,
        joining: 800,
        together: 3_512,
    };
    assert_eq!(&rt; counts, Some(want));
    Ok(())
}
