//! A key that very many sites rest on.

use jl_deps::{Footprint, Form, Index, Rests};
use jl_types::{ClassId, Key, MethodId, SiteNo};
use std::alloc::{AllocError, Global};
use std::process::Abort;

/// How many sites a core has at most.
const SITES: u32 = 65_536;

/// How each other site selects.
fn selecting() -> Form {
    Form::Virtual(MethodId {
        class: ClassId::new(0),
        index: 0,
    })
}

/// Adds the site, under the receivers of class 0 and of another class. Each other one selects a method.
fn add(alloc: Global, index: &mut Index, site: u32) -> Result<(), AllocError> {
    let other = Key::Receivers(ClassId::new(1 + site % 7));
    let keys = vec![in alloc; Key::Receivers(ClassId::new(0)), other]?;
    let rests = Rests {
        footprint: Footprint::of(alloc, keys)?,
        form: if site % 2 == 1 {
            selecting()
        } else {
            Form::Other
        },
    };
    Ok(index.add(alloc, SiteNo::new(site), rests)?)
}

/// How many sites rest on the receivers of the class.
fn count(alloc: Global, index: &Index, class: u32) -> Result<usize, AllocError> {
    let sites = index.touched_by(alloc, &[Key::Receivers(ClassId::new(class))])?;
    Ok(sites.len())
}

/// Whether the index is empty at first, once it has one site, and once that is gone.
fn emptied(alloc: Global) -> Result<[bool; 3], AllocError> {
    let mut index = Index::new(alloc);
    let first = index.is_empty();
    add(alloc, &mut index, 0)?;
    let full = index.is_empty();
    index.remove(SiteNo::new(0));
    Ok([first, full, index.is_empty()])
}

/// How many sites there are under class 0 once all are added, once every other one is gone, and once all are, and then under class 3.
fn counts_of(alloc: Global, index: &mut Index) -> Result<[usize; 4], AllocError> {
    for site in 0..SITES {
        add(alloc, index, site)?;
    }
    let all = count(alloc, index, 0)?;
    for half in 0..SITES / 2 {
        index.remove(SiteNo::new(2 * half + 1));
    }
    let half = count(alloc, index, 0)?;
    for half in 0..SITES / 2 {
        index.remove(SiteNo::new(2 * half));
    }
    Ok([all, half, count(alloc, index, 0)?, count(alloc, index, 3)?])
}

/// How many sites there are at each of these times, by an index that is empty at first.
fn counts(alloc: Global) -> Result<[usize; 4], AllocError> {
    let mut index = Index::new(alloc);
    counts_of(alloc, &mut index)
}

#[test]
fn removes_one_by_one(rt: HostRuntime) -> Result<(), AllocError> {
    let counts = counts(rt.alloc())?;
    assert_eq!(&rt; counts, [65_536, 32_768, 0, 0]);
    let emptied = emptied(rt.alloc())?;
    assert_eq!(&rt; emptied, [true, false, true]);
    Ok(())
}
