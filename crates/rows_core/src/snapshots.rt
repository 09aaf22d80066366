//! Snapshots that are kept while events come.

use crate::classes::Class::{A, M, Object};
use crate::steps::Step::*;
use crate::steps::{Step, are_done, is_done};
use jl_core::Core;
use jl_relink::{World, link_of};
use jl_types::SiteNo;
use std::alloc::Global;
use std::process::Abort;

/// How many sites there may be.
const SITES: u32 = 64;

const BEFORE: &[Step] = &[Define(0, Object), Define(0, A), Define(0, M), Request(2, 0)];

/// Whether as much is seen in both worlds: the same links from scratch, and as many classes, places and switch points.
fn are_same(one: &World, other: &World) -> bool {
    for number in 0..SITES {
        let site = SiteNo::new(number);
        if link_of(one, site) != link_of(other, site) {
            return false;
        }
    }
    one.classes.class_count() == other.classes.class_count()
        && one.site_count() == other.site_count()
        && one.sites.switch_count() == other.sites.switch_count()
}

/// Whether a snapshot from after an install has the world of the one from before.
fn is_same(alloc: Global, core: &mut Core) -> bool {
    let Ok(before) = core.snapshot(alloc) else {
        return false;
    };
    let is_installed = is_done(alloc, core, &Install(&[0]));
    match core.snapshot(alloc) {
        Ok(after) => {
            before.serial() == 4
                && after.serial() == 5
                && are_same(before.world(), after.world())
                && is_installed
        }
        Err(_) => false,
    }
}

/// Whether a snapshot from after an install has the world of the one from before, on a new core.
fn stays(alloc: Global) -> bool {
    match Core::new(alloc, SITES) {
        Ok(mut core) => are_done(alloc, &mut core, BEFORE) && is_same(alloc, &mut core),
        Err(_) => false,
    }
}

#[test]
fn has_the_same_world_after_an_install(rt: HostRuntime) {
    assert!(rt; stays(rt.alloc()));
}
