//! What there is to link.

ghost use Rattle.std.specs.Prelude.{◌≡◌, length, IfOk};
ghost use Rattle.jl_types.specs.Values.World.{World, nothing_yet};
ghost use Rattle.jl_types.specs.Linkage.Stages as stages;

use indexmap::IndexMap;
use jl_callsites::Sites;
use jl_hierarchy::Classes;
use jl_places::Places;
use jl_types::{CallSiteId, SiteNo};
use std::alloc::{AllocError, Global};
use std::marker::Model;

/// The classes, the requested places in order of request, the call site of each bound invokedynamic, and the call sites and switch
/// points.
pub struct World {
    pub classes: Classes,
    pub places: Places,
    pub bindings: IndexMap<SiteNo, CallSiteId>,
    pub sites: Sites,
}

// Written out, since a derived drop is proved anew in each crate that lets one go.
impl Drop for World {
    fn drop(self) {
        let World {
            classes: _classes,
            places: _places,
            bindings: _bindings,
            sites: _sites,
        } = self;
    }
}

impl Model for World {
    ghost use Rattle.jl_types.specs.Values.World.{World};
    ghost use Rattle.std.specs.Coded.{codes};
    ghost use Rattle.jl_types.specs.ForProofs.TargetCode.{target_code};

    ghost Value = { World };

    ghost coded = { Prim.hlevel (codes, target_code) };

    ghost view = { λ w. record {
      classes = w.classes;
      places = w.places;
      bindings = w.bindings.entries;
      sites = w.sites;
    } };
}

impl World {
    /// No classes, requested places, call sites and switch points: loader 0 has found nothing.
    pub fn new(alloc: Global) -> Result<Self, AllocError>
        ensures { IfOk result (λ world. world ≡ nothing_yet) }
    {
        Ok(World {
            classes: Classes::new(alloc)?,
            places: Places::new(alloc)?,
            bindings: IndexMap::new(alloc),
            sites: Sites::new(alloc),
        })
    }

    /// A copy of the world.
    pub fn copy(&self, alloc: Global) -> Result<World, AllocError>
        ensures { IfOk result (λ copy. copy ≡ self.now) }
    {
        Ok(World {
            classes: self.classes.copy(alloc)?,
            places: self.places.copy(alloc)?,
            bindings: self.bindings.clone()?,
            sites: self.sites.copy(alloc)?,
        })
    }

    /// How many places are requested. Takes no memory.
    pub fn site_count(&self) -> usize
        ensures { result ≡ length self.now.places }
    {
        self.places.len()
    }

    /// The call site to which the invokedynamic is bound. Takes no memory.
    pub fn bound_to(&self, site: SiteNo) -> Option<CallSiteId>
        ensures { result ≡ stages.bound_to self.now site }
    {
        self.bindings.get(&site).copied()
    }
}
