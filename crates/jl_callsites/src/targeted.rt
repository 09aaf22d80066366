//! Which call sites name methods of a loader's classes, or of the classes of several.

ghost use Rattle.std.specs.Prelude.{◌≡◌, ◌<◌, ◌^◌, not, IfSome};
ghost use Rattle.std.specs.List.{list_any};
ghost use Rattle.jl_types.specs.Events.Retirement as retirement;
ghost use Rattle.jl_types.specs.Events.Retirement.{has_target};
ghost use Rattle.jl_callsites.specs.Targeted.{names_any};

use crate::call_site::CallSite;
use crate::sites::Sites;
use jl_hierarchy::{Classes, Leaving};
use jl_types::{CallSiteId, LoaderId, Part, Target};

impl Sites {
    /// The least call site whose target names a method of one of the loader's classes, be it on a side that isn't taken: a walk over
    /// all targets. Takes no memory.
    pub fn targeted(&self, classes: &Classes, loader: LoaderId) -> Option<CallSiteId>
        ensures { result ≡ retirement.targeted classes.now self.now.call_sites loader }
    {
        match self.first_targeted(classes, loader) {
            Some(place) => Some(CallSiteId::new(place as u32)),
            None => None,
        }
    }

    /// Whether no target names a method of a class of one of the loaders, be it on a side that isn't taken: a walk over all targets.
    /// Takes no memory.
    pub fn spares(&self, classes: &Classes, leaving: &Leaving) -> bool
        ensures { result ≡ not (list_any (has_target (names_any classes.now leaving.now)) self.now.call_sites) }
    {
        !self.targets_any(classes, leaving)
    }

    /// Whether some target names a method of a class of one of the loaders.
    fn targets_any(&self, classes: &Classes, leaving: &Leaving) -> bool
        ensures { result ≡ list_any (has_target (names_any classes.now leaving.now)) self.now.call_sites }
    {
        self.call_sites
            .as_slice()
            .iter()
            .any(|row| row_names_any(classes, leaving, row))
    }

    /// The place of the least call site whose target names a method of one of the loader's classes.
    fn first_targeted(&self, classes: &Classes, loader: LoaderId) -> Option<usize>
        ensures first { result ≡ retirement.targeted classes.now self.now.call_sites loader }
        ensures few { IfSome result (λ place. place < 2 ^ 20) }
    {
        // Shows that a place fits a call site's number.
        let _count = self.few_call_sites();
        self.call_sites
            .as_slice()
            .iter()
            .position(|row| row_names_from(classes, loader, row))
    }
}

/// Whether the call site isn't released, and its target names a method of one of the loader's classes.
fn row_names_from(classes: &Classes, loader: LoaderId, row: &Option<CallSite>) -> bool
    ensures { result ≡ has_target (retirement.names_from classes.now loader) row.now }
{
    match row {
        Some(site) => names_from(classes, loader, site.target()),
        None => false,
    }
}

/// Whether the call site isn't released, and its target names a method of a class of one of the loaders.
fn row_names_any(classes: &Classes, leaving: &Leaving, row: &Option<CallSite>) -> bool
    ensures { result ≡ has_target (names_any classes.now leaving.now) row.now }
{
    match row {
        Some(site) => names_any(classes, leaving, site.target()),
        None => false,
    }
}

/// Whether the target names a method of one of the loader's classes.
fn names_from(classes: &Classes, loader: LoaderId, target: &Target) -> bool
    ensures { result ≡ retirement.names_from classes.now loader target.now }
{
    match &target.part {
        Part::Method(method) => classes.is_of(loader, method.class),
        Part::Guard(_, first, fallback) => {
            names_from(classes, loader, first) || names_from(classes, loader, fallback)
        }
        Part::Invoker(_) => false,
    }
}

/// Whether the target names a method of a class of one of the loaders.
fn names_any(classes: &Classes, leaving: &Leaving, target: &Target) -> bool
    ensures { result ≡ names_any classes.now leaving.now target.now }
{
    match &target.part {
        Part::Method(method) => classes.is_of_any(leaving, method.class),
        Part::Guard(_, first, fallback) => {
            names_any(classes, leaving, first) || names_any(classes, leaving, fallback)
        }
        Part::Invoker(_) => false,
    }
}
