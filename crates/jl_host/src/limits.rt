//! The limits of a linker.

ghost use Rattle.std.specs.Prelude.{◌≡◌, ◌≤◌, true};
ghost use Rattle.jl_types.specs.Events.Limits.{AreAllowed};
ghost use Rattle.jl_host.specs.Linkers.{wide, may_be_asked, limit_asked, limits_asked};
ghost use Rattle.jl_host.specs.Renewals.{limits_for};

use jl_core::Core;
use jl_types::{Limits, MOST_OF_A_KIND};

/// So many sites, and as many of each other kind as a linker may have.
pub(crate) fn wide(max_sites: u32) -> Limits
    requires { 1 ≤ max_sites }
    ensures limits { result ≡ wide max_sites }
    ensures allowed { AreAllowed result }
{
    Limits {
        sites: max_sites,
        loaders: MOST_OF_A_KIND,
        classes: MOST_OF_A_KIND,
        call_sites: MOST_OF_A_KIND,
        switches: MOST_OF_A_KIND,
    }
}

/// Whether there are some sites, and of no kind more than a linker may have.
pub(crate) fn may_be_asked(asked: &Limits) -> bool
    ensures { result ≡ may_be_asked asked.now }
{
    asked.sites >= 1
        && asked.sites <= MOST_OF_A_KIND
        && asked.loaders <= MOST_OF_A_KIND
        && asked.classes <= MOST_OF_A_KIND
        && asked.call_sites <= MOST_OF_A_KIND
        && asked.switches <= MOST_OF_A_KIND
}

/// The limit that was asked for: 0 stands for as many as there may be.
fn limit_asked(number: u32) -> u32
    ensures { result ≡ limit_asked number }
{
    if number == 0 { MOST_OF_A_KIND } else { number }
}

/// The limits that were asked for: 0 stands for as many as there may be, except for sites.
pub(crate) fn limits_asked(asked: &Limits) -> Limits
    requires { may_be_asked asked.now ≡ true }
    ensures limits { result ≡ limits_asked asked.now }
    ensures allowed { AreAllowed result }
{
    Limits {
        sites: asked.sites,
        loaders: limit_asked(asked.loaders),
        classes: limit_asked(asked.classes),
        call_sites: limit_asked(asked.call_sites),
        switches: limit_asked(asked.switches),
    }
}

/// The limits of the core, but for so many sites.
pub(crate) fn limits_for(core: &Core, max_sites: u32) -> Limits
    requires { 1 ≤ max_sites }
    ensures limits { result ≡ limits_for core.now max_sites }
    ensures allowed { AreAllowed result }
    ensures before { AreAllowed core.now.limits }
{
    let mut limits = core.limits();
    limits.sites = max_sites;
    limits
}
