//! Installed links, and what they rest on.

ghost use Rattle.std.specs.Prelude.{◌≡◌, ◌++◌, ◌==◌, ℕ, map, IfOk, OnOk};
ghost use Rattle.jl_cache.specs.Links.{link_at, link_with};
ghost use Rattle.jl_deps.specs.Indexes.{IsIndex};

use crate::settling::refresh;
use jl_cache::{Cache, KeptLink};
use jl_deps::Index;
use jl_relink::World;
use jl_types::SiteNo;
use std::alloc::{AllocError, Global};

/// Installs these links in place of those that the sites have, and keeps in the index what they rest on. Their tables are shared.
///
/// # Errors
///
/// Want of memory. The links and the index are of no use then.
pub fn install_rows(
    alloc: Global,
    world: &World,
    links: &mut Cache,
    index: &mut Index,
    rows: &[(SiteNo, KeptLink)],
) -> Result<(), AllocError>
    requires { IsIndex world.now (link_at links.old) index.old }
    ensures links { OnOk result ((s : ℕ) → link_at links.new s ≡ link_with rows.now (link_at links.old s) s) }
    ensures index { OnOk result (IsIndex world.now (link_at links.new) index.new) }
{
    links.install_kept(rows)?;
    let sites = row_sites(alloc, rows)?;
    refresh(alloc, world, links, index, sites.as_slice())
}

/// The sites of the rows.
fn row_sites<T>(alloc: Global, rows: &[(SiteNo, T)]) -> Result<Vec<SiteNo>, AllocError>
    ensures { IfOk result (λ sites. sites.items ≡ map (λ row. row.0) rows.now) }
{
    rows.iter().map(|row| row.0).collect(alloc)
}
