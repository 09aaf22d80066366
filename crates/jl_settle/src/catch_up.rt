//! The links and the index of an instance that is behind another one.

ghost use Rattle.std.specs.Prelude.{◌≡◌, ◌==◌, ℕ, OnOk, if◌then◌else◌};
ghost use Rattle.std.specs.List.{list_any};
ghost use Rattle.std.specs.Option.{option_copied};
ghost use Rattle.jl_cache.specs.Links.{link_at};
ghost use Rattle.jl_deps.specs.Indexes.{rests_at};

use jl_cache::Cache;
use jl_deps::{Index, KeptRests};
use jl_types::SiteNo;
use std::alloc::{AllocError, Global};

/// These sites get the links and the footprints that they have ahead. Nothing is evaluated, and no footprint is looked up.
///
/// # Errors
///
/// Want of memory. The links and the index are of no use then.
pub fn take_over(
    alloc: Global,
    links: &mut Cache,
    index: &mut Index,
    links_ahead: &Cache,
    index_ahead: &Index,
    sites: &[SiteNo],
) -> Result<(), AllocError>
    ensures links { OnOk result ((s : ℕ) → link_at links.new s
        ≡ (if list_any (λ t. t == s) sites.now then link_at links_ahead.now s else link_at links.old s)) }
    ensures index { OnOk result ((s : ℕ) → rests_at index.new s
        ≡ (if list_any (λ t. t == s) sites.now then rests_at index_ahead.now s else rests_at index.old s)) }
{
    for site in sites {
        take_link(links, *site, links_ahead)?;
        take_rests(alloc, index, *site, index_ahead.rests(*site))?;
    }
    Ok(())
}

/// The site gets the link that it has ahead, or none. On an error the links are of no use.
fn take_link(links: &mut Cache, site: SiteNo, ahead: &Cache) -> Result<(), AllocError>
    ensures { OnOk result ((s : ℕ) → link_at links.new s ≡ (if site == s then link_at ahead.now site else link_at links.old s)) }
{
    links.take(site, ahead)
}

/// The site gets this footprint, or none. On an error the index is of no use.
fn take_rests(
    alloc: Global,
    index: &mut Index,
    site: SiteNo,
    rests: Option<&KeptRests>,
) -> Result<(), AllocError>
    ensures { OnOk result ((s : ℕ) → rests_at index.new s ≡ (if site == s then option_copied rests.entry else rests_at index.old s)) }
{
    match rests {
        Some(rests) => {
            let copy = rests.again()?;
            index.add(alloc, site, copy)
        }
        None => {
            index.remove(site);
            Ok(())
        }
    }
}
