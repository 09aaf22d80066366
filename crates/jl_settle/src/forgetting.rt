//! The links of sites that go, as those of a retired loader.

ghost use Rattle.std.specs.Prelude.{◌≡◌, ◌==◌, ◌&&◌, ℕ, None, is_some, IfOk, OnOk, OnErr, if◌then◌else◌};
ghost use Rattle.std.specs.List.{list_any};
ghost use Rattle.jl_cache.specs.Links.{link_at};
ghost use Rattle.jl_deps.specs.Indexes.{rests_at};

use crate::lost::push_if;
use crate::settling::remove_all;
use jl_cache::Cache;
use jl_deps::Index;
use jl_types::SiteNo;
use std::alloc::{AllocError, Global};

/// Drops the links of these sites, and takes them out of the index. Nothing is evaluated. It gives those that had links.
///
/// # Errors
///
/// Want of memory. Nothing has changed then.
pub fn forget(
    alloc: Global,
    links: &mut Cache,
    index: &mut Index,
    sites: &[SiteNo],
) -> Result<Vec<SiteNo>, AllocError>
    ensures links { OnOk result ((s : ℕ) → link_at links.new s
        ≡ (if list_any (λ t. t == s) sites.now then None else link_at links.old s)) }
    ensures index { OnOk result ((s : ℕ) → rests_at index.new s
        ≡ (if list_any (λ t. t == s) sites.now then None else rests_at index.old s)) }
    ensures lost { IfOk result (λ lost. (s : ℕ) → list_any (λ t. t == s) lost.items
        ≡ (list_any (λ t. t == s) sites.now && is_some (link_at links.old s))) }
    ensures links_err { OnErr result (links.new ≡ links.old) }
    ensures index_err { OnErr result (index.new ≡ index.old) }
{
    let lost = linked_among(alloc, links, sites)?;
    links.drop_changed(sites);
    remove_all(index, sites);
    Ok(lost)
}

/// Those of the sites that have a link.
fn linked_among(alloc: Global, links: &Cache, sites: &[SiteNo]) -> Result<Vec<SiteNo>, AllocError>
    ensures { IfOk result (λ linked. (s : ℕ) → list_any (λ t. t == s) linked.items
        ≡ (list_any (λ t. t == s) sites.now && is_some (link_at links.now s))) }
{
    let mut linked = Vec::new(alloc);
    for site in sites {
        let has_link = links.get(*site).is_some();
        push_if(&mut linked, has_link, *site)?;
    }
    Ok(linked)
}
