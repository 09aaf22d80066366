//! The sites of a batch, be it prepared or installed.

ghost use Rattle.std.specs.Prelude.{◌≡◌, ◌==◌, ◌<◌, ◌≤◌, [], map, All};
ghost use Rattle.std.specs.List.{list_any};
ghost use Rattle.jl_types.specs.Events.Batches as batches;

use crate::world::World;
use jl_types::{Link, SiteNo, SitesFault};

/// The most rows of a batch.
pub const MOST_IN_BATCH: usize = 256;

/// Whether a batch of so many rows has none, or too many: more than 256.
pub fn is_bad_size(rows: usize) -> bool
    ensures { result ≡ batches.is_bad_size rows }
{
    rows == 0 || rows > MOST_IN_BATCH
}

/// A row of a batch: a site, alone or with a link.
pub trait Row {
    ghost use Rattle.std.specs.Prelude.{◌≡◌, ℕ};

    ghost site_of: { Self → ℕ };

    /// Its site.
    fn site(&self) -> SiteNo
        ensures { result ≡ site_of self.now };
}

impl Row for SiteNo {
    ghost site_of = { λ site. site };

    fn site(&self) -> SiteNo {
        *self
    }
}

impl Row for (SiteNo, Link) {
    ghost site_of = { λ row. row.0 };

    fn site(&self) -> SiteNo {
        self.0
    }
}

/// The fault of the first row whose site isn't requested, or comes in an earlier row. Takes no memory. A row whose site is greater
/// than those of all earlier rows is compared with none of them.
pub fn sites_fault<R: Row>(world: &World, rows: &[R]) -> Option<SitesFault>
    ensures { result ≡ batches.sites_fault world.now [] (map R.site_of rows.now) }
{
    let mut bound = 0;
    for (number, row) in rows.iter().enumerate() {
        let site = row.site();
        if site.number() as usize >= world.site_count() {
            return Some(SitesFault::Unknown(site));
        }
        if comes_below(&rows[..number], bound, site) {
            return Some(SitesFault::Repeated(site));
        }
        bound = bound_with(bound, site);
    }
    None
}

/// Whether the site comes in these rows, all of whose sites are below the bound.
fn comes_below<R: Row>(rows: &[R], bound: usize, site: SiteNo) -> bool
    requires { All (λ row. R.site_of row < bound) rows.now }
    ensures { result ≡ list_any (λ row. R.site_of row == site) rows.now }
{
    if site.number() as usize >= bound {
        return false;
    }
    comes(rows, site)
}

/// The bound, or the number after the site if that is more.
fn bound_with(bound: usize, site: SiteNo) -> usize
    ensures as_before { bound ≤ result }
    ensures past { site < result }
{
    bound.max(site.number() as usize + 1)
}

/// Whether the site comes in these rows.
fn comes<R: Row>(rows: &[R], site: SiteNo) -> bool
    ensures { result ≡ list_any (λ row. R.site_of row == site) rows.now }
{
    for row in rows {
        if row.site() == site {
            return true;
        }
    }
    false
}
