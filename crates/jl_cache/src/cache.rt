//! The links that are installed.

ghost use Rattle.std.specs.Prelude.{◌≡◌, ℕ, ◌≤◌, ◌<◌, ◌==◌, ◌++◌, ◌∷◌, ◌^◌, [], None, Some, length, IfOk, OnOk, OnErr, if◌then◌else◌};
ghost use Rattle.std.specs.List.{list_any, AllByRecursion};
ghost use Rattle.std.specs.Option.{option_copied};
ghost use Rattle.jl_cache.specs.Links.{link_at, AreRising, link_with};
ghost use Rattle.jl_cache.specs.ForProofs.Sites.{HaveSites};

use crate::kept::KeptLink;
use jl_numbered::Numbered;
use jl_types::{Link, SiteNo};
use std::alloc::{AllocError, Global};
use std::marker::Model;

/// The installed links, by site. A clause sees each site that has one, with it, by rising number.
pub struct Cache {
    alloc: Global,
    links: Numbered<KeptLink>,
}

// Written out, since a derived drop is proved anew in each crate that lets one go.
impl Drop for Cache {
    fn drop(self) {
        let Cache {
            alloc: _alloc,
            links: _links,
        } = self;
    }
}

impl Model for Cache {
    ghost use Rattle.std.specs.Prelude.{List, ℕ};
    ghost use Rattle.jl_types.specs.declared.link.Link.{Link};
    ghost use Rattle.jl_cache.specs.ForProofs.Sites.{HaveSites};

    ghost Value = { List (ℕ × Link) };

    ghost view = { λ c. c.links.entries };

    ghost invariant = { λ c. HaveSites c.links.entries };
}

impl Cache {
    /// No links.
    pub fn new(alloc: Global) -> Self
        ensures { result ≡ [] }
    {
        Cache {
            alloc,
            links: Numbered::new(alloc),
        }
    }

    /// A copy of the links, which shares their tables.
    pub fn copy(&self) -> Result<Cache, AllocError>
        ensures { IfOk result (λ copy. copy ≡ self.now) }
    {
        Ok(Cache {
            alloc: self.alloc,
            links: self.links.copy(self.alloc)?,
        })
    }

    /// The site's link, if one is installed. Takes no memory.
    pub fn get(&self, site: SiteNo) -> Option<Link>
        ensures link { result ≡ link_at self.now site }
        ensures rising { AreRising self.now }
    {
        let _count = self.links.len();
        link_kept(self.links.get(place_of(site)))
    }

    /// The site's link as it is kept, if one is installed. Takes no memory.
    pub fn kept(&self, site: SiteNo) -> Option<&KeptLink>
        ensures { option_copied result ≡ link_at self.now site }
    {
        self.links.get(place_of(site))
    }

    /// How many sites have a link. Takes no memory.
    pub fn len(&self) -> usize
        ensures { result ≡ length self.now }
    {
        self.links.len()
    }

    /// Whether there is none. Takes no memory.
    pub fn is_empty(&self) -> bool
        ensures { result ≡ (length self.now == 0) }
    {
        self.len() == 0
    }

    /// Each site that has a link, with it, by rising number.
    pub fn list(&self, alloc: Global) -> Result<Vec<(SiteNo, Link)>, AllocError>
        ensures items { IfOk result (λ rows. rows.items ≡ self.now) }
        ensures rising { AreRising self.now }
    {
        rows_of(alloc, &self.links)
    }

    /// Installs these links, in place of those that the sites have.
    ///
    /// # Errors
    ///
    /// Want of memory. Nothing has changed then.
    pub fn install(&mut self, rows: &[(SiteNo, Link)]) -> Result<(), AllocError>
        ensures ok { OnOk result ((s : ℕ) → link_at self.new s ≡ link_with rows.now (link_at self.old s) s) }
        ensures err { OnErr result (self.new ≡ self.old) }
    {
        let kept = kept_rows(self.alloc, rows)?;
        make_room(&mut self.links, kept.as_slice())?;
        put_all(&mut self.links, kept);
        Ok(())
    }

    /// Installs these links as they are kept, in place of those that the sites have. Their tables are shared.
    ///
    /// # Errors
    ///
    /// Want of memory. The links are of no use then.
    pub fn install_kept(&mut self, rows: &[(SiteNo, KeptLink)]) -> Result<(), AllocError>
        ensures { OnOk result ((s : ℕ) → link_at self.new s ≡ link_with rows.now (link_at self.old s) s) }
    {
        make_room(&mut self.links, rows)?;
        put_kept_rows(&mut self.links, rows)
    }

    /// The site gets the link that it has in `ahead`, or none if it has none there. A table is shared.
    ///
    /// # Errors
    ///
    /// Want of memory. The links are of no use then.
    pub fn take(&mut self, site: SiteNo, ahead: &Cache) -> Result<(), AllocError>
        ensures { OnOk result ((s : ℕ) → link_at self.new s ≡ (if site == s then link_at ahead.now site else link_at self.old s)) }
    {
        match ahead.links.get(place_of(site)) {
            Some(kept) => put_kept(&mut self.links, site, kept),
            None => {
                self.links.remove(place_of(site));
                Ok(())
            }
        }
    }

    /// Removes the links of these sites. A site without one stays without. Takes no memory.
    pub fn drop_changed(&mut self, sites: &[SiteNo])
        ensures links { (s : ℕ) → link_at self.new s ≡ (if list_any (λ n. n == s) sites.now then None else link_at self.old s) }
        ensures few { length self.new ≤ length self.old }
    {
        for site in sites {
            self.links.remove(place_of(*site));
        }
    }
}

/// The place of the site among the links.
fn place_of(site: SiteNo) -> usize
    ensures place { result ≡ site }
    ensures small { result < 2 ^ 32 }
{
    site.number() as usize
}

/// The link that is kept, if there is one.
fn link_kept(kept: Option<&KeptLink>) -> Option<Link>
    ensures { result ≡ option_copied kept.entry }
{
    match kept {
        Some(kept) => Some(kept.get()),
        None => None,
    }
}

/// The sites with their links, by rising number.
fn rows_of(alloc: Global, links: &Numbered<KeptLink>) -> Result<Vec<(SiteNo, Link)>, AllocError>
    requires { HaveSites links.now.entries }
    ensures items { IfOk result (λ rows. rows.items ≡ links.now.entries) }
    ensures rising { AreRising links.now.entries }
{
    let mut rows = Vec::with_capacity(alloc, links.len())?;
    let mut from = 0;
    while let Some((place, kept)) = links.next(from) {
        push_row(&mut rows, SiteNo::new(place as u32), kept.get())?;
        from = place + 1;
    }
    Ok(rows)
}

/// Adds the site with its value.
fn push_row<T: Drop>(rows: &mut Vec<(SiteNo, T)>, site: SiteNo, value: T) -> Result<(), AllocError>
    ensures { OnOk result (rows.new.items ≡ rows.old.items ++ (site, value) ∷ []) }
{
    rows.push((site, value))?;
    Ok(())
}

/// What is kept of each row.
pub fn kept_rows(
    alloc: Global,
    rows: &[(SiteNo, Link)],
) -> Result<Vec<(SiteNo, KeptLink)>, AllocError>
    ensures { IfOk result (λ kept. kept.items ≡ rows.now) }
{
    let mut kept = Vec::with_capacity(alloc, rows.len())?;
    for row in rows {
        let link = KeptLink::new(alloc, &row.1)?;
        push_row(&mut kept, row.0, link)?;
    }
    Ok(kept)
}

/// Makes room for the links of the rows. On an error the links are as they were.
fn make_room(links: &mut Numbered<KeptLink>, rows: &[(SiteNo, KeptLink)]) -> Result<(), AllocError>
    ensures sites { AllByRecursion (λ row. row.0 < 2 ^ 32) rows.now }
    ensures same { links.new.entries ≡ links.old.entries }
    ensures room { OnOk result (AllByRecursion (λ row. row.0 < links.new.room) rows.now) }
{
    links.reserve(greatest_of(rows))
}

/// The greatest site of the rows, or 0.
fn greatest_of(rows: &[(SiteNo, KeptLink)]) -> usize
    ensures small { result < 2 ^ 32 }
    ensures greatest { AllByRecursion (λ row. row.0 ≤ result) rows.now }
{
    let mut greatest = 0;
    for row in rows {
        greatest = place_of(row.0).max(greatest);
    }
    greatest
}

/// Puts the links of the rows in place of those that the sites have. Takes no memory.
fn put_all(links: &mut Numbered<KeptLink>, rows: Vec<(SiteNo, KeptLink)>)
    requires { AllByRecursion (λ row. row.0 < links.old.room) rows.items }
    ensures { (s : ℕ) → link_at links.new.entries s ≡ link_with rows.items (link_at links.old.entries s) s }
{
    for row in rows {
        links.put_reserved(place_of(row.0), row.1);
    }
}

/// Puts the links of the rows in place of those that the sites have. On an error some of the rows are put.
fn put_kept_rows(
    links: &mut Numbered<KeptLink>,
    rows: &[(SiteNo, KeptLink)],
) -> Result<(), AllocError>
    requires { HaveSites links.old.entries }
    ensures sites { HaveSites links.new.entries }
    ensures links { OnOk result ((s : ℕ) → link_at links.new.entries s ≡ link_with rows.now (link_at links.old.entries s) s) }
{
    for row in rows {
        put_kept(links, row.0, &row.1)?;
    }
    Ok(())
}

/// Puts the link in place of the one that the site has.
fn put_kept(links: &mut Numbered<KeptLink>, site: SiteNo, kept: &KeptLink) -> Result<(), AllocError>
    requires { HaveSites links.old.entries }
    ensures sites { HaveSites links.new.entries }
    ensures link { OnOk result ((s : ℕ) → link_at links.new.entries s ≡ (if site == s then Some kept.now else link_at links.old.entries s)) }
{
    let copy = kept.clone()?;
    links.insert(place_of(site), copy)
}
