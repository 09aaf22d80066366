//! The sites of a group.

ghost use Rattle.std.specs.Prelude.{◌≡◌, ◌==◌, ◌&&◌, ◌||◌, ◌∷◌, [], not, ℕ, nat_eq, true, false, IfOk, OnOk, OnErr};
ghost use Rattle.indexmap.specs.IndexSet.{contains};
ghost use Rattle.jl_deps.specs.Ways.{has};
ghost use Rattle.jl_deps.specs.ForProofs.Grouped.{kept_sites};

use indexmap::IndexSet;
use jl_types::SiteNo;
use std::alloc::{AllocError, Global};
use std::marker::Model;
use std::mem::size_of;
use std::slice;

/// Sites, each once. One site takes no memory of its own, as most groups have one. A clause sees the sites.
pub(crate) struct Group {
    kept: Kept,
}

/// How the sites stand.
#[derive(Drop)]
enum Kept {
    Nothing,
    One(SiteNo),
    Many(Box<IndexSet<SiteNo>>),
}

const _: () = prove!(size_of::<Group>() == 16);

/// Written out, so that what drops one makes one call of it and doesn't take apart what it holds.
impl Drop for Group {
    fn drop(self) {
        let Group { kept: _kept } = self;
    }
}

impl Model for Group {
    ghost use Rattle.std.specs.Prelude.{List, ℕ};
    ghost use Rattle.jl_deps.specs.ForProofs.Grouped.{kept_sites};

    ghost Value = { List ℕ };

    ghost view = { λ g. kept_sites g.kept };
}

impl Group {
    /// This site alone. Takes no memory.
    pub(crate) fn one(site: SiteNo) -> Group
        ensures { result ≡ site ∷ [] }
    {
        Group {
            kept: Kept::One(site),
        }
    }

    /// The sites. Takes no memory.
    pub(crate) fn as_slice(&self) -> &[SiteNo]
        ensures { result.now ≡ self.now }
    {
        match &self.kept {
            Kept::Nothing => &[],
            Kept::One(site) => slice::from_ref(site),
            Kept::Many(sites) => sites.as_slice(),
        }
    }

    /// Adds the site, unless it is there. On an error nothing has changed.
    pub(crate) fn add(&mut self, alloc: Global, site: SiteNo) -> Result<(), AllocError>
        ensures ok { OnOk result ((s : ℕ) → has s self.new ≡ ((site == s) || has s self.old)) }
        ensures err { OnErr result ((s : ℕ) → has s self.new ≡ has s self.old) }
    {
        add_to_kept(&mut self.kept, alloc, site)
    }

    /// The site isn't there any more. Answers whether no other is. Takes no memory.
    pub(crate) fn remove(&mut self, site: SiteNo) -> bool
        ensures others { (s : ℕ) → has s self.new ≡ (not (site == s) && has s self.old) }
        ensures last { result ≡ true → (s : ℕ) → has s self.new ≡ false }
    {
        remove_from_kept(&mut self.kept, site)
    }
}

/// Adds the site, unless it is there. On an error nothing has changed.
fn add_to_kept(kept: &mut Kept, alloc: Global, site: SiteNo) -> Result<(), AllocError>
    ensures ok { OnOk result ((s : ℕ) → has s (kept_sites kept.new) ≡ ((site == s) || has s (kept_sites kept.old))) }
    ensures err { OnErr result ((s : ℕ) → has s (kept_sites kept.new) ≡ has s (kept_sites kept.old)) }
{
    match kept {
        Kept::Nothing => {
            *kept = Kept::One(site);
            Ok(())
        }
        Kept::One(first) => {
            let first = *first;
            if first == site {
                return Ok(());
            }
            let sites = both(alloc, first, site)?;
            *kept = Kept::Many(sites);
            Ok(())
        }
        Kept::Many(sites) => add_to(sites, site),
    }
}

/// Two sites.
fn both(alloc: Global, first: SiteNo, second: SiteNo) -> Result<Box<IndexSet<SiteNo>>, AllocError>
    ensures { IfOk result (λ sites. (s : ℕ) → contains nat_eq sites.value s ≡ ((second == s) || (first == s))) }
{
    let mut sites = IndexSet::new(alloc);
    add_to(&mut sites, first)?;
    add_to(&mut sites, second)?;
    Ok(Box::new(alloc, sites)?)
}

/// Adds the site, unless it is there. On an error nothing has changed.
fn add_to(sites: &mut IndexSet<SiteNo>, site: SiteNo) -> Result<(), AllocError>
    ensures ok { OnOk result ((s : ℕ) → contains nat_eq sites.new s ≡ ((site == s) || contains nat_eq sites.old s)) }
    ensures err { OnErr result ((s : ℕ) → contains nat_eq sites.new s ≡ contains nat_eq sites.old s) }
{
    sites.insert(site)?;
    Ok(())
}

/// The site isn't there any more. Answers whether no other is. Takes no memory.
fn remove_from_kept(kept: &mut Kept, site: SiteNo) -> bool
    ensures others { (s : ℕ) → has s (kept_sites kept.new) ≡ (not (site == s) && has s (kept_sites kept.old)) }
    ensures last { result ≡ true → (s : ℕ) → has s (kept_sites kept.new) ≡ false }
{
    match kept {
        Kept::Nothing => true,
        Kept::One(first) => {
            if *first != site {
                return false;
            }
            *kept = Kept::Nothing;
            true
        }
        Kept::Many(sites) => remove(sites, site),
    }
}

/// The site isn't there any more. Answers whether no other is. Takes no memory.
fn remove(sites: &mut IndexSet<SiteNo>, site: SiteNo) -> bool
    ensures others { (s : ℕ) → contains nat_eq sites.new s ≡ (not (site == s) && contains nat_eq sites.old s) }
    ensures last { result ≡ true → (s : ℕ) → contains nat_eq sites.new s ≡ false }
{
    sites.swap_remove(&site);
    sites.is_empty()
}
