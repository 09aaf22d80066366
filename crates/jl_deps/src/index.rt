//! The index.

ghost use Rattle.std.specs.Prelude.{◌≡◌, ◌==◌, ◌&&◌, ◌||◌, ◌∷◌, true, ℕ, [], length, Some, None, IfOk, OnOk, OnErr, if◌then◌else◌};
ghost use Rattle.std.specs.List.{list_any};
ghost use Rattle.std.specs.Option.{option_copied};
ghost use Rattle.indexmap.specs.IndexMap.{IsUnique};
ghost use Rattle.jl_hierarchy.specs.ForProofs.Kept.{Rises};
ghost use Rattle.jl_deps.specs.declared.form.Form as declared;
ghost use Rattle.jl_deps.specs.Forms as forms;
ghost use Rattle.jl_deps.specs.Indexes.{AreRising, rests_at, form_eq, touched_by, are_together, is_asked, AreAsked};
ghost use Rattle.jl_deps.specs.Ways.{has};
ghost use Rattle.jl_deps.specs.ForProofs.Lists.{AreBelow, AreKept, keys_in, form_in, listed_in, any_listed, rests, is_of_form, stands_for};

use crate::form::{Form, Rests};
use crate::lists::{Groups, Lists, relist, unlist_others};
use crate::rests::KeptRests;
use indexmap::IndexMap;
use jl_numbered::Numbered;
use jl_types::{Key, SiteNo};
use std::alloc::{AllocError, Global};
use std::marker::Model;

/// What each site's link rests on, and its form, at the place of its number.
type Sites = Numbered<KeptRests>;

/// What the links of sites rest on, by site and by key. A clause sees each site that was added, with its footprint and its form, by rising
/// number.
///
/// A site is listed under the keys of its footprint, and under no others: there in the group of its form, so that a definition looks at
/// none of a group that it doesn't change.
pub struct Index {
    sites: Sites,
    lists: Lists,
}

// Written out, since a derived drop is proved anew in each crate that lets one go.
impl Drop for Index {
    fn drop(self) {
        let Index {
            sites: _sites,
            lists: _lists,
        } = self;
    }
}

impl Model for Index {
    ghost use Rattle.std.specs.Prelude.{List, ℕ};
    ghost use Rattle.jl_deps.specs.declared.form.Rests.{Rests};
    ghost use Rattle.jl_deps.specs.ForProofs.Lists.{AreKept};

    ghost Value = { List (ℕ × Rests) };

    ghost view = { λ i. i.sites.entries };

    ghost invariant = { λ i. AreKept i.sites.entries i.lists };
}

impl Index {
    /// An index of no sites.
    pub fn new(alloc: Global) -> Self
        ensures { result ≡ [] }
    {
        Index {
            sites: Numbered::new(alloc),
            lists: IndexMap::new(alloc),
        }
    }

    /// A copy of the index. Footprints of more than one key are shared.
    pub fn copy(&self, alloc: Global) -> Result<Index, AllocError>
        ensures { IfOk result (λ copy. copy ≡ self.now) }
    {
        let mut copy = Index::new(alloc);
        add_all(alloc, &self.sites, &mut copy)?;
        // Shows that the sites rise, so that equal footprints are equal indexes.
        let _sites = self.len();
        let _count = copy.len();
        Ok(copy)
    }

    /// How many sites have a footprint. Takes no memory.
    pub fn len(&self) -> usize
        ensures count { result ≡ length self.now }
        ensures rising { AreRising self.now }
    {
        self.sites.len()
    }

    /// Whether there is none. Takes no memory.
    pub fn is_empty(&self) -> bool
        ensures { result ≡ (length self.now == 0) }
    {
        self.len() == 0
    }

    /// The site rests on this, with this form, in place of what it rested on.
    ///
    /// # Errors
    ///
    /// Want of memory. Nothing has changed then.
    pub fn add(&mut self, alloc: Global, site: SiteNo, rests: Rests) -> Result<(), AllocError>
        ensures ok { OnOk result ((s : ℕ) → rests_at self.new s ≡ (if site == s then Some rests else rests_at self.old s)) }
        ensures err { OnErr result (self.new ≡ self.old) }
    {
        put(&mut self.sites, &mut self.lists, alloc, site, rests)
    }

    /// The site has no footprint any more. A site without one stays without. Takes no memory.
    pub fn remove(&mut self, site: SiteNo)
        ensures { (s : ℕ) → rests_at self.new s ≡ (if site == s then None else rests_at self.old s) }
    {
        take(&mut self.sites, &mut self.lists, site);
    }

    /// What the site's link rests on, and its form. Takes no memory.
    pub fn rests(&self, site: SiteNo) -> Option<&KeptRests>
        ensures { option_copied result ≡ rests_at self.now site }
    {
        self.sites.get(site.number() as usize)
    }

    /// The sites whose footprints meet the keys, by rising number.
    pub fn touched_by(&self, alloc: Global, keys: &[Key]) -> Result<Vec<SiteNo>, AllocError>
        ensures sites { IfOk result (λ sites. sites.items ≡ touched_by self.now keys.now) }
        ensures rising { AreRising self.now }
    {
        let mut sites = self.listed_under(alloc, keys)?;
        put_in_order(&mut sites);
        Ok(sites)
    }

    /// Of the sites whose footprints meet the keys, by rising number: all that don't select by their receivers, and one of each group of
    /// those that select alike, which have one link.
    pub fn asked(&self, alloc: Global, keys: &[Key]) -> Result<Vec<SiteNo>, AllocError>
        ensures asked { IfOk result (λ sites. AreAsked self.now keys.now sites.items) }
        ensures rising { AreRising self.now }
    {
        let mut sites = self.asked_under(alloc, keys)?;
        put_in_order(&mut sites);
        Ok(sites)
    }

    /// These sites, and all others that select alike on a key of one of them, by rising number.
    pub fn together(&self, alloc: Global, sites: &[SiteNo]) -> Result<Vec<SiteNo>, AllocError>
        ensures { IfOk result (λ all. (s : ℕ) → has s all.items ≡ is_asked self.now sites.now s) }
    {
        let mut all = Vec::new(alloc);
        for site in sites {
            self.push_together(*site, &mut all)?;
        }
        put_in_order(&mut all);
        Ok(all)
    }

    /// The sites that are listed under one of the keys, in no order and some of them more than once.
    fn listed_under(&self, alloc: Global, keys: &[Key]) -> Result<Vec<SiteNo>, AllocError>
        ensures sites { IfOk result (λ sites. (s : ℕ) → has s sites.items ≡ has s (touched_by self.now keys.now)) }
        ensures rising { AreRising self.now }
    {
        // Shows that the sites of the index rise.
        let _count = self.len();
        let mut sites = Vec::new(alloc);
        for key in keys {
            self.push_listed(key, &mut sites)?;
        }
        Ok(sites)
    }

    /// Adds the sites that are listed under the key.
    fn push_listed(&self, key: &Key, sites: &mut Vec<SiteNo>) -> Result<(), AllocError>
        ensures { OnOk result ((s : ℕ) → has s sites.new.items
            ≡ (has s sites.old.items || has s (touched_by self.now (key.now ∷ [])))) }
    {
        // Shows that the sites of the index rise.
        let _count = self.len();
        let Some(groups) = self.lists.get(key) else {
            return Ok(());
        };
        push_groups(groups, sites)
    }

    /// What is asked under the keys, in no order and some of it more than once.
    fn asked_under(&self, alloc: Global, keys: &[Key]) -> Result<Vec<SiteNo>, AllocError>
        ensures touched { IfOk result (λ sites. (s : ℕ) → has s sites.items ≡ true → has s (touched_by self.now keys.now) ≡ true) }
        ensures all { IfOk result (λ sites. (s : ℕ) → has s (touched_by self.now keys.now) ≡ true → is_asked self.now sites.items s ≡ true) }
        ensures rising { AreRising self.now }
    {
        // Shows that the sites of the index rise.
        let _count = self.len();
        let mut sites = Vec::new(alloc);
        for key in keys {
            self.push_asked(key, &mut sites)?;
        }
        Ok(sites)
    }

    /// Adds what is asked under the key.
    fn push_asked(&self, key: &Key, sites: &mut Vec<SiteNo>) -> Result<(), AllocError>
        ensures touched { OnOk result ((s : ℕ) → has s sites.new.items ≡ true
            → (has s sites.old.items || has s (touched_by self.now (key.now ∷ []))) ≡ true) }
        ensures kept { OnOk result ((s : ℕ) → has s sites.old.items ≡ true → has s sites.new.items ≡ true) }
        ensures all { OnOk result ((s : ℕ) → has s (touched_by self.now (key.now ∷ [])) ≡ true → is_asked self.now sites.new.items s ≡ true) }
    {
        // Shows that the sites of the index rise.
        let _count = self.len();
        let Some(groups) = self.lists.get(key) else {
            return Ok(());
        };
        push_firsts(groups, sites)
    }

    /// Adds the site, and those that select alike on one of its keys.
    fn push_together(&self, site: SiteNo, all: &mut Vec<SiteNo>) -> Result<(), AllocError>
        ensures { OnOk result ((s : ℕ) → has s all.new.items
            ≡ (has s all.old.items || ((site == s) || are_together self.now s site))) }
    {
        all.push(site)?;
        let Some(rests) = self.rests(site) else {
            return Ok(());
        };
        let form = rests.form();
        if !form.selects() {
            return Ok(());
        }
        self.push_of_form(rests.keys(), &form, all)
    }

    /// Adds the sites of the form that rest on one of the keys.
    fn push_of_form(
        &self,
        keys: &[Key],
        form: &Form,
        all: &mut Vec<SiteNo>,
    ) -> Result<(), AllocError>
        ensures { OnOk result ((s : ℕ) → has s all.new.items ≡ (has s all.old.items || is_of_form self.now keys.now form.now s)) }
    {
        for key in keys {
            self.push_of_key(key, form, all)?;
        }
        Ok(())
    }

    /// Adds the sites of the form that rest on the key.
    fn push_of_key(&self, key: &Key, form: &Form, all: &mut Vec<SiteNo>) -> Result<(), AllocError>
        ensures { OnOk result ((s : ℕ) → has s all.new.items ≡ (has s all.old.items || rests self.now s key.now form.now)) }
    {
        let Some(groups) = self.lists.get(key) else {
            return Ok(());
        };
        push_group(groups, form, all)
    }
}

/// Each site rests on what it has there.
fn add_all(alloc: Global, sites: &Sites, copy: &mut Index) -> Result<(), AllocError>
    requires empty { copy.old ≡ [] }
    requires below { AreBelow sites.now.entries }
    ensures { OnOk result ((s : ℕ) → rests_at copy.new s ≡ rests_at sites.now.entries s) }
{
    // Shows that the numbers rise.
    let _len = sites.len();
    let mut from = 0;
    while let Some((number, rests)) = sites.next(from) {
        let again = rests.again()?;
        copy.add(alloc, SiteNo::new(number as u32), again)?;
        from = number + 1;
    }
    Ok(())
}

/// The site rests on this. On an error nothing has changed.
fn put(
    sites: &mut Sites,
    lists: &mut Lists,
    alloc: Global,
    site: SiteNo,
    rests: Rests,
) -> Result<(), AllocError>
    requires { AreKept sites.old.entries lists.old }
    ensures kept { AreKept sites.new.entries lists.new }
    ensures ok { OnOk result ((s : ℕ) → rests_at sites.new.entries s ≡ (if site == s then Some rests else rests_at sites.old.entries s)) }
    ensures err { OnErr result (sites.new.entries ≡ sites.old.entries) }
{
    let number = site.number() as usize;
    sites.reserve(number)?;
    let was = form_at(sites, number);
    relist(
        lists,
        alloc,
        keys_at(sites, number),
        &was,
        rests.footprint.as_slice(),
        &rests.form,
        site,
    )?;
    sites.put_reserved(number, KeptRests::new(rests));
    Ok(())
}

/// The keys of the site's footprint, and none if it has none.
fn keys_at(sites: &Sites, site: usize) -> &[Key]
    ensures { result.now ≡ keys_in (rests_at sites.now.entries site) }
{
    match sites.get(site) {
        Some(rests) => rests.keys(),
        None => &[],
    }
}

/// The form of the site's link, and any if it has none.
fn form_at(sites: &Sites, site: usize) -> Form
    ensures { result ≡ form_in (rests_at sites.now.entries site) }
{
    match sites.get(site) {
        Some(rests) => rests.form(),
        None => Form::Other,
    }
}

/// The site rests on nothing any more. Takes no memory.
fn take(sites: &mut Sites, lists: &mut Lists, site: SiteNo)
    requires { AreKept sites.old.entries lists.old }
    ensures kept { AreKept sites.new.entries lists.new }
    ensures gone { (s : ℕ) → rests_at sites.new.entries s ≡ (if site == s then None else rests_at sites.old.entries s) }
{
    if let Some(old) = sites.remove(site.number() as usize) {
        unlist_others(lists, old.keys(), &old.form(), &[], site);
    }
}

/// Adds the sites of all groups.
fn push_groups(groups: &Groups, sites: &mut Vec<SiteNo>) -> Result<(), AllocError>
    ensures added { OnOk result ((s : ℕ) → has s sites.new.items ≡ (has s sites.old.items || any_listed groups.now.entries s)) }
    ensures unique { IsUnique form_eq groups.now }
{
    // Bounds the loop, and shows that each form stands once.
    let _len = groups.len();
    let mut place = 0;
    while let Some((_, listed)) = groups.get_index(place) {
        sites.extend_from_slice(listed.as_slice())?;
        place += 1;
    }
    Ok(())
}

/// Adds the sites of the form.
fn push_group(groups: &Groups, form: &Form, all: &mut Vec<SiteNo>) -> Result<(), AllocError>
    ensures { OnOk result ((s : ℕ) → has s all.new.items ≡ (has s all.old.items || listed_in groups.now form.now s)) }
{
    let Some(sites) = groups.get(form) else {
        return Ok(());
    };
    all.extend_from_slice(sites.as_slice())
}

/// Adds what is asked of the groups.
fn push_firsts(groups: &Groups, sites: &mut Vec<SiteNo>) -> Result<(), AllocError>
    ensures touched { OnOk result ((s : ℕ) → has s sites.new.items ≡ true → (has s sites.old.items || any_listed groups.now.entries s) ≡ true) }
    ensures kept { OnOk result ((s : ℕ) → has s sites.old.items ≡ true → has s sites.new.items ≡ true) }
    ensures all { OnOk result ((f : declared.Form) (s : ℕ) → listed_in groups.now f s ≡ true → stands_for groups.now sites.new.items f s ≡ true) }
    ensures unique { IsUnique form_eq groups.now }
{
    // Bounds the loop, and shows that each form stands once.
    let _len = groups.len();
    let mut place = 0;
    while let Some((form, listed)) = groups.get_index(place) {
        push_first(form, listed.as_slice(), sites)?;
        place += 1;
    }
    Ok(())
}

/// Adds what is asked of a group: its first site, if it selects, and else each one.
fn push_first(form: &Form, listed: &[SiteNo], sites: &mut Vec<SiteNo>) -> Result<(), AllocError>
    ensures touched { OnOk result ((s : ℕ) → has s sites.new.items ≡ true → (has s sites.old.items || has s listed.now) ≡ true) }
    ensures kept { OnOk result ((s : ℕ) → has s sites.old.items ≡ true → has s sites.new.items ≡ true) }
    ensures all { OnOk result ((s : ℕ) → has s listed.now ≡ true
        → list_any (λ t. (t == s) || (forms.selects form.now && has t listed.now)) sites.new.items ≡ true) }
{
    let (true, [first, ..]) = (form.selects(), listed) else {
        return sites.extend_from_slice(listed);
    };
    sites.push(*first)?;
    Ok(())
}

/// The sites by rising number, each once. Takes no memory.
fn put_in_order(sites: &mut Vec<SiteNo>)
    ensures rising { Rises sites.new.items }
    ensures same { (s : ℕ) → has s sites.new.items ≡ has s sites.old.items }
{
    sites.sort_unstable();
    sites.dedup();
}
