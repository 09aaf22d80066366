//! The sites that are listed under a key.

ghost use Rattle.std.specs.Prelude.{◌≡◌, ◌==◌, ◌&&◌, ◌||◌, not, ℕ, true, false, OnOk, OnErr, if◌then◌else◌};
ghost use Rattle.jl_types.specs.declared.key.Key.{Key};
ghost use Rattle.jl_types.specs.Events.Footprints.{has_key};
ghost use Rattle.jl_deps.specs.declared.form.Form as forms;
ghost use Rattle.jl_deps.specs.Indexes.{form_eq};
ghost use Rattle.jl_deps.specs.ForProofs.Lists.{key_eq, listed, listed_in};

use crate::form::Form;
use crate::group::Group;
use indexmap::IndexMap;
use jl_types::{Key, SiteNo};
use std::alloc::{AllocError, Global};

/// Sites by the form of their links.
pub(crate) type Groups = IndexMap<Form, Group>;

/// The sites that are listed under each key.
pub(crate) type Lists = IndexMap<Key, Groups>;

/// Lists the site under these keys and by this form in the place of the old ones, by which it is listed.
///
/// # Errors
///
/// Want of memory. The site is listed as before then.
pub(crate) fn relist(
    lists: &mut Lists,
    alloc: Global,
    old: &[Key],
    was: &Form,
    new: &[Key],
    form: &Form,
    site: SiteNo,
) -> Result<(), AllocError>
    requires { (k : Key) (f : forms.Form) → listed lists.old k f site ≡ (form_eq was.now f && has_key old.now k) }
    ensures ok { OnOk result ((k : Key) (f : forms.Form) (s : ℕ) → listed lists.new k f s
        ≡ (if site == s then form_eq form.now f && has_key new.now k else listed lists.old k f s)) }
    ensures err { OnErr result ((k : Key) (f : forms.Form) (s : ℕ) → listed lists.new k f s ≡ listed lists.old k f s) }
{
    if let Err(refused) = list_all(lists, alloc, new, form, site) {
        unlist_others(lists, new, form, kept_of(old, was, form), site);
        return Err(refused);
    }
    unlist_others(lists, old, was, kept_of(new, form, was), site);
    Ok(())
}

/// The keys, if their form is this one, and else none.
fn kept_of<'a>(keys: &'a [Key], form: &Form, other: &Form) -> &'a [Key]
    ensures { (k : Key) → has_key result.now k ≡ (form_eq form.now other.now && has_key keys.now k) }
{
    if form == other { keys } else { &[] }
}

/// Lists the site under each of the keys, by the form. On an error some of the keys are done.
fn list_all(
    lists: &mut Lists,
    alloc: Global,
    keys: &[Key],
    form: &Form,
    site: SiteNo,
) -> Result<(), AllocError>
    ensures all { OnOk result ((k : Key) (f : forms.Form) (s : ℕ) → listed lists.new k f s
        ≡ ((((site == s) && form_eq form.now f) && has_key keys.now k) || listed lists.old k f s)) }
    ensures kept { (k : Key) (f : forms.Form) (s : ℕ) → listed lists.old k f s ≡ true → listed lists.new k f s ≡ true }
    ensures others { (k : Key) (f : forms.Form) (s : ℕ) → (((site == s) && form_eq form.now f) && has_key keys.now k) ≡ false
        → listed lists.new k f s ≡ listed lists.old k f s }
{
    for key in keys {
        list(lists, alloc, *key, form, site)?;
    }
    Ok(())
}

/// Lists the site under the key, by the form. On an error nothing has changed.
fn list(
    lists: &mut Lists,
    alloc: Global,
    key: Key,
    form: &Form,
    site: SiteNo,
) -> Result<(), AllocError>
    ensures ok { OnOk result ((k : Key) (f : forms.Form) (s : ℕ) → listed lists.new k f s
        ≡ ((key_eq key k && ((site == s) && form_eq form.now f)) || listed lists.old k f s)) }
    ensures err { OnErr result ((k : Key) (f : forms.Form) (s : ℕ) → listed lists.new k f s ≡ listed lists.old k f s) }
{
    match lists.get_mut(&key) {
        Some(groups) => list_in(groups, alloc, form, site),
        None => {
            let mut groups = IndexMap::new(alloc);
            list_in(&mut groups, alloc, form, site)?;
            lists.insert(key, groups)?;
            Ok(())
        }
    }
}

/// Lists the site by the form. On an error nothing has changed.
fn list_in(groups: &mut Groups, alloc: Global, form: &Form, site: SiteNo) -> Result<(), AllocError>
    ensures ok { OnOk result ((f : forms.Form) (s : ℕ) → listed_in groups.new f s
        ≡ (((site == s) && form_eq form.now f) || listed_in groups.old f s)) }
    ensures err { OnErr result ((f : forms.Form) (s : ℕ) → listed_in groups.new f s ≡ listed_in groups.old f s) }
{
    match groups.get_mut(form) {
        Some(sites) => sites.add(alloc, site),
        None => {
            groups.insert(*form, Group::one(site))?;
            Ok(())
        }
    }
}

/// The site is listed by the form under no key any more that is among the first ones and not among the second ones. Takes no memory.
pub(crate) fn unlist_others(
    lists: &mut Lists,
    gone: &[Key],
    form: &Form,
    kept: &[Key],
    site: SiteNo,
)
    ensures { (k : Key) (f : forms.Form) (s : ℕ) → listed lists.new k f s
        ≡ (not (((site == s) && form_eq form.now f) && (has_key gone.now k && not (has_key kept.now k))) && listed lists.old k f s) }
{
    for key in gone {
        if !is_among(kept, key) {
            unlist(lists, *key, form, site);
        }
    }
}

/// Whether the key is among these.
fn is_among(keys: &[Key], key: &Key) -> bool
    ensures { result ≡ has_key keys.now key.now }
{
    keys.contains(key)
}

/// The site isn't listed under the key by the form any more. A key under which no group is left goes. Takes no memory.
fn unlist(lists: &mut Lists, key: Key, form: &Form, site: SiteNo)
    ensures { (k : Key) (f : forms.Form) (s : ℕ) → listed lists.new k f s
        ≡ (not (key_eq key k && ((site == s) && form_eq form.now f)) && listed lists.old k f s) }
{
    let Some(groups) = lists.get_mut(&key) else {
        return;
    };
    if !unlist_in(groups, form, site) {
        return;
    }
    lists.swap_remove(&key);
}

/// The site isn't listed by the form any more. A group in which no site is left goes. Answers whether no group is left. Takes no memory.
fn unlist_in(groups: &mut Groups, form: &Form, site: SiteNo) -> bool
    ensures others { (f : forms.Form) (s : ℕ) → listed_in groups.new f s
        ≡ (not ((site == s) && form_eq form.now f) && listed_in groups.old f s) }
    ensures last { result ≡ true → (f : forms.Form) (s : ℕ) → listed_in groups.new f s ≡ false }
{
    let Some(sites) = groups.get_mut(form) else {
        return false;
    };
    if !sites.remove(site) {
        return false;
    }
    groups.swap_remove(form);
    groups.is_empty()
}
