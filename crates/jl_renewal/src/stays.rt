//! What stays.

ghost use Rattle.std.specs.Prelude.{◌≡◌, ◌≤◌, ◌<◌, ◌^◌, ◌&&◌, false, not, map, length, get_or, slice_set, nat_lt};
ghost use Rattle.std.specs.Prelude.{if◌then◌else◌, None, option_copied, IfOk, IfErr, OnOk};
ghost use Rattle.std.specs.Bool.{then_some};
ghost use Rattle.std.specs.List.{list_any, range_with_len};
ghost use Rattle.jl_types.specs.Values.Members as members;
ghost use Rattle.jl_types.specs.Values.World.{is_missing};
ghost use Rattle.jl_types.specs.Events.Retirement.{has_target};
ghost use Rattle.jl_renewal.specs.Numbers.{numbered, staying, how_many};
ghost use Rattle.jl_renewal.specs.Renewal.{renewal_fault, IsRefusedRenewal};
ghost use Rattle.jl_renewal.specs.Room.{class_fault, call_site_fault, IsFault};
ghost use Rattle.jl_renewal.specs.Staying as what_stays;
ghost use Rattle.jl_renewal.specs.Staying.{numbers_of, staying_loaders, staying_classes, staying_sites, staying_call_sites, staying_switches};
ghost use Rattle.jl_renewal.specs.Staying.{staying_from, guards_by};
ghost use Rattle.jl_renewal.specs.Marks.{marked, binds_staying, is_wanted, is_wanted_point, flagged_target};

use crate::marks::{clear_call_sites, clear_switches, mark_guards, mark_invoked, set_flag};
use crate::numbers::{Renumbering, how_many, numbered};
use crate::released::Released;
use jl_callsites::Sites;
use jl_hierarchy::Classes;
use jl_places::Places;
use jl_relink::World;
use jl_types::{
    CallSiteFault, CallSiteId, ClassId, DefineFault, Limits, LoaderId, Refusal, SiteNo, SwitchId,
    Target,
};
use std::alloc::{AllocError, Global};

/// The numbers that what stays of the world has in a fresh core of these limits.
///
/// # Errors
///
/// Want of memory, or if more stay than the limits allow, the first of these:
///
/// - `SitesFull` of sites
/// - `LoadersFull` of loaders
/// - `Define(Full)` of classes
/// - `CallSite(Full)` of call sites or of switch points
pub(crate) fn renumbering(
    alloc: Global,
    old: &World,
    released: &Released,
    limits: Limits,
) -> Result<Renumbering, Refusal>
    ensures numbers { IfOk result (λ numbers. numbers ≡ numbers_of old.now released.now) }
    ensures fits { OnOk result (renewal_fault limits old.now released.now ≡ None) }
    ensures refused { IfErr result (IsRefusedRenewal limits old.now released.now) }
{
    let stays = sites_that_stay(alloc, &old.classes, &old.places)?;
    let sites = numbered_within(alloc, stays.as_slice(), limits.sites, Refusal::SitesFull)?;
    let (loaders, classes) = class_numbers(alloc, &old.classes, limits)?;
    let (call_sites, switches) = call_site_numbers(alloc, old, released, limits)?;
    Ok(Renumbering {
        loaders,
        classes,
        sites,
        call_sites,
        switches,
    })
}

/// The numbers of loaders and of classes.
///
/// # Errors
///
/// `LoadersFull` or `Define(Full)` if more stay than the limits allow, the first of them; want of memory.
fn class_numbers(
    alloc: Global,
    old: &Classes,
    limits: Limits,
) -> Result<(Vec<Option<u32>>, Vec<Option<u32>>), Refusal>
    ensures loaders { IfOk result (λ made. made.0.items ≡ numbered (staying_loaders old.now)) }
    ensures classes { IfOk result (λ made. made.1.items ≡ numbered (staying_classes old.now)) }
    ensures fits { OnOk result (class_fault limits old.now ≡ None) }
    ensures refused { IfErr result (IsFault (class_fault limits old.now)) }
{
    let live = loaders_below(alloc, old, old.loader_count())?;
    let loaders = numbered_within(alloc, live.as_slice(), limits.loaders, Refusal::LoadersFull)?;
    let present = classes_that_stay(alloc, old)?;
    let full = Refusal::Define(DefineFault::Full);
    let classes = numbered_within(alloc, present.as_slice(), limits.classes, full)?;
    Ok((loaders, classes))
}

/// The numbers of call sites and of switch points.
///
/// # Errors
///
/// `CallSite(Full)` if more stay than the limits allow; want of memory.
fn call_site_numbers(
    alloc: Global,
    old: &World,
    released: &Released,
    limits: Limits,
) -> Result<(Vec<Option<u32>>, Vec<Option<u32>>), Refusal>
    ensures call_sites { IfOk result (λ made. made.0.items ≡ numbered (staying_call_sites old.now released.now)) }
    ensures switches { IfOk result (λ made. made.1.items ≡ numbered (staying_switches old.now released.now)) }
    ensures fits { OnOk result (call_site_fault limits old.now released.now ≡ None) }
    ensures refused { IfErr result (IsFault (call_site_fault limits old.now released.now)) }
{
    let held = call_sites_that_stay(alloc, old, released)?;
    let full = Refusal::CallSite(CallSiteFault::Full);
    let call_sites = numbered_within(alloc, held.as_slice(), limits.call_sites, full)?;
    let kept = switches_that_stay(alloc, &old.sites, held.as_slice(), released)?;
    let full = Refusal::CallSite(CallSiteFault::Full);
    let switches = numbered_within(alloc, kept.as_slice(), limits.switches, full)?;
    Ok((call_sites, switches))
}

/// The numbers of those that stay, if they are no more than so many.
///
/// # Errors
///
/// This refusal if they are more; want of memory.
fn numbered_within(
    alloc: Global,
    stays: &[bool],
    most: u32,
    full: Refusal,
) -> Result<Vec<Option<u32>>, Refusal>
    ensures numbers { IfOk result (λ numbers. numbers.items ≡ numbered stays.now) }
    ensures fits { OnOk result (then_some (nat_lt most (how_many stays.now)) full ≡ None) }
    ensures refused { IfErr result (IsFault (then_some (nat_lt most (how_many stays.now)) full)) }
{
    if how_many(stays) > most as usize {
        return Err(full);
    }
    Ok(numbered(alloc, stays)?)
}

/// Whether each of the first so many loaders stays: those that aren't retired.
pub(crate) fn loaders_below(
    alloc: Global,
    classes: &Classes,
    count: usize,
) -> Result<Vec<bool>, AllocError>
    requires { count ≤ 2 ^ 20 }
    ensures { IfOk result (λ stays. stays.items ≡ map (λ l. not (members.is_retired classes.now l)) (range_with_len 0 count)) }
{
    let mut stays = Vec::with_capacity(alloc, count)?;
    for loader in 0..count {
        stays.push(!classes.is_retired(LoaderId::new(loader as u32)))?;
    }
    Ok(stays)
}

/// Whether each class stays: those that are present.
pub(crate) fn classes_that_stay(alloc: Global, classes: &Classes) -> Result<Vec<bool>, AllocError>
    ensures { IfOk result (λ stays. stays.items ≡ staying_classes classes.now) }
{
    let count = classes.count_in_order();
    let mut stays = Vec::with_capacity(alloc, count)?;
    for class in 0..count {
        stays.push(classes.is_present(ClassId::new(class as u32)))?;
    }
    Ok(stays)
}

/// Whether each site stays: those in classes that are present.
pub(crate) fn sites_that_stay(
    alloc: Global,
    classes: &Classes,
    places: &Places,
) -> Result<Vec<bool>, AllocError>
    ensures { IfOk result (λ stays. stays.items ≡ staying_sites classes.now places.now) }
{
    // Bounds the loop.
    let count = places.len();
    let mut stays = Vec::with_capacity(alloc, count)?;
    let mut number = 0;
    while let Some(place) = places.get_index(number) {
        stays.push(classes.is_present(place.class))?;
        number += 1;
    }
    Ok(stays)
}

/// Whether each call site stays. Those stay that are wanted, and those that are invoked by the target of a later one that stays. A
/// released one doesn't.
pub(crate) fn call_sites_that_stay(
    alloc: Global,
    old: &World,
    released: &Released,
) -> Result<Vec<bool>, AllocError>
    ensures { IfOk result (λ stays. stays.items ≡ staying_call_sites old.now released.now) }
{
    let mut stays = wanted_call_sites(alloc, old, released)?;
    keep_invoked(stays.as_mut_slice(), &old.sites);
    Ok(stays)
}

/// Whether each call site is wanted: the owner hasn't let it go, or a site that stays is bound to it. It may be released.
fn wanted_call_sites(
    alloc: Global,
    old: &World,
    released: &Released,
) -> Result<Vec<bool>, AllocError>
    ensures { IfOk result (λ wanted. wanted.items
        ≡ map (is_wanted old.now released.now) (range_with_len 0 (length old.now.sites.call_sites))) }
{
    let mut wanted = vec![in alloc; true; old.sites.call_site_count()]?;
    let flags = wanted.as_mut_slice();
    clear_call_sites(flags, released.call_sites.as_slice());
    mark_bound(flags, old);
    Ok(wanted)
}

/// Sets the flags of the call sites to which sites that stay are bound.
fn mark_bound(held: &mut [bool], old: &World)
    ensures { held.new ≡ marked (λ c. list_any (binds_staying old.now c) old.now.bindings) held.old }
{
    // Bounds the loop.
    let _count = old.bindings.len();
    let mut place = 0;
    while let Some((site, call_site)) = old.bindings.get_index(place) {
        mark_if_stays(held, old, *site, *call_site);
        place += 1;
    }
}

/// Sets the flag of the call site, if the site stays.
fn mark_if_stays(held: &mut [bool], old: &World, site: SiteNo, call_site: CallSiteId)
    ensures { held.new ≡ marked (λ c. binds_staying old.now c (site, call_site)) held.old }
{
    if is_in_staying_class(old, site) {
        set_flag(held, call_site.number(), true);
    }
}

/// Whether the site was requested, and its class is present.
fn is_in_staying_class(old: &World, site: SiteNo) -> bool
    ensures { result ≡ what_stays.is_in_staying_class old.now site }
{
    match old.places.get_index(site.number() as usize) {
        Some(place) => old.classes.is_present(place.class),
        None => false,
    }
}

/// Goes from the last call site to the first: takes back the flag of one that is released, and sets the flags of those that the target of
/// one whose flag is set invokes.
fn keep_invoked(stays: &mut [bool], sites: &Sites)
    requires { length stays.old ≡ length sites.now.call_sites }
    ensures { stays.new ≡ staying_from (λ c. get_or stays.old c false) 0 sites.now.call_sites }
{
    // Shows that each target invokes call sites with smaller numbers.
    let _points = sites.known_switches();
    for number in (0..sites.few_call_sites()).rev() {
        clear_if_released(stays, sites, number);
        if let Some(target) = staying_target(stays, sites, number) {
            mark_invoked(stays, target);
        }
    }
}

/// Takes back the flag of the call site of this number, if that is released.
fn clear_if_released(stays: &mut [bool], sites: &Sites, number: usize)
    requires { number < 2 ^ 20 }
    ensures { stays.new ≡ (if is_missing sites.now.call_sites number then slice_set stays.old number false else stays.old) }
{
    if sites.has_call_site(CallSiteId::new(number as u32)) {
        return;
    }
    set_flag(stays, number as u32, false);
}

/// The target of the call site of this number, if its flag is set.
fn staying_target<'a>(stays: &[bool], sites: &'a Sites, number: usize) -> Option<&'a Target>
    requires { number < 2 ^ 20 }
    ensures { option_copied result ≡ flagged_target stays.now sites.now.call_sites number }
{
    let site = sites.call_site_at(CallSiteId::new(number as u32))?;
    if *stays.get(number)? {
        Some(site.target())
    } else {
        None
    }
}

/// Whether each switch point stays: those that are wanted and aren't released.
pub(crate) fn switches_that_stay(
    alloc: Global,
    sites: &Sites,
    stays: &[bool],
    released: &Released,
) -> Result<Vec<bool>, AllocError>
    ensures { IfOk result (λ kept. kept.items
        ≡ map (λ p. not (is_missing sites.now.switches p) && is_wanted_point sites.now stays.now released.now p)
        (range_with_len 0 (length sites.now.switches))) }
{
    let wanted = wanted_switches(alloc, sites, stays, released)?;
    let kept = those_there(alloc, sites, wanted.as_slice())?;
    Ok(kept)
}

/// Of these switch points those that aren't released.
fn those_there(alloc: Global, sites: &Sites, wanted: &[bool]) -> Result<Vec<bool>, AllocError>
    ensures { IfOk result (λ kept. kept.items
        ≡ map (λ p. not (is_missing sites.now.switches p) && get_or wanted.now p false) (range_with_len 0 (length sites.now.switches))) }
{
    let count = sites.few_switches();
    let mut kept = Vec::with_capacity(alloc, count)?;
    for point in 0..count {
        kept.push(is_there(sites, wanted, point))?;
    }
    Ok(kept)
}

/// Whether the flag of the switch point is set, and it isn't released.
fn is_there(sites: &Sites, wanted: &[bool], point: usize) -> bool
    requires { point < 2 ^ 20 }
    ensures { result ≡ (not (is_missing sites.now.switches point) && get_or wanted.now point false) }
{
    if !sites.has_switch(SwitchId::new(point as u32)) {
        return false;
    }
    match wanted.get(point) {
        Some(flag) => *flag,
        None => false,
    }
}

/// Whether each switch point is wanted: the owner hasn't let it go, or the target of a call site that stays guards by it. It may be
/// released.
fn wanted_switches(
    alloc: Global,
    sites: &Sites,
    stays: &[bool],
    released: &Released,
) -> Result<Vec<bool>, AllocError>
    ensures { IfOk result (λ wanted. wanted.items
        ≡ map (is_wanted_point sites.now stays.now released.now) (range_with_len 0 (length sites.now.switches))) }
{
    let mut wanted = vec![in alloc; true; sites.few_switches()]?;
    let flags = wanted.as_mut_slice();
    clear_switches(flags, released.switches.as_slice());
    keep_guards(flags, sites, stays);
    Ok(wanted)
}

/// Sets the flags of the switch points by which the targets of call sites that stay guard.
fn keep_guards(kept: &mut [bool], sites: &Sites, stays: &[bool])
    ensures { kept.new ≡ marked (λ p. list_any (has_target (guards_by p)) (staying stays.now sites.now.call_sites)) kept.old }
{
    for number in 0..sites.few_call_sites() {
        if let Some(target) = staying_target(stays, sites, number) {
            mark_guards(kept, target);
        }
    }
}
