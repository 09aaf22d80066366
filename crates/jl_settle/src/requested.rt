//! The requested sites in the classes of loaders.

ghost use Rattle.std.specs.Prelude.{◌≡◌, ◌<◌, ◌^◌, ◌==◌, ◌||◌, ℕ, true, Ok, length, IfOk, OnOk};
ghost use Rattle.std.specs.List.{list_any};
ghost use Rattle.jl_types.specs.Linkage.Links.{scratch};
ghost use Rattle.jl_types.specs.Events.Verdict.{same_place};
ghost use Rattle.jl_types.specs.Events.Retirement.{retires_site};
ghost use Rattle.jl_types.specs.declared.link.Link.{Link};
ghost use Rattle.jl_settle.specs.ForProofs.Requested.{is_invoked, is_among, is_in_method, requested_where};

use jl_class::Method;
use jl_hierarchy::Classes;
use jl_places::Places;
use jl_relink::World;
use jl_types::{ClassId, LoaderId, Place, SiteNo};
use std::alloc::{AllocError, Global};

/// Sites in the classes that the loaders have defined. Each of these that has a link from scratch is among them, and none of a retired
/// loader is. It looks only at the invocations of these classes.
pub fn sites_of(
    alloc: Global,
    world: &World,
    loaders: &[LoaderId],
) -> Result<Vec<SiteNo>, AllocError>
    requires few { length world.now.places < 2 ^ 32 }
    ensures only { IfOk result (λ sites. (s : ℕ) → list_any (λ t. t == s) sites.items ≡ true → retires_site world.now loaders.now s ≡ true) }
    ensures linked { IfOk result (λ sites. (s : ℕ) (l : Link) → scratch world.now s ≡ Ok l → retires_site world.now loaders.now s ≡ true
        → list_any (λ t. t == s) sites.items ≡ true) }
{
    let own = world.classes.classes_of_all(alloc, loaders)?;
    let sites = sites_in(alloc, world, own.as_slice())?;
    Ok(sites)
}

/// The requested invocations of the classes.
fn sites_in(alloc: Global, world: &World, classes: &[ClassId]) -> Result<Vec<SiteNo>, AllocError>
    requires { length world.now.places < 2 ^ 32 }
    ensures { IfOk result (λ sites. (s : ℕ) → list_any (λ t. t == s) sites.items
        ≡ requested_where (is_among world.now.classes classes.now) world.now.places s) }
{
    let mut sites = Vec::new(alloc);
    for class in classes {
        push_of_class(&mut sites, &world.places, &world.classes, *class)?;
    }
    Ok(sites)
}

/// Adds the requested invocations of the class.
fn push_of_class(
    sites: &mut Vec<SiteNo>,
    places: &Places,
    classes: &Classes,
    class: ClassId,
) -> Result<(), AllocError>
    requires { length places.now < 2 ^ 32 }
    ensures { OnOk result ((s : ℕ) → list_any (λ t. t == s) sites.new.items
        ≡ (list_any (λ t. t == s) sites.old.items || requested_where (is_invoked classes.now class) places.now s)) }
{
    let Some(row) = classes.class_at(class) else {
        return Ok(());
    };
    let methods = row.file().methods();
    let mut number = 0;
    while let Some(method) = methods.at(number) {
        push_of_method(sites, places, class, number as u16, &method)?;
        number += 1;
    }
    Ok(())
}

/// Adds the requested invocations of the method.
fn push_of_method(
    sites: &mut Vec<SiteNo>,
    places: &Places,
    class: ClassId,
    number: u16,
    method: &Method<'_>,
) -> Result<(), AllocError>
    requires { length places.now < 2 ^ 32 }
    ensures { OnOk result ((s : ℕ) → list_any (λ t. t == s) sites.new.items
        ≡ (list_any (λ t. t == s) sites.old.items || requested_where (is_in_method class number method.now.sites) places.now s)) }
{
    let invocations = method.sites();
    // Bounds the loop.
    let _count = invocations.len();
    let mut at = 0;
    while let Some(invocation) = invocations.at(at) {
        let place = Place {
            class,
            method: number,
            pc: u32::from(invocation.pc()),
        };
        push_requested(sites, places, &place)?;
        at += 1;
    }
    Ok(())
}

/// Adds the site of the place, if it is requested.
fn push_requested(sites: &mut Vec<SiteNo>, places: &Places, place: &Place) -> Result<(), AllocError>
    requires { length places.now < 2 ^ 32 }
    ensures { OnOk result ((s : ℕ) → list_any (λ t. t == s) sites.new.items
        ≡ (list_any (λ t. t == s) sites.old.items || requested_where (same_place place.now) places.now s)) }
{
    // Shows that each place is requested once.
    let _len = places.len();
    match places.get_index_of(place) {
        Some(site) => {
            sites.push(SiteNo::new(site as u32))?;
            Ok(())
        }
        None => Ok(()),
    }
}
