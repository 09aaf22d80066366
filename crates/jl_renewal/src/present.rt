//! How many there are that a renewal takes over.

ghost use Rattle.std.specs.Prelude.{◌≡◌, IfOk};
ghost use Rattle.jl_renewal.specs.Numbers.{how_many};
ghost use Rattle.jl_renewal.specs.Staying.{staying_loaders, staying_classes, staying_sites, staying_call_sites, staying_switches};
ghost use Rattle.jl_renewal.specs.Present as present;

use crate::numbers::how_many;
use crate::released::Released;
use crate::stays::{
    call_sites_that_stay, classes_that_stay, loaders_below, sites_that_stay, switches_that_stay,
};
use jl_hierarchy::Classes;
use jl_names::Seq;
use jl_places::Places;
use jl_relink::World;
use std::alloc::{AllocError, Global};

/// How many loaders, classes, sites, call sites and switch points there are.
#[derive(Clone, Copy, Debug, PartialEq, Eq)]
pub struct Counts {
    pub loaders: u32,
    pub classes: u32,
    pub sites: u32,
    pub call_sites: u32,
    pub switches: u32,
}

/// How many of each a renewal takes over of the world, if its host hands in nothing as released. Want of memory is an error, and so are
/// 2^32 of a kind, which no core has.
pub fn counts_present(alloc: Global, world: &World) -> Result<Counts, AllocError>
    ensures { IfOk result (λ counts. counts ≡ present.counts_present world.now) }
{
    let loaders = loaders_present(alloc, &world.classes)?;
    let classes = classes_present(alloc, &world.classes)?;
    let sites = sites_present(alloc, &world.classes, &world.places)?;
    let (call_sites, switches) = call_sites_present(alloc, world)?;
    Ok(Counts {
        loaders,
        classes,
        sites,
        call_sites,
        switches,
    })
}

/// How many stay. 2^32 of them are an error.
fn count_of(stays: &[bool]) -> Result<u32, AllocError>
    ensures { IfOk result (λ count. count ≡ how_many stays.now) }
{
    let Ok(count) = u32::try_from(how_many(stays)) else {
        return Err(AllocError);
    };
    Ok(count)
}

/// How many loaders aren't retired.
fn loaders_present(alloc: Global, classes: &Classes) -> Result<u32, AllocError>
    ensures { IfOk result (λ count. count ≡ how_many (staying_loaders classes.now)) }
{
    let stays = loaders_below(alloc, classes, classes.loader_count())?;
    count_of(stays.as_slice())
}

/// How many classes are present.
fn classes_present(alloc: Global, classes: &Classes) -> Result<u32, AllocError>
    ensures { IfOk result (λ count. count ≡ how_many (staying_classes classes.now)) }
{
    let stays = classes_that_stay(alloc, classes)?;
    count_of(stays.as_slice())
}

/// How many sites are in classes that are present.
fn sites_present(alloc: Global, classes: &Classes, places: &Places) -> Result<u32, AllocError>
    ensures { IfOk result (λ count. count ≡ how_many (staying_sites classes.now places.now)) }
{
    let stays = sites_that_stay(alloc, classes, places)?;
    count_of(stays.as_slice())
}

/// How many call sites and how many switch points aren't released.
fn call_sites_present(alloc: Global, world: &World) -> Result<(u32, u32), AllocError>
    ensures call_sites { IfOk result (λ counts. counts.0 ≡ how_many (staying_call_sites world.now present.none_released)) }
    ensures switches { IfOk result (λ counts. counts.1 ≡ how_many (staying_switches world.now present.none_released)) }
{
    let released = Released {
        call_sites: Seq::of(Vec::new(alloc)),
        switches: Seq::of(Vec::new(alloc)),
    };
    let held = call_sites_that_stay(alloc, world, &released)?;
    let kept = switches_that_stay(alloc, &world.sites, held.as_slice(), &released)?;
    Ok((count_of(held.as_slice())?, count_of(kept.as_slice())?))
}
