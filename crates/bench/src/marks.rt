//! All that is seen of a state, as text.

use jl_core::Core;
use jl_relink::{World, link_of};
use jl_types::{CallSiteId, ClassId, LoaderId, SiteNo, SwitchId};
use std::alloc::{AllocError, Global};
use std::fmt::Debug;

/// How many sites may be requested.
pub(crate) const SITES: u32 = 2;

/// So much room is made for a text before, so that it is written without a growth.
const ROOM: usize = 65_536;

/// The names that loader 0 may have recorded.
const NAMES: [&str; 6] = ["java/lang/Object", "A", "B", "M", "C", "T"];

/// A text of no characters, with room.
pub(crate) fn blank(alloc: Global) -> Result<String, AllocError> {
    String::with_capacity(alloc, ROOM)
}

/// Adds a part of it.
pub(crate) fn add<D: Debug>(text: &mut String, part: &D) -> Result<(), AllocError> {
    write!(text, "{part:?}\n")
}

/// Adds the class, and which of so many classes are its ancestors.
fn add_class(
    text: &mut String,
    world: &World,
    class: ClassId,
    classes: u32,
) -> Result<(), AllocError> {
    add(text, &world.classes.class_at(class))?;
    add(text, &world.classes.is_concrete(class))?;
    for number in 0..classes {
        let other = ClassId::new(number);
        add(text, &world.classes.is_ancestor(other, class))?;
    }
    Ok(())
}

/// Adds the place of the site, its binding and its link from scratch, and the call site and the switch point of this number.
fn add_site(text: &mut String, world: &World, number: u32) -> Result<(), AllocError> {
    let site = SiteNo::new(number);
    let point = SwitchId::new(number);
    add(text, &world.places.get_index(number as usize))?;
    add(text, &world.bound_to(site))?;
    add(text, &link_of(world, site))?;
    add(text, &world.sites.call_site_at(CallSiteId::new(number)))?;
    add(text, &world.sites.has_switch(point))?;
    add(text, &world.sites.is_valid(point))
}

/// Adds the world.
pub(crate) fn add_world(text: &mut String, world: &World) -> Result<(), AllocError> {
    add(text, &world.classes.class_count())?;
    add(text, &world.site_count())?;
    add(text, &world.sites.call_site_count())?;
    add(text, &world.sites.switch_count())?;
    let classes = world.classes.count_in_order() as u32;
    for number in 0..classes {
        add_class(text, world, ClassId::new(number), classes)?;
    }
    for name in NAMES.as_slice() {
        let found = world.classes.lookup(LoaderId::new(0), name.as_bytes());
        add(text, &found)?;
    }
    for number in 0..SITES {
        add_site(text, world, number)?;
    }
    Ok(())
}

/// Adds all that is seen of a core: its world, links, log and last work.
pub(crate) fn add_core(text: &mut String, core: &Core) -> Result<(), AllocError> {
    add_world(text, core.world())?;
    for number in 0..SITES {
        add(text, &core.links().get(SiteNo::new(number)))?;
    }
    add(text, &core.log().kept())?;
    add(text, &core.links().len())?;
    add(text, &core.last_work())
}
