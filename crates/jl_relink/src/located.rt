//! Where a requested invocation stands.

ghost use Rattle.std.specs.Prelude.{◌≡◌, IfOk, IfErr};
ghost use Rattle.jl_types.specs.Linkage.Stages as stages;
ghost use Rattle.jl_types.specs.Events.Footprints.{footprint, of_operand};
ghost use Rattle.jl_relink.specs.Placed.{asking};

use crate::world::World;
use jl_class::Site;
use jl_hierarchy::Classes;
use jl_types::{ClassId, MethodId, Place, SiteNo, Unlinked};

/// The invocation of a site, and the class in whose method it stands.
#[derive(Drop)]
pub(crate) struct Located<'a> {
    pub(crate) caller: ClassId,
    pub(crate) invocation: Site<'a>,
}

/// The invocation of the site, or why there is none.
pub(crate) fn locate(world: &World, site: SiteNo) -> Result<Located<'_>, Unlinked>
    ensures there { IfOk result (λ found. stages.stage world.now site
        ≡ stages.by_operand world.now site found.caller found.invocation.kind found.invocation.operand) }
    ensures rests_on { IfOk result (λ found. footprint world.now site
        ≡ of_operand world.now site found.caller found.invocation.kind found.invocation.operand) }
    ensures none { IfErr result (λ reason. stages.stage world.now site ≡ stages.Waits reason) }
{
    let Some(place) = world.places.get_index(site.number() as usize) else {
        return Err(Unlinked::NoSite);
    };
    if !world.classes.is_present(place.class) {
        return Err(Unlinked::Gone);
    }
    match invocation_at(&world.classes, place) {
        Some(invocation) => Ok(Located {
            caller: place.class,
            invocation,
        }),
        None => Err(Unlinked::NoSite),
    }
}

/// The invocation at the place, or why there is none.
pub(crate) fn locate_at<'a>(classes: &'a Classes, place: &Place) -> Result<Located<'a>, Unlinked>
    ensures there { IfOk result (λ found. stages.stage (asking classes.now place.now) 0
        ≡ stages.by_operand (asking classes.now place.now) 0 found.caller found.invocation.kind found.invocation.operand) }
    ensures rests_on { IfOk result (λ found. footprint (asking classes.now place.now) 0
        ≡ of_operand (asking classes.now place.now) 0 found.caller found.invocation.kind found.invocation.operand) }
    ensures none { IfErr result (λ reason. stages.stage (asking classes.now place.now) 0 ≡ stages.Waits reason) }
{
    if !classes.is_present(place.class) {
        return Err(Unlinked::Gone);
    }
    match invocation_at(classes, place) {
        Some(invocation) => Ok(Located {
            caller: place.class,
            invocation,
        }),
        None => Err(Unlinked::NoSite),
    }
}

/// The invocation at a place. Takes no memory.
pub fn invocation_at<'a>(classes: &'a Classes, place: &Place) -> Option<Site<'a>>
    ensures { result ≡ stages.invocation_at classes.now place.now }
{
    let method = classes.method_at(&MethodId {
        class: place.class,
        index: place.method,
    })?;
    method.sites().at_pc(place.pc)
}
