//! The world after an accepted event that was made elsewhere. Nothing is judged again.

ghost use Rattle.std.specs.Prelude.{◌≡◌, ◌<◌, ◌^◌, length, OnOk};
ghost use Rattle.jl_events.specs.Changes.{IsNext};

use crate::accepted::Accepted;
use crate::changes::{
    add_binding, add_call_site, add_delegation, add_loader, add_place, add_switch, put_invalid,
    put_released, put_target, retire_all, retire_loader,
};
use jl_relink::World;
use std::alloc::{AllocError, Global};
use std::sync::Arc;

/// The world becomes equal to the one ahead. If others hold the world, too, it is let go, and the one ahead is shared from then on.
/// On an error the world is of no use.
pub fn catch_up_world(
    world: &mut Arc<World>,
    alloc: Global,
    ahead: &Arc<World>,
    event: &Accepted,
) -> Result<(), AllocError>
    requires next { IsNext world.old.value ahead.now.value event.now }
    requires few { length world.old.value.places < 2 ^ 32 }
    ensures { OnOk result (world.new.value ≡ ahead.now.value) }
{
    match Arc::get_mut(world) {
        Some(world) => catch_up_owned(world, alloc, ahead, event),
        None => {
            *world = Arc::try_clone(ahead)?;
            Ok(())
        }
    }
}

/// The world, which no other holds, becomes equal to the one ahead. On an error the world is of no use.
fn catch_up_owned(
    world: &mut World,
    alloc: Global,
    ahead: &World,
    event: &Accepted,
) -> Result<(), AllocError>
    requires next { IsNext world.old ahead.now event.now }
    requires few { length world.old.places < 2 ^ 32 }
    ensures { OnOk result (world.new ≡ ahead.now) }
{
    match event {
        Accepted::NewLoader => {
            add_loader(world, alloc)?;
            Ok(())
        }
        Accepted::Define(_, _) => world.classes.catch_up(alloc, &ahead.classes),
        Accepted::Delegate(loader, name, to) => add_delegation(world, alloc, *loader, name, *to),
        Accepted::Request(place) => {
            add_place(world, alloc, place)?;
            Ok(())
        }
        Accepted::NewCallSite(kind, ty, target) => {
            add_call_site(world, alloc, *kind, ty, target)?;
            Ok(())
        }
        Accepted::SetTarget(site, target) => put_target(world, alloc, *site, target),
        Accepted::NewSwitch => {
            add_switch(world)?;
            Ok(())
        }
        Accepted::Invalidate(points) => {
            put_invalid(world, points.as_slice());
            Ok(())
        }
        Accepted::Bind(site, call_site) => add_binding(world, *site, *call_site),
        Accepted::Install(_) => Ok(()),
        Accepted::Retire(loader) => retire_loader(world, alloc, *loader),
        Accepted::RetireAll(loaders) => retire_all(world, alloc, loaders.as_slice()),
        Accepted::Release(call_sites, points) => {
            put_released(world, call_sites.as_slice(), points.as_slice());
            Ok(())
        }
    }
}
