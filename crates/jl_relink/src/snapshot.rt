//! A world as it was.

ghost use Rattle.std.specs.Prelude.{◌≡◌};
ghost use Rattle.jl_relink.specs.ForProofs.Holding.{held_world};

use crate::world::World;
use std::marker::Model;
use std::sync::Arc;

/// A world as it was after so many accepted events. Snapshots of one world may share it. A clause sees the world alone.
pub struct Snapshot {
    held: Held,
    serial: u64,
}

/// A world of its own, or one that others hold, too.
enum Held {
    Owned(World),
    Shared(Arc<World>),
}

// Written out, since a derived drop is proved anew in each crate that lets one go.
impl Drop for Held {
    fn drop(self) {
        match self {
            Held::Owned(_world) => {}
            Held::Shared(_world) => {}
        }
    }
}

// Written out, as that of what it holds.
impl Drop for Snapshot {
    fn drop(self) {
        let Snapshot {
            held: _held,
            serial: _serial,
        } = self;
    }
}

impl Model for Snapshot {
    ghost use Rattle.std.specs.Coded.{codes};
    ghost use Rattle.jl_types.specs.ForProofs.TargetCode.{target_code};
    ghost use Rattle.jl_relink.specs.Preparations.{Snapshot};

    ghost Value = { Snapshot };

    ghost coded = { Prim.hlevel (codes, target_code) };

    ghost use Rattle.jl_relink.specs.ForProofs.Holding.{held_world};

    ghost view = { λ s. record { world = held_world s.held; serial = s.serial } };
}

impl Snapshot {
    /// The world as it is after this many accepted events. Takes no memory.
    pub fn new(world: World, serial: u64) -> Self
        ensures { result ≡ record { world = world; serial = serial } }
    {
        let held = Held::Owned(world);
        Snapshot { held, serial }
    }

    /// A world after this many accepted events that other snapshots have, too. Takes no memory.
    pub fn sharing(world: Arc<World>, serial: u64) -> Self
        ensures { result ≡ record { world = world.value; serial = serial } }
    {
        let held = Held::Shared(world);
        Snapshot { held, serial }
    }

    /// The world. Takes no memory.
    pub fn world(&self) -> &World
        ensures { result.now ≡ self.now.world }
    {
        self.held.world()
    }

    /// After how many accepted events. Takes no memory.
    pub fn serial(&self) -> u64
        ensures { result ≡ self.now.serial }
    {
        self.serial
    }
}

impl Held {
    /// The world. Takes no memory.
    fn world(&self) -> &World
        ensures { result.now ≡ held_world self.now }
    {
        match self {
            Held::Owned(world) => world,
            Held::Shared(world) => world,
        }
    }
}
