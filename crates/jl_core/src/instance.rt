//! One instance of all that a core keeps.

ghost use Rattle.std.specs.Prelude.{◌≡◌, ◌≤◌, ◌^◌, ℕ, true, length, IsOk, IfOk, OnOk};
ghost use Rattle.std.specs.List.{list_all};
ghost use Rattle.jl_types.specs.Events.Limits.{AreAllowed, IsWithin};
ghost use Rattle.jl_types.specs.Events.Verdict.{verdict};
ghost use Rattle.jl_types.specs.Events.History.{installed};
ghost use Rattle.jl_types.specs.Events.Footprints.{bound};
ghost use Rattle.jl_relink.specs.Laws.{IsInOrder, has_read_file};
ghost use Rattle.jl_cache.specs.Links.{link_at};
ghost use Rattle.jl_events.specs.Judging.{IsJudged, most_to_judge};
ghost use Rattle.jl_core.specs.State.{empty_core, events, world_of, AreAnswered, IsAccepted};
ghost use Rattle.jl_core.specs.Logs.{shown, are_told, AreToldThen};
ghost use Rattle.jl_core.specs.ForProofs.Replays.{IsBehind};

use crate::catch_up::catch_up;
use crate::log::Entry;
use crate::perform::perform;
use jl_cache::Cache;
use jl_deps::Index;
use jl_events::judged;
use jl_journal::Journal;
use jl_relink::World;
use jl_types::{Event, Limits, Refusal, Reply, Work};
use std::alloc::{AllocError, Global};
use std::marker::Model;
use std::sync::Arc;

/// The accepted events, with what they leave to link, the links that they leave installed, and the index of what those rest on. A
/// clause sees the events with their replies, and the limits. Snapshots, and another instance, may share the world.
pub(crate) struct Instance {
    limits: Limits,
    world: Arc<World>,
    links: Cache,
    index: Index,
    log: Journal<Entry>,
}

// Written out, since a derived drop is proved anew in each crate that lets one go.
impl Drop for Instance {
    fn drop(self) {
        let Instance {
            limits: _limits,
            world: _world,
            links: _links,
            index: _index,
            log: _log,
        } = self;
    }
}

impl Model for Instance {
    ghost use Rattle.std.specs.Prelude.{◌≡◌, ◌<◌, ◌≤◌, ◌^◌, ℕ, true, length};
    ghost use Rattle.std.specs.List.{list_all};
    ghost use Rattle.std.specs.Coded.{codes};
    ghost use Rattle.jl_types.specs.ForProofs.TargetCode.{target_code};
    ghost use Rattle.jl_types.specs.Events.Limits.{AreAllowed, IsWithin};
    ghost use Rattle.jl_types.specs.Events.History.{installed};
    ghost use Rattle.jl_relink.specs.Laws.{has_read_file};
    ghost use Rattle.jl_cache.specs.Links.{link_at};
    ghost use Rattle.jl_deps.specs.Indexes.{IsIndex};
    ghost use Rattle.jl_core.specs.State.{State, events, world_of, AreAnswered};
    ghost use Rattle.jl_core.specs.Logs.{shown, are_told, AreToldThen};

    ghost Value = { State };

    ghost coded = { Prim.hlevel (codes, target_code) };

    ghost view = { λ c. record { limits = c.limits; log = shown c.world.value.classes.rows c.log } };

    ghost invariant = { λ c.
        (c.world.value ≡ world_of (record { limits = c.limits; log = shown c.world.value.classes.rows c.log }))
        × ((s : ℕ) → link_at c.links s ≡ installed (events (record { limits = c.limits; log = shown c.world.value.classes.rows c.log })) s)
        × (are_told c.world.value.classes.rows c.log ≡ true)
        × IsWithin c.limits c.world.value
        × (c.limits.sites < 2 ^ 32)
        × AreAnswered (record { limits = c.limits; log = shown c.world.value.classes.rows c.log })
        × IsIndex c.world.value (link_at c.links) c.index
        × AreToldThen (record { limits = c.limits; log = shown c.world.value.classes.rows c.log }) c.log
        × (list_all has_read_file (events (record { limits = c.limits; log = shown c.world.value.classes.rows c.log })) ≡ true)
        × AreAllowed c.limits };
}

impl Instance {
    /// One of no events.
    pub(crate) fn new(alloc: Global, limits: Limits) -> Result<Self, AllocError>
        requires { AreAllowed limits }
        ensures { IfOk result (λ instance. instance ≡ empty_core limits) }
    {
        Ok(Instance {
            limits,
            world: Arc::new(alloc, World::new(alloc)?)?,
            links: Cache::new(alloc),
            index: Index::new(alloc),
            log: Journal::new(alloc),
        })
    }

    /// A copy of the instance. Both share the world until one of them is to change it.
    pub(crate) fn copy(&self, alloc: Global) -> Result<Self, AllocError>
        ensures { IfOk result (λ copy. copy ≡ self.now) }
    {
        Ok(Instance {
            limits: self.limits,
            world: Arc::try_clone(&self.world)?,
            links: self.links.copy()?,
            index: self.index.copy(alloc)?,
            log: self.log.copy(alloc)?,
        })
    }

    /// The event itself, if it is accepted. The work that it takes to tell is counted.
    ///
    /// # Errors
    ///
    /// The first refusal.
    pub(crate) fn judged(
        &self,
        alloc: Global,
        event: Event,
        work: &mut Work,
    ) -> Result<Event, Refusal>
        requires nothing_yet { work.old ≡ 0 }
        ensures judged { IsJudged (verdict self.now.limits (world_of self.now) event) event result }
        ensures ticks { work.new ≤ most_to_judge (world_of self.now) event }
        ensures small { work.new ≤ 2 ^ 28 }
    {
        judged(alloc, &self.world, self.limits, event, work)
    }

    /// The instance after the accepted event, with the reply. The work is counted. On an error the instance is gone.
    pub(crate) fn perform(
        self,
        alloc: Global,
        event: Event,
        work: &mut Work,
    ) -> Result<(Instance, Reply), AllocError>
        requires accepted { IsOk (verdict self.limits (world_of self) event) }
        requires judged { work.old ≤ most_to_judge (world_of self) event }
        requires small { work.old ≤ 2 ^ 28 }
        ensures accepted { IfOk result (λ next. IsAccepted self next.0 event next.1) }
        ensures bounded { OnOk result (work.new ≤ bound (events self) event) }
    {
        let Instance {
            limits,
            mut world,
            mut links,
            mut index,
            mut log,
        } = self;
        note_order(&world);
        note_file(&event);
        // Shows that the sites of the index rise.
        let _sites = index.len();
        let reply = perform(
            &mut world, &mut links, &mut index, &mut log, alloc, event, work,
        )?;
        let next = Instance {
            limits,
            world,
            links,
            index,
            log,
        };
        Ok((next, reply))
    }

    /// Takes over the last event of the other one, which is one event ahead or none. On an error the instance is gone.
    pub(crate) fn catch_up(self, alloc: Global, ahead: &Instance) -> Result<Instance, AllocError>
        requires { IsBehind self ahead.now }
        ensures { IfOk result (λ next. next ≡ ahead.now) }
    {
        let Instance {
            limits,
            mut world,
            mut links,
            mut index,
            mut log,
        } = self;
        note_order(&world);
        // Shows that the sites of the index rise.
        let _sites = index.len();
        let place = log.len();
        let Some(entry) = ahead.log.next_after(place) else {
            return Ok(Instance {
                limits,
                world,
                links,
                index,
                log,
            });
        };
        catch_up(
            &mut world,
            &mut links,
            &mut index,
            &mut log,
            alloc,
            &ahead.world,
            &ahead.links,
            &ahead.index,
            entry,
        )?;
        Ok(Instance {
            limits,
            world,
            links,
            index,
            log,
        })
    }

    /// How many of each kind it may give numbers to.
    pub(crate) fn limits(&self) -> Limits
        ensures limits { result ≡ self.now.limits }
        ensures allowed { AreAllowed self.now.limits }
    {
        self.limits
    }

    /// What there is to link.
    pub(crate) fn world(&self) -> &World
        ensures world { result.now ≡ world_of self.now }
        ensures within { IsWithin self.now.limits (world_of self.now) }
    {
        &self.world
    }

    /// What there is to link, for one more who holds it. More holders than can be counted are an error.
    pub(crate) fn shared_world(&self) -> Result<Arc<World>, AllocError>
        ensures world { IfOk result (λ world. world.value ≡ world_of self.now) }
        ensures within { IsWithin self.now.limits (world_of self.now) }
    {
        Arc::try_clone(&self.world)
    }

    /// The installed links.
    pub(crate) fn links(&self) -> &Cache
        ensures { (s : ℕ) → link_at result.now s ≡ installed (events self.now) s }
    {
        &self.links
    }

    /// Forgets the entries of all events but the last one, definitions and delegations apart. A clause sees no change. Takes no memory.
    pub(crate) fn forget(&mut self)
        ensures { self.new ≡ self.old }
    {
        self.log.forget();
    }

    /// The accepted events, each with its reply.
    pub(crate) fn log(&self) -> &Journal<Entry>
        ensures told { are_told (world_of self.now).classes.rows result.now ≡ true }
        ensures events { shown (world_of self.now).classes.rows result.now ≡ self.now.log }
        ensures answered { AreAnswered self.now }
        ensures told_then { AreToldThen self.now result.now }
        ensures files { list_all has_read_file (events self.now) ≡ true }
    {
        &self.log
    }
}

/// The class file of a definition was read.
fn note_file(event: &Event)
    ensures { has_read_file event.now ≡ true }
{
    if let Event::Define(_, file) = event {
        // Both show what the invariants of a class file say.
        let _superclass = file.superclass();
        let _methods = file.methods();
    }
}

/// The classes of a world came in order, and each guard has its switch point.
fn note_order(world: &World)
    ensures { IsInOrder world.now }
{
    // Both show what the invariants of the classes and of the call sites say.
    let _classes = world.classes.count_in_order();
    let _switches = world.sites.known_switches();
}
