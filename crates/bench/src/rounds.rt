//! What the owner of a core asks of it, round by round:
//!
//! - a new loader with ten classes and a link in one of them;
//! - the retirement of an older loader;
//! - fifty times a new switch point, a new call site, ten new targets and the end of an older switch point.

use crate::deeds::{call_site, guard, invalidation, method, request};
use crate::files::{A, B, C, M, OBJECT, T};
use crate::held::Held;
use jl_classfile::{ClassFault, read_class};
use jl_core::Core;
use jl_names::Name;
use jl_types::{ClassId, Event, LoaderId, Made, Refusal, SwitchId, Target};
use std::alloc::{AllocError, Global};

/// How many places may be requested.
pub(crate) const SITES: u32 = 4_096;

/// How many classes a round defines.
const CLASSES: usize = 10;

/// How many switch points, and how many call sites, a round makes.
const STEPS: usize = 50;

/// How many call sites get a new target after each new one.
const TARGETS: usize = 10;

/// How many loaders there may be.
const MOST_LOADERS: usize = 1_024;

/// How many classes, call sites and switch points there may be, of each.
const MOST_OF_A_KIND: usize = 65_536;

/// Where the letter of the class stands in the files of B and C, and where that of its superclass.
const LETTERS: (usize, usize) = (13, 20);

/// A chain of classes below A: the file of one with no method or of one that declares f again, its letter and its superclass's.
const CHAIN: [(&[u8], u8, u8); 7] = [
    (B, b'B', b'A'),
    (C, b'C', b'B'),
    (B, b'D', b'C'),
    (C, b'E', b'D'),
    (B, b'F', b'E'),
    (C, b'G', b'F'),
    (B, b'H', b'G'),
];

/// Sets the byte at the place.
fn set(bytes: &mut [u8], place: usize, letter: u8) {
    if let Some(byte) = bytes.get_mut(place) {
        *byte = letter;
    }
}

/// The file with these letters.
fn lettered(alloc: Global, file: &[u8], class: u8, superclass: u8) -> Result<Vec<u8>, AllocError> {
    let mut bytes = file.to_vec(alloc)?;
    set(bytes.as_mut_slice(), LETTERS.0, class);
    set(bytes.as_mut_slice(), LETTERS.1, superclass);
    Ok(bytes)
}

/// The files of the ten classes of a loader: a chain of eight, one of methods, and one with an invocation of A.f.
pub(crate) fn files(alloc: Global) -> Result<Vec<Vec<u8>>, AllocError> {
    let mut files = Vec::new(alloc);
    files.push(A.to_vec(alloc)?)?;
    for (file, class, superclass) in &CHAIN {
        files.push(lettered(alloc, file, *class, *superclass)?)?;
    }
    files.push(T.to_vec(alloc)?)?;
    files.push(M.to_vec(alloc)?)?;
    Ok(files)
}

/// A core, and what its owner holds.
pub(crate) struct Owned {
    pub(crate) core: Core,
    pub(crate) held: Held,
    /// How many events were accepted.
    pub(crate) events: u64,
    /// The place of the call site that got a target last.
    turn: usize,
}

/// Written out, so that what drops one makes one call of it and doesn't take apart what it holds.
impl Drop for Owned {
    fn drop(self) {
        let Owned {
            core: _core,
            held: _held,
            events: _events,
            turn: _turn,
        } = self;
    }
}

impl Owned {
    /// A core of no events.
    pub(crate) fn new(alloc: Global) -> Result<Owned, AllocError> {
        Ok(Owned {
            core: Core::new(alloc, SITES)?,
            held: Held::new(alloc, ClassId::new(0)),
            events: 0,
            turn: 0,
        })
    }

    /// Has loader 0 define java/lang/Object and the class whose methods call sites run.
    ///
    /// # Errors
    ///
    /// The first refusal.
    pub(crate) fn begin(&mut self, alloc: Global) -> Result<(), Refusal> {
        let first = LoaderId::new(0);
        let _object = self.define(alloc, first, OBJECT)?;
        if let Made::Class(class) = self.define(alloc, first, T)? {
            self.held.methods = class;
        }
        Ok(())
    }

    /// Whether a round more has no room.
    pub(crate) fn is_used_up(&self) -> bool {
        let world = self.core.world();
        let classes = world.classes.class_count();
        let most = world
            .sites
            .call_site_count()
            .max(world.sites.switch_count());
        world.classes.loader_count() >= MOST_LOADERS
            || world.site_count() >= SITES as usize
            || classes > MOST_OF_A_KIND - CLASSES
            || most > MOST_OF_A_KIND - STEPS
    }

    /// One round, with the files of the loader's classes.
    ///
    /// # Errors
    ///
    /// The first refusal.
    pub(crate) fn round(&mut self, alloc: Global, files: &[Vec<u8>]) -> Result<(), Refusal> {
        if let Made::Loader(loader) = self.apply(alloc, Event::NewLoader)? {
            self.fill(alloc, loader, files)?;
            if let Some(oldest) = self.held.hold_loader(loader)? {
                let _made = self.apply(alloc, Event::Retire(oldest))?;
            }
        }
        for _ in 0..STEPS {
            self.change_targets(alloc)?;
        }
        Ok(())
    }

    /// Applies the event, and counts it.
    fn apply(&mut self, alloc: Global, event: Event) -> Result<Made, Refusal> {
        let reply = self.core.apply(alloc, event)?;
        self.events = self.events.saturating_add(1);
        Ok(reply.made)
    }

    /// Has the loader define the class of the file. A file that isn't read defines none.
    fn define(&mut self, alloc: Global, loader: LoaderId, file: &[u8]) -> Result<Made, Refusal> {
        match read_class(alloc, file) {
            Ok(file) => self.apply(alloc, Event::Define(loader, file)),
            Err(ClassFault::Memory) => Err(Refusal::Memory),
            Err(_) => Ok(Made::Nothing),
        }
    }

    /// Has the loader find java/lang/Object and define the classes, and links the invocation in the last one.
    fn fill(&mut self, alloc: Global, loader: LoaderId, files: &[Vec<u8>]) -> Result<(), Refusal> {
        let name = Name::copied(alloc, b"java/lang/Object")?;
        let mut last = self.apply(alloc, Event::Delegate(loader, name, LoaderId::new(0)))?;
        for file in files {
            last = self.define(alloc, loader, file.as_slice())?;
        }
        match last {
            Made::Class(class) => self.link(alloc, class),
            _ => Ok(()),
        }
    }

    /// Requests the first invocation of the class's first method, and installs its link.
    fn link(&mut self, alloc: Global, class: ClassId) -> Result<(), Refusal> {
        if let Made::Site(site) = self.apply(alloc, request((class.number(), 0)))? {
            let Ok(prepared) = self.core.prepare(alloc, &[site]) else {
                return Err(Refusal::NotReady { site });
            };
            let _made = self.apply(alloc, Event::Install(prepared.rows))?;
        }
        Ok(())
    }

    /// A guard by the switch point of the two methods.
    fn guard(&self, alloc: Global, point: SwitchId) -> Result<Target, AllocError> {
        let class = self.held.methods.number();
        guard(alloc, point.number(), (class, 0), (class, 1))
    }

    /// A new switch point, a new call site with a guard by it, targets of other call sites, and the end of an older switch point.
    fn change_targets(&mut self, alloc: Global) -> Result<(), Refusal> {
        if let Made::Switch(point) = self.apply(alloc, Event::NewSwitch)? {
            self.held.hold_point(point)?;
            let target = self.guard(alloc, point)?;
            if let Made::CallSite(site) = self.apply(alloc, call_site(alloc, target)?)? {
                self.held.hold_call_site(site)?;
            }
            for _ in 0..TARGETS {
                self.set_target(alloc, point)?;
            }
        }
        if let Some(point) = self.held.ending_point() {
            let _made = self.apply(alloc, invalidation(alloc, point.number())?)?;
        }
        Ok(())
    }

    /// Another target of the next call site: a guard by the switch point, or a method.
    fn set_target(&mut self, alloc: Global, point: SwitchId) -> Result<(), Refusal> {
        self.turn = self.turn.wrapping_add(1) % self.held.call_sites.len().max(1);
        let Some(site) = self.held.call_sites.get(self.turn).copied() else {
            return Ok(());
        };
        let target = if self.turn % 2 == 0 {
            self.guard(alloc, point)?
        } else {
            Target::method(method((self.held.methods.number(), 1)))
        };
        let _made = self.apply(alloc, Event::SetTarget(site, target))?;
        Ok(())
    }
}
