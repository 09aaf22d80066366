//! One of the parts in which places are looked up.

ghost use Rattle.std.specs.Prelude.{◌≡◌, [], Some, None, if◌then◌else◌, IfOk, OnOk, OnErr};
ghost use Rattle.std.specs.BTreeMap.{is_at};
ghost use Rattle.jl_types.specs.declared.ids.Place.{Place};
ghost use Rattle.jl_types.specs.Events.Verdict.{same_place};
ghost use Rattle.jl_places.specs.declared.numbers.Called as within;
ghost use Rattle.jl_places.specs.ForProofs.Parts.{called, called_cmp, number_within, number_in};

use indexmap::IndexMap;
use jl_types::{ClassId, Place};
use std::alloc::{AllocError, Global};
use std::collections::BTreeMap;
use std::marker::Model;
use std::sync::Arc;

/// Places with their numbers, which copies share. A clause sees them.
pub(crate) struct Part {
    shared: Arc<Numbers>,
}

/// Written out, so that what drops one makes one call of it and doesn't take apart what it holds.
impl Drop for Part {
    fn drop(self) {
        let Part { shared: _shared } = self;
    }
}

impl Model for Part {
    ghost use Rattle.jl_places.specs.ForProofs.Parts.{ByClass};

    ghost Value = { ByClass };

    ghost view = { λ p. p.shared.value };
}

impl Part {
    /// No places.
    pub(crate) fn new(alloc: Global) -> Result<Part, AllocError>
        ensures { IfOk result (λ part. part ≡ []) }
    {
        Ok(Part {
            shared: Arc::new(alloc, Numbers::new(alloc))?,
        })
    }

    /// The number of the place. Takes no memory.
    pub(crate) fn get(&self, place: &Place) -> Option<u32>
        ensures { result ≡ number_in self.now place.now }
    {
        self.shared.get(place)
    }

    /// Gives the place this number. A part that others share is copied first.
    ///
    /// # Errors
    ///
    /// Want of memory. Nothing has changed then.
    pub(crate) fn insert(
        &mut self,
        alloc: Global,
        place: &Place,
        number: u32,
    ) -> Result<(), AllocError>
        ensures ok { OnOk result ((q : Place) → number_in self.new q ≡ (if same_place place.now q then Some number else number_in self.old q)) }
        ensures err { OnErr result (self.new ≡ self.old) }
    {
        let numbers = Arc::make_mut(&mut self.shared)?;
        numbers.insert(alloc, place, number)
    }

    /// A copy of the part, which shares its places. Too many copies are an error.
    pub(crate) fn copy(&self) -> Result<Part, AllocError>
        ensures { IfOk result (λ copy. copy ≡ self.now) }
    {
        Ok(Part {
            shared: Arc::try_clone(&self.shared)?,
        })
    }
}

/// Places with their numbers, by class. A clause sees them.
struct Numbers {
    classes: IndexMap<ClassId, ClassNumbers>,
}

/// Written out, so that what drops one makes one call of it and doesn't take apart what it holds.
impl Drop for Numbers {
    fn drop(self) {
        let Numbers { classes: _classes } = self;
    }
}

impl Model for Numbers {
    ghost use Rattle.jl_places.specs.ForProofs.Parts.{ByClass};

    ghost Value = { ByClass };

    ghost view = { λ n. n.classes.entries };
}

impl Clone for Numbers {
    ghost is_clone = { λ numbers copy. copy ≡ numbers };

    fn clone(&self) -> Result<Numbers, AllocError> {
        Ok(Numbers {
            classes: self.classes.clone()?,
        })
    }
}

impl Numbers {
    /// No places.
    fn new(alloc: Global) -> Self
        ensures { result ≡ [] }
    {
        Numbers {
            classes: IndexMap::new(alloc),
        }
    }

    /// The number of the place.
    fn get(&self, place: &Place) -> Option<u32>
        ensures { result ≡ number_in self.now place.now }
    {
        self.classes.get(&place.class)?.get(Called::of(place))
    }

    /// The place has this number.
    ///
    /// # Errors
    ///
    /// Want of memory. Nothing has changed then.
    fn insert(&mut self, alloc: Global, place: &Place, number: u32) -> Result<(), AllocError>
        ensures ok { OnOk result ((q : Place) → number_in self.new q ≡ (if same_place place.now q then Some number else number_in self.old q)) }
        ensures err { OnErr result (self.new ≡ self.old) }
    {
        match self.classes.get_mut(&place.class) {
            Some(numbers) => numbers.insert(Called::of(place), number),
            None => {
                let numbers = ClassNumbers::one(alloc, Called::of(place), number)?;
                self.classes.insert(place.class, numbers)?;
                Ok(())
            }
        }
    }
}

/// A place within its class.
#[derive(Clone, Copy, PartialEq, Eq, PartialOrd, Ord)]
struct Called {
    method: u16,
    pc: u32,
}

impl Called {
    /// The place within its class.
    fn of(place: &Place) -> Self
        ensures { result ≡ called place.now }
    {
        Called {
            method: place.method,
            pc: place.pc,
        }
    }
}

/// The places of a class with their numbers. A clause sees them.
struct ClassNumbers {
    numbers: BTreeMap<Called, u32>,
}

/// Written out, so that what drops one makes one call of it and doesn't take apart what it holds.
impl Drop for ClassNumbers {
    fn drop(self) {
        let ClassNumbers { numbers: _numbers } = self;
    }
}

impl Model for ClassNumbers {
    ghost use Rattle.jl_places.specs.ForProofs.Parts.{OfClass};

    ghost Value = { OfClass };

    ghost view = { λ n. n.numbers.entries };
}

impl Clone for ClassNumbers {
    ghost is_clone = { λ numbers copy. copy ≡ numbers };

    fn clone(&self) -> Result<ClassNumbers, AllocError> {
        Ok(ClassNumbers {
            numbers: self.numbers.clone()?,
        })
    }
}

impl ClassNumbers {
    /// One place with its number.
    fn one(alloc: Global, called: Called, number: u32) -> Result<ClassNumbers, AllocError>
        ensures { IfOk result (λ numbers. (c : within.Called) → number_within numbers c ≡ (if is_at (called_cmp called) c then Some number else None)) }
    {
        let mut numbers = BTreeMap::new(alloc);
        numbers.insert(called, number)?;
        Ok(ClassNumbers { numbers })
    }

    /// The number of the place.
    fn get(&self, called: Called) -> Option<u32>
        ensures { result ≡ number_within self.now called }
    {
        self.numbers.get(&called).copied()
    }

    /// The place has this number.
    ///
    /// # Errors
    ///
    /// Want of memory. Nothing has changed then.
    fn insert(&mut self, called: Called, number: u32) -> Result<(), AllocError>
        ensures ok { OnOk result ((c : within.Called) → number_within self.new c
            ≡ (if is_at (called_cmp called) c then Some number else number_within self.old c)) }
        ensures err { OnErr result (self.new ≡ self.old) }
    {
        self.numbers.insert(called, number)?;
        Ok(())
    }
}
