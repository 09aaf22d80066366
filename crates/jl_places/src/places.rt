//! The places.

ghost use Rattle.std.specs.Prelude.{◌≡◌, ◌==◌, ◌<◌, ◌^◌, ◌++◌, ◌∷◌, [], List, Some, None, length, position, replicate, slice_get};
ghost use Rattle.std.specs.Prelude.{if◌then◌else◌, IfOk, IfSome, OnOk, OnErr};
ghost use Rattle.std.specs.Option.{option_copied};
ghost use Rattle.std.specs.List.{IsDistinct};
ghost use Rattle.jl_types.specs.declared.ids.Place as ids;
ghost use Rattle.jl_types.specs.Events.Verdict.{same_place};
ghost use Rattle.jl_places.specs.ForProofs.Parts as parting;
ghost use Rattle.jl_places.specs.ForProofs.Parts.{number_at};

use crate::numbers::Part;
use jl_pages::{Again, Paged};
use jl_types::Place;
use std::alloc::{AllocError, Global};
use std::marker::Model;

/// In how many parts places are looked up.
const PARTS: usize = 1_024;

/// Places, each once, in the order in which they came. A clause sees them.
pub struct Places {
    listed: Paged<Listed>,
    /// Each place with its number, in the part of the place.
    parts: Vec<Part>,
}

/// Written out, so that what drops one makes one call of it and doesn't take apart what it holds.
impl Drop for Places {
    fn drop(self) {
        let Places {
            listed: _listed,
            parts: _parts,
        } = self;
    }
}

impl Model for Places {
    ghost use Rattle.std.specs.Prelude.{List};
    ghost use Rattle.jl_types.specs.declared.ids.Place.{Place};
    ghost use Rattle.jl_places.specs.ForProofs.Parts.{AreFound};

    ghost Value = { List Place };

    ghost view = { λ p. p.listed.items };

    ghost invariant = { λ p. AreFound p.parts.items p.listed.items };
}

impl Places {
    /// No places.
    pub fn new(alloc: Global) -> Result<Places, AllocError>
        ensures { IfOk result (λ places. places ≡ []) }
    {
        let part = Part::new(alloc)?;
        Ok(Places {
            listed: Paged::new(alloc),
            parts: repeated(alloc, &part, PARTS)?,
        })
    }

    /// How many places there are. Takes no memory.
    pub fn len(&self) -> usize
        ensures count { result ≡ length self.now }
        ensures unique { IsDistinct same_place self.now }
    {
        self.listed.len()
    }

    /// Whether there is none. Takes no memory.
    pub fn is_empty(&self) -> bool
        ensures { result ≡ (length self.now == 0) }
    {
        self.len() == 0
    }

    /// The place of the number. Takes no memory.
    pub fn get_index(&self, number: usize) -> Option<&Place>
        ensures key { option_copied result ≡ slice_get self.now number }
        ensures within { IfSome result (λ _. number < length self.now) }
    {
        match self.listed.get(number) {
            Some(listed) => Some(&listed.place),
            None => None,
        }
    }

    /// The number of the place. Takes no memory.
    pub fn get_index_of(&self, place: &Place) -> Option<usize>
        ensures index { result ≡ position (same_place place.now) self.now }
    {
        match number_of(self.parts.as_slice(), place) {
            Some(number) => Some(number as usize),
            None => None,
        }
    }

    /// Adds a place, which isn't there yet, after the others.
    ///
    /// # Errors
    ///
    /// Want of memory. Nothing has changed then.
    pub fn push(&mut self, alloc: Global, place: Place) -> Result<(), AllocError>
        requires fresh { position (same_place place) self.old ≡ None }
        requires few { length self.old < 2 ^ 32 }
        ensures ok { OnOk result (self.new ≡ self.old ++ place ∷ []) }
        ensures err { OnErr result (self.new ≡ self.old) }
    {
        self.listed.reserve(alloc)?;
        let number = self.listed.len() as u32;
        put_in(&mut self.parts, alloc, &place, number)?;
        self.listed.push_reserved(Listed { place });
        Ok(())
    }

    /// A copy of the places, which shares their full pages and their parts. Want of memory is an error, and so are too many copies.
    pub fn copy(&self, alloc: Global) -> Result<Places, AllocError>
        ensures { IfOk result (λ copy. copy ≡ self.now) }
    {
        Ok(Places {
            listed: self.listed.copy(alloc)?,
            parts: copies(alloc, self.parts.as_slice())?,
        })
    }
}

/// A place in the list.
#[derive(Drop)]
struct Listed {
    place: Place,
}

impl Model for Listed {
    ghost use Rattle.jl_types.specs.declared.ids.Place.{Place};

    ghost Value = { Place };

    ghost view = { λ l. l.place };
}

impl Again for Listed {
    fn again(&self, _alloc: Global) -> Result<Listed, AllocError> {
        Ok(Listed { place: self.place })
    }
}

/// The part in which the place is looked up.
fn part_of(place: &Place) -> usize
    ensures part { result ≡ parting.part_of place.now }
    ensures within { result < 1024 }
{
    place.class.number() as usize % PARTS
}

/// The number that the place's part has of it.
fn number_of(parts: &[Part], place: &Place) -> Option<u32>
    requires { length parts.now ≡ 1024 }
    ensures { result ≡ number_at parts.now place.now }
{
    parts[part_of(place)].get(place)
}

/// Gives the place this number in its part.
///
/// # Errors
///
/// Want of memory. Nothing has changed then.
fn put_in(
    parts: &mut Vec<Part>,
    alloc: Global,
    place: &Place,
    number: u32,
) -> Result<(), AllocError>
    requires { length parts.old.items ≡ 1024 }
    ensures many { length parts.new.items ≡ 1024 }
    ensures ok { OnOk result ((q : ids.Place) → number_at parts.new.items q ≡ (if same_place place.now q then Some number else number_at parts.old.items q)) }
    ensures err { OnErr result (parts.new.items ≡ parts.old.items) }
{
    parts[part_of(place)].insert(alloc, place, number)
}

/// As many copies of the part as `count` says. They share its places.
fn repeated(alloc: Global, part: &Part, count: usize) -> Result<Vec<Part>, AllocError>
    ensures { IfOk result (λ made. made.items ≡ replicate count part.now) }
{
    let mut made = Vec::with_capacity(alloc, count)?;
    for _ in 0..count {
        made.push(part.copy()?)?;
    }
    Ok(made)
}

/// Copies of the parts, in order, which share their places.
fn copies(alloc: Global, parts: &[Part]) -> Result<Vec<Part>, AllocError>
    ensures { IfOk result (λ made. made.items ≡ parts.now) }
{
    let mut made = Vec::with_capacity(alloc, parts.len())?;
    for part in parts {
        made.push(part.copy()?)?;
    }
    Ok(made)
}
