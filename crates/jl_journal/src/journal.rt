//! The list.

ghost use Rattle.std.specs.Prelude.{◌≡◌, ◌≤◌, ◌+◌, ◌-◌, ◌++◌, ◌∷◌, [], List, length, drop, filter, slice_get};
ghost use Rattle.std.specs.Prelude.{IsSome, IfOk, IfSome, OnOk, OnErr};
ghost use Rattle.std.specs.Option.{option_copied};

use crate::element::{Keep, Share};
use crate::elements::{and_all, from_place, keep_from, shared};
use crate::past::Past;
use std::alloc::{AllocError, Global};
use std::marker::Model;

/// Elements in order, of which those that are past may be forgotten. A clause sees all of them.
///
/// The last element is never past. An element that is past is there if it is kept, and else only proofs read it.
pub struct Journal<T: Keep> {
    past: Past<T>,
    /// The elements of the past that are kept, and after them the elements that aren't past.
    elements: Vec<T>,
    /// How many of `elements` are of the past.
    noted: usize,
    /// How many elements there are, the forgotten ones among them.
    count: u64,
}

/// Written out, so that what drops one makes one call of it and doesn't take apart what it holds.
impl<T: Keep> Drop for Journal<T> {
    fn drop(self) {
        let Journal {
            past: _past,
            elements: _elements,
            noted: _noted,
            count: _count,
        } = self;
    }
}

impl<T: Keep> Model for Journal<T> {
    ghost use Rattle.std.specs.Prelude.{List, ◌++◌, drop};
    ghost use Rattle.jl_journal.specs.ForProofs.Parts.{AreParts};

    ghost Value = { List T };

    ghost view = { λ j. j.past.items ++ drop j.noted j.elements.items };

    ghost invariant = { λ j. AreParts T.keeps j.past.items j.elements.items j.noted j.count };
}

impl<T: Keep> Journal<T> {
    /// A journal of no elements. Takes no memory.
    pub fn new(alloc: Global) -> Self
        ensures { result ≡ [] }
    {
        Journal {
            past: Past::none(),
            elements: Vec::new(alloc),
            noted: 0,
            count: 0,
        }
    }

    /// How many elements there are, the forgotten ones among them. Takes no memory.
    pub fn len(&self) -> u64
        ensures { result ≡ length self.now }
    {
        self.count
    }

    /// Adds the element after the others.
    ///
    /// # Errors
    ///
    /// Want of memory. Nothing has changed then.
    pub fn push(&mut self, element: T) -> Result<(), AllocError>
        ensures ok { OnOk result (self.new ≡ self.old ++ element ∷ []) }
        ensures err { OnErr result (self.new ≡ self.old) }
    {
        let Some(count) = self.count.checked_add(1) else {
            return Err(AllocError);
        };
        self.elements.push(element)?;
        self.count = count;
        Ok(())
    }

    /// The element at the place, if it is the last one. There is none after it. Nothing is said of earlier places. Takes no memory.
    pub fn next_after(&self, place: u64) -> Option<&T>
        ensures { length self.now ≤ place + 1 → option_copied result ≡ slice_get self.now place }
    {
        if place < self.count {
            self.elements.last()
        } else {
            None
        }
    }

    /// The elements from the place on, if none of them is past. After the last one there are none. Takes no memory.
    pub fn kept_from(&self, place: u64) -> Option<&[T]>
        ensures rest { IfSome result (λ rest. rest.now ≡ drop place self.now) }
        ensures last { length self.now ≤ place + 1 → IsSome result }
    {
        if place >= self.count {
            return Some(&[]);
        }
        let later = self.elements.len() - self.noted;
        let past = self.count - later as u64;
        if place < past {
            return None;
        }
        Some(from_place(
            self.elements.as_slice(),
            self.noted + (place - past) as usize,
        ))
    }

    /// The elements that are there, in order: of those that are past the kept ones, and all others. The last one is among them.
    /// Takes no memory.
    pub fn kept(&self) -> &[T]
        ensures kept { (front back : List T) × (front ++ back ≡ self.now) × (result.now ≡ filter T.keeps front ++ back) }
        ensures last { slice_get result.now (length result.now - 1) ≡ slice_get self.now (length self.now - 1) }
    {
        &self.elements
    }

    /// Makes all elements but the last one past, and drops those of them that aren't kept. A clause sees no change. Takes no memory.
    pub fn forget(&mut self)
        ensures { self.new ≡ self.old }
    {
        let Some(last) = self.elements.pop() else {
            return;
        };
        self.past = and_all(&self.past, from_place(self.elements.as_slice(), self.noted));
        self.noted = keep_from(&mut self.elements, self.noted);
        self.elements.push_reserved(last);
    }
}

impl<T: Keep + Share> Journal<T> {
    /// A copy of the journal, which shares the elements.
    ///
    /// # Errors
    ///
    /// Want of memory, or too many owners of an element.
    pub fn copy(&self, alloc: Global) -> Result<Journal<T>, AllocError>
        ensures { IfOk result (λ copy. copy ≡ self.now) }
    {
        Ok(Journal {
            past: self.past.again(),
            elements: shared(alloc, self.elements.as_slice())?,
            noted: self.noted,
            count: self.count,
        })
    }
}
