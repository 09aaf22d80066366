//! Values by number.

ghost use Rattle.std.specs.Prelude.{◌≡◌, ◌==◌, ◌<◌, ◌≤◌, ◌^◌, ◌+◌, ◌++◌, ◌∷◌, [], ℕ, Some, None, length, replicate, drop};
ghost use Rattle.std.specs.Prelude.{slice_get, slice_set, suc, if◌then◌else◌, IfOk, IfSome, OnOk, OnErr};
ghost use Rattle.std.specs.Vec.{vec_len, vec_capacity};
ghost use Rattle.std.specs.Option.{option_copied};
ghost use Rattle.jl_numbered.specs.Numbers.{value_at, entries_from, AreRising};
ghost use Rattle.jl_numbered.specs.ForProofs.Placed as placing;
ghost use Rattle.jl_numbered.specs.ForProofs.Placed.{placed};

use jl_pages::Again;
use std::alloc::{AllocError, Global};
use std::marker::Model;
use std::mem;

/// Values by number, each at the place of its number. A clause sees the numbers that have a value, each with its value, by rising number.
/// It also sees the number below which there is room.
pub struct Numbered<T> {
    slots: Vec<Option<T>>,
    count: usize,
}

/// Written out, so that what drops one makes one call of it and doesn't take apart what it holds.
impl<T: Drop> Drop for Numbered<T> {
    fn drop(self) {
        let Numbered {
            slots: _slots,
            count: _count,
        } = self;
    }
}

impl<T> Model for Numbered<T> {
    ghost use Rattle.std.specs.Prelude.{◌≡◌, length};
    ghost use Rattle.jl_numbered.specs.Numbers.{Numbered, numbered_code};
    ghost use Rattle.jl_numbered.specs.ForProofs.Placed.{placed};

    ghost Value = { Numbered T };

    ghost coded = { numbered_code T.code };

    ghost view = { λ m. record { entries = placed 0 m.slots.items; room = length m.slots.items } };

    ghost invariant = { λ m. m.count ≡ length (placed 0 m.slots.items) };
}

impl<T: Drop> Numbered<T> {
    /// No values, and no room for any. Takes no memory.
    pub fn new(alloc: Global) -> Self
        ensures { result.entries ≡ [] }
    {
        Numbered {
            slots: Vec::new(alloc),
            count: 0,
        }
    }

    /// How many numbers have a value. Takes no memory.
    pub fn len(&self) -> usize
        ensures count { result ≡ length self.now.entries }
        ensures rising { AreRising self.now.entries }
    {
        self.count
    }

    /// The value of the number, if it has one. Takes no memory.
    pub fn get(&self, number: usize) -> Option<&T>
        ensures { option_copied result ≡ value_at self.now.entries number }
    {
        match slot_at(self.slots.as_slice(), number) {
            Some(Some(value)) => Some(value),
            Some(None) => None,
            None => None,
        }
    }

    /// The first number from `from` on that has a value, with the value. Takes no memory.
    pub fn next(&self, from: usize) -> Option<(usize, &T)>
        ensures entry { IfSome result (λ row. entries_from from self.now.entries ≡ (row.0, row.1.now) ∷ entries_from (suc row.0) self.now.entries) }
        ensures end { result ≡ None → entries_from from self.now.entries ≡ [] }
    {
        first_from(self.slots.as_slice(), from)
    }

    /// Makes room for the number, and for each below it.
    ///
    /// # Errors
    ///
    /// Want of memory. The values are as they were.
    pub fn reserve(&mut self, number: usize) -> Result<(), AllocError>
        requires { number < 2 ^ 32 }
        ensures entries { self.new.entries ≡ self.old.entries }
        ensures room { OnOk result (number < self.new.room) }
        ensures still { self.old.room ≤ self.new.room }
    {
        let room = self.slots.as_slice().len();
        if number < room {
            return Ok(());
        }
        self.slots.reserve(number + 1 - room)?;
        add_vacant(&mut self.slots, number + 1 - room);
        Ok(())
    }

    /// Gives the number this value, in the place of the one that it had. Takes no memory.
    pub fn put_reserved(&mut self, number: usize, value: T)
        requires { number < self.old.room }
        ensures entries { (n : ℕ) → value_at self.new.entries n ≡ (if number == n then Some value else value_at self.old.entries n) }
        ensures room { self.new.room ≡ self.old.room }
    {
        write(&mut self.slots, &mut self.count, number, Some(value));
    }

    /// Gives the number this value, in the place of the one that it had.
    ///
    /// # Errors
    ///
    /// Want of memory. The values are as they were.
    pub fn insert(&mut self, number: usize, value: T) -> Result<(), AllocError>
        requires { number < 2 ^ 32 }
        ensures ok { OnOk result ((n : ℕ) → value_at self.new.entries n ≡ (if number == n then Some value else value_at self.old.entries n)) }
        ensures err { OnErr result (self.new.entries ≡ self.old.entries) }
    {
        self.reserve(number)?;
        self.put_reserved(number, value);
        Ok(())
    }

    /// Takes away the number's value, and answers the value that it had. Takes no memory.
    pub fn remove(&mut self, number: usize) -> Option<T>
        ensures taken { result ≡ value_at self.old.entries number }
        ensures left { (n : ℕ) → value_at self.new.entries n ≡ (if number == n then None else value_at self.old.entries n) }
        ensures few { length self.new.entries ≤ length self.old.entries }
        ensures room { self.new.room ≡ self.old.room }
    {
        if self.slots.as_slice().len() <= number {
            return None;
        }
        write(&mut self.slots, &mut self.count, number, None)
    }
}

impl<T: Again> Numbered<T> {
    /// A copy of the list, with a copy of each value. The only error is want of memory.
    pub fn copy(&self, alloc: Global) -> Result<Numbered<T>, AllocError>
        ensures { IfOk result (λ copy. copy.entries ≡ self.now.entries) }
    {
        Ok(Numbered {
            slots: copies(alloc, self.slots.as_slice())?,
            count: self.count,
        })
    }
}

/// The slot at the place.
fn slot_at<T>(slots: &[Option<T>], place: usize) -> Option<&Option<T>>
    ensures slot { option_copied result ≡ slice_get slots.now place }
    ensures within { IfSome result (λ _. place < length slots.now) }
{
    slots.get(place)
}

/// The first place from `from` on at which a value stands, with the value.
fn first_from<T>(slots: &[Option<T>], from: usize) -> Option<(usize, &T)>
    ensures entry { IfSome result (λ row. placed from (drop from slots.now) ≡ (row.0, row.1.now) ∷ placed (suc row.0) (drop (suc row.0) slots.now)) }
    ensures end { result ≡ None → placed from (drop from slots.now) ≡ [] }
{
    // Bounds the loop.
    let _count = slots.len();
    let mut place = from;
    while let Some(slot) = slot_at(slots, place) {
        if let Some(value) = slot {
            return Some((place, value));
        }
        place += 1;
    }
    None
}

/// Writes what stands at the place, keeps the count of the values right, and answers what stood there.
fn write<T: Drop>(
    slots: &mut Vec<Option<T>>,
    count: &mut usize,
    place: usize,
    value: Option<T>,
) -> Option<T>
    requires within { place < length slots.old.items }
    requires count { count.old ≡ length (placed 0 slots.old.items) }
    ensures stood { slice_get slots.old.items place ≡ Some result }
    ensures written { slots.new.items ≡ slice_set slots.old.items place value }
    ensures count { count.new ≡ length (placed 0 slots.new.items) }
{
    // Bounds the count.
    let _room = room_of(slots);
    let more = one(&value);
    let old = mem::replace(&mut slots[place], value);
    *count = *count - one(&old) + more;
    old
}

/// How many places there are.
fn room_of<T>(slots: &Vec<Option<T>>) -> usize
    ensures { result ≡ length slots.now.items }
{
    slots.as_slice().len()
}

/// How many values stand in the slot: one or none.
fn one<T>(slot: &Option<T>) -> usize
    ensures { result ≡ placing.one slot.now }
{
    match slot {
        Some(_) => 1,
        None => 0,
    }
}

/// Adds as many slots without values as `more` says. Takes no memory.
fn add_vacant<T: Drop>(slots: &mut Vec<Option<T>>, more: usize)
    requires { vec_len slots.old + more ≤ vec_capacity slots.old }
    ensures { slots.new.items ≡ slots.old.items ++ replicate more None }
{
    for _ in 0..more {
        slots.push_reserved(None);
    }
}

/// Copies of the slots, in order.
fn copies<T: Again>(alloc: Global, slots: &[Option<T>]) -> Result<Vec<Option<T>>, AllocError>
    ensures { IfOk result (λ made. made.items ≡ slots.now) }
{
    let mut made = Vec::with_capacity(alloc, slots.len())?;
    for slot in slots {
        made.push(copy_of(alloc, slot)?)?;
    }
    Ok(made)
}

/// A copy of the slot.
fn copy_of<T: Again>(alloc: Global, slot: &Option<T>) -> Result<Option<T>, AllocError>
    ensures { IfOk result (λ copy. copy ≡ slot.now) }
{
    match slot {
        Some(value) => Ok(Some(value.again(alloc)?)),
        None => Ok(None),
    }
}
