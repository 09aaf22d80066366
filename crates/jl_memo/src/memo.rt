//! The memo.

ghost use Rattle.std.specs.Prelude.{◌≡◌, replicate, IfOk};
ghost use Rattle.jl_memo.specs.Memos.{no_rows, place_of, remembered, put};

use crate::set::{Row, Set};
use jl_types::{ClassId, Outcome, SiteNo};
use std::alloc::{AllocError, Global};
use std::marker::Model;

/// Rows in sets of two, each row at the place of its site and class (a method cache: Deutsch and Schiffman, Efficient Implementation of
/// the Smalltalk-80 System, 1984). A clause sees the sets.
pub struct Memo {
    sets: Vec<Set>,
}

// Written out, since a derived drop is proved anew in each crate that lets one go.
impl Drop for Memo {
    fn drop(self) {
        let Memo { sets: _sets } = self;
    }
}

impl Model for Memo {
    ghost use Rattle.std.specs.Prelude.{List};
    ghost use Rattle.jl_memo.specs.declared.set.Set.{Set};

    ghost Value = { List Set };

    ghost view = { λ m. m.sets.items };
}

impl Memo {
    /// No rows, and room for twice as many as there are sets.
    pub fn new(alloc: Global, sets: u32) -> Result<Memo, AllocError>
        ensures { IfOk result (λ memo. memo ≡ replicate sets no_rows) }
    {
        let no_rows = Set {
            newer: None,
            older: None,
        };
        Ok(Memo {
            sets: filled(alloc, no_rows, sets as usize)?,
        })
    }

    /// The outcome of the site's calls on objects of the class, if it is remembered. Takes no memory.
    pub fn get(&self, site: SiteNo, class: ClassId) -> Option<Outcome>
        ensures { result ≡ remembered self.now site class }
    {
        let sets = self.sets.as_slice();
        match sets.get(place_of(sets.len(), site, class)) {
            Some(set) => set.get(site, class),
            None => None,
        }
    }

    /// Remembers the row, in the place of another one if its set is full. Takes no memory.
    pub fn put(&mut self, row: Row)
        ensures { self.new ≡ put self.old row }
    {
        let sets = self.sets.as_mut_slice();
        let place = place_of(sets.len(), row.site, row.class);
        if place < sets.len() {
            sets[place] = sets[place].with(row);
        }
    }
}

/// So many copies of a value.
fn filled<T: Copy + Drop>(alloc: Global, value: T, count: usize) -> Result<Vec<T>, AllocError>
    ensures { IfOk result (λ made. made.items ≡ replicate count value) }
{
    let mut made = Vec::with_capacity(alloc, count)?;
    for _ in 0..count {
        made.push(value)?;
    }
    Ok(made)
}

/// Which of so many sets has the rows of the site and the class: the high half of a product, times their number, without its low half
/// (Knuth, The Art of Computer Programming, volume 3, 6.4).
fn place_of(sets: usize, site: SiteNo, class: ClassId) -> usize
    ensures { result ≡ place_of sets site class }
{
    let both = (site.number() as u64) * 4_294_967_296 + class.number() as u64;
    let mixed = both.wrapping_mul(11_400_714_819_323_198_485) / 4_294_967_296;
    (mixed.wrapping_mul(sets as u64) / 4_294_967_296) as usize
}
