//! The list.

ghost use Rattle.std.specs.Prelude.{◌≡◌, ◌==◌, ◌<◌, ◌++◌, ◌∷◌, [], ◌^◌, true, length, slice_get, get_or, IfOk, OnOk};
ghost use Rattle.std.specs.Option.{option_copied};

use crate::again::Again;
use crate::pages::{PAGE, Page, close, copy_items, copy_pages};
use std::alloc::{AllocError, Global};
use std::marker::Model;

/// A list that grows at its end. A clause sees the elements, and whether there is room for one more.
///
/// The elements stand in full pages of 64, which copies share. Those after the full pages stand in a page that no copy shares.
pub struct Paged<T> {
    full: Vec<Page<T>>,
    last: Vec<T>,
    count: usize,
}

/// Written out, so that what drops one makes one call of it and doesn't take apart what it holds.
impl<T: Drop> Drop for Paged<T> {
    fn drop(self) {
        let Paged {
            full: _full,
            last: _last,
            count: _count,
        } = self;
    }
}

impl<T> Model for Paged<T> {
    ghost use Rattle.std.specs.Prelude.{◌≡◌, ◌++◌, length};
    ghost use Rattle.jl_pages.specs.Listing.{Listed, listed_code, has_room};
    ghost use Rattle.jl_pages.specs.ForProofs.Pages.{elements, AreFull};

    ghost Value = { Listed T };

    ghost coded = { listed_code T.code };

    ghost view = { λ p. record { items = elements p.full.items ++ p.last.items; room = has_room p.last } };

    ghost invariant = { λ p. AreFull p.full.items × (p.count ≡ length (elements p.full.items ++ p.last.items)) };
}

impl<T: Drop> Paged<T> {
    /// A list of no elements. Takes no memory.
    pub fn new(alloc: Global) -> Self
        ensures { result.items ≡ [] }
    {
        Paged {
            full: Vec::new(alloc),
            last: Vec::new(alloc),
            count: 0,
        }
    }

    /// How many elements there are. Takes no memory.
    pub fn len(&self) -> usize
        ensures { result ≡ length self.now.items }
    {
        self.count
    }

    /// Whether there is none. Takes no memory.
    pub fn is_empty(&self) -> bool
        ensures { result ≡ (length self.now.items == 0) }
    {
        self.len() == 0
    }

    /// The element at the place. Takes no memory.
    pub fn get(&self, place: usize) -> Option<&T>
        ensures { option_copied result ≡ slice_get self.now.items place }
    {
        match element_at(self.full.as_slice(), place / PAGE) {
            Some(page) => element_at(page.as_slice(), place % PAGE),
            None => {
                let closed = self.count - self.last.as_slice().len();
                element_at(self.last.as_slice(), place - closed)
            }
        }
    }

    /// The element at the place, which is there. Takes no memory.
    pub fn at(&self, place: usize) -> &T
        requires { place < length self.now.items }
        ensures { result.now ≡ get_or self.now.items place result.now }
    {
        match self.get(place) {
            Some(element) => element,
            None => unreachable!(),
        }
    }

    /// Makes room for one element more.
    ///
    /// # Errors
    ///
    /// Want of memory. The elements are as they were.
    pub fn reserve(&mut self, alloc: Global) -> Result<(), AllocError>
        ensures items { self.new.items ≡ self.old.items }
        ensures room { OnOk result (self.new.room ≡ true) }
    {
        if self.last.as_slice().len() == PAGE {
            close(alloc, &mut self.full, &mut self.last)?;
        }
        self.last.reserve(1)?;
        Ok(())
    }

    /// Adds the element after the others. Takes no memory.
    pub fn push_reserved(&mut self, element: T)
        requires room { self.old.room ≡ true }
        requires few { length self.old.items < 2 ^ 32 }
        ensures { self.new.items ≡ self.old.items ++ element ∷ [] }
    {
        self.last.push_reserved(element);
        self.count += 1;
    }
}

/// The element at the place.
fn element_at<A>(elements: &[A], place: usize) -> Option<&A>
    ensures { option_copied result ≡ slice_get elements.now place }
{
    elements.get(place)
}

impl<T: Again> Paged<T> {
    /// A copy of the list, which shares its full pages. The elements of the last page are copied. The only error is want of memory.
    pub fn copy(&self, alloc: Global) -> Result<Paged<T>, AllocError>
        ensures { IfOk result (λ copy. copy.items ≡ self.now.items) }
    {
        Ok(Paged {
            full: copy_pages(alloc, self.full.as_slice())?,
            last: copy_items(alloc, self.last.as_slice())?,
            count: self.count,
        })
    }
}
