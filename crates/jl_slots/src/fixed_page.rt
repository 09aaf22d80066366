//! One page.

ghost use Rattle.std.specs.Prelude.{◌≡◌, ◌<◌, length, replicate, slice_get, slice_set, IfOk, OnOk, OnErr};
ghost use Rattle.std.specs.Option.{option_copied};

use jl_pages::Again;
use std::alloc::{AllocError, Global};
use std::marker::Model;
use std::sync::Arc;

/// How many elements a page has.
pub const PAGE: usize = 256;

/// The elements of a page, which lists share. A clause sees them.
#[derive(Drop)]
pub(crate) struct FixedPage<T> {
    kept: Arc<Kept<T>>,
}

impl<T> Model for FixedPage<T> {
    ghost use Rattle.std.specs.Prelude.{List};

    ghost Value = { List T };

    ghost view = { λ p. p.kept.value };
}

impl<T: Again> FixedPage<T> {
    /// A page with this element at each place.
    pub(crate) fn filled(alloc: Global, element: T) -> Result<FixedPage<T>, AllocError>
        ensures { IfOk result (λ page. page ≡ replicate 256 element) }
    {
        let kept = Kept::filled(alloc, element)?;
        Ok(FixedPage {
            kept: Arc::new(alloc, kept)?,
        })
    }

    /// Writes the element at the place. A page that others share is copied first.
    ///
    /// # Errors
    ///
    /// Want of memory. Nothing has changed then.
    pub(crate) fn set(&mut self, place: usize, element: T) -> Result<(), AllocError>
        requires { place < length self.old }
        ensures ok { OnOk result (self.new ≡ slice_set self.old place element) }
        ensures err { OnErr result (self.new ≡ self.old) }
    {
        let kept = Arc::make_mut(&mut self.kept)?;
        kept.set(place, element);
        Ok(())
    }
}

impl<T> FixedPage<T> {
    /// The element at the place. Takes no memory.
    pub(crate) fn get(&self, place: usize) -> Option<&T>
        ensures { option_copied result ≡ slice_get self.now place }
    {
        self.kept.get(place)
    }

    /// A copy of the page, which shares its elements. Too many copies are an error.
    pub(crate) fn copy(&self) -> Result<FixedPage<T>, AllocError>
        ensures { IfOk result (λ copy. copy ≡ self.now) }
    {
        Ok(FixedPage {
            kept: Arc::try_clone(&self.kept)?,
        })
    }
}

/// Elements, with the allocator from which a copy of them takes memory. A clause sees them.
#[derive(Drop)]
struct Kept<T> {
    alloc: Global,
    elements: Vec<T>,
}

impl<T> Model for Kept<T> {
    ghost use Rattle.std.specs.Prelude.{List};

    ghost Value = { List T };

    ghost view = { λ k. k.elements.items };
}

impl<T: Again> Clone for Kept<T> {
    ghost is_clone = { λ kept copy. copy ≡ kept };

    fn clone(&self) -> Result<Kept<T>, AllocError> {
        Ok(Kept {
            alloc: self.alloc,
            elements: copied(self.alloc, self.elements.as_slice())?,
        })
    }
}

impl<T: Again> Kept<T> {
    /// As many copies of the element as a page has elements.
    fn filled(alloc: Global, element: T) -> Result<Kept<T>, AllocError>
        ensures { IfOk result (λ kept. kept ≡ replicate 256 element) }
    {
        Ok(Kept {
            alloc,
            elements: filled(alloc, element)?,
        })
    }

    /// Writes the element at the place.
    fn set(&mut self, place: usize, element: T)
        requires { place < length self.old }
        ensures { self.new ≡ slice_set self.old place element }
    {
        self.elements[place] = element;
    }
}

impl<T> Kept<T> {
    /// The element at the place.
    fn get(&self, place: usize) -> Option<&T>
        ensures { option_copied result ≡ slice_get self.now place }
    {
        self.elements.as_slice().get(place)
    }
}

/// As many copies of the element as a page has elements.
fn filled<T: Again>(alloc: Global, element: T) -> Result<Vec<T>, AllocError>
    ensures { IfOk result (λ made. made.items ≡ replicate 256 element) }
{
    let mut made = Vec::with_capacity(alloc, PAGE)?;
    for _ in 0..PAGE {
        made.push(element.again(alloc)?)?;
    }
    Ok(made)
}

/// Copies of the elements, in order.
fn copied<T: Again>(alloc: Global, elements: &[T]) -> Result<Vec<T>, AllocError>
    ensures { IfOk result (λ made. made.items ≡ elements.now) }
{
    let mut made = Vec::with_capacity(alloc, elements.len())?;
    for element in elements {
        made.push(element.again(alloc)?)?;
    }
    Ok(made)
}
