//! The list.

ghost use Rattle.std.specs.Prelude.{◌≡◌, ◌<◌, ◌≤◌, ◌*◌, length, replicate, slice_get, slice_set, IfOk, OnOk, OnErr};
ghost use Rattle.std.specs.Option.{option_copied};
ghost use Rattle.jl_pages.specs.ForProofs.Pages.{elements};
ghost use Rattle.jl_slots.specs.ForProofs.Pages.{AreWhole, all_pages};

use crate::fixed_page::{FixedPage, PAGE};
use jl_pages::Again;
use std::alloc::{AllocError, Global};
use std::marker::Model;

/// A list of a fixed length, in pages of 256 that copies share. Pages are listed up to the last one that was ever written, and each later
/// one is as it was at first. A clause sees all elements.
pub struct Slots<T> {
    alloc: Global,
    pages: Vec<FixedPage<T>>,
    blank: FixedPage<T>,
    count: usize,
}

/// Written out, so that what drops one makes one call of it and doesn't take apart what it holds.
impl<T: Drop> Drop for Slots<T> {
    fn drop(self) {
        let Slots {
            alloc: _alloc,
            pages: _pages,
            blank: _blank,
            count: _count,
        } = self;
    }
}

impl<T> Model for Slots<T> {
    ghost use Rattle.std.specs.Prelude.{List};
    ghost use Rattle.jl_pages.specs.ForProofs.Pages.{elements};
    ghost use Rattle.jl_slots.specs.ForProofs.Pages.{AreWhole, all_pages};

    ghost Value = { List T };

    ghost view = { λ s. elements (all_pages s.pages.items s.blank s.count) };

    ghost invariant = { λ s. AreWhole (all_pages s.pages.items s.blank s.count) };
}

impl<T: Again> Slots<T> {
    /// A list of as many pages as `pages` says, with this element at each place. No page is listed yet.
    pub fn filled(alloc: Global, element: T, pages: usize) -> Result<Slots<T>, AllocError>
        ensures { IfOk result (λ slots. slots ≡ replicate (256 * pages) element) }
    {
        Ok(Slots {
            alloc,
            pages: Vec::new(alloc),
            blank: FixedPage::filled(alloc, element)?,
            count: pages,
        })
    }

    /// Writes the element at the place. A page that others share is copied first.
    ///
    /// # Errors
    ///
    /// Want of memory. Nothing has changed then.
    pub fn set(&mut self, place: usize, element: T) -> Result<(), AllocError>
        requires { place < length self.old }
        ensures ok { OnOk result (self.new ≡ slice_set self.old place element) }
        ensures err { OnErr result (self.new ≡ self.old) }
    {
        set_in(&mut self.pages, &self.blank, self.count, place, element)
    }
}

impl<T> Slots<T> {
    /// The element at the place. Takes no memory.
    pub fn get(&self, place: usize) -> Option<&T>
        ensures { option_copied result ≡ slice_get self.now place }
    {
        match page_at(self.pages.as_slice(), place / PAGE) {
            Some(page) => page.get(place % PAGE),
            None if place / PAGE < self.count => self.blank.get(place % PAGE),
            None => None,
        }
    }
}

/// A copy of the list, which shares all pages. It takes time for each listed page. Want of memory is an error, and so are too many
/// copies.
impl<T: Drop> Clone for Slots<T> {
    ghost is_clone = { λ slots copy. copy ≡ slots };

    fn clone(&self) -> Result<Slots<T>, AllocError> {
        Ok(Slots {
            alloc: self.alloc,
            pages: copies(self.alloc, self.pages.as_slice())?,
            blank: self.blank.copy()?,
            count: self.count,
        })
    }
}

/// The page at the place.
fn page_at<T>(pages: &[FixedPage<T>], place: usize) -> Option<&FixedPage<T>>
    ensures { option_copied result ≡ slice_get pages.now place }
{
    pages.get(place)
}

/// Writes the element at the place of all elements, in a page that is listed by then.
///
/// # Errors
///
/// Want of memory. Nothing has changed then.
fn set_in<T: Again>(
    pages: &mut Vec<FixedPage<T>>,
    blank: &FixedPage<T>,
    count: usize,
    place: usize,
    element: T,
) -> Result<(), AllocError>
    requires whole { AreWhole (all_pages pages.old.items blank.now count) }
    requires within { place < length (elements (all_pages pages.old.items blank.now count)) }
    ensures whole { AreWhole (all_pages pages.new.items blank.now count) }
    ensures ok { OnOk result (elements (all_pages pages.new.items blank.now count)
        ≡ slice_set (elements (all_pages pages.old.items blank.now count)) place element) }
    ensures err { OnErr result (elements (all_pages pages.new.items blank.now count) ≡ elements (all_pages pages.old.items blank.now count)) }
{
    list_to(pages, blank, count, place / PAGE)?;
    pages[place / PAGE].set(place % PAGE, element)
}

/// Lists the pages up to this one. No element changes.
///
/// # Errors
///
/// Want of memory. All pages are as before then, too.
fn list_to<T: Drop>(
    pages: &mut Vec<FixedPage<T>>,
    blank: &FixedPage<T>,
    count: usize,
    page: usize,
) -> Result<(), AllocError>
    requires { page < length (all_pages pages.old.items blank.now count) }
    ensures same { all_pages pages.new.items blank.now count ≡ all_pages pages.old.items blank.now count }
    ensures listed { OnOk result (page < length pages.new.items) }
{
    while pages.len() <= page {
        pages.push(blank.copy()?)?;
    }
    Ok(())
}

/// A copy of the list of pages, which shares the pages.
fn copies<T: Drop>(alloc: Global, pages: &[FixedPage<T>]) -> Result<Vec<FixedPage<T>>, AllocError>
    ensures { IfOk result (λ made. made.items ≡ pages.now) }
{
    let mut made = Vec::with_capacity(alloc, pages.len())?;
    for page in pages {
        made.push(page.copy()?)?;
    }
    Ok(made)
}
