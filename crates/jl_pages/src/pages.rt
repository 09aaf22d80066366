//! The pages of a list.

ghost use Rattle.std.specs.Prelude.{◌≡◌, ◌++◌, length, IfOk};
ghost use Rattle.jl_pages.specs.ForProofs.Pages.{elements, AreFull};

use crate::again::Again;
use std::alloc::{AllocError, Global};
use std::marker::Model;
use std::mem;
use std::sync::Arc;

/// How many elements a full page has.
pub(crate) const PAGE: usize = 64;

/// Elements that several lists share. A clause sees them.
#[derive(Drop)]
pub(crate) struct Page<T> {
    kept: Arc<Vec<T>>,
}

impl<T> Model for Page<T> {
    ghost use Rattle.std.specs.Prelude.{List};

    ghost Value = { List T };

    ghost view = { λ p. p.kept.value.items };
}

impl<T> Page<T> {
    /// The elements.
    pub(crate) fn as_slice(&self) -> &[T]
        ensures { result.now ≡ self.now }
    {
        self.kept.as_slice()
    }

    /// A copy of the page, which shares its elements. Too many copies are an error.
    fn copy(&self) -> Result<Page<T>, AllocError>
        ensures { IfOk result (λ copy. copy ≡ self.now) }
    {
        Ok(Page {
            kept: Arc::try_clone(&self.kept)?,
        })
    }
}

/// Makes the last page, which has to be full, the last of the full ones, and begins an empty one. If there is no memory for it,
/// nothing has changed.
pub(crate) fn close<T: Drop>(
    alloc: Global,
    full: &mut Vec<Page<T>>,
    last: &mut Vec<T>,
) -> Result<(), AllocError>
    requires { length last.old.items ≡ 64 }
    ensures items { elements full.new.items ++ last.new.items ≡ elements full.old.items ++ last.old.items }
    ensures full { AreFull full.old.items → AreFull full.new.items }
{
    full.reserve(1)?;
    let fresh = Vec::with_capacity(alloc, PAGE)?;
    let page = mem::replace(last, fresh);
    match Arc::new(alloc, page) {
        Ok(kept) => {
            full.push_reserved(Page { kept });
            Ok(())
        }
        Err(failed) => {
            *last = failed.value;
            Err(AllocError)
        }
    }
}

/// A copy of the list of pages, which shares the pages.
pub(crate) fn copy_pages<T: Drop>(
    alloc: Global,
    pages: &[Page<T>],
) -> Result<Vec<Page<T>>, AllocError>
    ensures { IfOk result (λ made. made.items ≡ pages.now) }
{
    let mut made = Vec::with_capacity(alloc, pages.len())?;
    for page in pages {
        made.push(page.copy()?)?;
    }
    Ok(made)
}

/// Copies of the elements, in order.
pub(crate) fn copy_items<T: Again>(alloc: Global, items: &[T]) -> Result<Vec<T>, AllocError>
    ensures { IfOk result (λ made. made.items ≡ items.now) }
{
    let mut made = Vec::with_capacity(alloc, items.len())?;
    for item in items {
        made.push(item.again(alloc)?)?;
    }
    Ok(made)
}
