//! Elements by their places.

ghost use Rattle.std.specs.Prelude.{◌≡◌, ◌≤◌, ◌++◌, length, take, drop, filter, vec_capacity, IfOk};

use crate::element::{Keep, Share};
use crate::past::Past;
use std::alloc::{AllocError, Global};

/// These elements from the place on.
pub(crate) fn from_place<T>(elements: &[T], place: usize) -> &[T]
    requires { place ≤ length elements.now }
    ensures { result.now ≡ drop place elements.now }
{
    &elements[place..]
}

/// What is past, and these elements after it. Takes no memory.
pub(crate) fn and_all<T>(past: &Past<T>, elements: &[T]) -> Past<T>
    ensures { result.items ≡ past.now.items ++ elements.now }
{
    let mut all = past.again();
    for element in elements {
        all = all.and(element);
    }
    all
}

/// Drops the elements from the place on that aren't kept, and says how many are left. All before that place are kept. Takes no memory.
pub(crate) fn keep_from<T: Keep>(elements: &mut Vec<T>, place: usize) -> usize
    requires within { place ≤ length elements.old.items }
    requires kept { take place elements.old.items ≡ filter T.keeps (take place elements.old.items) }
    ensures items { elements.new.items ≡ filter T.keeps elements.old.items }
    ensures len { result ≡ length elements.new.items }
    ensures capacity { vec_capacity elements.new ≡ vec_capacity elements.old }
{
    let mut kept = place;
    for next in place..elements.len() {
        if elements[next].is_kept() {
            elements.swap(kept, next);
            kept += 1;
        }
    }
    elements.truncate(kept);
    kept
}

/// The elements in order, shared with one owner more.
pub(crate) fn shared<T: Share>(alloc: Global, elements: &[T]) -> Result<Vec<T>, AllocError>
    ensures { IfOk result (λ copy. copy.items ≡ elements.now) }
{
    let mut copy = Vec::with_capacity(alloc, elements.len())?;
    for element in elements {
        copy.push(element.share()?)?;
    }
    Ok(copy)
}
