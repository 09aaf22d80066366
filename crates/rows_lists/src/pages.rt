//! Lists in pages, and their copies.

use jl_pages::{Again, Paged};
use std::alloc::{AllocError, Global};
use std::process::Abort;

/// A number that can be had once more.
#[derive(Clone, Copy, Debug, PartialEq, Eq, Drop)]
pub(crate) struct Number(pub(crate) u32);

impl Again for Number {
    fn again(&self, _alloc: Global) -> Result<Number, AllocError> {
        Ok(*self)
    }
}

/// How many numbers there may be.
const MOST: usize = 1_000;

/// Adds the number, unless there are too many.
fn add(alloc: Global, list: &mut Paged<Number>, number: u32) -> Result<(), AllocError> {
    list.reserve(alloc)?;
    if list.len() < MOST {
        list.push_reserved(Number(number));
    }
    Ok(())
}

/// Adds so many numbers from this one on.
fn add_all(
    alloc: Global,
    list: &mut Paged<Number>,
    first: u32,
    count: u32,
) -> Result<(), AllocError> {
    for step in 0..count {
        add(alloc, list, first.wrapping_add(step))?;
    }
    Ok(())
}

/// Places on both sides of the ends of pages.
const PLACES: &[usize] = &[0, 1, 62, 63, 64, 65, 127, 128, 191, 192, 198, 199];

/// Whether the list has this number at this place.
fn has(list: &Paged<Number>, place: usize, number: u32) -> bool {
    list.get(place) == Some(&Number(number))
}

/// Whether the list has its place's number at each of these places, and 200 numbers.
fn has_numbers(list: &Paged<Number>) -> bool {
    for place in PLACES {
        if !has(list, *place, *place as u32) {
            return false;
        }
    }
    list.len() == 200 && list.get(200).is_none()
}

/// Asserts that a copy goes on by itself, and so does the list that it is a copy of.
fn assert_apart(
    rt: &(impl Abort + AllocGlobal),
    list: &mut Paged<Number>,
    copy: &mut Paged<Number>,
) -> Result<(), AllocError> {
    assert!(rt; has_numbers(copy));
    add_all(rt.alloc(), copy, 1_000, 100)?;
    assert!(rt; has_numbers(list));
    assert!(rt; copy.len() == 300 && has(copy, 199, 199));
    assert!(rt; has(copy, 200, 1_000) && has(copy, 299, 1_099));
    add(rt.alloc(), list, 7)?;
    assert!(rt; has(list, 200, 7) && has(copy, 200, 1_000));
    Ok(())
}

/// Asserts that the list, which is a new one, is filled and copied.
fn assert_filled(
    rt: &(impl Abort + AllocGlobal),
    list: &mut Paged<Number>,
) -> Result<(), AllocError> {
    assert!(rt; list.is_empty() && list.get(0).is_none());
    add(rt.alloc(), list, 0)?;
    assert!(rt; !list.is_empty());
    add_all(rt.alloc(), list, 1, 199)?;
    assert!(rt; has_numbers(list) && list.len() > 0 && *list.at(0) == Number(0));
    let mut copy = list.copy(rt.alloc())?;
    assert_apart(rt, list, &mut copy)
}

#[test]
fn shares_pages(rt: HostRuntime) -> Result<(), AllocError> {
    let mut list = Paged::new(rt.alloc());
    assert_filled(&rt, &mut list)
}
