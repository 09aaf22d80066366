//! Values by number, and places by their numbers.

use crate::pages::Number;
use jl_numbered::Numbered;
use jl_places::Places;
use jl_types::{ClassId, Place};
use std::alloc::{AllocError, Global};
use std::process::Abort;

/// The first two numbers that have values, from this one on.
fn next_two(values: &Numbered<Number>, from: usize) -> (Option<usize>, Option<usize>) {
    let Some((first, _)) = values.next(from) else {
        return (None, None);
    };
    match values.next(first.saturating_add(1)) {
        Some((second, _)) => (Some(first), Some(second)),
        None => (Some(first), None),
    }
}

/// Whether the number has this value.
fn has(values: &Numbered<Number>, number: usize, value: u32) -> bool {
    values.get(number) == Some(&Number(value))
}

/// Asserts that a copy keeps what it has, while the values that it is a copy of change.
fn assert_apart(
    rt: &(impl Abort + AllocGlobal),
    values: &mut Numbered<Number>,
    copy: &Numbered<Number>,
) -> Result<(), AllocError> {
    assert!(rt; values.remove(3) == Some(Number(30)));
    assert!(rt; values.remove(3).is_none() && values.remove(9_000).is_none());
    values.insert(0, Number(2))?;
    assert!(rt; values.len() == 2 && has(values, 0, 2) && values.get(3).is_none());
    assert!(rt; copy.len() == 3 && has(copy, 0, 1) && has(copy, 3, 30));
    Ok(())
}

#[test]
fn keeps_values_by_number(rt: HostRuntime) -> Result<(), AllocError> {
    let mut values = Numbered::new(rt.alloc());
    assert!(&rt; values.len() == 0 && values.get(0).is_none() && values.next(0).is_none());
    values.reserve(800)?;
    values.insert(700, Number(7))?;
    values.insert(3, Number(30))?;
    values.insert(0, Number(1))?;
    assert!(&rt; values.len() == 3 && has(&values, 700, 7) && values.get(4).is_none());
    assert!(&rt; next_two(&values, 0) == (Some(0), Some(3)));
    assert!(&rt; next_two(&values, 4) == (Some(700), None));
    assert!(&rt; next_two(&values, 701) == (None, None));
    let copy = values.copy(rt.alloc())?;
    assert_apart(&rt, &mut values, &copy)
}

/// How many places there may be.
const MOST: usize = 10_000;

/// The place of a pc in a method of a class.
fn place(class: u32, method: u16, pc: u32) -> Place {
    Place {
        class: ClassId::new(class),
        method,
        pc,
    }
}

/// Adds the place, unless it is there or there are too many.
pub(crate) fn add(alloc: Global, places: &mut Places, place: Place) -> Result<(), AllocError> {
    if places.len() < MOST && places.get_index_of(&place).is_none() {
        places.push(alloc, place)?;
    }
    Ok(())
}

/// Adds places of three classes, two of which share a part of the look-up.
fn add_some(alloc: Global, places: &mut Places) -> Result<(), AllocError> {
    for pc in 0..700 {
        add(alloc, places, place(1, 2, pc))?;
        add(alloc, places, place(1_025, 2, pc))?;
        add(alloc, places, place(1, 3, pc))?;
        add(alloc, places, place(1, 2, pc))?;
    }
    Ok(())
}

/// Whether the place has this number, and the number this place.
fn stands(places: &Places, number: usize, place: Place) -> bool {
    places.get_index_of(&place) == Some(number) && places.get_index(number) == Some(&place)
}

#[test]
fn finds_places_by_their_parts(rt: HostRuntime) -> Result<(), AllocError> {
    let mut places = Places::new(rt.alloc())?;
    assert!(&rt; places.is_empty() && places.get_index(0).is_none());
    add_some(rt.alloc(), &mut places)?;
    assert!(&rt; places.len() == 2_100 && stands(&places, 0, place(1, 2, 0)));
    assert!(&rt;
        stands(&places, 1, place(1_025, 2, 0)) && stands(&places, 2_099, place(1, 3, 699))
    );
    assert!(&rt;
        places.get_index_of(&place(2, 2, 0)).is_none() && places.get_index(2_100).is_none()
    );
    let copy = places.copy(rt.alloc())?;
    add(rt.alloc(), &mut places, place(7, 0, 1))?;
    assert!(&rt; stands(&places, 2_100, place(7, 0, 1)) && places.len() == 2_101);
    assert!(&rt; copy.len() == 2_100 && copy.get_index_of(&place(7, 0, 1)).is_none());
    Ok(())
}
