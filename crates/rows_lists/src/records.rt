//! What a loader has recorded, and copies of the classes, each of which finds the names of its own time and those that it
//! records itself.

use jl_hierarchy::Classes;
use jl_types::{ClassId, LoaderId};
use rows_files::{OBJECT, class};
use std::alloc::{AllocError, Global};

/// How many names loader 0 has recorded when a copy is made. Recent records are kept apart, 256 at the most.
const COUNTS: &[u32] = &[1, 255, 256, 257, 512, 513, 600];

/// How many names it has recorded in the end.
const MOST: u32 = 600;

/// A name that the copies record, each for a class of its own.
const OWN: &str = "Own";

/// The name of the class of this number.
fn name_of(alloc: Global, number: u32) -> Result<String, AllocError> {
    match number {
        0 => String::from_str(alloc, OBJECT),
        _ => format!(in alloc; "C{number}"),
    }
}

/// Whether loader 0 defines a class of the name, below Object, as the class of this number.
fn is_defined(alloc: Global, classes: &mut Classes, name: &str, number: u32) -> bool {
    match class(alloc, name, 33, (number > 0).then_some(OBJECT), &[], &[]) {
        Some(file) => {
            classes.define(alloc, LoaderId::new(0), file, 65_536).ok() == Some(ClassId::new(number))
        }
        None => false,
    }
}

/// Whether a copy is made and kept.
fn is_copied(alloc: Global, classes: &Classes, copies: &mut Vec<Classes>) -> bool {
    match classes.copy(alloc) {
        Ok(copy) => copies.push(copy).is_ok(),
        Err(_) => false,
    }
}

/// Whether all classes are defined, and a copy is made at each of the counts.
fn are_copied(alloc: Global, classes: &mut Classes, copies: &mut Vec<Classes>) -> bool {
    let mut from = 0;
    for count in COUNTS {
        for number in from..*count {
            let Ok(name) = name_of(alloc, number) else {
                return false;
            };
            if !is_defined(alloc, classes, &name, number) {
                return false;
            }
        }
        if !is_copied(alloc, classes, copies) {
            return false;
        }
        from = *count;
    }
    true
}

/// Whether each copy records a name of its own.
fn go_on(alloc: Global, copies: &mut [Classes]) -> bool {
    for (copy, count) in copies.iter_mut().zip(COUNTS) {
        if !is_defined(alloc, copy, OWN, *count) {
            return false;
        }
    }
    true
}

/// Whether loader 0 finds the classes of the numbers below the count, and none of the others.
fn finds(alloc: Global, classes: &Classes, count: u32) -> bool {
    for number in 0..MOST {
        let Ok(name) = name_of(alloc, number) else {
            return false;
        };
        let found = classes.lookup(LoaderId::new(0), name.as_bytes());
        if found != (number < count).then_some(ClassId::new(number)) {
            return false;
        }
    }
    true
}

/// Whether loader 0 has defined just the classes of the numbers below the count, each once and in the order in which they were recorded.
fn has_defined(alloc: Global, classes: &Classes, count: u32) -> bool {
    let Ok(own) = classes.own_classes(alloc, LoaderId::new(0)) else {
        return false;
    };
    let mut all = own.len() == count as usize;
    for (class, number) in own.as_slice().iter().zip(0..count) {
        all = all && *class == ClassId::new(number);
    }
    all
}

/// Whether each copy finds the classes of its own time and the one that it has defined itself, and has defined no others.
fn find_their_own(alloc: Global, copies: &[Classes]) -> bool {
    for (copy, count) in copies.iter().zip(COUNTS) {
        let own = copy.lookup(LoaderId::new(0), OWN.as_bytes());
        if !finds(alloc, copy, *count)
            || own != Some(ClassId::new(*count))
            || !has_defined(alloc, copy, count.saturating_add(1))
        {
            return false;
        }
    }
    true
}

/// Whether the classes and their copies find each their own: all classes are found in the end, and no name of the copies.
fn are_apart(alloc: Global, classes: &mut Classes, copies: &mut Vec<Classes>) -> bool {
    are_copied(alloc, classes, copies)
        && go_on(alloc, copies)
        && find_their_own(alloc, copies)
        && finds(alloc, classes, MOST)
        && classes.lookup(LoaderId::new(0), OWN.as_bytes()).is_none()
        && has_defined(alloc, classes, MOST)
}

/// Whether classes of which none is defined at first, and their copies, find each their own.
fn are_apart_at_first(alloc: Global) -> bool {
    let mut copies = Vec::new(alloc);
    match Classes::new(alloc) {
        Ok(mut classes) => are_apart(alloc, &mut classes, &mut copies),
        Err(_) => false,
    }
}

#[test]
fn shares_records(rt: HostRuntime) {
    assert!(rt; are_apart_at_first(rt.alloc()));
}
