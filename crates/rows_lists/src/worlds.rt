//! Worlds of many calls of one method on one class.

use crate::numbered::add;
use jl_class::ClassFile;
use jl_relink::{Snapshot, World};
use jl_types::{ClassId, LoaderId, Place, SiteNo};
use rows_files::{CallRow, MethodRow, OBJECT, calling, class};
use std::alloc::{AllocError, Global};

/// How many calls there are.
pub(crate) const SITES: u32 = 256;

/// The site that is requested after these, at a place without a call.
pub(crate) const WITHOUT_LINK: u32 = 256;

/// How many events each snapshot has.
const SERIAL: u64 = 7;

const F: [MethodRow; 1] = [("f", "()V", 1)];

const ABSTRACT_F: [MethodRow; 1] = [("f", "()V", 1025)];

/// How the calls' receivers stand to each other.
#[derive(Clone, Copy)]
pub(crate) enum Shape {
    /// Each is a direct subclass of A, and declares no method.
    Flat,
    /// Each is a direct subclass of A, with an f of its own.
    Own,
    /// Each is a subclass of the one before, and declares no method.
    Chain,
    /// Each is a direct subclass of A, and declares no method; an abstract subclass has an f of its own.
    Beside,
    /// Each implements I, with an f of its own.
    Implementers,
}

/// Defines the class by loader 0, if there is one.
fn define(alloc: Global, world: &mut World, file: Option<ClassFile>) -> bool {
    match file {
        Some(file) => world
            .classes
            .define(alloc, LoaderId::new(0), file, 65_536)
            .is_ok(),
        None => false,
    }
}

/// The receiver of this number, from 1 on.
fn receiver(alloc: Global, shape: Shape, number: u32) -> Option<ClassFile> {
    let Ok(name) = format!(in alloc; "C{number}") else {
        return None;
    };
    match shape {
        Shape::Flat | Shape::Beside => class(alloc, &name, 33, Some("A"), &[], &[]),
        Shape::Own => class(alloc, &name, 33, Some("A"), &[], &F),
        Shape::Chain => below_the_one_before(alloc, &name, number),
        Shape::Implementers => class(alloc, &name, 33, Some(OBJECT), &["I"], &F),
    }
}

/// The receiver of this number in a chain.
fn below_the_one_before(alloc: Global, name: &str, number: u32) -> Option<ClassFile> {
    if number == 1 {
        return class(alloc, name, 33, Some("A"), &[], &[]);
    }
    match format!(in alloc; "C{}", number.saturating_sub(1)) {
        Ok(before) => class(alloc, name, 33, Some(&before), &[], &[]),
        Err(_) => None,
    }
}

/// A class that makes the calls, each of the method f of class A, or of interface I.
fn caller(alloc: Global, shape: Shape) -> Option<ClassFile> {
    let call = match shape {
        Shape::Implementers => CallRow::Interface("I", "f"),
        _ => CallRow::Virtual("A", "f"),
    };
    match vec![in alloc; call; SITES as usize] {
        Ok(calls) => calling(alloc, "X", 33, OBJECT, &[], &calls, &[]),
        Err(_) => None,
    }
}

/// Defines the classes above the receivers, and class 3, which makes the calls.
fn define_callers(alloc: Global, world: &mut World, shape: Shape) -> bool {
    define(alloc, world, class(alloc, OBJECT, 33, None, &[], &[]))
        && define(
            alloc,
            world,
            class(alloc, "I", 1537, Some(OBJECT), &[], &ABSTRACT_F),
        )
        && define(alloc, world, class(alloc, "A", 33, Some(OBJECT), &[], &F))
        && define(alloc, world, caller(alloc, shape))
}

/// Defines classes, so that there are so many receivers. A is one of those of its own method.
fn define_receivers(alloc: Global, world: &mut World, shape: Shape, receivers: u32) -> bool {
    let more = match shape {
        Shape::Implementers => receivers,
        _ => receivers.saturating_sub(1),
    };
    let mut all = match shape {
        Shape::Beside => define(alloc, world, class(alloc, "B", 1057, Some("A"), &[], &F)),
        _ => true,
    };
    for number in 0..more {
        all = all
            && define(
                alloc,
                world,
                receiver(alloc, shape, number.saturating_add(1)),
            );
    }
    all
}

/// Requests the calls, and a place that has none.
fn request(alloc: Global, world: &mut World, shape: Shape) -> bool {
    let size = match shape {
        Shape::Implementers => 5u32,
        _ => 3,
    };
    let mut all = true;
    for number in 0..SITES {
        all = all && request_at(alloc, world, number.saturating_mul(size));
    }
    all && request_at(alloc, world, u32::MAX)
}

/// Requests the place of this pc.
fn request_at(alloc: Global, world: &mut World, pc: u32) -> bool {
    let place = Place {
        class: ClassId::new(3),
        method: 0,
        pc,
    };
    add(alloc, &mut world.places, place).is_ok()
}

/// A snapshot in which each of the sites 0 to 255 has so many receivers, if there is memory for it.
pub(crate) fn snapshot(alloc: Global, shape: Shape, receivers: u32) -> Option<Snapshot> {
    let mut world = World::new(alloc).ok()?;
    if define_callers(alloc, &mut world, shape)
        && define_receivers(alloc, &mut world, shape, receivers)
        && request(alloc, &mut world, shape)
    {
        return Some(Snapshot::new(world, SERIAL));
    }
    None
}

/// The sites of so many numbers, from 0 on.
pub(crate) fn sites(alloc: Global, count: u32) -> Result<Vec<SiteNo>, AllocError> {
    let mut all = Vec::new(alloc);
    for number in 0..count {
        all.push(SiteNo::new(number))?;
    }
    Ok(all)
}
