//! Times classes by loader. Has loader 0 define the class files, in order. Asks of each class 32 times then what the loader finds by its
//! name, and whether another one is its ancestor, and copies all classes 64 times. Class files are read alone before, a batch at a time.

use crate::fill::{Takes, define_each};
use crate::read::read_each;
use crate::told::tell;
use jl_class::ClassFile;
use jl_hierarchy::Classes;
use jl_types::{ClassId, LoaderId, Place};
use std::alloc::Global;
use std::io;
use std::time::Instant;

/// How many classes are timed at a time.
const BATCH: usize = 3_000;

/// The most classes.
const MOST_CLASSES: u32 = 65_536;

/// How many questions of a kind are asked about each class.
const ROUNDS: u32 = 32;

/// How many copies are timed.
const COPIES: u32 = 64;

impl Takes for Classes {
    fn defines(&mut self, alloc: Global, file: ClassFile) -> bool {
        self.define(alloc, LoaderId::new(0), file, MOST_CLASSES)
            .is_ok()
    }

    fn requests(&mut self, _alloc: Global, _place: Place) -> bool {
        false
    }
}

/// How many classes loader 0 finds by name, one after another in each round.
fn find_each(classes: &Classes, count: u32) -> u64 {
    let mut yes = 0u64;
    for _ in 0..ROUNDS {
        for number in 0..count {
            let Some(row) = classes.class_at(ClassId::new(number)) else {
                continue;
            };
            let name = row.file().name().as_slice();
            if classes.lookup(LoaderId::new(0), name).is_some() {
                yes = yes.saturating_add(1);
            }
        }
    }
    yes
}

/// How many pairs are an ancestor, or the class itself, and a class, of each class with another one in each round.
fn relate_each(classes: &Classes, count: u32) -> u64 {
    let mut yes = 0u64;
    for round in 0..ROUNDS {
        for number in 0..count {
            let ancestor = ClassId::new(number.checked_shr(round).unwrap_or(0));
            if classes.is_ancestor(ancestor, ClassId::new(number)) {
                yes = yes.saturating_add(1);
            }
        }
    }
    yes
}

/// How many copies are made, one after another, each of which is let go.
fn copy_each(alloc: Global, classes: &Classes) -> u64 {
    let mut copies = 0u64;
    for _ in 0..COPIES {
        if classes.copy(alloc).is_ok() {
            copies = copies.saturating_add(1);
        }
    }
    copies
}

/// Times the reading of a batch, and then its reading and definition.
fn time_batch(rt: &HostRuntime, classes: &mut Classes, files: &[Vec<u8>]) -> io::Result<()> {
    let start = Instant::now(rt)?;
    tell(rt, "read", read_each(rt.alloc(), files), &start)?;
    let start = Instant::now(rt)?;
    let defined = define_each(rt.alloc(), classes, files);
    tell(rt, "read and defined", defined, &start)
}

/// Times the questions and the copies.
fn time_questions(rt: &HostRuntime, classes: &Classes) -> io::Result<()> {
    let count = u32::try_from(classes.class_count()).unwrap_or(u32::MAX);
    let start = Instant::now(rt)?;
    tell(rt, "found", find_each(classes, count), &start)?;
    let start = Instant::now(rt)?;
    tell(rt, "related", relate_each(classes, count), &start)?;
    let start = Instant::now(rt)?;
    tell(rt, "copies", copy_each(rt.alloc(), classes), &start)
}

/// Measures all of it.
pub(crate) fn measure(rt: &HostRuntime, files: &[Vec<u8>]) -> io::Result<()> {
    let mut classes = Classes::new(rt.alloc())?;
    for batch in files.chunks(BATCH) {
        time_batch(rt, &mut classes, batch)?;
    }
    time_questions(rt, &classes)
}
