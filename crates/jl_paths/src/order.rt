//! An order in which the parents of a class file come before it.

use crate::files::Found;
use indexmap::IndexMap;
use std::alloc::{AllocError, Global};
use std::mem;

/// A file whose parents are visited, and how many of them were.
#[derive(Clone, Copy)]
struct Visit {
    place: usize,
    parents: usize,
}

/// Files, and the order that is made of them, in which each comes after its parents.
struct Order<'a> {
    files: &'a [Found],
    /// The first file of each name.
    places: IndexMap<&'a [u8], usize>,
    /// Whether each file is ordered, or some file above it waits for that.
    seen: Vec<bool>,
    ordered: Vec<usize>,
}

/// Written out, so that what drops one makes one call of it and doesn't take apart what it holds.
impl<'a> Drop for Order<'a> {
    fn drop(self) {
        let Order {
            files: _files,
            places: _places,
            seen: _seen,
            ordered: _ordered,
        } = self;
    }
}

impl<'a> Order<'a> {
    /// No file is ordered.
    fn new(alloc: Global, files: &'a [Found]) -> Result<Self, AllocError> {
        let mut places = IndexMap::new(alloc);
        for (place, one) in files.iter().enumerate() {
            let name = one.file.name().as_slice();
            if places.get(name).is_none() {
                places.insert(name, place)?;
            }
        }
        let seen = vec![in alloc; false; files.len()]?;
        Ok(Order {
            files,
            places,
            seen,
            ordered: Vec::new(alloc),
        })
    }

    /// Orders the file, after its parents.
    fn add(&mut self, alloc: Global, place: usize) -> Result<(), AllocError> {
        let mut visits = Vec::new(alloc);
        if self.is_new(place) {
            visits.push(Visit { place, parents: 0 })?;
        }
        for _ in 0..u64::MAX {
            let Some(visit) = visits.pop() else {
                break;
            };
            self.go_on(visit, &mut visits)?;
        }
        Ok(())
    }

    /// Visits the next parent, or orders the file if there is none.
    fn go_on(&mut self, visit: Visit, visits: &mut Vec<Visit>) -> Result<(), AllocError> {
        let Some(name) = self.parent(&visit) else {
            return Ok(self.ordered.push(visit.place)?);
        };
        let found = self.places.get(name).copied();
        visits.push(Visit {
            place: visit.place,
            parents: visit.parents.saturating_add(1),
        })?;
        match found {
            Some(place) if self.is_new(place) => Ok(visits.push(Visit { place, parents: 0 })?),
            _ => Ok(()),
        }
    }

    /// The name of the parent that is visited next: the superclass, and then the superinterfaces.
    fn parent(&self, visit: &Visit) -> Option<&'a [u8]> {
        let file = &self.files.get(visit.place)?.file;
        match visit.parents.checked_sub(1) {
            None => match file.superclass() {
                Some(name) => Some(name.as_slice()),
                // java/lang/Object, which isn't new any more.
                None => Some(file.name().as_slice()),
            },
            Some(place) => Some(file.interfaces().get(place)?.as_slice()),
        }
    }

    /// Whether the file wasn't seen before. It was, afterwards.
    fn is_new(&mut self, place: usize) -> bool {
        match self.seen.get_mut(place) {
            Some(seen) => !mem::replace(seen, true),
            None => false,
        }
    }
}

/// The places of the files: those of parents come first. Of a circle of parents one comes first.
pub(crate) fn parents_first(alloc: Global, files: &[Found]) -> Result<Vec<usize>, AllocError> {
    let mut order = Order::new(alloc, files)?;
    for place in 0..files.len() {
        order.add(alloc, place)?;
    }
    Ok(mem::replace(&mut order.ordered, Vec::new(alloc)))
}
