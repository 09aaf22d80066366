//! A core whose limit of sites is none that 16 bits count.

use jl_class::ClassFile;
use jl_core::Core;
use jl_types::{ClassId, Event, LoaderId, Made, Place, Refusal, SiteNo};
use rows_files::{CallRow, OBJECT, calling, class};
use std::alloc::Global;

/// How many calls of three bytes a method has at most, with a return after them.
const CALLS: u32 = 21_844;

/// One site more than 16 bits count.
const LIMIT: u32 = 65_537;

/// The classes after java/lang/Object, whose methods make so many calls each: 87,376 in all.
const NAMES: [&str; 4] = ["C", "D", "E", "F"];

/// Whether there is a class file, and loader 0 defines the class.
fn is_defined(alloc: Global, core: &mut Core, file: Option<ClassFile>) -> bool {
    match file {
        Some(file) => core
            .apply(alloc, Event::Define(LoaderId::new(0), file))
            .is_ok(),
        None => false,
    }
}

/// The request of the n-th of all calls.
fn request(n: u32) -> Event {
    Event::Request(Place {
        class: ClassId::new((n / CALLS).wrapping_add(1)),
        method: 0,
        pc: (n % CALLS).wrapping_mul(3),
    })
}

/// Whether the request of each of the first calls is answered its number, and that of the next one is refused, since there are enough.
fn are_numbered(alloc: Global, core: &mut Core) -> bool {
    for n in 0..LIMIT {
        let Ok(reply) = core.apply(alloc, request(n)) else {
            return false;
        };
        if reply.made != Made::Site(SiteNo::new(n)) {
            return false;
        }
    }
    matches!(core.apply(alloc, request(LIMIT)), Err(Refusal::SitesFull))
}

/// Whether a core of this limit has all classes, numbers so many sites, and refuses one more.
fn is_full(alloc: Global, calls: &[CallRow]) -> bool {
    let Ok(mut core) = Core::new(alloc, LIMIT) else {
        return false;
    };
    let mut all = is_defined(alloc, &mut core, class(alloc, OBJECT, 33, None, &[], &[]));
    for name in NAMES {
        let file = calling(alloc, name, 33, OBJECT, &[], calls, &[]);
        all = is_defined(alloc, &mut core, file) && all;
    }
    all && are_numbered(alloc, &mut core)
}

#[test]
fn numbers_more_sites_than_16_bits(rt: HostRuntime) {
    let calls = vec![in rt.alloc(); CallRow::Static("C", "m"); CALLS as usize];
    let is_so = match calls {
        Ok(calls) => is_full(rt.alloc(), &calls),
        Err(_) => false,
    };
    assert!(rt; is_so);
}
