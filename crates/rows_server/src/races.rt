//! Rows of two threads: once one of them knows what the other one did, no call runs the method of before.

use crate::deeds::Class::*;
use crate::deeds::Deed::*;
use crate::deeds::ONE_SITE;
use crate::scripts::Act::*;
use crate::scripts::Race;
use crate::scripts::Says::*;

/// The first one defines C below A. The other one misses then, and runs C's method after a fresh install.
const DEFINITION: &Race = &Race {
    before: ONE_SITE,
    first: &[Does(Define(0, C)), Tells],
    second: &[
        Hears,
        Calls(0, Some(4), Misses),
        Does(Install(1)),
        Calls(0, Some(4), Runs(4)),
    ],
};

/// The first one retires loader 1, which has a class C 4 below A, and a class M 5 with an installed site 1. The other one misses at site 1,
/// which has no fresh link, and misses at site 0, which then runs A's method.
const RETIREMENT: &Race = &Race {
    before: &[
        Define(0, Object),
        Define(0, A),
        Define(0, B),
        Define(0, M),
        Request(3, 0),
        Loader,
        Delegate(1, Object),
        Delegate(1, A),
        Define(1, C),
        Define(1, M),
        Request(5, 0),
        Install(1),
        Install(2),
    ],
    first: &[Does(Retire(1)), Tells],
    second: &[
        Hears,
        Calls(1, Some(1), Misses),
        Cannot(Install(2)),
        Calls(0, Some(4), Misses),
        Does(Install(1)),
        Calls(0, Some(1), Runs(1)),
    ],
};

/// The race about the retirement, or about the definition.
pub(crate) fn race_of(retires: bool) -> &'static Race {
    if retires { RETIREMENT } else { DEFINITION }
}
