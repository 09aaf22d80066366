//! What no clause says: which elements' bytes are there.

use crate::{Journal, Keep, Share};
use std::alloc::{AllocError, Global};

impl Keep for u32 {
    ghost use Rattle.std.specs.Prelude.{◌==◌, ◌%◌};

    ghost keeps = { λ number. number % 2 == 0 };

    fn is_kept(&self) -> bool {
        *self % 2 == 0
    }
}

impl Share for u32 {
    fn share(&self) -> Result<u32, AllocError> {
        Ok(*self)
    }
}

/// Numbers that are pushed in batches, and what is there then. Between each two batches all but the last number are forgotten.
#[derive(Clone, Copy, Debug)]
struct Row {
    batches: &'static [&'static [u32]],
    len: u64,
    kept: &'static [u32],
    /// From each place.
    from: &'static [Option<&'static [u32]>],
    /// The last one, and none after it.
    next: (u64, Option<u32>),
}

/// Even numbers are kept.
const ROWS: &[Row] = &[
    // Nothing was forgotten, so all are there.
    Row {
        batches: &[&[1, 2, 3]],
        len: 3,
        kept: &[1, 2, 3],
        from: &[
            Some(&[1, 2, 3]),
            Some(&[2, 3]),
            Some(&[3]),
            Some(&[]),
            Some(&[]),
        ],
        next: (2, Some(3)),
    },
    Row {
        batches: &[&[]],
        len: 0,
        kept: &[],
        from: &[Some(&[])],
        next: (0, None),
    },
    // The last one is there, kept or not.
    Row {
        batches: &[&[1, 2, 3, 4, 5], &[]],
        len: 5,
        kept: &[2, 4, 5],
        from: &[None, None, None, None, Some(&[5]), Some(&[])],
        next: (4, Some(5)),
    },
    Row {
        batches: &[&[2, 4], &[]],
        len: 2,
        kept: &[2, 4],
        from: &[None, Some(&[4]), Some(&[])],
        next: (1, Some(4)),
    },
    Row {
        batches: &[&[1], &[], &[]],
        len: 1,
        kept: &[1],
        from: &[Some(&[1]), Some(&[])],
        next: (0, Some(1)),
    },
    Row {
        batches: &[&[], &[], &[1]],
        len: 1,
        kept: &[1],
        from: &[Some(&[1]), Some(&[])],
        next: (1, None),
    },
    // What comes after that is there, and is forgotten as the others were.
    Row {
        batches: &[&[1, 2, 3, 4, 5], &[6, 7]],
        len: 7,
        kept: &[2, 4, 5, 6, 7],
        from: &[
            None,
            None,
            None,
            None,
            Some(&[5, 6, 7]),
            Some(&[6, 7]),
            Some(&[7]),
            Some(&[]),
        ],
        next: (6, Some(7)),
    },
    Row {
        batches: &[&[1, 2, 3, 4, 5], &[6, 7], &[]],
        len: 7,
        kept: &[2, 4, 6, 7],
        from: &[None, None, None, None, None, None, Some(&[7]), Some(&[])],
        next: (7, None),
    },
];

/// Pushes all of them, and forgets between each two batches.
fn fill(journal: &mut Journal<u32>, batches: &[&[u32]]) -> Result<(), AllocError> {
    let mut is_first = true;
    for batch in batches {
        if !is_first {
            journal.forget();
        }
        is_first = false;
        for number in *batch {
            journal.push(*number)?;
        }
    }
    Ok(())
}

/// Whether there is what the row says.
fn shows(journal: &Journal<u32>, row: &Row) -> bool {
    for (place, rest) in row.from.iter().enumerate() {
        if journal.kept_from(place as u64) != *rest {
            return false;
        }
    }
    journal.len() == row.len
        && journal.kept() == row.kept
        && journal.next_after(row.next.0).copied() == row.next.1
}

/// Whether a journal and its copy are as the row says.
fn is_so(alloc: Global, row: &Row) -> bool {
    let mut journal = Journal::new(alloc);
    if fill(&mut journal, row.batches).is_err() || !shows(&journal, row) {
        return false;
    }
    match journal.copy(alloc) {
        Ok(copy) => shows(&copy, row),
        Err(_) => false,
    }
}

#[test]
fn what_is_there(rt: HostRuntime) {
    for row in ROWS {
        assert!(rt; is_so(rt.alloc(), row), "{row:?}");
    }
}
