//! Farms over lines whose reader or writer fails: no last line is written.

use crate::devices::Pieces;
use jl_cli::{Counted, FailAt, FarmLineFault, LineFault, run_farm};

/// Two lines that are no commands.
const INPUT: &[u8] = b"{\n[\n";

/// Their answers, each of 23 bytes, and the last line.
const OUTPUT: &[u8] =
    b"{\"error\":\"BadCommand\"}\n{\"error\":\"BadCommand\"}\n{\"links\":[],\"reports\":[]}\n";

/// The read of the farm that fails and the write, 0 for none, and how many of the bytes it writes. A read gives a byte, and the fifth one
/// finds the end; each answer is written at once, and so is the last line.
const FAILING: [(u64, u64, usize); 10] = [
    (1, 0, 0),
    (2, 0, 0),
    (3, 0, 23),
    (4, 0, 23),
    (5, 0, 46),
    (6, 0, OUTPUT.len()),
    (0, 1, 0),
    (0, 2, 23),
    (0, 3, 46),
    (0, 4, OUTPUT.len()),
];

#[test]
fn ends_where_a_device_fails(rt: HostRuntime) {
    for (read, write, count) in FAILING {
        let pieces = Pieces {
            most: 1,
            left: INPUT,
        };
        let mut reader = FailAt::new(Counted::new(pieces), read);
        let mut writer = FailAt::new(Counted::new(Vec::new(rt.alloc())), write);
        let outcome = run_farm(&rt, rt.alloc(), 1, &mut reader, &mut writer);
        let written = writer.into_inner().into_inner();
        let ended = if count == OUTPUT.len() {
            Ok(())
        } else {
            Err(FarmLineFault::Line(LineFault::Device))
        };
        assert!(rt; outcome == ended, "{read} {write}");
        assert!(rt;
            Some(written.as_slice()) == OUTPUT.get(..count),
            "{read} {write}"
        );
    }
}
