//! Runs over readers and writers that give and take little, or fail at any call.

use crate::devices::{Pieces, SlowWriter};
use jl_cli::{Counted, FailAt, LineFault, Mode, run_lines};
use std::alloc::Global;

/// Lines with their answers, each answer ended by a newline, and how many bytes a read gives and a write takes if reads fail.
struct Script {
    mode: Mode,
    lines: &'static str,
    answers: &'static str,
    piece: usize,
    taken: usize,
}

/// Class files that are none, of which the last line has no newline; and commands: a link that is installed, that a new receiver drops,
/// and that is stale then.
const SCRIPTS: [Script; 2] = [
    Script {
        mode: Mode::Scan,
        lines: "cafebabf\n0\n00",
        answers: "{\"refused\":\"BadMagic\"}\n{\"error\":\"BadCommand\"}\n{\"refused\":\"Truncated\"}\n",
        piece: 1,
        taken: 7,
    },
    Script {
        mode: Mode::Run,
        lines: r#"{"do":"define","loader":0,"sketch":{"name":"java/lang/Object","flags":33}}
{"do":"define","loader":0,"sketch":{"name":"A","super":"java/lang/Object","flags":33,"methods":[{"name":"f","type":"()V","flags":1}]}}
{"do":"define","loader":0,"sketch":{"name":"B","super":"A","flags":33}}
{"do":"define","loader":0,"sketch":{"name":"M","super":"java/lang/Object","flags":33,"methods":[{"name":"run","type":"()V","flags":9,"calls":[{"kind":"invokevirtual","of":"A","name":"f","type":"()V"}]}]}}
{"do":"request","class":3,"method":0,"pc":0}
{"do":"prepare","sites":[0]}
{"do":"install","prepared":0}
{"do":"define","loader":0,"sketch":{"name":"C","super":"A","flags":33,"methods":[{"name":"f","type":"()V","flags":1}]}}
{"do":"call","site":0,"recv":4}
{"do":"install","prepared":0}
"#,
        answers: r#"{"class":0,"dropped":[]}
{"class":1,"dropped":[]}
{"class":2,"dropped":[]}
{"class":3,"dropped":[]}
{"dropped":[],"site":0}
{"prepared":0,"rows":[[0,{"direct":{"run":[1,0]}}]]}
{"dropped":[]}
{"class":4,"dropped":[0]}
{"run":[4,0]}
{"present":{"kind":"virtual","table":[[1,{"run":[1,0]}],[2,{"run":[1,0]}],[4,{"run":[4,0]}]]},"refused":"Stale","site":0}
"#,
        piece: 16,
        taken: usize::MAX,
    },
];

/// How many bytes a read gives and a write takes, and which read and which write fails, 0 for none.
#[derive(Clone, Copy)]
struct Way {
    given: usize,
    taken: usize,
    failing_read: u64,
    failing_write: u64,
}

/// A run by one byte a read and one a write: no read or write fails.
const BYTES: Way = Way {
    given: 1,
    taken: 1,
    failing_read: 0,
    failing_write: 0,
};

/// How many newlines there are.
fn newlines(bytes: &[u8]) -> usize {
    let mut count: usize = 0;
    for byte in bytes {
        if *byte == b'\n' {
            count = count.saturating_add(1);
        }
    }
    count
}

/// The first so many lines of a text.
fn first_lines(text: &[u8], count: usize) -> &[u8] {
    let mut left = count;
    for (at, byte) in text.iter().enumerate() {
        if left == 0 {
            return &text[..at];
        }
        if *byte == b'\n' {
            left -= 1;
        }
    }
    text
}

/// Whether a run of the script ends so, with the answers to the first so many lines.
fn ends_so(
    alloc: Global,
    script: &Script,
    way: Way,
    outcome: Result<(), LineFault>,
    count: usize,
) -> bool {
    let pieces = Pieces {
        most: way.given,
        left: script.lines.as_bytes(),
    };
    let mut reader = FailAt::new(Counted::new(pieces), way.failing_read);
    let slow = SlowWriter {
        most: way.taken,
        written: Vec::new(alloc),
    };
    let mut writer = FailAt::new(Counted::new(slow), way.failing_write);
    let ended = run_lines(alloc, script.mode, &mut reader, &mut writer);
    let written = writer.into_inner().into_inner().written;
    ended == outcome && written.as_slice() == first_lines(script.answers.as_bytes(), count)
}

#[test]
fn goes_byte_by_byte(rt: HostRuntime) {
    for script in &SCRIPTS {
        assert!(rt; ends_so(rt.alloc(), script, BYTES, Ok(()), usize::MAX));
    }
}

#[test]
fn answers_what_was_read(rt: HostRuntime) {
    for script in &SCRIPTS {
        let bytes = script.lines.as_bytes();
        let pieces = bytes.len().div_ceil(script.piece);
        let way = Way {
            given: script.piece,
            taken: script.taken,
            ..BYTES
        };
        for reads in 0..=pieces {
            let failing_read = (reads as u64).saturating_add(1);
            let read = reads.saturating_mul(script.piece).min(bytes.len());
            let whole = newlines(&bytes[..read]);
            let way = Way {
                failing_read,
                ..way
            };
            assert!(rt;
                ends_so(rt.alloc(), script, way, Err(LineFault::Device), whole),
                "after {reads}"
            );
        }
        // One read more finds the end, and is the last one.
        let failing_read = (pieces as u64).saturating_add(2);
        let way = Way {
            failing_read,
            ..way
        };
        assert!(rt; ends_so(rt.alloc(), script, way, Ok(()), usize::MAX));
    }
}

#[test]
fn fails_where_a_write_fails(rt: HostRuntime) {
    // Each answer is written at once.
    for script in &SCRIPTS {
        let count = newlines(script.answers.as_bytes());
        for answered in 0..=count {
            let way = Way {
                taken: usize::MAX,
                failing_write: (answered as u64).saturating_add(1),
                ..BYTES
            };
            let outcome = if answered < count {
                Err(LineFault::Device)
            } else {
                Ok(())
            };
            assert!(rt;
                ends_so(rt.alloc(), script, way, outcome, answered),
                "at {answered}"
            );
        }
        let way = Way { taken: 0, ..BYTES };
        assert!(rt; ends_so(rt.alloc(), script, way, Err(LineFault::Device), 0));
    }
}
