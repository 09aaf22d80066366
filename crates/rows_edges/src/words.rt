//! How many workers the words of the program ask for, which no answer tells; no words at all; and what is done for words, over an input. Other
//! words: `bench/ends.py`.

use crate::devices::Pieces;
use jl_cli::{Counted, Ending, FailAt, Words, WordsFault, obey_words, read_words};
use std::alloc::{AllocError, Global};

/// Command lines, and what their words ask for.
const LINES: &[(&str, Result<Words, WordsFault>)] = &[
    ("", Err(WordsFault::BadWords)),
    ("linkd farm --workers 1", Ok(Words::Farm(1))),
    ("linkd farm --workers 16", Ok(Words::Farm(16))),
    ("linkd farm --workers=4", Ok(Words::Farm(4))),
    ("linkd farm --workers 4 --", Ok(Words::Farm(4))),
    ("linkd farm --workers=4 --", Ok(Words::Farm(4))),
    ("linkd farm --workers +4", Ok(Words::Farm(4))),
    ("linkd farm --workers=0004", Ok(Words::Farm(4))),
];

/// Command lines, the read that fails, or 0, how the program ends over the one line `00`, and what it writes.
const OBEYED: &[(&str, u64, Result<Ending, WordsFault>, &str)] = &[
    (
        "linkd scan",
        0,
        Ok(Ending::InputEnded),
        "{\"refused\":\"Truncated\"}\n",
    ),
    (
        "linkd sketch",
        0,
        Ok(Ending::InputEnded),
        "{\"error\":\"BadCommand\"}\n",
    ),
    (
        "linkd run",
        0,
        Ok(Ending::InputEnded),
        "{\"error\":\"BadCommand\"}\n",
    ),
    (
        "linkd farm --workers 2",
        0,
        Ok(Ending::InputEnded),
        "{\"error\":\"BadCommand\"}\n{\"links\":[],\"reports\":[]}\n",
    ),
    ("linkd scan", 1, Ok(Ending::DeviceFailed), ""),
    ("linkd farm --workers 2", 1, Ok(Ending::DeviceFailed), ""),
    ("linkd", 0, Err(WordsFault::BadWords), ""),
];

/// The words of the line.
fn words_of(alloc: Global, line: &str) -> Result<Vec<String>, AllocError> {
    let mut words = Vec::new(alloc);
    for word in line.split_whitespace() {
        words.push(String::from_str(alloc, word)?)?;
    }
    Ok(words)
}

/// Whether the words of the line ask for this.
fn asks_for(
    alloc: Global,
    line: &str,
    expected: Result<Words, WordsFault>,
) -> Result<bool, AllocError> {
    let words = words_of(alloc, line)?;
    Ok(read_words(alloc, &words) == expected)
}

#[test]
fn does_what_words_ask_for(rt: HostRuntime) {
    for (line, failing, expected, text) in OBEYED {
        let pieces = Pieces {
            most: 1,
            left: b"00\n",
        };
        let mut reader = FailAt::new(Counted::new(pieces), *failing);
        let mut writer = Counted::new(Vec::new(rt.alloc()));
        let ending = match &words_of(rt.alloc(), line) {
            Ok(words) => obey_words(&rt, rt.alloc(), words, &mut reader, &mut writer),
            Err(_) => Err(WordsFault::Memory),
        };
        let written = writer.into_inner();
        assert!(rt; ending == *expected, "at {line:?} {failing}");
        assert!(rt;
            written.as_slice() == text.as_bytes(),
            "at {line:?} {failing}"
        );
    }
}

#[test]
fn takes_counts_of_workers(rt: HostRuntime) {
    for (line, expected) in LINES {
        assert!(rt;
            asks_for(rt.alloc(), line, *expected) == Ok(true),
            "at {line:?}"
        );
    }
}
