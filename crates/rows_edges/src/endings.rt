//! How the program ends: the exit status, and the line on the standard error.

use crate::devices::SlowWriter;
use jl_cli::{Counted, Ending, FailAt, FarmLineFault, LineFault, WordsFault};
use jl_farm::FarmFault;
use std::alloc::Global;
use std::fmt::Display;

/// Ways to end, each with its status and its text.
const ENDINGS: &[(Ending, u8, &str)] = &[
    (Ending::InputEnded, 0, ""),
    (Ending::BadWords, 1, "linkd: bad words\n"),
    (Ending::FarmFailed, 1, "linkd: farm failed\n"),
    (Ending::LineTooLong, 2, "linkd: line too long\n"),
    (Ending::DeviceFailed, 3, "linkd: input or output failed\n"),
    (Ending::OutOfMemory, 4, "linkd: out of memory\n"),
    (Ending::NothingReported, 5, "linkd: nothing to report\n"),
];

/// How many bytes a writer takes at a time, and which of its writes fails, 0 for none: then nobody hears the text.
const WRITERS: &[(usize, u64)] = &[(1, 0), (7, 0), (64, 0), (64, 1)];

#[test]
fn tells_its_status_and_its_line(rt: HostRuntime) {
    for (ending, status, text) in ENDINGS {
        for (most, failing) in WRITERS {
            let slow = SlowWriter {
                most: *most,
                written: Vec::new(rt.alloc()),
            };
            let mut errors = FailAt::new(Counted::new(slow), *failing);
            let told = ending.tell(&mut errors);
            let written = errors.into_inner().into_inner().written;
            let heard = if *failing == 0 { *text } else { "" };
            assert!(rt; told == *status, "{ending:?} by {most}");
            assert!(rt;
                written.as_slice() == heard.as_bytes(),
                "{ending:?} by {most}"
            );
        }
    }
}

/// Whether the fault's text is what the line of this ending says after the program's name.
fn is_said(alloc: Global, fault: impl Display + Drop, ending: Ending) -> bool {
    match format!(in alloc; "linkd: {fault}\n") {
        Ok(line) => line.as_str() == ending.line(),
        Err(_) => false,
    }
}

/// The faults of lines, each with the way to end.
const LINE_FAULTS: [(LineFault, Ending); 3] = [
    (LineFault::TooLong, Ending::LineTooLong),
    (LineFault::Device, Ending::DeviceFailed),
    (LineFault::Memory, Ending::OutOfMemory),
];

#[test]
fn is_that_of_the_lines(rt: HostRuntime) {
    assert_eq!(rt; Ending::of_lines(Ok(())), Ending::InputEnded);
    assert_eq!(rt; Ending::of_farm(Ok(())), Ending::InputEnded);
    for (fault, ending) in LINE_FAULTS {
        assert_eq!(rt; Ending::of_lines(Err(fault)), ending);
        assert_eq!(rt; Ending::of_farm(Err(FarmLineFault::Line(fault))), ending);
        assert!(rt; is_said(rt.alloc(), fault, ending), "{fault}");
    }
}

#[test]
fn is_that_of_the_words(rt: HostRuntime) {
    for (fault, ending) in [
        (WordsFault::BadWords, Ending::BadWords),
        (WordsFault::Memory, Ending::OutOfMemory),
    ] {
        assert_eq!(rt; Ending::from(fault), ending);
        assert!(rt; is_said(rt.alloc(), fault, ending), "{fault}");
    }
}

#[test]
fn is_that_of_a_farm_without_reports(rt: HostRuntime) {
    for fault in [FarmFault::NoThread, FarmFault::Memory] {
        assert_eq!(rt;
            Ending::of_farm(Err(FarmLineFault::Farm(fault))),
            Ending::FarmFailed
        );
    }
    let fault = FarmLineFault::Farm(FarmFault::NoThread);
    assert!(rt; is_said(rt.alloc(), fault, Ending::FarmFailed));
}
