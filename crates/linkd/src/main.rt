//! A devirtualizing linker for the JVM, driven by lines, and a report of class files.
//!
//! - `linkd scan` reads class files, a line each, and answers what they show.
//! - `linkd sketch` writes small class files.
//! - `linkd run` reads commands, a line each, and answers them on one core: it defines classes, links invocations and answers calls.
//! - `linkd farm` obeys commands on a link server, and then links all requested sites by a farm of workers.
//! - `linkd report` reads class files from paths, and says what is found of each invocation.
//!
//! Words that ask for help are answered by the usage. How the program ends, with which exit status and which line on the standard error, is
//! an `Ending` of jl_cli.
#![tactic(auto)]

ghost use Rattle.std.specs.Prelude.{◌≡◌};
ghost use Rattle.std.specs.Process.{exit_status};
ghost use Rattle.jl_cli.specs.Endings.{status_of};

use jl_cli::{Counted, Ending, WordsFault, obey_words};
use jl_listing::{
    ReportFault, ReportWords, read_report_words, report_usage, run_report, wrong_in_report,
};
use jl_words::{HEADING, REPORT, Topic, help_asked, usage_of, wrong_words};
use std::alloc::{AllocError, Global};
use std::env;
use std::io::{ErrorKind, Write};
use std::process::ExitCode;
use std::sync::Wait;
use std::thread::Threads;

/// What is said of words that are no texts.
const NO_TEXT: &str = "error: a word isn't UTF-8\n\n`linkd --help` has all commands.\n";

/// The words of this process, the program's name first.
fn own_words(rt: &HostRuntime) -> Result<Vec<String>, WordsFault> {
    match env::args(rt) {
        Ok(args) => Ok(args.collect(rt.alloc())?),
        Err(error) if error.kind() == ErrorKind::OutOfMemory => Err(WordsFault::Memory),
        Err(_) => Err(WordsFault::BadWords),
    }
}

/// Reports the class files that are asked for.
fn report(rt: &HostRuntime, asked: &ReportWords) -> Ending {
    let mut output = rt.stdout();
    let mut errors = rt.stderr();
    match run_report(rt, asked, &mut output, &mut errors) {
        Ok(()) => Ending::InputEnded,
        Err(fault) => ending_of(fault),
    }
}

/// How a report ends that isn't whole.
fn ending_of(fault: ReportFault) -> Ending {
    match fault {
        ReportFault::Device => Ending::DeviceFailed,
        ReportFault::Nothing => Ending::NothingReported,
        ReportFault::BadWords => Ending::BadWords,
        ReportFault::Closed => Ending::InputEnded,
        ReportFault::Memory => Ending::OutOfMemory,
    }
}

/// Does what these words ask for, of which the first is `report`.
fn obey_report(rt: &HostRuntime, words: &[String]) -> Ending {
    match read_report_words(rt.alloc(), words) {
        Ok(Some(asked)) => report(rt, &asked),
        Ok(None) => match wrong_in_report(rt.alloc(), words) {
            Ok(text) => say(rt, text.as_str(), Ending::BadWords),
            Err(fault) => ending_of(fault),
        },
        Err(fault) => ending_of(fault),
    }
}

/// Does what the words ask for, the program's name first, over the lines of the standard input.
fn obey(rt: &HostRuntime, threads: &(impl Threads + Wait + Sync), words: &[String]) -> Ending {
    let mut input = Counted::new(rt.stdin());
    let mut output = Counted::new(rt.stdout());
    match obey_words(threads, rt.alloc(), words, &mut input, &mut output) {
        Ok(ending) => ending,
        Err(WordsFault::BadWords) => answer_bad_words(rt, words),
        Err(WordsFault::Memory) => Ending::OutOfMemory,
    }
}

/// Answers words that ask for no answers to lines.
fn answer_bad_words(rt: &HostRuntime, words: &[String]) -> Ending {
    match said_of(rt.alloc(), words) {
        Ok((text, ending)) => say(rt, text.as_str(), ending),
        Err(_) => Ending::OutOfMemory,
    }
}

/// What is said of such words: the version, if they ask for it, or else what is wrong with them.
fn said_of(alloc: Global, words: &[String]) -> Result<(String, Ending), AllocError> {
    match words.last() {
        Some(word) if words.len() == 2 && matches!(word.as_str(), "--version" | "-V") => {
            let mut text = String::from_str(alloc, HEADING)?;
            text.push('\n')?;
            Ok((text, Ending::InputEnded))
        }
        _ => Ok((wrong_words(alloc, words)?, Ending::BadWords)),
    }
}

/// The usage of the topic.
fn usage(alloc: Global, topic: Topic) -> Result<String, AllocError> {
    match topic {
        Topic::Report => report_usage(alloc, HEADING, REPORT),
        _ => usage_of(alloc, topic),
    }
}

/// Writes the usage of the topic. The words that ask for it are bad words nonetheless.
fn explain(rt: &HostRuntime, topic: Topic) -> Ending {
    match usage(rt.alloc(), topic) {
        Ok(text) => say(rt, text.as_str(), Ending::BadWords),
        Err(_) => Ending::OutOfMemory,
    }
}

/// Writes the text, and ends so, also if its reader closed the pipe.
fn say(rt: &HostRuntime, text: &str, ending: Ending) -> Ending {
    match rt.stdout().write_all(text.as_bytes()) {
        Ok(()) => ending,
        Err(error) => match error.kind() {
            ErrorKind::BrokenPipe => ending,
            ErrorKind::OutOfMemory => Ending::OutOfMemory,
            _ => Ending::DeviceFailed,
        },
    }
}

/// The words after the program's name, if the first of them is `report`.
fn report_words(words: &[String]) -> Option<&[String]> {
    let (_name, rest) = words.split_first()?;
    if rest.first()?.as_str() == "report" {
        Some(rest)
    } else {
        None
    }
}

/// Tells on the standard error how the program ends, and gives its exit status.
fn told(rt: &HostRuntime, ending: Ending) -> ExitCode
    ensures { exit_status result ≡ status_of ending }
{
    let mut errors = Counted::new(rt.stderr());
    ExitCode::from(ending.tell(&mut errors))
}

/// Runs the program by its words.
fn main(rt: HostRuntime) -> ExitCode {
    let ending = match own_words(&rt) {
        Ok(words) => match (help_asked(&words), report_words(&words)) {
            (Some(topic), _) => explain(&rt, topic),
            (None, Some(rest)) => obey_report(&rt, rest),
            (None, None) => obey(&rt, &rt, &words),
        },
        Err(WordsFault::BadWords) => say(&rt, NO_TEXT, Ending::BadWords),
        Err(WordsFault::Memory) => Ending::OutOfMemory,
    };
    told(&rt, ending)
}
