//! Measures parts of the product, by itself or from outside, and makes the calls whose growths bench/growths.sh refuses. The first word
//! names the part: `read`, `keep`, `hierarchy`, `link`, `renew`, `year`, `snapshot`, `wide`, `farm`, `call`, `growths` or `drawn`. What the
//! other words are, and what is done, stands at each module. The word `then` stands between two parts. All have the classes, places and
//! commands of the standard input.
//! What was done is printed, and, on the standard error, the microseconds that it took. Nothing is proved of it but that it is safe.
//!
//! The exit status is 0, 4 if there was no memory, and 1 if it ended otherwise.
#![tactic(auto)]

mod answers;
mod call;
mod cores;
mod deeds;
mod drawn;
mod farm;
mod files;
mod fill;
mod fresh;
mod growths;
mod held;
mod hierarchy;
mod input;
mod link;
mod marks;
mod read;
mod readings;
mod renew;
mod rounds;
mod serve;
mod servers;
mod snapshot;
mod told;
mod watch;
mod wide;
mod year;

use crate::input::Input;
use std::env;
use std::io::{self, ErrorKind};
use std::process::ExitCode;
use std::sync::Wait;
use std::thread::Threads;

/// Measures what the words say.
fn measure(
    rt: &HostRuntime,
    handle: &(impl Threads + Wait + Sync),
    input: &Input,
    words: &[String],
) -> io::Result<()> {
    match words.get(0).map(|word| word.as_str()) {
        Some("read") => read::measure(rt, input.files.as_slice()),
        Some("keep") => read::keep(rt, input.files.as_slice()),
        Some("hierarchy") => hierarchy::measure(rt, input.files.as_slice()),
        Some("snapshot") => snapshot::measure(rt, input.files.as_slice(), words),
        Some("link") => link::measure(rt, input),
        Some("renew") => renew::measure(rt, input),
        Some("year") => year::measure(rt, words),
        Some("wide") => wide::measure(rt, handle, input, words),
        Some("farm" | "call") => serve::measure(rt, handle, input, words),
        Some("growths") => growths::call_all(rt, handle),
        Some("drawn") => drawn::answer_all(rt, input.commands.as_slice()),
        _ => Ok(()),
    }
}

/// Measures one part after another.
fn measure_all(rt: &HostRuntime, handle: &(impl Threads + Wait + Sync)) -> io::Result<()> {
    let words: Vec<String> = env::args(rt)?.collect(rt.alloc())?;
    let input = Input::read(rt)?;
    let (_, rest) = words.as_slice().split_at(words.len().min(1));
    for part in rest.split(|word| word.as_str() == "then") {
        measure(rt, handle, &input, part)?;
    }
    Ok(())
}

fn main(rt: HostRuntime) -> ExitCode {
    match measure_all(&rt, &rt) {
        Ok(()) => ExitCode::SUCCESS,
        Err(error) if error.kind() == ErrorKind::OutOfMemory => ExitCode::from(4),
        Err(_) => ExitCode::from(1),
    }
}
