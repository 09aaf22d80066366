//! Asks of a core what a server asks in a year: so many events, the second word, in rounds. It forgets what is past. Whenever the numbers
//! of a kind are nearly used up, the core is renewed, with what its owner let go, and the owner takes the new numbers over. If the third
//! word is 0, it isn't, and this ends once no number is left. Nothing of the input is asked.

use crate::rounds::{Owned, files};
use crate::told::{number_or, tell};
use jl_core::Core;
use jl_renewal::renew;
use jl_types::Refusal;
use std::alloc::Global;
use std::io;
use std::time::Instant;

/// How many events are asked if no word says it: those of 20,000 rounds.
const EVENTS: u32 = 13_300_000;

/// How many entries that aren't past the core may keep.
const PAST: u64 = 1024;

/// How many events lie between two lines.
const TOLD: u64 = 100_000;

/// Renews the core, and lets the old one go.
fn renewed(alloc: Global, owned: &mut Owned) -> Result<(), Refusal> {
    let released = owned.held.released(alloc)?;
    let (fresh, numbers) = renew(alloc, &owned.core, &released, owned.core.limits())?;
    owned.core = fresh;
    owned.held.take_over(&numbers)?;
    Ok(())
}

/// Prints why it ends, and gives false.
fn tell_end(rt: &HostRuntime, owned: &Owned, refusal: &Refusal) -> io::Result<bool> {
    let events = owned.events;
    println!(rt; "ended after {events} events by {refusal:?}")?;
    Ok(false)
}

/// Lets the core forget what is past if it keeps too much of that.
fn forget_past(core: &mut Core) {
    let Some(place) = core.log().len().checked_sub(PAST) else {
        return;
    };
    if core.log().kept_from(place).is_some() {
        core.forget();
    }
}

/// Renews the core if that is due, and times it. Gives whether there is room for a round more.
fn make_room(rt: &HostRuntime, owned: &mut Owned, renews: bool) -> io::Result<bool> {
    if !renews || !owned.is_used_up() {
        return Ok(true);
    }
    let events = owned.events;
    let before = owned.core.log().len();
    let start = Instant::now(rt)?;
    if let Err(refusal) = &renewed(rt.alloc(), owned) {
        return tell_end(rt, owned, refusal);
    }
    let micros = start.elapsed(rt)?.as_micros();
    let after = owned.core.log().len();
    println!(rt; "renewed after {events} events: entries {before}, then {after}")?;
    eprintln!(rt; "renewed after {events} events: entries {before}, then {after}, in {micros} us")?;
    Ok(true)
}

/// One round, and a line if that is due. Gives whether it was accepted.
fn run_round(
    rt: &HostRuntime,
    owned: &mut Owned,
    files: &[Vec<u8>],
    start: &Instant,
) -> io::Result<bool> {
    let lines = owned.events / TOLD;
    if let Err(refusal) = &owned.round(rt.alloc(), files) {
        return tell_end(rt, owned, refusal);
    }
    forget_past(&mut owned.core);
    if owned.events / TOLD > lines {
        tell(rt, "events", owned.events, start)?;
    }
    Ok(true)
}

/// Goes round until there were so many events.
fn run(rt: &HostRuntime, owned: &mut Owned, most: u32, renews: bool) -> io::Result<()> {
    let files = files(rt.alloc())?;
    let start = Instant::now(rt)?;
    for _ in 0..most {
        if owned.events >= u64::from(most)
            || !make_room(rt, owned, renews)?
            || !run_round(rt, owned, files.as_slice(), &start)?
        {
            break;
        }
    }
    tell(rt, "events in all", owned.events, &start)
}

/// Measures all of it.
pub(crate) fn measure(rt: &HostRuntime, words: &[String]) -> io::Result<()> {
    let mut owned = Owned::new(rt.alloc())?;
    if let Err(refusal) = &owned.begin(rt.alloc()) {
        let _told = tell_end(rt, &owned, refusal)?;
        return Ok(());
    }
    let most = number_or(words, 1, EVENTS);
    run(rt, &mut owned, most, number_or(words, 2, 1) != 0)
}
