//! Obeys the commands of the input on one core, and prints what each is answered. They are:
//!
//! - the lines of `linkd run`;
//! - `retire` with the numbers of loaders that are to go at once, which is no line of `linkd`;
//! - `release` with the numbers of call sites and, after a `/`, of switch points, which is none either.
//!
//! bench/drawn.py draws such commands, and compares.

ghost use Rattle.std.specs.Prelude.{IfOk};
ghost use Rattle.serde_json.specs.View.{view};
ghost use Rattle.jl_session.specs.Obeying.{IsEventData};

use jl_json::{event_refusal_value, reply_value};
use jl_names::Seq;
use jl_session::{Session, text_of};
use jl_types::{CallSiteId, Event, LoaderId, Refusal, Reply, SwitchId};
use serde_json::Value;
use std::alloc::{AllocError, Global};
use std::io;
use std::str::from_utf8;

/// The numbers among the words of the line, those before a `/` or those after it.
fn numbers(alloc: Global, line: &str, are_after: bool) -> Result<Vec<u32>, AllocError> {
    let mut numbers = Vec::new(alloc);
    let mut is_after = false;
    for word in line.split(' ') {
        if word == "/" {
            is_after = true;
        }
        let Ok(number) = word.parse::<u32>() else {
            continue;
        };
        if is_after == are_after {
            numbers.push(number)?;
        }
    }
    Ok(numbers)
}

/// The retirement of the loaders of the line.
fn retirement(alloc: Global, line: &str) -> Result<Event, AllocError> {
    let named = numbers(alloc, line, false)?;
    let mut loaders = Vec::new(alloc);
    for number in named.as_slice() {
        loaders.push(LoaderId::new(*number))?;
    }
    Ok(Event::RetireAll(Seq::of(loaders)))
}

/// The call sites of the line.
fn call_sites(alloc: Global, line: &str) -> Result<Seq<CallSiteId>, AllocError> {
    let named = numbers(alloc, line, false)?;
    let mut call_sites = Vec::new(alloc);
    for number in named.as_slice() {
        call_sites.push(CallSiteId::new(*number))?;
    }
    Ok(Seq::of(call_sites))
}

/// The switch points of the line.
fn switch_points(alloc: Global, line: &str) -> Result<Seq<SwitchId>, AllocError> {
    let named = numbers(alloc, line, true)?;
    let mut points = Vec::new(alloc);
    for number in named.as_slice() {
        points.push(SwitchId::new(*number))?;
    }
    Ok(Seq::of(points))
}

/// The event of the line, if it is no line of `linkd`.
fn going(alloc: Global, line: &str) -> Result<Option<Event>, AllocError> {
    match line.split(' ').next() {
        Some("retire") => Ok(Some(retirement(alloc, line)?)),
        Some("release") => {
            let call_sites = call_sites(alloc, line)?;
            Ok(Some(Event::Release(call_sites, switch_points(alloc, line)?)))
        }
        _ => Ok(None),
    }
}

/// The answer to an event that came to this.
fn event_value(alloc: Global, outcome: &Result<Reply, Refusal>) -> Result<Value, AllocError>
    ensures { IfOk result (λ v. IsEventData outcome.now (view v)) }
{
    match outcome {
        Ok(reply) => reply_value(alloc, reply),
        Err(refusal) => event_refusal_value(alloc, refusal),
    }
}

/// The text of the answer to the event.
fn submit(alloc: Global, session: &mut Session, event: Event) -> Result<Vec<u8>, AllocError> {
    let outcome = session.submit(alloc, event);
    let answer = event_value(alloc, &outcome)?;
    text_of(alloc, &answer)
}

/// The text of the answer to a line.
fn answer(alloc: Global, session: &mut Session, line: &str) -> Result<Vec<u8>, AllocError> {
    match going(alloc, line)? {
        Some(event) => submit(alloc, session, event),
        None => session.answer_text(alloc, line.as_bytes()),
    }
}

/// Obeys each command, and prints its answer.
pub(crate) fn answer_all(rt: &HostRuntime, commands: &[String]) -> io::Result<()> {
    let mut session = Session::new(rt.alloc())?;
    for line in commands {
        let text = answer(rt.alloc(), &mut session, line.as_str())?;
        if let Ok(text) = from_utf8(text.as_slice()) {
            println!(rt; "{text}")?;
        }
    }
    Ok(())
}
