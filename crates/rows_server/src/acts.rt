//! Whether a caller does what a row says, and is answered so.

use crate::deeds::{Deed, method};
use crate::scripts::Says::*;
use crate::scripts::{Act, Says};
use crate::workers::{Shared, Worker, receiver};
use jl_core::Entry;
use jl_server::{Caller, EntriesFault, Name};
use jl_types::{
    Answer, CallSiteFault, DefineFault, Fast, Link, Made, Outcome, Recv, Refusal, SiteNo, SwitchId,
    Throwable, Unlinked,
};
use std::alloc::Global;
use std::sync::Wait;

/// The answer at once.
pub(crate) fn fast(says: Says) -> Fast {
    match says {
        Runs(class) => Fast::Now(Answer::Run(method(class, 0))),
        Misses => Fast::Miss,
        IsClosed => Fast::Closed,
        ThrowsAtNull => Fast::Now(Answer::Throws(Throwable::NullPointerException)),
        IsNoReceiver => Fast::Now(Answer::BadReceiver),
        IsGone => Fast::Now(Answer::Unlinked(Unlinked::Gone)),
    }
}

/// Whether one entry answers the two calls so.
pub(crate) fn calls_both<K: Name>(caller: &mut Caller<K>, first: Says, second: Says) -> bool {
    let calls = [
        (SiteNo::new(0), receiver(Some(2))),
        (SiteNo::new(1), Recv::Null),
    ];
    let mut answers = [fast(IsNoReceiver), fast(IsNoReceiver)];
    caller.call_all(calls.as_slice(), answers.as_mut_slice());
    answers == [fast(first), fast(second)]
}

/// Whether there are as many of the deed's kind as there may be, as the refusal says.
fn is_full(deed: &Deed, refusal: &Refusal) -> bool {
    match (deed, refusal) {
        (Deed::Loader, Refusal::LoadersFull) => true,
        (Deed::Define(_, _), Refusal::Define(DefineFault::Full)) => true,
        (Deed::Request(_, _), Refusal::SitesFull) => true,
        (Deed::CallSite(_) | Deed::Switch, Refusal::CallSite(CallSiteFault::Full)) => true,
        _ => false,
    }
}

/// Whether the event is refused after so many: since there are as many of its kind as there may be, or for an unknown class.
fn is_refused<K: Name, R: Wait, S: Wait + Drop>(
    shared: &Shared<'_, K, R, S>,
    caller: &mut Caller<K>,
    deed: &Deed,
    full: bool,
    serial: u64,
) -> bool {
    match shared.event(caller, deed) {
        Some(event) => {
            let (at, answer) = shared.answer(caller, event);
            at == serial
                && match &answer {
                    Ok(_) => false,
                    Err(Refusal::UnknownClass) => !full,
                    Err(refusal) => full && is_full(deed, refusal),
                }
        }
        None => false,
    }
}

/// Whether the entries after the first so many are refused, since one of them is forgotten, and the caller has then seen what it had.
pub(crate) fn is_forgotten<K: Name, R: Wait, S: Wait + Drop>(
    shared: &Shared<'_, K, R, S>,
    caller: &mut Caller<K>,
    from: u64,
) -> bool {
    let before = caller.seen().serial();
    let refused = match &caller.entries(shared.rt, shared.alloc, shared.server, from) {
        Ok(_since) => false,
        Err(fault) => *fault == EntriesFault::Forgotten,
    };
    refused && caller.seen().serial() == before
}

/// Whether the entries made the switch points of these numbers.
fn make_switches(entries: &[Entry], numbers: &[u32]) -> bool {
    let mut all = entries.len() == numbers.len();
    for (entry, number) in entries.iter().zip(numbers) {
        all = entry.made() == Made::Switch(SwitchId::new(*number)) && all;
    }
    all
}

/// Whether the caller is told the entries after the first so many, which made the switch points of these numbers.
fn is_told<K: Name, R: Wait, S: Wait + Drop>(
    shared: &Shared<'_, K, R, S>,
    caller: &mut Caller<K>,
    from: u64,
    numbers: &[u32],
) -> bool {
    match &caller.entries(shared.rt, shared.alloc, shared.server, from) {
        Ok(since) => {
            since.seen.serial() == from.saturating_add(numbers.len() as u64)
                && make_switches(since.entries.as_slice(), numbers)
        }
        Err(_) => false,
    }
}

/// Whether the entry prints so.
fn prints(alloc: Global, entry: Option<&Entry>, text: &str) -> bool {
    let Some(entry) = entry else {
        return false;
    };
    match format!(in alloc; "{entry:?}") {
        Ok(printed) => printed.as_str() == text,
        Err(_) => false,
    }
}

/// Whether the caller is told one entry after the first so many, which prints so.
fn is_told_as<K: Name, R: Wait, S: Wait + Drop>(
    shared: &Shared<'_, K, R, S>,
    caller: &mut Caller<K>,
    from: u64,
    text: &str,
) -> bool {
    match &caller.entries(shared.rt, shared.alloc, shared.server, from) {
        Ok(since) => {
            since.entries.len() == 1 && prints(shared.alloc, since.entries.as_slice().last(), text)
        }
        Err(_) => false,
    }
}

/// Whether the caller is told the whole log, with so many entries.
fn has_log<K: Name, R: Wait, S: Wait + Drop>(
    shared: &Shared<'_, K, R, S>,
    caller: &mut Caller<K>,
    count: u64,
) -> bool {
    match &caller.past(shared.rt, shared.alloc, shared.server) {
        Ok(past) => past.seen.serial() == count && past.log.len() == count,
        Err(_) => false,
    }
}

/// The caller learns what is told. It waits until there is something.
fn hears<K: Name, R: Wait, S: Wait + Drop>(shared: &Shared<'_, K, R, S>, caller: &mut Caller<K>) {
    for _ in shared.rt.forever() {
        let held = shared.told.lock(shared.rt);
        if let Some(seen) = &*held {
            caller.learn(seen);
            break;
        }
    }
}

/// Whether the worker does this, or is answered so.
pub(crate) fn acts<K: Name, R: Wait, S: Wait + Drop>(
    shared: &Shared<'_, K, R, S>,
    worker: &mut Worker<K>,
    act: &Act,
) -> bool {
    match act {
        Act::Does(deed) => shared.does(worker, deed),
        Act::DoesAll(deeds) => shared.does_all(worker, deeds),
        Act::MakesSwitch(serial, number) => {
            shared.does(worker, &Deed::Switch)
                && worker.last() == (*serial, Made::Switch(SwitchId::new(*number)))
        }
        Act::IsRefused(deed, serial) => {
            is_refused(shared, &mut worker.caller, deed, false, *serial)
        }
        Act::IsFull(deed, serial) => is_refused(shared, &mut worker.caller, deed, true, *serial),
        Act::Cannot(deed) => shared.event(&mut worker.caller, deed).is_none(),
        Act::Calls(site, class, says) => worker.call(*site, *class) == fast(*says),
        Act::CallsBoth(first, second) => calls_both(&mut worker.caller, *first, *second),
        Act::HasSeen(serial) => worker.caller.seen().serial() == *serial,
        Act::TakesSnapshot(serial) => match &shared.snapshot(&mut worker.caller) {
            Some(snapshot) => {
                snapshot.serial() == *serial && worker.caller.seen().serial() == *serial
            }
            None => false,
        },
        Act::Lists(sites) => {
            let link = Link::Direct(Outcome::Run(method(1, 0)));
            shared.are_linked(&mut worker.caller, sites, &link)
        }
        Act::Forgets => {
            shared.server.forget(shared.rt);
            true
        }
        Act::IsForgotten(from) => is_forgotten(shared, &mut worker.caller, *from),
        Act::HasLog(count) => has_log(shared, &mut worker.caller, *count),
        Act::IsTold(from, numbers) => is_told(shared, &mut worker.caller, *from, numbers),
        Act::IsToldAs(from, text) => is_told_as(shared, &mut worker.caller, *from, text),
        Act::Tells => {
            *shared.told.lock(shared.rt) = Some(worker.caller.seen().again());
            true
        }
        Act::Hears => {
            hears(shared, &mut worker.caller);
            true
        }
    }
}
