//! Commands of a host (include/linkd.h): a linker, a seat, a memo, a view and a renewal, and what each call answers and writes.

mod asked;
mod events;
mod names;
mod readers;
mod renewals;
mod told;
mod words;

use crate::told::Told;
use crate::words::number;
use jl_host::{LinkShown, Linker, Memo, Renewal, Seat, View};
use std::alloc::Global;

/// What a host has: its links are those that were prepared last. An array of the next call has at most so much room.
pub(crate) struct Host {
    linker: Linker,
    seat: Seat,
    memo: Memo,
    view: View,
    renewal: Renewal,
    links: Vec<LinkShown>,
    room: usize,
}

/// Written out, so that what drops one makes one call of it and doesn't take apart what it holds.
impl Drop for Host {
    fn drop(self) {
        let Host {
            linker: _linker,
            seat: _seat,
            memo: _memo,
            view: _view,
            renewal: _renewal,
            links: _links,
            room: _room,
        } = self;
    }
}

impl Host {
    /// One of which nothing is open.
    pub(crate) fn new(alloc: Global) -> Self {
        Host {
            linker: Linker::blank(),
            seat: Seat::blank(),
            memo: Memo::blank(),
            view: View::blank(),
            renewal: Renewal::blank(),
            links: Vec::new(alloc),
            room: usize::MAX,
        }
    }
}

/// Obeys the command so many times, and tells how many of the answers begin with DONE.
fn obey_times(told: &mut Told, host: &mut Host, count: u32, command: &[&str]) {
    let mut done: u32 = 0;
    for _ in 0..count {
        told.clear();
        readers::obey(told, host, command);
        if told.is_done() {
            done = done.saturating_add(1);
        }
    }
    told.clear();
    told.show(&done);
    told.put("DONE");
}

/// Obeys the command, and tells what it is answered.
pub(crate) fn answer(told: &mut Told, host: &mut Host, words: &[&str]) {
    host.room = usize::MAX;
    match *words {
        ["room", room, ref command @ ..] => {
            host.room = number(told, room) as usize;
            readers::obey(told, host, command);
        }
        ["times", count, ref command @ ..] => {
            let count = number(told, count);
            obey_times(told, host, count, command);
        }
        _ => readers::obey(told, host, words),
    }
}
