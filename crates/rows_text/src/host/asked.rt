//! What a host asks its linker.

use crate::host::events;
use crate::host::names::{self, ANSWER_KINDS, values_of};
use crate::host::told::{
    self, NO_BYTE, NO_LENGTH, UNTOUCHED, after, event, unanswered, unshown, untold,
};
use crate::host::words::{pair, receiver};
use crate::told::Told;
use crate::words::{number, signature, text};
use jl_host::{Counts, Invocation, Linker, NO_METHOD, ResolutionShown};

/// Tells what a reference resolves to: the value if that says something, and the method that was found.
fn resolve(told: &mut Told, linker: &mut Linker, from: u32, named: u32, method: &str) {
    let (name, ty) = signature(told, method);
    let mut found = ResolutionShown {
        kind: UNTOUCHED,
        value: UNTOUCHED,
        class_number: UNTOUCHED,
        method: UNTOUCHED,
    };
    let before = found;
    let status = linker.resolve(from, named, name.as_bytes(), ty.as_bytes(), &mut found);
    names::status(told, status);
    if found == before {
        return;
    }
    names::name(told, ANSWER_KINDS, found.kind);
    if found.value != 0 {
        names::name(told, values_of(found.kind), found.value);
    }
    if found.class_number != NO_METHOD || found.method != NO_METHOD {
        told::method(told, found.class_number, found.method);
    }
}

/// Tells what is asked about methods and links.
fn tell_link(told: &mut Told, linker: &mut Linker, words: &[&str]) {
    let mut link = unshown();
    match *words {
        ["select", method, on] => {
            let ((class, method), on) = (pair(told, method, '.'), receiver(told, on));
            let mut answer = unanswered();
            let status = linker.select(class, method, on, &mut answer);
            told::call(told, status, &answer);
        }
        ["resolve", from, named, method] => {
            let (from, named) = (number(told, from), number(told, named));
            resolve(told, linker, from, named, method);
        }
        ["link-of", site] => {
            let status = linker.link_of(number(told, site), &mut link);
            names::status(told, status);
            told::link(told, &link);
        }
        ["link-place", method, pc] => {
            let ((class, method), pc) = (pair(told, method, '.'), number(told, pc));
            let mut made = untold();
            let status = linker.link(told.alloc(), class, method, pc, &mut link, &mut made);
            // Of a request that is refused no site is told.
            let word = if link.kind == UNTOUCHED { "" } else { "site" };
            event(told, word, status, &made);
            told::link(told, &link);
        }
        _ => events::obey(told, linker, words),
    }
}

/// Tells an array of sites or of invocations, with its length.
fn tell_array(told: &mut Told, linker: &mut Linker, room: usize, words: &[&str]) {
    let mut length = NO_LENGTH;
    let room = room.min(8);
    match *words {
        ["dropped"] => {
            let mut sites = [UNTOUCHED; 8];
            let status = linker.dropped(&mut sites[..room], &mut length);
            names::status(told, status);
            told::length(told, length);
            told::numbers(told, "sites", &sites);
        }
        ["invocations", method] => {
            let (class, method) = pair(told, method, '.');
            let mut invocations = [Invocation {
                pc: UNTOUCHED,
                opcode: UNTOUCHED,
            }; 8];
            let status = linker.invocations(class, method, &mut invocations[..room], &mut length);
            names::status(told, status);
            told::length(told, length);
            for it in &invocations {
                if it.pc != UNTOUCHED || it.opcode != UNTOUCHED {
                    after(told, "pc", it.pc);
                    after(told, "opcode", it.opcode);
                }
            }
        }
        _ => tell_link(told, linker, words),
    }
}

/// Tells a name, or what is kept of an answer.
fn tell_name(told: &mut Told, linker: &mut Linker, room: usize, words: &[&str]) {
    let mut array = [NO_BYTE; 300];
    let mut length = NO_LENGTH;
    let end = room.min(300);
    let status = match *words {
        ["class-name", class] => {
            let class = number(told, class);
            linker.class_name(class, &mut array[..end], &mut length)
        }
        ["method-name", method] => {
            let (class, method) = pair(told, method, '.');
            linker.method_name(class, method, &mut array[..end], &mut length)
        }
        ["method-type", method] => {
            let (class, method) = pair(told, method, '.');
            linker.method_type(class, method, &mut array[..end], &mut length)
        }
        ["refused-name"] => linker.refused_name(&mut array[..end], &mut length),
        ["awaited", site] => {
            let site = number(told, site);
            linker.awaited(site, &mut array[..end], &mut length)
        }
        ["take"] => linker.take(&mut array[..end], &mut length),
        _ => return tell_array(told, linker, room, words),
    };
    told::text(told, status, &array, length);
}

/// Tells the answer to the line, as it is and as it is taken.
fn answer(told: &mut Told, linker: &mut Linker, line: &str) {
    let mut array = [NO_BYTE; 300];
    let (mut length, mut taken) = (NO_LENGTH, NO_LENGTH);
    let status = linker.answer(told.alloc(), line.as_bytes(), &mut length);
    let copied = linker.take(&mut array, &mut taken);
    told.refuse_unless(copied == status && taken == length);
    told::text(told, status, &array, taken);
}

/// Tells how many there are of each kind.
fn tell_counts(told: &mut Told, linker: &mut Linker, are_present: bool) {
    let alloc = told.alloc();
    let mut counts = Counts {
        loaders: UNTOUCHED,
        classes: UNTOUCHED,
        sites: UNTOUCHED,
        call_sites: UNTOUCHED,
        switches: UNTOUCHED,
    };
    let status = if are_present {
        linker.counts_present(alloc, &mut counts)
    } else {
        linker.counts(&mut counts)
    };
    names::status(told, status);
    after(told, "loaders", counts.loaders);
    after(told, "classes", counts.classes);
    after(told, "sites", counts.sites);
    after(told, "call-sites", counts.call_sites);
    after(told, "switches", counts.switches);
}

/// Tells what is asked of a linker as a whole.
fn tell_whole(told: &mut Told, linker: &mut Linker, room: usize, words: &[&str]) {
    let mut found = UNTOUCHED;
    match *words {
        ["lookup", loader, name] => {
            let loader = number(told, loader);
            let status = linker.lookup(loader, text(name).as_bytes(), &mut found);
            told::number(told, status, "class", u64::from(found));
        }
        ["class-accessible", from, class] => {
            let (from, class) = (number(told, from), number(told, class));
            let status = linker.class_accessible(from, class, &mut found);
            told::number(told, status, "accessible", u64::from(found));
        }
        ["last-work"] => {
            let mut work = u64::from(UNTOUCHED);
            let status = linker.last_work(&mut work);
            told::number(told, status, "work", work);
        }
        ["counts"] => tell_counts(told, linker, false),
        ["counts-present"] => tell_counts(told, linker, true),
        ["answer", line] => answer(told, linker, line),
        _ => tell_name(told, linker, room, words),
    }
}

/// Obeys the command on the linker, and tells what it is answered. An array has at most so much room.
pub(crate) fn obey(told: &mut Told, linker: &mut Linker, room: usize, words: &[&str]) {
    let alloc = told.alloc();
    match *words {
        ["open", sites] => {
            let status = linker.open(alloc, number(told, sites));
            names::status(told, status);
        }
        ["open-with", sites, loaders, classes, call_sites, switches] => {
            let (sites, loaders) = (number(told, sites), number(told, loaders));
            let (classes, call_sites) = (number(told, classes), number(told, call_sites));
            let switches = number(told, switches);
            let status = linker.open_with(alloc, sites, loaders, classes, call_sites, switches);
            names::status(told, status);
        }
        ["catch-up"] => {
            names::status(told, linker.catch_up(alloc));
        }
        _ => tell_whole(told, linker, room, words),
    }
}
