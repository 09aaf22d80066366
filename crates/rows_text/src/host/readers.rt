//! Calls, wherever a host makes them, and what it lets go; views, and links of several sites.

use crate::host::names::{self, ANSWER_KINDS, LINK_KINDS, number_of};
use crate::host::told::{self, UNTOUCHED, event, unanswered, unshown, untold};
use crate::host::words::{numbers, pair, receiver};
use crate::host::{Host, renewals};
use crate::told::Told;
use crate::words::{keep, number};
use jl_host::{LinkRow, LinkShown};

/// An array for so many links, in which nothing was written, and one place more.
fn unshown_for(told: &mut Told, count: usize, room: usize) -> Vec<LinkShown> {
    let mut links = Vec::new(told.alloc());
    for _ in 0..count.saturating_add(1).min(room) {
        keep(told, &mut links, Some(unshown()));
    }
    links
}

/// Tells the links of the sites in the view, and keeps them if it is done.
fn prepare(told: &mut Told, host: &mut Host, words: &[&str]) {
    let sites = numbers(told, words);
    let mut links = unshown_for(told, sites.len(), host.room);
    let mut made = untold();
    let status = host
        .view
        .prepare(told.alloc(), &sites, &mut links, &mut made);
    event(told, "", status, &made);
    told::links(told, &links);
    if status == 0 {
        host.links = links;
    }
}

/// Installs those of the sites that have links, and tells what each has then.
fn install_ready(told: &mut Told, host: &mut Host, words: &[&str]) {
    let sites = numbers(told, words);
    let mut links = unshown_for(told, sites.len(), host.room);
    let mut made = untold();
    let status = host
        .linker
        .install_ready(told.alloc(), &sites, &mut links, &mut made);
    event(told, "", status, &made);
    told::links(told, &links);
}

/// Installs kept links, each by its site and its place, as `0:1`, and tells what is present.
fn install_links(told: &mut Told, host: &mut Host, words: &[&str]) {
    let mut rows = Vec::new(told.alloc());
    for word in words {
        let (site, place) = pair(told, word, ':');
        let link = host.links.get(place as usize).copied().unwrap_or(unshown());
        keep(told, &mut rows, Some(LinkRow { site, link }));
    }
    let mut made = untold();
    let mut present = unshown();
    let status = host
        .linker
        .install_links(told.alloc(), &rows, &mut made, &mut present);
    event(told, "", status, &made);
    told::link(told, &present);
}

/// Gives the kept link at the place this kind, this count and this kind of its first row.
fn spoil(told: &mut Told, host: &mut Host, place: &str, kind: &str, count: &str, first: &str) {
    let place = number(told, place) as usize;
    let (kind, count) = (number_of(told, LINK_KINDS, kind), number(told, count));
    let first = number_of(told, ANSWER_KINDS, first);
    if let Some(link) = host.links.get_mut(place) {
        link.kind = kind;
        link.count = count;
        link.rows[0].kind = first;
    } else {
        told.refuse();
    }
    told.put("void");
}

/// Tells what a call of the site on the receiver comes to.
fn call(told: &mut Told, host: &mut Host, command: &str, site: &str, on: &str) {
    let (site, on) = (number(told, site), receiver(told, on));
    let mut answer = unanswered();
    let status = match command {
        "call" => host.linker.call(site, on, &mut answer),
        "seat-call" => host.seat.call(site, on, &mut answer),
        "seat-call-with" => host.seat.call_with(&mut host.memo, site, on, &mut answer),
        "memo-ask" => host.memo.ask(&mut host.linker, site, on, &mut answer),
        "memo-call" => host.memo.call(site, on, &mut answer),
        _ => host.view.call(site, on, &mut answer),
    };
    told::call(told, status, &answer);
}

/// Lets go what something has.
fn leave(told: &mut Told, host: &mut Host, command: &str) {
    match command {
        "close" => host.linker.close(),
        "seat-leave" => host.seat.leave(),
        "memo-close" => host.memo.close(),
        "view-leave" => host.view.leave(),
        _ => host.renewal.leave(),
    }
    told.put("void");
}

/// Obeys a command on a seat, a memo or a view.
fn read(told: &mut Told, host: &mut Host, words: &[&str]) {
    let alloc = told.alloc();
    match *words {
        ["seat-refresh"] => {
            names::status(told, host.seat.refresh(alloc, &mut host.linker));
        }
        ["memo-open", sets] => {
            let status = host.memo.open(alloc, number(told, sets));
            names::status(told, status);
        }
        ["view-take"] => {
            names::status(told, host.view.take(alloc, &mut host.linker));
        }
        ["view-serial"] => {
            let mut serial = u64::from(UNTOUCHED);
            let status = host.view.serial(&mut serial);
            told::number(told, status, "serial", serial);
        }
        ["view-prepare", ref sites @ ..] => prepare(told, host, sites),
        ["spoil", place, kind, count, first] => spoil(told, host, place, kind, count, first),
        ["install-links", ref rows @ ..] => install_links(told, host, rows),
        ["install-ready", ref sites @ ..] => install_ready(told, host, sites),
        _ => renewals::obey(told, host, words),
    }
}

/// Obeys the command, and tells what it is answered.
pub(crate) fn obey(told: &mut Told, host: &mut Host, words: &[&str]) {
    match *words {
        [
            command @ ("call"
            | "seat-call"
            | "seat-call-with"
            | "memo-ask"
            | "memo-call"
            | "view-call"),
            site,
            on,
        ] => call(told, host, command, site, on),
        [command @ ("close" | "seat-leave" | "memo-close" | "view-leave" | "renewal-leave")] => {
            leave(told, host, command)
        }
        _ => read(told, host, words),
    }
}
