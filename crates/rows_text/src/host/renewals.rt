//! Renewals of a host, in one call and in steps.

use crate::host::told::{NO_LENGTH, UNTOUCHED, event, numbers, untold};
use crate::host::words::both;
use crate::host::{Host, asked, names};
use crate::told::Told;
use crate::words::number;
use jl_host::Linker;
use std::mem;

/// Tells the new numbers.
fn tell(
    told: &mut Told,
    loaders: &[u32],
    classes: &[u32],
    sites: &[u32],
    call_sites: &[u32],
    switches: &[u32],
) {
    numbers(told, "loaders", loaders);
    numbers(told, "classes", classes);
    numbers(told, "sites", sites);
    numbers(told, "call-sites", call_sites);
    numbers(told, "switches", switches);
}

/// Renews the linker, where these call sites and switch points were let go. The fresh one takes its place.
fn renew(told: &mut Told, host: &mut Host, max_sites: u32, gone: &[&str]) {
    let (released, points) = both(told, gone);
    let mut fresh = Linker::blank();
    let (mut loaders, mut classes, mut sites) = ([UNTOUCHED; 8], [UNTOUCHED; 8], [UNTOUCHED; 8]);
    let (mut call_sites, mut switches) = ([UNTOUCHED; 8], [UNTOUCHED; 8]);
    let room = host.room.min(8);
    let status = host.linker.renew(
        told.alloc(),
        &mut fresh,
        max_sites,
        &released,
        &points,
        &mut loaders[..room],
        &mut classes[..room],
        &mut sites[..room],
        &mut call_sites[..room],
        &mut switches[..room],
    );
    if status == 0 {
        mem::swap(&mut host.linker, &mut fresh);
    }
    names::status(told, status);
    tell(told, &loaders, &classes, &sites, &call_sites, &switches);
}

/// Finishes the renewal. The fresh linker takes the place of the old one.
fn finish(told: &mut Told, host: &mut Host) {
    let mut made = untold();
    let mut fresh = Linker::blank();
    let (mut loaders, mut classes, mut sites) = ([UNTOUCHED; 8], [UNTOUCHED; 8], [UNTOUCHED; 8]);
    let (mut call_sites, mut switches) = ([UNTOUCHED; 8], [UNTOUCHED; 8]);
    let room = host.room.min(8);
    let status = host.renewal.finish(
        told.alloc(),
        &mut host.linker,
        &mut fresh,
        &mut made,
        &mut loaders[..room],
        &mut classes[..room],
        &mut sites[..room],
        &mut call_sites[..room],
        &mut switches[..room],
    );
    if status == 0 {
        mem::swap(&mut host.linker, &mut fresh);
    }
    event(told, "", status, &made);
    tell(told, &loaders, &classes, &sites, &call_sites, &switches);
}

/// Obeys a command on the renewal.
pub(crate) fn obey(told: &mut Told, host: &mut Host, words: &[&str]) {
    let alloc = told.alloc();
    match *words {
        ["renew", max_sites, ref gone @ ..] => {
            let max_sites = number(told, max_sites);
            renew(told, host, max_sites, gone);
        }
        ["renewal-begin", max_sites, ref gone @ ..] => {
            let (max_sites, (call_sites, switches)) = (number(told, max_sites), both(told, gone));
            let status = host
                .renewal
                .begin(alloc, &mut host.linker, max_sites, &call_sites, &switches);
            names::status(told, status);
        }
        ["renewal-take", most] => {
            let most = number(told, most) as usize;
            let mut left = NO_LENGTH;
            let status = host.renewal.take(alloc, &mut host.linker, most, &mut left);
            names::status(told, status);
            if left != NO_LENGTH {
                told.word("left");
                told.show(&left);
            }
        }
        ["renewal-fill"] => {
            let mut made = untold();
            let status = host.renewal.fill(alloc, &mut made);
            event(told, "", status, &made);
        }
        ["renewal-finish"] => finish(told, host),
        _ => asked::obey(told, &mut host.linker, host.room, words),
    }
}
