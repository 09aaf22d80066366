//! Events of a host's linker: each gives the word for the number that it tells, and its status.

use crate::definitions;
use crate::host::names::{CALL_SITE_KINDS, number_of};
use crate::host::told::{event, untold};
use crate::host::words::{both, numbers, pair, parts};
use crate::told::Told;
use crate::words::{keep, number, text};
use jl_host::{Linker, Told as Made};

/// The bytes of these digits, two a byte.
fn bytes_of(told: &mut Told, digits: &str) -> Vec<u8> {
    let mut bytes = Vec::new(told.alloc());
    let mut high: Option<u32> = None;
    for letter in digits.chars() {
        let digit = letter.to_digit(16);
        told.refuse_unless(digit.is_some());
        let digit = digit.unwrap_or(0);
        if let Some(first) = high.take() {
            let byte = u8::try_from(first.saturating_mul(16).saturating_add(digit));
            keep(told, &mut bytes, byte.ok());
        } else {
            high = Some(digit);
        }
    }
    told.refuse_unless(high.is_none());
    bytes
}

/// The file of a definition: `bytes` and their digits; or a name and what has it, as in other tables, of another major version after
/// `version`.
fn file(told: &mut Told, words: &[&str]) -> Vec<u8> {
    match *words {
        ["bytes", ref digits @ ..] => bytes_of(told, digits.first().copied().unwrap_or("")),
        ["version", version, name, ref rest @ ..] => {
            let mut bytes = definitions::bytes(told, name, rest);
            let version = number(told, version);
            if let Some(byte) = bytes.get_mut(7) {
                *byte = u8::try_from(version).unwrap_or(0);
            }
            bytes
        }
        [name, ref rest @ ..] => definitions::bytes(told, name, rest),
        [] => definitions::bytes(told, "", words),
    }
}

/// Makes a definition or a check.
fn define(
    told: &mut Told,
    linker: &mut Linker,
    words: &[&str],
    made: &mut Made,
) -> (&'static str, u32) {
    let alloc = told.alloc();
    match *words {
        ["define", loader, ref class @ ..] => {
            let (loader, bytes) = (number(told, loader), file(told, class));
            ("class", linker.define(alloc, loader, &bytes, made))
        }
        ["define-up-to", loader, newest, ref class @ ..] => {
            let (loader, newest) = (number(told, loader), number(told, newest));
            let (newest, bytes) = (u16::try_from(newest).unwrap_or(0), file(told, class));
            (
                "class",
                linker.define_up_to(alloc, loader, newest, &bytes, made),
            )
        }
        ["check", newest, ref class @ ..] => {
            let newest = u16::try_from(number(told, newest)).unwrap_or(0);
            let bytes = file(told, class);
            ("", linker.check_up_to(alloc, newest, &bytes, made))
        }
        _ => {
            told.refuse();
            ("", 0)
        }
    }
}

/// Makes an event of a call site or a switch point.
fn change(
    told: &mut Told,
    linker: &mut Linker,
    words: &[&str],
    made: &mut Made,
) -> (&'static str, u32) {
    let alloc = told.alloc();
    match *words {
        ["new-call-site", kind, ty, target] => {
            let kind = number_of(told, CALL_SITE_KINDS, kind);
            let (ty, target) = (ty.as_bytes(), target.as_bytes());
            (
                "call-site",
                linker.new_call_site(alloc, kind, ty, target, made),
            )
        }
        ["new-call-site-of", kind, ty, ref target @ ..] => {
            let kind = number_of(told, CALL_SITE_KINDS, kind);
            let (ty, parts) = (ty.as_bytes(), parts(told, target));
            (
                "call-site",
                linker.new_call_site_of(alloc, kind, ty, &parts, made),
            )
        }
        ["set-target", site, target] => {
            let site = number(told, site);
            ("", linker.set_target(alloc, site, target.as_bytes(), made))
        }
        ["set-target-of", site, ref target @ ..] => {
            let (site, parts) = (number(told, site), parts(told, target));
            ("", linker.set_target_of(alloc, site, &parts, made))
        }
        ["new-switch"] => ("switch", linker.new_switch(alloc, made)),
        _ => define(told, linker, words, made),
    }
}

/// Makes an event of several at once, or a retirement.
fn let_go(
    told: &mut Told,
    linker: &mut Linker,
    words: &[&str],
    made: &mut Made,
) -> (&'static str, u32) {
    let alloc = told.alloc();
    match *words {
        ["retire", loader] => ("", linker.retire(alloc, number(told, loader), made)),
        ["retire-all", ref loaders @ ..] => {
            let loaders = numbers(told, loaders);
            ("", linker.retire_all(alloc, &loaders, made))
        }
        ["release", ref gone @ ..] => {
            let (call_sites, switches) = both(told, gone);
            ("", linker.release(alloc, &call_sites, &switches, made))
        }
        ["invalidate", ref switches @ ..] => {
            let switches = numbers(told, switches);
            ("", linker.invalidate(alloc, &switches, made))
        }
        ["install", ref sites @ ..] => {
            let sites = numbers(told, sites);
            ("", linker.install(alloc, &sites, made))
        }
        _ => change(told, linker, words, made),
    }
}

/// Makes an event.
fn make(
    told: &mut Told,
    linker: &mut Linker,
    words: &[&str],
    made: &mut Made,
) -> (&'static str, u32) {
    let alloc = told.alloc();
    match *words {
        ["new-loader"] => ("loader", linker.new_loader(alloc, made)),
        ["delegate", from, name, to] => {
            let (from, to) = (number(told, from), number(told, to));
            (
                "",
                linker.delegate(alloc, from, text(name).as_bytes(), to, made),
            )
        }
        ["request", method, pc] => {
            let ((class, method), pc) = (pair(told, method, '.'), number(told, pc));
            ("site", linker.request(alloc, class, method, pc, made))
        }
        ["bind", site, call_site] => {
            let (site, call_site) = (number(told, site), number(told, call_site));
            ("", linker.bind(alloc, site, call_site, made))
        }
        _ => let_go(told, linker, words, made),
    }
}

/// Makes the event of the words, and tells it.
pub(crate) fn obey(told: &mut Told, linker: &mut Linker, words: &[&str]) {
    let mut made = untold();
    let (word, status) = make(told, linker, words, &mut made);
    event(told, word, status, &made);
}
