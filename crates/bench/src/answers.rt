//! The lines of growths.

use jl_types::{Link, SiteNo};
use std::fmt::Debug;
use std::io;

/// Whose call it is, and which.
#[derive(Clone, Copy)]
pub(crate) struct Called {
    pub(crate) of: &'static str,
    pub(crate) deed: &'static str,
}

/// Prints what the call was answered, which isn't Memory.
pub(crate) fn told<D: Debug>(rt: &HostRuntime, called: Called, answer: &D) -> io::Result<bool> {
    let Called { of, deed } = called;
    println!(rt; "{of}: {deed}: {answer:?}")?;
    Ok(false)
}

/// Prints a word on the call.
fn tell_word(rt: &HostRuntime, called: Called, word: &str) -> io::Result<()> {
    let Called { of, deed } = called;
    println!(rt; "{of}: {deed}: {word}")
}

/// Prints that the call was answered Memory.
pub(crate) fn tell_memory(rt: &HostRuntime, called: Called) -> io::Result<()> {
    tell_word(rt, called, "Memory")
}

/// Prints whether the state is as it was before the call.
pub(crate) fn tell_state(rt: &HostRuntime, called: Called, as_before: bool) -> io::Result<()> {
    tell_word(rt, called, if as_before { "as before" } else { "CHANGED" })
}

/// Prints a site and its link, in which a table is the list of its rows.
pub(crate) fn told_link(
    rt: &HostRuntime,
    called: Called,
    site: SiteNo,
    link: &Link,
) -> io::Result<bool> {
    match link {
        Link::Table(kind, table) => told(rt, called, &(site, *kind, table.as_slice())),
        link => told(rt, called, &(site, *link)),
    }
}
