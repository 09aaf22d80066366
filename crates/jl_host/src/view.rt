//! A linker's world as it was.

ghost use Rattle.std.specs.Prelude.{◌≡◌, ◌≤◌, None, length};
ghost use Rattle.jl_host.specs.Views.{IsViewTake, IsViewCall, IsViewSerial, IsViewPrepare, IsPreparedIn, links_in};

use crate::arrays::sites_from;
use crate::linker::Linker;
use crate::shown::{CallAnswer, LinkShown, answer_shown, link_shown, recv_of};
use crate::told::{CLOSED, DONE, MEMORY, TOO_SHORT, Told, tell_unprepared, unasked};
use jl_relink::{Snapshot, dispatch, prepare};
use jl_types::{Link, SiteNo};
use std::alloc::Global;
use std::marker::Model;

/// What there was to link when it was taken, or nothing. A clause sees what was seen.
pub struct View {
    seen: Option<Snapshot>,
}

// Written out, since a derived drop is proved anew in each crate that lets one go.
impl Drop for View {
    fn drop(self) {
        let View { seen: _seen } = self;
    }
}

impl Model for View {
    ghost use Rattle.std.specs.Prelude.{Option};
    ghost use Rattle.std.specs.Coded.{codes};
    ghost use Rattle.jl_types.specs.ForProofs.TargetCode.{target_code};
    ghost use Rattle.jl_relink.specs.Preparations.{Snapshot};

    ghost Value = { Option Snapshot };

    ghost coded = { Prim.hlevel (codes, target_code) };

    ghost view = { λ v. v.seen };
}

impl View {
    /// One that has seen nothing.
    pub fn blank() -> View
        ensures { result ≡ None }
    {
        View { seen: None }
    }

    /// Gives the view what there is to link now. Nothing is copied: an event that is to change what a view still has changes a copy,
    /// which shares the pages that stay. Want of memory leaves what the view has.
    pub fn take(&mut self, alloc: Global, linker: &mut Linker) -> u32
        ensures { IsViewTake self.old linker.old result self.new linker.new }
    {
        match linker.snapshot(alloc) {
            Ok(Some(seen)) => {
                self.seen = Some(seen);
                DONE
            }
            Ok(None) => CLOSED,
            Err(_) => MEMORY,
        }
    }

    /// Lets go what was seen.
    pub fn leave(&mut self)
        ensures { self.new ≡ None }
    {
        self.seen = None;
    }

    /// After how many accepted events the view was taken. Takes no lock and no memory.
    pub fn serial(&mut self, serial: &mut u64) -> u32
        ensures { IsViewSerial self.old serial.old result serial.new self.new }
    {
        let Some(seen) = &self.seen else {
            return CLOSED;
        };
        *serial = seen.serial();
        DONE
    }

    /// The answer to a call as it was when the view was taken, linked or not. Takes no lock and no memory.
    pub fn call(&mut self, site: u32, receiver: u32, answer: &mut CallAnswer) -> u32
        ensures { IsViewCall site receiver self.old answer.old result answer.new self.new }
    {
        let Some(seen) = &self.seen else {
            return CLOSED;
        };
        *answer = answer_shown(dispatch(seen.world(), SiteNo::new(site), recv_of(receiver)));
        DONE
    }

    /// The links of these sites from scratch, 1 to 256 of them, as they were when the view was taken, written in the order of the sites:
    /// all or none. Nothing is installed. Takes no lock.
    pub fn prepare(
        &mut self,
        alloc: Global,
        sites: &[u32],
        links: &mut [LinkShown],
        told: &mut Told,
    ) -> u32
        ensures { IsViewPrepare sites.now self.old links.old result links.new told.new self.new }
    {
        let Some(seen) = &self.seen else {
            return unasked(CLOSED, told);
        };
        if links.len() < sites.len() {
            return unasked(TOO_SHORT, told);
        }
        prepare_in(alloc, seen, sites, links, told)
    }
}

/// Writes the links of these sites from scratch in what was seen, in the order of the sites, for which there is room.
fn prepare_in(
    alloc: Global,
    seen: &Snapshot,
    sites: &[u32],
    links: &mut [LinkShown],
    told: &mut Told,
) -> u32
    requires { length sites.now ≤ length links.old }
    ensures { IsPreparedIn seen.now sites.now links.old result links.new told.new }
{
    let Ok(sites) = sites_from(alloc, sites) else {
        return unasked(MEMORY, told);
    };
    match prepare(alloc, seen, sites.as_slice()) {
        Ok(prepared) => {
            write_links(prepared.rows.as_slice(), links);
            unasked(DONE, told)
        }
        Err(fault) => tell_unprepared(fault, told),
    }
}

/// Writes the links of the rows to the front of the array, which has room for them.
fn write_links(rows: &[(SiteNo, Link)], links: &mut [LinkShown])
    requires { length rows.now ≤ length links.old }
    ensures { links.new ≡ links_in rows.now links.old }
{
    for (place, row) in rows.iter().enumerate() {
        links[place] = link_shown(Some(row.1));
    }
}
