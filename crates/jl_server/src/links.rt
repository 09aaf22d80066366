//! The links of sites, as callers read them.

ghost use Rattle.std.specs.Prelude.{◌≡◌, ◌<◌, ◌≤◌, [], false, Some, None, IfOk, length, replicate, get_or, slice_set};
ghost use Rattle.std.specs.Vec.{vec_capacity};
ghost use Rattle.jl_types.specs.declared.link.Link.TheVariants as variant;
ghost use Rattle.jl_types.specs.Events.Fast as fast;
ghost use Rattle.jl_types.specs.Events.Entries.{written};
ghost use Rattle.jl_memo.specs.Answers.{answer_with};
ghost use Rattle.jl_server.specs.ForProofs.Slots as slots;
ghost use Rattle.jl_server.specs.ForProofs.Slots.{link_of, has_table, ArePlaces, IsPut};

use jl_cache::{direct_answer, table_answer};
use jl_memo::{Memo, remembered_answer};
use jl_types::{Answer, Fast, Link, MethodId, Outcome, Recv, SiteNo, Table, TableKind, Throwable};
use std::alloc::{AllocError, Global};
use std::marker::Model;
use std::mem::size_of;

/// The links of sites, by number, as callers read them. A clause sees each site's link or none.
///
/// A slot takes 16 bytes, so that a call mostly looks at one line of the cache: the rows of tables stand apart. Room for the rows of each
/// site is made with the links, and no write takes memory; pages of that room which are never written take none on the machines that we
/// know.
pub struct PublishedLinks {
    /// By site, what calls need of its link.
    slots: Vec<Slot>,
    /// By site: 0 where it never had a table, else one more than the place of its rows, which it keeps for good.
    places: Vec<u32>,
    /// By place, the rows.
    tables: Vec<Table>,
}

/// What calls need of a site's link, if there is one: of a table its kind, and the place of its rows.
#[derive(Clone, Copy)]
enum Slot {
    Empty,
    Fault(Throwable),
    Plain(MethodId),
    Direct(Outcome),
    Table(TableKind, u32),
    Mega,
}

const _: () = prove!(size_of::<Slot>() == 16);

/// Written out, so that what drops one makes one call of it and doesn't take apart what it holds.
impl Drop for PublishedLinks {
    fn drop(self) {
        let PublishedLinks {
            slots: _slots,
            places: _places,
            tables: _tables,
        } = self;
    }
}

impl Model for PublishedLinks {
    ghost use Rattle.std.specs.Prelude.{List, Option, map, length, ◌≤◌};
    ghost use Rattle.std.specs.Vec.{vec_capacity};
    ghost use Rattle.jl_types.specs.declared.link.Link.{Link};
    ghost use Rattle.jl_server.specs.ForProofs.Slots.{link_of, AreSlots};

    ghost Value = { List (Option Link) };

    ghost view = { λ p. map (link_of p.tables.items) p.slots.items };

    ghost invariant = { λ p. AreSlots p.slots.items p.places.items p.tables.items (vec_capacity p.tables) };
}

impl PublishedLinks {
    /// No links of so many sites.
    pub fn new(alloc: Global, sites: u32) -> Result<PublishedLinks, AllocError>
        ensures { IfOk result (λ links. links ≡ replicate sites None) }
    {
        let count = sites as usize;
        Ok(PublishedLinks {
            slots: filled(alloc, Slot::Empty, count)?,
            places: filled(alloc, 0, count)?,
            tables: Vec::with_capacity(alloc, count)?,
        })
    }

    /// Writes the links one after another; a site past the end has none. Takes no memory.
    pub fn write(&mut self, slots: &[(SiteNo, Option<Link>)])
        ensures { self.new ≡ written self.old slots.now }
    {
        for slot in slots {
            self.set(slot.0.number() as usize, &slot.1);
        }
    }

    /// The answer at once to a call at the site, with so many classes. Takes no memory.
    pub fn answer(&self, site: SiteNo, classes: usize, recv: Recv) -> Fast
        ensures { result ≡ fast.fast_answer (get_or self.now site None) classes recv }
    {
        match self.slots.as_slice().get(site.number() as usize) {
            Some(slot) => slot_answer(self.tables.as_slice(), *slot, classes, recv),
            None => Fast::Miss,
        }
    }

    /// The answer at once to a call at the site, with so many classes, at a megamorphic link by what is remembered. Takes no memory.
    pub fn answer_with(&self, rows: &Memo, classes: usize, site: SiteNo, recv: Recv) -> Fast
        ensures { result ≡ answer_with rows.now (get_or self.now site None) classes site recv }
    {
        match self.slots.as_slice().get(site.number() as usize) {
            Some(Slot::Mega) => remembered_answer(rows, site, recv),
            Some(slot) => slot_answer(self.tables.as_slice(), *slot, classes, recv),
            None => Fast::Miss,
        }
    }

    /// Writes the link of a site, or that it has none. A site past the end has no slot.
    fn set(&mut self, site: usize, link: &Option<Link>)
        ensures { self.new ≡ slice_set self.old site link.now }
    {
        match link {
            None => self.set_slot(site, Slot::Empty),
            Some(Link::Fault(throwable)) => self.set_slot(site, Slot::Fault(*throwable)),
            Some(Link::Plain(method)) => self.set_slot(site, Slot::Plain(*method)),
            Some(Link::Direct(outcome)) => self.set_slot(site, Slot::Direct(*outcome)),
            Some(Link::Table(kind, table)) => self.set_table(site, *kind, table),
            Some(Link::Mega) => self.set_slot(site, Slot::Mega),
        }
    }

    /// Writes the slot of a link that has no table.
    fn set_slot(&mut self, site: usize, slot: Slot)
        requires { has_table slot ≡ false }
        ensures { self.new ≡ slice_set self.old site (link_of [] slot) }
    {
        if site < self.slots.len() {
            self.slots[site] = slot;
        }
    }

    /// Writes the slot of a link that has a table, and the table.
    fn set_table(&mut self, site: usize, kind: TableKind, table: &Table)
        ensures { self.new ≡ slice_set self.old site (Some (variant.Table kind table.now)) }
    {
        if site < self.slots.len() {
            let place = put(&mut self.places, &mut self.tables, site, table);
            self.slots[site] = Slot::Table(kind, place);
        }
    }
}

/// The answer at once to a call by the slot.
fn slot_answer(tables: &[Table], slot: Slot, classes: usize, recv: Recv) -> Fast
    ensures { result ≡ fast.fast_answer (link_of tables.now slot) classes recv }
{
    match slot {
        Slot::Empty => Fast::Miss,
        Slot::Fault(throwable) => Fast::Now(Answer::Throws(throwable)),
        Slot::Plain(method) => Fast::Now(Answer::Run(method)),
        Slot::Direct(outcome) => direct_answer(classes, outcome, recv),
        Slot::Table(kind, place) => match tables.get(place as usize) {
            Some(table) => table_answer(classes, kind, table, recv),
            None => Fast::Miss,
        },
        Slot::Mega => Fast::Miss,
    }
}

/// So many copies of a value.
fn filled<T: Copy + Drop>(alloc: Global, value: T, count: usize) -> Result<Vec<T>, AllocError>
    ensures { IfOk result (λ made. made.items ≡ replicate count value) }
{
    let mut made = Vec::with_capacity(alloc, count)?;
    for _ in 0..count {
        made.push(value)?;
    }
    Ok(made)
}

/// Puts the rows at the site's place, which is a new one if it has none, and tells the place. Takes no memory.
fn put(places: &mut Vec<u32>, tables: &mut Vec<Table>, site: usize, table: &Table) -> u32
    requires there { site < length places.old.items }
    requires placed { ArePlaces places.old.items tables.old.items }
    requires room { length places.old.items ≤ vec_capacity tables.old }
    ensures placed { ArePlaces places.new.items tables.new.items }
    ensures put { IsPut places.old.items tables.old.items site table.now result places.new.items tables.new.items }
    ensures room { vec_capacity tables.new ≡ vec_capacity tables.old }
{
    match place_of(places.as_slice(), site) {
        Some(place) => {
            tables[place as usize] = *table;
            place
        }
        None => {
            let place = tables.len() as u32;
            tables.push_reserved(*table);
            places[site] = place + 1;
            place
        }
    }
}

/// The place of the site's rows, if it has one.
fn place_of(places: &[u32], site: usize) -> Option<u32>
    ensures { result ≡ slots.place_of (get_or places.now site 0) }
{
    match places.get(site) {
        Some(place) => place.checked_sub(1),
        None => None,
    }
}
