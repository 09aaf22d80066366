//! Tokens that name a beginning of a server's history.

ghost use Rattle.std.specs.Prelude.{◌≡◌, ◌≤◌, ◌++◌, ◌∷◌, ◌⊎◌, [], length, MatchBool};
ghost use mathlib.Core.List.{IsPrefix};
ghost use Rattle.jl_types.specs.Events.Entries.{IsEntry, IsLegal, events_of};
ghost use Rattle.jl_server.specs.History.{planned_entry};

use crate::entry::Entry;
use crate::history::{Add, Head, Law, Name, Nothing};
use crate::mark::Mark;
use jl_core::Planned;
use logbook::{Offer, Seen as Reached};
use std::marker::{Model, PhantomData};

/// A token for a legal list of the server K: a beginning of its history, which somebody was told of. A clause sees the list. The token
/// keeps only the length.
pub struct Seen<K: Name> {
    serial: u64,
    reached: Reached<Entry, u64, Law>,
    of: PhantomData<K>,
}

/// Written out, so that what drops one makes one call of it and doesn't take apart what it holds.
impl<K: Name> Drop for Seen<K> {
    fn drop(self) {
        let Seen {
            serial: _serial,
            reached: _reached,
            of: _of,
        } = self;
    }
}

impl<K: Name> Model for Seen<K> {
    ghost use Rattle.std.specs.Prelude.{◌≡◌, List, length};
    ghost use Rattle.std.specs.Coded.{codes};
    ghost use Rattle.jl_types.specs.ForProofs.TargetCode.{target_code};
    ghost use Rattle.jl_types.specs.Events.Entries as plain;
    ghost use Rattle.jl_types.specs.Events.Entries.{IsLegal};

    ghost Value = { List plain.Entry };

    ghost coded = { Prim.hlevel (codes, target_code) };

    ghost view = { λ s. s.reached.log };

    ghost invariant = { λ s. (s.serial ≡ length s.reached.log) × (s.reached.book ≡ K.book) × IsLegal K.limits s.reached.log };
}

impl<K: Name> Seen<K> {
    /// The token that has seen nothing.
    pub(crate) fn first(reached: Reached<Entry, u64, Law>) -> Seen<K>
        requires book { reached.book ≡ K.book }
        requires empty { reached.log ≡ [] }
        ensures { result ≡ [] }
    {
        Seen {
            serial: 0,
            reached,
            of: PhantomData,
        }
    }

    /// How many entries the list has: the serial of the event that is its last.
    pub fn serial(&self) -> u64
        ensures length { result ≡ length self.now }
        ensures legal { IsLegal K.limits self.now }
    {
        self.serial
    }

    /// The list, with no word on whose history it is.
    pub(crate) fn mark(&self) -> Mark
        ensures list { result.reached.log ≡ self.now }
        ensures book { result.reached.book ≡ K.book }
        ensures legal { IsLegal K.limits self.now }
    {
        Mark {
            serial: self.serial,
            reached: self.reached.again(),
        }
    }

    /// The list of a mark of this history.
    pub(crate) fn of(mark: &Mark) -> Seen<K>
        requires book { mark.now.reached.book ≡ K.book }
        requires legal { IsLegal K.limits mark.now.reached.log }
        ensures { result ≡ mark.now.reached.log }
    {
        Seen {
            serial: mark.serial,
            reached: mark.reached.again(),
            of: PhantomData,
        }
    }

    /// A copy. Takes no memory.
    pub fn again(&self) -> Seen<K>
        ensures { result ≡ self.now }
    {
        Seen {
            serial: self.serial,
            reached: self.reached.again(),
            of: PhantomData,
        }
    }

    /// Shows that this list, which is no longer than the other, begins it.
    pub fn begins(&self, other: &Seen<K>)
        requires { length self.now ≤ length other.now }
        ensures { IsPrefix self.now other.now }
    {
        let mut both = self.reached.again();
        both.learn(&other.reached);
    }

    /// The longer of two lists, which the other begins. Takes no memory.
    pub fn longer(&self, other: &Seen<K>) -> Seen<K>
        ensures one { (result ≡ self.now) ⊎ (result ≡ other.now) }
        ensures this { IsPrefix self.now result }
        ensures that { IsPrefix other.now result }
        ensures legal { IsLegal K.limits result }
    {
        if self.serial < other.serial {
            self.begins(other);
            other.again()
        } else {
            other.begins(self);
            self.again()
        }
    }

    /// Adds what was planned to all that was seen, and says whether it did. It did not if the history is longer, or has 2^64 - 1
    /// entries; then the history is as it was.
    pub(crate) fn add(&mut self, head: &mut Head<K>, planned: &Planned) -> bool
        requires { IsEntry K.limits (events_of self.old) (planned_entry planned.now) }
        ensures list { MatchBool result (self.new ≡ self.old ++ planned_entry planned.now ∷ []) (self.new ≡ self.old) }
        ensures head { MatchBool result (head.new ≡ self.new) (head.new ≡ head.old) }
    {
        let serial = self.serial;
        let Some(next) = serial.checked_add(1) else {
            return false;
        };
        let mut reached = self.reached.again();
        let mut offer: Offer<Entry, u64, Law, Nothing> = reached.plain::<Nothing, Planned, Add>(
            planned,
        );
        let mut pen = reached.no_pen();
        let found = head
            .word
            .compare_exchange::<Add, Nothing>(serial, next, &mut reached, &mut offer, &mut pen);
        if found != serial {
            return false;
        }
        head.grown = reached.again();
        self.serial = next;
        self.reached = reached;
        true
    }
}
