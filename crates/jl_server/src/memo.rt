//! What a thread remembers of calls at megamorphic links.

ghost use Rattle.std.specs.Prelude.{◌≡◌, replicate, IfOk, IfSome};
ghost use mathlib.Core.List.{IsPrefix};
ghost use Rattle.jl_types.specs.Linkage.Calls.{dispatch};
ghost use Rattle.jl_types.specs.Events.History.{world_after, installed};
ghost use Rattle.jl_types.specs.Events.Entries.{events_of};
ghost use Rattle.jl_hierarchy.specs.Constancy.{AreInOrder};
ghost use Rattle.jl_memo.specs.Memos.{no_rows, remembered};
ghost use Rattle.jl_memo.specs.Answers.{AreRight, told};
ghost use Rattle.jl_server.specs.Remembering.{HoldsFrom};

use crate::history::Name;
use crate::seen::Seen;
use jl_types::{Answer, ClassId, Link, Outcome, Recv, SiteNo};
use std::alloc::{AllocError, Global};
use std::marker::Model;

/// The outcomes of calls at megamorphic links, for a thread that keeps it beside its caller. A clause sees the list after which the last of
/// them was answered, and what is remembered.
pub struct Memo<K: Name> {
    seen: Seen<K>,
    rows: jl_memo::Memo,
}

// Written out, since a derived drop is proved anew in each crate that lets one go.
impl<K: Name> Drop for Memo<K> {
    fn drop(self) {
        let Memo {
            seen: _seen,
            rows: _rows,
        } = self;
    }
}

impl<K: Name> Model for Memo<K> {
    ghost use Rattle.std.specs.Coded.{codes};
    ghost use Rattle.jl_types.specs.ForProofs.TargetCode.{target_code};
    ghost use Rattle.jl_types.specs.Events.History.{world_after};
    ghost use Rattle.jl_types.specs.Events.Entries.{events_of};
    ghost use Rattle.jl_memo.specs.Answers.{AreRight};
    ghost use Rattle.jl_server.specs.Remembering.{Remembering};

    ghost Value = { Remembering };

    ghost coded = { Prim.hlevel (codes, target_code) };

    ghost view = { λ m. record { seen = m.seen; sets = m.rows } };

    ghost invariant = { λ m. AreRight (world_after (events_of m.seen)) m.rows };
}

impl<K: Name> Memo<K> {
    /// One that remembers nothing, with room for two calls in each of so many sets, for a caller that has seen this.
    pub fn new(alloc: Global, seen: &Seen<K>, sets: u32) -> Result<Memo<K>, AllocError>
        ensures { IfOk result (λ memo. memo ≡ record { seen = seen.now; sets = replicate sets no_rows }) }
    {
        Ok(Memo {
            seen: seen.again(),
            rows: jl_memo::Memo::new(alloc, sets)?,
        })
    }

    /// The list after which the last call was answered that it was told. Takes no memory.
    pub fn seen(&self) -> &Seen<K>
        ensures { result.now ≡ self.now.seen }
    {
        &self.seen
    }

    /// The outcome of the site's calls on objects of the class, if it is remembered (JVMS SE 17 §5.4.6, §6.5). Takes no memory.
    ///
    /// It is right after the list that the memo has seen, and after each list that goes on it, while the site's class and this one are
    /// present. For a retired site, whose code is gone, and for a retired class, of which there is no object, it still gives what was
    /// remembered.
    pub fn get(&self, site: SiteNo, class: ClassId) -> Option<Outcome>
        ensures remembered { result ≡ remembered self.now.sets site class }
        ensures stays { IfSome result (HoldsFrom K.limits self.now.seen site class) }
    {
        // Opens the invariant: what is remembered holds from the seen list on.
        let _seen = &self.seen;
        self.rows.get(site, class)
    }

    /// What it remembers.
    pub(crate) fn rows(&self) -> &jl_memo::Memo
        ensures rows { result.now ≡ self.now.sets }
        ensures right { AreRight (world_after (events_of self.now.seen)) self.now.sets }
    {
        // Opens the invariant: what is remembered holds from the seen list on.
        let _seen = &self.seen;
        &self.rows
    }

    /// Remembers the outcome of a call after a list that goes on its own, at which the site's link was this. Takes no memory.
    pub(crate) fn tell(
        &mut self,
        seen: &Seen<K>,
        link: &Option<Link>,
        call: &(SiteNo, Recv),
        answer: &Answer,
    )
        requires later { IsPrefix self.old.seen seen.now }
        requires order { AreInOrder (world_after (events_of seen.now)).classes }
        requires link { link.now ≡ installed (events_of seen.now) call.now.0 }
        requires answer { dispatch (world_after (events_of seen.now)) call.now.0 call.now.1 ≡ answer.now }
        ensures { self.new ≡ record { seen = seen.now; sets = told self.old.sets link.now call.now.0 call.now.1 answer.now } }
    {
        jl_memo::told(&mut self.rows, link, call.0, call.1, *answer);
        self.seen = seen.again();
    }
}
