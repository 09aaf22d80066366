//! The state of a server, with its journal or with the entries from one on, in one hold of its lock: for a server that is to take over.

ghost use Rattle.std.specs.Prelude.{◌≡◌, ◌+◌, ◌≤◌, true, length, drop, IfOk, IfErr, OnOk, OnErr};
ghost use Rattle.std.specs.List.{list_all};
ghost use mathlib.Core.List.{IsPrefix};
ghost use Rattle.jl_types.specs.Events.History.{world_after};
ghost use Rattle.jl_types.specs.Events.Entries.{IsLegal, events_of};
ghost use Rattle.jl_relink.specs.Laws.{has_read_file};
ghost use Rattle.jl_core.specs.State.{AreAnswered};
ghost use Rattle.jl_core.specs.Logs.{are_told, shown};
ghost use Rattle.jl_server.specs.History.{core_of, logged_of};
ghost use Rattle.jl_server.specs.declared.fault.EntriesFault.TheVariants.{Memory};

use crate::caller::Caller;
use crate::fault::EntriesFault;
use crate::history::Name;
use crate::seen::Seen;
use crate::server::{LinkServer, caught_up};
use jl_core::{Entry, Journal, share_log};
use jl_relink::Snapshot;
use std::alloc::{AllocError, Global};
use std::sync::Wait;

/// The state of a server: the world after a list, the list's journal, of which a clause sees all entries, and that list.
pub struct Past<K: Name> {
    pub world: Snapshot,
    pub log: Journal<Entry>,
    pub seen: Seen<K>,
}

/// Written out, so that what drops one makes one call of it and doesn't take apart what it holds.
impl<K: Name> Drop for Past<K> {
    fn drop(self) {
        let Past {
            world: _world,
            log: _log,
            seen: _seen,
        } = self;
    }
}

/// The state of a server: the world after a list, the list's entries from one on, and that list.
pub struct Since<K: Name> {
    pub world: Snapshot,
    pub entries: Vec<Entry>,
    pub seen: Seen<K>,
}

/// Written out, so that what drops one makes one call of it and doesn't take apart what it holds.
impl<K: Name> Drop for Since<K> {
    fn drop(self) {
        let Since {
            world: _world,
            entries: _entries,
            seen: _seen,
        } = self;
    }
}

impl<K: Name> Caller<K> {
    /// The state of the server after all that the caller has seen, with its whole journal, in one hold of the lock, for which it waits.
    /// Each entry tells one event. So do those that are [forgotten](LinkServer::forget), which only a clause sees. The entries aren't
    /// copied, and each class file was read. Want of memory is an error; the caller has then seen what it had.
    pub fn past<H: Wait, R: Wait + Drop>(
        &mut self,
        rt: &H,
        alloc: Global,
        server: &LinkServer<K, R>,
    ) -> Result<Past<K>, AllocError>
        ensures own { IsPrefix self.old self.new }
        ensures legal { IsLegal K.limits self.new }
        ensures seen { IfOk result (λ r. r.seen ≡ self.new) }
        ensures world { IfOk result (λ r. r.world ≡ record { world = world_after (events_of self.new); serial = length self.new }) }
        ensures told { IfOk result (λ r. are_told r.world.world.classes.rows r.log ≡ true) }
        ensures entries { IfOk result (λ r. shown r.world.world.classes.rows r.log ≡ logged_of self.new) }
        ensures answered { OnOk result (AreAnswered (core_of K.limits self.new)) }
        ensures files { OnOk result (list_all has_read_file (events_of self.new) ≡ true) }
        ensures unchanged { OnErr result (self.new ≡ self.old) }
    {
        // Shows that the list is legal.
        let _serial = self.seen().serial();
        self.seen().begins(self.seen());
        let past = past_after(rt, alloc, server, self.seen())?;
        self.see(&past.seen);
        Ok(past)
    }

    /// The state of the server after all that the caller has seen, with the entries after the first so many, in one hold of the lock,
    /// for which it waits. Each entry tells one event. There are none if the list is no longer than so many. The entries aren't copied,
    /// and each class file was read.
    ///
    /// # Errors
    ///
    /// Forgotten, if one of these entries wasn't the last one when the server last [forgot](LinkServer::forget); want of memory. The caller
    /// has then seen what it had.
    pub fn entries<H: Wait, R: Wait + Drop>(
        &mut self,
        rt: &H,
        alloc: Global,
        server: &LinkServer<K, R>,
        from: u64,
    ) -> Result<Since<K>, EntriesFault>
        ensures own { IsPrefix self.old self.new }
        ensures legal { IsLegal K.limits self.new }
        ensures seen { IfOk result (λ r. r.seen ≡ self.new) }
        ensures world { IfOk result (λ r. r.world ≡ record { world = world_after (events_of self.new); serial = length self.new }) }
        ensures told { IfOk result (λ r. are_told r.world.world.classes.rows r.entries.items ≡ true) }
        ensures entries { IfOk result (λ r. shown r.world.world.classes.rows r.entries.items ≡ drop from (logged_of self.new)) }
        ensures answered { OnOk result (AreAnswered (core_of K.limits self.new)) }
        ensures files { OnOk result (list_all has_read_file (events_of self.new) ≡ true) }
        ensures unchanged { OnErr result (self.new ≡ self.old) }
    {
        // Shows that the list is legal.
        let _serial = self.seen().serial();
        self.seen().begins(self.seen());
        let since = entries_after(rt, alloc, server, self.seen(), from)?;
        self.see(&since.seen);
        Ok(since)
    }
}

/// The state of the book after this list, with its whole journal.
fn past_after<K: Name, H: Wait, R: Wait + Drop>(
    rt: &H,
    alloc: Global,
    server: &LinkServer<K, R>,
    seen: &Seen<K>,
) -> Result<Past<K>, AllocError>
    ensures seen { IfOk result (λ r. IsPrefix seen.now r.seen × IsLegal K.limits r.seen) }
    ensures world { IfOk result (λ r. r.world ≡ record { world = world_after (events_of r.seen); serial = length r.seen }) }
    ensures told { IfOk result (λ r. are_told r.world.world.classes.rows r.log ≡ true) }
    ensures entries { IfOk result (λ r. shown r.world.world.classes.rows r.log ≡ logged_of r.seen) }
    ensures answered { IfOk result (λ r. AreAnswered (core_of K.limits r.seen)) }
    ensures files { IfOk result (λ r. list_all has_read_file (events_of r.seen) ≡ true) }
{
    let book = caught_up(rt, server, seen);
    book.past(alloc)
}

/// The state of the book after this list, with the entries after the first so many.
fn entries_after<K: Name, H: Wait, R: Wait + Drop>(
    rt: &H,
    alloc: Global,
    server: &LinkServer<K, R>,
    seen: &Seen<K>,
    from: u64,
) -> Result<Since<K>, EntriesFault>
    ensures seen { IfOk result (λ r. IsPrefix seen.now r.seen × IsLegal K.limits r.seen) }
    ensures world { IfOk result (λ r. r.world ≡ record { world = world_after (events_of r.seen); serial = length r.seen }) }
    ensures told { IfOk result (λ r. are_told r.world.world.classes.rows r.entries.items ≡ true) }
    ensures entries { IfOk result (λ r. shown r.world.world.classes.rows r.entries.items ≡ drop from (logged_of r.seen)) }
    ensures answered { IfOk result (λ r. AreAnswered (core_of K.limits r.seen)) }
    ensures files { IfOk result (λ r. list_all has_read_file (events_of r.seen) ≡ true) }
{
    let book = caught_up(rt, server, seen);
    book.entries(alloc, from)
}

/// The entries of a log after its first so many. The log shares them.
///
/// # Errors
///
/// Forgotten, if one of these is past, which the last entry is not; want of memory.
pub(crate) fn share_from(
    alloc: Global,
    log: &Journal<Entry>,
    from: u64,
) -> Result<Vec<Entry>, EntriesFault>
    ensures copy { IfOk result (λ copy. copy.items ≡ drop from log.now) }
    ensures last { length log.now ≤ from + 1 → IfErr result (λ fault. fault ≡ Memory) }
{
    match log.kept_from(from) {
        Some(rest) => Ok(share_log(alloc, rest)?),
        None => Err(EntriesFault::Forgotten),
    }
}
