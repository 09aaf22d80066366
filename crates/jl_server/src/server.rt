//! A link server: its book under one lock.

ghost use Rattle.std.specs.Prelude.{◌≡◌, ◌<◌, ◌≤◌, [], ◌∷◌, ◌++◌, length, IsOk, IfOk, IfErr, IfSome, OnErr};
ghost use Rattle.std.specs.Sync.Mutex.{mutex_guard_value};
ghost use mathlib.Core.List.{IsPrefix};
ghost use Rattle.jl_types.specs.Events.Limits.{IsWithin};
ghost use Rattle.jl_types.specs.Events.Verdict.{verdict};
ghost use Rattle.jl_types.specs.Linkage.Calls.{dispatch};
ghost use Rattle.jl_types.specs.Events.History.{world_after, installed, installed_links};
ghost use Rattle.jl_types.specs.Events.Entries.{IsLegal, events_of};
ghost use Rattle.jl_hierarchy.specs.Constancy.{AreInOrder};
ghost use Rattle.jl_core.specs.State.{IsRefused};
ghost use Rattle.jl_memo.specs.Answers.{told};
ghost use Rattle.jl_server.specs.History.{EndsWith, entry_after};

use crate::book::{Book, Denied, Receipt};
use crate::caller::Caller;
use crate::history::Name;
use crate::memo::Memo;
use crate::seen::Seen;
use jl_names::Seq;
use jl_relink::Snapshot;
use jl_types::{Answer, Event, Link, Recv, SiteNo};
use std::alloc::{AllocError, Global};
use std::sync::{Mutex, MutexGuard, Wait};

/// One book under one lock. Its drop waits for the callers that are inside the table; from then on calls are Closed.
pub struct LinkServer<K: Name, R: Wait + Drop> {
    book: Mutex<Book<K, R>>,
}

// Written out, since a derived drop is proved anew in each crate that lets one go.
impl<K: Name, R: Wait + Drop> Drop for LinkServer<K, R> {
    fn drop(self) {
        let LinkServer { book: _book } = self;
    }
}

impl<K: Name, R: Wait + Drop> LinkServer<K, R> {
    /// A server of this book, from now on under one lock.
    pub fn of(book: Book<K, R>) -> LinkServer<K, R> {
        LinkServer {
            book: Mutex::new(book),
        }
    }
}

/// The installed links after a list of so many entries.
#[derive(Debug, Drop)]
pub struct LinkList {
    pub serial: u64,
    /// Each site that has an installed link, with it, by rising number.
    pub rows: Seq<(SiteNo, Link)>,
}

impl<K: Name, R: Wait + Drop> LinkServer<K, R> {
    /// The installed links after all that the caller has seen. It waits for the lock. Want of memory is an error; the caller has then
    /// seen what it had.
    pub fn links<H: Wait>(
        &self,
        rt: &H,
        alloc: Global,
        caller: &mut Caller<K>,
    ) -> Result<LinkList, AllocError>
        ensures own { IsPrefix caller.old caller.new }
        ensures legal { IsLegal K.limits caller.new }
        ensures serial { IfOk result (λ list. list.serial ≡ length caller.new) }
        ensures rows { IfOk result (λ list. list.rows ≡ installed_links (events_of caller.new)) }
        ensures unchanged { OnErr result (caller.new ≡ caller.old) }
    {
        // Shows that the list is legal.
        let _serial = caller.seen().serial();
        caller.seen().begins(caller.seen());
        let (rows, seen) = links_after(rt, alloc, self, caller.seen())?;
        caller.see(&seen);
        Ok(LinkList {
            serial: seen.serial(),
            rows: Seq::of(rows),
        })
    }
}

impl<K: Name, R: Wait + Drop> LinkServer<K, R> {
    /// Forgets the entries of all events but the last one, as [`Book::forget`] does. It waits for the lock. What a caller has seen stays
    /// a legal list, and no call, link, snapshot or receipt is another one than before. It takes no memory.
    pub fn forget<H: Wait>(&self, rt: &H) {
        let mut book = self.book.lock(rt);
        book.forget();
    }
}

impl<K: Name> Caller<K> {
    /// Applies the event after all that the caller has seen. It waits for the lock.
    ///
    /// # Errors
    ///
    /// The first refusal after the list that the error names, or want of memory if there is none.
    pub fn apply<H: Wait, R: Wait + Drop>(
        &mut self,
        rt: &H,
        alloc: Global,
        server: &LinkServer<K, R>,
        event: Event,
    ) -> Result<Receipt<K>, Denied<K>>
        ensures own { IsPrefix self.old self.new }
        ensures legal { IsLegal K.limits self.new }
        ensures receipt { IfOk result (λ r. (r.seen ≡ self.new) × (r.serial ≡ length self.new)) }
        ensures entry { IfOk result (λ r. EndsWith self.new event r.reply) }
        ensures longer { IfOk result (λ r. length self.old < length self.new) }
        ensures denied { IfErr result (λ d. d.seen ≡ self.new) }
        ensures refused { IfErr result (λ d. IsRefused (verdict K.limits (world_after (events_of self.new)) event) d.refusal) }
    {
        self.apply_one(rt, alloc, server, event, None)
    }

    /// Does what [`apply`](Caller::apply) does, with an event that would have been accepted after this list. If nothing but installs came
    /// since, it isn't judged again under the lock.
    ///
    /// # Errors
    ///
    /// Those of [`apply`](Caller::apply).
    pub fn apply_judged<H: Wait, R: Wait + Drop>(
        &mut self,
        rt: &H,
        alloc: Global,
        server: &LinkServer<K, R>,
        event: Event,
        judged: &Seen<K>,
    ) -> Result<Receipt<K>, Denied<K>>
        requires { IsOk (verdict K.limits (world_after (events_of judged.now)) event) }
        ensures own { IsPrefix self.old self.new }
        ensures legal { IsLegal K.limits self.new }
        ensures receipt { IfOk result (λ r. (r.seen ≡ self.new) × (r.serial ≡ length self.new)) }
        ensures entry { IfOk result (λ r. EndsWith self.new event r.reply) }
        ensures longer { IfOk result (λ r. length self.old < length self.new) }
        ensures denied { IfErr result (λ d. d.seen ≡ self.new) }
        ensures refused { IfErr result (λ d. IsRefused (verdict K.limits (world_after (events_of self.new)) event) d.refusal) }
    {
        self.apply_one(rt, alloc, server, event, Some(judged))
    }

    /// Applies the event, which is accepted after the judged list, if there is one.
    fn apply_one<'a, H: Wait, R: Wait + Drop>(
        &mut self,
        rt: &H,
        alloc: Global,
        server: &'a LinkServer<K, R>,
        event: Event,
        judged: Option<&'a Seen<K>>,
    ) -> Result<Receipt<K>, Denied<K>>
        requires { IfSome judged (λ list. IsOk (verdict K.limits (world_after (events_of list.now)) event)) }
        ensures own { IsPrefix self.old self.new }
        ensures legal { IsLegal K.limits self.new }
        ensures receipt { IfOk result (λ r. (r.seen ≡ self.new) × (r.serial ≡ length self.new)) }
        ensures entry { IfOk result (λ r. EndsWith self.new event r.reply) }
        ensures longer { IfOk result (λ r. length self.old < length self.new) }
        ensures denied { IfErr result (λ d. d.seen ≡ self.new) }
        ensures refused { IfErr result (λ d. IsRefused (verdict K.limits (world_after (events_of self.new)) event) d.refusal) }
    {
        let answer = apply_after(rt, alloc, server, self.seen(), event, judged);
        match &answer {
            Ok(receipt) => self.see(&receipt.seen),
            Err(denied) => self.see(&denied.seen),
        }
        answer
    }

    /// A snapshot of the world after all that the caller has seen. It waits for the lock. Want of memory is an error; the caller
    /// has then seen what it had.
    pub fn snapshot<H: Wait, R: Wait + Drop>(
        &mut self,
        rt: &H,
        alloc: Global,
        server: &LinkServer<K, R>,
    ) -> Result<(Snapshot, Seen<K>), AllocError>
        ensures own { IsPrefix self.old self.new }
        ensures legal { IsLegal K.limits self.new }
        ensures seen { IfOk result (λ r. r.1 ≡ self.new) }
        ensures world { IfOk result (λ r. r.0 ≡ record { world = world_after (events_of self.new); serial = length self.new }) }
        ensures within { IfOk result (λ r. IsWithin K.limits r.0.world) }
        ensures unchanged { OnErr result (self.new ≡ self.old) }
    {
        // Shows that the list is legal.
        let _serial = self.seen().serial();
        self.seen().begins(self.seen());
        let (snapshot, seen) = snapshot_after(rt, alloc, server, self.seen())?;
        self.see(&seen);
        Ok((snapshot, seen))
    }
}

/// The answer to a call after a list, and the site's installed link then, if there was one.
#[derive(Drop)]
struct Asked<K: Name> {
    answer: Answer,
    link: Option<Link>,
    seen: Seen<K>,
}

impl<K: Name> Caller<K> {
    /// The answer to a call after all that the caller has seen, linked or not. At a site of a retired loader it is that the site is gone.
    /// On an object of a class of a retired loader it is that it is no receiver. It waits for the lock, and takes no memory.
    pub fn ask<H: Wait, R: Wait + Drop>(
        &mut self,
        rt: &H,
        server: &LinkServer<K, R>,
        site: SiteNo,
        recv: Recv,
    ) -> Answer
        ensures own { IsPrefix self.old self.new }
        ensures legal { IsLegal K.limits self.new }
        ensures answer { dispatch (world_after (events_of self.new)) site recv ≡ result }
    {
        let asked = ask_after(rt, server, self.seen(), &(site, recv));
        self.see(&asked.seen);
        asked.answer
    }

    /// Does what [`ask`](Caller::ask) does. The memo remembers the answer if the site's link is megamorphic and the call has an outcome for
    /// its receiver's class. The caller learns what the memo has seen.
    pub fn ask_with<H: Wait, R: Wait + Drop>(
        &mut self,
        rt: &H,
        server: &LinkServer<K, R>,
        memo: &mut Memo<K>,
        site: SiteNo,
        recv: Recv,
    ) -> Answer
        ensures own { IsPrefix self.old self.new }
        ensures memo { IsPrefix memo.old.seen self.new }
        ensures legal { IsLegal K.limits self.new }
        ensures answer { dispatch (world_after (events_of self.new)) site recv ≡ result }
        ensures told { memo.new
            ≡ record { seen = self.new; sets = told memo.old.sets (installed (events_of self.new) site) site recv result } }
    {
        let own = self.seen().longer(memo.seen());
        let call = (site, recv);
        let Asked { answer, link, seen } = ask_after(rt, server, &own, &call);
        memo.tell(&seen, &link, &call, &answer);
        self.see(&seen);
        answer
    }
}

/// The book under the lock, whose list is no shorter than this one. While it is shorter, which never happens, the lock is let go and taken
/// again.
pub(crate) fn caught_up<'a, K: Name, H: Wait, R: Wait + Drop>(
    rt: &H,
    server: &'a LinkServer<K, R>,
    seen: &Seen<K>,
) -> MutexGuard<'a, Book<K, R>>
    ensures begun { IsPrefix seen.now (mutex_guard_value result) }
    ensures legal { IsLegal K.limits (mutex_guard_value result) }
{
    for _ in rt.forever() {
        let book = server.book.lock(rt);
        if book.list().serial() >= seen.serial() {
            seen.begins(book.list());
            return book;
        }
    }
    unreachable!()
}

/// The answer to the call after this list.
fn ask_after<K: Name, H: Wait, R: Wait + Drop>(
    rt: &H,
    server: &LinkServer<K, R>,
    seen: &Seen<K>,
    call: &(SiteNo, Recv),
) -> Asked<K>
    ensures seen { IsPrefix seen.now result.seen × IsLegal K.limits result.seen }
    ensures answer { dispatch (world_after (events_of result.seen)) call.now.0 call.now.1 ≡ result.answer }
    ensures link { result.link ≡ installed (events_of result.seen) call.now.0 }
    ensures order { AreInOrder (world_after (events_of result.seen)).classes }
{
    let book = caught_up(rt, server, seen);
    let (answer, link) = book.ask(call.0, call.1);
    Asked {
        answer,
        link,
        seen: book.list().again(),
    }
}

/// One step of the book after this list, of an event that is accepted after the judged list, if there is one.
fn apply_after<K: Name, H: Wait, R: Wait + Drop>(
    rt: &H,
    alloc: Global,
    server: &LinkServer<K, R>,
    seen: &Seen<K>,
    event: Event,
    judged: Option<&Seen<K>>,
) -> Result<Receipt<K>, Denied<K>>
    requires { IfSome judged (λ list. IsOk (verdict K.limits (world_after (events_of list.now)) event)) }
    ensures receipt { IfOk result (λ r. IsPrefix seen.now r.seen × IsLegal K.limits r.seen × (r.serial ≡ length r.seen)) }
    ensures entry { IfOk result (λ r. EndsWith r.seen event r.reply) }
    ensures longer { IfOk result (λ r. length seen.now < length r.seen) }
    ensures denied { IfErr result (λ d. IsPrefix seen.now d.seen × IsLegal K.limits d.seen) }
    ensures refused { IfErr result (λ d. IsRefused (verdict K.limits (world_after (events_of d.seen)) event) d.refusal) }
{
    let mut book = caught_up(rt, server, seen);
    step_after(rt, alloc, &mut book, seen, event, judged)
}

/// One step of the book, which this list begins: the book gets this one entry, or stays as it is.
fn step_after<K: Name, H: Wait, R: Wait + Drop>(
    rt: &H,
    alloc: Global,
    book: &mut Book<K, R>,
    seen: &Seen<K>,
    event: Event,
    judged: Option<&Seen<K>>,
) -> Result<Receipt<K>, Denied<K>>
    requires begun { IsPrefix seen.now book.old }
    requires judged { IfSome judged (λ list. IsOk (verdict K.limits (world_after (events_of list.now)) event)) }
    ensures receipt { IfOk result (λ r. IsPrefix seen.now r.seen × IsLegal K.limits r.seen × (r.serial ≡ length r.seen)) }
    ensures entry { IfOk result (λ r. EndsWith r.seen event r.reply) }
    ensures longer { IfOk result (λ r. length seen.now < length r.seen) }
    ensures denied { IfErr result (λ d. IsPrefix seen.now d.seen × IsLegal K.limits d.seen) }
    ensures refused { IfErr result (λ d. IsRefused (verdict K.limits (world_after (events_of d.seen)) event) d.refusal) }
    ensures added { IfOk result (λ r. (book.new ≡ book.old ++ entry_after book.old event r.reply ∷ []) × (r.seen ≡ book.new)) }
    ensures kept { IfErr result (λ d. (book.new ≡ book.old) × (d.seen ≡ book.old)) }
{
    let _seen = seen;
    book.step_judged(rt, alloc, event, judged)
}

/// A snapshot of the book after this list.
fn snapshot_after<K: Name, H: Wait, R: Wait + Drop>(
    rt: &H,
    alloc: Global,
    server: &LinkServer<K, R>,
    seen: &Seen<K>,
) -> Result<(Snapshot, Seen<K>), AllocError>
    ensures seen { IfOk result (λ r. IsPrefix seen.now r.1 × IsLegal K.limits r.1) }
    ensures world { IfOk result (λ r. r.0 ≡ record { world = world_after (events_of r.1); serial = length r.1 }) }
    ensures within { IfOk result (λ r. IsWithin K.limits r.0.world) }
{
    let book = caught_up(rt, server, seen);
    book.snapshot(alloc)
}

/// The installed links of the book after this list.
fn links_after<K: Name, H: Wait, R: Wait + Drop>(
    rt: &H,
    alloc: Global,
    server: &LinkServer<K, R>,
    seen: &Seen<K>,
) -> Result<(Vec<(SiteNo, Link)>, Seen<K>), AllocError>
    ensures seen { IfOk result (λ r. IsPrefix seen.now r.1 × IsLegal K.limits r.1) }
    ensures rows { IfOk result (λ r. r.0.items ≡ installed_links (events_of r.1)) }
{
    let book = caught_up(rt, server, seen);
    match book.links(alloc) {
        Ok(rows) => Ok((rows, book.list().again())),
        Err(error) => Err(error),
    }
}
