//! What lies under the lock: a core, and the one writer of the published table.

ghost use Rattle.std.specs.Prelude.{◌≡◌, ◌≤◌, ◌+◌, [], ◌∷◌, ◌++◌, true, length, drop, None, IsOk, IfOk, IfErr, IfSome, IfNone, OnErr};
ghost use Rattle.std.specs.Prelude.{if◌then◌else◌};
ghost use Rattle.std.specs.List.{list_all};
ghost use Rattle.jl_types.specs.declared.refusal.Refusal.TheVariants.{Memory};
ghost use Rattle.jl_types.specs.Events.Limits.{IsWithin};
ghost use Rattle.jl_types.specs.Events.Verdict.{verdict};
ghost use Rattle.jl_types.specs.Linkage.Calls.{dispatch};
ghost use Rattle.jl_types.specs.Events.History.{world_after, installed, installed_links};
ghost use Rattle.jl_types.specs.Events.Entries.{IsLegal, events_of};
ghost use Rattle.jl_hierarchy.specs.Constancy.{AreInOrder};
ghost use Rattle.jl_relink.specs.Laws.{has_read_file};
ghost use Rattle.jl_core.specs.State.{AreAnswered, IsAccepted, IsRefused, empty_core};
ghost use Rattle.jl_core.specs.Logs.{are_told, shown};
ghost use Rattle.jl_core.specs.Plans.{IsPlanned, IsAsPlanned};
ghost use Rattle.jl_server.specs.History.{core_of, logged_of, entry_after, installs_alone, is_install, planned_entry};
ghost use Rattle.jl_server.specs.declared.fault.EntriesFault.TheVariants as fault;
ghost use Rattle.jl_server.specs.ForProofs.Shown.{content, changed, IsShown, IsChangeOf};

use crate::fault::EntriesFault;
use crate::history::{Head, Name};
use crate::past::{Past, Since, share_from};
use crate::publish::{TableWriter, show_in};
use crate::seen::Seen;
use crate::table::Change;
use jl_core::{Core, EventMachine, Planned};
use jl_relink::Snapshot;
use jl_types::{Answer, Event, Link, Recv, Refusal, Reply, SiteNo};
use std::alloc::{AllocError, Global};
use std::marker::Model;
use std::snapshot::Snapshot as Known;
use std::sync::Wait;

/// An accepted event's reply, the count of the accepted events up to it, and the list that it ends.
#[derive(Drop)]
pub struct Receipt<K: Name> {
    pub serial: u64,
    pub reply: Reply,
    pub seen: Seen<K>,
}

/// Why an event is refused, and the list after which it is.
#[derive(Drop)]
pub struct Denied<K: Name> {
    pub refusal: Refusal,
    pub seen: Seen<K>,
}

/// What is to be published: the change that an entry makes, the list that it ends, and whether it is an install.
struct Publication<K: Name> {
    change: Change,
    list: Seen<K>,
    installs: bool,
}

/// A core and the one writer of the published table. The published list is the entries of the core's log. A clause sees that list.
pub struct Book<K: Name, R: Wait + Drop> {
    core: Core,
    head: Head<K>,
    list: Seen<K>,
    /// After so many entries there were installs alone, which leave what there is to link as it is.
    since: u64,
    writer: TableWriter,
    rt: R,
}

impl<K: Name, R: Wait + Drop> Model for Book<K, R> {
    ghost use Rattle.std.specs.Prelude.{◌≡◌, true, List, [], length, drop};
    ghost use Rattle.std.specs.Coded.{codes};
    ghost use Rattle.jl_types.specs.ForProofs.TargetCode.{target_code};
    ghost use Rattle.jl_types.specs.Events.Entries as plain;
    ghost use Rattle.jl_server.specs.History.{core_of, installs_alone};

    ghost Value = { List plain.Entry };

    ghost coded = { Prim.hlevel (codes, target_code) };

    ghost view = { λ b. b.list };

    ghost invariant = { λ b.
        (b.core ≡ core_of K.limits b.list)
        × (b.writer.desk.shown.value.list.reached.log ≡ b.list)
        × (b.writer.desk.shown.value.list.reached.book ≡ K.book)
        × (b.writer.desk.shown.value.limits ≡ K.limits)
        × (length (drop b.writer.behind b.writer.log.items) ≡ 0)
        × (installs_alone b.since b.list ≡ true) };
}

/// The writer waits for its readers at its end.
impl<K: Name, R: Wait + Drop> Drop for Book<K, R> {
    fn drop(self) {
        let Book {
            core: _core,
            head: _head,
            list: _list,
            since: _since,
            writer,
            rt,
        } = self;
        drop(writer.take(&rt));
    }
}

impl<K: Name, R: Wait + Drop> Book<K, R> {
    /// The book of a core with an empty log, whose table shows the empty list.
    pub(crate) fn new(
        core: Core,
        head: Head<K>,
        list: Seen<K>,
        writer: TableWriter,
        rt: R,
    ) -> Book<K, R>
        requires core { core ≡ empty_core K.limits }
        requires list { list ≡ [] }
        requires shown { (writer.desk.shown.value.list.reached.log ≡ []) × (writer.desk.shown.value.list.reached.book ≡ K.book)
            × (writer.desk.shown.value.limits ≡ K.limits) }
        requires settled { length (drop writer.behind writer.log.items) ≡ 0 }
        ensures { result ≡ [] }
    {
        Book {
            core,
            head,
            list,
            since: 0,
            writer,
            rt,
        }
    }

    /// The published list. Takes no memory.
    pub fn list(&self) -> &Seen<K>
        ensures { result.now ≡ self.now }
    {
        &self.list
    }

    /// The world after the published list, and that list.
    pub fn snapshot(&self, alloc: Global) -> Result<(Snapshot, Seen<K>), AllocError>
        ensures world { IfOk result (λ r. r.0 ≡ record { world = world_after (events_of self.now); serial = length self.now }) }
        ensures seen { IfOk result (λ r. r.1 ≡ self.now) }
        ensures within { IfOk result (λ r. IsWithin K.limits r.0.world) }
    {
        match self.core.snapshot(alloc) {
            Ok(snapshot) => Ok((snapshot, self.list.again())),
            Err(error) => Err(error),
        }
    }

    /// Each site that has an installed link after the published list, with it, by rising number.
    pub fn links(&self, alloc: Global) -> Result<Vec<(SiteNo, Link)>, AllocError>
        ensures { IfOk result (λ rows. rows.items ≡ installed_links (events_of self.now)) }
    {
        match self.core.list_links(alloc) {
            Ok(rows) => Ok(rows),
            Err(error) => Err(error),
        }
    }

    /// The state after the published list, and that list, with the whole journal of its entries.
    pub fn past(&self, alloc: Global) -> Result<Past<K>, AllocError>
        ensures seen { IfOk result (λ r. r.seen ≡ self.now) }
        ensures world { IfOk result (λ r. r.world ≡ record { world = world_after (events_of self.now); serial = length self.now }) }
        ensures told { IfOk result (λ r. are_told r.world.world.classes.rows r.log ≡ true) }
        ensures entries { IfOk result (λ r. shown r.world.world.classes.rows r.log ≡ logged_of self.now) }
        ensures answered { IfOk result (λ r. AreAnswered (core_of K.limits r.seen)) }
        ensures files { IfOk result (λ r. list_all has_read_file (events_of r.seen) ≡ true) }
    {
        let whole = self.core.log();
        let log = whole.copy(alloc)?;
        let (world, seen) = self.snapshot(alloc)?;
        Ok(Past { world, log, seen })
    }

    /// The state after the published list, and that list, with its entries after the first so many.
    ///
    /// # Errors
    ///
    /// Forgotten, if one of these entries wasn't the last one when the book last [forgot](Book::forget); want of memory.
    pub fn entries(&self, alloc: Global, from: u64) -> Result<Since<K>, EntriesFault>
        ensures seen { IfOk result (λ r. r.seen ≡ self.now) }
        ensures world { IfOk result (λ r. r.world ≡ record { world = world_after (events_of self.now); serial = length self.now }) }
        ensures told { IfOk result (λ r. are_told r.world.world.classes.rows r.entries.items ≡ true) }
        ensures entries { IfOk result (λ r. shown r.world.world.classes.rows r.entries.items ≡ drop from (logged_of self.now)) }
        ensures answered { IfOk result (λ r. AreAnswered (core_of K.limits r.seen)) }
        ensures files { IfOk result (λ r. list_all has_read_file (events_of r.seen) ≡ true) }
        ensures last { length self.now ≤ from + 1 → IfErr result (λ f. f ≡ fault.Memory) }
    {
        let log = self.core.log();
        let entries = share_from(alloc, log, from)?;
        let (world, seen) = self.snapshot(alloc)?;
        Ok(Since {
            world,
            entries,
            seen,
        })
    }

    /// Forgets the entries of all events but the last one, so that they take no memory any more. Those of definitions and delegations stay,
    /// since a renewal tells them again. No clause sees a change: the published list stays what it is, and so do the published table, and
    /// what is answered from now on. [`entries`](Book::entries) refuses what was forgotten. Takes no memory.
    pub fn forget(&mut self)
        ensures { self.new ≡ self.old }
    {
        self.core.forget();
    }

    /// The answer to a call after the published list, and the site's installed link, if there is one. Takes no memory.
    pub(crate) fn ask(&self, site: SiteNo, recv: Recv) -> (Answer, Option<Link>)
        ensures answer { dispatch (world_after (events_of self.now)) site recv ≡ result.0 }
        ensures link { result.1 ≡ installed (events_of self.now) site }
        ensures order { AreInOrder (world_after (events_of self.now)).classes }
    {
        // Shows that the classes came in order.
        let _classes = self.core.world().classes.count_in_order();
        (self.core.call(site, recv), self.core.links().get(site))
    }

    /// One event, in one hold of the lock: it is planned, the sites that it changes are copied, its entry is added to the history, and the
    /// change is put into the table's queue, which is the last growth. Then it is committed and shown.
    ///
    /// # Errors
    ///
    /// The first refusal, or want of memory if there is none. Nothing has changed then. Nor has the history, which grows after every other
    /// growth, unless it is the table's queue that has no memory, which never happens.
    pub fn step<H: Wait>(
        &mut self,
        rt: &H,
        alloc: Global,
        event: Event,
    ) -> Result<Receipt<K>, Denied<K>>
        ensures accepted { IfOk result (λ r. IsAccepted (core_of K.limits self.old) (core_of K.limits self.new) event r.reply) }
        ensures entry { IfOk result (λ r. self.new ≡ self.old ++ entry_after self.old event r.reply ∷ []) }
        ensures receipt { IfOk result (λ r. (r.seen ≡ self.new) × (r.serial ≡ length self.new)) }
        ensures legal { IsLegal K.limits self.new }
        ensures refused { IfErr result (λ d. IsRefused (verdict K.limits (world_after (events_of self.old)) event) d.refusal) }
        ensures denied { IfErr result (λ d. (d.seen ≡ self.old) × (self.new ≡ self.old)) }
    {
        self.step_judged(rt, alloc, event, None)
    }

    /// Does what [`step`](Book::step) does, with an event that is accepted after the judged list, if there is one.
    pub(crate) fn step_judged<'a, H: Wait>(
        &'a mut self,
        rt: &H,
        alloc: Global,
        event: Event,
        judged: Option<&'a Seen<K>>,
    ) -> Result<Receipt<K>, Denied<K>>
        requires { IfSome judged (λ list. IsOk (verdict K.limits (world_after (events_of list.now)) event)) }
        ensures accepted { IfOk result (λ r. IsAccepted (core_of K.limits self.old) (core_of K.limits self.new) event r.reply) }
        ensures entry { IfOk result (λ r. self.new ≡ self.old ++ entry_after self.old event r.reply ∷ []) }
        ensures receipt { IfOk result (λ r. (r.seen ≡ self.new) × (r.serial ≡ length self.new)) }
        ensures legal { IsLegal K.limits self.new }
        ensures refused { IfErr result (λ d. IsRefused (verdict K.limits (world_after (events_of self.old)) event) d.refusal) }
        ensures denied { IfErr result (λ d. (d.seen ≡ self.old) × (self.new ≡ self.old)) }
    {
        let stepped = step_on(
            rt,
            alloc,
            &mut self.core,
            &mut self.head,
            &mut self.list,
            &mut self.since,
            &mut self.writer,
            event,
            judged,
        );
        match stepped {
            Ok(reply) => Ok(Receipt {
                serial: self.list.serial(),
                reply,
                seen: self.list.again(),
            }),
            Err(refusal) => {
                // Shows that the list is legal.
                let _serial = self.list.serial();
                Err(Denied {
                    refusal,
                    seen: self.list.again(),
                })
            }
        }
    }
}

/// A book takes events as a core does, and its table shows them. Each event is one [`step`](Book::step), whose reply or refusal is handed
/// on. One that is known to be accepted is treated as one that was judged after the present list.
impl<K: Name, R: Wait + Drop> EventMachine for Book<K, R> {
    ghost use Rattle.jl_server.specs.History.{core_of};

    ghost state = { λ book. core_of K.limits book };

    fn accept<'a>(&'a mut self, alloc: Global, event: Event) -> Result<Reply, Refusal> {
        // Its lifetime is named, which a bare `None` would leave open.
        let judged: Option<&'a Seen<K>> = None;
        step_on(
            &self.rt,
            alloc,
            &mut self.core,
            &mut self.head,
            &mut self.list,
            &mut self.since,
            &mut self.writer,
            event,
            judged,
        )
    }

    fn accept_judged(&mut self, alloc: Global, event: Event) -> Result<Reply, AllocError> {
        let judged = self.list.again();
        let stepped = step_on(
            &self.rt,
            alloc,
            &mut self.core,
            &mut self.head,
            &mut self.list,
            &mut self.since,
            &mut self.writer,
            event,
            Some(&judged),
        );
        match stepped {
            Ok(reply) => Ok(reply),
            Err(_) => Err(AllocError),
        }
    }
}

/// One event after this list, over the fields of its book: it is planned, its entry is added to the history, and it is committed and shown.
/// It is accepted after the judged list, if there is one.
fn step_on<K: Name, H: Wait>(
    rt: &H,
    alloc: Global,
    core: &mut Core,
    head: &mut Head<K>,
    list: &mut Seen<K>,
    since: &mut u64,
    writer: &mut TableWriter,
    event: Event,
    judged: Option<&Seen<K>>,
) -> Result<Reply, Refusal>
    requires so_far { (core.old ≡ core_of K.limits list.old) × (installs_alone since.old list.old ≡ true) }
    requires shown { (writer.old.desk.shown.value.list.reached.log ≡ list.old) × (writer.old.desk.shown.value.list.reached.book ≡ K.book)
        × (writer.old.desk.shown.value.limits ≡ K.limits) }
    requires settled { length (drop writer.old.behind writer.old.log.items) ≡ 0 }
    requires judged { IfSome judged (λ earlier. IsOk (verdict K.limits (world_after (events_of earlier.now)) event)) }
    ensures accepted { IfOk result (IsAccepted (core_of K.limits list.old) (core_of K.limits list.new) event) }
    ensures entry { IfOk result (λ reply. list.new ≡ list.old ++ entry_after list.old event reply ∷ []) }
    ensures refused { IfErr result (IsRefused (verdict K.limits (world_after (events_of list.old)) event)) }
    ensures unchanged { OnErr result (list.new ≡ list.old) }
    ensures so_far { (core.new ≡ core_of K.limits list.new) × (installs_alone since.new list.new ≡ true) }
    ensures shown { (writer.new.desk.shown.value.list.reached.log ≡ list.new) × (writer.new.desk.shown.value.list.reached.book ≡ K.book)
        × (writer.new.desk.shown.value.limits ≡ K.limits) }
    ensures settled { length (drop writer.new.behind writer.new.log.items) ≡ 0 }
{
    match next_step(alloc, core, head, list, *since, event, judged) {
        Ok((planned, next)) => publish_next(rt, core, list, since, writer, planned, next),
        Err(refusal) => Err(refusal),
    }
}

/// Commits and shows what was planned after this list. Its entry ends the next list, which the list becomes. Want of memory is the only
/// refusal.
fn publish_next<K: Name, H: Wait>(
    rt: &H,
    core: &mut Core,
    list: &mut Seen<K>,
    since: &mut u64,
    writer: &mut TableWriter,
    planned: Planned,
    next: Publication<K>,
) -> Result<Reply, Refusal>
    requires so_far { (core.old ≡ core_of K.limits list.old) × (installs_alone since.old list.old ≡ true) }
    requires shown { (writer.old.desk.shown.value.list.reached.log ≡ list.old) × (writer.old.desk.shown.value.list.reached.book ≡ K.book)
        × (writer.old.desk.shown.value.limits ≡ K.limits) }
    requires settled { length (drop writer.old.behind writer.old.log.items) ≡ 0 }
    requires planned { IsAsPlanned (core_of K.limits list.old) planned }
    requires installs { next.installs ≡ is_install (planned_entry planned).event }
    requires list { next.list ≡ list.old ++ planned_entry planned ∷ [] }
    requires change { IsChangeOf K.book planned next.list next.change }
    requires legal { IsLegal K.limits next.list }
    ensures list { IfOk result (λ reply. (list.new ≡ list.old ++ planned_entry planned ∷ []) × (reply ≡ planned.reply)) }
    ensures refused { IfErr result (λ refusal. (refusal ≡ Memory) × (list.new ≡ list.old)) }
    ensures so_far { (core.new ≡ core_of K.limits list.new) × (installs_alone since.new list.new ≡ true) }
    ensures shown { (writer.new.desk.shown.value.list.reached.log ≡ list.new) × (writer.new.desk.shown.value.list.reached.book ≡ K.book)
        × (writer.new.desk.shown.value.limits ≡ K.limits) }
    ensures settled { length (drop writer.new.behind writer.new.log.items) ≡ 0 }
{
    let Publication {
        change,
        list: longer,
        installs,
    } = next;
    match commit_shown(rt, core, writer, planned, change) {
        Some(reply) => {
            *since = since_after(installs, *since, &longer);
            *list = longer;
            Ok(reply)
        }
        None => Err(Refusal::Memory),
    }
}

/// Plans the event after this list, which is that of the core, with all its room made. It is accepted after the judged list, if there is
/// one. The entry is added to the history. The core is as it was. If the event is refused, or there is no memory, so is the history.
fn next_step<K: Name>(
    alloc: Global,
    core: &mut Core,
    head: &mut Head<K>,
    list: &Seen<K>,
    since: u64,
    event: Event,
    judged: Option<&Seen<K>>,
) -> Result<(Planned, Publication<K>), Refusal>
    requires core { core.old ≡ core_of K.limits list.now }
    requires alone { installs_alone since list.now ≡ true }
    requires judged { IfSome judged (λ earlier. IsOk (verdict K.limits (world_after (events_of earlier.now)) event)) }
    ensures planned { IfOk result (λ r. IsPlanned (core_of K.limits list.now) event r.0) }
    ensures installs { IfOk result (λ r. r.1.installs ≡ is_install (planned_entry r.0).event) }
    ensures list { IfOk result (λ r. r.1.list ≡ list.now ++ planned_entry r.0 ∷ []) }
    ensures change { IfOk result (λ r. IsChangeOf K.book r.0 r.1.list r.1.change) }
    ensures legal { IfOk result (λ r. IsLegal K.limits r.1.list) }
    ensures refused { IfErr result (IsRefused (verdict K.limits (world_after (events_of list.now)) event)) }
    ensures unchanged { core.new ≡ core.old }
    ensures grown { IfOk result (λ r. head.new ≡ r.1.list) }
    ensures kept { OnErr result (head.new ≡ head.old) }
{
    let installs = installs(&event);
    match plan(alloc, core, list, since, event, judged) {
        Ok(planned) => match what_is_next(alloc, head, list, &planned, installs) {
            Some(next) => Ok((planned, next)),
            None => Err(unmade(planned)),
        },
        Err(refusal) => Err(refusal),
    }
}

/// Plans the event after this list. It is accepted after the judged list, if there is one.
fn plan<K: Name>(
    alloc: Global,
    core: &mut Core,
    list: &Seen<K>,
    since: u64,
    event: Event,
    judged: Option<&Seen<K>>,
) -> Result<Planned, Refusal>
    requires core { core.old ≡ core_of K.limits list.now }
    requires alone { installs_alone since list.now ≡ true }
    requires judged { IfSome judged (λ earlier. IsOk (verdict K.limits (world_after (events_of earlier.now)) event)) }
    ensures planned { IfOk result (IsPlanned (core_of K.limits list.now) event) }
    ensures refused { IfErr result (IsRefused (verdict K.limits (world_after (events_of list.now)) event)) }
    ensures unchanged { core.new ≡ core.old }
{
    match judged {
        Some(earlier) => plan_judged(alloc, core, list, since, event, earlier),
        None => plan_new(alloc, core, list, event),
    }
}

/// Plans the event, which is accepted after the earlier list. It is judged once more if anything but installs came since.
fn plan_judged<K: Name>(
    alloc: Global,
    core: &mut Core,
    list: &Seen<K>,
    since: u64,
    event: Event,
    earlier: &Seen<K>,
) -> Result<Planned, Refusal>
    requires core { core.old ≡ core_of K.limits list.now }
    requires alone { installs_alone since list.now ≡ true }
    requires judged { IsOk (verdict K.limits (world_after (events_of earlier.now)) event) }
    ensures planned { IfOk result (IsPlanned (core_of K.limits list.now) event) }
    ensures refused { IfErr result (IsRefused (verdict K.limits (world_after (events_of list.now)) event)) }
    ensures unchanged { core.new ≡ core.old }
{
    if !is_as_after(list, since, earlier) {
        return plan_new(alloc, core, list, event);
    }
    match core.plan_judged(alloc, event) {
        Ok(planned) => Ok(planned),
        Err(_) => Err(Refusal::Memory),
    }
}

/// Plans the event after this list, of which nothing is known.
fn plan_new<K: Name>(
    alloc: Global,
    core: &mut Core,
    list: &Seen<K>,
    event: Event,
) -> Result<Planned, Refusal>
    requires { core.old ≡ core_of K.limits list.now }
    ensures planned { IfOk result (IsPlanned (core_of K.limits list.now) event) }
    ensures refused { IfErr result (IsRefused (verdict K.limits (world_after (events_of list.now)) event)) }
    ensures unchanged { core.new ≡ core.old }
{
    let _list = list;
    core.plan(alloc, event)
}

/// Whether nothing but installs came after the earlier list, so that what there is to link is what there was. In this list there are
/// installs alone after so many entries.
fn is_as_after<K: Name>(list: &Seen<K>, since: u64, earlier: &Seen<K>) -> bool
    requires { installs_alone since list.now ≡ true }
    ensures { result ≡ true → world_after (events_of list.now) ≡ world_after (events_of earlier.now) }
{
    let serial = earlier.serial();
    if serial < since {
        return false;
    }
    if serial > list.serial() {
        return false;
    }
    earlier.begins(list);
    true
}

/// The change that what was planned, an install or not, makes in the table, and this list with its entry, which is added to the history.
/// There is nothing where there is no memory, and then the history is as it was: an entry that nothing follows would end the server.
fn what_is_next<K: Name>(
    alloc: Global,
    head: &mut Head<K>,
    list: &Seen<K>,
    planned: &Planned,
    installs: bool,
) -> Option<Publication<K>>
    requires { IsAsPlanned (core_of K.limits list.now) planned.now }
    ensures list { IfSome result (λ next. next.list ≡ list.now ++ planned_entry planned.now ∷ []) }
    ensures change { IfSome result (λ next. IsChangeOf K.book planned.now next.list next.change) }
    ensures legal { IfSome result (λ next. IsLegal K.limits next.list) }
    ensures installs { IfSome result (λ next. next.installs ≡ installs) }
    ensures grown { IfSome result (λ next. head.new ≡ next.list) }
    ensures kept { IfNone result (head.new ≡ head.old) }
{
    let Ok(slots) = planned.slots().to_vec(alloc) else {
        return None;
    };
    let next = next_list(head, list, planned)?;
    let change = Change {
        slots,
        classes: planned.class_count(),
        list: next.mark(),
    };
    Some(Publication {
        change,
        list: next,
        installs,
    })
}

/// This list with the entry of what was planned, which is added to the history. There is nothing if the history is longer, and then it
/// is as it was.
fn next_list<K: Name>(head: &mut Head<K>, list: &Seen<K>, planned: &Planned) -> Option<Seen<K>>
    requires { IsAsPlanned (core_of K.limits list.now) planned.now }
    ensures list { IfSome result (λ next. next ≡ list.now ++ planned_entry planned.now ∷ []) }
    ensures grown { IfSome result (λ next. head.new ≡ next) }
    ensures kept { IfNone result (head.new ≡ head.old) }
{
    let mut next = list.again();
    if !next.add(head, planned) {
        return None;
    }
    Some(next)
}

/// The refusal of what was planned, for want of memory.
fn unmade(_planned: Planned) -> Refusal
    ensures { result ≡ Memory }
{
    Refusal::Memory
}

/// Puts the change into the table's queue, which is the last growth of an event, and then commits what was planned and shows the change. If
/// the queue has no memory nothing has changed, and there is no reply.
fn commit_shown<H: Wait>(
    rt: &H,
    core: &mut Core,
    writer: &mut TableWriter,
    planned: Planned,
    change: Change,
) -> Option<Reply>
    requires planned { IsAsPlanned core.old planned }
    requires settled { length (drop writer.old.behind writer.old.log.items) ≡ 0 }
    requires same { change.list.reached.book ≡ writer.old.desk.shown.value.list.reached.book }
    requires shown { IsShown (content writer.old.desk.shown.value) → IsShown (changed (content writer.old.desk.shown.value) change) }
    ensures core { IfSome result (λ reply. (core.new ≡ planned.after) × (reply ≡ planned.reply)) }
    ensures shown { IfSome result (λ _. content writer.new.desk.shown.value ≡ changed (content writer.old.desk.shown.value) change) }
    ensures settled { length (drop writer.new.behind writer.new.log.items) ≡ 0 }
    ensures refused { result ≡ None → (core.new ≡ core.old) × (writer.new.desk ≡ writer.old.desk) }
{
    let known = Known::of(&change);
    match writer.append(change) {
        Ok(()) => {
            let reply = core.commit(planned);
            show_in(rt, writer, known);
            Some(reply)
        }
        Err(_change) => {
            give_up(planned);
            None
        }
    }
}

/// Lets what was planned go.
fn give_up(_planned: Planned) {}

/// Whether the event is an install.
fn installs(event: &Event) -> bool
    ensures { result ≡ is_install event.now }
{
    matches!(event, Event::Install(_))
}

/// After how many entries of this list there were installs alone. Its last entry is an install or not, and before it there were
/// installs alone after so many.
fn since_after<K: Name>(installs: bool, since: u64, list: &Seen<K>) -> u64
    ensures { result ≡ (if installs then since else length list.now) }
{
    if installs { since } else { list.serial() }
}
