//! Callers: each has seen a legal list, and looks at the published table without waiting for anybody.

ghost use Rattle.std.specs.Prelude.{◌≡◌, ◌⊎◌, ◌<◌, Some, length, IfOk, IfErr};
ghost use Rattle.std.specs.List.{AllZip};
ghost use mathlib.Core.List.{IsPrefix};
ghost use Rattle.left_right.specs.Sides.{view as seat_view};
ghost use Rattle.jl_types.specs.declared.answer.Answer.{Answer};
ghost use Rattle.jl_types.specs.declared.answer.Fast.TheVariants.{Now, Closed};
ghost use Rattle.jl_types.specs.Linkage.Calls.{dispatch};
ghost use Rattle.jl_types.specs.Events.Fast.{fast_answer};
ghost use Rattle.jl_types.specs.Events.History.{world_after, installed};
ghost use Rattle.jl_types.specs.Events.Entries.{IsLegal, events_of, classes_of};
ghost use Rattle.jl_memo.specs.Answers.{answer_with};
ghost use Rattle.jl_server.specs.Receivers.{FitsInstalled, FitsMemo};
ghost use Rattle.jl_server.specs.Calls.{answers_at, all_closed, AnswersCall};
ghost use Rattle.jl_server.specs.ForProofs.Shown.{server_of, content, IsShown};

use crate::history::Name;
use crate::memo::Memo;
use crate::publish::{TableReader, TableReading, enter};
use crate::seen::Seen;
use core::mem::replace_with;
use crossbeam_utils::CachePadded;
use jl_types::{Fast, Recv, SiteNo};
use std::marker::Model;

/// A place at the published table, and what was seen there or told.
#[derive(Drop)]
struct TablePlace<K: Name> {
    looking: TableReader,
    seen: Seen<K>,
    ghost known: { server_of (seat_view looking.place) ≡ Some (K.book, K.limits) },
}

/// A caller: one thread's place at the published table, and what it has seen. A clause sees the list that it has seen. Since each
/// call writes to it, it has its cache lines for itself.
pub struct Caller<K: Name> {
    seat: CachePadded<TablePlace<K>>,
}

// Written out, since a derived drop is proved anew in each crate that lets one go.
impl<K: Name> Drop for Caller<K> {
    fn drop(self) {
        let Caller { seat: _seat } = self;
    }
}

impl<K: Name> Model for Caller<K> {
    ghost use Rattle.std.specs.Prelude.{List};
    ghost use Rattle.std.specs.Coded.{codes};
    ghost use Rattle.crossbeam_utils.specs.Padded.{padded_value};
    ghost use Rattle.jl_types.specs.ForProofs.TargetCode.{target_code};
    ghost use Rattle.jl_types.specs.Events.Entries as plain;

    ghost Value = { List plain.Entry };

    ghost coded = { Prim.hlevel (codes, target_code) };

    ghost view = { λ c. (padded_value c.seat).seen };
}

impl<K: Name> Caller<K> {
    /// A caller that looks by this reader, and has seen this list.
    pub(crate) fn new(looking: TableReader, seen: Seen<K>) -> Caller<K>
        requires { server_of (seat_view looking.place) ≡ Some (K.book, K.limits) }
        ensures { result ≡ seen }
    {
        Caller {
            seat: CachePadded::new(TablePlace { looking, seen }),
        }
    }

    /// What it has seen. Takes no memory.
    pub fn seen(&self) -> &Seen<K>
        ensures { result.now ≡ self.now }
    {
        &self.seat.seen
    }

    /// Sees this list in the place of its own.
    pub(crate) fn see(&mut self, token: &Seen<K>)
        ensures { self.new ≡ token.now }
    {
        self.seat.seen = token.again();
    }

    /// Learns a token: it keeps the longer of its own list and the token's. It takes no memory and waits for nobody.
    pub fn learn(&mut self, token: &Seen<K>)
        ensures own { IsPrefix self.old self.new }
        ensures token { IsPrefix token.now self.new }
        ensures one { (self.new ≡ self.old) ⊎ (self.new ≡ token.now) }
        ensures legal { IsLegal K.limits self.new }
    {
        let seen = self.seen().longer(token);
        self.seat.seen = seen;
    }

    /// The answer at once to a call at the site, by the published table. It takes no memory and waits for nobody. Closed if
    /// the table refuses the entry, since the server is no more; also if the table is older than what the caller has seen,
    /// which never happens.
    pub fn call(&mut self, site: SiteNo, recv: Recv) -> Fast
        ensures own { IsPrefix self.old self.new }
        ensures legal { IsLegal K.limits self.new }
        ensures answer { (result ≡ fast_answer (installed (events_of self.new) site) (classes_of self.new) recv) ⊎ ((result ≡ Closed) × (self.new ≡ self.old)) }
        ensures now { (a : Answer) → result ≡ Now a → FitsInstalled (events_of self.new) site recv → dispatch (world_after (events_of self.new)) site recv ≡ a }
    {
        self.seat.call(site, recv)
    }

    /// Answers as [`call`](Caller::call) does, but at a megamorphic link by what the memo remembers. It takes no memory and waits for
    /// nobody. The caller learns what the memo has seen.
    ///
    /// - At a megamorphic link null throws at once. A call that the memo doesn't remember is a miss.
    /// - A site of a retired loader is a miss, since its link went.
    /// - An object of a class of a retired loader isn't there to be a receiver. Such a class gets what is remembered.
    pub fn call_with(&mut self, memo: &Memo<K>, site: SiteNo, recv: Recv) -> Fast
        ensures own { IsPrefix self.old self.new }
        ensures memo { IsPrefix memo.now.seen self.new }
        ensures legal { IsLegal K.limits self.new }
        ensures answer { (result ≡ answer_with memo.now.sets (installed (events_of self.new) site) (classes_of self.new) site recv)
            ⊎ ((result ≡ Closed) × ((self.new ≡ self.old) ⊎ (self.new ≡ memo.now.seen))) }
        ensures now { (a : Answer) → result ≡ Now a → FitsMemo (events_of self.new) site recv → dispatch (world_after (events_of self.new)) site recv ≡ a }
    {
        let _rows = memo.rows();
        self.seat.call_with(memo, site, recv)
    }

    /// The answer at once to each call, a site and a receiver, all in one entry into the published table and so after one list.
    /// It takes no memory and waits for nobody. All are Closed if `call` would be.
    pub fn call_all(&mut self, calls: &[(SiteNo, Recv)], answers: &mut [Fast])
        requires { length calls.now ≡ length answers.old }
        ensures own { IsPrefix self.old self.new }
        ensures legal { IsLegal K.limits self.new }
        ensures answers { (answers.new ≡ answers_at self.new calls.now) ⊎ ((answers.new ≡ all_closed calls.now) × (self.new ≡ self.old)) }
        ensures now { AllZip (AnswersCall (events_of self.new)) calls.now answers.new }
    {
        self.seat.call_all(calls, answers);
    }
}

impl<K: Name> TablePlace<K> {
    /// One call.
    fn call(&mut self, site: SiteNo, recv: Recv) -> Fast
        ensures own { IsPrefix self.old.seen self.new.seen }
        ensures legal { IsLegal K.limits self.new.seen }
        ensures answer { (result ≡ fast_answer (installed (events_of self.new.seen) site) (classes_of self.new.seen) recv)
            ⊎ ((result ≡ Closed) × (self.new.seen ≡ self.old.seen)) }
    {
        let seen = self.seen.again();
        let (seen, answer) = replace_with(&mut self.looking, seen, |looking, seen| {
            look(looking, seen, site, recv)
        });
        self.seen = seen;
        answer
    }

    /// One call, at a megamorphic link by the memo.
    fn call_with(&mut self, memo: &Memo<K>, site: SiteNo, recv: Recv) -> Fast
        ensures own { IsPrefix self.old.seen self.new.seen }
        ensures memo { IsPrefix memo.now.seen self.new.seen }
        ensures legal { IsLegal K.limits self.new.seen }
        ensures answer { (result ≡ answer_with memo.now.sets (installed (events_of self.new.seen) site) (classes_of self.new.seen) site recv)
            ⊎ ((result ≡ Closed) × ((self.new.seen ≡ self.old.seen) ⊎ (self.new.seen ≡ memo.now.seen))) }
    {
        let seen = self.seen.longer(memo.seen());
        let (seen, answer) = replace_with(&mut self.looking, seen, |looking, seen| {
            look_with(looking, seen, memo, site, recv)
        });
        self.seen = seen;
        answer
    }

    /// Several calls.
    fn call_all(&mut self, calls: &[(SiteNo, Recv)], answers: &mut [Fast])
        requires { length calls.now ≡ length answers.old }
        ensures own { IsPrefix self.old.seen self.new.seen }
        ensures legal { IsLegal K.limits self.new.seen }
        ensures answers { (answers.new ≡ answers_at self.new.seen calls.now) ⊎ ((answers.new ≡ all_closed calls.now) × (self.new.seen ≡ self.old.seen)) }
    {
        let seen = self.seen.again();
        let (seen, _answers) = replace_with(
            &mut self.looking,
            answers,
            |looking, answers: &mut [Fast]| look_all(looking, seen, calls, answers),
        );
        self.seen = seen;
    }
}

/// One entry into the published table, for one call.
fn look<K: Name>(
    looking: TableReader,
    seen: Seen<K>,
    site: SiteNo,
    recv: Recv,
) -> (TableReader, (Seen<K>, Fast))
    requires { server_of (seat_view looking.place) ≡ Some (K.book, K.limits) }
    ensures place { seat_view result.0.place ≡ seat_view looking.place }
    ensures own { IsPrefix seen result.1.0 }
    ensures legal { IsLegal K.limits result.1.0 }
    ensures answer { (result.1.1 ≡ fast_answer (installed (events_of result.1.0) site) (classes_of result.1.0) recv)
        ⊎ ((result.1.1 ≡ Closed) × (result.1.0 ≡ seen)) }
{
    match entered(looking, seen) {
        Ok((reading, list)) => {
            let answer = reading.get().answer(site, recv);
            (reading.leave(), (list, answer))
        }
        Err((looking, seen)) => (looking, (seen, Fast::Closed)),
    }
}

/// One entry into the published table, for one call, at a megamorphic link by the memo.
fn look_with<K: Name>(
    looking: TableReader,
    seen: Seen<K>,
    memo: &Memo<K>,
    site: SiteNo,
    recv: Recv,
) -> (TableReader, (Seen<K>, Fast))
    requires { server_of (seat_view looking.place) ≡ Some (K.book, K.limits) }
    ensures place { seat_view result.0.place ≡ seat_view looking.place }
    ensures own { IsPrefix seen result.1.0 }
    ensures legal { IsLegal K.limits result.1.0 }
    ensures answer { (result.1.1 ≡ answer_with memo.now.sets (installed (events_of result.1.0) site) (classes_of result.1.0) site recv)
        ⊎ ((result.1.1 ≡ Closed) × (result.1.0 ≡ seen)) }
{
    match entered(looking, seen) {
        Ok((reading, list)) => {
            let answer = reading.get().answer_with(memo.rows(), site, recv);
            (reading.leave(), (list, answer))
        }
        Err((looking, seen)) => (looking, (seen, Fast::Closed)),
    }
}

/// One entry, for several calls. It gives the answers back, since only the result of a closure is known.
fn look_all<'a, K: Name>(
    looking: TableReader,
    seen: Seen<K>,
    calls: &[(SiteNo, Recv)],
    answers: &'a mut [Fast],
) -> (TableReader, (Seen<K>, &'a mut [Fast]))
    requires place { server_of (seat_view looking.place) ≡ Some (K.book, K.limits) }
    requires length { length calls.now ≡ length answers.now }
    ensures place { seat_view result.0.place ≡ seat_view looking.place }
    ensures same { result.1.1.ghost_name ≡ answers.entry.ghost_name }
    ensures own { IsPrefix seen result.1.0 }
    ensures legal { IsLegal K.limits result.1.0 }
    ensures answers { (result.1.1.now ≡ answers_at result.1.0 calls.now) ⊎ ((result.1.1.now ≡ all_closed calls.now) × (result.1.0 ≡ seen)) }
{
    match entered(looking, seen) {
        Ok((reading, list)) => {
            reading.get().answer_all(calls, answers);
            (reading.leave(), (list, answers))
        }
        Err((looking, seen)) => {
            answers.fill(Fast::Closed);
            (looking, (seen, answers))
        }
    }
}

/// The published table and its list, which what was seen begins. If the table isn't entered or is older, it gives back what it was given.
fn entered<K: Name>(
    looking: TableReader,
    seen: Seen<K>,
) -> Result<(TableReading, Seen<K>), (TableReader, Seen<K>)>
    requires { server_of (seat_view looking.place) ≡ Some (K.book, K.limits) }
    ensures place { IfOk result (λ r. seat_view r.0.place ≡ seat_view looking.place) }
    ensures shown { IfOk result (λ r. IsShown (content r.0.part.value)) }
    ensures list { IfOk result (λ r. r.1 ≡ r.0.part.value.list.reached.log) }
    ensures own { IfOk result (λ r. IsPrefix seen r.1) }
    ensures legal { IfOk result (λ r. IsLegal K.limits r.1) }
    ensures given { IfErr result (λ r. (seat_view r.0.place ≡ seat_view looking.place) × (r.1 ≡ seen)) }
    ensures same { IfErr result (λ r. IsPrefix seen r.1 × IsLegal K.limits r.1) }
{
    match enter(looking) {
        Ok(reading) => found(reading, seen),
        Err(looking) => {
            // Shows that the list is legal.
            let _serial = seen.serial();
            seen.begins(&seen);
            Err((looking, seen))
        }
    }
}

/// The table that was entered and its list, which what was seen begins. It is left again exactly if its list is shorter.
fn found<K: Name>(
    reading: TableReading,
    seen: Seen<K>,
) -> Result<(TableReading, Seen<K>), (TableReader, Seen<K>)>
    requires shown { IsShown (content reading.part.value) }
    requires book { reading.part.value.list.reached.book ≡ K.book }
    requires legal { IsLegal K.limits reading.part.value.list.reached.log }
    ensures older { IfErr result (λ r. length reading.part.value.list.reached.log < length seen) }
    ensures place { IfOk result (λ r. seat_view r.0.place ≡ seat_view reading.place) }
    ensures shown { IfOk result (λ r. IsShown (content r.0.part.value)) }
    ensures list { IfOk result (λ r. r.1 ≡ r.0.part.value.list.reached.log) }
    ensures own { IfOk result (λ r. IsPrefix seen r.1) }
    ensures legal { IfOk result (λ r. IsLegal K.limits r.1) }
    ensures given { IfErr result (λ r. (seat_view r.0.place ≡ seat_view reading.place) × (r.1 ≡ seen)) }
    ensures same { IfErr result (λ r. IsPrefix seen r.1 × IsLegal K.limits r.1) }
{
    // Shows that the list is legal.
    let _serial = seen.serial();
    let table = reading.get();
    let list = Seen::<K>::of(&table.list);
    if list.serial() < seen.serial() {
        seen.begins(&seen);
        return Err((reading.leave(), seen));
    }
    seen.begins(&list);
    Ok((reading, list))
}
