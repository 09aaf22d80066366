//! Rows of two callers in one thread, with a memo beside them.

use crate::acts::{acts, fast};
use crate::deeds::Class::{A, B, C, E, M, Object, R, T};
use crate::deeds::Deed::*;
use crate::deeds::{DYNAMIC, Deed, ONE_SITE, method};
use crate::rows::Line::*;
use crate::scripts::Act::*;
use crate::scripts::Says::*;
use crate::scripts::{Act, Says};
use crate::workers::{Shared, Worker, receiver};
use jl_server::{Memo, Name, Seen};
use jl_types::{ClassId, Fast, Outcome, SiteNo};
use std::sync::Wait;

/// What one of two callers does or is answered, or both by one memo.
#[derive(Clone, Copy)]
enum Line {
    First(Act),
    Second(Act),
    /// What the first one has seen is kept.
    Keeps,
    /// The second one learns what is kept.
    Learns,
    /// The first one's call of site 0 on an object of the class is a miss, with the memo and without, and isn't remembered.
    IsUnknown(u32),
    /// The first one asks for the call on an object of the first class, which then is remembered: it runs the second class's method.
    IsLearned(u32, u32),
    /// The call on an object of the first class runs the second class's method by the memo alone. The second caller calls, or the first.
    IsRemembered(bool, u32, u32),
    /// The answer of the server to the first one's call.
    Asks(u32, u32, Says),
    /// The answer of the server to the first one's call, which the memo is told.
    AsksWith(u32, u32, Says),
    /// What the first one's call is answered at once by the memo.
    CallsWith(u32, Option<u32>, Says),
    /// The memo alone has the first class's call at the site, which runs the second class's method.
    Has(u32, u32, u32),
}

/// How many sets the memo has, and what is done.
pub(crate) struct Row(u32, &'static [Line]);

/// Two switch points by one caller.
const BY_ONE: &[Line] = &[First(MakesSwitch(1, 0)), First(MakesSwitch(2, 1))];

/// One by each caller, which hasn't seen the other's: the second one's receipt is not the first one's.
const BY_TWO: &[Line] = &[First(MakesSwitch(1, 0)), Second(MakesSwitch(2, 1))];

/// Calls at sites that nobody requested, and that can't be.
const UNKNOWN: &[Line] = &[
    First(Calls(0, None, Misses)),
    First(Calls(1, Some(0), Misses)),
    First(Calls(64, None, Misses)),
    First(Calls(65_536, None, Misses)),
];

/// Calls at an installed site and at one that nobody requested, both in one entry. The second caller is answered after a list that nobody
/// told it of. Nothing is answered before, nor after the definition of C, which drops the link.
const TOGETHER: &[Line] = &[
    First(CallsBoth(Misses, Misses)),
    First(DoesAll(ONE_SITE)),
    First(CallsBoth(Runs(1), Misses)),
    Second(CallsBoth(Runs(1), Misses)),
    Second(HasSeen(6)),
    First(Does(Define(0, C))),
    Second(CallsBoth(Misses, Misses)),
    Second(HasSeen(7)),
];

/// A caller learns a newer receipt, and then an older one.
const OLDER: &[Line] = &[
    First(DoesAll(ONE_SITE)),
    Keeps,
    Learns,
    Second(HasSeen(6)),
    Second(Calls(0, Some(2), Runs(1))),
    First(Does(Define(0, C))),
    First(Tells),
    Second(Hears),
    Learns,
    Second(HasSeen(7)),
    Second(Calls(0, Some(2), Misses)),
    Second(Does(Install(1))),
    First(Calls(0, Some(2), Runs(1))),
];

/// Snapshots of a caller that has seen nothing, of one that learnt a receipt, and of one that didn't.
const SNAPSHOTS: &[Line] = &[
    Second(TakesSnapshot(0)),
    First(Does(Define(0, Object))),
    First(Does(Define(0, A))),
    First(Tells),
    Second(Hears),
    Second(HasSeen(2)),
    Second(TakesSnapshot(2)),
    First(Does(Define(0, C))),
    Second(TakesSnapshot(3)),
];

/// An event is refused after what another caller did.
const REFUSED: &[Line] = &[
    First(Does(Define(0, Object))),
    Second(IsRefused(Request(1, 0), 1)),
    Second(HasSeen(1)),
    Second(MakesSwitch(2, 0)),
    Second(HasSeen(2)),
];

/// The installed links, before and after a definition that drops the one there is.
const LISTED: &[Line] = &[
    First(DoesAll(ONE_SITE)),
    Second(Lists(&[0])),
    Second(HasSeen(6)),
    First(Does(Define(0, C))),
    Second(Lists(&[])),
    Second(HasSeen(7)),
];

/// A 1 with B 2 and classes 4 to 11 below it, each with a method of its own, and an installed site of M 3, which calls A's method and has
/// ten receivers' classes.
const MEGAMORPHIC: &[Deed] = &[
    Define(0, Object),
    Define(0, A),
    Define(0, B),
    Define(0, M),
    Below(4, true),
    Below(5, true),
    Below(6, true),
    Below(7, true),
    Below(8, true),
    Below(9, true),
    Below(10, true),
    Below(11, true),
    Request(3, 0),
    Install(1),
];

/// Calls at a megamorphic link, which a memo remembers. What is asked after the definition of a class is remembered, too; what was
/// remembered before stays, and a caller that calls with the memo has seen the definition. No object is of a class that isn't there, nor
/// known to be of java/lang/Object; and null is thrown at without being asked for.
const REMEMBERED: &[Line] = &[
    First(DoesAll(MEGAMORPHIC)),
    IsLearned(4, 4),
    IsLearned(2, 1),
    IsRemembered(false, 4, 4),
    First(Does(Define(0, E))),
    IsLearned(12, 12),
    IsRemembered(false, 2, 1),
    IsRemembered(true, 12, 12),
    First(HasSeen(15)),
    Second(HasSeen(15)),
    AsksWith(0, 99, IsNoReceiver),
    IsUnknown(99),
    AsksWith(0, 0, IsNoReceiver),
    IsUnknown(0),
    First(Calls(0, None, Misses)),
    CallsWith(0, None, ThrowsAtNull),
];

/// A second M 12 by loader 1, whose site is installed, and R 13 below A.
const BESIDE: &[Deed] = &[
    Loader,
    Delegate(1, Object),
    Delegate(1, A),
    Define(1, M),
    Define(1, R),
    Request(12, 0),
    Install(2),
];

/// Calls at megamorphic links, of which a loader is retired: its site is a miss, and its class no receiver, though the memo has what it
/// remembered.
const RETIRED: &[Line] = &[
    First(DoesAll(MEGAMORPHIC)),
    First(DoesAll(BESIDE)),
    IsLearned(4, 4),
    IsLearned(13, 13),
    AsksWith(1, 4, Runs(4)),
    CallsWith(1, Some(4), Runs(4)),
    First(Does(Retire(1))),
    CallsWith(1, Some(4), Misses),
    CallsWith(1, None, Misses),
    Has(1, 4, 4),
    Asks(1, 4, IsGone),
    CallsWith(0, Some(13), Runs(13)),
    Asks(0, 13, IsNoReceiver),
    IsRemembered(false, 4, 4),
];

/// Loaders 1 and 2 each find a class of the other one: R 5 and C 7. M 4 of the first one has site 1, and M 6 of the second one site 2, which
/// have the table of A, B, R and C, as site 0 has.
const OF_EACH_OTHER: &[Deed] = &[
    Loader,
    Loader,
    Delegate(1, Object),
    Delegate(1, A),
    Define(1, M),
    Define(1, R),
    Delegate(2, Object),
    Delegate(2, A),
    Define(2, M),
    Define(2, C),
    Find(1, C, 2),
    Find(2, R, 1),
    Request(4, 0),
    Request(6, 0),
    Install(7),
];

/// Both go at once. Their sites are misses, and so is the site that had their classes in its table; a caller that nobody told learns it by a
/// call. The entry is the event.
const BOTH: &[Line] = &[
    First(DoesAll(ONE_SITE)),
    First(DoesAll(OF_EACH_OTHER)),
    Second(Calls(0, Some(5), Runs(5))),
    Second(Calls(1, Some(7), Runs(7))),
    Second(Calls(2, Some(1), Runs(1))),
    Second(HasSeen(21)),
    First(Does(RetireAll(&[2, 1]))),
    Second(Calls(0, Some(1), Misses)),
    Second(Calls(1, Some(1), Misses)),
    Second(Calls(2, Some(1), Misses)),
    Second(HasSeen(22)),
    Second(IsToldAs(
        21,
        "Entry { event: RetireAll(Seq { items: [LoaderId(2), LoaderId(1)] }), reply: Reply { made: Nothing, dropped: Seq { items: [SiteNo(0), SiteNo(1), SiteNo(2)] } } }",
    )),
    Asks(0, 1, Runs(1)),
    Asks(0, 5, IsNoReceiver),
    Asks(0, 7, IsNoReceiver),
    Asks(1, 1, IsGone),
    Asks(2, 1, IsGone),
    Second(Lists(&[])),
    First(Does(Install(1))),
    Second(Lists(&[0])),
    Second(Calls(0, Some(2), Runs(1))),
];

/// Two of four call sites go at once. The sites that are bound to them are misses, and a caller that nobody told learns it by a call. The entry
/// is the event.
const RELEASED: &[Line] = &[
    First(DoesAll(DYNAMIC)),
    First(Does(Install(15))),
    First(Does(Release(&[1, 0]))),
    Second(HasSeen(0)),
    Second(Calls(0, None, Misses)),
    Second(Calls(1, None, Misses)),
    Second(HasSeen(16)),
    Second(IsToldAs(
        15,
        "Entry { event: Release(Seq { items: [CallSiteId(1), CallSiteId(0)] }, Seq { items: [] }), reply: Reply { made: Nothing, dropped: Seq { items: [SiteNo(0), SiteNo(1)] } } }",
    )),
    Asks(0, 1, IsGone),
    Asks(1, 1, IsGone),
    First(Does(Install(12))),
    First(Cannot(Install(1))),
];

/// Two loaders that each find a class of the other one: M 12 and R 13 by loader 1, M 14 and C 15 by loader 2, beside megamorphic links.
const BESIDE_EACH_OTHER: &[Deed] = &[
    Loader,
    Loader,
    Delegate(1, Object),
    Delegate(1, A),
    Define(1, M),
    Define(1, R),
    Delegate(2, Object),
    Delegate(2, A),
    Define(2, M),
    Define(2, C),
    Find(1, C, 2),
    Find(2, R, 1),
    Request(12, 0),
    Request(14, 0),
    Install(6),
];

/// Once both are gone, their sites are misses, and their classes no receivers, though the memo has what it remembered.
const BOTH_REMEMBERED: &[Line] = &[
    First(DoesAll(MEGAMORPHIC)),
    First(DoesAll(BESIDE_EACH_OTHER)),
    IsLearned(13, 13),
    IsLearned(15, 15),
    AsksWith(1, 4, Runs(4)),
    AsksWith(2, 5, Runs(5)),
    CallsWith(1, Some(4), Runs(4)),
    CallsWith(2, Some(5), Runs(5)),
    First(Does(RetireAll(&[1, 2]))),
    CallsWith(1, Some(4), Misses),
    CallsWith(2, Some(5), Misses),
    Has(1, 4, 4),
    Has(2, 5, 5),
    Asks(1, 4, IsGone),
    Asks(2, 5, IsGone),
    CallsWith(0, Some(13), Runs(13)),
    CallsWith(0, Some(15), Runs(15)),
    Asks(0, 13, IsNoReceiver),
    Asks(0, 15, IsNoReceiver),
];

/// A server that has no entries forgets, then one whose last entry made switch point 0, and then one that has two more switch points, of
/// which the last one is 2. All but the last entry are forgotten each time. Links, calls, snapshots and receipts are as if it had forgotten
/// nothing. The definition of C 4 drops the link, and the site is installed again.
const FORGOTTEN: &[Line] = &[
    First(Forgets),
    First(IsTold(0, &[])),
    First(DoesAll(ONE_SITE)),
    First(MakesSwitch(7, 0)),
    First(IsTold(6, &[0])),
    First(Forgets),
    Second(IsForgotten(0)),
    Second(IsForgotten(5)),
    Second(HasSeen(0)),
    Second(IsTold(6, &[0])),
    Second(HasSeen(7)),
    First(IsTold(7, &[])),
    First(Calls(0, Some(2), Runs(1))),
    Asks(0, 2, Runs(1)),
    First(Lists(&[0])),
    First(TakesSnapshot(7)),
    First(HasLog(7)),
    Second(MakesSwitch(8, 1)),
    First(MakesSwitch(9, 2)),
    First(IsTold(7, &[1, 2])),
    First(IsTold(6, &[0, 1, 2])),
    First(IsForgotten(5)),
    First(Forgets),
    First(Forgets),
    First(IsForgotten(0)),
    First(IsForgotten(7)),
    First(IsTold(8, &[2])),
    First(Does(Define(0, C))),
    Second(Lists(&[])),
    Second(HasSeen(10)),
    First(IsRefused(Request(5, 0), 10)),
    First(Does(Install(1))),
    Second(Calls(0, Some(2), Runs(1))),
    Second(Calls(0, Some(4), Runs(4))),
    Second(TakesSnapshot(11)),
];

/// Two classes of loader 0, and loader 1.
const TWO_LOADERS: &[Deed] = &[Define(0, Object), Define(0, A), Loader];

/// A server with 1 site, 2 loaders, 3 classes, 1 call site and 1 switch point has as many of each, one kind after another, and takes no more
/// of it, while it takes others. Loader 1 goes, and still there is no room for another one.
const FULL_LINES: &[Line] = &[
    First(DoesAll(TWO_LOADERS)),
    First(IsFull(Loader, 3)),
    First(Does(Define(0, T))),
    Second(IsFull(Define(0, M), 4)),
    First(IsFull(Define(0, B), 4)),
    First(Does(CallSite(2))),
    First(IsFull(CallSite(2), 5)),
    First(MakesSwitch(6, 0)),
    Second(IsFull(Switch, 6)),
    First(Does(Request(2, 0))),
    First(IsFull(Request(2, 5), 7)),
    First(Does(Request(2, 0))),
    First(Does(Retire(1))),
    Second(IsFull(Loader, 9)),
];

pub(crate) const FULL: &Row = &Row(4, FULL_LINES);

/// The server goes.
const GONE: &[Line] = &[First(Calls(0, None, Misses))];

pub(crate) const ROWS: &[Row] = &[
    Row(4, BY_ONE),
    Row(4, BY_TWO),
    Row(4, UNKNOWN),
    Row(4, TOGETHER),
    Row(4, OLDER),
    Row(4, SNAPSHOTS),
    Row(4, REFUSED),
    Row(4, LISTED),
    Row(4, REMEMBERED),
    Row(64, RETIRED),
    Row(4, BOTH),
    Row(64, BOTH_REMEMBERED),
    Row(4, RELEASED),
    Row(4, FORGOTTEN),
    Row(4, GONE),
];

/// Two callers, and what they share.
#[derive(Drop)]
struct Pair<'a, K: Name> {
    first: &'a mut Worker<K>,
    second: &'a mut Worker<K>,
    kept: Seen<K>,
    memo: Memo<K>,
}

impl<'a, K: Name> Pair<'a, K> {
    fn worker(&mut self, is_second: bool) -> &mut Worker<K> {
        if is_second { self.second } else { self.first }
    }

    /// What the call is answered at once by the memo.
    fn call_with(&mut self, by_second: bool, site: u32, class: Option<u32>) -> Fast {
        if by_second {
            self.second.call_with(&self.memo, site, class)
        } else {
            self.first.call_with(&self.memo, site, class)
        }
    }

    /// What the memo alone has.
    fn remembered(&self, site: u32, class: u32) -> Option<Outcome> {
        self.memo.get(SiteNo::new(site), ClassId::new(class))
    }

    fn is_unknown(&mut self, class: u32) -> bool {
        self.first.call(0, Some(class)) == Fast::Miss
            && self.call_with(false, 0, Some(class)) == Fast::Miss
            && self.remembered(0, class).is_none()
    }

    fn is_remembered(&mut self, by_second: bool, class: u32, declares: u32) -> bool {
        self.call_with(by_second, 0, Some(class)) == fast(Runs(declares))
            && self.worker(by_second).call(0, Some(class)) == Fast::Miss
            && self.remembered(0, class) == Some(Outcome::Run(method(declares, 0)))
    }

    /// The answer of the server to the first one's call.
    fn ask<R: Wait, S: Wait + Drop>(
        &mut self,
        shared: &Shared<'_, K, R, S>,
        site: u32,
        class: u32,
    ) -> Fast {
        let (site, receiver) = (SiteNo::new(site), receiver(Some(class)));
        Fast::Now(
            self.first
                .caller
                .ask(shared.rt, shared.server, site, receiver),
        )
    }

    /// The answer of the server to the first one's call, which the memo is told.
    fn ask_with<R: Wait, S: Wait + Drop>(
        &mut self,
        shared: &Shared<'_, K, R, S>,
        site: u32,
        class: u32,
    ) -> Fast {
        let (site, receiver) = (SiteNo::new(site), receiver(Some(class)));
        let Pair { first, memo, .. } = self;
        let answer = first
            .caller
            .ask_with(shared.rt, shared.server, memo, site, receiver);
        Fast::Now(answer)
    }

    fn is_learned<R: Wait, S: Wait + Drop>(
        &mut self,
        shared: &Shared<'_, K, R, S>,
        class: u32,
        declares: u32,
    ) -> bool {
        let runs = fast(Runs(declares));
        self.is_unknown(class)
            && self.ask(shared, 0, class) == runs
            && self.is_unknown(class)
            && self.ask_with(shared, 0, class) == runs
            && self.is_remembered(false, class, declares)
    }

    /// Whether the line is so.
    fn is_so<R: Wait, S: Wait + Drop>(
        &mut self,
        shared: &Shared<'_, K, R, S>,
        line: &Line,
    ) -> bool {
        match line {
            First(act) => acts(shared, self.first, act),
            Second(act) => acts(shared, self.second, act),
            Keeps => {
                self.kept = self.first.caller.seen().again();
                true
            }
            Learns => {
                self.second.caller.learn(&self.kept);
                true
            }
            IsUnknown(class) => self.is_unknown(*class),
            IsLearned(class, declares) => self.is_learned(shared, *class, *declares),
            IsRemembered(by_second, class, declares) => {
                self.is_remembered(*by_second, *class, *declares)
            }
            Asks(site, class, says) => self.ask(shared, *site, *class) == fast(*says),
            AsksWith(site, class, says) => self.ask_with(shared, *site, *class) == fast(*says),
            CallsWith(site, class, says) => self.call_with(false, *site, *class) == fast(*says),
            Has(site, class, declares) => {
                self.remembered(*site, *class) == Some(Outcome::Run(method(*declares, 0)))
            }
        }
    }
}

/// Whether the lines are so, one after another.
fn are_so<K: Name, R: Wait, S: Wait + Drop>(
    shared: &Shared<'_, K, R, S>,
    pair: &mut Pair<'_, K>,
    lines: &[Line],
) -> bool {
    let mut all = true;
    for line in lines {
        all = pair.is_so(shared, line) && all;
    }
    all
}

/// Whether the row is so of the first two of these callers.
pub(crate) fn is_row<K: Name, R: Wait, S: Wait + Drop>(
    shared: &Shared<'_, K, R, S>,
    workers: &mut [Worker<K>],
    row: &Row,
) -> bool {
    let Some((first, rest)) = workers.split_first_mut() else {
        return false;
    };
    let Some(second) = rest.first_mut() else {
        return false;
    };
    let kept = first.caller.seen().again();
    match Memo::new(shared.alloc, first.caller.seen(), row.0) {
        Ok(memo) => {
            let mut pair = Pair {
                first,
                second,
                kept,
                memo,
            };
            are_so(shared, &mut pair, row.1)
        }
        Err(_) => false,
    }
}
