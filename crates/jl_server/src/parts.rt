//! What a server is made of, before it has a name.

ghost use Rattle.std.specs.Prelude.{◌≡◌, ◌≤◌, [], Some, length, drop, replicate, None, IfOk, IfSome};
ghost use Rattle.left_right.specs.Sides.{view as seat_view};
ghost use Rattle.jl_types.specs.Events.Limits.{fixed, AreAllowed};
ghost use Rattle.jl_server.specs.ForProofs.Shown.{server_of};

use crate::book::Book;
use crate::caller::Caller;
use crate::history::{Name, Opened};
use crate::mark::Mark;
use crate::publish::{TableWriter, Tell, publish};
use crate::seen::Seen;
use crate::server::LinkServer;
use crate::table::{Change, Table};
use jl_core::Core;
use jl_types::Limits;
use left_right::writer::Writer;
use std::alloc::{AllocError, Global};
use std::marker::Model;
use std::sync::Wait;
use thiserror::Error;

/// A growth or a caller's place was refused. Nothing stands.
#[derive(Clone, Copy, Debug, PartialEq, Eq, Error)]
#[error("Unmade")]
pub struct Unmade;

/// A core with an empty log, a history with no entries and a table with no links. A clause sees whose history it is, its limits, and how
/// many callers there are to be.
pub struct Parts {
    core: Core,
    history: Opened,
    writer: TableWriter,
    limits: Limits,
    callers: usize,
}

impl Model for Parts {
    ghost use Rattle.std.specs.Prelude.{◌≡◌, [], length, drop};
    ghost use Rattle.jl_core.specs.State.{empty_core};
    ghost use Rattle.jl_server.specs.History.{Server};

    ghost Value = { Server };

    ghost view = { λ p. record { book = p.history.reached.book; limits = p.limits; callers = p.callers } };

    ghost invariant = { λ p.
        (p.core ≡ empty_core p.limits)
        × (p.writer.desk.shown.value.list.reached.log ≡ [])
        × (p.writer.desk.shown.value.list.reached.book ≡ p.history.reached.book)
        × (p.writer.desk.shown.value.limits ≡ p.limits)
        × (length (drop p.writer.behind p.writer.log.items) ≡ 0) };
}

impl Parts {
    /// Makes all that the server is to have but its callers, with room for so many: one or more sites that may be requested, and
    /// 1 to 64 callers. The other limits are those of the programs.
    ///
    /// # Errors
    ///
    /// Unmade, if a growth was refused.
    pub fn new(alloc: Global, max_sites: u32, callers: usize) -> Result<Parts, Unmade>
        requires sites { 1 ≤ max_sites }
        requires callers { (1 ≤ callers) × (callers ≤ 64) }
        ensures { IfOk result (λ parts. (parts.limits ≡ fixed max_sites) × (parts.callers ≡ callers)) }
    {
        Parts::with_limits(alloc, Limits::fixed(max_sites), callers)
    }

    /// Makes all that the server is to have but its callers, with these limits and with room for 1 to 64 callers.
    ///
    /// # Errors
    ///
    /// Unmade, if a growth was refused.
    pub fn with_limits(alloc: Global, limits: Limits, callers: usize) -> Result<Parts, Unmade>
        requires limits { AreAllowed limits }
        requires callers { (1 ≤ callers) × (callers ≤ 64) }
        ensures { IfOk result (λ parts. (parts.limits ≡ limits) × (parts.callers ≡ callers)) }
    {
        let history = Opened::new();
        let Ok(core) = Core::with_limits(alloc, limits) else {
            return Err(Unmade);
        };
        let Ok(writer) = first_writer(alloc, limits, callers, history.mark()) else {
            return Err(Unmade);
        };
        Ok(Parts {
            core,
            history,
            writer,
            limits,
            callers,
        })
    }

    /// Opens the book under a name, with its callers, which have seen nothing. It publishes twice with no change, after which the writer
    /// has room for every later change. So the book may take events before anybody calls there.
    ///
    /// # Errors
    ///
    /// Unmade, if a growth or a caller's place was refused.
    pub fn open<K: Name, R: Wait + Drop>(
        self,
        alloc: Global,
        rt: R,
    ) -> Result<(Book<K, R>, Vec<Caller<K>>), Unmade>
        requires book { self.book ≡ K.book }
        requires limits { self.limits ≡ K.limits }
        ensures book { IfOk result (λ made. made.0 ≡ []) }
        ensures callers { IfOk result (λ made. made.1.items ≡ replicate self.callers []) }
    {
        let Parts {
            core,
            history,
            writer,
            limits: _,
            callers,
        } = self;
        let (head, list) = history.named::<K>();
        let Some((writer, made)) = first_shown(&rt, alloc, writer, &list, callers) else {
            return Err(Unmade);
        };
        Ok((Book::new(core, head, list, writer, rt), made))
    }

    /// Starts the server under a name, with its callers, which have seen nothing: its book is [`open`](Parts::open)ed, and is under one
    /// lock from now on.
    ///
    /// # Errors
    ///
    /// Unmade, if a growth or a caller's place was refused.
    pub fn start<K: Name, R: Wait + Drop>(
        self,
        alloc: Global,
        rt: R,
    ) -> Result<(LinkServer<K, R>, Vec<Caller<K>>), Unmade>
        requires book { self.book ≡ K.book }
        requires limits { self.limits ≡ K.limits }
        ensures { IfOk result (λ made. made.1.items ≡ replicate self.callers []) }
    {
        match self.open(alloc, rt) {
            Ok((book, callers)) => Ok((LinkServer::of(book), callers)),
            Err(unmade) => Err(unmade),
        }
    }
}

/// The writer of a first table, of a server with these limits and of this list, which has no entries.
#[tactic(auto, using(crate::proofs::Opens::opens, crate::proofs::Opens::alike))]
fn first_writer(
    alloc: Global,
    limits: Limits,
    callers: usize,
    list: Mark,
) -> Result<TableWriter, AllocError>
    requires callers { (1 ≤ callers) × (callers ≤ 64) }
    requires list { list.reached.log ≡ [] }
    ensures list { IfOk result (λ w. w.desk.shown.value.list ≡ list) }
    ensures limits { IfOk result (λ w. w.desk.shown.value.limits ≡ limits) }
    ensures settled { IfOk result (λ w. drop w.behind w.log.items ≡ []) }
{
    let again = list.again();
    let first = Table::new(alloc, limits, list)?;
    let second = Table::new(alloc, limits, again)?;
    Writer::new(alloc, first, second, callers)
}

/// Publishes twice with no change, after which the writer has room for every later change, and makes so many callers, which have seen
/// nothing. If a growth or a caller's place is refused, the table is at its end, and there is nothing.
fn first_shown<K: Name, R: Wait>(
    rt: &R,
    alloc: Global,
    writer: TableWriter,
    list: &Seen<K>,
    callers: usize,
) -> Option<(TableWriter, Vec<Caller<K>>)>
    requires list { list.now ≡ [] }
    requires settled { length (drop writer.behind writer.log.items) ≡ 0 }
    requires book { writer.desk.shown.value.list.reached.book ≡ K.book }
    requires limits { writer.desk.shown.value.limits ≡ K.limits }
    requires log { writer.desk.shown.value.list.reached.log ≡ [] }
    ensures settled { IfSome result (λ r. length (drop r.0.behind r.0.log.items) ≡ 0) }
    ensures log { IfSome result (λ r. r.0.desk.shown.value.list.reached.log ≡ []) }
    ensures book { IfSome result (λ r. r.0.desk.shown.value.list.reached.book ≡ K.book) }
    ensures limits { IfSome result (λ r. r.0.desk.shown.value.limits ≡ K.limits) }
    ensures callers { IfSome result (λ r. r.1.items ≡ replicate callers []) }
{
    let writer = publish_blank(rt, alloc, writer, list)?;
    let mut writer = publish_blank(rt, alloc, writer, list)?;
    match make_callers(alloc, &mut writer, list, callers) {
        Ok(made) => Some((writer, made)),
        Err(_) => {
            drop(writer.take(rt));
            None
        }
    }
}

/// Publishes a change of nothing at a first table. If there is no memory, the table is at its end, and there is nothing.
fn publish_blank<K: Name, R: Wait>(
    rt: &R,
    alloc: Global,
    writer: TableWriter,
    list: &Seen<K>,
) -> Option<TableWriter>
    requires list { list.now ≡ [] }
    requires settled { length (drop writer.behind writer.log.items) ≡ 0 }
    requires book { writer.desk.shown.value.list.reached.book ≡ K.book }
    requires limits { writer.desk.shown.value.limits ≡ K.limits }
    requires log { writer.desk.shown.value.list.reached.log ≡ [] }
    ensures settled { IfSome result (λ w. length (drop w.behind w.log.items) ≡ 0) }
    ensures log { IfSome result (λ w. w.desk.shown.value.list.reached.log ≡ []) }
    ensures book { IfSome result (λ w. w.desk.shown.value.list.reached.book ≡ K.book) }
    ensures limits { IfSome result (λ w. w.desk.shown.value.limits ≡ K.limits) }
    ensures known { IfSome result (λ w. server_of (seat_view w.desk.place) ≡ Some (K.book, K.limits)) }
{
    publish(rt, writer, blank(alloc, list))
}

/// A change of nothing.
fn blank<K: Name>(alloc: Global, list: &Seen<K>) -> Change
    requires { list.now ≡ [] }
    ensures { (result.slots.items ≡ []) × (result.classes ≡ 0) × (result.list.reached.log ≡ []) × (result.list.reached.book ≡ K.book) }
{
    Change {
        slots: Vec::new(alloc),
        classes: 0,
        list: list.mark(),
    }
}

/// Callers that have seen the list, each told whose table it is.
fn make_callers<K: Name>(
    alloc: Global,
    writer: &mut TableWriter,
    list: &Seen<K>,
    callers: usize,
) -> Result<Vec<Caller<K>>, AllocError>
    requires place { server_of (seat_view writer.old.desk.place) ≡ Some (K.book, K.limits) }
    requires list { list.now ≡ [] }
    ensures shown { writer.new.desk.shown ≡ writer.old.desk.shown }
    ensures settled { drop writer.new.behind writer.new.log.items ≡ drop writer.old.behind writer.old.log.items }
    ensures callers { IfOk result (λ made. made.items ≡ replicate callers []) }
{
    let mut made = Vec::with_capacity(alloc, callers)?;
    for _ in 0..callers {
        let caller = make_caller(writer, list)?;
        made.push(caller)?;
    }
    Ok(made)
}

/// One caller more, which has seen this list.
fn make_caller<K: Name>(writer: &mut TableWriter, list: &Seen<K>) -> Result<Caller<K>, AllocError>
    requires { server_of (seat_view writer.old.desk.place) ≡ Some (K.book, K.limits) }
    ensures shown { writer.new.desk.shown ≡ writer.old.desk.shown }
    ensures settled { drop writer.new.behind writer.new.log.items ≡ drop writer.old.behind writer.old.log.items }
    ensures known { seat_view writer.new.desk.place ≡ seat_view writer.old.desk.place }
    ensures caller { IfOk result (λ caller. caller ≡ list.now) }
{
    let mut reader = writer.factory().reader()?;
    reader.learn::<Tell>(writer.tell::<Tell>());
    Ok(Caller::new(reader, list.again()))
}
