//! Answers and links, as numbers.

ghost use Rattle.std.specs.Prelude.{◌≡◌, ◌<◌, ◌^◌, ◌∷◌, [], map, get_or};
ghost use Rattle.jl_host.specs.Showing as showing;
ghost use Rattle.jl_host.specs.Showing.{HasBits};
ghost use Rattle.jl_host.specs.Calling as calling;

use jl_types::{
    Answer, ClassId, Fast, Link, MOST_ROWS, MethodId, Missing, Outcome, Recv, ResolveAnswer, Table,
    TableKind, Throwable, Unlinked,
};

/// The number that stands for the null reference.
pub const NULL: u32 = 0xffff_ffff;

/// The number that stands for no method, as its class and as its place.
pub const NO_METHOD: u32 = 0xffff_ffff;

/// The answer to a call.
#[repr(C)]
#[derive(Clone, Copy, Debug, PartialEq, Eq)]
pub struct CallAnswer {
    /// - 0: a method runs.
    /// - 1: something is thrown.
    /// - 2: no object can be such a receiver.
    /// - 3: the site can't be linked.
    /// - 4: it isn't known at once.
    pub kind: u32,
    /// The class of the method that runs, else 0.
    pub class_number: u32,
    /// The place of that method among those of its class, or the number of what is thrown, or of why the site can't be linked.
    pub value: u32,
}

/// What a reference to a method resolves to.
#[repr(C)]
#[derive(Clone, Copy, Debug, PartialEq, Eq)]
pub struct ResolutionShown {
    /// 0: to the method that was found; 1: something is thrown; 3: it isn't known yet, since a nest host isn't recorded.
    pub kind: u32,
    /// The number of what is thrown, or of what isn't known, as in a [`CallAnswer`]; else 0.
    pub value: u32,
    /// The class of the method that was found, accessible or not. If none was, this and the place are [`NO_METHOD`].
    pub class_number: u32,
    /// The place of that method among those of its class.
    pub method: u32,
}

/// A row of a link: the outcome of a call on an object of this class.
#[repr(C)]
#[derive(Clone, Copy, Debug, PartialEq, Eq)]
pub struct Row {
    /// The class of the receiver in a table, else 0.
    pub receiver: u32,
    /// 0: a method runs; 1: something is thrown.
    pub kind: u32,
    /// As in a [`CallAnswer`].
    pub class_number: u32,
    /// As in a [`CallAnswer`].
    pub value: u32,
}

/// A link, or none.
#[repr(C)]
#[derive(Clone, Copy, Debug)]
pub struct LinkShown {
    /// - 0: there is none.
    /// - 1: each call throws.
    /// - 2: each call runs a method.
    /// - 3: each call on an object has one outcome.
    /// - 4 and 5: a table of invokevirtual and of invokeinterface.
    /// - 6: megamorphic.
    pub kind: u32,
    /// How many rows say something. The others are 0.
    pub count: u32,
    pub rows: [Row; MOST_ROWS],
}

/// The receiver of this number.
pub(crate) fn recv_of(number: u32) -> Recv
    ensures { result ≡ showing.recv_of number }
{
    if number == NULL {
        Recv::Null
    } else {
        Recv::Of(ClassId::new(number))
    }
}

/// The number of what is thrown.
fn throwable_number(throwable: Throwable) -> u32
    ensures { result ≡ showing.throwable_number throwable }
{
    match throwable {
        Throwable::NoSuchMethodError => 1,
        Throwable::IllegalAccessError => 2,
        Throwable::IncompatibleClassChangeError => 3,
        Throwable::AbstractMethodError => 4,
        Throwable::NullPointerException => 5,
    }
}

/// The number of why a site can't be linked.
fn unlinked_number(reason: Unlinked) -> u32
    ensures { result ≡ showing.unlinked_number reason }
{
    match reason {
        Unlinked::NotReady(Missing::Named) => 1,
        Unlinked::NotReady(Missing::CallerHost) => 2,
        Unlinked::NotReady(Missing::MethodHost) => 3,
        Unlinked::Unbound => 4,
        Unlinked::Gone => 5,
        Unlinked::NoSite => 6,
    }
}

/// A call that runs the method.
fn runs(method: MethodId) -> CallAnswer
    ensures { result ≡ showing.runs method }
{
    CallAnswer {
        kind: 0,
        class_number: method.class.number(),
        value: u32::from(method.index),
    }
}

/// A call that runs no method.
fn otherwise(kind: u32, value: u32) -> CallAnswer
    ensures { result ≡ showing.otherwise kind value }
{
    CallAnswer {
        kind,
        class_number: 0,
        value,
    }
}

/// An answer to a call, as numbers.
pub(crate) fn answer_shown(answer: Answer) -> CallAnswer
    ensures { result ≡ showing.answer_shown answer }
{
    match answer {
        Answer::Run(method) => runs(method),
        Answer::Throws(throwable) => otherwise(1, throwable_number(throwable)),
        Answer::BadReceiver => otherwise(2, 0),
        Answer::Unlinked(reason) => otherwise(3, unlinked_number(reason)),
    }
}

/// An answer at once, as numbers.
pub(crate) fn fast_shown(fast: Fast) -> CallAnswer
    ensures { result ≡ showing.fast_shown fast }
{
    match fast {
        Fast::Now(answer) => answer_shown(answer),
        Fast::Miss | Fast::Closed => otherwise(4, 0),
    }
}

/// The bits of a call that isn't answered at once.
pub(crate) fn miss_bits() -> u64
    ensures { HasBits (showing.otherwise 4 0) result }
{
    0x400_0000_0000_0000
}

/// An answer at once, in 64 bits.
#[inline(always)]
pub(crate) fn fast_bits(fast: Fast) -> u64
    ensures { HasBits (showing.fast_shown fast) result }
{
    match fast {
        Fast::Now(answer) => answer_bits(answer),
        Fast::Miss | Fast::Closed => miss_bits(),
    }
}

/// An answer to a call, in 64 bits.
fn answer_bits(answer: Answer) -> u64
    ensures { HasBits (showing.answer_shown answer) result }
{
    match answer {
        Answer::Run(method) => run_bits(method),
        Answer::Throws(throwable) => other_bits(1, throwable_number(throwable)),
        Answer::BadReceiver => other_bits(2, 0),
        Answer::Unlinked(reason) => other_bits(3, unlinked_number(reason)),
    }
}

/// A call that runs the method, in 64 bits.
fn run_bits(method: MethodId) -> u64
    ensures { HasBits (showing.runs method) result }
{
    u64::from(method.class.number()) + u64::from(method.index) * 0x1_0000_0000
}

/// A call that runs no method, in 64 bits.
fn other_bits(kind: u8, value: u32) -> u64
    requires { value < 2 ^ 24 }
    ensures { HasBits (showing.otherwise kind value) result }
{
    u64::from(value) * 0x1_0000_0000 + u64::from(kind) * 0x100_0000_0000_0000
}

/// What a reference finds, accessible or not, and what it resolves to, as numbers.
pub(crate) fn resolution_shown(
    found: &Option<MethodId>,
    resolved: Result<MethodId, ResolveAnswer>,
) -> ResolutionShown
    ensures { result ≡ calling.resolution_shown found.now resolved }
{
    match resolved {
        Ok(_) => with_method(0, 0, found),
        Err(ResolveAnswer::Fault(throwable)) => with_method(1, throwable_number(throwable), found),
        Err(ResolveAnswer::NotReady(missing)) => {
            with_method(3, unlinked_number(Unlinked::NotReady(missing)), found)
        }
    }
}

/// This of a reference that finds the method, or none.
fn with_method(kind: u32, value: u32, found: &Option<MethodId>) -> ResolutionShown
    ensures { result ≡ calling.with_method kind value found.now }
{
    match found {
        Some(method) => ResolutionShown {
            kind,
            value,
            class_number: method.class.number(),
            method: u32::from(method.index),
        },
        None => ResolutionShown {
            kind,
            value,
            class_number: NO_METHOD,
            method: NO_METHOD,
        },
    }
}

/// A row that says nothing.
fn no_row() -> Row
    ensures { result ≡ showing.no_row }
{
    Row {
        receiver: 0,
        kind: 0,
        class_number: 0,
        value: 0,
    }
}

/// The row of an outcome on objects of a class.
fn row_of(receiver: u32, outcome: Outcome) -> Row
    ensures { result ≡ showing.row_of receiver outcome }
{
    match outcome {
        Outcome::Run(method) => Row {
            receiver,
            kind: 0,
            class_number: method.class.number(),
            value: u32::from(method.index),
        },
        Outcome::Throws(throwable) => Row {
            receiver,
            kind: 1,
            class_number: 0,
            value: throwable_number(throwable),
        },
    }
}

/// A link of no row.
fn bare(kind: u32) -> LinkShown
    ensures { result ≡ showing.with_rows kind [] }
{
    LinkShown {
        kind,
        count: 0,
        rows: [no_row(); MOST_ROWS],
    }
}

/// A link of one row.
fn single(kind: u32, outcome: Outcome) -> LinkShown
    ensures { result ≡ showing.with_rows kind (showing.row_of 0 outcome ∷ []) }
{
    let mut rows = [no_row(); MOST_ROWS];
    rows[0] = row_of(0, outcome);
    LinkShown {
        kind,
        count: 1,
        rows,
    }
}

/// The number of a table's kind.
fn table_kind(kind: TableKind) -> u32
    ensures { result ≡ showing.table_kind kind }
{
    match kind {
        TableKind::Virtual => 4,
        TableKind::Interface => 5,
    }
}

/// The row at the place of a table, if there is one.
fn row_at(entries: &[(ClassId, Outcome)], place: usize) -> Row
    ensures { result ≡ get_or (map (λ row. showing.row_of row.0 row.1) entries.now) place showing.no_row }
{
    match entries.get(place) {
        Some(entry) => row_of(entry.0.number(), entry.1),
        None => no_row(),
    }
}

/// A table, row by row.
fn table_shown(kind: TableKind, table: &Table) -> LinkShown
    ensures { result ≡ showing.with_rows (showing.table_kind kind) (map (λ row. showing.row_of row.0 row.1) table.now) }
{
    let entries = table.as_slice();
    LinkShown {
        kind: table_kind(kind),
        count: entries.len().min(MOST_ROWS) as u32,
        rows: [
            row_at(entries, 0),
            row_at(entries, 1),
            row_at(entries, 2),
            row_at(entries, 3),
            row_at(entries, 4),
            row_at(entries, 5),
            row_at(entries, 6),
            row_at(entries, 7),
        ],
    }
}

/// A site's link or none, as numbers.
pub(crate) fn link_shown(link: Option<Link>) -> LinkShown
    ensures { result ≡ showing.link_shown link }
{
    match link {
        None => bare(0),
        Some(link) => shown(&link),
    }
}

/// A link as numbers.
fn shown(link: &Link) -> LinkShown
    ensures { result ≡ showing.shown link.now }
{
    match link {
        Link::Fault(throwable) => single(1, Outcome::Throws(*throwable)),
        Link::Plain(method) => single(2, Outcome::Run(*method)),
        Link::Direct(outcome) => single(3, *outcome),
        Link::Table(kind, table) => table_shown(*kind, table),
        Link::Mega => bare(6),
    }
}
