//! What callers do and are answered, as constant rows.

use crate::deeds::Deed;

/// The answer to a call, or the answer at once.
#[derive(Clone, Copy)]
pub(crate) enum Says {
    /// The first method of the class runs.
    Runs(u32),
    Misses,
    IsClosed,
    ThrowsAtNull,
    IsNoReceiver,
    IsGone,
}

/// What a caller does or is answered.
#[derive(Clone, Copy)]
pub(crate) enum Act {
    /// It does this, which is accepted.
    Does(Deed),
    /// It does all of this, which is accepted.
    DoesAll(&'static [Deed]),
    /// It makes a switch point, which is the event of this serial and has this number.
    MakesSwitch(u64, u32),
    /// What it does is refused for an unknown class, after so many events.
    IsRefused(Deed, u64),
    /// What it does is refused after so many events, since there ever were as many of its kind as there may be.
    IsFull(Deed, u64),
    /// There is no such event.
    Cannot(Deed),
    /// Its call at the site, on an object of the class or null.
    Calls(u32, Option<u32>, Says),
    /// Its calls on an object of class 2 at site 0 and on null at site 1, both in one entry.
    CallsBoth(Says, Says),
    /// It has seen so many events.
    HasSeen(u64),
    /// It takes a snapshot, which comes after so many.
    TakesSnapshot(u64),
    /// It is told that just these sites have a link, which runs A's method on each object.
    Lists(&'static [u32]),
    /// The server forgets what is past.
    Forgets,
    /// The entries after the first so many are refused, since the server has forgotten one of them. It has then seen what it had.
    IsForgotten(u64),
    /// It is told the whole log, which has so many entries.
    HasLog(u64),
    /// It is told the entries after the first so many, which made the switch points of these numbers.
    IsTold(u64, &'static [u32]),
    /// It is told one entry after the first so many, which prints so.
    IsToldAs(u64, &'static str),
    /// It tells what it has seen.
    Tells,
    /// It learns what is told, and waits until there is something.
    Hears,
}

/// What two callers do at once. The first one has done what comes before.
pub(crate) struct Race {
    pub(crate) before: &'static [Deed],
    pub(crate) first: &'static [Act],
    pub(crate) second: &'static [Act],
}

/// What the threads of a test do.
#[derive(Clone, Copy)]
pub(crate) enum Part {
    /// Nothing.
    Nothing,
    /// The first one acts, and the other one, which is told of it: of a retirement, or of a definition.
    Race(bool),
    /// Two retarget and two install.
    Storm,
    /// Four define classes below A, of which some override its method or none does, and two link and call.
    Definitions(bool),
}
