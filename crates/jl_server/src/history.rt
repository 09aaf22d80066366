//! The history of one server: one word, its length, whose list of entries exists in the proofs alone.

ghost use Rattle.std.specs.Prelude.{◌≡◌, []};
ghost use Rattle.jl_server.specs.History.{head_of};

use crate::entry::Entry;
use crate::mark::Mark;
use crate::seen::Seen;
use jl_core::Planned;
use logbook::{Gain, Plain, Play, Rule, Seen as Reached, Start, Word};
use std::marker::{Brand, Model, PhantomData};

/// The rule of the history: its one word is its length.
pub struct Law;

impl Rule<Entry, u64> for Law {
    ghost use Rattle.std.specs.Prelude.{[]};
    ghost use base.Fml.{ftrue};
    ghost use Rattle.jl_server.specs.History.{IsCounted};

    ghost holds = { λ cells log. IsCounted cells log };

    ghost first = { [] };

    ghost hinted = { λ n log. Unit {0} };

    ghost shows = { λ log. [] };

    ghost keeps = { λ names log. ftrue };

    ghost moves = { λ ask before after answer. Unit {0} };
}

/// Callers trade nothing.
pub struct Nothing;

impl Gain<Entry, u64> for Nothing {
    ghost use base.Fml.{ftrue};

    ghost after = { λ names about answer. ftrue };
}

/// The step that adds an entry.
pub struct Add;

impl Play<Entry, u64> for Add {
    ghost use Rattle.jl_server.specs.History.{Adds};

    ghost then = { Adds };
}

/// It adds the entry of what was planned.
impl Plain<Planned, Entry, u64> for Add {
    ghost use Rattle.std.specs.Prelude.{None};
    ghost use Rattle.jl_server.specs.History.{planned_entry};

    ghost ask = { planned_entry };

    ghost state = { λ planned. None };
}

/// Names one server: its history, and its limits. The call that starts a server picks it.
pub trait Name {
    ghost use Rattle.logbook.specs.Pages.{Book};
    ghost use Rattle.jl_types.specs.declared.limits.Limits.{Limits};

    ghost book: { Book };

    ghost limits: { Limits };
}

impl Name for Brand {
    ghost use Rattle.jl_types.specs.Events.Limits.{fixed};

    ghost book = { record { number = 0; log_name = 0; cells_name = 0 } };

    ghost limits = { fixed 1 };
}

/// A history with no entries, which has no name yet.
pub struct Opened {
    head: Word<Entry, u64, Law>,
    reached: Reached<Entry, u64, Law>,
    pub ghost empty: { reached.log ≡ [] },
    pub ghost head_is: { head ≡ head_of reached.book },
}

/// Written out, so that what drops one makes one call of it and doesn't take apart what it holds.
impl Drop for Opened {
    fn drop(self) {
        let Opened {
            head: _head,
            reached: _reached,
        } = self;
    }
}

impl Opened {
    /// A history of no entries, with its first list.
    pub fn new() -> Opened {
        let (reached, mut first, _second) = Reached::open(Start::alone(), 0, 0);
        Opened {
            head: Word::tracked(0, &mut first),
            reached,
        }
    }

    /// Its empty list.
    pub(crate) fn mark(&self) -> Mark
        ensures { result.reached ≡ self.now.reached }
    {
        Mark {
            serial: 0,
            reached: self.reached.again(),
        }
    }

    /// The history's word under a name, and the token that has seen nothing.
    pub(crate) fn named<K: Name>(self) -> (Head<K>, Seen<K>)
        requires { self.reached.book ≡ K.book }
        ensures { (result.0 ≡ []) × (result.1 ≡ []) }
    {
        let Opened { head, reached } = self;
        (
            Head {
                word: head,
                grown: reached.again(),
                of: PhantomData,
            },
            Seen::first(reached),
        )
    }
}

/// The word of a server's history: its length. A clause sees the list to which the history has grown by it.
pub struct Head<K: Name> {
    pub(crate) word: Word<Entry, u64, Law>,
    /// It has no bytes.
    pub(crate) grown: Reached<Entry, u64, Law>,
    of: PhantomData<K>,
}

/// Written out, so that what drops one makes one call of it and doesn't take apart what it holds.
impl<K: Name> Drop for Head<K> {
    fn drop(self) {
        let Head {
            word: _word,
            grown: _grown,
            of: _of,
        } = self;
    }
}

impl<K: Name> Model for Head<K> {
    ghost use Rattle.std.specs.Prelude.{◌≡◌, List};
    ghost use Rattle.std.specs.Coded.{codes};
    ghost use Rattle.jl_types.specs.ForProofs.TargetCode.{target_code};
    ghost use Rattle.jl_types.specs.Events.Entries as plain;
    ghost use Rattle.jl_server.specs.History.{head_of};

    ghost Value = { List plain.Entry };

    ghost coded = { Prim.hlevel (codes, target_code) };

    ghost view = { λ h. h.grown.log };

    ghost invariant = { λ h. (h.word ≡ head_of K.book) × (h.grown.book ≡ K.book) };
}
