//! The table that callers read without waiting, and the change that makes it the table of one entry more.

ghost use Rattle.std.specs.Prelude.{◌≡◌, None, IfOk, length, map, replicate, get_or};
ghost use Rattle.jl_types.specs.Events.Fast as fast_of;
ghost use Rattle.jl_memo.specs.Answers.{answer_with};

use crate::links::PublishedLinks;
use crate::mark::Mark;
use jl_memo::Memo;
use jl_types::{Fast, Limits, Link, Recv, SiteNo};
use left_right::Absorb;
use std::alloc::{AllocError, Global};

/// The links of a list by site, its number of classes, and the list, of a server with these limits.
pub struct Table {
    pub limits: Limits,
    pub links: PublishedLinks,
    pub classes: usize,
    pub list: Mark,
}

/// Written out, so that what drops one makes one call of it and doesn't take apart what it holds.
impl Drop for Table {
    fn drop(self) {
        let Table {
            limits: _limits,
            links: _links,
            classes: _classes,
            list: _list,
        } = self;
    }
}

/// What the last entry of a list changes: its slots, and the number of classes after it.
pub struct Change {
    pub slots: Vec<(SiteNo, Option<Link>)>,
    pub classes: usize,
    pub list: Mark,
}

/// Written out, so that what drops one makes one call of it and doesn't take apart what it holds.
impl Drop for Change {
    fn drop(self) {
        let Change {
            slots: _slots,
            classes: _classes,
            list: _list,
        } = self;
    }
}

/// What two copies of a table have in common. No value of it is made.
pub struct Content {
    pub limits: Limits,
    pub links: [Option<Link>; 0],
    pub classes: usize,
    pub list: Mark,
}

impl Absorb<Change> for Table {
    ghost use Rattle.jl_server.specs.ForProofs.Shown.{content, changed};

    type State = Content;

    ghost state = { content };

    ghost applied = { changed };

    ghost never_fails = { Unit {0} };

    fn absorb_first(&mut self, change: &Change, _other: &Table) -> Result<(), AllocError> {
        self.links.write(change.slots.as_slice());
        self.classes = change.classes;
        self.list = change.list.again();
        Ok(())
    }
}

impl Table {
    /// A table with no links.
    pub fn new(alloc: Global, limits: Limits, list: Mark) -> Result<Table, AllocError>
        ensures { IfOk result (λ t. (t.limits ≡ limits) × (t.links ≡ replicate limits.sites None) × (t.classes ≡ 0) × (t.list ≡ list)) }
    {
        Ok(Table {
            limits,
            links: PublishedLinks::new(alloc, limits.sites)?,
            classes: 0,
            list,
        })
    }

    /// The answer at once to a call at the site. Takes no memory.
    pub fn answer(&self, site: SiteNo, recv: Recv) -> Fast
        ensures { result ≡ fast_of.fast_answer (get_or self.now.links site None) self.now.classes recv }
    {
        self.links.answer(site, self.classes, recv)
    }

    /// The answer at once to a call at the site, at a megamorphic link by what is remembered. Takes no memory.
    pub fn answer_with(&self, rows: &Memo, site: SiteNo, recv: Recv) -> Fast
        ensures { result ≡ answer_with rows.now (get_or self.now.links site None) self.now.classes site recv }
    {
        self.links.answer_with(rows, self.classes, site, recv)
    }

    /// The answer at once to each call. Takes no memory.
    pub fn answer_all(&self, calls: &[(SiteNo, Recv)], answers: &mut [Fast])
        requires { length calls.now ≡ length answers.old }
        ensures { answers.new ≡ map (λ call. fast_of.fast_answer (get_or self.now.links call.0 None) self.now.classes call.1) calls.now }
    {
        for (place, call) in calls.iter().enumerate() {
            answers[place] = self.answer(call.0, call.1);
        }
    }
}
