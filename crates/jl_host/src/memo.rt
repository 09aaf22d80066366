//! What one thread remembers of calls at megamorphic links.

ghost use Rattle.std.specs.Prelude.{◌≡◌, None};
ghost use Rattle.std.specs.Option.{option_copied};
ghost use Rattle.jl_memo.specs.Answers.{told};
ghost use Rattle.jl_host.specs.Showing.{recv_of};
ghost use Rattle.jl_host.specs.Memos.{IsMemoOpen, IsMemoAsk, IsMemoCall};

use crate::linker::Linker;
use crate::shown::{CallAnswer, answer_shown, fast_shown, recv_of};
use crate::told::{CLOSED, DONE, MEMORY, OPEN_ALREADY};
use jl_types::{Answer, Link, SiteNo};
use std::alloc::Global;
use std::marker::Model;

/// A memo that is open, or isn't. A clause sees what it remembers.
pub struct Memo {
    rows: Option<jl_memo::Memo>,
}

// Written out, since a derived drop is proved anew in each crate that lets one go.
impl Drop for Memo {
    fn drop(self) {
        let Memo { rows: _rows } = self;
    }
}

impl Model for Memo {
    ghost use Rattle.std.specs.Prelude.{List, Option};
    ghost use Rattle.jl_memo.specs.declared.set.Set.{Set};

    ghost Value = { Option (List Set) };

    ghost view = { λ m. m.rows };
}

impl Memo {
    /// One that isn't open.
    pub fn blank() -> Memo
        ensures { result ≡ None }
    {
        Memo { rows: None }
    }

    /// Opens it, with room for two calls a set. The status tells whether it was open already, or there was no memory.
    pub fn open(&mut self, alloc: Global, sets: u32) -> u32
        ensures { IsMemoOpen sets self.old result self.new }
    {
        if self.rows.is_some() {
            return OPEN_ALREADY;
        }
        match jl_memo::Memo::new(alloc, sets) {
            Ok(rows) => {
                self.rows = Some(rows);
                DONE
            }
            Err(_) => MEMORY,
        }
    }

    /// Lets all go that it remembers.
    pub fn close(&mut self)
        ensures { self.new ≡ None }
    {
        self.rows = None;
    }

    /// The answer to a call now, linked or not. It is remembered if the site's link is megamorphic and the call has an outcome for its
    /// receiver's class. A site of a retired loader is gone, and an object of a class of one is no receiver. Takes no memory.
    pub fn ask(
        &mut self,
        linker: &mut Linker,
        site: u32,
        receiver: u32,
        answer: &mut CallAnswer,
    ) -> u32
        ensures { IsMemoAsk site receiver self.old linker.old answer.old result answer.new self.new linker.new }
    {
        let Some(rows) = &mut self.rows else {
            return CLOSED;
        };
        let Some((found, link)) = linker.asked(site, receiver) else {
            return CLOSED;
        };
        tell(rows, &link, site, receiver, &found);
        *answer = answer_shown(found);
        DONE
    }

    /// The answer to a call that it remembers, by itself, be the site or the class retired or not. Takes no lock and no memory.
    pub fn call(&mut self, site: u32, receiver: u32, answer: &mut CallAnswer) -> u32
        ensures { IsMemoCall site receiver self.old answer.old result answer.new self.new }
    {
        let Some(rows) = &self.rows else {
            return CLOSED;
        };
        *answer = fast_shown(jl_memo::recalled(rows, SiteNo::new(site), recv_of(receiver)));
        DONE
    }

    /// What it remembers, if it is open.
    pub(crate) fn rows(&self) -> Option<&jl_memo::Memo>
        ensures { option_copied result ≡ self.now }
    {
        self.rows.as_ref()
    }
}

/// Remembers the answer to a call whose site had this link, if the link is megamorphic.
fn tell(rows: &mut jl_memo::Memo, link: &Option<Link>, site: u32, receiver: u32, found: &Answer)
    ensures { rows.new ≡ told rows.old link.now site (recv_of receiver) found.now }
{
    jl_memo::told(rows, link, SiteNo::new(site), recv_of(receiver), *found);
}
