//! One thread's place to read.

ghost use Rattle.std.specs.Prelude.{◌≡◌, None};
ghost use Rattle.jl_host.specs.Seats.{IsRefresh, IsSeatCall, IsSeatAnswer};
ghost use Rattle.jl_host.specs.Memos.{IsSeatCallWith};

use crate::linker::Linker;
use crate::memo::Memo;
use crate::seat_view::SeatView;
use crate::shown::{CallAnswer, fast_bits, fast_shown, miss_bits, recv_of};
use crate::told::{CLOSED, DONE, MEMORY};
use jl_types::SiteNo;
use std::alloc::Global;
use std::marker::Model;

/// Links as they were at the last refresh, or none. A clause sees what was seen.
pub struct Seat {
    seen: Option<SeatView>,
}

// Written out, since a derived drop is proved anew in each crate that lets one go.
impl Drop for Seat {
    fn drop(self) {
        let Seat { seen: _seen } = self;
    }
}

impl Model for Seat {
    ghost use Rattle.std.specs.Prelude.{Option};
    ghost use Rattle.jl_host.specs.Seats.{SeatView};

    ghost Value = { Option SeatView };

    ghost view = { λ s. s.seen };
}

impl Seat {
    /// One that has seen nothing.
    pub fn blank() -> Seat
        ensures { result ≡ None }
    {
        Seat { seen: None }
    }

    /// Gives the seat the linker's links and its count of classes as they are now. After events it costs the list of pages up to the last
    /// one that ever had a link, and a page for each in which a link changed. The next seats share what was made. Want of memory leaves
    /// what the seat has.
    pub fn refresh(&mut self, alloc: Global, linker: &mut Linker) -> u32
        ensures { IsRefresh self.old linker.old result self.new linker.new }
    {
        match linker.seen(alloc) {
            Ok(Some(seen)) => {
                self.seen = Some(seen);
                DONE
            }
            Ok(None) => CLOSED,
            Err(_) => MEMORY,
        }
    }

    /// Lets go what was seen.
    pub fn leave(&mut self)
        ensures { self.new ≡ None }
    {
        self.seen = None;
    }

    /// The answer at once to a call, by what was seen. Takes no lock and no memory.
    pub fn call(&mut self, site: u32, receiver: u32, answer: &mut CallAnswer) -> u32
        ensures { IsSeatCall site receiver self.old answer.old result answer.new self.new }
    {
        let Some(seen) = &self.seen else {
            return CLOSED;
        };
        *answer = fast_shown(seen.answer(SiteNo::new(site), recv_of(receiver)));
        DONE
    }

    /// The answer at once to a call, in 64 bits: a miss if nothing was seen. Takes no lock and no memory.
    pub fn answer(&mut self, site: u32, receiver: u32) -> u64
        ensures { IsSeatAnswer site receiver self.old result self.new }
    {
        match &self.seen {
            Some(seen) => fast_bits(seen.answer(SiteNo::new(site), recv_of(receiver))),
            None => miss_bits(),
        }
    }

    /// The answer at once to a call by what was seen, and at a megamorphic link by what the memo remembers. Takes no lock and no memory. A
    /// site of a retired loader is a miss once the seat was refreshed. There is no object of a retired class: one gets what is remembered.
    pub fn call_with(
        &mut self,
        memo: &mut Memo,
        site: u32,
        receiver: u32,
        answer: &mut CallAnswer,
    ) -> u32
        ensures { IsSeatCallWith site receiver self.old memo.old answer.old result answer.new self.new memo.new }
    {
        match &self.seen {
            Some(seen) => match memo.rows() {
                Some(rows) => {
                    let found = seen.answer_with(rows, SiteNo::new(site), recv_of(receiver));
                    *answer = fast_shown(found);
                    DONE
                }
                None => CLOSED,
            },
            None => CLOSED,
        }
    }
}
