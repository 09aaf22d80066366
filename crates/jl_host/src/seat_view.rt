//! What a seat has seen.

ghost use Rattle.std.specs.Prelude.{◌≡◌, None, get_or, slice_get};
ghost use Rattle.std.specs.Option.{option_copied};
ghost use Rattle.jl_types.specs.Events.Fast as fast_of;
ghost use Rattle.jl_memo.specs.Answers as by_memo;

use crate::behind::Links;
use jl_cache::KeptSlot;
use jl_memo::{Memo, answer};
use jl_types::{Fast, Recv, SiteNo};
use std::marker::Model;
use std::sync::Arc;

/// Links as they were, and how many classes there were. A clause sees both.
pub(crate) struct SeatView {
    links: Arc<Links>,
    classes: usize,
}

// Written out, since a derived drop is proved anew in each crate that lets one go.
impl Drop for SeatView {
    fn drop(self) {
        let SeatView {
            links: _links,
            classes: _classes,
        } = self;
    }
}

impl Model for SeatView {
    ghost use Rattle.jl_host.specs.Seats.{SeatView};

    ghost Value = { SeatView };

    ghost view = { λ s. record { links = s.links.value; classes = s.classes } };
}

impl SeatView {
    /// These links, and so many classes.
    pub(crate) fn new(links: Arc<Links>, classes: usize) -> SeatView
        ensures links { result.links ≡ links.value }
        ensures classes { result.classes ≡ classes }
    {
        SeatView { links, classes }
    }

    /// The answer at once to a call. Takes no memory.
    #[inline(always)]
    pub(crate) fn answer(&self, site: SiteNo, recv: Recv) -> Fast
        ensures { result ≡ fast_of.fast_answer (get_or self.now.links site None) self.now.classes recv }
    {
        match slot_at(&self.links, site) {
            Some(slot) => slot.answer(self.classes, recv),
            None => Fast::Miss,
        }
    }

    /// The answer at once to a call, at a megamorphic link by what is remembered. Takes no memory.
    pub(crate) fn answer_with(&self, rows: &Memo, site: SiteNo, recv: Recv) -> Fast
        ensures { result ≡ by_memo.answer_with rows.now (get_or self.now.links site None) self.now.classes site recv }
    {
        match slot_at(&self.links, site) {
            Some(slot) => answer(rows, slot, self.classes, site, recv),
            None => Fast::Miss,
        }
    }
}

/// The site's link or none, if there may be such a site.
fn slot_at(links: &Links, site: SiteNo) -> Option<&KeptSlot>
    ensures { option_copied result ≡ slice_get links.now site }
{
    links.get(site.number() as usize)
}
