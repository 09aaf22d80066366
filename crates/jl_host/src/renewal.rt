//! A renewal in steps, beside a linker that goes on.

ghost use Rattle.std.specs.Prelude.{◌≡◌, ◌-◌, length, None, option_and_then, option_copied};
ghost use Rattle.jl_host.specs.Renewals.{arrays_of, released_of};
ghost use Rattle.jl_host.specs.Renewing.{IsBegin, IsTake, IsFill, IsFinish, IsHandedOver};

use crate::begun::Begun;
use crate::fresh::Fresh;
use crate::linker::Linker;
use crate::renew::{have_places, write_numbers};
use crate::told::{CLOSED, DONE, MALFORMED, MEMORY, OPEN_ALREADY, TOO_SHORT, Told, unasked};
use jl_core::Core;
use jl_types::MOST_OF_A_KIND;
use std::alloc::Global;
use std::marker::Model;

/// A renewal of a linker that goes on meanwhile, or none. A clause sees what it has.
pub struct Renewal {
    begun: Option<Begun>,
    /// What is left of one that has ended. It is let go while no lock is held.
    ended: Option<Begun>,
}

// Written out, since a derived drop is proved anew in each crate that lets one go.
impl Drop for Renewal {
    fn drop(self) {
        let Renewal {
            begun: _begun,
            ended: _ended,
        } = self;
    }
}

impl Model for Renewal {
    ghost use Rattle.std.specs.Prelude.{Option};
    ghost use Rattle.std.specs.Coded.{codes};
    ghost use Rattle.jl_types.specs.ForProofs.TargetCode.{target_code};
    ghost use Rattle.jl_host.specs.Renewing.{Renewing};

    ghost Value = { Option Renewing };

    ghost coded = { Prim.hlevel (codes, target_code) };

    ghost view = { λ r. r.begun };
}

impl Renewal {
    /// One that hasn't begun.
    pub fn blank() -> Renewal
        ensures { result ≡ None }
    {
        Renewal {
            begun: None,
            ended: None,
        }
    }

    /// Begins a renewal of the linker as it is now. The call sites and switch points that are released go unless they are still needed. So
    /// many places may be requested in the fresh linker, 1 to 1,048,576; its other limits are the linker's. What there is is shared and
    /// not copied. The linker forgets no event until the renewal has ended. The status tells whether the linker isn't open, the renewal
    /// has begun already, no such number may be, or there was no memory.
    pub fn begin(
        &mut self,
        alloc: Global,
        from: &mut Linker,
        max_sites: u32,
        released_call_sites: &[u32],
        released_switches: &[u32],
    ) -> u32
        ensures { IsBegin (released_of released_call_sites.now released_switches.now) max_sites self.old from.old result self.new from.new }
    {
        if !from.is_open() {
            return CLOSED;
        }
        if self.begun.is_some() {
            return OPEN_ALREADY;
        }
        if max_sites == 0 || max_sites > MOST_OF_A_KIND {
            return MALFORMED;
        }
        match from.begun(alloc, released_call_sites, released_switches, max_sites) {
            Ok(Some(begun)) => {
                self.begun = Some(begun);
                DONE
            }
            Ok(None) => CLOSED,
            Err(_) => MEMORY,
        }
    }

    /// Takes the next of the events that the linker has accepted since the begin, at most so many, and tells how many are left. None is
    /// copied. The status tells whether the renewal hasn't begun, the linker isn't open, or there was no memory. It is malformed if the
    /// linker shows to be another one than that of the begin: it has accepted fewer events than were taken, or has forgotten the next of
    /// them. In each of these cases nothing was taken.
    pub fn take(&mut self, alloc: Global, from: &mut Linker, most: usize, left: &mut usize) -> u32
        ensures { IsTake most self.old from.old left.old result left.new self.new from.new }
    {
        let Some(begun) = &mut self.begun else {
            return CLOSED;
        };
        let Some(opened) = from.opened() else {
            return CLOSED;
        };
        match begun.take(alloc, opened.core(), most) {
            Ok(()) => {
                *left = count_left(opened.core(), begun.taken());
                DONE
            }
            Err(status) => {
                *left = count_left(opened.core(), begun.taken());
                status
            }
        }
    }

    /// Makes the fresh linker of what there was at the begin, its links with it, if that isn't made yet. Carries the events over that were
    /// taken since, under their new numbers. The linker may be asked anything meanwhile. The status tells whether the renewal hasn't
    /// begun, more sites stay or are requested than may be, an event names what was released, or there was no memory. What was carried
    /// over stays so.
    pub fn fill(&mut self, alloc: Global, told: &mut Told) -> u32
        ensures { IsFill self.old result told.new self.new }
    {
        let Some(begun) = &mut self.begun else {
            return unasked(CLOSED, told);
        };
        begun.let_past_go(alloc);
        begun.fill(alloc, told)
    }

    /// Takes what is left and carries it over. Opens the linker `fresh`, which isn't open, over what was made, and writes the new numbers
    /// to the fronts of the arrays, as [`Linker::renew`] does. The renewal has ended then. The status tells whether it hasn't begun,
    /// the linker isn't open, `fresh` is open, or an array is too short; else it tells what [`take`](Renewal::take) and
    /// [`fill`](Renewal::fill) tell. In each of these cases `fresh` and the arrays are as before, and the renewal goes on.
    pub fn finish(
        &mut self,
        alloc: Global,
        from: &mut Linker,
        fresh: &mut Linker,
        told: &mut Told,
        loaders: &mut [u32],
        classes: &mut [u32],
        sites: &mut [u32],
        call_sites: &mut [u32],
        switches: &mut [u32],
    ) -> u32
        ensures { IsFinish self.old from.old fresh.old (arrays_of loaders.old classes.old sites.old call_sites.old switches.old)
            result told.new self.new from.new fresh.new (arrays_of loaders.new classes.new sites.new call_sites.new switches.new) }
    {
        let Some(begun) = &mut self.begun else {
            return unasked(CLOSED, told);
        };
        let Some(opened) = from.opened() else {
            return unasked(CLOSED, told);
        };
        if fresh.is_open() {
            return unasked(OPEN_ALREADY, told);
        }
        if !opened
            .counts()
            .fit(loaders, classes, sites, call_sites, switches)
        {
            return unasked(TOO_SHORT, told);
        }
        let status = begun.fill_all(alloc, opened.core(), told);
        if status != DONE {
            return status;
        }
        hand_over(
            &mut self.begun,
            &mut self.ended,
            alloc,
            fresh,
            loaders,
            classes,
            sites,
            call_sites,
            switches,
        )
    }

    /// Lets go what was made. The renewal hasn't begun then.
    pub fn leave(&mut self)
        ensures { self.new ≡ None }
    {
        self.begun = None;
        self.ended = None;
    }
}

/// How many events of the core there are after the first so many.
fn count_left(core: &Core, taken: u64) -> usize
    ensures { result ≡ length core.now.log - taken }
{
    core.log().len().saturating_sub(taken) as usize
}

/// Opens the linker over the fresh core, if it is there, and writes the numbers, if the arrays have a place for each. The renewal has ended
/// then.
fn hand_over(
    renewal: &mut Option<Begun>,
    ended: &mut Option<Begun>,
    alloc: Global,
    linker: &mut Linker,
    loaders: &mut [u32],
    classes: &mut [u32],
    sites: &mut [u32],
    call_sites: &mut [u32],
    switches: &mut [u32],
) -> u32
    ensures { IsHandedOver renewal.old linker.old (arrays_of loaders.old classes.old sites.old call_sites.old switches.old) result
        renewal.new linker.new (arrays_of loaders.new classes.new sites.new call_sites.new switches.new) }
{
    let Some(fresh) = fresh_of(renewal) else {
        return MALFORMED;
    };
    let numbers = fresh.numbers();
    if !have_places(numbers, loaders, classes, sites, call_sites, switches) {
        return TOO_SHORT;
    }
    write_numbers(numbers, loaders, classes, sites, call_sites, switches);
    let Some(fresh) = take_fresh(renewal, ended) else {
        return MALFORMED;
    };
    linker.open_over(fresh.into_opened(alloc));
    DONE
}

/// The fresh core, if it is there.
fn fresh_of(renewal: &Option<Begun>) -> Option<&Fresh>
    ensures { option_copied result ≡ option_and_then (λ begun. begun.fresh) renewal.now }
{
    renewal.as_ref()?.fresh()
}

/// Takes the fresh core, if it is there. The renewal has ended then, and what is left of it is kept.
fn take_fresh(renewal: &mut Option<Begun>, ended: &mut Option<Begun>) -> Option<Fresh>
    ensures taken { result ≡ option_and_then (λ begun. begun.fresh) renewal.old }
    ensures ended { renewal.new ≡ None }
{
    let mut begun = renewal.take()?;
    let fresh = begun.take_fresh();
    *ended = Some(begun);
    fresh
}
