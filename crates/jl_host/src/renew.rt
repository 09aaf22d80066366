//! How many there are of each in a linker, and the numbers that what stays has in a fresh one.

ghost use Rattle.std.specs.Prelude.{◌≡◌, ◌<◌, ◌≤◌, ◌^◌, nat_le, true, length, IfOk};
ghost use Rattle.jl_core.specs.State.{world_of};
ghost use Rattle.jl_host.specs.Renewals as renewals;
ghost use Rattle.jl_host.specs.Renewals.{counts_of, present_of, no_counts, arrays_of, at_front, with_numbers};

use crate::arrays::{call_sites_from, switches_from};
use jl_core::Core;
use jl_names::Seq;
use jl_renewal::{Released, Renumbering, counts_present};
use std::alloc::{AllocError, Global};

/// The new number of what a renewal doesn't take over.
pub const GONE: u32 = 0xffff_ffff;

/// How many there ever were of each, retired and released ones among them; or how many of them are present.
#[repr(C)]
#[derive(Clone, Copy, Debug, PartialEq, Eq)]
pub struct Counts {
    pub loaders: u32,
    pub classes: u32,
    pub sites: u32,
    pub call_sites: u32,
    pub switches: u32,
}

impl Counts {
    /// None of each.
    pub(crate) fn none() -> Counts
        ensures { result ≡ no_counts }
    {
        Counts {
            loaders: 0,
            classes: 0,
            sites: 0,
            call_sites: 0,
            switches: 0,
        }
    }

    /// How many the core has, in which so few places may be requested.
    pub(crate) fn of(core: &Core) -> Counts
        requires { core.now.limits.sites < 2 ^ 32 }
        ensures { result ≡ counts_of (world_of core.now) }
    {
        let world = core.world();
        Counts {
            loaders: world.classes.loader_count() as u32,
            classes: world.classes.count_in_order() as u32,
            sites: world.site_count() as u32,
            call_sites: world.sites.few_call_sites() as u32,
            switches: world.sites.few_switches() as u32,
        }
    }

    /// How many of the core's are present.
    pub(crate) fn present(alloc: Global, core: &Core) -> Result<Counts, AllocError>
        ensures { IfOk result (λ counts. counts ≡ present_of (world_of core.now)) }
    {
        let present = counts_present(alloc, core.world())?;
        Ok(Counts {
            loaders: present.loaders,
            classes: present.classes,
            sites: present.sites,
            call_sites: present.call_sites,
            switches: present.switches,
        })
    }

    /// Whether arrays of these lengths have a place for each.
    pub(crate) fn fit(
        &self,
        loaders: &[u32],
        classes: &[u32],
        sites: &[u32],
        call_sites: &[u32],
        switches: &[u32],
    ) -> bool
        ensures { result ≡ renewals.have_room self.now (arrays_of loaders.now classes.now sites.now call_sites.now switches.now) }
    {
        has_places(loaders, self.loaders)
            && has_places(classes, self.classes)
            && has_places(sites, self.sites)
            && has_places(call_sites, self.call_sites)
            && has_places(switches, self.switches)
    }
}

/// Whether the array has so many places.
fn has_places(array: &[u32], count: u32) -> bool
    ensures { result ≡ nat_le count (length array.now) }
{
    count as usize <= array.len()
}

/// What the host has let go.
pub(crate) fn released_of(
    alloc: Global,
    call_sites: &[u32],
    switches: &[u32],
) -> Result<Released, AllocError>
    ensures { IfOk result (λ released. released ≡ renewals.released_of call_sites.now switches.now) }
{
    let call_sites = Seq::of(call_sites_from(alloc, call_sites)?);
    let switches = Seq::of(switches_from(alloc, switches)?);
    Ok(Released {
        call_sites,
        switches,
    })
}

/// The new number, or `GONE`.
fn number_shown(number: Option<u32>) -> u32
    ensures { result ≡ renewals.number_shown number }
{
    match number {
        Some(number) => number,
        None => GONE,
    }
}

/// Whether the array has a place for each number.
fn has_place(numbers: &[Option<u32>], array: &[u32]) -> bool
    ensures { result ≡ nat_le (length numbers.now) (length array.now) }
{
    numbers.len() <= array.len()
}

/// Whether arrays of these lengths have a place for each number.
pub(crate) fn have_places(
    numbers: &Renumbering,
    loaders: &[u32],
    classes: &[u32],
    sites: &[u32],
    call_sites: &[u32],
    switches: &[u32],
) -> bool
    ensures { result ≡ renewals.have_room (renewals.counts_in numbers.now) (arrays_of loaders.now classes.now sites.now call_sites.now switches.now) }
{
    has_place(numbers.loaders(), loaders)
        && has_place(numbers.classes(), classes)
        && has_place(numbers.sites(), sites)
        && has_place(numbers.call_sites(), call_sites)
        && has_place(numbers.switches(), switches)
}

/// Writes the new numbers to the front of the array, which has room for them.
fn write_kind(numbers: &[Option<u32>], out: &mut [u32])
    requires { length numbers.now ≤ length out.old }
    ensures { out.new ≡ at_front numbers.now out.old }
{
    for (place, number) in numbers.iter().enumerate() {
        out[place] = number_shown(*number);
    }
}

/// Writes the new numbers to the fronts of the arrays, which have room for them.
pub(crate) fn write_numbers(
    numbers: &Renumbering,
    loaders: &mut [u32],
    classes: &mut [u32],
    sites: &mut [u32],
    call_sites: &mut [u32],
    switches: &mut [u32],
)
    requires { renewals.have_room (renewals.counts_in numbers.now) (arrays_of loaders.old classes.old sites.old call_sites.old switches.old) ≡ true }
    ensures { arrays_of loaders.new classes.new sites.new call_sites.new switches.new
        ≡ with_numbers numbers.now (arrays_of loaders.old classes.old sites.old call_sites.old switches.old) }
{
    write_kind(numbers.loaders(), loaders);
    write_kind(numbers.classes(), classes);
    write_kind(numbers.sites(), sites);
    write_kind(numbers.call_sites(), call_sites);
    write_kind(numbers.switches(), switches);
}
