//! Times renewals of a core with the classes of the input, its places and their links. Nothing was let go, and all stays. Prints what each
//! fresh core has.

use crate::fill::fill;
use crate::input::Input;
use crate::link::{sites_from, time_installs};
use crate::told::tell;
use jl_core::Core;
use jl_names::Seq;
use jl_renewal::{Released, renew};
use std::io::{self, ErrorKind};
use std::time::Instant;

/// How many renewals are timed.
const ROUNDS: u32 = 3;

/// Prints how many classes, links and events the core has.
fn tell_core(rt: &HostRuntime, core: &Core) -> io::Result<()> {
    let classes = core.class_count();
    let links = core.links().len();
    let events = core.log().len();
    println!(rt; "classes {classes}, links {links}, events {events}")
}

/// Times a renewal. The fresh core is let go. A refusal is an error.
fn time_renewal(rt: &HostRuntime, core: &Core, released: &Released) -> io::Result<()> {
    let start = Instant::now(rt)?;
    match &renew(rt.alloc(), core, released, core.limits()) {
        Ok((fresh, _numbers)) => {
            tell(rt, "events renewed", core.log().len(), &start)?;
            tell_core(rt, fresh)
        }
        Err(_) => Err(ErrorKind::OutOfMemory.into()),
    }
}

/// Measures all of it.
pub(crate) fn measure(rt: &HostRuntime, input: &Input) -> io::Result<()> {
    let mut core = Core::new(rt.alloc(), input.max_sites())?;
    let count = fill(rt, &mut core, input)?;
    let sites = sites_from(rt.alloc(), count)?;
    time_installs(rt, &mut core, sites.as_slice())?;
    let released = Released {
        call_sites: Seq::of(Vec::new(rt.alloc())),
        switches: Seq::of(Vec::new(rt.alloc())),
    };
    for _ in 0..ROUNDS {
        time_renewal(rt, &core, &released)?;
    }
    Ok(())
}
