//! Flags by number: those of call sites and of switch points.

ghost use Rattle.std.specs.Prelude.{◌≡◌, slice_set};
ghost use Rattle.jl_renewal.specs.Staying.{is_among, invokes, guards_by};
ghost use Rattle.jl_renewal.specs.Marks.{marked, cleared};

use jl_types::{CallSiteId, Part, SwitchId, Target};

/// Takes back the flags of these call sites. A number that has none is passed over.
pub(crate) fn clear_call_sites(flags: &mut [bool], call_sites: &[CallSiteId])
    ensures { flags.new ≡ cleared (is_among call_sites.now) flags.old }
{
    for site in call_sites {
        set_flag(flags, site.number(), false);
    }
}

/// Takes back the flags of these switch points. A number that has none is passed over.
pub(crate) fn clear_switches(flags: &mut [bool], switches: &[SwitchId])
    ensures { flags.new ≡ cleared (is_among switches.now) flags.old }
{
    for point in switches {
        set_flag(flags, point.number(), false);
    }
}

/// Sets the flags of the call sites that the target invokes. It goes as deep as the target, and no call site has one that is deeper
/// than 64.
pub(crate) fn mark_invoked(flags: &mut [bool], target: &Target)
    ensures { flags.new ≡ marked (λ c. invokes c target.now) flags.old }
{
    match &target.part {
        Part::Method(_) => {}
        Part::Guard(_, first, fallback) => {
            mark_invoked(flags, first);
            mark_invoked(flags, fallback);
        }
        Part::Invoker(site) => set_flag(flags, site.number(), true),
    }
}

/// Sets the flags of the switch points by which the target guards. It goes as deep as the target, and no call site has one that is
/// deeper than 64.
pub(crate) fn mark_guards(flags: &mut [bool], target: &Target)
    ensures { flags.new ≡ marked (λ p. guards_by p target.now) flags.old }
{
    match &target.part {
        Part::Method(_) => {}
        Part::Guard(point, first, fallback) => {
            set_flag(flags, point.number(), true);
            mark_guards(flags, first);
            mark_guards(flags, fallback);
        }
        Part::Invoker(_) => {}
    }
}

/// Sets the flag of this number, or takes it back. If it has none, nothing changes.
pub(crate) fn set_flag(flags: &mut [bool], number: u32, flag: bool)
    ensures { flags.new ≡ slice_set flags.old number flag }
{
    let place = number as usize;
    if place < flags.len() {
        flags[place] = flag;
    }
}
