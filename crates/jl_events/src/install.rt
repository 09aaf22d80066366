//! What an install is refused for.

ghost use Rattle.std.specs.Prelude.{◌≡◌, ◌+◌, ◌^◌, ◌<◌, ◌≤◌};
ghost use Rattle.jl_types.specs.Linkage.Resolution.{first_of};
ghost use Rattle.jl_types.specs.Events.Verdict as events;
ghost use Rattle.jl_events.specs.Judging.{row_faults, most_of_rows};

use jl_relink::{World, is_bad_size, link_counted, sites_fault};
use jl_types::{Link, Refusal, SiteNo, Work};

/// The refusal of an install of these rows, if there is one. It looks up the link of each row. Takes no memory.
pub(crate) fn install_refusal(
    world: &World,
    rows: &[(SiteNo, Link)],
    work: &mut Work,
) -> Option<Refusal>
    requires nothing_yet { work.old ≡ 0 }
    ensures refusal { result ≡ events.install_fault world.now rows.now }
    ensures ticks { work.new ≤ most_of_rows world.now rows.now }
    ensures small { work.new ≤ 2 ^ 28 }
{
    // Shows how few classes there are, which bounds the work.
    let _classes = world.classes.count_in_order();
    if is_bad_size(rows.len()) {
        return Some(Refusal::BatchSize);
    }
    if let Some(fault) = sites_fault(world, rows) {
        return Some(Refusal::from(fault));
    }
    row_refusal(world, rows, work)
}

/// The refusal of the first row that isn't the site's link from scratch.
fn row_refusal(world: &World, rows: &[(SiteNo, Link)], work: &mut Work) -> Option<Refusal>
    requires fits { work.old + most_of_rows world.now rows.now < 2 ^ 64 }
    ensures refusal { result ≡ first_of (row_faults world.now rows.now) }
    ensures ticks { work.new ≤ work.old + most_of_rows world.now rows.now }
{
    for row in rows {
        let site = row.0;
        match link_counted(world, site, work) {
            Err(_) => return Some(Refusal::NotReady { site }),
            Ok(present) => {
                if present != row.1 {
                    return Some(Refusal::Stale { site, present });
                }
            }
        }
    }
    None
}
