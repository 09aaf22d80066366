//! How large a target may be.

ghost use Rattle.std.specs.Prelude.{◌≡◌, ◌<◌, ◌≤◌, ◌+◌, ◌||◌, nat_lt, None, IfSome};
ghost use Rattle.jl_types.specs.Values.Target.{depth};
ghost use Rattle.jl_types.specs.Linkage.Targets.{parts as parts_of};

use jl_types::{Part, Target};

/// How deep a target may be: 64 parts below one another.
const MOST_LEVELS: usize = 64;

/// How many parts a target may have.
const MOST_PARTS: usize = 255;

/// Whether the target is deeper than 64, or has more than 255 parts. However large it is, no more than 255 parts of it are
/// looked at, and none below the 64th level.
pub(crate) fn is_too_large(target: &Target) -> bool
    ensures { result ≡ (nat_lt 64 (depth target.now) || nat_lt 255 (parts_of target.now)) }
{
    parts_left(target, MOST_LEVELS, MOST_PARTS).is_none()
}

/// How many of so many parts are left beside the target's, if it has no more of them and no more than so many levels.
fn parts_left(target: &Target, levels: usize, parts: usize) -> Option<usize>
    ensures fits { IfSome result (λ left. (depth target.now ≤ levels) × (left + parts_of target.now ≡ parts)) }
    ensures larger { result ≡ None → depth target.now ≤ levels → parts < parts_of target.now }
{
    let levels = levels.checked_sub(1)?;
    let parts = parts.checked_sub(1)?;
    match &target.part {
        Part::Method(_) => Some(parts),
        Part::Guard(_, first, fallback) => {
            let parts = parts_left(first, levels, parts)?;
            parts_left(fallback, levels, parts)
        }
        Part::Invoker(_) => Some(parts),
    }
}
