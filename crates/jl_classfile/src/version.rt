//! The version of a class file (JVMS SE 17 §4.1).

ghost use Rattle.std.specs.Prelude.{◌<◌, ◌^◌, ◌≡◌, ◌++◌, List, ℕ, None, IfSome, MatchBool};
ghost use Rattle.jl_classfile.specs.Layouts.{head_text};
ghost use Rattle.jl_classfile.specs.Conditions.{IsVersionUpTo};

use jl_pool::{u2_at, u4_at};

/// What a class file begins with.
pub(crate) const MAGIC: u32 = 0xcafe_babe;

/// The newest major version of SE 17 (JVMS SE 17 §4.1).
pub const NEWEST_OF_17: u16 = 61;

/// The newest major version of SE 25 (September 2025), the latest edition that is known here (JVMS SE 25 §4.1). What is read of a class file
/// is the same in the editions from SE 17 to it.
pub const NEWEST_KNOWN: u16 = 69;

/// A version.
#[derive(Debug, Clone, Copy, PartialEq, Eq)]
pub struct Version {
    pub major: u16,
    pub minor: u16,
}

/// The version of bytes that begin as a class file does, whether it is read or not; none, if they don't begin so.
pub fn version_of(bytes: &[u8]) -> Option<Version>
    ensures some { IfSome result (λ v. (rest : List ℕ) × (bytes.now ≡ head_text v.minor v.major ++ rest)) }
    ensures none { result ≡ None → (minor major : ℕ) (rest : List ℕ) → minor < 2 ^ 16 → major < 2 ^ 16 → ¬ (bytes.now ≡ head_text minor major ++ rest) }
{
    let (magic, after) = u4_at(bytes)?;
    if magic != MAGIC {
        return None;
    }
    let (minor, after) = u2_at(after)?;
    let (major, _) = u2_at(after)?;
    Some(Version { major, minor })
}

/// Whether a version is read: up to the newest one, and from 56 on without a minor.
pub(crate) fn is_version(newest: u16, minor: u16, major: u16) -> bool
    ensures { MatchBool result (IsVersionUpTo newest minor major) (¬ IsVersionUpTo newest minor major) }
{
    major >= 45 && major <= newest && (major < 56 || minor == 0)
}
