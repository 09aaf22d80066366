//! Which names have one byte a unit.

ghost use Rattle.std.specs.Prelude.{◌≡◌, ◌+◌, ◌≤◌, length, take, drop};
ghost use Rattle.jl_json.specs.ForProofs.NameReading.{is_plain};

use std::simd::prelude::*;

/// Whether each unit of the name has one byte (JVMS SE 17 §4.4.7). Sixteen or eight bytes are looked at together, and the last
/// ones overlap those before, so that few names are gone over byte by byte.
pub(crate) fn is_plain(name: &[u8]) -> bool
    ensures { result ≡ is_plain name.now }
{
    if name.len() < 8 {
        is_short_plain(name)
    } else if name.len() < 16 {
        is_plain_in::<8>(name, 0) & is_plain_in::<8>(name, name.len() - 8)
    } else {
        is_long_plain(name)
    }
}

/// Whether each unit of a name of 16 bytes or more has one byte.
fn is_long_plain(name: &[u8]) -> bool
    requires { 16 ≤ length name.now }
    ensures { result ≡ is_plain name.now }
{
    let mut plain = is_plain_in::<16>(name, 0);
    let mut at = 16;
    while name.len() - at > 16 {
        plain &= is_plain_in::<16>(name, at);
        at += 16;
    }
    plain & is_plain_in::<16>(name, name.len() - 16)
}

/// Whether each of so many bytes from here on is a unit by itself.
#[inline(always)]
fn is_plain_in<const N: usize>(name: &[u8], at: usize) -> bool
    requires within { at + N ≤ length name.now }
    requires few { N ≤ 64 }
    ensures { result ≡ is_plain (take N (drop at name.now)) }
{
    let bytes = Simd::<u8, N>::from_slice(&name[at..]);
    (bytes.simd_eq(Simd::splat(0)) | bytes.simd_ge(Simd::splat(0x80))).to_bitmask() == 0
}

/// Whether each unit of a name of a few bytes has one byte. The bytes are looked at one by one.
fn is_short_plain(name: &[u8]) -> bool
    ensures { result ≡ is_plain name.now }
{
    // One less than a byte wraps at 0.
    let mut most = 0;
    for byte in name {
        most = most.max(byte.wrapping_sub(1));
    }
    most < 0x7f
}
