//! Numbers and texts at the front of bytes, and what comes after them. None if the bytes end before.

ghost use Rattle.std.specs.Prelude.{◌≡◌, ◌<◌, ◌^◌, length, Option, IfSome};
ghost use Rattle.jl_pool.specs.ForProofs.Fields.{Finds, number_at, bytes_at, text_at, pair_at, handle_at};

use byteorder::{BigEndian, ByteOrder};

/// The number of two bytes, most significant first, and what comes after it.
pub fn u2_at(bytes: &[u8]) -> Option<(u16, &[u8])>
    ensures { Finds (λ x. (x.0, x.1.now)) result (number_at 2 bytes.now) }
{
    if bytes.len() < 2 {
        return None;
    }
    Some((BigEndian::read_u16(bytes), &bytes[2..]))
}

/// The number of four bytes, most significant first, and what comes after it.
pub fn u4_at(bytes: &[u8]) -> Option<(u32, &[u8])>
    ensures { Finds (λ x. (x.0, x.1.now)) result (number_at 4 bytes.now) }
{
    if bytes.len() < 4 {
        return None;
    }
    Some((BigEndian::read_u32(bytes), &bytes[4..]))
}

/// The number of eight bytes, most significant first, and what comes after it.
pub(crate) fn u8_at(bytes: &[u8]) -> Option<(u64, &[u8])>
    ensures { Finds (λ x. (x.0, x.1.now)) result (number_at 8 bytes.now) }
{
    if bytes.len() < 8 {
        return None;
    }
    Some((BigEndian::read_u64(bytes), &bytes[8..]))
}

/// Two numbers.
#[tactic(auto, unfolding(crate::specs::ForProofs::Fields::pair_at))]
pub(crate) fn pair_at(bytes: &[u8]) -> Option<((u16, u16), &[u8])>
    ensures { Finds (λ x. (x.0, x.1.now)) result (pair_at bytes.now) }
{
    let (first, rest) = u2_at(bytes)?;
    let (second, rest) = u2_at(rest)?;
    Some(((first, second), rest))
}

/// A kind of one byte, and a number.
#[tactic(auto, unfolding(crate::specs::ForProofs::Fields::handle_at))]
pub(crate) fn handle_at(bytes: &[u8]) -> Option<((u8, u16), &[u8])>
    ensures { Finds (λ x. (x.0, x.1.now)) result (handle_at bytes.now) }
{
    match bytes {
        [kind, rest @ ..] => {
            let (reference, rest) = u2_at(rest)?;
            Some(((*kind, reference), rest))
        }
        [] => None,
    }
}

/// Bytes after their count.
#[tactic(auto, unfolding(crate::specs::ForProofs::Fields::text_at))]
pub(crate) fn text_at(bytes: &[u8]) -> Option<(&[u8], &[u8])>
    ensures found { Finds (λ x. (x.0.now, x.1.now)) result (text_at bytes.now) }
    ensures short { IfSome result (λ x. length x.0.now < 2 ^ 16) }
{
    let (len, rest) = u2_at(bytes)?;
    let len = len as usize;
    if rest.len() < len {
        return None;
    }
    Some(rest.split_at(len))
}

/// The first `count` bytes, and what comes after them. None if there are fewer.
pub fn bytes_at(count: usize, bytes: &[u8]) -> Option<(&[u8], &[u8])>
    ensures { Finds (λ x. (x.0.now, x.1.now)) result (bytes_at count bytes.now) }
{
    if bytes.len() < count {
        return None;
    }
    Some(bytes.split_at(count))
}
