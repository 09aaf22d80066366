//! Prints of texts.

ghost use Rattle.std.specs.Prelude.{◌≡◌};
ghost use Rattle.jl_names.specs.ForProofs.Prints.{print_step, last_word, print_from};

use byteorder::{BigEndian, ByteOrder};

/// What each word of a text multiplies a print by: an odd number near 2^64 over the golden ratio.
const MULTIPLIER: u64 = 0x9e37_79b9_7f4a_7c15;

/// What a word makes of a print.
fn print_step(print: u64, word: u64) -> u64
    ensures { result ≡ print_step print word }
{
    let product = (print ^ word).wrapping_mul(MULTIPLIER);
    product ^ (product >> 32)
}

/// The word of fewer than eight bytes.
fn last_word(bytes: &[u8]) -> u64
    ensures { result ≡ last_word bytes.now }
{
    let mut word: u64 = 0;
    for byte in bytes {
        word = (word << 8) ^ u64::from(*byte);
    }
    word
}

/// The print that a text makes of the print of what comes before it, or of 0.
///
/// Of one print, equal texts make equal prints, and other texts seldom do. So texts of different prints are known to differ by
/// their prints alone. It takes eight bytes at a time.
#[tactic(auto, unfolding(crate::specs::ForProofs::Prints::print_from))]
pub fn print_from(before: u64, text: &[u8]) -> u64
    ensures { result ≡ print_from before text.now }
{
    let mut print = before;
    let mut rest = text;
    while rest.len() >= 8 {
        print = print_step(print, BigEndian::read_u64(rest));
        rest = &rest[8..];
    }
    print_step(print, last_word(rest))
}
