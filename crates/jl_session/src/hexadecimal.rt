//! Bytes in hexadecimal.

ghost use Rattle.std.specs.Prelude.{◌≡◌, ◌≤◌, ◌*◌, ◌/◌, length, true, false, MatchOption, MatchResult};
ghost use Rattle.hex.specs.Hex.{hex_digit_value, decode_pairs};
ghost use Rattle.jl_session.specs.Scans.{file_of};

/// The value of a digit, in either case, and 16 or more for a byte that is none. By sums alone, so that many digits are read
/// at once.
fn digit(byte: u8) -> u8
    ensures { MatchOption (hex_digit_value byte) (16 ≤ result) (λ value. result ≡ value) }
{
    // What is before the first of its kind wraps at 0, so it is far above the last one.
    let number = byte.wrapping_sub(b'0');
    let letter = byte.wrapping_sub(b'A').min(byte.wrapping_sub(b'a'));
    if number < 10 {
        number
    } else {
        letter.saturating_add(10)
    }
}

/// Writes the byte of each pair of digits, and tells whether all were digits: the written bytes
/// mean nothing if one is none.
fn decode_all(digits: &[u8], bytes: &mut [u8]) -> bool
    requires { length digits.now ≡ 2 * length bytes.old }
    ensures { MatchResult (decode_pairs 0 digits.now)
        (λ file. (result ≡ true) × (bytes.new ≡ file)) (λ _. result ≡ false) }
{
    let mut seen = 0;
    for index in 0..bytes.len() {
        let high = digit(digits[2 * index]);
        let low = digit(digits[2 * index + 1]);
        seen |= high | low;
        bytes[index] = (high << 4) | (low & 15);
    }
    seen < 16
}

/// Whether the line is the hexadecimal of some bytes, which are written then.
pub(crate) fn decode(line: &[u8], bytes: &mut [u8]) -> bool
    requires { length bytes.old ≡ length line.now / 2 }
    ensures { MatchOption (file_of line.now) (result ≡ false)
        (λ file. (result ≡ true) × (bytes.new ≡ file)) }
{
    !line.is_empty() && line.len() % 2 == 0 && decode_all(line, bytes)
}
