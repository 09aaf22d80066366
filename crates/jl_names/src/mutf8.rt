//! Modified UTF-8 (JVMS SE 17 §4.4.7).

ghost use Rattle.std.specs.Prelude.{◌≡◌, ◌≢◌, ◌+◌, ◌%◌, ◌≤◌, ◌++◌, List, ℕ};
ghost use Rattle.std.specs.Prelude.{IfOk, IfErr, OnOk, IsOkUnless, MatchBool};
ghost use Rattle.jl_names.specs.declared.fault.NameFault.{NameFault};
ghost use Rattle.jl_names.specs.declared.fault.NameFault.TheVariants.{Memory};
ghost use Rattle.jl_names.specs.Mutf8.{unit_bytes, mutf8, IsMutf8, IsText, IsMutf8Fault};
ghost use Rattle.jl_names.specs.ForProofs.Units.{Gives, unit_at, two_at, three_at};

use crate::fault::NameFault;
use std::alloc::{AllocError, Global};

/// The 16-bit units whose modified UTF-8 the text is.
///
/// # Errors
///
/// `Memory`, or else the first fault from the left:
///
/// - `BadByte`: no unit's bytes begin at the place.
/// - `Truncated`: fewer bytes are left than the first of them asks for.
pub fn decode_mutf8(alloc: Global, text: &[u8]) -> Result<Vec<u16>, NameFault>
    ensures ok { IfOk result (λ units. IsMutf8 text.now units.items) }
    ensures fault { IfErr result (IsMutf8Fault text.now) }
{
    let mut units = Vec::with_capacity(alloc, text.len())?;
    let mut rest = text;
    while !rest.is_empty() {
        match unit_at(rest) {
            Ok((unit, after)) => {
                units.push(unit)?;
                rest = after;
            }
            Err(Broken::Cut) => return Err(NameFault::Truncated),
            Err(Broken::Bad) => return Err(NameFault::BadByte(text.len() - rest.len())),
        }
    }
    Ok(units)
}

/// Whether the text is the modified UTF-8 of some units. Takes no memory.
pub fn is_text(text: &[u8]) -> bool
    ensures { MatchBool result (IsText text.now) (¬ IsText text.now) }
{
    let mut rest = text;
    while !rest.is_empty() {
        match unit_at(rest) {
            Ok((_, after)) => rest = after,
            Err(_) => return false,
        }
    }
    true
}

/// The modified UTF-8 of the units. The only error is `Memory`.
pub fn encode_mutf8(alloc: Global, units: &[u16]) -> Result<Vec<u8>, NameFault>
    ensures ok { IfOk result (λ text. text.items ≡ mutf8 units.now) }
    ensures fault { IsOkUnless result Memory }
{
    let mut text = Vec::new(alloc);
    for unit in units {
        push_unit(&mut text, *unit)?;
    }
    Ok(text)
}

// ---- a unit read

/// Why no unit stands at the front.
#[derive(Clone, Copy)]
enum Broken {
    /// The first byte asks for more bytes than are there.
    Cut,
    /// No unit's bytes begin so.
    Bad,
}

/// The unit at the front, and the bytes after it.
#[tactic(auto, unfolding(crate::specs::ForProofs::Units::unit_at))]
fn unit_at(text: &[u8]) -> Result<(u16, &[u8]), Broken>
    ensures { Gives result (unit_at text.now) }
{
    match text {
        [] => Err(Broken::Cut),
        [first @ 0x01..=0x7f, rest @ ..] => Ok((u16::from(*first), rest)),
        [first @ 0xc0..=0xdf, rest @ ..] => two_at(*first, rest),
        [first @ 0xe0..=0xef, rest @ ..] => three_at(*first, rest),
        [_, ..] => Err(Broken::Bad),
    }
}

/// A unit of two bytes, from its second byte on.
#[tactic(auto, unfolding(crate::specs::ForProofs::Units::two_at))]
fn two_at(first: u8, rest: &[u8]) -> Result<(u16, &[u8]), Broken>
    requires lead { 0xc0 ≤ first }
    requires below { first ≤ 0xdf }
    ensures { Gives result (two_at first rest.now) }
{
    let [second, rest @ ..] = rest else {
        return Err(Broken::Cut);
    };
    let second = *second;
    if second < 0x80 || second > 0xbf {
        return Err(Broken::Bad);
    }
    let unit = u16::from(first - 0xc0) * 64 + u16::from(second - 0x80);
    if unit != 0 && unit < 0x80 {
        return Err(Broken::Bad);
    }
    Ok((unit, rest))
}

/// A unit of three bytes, from its second byte on.
#[tactic(auto, unfolding(crate::specs::ForProofs::Units::three_at))]
fn three_at(first: u8, rest: &[u8]) -> Result<(u16, &[u8]), Broken>
    requires lead { 0xe0 ≤ first }
    requires below { first ≤ 0xef }
    ensures { Gives result (three_at first rest.now) }
{
    let [second, third, rest @ ..] = rest else {
        return Err(Broken::Cut);
    };
    let second = *second;
    let third = *third;
    if second < 0x80 || second > 0xbf || third < 0x80 || third > 0xbf {
        return Err(Broken::Bad);
    }
    let unit = u16::from(first - 0xe0) * 4096
        + u16::from(second - 0x80) * 64
        + u16::from(third - 0x80);
    if unit < 0x800 {
        return Err(Broken::Bad);
    }
    Ok((unit, rest))
}

// ---- a unit written

/// Appends the bytes of one unit.
fn push_unit(text: &mut Vec<u8>, unit: u16) -> Result<(), AllocError>
    ensures { OnOk result (text.new.items ≡ text.old.items ++ unit_bytes unit) }
{
    match unit {
        0x01..=0x7f => text.push(unit as u8)?,
        0..=0x7ff => text.extend_from_slice(&[0xc0 + (unit / 64) as u8, later_byte(unit)])?,
        _ => text.extend_from_slice(&[
            0xe0 + (unit / 4096) as u8,
            later_byte(unit / 64),
            later_byte(unit),
        ])?,
    }
    Ok(())
}

/// A byte after a unit's first one: it has the six lowest bits.
fn later_byte(bits: u16) -> u8
    ensures { result ≡ 0x80 + bits % 64 }
{
    0x80 + (bits % 64) as u8
}

// ---- laws

/// A text is the modified UTF-8 of one list of units at most.
pub fn one_list_of_units()
    ensures { (text us vs : List ℕ) → IsMutf8 text us → IsMutf8 text vs → us ≡ vs }
{}

/// The modified UTF-8 of units has no fault.
pub fn no_fault_in_units()
    ensures { (text units : List ℕ) (fault : NameFault) → IsMutf8 text units → fault ≢ Memory
        → ¬ IsMutf8Fault text fault }
{}
