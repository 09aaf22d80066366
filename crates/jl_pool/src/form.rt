//! What a text of the pool may stand for.

ghost use Rattle.std.specs.Prelude.{◌≡◌, ◌+◌, ◌*◌, ◌≤◌, ◌&&◌, ◌||◌, length, take, drop};
ghost use Rattle.jl_names.specs.ClassNames.{is_class_name, is_unqualified};
ghost use Rattle.jl_pool.specs.ForProofs.Forms.{form_of, is_field};
ghost use Rattle.jl_pool.specs.ForProofs.Marks.{marks_of, either};

use jl_names::{FieldType, is_class_name, method_slots};
use std::simd::prelude::*;

/// What a text may stand for. Each text of a pool is gone over for this only once, however many entries name it.
#[derive(Clone, Copy, Debug, PartialEq, Eq)]
pub struct Form {
    /// A class name (JVMS SE 17 §4.2.1).
    pub class_name: bool,
    /// An unqualified name (§4.2.2).
    pub unqualified: bool,
    /// An unqualified name without `<` and `>`.
    pub plain: bool,
    /// A field descriptor (§4.3.2).
    pub field: bool,
    /// The slots of its parameters, if it is a method descriptor (§4.3.3).
    pub slots: Option<u8>,
}

impl Form {
    /// What a text of these marks may stand for.
    pub(crate) fn of(marks: Marks, text: &[u8]) -> Form
        requires { marks ≡ marks_of text.now }
        ensures { result ≡ form_of text.now }
    {
        let unqualified = is_unqualified_by(marks, text);
        Form {
            class_name: unqualified | is_qualified_by(marks, text),
            unqualified,
            plain: unqualified & !marks.angle,
            field: is_field_by(marks, text),
            slots: method_slots(text),
        }
    }
}

/// Which bytes that matter to a name stand in a text, and whether it has a byte that is no unit by itself.
#[derive(Clone, Copy)]
pub(crate) struct Marks {
    /// One of `.`, `;` and `[`, which stand in no class name.
    barred: bool,
    slash: bool,
    /// `<` or `>`.
    angle: bool,
    /// A byte that is no unit of modified UTF-8 by itself (§4.4.7): 0, or 128 and more.
    pub(crate) odd: bool,
}

impl Marks {
    /// The marks of either of two texts.
    fn or(self, other: Marks) -> Marks
        ensures { result ≡ either self other }
    {
        Marks {
            barred: self.barred | other.barred,
            slash: self.slash | other.slash,
            angle: self.angle | other.angle,
            odd: self.odd | other.odd,
        }
    }
}

/// The marks of a text. Sixteen, eight, four or two bytes are looked at together, and the last ones overlap those before, so that
/// no text is gone over byte by byte.
pub(crate) fn marks_of(text: &[u8]) -> Marks
    ensures { result ≡ marks_of text.now }
{
    match text.len() {
        0 => Marks {
            barred: false,
            slash: false,
            angle: false,
            odd: false,
        },
        1 => marks_in::<1>(text, 0),
        2..=3 => marks_of_ends::<2>(text),
        4..=7 => marks_of_ends::<4>(text),
        8..=15 => marks_of_ends::<8>(text),
        _ => marks_of_long(text),
    }
}

/// The marks of a text of N bytes to twice as many.
#[inline(always)]
fn marks_of_ends<const N: usize>(text: &[u8]) -> Marks
    requires low { N ≤ length text.now }
    requires high { length text.now ≤ 2 * N }
    requires few { N ≤ 64 }
    ensures { result ≡ marks_of text.now }
{
    marks_in::<N>(text, 0).or(marks_in::<N>(text, text.len() - N))
}

/// The marks of a text of 16 bytes and more.
fn marks_of_long(text: &[u8]) -> Marks
    requires { 16 ≤ length text.now }
    ensures { result ≡ marks_of text.now }
{
    let mut seen = marks_in::<16>(text, 0);
    let mut at = 16;
    while text.len() - at > 16 {
        seen = seen.or(marks_in::<16>(text, at));
        at += 16;
    }
    seen.or(marks_in::<16>(text, text.len() - 16))
}

/// The marks of so many bytes from here on.
#[inline(always)]
fn marks_in<const N: usize>(text: &[u8], at: usize) -> Marks
    requires within { at + N ≤ length text.now }
    requires few { N ≤ 64 }
    ensures { result ≡ marks_of (take N (drop at text.now)) }
{
    let bytes = Simd::<u8, N>::from_slice(&text[at..]);
    let barred = bytes.simd_eq(Simd::splat(b'.'))
        | (bytes.simd_eq(Simd::splat(b';')) | bytes.simd_eq(Simd::splat(b'[')));
    let slash = bytes.simd_eq(Simd::splat(b'/'));
    let angle = bytes.simd_eq(Simd::splat(b'<')) | bytes.simd_eq(Simd::splat(b'>'));
    let odd = bytes.simd_eq(Simd::splat(0)) | bytes.simd_ge(Simd::splat(0x80));
    Marks {
        barred: barred.to_bitmask() != 0,
        slash: slash.to_bitmask() != 0,
        angle: angle.to_bitmask() != 0,
        odd: odd.to_bitmask() != 0,
    }
}

/// Whether a text of these marks is an unqualified name.
fn is_unqualified_by(marks: Marks, text: &[u8]) -> bool
    requires { marks ≡ marks_of text.now }
    ensures { result ≡ is_unqualified text.now }
{
    !(text.is_empty() | (marks.barred | marks.slash))
}

/// Whether a text of these marks is a class name of several parts.
fn is_qualified_by(marks: Marks, text: &[u8]) -> bool
    requires { marks ≡ marks_of text.now }
    ensures { (is_unqualified text.now || result) ≡ is_class_name text.now }
{
    if marks.barred {
        return false;
    }
    if marks.slash {
        return is_class_name(text);
    }
    false
}

/// Whether a text of these marks is a field's descriptor: one byte, or one with a semicolon or a bracket.
fn is_field_by(marks: Marks, text: &[u8]) -> bool
    requires { marks ≡ marks_of text.now }
    ensures { result ≡ is_field text.now }
{
    if marks.barred | (text.len() == 1) {
        return FieldType::parse(text).is_ok();
    }
    false
}
