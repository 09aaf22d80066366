//! Field descriptors (JVMS SE 17 §4.3.2).

ghost use Rattle.std.specs.Prelude.{◌≡◌, ◌≤◌, IfOk, IfErr, List, ℕ, length, true};
ghost use Rattle.jl_names.specs.declared.descriptor.FieldType.{FieldType};
ghost use Rattle.jl_names.specs.declared.fault.NameFault.{NameFault};
ghost use Rattle.jl_names.specs.Descriptors.{field_text, IsFieldType, IsFieldDescriptor};
ghost use Rattle.jl_names.specs.Descriptors.{IsFieldFault};
ghost use Rattle.jl_names.specs.ForProofs.Descriptors.{Stops, is_end, class_at};
ghost use Rattle.jl_names.specs.ForProofs.Descriptors.{element_at, brackets, field_at};

use crate::class_name::is_stop;
use crate::fault::NameFault;
use crate::text::Text;

/// A type that is no array: one of the base types, or a class or an interface.
#[derive(Debug, Drop)]
pub enum Element<'a> {
    /// `B`
    Byte,
    /// `C`
    Char,
    /// `D`
    Double,
    /// `F`
    Float,
    /// `I`
    Int,
    /// `J`
    Long,
    /// `S`
    Short,
    /// `Z`
    Boolean,
    /// `L`, the name in internal form, and `;`
    Class(Text<'a>),
}

/// The type of a field, of a parameter or of a result.
#[derive(Debug, Drop)]
pub struct FieldType<'a> {
    /// How many dimensions of an array, 0 for a type that is none.
    pub dimensions: u8,
    /// What the array holds at last, or the type itself.
    pub element: Element<'a>,
}

impl<'a> FieldType<'a> {
    /// The type that the field descriptor gives. Takes no memory.
    ///
    /// An array has 255 dimensions at most. The only error is `BadDescriptor`, of the first byte at
    /// which the text can't go on, or of the text's length if it ends too early.
    pub fn parse(text: &'a [u8]) -> Result<FieldType<'a>, NameFault>
        ensures ok { IfOk result (λ ty. IsFieldType ty × (text.now ≡ field_text ty)) }
        ensures fault { IfErr result (IsFieldFault text.now) }
    {
        match field_at(text) {
            Ok((ty, rest)) => {
                if rest.is_empty() {
                    Ok(ty)
                } else {
                    Err(NameFault::BadDescriptor(text.len() - rest.len()))
                }
            }
            Err(rest) => Err(NameFault::BadDescriptor(text.len() - rest.len())),
        }
    }
}

// ---- read at the front

/// Whether a class name ends before this byte.
fn is_end(fresh: bool, byte: u8) -> bool
    ensures { result ≡ is_end fresh byte }
{
    byte == b';' && !fresh
}

/// The name of a class up to its semicolon, and what comes after that; else the place at which it can't go on.
fn class_at(text: &[u8]) -> Result<(&[u8], &[u8]), &[u8]>
    ensures { Stops (λ x. (x.0.now, x.1.now)) result (class_at true text.now) }
{
    let mut fresh = true;
    for (i, byte) in text.iter().enumerate() {
        let byte = *byte;
        if is_stop(fresh, byte) {
            return if is_end(fresh, byte) {
                Ok((&text[..i], &text[i + 1..]))
            } else {
                Err(&text[i..])
            };
        }
        fresh = byte == b'/';
    }
    Err(&text[text.len()..])
}

/// A type that is no array at the front, and what comes after it.
#[tactic(auto, unfolding(crate::specs::ForProofs::Descriptors::element_at))]
fn element_at(text: &[u8]) -> Result<(Element<'_>, &[u8]), &[u8]>
    ensures { Stops (λ x. (x.0, x.1.now)) result (element_at text.now) }
{
    match text {
        [b'B', rest @ ..] => Ok((Element::Byte, rest)),
        [b'C', rest @ ..] => Ok((Element::Char, rest)),
        [b'D', rest @ ..] => Ok((Element::Double, rest)),
        [b'F', rest @ ..] => Ok((Element::Float, rest)),
        [b'I', rest @ ..] => Ok((Element::Int, rest)),
        [b'J', rest @ ..] => Ok((Element::Long, rest)),
        [b'S', rest @ ..] => Ok((Element::Short, rest)),
        [b'Z', rest @ ..] => Ok((Element::Boolean, rest)),
        [b'L', rest @ ..] => {
            let (name, rest) = class_at(rest)?;
            Ok((Element::Class(Text::of(name)), rest))
        }
        _ => Err(text),
    }
}

/// How many brackets stand at the front, 255 at most.
#[tactic(auto, using(crate::proofs::DescriptorLaws::brackets_few))]
fn brackets(text: &[u8]) -> usize
    ensures count { result ≡ brackets text.now }
    ensures few { result ≤ 255 }
    ensures within { result ≤ length text.now }
{
    text.iter().take(255).take_while(|b| **b == b'[').count()
}

/// A field's type at the front, and what comes after it.
#[inline(always)]
#[tactic(auto, unfolding(crate::specs::ForProofs::Descriptors::field_at))]
pub(crate) fn field_at(text: &[u8]) -> Result<(FieldType<'_>, &[u8]), &[u8]>
    ensures { Stops (λ x. (x.0, x.1.now)) result (field_at text.now) }
{
    let count = brackets(text);
    let (element, rest) = element_at(&text[count..])?;
    Ok((
        FieldType {
            dimensions: count as u8,
            element,
        },
        rest,
    ))
}

// ---- laws

/// A text is the text of one field type at most.
pub fn one_field_type()
    ensures { (a b : FieldType) → IsFieldType a → IsFieldType b
        → field_text a ≡ field_text b → a ≡ b }
{}

/// A field descriptor has no fault.
pub fn no_fault_in_field_descriptors()
    ensures { (text : List ℕ) (fault : NameFault) → IsFieldDescriptor text
        → ¬ IsFieldFault text fault }
{}
