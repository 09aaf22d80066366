//! Descriptors.

use crate::descriptors::DescriptorRow::*;
use crate::rows::{Row, assert_rows};
use jl_names::{
    Element, FieldType, MethodType, NameFault, first_repeat, method_slots,
    no_fault_in_field_descriptors, no_fault_in_method_descriptors, one_field_type, one_method_type,
};
use std::alloc::{AllocError, Global};

/// What is so of a text.
enum DescriptorRow {
    /// It is no field descriptor from this place on.
    BadField(&'static [u8], usize),
    /// It is an array of so many dimensions of this class.
    Array(&'static [u8], u8, &'static [u8]),
    /// An array of ints, made with so many dimensions, has so many, or this fault.
    Dimensions(usize, Result<u8, NameFault>),
    /// It is a method descriptor of so many slots, or has this fault.
    Method(&'static [u8], Result<u8, NameFault>),
    /// A method descriptor with this letter's parameter so many times has so many slots, or this fault.
    Parameters(u8, usize, Result<u8, NameFault>),
    /// Of these texts, under their numbers, this is the first pair that repeats an earlier one.
    Repeat(&'static [Option<&'static [u8]>], &'static [(u16, u16)], Option<usize>),
}

/// Whether the text is an array of so many dimensions of the class.
fn is_array_of(text: &[u8], dimensions: u8, class: &[u8]) -> bool {
    match FieldType::parse(text) {
        Ok(ty) => {
            ty.dimensions == dimensions
                && matches!(ty.element, Element::Class(name) if name.as_bytes() == class)
        }
        Err(_) => false,
    }
}

/// The dimensions that an array of ints has, made with so many.
fn dimensions(alloc: Global, count: usize) -> Result<u8, NameFault> {
    let mut text = vec![in alloc; b'['; count]?;
    text.push(b'I')?;
    Ok(FieldType::parse(&text)?.dimensions)
}

/// A method descriptor with this many parameters of one letter.
fn with_parameters(alloc: Global, letter: u8, count: usize) -> Result<Vec<u8>, AllocError> {
    let letters = vec![in alloc; letter; count]?;
    [b"(".as_slice(), letters.as_slice(), b")V"].concat(alloc)
}

/// The slots of the method descriptor.
fn slots_of(alloc: Global, text: &[u8]) -> Result<u8, NameFault> {
    Ok(MethodType::parse(alloc, text)?.slots())
}

/// Whether the text is a method descriptor of so many slots, or has this fault.
fn has_slots(alloc: Global, text: &[u8], expected: Result<u8, NameFault>) -> bool {
    slots_of(alloc, text) == expected && method_slots(text) == expected.ok()
}

impl Row for DescriptorRow {
    fn is_so(&self, alloc: Global) -> bool {
        match self {
            BadField(text, at) => {
                FieldType::parse(text).err() == Some(NameFault::BadDescriptor(*at))
            }
            Array(text, dimensions, class) => is_array_of(text, *dimensions, class),
            Dimensions(count, expected) => dimensions(alloc, *count) == *expected,
            Method(text, expected) => has_slots(alloc, text, *expected),
            Parameters(letter, count, expected) => {
                match with_parameters(alloc, *letter, *count) {
                    Ok(text) => has_slots(alloc, &text, *expected),
                    Err(_) => false,
                }
            }
            Repeat(texts, pairs, expected) => match first_repeat(alloc, texts, pairs) {
                Ok(found) => found == *expected,
                Err(_) => false,
            },
        }
    }
}

/// Field descriptors.
const FIELDS: &[DescriptorRow] = &[
    BadField(b"L;", 1),
    BadField(b"La//b;", 3),
    BadField(b"La.b;", 2),
    BadField(b"[V", 1),
    BadField(b"", 0),
    BadField(b"II", 1),
    Array(b"[[Ljava/lang/String;", 2, b"java/lang/String"),
    Dimensions(255, Ok(255)),
    Dimensions(256, Err(NameFault::BadDescriptor(255))),
];

/// Method descriptors.
const METHODS: &[DescriptorRow] = &[
    Method(b"()", Err(NameFault::BadDescriptor(2))),
    Method(b"(V)V", Err(NameFault::BadDescriptor(1))),
    Method(b"()Vx", Err(NameFault::BadDescriptor(3))),
    Method(b"I", Err(NameFault::BadDescriptor(0))),
    Method(b"", Err(NameFault::BadDescriptor(0))),
    Method(b"(IJ[Ljava/lang/String", Err(NameFault::BadDescriptor(21))),
    Method(b"(IJ[Ljava/lang/String;)V", Ok(4)),
    Parameters(b'I', 255, Ok(255)),
    Parameters(b'J', 127, Ok(254)),
    Parameters(b'I', 0, Ok(0)),
    Parameters(b'I', 256, Err(NameFault::TooManySlots)),
    Parameters(b'J', 128, Err(NameFault::TooManySlots)),
];

/// Texts under their numbers.
const NUMBERED: &[Option<&[u8]>] = &[None, Some(b"a"), Some(b"()V"), Some(b"()I"), Some(b"a")];

/// Pairs of texts by their numbers.
const PAIRS: &[DescriptorRow] = &[
    Repeat(NUMBERED, &[], None),
    Repeat(NUMBERED, &[(1, 2), (1, 3), (2, 1)], None),
    Repeat(NUMBERED, &[(1, 2), (4, 2)], Some(1)),
    Repeat(NUMBERED, &[(1, 2), (1, 3), (4, 2)], Some(2)),
    Repeat(NUMBERED, &[(1, 2), (3, 3), (1, 2), (3, 3), (4, 2)], Some(2)),
    Repeat(NUMBERED, &[(0, 2), (0, 2), (2, 0), (2, 0)], None),
    Repeat(NUMBERED, &[(1, 5), (1, 5), (65_535, 2), (65_535, 2)], None),
    Repeat(&[], &[(0, 0), (0, 0)], None),
];

#[test]
fn descriptors(rt: HostRuntime) {
    assert_rows(&rt, "FIELDS", FIELDS);
    assert_rows(&rt, "METHODS", METHODS);
    assert_rows(&rt, "PAIRS", PAIRS);
    one_field_type();
    no_fault_in_field_descriptors();
    one_method_type();
    no_fault_in_method_descriptors();
}
