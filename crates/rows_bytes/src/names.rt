//! Names and modified UTF-8.

use crate::names::NameRow::*;
use crate::rows::{Row, assert_rows, is_a_f};
use jl_names::{
    Name, NameFault, Seq, Text, decode_mutf8, encode_mutf8, is_class_name, is_text, is_unqualified,
    no_fault_in_units, one_list_of_units, package_of, print_from,
};
use std::alloc::{AllocError, Global};
use std::hash::{DefaultHasher, Hash, Hasher};

/// What is so of bytes.
enum NameRow {
    /// They are no modified UTF-8, and have this fault.
    BadText(&'static [u8], NameFault),
    /// They are what these units are written as.
    Units(&'static [u16], &'static [u8]),
    /// Whether they are a class name, and an unqualified name.
    Named(&'static [u8], bool, bool),
    /// They are a name of this package.
    Package(&'static [u8], &'static [u8]),
    /// A text of them has them.
    Lent(&'static [u8]),
    /// A list of them has their hash, and is equal to another one of them.
    List(&'static [u8]),
    /// A list of them differs from one of those.
    OtherList(&'static [u8], &'static [u8]),
    /// A name of them is kept, and so is its copy.
    Kept(&'static [u8]),
    /// The copy of a name of them has them once the name is let go.
    Outlives(&'static [u8]),
    /// A name of them differs from one of those.
    OtherName(&'static [u8], &'static [u8]),
    /// They are cut from one block: the first byte, the second and the rest.
    Cut,
    /// This is the print that they make of one.
    Print(u64, &'static [u8], u64),
}

/// Whether these are the items that were made.
fn are_made<T: PartialEq + Drop>(made: Result<Vec<T>, NameFault>, items: &[T]) -> bool {
    match made {
        Ok(made) => made.as_slice() == items,
        Err(_) => false,
    }
}

/// The hash of a value.
fn hash_of<T: Hash>(value: &T) -> u64 {
    let mut state = DefaultHasher::new();
    value.hash(&mut state);
    state.finish()
}

/// A list of these bytes.
fn list(alloc: Global, bytes: &[u8]) -> Result<Seq<u8>, AllocError> {
    Ok(Seq::of(bytes.to_vec(alloc)?))
}

/// Whether a list of these bytes has their hash, and is equal to another one of them, which has it, too.
fn is_list(alloc: Global, bytes: &[u8]) -> bool {
    match (list(alloc, bytes), list(alloc, bytes)) {
        (Ok(run), Ok(again)) => {
            hash_of(&run) == hash_of(&bytes) && run == again && hash_of(&again) == hash_of(&run)
        }
        _ => false,
    }
}

/// Whether lists of these bytes and of those differ.
fn lists_differ(alloc: Global, bytes: &[u8], others: &[u8]) -> bool {
    match (list(alloc, bytes), list(alloc, others)) {
        (Ok(run), Ok(other)) => run != other,
        _ => false,
    }
}

/// Whether names of these bytes and of those differ.
fn names_differ(alloc: Global, bytes: &[u8], others: &[u8]) -> bool {
    match (Name::copied(alloc, bytes), Name::copied(alloc, others)) {
        (Ok(name), Ok(other)) => name != other,
        _ => false,
    }
}

/// The first byte of a block, as a name that is cut from it.
fn cut_byte(block: &mut Name) -> Option<Name> {
    if block.as_slice().is_empty() {
        None
    } else {
        block.split_to(1).ok()
    }
}

/// Whether names are cut from one block: the first byte, the second and the rest.
fn can_be_cut(alloc: Global) -> bool {
    match Name::copied(alloc, b"Af()V") {
        Ok(mut block) => match (cut_byte(&mut block), cut_byte(&mut block)) {
            (Some(first), Some(second)) => {
                is_a_f(first.as_slice(), second.as_slice(), block.as_slice())
            }
            _ => false,
        },
        Err(_) => false,
    }
}

/// The copy of a name of these bytes, which is let go.
fn copy_alone(alloc: Global, bytes: &[u8]) -> Result<Name, AllocError> {
    match Name::copied(alloc, bytes) {
        Ok(name) => name.copy(alloc),
        Err(fault) => Err(fault),
    }
}

/// Whether the name has these bytes and their hash, and so has its copy, which is equal to it.
fn has_copy(alloc: Global, name: &Name, bytes: &[u8]) -> bool {
    match name.copy(alloc) {
        Ok(copy) => {
            name.as_slice() == bytes
                && hash_of(name) == hash_of(&bytes)
                && copy == *name
                && copy.as_slice() == bytes
        }
        Err(_) => false,
    }
}

impl Row for NameRow {
    fn is_so(&self, alloc: Global) -> bool {
        match self {
            BadText(text, fault) => {
                !is_text(text) && decode_mutf8(alloc, text).err() == Some(*fault)
            }
            Units(units, text) => {
                is_text(text)
                    && are_made(encode_mutf8(alloc, units), text)
                    && are_made(decode_mutf8(alloc, text), units)
            }
            Named(name, class, unqualified) => {
                is_class_name(name) == *class && is_unqualified(name) == *unqualified
            }
            Package(name, package) => package_of(name) == *package,
            Lent(bytes) => Text::of(bytes).as_bytes() == *bytes,
            List(bytes) => is_list(alloc, bytes),
            OtherList(bytes, others) => lists_differ(alloc, bytes, others),
            Kept(bytes) => match Name::copied(alloc, bytes) {
                Ok(name) => has_copy(alloc, &name, bytes),
                Err(_) => false,
            },
            Outlives(bytes) => match copy_alone(alloc, bytes) {
                Ok(copy) => copy.as_slice() == *bytes,
                Err(_) => false,
            },
            OtherName(bytes, others) => names_differ(alloc, bytes, others),
            Cut => can_be_cut(alloc),
            Print(before, bytes, print) => print_from(*before, bytes) == *print,
        }
    }
}

/// Modified UTF-8.
const TEXTS: &[NameRow] = &[
    BadText(&[0x00], NameFault::BadByte(0)),
    BadText(&[0xf0, 0x9f, 0x98, 0x80], NameFault::BadByte(0)),
    // No byte is from f0 on, so no unit is over ffff.
    BadText(&[0xf0, 0x80, 0x80], NameFault::BadByte(0)),
    BadText(&[0x41, 0xc1, 0x81], NameFault::BadByte(1)),
    BadText(&[0x41, 0xe1, 0x41, 0x80], NameFault::BadByte(1)),
    BadText(&[0x41, 0xc3, 0x41, 0x00, 0xc3], NameFault::BadByte(1)),
    BadText(&[0xc3], NameFault::Truncated),
    BadText(&[0xe0, 0x41], NameFault::Truncated),
    Units(&[], &[]),
    Units(&[0xffff], &[0xef, 0xbf, 0xbf]),
    Units(&[0xd83d, 0xde00], &[0xed, 0xa0, 0xbd, 0xed, 0xb8, 0x80]),
    Units(
        &[0, 0x41, 0x7ff, 0x800, 0xd83d, 0xde00],
        &[
            0xc0, 0x80, 0x41, 0xdf, 0xbf, 0xe0, 0xa0, 0x80, 0xed, 0xa0, 0xbd, 0xed, 0xb8, 0x80,
        ],
    ),
];

/// Names of classes and of their members, and packages.
const NAMES: &[NameRow] = &[
    Named(b"java/lang/Object", true, false),
    Named(b"<x(", true, true),
    Named(b"a", true, true),
    Named(b"a/b", true, false),
    Named(b"", false, false),
    Named(b"a//b", false, false),
    Named(b"/a", false, false),
    Named(b"a/", false, false),
    Named(b"a.b", false, false),
    Named(b"[I", false, false),
    Named(b"a;", false, false),
    Package(b"java/lang/Object", b"java/lang"),
    Package(b"A", b""),
    Package(b"", b""),
    Lent(b"A"),
];

/// Lists.
const LISTS: &[NameRow] = &[
    List(b"run"),
    OtherList(b"run", b""),
    OtherList(b"run", b"ru"),
    OtherList(b"run", b"rub"),
    OtherList(b"run", b"runs"),
];

/// Names that are kept.
const KEPT: &[NameRow] = &[
    Kept(b"run"),
    Outlives(b"run"),
    OtherName(b"run", b""),
    OtherName(b"run", b"ru"),
    OtherName(b"run", b"rub"),
    OtherName(b"run", b"runs"),
    Cut,
];

/// Prints: for each word of eight bytes, and for what is left, the product of what it is and 0x9e3779b97f4a7c15, with its upper half on its
/// lower one.
const PRINTS: &[NameRow] = &[
    Print(0, b"", 0x0000_0000_0000_0000),
    Print(0, b"A", 0x2c15_e819_7dfc_694c),
    Print(7, b"run", 0x73fd_636d_f261_1ef0),
    Print(0, b"toString", 0x25f3_ad29_19f0_ab50),
    Print(0, b"()Ljava/lang/String;", 0x0a6b_38b1_af27_b619),
];

#[test]
fn names(rt: HostRuntime) {
    assert_rows(&rt, "TEXTS", TEXTS);
    assert_rows(&rt, "NAMES", NAMES);
    assert_rows(&rt, "LISTS", LISTS);
    assert_rows(&rt, "KEPT", KEPT);
    assert_rows(&rt, "PRINTS", PRINTS);
    one_list_of_units();
    no_fault_in_units();
}
