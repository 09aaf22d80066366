//! Constant pools.

use crate::pools::EntryRow::*;
use crate::pools::PoolRow::*;
use crate::rows::{Row, assert_rows, is_a_f};
use jl_names::Name;
use jl_pool::{
    CallSiteSpecifier, Constant, Pool, PoolFault, Reference, bytes_at, no_fault_in_a_pool,
    one_pool, u2_at, u4_at,
};
use std::alloc::{AllocError, Global};

/// A pool of this count, of these entries and then this one.
fn bytes_with(
    alloc: Global,
    count: u8,
    entries: &[&[u8]],
    last: &[u8],
) -> Result<Vec<u8>, AllocError> {
    let inner = entries.concat(alloc)?;
    [&[0, count], inner.as_slice(), last].concat(alloc)
}

/// Each tag at least once: 26 numbers, 110 bytes with the count.
const EACH_TAG: &[&[u8]] = &[
    b"\x01\x00\x01A",
    b"\x07\x00\x01",
    b"\x01\x00\x01f",
    b"\x01\x00\x03()V",
    b"\x0c\x00\x03\x00\x04",
    b"\x0a\x00\x02\x00\x05",
    b"\x0b\x00\x02\x00\x05",
    b"\x01\x00\x01I",
    b"\x0c\x00\x03\x00\x08",
    b"\x09\x00\x02\x00\x09",
    b"\x08\x00\x01",
    b"\x03\x00\x00\x00\x2a",
    b"\x04\x3f\x80\x00\x00",
    // 14, and so 15.
    b"\x05\x00\x00\x00\x01\x00\x00\x00\x02",
    // 16, and so 17.
    b"\x06\x3f\xf0\x00\x00\x00\x00\x00\x00",
    b"\x0f\x06\x00\x06",
    b"\x10\x00\x04",
    b"\x11\x00\x05\x00\x09",
    b"\x12\x00\x07\x00\x05",
    b"\x13\x00\x01",
    b"\x14\x00\x01",
    b"\x01\x00\x02[I",
    b"\x07\x00\x18",
];

/// The tags of these entries, and 0 for a number that has none.
const TAGS: &[u8] = &[
    0, 1, 7, 1, 1, 12, 10, 11, 1, 12, 9, 8, 3, 4, 5, 0, 6, 0, 15, 16, 17, 18, 19, 20, 1, 7,
];

/// Whether these are the tags of the entries, and 0 for a number that has none.
fn have_tags(pool: &Pool, tags: &[u8]) -> bool {
    for (number, tag) in (0..u16::MAX).zip(tags) {
        let found = match pool.constant(number) {
            Some(constant) => constant.tag(),
            None => 0,
        };
        if found != *tag {
            return false;
        }
    }
    pool.len() == tags.len() && !pool.is_empty()
}

/// Whether the constant at this number has these bits, or these two numbers of a method handle or of a dynamic constant.
fn has_bits(pool: &Pool, number: u16, bits: (u64, u64)) -> bool {
    match pool.constant(number) {
        Some(Constant::Integer(found)) => bits == (u64::from(found), 0),
        Some(Constant::Float(found)) => bits == (u64::from(found), 0),
        Some(Constant::Long(found)) => bits == (found, 0),
        Some(Constant::Double(found)) => bits == (found, 0),
        Some(Constant::MethodHandle(kind, number)) => {
            bits == (u64::from(kind), u64::from(number))
        }
        Some(Constant::Dynamic(bootstrap, number)) => {
            bits == (u64::from(bootstrap), u64::from(number))
        }
        _ => false,
    }
}

/// Whether the number is a Utf8 of this text, and of no other kind.
fn has_utf8(pool: &Pool, number: u16, text: Option<&[u8]>) -> bool {
    pool.utf8(number).map(|name| name.as_slice()) == text
        && pool.form(number).is_some() == text.is_some()
        && pool.has_tag(1, number) == text.is_some()
}

/// Whether the number is a Class of this text and this class name.
fn has_class(pool: &Pool, number: u16, text: Option<&[u8]>, name: Option<&[u8]>) -> bool {
    pool.class_text(number).map(|name| name.as_slice()) == text
        && pool.class_name(number).map(|name| name.as_slice()) == name
        && pool.has_tag(7, number) == text.is_some()
}

/// Whether the number is a method A.f:()V of a class, or of an interface.
fn has_method(pool: &Pool, number: u16, interface: bool) -> bool {
    match pool.method_ref(number) {
        Some(method) => {
            method.itf == interface
                && is_a_f(
                    method.owner.as_slice(),
                    method.name.as_slice(),
                    method.ty.as_slice(),
                )
                && pool.slots(number) == Some(0)
        }
        None => false,
    }
}

/// Whether the number is the call site f:()V of bootstrap method 7.
fn has_call_site(pool: &Pool, number: u16) -> bool {
    match pool.dynamic(number) {
        Some(site) => {
            site.bootstrap == 7
                && [site.name.as_slice(), site.ty.as_slice()] == [b"f", b"()V".as_slice()]
        }
        None => false,
    }
}

/// What is so of the pool that has each tag.
enum EntryRow {
    /// Its entries have these tags.
    Tags(&'static [u8]),
    /// The entry at this number has these bits, or these two numbers.
    Bits(u16, (u64, u64)),
    /// The number is a Utf8 of this text, and a Class of this text and this class name.
    Texts(u16, Option<&'static [u8]>, Option<&'static [u8]>, Option<&'static [u8]>),
    /// The number is the method A.f:()V of a class, or of an interface.
    Method(u16, bool),
    /// The number is the call site f:()V of bootstrap method 7.
    CallSite(u16),
    /// The number is no method and no call site.
    Neither(u16),
}

/// Whether the row is so of the pool.
fn is_so_of(row: &EntryRow, pool: &Pool) -> bool {
    match row {
        Tags(tags) => have_tags(pool, tags),
        Bits(number, bits) => has_bits(pool, *number, *bits),
        Texts(number, utf8, text, name) => {
            has_utf8(pool, *number, *utf8) && has_class(pool, *number, *text, *name)
        }
        Method(number, interface) => has_method(pool, *number, *interface),
        CallSite(number) => has_call_site(pool, *number),
        Neither(number) => {
            pool.method_ref(*number).is_none()
                && pool.dynamic(*number).is_none()
                && pool.slots(*number).is_none()
        }
    }
}

impl Row for EntryRow {
    fn is_so(&self, alloc: Global) -> bool {
        // The last byte is not the pool's.
        match bytes_with(alloc, 26, EACH_TAG, &[0x01]) {
            Ok(bytes) => match Pool::read(alloc, &bytes) {
                Ok((pool, used)) => bytes.len() == 111 && used == 110 && is_so_of(self, &pool),
                Err(_) => false,
            },
            Err(_) => false,
        }
    }
}

/// What the entries hold, and what the numbers name.
const ENTRIES: &[EntryRow] = &[
    Tags(TAGS),
    Bits(12, (42, 0)),
    Bits(13, (0x3f80_0000, 0)),
    Bits(14, (0x1_0000_0002, 0)),
    Bits(16, (0x3ff0_0000_0000_0000, 0)),
    Bits(18, (6, 6)),
    Bits(20, (5, 9)),
    Texts(1, Some(b"A"), None, None),
    Texts(2, None, Some(b"A"), Some(b"A")),
    Texts(24, Some(b"[I"), None, None),
    // The class of an array has a text, and no class name.
    Texts(25, None, Some(b"[I"), None),
    Texts(11, None, None, None),
    // Number 0, the second of a Long, and one past the end.
    Texts(0, None, None, None),
    Texts(15, None, None, None),
    Texts(26, None, None, None),
    Method(6, false),
    Method(7, true),
    CallSite(21),
    Neither(0),
    Neither(5),
    Neither(10),
    Neither(15),
    Neither(20),
    Neither(26),
];

/// What is so of bytes.
enum PoolRow {
    /// The pool of this count and these entries has this fault, or none.
    Fault(u8, &'static [&'static [u8]], Option<PoolFault>),
    /// A method handle of this kind may refer to these, and to none of the other numbers from 0 on.
    Handle(u8, &'static [u8]),
    /// An entry of these bytes, a number and these bytes may name these, and none of the other numbers from 0 on.
    Names(&'static [u8], &'static [u8], &'static [u8]),
    /// Whether this constant may have its descriptor.
    Described(&'static [u8], bool),
    /// The pool that has each tag has none, wherever its bytes are cut.
    CutShort,
    /// This is the number of two bytes at their front, with what follows it.
    TwoBytes(&'static [u8], Option<(u16, &'static [u8])>),
    /// This is the number of four bytes at their front, with what follows it.
    FourBytes(&'static [u8], Option<(u32, &'static [u8])>),
    /// These are the first ones of this count, with what follows them.
    Front(usize, &'static [u8], Option<(&'static [u8], &'static [u8])>),
    /// The copy of an InterfaceMethodref is equal to it.
    CopiedMethod,
    /// The copy of a call site is equal to it.
    CopiedCallSite,
}

/// Whether the pool of this count, of these entries and then this one, has this fault, or none.
fn has_fault(
    alloc: Global,
    count: u8,
    entries: &[&[u8]],
    last: &[u8],
    fault: Option<PoolFault>,
) -> bool {
    match bytes_with(alloc, count, entries, last) {
        Ok(bytes) => Pool::read(alloc, &bytes).err() == fault,
        Err(_) => false,
    }
}

/// What comes before the handles below: 9 is a Fieldref, 10 a Methodref and 11 an InterfaceMethodref.
const REFERENCES: &[&[u8]] = &[
    b"\x01\x00\x01A",
    b"\x07\x00\x01",
    b"\x01\x00\x01f",
    b"\x01\x00\x03()V",
    b"\x0c\x00\x03\x00\x04",
    b"\x01\x00\x01I",
    b"\x0c\x00\x03\x00\x06",
    b"\x08\x00\x01",
    b"\x09\x00\x02\x00\x07",
    b"\x0a\x00\x02\x00\x05",
    b"\x0b\x00\x02\x00\x05",
];

/// Whether a method handle of this kind may refer to these, and to none of the other numbers from 0 on.
fn are_handles(alloc: Global, kind: u8, good: &[u8]) -> bool {
    for reference in REFERENCE_NUMBERS {
        let fault = if good.contains(reference) {
            None
        } else {
            Some(PoolFault::BadIndex(12))
        };
        let handle = &[0x0f, kind, 0x00, *reference];
        if !has_fault(alloc, 13, REFERENCES, handle, fault) {
            return false;
        }
    }
    true
}

/// The numbers that handles below refer to.
const REFERENCE_NUMBERS: &[u8] = &[0, 2, 8, 9, 10, 11, 12, 13];

/// Whether the bytes end too early for a pool wherever they are cut.
fn are_cut(alloc: Global, bytes: &[u8]) -> bool {
    for len in 0..bytes.len() {
        if Pool::read(alloc, &bytes[..len]).err() != Some(PoolFault::Truncated) {
            return false;
        }
    }
    true
}

/// Whether the pool that has each tag ends too early wherever it is cut.
fn is_each_cut(alloc: Global) -> bool {
    match bytes_with(alloc, 26, EACH_TAG, &[]) {
        Ok(bytes) => are_cut(alloc, &bytes),
        Err(_) => false,
    }
}

/// What comes before the constants below: 5 has a method's descriptor, and 7 a field's.
const DESCRIPTORS: &[&[u8]] = &[
    b"\x01\x00\x01A",
    b"\x07\x00\x01",
    b"\x01\x00\x01f",
    b"\x01\x00\x03()V",
    b"\x0c\x00\x03\x00\x04",
    b"\x01\x00\x01I",
    b"\x0c\x00\x03\x00\x06",
];

/// Whether an entry of these bytes, this number and these bytes may name it, which is an entry of the right kind, or not, as is said.
fn is_named(alloc: Global, front: &[u8], number: u8, back: &[u8], good: bool) -> bool {
    match [front, &[0, number], back].concat(alloc) {
        Ok(entry) => match bytes_with(alloc, 9, DESCRIPTORS, &entry) {
            Ok(bytes) => (Pool::read(alloc, &bytes).err() == Some(PoolFault::BadIndex(8))) != good,
            Err(_) => false,
        },
        Err(_) => false,
    }
}

/// Whether an entry of these bytes, a number and these bytes may name these, and none of the other numbers from 0 on: 8 is the
/// entry itself, and 9 none.
fn are_named(alloc: Global, front: &[u8], good: &[u8], back: &[u8]) -> bool {
    for number in 0..10 {
        if !is_named(alloc, front, number, back, good.contains(&number)) {
            return false;
        }
    }
    true
}

/// A name and a descriptor.
fn two_names(alloc: Global, name: &[u8], ty: &[u8]) -> Result<(Name, Name), AllocError> {
    let name = Name::copied(alloc, name)?;
    let ty = Name::copied(alloc, ty)?;
    Ok((name, ty))
}

/// The InterfaceMethodref of A.f:()V.
fn interface_method(alloc: Global) -> Result<Reference<Name>, AllocError> {
    let owner = Name::copied(alloc, b"A")?;
    let (name, ty) = two_names(alloc, b"f", b"()V")?;
    Ok(Reference {
        itf: true,
        owner,
        name,
        ty,
    })
}

/// The call site g:()I of bootstrap method 7.
fn call_site(alloc: Global) -> Result<CallSiteSpecifier<Name>, AllocError> {
    let (name, ty) = two_names(alloc, b"g", b"()I")?;
    Ok(CallSiteSpecifier {
        bootstrap: 7,
        name,
        ty,
    })
}

/// Whether the copy of this is the InterfaceMethodref of A.f:()V.
fn is_copied(alloc: Global, method: &Reference<Name>) -> bool {
    match method.copy(alloc) {
        Ok(copy) => {
            copy.itf
                && is_a_f(
                    copy.owner.as_slice(),
                    copy.name.as_slice(),
                    copy.ty.as_slice(),
                )
        }
        Err(_) => false,
    }
}

/// Whether the copy of an InterfaceMethodref is equal to it.
fn is_method_copied(alloc: Global) -> bool {
    match interface_method(alloc) {
        Ok(method) => is_copied(alloc, &method),
        Err(_) => false,
    }
}

/// Whether the copy of this is the call site g:()I of bootstrap method 7.
fn is_site_copied(alloc: Global, site: &CallSiteSpecifier<Name>) -> bool {
    match site.copy(alloc) {
        Ok(copy) => {
            copy.bootstrap == 7
                && [copy.name.as_slice(), copy.ty.as_slice()] == [b"g", b"()I".as_slice()]
        }
        Err(_) => false,
    }
}

/// Whether the copy of a call site is equal to it.
fn is_call_site_copied(alloc: Global) -> bool {
    match call_site(alloc) {
        Ok(site) => is_site_copied(alloc, &site),
        Err(_) => false,
    }
}

impl Row for PoolRow {
    fn is_so(&self, alloc: Global) -> bool {
        match self {
            Fault(count, entries, fault) => has_fault(alloc, *count, entries, &[], *fault),
            Handle(kind, good) => are_handles(alloc, *kind, good),
            Names(front, good, back) => are_named(alloc, front, good, back),
            Described(entry, good) => {
                let fault = if *good {
                    None
                } else {
                    Some(PoolFault::BadDescriptor(8))
                };
                has_fault(alloc, 9, DESCRIPTORS, entry, fault)
            }
            CutShort => is_each_cut(alloc),
            CopiedMethod => is_method_copied(alloc),
            CopiedCallSite => is_call_site_copied(alloc),
            TwoBytes(bytes, found) => u2_at(bytes) == *found,
            FourBytes(bytes, found) => u4_at(bytes) == *found,
            Front(count, bytes, found) => bytes_at(*count, bytes) == *found,
        }
    }
}

/// Pools, and their faults.
const POOLS: &[PoolRow] = &[
    // Bytes that are no tag.
    Fault(
        2,
        &[b"\x00\x00\x00\x00\x00\x00\x00\x00\x00"],
        Some(PoolFault::BadTag(1)),
    ),
    Fault(
        2,
        &[b"\x02\x00\x00\x00\x00\x00\x00\x00\x00"],
        Some(PoolFault::BadTag(1)),
    ),
    Fault(
        2,
        &[b"\x0d\x00\x00\x00\x00\x00\x00\x00\x00"],
        Some(PoolFault::BadTag(1)),
    ),
    Fault(
        2,
        &[b"\x0e\x00\x00\x00\x00\x00\x00\x00\x00"],
        Some(PoolFault::BadTag(1)),
    ),
    Fault(
        2,
        &[b"\x15\x00\x00\x00\x00\x00\x00\x00\x00"],
        Some(PoolFault::BadTag(1)),
    ),
    Fault(
        2,
        &[b"\xff\x00\x00\x00\x00\x00\x00\x00\x00"],
        Some(PoolFault::BadTag(1)),
    ),
    // No room for number 0.
    Fault(0, &[], Some(PoolFault::BadTag(0))),
    // A Long and a Double with room for two numbers, and in the last place, there with their bytes and without.
    Fault(3, &[b"\x05\x00\x00\x00\x00\x00\x00\x00\x00"], None),
    Fault(3, &[b"\x06\x00\x00\x00\x00\x00\x00\x00\x00"], None),
    Fault(
        3,
        &[b"\x01\x00\x01A", b"\x05\x00\x00\x00\x00\x00\x00\x00\x00"],
        Some(PoolFault::BadTag(2)),
    ),
    Fault(
        3,
        &[b"\x01\x00\x01A", b"\x06\x00\x00\x00\x00\x00\x00\x00\x00"],
        Some(PoolFault::BadTag(2)),
    ),
    Fault(3, &[b"\x01\x00\x01A", b"\x05"], Some(PoolFault::BadTag(2))),
    Fault(3, &[b"\x01\x00\x01A", b"\x06"], Some(PoolFault::BadTag(2))),
    Fault(4, &[b"\x01\x00\x01A", b"\x05"], Some(PoolFault::Truncated)),
    Fault(4, &[b"\x01\x00\x01A", b"\x06"], Some(PoolFault::Truncated)),
    // Entry 6 names the second number of the Long at 4.
    Fault(
        7,
        &[
            b"\x01\x00\x01A",
            b"\x07\x00\x01",
            b"\x01\x00\x03()V",
            b"\x05\x00\x00\x00\x00\x00\x00\x00\x00",
            b"\x0a\x00\x02\x00\x05",
        ],
        Some(PoolFault::BadIndex(6)),
    ),
    Fault(2, &[b"\x01\x00\x01\x00"], Some(PoolFault::BadUtf8(1))),
    // A zero and the sign of the euro, in modified UTF-8; and after them a byte that begins no unit.
    Fault(
        4,
        &[
            b"\x01\x00\x02\xc0\x80",
            b"\x01\x00\x03\xe2\x82\xac",
            b"\x01\x00\x01A",
        ],
        None,
    ),
    Fault(
        4,
        &[
            b"\x01\x00\x02\xc0\x80",
            b"\x01\x00\x01A",
            b"\x01\x00\x01\x80",
        ],
        Some(PoolFault::BadUtf8(3)),
    ),
    // The first of two; but the bytes end, or a tag is bad, before any text is.
    Fault(
        4,
        &[b"\x01\x00\x01A", b"\x01\x00\x01\xff", b"\x01\x00\x01\x00"],
        Some(PoolFault::BadUtf8(2)),
    ),
    Fault(3, &[b"\x01\x00\x01\x00"], Some(PoolFault::Truncated)),
    Fault(
        3,
        &[b"\x01\x00\x01\x00", b"\x02\x00\x01"],
        Some(PoolFault::BadTag(2)),
    ),
    // The text at 2 comes before the number at 1, and that before the descriptor at 3.
    Fault(
        5,
        &[
            b"\x07\x00\x05",
            b"\x01\x00\x01\x00",
            b"\x10\x00\x04",
            b"\x01\x00\x01I",
        ],
        Some(PoolFault::BadUtf8(2)),
    ),
    Fault(
        5,
        &[
            b"\x10\x00\x04",
            b"\x01\x00\x01A",
            b"\x07\x00\x05",
            b"\x01\x00\x01I",
        ],
        Some(PoolFault::BadIndex(3)),
    ),
    CutShort,
];

/// What method handles may refer to, by their kinds.
const HANDLES: &[PoolRow] = &[
    Handle(0, &[]),
    Handle(1, &[9]),
    Handle(2, &[9]),
    Handle(3, &[9]),
    Handle(4, &[9]),
    Handle(5, &[10]),
    Handle(6, &[10, 11]),
    Handle(7, &[10, 11]),
    Handle(8, &[10]),
    Handle(9, &[11]),
    Handle(10, &[]),
];

/// Constants that name others, and which ones they may name: 1, 3, 4 and 6 are texts, 2 is a Class, 5 and 7 are each a NameAndType.
const NAMED: &[PoolRow] = &[
    // Class, String, MethodType, Module, Package.
    Names(b"\x07", &[1, 3, 4, 6], b""),
    Names(b"\x08", &[1, 3, 4, 6], b""),
    Names(b"\x10", &[1, 3, 4, 6], b""),
    Names(b"\x13", &[1, 3, 4, 6], b""),
    Names(b"\x14", &[1, 3, 4, 6], b""),
    // The name and the descriptor of a NameAndType.
    Names(b"\x0c", &[1, 3, 4, 6], b"\x00\x04"),
    Names(b"\x0c\x00\x03", &[1, 3, 4, 6], b""),
    // The class and the NameAndType of a Fieldref, a Methodref and an InterfaceMethodref.
    Names(b"\x09", &[2], b"\x00\x07"),
    Names(b"\x09\x00\x02", &[5, 7], b""),
    Names(b"\x0a", &[2], b"\x00\x05"),
    Names(b"\x0a\x00\x02", &[5, 7], b""),
    Names(b"\x0b", &[2], b"\x00\x05"),
    Names(b"\x0b\x00\x02", &[5, 7], b""),
    // The NameAndType of a Dynamic and an InvokeDynamic, whose other number isn't looked at.
    Names(b"\x11\x00\x08", &[5, 7], b""),
    Names(b"\x12\x00\x08", &[5, 7], b""),
];

/// Constants with a method's descriptor, at 5, and with a field's, at 7 or 6, and whether they may have it.
const DESCRIBED: &[PoolRow] = &[
    Described(b"\x10\x00\x04", true),
    Described(b"\x10\x00\x06", false),
    Described(b"\x11\x00\x00\x00\x05", false),
    Described(b"\x11\x00\x00\x00\x07", true),
    Described(b"\x12\x00\x00\x00\x05", true),
    Described(b"\x12\x00\x00\x00\x07", false),
    Described(b"\x09\x00\x02\x00\x05", false),
    Described(b"\x09\x00\x02\x00\x07", true),
    Described(b"\x0a\x00\x02\x00\x05", true),
    Described(b"\x0a\x00\x02\x00\x07", false),
    Described(b"\x0b\x00\x02\x00\x05", true),
    Described(b"\x0b\x00\x02\x00\x07", false),
    Described(b"\x0c\x00\x03\x00\x01", false),
    // A class name may have any byte but four.
    Described(b"\x07\x00\x04", true),
];

/// Classes by their texts: a class name, or a descriptor that begins with a bracket; and texts of which no form is asked.
const TEXTS: &[PoolRow] = &[
    Fault(3, &[b"\x01\x00\x02[I", b"\x07\x00\x01"], None),
    Fault(3, &[b"\x01\x00\x03[[D", b"\x07\x00\x01"], None),
    Fault(3, &[b"\x01\x00\x04[LA;", b"\x07\x00\x01"], None),
    Fault(
        3,
        &[b"\x01\x00\x03LA;", b"\x07\x00\x01"],
        Some(PoolFault::BadDescriptor(2)),
    ),
    Fault(
        3,
        &[b"\x01\x00\x02[A", b"\x07\x00\x01"],
        Some(PoolFault::BadDescriptor(2)),
    ),
    Fault(
        3,
        &[b"\x01\x00\x01[", b"\x07\x00\x01"],
        Some(PoolFault::BadDescriptor(2)),
    ),
    Fault(
        3,
        &[b"\x01\x00\x02[V", b"\x07\x00\x01"],
        Some(PoolFault::BadDescriptor(2)),
    ),
    Fault(
        3,
        &[b"\x01\x00\x04[()V", b"\x07\x00\x01"],
        Some(PoolFault::BadDescriptor(2)),
    ),
    Fault(
        3,
        &[b"\x01\x00\x03[Ia", b"\x07\x00\x01"],
        Some(PoolFault::BadDescriptor(2)),
    ),
    Fault(3, &[b"\x01\x00\x03a/b", b"\x07\x00\x01"], None),
    Fault(
        3,
        &[b"\x01\x00\x03a.b", b"\x07\x00\x01"],
        Some(PoolFault::BadDescriptor(2)),
    ),
    Fault(
        3,
        &[b"\x01\x00\x02a;", b"\x07\x00\x01"],
        Some(PoolFault::BadDescriptor(2)),
    ),
    Fault(
        3,
        &[b"\x01\x00\x02a[", b"\x07\x00\x01"],
        Some(PoolFault::BadDescriptor(2)),
    ),
    Fault(
        3,
        &[b"\x01\x00\x00", b"\x07\x00\x01"],
        Some(PoolFault::BadDescriptor(2)),
    ),
    Fault(
        3,
        &[b"\x01\x00\x02/a", b"\x07\x00\x01"],
        Some(PoolFault::BadDescriptor(2)),
    ),
    Fault(
        3,
        &[b"\x01\x00\x02a/", b"\x07\x00\x01"],
        Some(PoolFault::BadDescriptor(2)),
    ),
    Fault(
        3,
        &[b"\x01\x00\x04a//b", b"\x07\x00\x01"],
        Some(PoolFault::BadDescriptor(2)),
    ),
    // Of a text of more than 16 bytes the bytes after these count, too: the last one, and one in the midst of 48.
    Fault(
        3,
        &[b"\x01\x00\x11java/lang/Objects", b"\x07\x00\x01"],
        None,
    ),
    Fault(
        3,
        &[b"\x01\x00\x11java_lang_Object.", b"\x07\x00\x01"],
        Some(PoolFault::BadDescriptor(2)),
    ),
    Fault(
        3,
        &[
            b"\x01\x00\x30java_lang_invoke_Method.HandleNatives_and_others",
            b"\x07\x00\x01",
        ],
        Some(PoolFault::BadDescriptor(2)),
    ),
    Fault(
        2,
        &[b"\x01\x00\x11java/lang/Object\x80"],
        Some(PoolFault::BadUtf8(1)),
    ),
    // The Fieldref of A.f:Ljava/lang/String;.
    Fault(
        7,
        &[
            b"\x01\x00\x01A",
            b"\x07\x00\x01",
            b"\x01\x00\x01f",
            b"\x01\x00\x12Ljava/lang/String;",
            b"\x0c\x00\x03\x00\x04",
            b"\x09\x00\x02\x00\x05",
        ],
        None,
    ),
    // A String, a Module, a Package and the name of a NameAndType.
    Fault(3, &[b"\x01\x00\x04a.b;", b"\x08\x00\x01"], None),
    Fault(3, &[b"\x01\x00\x04a.b;", b"\x13\x00\x01"], None),
    Fault(3, &[b"\x01\x00\x04a.b;", b"\x14\x00\x01"], None),
    Fault(
        4,
        &[
            b"\x01\x00\x04a.b;",
            b"\x01\x00\x01I",
            b"\x0c\x00\x01\x00\x02",
        ],
        None,
    ),
];

/// What is read at the front of bytes, and copies.
const PARTS: &[PoolRow] = &[
    TwoBytes(&[1, 2, 3], Some((0x0102, &[3]))),
    TwoBytes(&[1], None),
    FourBytes(&[1, 2, 3, 4], Some((0x0102_0304, &[]))),
    FourBytes(&[1, 2, 3], None),
    Front(2, &[1, 2, 3], Some((&[1, 2], &[3]))),
    Front(4, &[1, 2, 3], None),
    CopiedMethod,
    CopiedCallSite,
];

#[test]
fn pools(rt: HostRuntime) {
    assert_rows(&rt, "ENTRIES", ENTRIES);
    assert_rows(&rt, "POOLS", POOLS);
    assert_rows(&rt, "HANDLES", HANDLES);
    assert_rows(&rt, "NAMED", NAMED);
    assert_rows(&rt, "DESCRIBED", DESCRIBED);
    assert_rows(&rt, "TEXTS", TEXTS);
    assert_rows(&rt, "PARTS", PARTS);
    one_pool();
    no_fault_in_a_pool();
}
