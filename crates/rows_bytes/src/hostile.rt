//! Class files that are cut, or changed at places from which the fault follows; and what they show that no answer of `linkd` tells.
//! `bench/hostile.py` gives `linkd` these files with each byte changed.

use crate::hostile::HostileRow::*;
use crate::rows::{Row, assert_rows};
use jl_class::ClassFile;
use jl_classfile::{
    ClassFault, NEWEST_KNOWN, NEWEST_OF_17, Version, read_class, read_class_up_to, version_of,
};
use jl_code::CodeFault;
use jl_names::Name;
use jl_pool::PoolFault;
use std::alloc::{AllocError, Global};

/// java/lang/Object, of which the pool ends at 32.
const OBJECT: &[u8] = &[
    0xca, 0xfe, 0xba, 0xbe, 0x00, 0x00, 0x00, 0x3d, 0x00, 0x03, 0x01, 0x00, 0x10, 0x6a, 0x61, 0x76,
    0x61, 0x2f, 0x6c, 0x61, 0x6e, 0x67, 0x2f, 0x4f, 0x62, 0x6a, 0x65, 0x63, 0x74, 0x07, 0x00, 0x01,
    0x00, 0x21, 0x00, 0x02, 0x00, 0x00, 0x00, 0x00, 0x00, 0x00, 0x00, 0x00, 0x00, 0x00,
];

/// A class A below it with a method f, of which the pool ends at 56.
const A: &[u8] = &[
    0xca, 0xfe, 0xba, 0xbe, 0x00, 0x00, 0x00, 0x3d, 0x00, 0x08, 0x01, 0x00, 0x01, 0x41, 0x07, 0x00,
    0x01, 0x01, 0x00, 0x10, 0x6a, 0x61, 0x76, 0x61, 0x2f, 0x6c, 0x61, 0x6e, 0x67, 0x2f, 0x4f, 0x62,
    0x6a, 0x65, 0x63, 0x74, 0x07, 0x00, 0x03, 0x01, 0x00, 0x01, 0x66, 0x01, 0x00, 0x03, 0x28, 0x29,
    0x56, 0x01, 0x00, 0x04, 0x43, 0x6f, 0x64, 0x65, 0x00, 0x21, 0x00, 0x02, 0x00, 0x04, 0x00, 0x00,
    0x00, 0x00, 0x00, 0x01, 0x00, 0x01, 0x00, 0x05, 0x00, 0x06, 0x00, 0x01, 0x00, 0x07, 0x00, 0x00,
    0x00, 0x0d, 0x00, 0x00, 0x00, 0x00, 0x00, 0x00, 0x00, 0x01, 0xb1, 0x00, 0x00, 0x00, 0x00, 0x00,
    0x00,
];

/// A class M whose method run calls A.f, of which the pool ends at 79.
const M: &[u8] = &[
    0xca, 0xfe, 0xba, 0xbe, 0x00, 0x00, 0x00, 0x3d, 0x00, 0x0d, 0x01, 0x00, 0x01, 0x4d, 0x07, 0x00,
    0x01, 0x01, 0x00, 0x10, 0x6a, 0x61, 0x76, 0x61, 0x2f, 0x6c, 0x61, 0x6e, 0x67, 0x2f, 0x4f, 0x62,
    0x6a, 0x65, 0x63, 0x74, 0x07, 0x00, 0x03, 0x01, 0x00, 0x03, 0x72, 0x75, 0x6e, 0x01, 0x00, 0x03,
    0x28, 0x29, 0x56, 0x01, 0x00, 0x04, 0x43, 0x6f, 0x64, 0x65, 0x01, 0x00, 0x01, 0x41, 0x07, 0x00,
    0x08, 0x01, 0x00, 0x01, 0x66, 0x0c, 0x00, 0x0a, 0x00, 0x06, 0x0a, 0x00, 0x09, 0x00, 0x0b, 0x00,
    0x21, 0x00, 0x02, 0x00, 0x04, 0x00, 0x00, 0x00, 0x00, 0x00, 0x01, 0x00, 0x09, 0x00, 0x05, 0x00,
    0x06, 0x00, 0x01, 0x00, 0x07, 0x00, 0x00, 0x00, 0x10, 0x00, 0x00, 0x00, 0x00, 0x00, 0x00, 0x00,
    0x04, 0xb6, 0x00, 0x0c, 0xb1, 0x00, 0x00, 0x00, 0x00, 0x00, 0x00,
];

/// A class In with the nest host Out, of which the pool ends at 60.
const IN: &[u8] = &[
    0xca, 0xfe, 0xba, 0xbe, 0x00, 0x00, 0x00, 0x3d, 0x00, 0x08, 0x01, 0x00, 0x02, 0x49, 0x6e, 0x07,
    0x00, 0x01, 0x01, 0x00, 0x10, 0x6a, 0x61, 0x76, 0x61, 0x2f, 0x6c, 0x61, 0x6e, 0x67, 0x2f, 0x4f,
    0x62, 0x6a, 0x65, 0x63, 0x74, 0x07, 0x00, 0x03, 0x01, 0x00, 0x08, 0x4e, 0x65, 0x73, 0x74, 0x48,
    0x6f, 0x73, 0x74, 0x01, 0x00, 0x03, 0x4f, 0x75, 0x74, 0x07, 0x00, 0x06, 0x00, 0x21, 0x00, 0x02,
    0x00, 0x04, 0x00, 0x00, 0x00, 0x00, 0x00, 0x00, 0x00, 0x01, 0x00, 0x05, 0x00, 0x00, 0x00, 0x02,
    0x00, 0x07,
];

/// The class A whose code has a tableswitch: at 91, with its low from 98 on and its high from 102 on.
const SWITCH: &[u8] = &[
    0xca, 0xfe, 0xba, 0xbe, 0x00, 0x00, 0x00, 0x3d, 0x00, 0x08, 0x01, 0x00, 0x01, 0x41, 0x07, 0x00,
    0x01, 0x01, 0x00, 0x10, 0x6a, 0x61, 0x76, 0x61, 0x2f, 0x6c, 0x61, 0x6e, 0x67, 0x2f, 0x4f, 0x62,
    0x6a, 0x65, 0x63, 0x74, 0x07, 0x00, 0x03, 0x01, 0x00, 0x01, 0x66, 0x01, 0x00, 0x03, 0x28, 0x29,
    0x56, 0x01, 0x00, 0x04, 0x43, 0x6f, 0x64, 0x65, 0x00, 0x21, 0x00, 0x02, 0x00, 0x04, 0x00, 0x00,
    0x00, 0x00, 0x00, 0x01, 0x00, 0x01, 0x00, 0x05, 0x00, 0x06, 0x00, 0x01, 0x00, 0x07, 0x00, 0x00,
    0x00, 0x21, 0x00, 0x00, 0x00, 0x00, 0x00, 0x00, 0x00, 0x15, 0x00, 0xaa, 0x00, 0x00, 0x00, 0x00,
    0x00, 0x13, 0x00, 0x00, 0x00, 0x00, 0x00, 0x00, 0x00, 0x00, 0x00, 0x00, 0x00, 0x13, 0xb1, 0x00,
    0x00, 0x00, 0x00, 0x00, 0x00,
];

/// A class B below A with the interfaces I and A, of a nest with the members A and B.
const B: &[u8] = &[
    0xca, 0xfe, 0xba, 0xbe, 0x00, 0x00, 0x00, 0x3d, 0x00, 0x08, 0x01, 0x00, 0x01, 0x42, 0x07, 0x00,
    0x01, 0x01, 0x00, 0x01, 0x41, 0x07, 0x00, 0x03, 0x01, 0x00, 0x01, 0x49, 0x07, 0x00, 0x05, 0x01,
    0x00, 0x0b, 0x4e, 0x65, 0x73, 0x74, 0x4d, 0x65, 0x6d, 0x62, 0x65, 0x72, 0x73, 0x10, 0x31, 0x00,
    0x02, 0x00, 0x04, 0x00, 0x02, 0x00, 0x06, 0x00, 0x04, 0x00, 0x00, 0x00, 0x00, 0x00, 0x01, 0x00,
    0x07, 0x00, 0x00, 0x00, 0x06, 0x00, 0x02, 0x00, 0x04, 0x00, 0x02,
];

/// What a class file shows beside its name and its methods.
struct Shown {
    flags: u16,
    superclass: Option<&'static [u8]>,
    interfaces: &'static [&'static [u8]],
    host: Option<&'static [u8]>,
    members: &'static [&'static [u8]],
}

/// What is so of a class file that is cut or changed.
enum HostileRow {
    /// The file is one, its pool ends here, and wherever it is cut it is too short.
    Cut(&'static [u8], usize),
    /// With each other byte at this place the file has this fault, but with a byte of these two or one between, none.
    Head(usize, ClassFault, Option<(u8, u8)>),
    /// With these four bytes for the high of its tableswitch the file has this fault.
    High([u8; 4], ClassFault),
    /// With an attribute that nothing reads, so long that it has so many bytes, the first file has this fault, or none.
    Sized(usize, Option<ClassFault>),
    /// The first file with this major and this minor version is read up to each of these newest versions, and up to each of those it is
    /// refused for its version.
    OfVersion(u16, u16, &'static [u16], &'static [u16]),
    /// With this byte for the low one of its version the file shows this.
    Shows(&'static [u8], u8, Shown),
}

/// Why the bytes are no class file.
fn fault_of(alloc: Global, bytes: &[u8]) -> Option<ClassFault> {
    read_class(alloc, bytes).err()
}

// ---- cut

/// The fault of a class file that is cut to so many bytes, if its pool ends there.
fn cut_fault(len: usize, pool_end: usize) -> ClassFault {
    if len >= 8 && len < pool_end {
        return ClassFault::Pool(PoolFault::Truncated);
    }
    ClassFault::Truncated
}

/// Whether the file is one, and wherever it is cut it is too short.
fn is_cut(alloc: Global, file: &[u8], pool_end: usize) -> bool {
    for len in 0..file.len() {
        if fault_of(alloc, &file[..len]) != Some(cut_fault(len, pool_end)) {
            return false;
        }
    }
    fault_of(alloc, file).is_none()
}

// ---- single bytes

/// Puts a byte at a place.
fn set(bytes: &mut [u8], place: usize, byte: u8) {
    if let Some(there) = bytes.get_mut(place) {
        *there = byte;
    }
}

/// The fault of the file with this byte at this place.
fn fault_with(alloc: Global, file: &[u8], place: usize, byte: u8) -> Option<ClassFault> {
    match file.to_vec(alloc) {
        Ok(mut bytes) => {
            set(&mut bytes, place, byte);
            fault_of(alloc, &bytes)
        }
        Err(_) => Some(ClassFault::Memory),
    }
}

/// Whether the first file, with each other byte at this place, has this fault, but none with a byte of the bounds or between them.
fn is_head(alloc: Global, place: usize, fault: ClassFault, bounds: Option<(u8, u8)>) -> bool {
    for byte in 0..=u8::MAX {
        let expected = match bounds {
            Some((low, high)) if byte >= low && byte <= high => None,
            _ => Some(fault),
        };
        if OBJECT.get(place) != Some(&byte) && fault_with(alloc, OBJECT, place, byte) != expected {
            return false;
        }
    }
    true
}

/// The first file with an attribute of this length and these bytes.
fn with_attribute(alloc: Global, len: &[u8], info: &[u8]) -> Result<Vec<u8>, AllocError> {
    [&OBJECT[..44], &[0, 1, 0, 1], len, info].concat(alloc)
}

/// The first file with an attribute that nothing reads, so long that it has so many bytes, 52 or more.
fn sized(alloc: Global, len: usize) -> Result<Vec<u8>, AllocError> {
    let info_len = len.saturating_sub(52);
    let info = vec![in alloc; 0u8; info_len]?;
    with_attribute(alloc, &info_len.to_be_bytes()[4..], &info)
}

// ---- versions

/// Whether the bytes have this fault, or none, up to each of these newest versions.
fn have_fault(alloc: Global, bytes: &[u8], newest: &[u16], fault: Option<ClassFault>) -> bool {
    for newest in newest {
        if read_class_up_to(alloc, *newest, bytes).err() != fault {
            return false;
        }
    }
    true
}

/// The first file with these numbers for its version.
fn with_version(alloc: Global, minor: &[u8], major: &[u8]) -> Result<Vec<u8>, AllocError> {
    [&OBJECT[..4], minor, major, &OBJECT[8..]].concat(alloc)
}

/// Whether the first file with this version is a class file up to these newest versions, and isn't for its version up to those.
fn is_of_version(alloc: Global, version: Version, read: &[u16], refused: &[u16]) -> bool {
    match with_version(
        alloc,
        &version.minor.to_be_bytes(),
        &version.major.to_be_bytes(),
    ) {
        Ok(bytes) => {
            version_of(&bytes) == Some(version)
                && have_fault(alloc, &bytes, read, None)
                && have_fault(alloc, &bytes, refused, Some(ClassFault::BadVersion))
        }
        Err(_) => false,
    }
}

// ---- shown

/// Whether these are the names, one after another.
fn are_named(names: &[Name], texts: &[&[u8]]) -> bool {
    for place in 0..=texts.len() {
        if !is_named(names.get(place), texts.get(place).copied()) {
            return false;
        }
    }
    true
}

/// Whether this is a name of this text, or none if there is no text.
fn is_named(name: Option<&Name>, text: Option<&[u8]>) -> bool {
    name.map(|name| name.as_slice()) == text
}

/// Whether the class file shows this.
fn is_shown(file: &ClassFile, shown: &Shown) -> bool {
    file.flags() == shown.flags
        && is_named(file.superclass(), shown.superclass)
        && is_named(file.nest_host(), shown.host)
        && are_named(file.interfaces(), shown.interfaces)
        && are_named(file.nest_members(), shown.members)
}

/// Whether the file shows this with another version.
fn shows(alloc: Global, file: &[u8], version: u8, shown: &Shown) -> bool {
    match file.to_vec(alloc) {
        Ok(mut bytes) => {
            set(&mut bytes, 7, version);
            match read_class(alloc, &bytes) {
                Ok(file) => is_shown(&file, shown),
                Err(_) => false,
            }
        }
        Err(_) => false,
    }
}

impl Row for HostileRow {
    fn is_so(&self, alloc: Global) -> bool {
        match self {
            Cut(file, pool_end) => is_cut(alloc, file, *pool_end),
            Head(place, fault, bounds) => is_head(alloc, *place, *fault, *bounds),
            High(high, fault) => {
                match [&SWITCH[..102], high.as_slice(), &SWITCH[106..]].concat(alloc) {
                    Ok(bytes) => fault_of(alloc, &bytes) == Some(*fault),
                    Err(_) => false,
                }
            }
            Sized(len, fault) => match sized(alloc, *len) {
                Ok(bytes) => fault_of(alloc, &bytes) == *fault,
                Err(_) => false,
            },
            OfVersion(major, minor, read, refused) => {
                let version = Version {
                    major: *major,
                    minor: *minor,
                };
                is_of_version(alloc, version, read, refused)
            }
            Shows(file, version, shown) => shows(alloc, file, *version, shown),
        }
    }
}

/// Each file, and where its pool ends.
const CUT: &[HostileRow] = &[
    Cut(OBJECT, 32),
    Cut(A, 56),
    Cut(M, 79),
    Cut(IN, 60),
    Cut(SWITCH, 56),
];

/// The first file with another magic number or version: the majors 45 to 61 are read.
const HEADS: &[HostileRow] = &[
    Head(0, ClassFault::BadMagic, None),
    Head(1, ClassFault::BadMagic, None),
    Head(2, ClassFault::BadMagic, None),
    Head(3, ClassFault::BadMagic, None),
    Head(4, ClassFault::BadVersion, None),
    Head(5, ClassFault::BadVersion, None),
    Head(6, ClassFault::BadVersion, None),
    Head(7, ClassFault::BadVersion, Some((0x2d, 0x3c))),
];

/// The first file with versions of SE 17, of later editions and of none, of features that are previewed, too (JVMS SE 25 §4.1).
const VERSIONS: &[HostileRow] = &[
    OfVersion(44, 0, &[], &[44, NEWEST_OF_17, NEWEST_KNOWN]),
    OfVersion(45, 3, &[45, NEWEST_OF_17, NEWEST_KNOWN], &[44]),
    OfVersion(61, 0, &[NEWEST_OF_17, 65, NEWEST_KNOWN], &[60]),
    OfVersion(61, 65535, &[], &[NEWEST_OF_17, 65, NEWEST_KNOWN]),
    OfVersion(62, 0, &[62, 65, NEWEST_KNOWN], &[NEWEST_OF_17]),
    OfVersion(65, 0, &[65, 66, NEWEST_KNOWN], &[NEWEST_OF_17, 64]),
    OfVersion(69, 0, &[69, NEWEST_KNOWN], &[NEWEST_OF_17, 65, 68]),
    OfVersion(69, 65535, &[], &[NEWEST_OF_17, 65, NEWEST_KNOWN]),
    OfVersion(70, 0, &[70, u16::MAX], &[NEWEST_OF_17, 65, NEWEST_KNOWN]),
];

/// The tableswitch with a high that isn't its own, 0: below its low, and with one offset more than there is.
const SWITCHES: &[HostileRow] = &[
    High(
        [0xff, 0xff, 0xff, 0xff],
        ClassFault::Code(0, CodeFault::BadSwitch(1)),
    ),
    High(
        [0x00, 0x00, 0x00, 0x01],
        ClassFault::Code(0, CodeFault::CutShort(1)),
    ),
];

/// Files of the most bytes, and of one more.
const SIZES: &[HostileRow] = &[
    Sized(52, None),
    Sized(1_000_000, None),
    Sized(1_000_001, Some(ClassFault::TooLarge)),
];

#[test]
fn cut_and_changed_files(rt: HostRuntime) {
    assert_rows(&rt, "CUT", CUT);
    assert_rows(&rt, "HEADS", HEADS);
    assert_rows(&rt, "VERSIONS", VERSIONS);
    assert_rows(&rt, "SWITCHES", SWITCHES);
    assert_rows(&rt, "SIZES", SIZES);
}

/// A class with nothing but a superclass.
const PLAIN: Shown = Shown {
    flags: 33,
    superclass: Some(b"java/lang/Object"),
    interfaces: &[],
    host: None,
    members: &[],
};

/// The class B, by a version in which nests aren't read.
const WITHOUT_NEST: Shown = Shown {
    flags: 0x1031,
    superclass: Some(b"A"),
    interfaces: &[b"I", b"A"],
    host: None,
    members: &[],
};

/// Flags, superclasses, interfaces and nests (JVMS SE 17 §4.1, §4.7.28, §4.7.29), of versions in which nests are read, and of older ones.
const SHOWN: &[HostileRow] = &[
    Shows(
        OBJECT,
        61,
        Shown {
            superclass: None,
            ..PLAIN
        },
    ),
    Shows(M, 45, PLAIN),
    Shows(
        IN,
        61,
        Shown {
            host: Some(b"Out"),
            ..PLAIN
        },
    ),
    Shows(
        IN,
        55,
        Shown {
            host: Some(b"Out"),
            ..PLAIN
        },
    ),
    Shows(IN, 54, PLAIN),
    Shows(
        B,
        61,
        Shown {
            members: &[b"A", b"B"],
            ..WITHOUT_NEST
        },
    ),
    Shows(B, 54, WITHOUT_NEST),
];

#[test]
fn shown_heads(rt: HostRuntime) {
    assert_rows(&rt, "SHOWN", SHOWN);
}
