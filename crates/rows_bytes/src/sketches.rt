//! Sketches and their bytes.

use crate::rows::{Row, assert_rows};
use crate::sketches::Outcome::*;
use crate::sketches::Part::*;
use jl_classfile::{ClassFault, no_fault_in_a_class, one_class, read_class};
use jl_names::{Name, Seq};
use jl_pool::PoolFault;
use jl_sketch::{Call, MethodName, Sketch, SketchFault, SketchMethod, write_class};
use std::alloc::{AllocError, Global};

const OBJECT: &[u8] = b"java/lang/Object";

/// What a sketch has beside its name and its superclass. Its methods have no parameters and no result.
enum Part {
    /// No superclass, after all.
    Root,
    /// A name of so many bytes in place of its own.
    Long(usize),
    /// These flags in place of those of a public class.
    Flags(u16),
    /// A nest host.
    Host(&'static [u8]),
    /// A nest member.
    Member(&'static [u8]),
    /// A nest member so many times.
    Members(usize),
    /// Interfaces of so many names.
    Interfaces(usize),
    /// An interface so many times.
    Again(usize),
    /// A method of this name and these flags that calls nothing.
    Method(&'static [u8], u16),
    /// A method f so many times.
    Methods(usize),
    /// A method run of these flags that calls A.f so many times.
    Calls(usize, u16),
    /// A method run that calls A.f of an interface, with the descriptor in these parts.
    CallsWith(&'static [&'static [u8]]),
}

/// What comes of a sketch.
enum Outcome {
    /// The class file of these parts.
    Gives(&'static [&'static [u8]]),
    /// A class file.
    IsWritten,
    /// A class file of so many methods.
    HasMethods(usize),
    /// This fault.
    Has(SketchFault),
    /// A fault in the code of its first method.
    HasCodeFault,
}

/// A sketch of a public class: its name, its superclass, what else it has, and what comes of it.
struct SketchRow(&'static [u8], &'static [u8], &'static [Part], Outcome);

/// One item.
fn one<T: Drop>(alloc: Global, item: T) -> Result<Seq<T>, AllocError> {
    let mut items = Vec::new(alloc);
    items.push(item)?;
    Ok(Seq::of(items))
}

/// A public class of this name below this superclass, without methods.
fn empty(alloc: Global, name: &[u8], superclass: &[u8]) -> Result<Sketch, AllocError> {
    let name = Name::copied(alloc, name)?;
    let superclass = Name::copied(alloc, superclass)?;
    Ok(Sketch {
        name,
        flags: 33,
        superclass: Some(superclass),
        interfaces: Seq::of(Vec::new(alloc)),
        methods: Seq::of(Vec::new(alloc)),
        host: None,
        members: Seq::of(Vec::new(alloc)),
    })
}

/// A method of no parameters and no result that makes the part's calls.
fn method(alloc: Global, name: &[u8], flags: u16, part: &Part) -> Result<SketchMethod, AllocError> {
    let name = Name::copied(alloc, name)?;
    let ty = Name::copied(alloc, b"()V")?;
    let calls = calls(alloc, part)?;
    Ok(SketchMethod {
        name,
        ty,
        flags,
        calls,
    })
}

/// The method f of A.
fn f_of_a(alloc: Global, ty: &[u8]) -> Result<MethodName, AllocError> {
    Ok(MethodName {
        owner: Name::copied(alloc, b"A")?,
        name: Name::copied(alloc, b"f")?,
        ty: Name::copied(alloc, ty)?,
    })
}

/// Calls of A.f, so many.
fn virtual_calls(alloc: Global, count: usize) -> Result<Seq<Call>, AllocError> {
    let mut calls = Vec::new(alloc);
    for _ in 0..count {
        calls.push(Call::Virtual(f_of_a(alloc, b"()V")?))?;
    }
    Ok(Seq::of(calls))
}

/// The calls of the method that the part is.
fn calls(alloc: Global, part: &Part) -> Result<Seq<Call>, AllocError> {
    match part {
        Calls(count, _) => virtual_calls(alloc, *count),
        CallsWith(ty) => {
            let ty = ty.concat(alloc)?;
            one(alloc, Call::Interface(f_of_a(alloc, &ty)?))
        }
        _ => Ok(Seq::of(Vec::new(alloc))),
    }
}

/// Gives the sketch the method that the part is.
fn give_method(
    alloc: Global,
    sketch: &mut Sketch,
    name: &[u8],
    flags: u16,
    part: &Part,
) -> Result<(), AllocError> {
    sketch.methods = one(alloc, method(alloc, name, flags, part)?)?;
    Ok(())
}

/// Methods f, so many.
fn methods(alloc: Global, count: usize) -> Result<Seq<SketchMethod>, AllocError> {
    let mut methods = Vec::new(alloc);
    for _ in 0..count {
        methods.push(method(alloc, b"f", 1, &Root)?)?;
    }
    Ok(Seq::of(methods))
}

/// The number as a name.
fn number_name(alloc: Global, number: usize) -> Result<Name, AllocError> {
    let text = format!(in alloc; "{number}")?;
    Name::copied(alloc, text.as_bytes())
}

/// So many names, which differ, or are all alike.
fn names(alloc: Global, count: usize, differ: bool) -> Result<Seq<Name>, AllocError> {
    let mut names = Vec::new(alloc);
    for number in 0..count {
        let name = number_name(alloc, if differ { number } else { 0 })?;
        names.push(name)?;
    }
    Ok(Seq::of(names))
}

/// The names that the part is of.
fn names_of(alloc: Global, part: &Part) -> Result<Seq<Name>, AllocError> {
    match part {
        Member(name) => one(alloc, Name::copied(alloc, name)?),
        Members(count) | Again(count) => names(alloc, *count, false),
        Interfaces(count) => names(alloc, *count, true),
        _ => Ok(Seq::of(Vec::new(alloc))),
    }
}

/// Gives the sketch names in place of what it has.
fn give_names(alloc: Global, sketch: &mut Sketch, part: &Part) -> Result<(), AllocError> {
    match part {
        Long(length) => sketch.name = Name::of(vec![in alloc; b'a'; *length]?)?,
        Host(name) => sketch.host = Some(Name::copied(alloc, name)?),
        Member(_) | Members(_) => sketch.members = names_of(alloc, part)?,
        Interfaces(_) | Again(_) => sketch.interfaces = names_of(alloc, part)?,
        _ => {}
    }
    Ok(())
}

/// Gives the sketch what it has beside its name and its superclass.
fn give(alloc: Global, sketch: &mut Sketch, part: &Part) -> Result<(), AllocError> {
    match part {
        Root => sketch.superclass = None,
        Flags(flags) => sketch.flags = *flags,
        Method(name, flags) => return give_method(alloc, sketch, name, *flags, part),
        Methods(count) => sketch.methods = methods(alloc, *count)?,
        Calls(_, flags) => return give_method(alloc, sketch, b"run", *flags, part),
        CallsWith(_) => return give_method(alloc, sketch, b"run", 9, part),
        _ => return give_names(alloc, sketch, part),
    }
    Ok(())
}

/// Gives the sketch these parts.
fn give_all(alloc: Global, sketch: &mut Sketch, parts: &[Part]) -> Result<(), AllocError> {
    for part in parts {
        give(alloc, sketch, part)?;
    }
    Ok(())
}

/// Whether the bytes are these parts, in order.
fn are_parts(bytes: &[u8], parts: &[&[u8]]) -> bool {
    let mut rest = bytes;
    for part in parts {
        match rest.strip_prefix(*part) {
            Some(later) => rest = later,
            None => return false,
        }
    }
    rest.is_empty()
}

/// Whether the bytes are a class file of so many methods.
fn has_methods(alloc: Global, bytes: &[u8], count: usize) -> bool {
    match read_class(alloc, bytes) {
        Ok(file) => {
            let methods = file.methods();
            methods.len() == count && methods.is_empty() == (count == 0)
        }
        Err(_) => false,
    }
}

/// Whether this comes of the sketch.
fn has_outcome(alloc: Global, sketch: &Sketch, outcome: &Outcome) -> bool {
    match (write_class(alloc, sketch), outcome) {
        (Ok(bytes), Gives(parts)) => are_parts(&bytes, parts),
        (Ok(_), IsWritten) => true,
        (Ok(bytes), HasMethods(count)) => has_methods(alloc, &bytes, *count),
        (Err(fault), Has(expected)) => fault == *expected,
        (Err(fault), HasCodeFault) => {
            matches!(fault, SketchFault::Refused(ClassFault::Code(0, _)))
        }
        _ => false,
    }
}

impl Row for SketchRow {
    fn is_so(&self, alloc: Global) -> bool {
        match empty(alloc, self.0, self.1) {
            Ok(mut sketch) => {
                give_all(alloc, &mut sketch, self.2).is_ok() && has_outcome(alloc, &sketch, &self.3)
            }
            Err(_) => false,
        }
    }
}

/// The class file of java/lang/Object.
const ROOT_FILE: &[&[u8]] = &[
    &[0xca, 0xfe, 0xba, 0xbe, 0, 0, 0, 0x3d, 0, 3, 1, 0, 16],
    OBJECT,
    &[7, 0, 1, 0, 0x21, 0, 2, 0, 0, 0, 0],
    &[0, 0, 0, 0, 0, 0],
];

/// The class file of A, with a method f.
const A_FILE: &[&[u8]] = &[
    &[
        0xca, 0xfe, 0xba, 0xbe, 0, 0, 0, 0x3d, 0, 8, 1, 0, 1, b'A', 7, 0, 1, 1, 0, 16,
    ],
    OBJECT,
    &[
        7, 0, 3, 1, 0, 1, b'f', 1, 0, 3, b'(', b')', b'V', 1, 0, 4, b'C', b'o', b'd', b'e',
    ],
    &[0, 0x21, 0, 2, 0, 4, 0, 0, 0, 0, 0, 1],
    &[0, 1, 0, 5, 0, 6, 0, 1, 0, 7, 0, 0, 0, 13],
    &[0, 0, 0, 0, 0, 0, 0, 1],
    &[0xb1, 0, 0, 0, 0],
    &[0, 0],
];

/// The class file of M, whose method run calls A.f.
const M_FILE: &[&[u8]] = &[
    &[
        0xca, 0xfe, 0xba, 0xbe, 0, 0, 0, 0x3d, 0, 13, 1, 0, 1, b'M', 7, 0, 1, 1, 0, 16,
    ],
    OBJECT,
    &[
        7, 0, 3, 1, 0, 3, b'r', b'u', b'n', 1, 0, 3, b'(', b')', b'V', 1, 0, 4,
    ],
    b"Code",
    &[
        1, 0, 1, b'A', 7, 0, 8, 1, 0, 1, b'f', 12, 0, 10, 0, 6, 10, 0, 9, 0, 11,
    ],
    &[0, 0x21, 0, 2, 0, 4, 0, 0, 0, 0, 0, 1],
    &[0, 9, 0, 5, 0, 6, 0, 1, 0, 7, 0, 0, 0, 16],
    &[0, 0, 0, 0, 0, 0, 0, 4, 0xb6, 0, 12, 0xb1],
    &[0, 0, 0, 0, 0, 0],
];

/// The class file of B below A.
const B_FILE: &[&[u8]] = &[
    &[
        0xca, 0xfe, 0xba, 0xbe, 0, 0, 0, 0x3d, 0, 5, 1, 0, 1, b'B', 7, 0, 1, 1, 0, 1, b'A', 7,
    ],
    &[0, 3, 0, 0x21, 0, 2, 0, 4, 0, 0, 0, 0, 0, 0, 0, 0],
];

/// The class file of C below A, with a method f.
const C_FILE: &[&[u8]] = &[
    &[
        0xca, 0xfe, 0xba, 0xbe, 0, 0, 0, 0x3d, 0, 8, 1, 0, 1, b'C', 7, 0, 1, 1, 0, 1, b'A', 7,
    ],
    &[
        0, 3, 1, 0, 1, b'f', 1, 0, 3, b'(', b')', b'V', 1, 0, 4, b'C', b'o', b'd', b'e',
    ],
    &[0, 0x21, 0, 2, 0, 4, 0, 0, 0, 0, 0, 1],
    &[0, 1, 0, 5, 0, 6, 0, 1, 0, 7, 0, 0, 0, 13],
    &[0, 0, 0, 0, 0, 0, 0, 1, 0xb1, 0, 0, 0, 0, 0, 0],
];

/// The class file of In, of the nest of Out.
const IN_FILE: &[&[u8]] = &[
    &[
        0xca, 0xfe, 0xba, 0xbe, 0, 0, 0, 0x3d, 0, 8, 1, 0, 2, b'I', b'n', 7, 0, 1, 1, 0, 16,
    ],
    OBJECT,
    &[7, 0, 3, 1, 0, 8],
    b"NestHost",
    &[
        1, 0, 3, b'O', b'u', b't', 7, 0, 6, 0, 0x21, 0, 2, 0, 4, 0, 0, 0, 0, 0, 0,
    ],
    &[0, 1, 0, 5, 0, 0, 0, 2, 0, 7],
];

/// The class file of A, a nest of itself.
const NEST_FILE: &[&[u8]] = &[
    &[
        0xca, 0xfe, 0xba, 0xbe, 0, 0, 0, 0x3d, 0, 6, 1, 0, 1, b'A', 7, 0, 1, 1, 0, 16,
    ],
    OBJECT,
    &[7, 0, 3, 1, 0, 11],
    b"NestMembers",
    &[
        0, 0x21, 0, 2, 0, 4, 0, 0, 0, 0, 0, 0, 0, 1, 0, 5, 0, 0, 0, 4, 0, 1, 0, 2,
    ],
];

/// Sketches, and the class files that they are written as.
const FILES: &[SketchRow] = &[
    SketchRow(OBJECT, OBJECT, &[Root], Gives(ROOT_FILE)),
    SketchRow(b"A", OBJECT, &[Method(b"f", 1)], Gives(A_FILE)),
    SketchRow(b"M", OBJECT, &[Calls(1, 9)], Gives(M_FILE)),
    SketchRow(b"B", b"A", &[], Gives(B_FILE)),
    SketchRow(b"C", b"A", &[Method(b"f", 1)], Gives(C_FILE)),
    SketchRow(b"In", OBJECT, &[Host(b"Out")], Gives(IN_FILE)),
    SketchRow(b"A", OBJECT, &[Member(b"A")], Gives(NEST_FILE)),
];

/// A fault in the constant at 2, which is the class.
const BAD_NAME: SketchFault = SketchFault::Refused(ClassFault::Pool(PoolFault::BadDescriptor(2)));

/// 127 long parameters.
const LONGS: &[u8] = &[b'J'; 127];

/// Sketches with faults, and one that is just right.
const FAULTS: &[SketchRow] = &[
    SketchRow(
        b"M",
        OBJECT,
        &[Calls(1, 1033)],
        Has(SketchFault::CallsWithoutCode(0)),
    ),
    SketchRow(
        b"M",
        OBJECT,
        &[Calls(1, 0x0109)],
        Has(SketchFault::CallsWithoutCode(0)),
    ),
    SketchRow(
        b"M",
        OBJECT,
        &[Method(b"run", 1033)],
        Has(SketchFault::Refused(ClassFault::BadMember(0))),
    ),
    SketchRow(b"a.b", OBJECT, &[], Has(BAD_NAME)),
    // Calls without code come before what is wrong with the class file.
    SketchRow(
        b"a.b",
        OBJECT,
        &[Calls(1, 1033)],
        Has(SketchFault::CallsWithoutCode(0)),
    ),
    // The flag MODULE.
    SketchRow(
        b"A",
        OBJECT,
        &[Flags(0x8021)],
        Has(SketchFault::Refused(ClassFault::ModuleFile)),
    ),
    SketchRow(
        b"M",
        OBJECT,
        &[CallsWith(&[b"(", LONGS, b"I)V"])],
        HasCodeFault,
    ),
    SketchRow(b"M", OBJECT, &[CallsWith(&[b"(", LONGS, b")V"])], IsWritten),
];

/// Sketches with a text or a list that is too long, and two that are just short enough.
const LENGTHS: &[SketchRow] = &[
    SketchRow(b"", OBJECT, &[Long(65_535)], IsWritten),
    SketchRow(b"", OBJECT, &[Long(65_536)], Has(SketchFault::TooBig)),
    SketchRow(b"A", OBJECT, &[Again(65_535)], IsWritten),
    SketchRow(b"A", OBJECT, &[Again(65_536)], Has(SketchFault::TooBig)),
    SketchRow(b"A", OBJECT, &[Members(65_536)], Has(SketchFault::TooBig)),
    SketchRow(b"A", OBJECT, &[Methods(65_536)], Has(SketchFault::TooBig)),
];

/// Codes of 3 bytes a call and one of the return: 65,533 bytes are few enough, and 65,536 are too many.
const LONG_CODES: &[SketchRow] = &[
    SketchRow(b"A", OBJECT, &[Calls(21_844, 9)], IsWritten),
    SketchRow(b"A", OBJECT, &[Calls(21_845, 9)], HasCodeFault),
];

/// Too many calls come before calls without code.
const MANY_CALLS: &[SketchRow] = &[
    SketchRow(
        b"A",
        OBJECT,
        &[Calls(65_535, 1025)],
        Has(SketchFault::CallsWithoutCode(0)),
    ),
    SketchRow(
        b"A",
        OBJECT,
        &[Calls(65_536, 1025)],
        Has(SketchFault::TooBig),
    ),
];

/// Sketches of many constants. A, java/lang/Object and each interface have two, and 4 + 2 * 32,765 are 65,534. As a member of its own
/// nest A has one more, the text NestMembers. The count of a pool is one more than its constants, and at most 65,535.
const MANY_CONSTANTS: &[SketchRow] = &[
    SketchRow(b"A", OBJECT, &[Interfaces(32_765)], IsWritten),
    SketchRow(
        b"A",
        OBJECT,
        &[Interfaces(32_765), Member(b"A")],
        Has(SketchFault::TooBig),
    ),
];

/// Sketches of so many methods.
const COUNTS: &[SketchRow] = &[
    SketchRow(b"A", OBJECT, &[Methods(0)], HasMethods(0)),
    SketchRow(b"A", OBJECT, &[Methods(1)], HasMethods(1)),
];

#[test]
fn sketches(rt: HostRuntime) {
    assert_rows(&rt, "FILES", FILES);
    assert_rows(&rt, "FAULTS", FAULTS);
    assert_rows(&rt, "LENGTHS", LENGTHS);
    assert_rows(&rt, "LONG_CODES", LONG_CODES);
    assert_rows(&rt, "MANY_CALLS", MANY_CALLS);
    assert_rows(&rt, "MANY_CONSTANTS", MANY_CONSTANTS);
    assert_rows(&rt, "COUNTS", COUNTS);
    one_class();
    no_fault_in_a_class();
}
