//! Codes and their invocations.

use crate::codes::CodeRow::*;
use crate::rows::{A_F, Row, assert_rows, is_a_f};
use jl_class::{Kind, Operand, Site, Sites, begins_special};
use jl_code::{CodeFault, no_fault_in_a_code, one_code, scan};
use jl_names::LentName;
use jl_pool::Pool;
use std::alloc::Global;

/// A pool, from its count on, with a Methodref of A.f:()V at 2, an InterfaceMethodref of A.f:()V at 7, and an
/// InvokeDynamic of f:()V at 8.
const POOL: &[u8] = &[
    0, 9, 1, 0, 1, b'A', 10, 0, 3, 0, 4, 7, 0, 1, 12, 0, 5, 0, 6, 1, 0, 1, b'f', 1, 0, 3, b'(',
    b')', b'V', 11, 0, 3, 0, 4, 18, 0, 0, 0, 4,
];

/// Whether this is what an invocation of this kind names: A.f:()V, or f:()V of a call site.
fn is_f(operand: &Operand<LentName<'_>>, kind: Kind) -> bool {
    match operand {
        Operand::Method(reference) => {
            reference.itf == (kind == Kind::Interface)
                && is_a_f(
                    reference.owner.as_slice(),
                    reference.name.as_slice(),
                    reference.ty.as_slice(),
                )
        }
        Operand::CallSite(specifier) => {
            kind == Kind::Dynamic
                && [specifier.name.as_slice(), specifier.ty.as_slice()] == [A_F[1], A_F[2]]
        }
    }
}

/// Whether this is there, and an invocation at this place.
fn is_there(site: Option<Site<'_>>, pc: u16, kind: Kind) -> bool {
    match site {
        Some(site) => site.pc() == pc && site.kind() == kind && is_f(site.operand(), kind),
        None => false,
    }
}

/// Whether these are invocations at these places, by their number and by their place, and nothing else.
fn are_sites(sites: &Sites<'_>, expected: &[(u16, Kind)]) -> bool {
    for (number, (pc, kind)) in expected.iter().enumerate() {
        let by_number = is_there(sites.at(number), *pc, *kind);
        let by_place = is_there(sites.at_pc(u32::from(*pc)), *pc, *kind);
        if !by_number || !by_place {
            return false;
        }
    }
    sites.len() == expected.len() && sites.is_empty() == expected.is_empty()
}

/// A code, and what is found in it over the pool.
#[derive(Clone, Copy)]
enum CodeRow {
    /// Invocations at these places, and nothing else.
    Sites(&'static [u8], &'static [(u16, Kind)]),
    /// This fault.
    Fault(&'static [u8], CodeFault),
    /// A code in parts with an invokestatic of A.f:()V at this place, and nothing else.
    Parts(&'static [&'static [u8]], u16),
    /// As many operand bytes after this opcode as the table says, or no instruction.
    Length(u8),
    /// As many operand bytes after this opcode as the table says, if it follows a wide, or no instruction.
    Widened(u8),
}

/// Whether the code, which is not too long, has these invocations.
fn has_sites(alloc: Global, code: &[u8], pool: &Pool, expected: &[(u16, Kind)]) -> bool {
    if code.len() >= 65_536 {
        return false;
    }
    let mut kept = Vec::new(alloc);
    match scan(code, pool, &mut kept) {
        Ok(()) => are_sites(&Sites::of(pool, &kept), expected),
        Err(_) => false,
    }
}

/// Whether the code, which is not too long, has the fault.
fn has_fault(alloc: Global, code: &[u8], pool: &Pool, fault: CodeFault) -> bool {
    let mut kept = Vec::new(alloc);
    code.len() < 65_536 && scan(code, pool, &mut kept).err() == Some(fault)
}

/// Stands in the table for an instruction that is a switch, an invocation or a wide.
const APART: u8 = 0xff;

/// How many operand bytes an instruction has (JVMS SE 17 §6.5), by its opcode, ten a line from 0 to 201.
const OPERANDS: &[&[u8]] = &[
    // nop, aconst_null, iconst_m1 to iconst_5, lconst_0.
    &[0, 0, 0, 0, 0, 0, 0, 0, 0, 0],
    // lconst_1, fconst_0 to dconst_1, bipush, sipush, ldc, ldc_w.
    &[0, 0, 0, 0, 0, 0, 1, 2, 1, 2],
    // ldc2_w, iload to aload, iload_0 to iload_3.
    &[2, 1, 1, 1, 1, 1, 0, 0, 0, 0],
    // lload_0 to dload_1.
    &[0, 0, 0, 0, 0, 0, 0, 0, 0, 0],
    // dload_2 to daload.
    &[0, 0, 0, 0, 0, 0, 0, 0, 0, 0],
    // aaload to saload, istore to astore, istore_0.
    &[0, 0, 0, 0, 1, 1, 1, 1, 1, 0],
    // istore_1 to fstore_2.
    &[0, 0, 0, 0, 0, 0, 0, 0, 0, 0],
    // fstore_3 to iastore.
    &[0, 0, 0, 0, 0, 0, 0, 0, 0, 0],
    // lastore to dup.
    &[0, 0, 0, 0, 0, 0, 0, 0, 0, 0],
    // dup_x1 to dadd.
    &[0, 0, 0, 0, 0, 0, 0, 0, 0, 0],
    // isub to ldiv.
    &[0, 0, 0, 0, 0, 0, 0, 0, 0, 0],
    // fdiv to dneg.
    &[0, 0, 0, 0, 0, 0, 0, 0, 0, 0],
    // ishl to lor.
    &[0, 0, 0, 0, 0, 0, 0, 0, 0, 0],
    // ixor, lxor, iinc, i2l to f2i.
    &[0, 0, 2, 0, 0, 0, 0, 0, 0, 0],
    // f2l to fcmpl.
    &[0, 0, 0, 0, 0, 0, 0, 0, 0, 0],
    // fcmpg, dcmpl, dcmpg, ifeq to if_icmpeq.
    &[0, 0, 0, 2, 2, 2, 2, 2, 2, 2],
    // if_icmpne to if_acmpne, goto, jsr, ret.
    &[2, 2, 2, 2, 2, 2, 2, 2, 2, 1],
    // tableswitch, lookupswitch, ireturn to return, getstatic, putstatic.
    &[APART, APART, 0, 0, 0, 0, 0, 0, 2, 2],
    // getfield, putfield, the invocations, new, newarray, anewarray.
    &[2, 2, APART, APART, APART, APART, APART, 2, 1, 2],
    // arraylength, athrow, checkcast, instanceof, monitorenter, monitorexit, wide, multianewarray, ifnull, ifnonnull.
    &[0, 0, 2, 2, 0, 0, APART, 3, 2, 2],
    // goto_w, jsr_w.
    &[4, 4],
];

/// How many operand bytes an instruction has after a wide (JVMS SE 17 §6.5): iload to aload, istore to astore, iinc, ret.
const WIDE_OPERANDS: &[(u8, u8)] = &[
    (21, 2),
    (22, 2),
    (23, 2),
    (24, 2),
    (25, 2),
    (54, 2),
    (55, 2),
    (56, 2),
    (57, 2),
    (58, 2),
    (132, 4),
    (169, 2),
];

/// What the table says of the opcode.
fn operands_of(opcode: u8) -> Option<u8> {
    let line = OPERANDS.get(usize::from(opcode / 10))?;
    line.get(usize::from(opcode % 10)).copied()
}

/// What the table says of the opcode after a wide.
fn wide_operands_of(opcode: u8) -> Option<u8> {
    for (widened, operands) in WIDE_OPERANDS {
        if *widened == opcode {
            return Some(*operands);
        }
    }
    None
}

/// An invokestatic of A.f:()V.
const CALL: &[u8] = &[0xb8, 0, 2];

/// Whether the code in these parts has an invokestatic of A.f:()V at this place, and nothing else.
fn has_call(alloc: Global, pool: &Pool, parts: &[&[u8]], pc: u16) -> bool {
    match parts.concat(alloc) {
        Ok(code) => has_sites(alloc, &code, pool, &[(pc, Kind::Static)]),
        Err(_) => false,
    }
}

/// Whether a call is found after an instruction that begins so and has so many operand bytes, of which none is an opcode.
fn has_operands(alloc: Global, pool: &Pool, front: &[u8], operands: u8, pc: u16) -> bool {
    match vec![in alloc; 0xca; usize::from(operands)] {
        Ok(bytes) => has_call(alloc, pool, &[front, &bytes, CALL], pc),
        Err(_) => false,
    }
}

/// Whether the opcode has the operand bytes that the table says.
fn has_length(alloc: Global, pool: &Pool, opcode: u8) -> bool {
    match operands_of(opcode) {
        Some(APART) => true,
        Some(count) => has_operands(alloc, pool, &[opcode], count, u16::from(count) + 1),
        None => has_fault(
            alloc,
            &[opcode, 0, 0, 0, 0, 0],
            pool,
            CodeFault::BadOpcode(0),
        ),
    }
}

/// Whether the opcode after a wide has the operand bytes that the table says.
fn has_wide_length(alloc: Global, pool: &Pool, opcode: u8) -> bool {
    match wide_operands_of(opcode) {
        Some(count) => has_operands(alloc, pool, &[0xc4, opcode], count, u16::from(count) + 2),
        None => has_fault(
            alloc,
            &[0xc4, opcode, 0, 0, 0, 0, 0],
            pool,
            CodeFault::BadOpcode(0),
        ),
    }
}

/// Whether the row is so over this pool.
fn is_so_in(alloc: Global, row: &CodeRow, pool: &Pool) -> bool {
    match row {
        Sites(code, expected) => has_sites(alloc, code, pool, expected),
        Fault(code, fault) => has_fault(alloc, code, pool, *fault),
        Parts(parts, pc) => has_call(alloc, pool, parts, *pc),
        Length(opcode) => has_length(alloc, pool, *opcode),
        Widened(opcode) => has_wide_length(alloc, pool, *opcode),
    }
}

impl Row for CodeRow {
    fn is_so(&self, alloc: Global) -> bool {
        match Pool::read(alloc, POOL) {
            Ok((pool, _)) => is_so_in(alloc, self, &pool),
            Err(_) => false,
        }
    }
}

/// A tableswitch after its padding: its default, from -1 to 1, and three offsets.
const TABLE: &[u8] = &[
    0xca, 0xca, 0xca, 0xca, 0xff, 0xff, 0xff, 0xff, 0, 0, 0, 1, 0xca, 0xca, 0xca, 0xca, 0xca, 0xca,
    0xca, 0xca, 0xca, 0xca, 0xca, 0xca,
];

/// A lookupswitch after its padding: its default, two pairs, and these.
const LOOK_UP: &[u8] = &[
    0xca, 0xca, 0xca, 0xca, 0, 0, 0, 2, 0xca, 0xca, 0xca, 0xca, 0xca, 0xca, 0xca, 0xca, 0xca, 0xca,
    0xca, 0xca, 0xca, 0xca, 0xca, 0xca,
];

/// Codes, and their invocations.
const INVOCATIONS: &[CodeRow] = &[
    Sites(&[], &[]),
    Sites(&[0xb8, 0, 2], &[(0, Kind::Static)]),
    Sites(
        &[0xb6, 0, 2, 0xb7, 0, 2, 0xb8, 0, 2, 0xb1],
        &[(0, Kind::Virtual), (3, Kind::Special), (6, Kind::Static)],
    ),
    // After each instruction of a length of its own.
    Sites(
        &[
            0, 16, 0xca, 17, 0xca, 0xca, 197, 0xca, 0xca, 0xca, 200, 0xca, 0xca, 0xca, 0xca, 0xb8,
            0, 2, 0xb1,
        ],
        &[(15, Kind::Static)],
    ),
    // invokeinterface and invokedynamic have two bytes after the number.
    Sites(
        &[0xb9, 0, 7, 1, 0, 0xba, 0, 8, 0, 0, 0xb8, 0, 2, 0xb1],
        &[(0, Kind::Interface), (5, Kind::Dynamic), (10, Kind::Static)],
    ),
    // A lookupswitch of no pair.
    Sites(
        &[0xab, 0, 0, 0, 0, 0, 0, 0xc, 0, 0, 0, 0, 0xb8, 0, 2, 0xb1],
        &[(12, Kind::Static)],
    ),
    // Both switches at 0 to 3 with three bytes to none of padding, none of them 0, and at 4 with three.
    Parts(&[&[0xaa, 1, 0xca, 3], TABLE, CALL], 28),
    Parts(&[&[0, 0xaa, 0xca, 2], TABLE, CALL], 28),
    Parts(&[&[0, 0, 0xaa, 0xca], TABLE, CALL], 28),
    Parts(&[&[0, 0, 0, 0xaa], TABLE, CALL], 28),
    Parts(&[&[0, 0, 0, 0, 0xaa, 1, 0xca, 3], TABLE, CALL], 32),
    Parts(&[&[0xab, 1, 0xca, 3], LOOK_UP, CALL], 28),
    Parts(&[&[0, 0xab, 0xca, 2], LOOK_UP, CALL], 28),
    Parts(&[&[0, 0, 0xab, 0xca], LOOK_UP, CALL], 28),
    Parts(&[&[0, 0, 0, 0xab], LOOK_UP, CALL], 28),
    Parts(&[&[0, 0, 0, 0, 0xab, 1, 0xca, 3], LOOK_UP, CALL], 32),
];

/// A name, and whether it is an initializer's.
struct NameRow(&'static [u8], bool);

impl Row for NameRow {
    fn is_so(&self, _alloc: Global) -> bool {
        begins_special(self.0) == self.1
    }
}

/// By the first byte alone.
const NAMES: &[NameRow] = &[
    NameRow(b"<init>", true),
    NameRow(b"<clinit>", true),
    NameRow(b"<", true),
    NameRow(b"f", false),
    NameRow(b"f<", false),
    NameRow(b"", false),
];

/// Codes, and their faults.
const FAULTS: &[CodeRow] = &[
    Fault(&[0xca], CodeFault::BadOpcode(0)),
    Fault(&[0, 0xff, 0xb1], CodeFault::BadOpcode(1)),
    // wide before nop, also if more bytes follow, and before tableswitch.
    Fault(&[0xc4, 0], CodeFault::BadOpcode(0)),
    Fault(&[0, 0xc4, 0, 0, 0], CodeFault::BadOpcode(1)),
    Fault(&[0xc4, 0xaa, 0, 0], CodeFault::BadOpcode(0)),
    Fault(&[0xc4], CodeFault::CutShort(0)),
    Fault(&[0xc4, 0x84, 0, 1, 0xff], CodeFault::CutShort(0)),
    Fault(&[0xb8, 0], CodeFault::CutShort(0)),
    // Before what is wrong with the operand.
    Fault(&[0xb9, 0, 2, 1], CodeFault::CutShort(0)),
    // Within the offsets of a tableswitch at 1 and at 3, and of one from the least to the greatest number.
    Fault(
        &[0, 0xaa, 0, 0, 0, 0, 0, 0x13, 0, 0, 0, 0, 0, 0, 0, 0, 0, 0],
        CodeFault::CutShort(1),
    ),
    Fault(
        &[0, 0, 0, 0xaa, 0, 0, 0, 0x11, 0, 0, 0, 0, 0, 0, 0, 0, 0, 0],
        CodeFault::CutShort(3),
    ),
    Fault(
        &[
            0xaa, 0, 0, 0, 0, 0, 0, 0, 0x80, 0, 0, 0, 0x7f, 0xff, 0xff, 0xff, 0, 0, 0, 0,
        ],
        CodeFault::CutShort(0),
    ),
    // Within the numbers of a tableswitch, and those of a lookupswitch.
    Fault(
        &[0xaa, 0, 0, 0, 0, 0, 0, 0, 0, 0, 0, 1, 0, 0, 0],
        CodeFault::CutShort(0),
    ),
    Fault(
        &[0xab, 0, 0, 0, 0, 0, 0, 0, 0xff, 0xff, 0xff],
        CodeFault::CutShort(0),
    ),
    // Within the pairs of a lookupswitch.
    Fault(
        &[0xab, 0, 0, 0, 0, 0, 0, 0, 0, 0, 0, 1, 0, 0, 0, 0, 0, 0, 0],
        CodeFault::CutShort(0),
    ),
    // From 1 to 0, and from 0 to -1.
    Fault(
        &[0xaa, 0, 0, 0, 0, 0, 0, 0, 0, 0, 0, 1, 0, 0, 0, 0],
        CodeFault::BadSwitch(0),
    ),
    Fault(
        &[
            0, 0xaa, 0, 0, 0, 0, 0, 0, 0, 0, 0, 0, 0xff, 0xff, 0xff, 0xff, 0xb1,
        ],
        CodeFault::BadSwitch(1),
    ),
    // -1 pairs, also if the bytes end there.
    Fault(
        &[
            0xab, 0, 0, 0, 0, 0, 0, 0, 0xff, 0xff, 0xff, 0xff, 0, 0, 0, 0, 0xb1,
        ],
        CodeFault::BadSwitch(0),
    ),
    Fault(
        &[0xab, 0, 0, 0, 0, 0, 0, 0, 0xff, 0xff, 0xff, 0xff],
        CodeFault::BadSwitch(0),
    ),
    // A Methodref where an InterfaceMethodref or an InvokeDynamic belongs, a Class, and no entry.
    Fault(&[0xb9, 0, 2, 1, 0], CodeFault::BadOperand(0)),
    Fault(&[0xba, 0, 2, 0, 0], CodeFault::BadOperand(0)),
    Fault(&[0xb7, 0, 3], CodeFault::BadOperand(0)),
    Fault(&[0xb6, 0, 9], CodeFault::BadOperand(0)),
];

#[test]
fn codes(rt: HostRuntime) {
    assert_rows(&rt, "NAMES", NAMES);
    assert_rows(&rt, "INVOCATIONS", INVOCATIONS);
    assert_rows(&rt, "FAULTS", FAULTS);
    one_code();
    no_fault_in_a_code();
}

#[test]
fn lengths(rt: HostRuntime) {
    for opcode in 0..=255 {
        assert!(rt; Length(opcode).is_so(rt.alloc()), "opcode {opcode}");
        assert!(rt; Widened(opcode).is_so(rt.alloc()), "wide opcode {opcode}");
    }
}
