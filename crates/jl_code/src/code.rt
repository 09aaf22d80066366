//! The invocations in a code (JVMS SE 17 §4.7.3, §4.9).

ghost use Rattle.std.specs.Prelude.{◌≡◌, ◌≢◌, ◌<◌, ◌^◌, ◌++◌, List, ℕ, length, IfOk, OnOk, IfErr, false};
ghost use Rattle.std.specs.Prelude.{option_to_list};
ghost use Rattle.std.specs.Option.{option_and_then};
ghost use Rattle.std.specs.Str.{bytes_eq};
ghost use Rattle.jl_code.specs.declared.instruction.Instruction.{Instruction};
ghost use Rattle.jl_pool.specs.Pools.{Pool, text_at, signed_at};
ghost use Rattle.jl_pool.specs.ForProofs.Forms.{method_slots};
ghost use Rattle.jl_code.specs.declared.code_fault.CodeFault.{CodeFault};
ghost use Rattle.jl_code.specs.declared.code_fault.CodeFault.TheVariants.{Memory};
ghost use Rattle.jl_class.specs.declared.site.KeptSite.{KeptSite};
ghost use Rattle.jl_code.specs.Kept.{IsKeptOf, Adds};
ghost use Rattle.jl_code.specs.Codes.{kind_of, may_name, most_slots, tail_of, site_at, sites_from, OperandFits, IsCode};
ghost use Rattle.jl_class.specs.Special.{begins_special};
ghost use Rattle.jl_code.specs.Faults.{IsScanFault};
ghost use Rattle.jl_code.specs.ForProofs.Sites.{may_name_tag, signed_fits, names_method, is_invoked, IsSiteFault};

use crate::code_fault::CodeFault;
use crate::instruction::{Instruction, Stop, instruction_at};
use crate::plain::after_plain;
use jl_class::{KeptSite, Kind, begins_special};
use jl_pool::{Constant, Pool};

/// The kind of an invocation.
fn kind_of(opcode: u8) -> Kind
    ensures { result ≡ kind_of opcode }
{
    match opcode {
        182 => Kind::Virtual,
        183 => Kind::Special,
        184 => Kind::Static,
        185 => Kind::Interface,
        _ => Kind::Dynamic,
    }
}

/// Whether an invocation may name an entry of this tag (JVMS SE 17 §4.9.1).
fn may_name_tag(opcode: u8, tag: u8) -> bool
    ensures { result ≡ may_name_tag opcode tag }
{
    match opcode {
        182 => tag == 10,
        183 | 184 => tag == 10 || tag == 11,
        185 => tag == 11,
        186 => tag == 18,
        _ => false,
    }
}

/// Whether an invocation may name something of this name. Of the names that begin with `<` only `<init>` may be named, by
/// invokespecial.
fn may_name(opcode: u8, name: &[u8]) -> bool
    ensures { result ≡ may_name opcode name.now }
{
    !begins_special(name) || (opcode == 183 && name == b"<init>".as_slice())
}

/// The most slots of parameters: a receiver takes one of 255.
fn most_slots(opcode: u8) -> u8
    ensures { result ≡ most_slots opcode }
{
    if opcode == 184 || opcode == 186 {
        255
    } else {
        254
    }
}

/// Whether the bytes after the number are as they have to be. invokeinterface tells the slots with the receiver's, and then
/// has a zero. invokedynamic has two zeros. The others have no such bytes.
fn tail_fits(opcode: u8, slots: u8, tail: &[u8]) -> bool
    ensures { result ≡ bytes_eq tail.now (tail_of opcode slots) }
{
    match opcode {
        185 => match tail {
            [count, zero] => u16::from(*count) == u16::from(slots) + 1 && *zero == 0,
            _ => false,
        },
        186 => tail == [0, 0].as_slice(),
        _ => tail.is_empty(),
    }
}

/// The slots of the parameters of the method descriptor at a number.
fn slots_at(pool: &Pool, number: u16) -> Option<u8>
    ensures { result ≡ option_and_then method_slots (text_at pool.now number) }
{
    match pool.form(number) {
        Some(form) => form.slots,
        None => None,
    }
}

/// Whether an invocation may name something of the name and type at a number, with these bytes after its own number.
fn signed_fits(pool: &Pool, opcode: u8, number: u16, tail: &[u8]) -> bool
    ensures { result ≡ signed_fits opcode tail.now (signed_at pool.now number) }
{
    match pool.constant(number) {
        Some(Constant::NameAndType(name, ty)) => match (pool.utf8(name), slots_at(pool, ty)) {
            (Some(name), Some(slots)) => {
                may_name(opcode, name.as_slice())
                    && slots <= most_slots(opcode)
                    && tail_fits(opcode, slots, tail)
            }
            _ => false,
        },
        _ => false,
    }
}

/// Whether an invocation may name a method of the class and of the name and type at these numbers.
fn names_method(pool: &Pool, opcode: u8, owner: u16, signed: u16, tail: &[u8]) -> bool
    ensures { result ≡ names_method pool.now opcode tail.now owner signed }
{
    pool.class_text(owner).is_some() && signed_fits(pool, opcode, signed, tail)
}

/// Whether an invocation may name what the entry at a number names, with these bytes after the number.
fn is_invoked(pool: &Pool, opcode: u8, number: u16, tail: &[u8]) -> bool
    ensures { result ≡ is_invoked pool.now opcode number tail.now }
{
    match pool.constant(number) {
        Some(Constant::Methodref(owner, signed)) => {
            may_name_tag(opcode, 10) && names_method(pool, opcode, owner, signed, tail)
        }
        Some(Constant::InterfaceMethodref(owner, signed)) => {
            may_name_tag(opcode, 11) && names_method(pool, opcode, owner, signed, tail)
        }
        Some(Constant::InvokeDynamic(_, signed)) => {
            may_name_tag(opcode, 18) && signed_fits(pool, opcode, signed, tail)
        }
        _ => false,
    }
}

/// The site of an instruction, if it is an invocation.
fn site_of(
    pool: &Pool,
    pc: u16,
    instruction: &Instruction<'_>,
) -> Result<Option<KeptSite>, CodeFault>
    ensures ok { IfOk result (λ site. OperandFits pool.now instruction.now × IsKeptOf pool.now (option_to_list site) (site_at pool.now pc instruction.now)) }
    ensures fault { IfErr result (IsSiteFault pool.now pc instruction.now) }
{
    match instruction {
        Instruction::Invoke(opcode, number, tail) => {
            if !is_invoked(pool, *opcode, *number, tail.as_bytes()) {
                return Err(CodeFault::BadOperand(pc));
            }
            let kind = kind_of(*opcode);
            let number = *number;
            Ok(Some(KeptSite { pc, kind, number }))
        }
        _ => Ok(None),
    }
}

/// Adds to `sites` what is kept of the invocations of a code (JVMS SE 17 §4.7.3, §4.9), in order, each at its place in bytes from the
/// code's start. The code takes fewer than 65,536 bytes, as a Code attribute has.
///
/// # Errors
///
/// An error adds nothing. It is `Memory`, or one of these, which tells the place up to which there are whole instructions:
///
/// - `BadOpcode`: no instruction begins so.
/// - `BadSwitch`: the bounds or the number of pairs of a switch can't be.
/// - `CutShort`: the bytes end within the instruction.
/// - `BadOperand`: the invocation may not name what it names.
///
/// It is never `BadLayout`.
pub fn scan(code: &[u8], pool: &Pool, sites: &mut Vec<KeptSite>) -> Result<(), CodeFault>
    requires { length code.now < 2 ^ 16 }
    ensures ok { OnOk result ((is : List Instruction) × IsCode pool.now code.now is
        × Adds pool.now sites.old.items sites.new.items (sites_from pool.now 0 is)) }
    ensures fault { IfErr result (IsScanFault pool.now code.now) }
    ensures unchanged { IfErr result (λ fault. sites.new.items ≡ sites.old.items) }
{
    let before = sites.len();
    match scan_onto(code, pool, sites) {
        Ok(()) => Ok(()),
        Err(fault) => {
            sites.truncate(before);
            Err(fault)
        }
    }
}

/// Adds to `sites` what is kept of the invocations of a code, as `scan` does. An error may have added some.
fn scan_onto(code: &[u8], pool: &Pool, sites: &mut Vec<KeptSite>) -> Result<(), CodeFault>
    requires { length code.now < 2 ^ 16 }
    ensures ok { OnOk result ((is : List Instruction) × IsCode pool.now code.now is
        × Adds pool.now sites.old.items sites.new.items (sites_from pool.now 0 is)) }
    ensures fault { IfErr result (IsScanFault pool.now code.now) }
    ensures later { (made : List KeptSite) × (sites.new.items ≡ sites.old.items ++ made) }
{
    let mut rest = after_plain(code);
    while !rest.is_empty() {
        let pc = (code.len() - rest.len()) as u16;
        match instruction_at(pc, rest) {
            Ok((instruction, after)) => {
                if let Some(site) = site_of(pool, pc, &instruction)? {
                    sites.push(site)?;
                }
                rest = after_plain(after);
            }
            Err(Stop::Cut) => return Err(CodeFault::CutShort(pc)),
            Err(Stop::Opcode) => return Err(CodeFault::BadOpcode(pc)),
            Err(Stop::Switch) => return Err(CodeFault::BadSwitch(pc)),
        }
    }
    Ok(())
}

/// Bytes are one code at most.
pub fn one_code()
    ensures { (pool : Pool) (bytes : List ℕ) (is js : List Instruction) → IsCode pool bytes is → IsCode pool bytes js → is ≡ js }
{}

/// No code has a fault.
pub fn no_fault_in_a_code()
    ensures { (pool : Pool) (bytes : List ℕ) (is : List Instruction) (fault : CodeFault) → IsCode pool bytes is → fault ≢ Memory
        → ¬ IsScanFault pool bytes fault }
{}
