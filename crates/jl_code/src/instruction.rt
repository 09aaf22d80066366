//! Instructions (JVMS SE 17 §6.5).

ghost use Rattle.std.specs.Prelude.{◌≡◌};
ghost use Rattle.jl_code.specs.Known.{plain_opcodes, invoke_rows};
ghost use Rattle.jl_code.specs.Instructions.{operands_in, tail_in, from_least};
ghost use Rattle.jl_pool.specs.ForProofs.Fields.{Finds};
ghost use Rattle.jl_code.specs.ForProofs.Instructions.{Gives, invocation_at, plain_at, fixed_at, wide_at, padding_at, head_at, table_switch_at};
ghost use Rattle.jl_code.specs.ForProofs.Instructions.{lookup_switch_at, instruction_at};

use jl_names::Text;
use jl_pool::{bytes_at, u2_at, u4_at};

/// An instruction as it stands in a code.
#[derive(Drop)]
pub enum Instruction<'a> {
    /// An opcode and its operand bytes.
    Plain(u8, Text<'a>),
    /// An opcode and its operand bytes, after a wide.
    Wide(u8, Text<'a>),
    /// An invocation: its opcode, the number of what it names, and the bytes after that.
    Invoke(u8, u16, Text<'a>),
    /// The padding, default, low and high, and the offsets.
    TableSwitch(Text<'a>, u32, u32, u32, Text<'a>),
    /// The padding, default, the number of pairs, and the pairs.
    LookupSwitch(Text<'a>, u32, u32, Text<'a>),
}

/// Why no instruction stands at the front.
#[derive(Clone, Copy)]
pub enum Stop {
    /// The bytes end before.
    Cut,
    /// No instruction begins so.
    Opcode,
    /// A switch whose numbers give it no size.
    Switch,
}

/// How many operand bytes an instruction of a fixed length has, invocations aside.
fn operand_count(opcode: u8) -> Option<u8>
    ensures { result ≡ operands_in plain_opcodes opcode }
{
    match opcode {
        0..=15 | 26..=53 | 59..=131 | 133..=152 | 172..=177 | 190..=191 | 194..=195 => Some(0),
        16 | 18 | 21..=25 | 54..=58 | 169 | 188 => Some(1),
        17 | 19..=20 | 132 | 153..=168 | 178..=181 | 187 | 189 | 192..=193 | 198..=199 => Some(2),
        197 => Some(3),
        200..=201 => Some(4),
        _ => None,
    }
}

/// How many bytes an invocation has after the number of what it names.
fn tail_count(opcode: u8) -> Option<u8>
    ensures { result ≡ tail_in invoke_rows opcode }
{
    match opcode {
        182..=184 => Some(0),
        185..=186 => Some(2),
        _ => None,
    }
}

/// An invocation, read from the bytes after its opcode; and what comes after it.
fn invocation_at(opcode: u8, tail: u8, bytes: &[u8]) -> Option<(Instruction<'_>, &[u8])>
    ensures { Finds (λ x. (x.0, x.1.now)) result (invocation_at opcode tail bytes.now) }
{
    let (number, rest) = u2_at(bytes)?;
    let (tail, rest) = bytes_at(usize::from(tail), rest)?;
    Some((Instruction::Invoke(opcode, number, Text::of(tail)), rest))
}

/// An instruction of a fixed length, read from the bytes after its opcode; and what comes after it.
fn plain_at(opcode: u8, count: u8, bytes: &[u8]) -> Option<(Instruction<'_>, &[u8])>
    ensures { Finds (λ x. (x.0, x.1.now)) result (plain_at opcode count bytes.now) }
{
    let (operands, rest) = bytes_at(usize::from(count), bytes)?;
    Some((Instruction::Plain(opcode, Text::of(operands)), rest))
}

/// An instruction that is no switch and no wide, read from the bytes after its opcode; and what comes after it.
#[tactic(auto, unfolding(crate::specs::ForProofs::Instructions::fixed_at))]
fn fixed_at(opcode: u8, bytes: &[u8]) -> Result<(Instruction<'_>, &[u8]), Stop>
    ensures { Gives (λ x. (x.0, x.1.now)) result (fixed_at opcode bytes.now) }
{
    if let Some(tail) = tail_count(opcode) {
        return invocation_at(opcode, tail, bytes).ok_or(Stop::Cut);
    }
    match operand_count(opcode) {
        Some(count) => plain_at(opcode, count, bytes).ok_or(Stop::Cut),
        None => Err(Stop::Opcode),
    }
}

/// The instruction that follows a wide, and what comes after it.
#[tactic(auto, unfolding(crate::specs::ForProofs::Instructions::wide_at))]
fn wide_at(bytes: &[u8]) -> Result<(Instruction<'_>, &[u8]), Stop>
    ensures { Gives (λ x. (x.0, x.1.now)) result (wide_at bytes.now) }
{
    let [opcode, rest @ ..] = bytes else {
        return Err(Stop::Cut);
    };
    let opcode = *opcode;
    let count = match opcode {
        21..=25 | 54..=58 | 169 => 2,
        132 => 4,
        _ => return Err(Stop::Opcode),
    };
    let Some((operands, rest)) = bytes_at(count, rest) else {
        return Err(Stop::Cut);
    };
    Ok((Instruction::Wide(opcode, Text::of(operands)), rest))
}

/// The padding of a switch up to a multiple of 4 from the code's start, its default, and low or the number of pairs; and what comes
/// after them.
#[tactic(auto, unfolding(crate::specs::ForProofs::Instructions::head_at, crate::specs::ForProofs::Instructions::padding_at))]
fn head_at(pc: u16, bytes: &[u8]) -> Option<((Text<'_>, u32, u32), &[u8])>
    ensures { Finds (λ x. (x.0, x.1.now)) result (head_at pc bytes.now) }
{
    let (padding, rest) = bytes_at(3 - usize::from(pc % 4), bytes)?;
    let (default, rest) = u4_at(rest)?;
    let (number, rest) = u4_at(rest)?;
    Some(((Text::of(padding), default, number), rest))
}

/// A number with sign, counted up from the least.
fn from_least(bits: u32) -> u32
    ensures { result ≡ from_least bits }
{
    if bits < 1 << 31 {
        bits + (1 << 31)
    } else {
        bits - (1 << 31)
    }
}

/// A tableswitch, read from the bytes after its opcode; and what comes after it.
#[tactic(auto, unfolding(crate::specs::ForProofs::Instructions::table_switch_at))]
fn table_switch_at(pc: u16, bytes: &[u8]) -> Result<(Instruction<'_>, &[u8]), Stop>
    ensures { Gives (λ x. (x.0, x.1.now)) result (table_switch_at pc bytes.now) }
{
    let Some(((padding, default, low), rest)) = head_at(pc, bytes) else {
        return Err(Stop::Cut);
    };
    let Some((high, rest)) = u4_at(rest) else {
        return Err(Stop::Cut);
    };
    let first = u64::from(from_least(low));
    let last = u64::from(from_least(high));
    if last < first {
        return Err(Stop::Switch);
    }
    let size = 4 * (last - first + 1);
    let Some((offsets, rest)) = bytes_at(size as usize, rest) else {
        return Err(Stop::Cut);
    };
    let switch = Instruction::TableSwitch(padding, default, low, high, Text::of(offsets));
    Ok((switch, rest))
}

/// A lookupswitch, read from the bytes after its opcode; and what comes after it.
#[tactic(auto, unfolding(crate::specs::ForProofs::Instructions::lookup_switch_at))]
fn lookup_switch_at(pc: u16, bytes: &[u8]) -> Result<(Instruction<'_>, &[u8]), Stop>
    ensures { Gives (λ x. (x.0, x.1.now)) result (lookup_switch_at pc bytes.now) }
{
    let Some(((padding, default, count), rest)) = head_at(pc, bytes) else {
        return Err(Stop::Cut);
    };
    if count >= 1 << 31 {
        return Err(Stop::Switch);
    }
    let size = 8 * u64::from(count);
    let Some((pairs, rest)) = bytes_at(size as usize, rest) else {
        return Err(Stop::Cut);
    };
    let switch = Instruction::LookupSwitch(padding, default, count, Text::of(pairs));
    Ok((switch, rest))
}

/// The instruction at the front, at a place of its code, and what comes after it.
#[tactic(auto, unfolding(crate::specs::ForProofs::Instructions::instruction_at))]
pub fn instruction_at(pc: u16, bytes: &[u8]) -> Result<(Instruction<'_>, &[u8]), Stop>
    ensures { Gives (λ x. (x.0, x.1.now)) result (instruction_at pc bytes.now) }
{
    let [opcode, rest @ ..] = bytes else {
        return Err(Stop::Cut);
    };
    match *opcode {
        170 => table_switch_at(pc, rest),
        171 => lookup_switch_at(pc, rest),
        196 => wide_at(rest),
        opcode => fixed_at(opcode, rest),
    }
}
