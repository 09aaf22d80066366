//! What a pool keeps of its constants.

ghost use Rattle.std.specs.Prelude.{◌≡◌, ◌+◌, ◌<◌, ◌≤◌, ◌^◌, length, drop, true, false};
ghost use Rattle.std.specs.Option.{option_and_then};
ghost use Rattle.byteorder.specs.Endian.{big_number};
ghost use Rattle.jl_pool.specs.Pools.{text_of};
ghost use Rattle.jl_pool.specs.ForProofs.Table.{shown, takes_two, kept_text, entry_at, form_in, is_within};

use crate::constant::Constant;
use crate::form::{Form, marks_of};
use byteorder::{BigEndian, ByteOrder};
use jl_names::{LentName, Name, Text};

/// What stands at a number of a pool. What is longer than two numbers stands in the block of the pool's bytes.
#[derive(Clone, Copy)]
pub enum KeptConstant {
    Nothing,
    /// Where the text begins, how many bytes it has, and what it may stand for.
    Utf8(u32, u16, Form),
    Integer(u32),
    Float(u32),
    /// Where the eight bytes of the value begin, here and in the next.
    Long(u32),
    Double(u32),
    Class(u16),
    String(u16),
    Fieldref(u16, u16),
    Methodref(u16, u16),
    InterfaceMethodref(u16, u16),
    NameAndType(u16, u16),
    MethodHandle(u8, u16),
    MethodType(u16),
    Dynamic(u16, u16),
    InvokeDynamic(u16, u16),
    Module(u16),
    Package(u16),
}

impl KeptConstant {
    /// Whether it takes two numbers (§4.4.5).
    pub(crate) fn takes_two(self) -> bool
        ensures { result ≡ takes_two self }
    {
        matches!(self, KeptConstant::Long(_) | KeptConstant::Double(_))
    }
}

/// What is kept of a constant, and whether it is a text with a byte that is no unit of modified UTF-8 by itself.
#[derive(Clone, Copy)]
pub(crate) struct Kept {
    pub entry: KeptConstant,
    pub odd: bool,
}

impl Kept {
    /// What is kept of a text whose bytes begin at this place of the block.
    pub(crate) fn of_text(text: &[u8], at: u32) -> Kept
        requires { length text.now < 2 ^ 16 }
        ensures { result ≡ kept_text text.now at }
    {
        let marks = marks_of(text);
        let form = Form::of(marks, text);
        Kept {
            entry: KeptConstant::Utf8(at, text.len() as u16, form),
            odd: marks.odd,
        }
    }

    /// What is kept of any other constant.
    pub(crate) fn of_no_text(entry: KeptConstant) -> Kept
        ensures { result ≡ record { entry = entry; odd = false } }
    {
        Kept { entry, odd: false }
    }
}

/// The constant of an entry.
pub(crate) fn constant_in(block: &[u8], entry: KeptConstant) -> Option<Constant<'_>>
    requires { is_within (length block.now) entry ≡ true }
    ensures { result ≡ shown block.now entry }
{
    match entry {
        KeptConstant::Nothing => None,
        KeptConstant::Utf8(at, len, _) => {
            let at = at as usize;
            Some(Constant::Utf8(Text::of(&block[at..at + usize::from(len)])))
        }
        KeptConstant::Integer(bits) => Some(Constant::Integer(bits)),
        KeptConstant::Float(bits) => Some(Constant::Float(bits)),
        KeptConstant::Long(at) => Some(Constant::Long(bits_in(block, at))),
        KeptConstant::Double(at) => Some(Constant::Double(bits_in(block, at))),
        KeptConstant::Class(name) => Some(Constant::Class(name)),
        KeptConstant::String(text) => Some(Constant::String(text)),
        KeptConstant::Fieldref(owner, signed) => Some(Constant::Fieldref(owner, signed)),
        KeptConstant::Methodref(owner, signed) => Some(Constant::Methodref(owner, signed)),
        KeptConstant::InterfaceMethodref(owner, signed) => {
            Some(Constant::InterfaceMethodref(owner, signed))
        }
        KeptConstant::NameAndType(name, ty) => Some(Constant::NameAndType(name, ty)),
        KeptConstant::MethodHandle(kind, reference) => Some(Constant::MethodHandle(
            kind, reference,
        )),
        KeptConstant::MethodType(ty) => Some(Constant::MethodType(ty)),
        KeptConstant::Dynamic(bootstrap, signed) => Some(Constant::Dynamic(bootstrap, signed)),
        KeptConstant::InvokeDynamic(bootstrap, signed) => Some(Constant::InvokeDynamic(
            bootstrap, signed,
        )),
        KeptConstant::Module(name) => Some(Constant::Module(name)),
        KeptConstant::Package(name) => Some(Constant::Package(name)),
    }
}

/// The number of eight bytes in the block from here on.
fn bits_in(block: &[u8], at: u32) -> u64
    requires { at + 8 ≤ length block.now }
    ensures { result ≡ big_number 8 (drop at block.now) }
{
    BigEndian::read_u64(&block[at as usize..])
}

/// What stands at a number: nothing past the last one.
pub(crate) fn entry_at(entries: &[KeptConstant], number: u16) -> KeptConstant
    ensures { result ≡ entry_at entries.now number }
{
    match entries.get(usize::from(number)) {
        Some(entry) => *entry,
        None => KeptConstant::Nothing,
    }
}

/// The text of an entry, if it is a Utf8.
pub(crate) fn text_in(block: &Name, entry: KeptConstant) -> Option<LentName<'_>>
    requires { is_within (length block.now) entry ≡ true }
    ensures { result ≡ option_and_then text_of (shown block.now entry) }
{
    match entry {
        KeptConstant::Utf8(at, len, _) => Some(LentName::within(
            block,
            at as usize,
            usize::from(len),
        )),
        _ => None,
    }
}

/// The form of the text of an entry, if it is a Utf8.
pub(crate) fn form_in(entry: KeptConstant) -> Option<Form>
    ensures { result ≡ form_in entry }
{
    match entry {
        KeptConstant::Utf8(_, _, form) => Some(form),
        _ => None,
    }
}
