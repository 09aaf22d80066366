//! What follows the constant pool of a class file, as it lies there.

ghost use Rattle.std.specs.Prelude.{◌≡◌, ◌++◌, List, [], ◌∷◌, ℕ, IfOk, MatchOption, option_map};
ghost use Rattle.jl_classfile.specs.Layouts.{body_text, BodySized};
ghost use Rattle.jl_classfile.specs.CodeAttributes.{HoldsCode};
ghost use Rattle.jl_pool.specs.ForProofs.Fields.{Finds, number_at};
ghost use Rattle.jl_classfile.specs.ForProofs.Bodies.{Reads, items_at, counted_at, attribute_at, body_at, code_in};

use crate::fault::ClassFault;
use jl_names::{Seq, Text};
use jl_pool::{bytes_at, u2_at, u4_at};
use std::alloc::{AllocError, AllocFailed, Global};
use std::marker::Model;

/// An attribute (JVMS SE 17 §4.7): the number of its name, and its bytes.
#[derive(Drop)]
pub struct Attribute<'a> {
    pub name: u16,
    pub info: Text<'a>,
}

/// Attributes that are read when they are asked for: how many there are, and bytes that begin with them. A clause sees the
/// list of them.
#[derive(Drop)]
pub struct Attributes<'a> {
    count: u16,
    bytes: &'a [u8],
}

impl<'a> Model for Attributes<'a> {
    ghost use Rattle.std.specs.Prelude.{◌≡◌, List, true};
    ghost use Rattle.jl_classfile.specs.declared.body.Attribute.{Attribute};

    ghost Value = { List Attribute };

    ghost use Rattle.jl_classfile.specs.ForProofs.Bodies.{attributes_in, are_attributes};

    ghost view = { λ a. attributes_in a.count a.bytes.now };

    ghost invariant = { λ a. are_attributes a.count a.bytes.now ≡ true };
}

impl<'a> Attributes<'a> {
    /// A copy of the list, to go over it. Takes no memory.
    pub fn all(&self) -> Attributes<'a>
        ensures { result ≡ self.now }
    {
        Attributes {
            count: self.count,
            bytes: self.bytes,
        }
    }

    /// The first attribute and those after it, unless there is none.
    pub fn split_first(&self) -> Option<(Attribute<'a>, Attributes<'a>)>
        ensures { MatchOption result (self.now ≡ []) (λ x. self.now ≡ x.0 ∷ x.1) }
    {
        if self.count == 0 {
            return None;
        }
        let (attribute, bytes) = attribute_at(self.bytes)?;
        let count = self.count - 1;
        Some((attribute, Attributes { count, bytes }))
    }
}

/// A field or a method (§4.5, §4.6): its access flags, the numbers of its name and descriptor, and its attributes.
#[derive(Drop)]
pub struct Member<'a> {
    pub flags: u16,
    pub name: u16,
    pub descriptor: u16,
    pub attributes: Attributes<'a>,
}

/// What follows the constant pool (§4.1).
pub struct Body<'a> {
    pub flags: u16,
    pub this_class: u16,
    pub super_class: u16,
    pub interfaces: Seq<u16>,
    pub fields: Seq<Member<'a>>,
    pub methods: Seq<Member<'a>>,
    pub attributes: Attributes<'a>,
}

/// Written out, so that what drops one makes one call of it and doesn't take apart what it holds.
impl<'a> Drop for Body<'a> {
    fn drop(self) {
        let Body {
            flags: _flags,
            this_class: _this_class,
            super_class: _super_class,
            interfaces: _interfaces,
            fields: _fields,
            methods: _methods,
            attributes: _attributes,
        } = self;
    }
}

/// Why no whole part stands at the front.
#[derive(Clone, Copy)]
pub enum Broken {
    /// The bytes end before.
    Cut,
    /// Want of memory.
    Memory,
}

impl From<AllocError> for Broken {
    ghost use Rattle.jl_classfile.specs.declared.body.Broken.TheVariants.{Memory};

    ghost from_gives = { λ _ f. f ≡ Memory };

    fn from(_e: AllocError) -> Broken {
        Broken::Memory
    }
}

impl<T: Drop> From<AllocFailed<T>> for Broken {
    ghost use Rattle.jl_classfile.specs.declared.body.Broken.TheVariants.{Memory};

    ghost from_gives = { λ _ f. f ≡ Memory };

    fn from(_e: AllocFailed<T>) -> Broken {
        Broken::Memory
    }
}

impl From<Broken> for ClassFault {
    ghost use Rattle.jl_classfile.specs.ForProofs.Passes.{fault_of_broken};

    ghost from_gives = { λ broken f. f ≡ fault_of_broken broken };

    fn from(broken: Broken) -> ClassFault {
        match broken {
            Broken::Cut => ClassFault::Truncated,
            Broken::Memory => ClassFault::Memory,
        }
    }
}

/// What was found, or that the bytes end before.
fn whole<T>(found: Option<T>) -> Result<T, Broken>
    ensures { Reads (λ x. x) result found }
{
    match found {
        Some(found) => Ok(found),
        None => Err(Broken::Cut),
    }
}

/// An attribute, and what comes after it.
#[tactic(auto, unfolding(crate::specs::ForProofs::Bodies::attribute_at))]
fn attribute_at(bytes: &[u8]) -> Option<(Attribute<'_>, &[u8])>
    ensures { Finds (λ x. (x.0, x.1.now)) result (attribute_at bytes.now) }
{
    let (name, rest) = u2_at(bytes)?;
    let (len, rest) = u4_at(rest)?;
    let (info, rest) = bytes_at(len as usize, rest)?;
    let info = Text::of(info);
    Some((Attribute { name, info }, rest))
}

/// What is read one after another, after a count. An item takes two bytes or more.
trait Item<'a> {
    ghost use Rattle.std.specs.Prelude.{List, ℕ, Option};
    ghost use Rattle.jl_pool.specs.ForProofs.Fields.{Finds};

    ghost reader: { List ℕ → Option (Self × List ℕ) };

    /// The item at the front, and what comes after it.
    fn at(bytes: &'a [u8]) -> Option<(Self, &'a [u8])>
        ensures { Finds (λ x. (x.0, x.1.now)) result (reader bytes.now) };
}

impl<'a> Item<'a> for u16 {
    ghost use Rattle.jl_pool.specs.ForProofs.Fields.{number_at};

    ghost reader = { number_at 2 };

    fn at(bytes: &'a [u8]) -> Option<(u16, &'a [u8])> {
        u2_at(bytes)
    }
}

impl<'a> Item<'a> for Member<'a> {
    ghost use Rattle.jl_classfile.specs.ForProofs.Bodies.{member_at};

    ghost reader = { member_at };

    #[tactic(auto, unfolding(crate::specs::ForProofs::Bodies::member_at))]
    fn at(bytes: &'a [u8]) -> Option<(Member<'a>, &'a [u8])> {
        let (flags, rest) = u2_at(bytes)?;
        let (name, rest) = u2_at(rest)?;
        let (descriptor, rest) = u2_at(rest)?;
        let (attributes, rest) = attributes_at(rest)?;
        let member = Member {
            flags,
            name,
            descriptor,
            attributes,
        };
        Some((member, rest))
    }
}

/// As many items as `count` says, and what comes after them.
fn items_at<'a, T: Item<'a> + Drop>(
    alloc: Global,
    count: u16,
    bytes: &'a [u8],
) -> Result<(Seq<T>, &'a [u8]), Broken>
    ensures { Reads (λ x. (x.0, x.1.now)) result (items_at T.reader count bytes.now) }
{
    // If the bytes can't hold so many, no room is made for them.
    let room = usize::from(count).min(bytes.len() / 2);
    let mut items = Vec::with_capacity(alloc, room)?;
    let mut rest = bytes;
    'items: for _ in 0..count {
        let Some((item, after)) = T::at(rest) else {
            return Err(Broken::Cut);
        };
        items.push(item)?;
        rest = after;
    }
    Ok((Seq::of(items), rest))
}

/// Items after their count, and what comes after them.
pub fn counted_at<'a, T: Item<'a> + Drop>(
    alloc: Global,
    bytes: &'a [u8],
) -> Result<(Seq<T>, &'a [u8]), Broken>
    ensures { Reads (λ x. (x.0, x.1.now)) result (counted_at T.reader bytes.now) }
{
    let (count, rest) = whole(u2_at(bytes))?;
    items_at(alloc, count, rest)
}

/// What follows the pool, as it lies there, and what comes after that.
pub fn body_at<'a>(alloc: Global, bytes: &'a [u8]) -> Result<(Body<'a>, &'a [u8]), Broken>
    ensures read { Reads (λ x. (x.0, x.1.now)) result (body_at bytes.now) }
    ensures spelled { IfOk result (λ x. BodySized x.0 × (bytes.now ≡ body_text x.0 ++ x.1.now)) }
{
    read_body(alloc, bytes)
}

/// Reads what follows the pool, part after part.
#[tactic(auto, unfolding(crate::specs::ForProofs::Bodies::body_at))]
fn read_body<'a>(alloc: Global, bytes: &'a [u8]) -> Result<(Body<'a>, &'a [u8]), Broken>
    ensures { Reads (λ x. (x.0, x.1.now)) result (body_at bytes.now) }
{
    let (flags, rest) = whole(u2_at(bytes))?;
    let (this_class, rest) = whole(u2_at(rest))?;
    let (super_class, rest) = whole(u2_at(rest))?;
    let (interfaces, rest) = counted_at(alloc, rest)?;
    let (fields, rest) = counted_at(alloc, rest)?;
    let (methods, rest) = counted_at(alloc, rest)?;
    let (attributes, rest) = whole(attributes_at(rest))?;
    let body = Body {
        flags,
        this_class,
        super_class,
        interfaces,
        fields,
        methods,
        attributes,
    };
    Ok((body, rest))
}

/// The code that a Code attribute holds (§4.7.3): the parts fill the attribute, and the code has 1 to 65,535 bytes.
pub fn code_in(info: &[u8]) -> Option<&[u8]>
    ensures { MatchOption result ((code : List ℕ) → ¬ HoldsCode info.now code) (λ code. HoldsCode info.now code.now) }
{
    read_code(info)
}

/// Reads the code of a Code attribute, and all that follows it.
#[tactic(auto, unfolding(crate::specs::ForProofs::Bodies::code_in))]
fn read_code(info: &[u8]) -> Option<&[u8]>
    ensures { option_map (λ code. code.now) result ≡ code_in info.now }
{
    let (_max_stack, rest) = u2_at(info)?;
    let (_max_locals, rest) = u2_at(rest)?;
    let (len, rest) = u4_at(rest)?;
    if len == 0 || len > 65_535 {
        return None;
    }
    let (code, rest) = bytes_at(len as usize, rest)?;
    let (exceptions, rest) = u2_at(rest)?;
    let (_table, rest) = bytes_at(8 * usize::from(exceptions), rest)?;
    let (_attributes, rest) = attributes_at(rest)?;
    if rest.is_empty() { Some(code) } else { None }
}

/// Attributes after their count, and what comes after them.
fn attributes_at(bytes: &[u8]) -> Option<(Attributes<'_>, &[u8])>
    ensures { Finds (λ x. (x.0, x.1.now)) result (counted_at attribute_at bytes.now) }
{
    let (count, bytes) = u2_at(bytes)?;
    let rest = after_so_many(count, bytes)?;
    Some((Attributes { count, bytes }, rest))
}

/// What comes after so many attributes.
fn after_so_many(count: u16, bytes: &[u8]) -> Option<&[u8]>
    ensures { option_map (λ rest. rest.now) result ≡ option_map (λ x. x.1) (items_at attribute_at count bytes.now) }
{
    let mut rest = bytes;
    'attributes: for _ in 0..count {
        let Some((_attribute, after)) = attribute_at(rest) else {
            return None;
        };
        rest = after;
    }
    Some(rest)
}
