//! The constant pool.

ghost use Rattle.std.specs.Prelude.{◌≡◌, ◌==◌, ◌≢◌, ◌+◌, ◌<◌, ◌≤◌, ◌^◌, ◌++◌, [], ◌∷◌, length, Option, option_map, Result, List, ℕ, IfOk, IfErr, true, false};
ghost use Rattle.std.specs.List.{flat_map};
ghost use Rattle.jl_pool.specs.declared.constant.Constant.{Constant};
ghost use Rattle.std.specs.Option.{option_and_then, unwrap_or};
ghost use Rattle.jl_pool.specs.Numbers.{u2};
ghost use Rattle.jl_pool.specs.Pools.{places, pool_text, HaveTexts, IsSoundPool, text_at, descriptor_at, has_tag};
ghost use Rattle.jl_pool.specs.Constants.{constant_text};
ghost use Rattle.jl_pool.specs.declared.pool_fault.PoolFault.{PoolFault};
ghost use Rattle.jl_pool.specs.declared.pool_fault.PoolFault.TheVariants.{Memory};
ghost use Rattle.jl_pool.specs.Faults.{PoolStands, IsPoolFault};
ghost use Rattle.jl_pool.specs.ForProofs.Constants.{Gives, is_known, is_wide, of_bits, of_number, of_pair, payload_at, constant_at};
ghost use Rattle.jl_pool.specs.ForProofs.Entries.{BeginsText};
ghost use Rattle.jl_pool.specs.ForProofs.Fields.{Finds};
ghost use Rattle.jl_pool.specs.ForProofs.Forms.{form_of};
ghost use Rattle.jl_pool.specs.ForProofs.Table.{with_second, IsTable, Shows, entry_of, wide_entry, keep, keep_read};

use crate::bytes::{handle_at, pair_at, text_at, u2_at, u4_at, u8_at};
use crate::constant::Constant;
use crate::form::Form;
use crate::kept_constant::{Kept, KeptConstant, constant_in, entry_at, form_in, text_in};
use crate::pool_fault::PoolFault;
use crate::reference::{CallSiteSpecifier, Reference};
use jl_names::{LentName, Name, is_text};
use std::alloc::{AllocError, Global};
use std::fmt;
use std::marker::Model;

/// The constants of a class file (JVMS SE 17 §4.4). A clause sees them by number.
///
/// It keeps the bytes of its constants in one block. For each number it keeps what stands there, or where that stands in the
/// block.
pub struct Pool {
    block: Name,
    entries: Vec<KeptConstant>,
}

/// How many numbers there are, and not each constant.
impl fmt::Debug for Pool {
    fn fmt<W: fmt::Write>(&self, f: &mut fmt::Formatter<W>) -> fmt::Result {
        f.debug_struct("Pool")
            .field("len", &self.entries.len())
            .finish()
    }
}

/// Written out, so that what drops one makes one call of it and doesn't take apart what it holds.
impl Drop for Pool {
    fn drop(self) {
        let Pool {
            block: _block,
            entries: _entries,
        } = self;
    }
}

impl Model for Pool {
    ghost use Rattle.std.specs.Prelude.{List, Option};
    ghost use Rattle.jl_pool.specs.declared.constant.Constant.{Constant};
    ghost use Rattle.jl_pool.specs.ForProofs.Table.{pool_of, IsKept};

    ghost Value = { List (Option Constant) };

    ghost view = { λ p. pool_of p.block p.entries.items };

    ghost invariant = { λ p. IsKept p.block p.entries.items };
}

impl Pool {
    ghost use Rattle.std.specs.Prelude.{MatchOption, IfSome};
    ghost use Rattle.std.specs.Option.{IsSomeAnd};
    ghost use Rattle.jl_names.specs.MethodTypes.{IsMethodDescriptor, TakesSlots};
    ghost use Rattle.jl_pool.specs.Pools.{places, pool_text, IsSoundPool, constant_at as standing_at, named_descriptor, class_text_at, class_at};
    ghost use Rattle.jl_pool.specs.Pools.{both, signed_at, reference, reference_at, call_site_at};
    ghost use Rattle.jl_pool.specs.ForProofs.Forms.{signed_names};
    ghost use Rattle.jl_pool.specs.Faults.{PoolStands, IsPoolFault};

    /// The pool at the front, from its count on, and how many bytes it takes. More bytes may follow.
    ///
    /// # Errors
    ///
    /// In the order in which they are looked for (JVMS SE 17 §4.4). A number is that of the first such entry. `BadTag` and
    /// `Truncated` are looked for entry by entry.
    ///
    /// - `BadTag`: the tag is unknown; or a Long's or a Double's second number isn't below the count (§4.4.5); or the
    ///   count is 0, and then the number is 0.
    /// - `Truncated`: the bytes end before the pool does.
    /// - `BadUtf8`: a Utf8 is no modified UTF-8 (§4.4.7).
    /// - `BadIndex`: the entry names a number at which nothing of the right kind stands. Each text is good.
    /// - `BadDescriptor`: the entry names a text that is no class name or descriptor of the right kind (§4.2.1, §4.3).
    ///   Each text and each number is good.
    /// - `Memory`: want of memory, at any time.
    pub fn read(alloc: Global, bytes: &[u8]) -> Result<(Pool, usize), PoolFault>
        ensures ok { IfOk result (λ x. (cs : List Constant) × (left : List ℕ) × PoolStands bytes.now cs left
            × IsSoundPool cs × (x.0 ≡ places cs) × (x.1 ≡ length (pool_text cs))) }
        ensures fault { IfErr result (IsPoolFault bytes.now) }
    {
        let (pool, used, bad) = pool_at(alloc, bytes)?;
        pool.check(bad)?;
        Ok((pool, used))
    }

    /// How many numbers it has, and number 0 with them: fewer than 65,536.
    pub fn len(&self) -> usize
        ensures length { result ≡ length self.now }
        ensures few { result < 2 ^ 16 }
    {
        self.entries.len()
    }

    /// Whether it has no number, not even 0.
    pub fn is_empty(&self) -> bool
        ensures { result ≡ (length self.now == 0) }
    {
        self.len() == 0
    }

    /// How many numbers it has, and number 0 with them, in 16 bits.
    pub(crate) fn count(&self) -> u16
        ensures { result ≡ length self.now }
    {
        self.len() as u16
    }

    /// The constant at a number. None stands at number 0, nor at the second number of a Long or a Double (§4.4.5).
    pub fn constant(&self, number: u16) -> Option<Constant<'_>>
        ensures { result ≡ standing_at self.now number }
    {
        constant_in(self.block.as_slice(), entry_at(&self.entries, number))
    }

    /// What is kept of what stands at a number.
    pub(crate) fn entry(&self, number: u16) -> KeptConstant
        ensures { Shows result (standing_at self.now number) }
    {
        entry_at(&self.entries, number)
    }

    /// The text of the Utf8 at a number.
    pub fn utf8(&self, number: u16) -> Option<LentName<'_>>
        ensures { result ≡ text_at self.now number }
    {
        text_in(&self.block, entry_at(&self.entries, number))
    }

    /// The text of the Utf8 at a number, or the empty text if no Utf8 stands there.
    pub fn text_or_nothing(&self, number: u16) -> LentName<'_>
        ensures { result ≡ unwrap_or (text_at self.now number) [] }
    {
        match self.utf8(number) {
            Some(text) => text,
            None => LentName::within(&self.block, 0, 0),
        }
    }

    /// What the text of the Utf8 at a number may stand for.
    pub fn form(&self, number: u16) -> Option<Form>
        ensures { result ≡ option_map form_of (text_at self.now number) }
    {
        form_in(entry_at(&self.entries, number))
    }

    /// The text of the Class at a number: a class name, or an array's descriptor.
    pub fn class_text(&self, number: u16) -> Option<LentName<'_>>
        ensures { result ≡ class_text_at self.now number }
    {
        match self.entry(number) {
            KeptConstant::Class(name) => self.utf8(name),
            _ => None,
        }
    }

    /// The name of the Class at a number, if it is no array's.
    #[tactic(auto, unfolding(crate::specs::ForProofs::Forms::form_of))]
    pub fn class_name(&self, number: u16) -> Option<LentName<'_>>
        ensures { result ≡ class_at self.now number }
    {
        match self.entry(number) {
            KeptConstant::Class(name) => match self.form(name) {
                Some(form) if form.class_name => self.utf8(name),
                _ => None,
            },
            _ => None,
        }
    }

    /// The name and the descriptor of the NameAndType at a number.
    fn signed(&self, number: u16) -> Option<(LentName<'_>, LentName<'_>)>
        ensures { option_map signed_names result ≡ signed_at self.now number }
    {
        match self.entry(number) {
            KeptConstant::NameAndType(name, ty) => Some((self.utf8(name)?, self.utf8(ty)?)),
            _ => None,
        }
    }

    /// The method of a class with a name and descriptor.
    fn reference(&self, itf: bool, owner: u16, signed: u16) -> Option<Reference<LentName<'_>>>
        ensures { result ≡ both (reference itf) (class_text_at self.now owner) (signed_at self.now signed) }
    {
        let owner = self.class_text(owner)?;
        let (name, ty) = self.signed(signed)?;
        Some(Reference {
            itf,
            owner,
            name,
            ty,
        })
    }

    /// The method that the Methodref or InterfaceMethodref at a number names.
    pub fn method_ref(&self, number: u16) -> Option<Reference<LentName<'_>>>
        ensures { result ≡ reference_at self.now number }
    {
        match self.entry(number) {
            KeptConstant::Methodref(owner, signed) => self.reference(false, owner, signed),
            KeptConstant::InterfaceMethodref(owner, signed) => {
                self.reference(true, owner, signed)
            }
            _ => None,
        }
    }

    /// The call site that the InvokeDynamic at a number gives.
    pub fn dynamic(&self, number: u16) -> Option<CallSiteSpecifier<LentName<'_>>>
        ensures { result ≡ call_site_at self.now number }
    {
        match self.entry(number) {
            KeptConstant::InvokeDynamic(bootstrap, signed) => {
                let (name, ty) = self.signed(signed)?;
                Some(CallSiteSpecifier {
                    bootstrap,
                    name,
                    ty,
                })
            }
            _ => None,
        }
    }

    /// Whether an entry of this tag stands at a number.
    pub fn has_tag(&self, tag: u8, number: u16) -> bool
        ensures { result ≡ has_tag self.now (tag ∷ []) number }
    {
        match self.entry(number) {
            KeptConstant::Nothing => false,
            KeptConstant::Utf8(_, _, _) => tag == 1,
            KeptConstant::Integer(_) => tag == 3,
            KeptConstant::Float(_) => tag == 4,
            KeptConstant::Long(_) => tag == 5,
            KeptConstant::Double(_) => tag == 6,
            KeptConstant::Class(_) => tag == 7,
            KeptConstant::String(_) => tag == 8,
            KeptConstant::Fieldref(_, _) => tag == 9,
            KeptConstant::Methodref(_, _) => tag == 10,
            KeptConstant::InterfaceMethodref(_, _) => tag == 11,
            KeptConstant::NameAndType(_, _) => tag == 12,
            KeptConstant::MethodHandle(_, _) => tag == 15,
            KeptConstant::MethodType(_) => tag == 16,
            KeptConstant::Dynamic(_, _) => tag == 17,
            KeptConstant::InvokeDynamic(_, _) => tag == 18,
            KeptConstant::Module(_) => tag == 19,
            KeptConstant::Package(_) => tag == 20,
        }
    }

    /// The slots of the parameters of the method or the call site that the entry at a number names. None if it names
    /// neither, or if no method has that descriptor (§4.3.3).
    pub fn slots(&self, number: u16) -> Option<u8>
        ensures { MatchOption result (IfSome (named_descriptor self.now number) (λ ty. ¬ IsMethodDescriptor ty))
            (λ n. (n ≤ 255) × IsSomeAnd (named_descriptor self.now number) (λ ty. TakesSlots ty n)) }
    {
        slots_of(self.named_form(number))
    }

    /// The form of the descriptor of the method or the call site that the entry at a number names.
    fn named_form(&self, number: u16) -> Option<Form>
        ensures { result ≡ option_map form_of (named_descriptor self.now number) }
    {
        match self.entry(number) {
            KeptConstant::Methodref(_, signed) => self.descriptor_form(signed),
            KeptConstant::InterfaceMethodref(_, signed) => self.descriptor_form(signed),
            KeptConstant::InvokeDynamic(_, signed) => self.descriptor_form(signed),
            _ => None,
        }
    }

    /// The form of the descriptor of the NameAndType at a number.
    pub(crate) fn descriptor_form(&self, number: u16) -> Option<Form>
        ensures { result ≡ option_map form_of (descriptor_at self.now number) }
    {
        match self.entry(number) {
            KeptConstant::NameAndType(_, ty) => self.form(ty),
            _ => None,
        }
    }
}

/// The slots of a method's descriptor, if the form is there.
fn slots_of(form: Option<Form>) -> Option<u8>
    ensures { result ≡ option_and_then (λ f. f.slots) form }
{
    match form {
        Some(form) => form.slots,
        None => None,
    }
}

/// Bytes begin with one pool at most, so the pool tells where it ends.
pub fn one_pool()
    ensures { (text : List ℕ) (cs ds : List Constant) (x y : List ℕ) → PoolStands text cs x → PoolStands text ds y → (cs ≡ ds) × (x ≡ y) }
{}

/// No pool has a fault.
pub fn no_fault_in_a_pool()
    ensures { (text : List ℕ) (cs : List Constant) (left : List ℕ) (fault : PoolFault) → PoolStands text cs left → IsSoundPool cs → fault ≢ Memory
        → ¬ IsPoolFault text fault }
{}

/// Why no constant stands at the front.
#[derive(Clone, Copy)]
pub enum Stop {
    /// The bytes end before.
    Cut,
    /// No constant of this tag may stand there.
    Tag,
}

/// Whether a constant has this tag.
fn is_known(tag: u8) -> bool
    ensures { result ≡ is_known tag }
{
    matches!(tag, 1 | 3..=12 | 15..=20)
}

/// Whether a constant of this tag takes two numbers.
fn is_wide(tag: u8) -> bool
    ensures { result ≡ is_wide tag }
{
    matches!(tag, 5 | 6)
}

/// What is kept of the constant of this tag, which begins at this place of the block, and what comes after it. The bytes begin
/// after the tag.
#[tactic(auto, unfolding(crate::specs::ForProofs::Constants::payload_at))]
fn payload_at(tag: u8, start: u32, bytes: &[u8]) -> Option<(Kept, &[u8])>
    requires { start + 3 < 2 ^ 32 }
    ensures { Finds (λ x. (x.0, x.1.now)) result (option_map (keep start) (payload_at tag bytes.now)) }
{
    match tag {
        1 => {
            let (text, rest) = text_at(bytes)?;
            Some((Kept::of_text(text, start + 3), rest))
        }
        3 | 4 => {
            let (bits, rest) = u4_at(bytes)?;
            Some((Kept::of_no_text(of_bits(tag, bits)), rest))
        }
        5 | 6 => {
            let (_, rest) = u8_at(bytes)?;
            Some((Kept::of_no_text(of_wide_bits(tag, start + 1)), rest))
        }
        7 | 8 | 16 | 19 | 20 => {
            let (number, rest) = u2_at(bytes)?;
            Some((Kept::of_no_text(of_number(tag, number)), rest))
        }
        9..=12 | 17 | 18 => {
            let ((first, second), rest) = pair_at(bytes)?;
            Some((Kept::of_no_text(of_pair(tag, first, second)), rest))
        }
        15 => {
            let ((kind, reference), rest) = handle_at(bytes)?;
            Some((
                Kept::of_no_text(KeptConstant::MethodHandle(kind, reference)),
                rest,
            ))
        }
        _ => None,
    }
}

/// An Integer or a Float, by its tag.
fn of_bits(tag: u8, bits: u32) -> KeptConstant
    ensures { result ≡ entry_of (of_bits tag bits) 0 }
{
    match tag {
        3 => KeptConstant::Integer(bits),
        _ => KeptConstant::Float(bits),
    }
}

/// A Long or a Double whose value begins at this place of the block, by its tag.
fn of_wide_bits(tag: u8, at: u32) -> KeptConstant
    ensures { result ≡ wide_entry tag at }
{
    match tag {
        5 => KeptConstant::Long(at),
        _ => KeptConstant::Double(at),
    }
}

/// An entry of one number, by its tag.
fn of_number(tag: u8, number: u16) -> KeptConstant
    ensures { result ≡ entry_of (of_number tag number) 0 }
{
    match tag {
        7 => KeptConstant::Class(number),
        8 => KeptConstant::String(number),
        16 => KeptConstant::MethodType(number),
        19 => KeptConstant::Module(number),
        _ => KeptConstant::Package(number),
    }
}

/// An entry of two numbers, by its tag.
fn of_pair(tag: u8, first: u16, second: u16) -> KeptConstant
    ensures { result ≡ entry_of (of_pair tag (first, second)) 0 }
{
    match tag {
        9 => KeptConstant::Fieldref(first, second),
        10 => KeptConstant::Methodref(first, second),
        11 => KeptConstant::InterfaceMethodref(first, second),
        12 => KeptConstant::NameAndType(first, second),
        17 => KeptConstant::Dynamic(first, second),
        _ => KeptConstant::InvokeDynamic(first, second),
    }
}

/// What is kept of the constant at the front, which begins at this place of the block, and what comes after it. If it has the
/// last number, it may take no second one.
#[tactic(auto, unfolding(crate::specs::ForProofs::Constants::constant_at))]
fn kept_at(last: bool, start: u32, bytes: &[u8]) -> Result<(Kept, &[u8]), Stop>
    requires { start + 3 < 2 ^ 32 }
    ensures { Gives (λ x. (x.0, x.1.now)) result (keep_read start (constant_at last bytes.now)) }
{
    match bytes {
        [] => Err(Stop::Cut),
        [tag, rest @ ..] => {
            let tag = *tag;
            if !is_known(tag) || (last && is_wide(tag)) {
                return Err(Stop::Tag);
            }
            match payload_at(tag, start, rest) {
                Some(found) => Ok(found),
                None => Err(Stop::Cut),
            }
        }
    }
}

/// Adds an entry, at its numbers, and answers how many it takes.
fn push_entry(entries: &mut Vec<KeptConstant>, entry: KeptConstant) -> Result<u16, PoolFault>
    ensures ok { IfOk result (λ n. (n ≡ length (with_second entry)) × (entries.new.items ≡ entries.old.items ++ with_second entry)) }
    ensures fault { IfErr result (λ f. f ≡ PoolFault.Memory) }
{
    entries.push(entry)?;
    if entry.takes_two() {
        entries.push(KeptConstant::Nothing)?;
        return Ok(2);
    }
    Ok(1)
}

/// Whether these bytes begin with a text that has an odd byte and is no modified UTF-8.
fn is_bad_text(odd: bool, bytes: &[u8]) -> bool
    ensures { result ≡ false → odd ≡ true → BeginsText bytes.now }
{
    match bytes {
        [_, rest @ ..] if odd => match text_at(rest) {
            Some((text, _)) => !is_text(text),
            None => true,
        },
        _ => odd,
    }
}

/// What is kept of the constants by number, whether one of the texts is no modified UTF-8, and what comes after the constants. The
/// block begins with the bytes.
fn constants_at(
    alloc: Global,
    count: u16,
    bytes: &[u8],
) -> Result<(Vec<KeptConstant>, bool, &[u8]), PoolFault>
    requires { 1 ≤ count }
    ensures ok { IfOk result (λ x. (cs : List Constant) × PoolStands (u2 count ++ bytes.now) cs x.2.now × (bytes.now ≡ flat_map constant_text cs ++ x.2.now)
        × IsTable (flat_map constant_text cs) x.0.items cs × (x.1 ≡ false → HaveTexts cs)) }
    ensures fault { IfErr result (IsPoolFault (u2 count ++ bytes.now)) }
{
    let mut entries = Vec::with_capacity(alloc, usize::from(count))?;
    entries.push(KeptConstant::Nothing)?;
    let mut bad = false;
    let mut place = 1;
    let mut rest = bytes;
    while place < count {
        let start = (bytes.len() - rest.len()) as u32;
        match kept_at(place + 1 == count, start, rest) {
            Ok((kept, after)) => {
                place += push_entry(&mut entries, kept.entry)?;
                bad |= is_bad_text(kept.odd, rest);
                rest = after;
            }
            Err(Stop::Cut) => return Err(PoolFault::Truncated),
            Err(Stop::Tag) => return Err(PoolFault::BadTag(place)),
        }
    }
    Ok((entries, bad, rest))
}

/// The pool at the front by its layout alone, how many bytes it takes, and whether one of its texts is no modified UTF-8.
fn pool_at(alloc: Global, bytes: &[u8]) -> Result<(Pool, usize, bool), PoolFault>
    ensures ok { IfOk result (λ x. (cs : List Constant) × (left : List ℕ) × PoolStands bytes.now cs left × (x.0 ≡ places cs) × (x.1 ≡ length (pool_text cs))
        × (x.2 ≡ false → HaveTexts cs)) }
    ensures fault { IfErr result (IsPoolFault bytes.now) }
{
    let Some((count, rest)) = u2_at(bytes) else {
        return Err(PoolFault::Truncated);
    };
    if count == 0 {
        return Err(PoolFault::BadTag(0));
    }
    let (entries, bad, after) = constants_at(alloc, count, rest)?;
    let used = rest.len() - after.len();
    let block = Name::copied(alloc, &rest[..used])?;
    Ok((Pool { block, entries }, used + 2, bad))
}
