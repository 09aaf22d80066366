//! Method descriptors (JVMS SE 17 §4.3.3).

ghost use Rattle.std.specs.Prelude.{◌≡◌, ◌≢◌, ◌<◌, ◌≤◌, ◌∷◌, List, ℕ, option_map};
ghost use Rattle.std.specs.Prelude.{IfOk, IfErr, IfSome, IfNone, MatchOption};
ghost use Rattle.std.specs.List.{sum_by};
ghost use Rattle.std.specs.Str.{byte};
ghost use Rattle.jl_names.specs.declared.fault.NameFault.{NameFault};
ghost use Rattle.jl_names.specs.declared.fault.NameFault.TheVariants.{Memory};
ghost use Rattle.jl_names.specs.MethodTypes.{Signature, method_text, slots_of, IsSignature};
ghost use Rattle.jl_names.specs.MethodTypes.{IsMethodDescriptor, TakesSlots, IsMethodFault};
ghost use Rattle.jl_names.specs.ForProofs.Descriptors.{Stops};
ghost use Rattle.jl_names.specs.ForProofs.MethodTypes.{after_byte, return_at, Stand, MethodStands};
ghost use Rattle.jl_names.specs.ForProofs.MethodTypes.{IsBroken, IsStopped, SlotsStand, FewSlots};

use crate::descriptor::{Element, FieldType, field_at};
use crate::fault::NameFault;
use std::alloc::{AllocFailed, Global};
use std::marker::Model;

/// The types of a method's parameters and of its result.
#[derive(Debug)]
pub struct MethodType<'a> {
    parameters: Vec<FieldType<'a>>,
    returns: Option<FieldType<'a>>,
    slots: u8,
}

/// Written out, so that what drops one makes one call of it and doesn't take apart what it holds.
impl<'a> Drop for MethodType<'a> {
    fn drop(self) {
        let MethodType {
            parameters: _parameters,
            returns: _returns,
            slots: _slots,
        } = self;
    }
}

impl<'a> Model for MethodType<'a> {
    ghost use Rattle.jl_names.specs.MethodTypes.{Signature};

    ghost Value = { Signature };

    ghost use Rattle.std.specs.Prelude.{◌≡◌};
    ghost use Rattle.std.specs.List.{sum_by};
    ghost use Rattle.jl_names.specs.MethodTypes.{slots_of};

    ghost view = { λ m. record { parameters = m.parameters.items; returns = m.returns } };

    ghost invariant = { λ m. sum_by slots_of m.parameters.items ≡ m.slots };
}

impl<'a> MethodType<'a> {
    ghost use Rattle.jl_names.specs.MethodTypes.{method_text, slots, IsSignature, IsMethodFault};

    /// The types that the method descriptor gives.
    ///
    /// # Errors
    ///
    /// - `BadDescriptor`: of the first byte at which the text can't go on, or of the text's length
    ///   if it ends too early.
    /// - `TooManySlots`: a method descriptor by its grammar, but its parameters take over 255 slots.
    /// - `Memory`: want of memory.
    pub fn parse(alloc: Global, text: &'a [u8]) -> Result<MethodType<'a>, NameFault>
        ensures ok { IfOk result (λ m.
            IsSignature m × (text.now ≡ method_text m) × (slots m ≤ 255)) }
        ensures fault { IfErr result (IsMethodFault text.now) }
    {
        let (parameters, returns, rest) = match method_at(alloc, text) {
            Ok(found) => found,
            Err(Broken::At(left)) => return Err(NameFault::BadDescriptor(text.len() - left.len())),
            Err(Broken::Memory) => return Err(NameFault::Memory),
        };
        if !rest.is_empty() {
            return Err(NameFault::BadDescriptor(text.len() - rest.len()));
        }
        let Some(slots) = slots_of_all(&parameters) else {
            return Err(NameFault::TooManySlots);
        };
        Ok(MethodType {
            parameters,
            returns,
            slots,
        })
    }

    /// The slots that the parameters take, 255 at most. A receiver isn't counted.
    pub fn slots(&self) -> u8
        ensures { result ≡ slots self.now }
    {
        self.slots
    }
}

/// The slots that the parameters of the method descriptor take. None if the text is no method
/// descriptor, or if they take over 255 slots. One pass, and no memory.
pub fn method_slots(text: &[u8]) -> Option<u8>
    ensures { MatchOption result (¬ IsMethodDescriptor text.now)
        (λ n. (n ≤ 255) × TakesSlots text.now n) }
{
    let inner = after_byte(text, b'(')?;
    let (slots, rest) = slots_at(inner)?;
    let Ok((_, rest)) = return_at(rest) else {
        return None;
    };
    if rest.is_empty() { Some(slots) } else { None }
}

// ---- read at the front

/// The place at which parameters can't go on, or want of memory.
#[derive(Drop)]
enum Broken<'a> {
    At(&'a [u8]),
    Memory,
}

impl<'a, T: Drop> From<AllocFailed<T>> for Broken<'a> {
    ghost use Rattle.std.specs.Prelude.{◌≡◌};
    ghost use Rattle.jl_names.specs.declared.method_type.Broken.TheVariants.{Memory};

    ghost from_gives = { λ _ f. f ≡ Memory };

    fn from(_e: AllocFailed<T>) -> Broken<'a> {
        Broken::Memory
    }
}

/// What comes after this byte, if it stands at the front.
#[tactic(auto, unfolding(crate::specs::ForProofs::MethodTypes::after_byte))]
fn after_byte(text: &[u8], byte: u8) -> Option<&[u8]>
    ensures { option_map (λ rest. rest.now) result ≡ after_byte byte text.now }
{
    match text {
        [first, rest @ ..] => { if *first == byte { Some(rest) } else { None } }
        [] => None,
    }
}

/// The parameters up to the bracket that closes them, and what comes after it.
fn parameters_at<'a>(
    alloc: Global,
    text: &'a [u8],
) -> Result<(Vec<FieldType<'a>>, &'a [u8]), Broken<'a>>
    ensures ok { IfOk result (λ x. Stand text.now x.0.items (byte ")" ∷ x.1.now)) }
    ensures stopped { IfErr result (IsBroken text.now) }
{
    let mut parameters = Vec::new(alloc);
    let mut rest = text;
    loop {
        if let Some(after) = after_byte(rest, b')') {
            return Ok((parameters, after));
        }
        match field_at(rest) {
            Ok((ty, after)) => {
                parameters.push(ty)?;
                rest = after;
            }
            Err(left) => return Err(Broken::At(left)),
        }
    }
}

/// The types at the front, and what comes after them.
fn method_at<'a>(
    alloc: Global,
    text: &'a [u8],
) -> Result<(Vec<FieldType<'a>>, Option<FieldType<'a>>, &'a [u8]), Broken<'a>>
    ensures ok { IfOk result (λ x.
        MethodStands text.now (record { parameters = x.0.items; returns = x.1 }) x.2.now) }
    ensures stopped { IfErr result (IsStopped text.now) }
{
    let Some(inner) = after_byte(text, b'(') else {
        return Err(Broken::At(text));
    };
    let (parameters, rest) = match parameters_at(alloc, inner) {
        Ok(found) => found,
        Err(broken) => return Err(broken),
    };
    match return_at(rest) {
        Ok((returns, rest)) => Ok((parameters, returns, rest)),
        Err(left) => Err(Broken::At(left)),
    }
}

/// A result's type at the front, and what comes after it.
#[tactic(auto, unfolding(crate::specs::ForProofs::MethodTypes::return_at))]
fn return_at(text: &[u8]) -> Result<(Option<FieldType<'_>>, &[u8]), &[u8]>
    ensures { Stops (λ x. (x.0, x.1.now)) result (return_at text.now) }
{
    match text {
        [b'V', rest @ ..] => Ok((None, rest)),
        _ => {
            let (ty, rest) = field_at(text)?;
            Ok((Some(ty), rest))
        }
    }
}

/// The slots that a parameter takes.
fn slots_of(ty: &FieldType<'_>) -> u8
    ensures { result ≡ slots_of ty.now }
{
    match ty.element {
        Element::Long | Element::Double if ty.dimensions == 0 => 2,
        _ => 1,
    }
}

/// The slots that the parameters take, 255 at most.
fn slots_of_all(parameters: &[FieldType<'_>]) -> Option<u8>
    ensures some { IfSome result (λ n. n ≡ sum_by slots_of parameters.now) }
    ensures none { IfNone result (255 < sum_by slots_of parameters.now) }
{
    let mut total: u8 = 0;
    for ty in parameters {
        total = total.checked_add(slots_of(ty))?;
    }
    Some(total)
}

/// The slots of the parameters up to the bracket that closes them, and what comes after it.
fn slots_at(text: &[u8]) -> Option<(u8, &[u8])>
    ensures { MatchOption result (¬ FewSlots text.now)
        (λ x. SlotsStand text.now x.0 (byte ")" ∷ x.1.now)) }
{
    let mut slots: u8 = 0;
    let mut rest = text;
    loop {
        if let Some(after) = after_byte(rest, b')') {
            return Some((slots, after));
        }
        let Ok((ty, after)) = field_at(rest) else {
            return None;
        };
        slots = slots.checked_add(slots_of(&ty))?;
        rest = after;
    }
}

// ---- laws

/// A text is the text of one method type at most.
pub fn one_method_type()
    ensures { (a b : Signature) → IsSignature a → IsSignature b
        → method_text a ≡ method_text b → a ≡ b }
{}

/// A method descriptor has no fault.
pub fn no_fault_in_method_descriptors()
    ensures { (text : List ℕ) (fault : NameFault) → IsMethodDescriptor text → fault ≢ Memory
        → ¬ IsMethodFault text fault }
{}
