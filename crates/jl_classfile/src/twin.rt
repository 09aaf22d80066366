//! Methods of one name and one descriptor (JVMS SE 17 §4.6).

ghost use Rattle.std.specs.Prelude.{◌≡◌, ℕ, Some, map, length, slice_get, nat_eq, option_map, IfOk, IfErr, MatchOption, Decides};
ghost use Rattle.std.specs.List.{IsDistinct};
ghost use Rattle.jl_classfile.specs.declared.body.Member.{Member};
ghost use Rattle.jl_classfile.specs.declared.fault.ClassFault.TheVariants.{Memory};
ghost use Rattle.jl_pool.specs.Pools.{text_at};
ghost use Rattle.jl_classfile.specs.ForProofs.Members.{is_at, IsTwin, IsFirstTwin, IsTextAt, AreTexts, print_onto, print_of};

use crate::body::Member;
use crate::fault::ClassFault;
use jl_names::{first_repeat, print_from};
use jl_pool::Pool;
use std::alloc::Global;

/// By number, the texts of a pool that are the names and the descriptors of methods.
fn texts_of<'a>(
    alloc: Global,
    pool: &'a Pool,
    methods: &[Member<'_>],
) -> Result<Vec<Option<&'a [u8]>>, ClassFault>
    ensures ok { IfOk result (λ texts. (k : ℕ) (m : Member) → slice_get methods.now k ≡ Some m → AreTexts texts.items pool.now m) }
    ensures fault { IfErr result (λ f. f ≡ Memory) }
{
    let mut texts = vec![in alloc; None; pool.len()]?;
    keep_texts(&mut texts, pool, methods);
    Ok(texts)
}

/// Keeps the texts of a pool that are the names and the descriptors of methods.
fn keep_texts<'a>(texts: &mut [Option<&'a [u8]>], pool: &'a Pool, methods: &[Member<'_>])
    requires { length texts.old ≡ length pool.now }
    ensures length { length texts.new ≡ length texts.old }
    ensures kept { (k : ℕ) (m : Member) → slice_get methods.now k ≡ Some m → AreTexts texts.new pool.now m }
{
    for method in methods {
        keep_text(texts, pool, method.name);
        keep_text(texts, pool, method.descriptor);
    }
}

/// The text that stands at a number of a pool, if one does.
fn text_at<'a>(pool: &'a Pool, number: u16) -> Option<&'a [u8]>
    ensures { option_map (λ text. text.now) result ≡ text_at pool.now number }
{
    match pool.utf8(number) {
        Some(name) => Some(name.as_slice()),
        None => None,
    }
}

/// Keeps the text that stands at a number of a pool, if one does.
fn keep_text<'a>(texts: &mut [Option<&'a [u8]>], pool: &'a Pool, number: u16)
    requires { length texts.old ≡ length pool.now }
    ensures length { length texts.new ≡ length texts.old }
    ensures here { IsTextAt texts.new pool.now number }
    ensures kept { (n : ℕ) → IsTextAt texts.old pool.now n → IsTextAt texts.new pool.now n }
{
    if usize::from(number) < texts.len() {
        texts[usize::from(number)] = text_at(pool, number);
    }
}

/// The numbers of the names and the descriptors of methods.
fn signatures_of(alloc: Global, methods: &[Member<'_>]) -> Result<Vec<(u16, u16)>, ClassFault>
    ensures ok { IfOk result (λ pairs. pairs.items ≡ map (λ m. (m.name, m.descriptor)) methods.now) }
    ensures fault { IfErr result (λ f. f ≡ Memory) }
{
    Ok(
        methods
            .iter()
            .map(|m| (m.name, m.descriptor))
            .collect(alloc)?,
    )
}

/// The print that the text at a number of a pool makes of a print. If no text stands there, it is that print itself.
fn print_onto(before: u64, pool: &Pool, number: u16) -> u64
    ensures { result ≡ print_onto before (text_at pool.now number) }
{
    match text_at(pool, number) {
        Some(text) => print_from(before, text),
        None => before,
    }
}

/// The print of the name and the descriptor of each method, in order. Methods that share both have equal prints.
fn prints_of(alloc: Global, pool: &Pool, methods: &[Member<'_>]) -> Result<Vec<u64>, ClassFault>
    ensures ok { IfOk result (λ prints. prints.items ≡ map (print_of pool.now) methods.now) }
    ensures fault { IfErr result (λ f. f ≡ Memory) }
{
    Ok(
        methods
            .iter()
            .map(|m| print_onto(print_onto(0, pool, m.name), pool, m.descriptor))
            .collect(alloc)?,
    )
}

/// Whether no two of these numbers are equal.
fn are_distinct(mut numbers: Vec<u64>) -> bool
    ensures { Decides result (IsDistinct nat_eq numbers.items) }
{
    numbers.sort_unstable();
    numbers.is_sorted_by(|number, next| number < next)
}

/// The first method, by its index, that has the name and the descriptor of an earlier one.
pub fn first_twin(
    alloc: Global,
    pool: &Pool,
    methods: &[Member<'_>],
) -> Result<Option<usize>, ClassFault>
    ensures ok { IfOk result (λ twin. MatchOption twin ((i : ℕ) → ¬ IsTwin pool.now methods.now i) (IsFirstTwin pool.now methods.now)) }
    ensures fault { IfErr result (λ f. f ≡ Memory) }
{
    if methods.len() < 2 {
        return Ok(None);
    }
    // Equal texts have equal prints, so the texts are looked at only if two prints are equal.
    if are_distinct(prints_of(alloc, pool, methods)?) {
        return Ok(None);
    }
    let texts = texts_of(alloc, pool, methods)?;
    let signatures = signatures_of(alloc, methods)?;
    Ok(first_repeat(alloc, &texts, &signatures)?)
}

/// Whether this place was found.
pub fn is_at(found: Option<usize>, place: usize) -> bool
    ensures { result ≡ is_at found place }
{
    match found {
        Some(found) => found == place,
        None => false,
    }
}
