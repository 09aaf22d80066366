//! The first pair of texts that repeats an earlier one.

ghost use Rattle.std.specs.Prelude.{◌≡◌, ℕ, List, cond, IfOk, MatchOption};
ghost use Rattle.std.specs.HashMap.{get_by};
ghost use Rattle.std.specs.Str.{bytes_eq};
ghost use Rattle.std.specs.Option.{unwrap_or};
ghost use Rattle.jl_names.specs.Repeats.{IsFirstRepeat, NoRepeat};
ghost use Rattle.jl_names.specs.ForProofs.Repeats.{Numbers, numbers_of, IsFirstAgain, NoneAgain};

use std::alloc::{AllocError, Global};
use std::collections::{HashMap, HashSet};

/// The first pair whose two texts are those of an earlier pair.
///
/// A pair holds the numbers of two texts, counted from 0. One pair repeats another if the first
/// texts of both have the same bytes, and so have the second ones. Their numbers may differ. A
/// number that names no text is equal to none. In a class no two fields, and no two methods, may
/// repeat so by name and descriptor (JVMS SE 17 §4.5, §4.6).
///
/// Each text is hashed twice at most, however many pairs name it. The only error is a refused
/// allocation.
pub fn first_repeat(
    alloc: Global,
    texts: &[Option<&[u8]>],
    pairs: &[(u16, u16)],
) -> Result<Option<usize>, AllocError>
    ensures { IfOk result (λ found. MatchOption found
        (NoRepeat texts.now pairs.now) (IsFirstRepeat texts.now pairs.now)) }
{
    let numbers = number_texts(alloc, texts)?;
    first_again(alloc, &numbers, pairs)
}

/// A number for each text, and None for no text. Texts have one number exactly if they are equal.
fn number_texts(alloc: Global, texts: &[Option<&[u8]>]) -> Result<Vec<Option<usize>>, AllocError>
    ensures { IfOk result (λ numbers. Numbers texts.now numbers.items) }
{
    let mut first = HashMap::new(alloc);
    let mut numbers = Vec::new(alloc);
    for (i, text) in texts.iter().enumerate() {
        let number = match text {
            Some(text) => Some(number_of(&mut first, *text, i)?),
            None => None,
        };
        numbers.push(number)?;
    }
    Ok(numbers)
}

/// The number that the text has, or this one from now on.
fn number_of<'a>(
    first: &mut HashMap<&'a [u8], usize>,
    text: &'a [u8],
    fresh: usize,
) -> Result<usize, AllocError>
    ensures number { IfOk result (λ n. n ≡ unwrap_or (get_by (λ k. bytes_eq text.now k.now) first.old) fresh) }
    ensures updates { IfOk result (λ n. (q : List ℕ)
        → get_by (λ k. bytes_eq q k.now) first.new
        ≡ cond (bytes_eq text.now q) (Some n) (get_by (λ k. bytes_eq q k.now) first.old)) }
{
    if let Some(number) = first.get(text) {
        return Ok(*number);
    }
    first.insert(text, fresh)?;
    Ok(fresh)
}

/// The first pair whose two numbers are those of an earlier pair, if both have one.
fn first_again(
    alloc: Global,
    numbers: &[Option<usize>],
    pairs: &[(u16, u16)],
) -> Result<Option<usize>, AllocError>
    ensures { IfOk result (λ found. MatchOption found
        (NoneAgain numbers.now pairs.now) (IsFirstAgain numbers.now pairs.now)) }
{
    let mut met = HashSet::new(alloc);
    for (i, pair) in pairs.iter().enumerate() {
        if let Some(both) = numbers_of(numbers, *pair) {
            if !met.insert(both)? {
                return Ok(Some(i));
            }
        }
    }
    Ok(None)
}

/// The numbers that stand at the two places of the pair, if both do.
fn numbers_of(numbers: &[Option<usize>], pair: (u16, u16)) -> Option<(usize, usize)>
    ensures { result ≡ numbers_of numbers.now pair }
{
    let first = *numbers.get(usize::from(pair.0))?;
    let second = *numbers.get(usize::from(pair.1))?;
    Some((first?, second?))
}
