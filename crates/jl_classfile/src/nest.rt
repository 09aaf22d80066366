//! The nest attributes of a class.

ghost use Rattle.std.specs.Prelude.{◌≡◌, ◌≢◌, ◌≤◌, ℕ, List, Option, option_map, length, All, IfOk, IfErr, MatchBool, MatchOption};
ghost use Rattle.jl_classfile.specs.declared.fault.ClassFault.TheVariants.{BadNest, Memory};
ghost use Rattle.jl_classfile.specs.Conditions.{IsClassNumber, IsHost, AreMembers, attributes_of, Nest};
ghost use Rattle.jl_classfile.specs.ForProofs.Nests.{IsOnly, Holds};

use crate::body::{Attributes, Body, Broken, counted_at};
use crate::fault::ClassFault;
use crate::links::check_classes;
use crate::member::first_called;
use jl_names::Seq;
use jl_pool::{Pool, u2_at};
use std::alloc::Global;

/// The name of the attribute that holds a class's nest host (JVMS SE 17 §4.7.28).
pub const NEST_HOST: &[u8] = b"NestHost";

/// The name of the attribute that holds a class's nest members (§4.7.29).
pub const NEST_MEMBERS: &[u8] = b"NestMembers";

/// The numbers of the nest host and of the nest members of a class, if its attributes give them (JVMS SE 17
/// §4.7.28, §4.7.29).
#[derive(Drop)]
pub struct NestNumbers {
    pub host: Option<u16>,
    pub members: Option<Seq<u16>>,
}

/// The bytes of the one attribute of this name, if there is one.
fn only_called<'a>(
    pool: &Pool,
    name: &[u8],
    attributes: &Attributes<'a>,
) -> Result<Option<&'a [u8]>, ClassFault>
    ensures ok { IfOk result (λ only. IsOnly (attributes_of pool.now name.now attributes.now) (option_map (λ info. info.now) only)) }
    ensures fault { IfErr result (λ f. (f ≡ BadNest) × (2 ≤ length (attributes_of pool.now name.now attributes.now))) }
{
    let Some((attribute, later)) = first_called(pool, name, attributes) else {
        return Ok(None);
    };
    if first_called(pool, name, &later).is_some() {
        return Err(ClassFault::BadNest);
    }
    Ok(Some(attribute.info.as_bytes()))
}

/// The number that a NestHost holds, if it is a class's.
fn host_in(pool: &Pool, info: &[u8]) -> Option<u16>
    ensures { MatchOption result ((n : ℕ) → ¬ IsHost pool.now info.now n) (IsHost pool.now info.now) }
{
    let (number, rest) = u2_at(info)?;
    if !rest.is_empty() {
        return None;
    }
    match pool.class_name(number) {
        Some(_) => Some(number),
        None => None,
    }
}

/// Whether each of the numbers is a class's.
fn are_classes(pool: &Pool, numbers: &[u16]) -> bool
    ensures { MatchBool result (All (IsClassNumber pool.now) numbers.now) (¬ All (IsClassNumber pool.now) numbers.now) }
{
    check_classes(pool, numbers).is_ok()
}

/// The numbers that a NestMembers holds, each a class's.
fn members_in(alloc: Global, pool: &Pool, info: &[u8]) -> Result<Seq<u16>, ClassFault>
    ensures ok { IfOk result (AreMembers pool.now info.now) }
    ensures fault { IfErr result (λ f. f ≢ Memory → (f ≡ BadNest) × ((ns : List ℕ) → ¬ AreMembers pool.now info.now ns)) }
{
    let (numbers, rest) = match counted_at(alloc, info) {
        Ok(read) => read,
        Err(Broken::Cut) => return Err(ClassFault::BadNest),
        Err(Broken::Memory) => return Err(ClassFault::Memory),
    };
    if !rest.is_empty() {
        return Err(ClassFault::BadNest);
    }
    if !are_classes(pool, numbers.as_slice()) {
        return Err(ClassFault::BadNest);
    }
    Ok(numbers)
}

/// What the nest attributes among these hold: one of them at most.
fn held_by(
    alloc: Global,
    pool: &Pool,
    attributes: &Attributes<'_>,
) -> Result<NestNumbers, ClassFault>
    ensures ok { IfOk result (λ n. Holds pool.now attributes.now n.host n.members) }
    ensures fault { IfErr result (λ f. f ≢ Memory → (f ≡ BadNest) × ((host : Option ℕ) (members : Option (List ℕ))
        → ¬ Holds pool.now attributes.now host members)) }
{
    let host = only_called(pool, NEST_HOST, attributes)?;
    let members = only_called(pool, NEST_MEMBERS, attributes)?;
    match (host, members) {
        (None, None) => Ok(NestNumbers {
            host: None,
            members: None,
        }),
        (Some(info), None) => match host_in(pool, info) {
            Some(number) => Ok(NestNumbers {
                host: Some(number),
                members: None,
            }),
            None => Err(ClassFault::BadNest),
        },
        (None, Some(info)) => Ok(NestNumbers {
            host: None,
            members: Some(members_in(alloc, pool, info)?),
        }),
        (Some(_), Some(_)) => Err(ClassFault::BadNest),
    }
}

/// The nest host and the nest members of a class. Both attributes are read from version 55 on.
pub fn nest_of(
    alloc: Global,
    major: u16,
    pool: &Pool,
    body: &Body<'_>,
) -> Result<NestNumbers, ClassFault>
    ensures ok { IfOk result (λ n. Nest major pool.now body.now n.host n.members) }
    ensures fault { IfErr result (λ f. f ≢ Memory → (f ≡ BadNest) × ((host : Option ℕ) (members : Option (List ℕ))
        → ¬ Nest major pool.now body.now host members)) }
{
    if major < 55 {
        return Ok(NestNumbers {
            host: None,
            members: None,
        });
    }
    held_by(alloc, pool, &body.attributes)
}
