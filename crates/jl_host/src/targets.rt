//! Targets that a host gives, as numbers.

ghost use Rattle.std.specs.Prelude.{◌≡◌, ◌∷◌, nat_le, reverse, option_map, IfOk};
ghost use Rattle.jl_host.specs.Targets as targets;

use crate::reading::method_of;
use jl_types::{CallSiteId, Part, SwitchId, Target};
use std::alloc::{AllocError, Global};

/// A part of a target (java.lang.invoke), by its kind:
///
/// - 0: the method `value` of the class `number`;
/// - 1: a guard on the switch point `number`: its first part and then its fallback come after it, each with all that belongs to it;
/// - 2: the dynamicInvoker of the call site `number`.
#[repr(C)]
#[derive(Clone, Copy, Debug)]
pub struct TargetPart {
    pub kind: u32,
    pub number: u32,
    pub value: u32,
}

/// How many arrays and objects JSON may have in one another.
const MOST_NESTED: u32 = 127;

/// Whether the target's JSON has no more than so many arrays and objects in one another. However deep it is, no part below these is looked
/// at.
fn nests_within(target: &Target, levels: u32) -> bool
    ensures { result ≡ nat_le (targets.nesting target.now) levels }
{
    let Some(below) = levels.checked_sub(1) else {
        return false;
    };
    match &target.part {
        Part::Method(_) => below > 0,
        Part::Guard(_, first, fallback) => {
            nests_within(first, below) & nests_within(fallback, below)
        }
        Part::Invoker(_) => true,
    }
}

/// The guard of the two targets, if JSON may nest so deep.
fn guard_of(
    alloc: Global,
    point: SwitchId,
    first: Target,
    fallback: Target,
) -> Result<Option<Target>, AllocError>
    ensures { IfOk result (λ guard. guard ≡ targets.guard_of point first fallback) }
{
    let first = Box::new(alloc, first)?;
    let fallback = Box::new(alloc, fallback)?;
    let guard = Target::guard(point, first, fallback);
    if !nests_within(&guard, MOST_NESTED) {
        return Ok(None);
    }
    Ok(Some(guard))
}

/// The guard of the two targets that were read last, which are taken.
fn guard_before(
    alloc: Global,
    point: SwitchId,
    read: &mut Vec<Target>,
) -> Result<Option<Target>, AllocError>
    ensures { IfOk result (λ guard.
        option_map (λ t. t ∷ reverse read.new.items) guard ≡ targets.guard_before point (reverse read.old.items)) }
{
    let Some(first) = read.pop() else {
        return Ok(None);
    };
    let Some(fallback) = read.pop() else {
        return Ok(None);
    };
    guard_of(alloc, point, first, fallback)
}

/// The target of the part, which takes what belongs to it of those that were read after it.
fn target_before(
    alloc: Global,
    part: &TargetPart,
    read: &mut Vec<Target>,
) -> Result<Option<Target>, AllocError>
    ensures { IfOk result (λ target.
        option_map (λ t. t ∷ reverse read.new.items) target ≡ targets.read_before part.now (reverse read.old.items)) }
{
    match part.kind {
        0 => match method_of(part.number, part.value) {
            Some(method) => Ok(Some(Target::method(method))),
            None => Ok(None),
        },
        1 => guard_before(alloc, SwitchId::new(part.number), read),
        2 => Ok(Some(Target::invoker(CallSiteId::new(part.number)))),
        _ => Ok(None),
    }
}

/// The only target that was read, if there is one alone.
fn only(read: Vec<Target>) -> Option<Target>
    ensures { result ≡ targets.only (reverse read.items) }
{
    let mut read = read;
    let Some(target) = read.pop() else {
        return None;
    };
    if !read.is_empty() {
        return None;
    }
    Some(target)
}

/// The target that the parts are, if they are one and no more.
pub(crate) fn target_of(alloc: Global, parts: &[TargetPart]) -> Result<Option<Target>, AllocError>
    ensures { IfOk result (λ target. target ≡ targets.target_of parts.now) }
{
    let mut read = Vec::new(alloc);
    for place in (0..parts.len()).rev() {
        let Some(target) = target_before(alloc, &parts[place], &mut read)? else {
            return Ok(None);
        };
        read.push(target)?;
    }
    Ok(only(read))
}
