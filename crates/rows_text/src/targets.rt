//! The target of a call site, by its words (docs/ROWS.md), which are read from the last one on.

use crate::told::Told;
use crate::words::{keep, method, number};
use jl_callsites::copy_target;
use jl_types::{CallSiteId, ClassId, MethodId, SwitchId, Target};

/// Method 0 of class 1.
fn first_method() -> Target {
    Target::method(MethodId {
        class: ClassId::new(1),
        index: 0,
    })
}

/// The target in a box.
fn boxed(told: &mut Told, target: Target) -> Option<Box<Target>> {
    match Box::new(told.alloc(), target) {
        Ok(target) => Some(target),
        Err(_) => {
            told.lack();
            None
        }
    }
}

/// The guard on the point.
fn guard(told: &mut Told, point: u32, first: Target, fallback: Target) -> Option<Target> {
    let first = boxed(told, first)?;
    let fallback = boxed(told, fallback)?;
    Some(Target::guard(SwitchId::new(point), first, fallback))
}

/// So many guards, each the first part of the next one, round the target.
fn firsts(told: &mut Told, guards: u32, innermost: Target) -> Option<Target> {
    let mut target = innermost;
    for _ in 0..guards {
        target = guard(told, 0, target, first_method())?;
    }
    Some(target)
}

/// So many guards, each the fallback of the next one.
fn fallbacks(told: &mut Told, guards: u32) -> Option<Target> {
    let mut target = first_method();
    for _ in 0..guards {
        target = guard(told, 0, first_method(), target)?;
    }
    Some(target)
}

/// A guard of the target twice.
fn doubled(told: &mut Told, target: Target) -> Option<Target> {
    match copy_target(told.alloc(), &target) {
        Ok(first) => guard(told, 0, first, target),
        Err(_) => {
            told.lack();
            None
        }
    }
}

/// Guards, so many below one another on each path.
fn tree(told: &mut Told, levels: u32) -> Option<Target> {
    let mut target = first_method();
    for _ in 0..levels {
        target = doubled(told, target)?;
    }
    Some(target)
}

/// The part that was read last.
fn last(told: &mut Told, parts: &mut Vec<Target>) -> Option<Target> {
    let part = parts.pop();
    told.refuse_unless(part.is_some());
    part
}

/// The target that the word makes of the number and the parts after it.
fn made(told: &mut Told, parts: &mut Vec<Target>, number: u32, word: &str) -> Option<Target> {
    match word {
        "guard" => {
            let first = last(told, parts)?;
            let fallback = last(told, parts)?;
            guard(told, number, first, fallback)
        }
        "invoker" => Some(Target::invoker(CallSiteId::new(number))),
        "firsts" => {
            let innermost = last(told, parts)?;
            firsts(told, number, innermost)
        }
        "fallbacks" => fallbacks(told, number),
        "tree" => tree(told, number),
        _ => {
            told.refuse();
            None
        }
    }
}

/// Reads the words, from the last one on, and keeps the parts, of which the first one is the last.
fn read_all(told: &mut Told, parts: &mut Vec<Target>, words: &[&str]) {
    let mut later = None;
    for word in words.iter().rev() {
        if let Some(number) = later.take() {
            let target = made(told, parts, number, word);
            keep(told, parts, target);
        } else if word.contains('.') {
            let method = method(told, word);
            keep(told, parts, Some(Target::method(method)));
        } else {
            later = Some(number(told, word));
        }
    }
    told.refuse_unless(later.is_none());
}

/// The target of these words.
pub(crate) fn target(told: &mut Told, words: &[&str]) -> Option<Target> {
    let mut parts = Vec::new(told.alloc());
    read_all(told, &mut parts, words);
    let target = last(told, &mut parts);
    told.refuse_unless(parts.is_empty());
    target
}
