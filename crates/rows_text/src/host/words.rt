//! The words of a host's command.

use crate::told::Told;
use crate::words::{cut, keep, number};
use jl_host::{NULL, TargetPart};

/// Two numbers with the sign between them, as `1.0`.
pub(crate) fn pair(told: &mut Told, word: &str, sign: char) -> (u32, u32) {
    let (first, second) = cut(told, word, sign);
    (number(told, first), number(told, second))
}

/// A receiver: `null`, or an object of a class.
pub(crate) fn receiver(told: &mut Told, word: &str) -> u32 {
    match word {
        "null" => NULL,
        _ => number(told, word),
    }
}

/// Adds the number of the word; `0*257` is 0 so many times.
fn add(told: &mut Told, numbers: &mut Vec<u32>, word: &str) {
    let (what, count) = if word.contains('*') {
        pair(told, word, '*')
    } else {
        (number(told, word), 1)
    };
    for _ in 0..count {
        keep(told, numbers, Some(what));
    }
}

/// Numbers, in order.
pub(crate) fn numbers(told: &mut Told, words: &[&str]) -> Vec<u32> {
    let mut numbers = Vec::new(told.alloc());
    for word in words {
        add(told, &mut numbers, word);
    }
    numbers
}

/// Call sites, and after the word `switches` switch points.
pub(crate) fn both(told: &mut Told, words: &[&str]) -> (Vec<u32>, Vec<u32>) {
    let mut call_sites = Vec::new(told.alloc());
    let mut switches = Vec::new(told.alloc());
    let mut are_switches = false;
    for word in words {
        if *word == "switches" {
            are_switches = true;
        } else if are_switches {
            add(told, &mut switches, word);
        } else {
            add(told, &mut call_sites, word);
        }
    }
    (call_sites, switches)
}

/// The parts of a target: `1.0` is a method, `guard` and `invoker` stand before a number, and so does `other`, a kind that is none.
pub(crate) fn parts(told: &mut Told, words: &[&str]) -> Vec<TargetPart> {
    let mut parts = Vec::new(told.alloc());
    let mut kind = 0;
    for word in words {
        match *word {
            "guard" => kind = 1,
            "invoker" => kind = 2,
            "other" => kind = 3,
            _ => {
                let (number, value) = if word.contains('.') {
                    pair(told, word, '.')
                } else {
                    (number(told, word), 9)
                };
                let part = TargetPart {
                    kind,
                    number,
                    value,
                };
                keep(told, &mut parts, Some(part));
                kind = 0;
            }
        }
    }
    parts
}
