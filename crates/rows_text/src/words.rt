//! The words of a command: numbers, names, methods and flags as one writes them. Whoever reads a word that is none notes it in what is
//! told, and the command is none then, whatever else comes of it.

use crate::told::Told;
use jl_names::Name;
use jl_types::{CallSiteId, ClassId, LoaderId, MethodId, SiteNo, SwitchId};

/// A number.
pub(crate) fn number(told: &mut Told, word: &str) -> u32 {
    match word.parse::<u32>() {
        Ok(number) => number,
        Err(_) => {
            told.refuse();
            0
        }
    }
}

/// A class by its number.
pub(crate) fn class(told: &mut Told, word: &str) -> ClassId {
    ClassId::new(number(told, word))
}

/// A loader by its number.
pub(crate) fn loader(told: &mut Told, word: &str) -> LoaderId {
    LoaderId::new(number(told, word))
}

/// A site by its number.
pub(crate) fn site(told: &mut Told, word: &str) -> SiteNo {
    SiteNo::new(number(told, word))
}

/// A call site by its number.
pub(crate) fn call_site(told: &mut Told, word: &str) -> CallSiteId {
    CallSiteId::new(number(told, word))
}

/// Adds the item to the list, if it is there.
pub(crate) fn keep<T: Drop>(told: &mut Told, list: &mut Vec<T>, item: Option<T>) {
    if let Some(item) = item {
        if list.push(item).is_err() {
            told.lack();
        }
    }
}

/// Switch points by their numbers, in order.
pub(crate) fn switch_points(told: &mut Told, words: &[&str]) -> Vec<SwitchId> {
    let mut points = Vec::new(told.alloc());
    for word in words {
        let point = SwitchId::new(number(told, word));
        keep(told, &mut points, Some(point));
    }
    points
}

/// What stands before the first such sign, and what after it.
pub(crate) fn cut<'a>(told: &mut Told, word: &'a str, sign: char) -> (&'a str, &'a str) {
    match word.split_once(sign) {
        Some(parts) => parts,
        None => {
            told.refuse();
            ("", "")
        }
    }
}

/// A method by its class and its number there, as `1.0`.
pub(crate) fn method(told: &mut Told, word: &str) -> MethodId {
    let (owner, place) = cut(told, word, '.');
    let class = class(told, owner);
    match place.parse::<u16>() {
        Ok(index) => MethodId { class, index },
        Err(_) => {
            told.refuse();
            MethodId { class, index: 0 }
        }
    }
}

/// A name; `""` is the empty one.
pub(crate) fn text(word: &str) -> &str {
    if word == "\"\"" { "" } else { word }
}

/// A method's name and its descriptor, as `f()V`.
pub(crate) fn signature<'a>(told: &mut Told, word: &'a str) -> (&'a str, &'a str) {
    let (name, _) = cut(told, word, '(');
    (name, word.strip_prefix(name).unwrap_or(""))
}

/// A kept name of this text.
pub(crate) fn named(told: &mut Told, text: &str) -> Option<Name> {
    match Name::copied(told.alloc(), text.as_bytes()) {
        Ok(name) => Some(name),
        Err(_) => {
            told.lack();
            None
        }
    }
}

/// A method's name and descriptor, as `f()V`.
pub(crate) fn two_names(told: &mut Told, word: &str) -> Option<(Name, Name)> {
    let (name, ty) = signature(told, word);
    let name = named(told, name)?;
    let ty = named(told, ty)?;
    Some((name, ty))
}

/// A class's name, and a method's name and descriptor, as `p/C.f()V`.
pub(crate) fn three_names(told: &mut Told, word: &str) -> Option<(Name, Name, Name)> {
    let (owner, rest) = cut(told, word, '.');
    let owner = named(told, owner)?;
    let (name, ty) = two_names(told, rest)?;
    Some((owner, name, ty))
}

/// The flag of this name that a method alone has (JVMS SE 17 §4.6).
fn method_flag(told: &mut Told, word: &str) -> u16 {
    match word {
        "varargs" => 0x0080,
        "native" => 0x0100,
        _ => {
            told.refuse();
            0
        }
    }
}

/// The flag of this name, without ACC_ (JVMS SE 17 §4.1, §4.6).
fn flag(told: &mut Told, word: &str) -> u16 {
    match word {
        "public" => 0x0001,
        "private" => 0x0002,
        "protected" => 0x0004,
        "static" => 0x0008,
        "final" => 0x0010,
        "super" => 0x0020,
        "interface" => 0x0200,
        "abstract" => 0x0400,
        _ => method_flag(told, word),
    }
}

/// Flags by their names.
pub(crate) fn flags(told: &mut Told, words: &[&str]) -> u16 {
    let mut flags = 0;
    for word in words {
        flags |= flag(told, word);
    }
    flags
}
