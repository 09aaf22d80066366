//! The class file of a definition, by its words (docs/ROWS.md).

use crate::told::Told;
use crate::words::{flags, keep, named, three_names, two_names};
use jl_class::ClassFile;
use jl_classfile::read_class;
use jl_names::{Name, Seq};
use jl_sketch::{Call, MethodName, Sketch, SketchMethod, write_class};

/// The name of the class that has no superclass.
const OBJECT: &str = "java/lang/Object";

/// What begins a part, by numbers up to the last one; 0 is a word that doesn't, and a signature is 6.
const EXTENDS: u8 = 1;

const IMPLEMENTS: u8 = 2;

const NEST_HOST: u8 = 3;

const NEST_MEMBERS: u8 = 4;

const LAST_PART: u8 = 5;

const SIGNATURE: u8 = 6;

/// The number of the word.
fn head_of(word: &str) -> u8 {
    match word {
        "extends" => EXTENDS,
        "implements" => IMPLEMENTS,
        "nest-host" => NEST_HOST,
        "nest-members" => NEST_MEMBERS,
        "method" => LAST_PART,
        _ => { if word.contains('(') { SIGNATURE } else { 0 } }
    }
}

/// How many words come before the first one of a number in this range.
fn before(words: &[&str], least: u8, most: u8) -> usize {
    let mut count = 0usize;
    for word in words {
        let head = head_of(word);
        if least <= head && head <= most {
            return count;
        }
        count = count.saturating_add(1);
    }
    count
}

/// The words before the first one of a number in this range, and those from there on.
fn cut<'a, 'b>(words: &'b [&'a str], least: u8, most: u8) -> (&'b [&'a str], &'b [&'a str]) {
    words.split_at(before(words, least, most).min(words.len()))
}

/// The words up to one that begins a part.
fn up_to_part<'a, 'b>(words: &'b [&'a str]) -> &'b [&'a str] {
    let (before, _) = cut(words, EXTENDS, LAST_PART);
    before
}

/// The words of the part that the word of this number begins.
fn part<'a, 'b>(words: &'b [&'a str], head: u8) -> &'b [&'a str] {
    let up_to_head = before(words, head, head).saturating_add(1);
    let (_, later) = words.split_at(up_to_head.min(words.len()));
    up_to_part(later)
}

/// The one name of a part, if it is there.
fn only_name(told: &mut Told, part: &[&str]) -> Option<Name> {
    match *part {
        [] => None,
        [name] => named(told, name),
        _ => {
            told.refuse();
            None
        }
    }
}

/// These names, in order.
fn names_of(told: &mut Told, words: &[&str]) -> Seq<Name> {
    let mut names = Vec::new(told.alloc());
    for word in words {
        let name = named(told, word);
        keep(told, &mut names, name);
    }
    Seq::of(names)
}

/// The call by this instruction (JVMS SE 17 §6.5).
fn call(told: &mut Told, opcode: &str, itf: bool, word: &str) -> Option<Call> {
    if opcode == "invokedynamic" {
        let (name, ty) = two_names(told, word)?;
        return Some(Call::Dynamic(name, ty));
    }
    let (owner, name, ty) = three_names(told, word)?;
    let method = MethodName { owner, name, ty };
    match opcode {
        "invokevirtual" => Some(Call::Virtual(method)),
        "invokespecial" => Some(Call::Special(itf, method)),
        "invokestatic" => Some(Call::Static(itf, method)),
        "invokeinterface" => Some(Call::Interface(method)),
        _ => {
            told.refuse();
            None
        }
    }
}

/// The calls of a method, in order. After each instruction's name comes a call.
fn calls(told: &mut Told, words: &[&str]) -> Seq<Call> {
    let mut calls = Vec::new(told.alloc());
    let mut opcode = "";
    let mut itf = false;
    let mut is_read = true;
    for word in words {
        if word.contains('(') {
            let call = call(told, opcode, itf, word);
            keep(told, &mut calls, call);
            itf = false;
            is_read = true;
        } else if *word == "InterfaceMethodref" {
            itf = true;
        } else {
            told.refuse_unless(is_read);
            opcode = word;
            is_read = false;
        }
    }
    told.refuse_unless(is_read);
    Seq::of(calls)
}

/// The method of these words.
fn method(told: &mut Told, words: &[&str]) -> Option<SketchMethod> {
    let (before, rest) = cut(words, SIGNATURE, SIGNATURE);
    let Some((first, later)) = rest.split_first() else {
        told.refuse();
        return None;
    };
    let (name, ty) = two_names(told, first)?;
    Some(SketchMethod {
        name,
        ty,
        flags: flags(told, before),
        calls: calls(told, later),
    })
}

/// The methods, in order.
fn methods(told: &mut Told, words: &[&str]) -> Seq<SketchMethod> {
    let mut methods = Vec::new(told.alloc());
    for part in words.split(|word| *word == "method").skip(1) {
        let method = method(told, part);
        keep(told, &mut methods, method);
    }
    Seq::of(methods)
}

/// The superclass of the class of this name.
fn superclass(told: &mut Told, words: &[&str], name: &str) -> Option<Name> {
    let part = part(words, EXTENDS);
    if part.is_empty() && name != OBJECT {
        named(told, OBJECT)
    } else {
        only_name(told, part)
    }
}

/// The sketch of the class of this name, with the flags and the parts that the words have.
fn sketch_of(told: &mut Told, name: &str, words: &[&str]) -> Option<Sketch> {
    let kept = named(told, name)?;
    Some(Sketch {
        name: kept,
        flags: flags(told, up_to_part(words)),
        superclass: superclass(told, words, name),
        interfaces: names_of(told, part(words, IMPLEMENTS)),
        methods: methods(told, words),
        host: only_name(told, part(words, NEST_HOST)),
        members: names_of(told, part(words, NEST_MEMBERS)),
    })
}

/// The bytes of the class file of the class of this name, by the words after it.
pub(crate) fn bytes(told: &mut Told, name: &str, words: &[&str]) -> Vec<u8> {
    if let Some(sketch) = sketch_of(told, name, words) {
        if let Ok(bytes) = write_class(told.alloc(), &sketch) {
            return bytes;
        }
    }
    told.refuse();
    Vec::new(told.alloc())
}

/// What is read of that class file.
pub(crate) fn file(told: &mut Told, name: &str, words: &[&str]) -> Option<ClassFile> {
    let bytes = bytes(told, name, words);
    let file = read_class(told.alloc(), &bytes).ok();
    told.refuse_unless(file.is_some());
    file
}
