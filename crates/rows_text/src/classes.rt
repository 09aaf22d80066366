//! Commands of loaders and classes, and what is asked of them.

use crate::told::Told;
use crate::words::{self, signature, text};
use crate::{definitions, methods};
use jl_hierarchy::{Classes, NameAndType};
use jl_resolve::is_accessible_class;
use jl_types::{Class, ClassId, OrMemory};

/// Defines the class, and tells it.
fn define(told: &mut Told, classes: &mut Classes, by: &str, name: &str, rest: &[&str]) {
    let by = words::loader(told, by);
    if let Some(file) = definitions::file(told, name, rest) {
        told.definition(classes.define(told.alloc(), by, file, 65_536));
    }
}

/// Tells a class's name, its defining loader and its direct superinterfaces.
fn tell_class(told: &mut Told, class: Option<&Class>) {
    match class {
        Some(class) => {
            told.name(class.file().name().as_slice());
            told.put(" loader ");
            told.show(&class.loader().number());
            told.put("interfaces ");
            told.classes(class.interfaces());
        }
        None => told.put("None"),
    }
}

/// Tells a method's name and descriptor.
fn tell_method(told: &mut Told, classes: &Classes, method: &str) {
    let method = words::method(told, method);
    match classes.method_at(&method) {
        Some(method) => {
            told.name(method.name().as_slice());
            told.name(method.ty().as_slice());
        }
        None => told.put("None"),
    }
}

/// Tells what is asked of a class.
fn tell_one(told: &mut Told, classes: &Classes, question: &str, class: &str) {
    let class = words::class(told, class);
    match question {
        "has-class" => told.show(&classes.has_class(class)),
        "class" => tell_class(told, classes.class_at(class)),
        "superclass" => told.class(classes.superclass(class)),
        "nest-host" => told.class(classes.nest_host(class)),
        "is-interface" => told.show(&classes.is_interface(class)),
        _ if !classes.has_class(class) => told.put("no class"),
        "ancestors" => told.classes(classes.ancestors(class)),
        "count-ancestors" => told.show(&classes.ancestors(class).len()),
        "receivers" => told.classes(classes.receivers(class)),
        _ => told.refuse(),
    }
}

/// Tells what is asked of a class and a method's name and descriptor.
fn tell_declared(told: &mut Told, classes: &Classes, question: &str, class: &str, method: &str) {
    let class = words::class(told, class);
    let (name, ty) = signature(told, method);
    let (name, ty) = (name.as_bytes(), ty.as_bytes());
    let sought = NameAndType::of(name, ty);
    match question {
        "declared" => told.found(classes.declared(class, name, ty)),
        "upward" => told.found(classes.declared_upward_by(class, &sought)),
        _ => told.show(&classes.is_redeclared_below(class, &sought)),
    }
}

/// Tells what is asked of two classes.
fn tell_two(told: &mut Told, classes: &Classes, question: &str, first: &str, second: &str) {
    let (class, other) = (words::class(told, first), words::class(told, second));
    match question {
        "is-ancestor" if !classes.has_class(other) => told.put("no class"),
        "is-ancestor" => told.show(&classes.is_ancestor(class, other)),
        "same-package" => told.show(&classes.same_package(class, other)),
        _ => told.show(&is_accessible_class(classes, class, other)),
    }
}

/// Tells what is asked by two words.
fn tell_of(told: &mut Told, classes: &Classes, question: &str, first: &str, second: &str) {
    match question {
        "lookup" => {
            let by = words::loader(told, first);
            told.class(classes.lookup(by, text(second).as_bytes()));
        }
        "declared" | "upward" | "redeclared" => {
            tell_declared(told, classes, question, first, second)
        }
        "is-ancestor" | "same-package" | "is-accessible" => {
            tell_two(told, classes, question, first, second)
        }
        _ => methods::tell_two(told, classes, question, first, second),
    }
}

/// Tells what is asked.
fn tell(told: &mut Told, classes: &Classes, words: &[&str]) {
    match *words {
        ["superclass-chains"] => told.show(&classes.are_superclass_chains()),
        ["method", method] => tell_method(told, classes, method),
        [question, class] => tell_one(told, classes, question, class),
        [question, first, second] => tell_of(told, classes, question, first, second),
        [question, first, second, third] => {
            methods::tell_three(told, classes, question, first, second, third)
        }
        _ => told.refuse(),
    }
}

/// Obeys the command, if it changes the loaders and classes.
pub(crate) fn obey(told: &mut Told, classes: &mut Classes, words: &[&str]) {
    match *words {
        ["loader"] => match classes.new_loader(told.alloc(), 1_024) {
            Ok(loader) => told.show(&loader.number()),
            Err(fault) => told.show(&fault),
        },
        ["define", by, name, ref rest @ ..] => define(told, classes, by, name, rest),
        ["delegate", from, name, to] => {
            let (from, to) = (words::loader(told, from), words::loader(told, to));
            match classes.delegate(told.alloc(), from, name.as_bytes(), to) {
                Ok(()) => told.put("Ok"),
                Err(OrMemory::Fault(fault)) => told.show(&fault),
                Err(OrMemory::Memory) => told.lack(),
            }
        }
        _ => tell(told, classes, words),
    }
}
