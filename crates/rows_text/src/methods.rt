//! What is asked of methods: resolution, access, overriding and selection. Of a question the first class is the caller or the receiver.

use crate::told::Told;
use crate::words::{self, three_names};
use jl_hierarchy::Classes;
use jl_names::Name;
use jl_pool::Reference;
use jl_resolve::{access_to_method, resolve, resolve_reference};
use jl_select::{can_override, chosen, runs_below, select, select_interface, special};
use jl_types::{Chosen, ClassId, MethodId};

/// Tells what is asked of a caller and a reference to a method.
fn tell_reference(
    told: &mut Told,
    classes: &Classes,
    question: &str,
    caller: ClassId,
    reference: &Reference<Name>,
) {
    let lent = reference.lent();
    match question {
        "resolve" => match resolve(classes, caller, &lent) {
            Ok(method) => told.method(method),
            Err(answer) => told.show(&answer),
        },
        "resolve-named" => match resolve_reference(classes, caller, &lent) {
            Ok(found) => {
                told.show(&found.named.number());
                told.method(found.method);
            }
            Err(answer) => told.show(&answer),
        },
        "select-special" => match special(classes, caller, &lent) {
            Some(outcome) => told.outcome(outcome),
            None => told.put("no class"),
        },
        _ => told.refuse(),
    }
}

/// Tells what is asked of a caller and the reference to a method that this word names.
fn tell_caller(
    told: &mut Told,
    classes: &Classes,
    question: &str,
    caller: &str,
    itf: bool,
    method: &str,
) {
    let caller = words::class(told, caller);
    if let Some((owner, name, ty)) = three_names(told, method) {
        let reference = Reference {
            itf,
            owner,
            name,
            ty,
        };
        tell_reference(told, classes, question, caller, &reference);
    }
}

/// Tells what is asked of a class that has to be there, and a method.
fn tell_method(
    told: &mut Told,
    classes: &Classes,
    question: &str,
    class: ClassId,
    method: &MethodId,
) {
    if !classes.has_class(class) {
        return told.put("no class");
    }
    match question {
        "choose" => match chosen(classes, class, method) {
            Chosen::Method(method) => told.method(method),
            Chosen::Several => told.put("Several"),
            Chosen::Nothing => told.put("Nothing"),
        },
        "select-virtual" => told.outcome(select(classes, class, method)),
        "runs-below" => told.show(&runs_below(classes, class, method)),
        _ => told.refuse(),
    }
}

/// Tells what is asked of two classes and a method.
fn tell_classes(
    told: &mut Told,
    classes: &Classes,
    question: &str,
    class: ClassId,
    named: ClassId,
    method: &MethodId,
) {
    if !classes.has_class(class) {
        return told.put("no class");
    }
    match question {
        "select-interface" => told.outcome(select_interface(classes, class, named, method)),
        "access" if !classes.has_class(named) => told.put("no class"),
        "access" => told.show(&access_to_method(classes, class, named, method)),
        _ => told.refuse(),
    }
}

/// Tells what is asked of a class or a method, and a method.
pub(crate) fn tell_two(
    told: &mut Told,
    classes: &Classes,
    question: &str,
    first: &str,
    second: &str,
) {
    let method = words::method(told, second);
    if question == "overrides" {
        let lower = words::method(told, first);
        return told.show(&can_override(classes, &lower, &method));
    }
    let class = words::class(told, first);
    tell_method(told, classes, question, class, &method);
}

/// Tells what is asked by three words.
pub(crate) fn tell_three(
    told: &mut Told,
    classes: &Classes,
    question: &str,
    first: &str,
    second: &str,
    third: &str,
) {
    match second {
        "Methodref" => tell_caller(told, classes, question, first, false, third),
        "InterfaceMethodref" => tell_caller(told, classes, question, first, true, third),
        _ => {
            let (class, named) = (words::class(told, first), words::class(told, second));
            let method = words::method(told, third);
            tell_classes(told, classes, question, class, named, &method);
        }
    }
}
