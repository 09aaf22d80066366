//! What is looked for before a sketch is written.

ghost use Rattle.std.specs.Prelude.{◌≡◌, ◌||◌, position};
ghost use Rattle.std.specs.List.{list_any};
ghost use Rattle.jl_sketch.specs.Constants.{has_code};
ghost use Rattle.jl_sketch.specs.Faults.{is_long, are_long, is_long_method_name, is_long_call, is_long_method, is_long_if_any, is_long_sketch};
ghost use Rattle.jl_sketch.specs.Faults.{calls_without_code};

use crate::sketch::{Call, MethodName, Sketch, SketchMethod};
use jl_class::{ABSTRACT, NATIVE, has_flag};
use jl_names::Name;

/// The most bytes of a text, and the most entries of a list.
const MOST: usize = 65_535;

/// Whether a method has code (JVMS SE 17 §4.7.3).
pub(crate) fn has_code(flags: u16) -> bool
    ensures { result ≡ has_code flags }
{
    !has_flag(flags, ABSTRACT) && !has_flag(flags, NATIVE)
}

/// The first method that has calls, but no code for them.
pub(crate) fn first_without_code(methods: &[SketchMethod]) -> Option<usize>
    ensures { result ≡ position calls_without_code methods.now }
{
    methods.iter().position(|method| !has_code(method.flags) && !method.calls.as_slice().is_empty())
}

/// Whether there are more than 65,535.
fn is_long<T>(items: &[T]) -> bool
    ensures { result ≡ is_long items.now }
{
    items.len() > MOST
}

/// Whether the name has more than 65,535 bytes.
fn is_long_name(name: &Name) -> bool
    ensures { result ≡ is_long name.now }
{
    is_long(name.as_slice())
}

/// Whether there is a name, of more than 65,535 bytes.
fn is_long_if_any(name: &Option<Name>) -> bool
    ensures { result ≡ is_long_if_any name.now }
{
    match name {
        Some(name) => is_long_name(name),
        None => false,
    }
}

/// Whether one of the names has more than 65,535 bytes.
fn is_one_long(names: &[Name]) -> bool
    ensures { result ≡ list_any is_long names.now }
{
    names.iter().any(is_long_name)
}

/// Whether there are too many names, or one of them is too long.
fn are_long(names: &[Name]) -> bool
    ensures { result ≡ are_long names.now }
{
    is_long(names) || is_one_long(names)
}

/// Whether the owner, the name or the descriptor has more than 65,535 bytes.
fn is_long_method_name(method: &MethodName) -> bool
    ensures { result ≡ is_long_method_name method.now }
{
    is_long_name(&method.owner) || is_long_name(&method.name) || is_long_name(&method.ty)
}

/// Whether a name in the call has more than 65,535 bytes.
fn is_long_call(call: &Call) -> bool
    ensures { result ≡ is_long_call call.now }
{
    match call {
        Call::Virtual(method) => is_long_method_name(method),
        Call::Special(_, method) => is_long_method_name(method),
        Call::Static(_, method) => is_long_method_name(method),
        Call::Interface(method) => is_long_method_name(method),
        Call::Dynamic(name, ty) => is_long_name(name) || is_long_name(ty),
    }
}

/// Whether one of the calls has a name that is too long.
fn is_one_call_long(calls: &[Call]) -> bool
    ensures { result ≡ list_any is_long_call calls.now }
{
    calls.iter().any(is_long_call)
}

/// Whether the method has a name or a list of calls that is too long.
fn is_long_method(method: &SketchMethod) -> bool
    ensures { result ≡ is_long_method method.now }
{
    let calls = method.calls.as_slice();
    is_long_name(&method.name)
        || is_long_name(&method.ty)
        || is_long(calls)
        || is_one_call_long(calls)
}

/// Whether one of the methods is too long.
fn is_one_method_long(methods: &[SketchMethod]) -> bool
    ensures { result ≡ list_any is_long_method methods.now }
{
    methods.iter().any(is_long_method)
}

/// Whether a text or a list of the sketch is too long.
pub(crate) fn is_long_sketch(sketch: &Sketch) -> bool
    ensures { result ≡ is_long_sketch sketch.now }
{
    let methods = sketch.methods.as_slice();
    is_long_name(&sketch.name)
        || is_long_if_any(&sketch.superclass)
        || are_long(sketch.interfaces.as_slice())
        || is_long(methods)
        || is_one_method_long(methods)
        || is_long_if_any(&sketch.host)
        || are_long(sketch.members.as_slice())
}
