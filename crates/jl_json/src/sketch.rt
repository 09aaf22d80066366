//! Sketches of class files, read from JSON.
//!
//! A text becomes modified UTF-8 (JVMS SE 17 §4.4.7). What may be absent may not be null.

ghost use Rattle.std.specs.Prelude.{◌≡◌, ℕ, List, false, map, codes, if◌then◌else◌, None, Some, IfOk};
ghost use Rattle.std.specs.List.{list_all, list_any};
ghost use Rattle.std.specs.Str.{bytes_eq};
ghost use Rattle.serde_json.specs.Data.{Data};
ghost use Rattle.serde_json.specs.Find.{as_bool};
ghost use Rattle.serde_json.specs.View.{view, members_view};
ghost use Rattle.jl_sketch.specs.declared.sketch.Sketch.{Sketch};
ghost use Rattle.jl_json.specs.Members.{or_absent, member_keys, has_key};
ghost use Rattle.jl_json.specs.Members.{has_only, keys_of, AreAmong};
ghost use Rattle.jl_json.specs.Sketches.{text_units, text_name, name_in, name_at, name_if_any};
ghost use Rattle.jl_json.specs.Sketches.{method_name_in, plain_call, marked_call};
ghost use Rattle.jl_json.specs.Sketches.{dynamic_call, call_in, method_in, sketch_keys, sketch_of};
ghost use Rattle.jl_json.specs.ForProofs.SketchParts.{with_lists};
ghost use Rattle.jl_json.specs.SketchForms.{sketch_data, HasForm};

use crate::command::{index_at, text_at};
use crate::from_json::{FromJson, list_if_any};
use jl_names::{Name, Seq, encode_mutf8};
use jl_sketch::{Call, MethodName, Sketch, SketchMethod};
use serde_json::{Map, Value};
use std::alloc::{AllocError, Global};

// ---- keys

/// Whether the key is one of those named.
fn is_among(named: &[&str], key: &str) -> bool
    ensures { result ≡ list_any (λ name. bytes_eq key.now name.now) named.now }
{
    for name in named {
        if key == *name {
            return true;
        }
    }
    false
}

/// Whether each key of the members is one of those named.
fn are_among(members: &Map<String, Value>, named: &[&str]) -> bool
    ensures { result ≡ list_all (has_key (map (λ name. name.now) named.now))
        (member_keys (members_view members.now.entries)) }
{
    for key in members.keys() {
        if !is_among(named, key) {
            return false;
        }
    }
    true
}

/// Whether the value has no keys but those named.
fn has_only(value: &Value, named: &[&str]) -> bool
    ensures { result ≡ has_only (map (λ name. name.now) named.now) (view value.now) }
{
    match value.as_object() {
        Some(members) => are_among(members, named),
        None => true,
    }
}

// ---- names

/// The units of the text in UTF-16.
fn text_units(alloc: Global, text: &str) -> Result<Vec<u16>, AllocError>
    ensures { IfOk result (λ units. units.items ≡ text_units text.now) }
{
    let mut units = Vec::with_capacity(alloc, text.len())?;
    for c in text.chars() {
        let mut pair = [0; 2];
        units.extend_from_slice(c.encode_utf16(&mut pair))?;
    }
    Ok(units)
}

/// The text in modified UTF-8.
fn text_name(alloc: Global, text: &str) -> Result<Name, AllocError>
    ensures { IfOk result (λ name. name ≡ text_name text.now) }
{
    let units = text_units(alloc, text)?;
    match encode_mutf8(alloc, &units) {
        Ok(bytes) => Name::of(bytes),
        // Want of memory is its only error.
        Err(_) => Err(AllocError),
    }
}

impl FromJson for Name {
    ghost read = { name_in };

    fn from_json(alloc: Global, value: &Value) -> Result<Option<Self>, AllocError> {
        match value.as_str() {
            Some(text) => Ok(Some(text_name(alloc, text)?)),
            None => Ok(None),
        }
    }
}

/// The name under the key.
pub(crate) fn name_at(alloc: Global, value: &Value, key: &str) -> Result<Option<Name>, AllocError>
    ensures { IfOk result (λ name. name ≡ name_at key.now (view value.now)) }
{
    match value.get(key) {
        Some(text) => Name::from_json(alloc, text),
        None => Ok(None),
    }
}

/// The name under the key, if there is such a key.
fn name_if_any(alloc: Global, value: &Value, key: &str) -> Result<Option<Option<Name>>, AllocError>
    ensures { IfOk result (λ name. name ≡ name_if_any key.now (view value.now)) }
{
    match value.get(key) {
        Some(text) => Ok(Name::from_json(alloc, text)?.map(Some)),
        None => Ok(Some(None)),
    }
}

// ---- calls

/// A method by its class, name and descriptor.
fn method_name(alloc: Global, value: &Value) -> Result<Option<MethodName>, AllocError>
    ensures { IfOk result (λ method. method ≡ method_name_in (view value.now)) }
{
    let Some(owner) = name_at(alloc, value, "of")? else {
        return Ok(None);
    };
    let Some(name) = name_at(alloc, value, "name")? else {
        return Ok(None);
    };
    let Some(ty) = name_at(alloc, value, "type")? else {
        return Ok(None);
    };
    Ok(Some(MethodName { owner, name, ty }))
}

/// The method of a call that has no mark of an interface's method.
fn plain_call(alloc: Global, value: &Value) -> Result<Option<MethodName>, AllocError>
    ensures { IfOk result (λ call. call ≡ plain_call (view value.now)) }
{
    if !has_only(value, &["kind", "of", "name", "type"]) {
        return Ok(None);
    }
    method_name(alloc, value)
}

/// The mark of an interface's method: false if there is none.
fn mark(value: &Value) -> Option<bool>
    ensures { result ≡ or_absent false as_bool (codes "itf") (view value.now) }
{
    match value.get("itf") {
        Some(mark) => mark.as_bool(),
        None => Some(false),
    }
}

/// The method of a call that may have such a mark, and the mark.
fn marked_call(alloc: Global, value: &Value) -> Result<Option<(bool, MethodName)>, AllocError>
    ensures { IfOk result (λ call. call ≡ marked_call (view value.now)) }
{
    if !has_only(value, &["kind", "of", "name", "type", "itf"]) {
        return Ok(None);
    }
    let Some(mark) = mark(value) else {
        return Ok(None);
    };
    match method_name(alloc, value)? {
        Some(method) => Ok(Some((mark, method))),
        None => Ok(None),
    }
}

/// An invokedynamic.
fn dynamic_call(alloc: Global, value: &Value) -> Result<Option<Call>, AllocError>
    ensures { IfOk result (λ call. call ≡ dynamic_call (view value.now)) }
{
    if !has_only(value, &["kind", "name", "type"]) {
        return Ok(None);
    }
    let Some(name) = name_at(alloc, value, "name")? else {
        return Ok(None);
    };
    match name_at(alloc, value, "type")? {
        Some(ty) => Ok(Some(Call::Dynamic(name, ty))),
        None => Ok(None),
    }
}

impl FromJson for Call {
    ghost read = { call_in };

    fn from_json(alloc: Global, value: &Value) -> Result<Option<Self>, AllocError> {
        let Some(kind) = text_at(value, "kind") else {
            return Ok(None);
        };
        match kind {
            "invokevirtual" => Ok(plain_call(alloc, value)?.map(Call::Virtual)),
            "invokespecial" => {
                let call = marked_call(alloc, value)?;
                Ok(call.map(|(mark, method)| Call::Special(mark, method)))
            }
            "invokestatic" => {
                let call = marked_call(alloc, value)?;
                Ok(call.map(|(mark, method)| Call::Static(mark, method)))
            }
            "invokeinterface" => Ok(plain_call(alloc, value)?.map(Call::Interface)),
            "invokedynamic" => dynamic_call(alloc, value),
            _ => Ok(None),
        }
    }
}

// ---- methods

impl FromJson for SketchMethod {
    ghost read = { method_in };

    fn from_json(alloc: Global, value: &Value) -> Result<Option<Self>, AllocError> {
        if !has_only(value, &["name", "type", "flags", "calls"]) {
            return Ok(None);
        }
        let Some(name) = name_at(alloc, value, "name")? else {
            return Ok(None);
        };
        let Some(ty) = name_at(alloc, value, "type")? else {
            return Ok(None);
        };
        let Some(flags) = index_at(value, "flags") else {
            return Ok(None);
        };
        let Some(calls) = list_if_any(alloc, value, "calls")? else {
            return Ok(None);
        };
        Ok(Some(SketchMethod {
            name,
            ty,
            flags,
            calls,
        }))
    }
}

// ---- the sketch

/// The keys that a sketch may have.
const SKETCH_KEYS: [&str; 7] = [
    "name",
    "flags",
    "super",
    "interfaces",
    "methods",
    "host",
    "members",
];

/// Reads interfaces, methods, nest host and members into the sketch, each of which may be left out. Tells whether each is as it should be.
fn read_lists(alloc: Global, value: &Value, sketch: &mut Sketch) -> Result<bool, AllocError>
    ensures { IfOk result (λ whole. (if whole then Some sketch.new else None) ≡ with_lists sketch.old (view value.now)) }
{
    let Some(interfaces) = list_if_any(alloc, value, "interfaces")? else {
        return Ok(false);
    };
    sketch.interfaces = interfaces;
    let Some(methods) = list_if_any(alloc, value, "methods")? else {
        return Ok(false);
    };
    sketch.methods = methods;
    let Some(host) = name_if_any(alloc, value, "host")? else {
        return Ok(false);
    };
    sketch.host = host;
    let Some(members) = list_if_any(alloc, value, "members")? else {
        return Ok(false);
    };
    sketch.members = members;
    Ok(true)
}

/// The sketch that the JSON is, or `None` if it is none. A sketch is an object of the members that a
/// sketch has, and of no others. So are its methods and their calls.
///
/// # Errors
///
/// Want of memory.
pub fn read_sketch(alloc: Global, value: &Value) -> Result<Option<Sketch>, AllocError>
    ensures { IfOk result (λ s. s ≡ sketch_of (view value.now)) }
{
    if !has_only(value, &SKETCH_KEYS) {
        return Ok(None);
    }
    let Some(name) = name_at(alloc, value, "name")? else {
        return Ok(None);
    };
    let Some(flags) = index_at(value, "flags") else {
        return Ok(None);
    };
    let Some(superclass) = name_if_any(alloc, value, "super")? else {
        return Ok(None);
    };
    let mut sketch = Sketch {
        name,
        flags,
        superclass,
        interfaces: Seq::of(Vec::new(alloc)),
        methods: Seq::of(Vec::new(alloc)),
        host: None,
        members: Seq::of(Vec::new(alloc)),
    };
    if read_lists(alloc, value, &mut sketch)? {
        Ok(Some(sketch))
    } else {
        Ok(None)
    }
}

/// What is read as a sketch has no keys but those of a sketch.
pub fn no_other_sketch_keys()
    ensures { (d : Data) (s : Sketch) → sketch_of d ≡ Some s → AreAmong (keys_of d) sketch_keys }
{}

/// Each sketch is read from its form, by whatever gives a text for each of its names: one that reads as the name.
pub fn each_sketch_is_read()
    ensures { (text_of : List ℕ → List ℕ) (s : Sketch) → HasForm text_of s
        → sketch_of (sketch_data text_of s) ≡ Some s }
{}
