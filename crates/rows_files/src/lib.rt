//! Class files for tests, made from sketches. No clause says anything of them: that a sketch is written as a class file is
//! jl_sketch's contract, and that it is read, jl_classfile's.
#![tactic(auto)]

use jl_class::ClassFile;
use jl_classfile::read_class;
use jl_names::{Name, Seq};
use jl_sketch::{Call, MethodName, Sketch, SketchMethod, write_class};
use std::alloc::{AllocError, Global};

/// The name of the class that has no superclass.
pub const OBJECT: &str = "java/lang/Object";

/// A method by its name, descriptor and access flags.
pub type MethodRow = (&'static str, &'static str, u16);

/// The static method that makes the calls of a class. It stands before the other methods.
const CALLER: MethodRow = ("m", NOTHING, 9);

/// The descriptor of each method that is called, and of the one that calls.
const NOTHING: &str = "()V";

/// A call of a method of the type ()V, by the class and the method's name that it names. In the code it takes 3 bytes, and 5 at
/// invokeinterface and invokedynamic.
#[derive(Clone, Copy)]
pub enum CallRow {
    /// invokevirtual.
    Virtual(&'static str, &'static str),
    /// invokespecial, by a Methodref.
    Special(&'static str, &'static str),
    /// invokespecial, by an InterfaceMethodref.
    SpecialOfInterface(&'static str, &'static str),
    /// invokestatic, by a Methodref.
    Static(&'static str, &'static str),
    /// invokestatic, by an InterfaceMethodref.
    StaticOfInterface(&'static str, &'static str),
    /// invokeinterface.
    Interface(&'static str, &'static str),
    /// invokedynamic, of a call site of this name.
    Dynamic(&'static str),
}

/// What the class file of a class has. Its first method makes the calls, if there are any.
#[derive(Clone, Copy)]
struct ClassRow<'a> {
    name: &'a str,
    flags: u16,
    superclass: Option<&'a str>,
    interfaces: &'a [&'a str],
    calls: &'a [CallRow],
    methods: &'a [MethodRow],
}

/// A name of this text.
pub fn named(alloc: Global, text: &str) -> Result<Name, AllocError> {
    Name::copied(alloc, text.as_bytes())
}

/// A name of this text, if there is one.
fn named_if_any(alloc: Global, text: Option<&str>) -> Result<Option<Name>, AllocError> {
    match text {
        Some(text) => Ok(Some(named(alloc, text)?)),
        None => Ok(None),
    }
}

/// Names of these texts, in order.
fn all_named(alloc: Global, texts: &[&str]) -> Result<Seq<Name>, AllocError> {
    let mut names = Vec::new(alloc);
    for text in texts {
        names.push(named(alloc, text)?)?;
    }
    Ok(Seq::of(names))
}

/// The method of this name in this class.
fn method_name(alloc: Global, owner: &str, name: &str) -> Result<MethodName, AllocError> {
    Ok(MethodName {
        owner: named(alloc, owner)?,
        name: named(alloc, name)?,
        ty: named(alloc, NOTHING)?,
    })
}

/// The call of a row.
fn call(alloc: Global, row: &CallRow) -> Result<Call, AllocError> {
    Ok(match row {
        CallRow::Virtual(owner, name) => Call::Virtual(method_name(alloc, owner, name)?),
        CallRow::Special(owner, name) => Call::Special(false, method_name(alloc, owner, name)?),
        CallRow::SpecialOfInterface(owner, name) => {
            Call::Special(true, method_name(alloc, owner, name)?)
        }
        CallRow::Static(owner, name) => Call::Static(false, method_name(alloc, owner, name)?),
        CallRow::StaticOfInterface(owner, name) => {
            Call::Static(true, method_name(alloc, owner, name)?)
        }
        CallRow::Interface(owner, name) => Call::Interface(method_name(alloc, owner, name)?),
        CallRow::Dynamic(name) => Call::Dynamic(named(alloc, name)?, named(alloc, NOTHING)?),
    })
}

/// These calls, in order.
fn all_calls(alloc: Global, rows: &[CallRow]) -> Result<Seq<Call>, AllocError> {
    let mut calls = Vec::new(alloc);
    for row in rows {
        calls.push(call(alloc, row)?)?;
    }
    Ok(Seq::of(calls))
}

/// A method that makes these calls.
fn method(alloc: Global, row: &MethodRow, calls: &[CallRow]) -> Result<SketchMethod, AllocError> {
    let (name, ty, flags) = *row;
    Ok(SketchMethod {
        name: named(alloc, name)?,
        ty: named(alloc, ty)?,
        flags,
        calls: all_calls(alloc, calls)?,
    })
}

/// The method that makes these calls, if there are any, and these methods, in order.
fn all_methods(
    alloc: Global,
    calls: &[CallRow],
    methods: &[MethodRow],
) -> Result<Seq<SketchMethod>, AllocError> {
    let mut made = Vec::new(alloc);
    if !calls.is_empty() {
        made.push(method(alloc, &CALLER, calls)?)?;
    }
    for row in methods {
        made.push(method(alloc, row, &[])?)?;
    }
    Ok(Seq::of(made))
}

/// A class of this name and these flags, without a superclass, and with nothing else.
fn bare(alloc: Global, name: &str, flags: u16) -> Result<Sketch, AllocError> {
    Ok(Sketch {
        name: named(alloc, name)?,
        flags,
        superclass: None,
        interfaces: Seq::of(Vec::new(alloc)),
        methods: Seq::of(Vec::new(alloc)),
        host: None,
        members: Seq::of(Vec::new(alloc)),
    })
}

/// Gives the sketch what else the row has.
fn fill(alloc: Global, sketch: &mut Sketch, row: &ClassRow<'_>) -> Result<(), AllocError> {
    sketch.superclass = named_if_any(alloc, row.superclass)?;
    sketch.interfaces = all_named(alloc, row.interfaces)?;
    sketch.methods = all_methods(alloc, row.calls, row.methods)?;
    Ok(())
}

/// What is read of the sketch's class file, once it is filled. `None` if it is no class file.
fn filled_file(alloc: Global, sketch: &mut Sketch, row: &ClassRow<'_>) -> Option<ClassFile> {
    fill(alloc, sketch, row).ok()?;
    let bytes = write_class(alloc, sketch).ok()?;
    read_class(alloc, &bytes).ok()
}

/// What is read of the row's class file.
fn file_of(alloc: Global, row: &ClassRow<'_>) -> Option<ClassFile> {
    match bare(alloc, row.name, row.flags) {
        Ok(mut sketch) => filled_file(alloc, &mut sketch, row),
        Err(_) => None,
    }
}

/// The class file of a class below this superclass, if there is one, and these superinterfaces.
pub fn class(
    alloc: Global,
    name: &str,
    flags: u16,
    superclass: Option<&str>,
    interfaces: &[&str],
    methods: &[MethodRow],
) -> Option<ClassFile> {
    file_of(
        alloc,
        &ClassRow {
            name,
            flags,
            superclass,
            interfaces,
            calls: &[],
            methods,
        },
    )
}

/// The class file of a class whose first method makes these calls, below this superclass and these superinterfaces.
pub fn calling(
    alloc: Global,
    name: &str,
    flags: u16,
    superclass: &str,
    interfaces: &[&str],
    calls: &[CallRow],
    methods: &[MethodRow],
) -> Option<ClassFile> {
    file_of(
        alloc,
        &ClassRow {
            name,
            flags,
            superclass: Some(superclass),
            interfaces,
            calls,
            methods,
        },
    )
}
