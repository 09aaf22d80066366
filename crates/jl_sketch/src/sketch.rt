//! Sketches.

use jl_names::{Name, Seq};

/// A class file to be written (JVMS SE 17 §4.1), of version 61.0 and without fields: its name, access flags,
/// superclass, direct superinterfaces and methods, its nest host and the members of its nest (§4.7.28, §4.7.29). Each
/// text is in modified UTF-8 (§4.4.7), and may be any.
#[derive(Debug)]
pub struct Sketch {
    pub name: Name,
    pub flags: u16,
    pub superclass: Option<Name>,
    pub interfaces: Seq<Name>,
    pub methods: Seq<SketchMethod>,
    pub host: Option<Name>,
    pub members: Seq<Name>,
}

/// Written out, so that what drops one makes one call of it and doesn't take apart what it holds.
impl Drop for Sketch {
    fn drop(self) {
        let Sketch {
            name: _name,
            flags: _flags,
            superclass: _superclass,
            interfaces: _interfaces,
            methods: _methods,
            host: _host,
            members: _members,
        } = self;
    }
}

/// A method (§4.6). Its code, unless it is abstract or native, is the calls in order and a return.
#[derive(Debug)]
pub struct SketchMethod {
    pub name: Name,
    pub ty: Name,
    pub flags: u16,
    pub calls: Seq<Call>,
}

/// Written out, so that what drops one makes one call of it and doesn't take apart what it holds.
impl Drop for SketchMethod {
    fn drop(self) {
        let SketchMethod {
            name: _name,
            ty: _ty,
            flags: _flags,
            calls: _calls,
        } = self;
    }
}

/// A method by its class, name and descriptor (§4.4.2).
#[derive(Debug)]
pub struct MethodName {
    pub owner: Name,
    pub name: Name,
    pub ty: Name,
}

/// Written out, so that what drops one makes one call of it and doesn't take apart what it holds.
impl Drop for MethodName {
    fn drop(self) {
        let MethodName {
            owner: _owner,
            name: _name,
            ty: _ty,
        } = self;
    }
}

/// An invocation (§6.5): invokevirtual, invokespecial, invokestatic, invokeinterface, invokedynamic.
#[derive(Debug, Drop)]
pub enum Call {
    /// By a Methodref.
    Virtual(MethodName),
    /// By an InterfaceMethodref if the flag is true, else by a Methodref. So it is of `Static`.
    Special(bool, MethodName),
    Static(bool, MethodName),
    /// By an InterfaceMethodref.
    Interface(MethodName),
    /// A call site of the bootstrap method 0, by a name and a descriptor.
    Dynamic(Name, Name),
}
