//! The reading of class files whose growths may be refused.

use crate::answers::{Called, tell_memory, told};
use crate::files::{A, B, C, M, OBJECT, T};
use jl_class::ClassFile;
use jl_classfile::{ClassFault, read_class};
use std::io::{self, ErrorKind};

/// The files, with the names of their classes.
const FILES: &[(&str, &[u8])] = &[
    ("java/lang/Object", OBJECT),
    ("A", A),
    ("B", B),
    ("M", M),
    ("C", C),
    ("T", T),
];

/// Prints what a file shows: the name, the superclass, the flags and how many methods there are.
fn told_file(rt: &HostRuntime, called: Called, file: &ClassFile) -> io::Result<bool> {
    told(rt, called, file.name())?;
    told(rt, called, &file.superclass())?;
    told(rt, called, &(file.flags(), file.methods().len()))
}

/// Reads the file, and prints what was read or why it wasn't. It gives whether there was no memory, which it doesn't print.
fn read(rt: &HostRuntime, called: Called, bytes: &[u8]) -> io::Result<bool> {
    match &read_class(rt.alloc(), bytes) {
        Ok(file) => told_file(rt, called, file),
        Err(ClassFault::Memory) => Ok(true),
        Err(_) => Err(ErrorKind::InvalidData.into()),
    }
}

/// Reads the file, and once more if there was no memory.
fn watch(rt: &HostRuntime, deed: &'static str, bytes: &[u8]) -> io::Result<()> {
    let called = Called {
        of: "reading",
        deed,
    };
    if read(rt, called, bytes)? {
        tell_memory(rt, called)?;
        if read(rt, called, bytes)? {
            return Err(ErrorKind::OutOfMemory.into());
        }
    }
    Ok(())
}

/// Reads each file.
pub(crate) fn read_all(rt: &HostRuntime) -> io::Result<()> {
    for (name, bytes) in FILES {
        watch(rt, name, bytes)?;
    }
    Ok(())
}
