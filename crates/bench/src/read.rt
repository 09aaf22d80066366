//! Measures the reader of class files alone: reads each of them eleven times over, and in turn with the newest known version for the newest of
//! SE 17. With the word `keep` it reads each once and keeps what was read, so that the most memory of such a run beside that of a run without
//! words tells what class files take.

use crate::told::tell;
use jl_classfile::{NEWEST_KNOWN, read_class, read_class_up_to};
use std::alloc::Global;
use std::io;
use std::time::Instant;

/// How often all class files are read.
const TIMES: u32 = 11;

/// How many of the class files are read.
pub(crate) fn read_each(alloc: Global, files: &[Vec<u8>]) -> u64 {
    let mut read: u64 = 0;
    for bytes in files {
        if read_class(alloc, bytes).is_ok() {
            read = read.saturating_add(1);
        }
    }
    read
}

/// How many of the class files are read up to the newest known version.
fn read_each_known(alloc: Global, files: &[Vec<u8>]) -> u64 {
    let mut read: u64 = 0;
    for bytes in files {
        if read_class_up_to(alloc, NEWEST_KNOWN, bytes).is_ok() {
            read = read.saturating_add(1);
        }
    }
    read
}

/// Reads the class files over and over.
pub(crate) fn measure(rt: &HostRuntime, files: &[Vec<u8>]) -> io::Result<()> {
    for _ in 0..TIMES {
        let start = Instant::now(rt)?;
        tell(rt, "classes", read_each(rt.alloc(), files), &start)?;
        let start = Instant::now(rt)?;
        tell(rt, "known", read_each_known(rt.alloc(), files), &start)?;
    }
    Ok(())
}

/// Reads each class file once, and keeps it.
pub(crate) fn keep(rt: &HostRuntime, files: &[Vec<u8>]) -> io::Result<()> {
    let start = Instant::now(rt)?;
    let mut kept = Vec::new(rt.alloc());
    for bytes in files {
        if let Ok(class) = read_class(rt.alloc(), bytes) {
            kept.push(class)?;
        }
    }
    tell(rt, "kept", kept.len() as u64, &start)
}
