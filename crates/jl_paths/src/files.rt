//! Class files that are read from their paths.

ghost use Rattle.std.specs.Prelude.{◌≡◌, map, IfOk};

use crate::order::parents_first;
use crate::paths::{Named, PathFault, Paths, Special};
use jl_class::ClassFile;
use jl_classfile::{ClassFault, NEWEST_OF_17, Version, read_class_up_to, version_of};
use std::alloc::{AllocError, Global};
use std::fs::File;
use std::io::{ErrorKind, Read};
use std::rt::Files;
use std::{fs, io};

/// A class file longer than this isn't read to its end.
const MOST_BYTES: usize = 1_000_000;
/// So many bytes are read at a time.
const BYTES_AT_ONCE: usize = 16_384;
/// What a zip file begins with, and so a jar.
const ARCHIVE_START: &[u8] = b"PK";

/// Where a file was, and whether its class is reported.
#[derive(Debug, Drop)]
pub struct Source {
    pub path: String,
    pub is_reported: bool,
}

/// Why a file is no class file.
#[derive(Clone, Copy, Debug, PartialEq, Eq)]
pub enum NoClassReason {
    /// It is an archive, as a jar, whose classes have to be unpacked first.
    Archive,
    /// It is no file of bytes, so it isn't opened.
    Special(Special),
    /// It begins as one does, and isn't read for its version.
    OfVersion(Version),
    /// It isn't one by this fault.
    Malformed(ClassFault),
}

/// A file that is no class file, and why.
#[derive(Debug, Drop)]
pub struct NoClass {
    pub source: Source,
    pub reason: NoClassReason,
}

/// A class file that was found.
#[derive(Drop)]
pub(crate) struct Found {
    pub(crate) file: ClassFile,
    source: Source,
    /// Its place in the order of definition.
    rank: usize,
}

/// Class files, parents first, where each was, those that are none, and paths that couldn't be read.
#[derive(Drop)]
pub struct Gathered {
    pub files: Vec<ClassFile>,
    pub sources: Vec<Source>,
    pub no_classes: Vec<NoClass>,
    pub faults: Vec<PathFault>,
    /// How many of the class files are of a version above those of SE 17.
    pub later: u64,
}

impl Gathered {
    /// Adds the files that were found, and where each was.
    fn add_all(&mut self, found: Vec<Found>) -> Result<(), AllocError> {
        for one in found {
            self.files.push(one.file)?;
            self.sources.push(one.source)?;
        }
        Ok(())
    }
}

/// What is read of the paths, and of those beside them.
struct Reading {
    found: Vec<Found>,
    no_classes: Vec<NoClass>,
    faults: Vec<PathFault>,
    later: u64,
}

/// Written out, so that what drops one makes one call of it and doesn't take apart what it holds.
impl Drop for Reading {
    fn drop(self) {
        let Reading {
            found: _found,
            no_classes: _no_classes,
            faults: _faults,
            later: _later,
        } = self;
    }
}

impl Reading {
    /// Reads what is below the paths.
    fn add_all<R: Files + AllocGlobal + Clone + Drop>(
        &mut self,
        rt: &R,
        paths: &[String],
        is_reported: bool,
        newest: u16,
    ) -> Result<(), AllocError> {
        for path in paths {
            let mut below = Paths {
                found: Vec::new(rt.alloc()),
                faults: Vec::new(rt.alloc()),
            };
            below.add(rt, path.as_str())?;
            for Named { path, special } in below.found {
                let source = Source { path, is_reported };
                match special {
                    Some(special) => self.no_classes.push(NoClass {
                        source,
                        reason: NoClassReason::Special(special),
                    })?,
                    None => self.add(rt, source, newest)?,
                }
            }
            self.faults.extend(below.faults)?;
        }
        Ok(())
    }

    /// Reads the file.
    fn add<R: Files + AllocGlobal + Clone + Drop>(
        &mut self,
        rt: &R,
        source: Source,
        newest: u16,
    ) -> Result<(), AllocError> {
        match read_file(rt, source.path.as_str(), newest) {
            Ok(Ok(ReadFile { file, is_later })) => {
                self.later = self.later.saturating_add(u64::from(is_later));
                self.found.push(Found {
                    file,
                    source,
                    rank: 0,
                })?
            }
            Ok(Err(NoClassReason::Malformed(ClassFault::Memory))) => return Err(AllocError),
            Ok(Err(reason)) => self.no_classes.push(NoClass { source, reason })?,
            Err(error) => match error.kind() {
                ErrorKind::OutOfMemory => return Err(AllocError),
                kind => self.faults.push(PathFault {
                    path: source.path,
                    kind,
                })?,
            },
        }
        Ok(())
    }

    /// What was read, in the order in which it was found.
    fn gathered(self, alloc: Global) -> Result<Gathered, AllocError> {
        let Reading {
            found,
            no_classes,
            faults,
            later,
        } = self;
        let mut gathered = Gathered {
            files: Vec::new(alloc),
            sources: Vec::new(alloc),
            no_classes,
            faults,
            later,
        };
        gathered.add_all(found)?;
        Ok(gathered)
    }
}

/// A class file, and whether its version is above those of SE 17.
#[derive(Drop)]
struct ReadFile {
    file: ClassFile,
    is_later: bool,
}

/// The class file of this path, up to this newest major version, or why it is none.
fn read_file<R: Files + AllocGlobal>(
    rt: &R,
    path: &str,
    newest: u16,
) -> io::Result<Result<ReadFile, NoClassReason>> {
    let bytes = first_bytes(rt, path)?;
    if bytes.starts_with(ARCHIVE_START) {
        return Ok(Err(NoClassReason::Archive));
    }
    Ok(read_bytes(rt.alloc(), newest, &bytes))
}

/// The bytes of the file. Of one longer than [`MOST_BYTES`] it is no more than these and what was read with the last of them. So a file
/// that never ends is too large.
fn first_bytes<R: Files + AllocGlobal>(rt: &R, path: &str) -> io::Result<Vec<u8>> {
    let mut file = File::open(rt, path)?;
    let mut bytes = Vec::new(rt.alloc());
    let mut part = [0u8; BYTES_AT_ONCE];
    for _ in 0..u64::MAX {
        let count = match file.read(&mut part) {
            Ok(count) => count,
            Err(error) if error.kind() == ErrorKind::Interrupted => continue,
            Err(error) => return Err(error),
        };
        bytes.extend_from_slice(&part[..count])?;
        if count == 0 || bytes.len() > MOST_BYTES {
            break;
        }
    }
    Ok(bytes)
}

/// The class file that the bytes are, or why they are none.
fn read_bytes(alloc: Global, newest: u16, bytes: &[u8]) -> Result<ReadFile, NoClassReason> {
    let version = version_of(bytes);
    match (read_class_up_to(alloc, newest, bytes), version) {
        (Ok(file), _) => Ok(ReadFile {
            file,
            is_later: matches!(version, Some(Version { major, .. }) if major > NEWEST_OF_17),
        }),
        (Err(ClassFault::BadVersion), Some(version)) => Err(NoClassReason::OfVersion(version)),
        (Err(fault), _) => Err(NoClassReason::Malformed(fault)),
    }
}

/// Whether the class of each source is reported, if it is there.
pub fn are_reported(alloc: Global, sources: &[Source]) -> Result<Vec<bool>, AllocError>
    ensures { IfOk result (λ reported. reported.items ≡ map (λ source. source.is_reported) sources.now) }
{
    let mut reported = Vec::with_capacity(alloc, sources.len())?;
    for source in sources {
        reported.push(source.is_reported)?;
    }
    Ok(reported)
}

/// Reads what is below the paths, and what is below those beside them, up to this newest major version. Parents come first, else names are
/// in order. Of two files of one name the one of the earlier path comes first.
pub fn read_all<R: Files + AllocGlobal + Clone + Drop>(
    rt: &R,
    paths: &[String],
    beside: &[String],
    newest: u16,
) -> Result<Gathered, AllocError> {
    let mut reading = Reading {
        found: Vec::new(rt.alloc()),
        no_classes: Vec::new(rt.alloc()),
        faults: Vec::new(rt.alloc()),
        later: 0,
    };
    reading.add_all(rt, paths, true, newest)?;
    reading.add_all(rt, beside, false, newest)?;
    sort_all(rt.alloc(), &mut reading.found)?;
    reading.gathered(rt.alloc())
}

/// Puts the files into the order of definition: parents first, else by name.
fn sort_all(alloc: Global, found: &mut Vec<Found>) -> Result<(), AllocError> {
    found.sort_by(|a, b| a.file.name().as_slice().cmp(b.file.name().as_slice()))?;
    let order = parents_first(alloc, found)?;
    for (rank, place) in order.iter().enumerate() {
        if let Some(one) = found.get_mut(*place) {
            one.rank = rank;
        }
    }
    found.sort_unstable_by_key(|one| one.rank);
    Ok(())
}
