//! Class files below paths.

use std::alloc::{AllocError, Global};
use std::fs::{DirEntry, FileType};
use std::io::ErrorKind;
use std::os::unix::fs::FileTypeExt;
use std::rt::Files;
use std::{fs, io};

/// A path that couldn't be read, and why.
#[derive(Debug, Drop)]
pub struct PathFault {
    pub path: String,
    pub kind: ErrorKind,
}

/// What is no file of bytes, and no folder. Some of these never end, and some are waited for.
#[derive(Clone, Copy, Debug, PartialEq, Eq)]
pub enum Special {
    /// A pipe.
    Fifo,
    /// A socket.
    Socket,
    /// A device, as a terminal or a disk.
    Device,
}

/// The path of a file, and what else it is, if it is no file of bytes.
#[derive(Drop)]
pub(crate) struct Named {
    pub(crate) path: String,
    pub(crate) special: Option<Special>,
}

/// Paths of class files, in order, and those that couldn't be read.
#[derive(Drop)]
pub(crate) struct Paths {
    pub(crate) found: Vec<Named>,
    pub(crate) faults: Vec<PathFault>,
}

/// What is in a folder.
#[derive(Drop)]
struct Entry {
    path: String,
    is_folder: bool,
}

/// What is in a folder, and why a name in it couldn't be read, if one couldn't.
#[derive(Drop)]
struct Listed {
    entries: Vec<Entry>,
    fault: Option<ErrorKind>,
}

impl Paths {
    /// Adds the file of this path, whatever its name. Of a folder it adds all files at and below it whose names end in `.class`, by
    /// name, and follows no link there.
    pub(crate) fn add<R: Files + AllocGlobal + Clone + Drop>(
        &mut self,
        rt: &R,
        path: &str,
    ) -> Result<(), AllocError> {
        let own = String::from_str(rt.alloc(), path)?;
        match fs::metadata(rt, path) {
            Ok(metadata) if metadata.is_dir() => self.add_folder(rt, own),
            Ok(metadata) => Ok(
                self.found.push(Named {
                    path: own,
                    special: special_of(metadata.file_type()),
                })?,
            ),
            Err(error) => self.fail(own, error),
        }
    }

    /// Adds the class files at and below the folder.
    fn add_folder<R: Files + AllocGlobal + Clone + Drop>(
        &mut self,
        rt: &R,
        path: String,
    ) -> Result<(), AllocError> {
        let mut waiting = Vec::new(rt.alloc());
        waiting.push(Entry {
            path,
            is_folder: true,
        })?;
        for _ in 0..u64::MAX {
            let Some(entry) = waiting.pop() else {
                break;
            };
            self.take(rt, entry, &mut waiting)?;
        }
        Ok(())
    }

    /// Adds a file, or what is in a folder to what is waiting.
    fn take<R: Files + AllocGlobal + Clone + Drop>(
        &mut self,
        rt: &R,
        entry: Entry,
        waiting: &mut Vec<Entry>,
    ) -> Result<(), AllocError> {
        if !entry.is_folder {
            return Ok(
                self.found.push(Named {
                    path: entry.path,
                    special: None,
                })?,
            );
        }
        match entries_of(rt, entry.path.as_str()) {
            Ok(listed) => {
                waiting.extend(listed.entries)?;
                if let Some(kind) = listed.fault {
                    let path = entry.path;
                    self.faults.push(PathFault { path, kind })?;
                }
                Ok(())
            }
            Err(error) => self.fail(entry.path, error),
        }
    }

    /// Notes that a path couldn't be read; want of memory is an error.
    fn fail(&mut self, path: String, error: io::Error) -> Result<(), AllocError> {
        match error.kind() {
            ErrorKind::OutOfMemory => Err(AllocError),
            kind => Ok(self.faults.push(PathFault { path, kind })?),
        }
    }
}

/// What it is, if it is no file of bytes, and no folder.
fn special_of(kind: FileType) -> Option<Special> {
    if kind.is_fifo() {
        Some(Special::Fifo)
    } else if kind.is_socket() {
        Some(Special::Socket)
    } else if kind.is_char_device() || kind.is_block_device() {
        Some(Special::Device)
    } else {
        None
    }
}

/// The folders and class files in a folder, the last one by name first. A name that is no UTF-8 can't be read.
fn entries_of<R: Files + AllocGlobal + Clone + Drop>(rt: &R, path: &str) -> io::Result<Listed> {
    let mut entries = Vec::new(rt.alloc());
    let mut fault = None;
    for entry in fs::read_dir(rt, path)? {
        match entry {
            Ok(entry) => push_kept(rt, &entry, &mut entries)?,
            Err(error) => match error.kind() {
                ErrorKind::OutOfMemory => return Err(error),
                kind => fault = Some(kind),
            },
        }
    }
    entries.sort_unstable_by(|a, b| b.path.as_str().cmp(a.path.as_str()));
    Ok(Listed { entries, fault })
}

/// Adds the entry, if it is a folder or a class file.
fn push_kept<R: Files + AllocGlobal + Clone + Drop>(
    rt: &R,
    entry: &DirEntry<R, Global>,
    entries: &mut Vec<Entry>,
) -> io::Result<()> {
    let kind = entry.file_type()?;
    let is_folder = kind.is_dir();
    if is_folder || (kind.is_file() && entry.file_name().ends_with(".class")) {
        let path = String::from_str(rt.alloc(), entry.path().as_str())?;
        entries.push(Entry { path, is_folder })?;
    }
    Ok(())
}
