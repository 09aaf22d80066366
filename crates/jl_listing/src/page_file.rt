//! The file of a page, which is the whole page or what stood there before.

use crate::fault::ReportFault;
use crate::report_words::ReportWords;
use std::alloc::Global;
use std::fs::File;
use std::io::{ErrorKind, Write};
use std::path::{Path, PathBuf};
use std::rt::Files;
use std::{fs, io};

/// So many names are tried for the file that is written first.
const MOST_NAMES: u32 = 1_000;

/// Writes the page into a file beside its place, and gives that the name of the place. What isn't a file of bytes is written into, as a device.
pub(crate) fn write_page<R: Files + AllocGlobal>(rt: &R, path: &str, text: &str) -> io::Result<()> {
    match fs::metadata(rt, path) {
        Ok(metadata) if metadata.is_file() => {
            let place = fs::canonicalize(rt, path)?;
            replace(rt, place.as_str(), text)
        }
        Err(error) if error.kind() == ErrorKind::NotFound => replace(rt, path, text),
        _ => fs::write(rt, path, text),
    }
}

/// Writes the file beside the place, and then puts it there.
fn replace<R: Files + AllocGlobal>(rt: &R, place: &str, text: &str) -> io::Result<()> {
    let beside = begin_beside(rt, place)?;
    let written = match fs::write(rt, beside.as_str(), text) {
        Ok(()) => fs::rename(rt, beside.as_str(), place),
        failed => failed,
    };
    if written.is_err() {
        let _ = fs::remove_file(rt, beside.as_str());
    }
    written
}

/// Makes an empty file beside the place, of a name that no other one has, and gives its name.
fn begin_beside<R: Files + AllocGlobal>(rt: &R, place: &str) -> io::Result<String> {
    for number in 0..MOST_NAMES {
        let mut name = String::from_str(rt.alloc(), place)?;
        write!(name, ".{number}.part")?;
        match File::create_new(rt, name.as_str()) {
            Ok(_file) => return Ok(name),
            Err(error) if error.kind() == ErrorKind::AlreadyExists => {}
            Err(error) => return Err(error),
        }
    }
    Err(io::Error::from(ErrorKind::AlreadyExists))
}

/// The path of the words that the page would be written over, or into whose folder, if there is one: the page itself, if it is named as a
/// class file is.
pub(crate) fn written_over<'a, R: Files + AllocGlobal>(
    rt: &R,
    asked: &'a ReportWords,
) -> Result<Option<&'a str>, ReportFault> {
    let Some(page) = &asked.html else {
        return Ok(None);
    };
    let page = page.as_str();
    if page.ends_with(".class") {
        return Ok(Some(page));
    }
    let Some(place) = place_of(rt, page)? else {
        return Ok(None);
    };
    for paths in [&asked.paths, &asked.beside, &asked.breaks] {
        for path in paths {
            if lies_in(rt, place.as_path(), path.as_str())? {
                return Ok(Some(path.as_str()));
            }
        }
    }
    Ok(None)
}

/// Where the file is or would be, by no link. `None` if its folder isn't there. Want of memory is an error.
fn place_of<R: Files + AllocGlobal>(
    rt: &R,
    page: &str,
) -> Result<Option<PathBuf<Global>>, ReportFault> {
    if let Some(place) = found(fs::canonicalize(rt, page))? {
        return Ok(Some(place));
    }
    let page = Path::new(page);
    let (Some(folder), Some(name)) = (page.parent(), page.file_name()) else {
        return Ok(None);
    };
    let folder = if folder.as_str().is_empty() {
        Path::new(".")
    } else {
        folder
    };
    match found(fs::canonicalize(rt, folder))? {
        Some(folder) => Ok(Some(folder.as_path().join(rt.alloc(), name)?)),
        None => Ok(None),
    }
}

/// Whether the place is the path's, or below it.
fn lies_in<R: Files + AllocGlobal>(
    rt: &R,
    place: Path<'_>,
    path: &str,
) -> Result<bool, ReportFault> {
    match found(fs::canonicalize(rt, path))? {
        Some(path) => Ok(place.starts_with(path.as_path())),
        None => Ok(false),
    }
}

/// What was found, if anything was. Want of memory is an error.
fn found<T: Drop>(read: io::Result<T>) -> Result<Option<T>, ReportFault> {
    match read {
        Ok(there) => Ok(Some(there)),
        Err(error) if error.kind() == ErrorKind::OutOfMemory => Err(ReportFault::Memory),
        Err(_) => Ok(None),
    }
}
