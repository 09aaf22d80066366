//! Class files that aren't where a class loader looks for their classes.

use crate::texts::names::{push_line, push_name};
use json::Writer;
use std::alloc::{AllocError, Global};

/// How many there are, and the first of them with its class.
pub(crate) struct Elsewhere {
    pub(crate) count: u64,
    pub(crate) path: String,
    pub(crate) class: String,
}

/// Written out, so that what drops one makes one call of it and doesn't take apart what it holds.
impl Drop for Elsewhere {
    fn drop(self) {
        let Elsewhere {
            count: _count,
            path: _path,
            class: _class,
        } = self;
    }
}

/// Whether the path ends as that of a file of this class: by its name and `.class`, unless its file isn't called so at all.
fn is_at_place(path: &str, class: &str) -> bool {
    let Some(path) = path.strip_suffix(".class") else {
        return true;
    };
    match path.strip_suffix(class) {
        Some(folder) => folder.is_empty() || folder.ends_with('/'),
        None => false,
    }
}

impl Elsewhere {
    /// None.
    pub(crate) fn new(alloc: Global) -> Self {
        Elsewhere {
            count: 0,
            path: String::new(alloc),
            class: String::new(alloc),
        }
    }

    /// Counts the file of this path, if the class of this name has another place.
    pub(crate) fn add(&mut self, alloc: Global, path: &str, name: &[u8]) -> Result<(), AllocError> {
        let mut class = String::new(alloc);
        push_name(alloc, name, &mut class)?;
        if is_at_place(path, class.as_str()) {
            return Ok(());
        }
        if self.count == 0 {
            self.path = String::from_str(alloc, path)?;
            self.class = class;
        }
        self.count = self.count.saturating_add(1);
        Ok(())
    }

    /// Appends how many there are, and the first of them, if there is one.
    pub(crate) fn push(&self, alloc: Global, out: &mut String) -> Result<(), AllocError> {
        if self.count == 0 {
            return Ok(());
        }
        let head = "files at other places";
        let Elsewhere { count, path, class } = self;
        let mut line = String::new(alloc);
        write!(line, "{head:<28}{count:>12}  as {path}, which has {class}")?;
        push_line(line.as_str(), out)
    }

    /// Writes how many there are, and the first of them, under its key, if there is one.
    pub(crate) fn write(&self, out: &mut Writer) -> Result<(), AllocError> {
        if self.count == 0 {
            return Ok(());
        }
        out.key("elsewhere")?;
        out.begin_object()?;
        out.key("class")?;
        out.string(self.class.as_str())?;
        out.key("count")?;
        out.u64(self.count)?;
        out.key("file")?;
        out.string(self.path.as_str())?;
        out.end_object()
    }
}
