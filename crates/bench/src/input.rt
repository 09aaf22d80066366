//! Class files, a line of hexadecimal each, places, a line of class, method and pc each, and commands, which are all other lines.

ghost use Rattle.std.specs.Prelude.{◌≤◌};

use jl_types::{ClassId, Place};
use std::alloc::{AllocError, Global};
use std::io::{self, BufRead, BufReader};

/// The class files, the places and the commands, in order.
pub(crate) struct Input {
    pub(crate) files: Vec<Vec<u8>>,
    pub(crate) places: Vec<Place>,
    pub(crate) commands: Vec<String>,
}

/// Written out, so that what drops one makes one call of it and doesn't take apart what it holds.
impl Drop for Input {
    fn drop(self) {
        let Input {
            files: _files,
            places: _places,
            commands: _commands,
        } = self;
    }
}

impl Input {
    /// All lines of the standard input.
    pub(crate) fn read(rt: &HostRuntime) -> io::Result<Self> {
        let alloc = rt.alloc();
        let mut input = Input {
            files: Vec::new(alloc),
            places: Vec::new(alloc),
            commands: Vec::new(alloc),
        };
        for line in BufReader::new(alloc, rt.reader())?.lines(alloc) {
            input.add_line(alloc, line?)?;
        }
        Ok(input)
    }

    /// How many sites there may be: as many as there are places, and one at least.
    pub(crate) fn max_sites(&self) -> u32
        ensures { 1 ≤ result }
    {
        u32::try_from(self.places.len()).unwrap_or(u32::MAX).max(1)
    }

    /// Adds what the line is.
    fn add_line(&mut self, alloc: Global, line: String) -> Result<(), AllocError> {
        if let Some(place) = place(line.as_str()) {
            self.places.push(place)?;
        } else if let Ok(bytes) = hex::decode(alloc, line.as_str()) {
            self.files.push(bytes)?;
        } else {
            self.commands.push(line)?;
        }
        Ok(())
    }
}

/// The number that the word is, if it is one.
fn number(word: Option<&str>) -> Option<u32> {
    word?.parse::<u32>().ok()
}

/// The place of a line.
fn place(line: &str) -> Option<Place> {
    let mut words = line.split(' ');
    let class = number(words.next())?;
    let method = number(words.next())?;
    let pc = number(words.next())?;
    Some(Place {
        class: ClassId::new(class),
        method: u16::try_from(method).ok()?,
        pc,
    })
}
