//! A list of entries that some history has reached, with no word on whose history it is.

ghost use Rattle.std.specs.Prelude.{◌≡◌, length};

use crate::entry::Entry;
use crate::history::Law;
use jl_types::Limits;
use logbook::Seen as Reached;

/// A list that a history has reached, and its length.
pub struct Mark {
    pub serial: u64,
    pub reached: Reached<Entry, u64, Law>,
    pub ghost counted: { serial ≡ length reached.log },
}

/// Written out, so that what drops one makes one call of it and doesn't take apart what it holds.
impl Drop for Mark {
    fn drop(self) {
        let Mark {
            serial: _serial,
            reached: _reached,
        } = self;
    }
}

impl Mark {
    /// A copy.
    pub fn again(&self) -> Mark
        ensures { result ≡ self.now }
    {
        Mark {
            serial: self.serial,
            reached: self.reached.again(),
        }
    }
}

/// What a seat at the published table knows of it: whose history its list is of, and its limits. No value is made.
pub struct Tag {
    pub reached: Reached<Entry, u64, Law>,
    pub limits: Limits,
}
