//! Calls that may be answered Memory: what was there before is to be there afterwards, and the same call is to be answered then.

use crate::answers::{Called, tell_memory, tell_state};
use crate::deeds::{Ask, Change, Deed};
use crate::marks::blank;
use std::alloc::{AllocError, Global};
use std::io::{self, ErrorKind};

/// What is watched.
pub(crate) trait Watched {
    /// Whose calls these are, as it is printed.
    fn name(&self) -> &'static str;

    /// Adds all that is seen of the state.
    fn mark(&mut self, rt: &HostRuntime, text: &mut String) -> io::Result<()>;

    /// Applies the event of the change, and prints the answer if it isn't Memory. It gives whether it is.
    ///
    /// # Errors
    ///
    /// Want of memory before the call, and a failed write.
    fn apply(&mut self, rt: &HostRuntime, called: Called, change: &Change) -> io::Result<bool>;

    /// Asks what is to be asked, and prints the answer if it isn't Memory. It gives whether it is.
    ///
    /// # Errors
    ///
    /// Want of memory before the call, and a failed write.
    fn ask(&mut self, rt: &HostRuntime, called: Called, ask: &Ask) -> io::Result<bool>;
}

/// Two texts of a state, with room.
pub(crate) struct Marks {
    before: String,
    after: String,
}

/// Written out, so that what drops one makes one call of it and doesn't take apart what it holds.
impl Drop for Marks {
    fn drop(self) {
        let Marks {
            before: _before,
            after: _after,
        } = self;
    }
}

impl Marks {
    /// Two blank texts.
    pub(crate) fn new(alloc: Global) -> Result<Marks, AllocError> {
        Ok(Marks {
            before: blank(alloc)?,
            after: blank(alloc)?,
        })
    }
}

/// Asks. If there was no memory, it prints that, and whether the state is as before, and asks once more.
fn watch<W: Watched>(
    rt: &HostRuntime,
    watched: &mut W,
    marks: &mut Marks,
    deed: &Deed,
) -> io::Result<()> {
    let (deed, ask) = deed;
    let called = Called {
        of: watched.name(),
        deed,
    };
    marks.before.clear();
    watched.mark(rt, &mut marks.before)?;
    if watched.ask(rt, called, ask)? {
        tell_memory(rt, called)?;
        marks.after.clear();
        watched.mark(rt, &mut marks.after)?;
        tell_state(rt, called, marks.before == marks.after)?;
        if watched.ask(rt, called, ask)? {
            return Err(ErrorKind::OutOfMemory.into());
        }
    }
    Ok(())
}

/// Asks one thing after another.
///
/// # Errors
///
/// Want of memory outside the calls, or a second time, and a failed write.
pub(crate) fn watch_all<W: Watched>(
    rt: &HostRuntime,
    watched: &mut W,
    deeds: &[Deed],
) -> io::Result<()> {
    let mut marks = Marks::new(rt.alloc())?;
    for deed in deeds {
        watch(rt, watched, &mut marks, deed)?;
    }
    Ok(())
}
