//! What is reported of an invocation.

ghost use Rattle.std.specs.Prelude.{◌≡◌};
ghost use Rattle.jl_report.specs.Reports as reports;

use jl_class::Kind;
use jl_deps::Footprint;
use jl_types::{Link, NotLinkable, Place, Unlinked};

/// What is found of an invocation: its link, or why it has none.
#[derive(Clone, Copy, Debug)]
pub enum Finding {
    /// It has this link.
    Linked(Link),
    /// It has no link, for this reason.
    Unlinked(Unlinked),
    /// It is never linked here.
    NotLinkable(NotLinkable),
}

impl Finding {
    /// The finding of an invocation that has this link, or has none for this reason.
    pub(crate) fn of(found: Result<Link, Unlinked>) -> Finding
        ensures { result ≡ reports.found found }
    {
        match found {
            Ok(link) => Finding::Linked(link),
            Err(reason) => Finding::Unlinked(reason),
        }
    }
}

/// An invocation: its place and its instruction (JVMS SE 17 §6.5), what is found of it, and what its link rests on that a further class may
/// change.
#[derive(Debug)]
pub struct Row {
    pub place: Place,
    pub kind: Kind,
    pub finding: Finding,
    pub rests_on: Footprint,
}

/// Written out, so that what drops one makes one call of it and doesn't take apart what it holds.
impl Drop for Row {
    fn drop(self) {
        let Row {
            place: _place,
            kind: _kind,
            finding: _finding,
            rests_on: _rests_on,
        } = self;
    }
}
