//! What is kept of an accepted event.

ghost use Rattle.std.specs.Prelude.{◌≡◌};
ghost use Rattle.jl_events.specs.Changes.{class_of};

use jl_cache::KeptLink;
use jl_names::Seq;
use jl_types::{ClassId, EventOf, SiteNo};

/// An event that was accepted. A definition names the class that it made. That class keeps the file for good, so there is no second
/// copy of it. An install has its links as they are kept, so there is no second copy of a table.
pub type Accepted = EventOf<ClassId, Seq<(SiteNo, KeptLink)>>;

/// The class that the event defined, if it is a definition.
pub fn defined_class(event: &Accepted) -> Option<ClassId>
    ensures { result ≡ class_of event.now }
{
    match event {
        Accepted::Define(_, class) => Some(*class),
        _ => None,
    }
}
