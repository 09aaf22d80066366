//! What is installed at a site.

ghost use Rattle.std.specs.Prelude.{◌≡◌, ◌≢◌, MatchBool};

use crate::answer::{Outcome, Throwable};
use crate::ids::MethodId;
use crate::table::Table;

/// Whose instruction a table serves.
#[derive(Clone, Copy, Debug, PartialEq, Eq)]
pub enum TableKind {
    /// invokevirtual.
    Virtual,
    /// invokeinterface.
    Interface,
}

/// What is installed at a site: the outcome of its calls, by the class of the receiver if that matters (Hölzle, Chambers
/// and Ungar, Optimizing Dynamically-Typed Object-Oriented Languages With Polymorphic Inline Caches, 1991). Takes no memory.
#[derive(Clone, Copy, Debug, PartialEq)]
pub enum Link {
    /// Each call throws this.
    Fault(Throwable),
    /// Each call runs this method, and has no receiver.
    Plain(MethodId),
    /// Each call on an object has this outcome.
    Direct(Outcome),
    /// A call has the outcome that stands beside its receiver's class.
    Table(TableKind, Table),
    /// There are too many classes for a table.
    Mega,
}

/// Whether two links are equal, which they are by value.
pub fn same_link(a: Link, b: Link) -> bool
    ensures { MatchBool result (a ≡ b) (a ≢ b) }
{
    a == b
}
