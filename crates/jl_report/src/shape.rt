//! The shape of what is found of an invocation.

ghost use Rattle.std.specs.Prelude.{◌≡◌};
ghost use Rattle.jl_report.specs.Totals as totals;

use crate::row::Finding;
use jl_types::{Link, Outcome, Unlinked};

/// The shape of what is found of an invocation.
#[derive(Clone, Copy, Debug, PartialEq, Eq)]
pub enum Shape {
    /// One method.
    Direct,
    /// A table of receivers.
    Table,
    /// Too many receivers for a table.
    Mega,
    /// A table of no receivers.
    NoReceivers,
    /// What it throws.
    Throws,
    /// Nothing, until a class is there.
    Waits,
    /// Nothing, until its call site is there.
    Unbound,
    /// Nothing here.
    NotLinkable,
}

impl Shape {
    /// The shape of the finding.
    pub fn of(finding: &Finding) -> Shape
        ensures { result ≡ totals.shape_of finding.now }
    {
        match finding {
            Finding::Linked(Link::Plain(_) | Link::Direct(Outcome::Run(_))) => Shape::Direct,
            Finding::Linked(Link::Fault(_) | Link::Direct(Outcome::Throws(_))) => Shape::Throws,
            Finding::Linked(Link::Table(_, table)) => match table.as_slice() {
                [] => Shape::NoReceivers,
                _ => Shape::Table,
            },
            Finding::Linked(Link::Mega) => Shape::Mega,
            Finding::Unlinked(Unlinked::Unbound) => Shape::Unbound,
            Finding::Unlinked(Unlinked::NotReady(_) | Unlinked::Gone | Unlinked::NoSite) =>
                Shape::Waits,
            Finding::NotLinkable(_) => Shape::NotLinkable,
        }
    }
}
