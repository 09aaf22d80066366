//! The report of classes, which has a row for each of their invocations.

ghost use Rattle.std.specs.Prelude.{◌≡◌, map, Ok, IfOk};
ghost use Rattle.jl_types.specs.declared.link.Link.{Link};
ghost use Rattle.jl_types.specs.Linkage.Links.{scratch};
ghost use Rattle.jl_relink.specs.Placed.{asking};
ghost use Rattle.jl_report.specs.declared.row.Finding.TheVariants.{Linked};
ghost use Rattle.jl_report.specs.Reports as reports;

use crate::invocation::{Invocation, invocations_in};
use crate::row::{Finding, Row};
use jl_deps::{Footprint, footprint_at};
use jl_hierarchy::Classes;
use jl_relink::link_at;
use jl_types::{ClassId, NotLinkable, Place};
use std::alloc::{AllocError, Global};
use std::marker::Model;

/// Classes, and what is found of each of their invocations among these classes. A clause sees the classes.
pub struct Report {
    pub(crate) classes: Classes,
}

// Written out, since a derived drop is proved anew in each crate that lets one go.
impl Drop for Report {
    fn drop(self) {
        let Report { classes: _classes } = self;
    }
}

impl Model for Report {
    ghost use Rattle.jl_types.specs.Values.World.{Classes};

    ghost Value = { Classes };

    ghost view = { λ r. r.classes };
}

impl Report {
    /// The report of these classes. Takes no memory.
    pub fn of(classes: Classes) -> Self
        ensures { result ≡ classes }
    {
        Report { classes }
    }

    /// The classes.
    pub fn classes(&self) -> &Classes
        ensures { result.now ≡ self.now }
    {
        &self.classes
    }

    /// The rows of the class's invocations, by method and pc.
    pub fn rows_in(&self, alloc: Global, class: ClassId) -> Result<Vec<Row>, AllocError>
        ensures { IfOk result (λ rows. rows.items ≡ reports.rows_in self.now class) }
    {
        let invocations = invocations_in(alloc, &self.classes, class)?;
        rows_of(alloc, &self.classes, &invocations)
    }
}

/// The rows of these invocations, in order.
fn rows_of(
    alloc: Global,
    classes: &Classes,
    invocations: &[Invocation],
) -> Result<Vec<Row>, AllocError>
    ensures { IfOk result (λ rows. rows.items ≡ map (reports.row_of classes.now) invocations.now) }
{
    let mut rows = Vec::with_capacity(alloc, invocations.len())?;
    for invocation in invocations {
        rows.push(row_of(classes, invocation))?;
    }
    Ok(rows)
}

/// The row of the invocation.
fn row_of(classes: &Classes, invocation: &Invocation) -> Row
    ensures { result ≡ reports.row_of classes.now invocation.now }
{
    let finding = finding_in(classes, &invocation.place, invocation.never);
    Row {
        place: invocation.place,
        kind: invocation.kind,
        finding,
        rests_on: rests_on(classes, &invocation.place, &finding),
    }
}

/// What the link of the place rests on, of which this is found: nothing if the place has no link.
pub(crate) fn rests_on(classes: &Classes, place: &Place, finding: &Finding) -> Footprint
    requires { (l : Link) → finding.now ≡ Linked l → scratch (asking classes.now place.now) 0 ≡ Ok l }
    ensures { result ≡ reports.rests_on (asking classes.now place.now) finding.now }
{
    match finding {
        Finding::Linked(link) => footprint_at(classes, place, link),
        Finding::Unlinked(_) => Footprint::nothing(),
        Finding::NotLinkable(_) => Footprint::nothing(),
    }
}

/// What is found of the place: that it is never linked, if a reason for that is given, or else its link or why it has none.
fn finding_in(classes: &Classes, place: &Place, never: Option<NotLinkable>) -> Finding
    ensures { result ≡ reports.finding_in (asking classes.now place.now) never }
{
    if let Some(reason) = never {
        return Finding::NotLinkable(reason);
    }
    Finding::of(link_at(classes, place))
}
