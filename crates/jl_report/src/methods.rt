//! Which methods calls of an invocation run.

ghost use Rattle.std.specs.Prelude.{◌≡◌, take, filter_map, option_to_list, IfOk, OnOk};
ghost use Rattle.jl_types.specs.Values.Ancestry as ancestry;
ghost use Rattle.jl_relink.specs.Placed.{asking};
ghost use Rattle.jl_report.specs.Methods as methods;
ghost use Rattle.jl_report.specs.ForProofs.Found.{is_among, with_run};

use crate::report::Report;
use crate::row::{Finding, Row};
use jl_hierarchy::Classes;
use jl_relink::dispatch_at;
use jl_types::{Answer, ClassId, Key, Link, MethodId, Outcome, Place, Recv};
use std::alloc::{AllocError, Global};

impl Report {
    /// The different methods that calls of the row's invocation run, at most so many. All classes of receivers that its link looks at are
    /// asked, and the methods are in the order of the first receiver that runs each. A link that looks at no receivers runs one method, or
    /// none. No receiver is asked after the one that runs the last of so many. Each method is sought among those before it.
    pub fn methods_of(
        &self,
        alloc: Global,
        row: &Row,
        most: usize,
    ) -> Result<Vec<MethodId>, AllocError>
        ensures { IfOk result (λ found. found.items ≡ take most (methods.methods_run self.now row.now)) }
    {
        match row.looked_at() {
            Some(class) => methods_on(
                alloc,
                &self.classes,
                &row.place,
                receivers_of(&self.classes, class),
                most,
            ),
            None => own_methods(alloc, &row.finding, most),
        }
    }
}

impl Row {
    /// The class whose receivers the row's link looks at, if it looks at any.
    pub fn looked_at(&self) -> Option<ClassId>
        ensures { result ≡ methods.looked_at self.now.rests_on }
    {
        match self.rests_on.as_slice() {
            [Key::Receivers(class), ..] => Some(*class),
            [Key::Target(_), ..] => None,
            [Key::Valid(_), ..] => None,
            [] => None,
        }
    }
}

/// The receivers of the class, none if there is no such class.
fn receivers_of(classes: &Classes, class: ClassId) -> &[ClassId]
    ensures { result.now ≡ ancestry.receivers classes.now class }
{
    if classes.has_class(class) {
        return classes.receivers(class);
    }
    &[]
}

/// The different methods that calls of the place run on objects of these classes, at most so many.
fn methods_on(
    alloc: Global,
    classes: &Classes,
    place: &Place,
    receivers: &[ClassId],
    most: usize,
) -> Result<Vec<MethodId>, AllocError>
    ensures { IfOk result (λ found. found.items
        ≡ take most (methods.distinct (filter_map (methods.run_on (asking classes.now place.now)) receivers.now))) }
{
    let mut found = Vec::new(alloc);
    for receiver in receivers {
        if found.len() >= most {
            return Ok(found);
        }
        add_run(&mut found, run_on(classes, place, *receiver))?;
    }
    Ok(found)
}

/// What a call of the place runs on an object of the class.
fn run_on(classes: &Classes, place: &Place, receiver: ClassId) -> Option<MethodId>
    ensures { result ≡ methods.run_on (asking classes.now place.now) receiver }
{
    match dispatch_at(classes, place, Recv::Of(receiver)) {
        Answer::Run(method) => Some(method),
        Answer::Throws(_) => None,
        Answer::Unlinked(_) => None,
        Answer::BadReceiver => None,
    }
}

/// What the link runs, which looks at no receivers: one method, or none; at most so many.
fn own_methods(alloc: Global, finding: &Finding, most: usize) -> Result<Vec<MethodId>, AllocError>
    ensures { IfOk result (λ found. found.items ≡ take most (methods.distinct (option_to_list (methods.run_by finding.now)))) }
{
    let mut found = Vec::new(alloc);
    add_run(&mut found, run_by(finding))?;
    found.truncate(most);
    Ok(found)
}

/// The one method that a link runs, if it runs one.
pub(crate) fn run_by(finding: &Finding) -> Option<MethodId>
    ensures { result ≡ methods.run_by finding.now }
{
    match finding {
        Finding::Linked(Link::Plain(method)) => Some(*method),
        Finding::Linked(Link::Direct(Outcome::Run(method))) => Some(*method),
        Finding::Linked(Link::Direct(Outcome::Throws(_))) => None,
        Finding::Linked(Link::Fault(_) | Link::Table(_, _) | Link::Mega) => None,
        Finding::Unlinked(_) => None,
        Finding::NotLinkable(_) => None,
    }
}

/// Adds the method that a call runs, if it runs one that isn't among these.
fn add_run(found: &mut Vec<MethodId>, run: Option<MethodId>) -> Result<(), AllocError>
    ensures { OnOk result (found.new.items ≡ with_run found.old.items run) }
{
    let Some(method) = run else {
        return Ok(());
    };
    if !is_among(found.as_slice(), &method) {
        found.push(method)?;
    }
    Ok(())
}

/// Whether the method is one of these.
fn is_among(found: &[MethodId], method: &MethodId) -> bool
    ensures { result ≡ is_among found.now method.now }
{
    found.iter().any(|other| *other == *method)
}
