//! The invocations of a class.

ghost use Rattle.std.specs.Prelude.{◌≡◌, ◌<◌, ◌^◌, ◌++◌, map, length, IfOk, OnOk};
ghost use Rattle.jl_report.specs.Reports as reports;

use jl_class::{Kind, Methods, Operand, Site, Sites};
use jl_hierarchy::Classes;
use jl_names::LentName;
use jl_types::{ClassId, NotLinkable, Place, is_polymorphic, names_array};
use std::alloc::{AllocError, Global};

/// An invocation: where it stands, its instruction, and why it is never linked, if so.
#[derive(Clone, Copy)]
pub(crate) struct Invocation {
    pub(crate) place: Place,
    pub(crate) kind: Kind,
    pub(crate) never: Option<NotLinkable>,
}

/// The invocations of the class, by method and pc.
pub(crate) fn invocations_in(
    alloc: Global,
    classes: &Classes,
    class: ClassId,
) -> Result<Vec<Invocation>, AllocError>
    ensures { IfOk result (λ all. all.items ≡ reports.invocations_in classes.now class) }
{
    match classes.class_at(class) {
        Some(row) => invocations_of(alloc, class, &row.file().methods()),
        None => Ok(Vec::new(alloc)),
    }
}

/// The invocations of the class's methods.
fn invocations_of(
    alloc: Global,
    class: ClassId,
    methods: &Methods<'_>,
) -> Result<Vec<Invocation>, AllocError>
    requires { length methods.now < 2 ^ 16 }
    ensures { IfOk result (λ all. all.items ≡ reports.invocations_from class 0 methods.now) }
{
    let mut all = Vec::new(alloc);
    let mut index = 0;
    while let Some(method) = methods.at(index) {
        push_invocations(&mut all, class, index as u16, &method.sites())?;
        index += 1;
    }
    Ok(all)
}

/// Adds these invocations in the method that has this number in its class.
fn push_invocations(
    all: &mut Vec<Invocation>,
    class: ClassId,
    method: u16,
    sites: &Sites<'_>,
) -> Result<(), AllocError>
    ensures { OnOk result (all.new.items ≡ all.old.items ++ map (reports.invocation_of class method) sites.now) }
{
    // They can be counted, and so can their places.
    let _count = sites.len();
    let mut place = 0;
    while let Some(site) = sites.at(place) {
        all.push(invocation_of(class, method, &site))?;
        place += 1;
    }
    Ok(())
}

/// The invocation in the method that has this number in its class.
fn invocation_of(class: ClassId, method: u16, site: &Site<'_>) -> Invocation
    ensures { result ≡ reports.invocation_of class method site.now }
{
    Invocation {
        place: Place {
            class,
            method,
            pc: u32::from(site.pc()),
        },
        kind: site.kind(),
        never: never_linked(site.operand()),
    }
}

/// Why an invocation that names this is never linked.
fn never_linked(operand: &Operand<LentName<'_>>) -> Option<NotLinkable>
    ensures { result ≡ reports.never_linked operand.now }
{
    if names_array(operand) {
        return Some(NotLinkable::ArrayReceiver);
    }
    is_polymorphic(operand).then_some(NotLinkable::PolymorphicSignature)
}
