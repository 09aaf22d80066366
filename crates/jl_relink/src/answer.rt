//! The answer to a call (JVMS SE 17 §6.5). It looks at no link.

ghost use Rattle.std.specs.Prelude.{◌≡◌};
ghost use Rattle.jl_types.specs.Linkage.Resolution as resolution;
ghost use Rattle.jl_types.specs.Linkage.Stages as stages;
ghost use Rattle.jl_types.specs.Linkage.Calls as calls;
ghost use Rattle.jl_relink.specs.ForProofs.Rows.{selected_answer, special_answer, fits};
ghost use Rattle.jl_relink.specs.Placed.{asking};

use crate::located::{locate, locate_at};
use crate::selection::{Selection, outcome};
use crate::stage::{Stage, stage_of_reference};
use crate::world::World;
use jl_class::{Kind, Operand};
use jl_hierarchy::Classes;
use jl_names::LentName;
use jl_pool::Reference;
use jl_select::special;
use jl_types::{
    Answer, CallSiteId, ClassId, Missing, Outcome, Place, Recv, SiteNo, TableKind, Throwable,
    Unlinked,
};

/// The answer to a call (JVMS SE 17 §6.5). It looks at no link. Takes no memory.
pub fn dispatch(world: &World, site: SiteNo, recv: Recv) -> Answer
    ensures { result ≡ calls.dispatch world.now site recv }
{
    let found = match locate(world, site) {
        Ok(found) => found,
        Err(reason) => return Answer::Unlinked(reason),
    };
    match found.invocation.operand() {
        Operand::Method(reference) => reference_answer(
            &world.classes,
            found.invocation.kind(),
            found.caller,
            reference,
            recv,
        ),
        Operand::CallSite(_) => binding_answer(world, world.bound_to(site), recv),
    }
}

/// The answer to a call of the invocation at this place, without a request (JVMS SE 17 §6.5). An invokedynamic there is bound to no call
/// site. Takes no memory.
pub fn dispatch_at(classes: &Classes, place: &Place, recv: Recv) -> Answer
    ensures { result ≡ calls.dispatch (asking classes.now place.now) 0 recv }
{
    let found = match locate_at(classes, place) {
        Ok(found) => found,
        Err(reason) => return Answer::Unlinked(reason),
    };
    match found.invocation.operand() {
        Operand::Method(reference) => reference_answer(
            classes,
            found.invocation.kind(),
            found.caller,
            reference,
            recv,
        ),
        Operand::CallSite(_) => Answer::Unlinked(Unlinked::Unbound),
    }
}

/// The answer to a call of an invokedynamic that is bound to this call site, or to none.
fn binding_answer(world: &World, binding: Option<CallSiteId>, recv: Recv) -> Answer
    ensures { result ≡ calls.answer_of world.now.classes (stages.by_binding world.now.sites binding) recv }
{
    let Some(call_site) = binding else {
        return Answer::Unlinked(Unlinked::Unbound);
    };
    match world.sites.method_of(call_site) {
        Some(method) => Answer::Run(method),
        None => Answer::Unlinked(Unlinked::Gone),
    }
}

/// The answer to a call of an invocation of the reference in the caller's class.
fn reference_answer(
    classes: &Classes,
    kind: Kind,
    caller: ClassId,
    reference: &Reference<LentName<'_>>,
    recv: Recv,
) -> Answer
    ensures { result ≡ calls.answer_of classes.now (stages.by_resolution classes.now kind caller reference.now
        (resolution.resolved classes.now caller reference.now)) recv }
{
    match stage_of_reference(classes, kind, caller, reference) {
        Stage::Waits(reason) => Answer::Unlinked(reason),
        Stage::Fails(throwable) => Answer::Throws(throwable),
        Stage::Calls(method) => Answer::Run(method),
        Stage::Selects(selection) => selected_answer(classes, &selection, recv),
        Stage::Searches => match special(classes, caller, reference) {
            Some(outcome) => special_answer(classes, outcome, recv),
            None => Answer::Unlinked(Unlinked::NotReady(Missing::Named)),
        },
    }
}

/// The answer to a call of the invocation on the receiver.
fn selected_answer(classes: &Classes, selection: &Selection, recv: Recv) -> Answer
    ensures { result ≡ selected_answer classes.now selection.now recv }
{
    match recv {
        Recv::Null => Answer::Throws(Throwable::NullPointerException),
        Recv::Of(class) => {
            if fits(classes, selection, class) {
                Answer::from(outcome(classes, selection, class))
            } else {
                Answer::BadReceiver
            }
        }
    }
}

/// The answer to a call of an invokespecial of this outcome.
fn special_answer(classes: &Classes, outcome: Outcome, recv: Recv) -> Answer
    ensures { result ≡ special_answer classes.now outcome recv }
{
    match recv {
        Recv::Null => Answer::Throws(Throwable::NullPointerException),
        Recv::Of(class) => {
            if classes.is_concrete(class) {
                Answer::from(outcome)
            } else {
                Answer::BadReceiver
            }
        }
    }
}

/// Whether an object of the class may be a receiver here: at invokevirtual it has to be of the class that is named.
fn fits(classes: &Classes, selection: &Selection, class: ClassId) -> bool
    ensures { result ≡ fits classes.now selection.now class }
{
    if !classes.is_concrete(class) {
        return false;
    }
    match selection.kind {
        TableKind::Virtual => classes.is_ancestor(selection.named, class),
        TableKind::Interface => true,
    }
}
