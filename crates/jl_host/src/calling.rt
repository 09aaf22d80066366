//! The answers to calls of methods that no code invokes, and what references to methods resolve to.

ghost use Rattle.std.specs.Prelude.{◌≡◌, ◌<◌, length, if◌then◌else◌};
ghost use Rattle.jl_types.specs.Linkage.Access as access;
ghost use Rattle.jl_host.specs.Calling as calling;
ghost use Rattle.jl_host.specs.Asking.{IsWrittenIf};
ghost use Rattle.jl_host.specs.Calling.{call_shown, if_present, resolution_in};
ghost use Rattle.jl_host.specs.Numbers.{unknown_class, no_such_place};
ghost use Rattle.jl_host.specs.ForProofs.Calling.{resolved_by};

use crate::reading::method_of;
use crate::shown::{CallAnswer, ResolutionShown, answer_shown, recv_of, resolution_shown};
use crate::told::{DONE, NO_SUCH_PLACE, UNKNOWN_CLASS};
use jl_hierarchy::Classes;
use jl_resolve::{found_in, if_accessible, is_accessible_class};
use jl_select::{select, select_interface};
use jl_types::{Answer, ClassId, MethodId, Outcome, Recv, ResolveAnswer, Throwable};

/// Writes the answer to a call of the method at the place of the class on the receiver, if there is such a method. Takes no memory.
pub(crate) fn tell_call(
    classes: &Classes,
    class: u32,
    method: u32,
    receiver: u32,
    answer: &mut CallAnswer,
) -> u32
    ensures { IsWrittenIf no_such_place (call_shown class method receiver classes.now) answer.old result answer.new }
{
    match present_method(classes, class, method) {
        Some(method) => {
            *answer = answer_shown(called(classes, &method, recv_of(receiver)));
            DONE
        }
        None => NO_SUCH_PLACE,
    }
}

/// Writes what a reference to the method of this name and descriptor in the class `named` resolves to for the class `from`, if both are
/// present. Takes no memory.
pub(crate) fn tell_resolution(
    classes: &Classes,
    from: ClassId,
    named: ClassId,
    name: &[u8],
    ty: &[u8],
    shown: &mut ResolutionShown,
) -> u32
    ensures { IsWrittenIf unknown_class (if_present classes.now from named (resolution_in classes.now from named name.now ty.now))
        shown.old result shown.new }
{
    if !classes.is_present(from) || !classes.is_present(named) {
        return UNKNOWN_CLASS;
    }
    let itf = classes.is_interface(named);
    let found = found_in(classes, named, itf, name, ty);
    let resolved = resolved(classes, from, named, &found);
    *shown = resolution_shown(&found, resolved);
    DONE
}

/// Writes whether the class is accessible to the class `from`, if both are present. Takes no memory.
pub(crate) fn tell_access(
    classes: &Classes,
    from: ClassId,
    class: ClassId,
    accessible: &mut u32,
) -> u32
    ensures { IsWrittenIf unknown_class (if_present classes.now from class (if access.is_accessible_class classes.now from class then 1 else 0))
        accessible.old result accessible.new }
{
    if !classes.is_present(from) || !classes.is_present(class) {
        return UNKNOWN_CLASS;
    }
    *accessible = if is_accessible_class(classes, from, class) {
        1
    } else {
        0
    };
    DONE
}

/// The method at the place of the class, if that is present and there is one.
fn present_method(classes: &Classes, class: u32, method: u32) -> Option<MethodId>
    ensures { result ≡ calling.present_method class method classes.now }
{
    let method = method_of(class, method)?;
    if classes.is_present(method.class) && classes.method_at(&method).is_some() {
        Some(method)
    } else {
        None
    }
}

/// The answer to a call of the resolved method.
fn called(classes: &Classes, method: &MethodId, recv: Recv) -> Answer
    ensures { result ≡ calling.called classes.now method.now recv }
{
    if classes.is_static(method) {
        return Answer::Run(*method);
    }
    match recv {
        Recv::Null => Answer::Throws(Throwable::NullPointerException),
        Recv::Of(class) => {
            if may_receive(classes, method, class) {
                Answer::from(outcome_on(classes, method, class))
            } else {
                Answer::BadReceiver
            }
        }
    }
}

/// Whether an object may be of the class, and be one of the method's class.
fn may_receive(classes: &Classes, method: &MethodId, class: ClassId) -> bool
    ensures { result ≡ calling.may_receive classes.now method.now class }
{
    classes.is_concrete(class) && classes.is_ancestor(method.class, class)
}

/// The outcome of the call on an object of the class.
fn outcome_on(classes: &Classes, method: &MethodId, receiver: ClassId) -> Outcome
    requires { receiver < length classes.now.rows }
    ensures { result ≡ calling.outcome_on classes.now method.now receiver }
{
    if is_init(classes, method) {
        return Outcome::Run(*method);
    }
    if classes.is_interface(method.class) {
        select_interface(classes, receiver, method.class, method)
    } else {
        select(classes, receiver, method)
    }
}

/// Whether the method is an instance initialization method (JVMS SE 17 §2.9.1).
fn is_init(classes: &Classes, method: &MethodId) -> bool
    ensures { result ≡ calling.is_initialization classes.now method.now }
{
    match classes.method_at(method) {
        Some(found) => found.name().as_slice() == b"<init>".as_slice(),
        None => false,
    }
}

/// What a reference resolves to for the class `from` that finds this in the class `named`.
fn resolved(
    classes: &Classes,
    from: ClassId,
    named: ClassId,
    found: &Option<MethodId>,
) -> Result<MethodId, ResolveAnswer>
    requires from { from < length classes.now.rows }
    requires named { named < length classes.now.rows }
    ensures { result ≡ resolved_by classes.now from named found.now }
{
    if is_accessible_class(classes, from, named) {
        if_accessible(classes, from, named, *found)
    } else {
        Err(ResolveAnswer::Fault(Throwable::IllegalAccessError))
    }
}
