//! The outcome of an invocation that selects by its receiver.

ghost use Rattle.std.specs.Prelude.{◌≡◌, ◌+◌, ◌^◌, ◌<◌, ◌≤◌, length};
ghost use Rattle.jl_relink.specs.ForProofs.Rows.{outcome_of};

use jl_hierarchy::Classes;
use jl_select::{select, select_counted, select_interface, select_interface_counted};
use jl_types::{ClassId, MethodId, Outcome, TableKind, Work};

/// An invokevirtual or an invokeinterface whose method is resolved: the instruction, the class that the reference names, and
/// the method.
#[derive(Clone, Copy)]
pub(crate) struct Selection {
    pub(crate) kind: TableKind,
    pub(crate) named: ClassId,
    pub(crate) method: MethodId,
}

/// The outcome of the invocation for a receiver of the class (JVMS SE 17 §6.5).
pub(crate) fn outcome(classes: &Classes, selection: &Selection, receiver: ClassId) -> Outcome
    requires { receiver < length classes.now.rows }
    ensures { result ≡ outcome_of classes.now selection.now receiver }
{
    match selection.kind {
        TableKind::Virtual => select(classes, receiver, &selection.method),
        TableKind::Interface => {
            select_interface(classes, receiver, selection.named, &selection.method)
        }
    }
}

/// Gives what [`outcome`] gives, with one tick at most.
pub(crate) fn outcome_counted(
    classes: &Classes,
    selection: &Selection,
    receiver: ClassId,
    work: &mut Work,
) -> Outcome
    requires there { receiver < length classes.now.rows }
    requires fits { work.old + 1 < 2 ^ 64 }
    ensures outcome { result ≡ outcome_of classes.now selection.now receiver }
    ensures ticks { work.new ≤ work.old + 1 }
{
    match selection.kind {
        TableKind::Virtual => select_counted(classes, receiver, &selection.method, work),
        TableKind::Interface => {
            select_interface_counted(classes, receiver, selection.named, &selection.method, work)
        }
    }
}
