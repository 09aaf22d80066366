//! What an invocation of a reference comes to before its receiver is looked at (JVMS SE 17 §6.5).

ghost use Rattle.std.specs.Prelude.{◌≡◌, ◌<◌, ◌==◌, ◌&&◌, Some, not, length};
ghost use Rattle.jl_types.specs.Linkage.Stages as stages;
ghost use Rattle.jl_types.specs.Linkage.Selection as selection;
ghost use Rattle.jl_types.specs.Linkage.Resolution as resolution;
ghost use Rattle.jl_class.specs.declared.site.Kind.TheVariants.{Special};
ghost use Rattle.jl_relink.specs.Stages.{IsStage, selector_of};

use crate::selection::Selection;
use jl_class::Kind;
use jl_hierarchy::Classes;
use jl_names::LentName;
use jl_pool::Reference;
use jl_resolve::{Resolved, resolve_reference};
use jl_types::{ClassId, MethodId, ResolveAnswer, TableKind, Throwable, Unlinked};

/// What an invocation of a reference comes to before its receiver is looked at.
#[derive(Clone, Copy)]
pub(crate) enum Stage {
    /// It has no link yet.
    Waits(Unlinked),
    /// Linking fails.
    Fails(Throwable),
    /// It runs this method, without a receiver.
    Calls(MethodId),
    /// It selects by the receiver.
    Selects(Selection),
    /// An invokespecial: it searches from the caller's class or the one that the reference names. Its outcome is the same for each
    /// receiver.
    Searches,
}

/// What an invocation of the reference comes to, in the caller's class.
pub(crate) fn stage_of_reference(
    classes: &Classes,
    kind: Kind,
    caller: ClassId,
    reference: &Reference<LentName<'_>>,
) -> Stage
    ensures { IsStage classes.now caller reference.now result (stages.by_resolution classes.now kind caller reference.now
        (resolution.resolved classes.now caller reference.now)) }
{
    match resolve_reference(classes, caller, reference) {
        Ok(resolved) => by_kind(classes, kind, caller, reference, &resolved),
        Err(ResolveAnswer::NotReady(missing)) => Stage::Waits(Unlinked::NotReady(missing)),
        Err(ResolveAnswer::Fault(throwable)) => Stage::Fails(throwable),
    }
}

/// The instruction's own checks.
fn by_kind(
    classes: &Classes,
    kind: Kind,
    caller: ClassId,
    reference: &Reference<LentName<'_>>,
    resolved: &Resolved,
) -> Stage
    requires named { resolution.named_class classes.now caller reference.now ≡ Some resolved.now.named }
    requires there { resolved.now.named < length classes.now.rows }
    ensures { IsStage classes.now caller reference.now result (stages.by_kind classes.now kind caller reference.now resolved.now) }
{
    match kind {
        Kind::Static if classes.is_static(&resolved.method) => Stage::Calls(resolved.method),
        Kind::Static => Stage::Fails(Throwable::IncompatibleClassChangeError),
        Kind::Virtual => selecting(classes, TableKind::Virtual, caller, reference, resolved),
        Kind::Interface => selecting(classes, TableKind::Interface, caller, reference, resolved),
        Kind::Special => special_stage(classes, caller, reference, resolved),
        Kind::Dynamic => Stage::Waits(Unlinked::Unbound),
    }
}

/// An invocation that selects by its receiver fails if the method is static.
fn selecting(
    classes: &Classes,
    kind: TableKind,
    caller: ClassId,
    reference: &Reference<LentName<'_>>,
    resolved: &Resolved,
) -> Stage
    requires { resolved.now.named < length classes.now.rows }
    ensures { IsStage classes.now caller reference.now result (stages.selecting classes.now (selector_of kind) caller reference.now resolved.now) }
{
    if classes.is_static(&resolved.method) {
        return Stage::Fails(Throwable::IncompatibleClassChangeError);
    }
    Stage::Selects(Selection {
        kind,
        named: resolved.named,
        method: resolved.method,
    })
}

/// The checks of invokespecial: `<init>` has to be of the class that is named.
fn special_stage(
    classes: &Classes,
    caller: ClassId,
    reference: &Reference<LentName<'_>>,
    resolved: &Resolved,
) -> Stage
    requires { resolution.named_class classes.now caller reference.now ≡ Some resolved.now.named }
    ensures { IsStage classes.now caller reference.now result (stages.by_kind classes.now Special caller reference.now resolved.now) }
{
    if is_inherited_init(reference, resolved) {
        return Stage::Fails(Throwable::NoSuchMethodError);
    }
    if classes.is_static(&resolved.method) {
        return Stage::Fails(Throwable::IncompatibleClassChangeError);
    }
    Stage::Searches
}

/// Whether an `<init>` of another class than the one that is named was found.
fn is_inherited_init(reference: &Reference<LentName<'_>>, resolved: &Resolved) -> bool
    ensures { result ≡ selection.is_init reference.now.name && not (resolved.now.method.class == resolved.now.named) }
{
    reference.name.as_slice() == b"<init>".as_slice() && resolved.method.class != resolved.named
}
