//! Method resolution and interface method resolution (JVMS SE 17 §5.4.3.3, §5.4.3.4).

ghost use Rattle.std.specs.Prelude.{◌≡◌, ◌<◌, IfSome, IfOk, OnOk, Some, length, if◌then◌else◌};
ghost use Rattle.jl_types.specs.Linkage.Resolution as resolution;
ghost use Rattle.jl_resolve.specs.Answers.{method_of};

use crate::control::{Access, access_to_method, is_accessible_class};
use crate::finding::{found_in_class, found_in_interface};
use jl_hierarchy::Classes;
use jl_names::LentName;
use jl_pool::Reference;
use jl_types::{ClassId, MethodId, Missing, ResolveAnswer, Throwable};
use std::marker::Model;

/// The class that a reference names, and the method that it resolves to.
#[derive(Clone, Copy, Debug, PartialEq, Eq)]
pub struct Resolved {
    pub named: ClassId,
    pub method: MethodId,
}

impl Model for Resolved {
    ghost use Rattle.jl_types.specs.Linkage.Resolution.{Resolved as plain};

    ghost Value = { plain };

    ghost view = { λ r. record { named = r.named; method = r.method } };

    ghost inverse = { λ r. record { named = r.named; method = r.method } };
}

/// The method that the reference resolves to, for the caller's class (JVMS SE 17 §5.4.3.3; for an InterfaceMethodref §5.4.3.4).
///
/// # Errors
///
/// Those of [`resolve_reference`].
pub fn resolve(
    classes: &Classes,
    caller: ClassId,
    reference: &Reference<LentName<'_>>,
) -> Result<MethodId, ResolveAnswer>
    ensures { result ≡ method_of (resolution.resolved classes.now caller reference.now) }
{
    match resolve_reference(classes, caller, reference) {
        Ok(resolved) => Ok(resolved.method),
        Err(answer) => Err(answer),
    }
}

/// The class that the reference names and the method that it resolves to, for the caller's class (JVMS SE 17 §5.4.3.3; for an
/// InterfaceMethodref §5.4.3.4).
///
/// # Errors
///
/// - `NotReady(Named)`: the caller isn't there, or its loader hasn't recorded the class that the reference names.
/// - `Fault(IllegalAccessError)`: that class isn't accessible to the caller, or the method that is found isn't.
/// - `Fault(IncompatibleClassChangeError)`: a Methodref names an interface, or an InterfaceMethodref a class.
/// - `Fault(NoSuchMethodError)`: no method is found.
/// - `NotReady(CallerHost)`, `NotReady(MethodHost)`: access to a private method depends on the nest host of the caller or of the
///   method's class, and that isn't recorded.
pub fn resolve_reference(
    classes: &Classes,
    caller: ClassId,
    reference: &Reference<LentName<'_>>,
) -> Result<Resolved, ResolveAnswer>
    ensures same { result ≡ resolution.resolved classes.now caller reference.now }
    ensures named { IfOk result (λ resolved. resolution.named_class classes.now caller reference.now ≡ Some resolved.named) }
    ensures there { IfOk result (λ resolved. resolved.named < length classes.now.rows) }
    ensures caller { OnOk result (caller < length classes.now.rows) }
{
    let Some(named) = named_class(classes, caller, reference) else {
        return Err(ResolveAnswer::NotReady(Missing::Named));
    };
    match resolve_in(classes, caller, reference, named) {
        Ok(method) => Ok(Resolved { named, method }),
        Err(answer) => Err(answer),
    }
}

/// The class that the reference names, found by the caller's loader (JVMS SE 17 §5.4.3.1). None if the caller isn't there, or if
/// its loader hasn't recorded the class.
pub fn named_class(
    classes: &Classes,
    caller: ClassId,
    reference: &Reference<LentName<'_>>,
) -> Option<ClassId>
    ensures found { result ≡ resolution.named_class classes.now caller reference.now }
    ensures there { IfSome result (λ class. class < length classes.now.rows) }
    ensures caller { IfSome result (λ _. caller < length classes.now.rows) }
{
    let loader = classes.class_at(caller)?.loader();
    classes.lookup(loader, reference.owner.as_slice())
}

/// The method that the reference, which names this class, resolves to for the caller's class.
///
/// # Errors
///
/// Those of [`resolve_reference`] that come once the class is there.
fn resolve_in(
    classes: &Classes,
    caller: ClassId,
    reference: &Reference<LentName<'_>>,
    named: ClassId,
) -> Result<MethodId, ResolveAnswer>
    requires caller { caller < length classes.now.rows }
    requires named { named < length classes.now.rows }
    ensures { result ≡ resolution.resolved_in classes.now caller reference.now named }
{
    if !is_accessible_class(classes, caller, named) {
        return Err(ResolveAnswer::Fault(Throwable::IllegalAccessError));
    }
    if reference.itf != classes.is_interface(named) {
        return Err(ResolveAnswer::Fault(Throwable::IncompatibleClassChangeError));
    }
    let found = found_in(
        classes,
        named,
        reference.itf,
        reference.name.as_slice(),
        reference.ty.as_slice(),
    );
    if_accessible(classes, caller, named, found)
}

/// What a reference of this kind finds in the class that it names, accessible or not.
pub fn found_in(
    classes: &Classes,
    named: ClassId,
    itf: bool,
    name: &[u8],
    ty: &[u8],
) -> Option<MethodId>
    requires { named < length classes.now.rows }
    ensures { result ≡ (if itf then resolution.found_in_interface classes.now name.now ty.now named
        else resolution.found_in_class classes.now name.now ty.now named) }
{
    if itf {
        found_in_interface(classes, named, name, ty)
    } else {
        found_in_class(classes, named, name, ty)
    }
}

/// The method that was found, if it is accessible to the caller through a reference that names this class (JVMS SE 17 §5.4.4).
///
/// # Errors
///
/// - `Fault(NoSuchMethodError)`: none was found.
/// - `Fault(IllegalAccessError)`: it isn't accessible.
/// - `NotReady(CallerHost)`, `NotReady(MethodHost)`: access depends on a nest host that isn't recorded.
pub fn if_accessible(
    classes: &Classes,
    caller: ClassId,
    named: ClassId,
    found: Option<MethodId>,
) -> Result<MethodId, ResolveAnswer>
    requires caller { caller < length classes.now.rows }
    requires named { named < length classes.now.rows }
    ensures { result ≡ resolution.if_accessible classes.now caller named found }
{
    let Some(method) = found else {
        return Err(ResolveAnswer::Fault(Throwable::NoSuchMethodError));
    };
    match access_to_method(classes, caller, named, &method) {
        Access::Allowed => Ok(method),
        Access::Denied => Err(ResolveAnswer::Fault(Throwable::IllegalAccessError)),
        Access::NotKnown(missing) => Err(ResolveAnswer::NotReady(missing)),
    }
}
