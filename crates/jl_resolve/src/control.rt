//! Access control (JVMS SE 17 §5.4.4).

ghost use Rattle.std.specs.Prelude.{◌≡◌, ◌<◌, length};
ghost use Rattle.jl_types.specs.Linkage.Access as access;
ghost use Rattle.jl_resolve.specs.Answers.{IsAccess};

use jl_hierarchy::Classes;
use jl_types::{ClassId, MethodId, Missing};

/// Whether a method is accessible.
#[derive(Clone, Copy, Debug, PartialEq, Eq)]
pub enum Access {
    /// It is.
    Allowed,
    /// It isn't.
    Denied,
    /// That depends on a nest host that isn't there yet.
    NotKnown(Missing),
}

/// Whether the class is accessible to the caller: it is public or of the caller's run-time package (JVMS SE 17 §5.4.4).
pub fn is_accessible_class(classes: &Classes, caller: ClassId, class: ClassId) -> bool
    ensures { result ≡ access.is_accessible_class classes.now caller class }
{
    classes.is_public_class(class) || classes.same_package(class, caller)
}

/// Whether the method is accessible to the caller through a reference that names this class (JVMS SE 17 §5.4.4).
///
/// For a private method of another class it asks for the caller's nest host, and then for the nest host of the method's class.
pub fn access_to_method(
    classes: &Classes,
    caller: ClassId,
    named: ClassId,
    method: &MethodId,
) -> Access
    requires caller { caller < length classes.now.rows }
    requires named { named < length classes.now.rows }
    ensures { IsAccess result (access.accessible classes.now caller named method.now) }
{
    if classes.is_public(method)
        || is_open_to_subclass(classes, caller, named, method)
        || is_open_to_package(classes, caller, method)
    {
        return Access::Allowed;
    }
    access_by_nest(classes, caller, method)
}

/// Whether the method is protected and of a superclass of the caller. Unless it is static, the class that the reference names must
/// also be the caller, a subclass or a superclass of it.
fn is_open_to_subclass(
    classes: &Classes,
    caller: ClassId,
    named: ClassId,
    method: &MethodId,
) -> bool
    requires caller { caller < length classes.now.rows }
    requires named { named < length classes.now.rows }
    ensures { result ≡ access.by_subclass classes.now caller named method.now }
{
    classes.is_protected(method)
        && classes.is_subclass(caller, method.class)
        && (classes.is_static(method)
            || classes.is_subclass(named, caller)
            || classes.is_subclass(caller, named))
}

/// Whether the method is protected or has no access flag, and its class is in the caller's run-time package.
fn is_open_to_package(classes: &Classes, caller: ClassId, method: &MethodId) -> bool
    ensures { result ≡ access.by_package classes.now caller method.now }
{
    (classes.is_protected(method) || classes.is_package_private(method))
        && classes.same_package(method.class, caller)
}

/// Whether the method is private and its class is in the caller's nest, as the caller itself is.
fn access_by_nest(classes: &Classes, caller: ClassId, method: &MethodId) -> Access
    ensures { IsAccess result (access.by_nest classes.now caller method.now) }
{
    if !classes.is_private(method) {
        return Access::Denied;
    }
    if method.class == caller {
        return Access::Allowed;
    }
    let Some(caller_host) = classes.nest_host(caller) else {
        return Access::NotKnown(Missing::CallerHost);
    };
    match classes.nest_host(method.class) {
        None => Access::NotKnown(Missing::MethodHost),
        Some(host) => {
            if host == caller_host {
                Access::Allowed
            } else {
                Access::Denied
            }
        }
    }
}
