//! Methods that every class below one runs.

ghost use Rattle.std.specs.Prelude.{◌≡◌, ◌<◌, Some, true, length};
ghost use Rattle.jl_types.specs.Linkage.Resolution as resolution;
ghost use Rattle.jl_select.specs.RunsBelow.{RunsBelow, MayRun};

use crate::overriding::can_override;
use jl_hierarchy::{Classes, NameAndType};
use jl_types::{ClassId, MethodId};

/// Whether it is known, without a look at each class, that an invokevirtual of the resolved method runs that method itself for
/// each class that has this one among its ancestors. It is, if no subclass redeclares it.
pub fn runs_below(classes: &Classes, named: ClassId, resolved: &MethodId) -> bool
    requires { named < length classes.now.rows }
    ensures { result ≡ true → RunsBelow classes.now named resolved.now }
{
    let Some(method) = classes.method_at(resolved) else {
        return false;
    };
    if !may_run(classes, named, resolved) {
        return false;
    }
    let (name, ty) = (method.name(), method.ty());
    let sought = NameAndType::of(name.as_slice(), ty.as_slice());
    if !is_first(classes, named, resolved, &sought) {
        return false;
    }
    !classes.is_redeclared_below(named, &sought)
}

/// Whether the class is no interface, the method is neither private nor abstract and can override itself, and each ancestor
/// of a class that isn't an interface is one of its superclasses.
fn may_run(classes: &Classes, named: ClassId, resolved: &MethodId) -> bool
    ensures { result ≡ true → MayRun classes.now named resolved.now }
{
    // Shows that parents have smaller numbers.
    let _ = classes.class_at(named);
    !classes.is_interface(named)
        && classes.are_superclass_chains()
        && !classes.is_private(resolved)
        && !classes.is_abstract(resolved)
        && can_override(classes, resolved, resolved)
}

/// Whether the method is the first declaration in the class and its superclasses upward.
fn is_first(
    classes: &Classes,
    named: ClassId,
    resolved: &MethodId,
    sought: &NameAndType<'_>,
) -> bool
    ensures { result ≡ true → resolution.declared_upward classes.now sought.now.name sought.now.ty named ≡ Some resolved.now }
{
    match classes.declared_upward_by(named, sought) {
        Some(first) => first == *resolved,
        None => false,
    }
}
