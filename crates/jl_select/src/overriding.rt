//! Overriding (JVMS SE 17 §5.4.5).

ghost use Rattle.std.specs.Prelude.{◌≡◌, ◌<◌, ◌^◌, Some, false, length, Decides};
ghost use Rattle.std.specs.List.{list_any};
ghost use Rattle.jl_types.specs.Values.Ancestry.{AreOrdered};
ghost use Rattle.jl_types.specs.Values.Members as members;
ghost use Rattle.jl_types.specs.Linkage.Overriding as overriding;
ghost use Rattle.jl_types.specs.Linkage.Overriding.{CanOverride};
ghost use Rattle.jl_select.specs.ForProofs.Walks.{are_alike_methods, is_bridge, has_bridge, bridged_before, above};

use jl_class::{Method, Methods, PRIVATE, PROTECTED, PUBLIC, STATIC, has_flag};
use jl_hierarchy::Classes;
use jl_types::{ClassId, MethodId};

/// Whether the first method can override the second one (JVMS SE 17 §5.4.5): they are alike, and the second is visible in
/// the first one's class, or a method between them makes it so. One walk up the superclasses; takes no memory.
pub fn can_override(classes: &Classes, lower: &MethodId, upper: &MethodId) -> bool
    ensures test { result ≡ overriding.can_override classes.now lower.now upper.now }
    ensures relation { Decides result (CanOverride classes.now lower.now upper.now) }
{
    // Shows that parents have smaller numbers.
    let _ = classes.class_at(lower.class);
    match (classes.method_at(lower), classes.method_at(upper)) {
        (Some(method), Some(overridden)) => overrides(classes, lower, upper, &method, &overridden),
        _ => false,
    }
}

/// Whether the first method can override the second one, given both by number and by content.
fn overrides(
    classes: &Classes,
    lower: &MethodId,
    upper: &MethodId,
    method: &Method<'_>,
    overridden: &Method<'_>,
) -> bool
    requires ordered { AreOrdered classes.now.rows }
    requires lower { members.method_at classes.now lower.now ≡ Some method.now }
    requires upper { members.method_at classes.now upper.now ≡ Some overridden.now }
    ensures { result ≡ overriding.can_override classes.now lower.now upper.now }
{
    if !are_alike(method, overridden) {
        return false;
    }
    if is_visible(classes, lower, upper) {
        return true;
    }
    classes.is_package_private(upper) && is_bridged(classes, lower.class, upper.class, overridden)
}

/// Whether both are instance methods of one name and descriptor, and the first isn't private.
fn are_alike(lower: &Method<'_>, upper: &Method<'_>) -> bool
    ensures { result ≡ are_alike_methods lower.now upper.now }
{
    !has_flag(lower.flags(), STATIC)
        && !has_flag(upper.flags(), STATIC)
        && !has_flag(lower.flags(), PRIVATE)
        && upper.name().as_slice() == lower.name().as_slice()
        && upper.ty().as_slice() == lower.ty().as_slice()
}

/// Whether the second method is public or protected, or has no access flag and is of the first one's run-time package.
fn is_visible(classes: &Classes, lower: &MethodId, upper: &MethodId) -> bool
    ensures { result ≡ overriding.is_visible classes.now lower.now upper.now }
{
    classes.is_public(upper)
        || classes.is_protected(upper)
        || classes.is_package_private(upper) && classes.same_package(upper.class, lower.class)
}

/// Whether a class above the first one and below the second one, in the second one's run-time package, declares a method
/// like this one that is public or protected.
fn is_bridged(classes: &Classes, lower: ClassId, upper: ClassId, overridden: &Method<'_>) -> bool
    requires { AreOrdered classes.now.rows }
    ensures { result ≡ bridged_before upper (has_bridge classes.now upper overridden.now) false (above classes.now lower) }
{
    let mut at = lower;
    let mut found = false;
    loop {
        let Some(superclass) = classes.superclass(at) else {
            return false;
        };
        if superclass == upper {
            return found;
        }
        found = found || has_bridge(classes, upper, overridden, superclass);
        at = superclass;
    }
}

/// Whether the last class is of the first one's run-time package and declares a method like this one that is public or
/// protected.
fn has_bridge(classes: &Classes, upper: ClassId, overridden: &Method<'_>, class: ClassId) -> bool
    ensures { result ≡ has_bridge classes.now upper overridden.now class }
{
    match classes.class_at(class) {
        Some(row) => classes.same_package(upper, class)
            && declares_bridge(&row.file().methods(), overridden),
        None => false,
    }
}

/// Whether one of these methods is like this one, and public or protected.
fn declares_bridge(methods: &Methods<'_>, overridden: &Method<'_>) -> bool
    requires { length methods.now < 2 ^ 16 }
    ensures { result ≡ list_any (is_bridge overridden.now) methods.now }
{
    let mut place = 0;
    while let Some(method) = methods.at(place) {
        if is_bridge(overridden, &method) {
            return true;
        }
        place += 1;
    }
    false
}

/// Whether the second method is like the first one, and public or protected.
fn is_bridge(overridden: &Method<'_>, method: &Method<'_>) -> bool
    ensures { result ≡ is_bridge overridden.now method.now }
{
    are_alike(method, overridden)
        && (has_flag(method.flags(), PUBLIC) || has_flag(method.flags(), PROTECTED))
}
