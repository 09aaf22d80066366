//! Which links no class drops that a JVM takes.

ghost use Rattle.std.specs.Prelude.{◌≡◌, ◌<◌, ◌^◌, ◌&&◌, false, Some, length};
ghost use Rattle.std.specs.List.{list_any};
ghost use Rattle.jl_types.specs.Values.Members as members;
ghost use Rattle.jl_report.specs.Finals as finals;

use crate::inherited::inherits;
use crate::methods::run_by;
use crate::row::Row;
use jl_class::{FINAL, Method, Methods, has_flag};
use jl_hierarchy::{Classes, NameAndType};
use jl_select::can_override;
use jl_types::{ClassId, MethodId};

/// Whether the row's link runs one method, a FINAL one of the class among whose receivers it looks, or of a superclass. No class that a
/// JVM takes drops such a link, since none overrides a FINAL method (JVMS SE 17 §5.3.5). Takes no memory.
pub fn is_final_call(classes: &Classes, row: &Row) -> bool
    ensures { result ≡ finals.is_final_call classes.now row.now }
{
    let Some(class) = row.looked_at() else {
        return false;
    };
    match run_by(&row.finding) {
        Some(method) => is_final_in(classes, class, &method),
        None => false,
    }
}

/// Whether it is a class, and the method, which is FINAL, is what it first declares of its name and descriptor, from itself upward.
fn is_final_in(classes: &Classes, class: ClassId, method: &MethodId) -> bool
    ensures { result ≡ finals.is_final_in classes.now class method.now }
{
    !classes.is_interface(class)
        && is_final_method(classes, method)
        && inherits(classes, class, method)
}

/// Whether the method has the flag FINAL (JVMS SE 17 §4.6).
fn is_final_method(classes: &Classes, method: &MethodId) -> bool
    ensures { result ≡ finals.is_final_method classes.now method.now }
{
    match classes.method_at(method) {
        Some(found) => has_flag(found.flags(), FINAL),
        None => false,
    }
}

/// Whether some class overrides a FINAL method. Takes no memory.
pub fn some_overrides_final(classes: &Classes) -> bool
    ensures { result ≡ finals.some_overrides_final classes.now }
{
    let count = classes.count_in_order() as u32;
    (0..count).any(|class| overrides_final(classes, ClassId::new(class)))
}

/// Whether a method of the class can override a FINAL method that a superclass declares: no JVM takes such a class (JVMS SE 17 §5.3.5).
/// One walk up the superclasses for each method; takes no memory.
pub fn overrides_final(classes: &Classes, class: ClassId) -> bool
    ensures { result ≡ finals.overrides_final classes.now class }
{
    match classes.class_at(class) {
        Some(row) => some_overrides(classes, class, &row.file().methods()),
        None => false,
    }
}

/// Whether one of the class's methods, which are these, can override a FINAL method that a superclass declares.
fn some_overrides(classes: &Classes, class: ClassId, methods: &Methods<'_>) -> bool
    requires few { length methods.now < 2 ^ 16 }
    requires own { members.methods_of classes.now class ≡ methods.now }
    ensures { result ≡ finals.overrides_final classes.now class }
{
    let mut index = 0;
    while let Some(method) = methods.at(index) {
        let lower = MethodId {
            class,
            index: index as u16,
        };
        if overrides_above(classes, &lower, &method) {
            return true;
        }
        index += 1;
    }
    false
}

/// Whether the first method, which is this, can override a FINAL method that a superclass of its class declares.
fn overrides_above(classes: &Classes, lower: &MethodId, method: &Method<'_>) -> bool
    requires { members.method_at classes.now lower.now ≡ Some method.now }
    ensures { result ≡ finals.overrides_above classes.now lower.now }
{
    let (name, ty) = (method.name(), method.ty());
    let sought = NameAndType::of(name.as_slice(), ty.as_slice());
    overrides_upward(classes, lower, &sought)
}

/// Whether the method can override a FINAL method of this name and descriptor that a superclass of its class declares.
fn overrides_upward(classes: &Classes, lower: &MethodId, sought: &NameAndType<'_>) -> bool
    ensures { result ≡ list_any (finals.overrides_in classes.now lower.now sought.now.name sought.now.ty)
        (finals.superclasses_above classes.now lower.now.class) }
{
    let mut at = lower.class;
    loop {
        let Some(superclass) = classes.superclass(at) else {
            return false;
        };
        if overrides_in(classes, lower, sought, superclass) {
            return true;
        }
        at = superclass;
    }
}

/// Whether the method of this name and descriptor that the class declares is FINAL, and the other one can override it.
fn overrides_in(
    classes: &Classes,
    lower: &MethodId,
    sought: &NameAndType<'_>,
    class: ClassId,
) -> bool
    ensures { result ≡ finals.overrides_in classes.now lower.now sought.now.name sought.now.ty class }
{
    match classes.declared_by(class, sought) {
        Some(upper) => is_final_method(classes, &upper) && can_override(classes, lower, &upper),
        None => false,
    }
}
