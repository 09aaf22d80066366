//! Whether a class inherits a method from its superclasses.

ghost use Rattle.std.specs.Prelude.{◌≡◌};
ghost use Rattle.jl_report.specs.Finals.{inherits};

use jl_hierarchy::{Classes, NameAndType};
use jl_types::{ClassId, MethodId};

/// Whether the method stands in a class, and is what this class, from itself upward, first declares of its name and descriptor (JVMS SE 17
/// §5.4.3.3). Takes no memory.
pub(crate) fn inherits(classes: &Classes, class: ClassId, method: &MethodId) -> bool
    ensures { result ≡ inherits classes.now class method.now }
{
    if classes.is_interface(method.class) {
        return false;
    }
    let Some(found) = classes.method_at(method) else {
        return false;
    };
    let (name, ty) = (found.name(), found.ty());
    let sought = NameAndType::of(name.as_slice(), ty.as_slice());
    match classes.declared_upward_by(class, &sought) {
        Some(first) => method.class == first.class && method.index == first.index,
        None => false,
    }
}
