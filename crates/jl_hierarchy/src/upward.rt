//! Walks up the superclasses.

ghost use Rattle.std.specs.Prelude.{◌≡◌, ◌<◌, length};
ghost use Rattle.jl_types.specs.Values.Ancestry as ancestry;
ghost use Rattle.jl_types.specs.Linkage.Resolution as resolution;

use crate::classes::Classes;
use crate::name_and_type::NameAndType;
use jl_types::{ClassId, MethodId};

impl Classes {
    /// Whether the class is the other one or one of its subclasses.
    pub fn is_subclass(&self, class: ClassId, other: ClassId) -> bool
        requires { class < length self.now.rows }
        ensures { result ≡ ancestry.is_subclass self.now class other }
    {
        let mut at = class;
        loop {
            if at == other {
                return true;
            }
            match self.superclass(at) {
                Some(superclass) => at = superclass,
                None => return false,
            }
        }
    }

    /// Whether the class is one of the other one's subclasses, and not that itself.
    pub fn is_proper_subclass(&self, class: ClassId, other: ClassId) -> bool
        requires { class < length self.now.rows }
        ensures { result ≡ ancestry.is_proper_subclass self.now class other }
    {
        class != other && self.is_subclass(class, other)
    }

    /// The first method of the sought name and descriptor that the class and its superclasses upward declare.
    pub fn declared_upward_by(&self, class: ClassId, sought: &NameAndType<'_>) -> Option<MethodId>
        ensures { result ≡ resolution.declared_upward self.now sought.now.name sought.now.ty class }
    {
        let mut at = class;
        loop {
            if let Some(method) = self.declared_by(at, sought) {
                return Some(method);
            }
            match self.superclass(at) {
                Some(superclass) => at = superclass,
                None => return None,
            }
        }
    }
}
