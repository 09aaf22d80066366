//! Superclasses and methods of a class. A class or a method that isn't there has no flag.

ghost use Rattle.std.specs.Prelude.{◌≡◌};
ghost use Rattle.jl_class.specs.Flags as conditions;
ghost use Rattle.jl_types.specs.Values.Members as members;
ghost use Rattle.jl_types.specs.Values.Ancestry as ancestry;
ghost use Rattle.jl_types.specs.Values.Ancestry.{AreOrdered};

use crate::classes::Classes;
use crate::name_and_type::NameAndType;
use crate::row::methods_of;
use jl_class::{ABSTRACT, INTERFACE, Method, PRIVATE, PROTECTED, PUBLIC, STATIC, has_flag};
use jl_types::{ClassId, MethodId};

impl Classes {
    /// The direct superclass of the class.
    pub fn superclass(&self, class: ClassId) -> Option<ClassId>
        ensures same { result ≡ ancestry.superclass_of self.now class }
        ensures ordered { AreOrdered self.now.rows }
    {
        self.class_at(class)?.superclass()
    }

    /// Whether the class is an interface.
    pub fn is_interface(&self, class: ClassId) -> bool
        ensures { result ≡ members.is_interface self.now class }
    {
        match self.class_at(class) {
            Some(row) => has_flag(row.file().flags(), INTERFACE),
            None => false,
        }
    }

    /// Whether the class is public.
    pub fn is_public_class(&self, class: ClassId) -> bool
        ensures { result ≡ members.is_public_class self.now class }
    {
        match self.class_at(class) {
            Some(row) => has_flag(row.file().flags(), PUBLIC),
            None => false,
        }
    }

    /// The method of this number.
    pub fn method_at(&self, method: &MethodId) -> Option<Method<'_>>
        ensures { result ≡ members.method_at self.now method.now }
    {
        methods_of(self.class_at(method.class)?).at(method.index as usize)
    }

    /// The method of this name and descriptor that the class itself declares.
    pub fn declared(&self, class: ClassId, name: &[u8], ty: &[u8]) -> Option<MethodId>
        ensures { result ≡ members.declared self.now name.now ty.now class }
    {
        self.declared_by(class, &NameAndType::of(name, ty))
    }

    /// The method of the sought name and descriptor that the class itself declares, for a caller that looks in many classes.
    pub fn declared_by(&self, class: ClassId, sought: &NameAndType<'_>) -> Option<MethodId>
        ensures { result ≡ members.declared self.now sought.now.name sought.now.ty class }
    {
        let index = self.row_at(class)?.place_of(sought)?;
        Some(MethodId { class, index })
    }

    /// Whether the method is public.
    pub fn is_public(&self, method: &MethodId) -> bool
        ensures { result ≡ members.is_public self.now method.now }
    {
        self.has_method_flag(method, PUBLIC)
    }

    /// Whether the method is private.
    pub fn is_private(&self, method: &MethodId) -> bool
        ensures { result ≡ members.is_private self.now method.now }
    {
        self.has_method_flag(method, PRIVATE)
    }

    /// Whether the method is protected.
    pub fn is_protected(&self, method: &MethodId) -> bool
        ensures { result ≡ members.is_protected self.now method.now }
    {
        self.has_method_flag(method, PROTECTED)
    }

    /// Whether the method is static.
    pub fn is_static(&self, method: &MethodId) -> bool
        ensures { result ≡ members.is_static self.now method.now }
    {
        self.has_method_flag(method, STATIC)
    }

    /// Whether the method is abstract.
    pub fn is_abstract(&self, method: &MethodId) -> bool
        ensures { result ≡ members.is_abstract self.now method.now }
    {
        self.has_method_flag(method, ABSTRACT)
    }

    /// Whether the method has no access flag: it is neither public, protected nor private (JVMS SE 17 §4.6).
    pub fn is_package_private(&self, method: &MethodId) -> bool
        ensures { result ≡ members.is_package_private self.now method.now }
    {
        match self.method_at(method) {
            Some(method) => {
                let flags = method.flags();
                !has_flag(flags, PUBLIC) && !has_flag(flags, PROTECTED) && !has_flag(flags, PRIVATE)
            }
            None => true,
        }
    }

    /// Whether the method has the flag. A method that isn't there has none.
    fn has_method_flag(&self, method: &MethodId, flag: u16) -> bool
        ensures { result ≡ members.method_test (λ m. conditions.has_flag m.flags flag) self.now method.now }
    {
        match self.method_at(method) {
            Some(method) => has_flag(method.flags(), flag),
            None => false,
        }
    }
}
