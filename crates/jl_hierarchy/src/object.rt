//! The methods of java/lang/Object that interfaces find (JVMS SE 17 §5.4.3.4).

ghost use Rattle.std.specs.Prelude.{◌≡◌, option_and_then};
ghost use Rattle.jl_class.specs.Flags.{object};
ghost use Rattle.jl_types.specs.Values.Members as members;
ghost use Rattle.jl_types.specs.Linkage.Resolution as resolution;

use crate::classes::Classes;
use jl_types::{LoaderId, MethodId};

impl Classes {
    /// The method of this name and descriptor that java/lang/Object itself declares, if it is public and not static.
    pub fn declared_in_object(&self, name: &[u8], ty: &[u8]) -> Option<MethodId>
        ensures { result ≡ resolution.declared_in_object self.now name.now ty.now }
    {
        let method = self.of_object(name, ty)?;
        if self.is_public(&method) && !self.is_static(&method) {
            Some(method)
        } else {
            None
        }
    }

    /// The method of this name and descriptor that java/lang/Object itself declares.
    fn of_object(&self, name: &[u8], ty: &[u8]) -> Option<MethodId>
        ensures { result ≡ option_and_then (members.declared self.now name.now ty.now) (members.lookup self.now 0 object) }
    {
        let object = self.lookup(LoaderId::new(0), b"java/lang/Object".as_slice())?;
        self.declared(object, name, ty)
    }
}
