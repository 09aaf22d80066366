//! A class as it is kept.

ghost use Rattle.std.specs.Prelude.{◌≡◌};

use crate::class_id::ClassId;
use crate::loader_id::LoaderId;
use jl_class::ClassFile;
use jl_names::Seq;
use std::marker::Model;

/// A defined class or interface (JVMS SE 17 §5.3): its defining loader, what its file shows, its superclass and its direct
/// superinterfaces. Those are the classes that the loader had recorded under the names in the file.
#[derive(Debug)]
pub struct Class {
    loader: LoaderId,
    file: ClassFile,
    superclass: Option<ClassId>,
    interfaces: Seq<ClassId>,
}

/// Written out, so that what drops one makes one call of it and doesn't take apart what it holds.
impl Drop for Class {
    fn drop(self) {
        let Class {
            loader: _loader,
            file: _file,
            superclass: _superclass,
            interfaces: _interfaces,
        } = self;
    }
}

impl Model for Class {
    ghost use Rattle.jl_types.specs.Values.World.{Class};

    ghost Value = { Class };

    ghost view = { λ c. record { loader = c.loader; file = c.file; superclass = c.superclass; interfaces = c.interfaces } };
}

impl Class {
    /// The class that the loader makes of the file, with these parents.
    pub fn new(
        loader: LoaderId,
        file: ClassFile,
        superclass: Option<ClassId>,
        interfaces: Seq<ClassId>,
    ) -> Self
        ensures { result ≡ record { loader = loader; file = file; superclass = superclass; interfaces = interfaces } }
    {
        Class {
            loader,
            file,
            superclass,
            interfaces,
        }
    }

    /// Its defining loader.
    pub fn loader(&self) -> LoaderId
        ensures { result ≡ self.now.loader }
    {
        self.loader
    }

    /// What its class file shows.
    pub fn file(&self) -> &ClassFile
        ensures { result.now ≡ self.now.file }
    {
        &self.file
    }

    /// Its direct superclass. Only java/lang/Object has none.
    pub fn superclass(&self) -> Option<ClassId>
        ensures { result ≡ self.now.superclass }
    {
        self.superclass
    }

    /// Its direct superinterfaces, as its file lists them.
    pub fn interfaces(&self) -> &[ClassId]
        ensures { result.now ≡ self.now.interfaces }
    {
        self.interfaces.as_slice()
    }
}
