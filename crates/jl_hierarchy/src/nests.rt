//! Run-time packages and nests.

ghost use Rattle.std.specs.Prelude.{◌≡◌};
ghost use Rattle.std.specs.List.{list_any};
ghost use Rattle.std.specs.Str.{bytes_eq};
ghost use Rattle.jl_types.specs.Values.Members as members;
ghost use Rattle.jl_types.specs.Linkage.Access as access;

use crate::classes::Classes;
use jl_names::{Name, package_of};
use jl_types::ClassId;

impl Classes {
    /// Whether the classes are of one run-time package: one defining loader and one package name (JVMS SE 17 §5.3).
    pub fn same_package(&self, class: ClassId, other: ClassId) -> bool
        ensures { result ≡ members.same_package self.now class other }
    {
        match (self.class_at(class), self.class_at(other)) {
            (Some(row), Some(other)) => {
                row.loader() == other.loader()
                    && package_of(row.file().name().as_slice())
                        == package_of(other.file().name().as_slice())
            }
            _ => false,
        }
    }

    /// The nest host of the class (JVMS SE 17 §5.4.4): the class that its NestHost names if that is of its run-time package
    /// and lists it, and else the class itself. None while what its NestHost names isn't recorded.
    pub fn nest_host(&self, class: ClassId) -> Option<ClassId>
        ensures { result ≡ access.nest_host self.now class }
    {
        let row = self.class_at(class)?;
        let Some(name) = row.file().nest_host() else {
            return Some(class);
        };
        let host = self.lookup(row.loader(), name.as_slice())?;
        if self.same_package(class, host) && self.lists_member(host, row.file().name().as_slice()) {
            Some(host)
        } else {
            Some(class)
        }
    }

    /// Whether the class's NestMembers lists the name.
    fn lists_member(&self, host: ClassId, name: &[u8]) -> bool
        ensures { result ≡ access.lists_member self.now host name.now }
    {
        match self.class_at(host) {
            Some(row) => is_among(name, row.file().nest_members()),
            None => false,
        }
    }
}

/// Whether the name is one of these.
pub(crate) fn is_among(name: &[u8], names: &[Name]) -> bool
    ensures { result ≡ list_any (bytes_eq name.now) names.now }
{
    names.iter().any(|other| name == other.as_slice())
}
