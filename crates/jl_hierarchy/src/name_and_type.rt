//! A name and a descriptor of a method that is sought.

ghost use Rattle.std.specs.Prelude.{◌≡◌};
ghost use Rattle.jl_hierarchy.specs.Prints.{print_of};

use jl_names::print_from;
use std::marker::Model;

/// A name and a descriptor, as a NameAndType has them (JVMS SE 17 §4.4.6), with their print, which is made once for many classes. A
/// clause sees the two texts.
#[derive(Debug, Drop)]
pub struct NameAndType<'a> {
    name: &'a [u8],
    ty: &'a [u8],
    print: u64,
}

impl<'a> Model for NameAndType<'a> {
    ghost use Rattle.std.specs.Prelude.{◌≡◌};
    ghost use Rattle.jl_hierarchy.specs.Prints.{Called, print_of};

    ghost Value = { Called };

    ghost view = { λ s. record { name = s.name.now; ty = s.ty.now } };

    ghost invariant = { λ s. s.print ≡ print_of s.name.now s.ty.now };
}

impl<'a> NameAndType<'a> {
    /// This name and this descriptor.
    pub fn of(name: &'a [u8], ty: &'a [u8]) -> Self
        ensures name { result.name ≡ name.now }
        ensures ty { result.ty ≡ ty.now }
    {
        NameAndType {
            name,
            ty,
            print: print_of(name, ty),
        }
    }

    /// The name.
    pub fn name(&self) -> &'a [u8]
        ensures { result.now ≡ self.now.name }
    {
        self.name
    }

    /// The descriptor.
    pub fn ty(&self) -> &'a [u8]
        ensures { result.now ≡ self.now.ty }
    {
        self.ty
    }

    /// Their print.
    pub(crate) fn print(&self) -> u64
        ensures { result ≡ print_of self.now.name self.now.ty }
    {
        self.print
    }
}

/// The print of a name and a descriptor.
pub(crate) fn print_of(name: &[u8], ty: &[u8]) -> u64
    ensures { result ≡ print_of name.now ty.now }
{
    print_from(print_from(0, name), ty)
}
