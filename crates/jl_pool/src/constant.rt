//! Constants (JVMS 4.4).

ghost use Rattle.std.specs.Prelude.{◌≡◌};

use jl_names::Text;

/// A constant as it stands in a class file. It names another constant by its number.
#[derive(Debug, Drop)]
pub enum Constant<'a> {
    Utf8(Text<'a>),
    /// The bits of the value, here and in the three below.
    Integer(u32),
    Float(u32),
    Long(u64),
    Double(u64),
    Class(u16),
    String(u16),
    /// A class and a name and type, here and in the two below.
    Fieldref(u16, u16),
    Methodref(u16, u16),
    InterfaceMethodref(u16, u16),
    /// A name and a descriptor.
    NameAndType(u16, u16),
    /// A kind, and what it refers to.
    MethodHandle(u8, u16),
    MethodType(u16),
    /// A number among the bootstrap methods, and a name and type, here and below.
    Dynamic(u16, u16),
    InvokeDynamic(u16, u16),
    Module(u16),
    Package(u16),
}

impl<'a> Constant<'a> {
    ghost use Rattle.jl_pool.specs.Constants.{tag};

    /// The byte that tells its kind (JVMS SE 17 §4.4, table 4.4-A).
    pub fn tag(&self) -> u8
        ensures { result ≡ tag self.now }
    {
        match self {
            Constant::Utf8(_) => 1,
            Constant::Integer(_) => 3,
            Constant::Float(_) => 4,
            Constant::Long(_) => 5,
            Constant::Double(_) => 6,
            Constant::Class(_) => 7,
            Constant::String(_) => 8,
            Constant::Fieldref(_, _) => 9,
            Constant::Methodref(_, _) => 10,
            Constant::InterfaceMethodref(_, _) => 11,
            Constant::NameAndType(_, _) => 12,
            Constant::MethodHandle(_, _) => 15,
            Constant::MethodType(_) => 16,
            Constant::Dynamic(_, _) => 17,
            Constant::InvokeDynamic(_, _) => 18,
            Constant::Module(_) => 19,
            Constant::Package(_) => 20,
        }
    }
}
