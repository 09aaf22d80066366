//! What several numbers name.

use crate::class_id::ClassId;

/// A method, by its class and its place among the methods that the class declares.
#[derive(Clone, Copy, Debug, PartialEq, Eq, Hash)]
pub struct MethodId {
    pub class: ClassId,
    pub index: u16,
}

/// An invocation in a class: the method's place among those that the class declares, and the pc in its code. No code has a
/// pc of 2^16 or more.
#[derive(Clone, Copy, Debug, PartialEq, Eq, Hash)]
pub struct Place {
    pub class: ClassId,
    pub method: u16,
    pub pc: u32,
}
