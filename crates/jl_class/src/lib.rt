//! What a class file is once it is read (JVMS SE 17 §4): its class, its methods, and the invocations in their codes.
//!
//! Linking rests on this, and on nothing that reads class files. `specs/` has, in reading order, `Flags`, `Special`, `Site`, `Operands`
//! and `Class`. `Kept` says how a class file keeps them.
#![tactic(auto)]

mod class;
mod copy;
mod flags;
mod site;
mod special;

pub use class::{ClassFile, KeptMethod, KeptMethods, Method, Methods};
pub use flags::{
    ABSTRACT, FINAL, INTERFACE, MODULE, NATIVE, PRIVATE, PROTECTED, PUBLIC, STATIC, has_flag,
};
pub use site::{KeptSite, Kind, Operand, Site, Sites};
pub use special::begins_special;
