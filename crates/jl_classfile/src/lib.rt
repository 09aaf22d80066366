//! A whole class file (JVMS SE 17 §4).
//!
//! `specs/` says what a class file is, and why bytes are none. In reading order: `Layouts`, `CodeAttributes`, `Parts`,
//! `Conditions`, `Shown`, `ClassFiles`, `Faults`. They rest on the constant pools of jl_pool and the codes of jl_code.
//! What is read is the class file of jl_class.
#![tactic(auto)]

mod body;
mod fault;
mod links;
mod member;
mod nest;
mod read;
mod twin;
mod version;

pub use fault::ClassFault;
pub use member::CODE;
pub use nest::{NEST_HOST, NEST_MEMBERS};
pub use read::{
    later_versions_change_nothing, no_fault_in_a_class, one_class, read_class, read_class_up_to,
};
pub use version::{NEWEST_KNOWN, NEWEST_OF_17, Version, version_of};
