//! The classes that are defined, by their loaders (JVMS SE 17 §5.3): what a loader finds by name, packages, nests, ancestors,
//! receivers and declarations.
//!
//! The contract of each question is its definition in jl_types (`Members`, `Ancestry`, `Access` and `Resolution`). The
//! contract of a definition or a delegation is its fault and its step there (`Definitions`). `specs/Constancy` says what
//! stays as it was. `specs/Redeclared` says what a class and those above and below it declare. `specs/Retiring` says which
//! classes a loader has defined. `specs/Prints` and `ForProofs` are means of proof.
#![tactic(auto)]

mod ancestor_list;
mod ancestry;
mod catch_up;
mod classes;
mod copy;
mod defaults;
mod define;
mod delegate;
mod faults;
mod leaving;
mod loader;
mod marks;
mod members;
mod name_and_type;
mod nests;
mod new_class;
mod object;
mod receiving;
mod redeclared;
mod retire;
mod row;
mod upward;

pub use classes::Classes;
pub use delegate::LoaderFault;
pub use leaving::Leaving;
pub use name_and_type::NameAndType;
