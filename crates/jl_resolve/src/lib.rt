//! What a symbolic method reference resolves to (JVMS SE 17 §5.4.3.3 and §5.4.3.4), with access control (§5.4.4).
//!
//! The contract of each question is its definition in jl_types (`Resolution` and `Access`). No question takes memory.
#![tactic(auto)]

mod control;
mod finding;
mod laws;
mod resolution;

pub use control::{Access, access_to_method, is_accessible_class};
pub use finding::{found_in_class, found_in_interface};
pub use laws::what_was_resolved_stays;
pub use resolution::{Resolved, found_in, if_accessible, named_class, resolve, resolve_reference};
