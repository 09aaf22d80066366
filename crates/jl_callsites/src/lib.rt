//! Call sites and switch points (java.lang.invoke: CallSite, SwitchPoint): what each call site runs now, and every change of
//! either.
//!
//! The contract of each question is its definition in jl_types (`Targets`), and that of each change is its fault and its
//! step there (`Events`). A fault looks at classes, call sites and switch points alone; `specs/Faults` says it over
//! these, and the laws of `laws` lead back to whole worlds. `specs/ForProofs` is a means of proof.
#![tactic(auto)]

mod call_site;
mod changes;
mod copy;
mod discard;
mod evaluation;
mod faults;
mod laws;
mod release;
mod sites;
mod size;
mod targeted;

pub use call_site::CallSite;
pub use copy::copy_target;
pub use discard::discard_target;
pub use laws::{bound_sites_run, events_of_call_sites};
pub use sites::Sites;
