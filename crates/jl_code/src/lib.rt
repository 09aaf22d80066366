//! The instructions of a code, and its invocations (JVMS SE 17 §4.7.3, §4.9, §6.5).
//!
//! `specs/` says what a code is, and why bytes are none. In reading order: `Known`, `Instructions`, `Codes`, `Faults`.
#![tactic(auto)]

mod code;
mod code_fault;
mod instruction;
mod plain;

pub use code::{no_fault_in_a_code, one_code, scan};
pub use code_fault::CodeFault;
