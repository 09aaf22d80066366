//! The constant pool of a class file (JVMS SE 17 §4.4).
//!
//! `specs/` says what a pool is, and why bytes begin with none. In reading order: `Numbers`, `Constants`, `Known`,
//! `Pools`, `Faults`.
#![tactic(auto)]

mod bytes;
mod check;
mod constant;
mod form;
mod kept_constant;
mod pool;
mod pool_fault;
mod reference;

pub use bytes::{bytes_at, u2_at, u4_at};
pub use constant::Constant;
pub use form::Form;
pub use pool::{Pool, no_fault_in_a_pool, one_pool};
pub use pool_fault::PoolFault;
pub use reference::{CallSiteSpecifier, Reference};
