//! Lists of a fixed length, in pages that copies share: a page is copied when it is first written after a copy was made.
//!
//! `specs/ForProofs` is a means of proof.
#![tactic(auto)]

mod fixed_page;
mod slots;

pub use fixed_page::PAGE;
pub use slots::Slots;
