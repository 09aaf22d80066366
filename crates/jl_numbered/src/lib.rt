//! Values by number, for numbers that lie close together. They are kept in a list with a place for each number, which grows at its end.
//! No value is moved by a hash.
//!
//! `specs/Numbers` says what a clause sees; `specs/ForProofs` has means of proof.
#![tactic(auto)]

mod numbered;

pub use numbered::Numbered;
