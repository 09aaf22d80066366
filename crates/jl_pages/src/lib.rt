//! Lists in pages, which copies share. [`Paged`] grows at its end. A copy costs its list of pages and the last few elements.
//!
//! `specs/Listing` says what a clause sees; `specs/ForProofs` has means of proof.
#![tactic(auto)]

mod again;
mod paged;
mod pages;

pub use again::Again;
pub use paged::Paged;
