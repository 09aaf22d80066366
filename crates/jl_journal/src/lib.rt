//! A list that grows and forgets: a clause sees all its elements, and of those that are forgotten there are no bytes.
//!
//! What is past stands in a list that only proofs read (`past`), whose functions are proved by hand. All that [`Journal`] does is proved
//! over these.
#![tactic(auto)]

mod element;
mod elements;
mod journal;
mod past;
#[cfg(test)]
mod tests;

pub use element::{Keep, Share};
pub use journal::Journal;
