//! Class files below paths, read in an order in which parents come before the classes below them.
//!
//! Here nothing is proved but that each call returns, and which sources are reported: what a file or a folder holds can't be stated.
#![tactic(auto)]

mod files;
mod order;
mod paths;

pub use files::{Gathered, NoClass, NoClassReason, Source, are_reported, read_all};
pub use paths::{PathFault, Special};
