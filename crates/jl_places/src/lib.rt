//! The places that were requested, in order of request. Many small maps, which keep places by class, tell the number of a place. So
//! no map ever moves many entries at a time, and copies share all maps.
//!
//! `specs/ForProofs` has means of proof.
#![tactic(auto)]

mod numbers;
mod places;

pub use places::Places;
