//! The dependency index: which sites' links rest on what, and what an event changes of that (selective recompilation:
//! Chambers, Dean and Grove 1995).
//!
//! What a link rests on and what an event changes is defined in jl_types (`Footprints`). `specs/Indexes` says what an index
//! has; `specs/ForProofs` is a means of proof.
#![tactic(auto)]

mod footprint;
mod form;
mod group;
mod index;
mod kept;
mod keys;
mod laws;
mod lists;
mod resting;
mod rests;

pub use footprint::{footprint_at, footprint_of};
pub use form::{Form, Rests};
pub use index::Index;
pub use kept::Footprint;
pub use keys::{
    Keys, keys_of, keys_of_definition, keys_of_points, keys_of_release, keys_of_retirement,
    keys_of_target,
};
pub use laws::only_touched_sites_change;
pub use resting::rests_of;
pub use rests::KeptRests;
