//! The link of a site from scratch, the answer to a call (JVMS SE 17 §6.5; Hölzle, Chambers and Ungar 1991), and links that
//! are looked up apart from the events, in one thread or in several, and installed later.
//!
//! The contract of each is its definition in jl_types (`Links`, `Calls`, `Batches` and `Preparation`);
//! `specs/Preparations` says what a preparation is answered, `specs/Laws` which events change no link, and `specs/Placed` in which world
//! an invocation is asked by its place. The other definitions here are means of proof.
#![tactic(auto)]

mod answer;
mod batch;
mod by_rows;
mod earlier;
mod items;
mod known;
mod laws;
mod link;
mod located;
mod outline;
mod pairs;
mod preparation;
mod receiver;
mod receivers;
mod scratch;
mod selection;
mod snapshot;
mod stage;
mod together;
mod wide;
mod world;

pub use answer::{dispatch, dispatch_at};
pub use batch::{MOST_IN_BATCH, Row, is_bad_size, sites_fault};
pub use items::fill;
pub use laws::{
    accepted_events_are_in_order, links_stay, one_receiver_more, touched_sites_take_one_evaluation,
    untouched_links_stay,
};
pub use located::invocation_at;
pub use preparation::{Prepared, prepare, prepare_counted, prepare_in};
pub use receiver::stays_with_receiver;
pub use scratch::{link_at, link_counted, link_of};
pub use snapshot::Snapshot;
pub use wide::{Probe, prepare_wide, prepare_wide_seen};
pub use world::World;
