//! The verdict on an event, and the world after it. Links that are installed, and what they rest on, are of no account here.
//!
//! Which events are accepted, and what they make of a world, is defined in jl_types (`Events`). `specs/Judging` says what is
//! answered by that, `specs/Accepted` what is kept of an accepted event, and `specs/Changes` how it leads from one world to another.
#![tactic(auto)]

mod accepted;
mod binding;
mod catch_up;
mod changes;
mod install;
mod judge;
mod request;
mod step;

pub use accepted::{Accepted, defined_class};
pub use catch_up::catch_up_world;
pub use judge::judged;
pub use step::step_world;
