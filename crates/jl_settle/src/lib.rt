//! Brings the installed links and their index up to date once an event has changed the world, and looks at no site that the event
//! doesn't touch (selective recompilation: Chambers, Dean and Grove 1995).
//!
//! `specs/Settling` says what is settled, and when.
#![tactic(auto)]

mod catch_up;
mod forgetting;
mod install;
mod lost;
mod requested;
mod settling;

pub use catch_up::take_over;
pub use forgetting::forget;
pub use install::install_rows;
pub use requested::sites_of;
pub use settling::settle;
