//! The event machine: the accepted events with their replies, what they leave to link, and the links that they leave installed.
//!
//! What an event is answered, what the world is after a list of events, and which links such a list leaves installed is defined
//! in jl_types (`Events`, `History`); the verdict, and the world after one event, are made in jl_events. `specs/State` says what a
//! core is and what an event does to it, `specs/Plans` what a planned event is, and `specs/Logs` how a log tells the events. The
//! other definitions here are means of proof.
#![tactic(auto)]

mod catch_up;
mod event_machine;
mod instance;
mod laws;
mod log;
mod machine;
mod perform;
mod plan;
mod slots;

pub use event_machine::EventMachine;
pub use jl_events::Accepted;
pub use jl_journal::Journal;
pub use laws::links_are_exact;
pub use log::{Entry, EntryEvent, share_log};
pub use machine::Core;
pub use plan::Planned;
