//! A core under a lock, with a published table that callers read without waiting for anybody.
//!
//! A server's history is the list of its accepted events, each with its reply and with the sites that it changes. What a caller
//! has seen is a beginning of it; every clause here is about such lists. Legal lists and the tables that they make are defined in
//! jl_types (`Entries`). `specs/History` says which core a list is the log of, and `specs/Receivers` for which receivers an answer
//! at once is the call's; `specs/ForProofs` is a means of proof.
#![tactic(auto)]

mod book;
mod caller;
mod entry;
mod fault;
mod history;
mod laws;
mod links;
mod mark;
mod memo;
mod parts;
mod past;
mod publish;
mod seen;
mod server;
mod table;

pub use book::{Book, Denied, Receipt};
pub use caller::Caller;
pub use fault::EntriesFault;
pub use history::Name;
pub use laws::fast_answers_are_the_calls;
pub use memo::Memo;
pub use parts::{Parts, Unmade};
pub use past::{Past, Since};
pub use seen::Seen;
pub use server::{LinkList, LinkServer};
