//! The outcomes of calls at megamorphic links, remembered by site and receiver's class, so that whoever calls again asks nobody.
//!
//! A memo has room for a fixed number of rows. Once an invocation selects by its receiver, its outcome for a class that is there
//! stays, whatever is defined later. So a row that was right once is right. `specs/Memos` has the definitions.
#![tactic(auto)]

mod answers;
mod laws;
mod memo;
mod set;

pub use answers::{answer, recalled, remembered_answer, told};
pub use laws::{what_is_put_is_remembered, what_is_remembered_stays};
pub use memo::Memo;
pub use set::{Row, Set};
