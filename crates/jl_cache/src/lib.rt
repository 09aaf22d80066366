//! The map of installed links: a site's link is found, installed and dropped by the site's number, and all are listed by rising
//! number.
//!
//! What a clause says of the links stands in `specs/Links`. The other definitions are means of proof.
#![tactic(auto)]

mod answers;
mod cache;
mod few;
mod kept;

pub use answers::{direct_answer, fast, table_answer};
pub use cache::{Cache, kept_rows};
pub use kept::{KeptLink, KeptSlot};
