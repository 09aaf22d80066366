//! The words of the program `linkd`.
//!
//! What words ask for, and which ask for nothing, stands in `specs/Words`; which ask for help, and on what, in `specs/Help`.
#![tactic(auto)]

mod help;
mod laws;
mod texts;
mod usage;
mod words;

pub use help::{Topic, help_asked};
pub use laws::asking_words_want_no_help;
pub use usage::{HEADING, REPORT, usage_of, wrong_words};
pub use words::{Mode, Words, WordsFault, read_words};
