//! The lines of an input, each answered once, in order, whatever answers one.
//!
//! Input and output are a [`Source`] and a [`Sink`], which count what failed. In `specs/` stands, in reading order:
//!
//! - `Devices`: what is said of their bytes and counts; `Counted` and `FailAt`: that of two of them.
//! - `Lines` and `Answers`: what is answered, over the relation of an [`Answer`].
#![tactic(auto)]

// Input and output.
mod counted;
mod fail_at;
mod failed;
mod sink;
mod source;

// Lines.
mod answer;
mod answers;
mod line_buffer;
mod line_fault;
mod lines;

pub use answer::{Answer, add_answer};
pub use answers::write_all;
pub use counted::Counted;
pub use fail_at::FailAt;
pub use failed::Failed;
pub use line_buffer::MOST_IN_LINE;
pub use line_fault::LineFault;
pub use lines::answer_input;
pub use sink::Sink;
pub use source::Source;
