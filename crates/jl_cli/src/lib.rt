//! The program `linkd`, as a library: its modes, which answer the lines of an input, and how it ends.
//!
//! What one line is answered stands in `specs/Modes`, by jl_session, and in `specs/Farms`; what the program does for words, in `specs/Asked`,
//! and how it ends, in `specs/Endings`. The lines of an input, and that each is answered once, in order, are those of jl_lines; the words are
//! those of jl_words.
#![tactic(auto)]

// The modes of lines.
mod modes;
mod runs;

// The farm.
mod farm;
mod farm_fault;
mod farm_lines;
mod served;

// The words, and the end.
mod asked;
mod ending;

pub use asked::obey_words;
pub use ending::Ending;
pub use farm_fault::FarmLineFault;
pub use farm_lines::run_farm;
pub use jl_lines::{Counted, FailAt, Failed, LineFault, Sink, Source};
pub use jl_words::{Mode, Words, WordsFault, read_words};
pub use runs::{run_lines, run_lines_with};
