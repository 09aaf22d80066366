//! The answer to a line: what one line of each mode is answered, and the core that commands are obeyed on.
//!
//! It stands in `specs/`, in reading order: `Jsons`, `Scans`, `Sketches`, `Obeying`, `Sessions`. The JSON is that of jl_json.
#![tactic(auto)]

// Class files and sketches.
mod hexadecimal;
mod json_line;
mod scan;
mod sketch;

// Commands.
mod obeying;
mod session;
mod target_text;

pub use json_line::{bad_command, text_of};
pub use obeying::{Obey, obey_event};
pub use scan::{add_scan_answer, fault_value};
pub use session::{Session, command_in};
pub use sketch::{sketch_answer, sketch_fault_value};
pub use target_text::read_target;
