//! A report as a user of the program has it: what is found of each invocation of the class files below paths.
//!
//! What a report says is a contract of jl_report. Here nothing is proved but that each call returns: what a file holds and what a terminal
//! shows can't be stated.
//!
//! The forms of a report, `texts` and `html`, are modules here, which makes a large crate. A library of their own would state once more all
//! that a report's types state.
#![tactic(auto)]

// What is asked for.
mod chosen;
mod report_words;
mod usage;

// The forms of a report.
mod html;
mod texts;

// From paths to what is written.
mod breaks;
mod fault;
mod left_out;
mod page;
mod page_file;
mod progress;
mod releases;
mod report;
mod told;

pub use chosen::{Choice, Chosen};
pub use fault::ReportFault;
pub use report::run_report;
pub use report_words::{Form, ReportWords, read_report_words, wrong_in_report};
pub use usage::report_usage;
