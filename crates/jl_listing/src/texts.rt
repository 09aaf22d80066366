//! What stands in a report, as text and as JSON: invocations with what is found of them, files that are left out, and totals.
//!
//! What the words and keys are is in docs/FORMATS.md.

mod elsewhere;
mod json_lines;
mod links;
mod missing;
mod names;
mod nothing;
mod text;
mod totals;

pub(crate) use elsewhere::Elsewhere;
pub(crate) use json_lines::{
    Former, push_left_out_line, push_nothing_line, write_class_line, write_line, write_totals,
};
pub(crate) use links::push_finding;
pub(crate) use missing::MissingClasses;
pub(crate) use names::{push_line, push_name, push_shown};
pub(crate) use nothing::push_nothing;
pub(crate) use text::{
    push_all_left_out, push_dropped, push_method_line, push_reason, push_site_line,
};
pub(crate) use totals::Summary;
