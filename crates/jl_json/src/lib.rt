//! What is asked and answered, as JSON.
//!
//! The value of each answer stands in `specs/`, in reading order: `Names`, `ClassAnswers` and
//! `Refusals` for class files; `LinkAnswers`, `CallAnswers`, `Replies` and `EventRefusals` for what
//! is linked. Which JSON asks for something stands in `Members`, `Sketches`, `Targets` and
//! `Commands`, a form of each sketch in `SketchForms`, and one of each command and target in
//! `CommandForms`.
#![tactic(auto)]

// Class files.
mod class_answer;
mod plain;
mod refusal;
mod text;

// Linking.
mod call_answer;
mod event_refusal;
mod link_answer;
mod object;
mod reply;
mod to_json;

// What is asked.
mod call_site;
mod command;
mod from_json;
mod sketch;
mod target;

pub use call_answer::answer_value;
pub use call_site::{is_method_descriptor, types_are_descriptors};
pub use class_answer::{append_class, instruction};
pub use command::{
    AskedEvent, ClassSource, Command, each_command_is_read, no_other_keys, read_command,
};
pub use event_refusal::{event_refusal_value, prepare_refusal_value};
pub use link_answer::{
    farm_value, link_value, links_value, outcome_value, prepared_value, table_kind, throwable_name,
};
pub use refusal::FileRefusal;
pub use reply::reply_value;
pub use sketch::{each_sketch_is_read, no_other_sketch_keys, read_sketch};
pub use target::{each_target_is_read, no_other_target_keys, target_in};
