//! Sketches: small class files as plain data, and their bytes (JVMS SE 17 §4).
//!
//! `specs/` says what a sketch's class file is, and why a sketch has none. In reading order: `Counts`, `Constants`,
//! `Layouts`, `Names`, `Faults`. They rest on the class files of jl_classfile.
#![tactic(auto)]

mod check;
mod constants;
mod fault;
mod fill;
mod laws;
mod sketch;
mod write;

pub use fault::SketchFault;
pub use laws::{
    a_sketch_is_shown, counts_of_slots, numbers_name_their_parts, one_layout_of_a_sketch,
};
pub use sketch::{Call, MethodName, Sketch, SketchMethod};
pub use write::write_class;
