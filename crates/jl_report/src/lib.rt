//! The link of each invocation of a closed set of classes, or why it has none (JVMS SE 17 §6.5). Analysers and ahead-of-time compilers ask
//! for that.
//!
//! It stands in `specs/`:
//!
//! - `Gathering`: which files become classes.
//! - `Reports`: what a report says of classes.
//! - `Methods`: which methods an invocation runs.
//! - `Made`: which receivers may be of a class that no file has.
//! - `Drops`: which links a further class drops.
//! - `Finals`: which links no class drops that a JVM takes.
//! - `Totals`: how many invocations of each instruction have which shape.
//! - `Order`: in which order classes are reported.
#![tactic(auto)]

// Classes.
mod defining;
mod order;

// What is reported of them.
mod invocation;
mod made;
mod methods;
mod report;
mod row;
mod shape;
mod totals;

// What a further class changes of it.
mod breaking;
mod finals;
mod inherited;

// The laws of the definitions.
mod laws;

pub use breaking::{Dropped, is_open, keep_open};
pub use defining::{Refused, Rounds, define_all};
pub use finals::{is_final_call, overrides_final, some_overrides_final};
pub use laws::{
    final_calls_stay, made_objects_are_marked, reported_links_are_from_scratch, told_methods_run,
    undropped_links_stay,
};
pub use made::Made;
pub use order::order_by_name;
pub use report::Report;
pub use row::{Finding, Row};
pub use shape::Shape;
pub use totals::Totals;
