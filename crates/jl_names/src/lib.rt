//! Names and descriptors: the lowest layer of a class file.
//!
//! A name or a descriptor is a text of bytes in modified UTF-8. What the contracts cite stands in
//! `specs/`, by sections of JVMS SE 17: `Mutf8` (§4.4.7), `ClassNames` (§4.2), `Descriptors`
//! (§4.3.2), `MethodTypes` (§4.3.3) and `Repeats` (§4.5, §4.6).
#![tactic(auto)]

mod class_name;
mod descriptor;
mod fault;
mod method_type;
mod mutf8;
mod name;
mod print;
mod repeat;
mod seq;
mod text;

pub use class_name::{is_class_name, is_unqualified, package_of};
pub use descriptor::{Element, FieldType, no_fault_in_field_descriptors, one_field_type};
pub use fault::NameFault;
pub use method_type::{MethodType, method_slots, no_fault_in_method_descriptors, one_method_type};
pub use mutf8::{decode_mutf8, encode_mutf8, is_text, no_fault_in_units, one_list_of_units};
pub use name::{LentName, Name};
pub use print::print_from;
pub use repeat::first_repeat;
pub use seq::Seq;
pub use text::Text;
