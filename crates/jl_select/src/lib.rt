//! Overriding and selection (JVMS SE 17 §5.4.5, §5.4.6), and what the instructions make of them (§6.5).
//!
//! The contract of each is its definition in jl_types (`Overriding` and `Selection`), or the law of `specs/RunsBelow` over
//! these. `specs/ForProofs` is a means of proof.
#![tactic(auto)]

mod below;
mod invokespecial;
mod laws;
mod overriding;
mod selection;

pub use below::runs_below;
pub use invokespecial::{special, special_counted};
pub use laws::{outcomes_stay, what_was_selected_stays};
pub use overriding::can_override;
pub use selection::{
    chosen, chosen_counted, select, select_counted, select_interface, select_interface_counted,
};
