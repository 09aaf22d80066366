//! The renewal of a core: a fresh core that has what stays of an old one, under new numbers.
//!
//! A core's log only grows, and its numbers are never given again. So a process that runs for long goes over to a fresh core from time
//! to time. `specs/Numbers` says how what stays is numbered, `specs/Staying` what stays, `specs/Renewal` by which events the fresh core
//! is made, and `specs/Renewed` what there is to link in it then. `specs/Carries` says what an event of the old core is there, and
//! `specs/Moved` what there is after such events. `specs/Told` and `specs/Adds` say what a refusal leaves. The other definitions here are
//! means of proof.
#![tactic(auto)]

mod apply;
mod call_sites;
mod carried;
mod classes;
mod entries;
mod laws;
mod links;
mod marks;
mod numbers;
mod places;
mod present;
mod released;
mod renewal;
mod stays;
mod targets;

pub use entries::{CarryFault, carry};
pub use laws::{
    entries_come_over, fresh_cores_stay_beside, installed_links_stay_beside, linking_commutes,
    linking_commutes_beside, links_come_by_number, links_come_over, links_may_be_installed_later,
    links_may_be_read_later, only_sites_can_be_short, renewals_are_accepted,
};
pub use links::{fresh_links, install_all, install_fresh, renumbered_links};
pub use numbers::Renumbering;
pub use present::{Counts, counts_present};
pub use released::Released;
pub use renewal::{refill, renew, try_refill};
