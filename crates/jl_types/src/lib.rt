//! The plain values that every crate of the linker speaks of: numbers, answers, links, targets, events and refusals.
//!
//! `specs/` says what a link is, and what a call answers. In reading order:
//!
//! - `Values`, what a world has: `Target`, `World`, `Members`, `Ancestry`.
//! - `Linkage`, the links of a site there and the answers to its calls: `Access`, `Resolution`, `Overriding`, `Selection`, `Targets`,
//!   `Stages`, `Links`, `Calls`.
//! - `Events`, what changes a world: `Limits`, `Definitions`, `Retirement`, `Release`, `Batches`, `Event`, `Verdict`, `Preparation`,
//!   `History`, `Entries`, `Footprints`, `Fast`.
//!
//! The laws about them are the contracts of the functions of `laws`.
#![tactic(auto)]

// Numbers.
mod call_site_id;
mod class_id;
mod ids;
mod limits;
mod loader_id;
mod site_no;
mod switch_id;

// What is kept, and what calls answer.
mod answer;
mod class;
mod key;
mod link;
mod table;
mod target;

// What is counted.
mod work;

// What comes in, and what is answered.
mod event;
mod never_linked;
mod refusal;

// The laws of the definitions.
mod laws;

pub use answer::{
    Answer, Chosen, Fast, Missing, Outcome, Recv, ResolveAnswer, Throwable, Unlinked, same_answer,
};
pub use call_site_id::CallSiteId;
pub use class::Class;
pub use class_id::ClassId;
pub use event::{Event, EventOf, Made, Reply};
pub use ids::{MethodId, Place};
pub use key::Key;
pub use laws::{
    accepted_installs, ancestors_are_listed, ancestors_of_ancestors, beginnings_are_legal,
    definitions_are_the_classes, dropped_are_the_empty_slots, each_site_once, fewer_call_sites,
    fewer_loaders, links_give_the_answers, one_class_more, one_event_more, overriding_in_one_walk,
    overriding_is_decided, parents_come_first, settled_links, slots_are_the_links,
    superclasses_upward, unlinked_calls,
};
pub use limits::{Limits, MOST_OF_A_KIND};
pub use link::{Link, TableKind, same_link};
pub use loader_id::LoaderId;
pub use never_linked::{is_polymorphic, names_array};
pub use refusal::{
    CallSiteFault, DefineFault, DelegateFault, NotLinkable, OrMemory, PrepareFault, Refusal,
    ReleaseFault, RetireFault, SitesFault,
};
pub use site_no::SiteNo;
pub use switch_id::SwitchId;
pub use table::{MOST_ROWS, Table};
pub use target::{CallSiteKind, Part, Target};
pub use work::Work;
