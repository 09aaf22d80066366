//! A linker as a host holds it, and what the host reads and renews it by:
//!
//! - a linker: one core, with its events by plain numbers, bytes and arrays;
//! - seats, at which threads read its links without a lock;
//! - views, in which compilers prepare links without a lock;
//! - renewals, which make a fresh linker while the old one goes on.
//!
//! Everything that a call answers is a status and plain numbers.
//!
//! What each call leaves, by its status, stands in `specs/`, in reading order: `Numbers`, `Telling`, `Showing`, `Copies`, `Linkers`,
//! `Seats`, `Memos`, `Reading`, `Targets`, `Views`, `Awaiting`, `Asking`, `Calling`, `Linking`, `Renewals`, `Renewing`, `UnderWay`.
#![tactic(auto)]

// What is answered, as numbers.
mod shown;
mod told;

// Arrays, and links and targets that are given.
mod arrays;
mod invocations;
mod reading;
mod targets;

// Classes and methods by name and by number.
mod asked;
mod awaited;
mod calling;

// What an open linker holds, and the linker.
mod begun;
mod behind;
mod fresh;
mod limits;
mod link;
mod linker;
mod opened;
mod ready;
mod renew;
mod renewal;

// Places to read, and what is remembered beside them.
mod memo;
mod seat;
mod seat_view;
mod view;

// What follows from the contracts.
mod laws;

pub use invocations::Invocation;
pub use laws::{
    awaited_classes_are_named, given_links_are_from_scratch, renewals_in_steps_stay_beside,
    seats_answer_what_calls_write, selections_stay, shown_links_are_read_again,
    targets_are_read_from_parts,
};
pub use linker::Linker;
pub use memo::Memo;
pub use reading::LinkRow;
pub use renew::{Counts, GONE};
pub use renewal::Renewal;
pub use seat::Seat;
pub use shown::{CallAnswer, LinkShown, NO_METHOD, NULL, ResolutionShown, Row};
pub use targets::TargetPart;
pub use told::{
    CLOSED, DONE, MALFORMED, MEMORY, NO_CLASS_FILE, NO_SUCH_PLACE, OPEN_ALREADY, RELEASED,
    SITES_FULL, TOO_SHORT, Told, UNKNOWN_CLASS,
};
pub use view::View;
