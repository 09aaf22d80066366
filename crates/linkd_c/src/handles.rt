//! What C sees of linkers, seats, memos, views and renewals, each of which may go from one thread to another.

use jl_host::{Linker, Memo, Renewal, Seat, View};

/// Shows that a value of the type may go from one thread to another.
fn crosses<T: Send>() {}

/// Linkers, seats, memos, views and renewals may: this is refused if one of them may not.
fn all_cross() {
    crosses::<Linker>();
    crosses::<Seat>();
    crosses::<Memo>();
    crosses::<View>();
    crosses::<Renewal>();
}

/// What C sees of a linker: nothing.
#[repr(C)]
#[derive(Drop)]
pub struct Linkd {
    hidden: u8,
}

/// What C sees of a seat: nothing.
#[repr(C)]
#[derive(Drop)]
pub struct LinkdSeat {
    hidden: u8,
}

/// What C sees of a memo: nothing.
#[repr(C)]
#[derive(Drop)]
pub struct LinkdMemo {
    hidden: u8,
}

/// What C sees of a view: nothing.
#[repr(C)]
#[derive(Drop)]
pub struct LinkdView {
    hidden: u8,
}

/// What C sees of a renewal: nothing.
#[repr(C)]
#[derive(Drop)]
pub struct LinkdRenewal {
    hidden: u8,
}
