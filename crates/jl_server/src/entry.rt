//! What a history consists of.

use jl_names::Seq;
use jl_types::{Event, Link, Reply, SiteNo};
use std::marker::Model;

/// An accepted event with its reply, and each site that it changes with its new link or none. No value of it is made: it is what a
/// history consists of, which exists in the proofs alone.
pub struct Entry {
    event: Event,
    reply: Reply,
    slots: Seq<(SiteNo, Option<Link>)>,
}

impl Model for Entry {
    ghost use Rattle.std.specs.Coded.{codes};
    ghost use Rattle.jl_types.specs.ForProofs.TargetCode.{target_code};
    ghost use Rattle.jl_types.specs.Events.Entries as plain;

    ghost Value = { plain.Entry };

    ghost coded = { Prim.hlevel (codes, target_code) };

    ghost view = { λ e. record { event = e.event; reply = e.reply; slots = e.slots } };
}
