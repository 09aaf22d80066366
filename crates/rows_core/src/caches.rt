//! The installed links apart from a core.

use crate::caches::Linked::*;
use crate::caches::Says::*;
use crate::steps::first;
use jl_cache::{Cache, fast};
use jl_types::{Answer, ClassId, Fast, Link, Outcome, Recv, SiteNo, Table, TableKind, Throwable};
use std::alloc::Global;
use std::process::Abort;

/// The second site's link and the first one's.
fn rows() -> [(SiteNo, Link); 2] {
    [
        (SiteNo::new(7), Link::Mega),
        (SiteNo::new(2), Link::Plain(first(1))),
    ]
}

/// Whether the links are those of the rows, and listed so.
fn are_both(alloc: Global, links: &Cache) -> bool {
    let [high, low] = rows();
    let Ok(listed) = links.list(alloc) else {
        return false;
    };
    links.len() == 2
        && links.get(SiteNo::new(7)) == Some(Link::Mega)
        && links.get(SiteNo::new(0)).is_none()
        && listed.as_slice() == [low, high].as_slice()
}

/// Whether the copy of links has both once one of them is dropped.
fn is_copied(alloc: Global, links: &mut Cache) -> bool {
    match links.copy() {
        Ok(copy) => {
            links.drop_changed([SiteNo::new(7)].as_slice());
            are_both(alloc, &copy) && links.len() == 1 && !links.is_empty()
        }
        Err(_) => false,
    }
}

/// Whether the rows are installed, listed and copied.
fn are_kept(alloc: Global) -> bool {
    let mut links = Cache::new(alloc);
    links.is_empty()
        && links.install(&rows()).is_ok()
        && are_both(alloc, &links)
        && is_copied(alloc, &mut links)
}

#[test]
fn copies_and_lists_links(rt: HostRuntime) {
    assert!(rt; are_kept(rt.alloc()));
}

/// A link, or none.
#[derive(Clone, Copy)]
enum Linked {
    Absent,
    IsMega,
    IsFault,
    IsPlain,
    IsDirect,
    /// A table of the classes 3 and 5.
    IsTable(TableKind),
}

/// What is answered at once.
#[derive(Clone, Copy)]
enum Says {
    Misses,
    /// Class 3's method runs.
    Runs,
    Throws(Throwable),
    IsNoReceiver,
}

fn link_of(linked: Linked) -> Option<Link> {
    let mut table = Table::new();
    table.push(ClassId::new(3), Outcome::Run(first(3)));
    table.push(
        ClassId::new(5),
        Outcome::Throws(Throwable::AbstractMethodError),
    );
    match linked {
        Absent => None,
        IsMega => Some(Link::Mega),
        IsFault => Some(Link::Fault(Throwable::NoSuchMethodError)),
        IsPlain => Some(Link::Plain(first(3))),
        IsDirect => Some(Link::Direct(Outcome::Run(first(3)))),
        IsTable(kind) => Some(Link::Table(kind, table)),
    }
}

/// Links, the class of the receiver, which is null if there is none, and what they answer at once.
const FAST: &[(Linked, Option<u32>, Says)] = &[
    // Links that look at no receiver.
    (Absent, Some(3), Misses),
    (IsMega, Some(3), Misses),
    (IsMega, None, Misses),
    (IsFault, None, Throws(Throwable::NoSuchMethodError)),
    (IsPlain, None, Runs),
    // Links that look at it.
    (IsDirect, None, Throws(Throwable::NullPointerException)),
    (IsDirect, Some(9), Runs),
    (
        IsTable(TableKind::Virtual),
        None,
        Throws(Throwable::NullPointerException),
    ),
    (IsTable(TableKind::Virtual), Some(3), Runs),
    (
        IsTable(TableKind::Interface),
        Some(5),
        Throws(Throwable::AbstractMethodError),
    ),
    (IsTable(TableKind::Virtual), Some(4), IsNoReceiver),
    (
        IsTable(TableKind::Interface),
        Some(4),
        Throws(Throwable::IncompatibleClassChangeError),
    ),
];

/// The first row that isn't so, if there is one.
fn other(rows: &[(Linked, Option<u32>, Says)]) -> Option<usize> {
    for (index, (linked, class, says)) in rows.iter().enumerate() {
        let receiver = match class {
            Some(class) => Recv::Of(ClassId::new(*class)),
            None => Recv::Null,
        };
        let answer = match says {
            Misses => Fast::Miss,
            Runs => Fast::Now(Answer::Run(first(3))),
            Throws(throwable) => Fast::Now(Answer::Throws(*throwable)),
            IsNoReceiver => Fast::Now(Answer::BadReceiver),
        };
        if fast(link_of(*linked), receiver) != answer {
            return Some(index);
        }
    }
    None
}

#[test]
fn answers_at_once(rt: HostRuntime) {
    assert_eq!(rt; other(FAST), None);
}
