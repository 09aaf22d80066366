//! Links as they are kept.

ghost use Rattle.std.specs.Prelude.{◌≡◌, Some, None, IfOk};
ghost use Rattle.jl_types.specs.Events.Fast as fast;
ghost use Rattle.jl_types.specs.declared.link.Link.TheVariants as link;
ghost use Rattle.jl_cache.specs.Links as links;
ghost use Rattle.jl_cache.specs.ForProofs.Kept.{link_of};

use crate::answers::{direct_answer, few_answer, table_answer};
use crate::few::{Few, few_of, table_of};
use jl_pages::Again;
use jl_types::{Answer, Fast, Link, MethodId, Outcome, Recv, Table, TableKind, Throwable};
use std::alloc::{AllocError, Global};
use std::marker::Model;
use std::mem::size_of;
use std::sync::Arc;

/// A site's link as it is kept, or none, in sixteen bytes: a table of more than two classes stands apart, and copies share it. A clause sees
/// the link or none.
pub struct KeptSlot {
    kept: Kept,
}

/// What is kept of each link. One that looks at the receiver is told by its own variant, so that a call mostly makes one comparison.
#[derive(Drop)]
enum Kept {
    Fixed(Fixed),
    Direct(Outcome),
    Few(TableKind, Few),
    Table(TableKind, Arc<Table>),
}

/// What is kept of a link that looks at no receiver, of a megamorphic one, and of none.
#[derive(Clone, Copy)]
enum Fixed {
    Nothing,
    Fault(Throwable),
    Plain(MethodId),
    Mega,
}

const _: () = prove!(size_of::<KeptSlot>() == 16);

/// Written out, so that what drops one makes one call of it and doesn't take apart what it holds.
impl Drop for KeptSlot {
    fn drop(self) {
        let KeptSlot { kept: _kept } = self;
    }
}

impl Model for KeptSlot {
    ghost use Rattle.std.specs.Prelude.{Option};
    ghost use Rattle.jl_types.specs.declared.link.Link.{Link};
    ghost use Rattle.jl_cache.specs.ForProofs.Kept.{link_of};

    ghost Value = { Option Link };

    ghost view = { λ s. link_of s.kept };
}

/// A copy of the slot, which shares its table. More copies than can be counted are an error.
impl Clone for KeptSlot {
    ghost is_clone = { λ slot copy. copy ≡ slot };

    fn clone(&self) -> Result<KeptSlot, AllocError> {
        let kept = match &self.kept {
            Kept::Fixed(fixed) => Kept::Fixed(*fixed),
            Kept::Direct(outcome) => Kept::Direct(*outcome),
            Kept::Few(kind, few) => Kept::Few(*kind, *few),
            Kept::Table(kind, table) => Kept::Table(*kind, Arc::try_clone(table)?),
        };
        Ok(KeptSlot { kept })
    }
}

/// A copy is a clone, and takes no memory.
impl Again for KeptSlot {
    fn again(&self, _alloc: Global) -> Result<KeptSlot, AllocError> {
        self.clone()
    }
}

impl KeptSlot {
    /// No link.
    pub fn nothing() -> KeptSlot
        ensures { result ≡ None }
    {
        KeptSlot {
            kept: Kept::Fixed(Fixed::Nothing),
        }
    }

    /// What is kept of the link.
    fn new(alloc: Global, link: &Link) -> Result<KeptSlot, AllocError>
        ensures { IfOk result (λ slot. slot ≡ Some link.now) }
    {
        let kept = match link {
            Link::Fault(throwable) => Kept::Fixed(Fixed::Fault(*throwable)),
            Link::Plain(method) => Kept::Fixed(Fixed::Plain(*method)),
            Link::Direct(outcome) => Kept::Direct(*outcome),
            Link::Table(kind, table) => kept_table(alloc, *kind, table)?,
            Link::Mega => Kept::Fixed(Fixed::Mega),
        };
        Ok(KeptSlot { kept })
    }

    /// The link, if there is one. Takes no memory.
    pub fn get(&self) -> Option<Link>
        ensures { result ≡ self.now }
    {
        match &self.kept {
            Kept::Fixed(Fixed::Nothing) => None,
            Kept::Fixed(Fixed::Fault(throwable)) => Some(Link::Fault(*throwable)),
            Kept::Fixed(Fixed::Plain(method)) => Some(Link::Plain(*method)),
            Kept::Fixed(Fixed::Mega) => Some(Link::Mega),
            Kept::Direct(outcome) => Some(Link::Direct(*outcome)),
            Kept::Few(kind, few) => Some(Link::Table(*kind, table_of(few))),
            Kept::Table(kind, table) => Some(Link::Table(*kind, **table)),
        }
    }

    /// Whether there is a link, and a megamorphic one. Takes no memory.
    pub fn is_mega(&self) -> bool
        ensures { result ≡ links.is_mega self.now }
    {
        match &self.kept {
            Kept::Fixed(Fixed::Mega) => true,
            Kept::Fixed(Fixed::Nothing | Fixed::Fault(_) | Fixed::Plain(_)) => false,
            Kept::Direct(_) => false,
            Kept::Few(_, _) => false,
            Kept::Table(_, _) => false,
        }
    }

    /// The answer to a call by the link, with so many classes. Takes no memory.
    ///
    /// There is none
    ///
    /// - if there is no link
    /// - if the link is megamorphic
    /// - if the answer depends on the receiver and its class is newer
    #[inline(always)]
    pub fn answer(&self, classes: usize, recv: Recv) -> Fast
        ensures { result ≡ fast.fast_answer self.now classes recv }
    {
        match &self.kept {
            Kept::Fixed(Fixed::Nothing | Fixed::Mega) => Fast::Miss,
            Kept::Fixed(Fixed::Fault(throwable)) => Fast::Now(Answer::Throws(*throwable)),
            Kept::Fixed(Fixed::Plain(method)) => Fast::Now(Answer::Run(*method)),
            Kept::Direct(outcome) => direct_answer(classes, *outcome, recv),
            Kept::Few(kind, few) => few_answer(classes, *kind, few, recv),
            Kept::Table(kind, table) => table_answer(classes, *kind, table, recv),
        }
    }
}

/// What is kept of a table.
fn kept_table(alloc: Global, kind: TableKind, table: &Table) -> Result<Kept, AllocError>
    ensures { IfOk result (λ kept. link_of kept ≡ Some (link.Table kind table.now)) }
{
    match few_of(table) {
        Some(few) => Ok(Kept::Few(kind, few)),
        None => Ok(Kept::Table(kind, Arc::new(alloc, *table)?)),
    }
}

/// A link as it is kept, in sixteen bytes: a table of more than two classes stands apart, and copies share it. A clause sees the link.
pub struct KeptLink {
    slot: KeptSlot,
}

const _: () = prove!(size_of::<KeptLink>() == 16);

/// Written out, so that what drops one makes one call of it and doesn't take apart what it holds.
impl Drop for KeptLink {
    fn drop(self) {
        let KeptLink { slot: _slot } = self;
    }
}

impl Model for KeptLink {
    ghost use Rattle.std.specs.Prelude.{◌≡◌, true, is_some};
    ghost use Rattle.jl_types.specs.declared.link.Link.{Link};
    ghost use Rattle.jl_cache.specs.ForProofs.Kept.{link_in};

    ghost Value = { Link };

    ghost view = { λ k. link_in k.slot };

    ghost invariant = { λ k. is_some k.slot ≡ true };
}

/// A copy of the kept link, which shares its table. More copies than can be counted are an error.
impl Clone for KeptLink {
    ghost is_clone = { λ kept copy. copy ≡ kept };

    fn clone(&self) -> Result<KeptLink, AllocError> {
        Ok(KeptLink {
            slot: self.slot.clone()?,
        })
    }
}

impl KeptLink {
    /// What is kept of the link.
    pub fn new(alloc: Global, link: &Link) -> Result<KeptLink, AllocError>
        ensures { IfOk result (λ kept. kept ≡ link.now) }
    {
        Ok(KeptLink {
            slot: KeptSlot::new(alloc, link)?,
        })
    }

    /// The link. Takes no memory.
    pub fn get(&self) -> Link
        ensures { result ≡ self.now }
    {
        match self.slot.get() {
            Some(link) => link,
            None => Link::Mega,
        }
    }

    /// A slot with this link, which shares its table. More copies than can be counted are an error.
    pub fn slot(&self) -> Result<KeptSlot, AllocError>
        ensures { IfOk result (λ slot. slot ≡ Some self.now) }
    {
        self.slot.clone()
    }
}

/// A copy is a clone, and takes no memory.
impl Again for KeptLink {
    fn again(&self, _alloc: Global) -> Result<KeptLink, AllocError> {
        self.clone()
    }
}

/// A kept link is printed as the link.
impl std::fmt::Debug for KeptLink {
    fn fmt<W: std::fmt::Write>(&self, f: &mut std::fmt::Formatter<W>) -> std::fmt::Result {
        write!(f, "{:?}", self.get())
    }
}
