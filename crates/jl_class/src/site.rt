//! Invocations in a code.

ghost use Rattle.std.specs.Prelude.{◌≡◌, ◌==◌, length, map, slice_get, find, true};
ghost use Rattle.std.specs.List.{list_all};
ghost use Rattle.std.specs.Option.{option_copied};
ghost use Rattle.jl_class.specs.Operands.{operand_at};
ghost use Rattle.jl_class.specs.Kept.{site_in, is_named};

use jl_names::LentName;
use jl_pool::{CallSiteSpecifier, Pool, Reference};
use std::marker::Model;

/// Which instruction invokes (JVMS SE 17 §6.5): invokevirtual, invokespecial, invokestatic, invokeinterface,
/// invokedynamic.
#[derive(Clone, Copy, Debug, PartialEq, Eq)]
pub enum Kind {
    Virtual,
    Special,
    Static,
    Interface,
    Dynamic,
}

/// What an invocation names. `T` is how a text is kept.
#[derive(Debug, Drop)]
pub enum Operand<T> {
    Method(Reference<T>),
    CallSite(CallSiteSpecifier<T>),
}

/// The method or call site that the entry at a number names.
pub(crate) fn operand_at<'a>(pool: &'a Pool, number: u16) -> Option<Operand<LentName<'a>>>
    ensures { result ≡ operand_at pool.now number }
{
    match pool.method_ref(number) {
        Some(reference) => Some(Operand::Method(reference)),
        None => match pool.dynamic(number) {
            Some(specifier) => Some(Operand::CallSite(specifier)),
            None => None,
        },
    }
}

/// An invocation as its class file keeps it: its place in bytes from the code's start, which instruction it is, and the
/// number in the pool of what it names.
#[derive(Clone, Copy, Debug, PartialEq, Eq)]
pub struct KeptSite {
    pub pc: u16,
    pub kind: Kind,
    pub number: u16,
}

/// The invocation that is kept over this pool.
fn site_in<'a>(pool: &'a Pool, kept: KeptSite) -> Site<'a>
    requires { is_named pool.now kept ≡ true }
    ensures { result ≡ site_in pool.now kept }
{
    Site {
        pc: kept.pc,
        kind: kept.kind,
        operand: operand_at(pool, kept.number).unwrap(),
    }
}

/// An invocation that is lent. A clause sees its place, its kind and what it names.
#[derive(Debug, Drop)]
pub struct Site<'a> {
    pc: u16,
    kind: Kind,
    operand: Operand<LentName<'a>>,
}

impl<'a> Model for Site<'a> {
    ghost use Rattle.jl_class.specs.Site as plain;

    ghost Value = { plain.Site };

    ghost view = { λ s. record { pc = s.pc; kind = s.kind; operand = s.operand } };
}

impl<'a> Site<'a> {
    /// Its place, in bytes from the code's start.
    pub fn pc(&self) -> u16
        ensures { result ≡ self.now.pc }
    {
        self.pc
    }

    /// Which instruction it is.
    pub fn kind(&self) -> Kind
        ensures { result ≡ self.now.kind }
    {
        self.kind
    }

    /// What it names. Takes no memory.
    pub fn operand(&self) -> &Operand<LentName<'a>>
        ensures { result.now ≡ self.now.operand }
    {
        &self.operand
    }
}

/// Invocations that are lent. A clause sees the list of them. None of its functions takes memory.
#[derive(Debug, Drop)]
pub struct Sites<'a> {
    pool: &'a Pool,
    kept: &'a [KeptSite],
}

impl<'a> Model for Sites<'a> {
    ghost use Rattle.std.specs.Prelude.{◌≡◌, List, map, true};
    ghost use Rattle.std.specs.List.{list_all};
    ghost use Rattle.jl_class.specs.Site as plain;
    ghost use Rattle.jl_class.specs.Kept.{site_in, is_named};

    ghost Value = { List plain.Site };

    ghost view = { λ s. map (site_in s.pool.now) s.kept.now };

    ghost invariant = { λ s. list_all (is_named s.pool.now) s.kept.now ≡ true };
}

impl<'a> Sites<'a> {
    /// The invocations that are kept over this pool.
    pub fn of(pool: &'a Pool, kept: &'a [KeptSite]) -> Self
        requires { list_all (is_named pool.now) kept.now ≡ true }
        ensures { result ≡ map (site_in pool.now) kept.now }
    {
        Sites { pool, kept }
    }

    /// How many there are.
    pub fn len(&self) -> usize
        ensures { result ≡ length self.now }
    {
        self.kept.len()
    }

    /// Whether there is none.
    pub fn is_empty(&self) -> bool
        ensures { result ≡ (length self.now == 0) }
    {
        self.len() == 0
    }

    /// The one at this place of the list.
    pub fn at(&self, place: usize) -> Option<Site<'a>>
        ensures { result ≡ slice_get self.now place }
    {
        match self.kept.get(place) {
            Some(kept) => Some(site_in(self.pool, *kept)),
            None => None,
        }
    }

    /// The first one at this pc.
    pub fn at_pc(&self, pc: u32) -> Option<Site<'a>>
        ensures { result ≡ find (λ site. site.pc == pc) self.now }
    {
        match kept_at(self.kept, pc) {
            Some(kept) => Some(site_in(self.pool, *kept)),
            None => None,
        }
    }
}

/// The first one that is kept at this pc.
fn kept_at(kept: &[KeptSite], pc: u32) -> Option<&KeptSite>
    ensures { option_copied result ≡ find (λ site. site.pc == pc) kept.now }
{
    kept.iter().find(|site| u32::from(site.pc) == pc)
}
