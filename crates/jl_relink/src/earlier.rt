//! Links of a batch that earlier rows have.

ghost use Rattle.std.specs.Prelude.{◌≡◌, ◌+◌, ◌^◌, ◌<◌, ◌≤◌, ℕ, All, Ok, IfSome, true};
ghost use Rattle.jl_types.specs.Linkage.Stages as stages;
ghost use Rattle.jl_types.specs.Linkage.Links as links;
ghost use Rattle.jl_types.specs.Events.Footprints.{most_for};
ghost use Rattle.jl_relink.specs.ForProofs.Earlier.{AreEqual, AreEqualOperands};

use crate::located::{Located, locate};
use crate::scratch::invocation_link;
use crate::world::World;
use jl_class::{Kind, Operand};
use jl_names::LentName;
use jl_pool::Reference;
use jl_types::{Link, SiteNo, Unlinked, Work};

/// How many rows are remembered at the most.
pub(crate) const MOST_REMEMBERED: usize = 256;

/// The number of no row.
pub(crate) const NO_ROW: u16 = u16::MAX;

/// The link of a site from scratch. If an earlier row is remembered whose invocation is equal, it is the link of that row, without a
/// tick. Else it is made, with as many ticks as ever. The number that the row of the site gets is remembered, unless its invocation
/// names a call site.
pub(crate) fn link_beside(
    world: &World,
    site: SiteNo,
    rows: &[(SiteNo, Link)],
    remembered: &mut [u16],
    work: &mut Work,
) -> Result<Link, Unlinked>
    requires made { All (λ row. links.scratch world.now row.0 ≡ Ok row.1) rows.now }
    requires fits { work.old + most_for world.now site < 2 ^ 64 }
    ensures link { result ≡ links.scratch world.now site }
    ensures ticks { work.new ≤ work.old + most_for world.now site }
{
    match locate(world, site) {
        Ok(found) => {
            let row = exchanged(remembered, place_of(&found), rows.len());
            if let Some(link) = equal_link(world, &found, rows, row) {
                return Ok(link);
            }
            invocation_link(world, site, &found, work)
        }
        Err(reason) => Err(reason),
    }
}

/// Remembers the number of a row at the place, and gives the one that stood there. If there is no such place, it gives the number of
/// the row itself.
fn exchanged(remembered: &mut [u16], place: usize, row: usize) -> usize {
    if place >= remembered.len() {
        return row;
    }
    let before = remembered[place];
    remembered[place] = u16::try_from(row).unwrap_or(NO_ROW);
    before as usize
}

/// The place at which the row of an invocation is remembered. Equal invocations have the same place, and others often another one. If
/// the invocation names a call site, it is past all places.
fn place_of(found: &Located<'_>) -> usize {
    match found.invocation.operand() {
        Operand::Method(reference) => {
            let class = found.caller.number() as usize;
            let owner = mixed(class, reference.owner.as_slice());
            let name = mixed(owner, reference.name.as_slice());
            mixed(name, reference.ty.as_slice()) % MOST_REMEMBERED
        }
        Operand::CallSite(_) => MOST_REMEMBERED,
    }
}

/// The number with the length of a name and with its last byte.
fn mixed(number: usize, name: &[u8]) -> usize {
    let last = match name.last() {
        Some(last) => *last as usize,
        None => 0,
    };
    number
        .wrapping_mul(31)
        .wrapping_add(name.len())
        .wrapping_mul(31)
        .wrapping_add(last)
}

/// The link of the row of this number, if its invocation equals this one and names a method.
fn equal_link(
    world: &World,
    found: &Located<'_>,
    rows: &[(SiteNo, Link)],
    number: usize,
) -> Option<Link>
    requires { All (λ row. links.scratch world.now row.0 ≡ Ok row.1) rows.now }
    ensures { IfSome result (λ link. (s : ℕ) → links.link_of world.now.classes
        (stages.by_operand world.now s found.now.caller found.now.invocation.kind found.now.invocation.operand) ≡ Ok link) }
{
    if number >= rows.len() {
        return None;
    }
    let row = &rows[number];
    let Ok(earlier) = locate(world, row.0) else {
        return None;
    };
    if !are_equal(&earlier, found) {
        return None;
    }
    Some(row.1)
}

/// Whether both invocations stand in one class, are of one kind, and name the same method, and no call site.
fn are_equal(first: &Located<'_>, second: &Located<'_>) -> bool
    ensures { result ≡ true → AreEqual first.now second.now }
{
    first.caller == second.caller
        && are_of_one_kind(first.invocation.kind(), second.invocation.kind())
        && name_one_method(first.invocation.operand(), second.invocation.operand())
}

/// Whether both are the same instruction.
fn are_of_one_kind(first: Kind, second: Kind) -> bool
    ensures { result ≡ true → first ≡ second }
{
    match (first, second) {
        (Kind::Virtual, Kind::Virtual)
        | (Kind::Special, Kind::Special)
        | (Kind::Static, Kind::Static)
        | (Kind::Interface, Kind::Interface) => true,
        _ => false,
    }
}

/// Whether both name the same method.
fn name_one_method(first: &Operand<LentName<'_>>, second: &Operand<LentName<'_>>) -> bool
    ensures { result ≡ true → AreEqualOperands first.now second.now }
{
    match (first, second) {
        (Operand::Method(first), Operand::Method(second)) => are_equal_references(first, second),
        _ => false,
    }
}

/// Whether the references are equal, name by name.
fn are_equal_references(first: &Reference<LentName<'_>>, second: &Reference<LentName<'_>>) -> bool
    ensures { result ≡ true → first.now ≡ second.now }
{
    first.itf == second.itf
        && first.name.as_slice() == second.name.as_slice()
        && first.owner.as_slice() == second.owner.as_slice()
        && first.ty.as_slice() == second.ty.as_slice()
}
