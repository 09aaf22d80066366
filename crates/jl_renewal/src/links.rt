//! The links of the fresh core.

ghost use Rattle.std.specs.Prelude.{◌≡◌, ◌≤◌, ◌++◌, true, map, length, option_and_then, option_to_list, IfOk, IfErr, OnOk, OnErr};
ghost use Rattle.std.specs.List.{list_all};
ghost use Rattle.jl_types.specs.declared.refusal.Refusal.TheVariants.{Memory};
ghost use Rattle.jl_types.specs.Linkage.Links.{scratch};
ghost use Rattle.jl_core.specs.State.{world_of};
ghost use Rattle.jl_renewal.specs.Renewal as renewal;
ghost use Rattle.jl_renewal.specs.Renewal.{fresh_rows};
ghost use Rattle.jl_renewal.specs.Renewed as renewed;
ghost use Rattle.jl_renewal.specs.Renewed.{has_few_rows};
ghost use Rattle.jl_renewal.specs.Adds.{AreFresh, Installs, StopsAt};

use crate::numbers::Renumbering;
use crate::targets::{renumbered_class, renumbered_method};
use jl_core::EventMachine;
use jl_names::Seq;
use jl_relink::{MOST_IN_BATCH, World, link_of};
use jl_types::{ClassId, Event, Link, Outcome, Refusal, SiteNo, Table};
use std::alloc::{AllocError, Global};

/// Installs these links, 256 at a time.
///
/// # Errors
///
/// The first refusal. It is want of memory if each is the link that its site has from scratch, and their sites rise, as those of
/// [`fresh_links`] do in the world that they were looked up in. The links before it are installed then.
pub fn install_all<M: EventMachine>(
    alloc: Global,
    fresh: &mut M,
    rows: &[(SiteNo, Link)],
) -> Result<(), Refusal>
    ensures installs { OnOk result (Installs rows.now (M.state fresh.old) (M.state fresh.new)) }
    ensures stops { IfErr result (StopsAt rows.now (M.state fresh.old) (M.state fresh.new)) }
    ensures memory { AreFresh (world_of (M.state fresh.old)) rows.now → IfErr result (λ r. r ≡ Memory) }
{
    let mut left = rows;
    while !left.is_empty() {
        let (batch, rest) = left.split_at(MOST_IN_BATCH.min(left.len()));
        fresh.accept(alloc, Event::Install(Seq::of(batch.to_vec(alloc)?)))?;
        left = rest;
    }
    Ok(())
}

/// Does what [`install_all`] does, with links that are known to be those that their sites have from scratch, and whose sites rise. None is
/// looked up.
///
/// Want of memory is the only error. The links before those for which there was no memory are installed then.
pub fn install_fresh<M: EventMachine>(
    alloc: Global,
    fresh: &mut M,
    rows: &[(SiteNo, Link)],
) -> Result<(), AllocError>
    requires { AreFresh (world_of (M.state fresh.old)) rows.now }
    ensures installs { OnOk result (Installs rows.now (M.state fresh.old) (M.state fresh.new)) }
    ensures stops { OnErr result (StopsAt rows.now (M.state fresh.old) (M.state fresh.new) Memory) }
{
    let mut rest = rows;
    while !rest.is_empty() {
        let (batch, later) = rest.split_at(MOST_IN_BATCH.min(rest.len()));
        fresh.accept_judged(alloc, Event::Install(Seq::of(batch.to_vec(alloc)?)))?;
        rest = later;
    }
    Ok(())
}

/// The sites that had a link and stay, under their new numbers, each with its link from scratch in the fresh world.
pub fn fresh_links(
    alloc: Global,
    fresh: &World,
    linked: &[(SiteNo, Link)],
    numbers: &Renumbering,
) -> Result<Vec<(SiteNo, Link)>, AllocError>
    ensures { IfOk result (λ rows. rows.items ≡ fresh_rows fresh.now numbers.now linked.now) }
{
    let mut rows = Vec::with_capacity(alloc, linked.len())?;
    for one in linked {
        push_if_any(&mut rows, row_of(fresh, numbers.site(one.0)))?;
    }
    Ok(rows)
}

/// The sites that had a link and stay, each with that link, both under new numbers. No table has more than eight rows, as none of a core
/// has. Nothing is looked up: right after a refill these are the rows that [`fresh_links`] tells, as the law
/// [`links_come_by_number`](crate::links_come_by_number) says.
pub fn renumbered_links(
    alloc: Global,
    linked: &[(SiteNo, Link)],
    numbers: &Renumbering,
) -> Result<Vec<(SiteNo, Link)>, AllocError>
    requires { list_all (λ row. has_few_rows row.1) linked.now ≡ true }
    ensures { IfOk result (λ rows. rows.items ≡ renewed.renumbered_links numbers.now linked.now) }
{
    let mut rows = Vec::with_capacity(alloc, linked.len())?;
    for one in linked {
        push_if_any(&mut rows, renumbered_at(numbers, one.0, &one.1))?;
    }
    Ok(rows)
}

/// The site with its link, both under new numbers, if the site stays.
fn renumbered_at(numbers: &Renumbering, site: SiteNo, link: &Link) -> Option<(SiteNo, Link)>
    requires { has_few_rows link.now ≡ true }
    ensures { result ≡ renewed.renumbered_at numbers.now (site, link.now) }
{
    let site = numbers.site(site)?;
    Some((site, renumbered_link(numbers, link)))
}

/// The link under new numbers, 0 for what goes.
fn renumbered_link(numbers: &Renumbering, link: &Link) -> Link
    requires { has_few_rows link.now ≡ true }
    ensures { result ≡ renewed.renumbered_link numbers.now link.now }
{
    match link {
        Link::Fault(throwable) => Link::Fault(*throwable),
        Link::Plain(method) => Link::Plain(renumbered_method(numbers, method)),
        Link::Direct(outcome) => Link::Direct(renumbered_outcome(numbers, outcome)),
        Link::Table(kind, table) => Link::Table(*kind, renumbered_rows(numbers, table.as_slice())),
        Link::Mega => Link::Mega,
    }
}

/// The table of these rows under new numbers.
fn renumbered_rows(numbers: &Renumbering, rows: &[(ClassId, Outcome)]) -> Table
    requires { length rows.now ≤ 8 }
    ensures { result ≡ map (renewed.renumbered_row numbers.now) rows.now }
{
    let mut table = Table::new();
    for row in rows {
        table.push(
            renumbered_class(numbers, row.0),
            renumbered_outcome(numbers, &row.1),
        );
    }
    table
}

/// The outcome under new numbers.
fn renumbered_outcome(numbers: &Renumbering, outcome: &Outcome) -> Outcome
    ensures { result ≡ renewed.renumbered_outcome numbers.now outcome.now }
{
    match outcome {
        Outcome::Run(method) => Outcome::Run(renumbered_method(numbers, method)),
        Outcome::Throws(throwable) => Outcome::Throws(*throwable),
    }
}

/// Adds the row, if there is one.
pub(crate) fn push_if_any<T: Drop>(rows: &mut Vec<T>, row: Option<T>) -> Result<(), AllocError>
    ensures { OnOk result (rows.new.items ≡ rows.old.items ++ option_to_list row) }
{
    match row {
        Some(row) => {
            rows.push(row)?;
            Ok(())
        }
        None => Ok(()),
    }
}

/// The site with its link from scratch, if it has one.
fn row_of(fresh: &World, site: Option<SiteNo>) -> Option<(SiteNo, Link)>
    ensures { result ≡ option_and_then (λ s. renewal.row_of s (scratch fresh.now s)) site }
{
    let site = site?;
    match link_of(fresh, site) {
        Ok(link) => Some((site, link)),
        Err(_) => None,
    }
}
