//! The events that make the loaders and classes.

ghost use Rattle.std.specs.Prelude.{◌≡◌, drop, option_map, option_and_then, option_copied, IfOk, IfErr, OnOk};
ghost use Rattle.jl_types.specs.declared.event.EventOf.TheVariants as event;
ghost use Rattle.jl_renewal.specs.Numbers as numbering;
ghost use Rattle.jl_renewal.specs.Renewal as renewal;
ghost use Rattle.jl_renewal.specs.Renewal.{new_loaders};
ghost use Rattle.jl_renewal.specs.Adds.{Adds, IsStoppedAt};
ghost use Rattle.jl_renewal.specs.Told.{accepted_event, told_events};

use crate::apply::add_if_any;
use crate::numbers::Renumbering;
use jl_core::{Accepted, Entry, EventMachine, Journal};
use jl_hierarchy::Classes;
use jl_names::Name;
use jl_relink::World;
use jl_types::{Class, Event, LoaderId, Refusal};
use std::alloc::{AllocError, Global};

/// Makes the loaders that stay, but for loader 0, which is there. A refusal is the error.
pub(crate) fn add_loaders<M: EventMachine>(
    alloc: Global,
    fresh: &mut M,
    numbers: &[Option<u32>],
) -> Result<(), Refusal>
    ensures adds { OnOk result (Adds (new_loaders numbers.now) (M.state fresh.old) (M.state fresh.new)) }
    ensures stops { IfErr result (IsStoppedAt (new_loaders numbers.now) (M.state fresh.old) (M.state fresh.new)) }
{
    let others = others(numbers);
    for number in others {
        add_if_any(alloc, fresh, loader_event(*number))?;
    }
    Ok(())
}

/// All but the first.
fn others(numbers: &[Option<u32>]) -> &[Option<u32>]
    ensures { result.now ≡ drop 1 numbers.now }
{
    match numbers.split_first() {
        Some((_, others)) => others,
        None => numbers,
    }
}

/// A new loader for what has a new number.
fn loader_event(number: Option<u32>) -> Option<Event>
    ensures { result ≡ option_map (λ n. event.NewLoader) number }
{
    match number {
        Some(_) => Some(Event::NewLoader),
        None => None,
    }
}

/// Defines the classes that stay, and lets their loaders delegate as the old ones did, in the log's order. A log that has forgotten what
/// is past has kept what tells this. A refusal is the error.
pub(crate) fn add_classes<M: EventMachine>(
    alloc: Global,
    fresh: &mut M,
    old: &World,
    numbers: &Renumbering,
    log: &Journal<Entry>,
) -> Result<(), Refusal>
    ensures adds { OnOk result (Adds (told_events old.now numbers.now log.now) (M.state fresh.old) (M.state fresh.new)) }
    ensures stops { IfErr result (IsStoppedAt (told_events old.now numbers.now log.now) (M.state fresh.old) (M.state fresh.new)) }
{
    add_told(alloc, fresh, old, numbers, log.kept())
}

/// Defines the classes that stay, and lets their loaders delegate as the old ones did, in the order of these entries. A refusal is the
/// error.
fn add_told<M: EventMachine>(
    alloc: Global,
    fresh: &mut M,
    old: &World,
    numbers: &Renumbering,
    entries: &[Entry],
) -> Result<(), Refusal>
    ensures adds { OnOk result (Adds (told_events old.now numbers.now entries.now) (M.state fresh.old) (M.state fresh.new)) }
    ensures stops { IfErr result (IsStoppedAt (told_events old.now numbers.now entries.now) (M.state fresh.old) (M.state fresh.new)) }
{
    for entry in entries {
        let told = entry.event();
        let event = class_event(alloc, old, numbers, told.get())?;
        add_if_any(alloc, fresh, event)?;
    }
    Ok(())
}

/// What the fresh core is to be told of the old event, if that has defined a class that stays, or let a loader that stays delegate.
fn class_event(
    alloc: Global,
    old: &World,
    numbers: &Renumbering,
    event: &Accepted,
) -> Result<Option<Event>, AllocError>
    ensures { IfOk result (λ told. told ≡ accepted_event old.now numbers.now event.now) }
{
    match event {
        Accepted::Define(loader, class) => {
            definition(alloc, numbers, *loader, old.classes.class_at(*class))
        }
        Accepted::Delegate(loader, name, _) => {
            delegation(alloc, &old.classes, numbers, *loader, name)
        }
        Accepted::NewLoader
        | Accepted::Request(_)
        | Accepted::NewCallSite(_, _, _)
        | Accepted::SetTarget(_, _)
        | Accepted::NewSwitch
        | Accepted::Invalidate(_)
        | Accepted::Bind(_, _)
        | Accepted::Install(_)
        | Accepted::Retire(_)
        | Accepted::RetireAll(_)
        | Accepted::Release(_, _) => Ok(None),
    }
}

/// The definition of the class by the loader, if that stays.
pub(crate) fn definition(
    alloc: Global,
    numbers: &Renumbering,
    loader: LoaderId,
    class: Option<&Class>,
) -> Result<Option<Event>, AllocError>
    ensures { IfOk result (λ made. made
        ≡ option_and_then (λ row. option_map (λ l. event.Define l row.file) (numbering.new_number numbers.now.loaders loader)) (option_copied class.entry)) }
{
    let Some(class) = class else {
        return Ok(None);
    };
    let Some(loader) = numbers.loader(loader) else {
        return Ok(None);
    };
    Ok(Some(Event::Define(loader, class.file().copy(alloc)?)))
}

/// That the loader finds under the name what it found, by the loader that has defined that class.
fn delegation(
    alloc: Global,
    classes: &Classes,
    numbers: &Renumbering,
    loader: LoaderId,
    name: &Name,
) -> Result<Option<Event>, AllocError>
    ensures { IfOk result (λ made. made ≡ renewal.delegation classes.now numbers.now loader name.now) }
{
    let Some(definer) = definer_of(classes, loader, name) else {
        return Ok(None);
    };
    let Some(loader) = numbers.loader(loader) else {
        return Ok(None);
    };
    let Some(to) = numbers.loader(definer) else {
        return Ok(None);
    };
    Ok(Some(Event::Delegate(loader, name.copy(alloc)?, to)))
}

/// The loader that has defined the class which the loader finds under the name.
fn definer_of(classes: &Classes, loader: LoaderId, name: &Name) -> Option<LoaderId>
    ensures { result ≡ renewal.definer classes.now loader name.now }
{
    let class = classes.lookup(loader, name.as_slice())?;
    Some(classes.class_at(class)?.loader())
}
