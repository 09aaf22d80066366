//! Commands that ask for an event, whatever they are obeyed on.

ghost use Rattle.std.specs.Prelude.{IfOk, OnErr, ℕ};
ghost use Rattle.serde_json.specs.Data.{Data};
ghost use Rattle.serde_json.specs.View.{view};
ghost use Rattle.jl_types.specs.Events.Event.{Event};
ghost use Rattle.jl_json.specs.declared.command.ClassSource.TheVariants as source;
ghost use Rattle.jl_session.specs.Obeying.{IsObeyed, IsDefined, IsFileDefined, LacksAnswer};

use crate::scan::fault_value;
use crate::sketch::sketch_fault_value;
use jl_classfile::read_class;
use jl_json::{AskedEvent, ClassSource};
use jl_sketch::{Sketch, write_class};
use jl_types::{Event, LoaderId};
use serde_json::Value;
use std::alloc::{AllocError, Global};

/// A way to obey commands on a core or a server, of which `S` is what a command may change.
pub trait Obey<S> {
    // What was there before an event, the event, its answer, and what is there afterwards.
    ghost applies: { S → Event → Data → S → Type 0 };

    // What was there before the install of a batch, the batch's number, the answer, and what is there afterwards.
    ghost installs: { S → ℕ → Data → S → Type 0 };

    /// The answer to an event: its reply, or the refusal.
    ///
    /// # Errors
    ///
    /// Want of memory for the answer. The event was applied, or nothing has changed.
    fn apply(&self, alloc: Global, on: &mut S, event: Event) -> Result<Value, AllocError>
        ensures ok { IfOk result (λ v. applies on.old event (view v) on.new) }
        ensures lacks { OnErr result (LacksAnswer on.old (λ answer. applies on.old event answer on.new) on.new) };

    /// The answer to the install of a batch.
    ///
    /// # Errors
    ///
    /// Want of memory. The batch was installed, or nothing has changed.
    fn install(&self, alloc: Global, on: &mut S, batch: u32) -> Result<Value, AllocError>
        ensures ok { IfOk result (λ v. installs on.old batch (view v) on.new) }
        ensures lacks { OnErr result (LacksAnswer on.old (λ answer. installs on.old batch answer on.new) on.new) };
}

/// The answer to a command that asks for an event.
///
/// # Errors
///
/// Want of memory. The command was obeyed, or nothing has changed.
pub fn obey_event<S, O: Obey<S>>(
    by: &O,
    alloc: Global,
    on: &mut S,
    asked: AskedEvent,
) -> Result<Value, AllocError>
    ensures ok { IfOk result (λ v. IsObeyed O.applies O.installs on.old asked (view v) on.new) }
    ensures lacks { OnErr result (LacksAnswer on.old (λ answer. IsObeyed O.applies O.installs on.old asked answer on.new) on.new) }
{
    match asked {
        AskedEvent::NewLoader => by.apply(alloc, on, Event::NewLoader),
        AskedEvent::Define(loader, source) => define(by, alloc, on, loader, source),
        AskedEvent::Delegate(loader, name, to) => {
            by.apply(alloc, on, Event::Delegate(loader, name, to))
        }
        AskedEvent::Request(place) => by.apply(alloc, on, Event::Request(place)),
        AskedEvent::NewCallSite(kind, ty, target) => {
            by.apply(alloc, on, Event::NewCallSite(kind, ty, target))
        }
        AskedEvent::SetTarget(call_site, target) => {
            by.apply(alloc, on, Event::SetTarget(call_site, target))
        }
        AskedEvent::NewSwitch => by.apply(alloc, on, Event::NewSwitch),
        AskedEvent::Invalidate(switches) => by.apply(alloc, on, Event::Invalidate(switches)),
        AskedEvent::Bind(site, call_site) => by.apply(alloc, on, Event::Bind(site, call_site)),
        AskedEvent::Install(batch) => by.install(alloc, on, batch),
        AskedEvent::Retire(loader) => by.apply(alloc, on, Event::Retire(loader)),
        AskedEvent::RetireAll(loaders) => by.apply(alloc, on, Event::RetireAll(loaders)),
        AskedEvent::Release(call_sites, switches) => {
            by.apply(alloc, on, Event::Release(call_sites, switches))
        }
    }
}

/// The answer to the definition of a class.
fn define<S, O: Obey<S>>(
    by: &O,
    alloc: Global,
    on: &mut S,
    loader: LoaderId,
    source: ClassSource,
) -> Result<Value, AllocError>
    ensures ok { IfOk result (λ v. IsDefined O.applies on.old loader source (view v) on.new) }
    ensures lacks { OnErr result (LacksAnswer on.old (λ answer. IsDefined O.applies on.old loader source answer on.new) on.new) }
{
    match source {
        ClassSource::File(bytes) => define_file(by, alloc, on, loader, bytes.as_slice()),
        ClassSource::Sketch(sketch) => define_sketch(by, alloc, on, loader, &sketch),
    }
}

/// The answer to the definition of a class by a sketch of its file.
fn define_sketch<S, O: Obey<S>>(
    by: &O,
    alloc: Global,
    on: &mut S,
    loader: LoaderId,
    sketch: &Sketch,
) -> Result<Value, AllocError>
    ensures ok { IfOk result (λ v. IsDefined O.applies on.old loader (source.Sketch sketch.now) (view v) on.new) }
    ensures lacks { OnErr result (LacksAnswer on.old
        (λ answer. IsDefined O.applies on.old loader (source.Sketch sketch.now) answer on.new) on.new) }
{
    match write_class(alloc, sketch) {
        Ok(bytes) => define_file(by, alloc, on, loader, &bytes),
        Err(fault) => sketch_fault_value(alloc, fault),
    }
}

/// The answer to the definition of a class by the bytes of its file.
fn define_file<S, O: Obey<S>>(
    by: &O,
    alloc: Global,
    on: &mut S,
    loader: LoaderId,
    bytes: &[u8],
) -> Result<Value, AllocError>
    ensures ok { IfOk result (λ v. IsFileDefined O.applies on.old loader bytes.now (view v) on.new) }
    ensures lacks { OnErr result (LacksAnswer on.old (λ answer. IsFileDefined O.applies on.old loader bytes.now answer on.new) on.new) }
{
    match read_class(alloc, bytes) {
        Ok(file) => by.apply(alloc, on, Event::Define(loader, file)),
        Err(fault) => fault_value(alloc, fault),
    }
}
