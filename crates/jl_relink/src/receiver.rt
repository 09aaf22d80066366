//! Whether a link stays once there is one receiver more.

ghost use Rattle.std.specs.Prelude.{◌≡◌, ◌+◌, ◌^◌, ◌<◌, ◌≤◌, true, length, if◌then◌else◌};
ghost use Rattle.jl_types.specs.Linkage.Resolution as resolution;
ghost use Rattle.jl_types.specs.Linkage.Stages as stages;
ghost use Rattle.jl_types.specs.Linkage.Links as links;
ghost use Rattle.jl_types.specs.Linkage.Stages.{stage};
ghost use Rattle.jl_relink.specs.Receivers.{TellsStay, TellsRun, IsSelection};
ghost use Rattle.jl_relink.specs.ForProofs.Rows.{outcome_of};

use crate::known::each_runs;
use crate::located::locate;
use crate::selection::{Selection, outcome_counted};
use crate::stage::{Stage, stage_of_reference};
use crate::world::World;
use jl_class::{Kind, Operand};
use jl_hierarchy::Classes;
use jl_names::LentName;
use jl_pool::Reference;
use jl_types::{ClassId, Link, MethodId, Outcome, SiteNo, Work};

/// Whether the link of a site that selects by its receiver stays, once this receiver has come, with one tick at most. It looks at no
/// other receiver. Takes no memory.
pub fn stays_with_receiver(
    world: &World,
    site: SiteNo,
    link: &Link,
    receiver: ClassId,
    work: &mut Work,
) -> bool
    requires there { receiver < length world.now.classes.rows }
    requires fits { work.old + 1 < 2 ^ 64 }
    ensures stays { TellsStay world.now site link.now receiver result }
    ensures ticks { work.new ≤ work.old + 1 }
{
    match link {
        Link::Direct(Outcome::Run(method)) => runs_at(world, site, receiver, method, work),
        Link::Direct(Outcome::Throws(_)) => false,
        Link::Mega => true,
        Link::Fault(_) => false,
        Link::Plain(_) => false,
        Link::Table(_, _) => false,
    }
}

/// Whether a call at the site runs this method on an object of this class, with one tick at most.
fn runs_at(
    world: &World,
    site: SiteNo,
    receiver: ClassId,
    method: &MethodId,
    work: &mut Work,
) -> bool
    requires there { receiver < length world.now.classes.rows }
    requires fits { work.old + 1 < 2 ^ 64 }
    ensures runs { TellsRun world.now site method.now receiver result }
    ensures ticks { work.new ≤ work.old + 1 }
{
    match selection_at(world, site) {
        Some(selection) => receiver_runs(&world.classes, &selection, receiver, method, work),
        None => false,
    }
}

/// Whether the invocation runs this method on an object of this class, with one tick at most. It takes one also if it is known that
/// every receiver runs the resolved method, and that is this one.
fn receiver_runs(
    classes: &Classes,
    selection: &Selection,
    receiver: ClassId,
    method: &MethodId,
    work: &mut Work,
) -> bool
    requires named { selection.now.named < length classes.now.rows }
    requires there { receiver < length classes.now.rows }
    requires fits { work.old + 1 < 2 ^ 64 }
    ensures runs { result ≡ links.runs method.now (outcome_of classes.now selection.now receiver) }
    ensures ticks { work.new ≤ work.old + 1 }
{
    if is_known_to_run(classes, selection, receiver, method, work) {
        return true;
    }
    runs(outcome_counted(classes, selection, receiver, work), method)
}

/// Whether it is known, without a search, that the invocation runs this method on an object of this class: it is the resolved method,
/// and no subclass of the named class redeclares it. One tick if it is known, as for the selection that it stands for.
fn is_known_to_run(
    classes: &Classes,
    selection: &Selection,
    receiver: ClassId,
    method: &MethodId,
    work: &mut Work,
) -> bool
    requires named { selection.now.named < length classes.now.rows }
    requires fits { work.old + 1 < 2 ^ 64 }
    ensures runs { result ≡ true → links.runs method.now (outcome_of classes.now selection.now receiver) ≡ true }
    ensures ticks { work.new ≡ work.old + (if result then 1 else 0) }
{
    if !runs(Outcome::Run(selection.method), method) {
        return false;
    }
    if !classes.is_ancestor(selection.named, receiver) {
        return false;
    }
    if each_runs(classes, selection) {
        work.tick();
        return true;
    }
    false
}

/// Whether the outcome is that this method runs.
fn runs(outcome: Outcome, method: &MethodId) -> bool
    ensures { result ≡ links.runs method.now outcome }
{
    match outcome {
        Outcome::Run(run) => method.class == run.class && method.index == run.index,
        Outcome::Throws(_) => false,
    }
}

/// The invokevirtual or invokeinterface of the site that selects by its receiver. Takes no memory.
pub(crate) fn selection_at(world: &World, site: SiteNo) -> Option<Selection>
    ensures { IsSelection world.now.classes (stage world.now site) result }
{
    let Ok(found) = locate(world, site) else {
        return None;
    };
    match found.invocation.operand() {
        Operand::Method(reference) => selection_of_reference(
            &world.classes,
            found.invocation.kind(),
            found.caller,
            reference,
        ),
        Operand::CallSite(_) => None,
    }
}

/// The invokevirtual or invokeinterface of the reference in the caller's class that selects by its receiver.
fn selection_of_reference(
    classes: &Classes,
    kind: Kind,
    caller: ClassId,
    reference: &Reference<LentName<'_>>,
) -> Option<Selection>
    ensures { IsSelection classes.now (stages.by_resolution classes.now kind caller reference.now
        (resolution.resolved classes.now caller reference.now)) result }
{
    match stage_of_reference(classes, kind, caller, reference) {
        Stage::Selects(selection) => Some(selection),
        Stage::Waits(_) => None,
        Stage::Fails(_) => None,
        Stage::Calls(_) => None,
        Stage::Searches => None,
    }
}
