//! Answers that refuse an event or a preparation.

ghost use Rattle.std.specs.Prelude.{◌≡◌, codes, IfOk};
ghost use Rattle.serde_json.specs.Data.{member, no_members, object, string, put as with_member};
ghost use Rattle.serde_json.specs.View.{view, members_view};
ghost use Rattle.jl_json.specs.ForProofs.NameReading.{name_text};
ghost use Rattle.jl_json.specs.EventRefusals.{refused, refused_at, refused_bound, refused_for, refused_name, refused_switch};
ghost use Rattle.jl_json.specs.EventRefusals.{delegate_name, call_site_refusal_data, release_refusal_data};
ghost use Rattle.jl_json.specs.EventRefusals.{not_linkable_name, define_refusal_data, retire_members, retire_refusal_data, retire_all_refusal_data};
ghost use Rattle.jl_json.specs.EventRefusals.{event_refusal_data, IsRefusalData};
ghost use Rattle.jl_json.specs.EventRefusals.{prepare_refusal_data};

use crate::link_answer::link_value;
use crate::object::single_text;
use crate::text::text_of;
use jl_names::Name;
use jl_types::{
    CallSiteFault, CallSiteId, DefineFault, DelegateFault, Link, LoaderId, NotLinkable,
    PrepareFault, Refusal, ReleaseFault, RetireFault, SiteNo, SwitchId,
};
use serde_json::{Map, Value, put};
use std::alloc::{AllocError, Global};

/// A fault alone.
fn refused_value(alloc: Global, fault: &str) -> Result<Value, AllocError>
    ensures { IfOk result (λ v. view v ≡ refused fault.now) }
{
    single_text(alloc, "refused", fault)
}

/// The member of a fault alone.
fn fault_members(alloc: Global, fault: &str) -> Result<Map<String, Value>, AllocError>
    ensures { IfOk result (λ members. members_view members.entries
        ≡ member (codes "refused") (string fault.now) no_members) }
{
    let mut members = Map::new(alloc);
    let fault = Value::try_from_str(alloc, fault)?;
    put(&mut members, alloc, "refused", fault)?;
    Ok(members)
}

/// The members of a fault, and of what it is about.
fn refused_members(
    alloc: Global,
    fault: &str,
    key: &str,
    about: Value,
) -> Result<Map<String, Value>, AllocError>
    ensures { IfOk result (λ members. members_view members.entries
        ≡ with_member key.now (view about) (member (codes "refused") (string fault.now) no_members)) }
{
    let mut members = fault_members(alloc, fault)?;
    put(&mut members, alloc, key, about)?;
    Ok(members)
}

/// A fault with a member that says what it is about.
fn refused_about_value(
    alloc: Global,
    fault: &str,
    key: &str,
    about: Value,
) -> Result<Value, AllocError>
    ensures { IfOk result (λ v. view v ≡ object (with_member key.now (view about)
        (member (codes "refused") (string fault.now) no_members))) }
{
    Ok(Value::Object(refused_members(alloc, fault, key, about)?))
}

/// A fault at a site.
fn refused_at_value(alloc: Global, fault: &str, site: SiteNo) -> Result<Value, AllocError>
    ensures { IfOk result (λ v. view v ≡ refused_at fault.now site) }
{
    refused_about_value(alloc, fault, "site", Value::from(site.number()))
}

/// A fault at a site that has this link now.
fn refused_for_value(
    alloc: Global,
    fault: &str,
    site: SiteNo,
    present: Link,
) -> Result<Value, AllocError>
    ensures { IfOk result (λ v. view v ≡ refused_for fault.now site present) }
{
    let present = link_value(alloc, present)?;
    let mut members = refused_members(alloc, fault, "site", Value::from(site.number()))?;
    put(&mut members, alloc, "present", present)?;
    Ok(Value::Object(members))
}

/// A fault at a call site.
fn refused_bound_value(alloc: Global, fault: &str, bound: CallSiteId) -> Result<Value, AllocError>
    ensures { IfOk result (λ v. view v ≡ refused_bound fault.now bound) }
{
    refused_about_value(alloc, fault, "callsite", Value::from(bound.number()))
}

/// A fault at a switch point.
fn refused_switch_value(alloc: Global, fault: &str, point: SwitchId) -> Result<Value, AllocError>
    ensures { IfOk result (λ v. view v ≡ refused_switch fault.now point) }
{
    refused_about_value(alloc, fault, "switch", Value::from(point.number()))
}

/// A fault about a name.
fn refused_name_value(alloc: Global, fault: &str, name: &Name) -> Result<Value, AllocError>
    ensures { IfOk result (λ v. view v ≡ refused_name name_text fault.now name.now) }
{
    let name = text_of(alloc, name.as_slice())?;
    refused_about_value(alloc, fault, "name", Value::String(name))
}

/// The name of the fault.
fn delegate_fault(fault: DelegateFault) -> &'static str
    ensures { result.now ≡ delegate_name fault }
{
    match fault {
        DelegateFault::UnknownLoader => "Delegate.UnknownLoader",
        DelegateFault::NotRecorded => "Delegate.NotRecorded",
        DelegateFault::AlreadyRecorded => "Delegate.AlreadyRecorded",
    }
}

/// The answer that a call site or a switch point isn't made or changed.
#[tactic(auto, unfolding(crate::specs::EventRefusals::call_site_refusal_data))]
fn call_site_refusal_value(alloc: Global, fault: CallSiteFault) -> Result<Value, AllocError>
    ensures { IfOk result (λ v. view v ≡ call_site_refusal_data fault) }
{
    match fault {
        CallSiteFault::UnknownCallSite => refused_value(alloc, "CallSite.UnknownCallSite"),
        CallSiteFault::Constant => refused_value(alloc, "CallSite.Constant"),
        CallSiteFault::WrongType => refused_value(alloc, "CallSite.WrongType"),
        CallSiteFault::UnknownMethod => refused_value(alloc, "CallSite.UnknownMethod"),
        CallSiteFault::NotStatic => refused_value(alloc, "CallSite.NotStatic"),
        CallSiteFault::UnknownSwitch => refused_value(alloc, "CallSite.UnknownSwitch"),
        CallSiteFault::TooDeep => refused_value(alloc, "CallSite.TooDeep"),
        CallSiteFault::Full => refused_value(alloc, "CallSite.Full"),
        CallSiteFault::InvokerOrder(invoked) => {
            refused_bound_value(alloc, "CallSite.InvokerOrder", invoked)
        }
    }
}

/// The name of the fault.
fn not_linkable(reason: NotLinkable) -> &'static str
    ensures { result.now ≡ not_linkable_name reason }
{
    match reason {
        NotLinkable::ArrayReceiver => "NotLinkable.ArrayReceiver",
        NotLinkable::PolymorphicSignature => "NotLinkable.PolymorphicSignature",
    }
}

/// The answer that a class isn't defined.
#[tactic(auto, unfolding(crate::specs::EventRefusals::define_refusal_data))]
fn define_refusal_value(alloc: Global, fault: &DefineFault) -> Result<Value, AllocError>
    ensures { IfOk result (λ v. view v ≡ define_refusal_data name_text fault.now) }
{
    match fault {
        DefineFault::UnknownLoader => refused_value(alloc, "Define.UnknownLoader"),
        DefineFault::AlreadyRecorded => refused_value(alloc, "Define.AlreadyRecorded"),
        DefineFault::NamesItself => refused_value(alloc, "Define.NamesItself"),
        DefineFault::MissingParent(name) => {
            refused_name_value(alloc, "Define.MissingParent", name)
        }
        DefineFault::SuperIsInterface => refused_value(alloc, "Define.SuperIsInterface"),
        DefineFault::FinalSuper => refused_value(alloc, "Define.FinalSuper"),
        DefineFault::NotAnInterface(name) => {
            refused_name_value(alloc, "Define.NotAnInterface", name)
        }
        DefineFault::InaccessibleParent(name) => {
            refused_name_value(alloc, "Define.InaccessibleParent", name)
        }
        DefineFault::SecondObject => refused_value(alloc, "Define.SecondObject"),
        DefineFault::Full => refused_value(alloc, "Define.Full"),
    }
}

/// The members of the answer that a loader isn't retired.
#[tactic(auto, unfolding(crate::specs::EventRefusals::retire_members))]
fn retire_members(alloc: Global, fault: RetireFault) -> Result<Map<String, Value>, AllocError>
    ensures { IfOk result (λ members. members_view members.entries ≡ retire_members fault) }
{
    match fault {
        RetireFault::UnknownLoader => fault_members(alloc, "Retire.UnknownLoader"),
        RetireFault::FirstLoader => fault_members(alloc, "Retire.FirstLoader"),
        RetireFault::Inherited(class) => {
            let number = Value::from(class.number());
            refused_members(alloc, "Retire.Inherited", "class", number)
        }
        RetireFault::Recorded(loader) => {
            let number = Value::from(loader.number());
            refused_members(alloc, "Retire.Recorded", "loader", number)
        }
        RetireFault::Targeted(site) => {
            let number = Value::from(site.number());
            refused_members(alloc, "Retire.Targeted", "callsite", number)
        }
    }
}

/// The answer that a loader isn't retired.
fn retire_refusal_value(alloc: Global, fault: RetireFault) -> Result<Value, AllocError>
    ensures { IfOk result (λ v. view v ≡ retire_refusal_data fault) }
{
    Ok(Value::Object(retire_members(alloc, fault)?))
}

/// The answer that of several loaders none is retired, since this one can't be.
fn retire_all_refusal_value(
    alloc: Global,
    loader: LoaderId,
    fault: RetireFault,
) -> Result<Value, AllocError>
    ensures { IfOk result (λ v. view v ≡ retire_all_refusal_data loader fault) }
{
    let mut members = retire_members(alloc, fault)?;
    put(&mut members, alloc, "retire", Value::from(loader.number()))?;
    Ok(Value::Object(members))
}

/// The answer that call sites and switch points aren't let go.
#[tactic(auto, unfolding(crate::specs::EventRefusals::release_refusal_data))]
fn release_refusal_value(alloc: Global, fault: ReleaseFault) -> Result<Value, AllocError>
    ensures { IfOk result (λ v. view v ≡ release_refusal_data fault) }
{
    match fault {
        ReleaseFault::UnknownCallSite(site) => {
            refused_bound_value(alloc, "Release.UnknownCallSite", site)
        }
        ReleaseFault::UnknownSwitch(point) => {
            refused_switch_value(alloc, "Release.UnknownSwitch", point)
        }
        ReleaseFault::Invoked(site) => refused_bound_value(alloc, "Release.Invoked", site),
        ReleaseFault::Guarded(site) => refused_bound_value(alloc, "Release.Guarded", site),
    }
}

/// The answer that an event is refused. It has:
///
/// - the name of the fault, after the name of the fault that it is within;
/// - the name, class, loader, call site, switch point, site or link that it is about;
/// - if several loaders were to be retired at once, the one that can't be, too.
///
/// # Errors
///
/// Want of memory for the answer.
pub fn event_refusal_value(alloc: Global, refusal: &Refusal) -> Result<Value, AllocError>
    ensures { IfOk result (λ v. IsRefusalData refusal.now (view v)) }
{
    refusal_value(alloc, refusal)
}

/// The answer that an event is refused.
#[tactic(auto, unfolding(crate::specs::EventRefusals::event_refusal_data))]
fn refusal_value(alloc: Global, refusal: &Refusal) -> Result<Value, AllocError>
    ensures { IfOk result (λ v. view v ≡ event_refusal_data name_text refusal.now) }
{
    match refusal {
        Refusal::Define(fault) => define_refusal_value(alloc, fault),
        Refusal::UnknownClass => refused_value(alloc, "UnknownClass"),
        Refusal::NoSuchPlace => refused_value(alloc, "NoSuchPlace"),
        Refusal::NotLinkable(reason) => refused_value(alloc, not_linkable(*reason)),
        Refusal::SitesFull => refused_value(alloc, "SitesFull"),
        Refusal::CallSite(fault) => call_site_refusal_value(alloc, *fault),
        Refusal::NotDynamic => refused_value(alloc, "NotDynamic"),
        Refusal::AlreadyBound(bound) => refused_bound_value(alloc, "AlreadyBound", *bound),
        Refusal::TypeMismatch => refused_value(alloc, "TypeMismatch"),
        Refusal::Stale { site, present } => refused_for_value(alloc, "Stale", *site, *present),
        Refusal::NotReady { site } => refused_at_value(alloc, "NotReady", *site),
        Refusal::UnknownSite { site } => refused_at_value(alloc, "UnknownSite", *site),
        Refusal::Repeated { site } => refused_at_value(alloc, "Repeated", *site),
        Refusal::BatchSize => refused_value(alloc, "BatchSize"),
        Refusal::Memory => refused_value(alloc, "Memory"),
        Refusal::Delegate(fault) => refused_value(alloc, delegate_fault(*fault)),
        Refusal::LoadersFull => refused_value(alloc, "LoadersFull"),
        Refusal::Retire(fault) => retire_refusal_value(alloc, *fault),
        Refusal::RetireAll { loader, fault } => retire_all_refusal_value(alloc, *loader, *fault),
        Refusal::Release(fault) => release_refusal_value(alloc, *fault),
    }
}

/// The answer that links aren't prepared: the name of the fault, after `Prepare`, and the site that
/// the fault is about.
///
/// # Errors
///
/// Want of memory for the answer.
#[tactic(auto, unfolding(crate::specs::EventRefusals::prepare_refusal_data))]
pub fn prepare_refusal_value(alloc: Global, fault: PrepareFault) -> Result<Value, AllocError>
    ensures { IfOk result (λ v. view v ≡ prepare_refusal_data fault) }
{
    match fault {
        PrepareFault::UnknownSite(site) => refused_at_value(alloc, "Prepare.UnknownSite", site),
        PrepareFault::NotReady(site) => refused_at_value(alloc, "Prepare.NotReady", site),
        PrepareFault::Repeated(site) => refused_at_value(alloc, "Prepare.Repeated", site),
        PrepareFault::BatchSize => refused_value(alloc, "Prepare.BatchSize"),
        PrepareFault::Memory => refused_value(alloc, "Memory"),
    }
}
