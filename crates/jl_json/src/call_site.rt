//! Events of call sites and switch points, read from JSON.

ghost use Rattle.std.specs.Prelude.{◌≡◌, ◌^◌, ℕ, List, Some, IfOk};
ghost use Rattle.serde_json.specs.Data.{Data};
ghost use Rattle.serde_json.specs.View.{view};
ghost use Rattle.jl_json.specs.Members.{number_in};
ghost use Rattle.jl_json.specs.Commands.{kind_in};
ghost use Rattle.jl_json.specs.Commands.{is_method_descriptor, method_type_at};
ghost use Rattle.jl_json.specs.Commands.{new_call_site_of, set_target_of, bind_of};
ghost use Rattle.jl_json.specs.Commands.{by_call_site_word, command_of};
ghost use Rattle.jl_json.specs.declared.command.Command.TheVariants.{Apply};
ghost use Rattle.jl_names.specs.MethodTypes.{IsMethodDescriptor};
ghost use Rattle.jl_types.specs.declared.event.EventOf.TheVariants.{NewCallSite};
ghost use Rattle.jl_types.specs.declared.target.CallSiteKind.{CallSiteKind};
ghost use Rattle.jl_types.specs.Values.Target.{Target};

use crate::command::{AskedEvent, number_at, number_in, text_at};
use crate::from_json::{FromJson, list_at};
use crate::sketch::name_at;
use crate::target::target_at;
use jl_names::{Name, method_slots};
use jl_types::{CallSiteId, CallSiteKind, SiteNo, SwitchId};
use serde_json::Value;
use std::alloc::{AllocError, Global};

/// The kind of call site of this word.
fn kind_in(word: &str) -> Option<CallSiteKind>
    ensures { result ≡ kind_in word.now }
{
    match word {
        "constant" => Some(CallSiteKind::Constant),
        "mutable" => Some(CallSiteKind::Mutable),
        "volatile" => Some(CallSiteKind::Volatile),
        _ => None,
    }
}

/// Whether the text is a method descriptor (JVMS SE 17 §4.3.3).
pub fn is_method_descriptor(text: &[u8]) -> bool
    ensures { result ≡ is_method_descriptor text.now }
{
    method_slots(text).is_some()
}

/// The method descriptor under the key.
fn method_type_at(alloc: Global, value: &Value, key: &str) -> Result<Option<Name>, AllocError>
    ensures { IfOk result (λ ty. ty ≡ method_type_at key.now (view value.now)) }
{
    let Some(name) = name_at(alloc, value, key)? else {
        return Ok(None);
    };
    if is_method_descriptor(name.as_slice()) {
        Ok(Some(name))
    } else {
        Ok(None)
    }
}

impl FromJson for SwitchId {
    ghost read = { number_in (2 ^ 32) };

    fn from_json(_alloc: Global, value: &Value) -> Result<Option<Self>, AllocError> {
        match number_in(value) {
            Some(number) => Ok(Some(SwitchId::new(number))),
            None => Ok(None),
        }
    }
}

/// The event that makes a call site.
fn new_call_site(alloc: Global, value: &Value) -> Result<Option<AskedEvent>, AllocError>
    ensures { IfOk result (λ asked. asked ≡ new_call_site_of (view value.now)) }
{
    let Some(word) = text_at(value, "kind") else {
        return Ok(None);
    };
    let Some(kind) = kind_in(word) else {
        return Ok(None);
    };
    let Some(ty) = method_type_at(alloc, value, "type")? else {
        return Ok(None);
    };
    match target_at(alloc, value, "target")? {
        Some(target) => Ok(Some(AskedEvent::NewCallSite(kind, ty, target))),
        None => Ok(None),
    }
}

/// The event that gives a call site another target.
fn set_target(alloc: Global, value: &Value) -> Result<Option<AskedEvent>, AllocError>
    ensures { IfOk result (λ asked. asked ≡ set_target_of (view value.now)) }
{
    let Some(call_site) = number_at(value, "callsite") else {
        return Ok(None);
    };
    let Some(target) = target_at(alloc, value, "target")? else {
        return Ok(None);
    };
    let call_site = CallSiteId::new(call_site);
    Ok(Some(AskedEvent::SetTarget(call_site, target)))
}

/// The event that binds a site to a call site.
fn bind(value: &Value) -> Option<AskedEvent>
    ensures { result ≡ bind_of (view value.now) }
{
    let site = number_at(value, "site")?;
    let call_site = number_at(value, "callsite")?;
    let site = SiteNo::new(site);
    let call_site = CallSiteId::new(call_site);
    Some(AskedEvent::Bind(site, call_site))
}

/// The event of call sites or switch points that has this word, in an object of this many members.
pub(crate) fn call_site_event(
    alloc: Global,
    value: &Value,
    word: &str,
    count: usize,
) -> Result<Option<AskedEvent>, AllocError>
    ensures { IfOk result (λ asked. asked ≡ by_call_site_word word.now count (view value.now)) }
{
    match (word, count) {
        ("callsite", 4) => new_call_site(alloc, value),
        ("target", 3) => set_target(alloc, value),
        ("switch", 1) => Ok(Some(AskedEvent::NewSwitch)),
        ("invalidate", 2) => { Ok(list_at(alloc, value, "switches")?.map(AskedEvent::Invalidate)) }
        ("bind", 3) => Ok(bind(value)),
        _ => Ok(None),
    }
}

/// The type of each new call site that is read is a method descriptor (JVMS SE 17 §4.3.3).
pub fn types_are_descriptors()
    ensures { (d : Data) (kind : CallSiteKind) (ty : List ℕ) (target : Target)
        → command_of d ≡ Some (Apply (NewCallSite kind ty target)) → IsMethodDescriptor ty }
{}
