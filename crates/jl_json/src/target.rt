//! Targets of call sites, read from JSON.

ghost use Rattle.std.specs.Prelude.{◌≡◌, ◌^◌, ◌<◌, codes, Some, IfOk};
ghost use Rattle.serde_json.specs.Data.{Data};
ghost use Rattle.serde_json.specs.View.{view, items_view};
ghost use Rattle.jl_types.specs.Values.Target.{Target};
ghost use Rattle.jl_json.specs.Members.{number_at, keys_of, AreAmong};
ghost use Rattle.jl_json.specs.Targets.{method_pair, method_at, guard, method_or_invoker, target_in, target_at};
ghost use Rattle.jl_json.specs.CommandForms.{target_data, IsTarget};

use crate::command::{index_in, member_count, number_at, number_in};
use jl_types::{CallSiteId, ClassId, MethodId, SwitchId, Target};
use serde_json::Value;
use std::alloc::{AllocError, Global};

/// The method of two numbers: its class, and its place among the methods there.
fn method_pair(items: &[Value]) -> Option<MethodId>
    ensures { result ≡ method_pair (items_view items.now) }
{
    match items {
        [class, index] => {
            let class = number_in(class)?;
            let index = index_in(index)?;
            let class = ClassId::new(class);
            Some(MethodId { class, index })
        }
        _ => None,
    }
}

/// The method under the key.
fn method_at(value: &Value, key: &str) -> Option<MethodId>
    ensures { result ≡ method_at key.now (view value.now) }
{
    let items = value.get(key)?.as_array()?;
    method_pair(items)
}

/// The guard of a switch point and two targets.
#[cycle(target)]
fn guard_in(alloc: Global, value: &Value) -> Result<Option<Target>, AllocError>
    ensures { IfOk result (λ target. target ≡ guard (number_at (2 ^ 32) (codes "guard") (view value.now))
        (target_at (codes "target") (view value.now)) (target_at (codes "fallback") (view value.now))) }
{
    let Some(point) = number_at(value, "guard") else {
        return Ok(None);
    };
    let Some(first) = target_at(alloc, value, "target")? else {
        return Ok(None);
    };
    let Some(fallback) = target_at(alloc, value, "fallback")? else {
        return Ok(None);
    };
    let point = SwitchId::new(point);
    let first = Box::new(alloc, first)?;
    let fallback = Box::new(alloc, fallback)?;
    Ok(Some(Target::guard(point, first, fallback)))
}

/// The target of a method, if it is there, or of the call site that is invoked.
fn method_or_invoker(value: &Value) -> Option<Target>
    ensures { result ≡ method_or_invoker (method_at (codes "method") (view value.now))
        (number_at (2 ^ 32) (codes "invoker") (view value.now)) }
{
    match method_at(value, "method") {
        Some(method) => Some(Target::method(method)),
        None => {
            let site = number_at(value, "invoker")?;
            Some(Target::invoker(CallSiteId::new(site)))
        }
    }
}

/// The target that the JSON is: a method or an invoked call site alone, or a guard.
#[cycle(target)]
pub fn target_in(alloc: Global, value: &Value) -> Result<Option<Target>, AllocError>
    ensures { IfOk result (λ target. target ≡ target_in (view value.now)) }
{
    match member_count(value) {
        Some(1) => Ok(method_or_invoker(value)),
        Some(3) => guard_in(alloc, value),
        _ => Ok(None),
    }
}

/// The target under the key.
#[cycle(target)]
pub(crate) fn target_at(
    alloc: Global,
    value: &Value,
    key: &str,
) -> Result<Option<Target>, AllocError>
    ensures { IfOk result (λ target. target ≡ target_at key.now (view value.now)) }
{
    match value.get(key) {
        Some(part) => target_in(alloc, part),
        None => Ok(None),
    }
}

/// Each target is read from its form.
pub fn each_target_is_read()
    ensures { (t : Target) → IsTarget t → target_in (target_data t) ≡ Some t }
{}

/// What is read as a target has no keys but those of the target's form.
pub fn no_other_target_keys()
    ensures { (d : Data) (t : Target) → target_in d ≡ Some t
        → AreAmong (keys_of d) (keys_of (target_data t)) }
{}
