//! JSON objects of one and of two members, and arrays of two items.

ghost use Rattle.std.specs.Prelude.{◌≡◌, IfOk};
ghost use Rattle.serde_json.specs.Data.{no_members, object, string, put as with_member};
ghost use Rattle.serde_json.specs.View.{view};
ghost use Rattle.jl_json.specs.LinkAnswers.{single as single_data, pair as pair_data};

use serde_json::{Map, Value, put};
use std::alloc::{AllocError, Global};

/// The object of this member.
pub(crate) fn single(alloc: Global, key: &str, member: Value) -> Result<Value, AllocError>
    ensures { IfOk result (λ v. view v ≡ single_data key.now (view member)) }
{
    let mut members = Map::new(alloc);
    put(&mut members, alloc, key, member)?;
    Ok(Value::Object(members))
}

/// The object of this member, a text.
pub(crate) fn single_text(alloc: Global, key: &str, text: &str) -> Result<Value, AllocError>
    ensures { IfOk result (λ v. view v ≡ single_data key.now (string text.now)) }
{
    single(alloc, key, Value::try_from_str(alloc, text)?)
}

/// The object of these two members.
pub(crate) fn double(
    alloc: Global,
    key: &str,
    member: Value,
    other_key: &str,
    other: Value,
) -> Result<Value, AllocError>
    ensures { IfOk result (λ v. view v ≡ object (with_member other_key.now (view other)
        (with_member key.now (view member) no_members))) }
{
    let mut members = Map::new(alloc);
    put(&mut members, alloc, key, member)?;
    put(&mut members, alloc, other_key, other)?;
    Ok(Value::Object(members))
}

/// The array of these two items.
pub(crate) fn pair(alloc: Global, first: Value, second: Value) -> Result<Value, AllocError>
    ensures { IfOk result (λ v. view v ≡ pair_data (view first) (view second)) }
{
    let mut items = Vec::new(alloc);
    items.push(first)?;
    items.push(second)?;
    Ok(Value::Array(items))
}
