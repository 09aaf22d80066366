//! Lists of what is read from JSON.

ghost use Rattle.std.specs.Prelude.{◌≡◌, [], IfOk};
ghost use Rattle.serde_json.specs.View.{view, items_view};
ghost use Rattle.jl_json.specs.Members.{each_in, list_in, list_at, or_absent};

use jl_names::Seq;
use serde_json::Value;
use std::alloc::{AllocError, Global};

/// What a JSON value may be read as.
pub(crate) trait FromJson: Sized {
    ghost use Rattle.std.specs.Prelude.{◌≡◌, Option, IfOk};
    ghost use Rattle.serde_json.specs.Data.{Data};
    ghost use Rattle.serde_json.specs.View.{view};

    ghost read: { Data → Option Self };

    /// What the value is read as, or `None` if it can't be read so.
    fn from_json(alloc: Global, value: &Value) -> Result<Option<Self>, AllocError>
        ensures { IfOk result (λ one. one ≡ read (view value.now)) };
}

/// What the items are, in order.
fn each_in<T: FromJson + Drop>(alloc: Global, items: &[Value]) -> Result<Option<Seq<T>>, AllocError>
    ensures { IfOk result (λ list. list ≡ each_in T.read (items_view items.now)) }
{
    let mut list = Vec::new(alloc);
    for item in items {
        match T::from_json(alloc, item)? {
            Some(one) => list.push(one)?,
            None => return Ok(None),
        }
    }
    Ok(Some(Seq::of(list)))
}

/// What the items of the array are, in order.
fn list_in<T: FromJson + Drop>(alloc: Global, value: &Value) -> Result<Option<Seq<T>>, AllocError>
    ensures { IfOk result (λ list. list ≡ list_in T.read (view value.now)) }
{
    match value.as_array() {
        Some(items) => each_in(alloc, items),
        None => Ok(None),
    }
}

/// What the items of the array under the key are, in order.
pub(crate) fn list_at<T: FromJson + Drop>(
    alloc: Global,
    value: &Value,
    key: &str,
) -> Result<Option<Seq<T>>, AllocError>
    ensures { IfOk result (λ list. list ≡ list_at T.read key.now (view value.now)) }
{
    match value.get(key) {
        Some(list) => list_in(alloc, list),
        None => Ok(None),
    }
}

/// What the items of the array under the key are, in order: none if there is no such key.
pub(crate) fn list_if_any<T: FromJson + Drop>(
    alloc: Global,
    value: &Value,
    key: &str,
) -> Result<Option<Seq<T>>, AllocError>
    ensures { IfOk result (λ list. list ≡ or_absent [] (list_in T.read) key.now (view value.now)) }
{
    match value.get(key) {
        Some(list) => list_in(alloc, list),
        None => Ok(Some(Seq::of(Vec::new(alloc)))),
    }
}
