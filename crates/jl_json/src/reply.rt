//! The answer to an accepted event.

ghost use Rattle.std.specs.Prelude.{◌≡◌, IfOk};
ghost use Rattle.serde_json.specs.View.{view};
ghost use Rattle.jl_json.specs.ClassAnswers.{number_data};
ghost use Rattle.jl_json.specs.Replies.{reply_data};

use crate::object::{double, single};
use crate::to_json::{ToJson, array_value};
use jl_types::{Made, Reply, SiteNo};
use serde_json::Value;
use std::alloc::{AllocError, Global};

/// A site, by its number.
impl ToJson for SiteNo {
    ghost written = { number_data };

    fn to_json(&self, _alloc: Global) -> Result<Value, AllocError> {
        Ok(Value::from(self.number()))
    }
}

/// The answer to an accepted event: what it gave a number to, and the sites that lost their link.
///
/// # Errors
///
/// Want of memory.
#[tactic(auto, unfolding(crate::specs::Replies::reply_data))]
pub fn reply_value(alloc: Global, reply: &Reply) -> Result<Value, AllocError>
    ensures { IfOk result (λ v. view v ≡ reply_data reply.now) }
{
    let dropped = array_value(alloc, reply.dropped.as_slice())?;
    match reply.made {
        Made::Nothing => single(alloc, "dropped", dropped),
        Made::Loader(id) => double(
            alloc,
            "dropped",
            dropped,
            "loader",
            Value::from(id.number()),
        ),
        Made::Class(id) => double(alloc, "dropped", dropped, "class", Value::from(id.number())),
        Made::Site(no) => double(alloc, "dropped", dropped, "site", Value::from(no.number())),
        Made::CallSite(id) => double(
            alloc,
            "dropped",
            dropped,
            "callsite",
            Value::from(id.number()),
        ),
        Made::Switch(id) => double(
            alloc,
            "dropped",
            dropped,
            "switch",
            Value::from(id.number()),
        ),
    }
}
