//! Targets of call sites, as text.

ghost use Rattle.std.specs.Prelude.{IfOk};
ghost use Rattle.jl_json.specs.Targets.{target_in};
ghost use Rattle.jl_session.specs.Jsons.{IsReadAs};

use crate::json_line::json_in;
use jl_json::target_in;
use jl_types::Target;
use std::alloc::{AllocError, Global};

/// The target that the text's JSON is, as a command has it, if it is one.
pub fn read_target(alloc: Global, text: &[u8]) -> Result<Option<Target>, AllocError>
    ensures { IfOk result (IsReadAs target_in text.now) }
{
    match json_in(alloc, text)? {
        Some(value) => target_in(alloc, &value),
        None => Ok(None),
    }
}
