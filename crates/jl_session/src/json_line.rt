//! Lines and answers in JSON.

ghost use Rattle.std.specs.Prelude.{◌≡◌, false, Some, IfOk, option_map};
ghost use Rattle.serde_json.specs.View.{view};
ghost use Rattle.serde_json.specs.Written.{has_float, compact_text};
ghost use Rattle.jl_session.specs.Jsons.{IsReadAs, bad_command};

use serde_json::{Value, json};
use std::alloc::{AllocError, Global};

/// The JSON that the line is, if it is any.
pub(crate) fn json_in(alloc: Global, line: &[u8]) -> Result<Option<Value>, AllocError>
    ensures { IfOk result (λ value. IsReadAs Some line.now (option_map view value)) }
{
    match Value::from_slice(alloc, line) {
        Ok(value) => Ok(Some(value)),
        Err(error) => {
            if error.is_memory() {
                Err(AllocError)
            } else {
                Ok(None)
            }
        }
    }
}

/// The text of an answer, which has no floating-point number.
pub fn text_of(alloc: Global, answer: &Value) -> Result<Vec<u8>, AllocError>
    requires { has_float (view answer.now) ≡ false }
    ensures { IfOk result (λ text. text.items ≡ compact_text (view answer.now)) }
{
    answer.to_vec(alloc)
}

/// The answer to a line that is none of the stated forms.
pub fn bad_command(alloc: Global) -> Result<Value, AllocError>
    ensures { IfOk result (λ v. view v ≡ bad_command) }
{
    json!(in alloc; {"error": "BadCommand"})
}

/// The text of the answer to such a line.
pub(crate) fn bad_command_text(alloc: Global) -> Result<Vec<u8>, AllocError>
    ensures { IfOk result (λ text. text.items ≡ compact_text bad_command) }
{
    let answer = bad_command(alloc)?;
    text_of(alloc, &answer)
}
