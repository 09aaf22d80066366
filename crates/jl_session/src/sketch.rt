//! The mode sketch: a sketch in JSON a line.

ghost use Rattle.std.specs.Prelude.{◌≡◌, IfOk};
ghost use Rattle.hex.specs.Hex.{encode_lower};
ghost use Rattle.serde_json.specs.View.{view};
ghost use Rattle.serde_json.specs.Written.{compact_text};
ghost use Rattle.jl_json.specs.Refusals.{sketch_refusal_data};
ghost use Rattle.jl_json.specs.Sketches.{sketch_of};
ghost use Rattle.jl_session.specs.Jsons.{IsReadAs};
ghost use Rattle.jl_session.specs.Sketches.{IsWrittenText, IsSketchAnswer};

use crate::json_line::{bad_command_text, json_in, text_of};
use jl_json::{FileRefusal, read_sketch};
use jl_sketch::{Sketch, SketchFault, write_class};
use serde_json::Value;
use std::alloc::{AllocError, Global};

/// The sketch that the line's JSON is, if it is one.
fn sketch_in(alloc: Global, line: &[u8]) -> Result<Option<Sketch>, AllocError>
    ensures { IfOk result (IsReadAs sketch_of line.now) }
{
    match json_in(alloc, line)? {
        Some(value) => read_sketch(alloc, &value),
        None => Ok(None),
    }
}

/// The answer to a sketch that isn't written.
pub fn sketch_fault_value(alloc: Global, fault: SketchFault) -> Result<Value, AllocError>
    ensures { IfOk result (λ v. view v ≡ sketch_refusal_data fault) }
{
    FileRefusal::from(fault).to_value(alloc)
}

/// The text of that answer.
fn sketch_fault_text(alloc: Global, fault: SketchFault) -> Result<Vec<u8>, AllocError>
    ensures { IfOk result (λ text. text.items ≡ compact_text (sketch_refusal_data fault)) }
{
    let answer = sketch_fault_value(alloc, fault)?;
    text_of(alloc, &answer)
}

/// The bytes in lower-case hexadecimal.
fn hex_of(alloc: Global, bytes: &[u8]) -> Result<Vec<u8>, AllocError>
    ensures { IfOk result (λ text. text.items ≡ encode_lower bytes.now) }
{
    Ok(hex::encode(alloc, bytes)?.into_bytes())
}

/// The answer to a sketch, as text: its class file in hexadecimal, or why it isn't written.
fn written(alloc: Global, sketch: &Sketch) -> Result<Vec<u8>, AllocError>
    ensures { IfOk result (λ text. IsWrittenText sketch.now text.items) }
{
    match write_class(alloc, sketch) {
        Ok(bytes) => hex_of(alloc, &bytes),
        Err(fault) => sketch_fault_text(alloc, fault),
    }
}

/// The answer to a line, as text: a sketch in JSON.
pub fn sketch_answer(alloc: Global, line: &[u8]) -> Result<Vec<u8>, AllocError>
    ensures { IfOk result (λ text. IsSketchAnswer line.now text.items) }
{
    match sketch_in(alloc, line)? {
        Some(sketch) => written(alloc, &sketch),
        None => bad_command_text(alloc),
    }
}
