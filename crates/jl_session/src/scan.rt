//! The mode scan: a class file in hexadecimal a line.

ghost use Rattle.std.specs.Prelude.{◌≡◌, ◌≤◌, ◌*◌, length, IfOk, OnOk, OnErr};
ghost use Rattle.serde_json.specs.View.{view};
ghost use Rattle.serde_json.specs.Written.{compact_text};
ghost use Rattle.jl_json.specs.Refusals.{refusal_data};
ghost use Rattle.jl_session.specs.Jsons.{AddsTextOf};
ghost use Rattle.jl_session.specs.Scans.{IsFileAnswer, IsScanAnswer};

use crate::hexadecimal::decode;
use crate::json_line::{bad_command_text, text_of};
use jl_classfile::{ClassFault, read_class};
use jl_json::{FileRefusal, append_class};
use serde_json::Value;
use std::alloc::{AllocError, Global};

/// Adds the answer to the bytes of a file, as text.
///
/// # Errors
///
/// [`AllocError`]. The text stays.
fn add_file_answer(alloc: Global, bytes: &[u8], text: &mut Vec<u8>) -> Result<(), AllocError>
    ensures ok { OnOk result (AddsTextOf (IsFileAnswer bytes.now) text.old.items text.new.items) }
    ensures err { OnErr result (text.new.items ≡ text.old.items) }
{
    match read_class(alloc, bytes) {
        Ok(file) => append_class(alloc, &file, text),
        Err(fault) => {
            let said = fault_text(alloc, fault)?;
            text.extend_from_slice(&said)
        }
    }
}

/// The text of the answer to bytes that are no class file, or that can't be read.
fn fault_text(alloc: Global, fault: ClassFault) -> Result<Vec<u8>, AllocError>
    ensures { IfOk result (λ text. text.items ≡ compact_text (refusal_data fault)) }
{
    let answer = fault_value(alloc, fault)?;
    text_of(alloc, &answer)
}

/// The answer to such bytes.
pub fn fault_value(alloc: Global, fault: ClassFault) -> Result<Value, AllocError>
    ensures { IfOk result (λ v. view v ≡ refusal_data fault) }
{
    FileRefusal::from(fault).to_value(alloc)
}

/// Adds the answer to a line, as text: a class file in hexadecimal of either case, which is decoded into the room.
///
/// # Errors
///
/// [`AllocError`]. The text stays.
pub fn add_scan_answer(
    alloc: Global,
    line: &[u8],
    room: &mut [u8],
    text: &mut Vec<u8>,
) -> Result<(), AllocError>
    requires { length line.now ≤ 2 * length room.old }
    ensures ok { OnOk result (AddsTextOf (IsScanAnswer line.now) text.old.items text.new.items) }
    ensures err { OnErr result (text.new.items ≡ text.old.items) }
{
    let bytes = &mut room[..line.len() / 2];
    if decode(line, bytes) {
        add_file_answer(alloc, bytes, text)
    } else {
        let said = bad_command_text(alloc)?;
        text.extend_from_slice(&said)
    }
}
