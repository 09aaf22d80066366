//! Names as text.

ghost use Rattle.std.specs.Prelude.{◌≡◌, string_bytes, IfOk, IfSome};
ghost use Rattle.jl_json.specs.ForProofs.NameReading.{name_text};

use crate::plain::is_plain;
use jl_names::{NameFault, decode_mutf8};
use percent_encoding::ascii_str;
use std::alloc::{AllocError, Global};

/// The text of a name in modified UTF-8 (JVMS SE 17 §4.4.7): two surrogates are their character, a
/// lone one is U+FFFD.
pub(crate) fn text_of(alloc: Global, name: &[u8]) -> Result<String, AllocError>
    ensures { IfOk result (λ text. string_bytes text ≡ name_text name.now) }
{
    if let Some(text) = plain_text(name) {
        return text.to_owned(alloc);
    }
    match decode_mutf8(alloc, name) {
        Ok(units) => String::from_utf16_lossy(alloc, &units),
        Err(fault) => match fault {
            NameFault::Memory => Err(AllocError),
            // No name in a class file is so.
            _ => Ok(String::new(alloc)),
        },
    }
}

/// The text of a name whose units have one byte each: the same bytes.
#[tactic(auto, using(crate::proofs::NameLaws::plain_text, crate::proofs::NameLaws::ascii))]
pub(crate) fn plain_text(name: &[u8]) -> Option<&str>
    ensures { IfSome result (λ text. text.now ≡ name_text name.now) }
{
    if is_plain(name) {
        Some(ascii_str(name))
    } else {
        None
    }
}
