//! Names as text, and lines that show what they hold.

use jl_names::{NameFault, decode_mutf8};
use std::alloc::{AllocError, Global};
use std::char::decode_utf16;
use std::str::from_utf8;

/// Appends a name in modified UTF-8 as text (JVMS SE 17 §4.4.7). Two surrogates are their character. A lone one is written as `\ud800`, and a
/// backslash as `\u005c`, so two names never make one text.
pub(crate) fn push_name(alloc: Global, name: &[u8], out: &mut String) -> Result<(), AllocError> {
    // What is UTF-8, too, is the same text in both.
    match from_utf8(name) {
        Ok(text) if !name.contains(&b'\\') => out.push_str(text),
        _ => push_units(alloc, name, out),
    }
}

/// Appends a name in modified UTF-8 as text, character after character.
fn push_units(alloc: Global, name: &[u8], out: &mut String) -> Result<(), AllocError> {
    let units = match decode_mutf8(alloc, name) {
        Ok(units) => units,
        Err(NameFault::Memory) => return Err(AllocError),
        // No name in a class file is so.
        Err(_) => return Ok(()),
    };
    for unit in decode_utf16(units) {
        match unit {
            Ok('\\') => push_code(u32::from('\\'), out)?,
            Ok(c) => out.push(c)?,
            Err(lone) => push_code(u32::from(lone.unpaired_surrogate()), out)?,
        }
    }
    Ok(())
}

/// Appends the number of a character, or of half of one, as `\u001b`.
fn push_code(code: u32, out: &mut String) -> Result<(), AllocError> {
    write!(out, "\\u{code:04x}")
}

/// Appends the text of a line, and ends the line. A character that would end it, drive a terminal or turn the direction of what stands beside
/// it is written by its number.
pub(crate) fn push_line(line: &str, out: &mut String) -> Result<(), AllocError> {
    push_shown(line, out)?;
    out.push('\n')
}

/// Appends the text of a line, or of a part of one. A character that would end a line, drive a terminal or turn the direction of what
/// stands beside it is written by its number.
pub(crate) fn push_shown(text: &str, out: &mut String) -> Result<(), AllocError> {
    if is_plain(text) {
        return out.push_str(text);
    }
    for c in text.chars() {
        match c {
            '\0'..='\u{1f}'
            | '\u{7f}'..='\u{9f}'
            | '\u{200e}'..='\u{200f}'
            | '\u{202a}'..='\u{202e}'
            | '\u{2066}'..='\u{2069}' => push_code(u32::from(c), out)?,
            c => out.push(c)?,
        }
    }
    Ok(())
}

/// Whether all characters are those of ASCII that are printed.
fn is_plain(text: &str) -> bool {
    for byte in text.as_bytes() {
        if *byte < 0x20 || *byte > 0x7e {
            return false;
        }
    }
    true
}
