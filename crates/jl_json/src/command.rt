//! Commands, read from JSON.

ghost use Rattle.std.specs.Prelude.{◌≡◌, ◌^◌, Some, option_map, IfOk};
ghost use Rattle.serde_json.specs.Data.{Data};
ghost use Rattle.serde_json.specs.Find.{as_object};
ghost use Rattle.serde_json.specs.View.{view};
ghost use Rattle.jl_json.specs.Members.{number_in, number_at, text_at, member_count, keys_of, AreAmong};
ghost use Rattle.jl_json.specs.Commands.{file_at, recv_in, source_of};
ghost use Rattle.jl_json.specs.Commands.{define_of, delegate_of, request_of};
ghost use Rattle.jl_json.specs.Commands.{call_on_of, by_event_word, by_word, command_of};
ghost use Rattle.jl_json.specs.CommandForms.{IsCommand, command_data};
ghost use Rattle.jl_json.specs.declared.command.Command.{Command};

use crate::call_site::call_site_event;
use crate::from_json::{FromJson, list_at};
use crate::sketch::{name_at, read_sketch};
use hex::FromHexError;
use jl_names::{Name, Seq};
use jl_sketch::Sketch;
use jl_types::{ClassId, EventOf, LoaderId, Place, Recv, SiteNo};
use serde_json::Value;
use std::alloc::{AllocError, Global};

/// What is asked of a linker.
#[derive(Debug, Drop)]
pub enum Command {
    /// The event is to happen.
    Apply(AskedEvent),
    /// Links are to be prepared for these sites.
    Prepare(Seq<SiteNo>),
    /// The site is called on the receiver.
    Call(SiteNo, Recv),
    /// The installed links are to be listed.
    Links,
}

/// An event as it is asked for: a definition carries what the class is defined by, and an install the number of a prepared batch.
pub type AskedEvent = EventOf<ClassSource, u32>;

/// What a class is defined by.
#[derive(Debug, Drop)]
pub enum ClassSource {
    /// A class file (JVMS SE 17 §4).
    File(Seq<u8>),
    /// A sketch of one.
    Sketch(Sketch),
}

/// A number below 2^32.
pub(crate) fn number_in(value: &Value) -> Option<u32>
    ensures { result ≡ number_in (2 ^ 32) (view value.now) }
{
    let number = value.as_u64()?;
    u32::try_from(number).ok()
}

/// A number below 2^16.
pub(crate) fn index_in(value: &Value) -> Option<u16>
    ensures { result ≡ number_in (2 ^ 16) (view value.now) }
{
    let number = value.as_u64()?;
    u16::try_from(number).ok()
}

/// The number below 2^32 under the key.
pub(crate) fn number_at(value: &Value, key: &str) -> Option<u32>
    ensures { result ≡ number_at (2 ^ 32) key.now (view value.now) }
{
    number_in(value.get(key)?)
}

/// The number below 2^16 under the key.
pub(crate) fn index_at(value: &Value, key: &str) -> Option<u16>
    ensures { result ≡ number_at (2 ^ 16) key.now (view value.now) }
{
    index_in(value.get(key)?)
}

/// The text under the key.
pub(crate) fn text_at<'a>(value: &'a Value, key: &str) -> Option<&'a str>
    ensures { option_map (λ text. text.now) result ≡ text_at key.now (view value.now) }
{
    value.get(key)?.as_str()
}

/// The bytes under the key, which are there in hexadecimal.
fn file_at(alloc: Global, value: &Value, key: &str) -> Result<Option<Seq<u8>>, AllocError>
    ensures { IfOk result (λ file. file ≡ file_at key.now (view value.now)) }
{
    let Some(text) = text_at(value, key) else {
        return Ok(None);
    };
    match hex::decode(alloc, text) {
        Ok(bytes) => Ok(Some(Seq::of(bytes))),
        Err(fault) => match fault {
            FromHexError::OutOfMemory => Err(AllocError),
            _ => Ok(None),
        },
    }
}

impl FromJson for SiteNo {
    ghost read = { number_in (2 ^ 32) };

    fn from_json(_alloc: Global, value: &Value) -> Result<Option<Self>, AllocError> {
        match number_in(value) {
            Some(number) => Ok(Some(SiteNo::new(number))),
            None => Ok(None),
        }
    }
}

/// A receiver: null, or a class.
fn recv_in(value: &Value) -> Option<Recv>
    ensures { result ≡ recv_in (view value.now) }
{
    if value.is_null() {
        return Some(Recv::Null);
    }
    let class = number_in(value)?;
    Some(Recv::Of(ClassId::new(class)))
}

/// What a class is defined by: the sketch if there is one, else the file.
fn class_source(alloc: Global, value: &Value) -> Result<Option<ClassSource>, AllocError>
    ensures { IfOk result (λ source. source ≡ source_of (view value.now)) }
{
    match value.get("sketch") {
        Some(sketch) => Ok(read_sketch(alloc, sketch)?.map(ClassSource::Sketch)),
        None => Ok(file_at(alloc, value, "hex")?.map(ClassSource::File)),
    }
}

/// The event that defines a class.
fn define(alloc: Global, value: &Value) -> Result<Option<AskedEvent>, AllocError>
    ensures { IfOk result (λ asked. asked ≡ define_of (view value.now)) }
{
    let Some(loader) = number_at(value, "loader") else {
        return Ok(None);
    };
    let Some(source) = class_source(alloc, value)? else {
        return Ok(None);
    };
    let loader = LoaderId::new(loader);
    Ok(Some(AskedEvent::Define(loader, source)))
}

/// The event that delegates.
fn delegate(alloc: Global, value: &Value) -> Result<Option<AskedEvent>, AllocError>
    ensures { IfOk result (λ asked. asked ≡ delegate_of (view value.now)) }
{
    let Some(loader) = number_at(value, "loader") else {
        return Ok(None);
    };
    let Some(to) = number_at(value, "to") else {
        return Ok(None);
    };
    let Some(name) = name_at(alloc, value, "name")? else {
        return Ok(None);
    };
    let loader = LoaderId::new(loader);
    let to = LoaderId::new(to);
    Ok(Some(AskedEvent::Delegate(loader, name, to)))
}

/// The event that links an invocation.
fn request(value: &Value) -> Option<AskedEvent>
    ensures { result ≡ request_of (view value.now) }
{
    let class = number_at(value, "class")?;
    let method = index_at(value, "method")?;
    let pc = number_at(value, "pc")?;
    let class = ClassId::new(class);
    Some(AskedEvent::Request(Place { class, method, pc }))
}

/// The command to call a site on a receiver.
fn call_on(value: &Value) -> Option<Command>
    ensures { result ≡ call_on_of (view value.now) }
{
    let site = number_at(value, "site")?;
    let recv = recv_in(value.get("recv")?)?;
    Some(Command::Call(SiteNo::new(site), recv))
}

/// How many members an object has.
pub(crate) fn member_count(value: &Value) -> Option<usize>
    ensures { result ≡ option_map member_count (as_object (view value.now)) }
{
    let members = value.as_object()?;
    Some(members.len())
}

/// The event of this word, in an object of this many members.
fn event_of_word(
    alloc: Global,
    value: &Value,
    word: &str,
    count: usize,
) -> Result<Option<AskedEvent>, AllocError>
    ensures { IfOk result (λ asked. asked ≡ by_event_word word.now count (view value.now)) }
{
    match (word, count) {
        ("loader", 1) => Ok(Some(AskedEvent::NewLoader)),
        ("define", 3) => define(alloc, value),
        ("delegate", 4) => delegate(alloc, value),
        ("request", 4) => Ok(request(value)),
        ("install", 2) => Ok(number_at(value, "prepared").map(AskedEvent::Install)),
        ("retire", 2) => match number_at(value, "loader") {
            Some(loader) => Ok(Some(AskedEvent::Retire(LoaderId::new(loader)))),
            None => Ok(None),
        },
        _ => call_site_event(alloc, value, word, count),
    }
}

/// The command of this word, in an object of this many members.
fn command_of_word(
    alloc: Global,
    value: &Value,
    word: &str,
    count: usize,
) -> Result<Option<Command>, AllocError>
    ensures { IfOk result (λ command. command ≡ by_word word.now count (view value.now)) }
{
    match (word, count) {
        ("prepare", 2) => Ok(list_at(alloc, value, "sites")?.map(Command::Prepare)),
        ("call", 2) => match number_at(value, "site") {
            Some(site) => Ok(Some(Command::Call(SiteNo::new(site), Recv::Null))),
            None => Ok(None),
        },
        ("call", 3) => Ok(call_on(value)),
        ("links", 1) => Ok(Some(Command::Links)),
        _ => Ok(event_of_word(alloc, value, word, count)?.map(Command::Apply)),
    }
}

/// The command that the JSON is, or `None` if it is none. A command is an object of the members that
/// the command has, and of no others.
///
/// # Errors
///
/// Want of memory.
pub fn read_command(alloc: Global, value: &Value) -> Result<Option<Command>, AllocError>
    ensures { IfOk result (λ command. command ≡ command_of (view value.now)) }
{
    let (Some(count), Some(word)) = (member_count(value), text_at(value, "do")) else {
        return Ok(None);
    };
    command_of_word(alloc, value, word, count)
}

/// Each command is read from its form. Three parts may be written in several ways: the sketch of a definition, the name of a
/// delegation, and the type of a call site. They have the JSON that is given for them.
pub fn each_command_is_read()
    ensures { (written : Data) (c : Command) → IsCommand written c
        → command_of (command_data written c) ≡ Some c }
{}

/// What is read as a command has no keys but those of the command's form.
pub fn no_other_keys()
    ensures { (d : Data) (c : Command) (written : Data) → command_of d ≡ Some c
        → AreAmong (keys_of d) (keys_of (command_data written c)) }
{}
