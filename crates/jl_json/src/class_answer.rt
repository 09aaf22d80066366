//! The answer to a class file: its name, and its methods with their invocations.

ghost use Rattle.std.specs.Prelude.{◌≡◌, ◌++◌, List, ℕ, map, OnOk, OnErr};
ghost use Rattle.serde_json.specs.Data.{array};
ghost use Rattle.serde_json.specs.View.{items_of};
ghost use Rattle.jl_json.specs.ForProofs.NameReading.{name_text};
ghost use Rattle.jl_json.specs.ClassAnswers.{instruction_name, call_data, call_site_data};
ghost use Rattle.jl_json.specs.ClassAnswers.{name_data, number_data, site_data, method_data, class_data};
ghost use Rattle.jl_json.specs.ClassAnswers.{IsClassText};
ghost use Rattle.jl_json.specs.ForProofs.Written.{PutsValue};

use crate::text::{plain_text, text_of};
use jl_class::{ClassFile, Kind, Method, Methods, Operand, Site, Sites};
use jl_names::LentName;
use jl_pool::{CallSiteSpecifier, Reference};
use json::Writer;
use std::alloc::{AllocError, Global};
use std::mem;

/// The name of the instruction (JVMS SE 17 §6.5).
pub fn instruction(kind: Kind) -> &'static str
    ensures { result.now ≡ instruction_name kind }
{
    match kind {
        Kind::Virtual => "invokevirtual",
        Kind::Special => "invokespecial",
        Kind::Static => "invokestatic",
        Kind::Interface => "invokeinterface",
        Kind::Dynamic => "invokedynamic",
    }
}

/// Writes a name, as text.
fn write_name(alloc: Global, name: &[u8], out: &mut Writer) -> Result<(), AllocError>
    ensures written { OnOk result (PutsValue (name_data name_text name.now) out.old.tokens out.new.tokens) }
    ensures before { out.new.before ≡ out.old.before }
{
    if let Some(text) = plain_text(name) {
        return out.string(text);
    }
    let text = text_of(alloc, name)?;
    out.string(text.as_str())
}

/// Writes a number.
fn write_number(number: u16, out: &mut Writer) -> Result<(), AllocError>
    ensures written { OnOk result (PutsValue (number_data number) out.old.tokens out.new.tokens) }
    ensures before { out.new.before ≡ out.old.before }
{
    out.u64(u64::from(number))
}

/// Writes an invocation of a method.
fn write_call(
    alloc: Global,
    pc: u16,
    kind: Kind,
    reference: &Reference<LentName<'_>>,
    out: &mut Writer,
) -> Result<(), AllocError>
    ensures written { OnOk result (PutsValue (call_data name_text pc kind reference.now) out.old.tokens out.new.tokens) }
    ensures before { out.new.before ≡ out.old.before }
{
    out.begin_object()?;
    out.key("kind")?;
    out.string(instruction(kind))?;
    out.key("name")?;
    write_name(alloc, reference.name.as_slice(), out)?;
    out.key("of")?;
    write_name(alloc, reference.owner.as_slice(), out)?;
    out.key("pc")?;
    write_number(pc, out)?;
    out.key("type")?;
    write_name(alloc, reference.ty.as_slice(), out)?;
    out.end_object()
}

/// Writes an invocation of a call site.
fn write_call_site(
    alloc: Global,
    pc: u16,
    kind: Kind,
    specifier: &CallSiteSpecifier<LentName<'_>>,
    out: &mut Writer,
) -> Result<(), AllocError>
    ensures written { OnOk result (PutsValue (call_site_data name_text pc kind specifier.now) out.old.tokens out.new.tokens) }
    ensures before { out.new.before ≡ out.old.before }
{
    out.begin_object()?;
    out.key("bootstrap")?;
    write_number(specifier.bootstrap, out)?;
    out.key("kind")?;
    out.string(instruction(kind))?;
    out.key("name")?;
    write_name(alloc, specifier.name.as_slice(), out)?;
    out.key("pc")?;
    write_number(pc, out)?;
    out.key("type")?;
    write_name(alloc, specifier.ty.as_slice(), out)?;
    out.end_object()
}

/// Writes an invocation.
#[tactic(auto, unfolding(crate::specs::ClassAnswers::site_data))]
fn write_site(alloc: Global, site: &Site<'_>, out: &mut Writer) -> Result<(), AllocError>
    ensures written { OnOk result (PutsValue (site_data name_text site.now) out.old.tokens out.new.tokens) }
    ensures before { out.new.before ≡ out.old.before }
{
    match site.operand() {
        Operand::Method(reference) => write_call(alloc, site.pc(), site.kind(), reference, out),
        Operand::CallSite(specifier) => write_call_site(
            alloc,
            site.pc(),
            site.kind(),
            specifier,
            out,
        ),
    }
}

/// Writes invocations, in order.
fn write_sites(alloc: Global, sites: &Sites<'_>, out: &mut Writer) -> Result<(), AllocError>
    ensures written { OnOk result (PutsValue (array (items_of (map (site_data name_text) sites.now))) out.old.tokens out.new.tokens) }
    ensures before { out.new.before ≡ out.old.before }
{
    out.begin_array()?;
    // They can be counted, and so can their places.
    let _count = sites.len();
    let mut place = 0;
    while let Some(site) = sites.at(place) {
        write_site(alloc, &site, out)?;
        place += 1;
    }
    out.end_array()
}

/// Writes a method.
#[tactic(auto, unfolding(crate::specs::ClassAnswers::method_data))]
fn write_method(alloc: Global, method: &Method<'_>, out: &mut Writer) -> Result<(), AllocError>
    ensures written { OnOk result (PutsValue (method_data name_text method.now) out.old.tokens out.new.tokens) }
    ensures before { out.new.before ≡ out.old.before }
{
    out.begin_object()?;
    out.key("flags")?;
    write_number(method.flags(), out)?;
    out.key("name")?;
    write_name(alloc, method.name().as_slice(), out)?;
    out.key("sites")?;
    write_sites(alloc, &method.sites(), out)?;
    out.key("type")?;
    write_name(alloc, method.ty().as_slice(), out)?;
    out.end_object()
}

/// Writes methods, in order.
fn write_methods(alloc: Global, methods: &Methods<'_>, out: &mut Writer) -> Result<(), AllocError>
    ensures written { OnOk result (PutsValue (array (items_of (map (method_data name_text) methods.now))) out.old.tokens out.new.tokens) }
    ensures before { out.new.before ≡ out.old.before }
{
    out.begin_array()?;
    // They can be counted, and so can their places.
    let _count = methods.len();
    let mut place = 0;
    while let Some(method) = methods.at(place) {
        write_method(alloc, &method, out)?;
        place += 1;
    }
    out.end_array()
}

/// Writes the answer to a class file.
#[tactic(auto, unfolding(crate::specs::ClassAnswers::class_data))]
fn write_class(alloc: Global, file: &ClassFile, out: &mut Writer) -> Result<(), AllocError>
    ensures written { OnOk result (PutsValue (class_data name_text file.now) out.old.tokens out.new.tokens) }
    ensures before { out.new.before ≡ out.old.before }
{
    out.begin_object()?;
    out.key("class")?;
    write_name(alloc, file.name().as_slice(), out)?;
    out.key("methods")?;
    write_methods(alloc, &file.methods(), out)?;
    out.end_object()
}

/// Appends the answer to a class file, as JSON: its name, and its methods with their invocations (JVMS SE 17 §4.1, §4.6,
/// §6.5).
///
/// # Errors
///
/// Want of memory. The text stays.
pub fn append_class(alloc: Global, file: &ClassFile, text: &mut Vec<u8>) -> Result<(), AllocError>
    ensures ok { OnOk result ((answer : List ℕ) × IsClassText file.now answer
        × (text.new.items ≡ text.old.items ++ answer)) }
    ensures err { OnErr result (text.new.items ≡ text.old.items) }
{
    let length = text.len();
    let mut out = Writer::new(mem::replace(text, Vec::new(alloc)));
    let written = write_class(alloc, file, &mut out);
    *text = out.into_inner();
    match written {
        Ok(()) => Ok(()),
        Err(fault) => {
            text.truncate(length);
            Err(fault)
        }
    }
}
