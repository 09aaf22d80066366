//! Fields and methods: their names, descriptors, flags and attributes.

ghost use Rattle.std.specs.Prelude.{◌≡◌, ◌<◌, ◌+◌, ◌^◌, ◌≤◌, ◌≢◌, ◌∷◌, [], ◌&&◌, ℕ, List, Some, length, slice_get, true, false};
ghost use Rattle.std.specs.Prelude.{IfSome, All, OnOk, IfErr, MatchBool, MatchOption};
ghost use Rattle.std.specs.List.{AllByRecursion, Contains};
ghost use Rattle.std.specs.Prelude.{◌==◌, ◌||◌};
ghost use Rattle.jl_classfile.specs.declared.body.Attribute.{Attribute};
ghost use Rattle.jl_classfile.specs.declared.fault.ClassFault.TheVariants.{BadLink, Memory};
ghost use Rattle.jl_pool.specs.Pools.{text_at};
ghost use Rattle.jl_classfile.specs.Conditions.{IsTextNumber, is_method_name, are_method_flags, flags_fit, attributes_of, Members};
ghost use Rattle.jl_class.specs.Flags.{has_flag, PUBLIC, PRIVATE, PROTECTED, STATIC};
ghost use Rattle.jl_classfile.specs.declared.body.Member.{Member};
ghost use Rattle.jl_classfile.specs.Faults.{MembersFault};
ghost use Rattle.jl_pool.specs.ForProofs.Forms.{form_of};
ghost use Rattle.jl_classfile.specs.ForProofs.Members.{on_text, field_fits, method_fits, is_at, FieldTested, MethodTested, IsFieldFault};
ghost use Rattle.jl_classfile.specs.ForProofs.Members.{IsMethodFault};

use crate::body::{Attribute, Attributes, Body, Member};
use crate::fault::ClassFault;
use crate::links::is_interface;
use crate::twin::{first_twin, is_at};
use jl_class::{ABSTRACT, PRIVATE, PROTECTED, PUBLIC, STATIC, has_flag};
use jl_pool::{Constant, Form, Pool};
use std::alloc::Global;

/// The name of the attribute that holds a method's code (JVMS SE 17 §4.7.3).
pub const CODE: &[u8] = b"Code";

/// Tests that a text stands at a number.
fn check_text(pool: &Pool, number: u16) -> Result<(), ClassFault>
    ensures ok { OnOk result (IsTextNumber pool.now number) }
    ensures fault { IfErr result (λ f. (f ≡ BadLink number) × ¬ IsTextNumber pool.now number) }
{
    match pool.utf8(number) {
        Some(_) => Ok(()),
        None => Err(ClassFault::BadLink(number)),
    }
}

/// Tests that each attribute's name is a text.
pub fn check_attribute_names(pool: &Pool, attributes: &Attributes<'_>) -> Result<(), ClassFault>
    ensures ok { OnOk result (AllByRecursion (λ a. IsTextNumber pool.now a.name) attributes.now) }
    ensures fault { IfErr result (λ f. (a : Attribute) × (f ≡ BadLink a.name) × Contains attributes.now a × ¬ IsTextNumber pool.now a.name) }
{
    let mut rest = attributes.all();
    while let Some((attribute, after)) = rest.split_first() {
        check_text(pool, attribute.name)?;
        rest = after;
    }
    Ok(())
}

/// Whether the name and descriptor of a field may be so (JVMS SE 17 §4.5).
#[tactic(auto, unfolding(crate::specs::ForProofs::Members::form_of))]
fn field_fits(pool: &Pool, field: &Member<'_>) -> bool
    ensures { result ≡ field_fits pool.now field.now }
{
    match (pool.form(field.name), pool.form(field.descriptor)) {
        (Some(name), Some(descriptor)) => name.unqualified && descriptor.field,
        (Some(name), None) => name.unqualified,
        (None, Some(descriptor)) => descriptor.field,
        (None, None) => true,
    }
}

/// Whether this may be the name of a method: `<` and `>` stand in `<init>` and `<clinit>` alone (§4.2.2).
#[tactic(auto, unfolding(crate::specs::ForProofs::Members::form_of))]
fn is_method_name(name: &[u8], form: Form) -> bool
    requires { form ≡ form_of name.now }
    ensures { result ≡ is_method_name name.now }
{
    form.unqualified
        && (name == b"<init>".as_slice() || name == b"<clinit>".as_slice() || form.plain)
}

/// Whether a method may have these flags: at most one of PUBLIC, PRIVATE and PROTECTED, ABSTRACT without PRIVATE and
/// STATIC, and in an interface PUBLIC or PRIVATE (§4.6).
fn are_method_flags(interface: bool, flags: u16) -> bool
    ensures { result ≡ are_method_flags interface flags }
{
    let public = has_flag(flags, PUBLIC);
    let private = has_flag(flags, PRIVATE);
    let protected = has_flag(flags, PROTECTED);
    u8::from(public) + (u8::from(private) + u8::from(protected)) <= 1
        && (!has_flag(flags, ABSTRACT) || (!private && !has_flag(flags, STATIC)))
        && (!interface || public || private)
}

/// Whether the name and flags of a method may be so. `<clinit>` may have any flags.
#[tactic(auto, unfolding(crate::specs::ForProofs::Members::form_of))]
fn name_fits(pool: &Pool, interface: bool, method: &Member<'_>) -> bool
    ensures { result ≡ (on_text is_method_name (text_at pool.now method.now.name)
        && on_text (flags_fit interface method.now.flags) (text_at pool.now method.now.name)) }
{
    match (pool.utf8(method.name), pool.form(method.name)) {
        (Some(name), Some(form)) => {
            let name = name.as_slice();
            is_method_name(name, form)
                && (name == b"<clinit>".as_slice() || are_method_flags(interface, method.flags))
        }
        _ => true,
    }
}

/// Whether a method may be so (JVMS SE 17 §4.6). Its parameters take 255 slots at most, with the receiver's unless it is static.
#[tactic(auto, unfolding(crate::specs::ForProofs::Members::form_of))]
fn method_fits(pool: &Pool, interface: bool, method: &Member<'_>) -> bool
    ensures { result ≡ method_fits pool.now interface method.now }
{
    if !name_fits(pool, interface, method) {
        return false;
    }
    match pool.form(method.descriptor) {
        Some(form) => match form.slots {
            Some(slots) => slots < 255 || has_flag(method.flags, STATIC),
            None => false,
        },
        None => true,
    }
}

/// The first attribute of this name, and those after it.
pub fn first_called<'a>(
    pool: &Pool,
    name: &[u8],
    attributes: &Attributes<'a>,
) -> Option<(Attribute<'a>, Attributes<'a>)>
    ensures { MatchOption result (attributes_of pool.now name.now attributes.now ≡ [])
        (λ x. attributes_of pool.now name.now attributes.now ≡ x.0 ∷ attributes_of pool.now name.now x.1) }
{
    let mut rest = attributes.all();
    while let Some((attribute, after)) = rest.split_first() {
        match pool.utf8(attribute.name) {
            Some(text) if text.as_slice() == name => return Some((attribute, after)),
            _ => {}
        }
        rest = after;
    }
    None
}

/// Whether two attributes or more have this name.
fn are_two_called(pool: &Pool, name: &[u8], attributes: &Attributes<'_>) -> bool
    ensures { MatchBool result (2 ≤ length (attributes_of pool.now name.now attributes.now)) (length (attributes_of pool.now name.now attributes.now) ≤ 1) }
{
    match first_called(pool, name, attributes) {
        Some((_first, rest)) => first_called(pool, name, &rest).is_some(),
        None => false,
    }
}

/// Tests a field. `place` says how many fields come before it.
fn check_field(pool: &Pool, place: u32, field: &Member<'_>) -> Result<(), ClassFault>
    ensures ok { OnOk result (FieldTested pool.now field.now) }
    ensures fault { IfErr result (IsFieldFault pool.now place field.now) }
{
    check_text(pool, field.name)?;
    check_text(pool, field.descriptor)?;
    if !field_fits(pool, field) {
        return Err(ClassFault::BadMember(place));
    }
    check_attribute_names(pool, &field.attributes)?;
    Ok(())
}

/// Tests a method. `place` says how many members come before it, `index` how many methods, and `twin` whether it has the name
/// and the descriptor of an earlier one.
fn check_method(
    pool: &Pool,
    interface: bool,
    place: u32,
    index: u16,
    twin: bool,
    method: &Member<'_>,
) -> Result<(), ClassFault>
    ensures ok { OnOk result (MethodTested pool.now interface method.now × (twin ≡ false)) }
    ensures fault { IfErr result (IsMethodFault pool.now interface place index twin method.now) }
{
    check_text(pool, method.name)?;
    check_text(pool, method.descriptor)?;
    if !method_fits(pool, interface, method) {
        return Err(ClassFault::BadMember(place));
    }
    if twin {
        return Err(ClassFault::DuplicateMethod(index));
    }
    check_attribute_names(pool, &method.attributes)?;
    if are_two_called(pool, CODE, &method.attributes) {
        return Err(ClassFault::TwoCodes(index));
    }
    Ok(())
}

/// Tests the fields, one after another.
fn check_fields(pool: &Pool, fields: &[Member<'_>]) -> Result<(), ClassFault>
    requires { length fields.now < 2 ^ 16 }
    ensures ok { OnOk result (All (FieldTested pool.now) fields.now) }
    ensures fault { IfErr result (λ f. (i : ℕ) × (m : Member) × (slice_get fields.now i ≡ Some m) × IsFieldFault pool.now i m f) }
{
    for (i, field) in fields.iter().enumerate() {
        check_field(pool, i as u32, field)?;
    }
    Ok(())
}

/// Tests the methods, one after another. `fields` says how many fields come before them, and `twin` which is the first that has
/// the name and the descriptor of an earlier one.
fn check_methods(
    pool: &Pool,
    interface: bool,
    fields: usize,
    twin: Option<usize>,
    methods: &[Member<'_>],
) -> Result<(), ClassFault>
    requires few_fields { fields < 2 ^ 16 }
    requires few_methods { length methods.now < 2 ^ 16 }
    ensures ok { OnOk result (All (MethodTested pool.now interface) methods.now) }
    ensures no_twin { OnOk result (IfSome twin (λ t. length methods.now ≤ t)) }
    ensures fault { IfErr result (λ f. (i : ℕ) × (m : Member) × (slice_get methods.now i ≡ Some m)
        × IsMethodFault pool.now interface (fields + i) i (is_at twin i) m f) }
{
    for (i, method) in methods.iter().enumerate() {
        let is_twin = is_at(twin, i);
        check_method(
            pool,
            interface,
            (fields + i) as u32,
            i as u16,
            is_twin,
            method,
        )?;
    }
    Ok(())
}

/// Tests the fields, and then the methods (JVMS SE 17 §4.5, §4.6).
pub fn check_members(alloc: Global, pool: &Pool, body: &Body<'_>) -> Result<(), ClassFault>
    requires few_fields { length body.now.fields < 2 ^ 16 }
    requires few_methods { length body.now.methods < 2 ^ 16 }
    ensures ok { OnOk result (Members pool.now body.now) }
    ensures fault { IfErr result (λ f. f ≢ Memory → MembersFault pool.now body.now f) }
{
    let fields = body.fields.as_slice();
    let methods = body.methods.as_slice();
    check_fields(pool, fields)?;
    let twin = first_twin(alloc, pool, methods)?;
    check_methods(pool, is_interface(body), fields.len(), twin, methods)?;
    Ok(())
}
