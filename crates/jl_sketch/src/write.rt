//! Writes a sketch as a class file (JVMS SE 17 §4).

ghost use Rattle.std.specs.Prelude.{◌≡◌, ◌<◌, ◌≤◌, ◌^◌, ◌++◌, ◌∷◌, length, map, IfOk, IfErr, OnOk};
ghost use Rattle.std.specs.List.{flat_map, AllByRecursion};
ghost use Rattle.std.specs.Option.{option_map_or};
ghost use Rattle.jl_pool.specs.Numbers.{u2, u4, counted};
ghost use Rattle.jl_pool.specs.Constants.{constant_text};
ghost use Rattle.jl_pool.specs.Pools.{pool_text};
ghost use Rattle.jl_code.specs.Instructions.{instruction_text};
ghost use Rattle.jl_code.specs.Codes.{code_bytes};
ghost use Rattle.jl_classfile.specs.Layouts.{attribute_text, member_text, body_text, file_text};
ghost use Rattle.jl_classfile.specs.Parts.{Parts};
ghost use Rattle.jl_classfile.specs.ClassFiles.{IsClass};
ghost use Rattle.jl_classfile.specs.Shown.{shown};
ghost use Rattle.jl_sketch.specs.Counts.{count_byte};
ghost use Rattle.jl_sketch.specs.Constants.{class_number};
ghost use Rattle.jl_sketch.specs.ForProofs.Entries.{constant_of, fault_of_class};
ghost use Rattle.jl_sketch.specs.Layouts.{call_opcode, call_tail, call_instruction, instructions, code_info, code_attribute, method_attributes};
ghost use Rattle.jl_sketch.specs.Layouts.{method_of, host_attributes, member_attributes, body_of, layout_over};
ghost use Rattle.jl_sketch.specs.Faults.{IsSketchFault, IsSpelled, IsWritten};
ghost use Rattle.jl_sketch.specs.Names.{AreFlags, class_of};

use crate::check::{first_without_code, has_code, is_long_sketch};
use crate::constants::{Constants, NewConstant};
use crate::fault::SketchFault;
use crate::sketch::{Call, Sketch, SketchMethod};
use byteorder::{BigEndian, ByteOrder};
use jl_classfile::{CODE, ClassFault, NEST_HOST, NEST_MEMBERS, read_class};
use jl_names::{Name, method_slots};
use std::alloc::{AllocError, Global};

/// The most constants of a pool that take one number each (JVMS SE 17 §4.1).
const MOST_CONSTANTS: usize = 65_534;

/// Appends the lowest two bytes of a number, the higher first.
fn push_u2(out: &mut Vec<u8>, number: usize) -> Result<(), AllocError>
    ensures { OnOk result (out.new.items ≡ out.old.items ++ u2 number) }
{
    let mut bytes = [0; 8];
    BigEndian::write_u64(&mut bytes, number as u64);
    out.extend_from_slice(&bytes[6..])
}

/// Appends the lowest four bytes of a number, the highest first.
fn push_u4(out: &mut Vec<u8>, number: usize) -> Result<(), AllocError>
    ensures { OnOk result (out.new.items ≡ out.old.items ++ u4 number) }
{
    let mut bytes = [0; 8];
    BigEndian::write_u64(&mut bytes, number as u64);
    out.extend_from_slice(&bytes[4..])
}

// ---- constants

/// Appends a tag and a number.
fn push_naming(out: &mut Vec<u8>, tag: u8, number: usize) -> Result<(), AllocError>
    ensures { OnOk result (out.new.items ≡ out.old.items ++ tag ∷ u2 number) }
{
    out.push(tag)?;
    push_u2(out, number)
}

/// Appends a tag and two numbers.
fn push_pair(out: &mut Vec<u8>, tag: u8, first: usize, second: usize) -> Result<(), AllocError>
    ensures { OnOk result (out.new.items ≡ out.old.items ++ tag ∷ (u2 first ++ u2 second)) }
{
    push_naming(out, tag, first)?;
    push_u2(out, second)
}

/// Appends a constant.
fn push_constant(out: &mut Vec<u8>, entry: &NewConstant<'_>) -> Result<(), AllocError>
    ensures { OnOk result (out.new.items ≡ out.old.items ++ constant_text (constant_of entry.now)) }
{
    match entry {
        NewConstant::Utf8(text) => {
            push_naming(out, 1, text.len())?;
            out.extend_from_slice(text)
        }
        NewConstant::Class(name) => push_naming(out, 7, *name),
        NewConstant::NameAndType(name, ty) => push_pair(out, 12, *name, *ty),
        NewConstant::Methodref(owner, signed) => push_pair(out, 10, *owner, *signed),
        NewConstant::InterfaceMethodref(owner, signed) => push_pair(out, 11, *owner, *signed),
        NewConstant::InvokeDynamic(signed) => push_pair(out, 18, 0, *signed),
    }
}

/// Appends the pool.
fn push_pool(out: &mut Vec<u8>, constants: &Constants<'_>) -> Result<(), AllocError>
    requires { length constants.now ≤ 65534 }
    ensures { OnOk result (out.new.items ≡ out.old.items ++ pool_text constants.now) }
{
    push_u2(out, constants.len() + 1)?;
    let entries = constants.as_slice();
    for entry in entries {
        push_constant(out, entry)?;
    }
    Ok(())
}

// ---- codes

/// The opcode of the call (JVMS SE 17 §6.5).
fn opcode(call: &Call) -> u8
    ensures { result ≡ call_opcode call.now }
{
    match call {
        Call::Virtual(_) => 182,
        Call::Special(_, _) => 183,
        Call::Static(_, _) => 184,
        Call::Interface(_) => 185,
        Call::Dynamic(_, _) => 186,
    }
}

/// The count of an invokeinterface (JVMS SE 17 §6.5). It is 0 if the text is no method descriptor, or if its parameters take 255
/// slots.
fn count_byte(ty: &[u8]) -> u8
    ensures { result ≡ count_byte ty.now }
{
    match method_slots(ty) {
        Some(slots) => slots.wrapping_add(1),
        None => 0,
    }
}

/// Appends what follows the number of a call.
fn push_call_tail(out: &mut Vec<u8>, call: &Call) -> Result<(), AllocError>
    ensures { OnOk result (out.new.items ≡ out.old.items ++ call_tail call.now) }
{
    match call {
        Call::Virtual(_) => Ok(()),
        Call::Special(_, _) => Ok(()),
        Call::Static(_, _) => Ok(()),
        Call::Interface(method) => { out.extend_from_slice(&[count_byte(method.ty.as_slice()), 0]) }
        Call::Dynamic(_, _) => out.extend_from_slice(&[0, 0]),
    }
}

/// Appends the instruction of a call.
fn push_call<'a>(
    out: &mut Vec<u8>,
    constants: &Constants<'a>,
    call: &'a Call,
) -> Result<(), AllocError>
    ensures { OnOk result (out.new.items ≡ out.old.items ++ instruction_text (call_instruction constants.now call.now)) }
{
    push_naming(out, opcode(call), constants.number(constants.called(call)))?;
    push_call_tail(out, call)
}

/// The code of a method: the calls in order, and a return.
fn code_of<'a>(
    alloc: Global,
    constants: &Constants<'a>,
    calls: &'a [Call],
) -> Result<Vec<u8>, AllocError>
    ensures { IfOk result (λ code. code.items ≡ code_bytes (instructions constants.now calls.now)) }
{
    let mut code = Vec::new(alloc);
    for call in calls {
        push_call(&mut code, constants, call)?;
    }
    code.push(0xb1)?;
    Ok(code)
}

/// What a Code attribute holds: no stack, no locals, the code, no exceptions, no attributes.
fn code_info(alloc: Global, code: &[u8]) -> Result<Vec<u8>, AllocError>
    ensures { IfOk result (λ info. info.items ≡ code_info code.now) }
{
    let mut info = Vec::new(alloc);
    info.extend_from_slice(&[0, 0, 0, 0])?;
    push_u4(&mut info, code.len())?;
    info.extend_from_slice(code)?;
    info.extend_from_slice(&[0, 0, 0, 0])?;
    Ok(info)
}

// ---- members and attributes

/// Appends an attribute.
fn push_attribute(out: &mut Vec<u8>, name: usize, info: &[u8]) -> Result<(), AllocError>
    ensures { OnOk result (out.new.items ≡ out.old.items ++ (u2 name ++ (u4 (length info.now) ++ info.now))) }
{
    push_u2(out, name)?;
    push_u4(out, info.len())?;
    out.extend_from_slice(info)
}

/// Appends the Code attribute of the calls.
fn push_code<'a>(
    alloc: Global,
    out: &mut Vec<u8>,
    constants: &Constants<'a>,
    calls: &'a [Call],
) -> Result<(), AllocError>
    ensures { OnOk result (out.new.items ≡ out.old.items ++ attribute_text (code_attribute constants.now calls.now)) }
{
    let code = code_of(alloc, constants, calls)?;
    let info = code_info(alloc, &code)?;
    push_attribute(out, constants.number(NewConstant::Utf8(CODE)), &info)
}

/// Appends the count of a method's attributes, and then the attributes.
fn push_attributes<'a>(
    alloc: Global,
    out: &mut Vec<u8>,
    constants: &Constants<'a>,
    method: &'a SketchMethod,
) -> Result<(), AllocError>
    ensures { OnOk result (out.new.items ≡ out.old.items ++ counted attribute_text (method_attributes constants.now method.now)) }
{
    if !has_code(method.flags) {
        return push_u2(out, 0);
    }
    push_u2(out, 1)?;
    push_code(alloc, out, constants, method.calls.as_slice())
}

/// Appends a method.
fn push_method<'a>(
    alloc: Global,
    out: &mut Vec<u8>,
    constants: &Constants<'a>,
    method: &'a SketchMethod,
) -> Result<(), AllocError>
    ensures text { OnOk result (out.new.items ≡ out.old.items ++ member_text (method_of constants.now method.now)) }
    ensures flags { method.now.flags < 2 ^ 16 }
{
    push_u2(out, usize::from(method.flags))?;
    push_u2(
        out,
        constants.number(NewConstant::Utf8(method.name.as_slice())),
    )?;
    push_u2(
        out,
        constants.number(NewConstant::Utf8(method.ty.as_slice())),
    )?;
    push_attributes(alloc, out, constants, method)
}

/// Appends the count of the methods, and then the methods.
fn push_methods<'a>(
    alloc: Global,
    out: &mut Vec<u8>,
    constants: &Constants<'a>,
    methods: &'a [SketchMethod],
) -> Result<(), AllocError>
    ensures text { OnOk result (out.new.items ≡ out.old.items ++ counted member_text (map (method_of constants.now) methods.now)) }
    ensures flags { OnOk result (AllByRecursion (λ m. m.flags < 2 ^ 16) methods.now) }
{
    push_u2(out, methods.len())?;
    for method in methods {
        push_method(alloc, out, constants, method)?;
    }
    Ok(())
}

/// Appends the count of the classes, and then their numbers.
fn push_classes<'a>(
    out: &mut Vec<u8>,
    constants: &Constants<'a>,
    names: &'a [Name],
) -> Result<(), AllocError>
    ensures { OnOk result (out.new.items ≡ out.old.items ++ counted u2 (map (class_number constants.now) names.now)) }
{
    push_u2(out, names.len())?;
    for name in names {
        push_u2(out, constants.number(constants.class(name)))?;
    }
    Ok(())
}

/// Appends the NestHost attribute, if there is a host.
fn push_host<'a>(
    alloc: Global,
    out: &mut Vec<u8>,
    constants: &Constants<'a>,
    host: &'a Option<Name>,
) -> Result<(), AllocError>
    ensures { OnOk result (out.new.items ≡ out.old.items ++ flat_map attribute_text (host_attributes constants.now host.now)) }
{
    let Some(host) = host else {
        return Ok(());
    };
    let mut info = Vec::new(alloc);
    push_u2(&mut info, constants.number(constants.class(host)))?;
    push_attribute(out, constants.number(NewConstant::Utf8(NEST_HOST)), &info)
}

/// Appends the NestMembers attribute, if there are members.
fn push_members<'a>(
    alloc: Global,
    out: &mut Vec<u8>,
    constants: &Constants<'a>,
    members: &'a [Name],
) -> Result<(), AllocError>
    ensures { OnOk result (out.new.items ≡ out.old.items ++ flat_map attribute_text (member_attributes constants.now members.now)) }
{
    if members.is_empty() {
        return Ok(());
    }
    let mut info = Vec::new(alloc);
    push_classes(&mut info, constants, members)?;
    push_attribute(
        out,
        constants.number(NewConstant::Utf8(NEST_MEMBERS)),
        &info,
    )
}

/// Appends the count of the class's attributes, and then the attributes.
fn push_class_attributes<'a>(
    alloc: Global,
    out: &mut Vec<u8>,
    constants: &Constants<'a>,
    sketch: &'a Sketch,
) -> Result<(), AllocError>
    ensures { OnOk result (out.new.items ≡ out.old.items
        ++ counted attribute_text (host_attributes constants.now sketch.now.host ++ member_attributes constants.now sketch.now.members)) }
{
    let members = sketch.members.as_slice();
    push_u2(
        out,
        usize::from(sketch.host.is_some()) + usize::from(!members.is_empty()),
    )?;
    push_host(alloc, out, constants, &sketch.host)?;
    push_members(alloc, out, constants, members)
}

// ---- the file

/// Appends the number of the superclass, or 0 if there is none.
fn push_superclass<'a>(
    out: &mut Vec<u8>,
    constants: &Constants<'a>,
    superclass: &'a Option<Name>,
) -> Result<(), AllocError>
    ensures { OnOk result (out.new.items ≡ out.old.items ++ u2 (option_map_or (class_number constants.now) superclass.now 0)) }
{
    match superclass {
        Some(name) => push_u2(out, constants.number(constants.class(name))),
        None => push_u2(out, 0),
    }
}

/// Appends what follows the pool.
fn push_body<'a>(
    alloc: Global,
    out: &mut Vec<u8>,
    constants: &Constants<'a>,
    sketch: &'a Sketch,
) -> Result<(), AllocError>
    ensures text { OnOk result (out.new.items ≡ out.old.items ++ body_text (body_of constants.now sketch.now)) }
    ensures flags { OnOk result (AreFlags sketch.now) }
{
    push_u2(out, usize::from(sketch.flags))?;
    push_u2(out, constants.number(constants.class(&sketch.name)))?;
    push_superclass(out, constants, &sketch.superclass)?;
    push_classes(out, constants, sketch.interfaces.as_slice())?;
    push_u2(out, 0)?;
    push_methods(alloc, out, constants, sketch.methods.as_slice())?;
    push_class_attributes(alloc, out, constants, sketch)
}

/// The bytes of a sketch over its constants.
fn file_of<'a>(
    alloc: Global,
    constants: &Constants<'a>,
    sketch: &'a Sketch,
) -> Result<Vec<u8>, AllocError>
    requires { length constants.now ≤ 65534 }
    ensures text { IfOk result (λ bytes. bytes.items ≡ file_text (layout_over constants.now sketch.now)) }
    ensures flags { OnOk result (AreFlags sketch.now) }
{
    let mut bytes = Vec::new(alloc);
    bytes.extend_from_slice(&[0xca, 0xfe, 0xba, 0xbe, 0, 0, 0, 61])?;
    push_pool(&mut bytes, constants)?;
    push_body(alloc, &mut bytes, constants, sketch)?;
    Ok(bytes)
}

/// The bytes that the sketch is written as, unless a fault comes before.
fn bytes_of(alloc: Global, sketch: &Sketch) -> Result<Vec<u8>, SketchFault>
    ensures ok { IfOk result (λ bytes. IsSpelled sketch.now bytes.items) }
    ensures flags { OnOk result (AreFlags sketch.now) }
    ensures fault { IfErr result (IsSketchFault sketch.now) }
{
    if is_long_sketch(sketch) {
        return Err(SketchFault::TooBig);
    }
    let constants = Constants::of(alloc, sketch)?;
    if constants.len() > MOST_CONSTANTS {
        return Err(SketchFault::TooBig);
    }
    if let Some(index) = first_without_code(sketch.methods.as_slice()) {
        return Err(SketchFault::CallsWithoutCode(index as u16));
    }
    Ok(file_of(alloc, &constants, sketch)?)
}

/// The fault of a sketch whose bytes have this fault.
fn refused(fault: ClassFault) -> SketchFault
    ensures { result ≡ fault_of_class fault }
{
    match fault {
        ClassFault::Memory => SketchFault::Memory,
        fault => SketchFault::Refused(fault),
    }
}

/// The class file of the sketch (JVMS SE 17 §4), of version 61.0. Read again it shows what the sketch says.
///
/// # Errors
///
/// `Memory`, or the first of `TooBig`, `CallsWithoutCode` and `Refused` that holds. `Refused` tells the fault that `read_class`
/// gives of the bytes.
pub fn write_class(alloc: Global, sketch: &Sketch) -> Result<Vec<u8>, SketchFault>
    ensures ok { IfOk result (λ bytes. IsWritten sketch.now bytes.items) }
    ensures shown { IfOk result (λ bytes. (p : Parts) × IsClass bytes.items p × (shown p ≡ class_of sketch.now)) }
    ensures fault { IfErr result (IsSketchFault sketch.now) }
{
    let bytes = bytes_of(alloc, sketch)?;
    match read_class(alloc, &bytes) {
        Ok(_) => Ok(bytes),
        Err(fault) => Err(refused(fault)),
    }
}
