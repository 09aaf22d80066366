//! The class, its superclass and its superinterfaces: what the numbers after the pool name.

ghost use Rattle.std.specs.Prelude.{◌≡◌, All, OnOk, IfErr};
ghost use Rattle.std.specs.List.{AllByRecursion};
ghost use Rattle.jl_classfile.specs.declared.fault.ClassFault.TheVariants.{BadLink};
ghost use Rattle.jl_classfile.specs.Conditions.{is_object, is_interface, is_module, super_fits, superclass_numbers, IsClassNumber, Links};
ghost use Rattle.jl_classfile.specs.Faults.{LinksFault};
ghost use Rattle.jl_classfile.specs.ForProofs.Passes.{IsBadLink};

use crate::body::Body;
use crate::fault::ClassFault;
use jl_class::{INTERFACE, MODULE, has_flag};
use jl_pool::Pool;

const OBJECT: &[u8] = b"java/lang/Object";

/// Tests that there is a class name at a number.
fn check_class(pool: &Pool, number: u16) -> Result<(), ClassFault>
    ensures ok { OnOk result (IsClassNumber pool.now number) }
    ensures fault { IfErr result (λ f. (f ≡ BadLink number) × ¬ IsClassNumber pool.now number) }
{
    match pool.class_name(number) {
        Some(_) => Ok(()),
        None => Err(ClassFault::BadLink(number)),
    }
}

/// Tests that there is a class name at the number of a superclass, unless it is 0.
fn check_superclass(pool: &Pool, number: u16) -> Result<(), ClassFault>
    ensures ok { OnOk result (AllByRecursion (IsClassNumber pool.now) (superclass_numbers number)) }
    ensures fault { IfErr result (IsBadLink (IsClassNumber pool.now) (superclass_numbers number)) }
{
    if number == 0 {
        return Ok(());
    }
    match pool.class_name(number) {
        Some(_) => Ok(()),
        None => Err(ClassFault::BadLink(number)),
    }
}

/// Tests that there is a class name at each of the numbers.
pub fn check_classes(pool: &Pool, numbers: &[u16]) -> Result<(), ClassFault>
    ensures ok { OnOk result (All (IsClassNumber pool.now) numbers.now) }
    ensures fault { IfErr result (IsBadLink (IsClassNumber pool.now) numbers.now) }
{
    for number in numbers {
        check_class(pool, *number)?;
    }
    Ok(())
}

/// Whether java/lang/Object is the class at a number.
fn is_object(pool: &Pool, number: u16) -> bool
    ensures { result ≡ is_object pool.now number }
{
    match pool.class_name(number) {
        Some(name) => name.as_slice() == OBJECT,
        None => false,
    }
}

/// Whether it is an interface.
pub fn is_interface(body: &Body<'_>) -> bool
    ensures { result ≡ is_interface body.now }
{
    has_flag(body.flags, INTERFACE)
}

/// Whether it is the file of a module.
fn is_module(major: u16, body: &Body<'_>) -> bool
    ensures { result ≡ is_module major body.now }
{
    has_flag(body.flags, MODULE) && major >= 53
}

/// Whether the superclass may be: java/lang/Object alone has none, and is no interface; an interface's is
/// java/lang/Object.
fn super_fits(pool: &Pool, body: &Body<'_>) -> bool
    ensures { result ≡ super_fits pool.now body.now }
{
    if body.super_class == 0 {
        is_object(pool, body.this_class) && !is_interface(body)
    } else {
        !is_object(pool, body.this_class)
            && (!is_interface(body) || is_object(pool, body.super_class))
    }
}

/// Tests that it is no module's file, that each number is a class's, and the superclass (JVMS SE 17 §4.1).
pub fn check_links(major: u16, pool: &Pool, body: &Body<'_>) -> Result<(), ClassFault>
    ensures ok { OnOk result (Links major pool.now body.now) }
    ensures fault { IfErr result (LinksFault major pool.now body.now) }
{
    if is_module(major, body) {
        return Err(ClassFault::ModuleFile);
    }
    check_class(pool, body.this_class)?;
    check_superclass(pool, body.super_class)?;
    check_classes(pool, body.interfaces.as_slice())?;
    if !super_fits(pool, body) {
        return Err(ClassFault::BadSuper);
    }
    Ok(())
}
