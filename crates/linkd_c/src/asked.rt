//! What C asks of a linker's classes and methods, and of the names that it awaits.

ghost use Rattle.std.specs.Prelude.{Option};
ghost use types.Logic.{sem};
ghost use Rattle.jl_host.specs.Linkers.{Opened};
ghost use Rattle.jl_host.specs.Asking.{IsLookup, IsClassName, IsMethodName, IsMethodType, IsInvocations, IsRefusedName, IsAwaited};
ghost use Rattle.linkd_c.specs.Handle.{linker_at, linker_left};

use crate::handles::Linkd;
use jl_host::{Invocation, Linker};

/// The class that the loader finds under the name. Takes no memory.
#[unsafe(no_mangle)]
pub unsafe extern "C" fn linkd_lookup(
    at: *mut Linkd,
    loader: u32,
    name: &[u8],
    class_number: &mut u32,
) -> u32
    ghost old: { Option Opened }
    requires* { sem 𝓛 (linker_at at old) }
    ensures* { sem 𝓛 (linker_left at (λ new. IsLookup loader name.now old class_number.old result class_number.new new)) }
{
    (*(at as *mut Linker)).lookup(loader, name, class_number)
}

/// Copies the name of a class. Takes no memory.
#[unsafe(no_mangle)]
pub unsafe extern "C" fn linkd_class_name(
    at: *mut Linkd,
    class_number: u32,
    out: &mut [u8],
    length: &mut usize,
) -> u32
    ghost old: { Option Opened }
    requires* { sem 𝓛 (linker_at at old) }
    ensures* { sem 𝓛 (linker_left at (λ new. IsClassName class_number old out.old length.old result out.new length.new new)) }
{
    (*(at as *mut Linker)).class_name(class_number, out, length)
}

/// Copies the name of a method. Takes no memory.
#[unsafe(no_mangle)]
pub unsafe extern "C" fn linkd_method_name(
    at: *mut Linkd,
    class_number: u32,
    method: u32,
    out: &mut [u8],
    length: &mut usize,
) -> u32
    ghost old: { Option Opened }
    requires* { sem 𝓛 (linker_at at old) }
    ensures* { sem 𝓛 (linker_left at (λ new. IsMethodName class_number method old out.old length.old result out.new length.new new)) }
{
    (*(at as *mut Linker)).method_name(class_number, method, out, length)
}

/// Copies the descriptor of a method. Takes no memory.
#[unsafe(no_mangle)]
pub unsafe extern "C" fn linkd_method_type(
    at: *mut Linkd,
    class_number: u32,
    method: u32,
    out: &mut [u8],
    length: &mut usize,
) -> u32
    ghost old: { Option Opened }
    requires* { sem 𝓛 (linker_at at old) }
    ensures* { sem 𝓛 (linker_left at (λ new. IsMethodType class_number method old out.old length.old result out.new length.new new)) }
{
    (*(at as *mut Linker)).method_type(class_number, method, out, length)
}

/// Copies the invocations in a method's code. Takes no memory.
#[unsafe(no_mangle)]
pub unsafe extern "C" fn linkd_invocations(
    at: *mut Linkd,
    class_number: u32,
    method: u32,
    out: &mut [Invocation],
    length: &mut usize,
) -> u32
    ghost old: { Option Opened }
    requires* { sem 𝓛 (linker_at at old) }
    ensures* { sem 𝓛 (linker_left at (λ new. IsInvocations class_number method old out.old length.old result out.new length.new new)) }
{
    (*(at as *mut Linker)).invocations(class_number, method, out, length)
}

/// Copies the name of the class that the refusal of the last event told of. Takes no memory.
#[unsafe(no_mangle)]
pub unsafe extern "C" fn linkd_refused_name(
    at: *mut Linkd,
    out: &mut [u8],
    length: &mut usize,
) -> u32
    ghost old: { Option Opened }
    requires* { sem 𝓛 (linker_at at old) }
    ensures* { sem 𝓛 (linker_left at (λ new. IsRefusedName old out.old length.old result out.new length.new new)) }
{
    (*(at as *mut Linker)).refused_name(out, length)
}

/// Copies the name of the class for which a site waits. Takes no memory.
#[unsafe(no_mangle)]
pub unsafe extern "C" fn linkd_awaited(
    at: *mut Linkd,
    site: u32,
    out: &mut [u8],
    length: &mut usize,
) -> u32
    ghost old: { Option Opened }
    requires* { sem 𝓛 (linker_at at old) }
    ensures* { sem 𝓛 (linker_left at (λ new. IsAwaited site old out.old length.old result out.new length.new new)) }
{
    (*(at as *mut Linker)).awaited(site, out, length)
}
