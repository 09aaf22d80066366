//! What C asks of calls that no code makes and of bytes that aren't defined yet, and links in one call.

ghost use Rattle.std.specs.Prelude.{Option};
ghost use types.Logic.{sem};
ghost use Rattle.jl_host.specs.Linkers.{Opened, IsCheckUpTo};
ghost use Rattle.jl_host.specs.Calling.{IsSelect, IsResolve, IsClassAccessible};
ghost use Rattle.jl_host.specs.Linking.{IsLink, IsInstallReady};
ghost use Rattle.linkd_c.specs.Handle.{linker_at, linker_left};

use crate::handles::Linkd;
use jl_host::{CallAnswer, LinkShown, Linker, ResolutionShown, Told};
use std::alloc::Global;

/// The answer to a call of the method on the receiver, as reflection, method handles and native code make it (JVMS SE 17 §5.4.6). Takes no
/// memory.
#[unsafe(no_mangle)]
pub unsafe extern "C" fn linkd_select(
    at: *mut Linkd,
    class_number: u32,
    method: u32,
    receiver: u32,
    answer: &mut CallAnswer,
) -> u32
    ghost old: { Option Opened }
    requires* { sem 𝓛 (linker_at at old) }
    ensures* { sem 𝓛 (linker_left at (λ new. IsSelect class_number method receiver old answer.old result answer.new new)) }
{
    (*(at as *mut Linker)).select(class_number, method, receiver, answer)
}

/// What a reference to the method of this name and descriptor in the class `named` resolves to for the class `from` (JVMS SE 17 §5.4.3.3,
/// §5.4.3.4, §5.4.4). Takes no memory.
#[unsafe(no_mangle)]
pub unsafe extern "C" fn linkd_resolve(
    at: *mut Linkd,
    from: u32,
    named: u32,
    name: &[u8],
    ty: &[u8],
    resolution: &mut ResolutionShown,
) -> u32
    ghost old: { Option Opened }
    requires* { sem 𝓛 (linker_at at old) }
    ensures* { sem 𝓛 (linker_left at (λ new. IsResolve from named name.now ty.now old resolution.old result resolution.new new)) }
{
    (*(at as *mut Linker)).resolve(from, named, name, ty, resolution)
}

/// Whether the class is accessible to the class `from` (JVMS SE 17 §5.4.4). Takes no memory.
#[unsafe(no_mangle)]
pub unsafe extern "C" fn linkd_class_accessible(
    at: *mut Linkd,
    from: u32,
    class_number: u32,
    accessible: &mut u32,
) -> u32
    ghost old: { Option Opened }
    requires* { sem 𝓛 (linker_at at old) }
    ensures* { sem 𝓛 (linker_left at (λ new. IsClassAccessible from class_number old accessible.old result accessible.new new)) }
{
    (*(at as *mut Linker)).class_accessible(from, class_number, accessible)
}

/// Whether the bytes are a class file (JVMS SE 17 §4) whose major version is at most `newest`. Nothing is defined.
#[unsafe(no_mangle)]
pub unsafe extern "C" fn linkd_check(
    alloc: Global,
    at: *mut Linkd,
    newest: u16,
    bytes: &[u8],
    told: &mut Told,
) -> u32
    ghost old: { Option Opened }
    requires* { sem 𝓛 (linker_at at old) }
    ensures* { sem 𝓛 (linker_left at (λ new. IsCheckUpTo newest bytes.now old result told.new new)) }
{
    (*(at as *mut Linker)).check_up_to(alloc, newest, bytes, told)
}

/// The invocation at the pc of a method is requested, its link installed unless there is one, and written.
#[unsafe(no_mangle)]
pub unsafe extern "C" fn linkd_link_place(
    alloc: Global,
    at: *mut Linkd,
    class_number: u32,
    method: u32,
    pc: u32,
    link: &mut LinkShown,
    told: &mut Told,
) -> u32
    ghost old: { Option Opened }
    requires* { sem 𝓛 (linker_at at old) }
    ensures* { sem 𝓛 (linker_left at (λ new. IsLink class_number method pc old link.old result told.new link.new new)) }
{
    (*(at as *mut Linker)).link(alloc, class_number, method, pc, link, told)
}

/// The links of those of the sites that have one now are installed, and what each of the sites has then is written.
#[unsafe(no_mangle)]
pub unsafe extern "C" fn linkd_install_ready(
    alloc: Global,
    at: *mut Linkd,
    sites: &[u32],
    links: &mut [LinkShown],
    told: &mut Told,
) -> u32
    ghost old: { Option Opened }
    requires* { sem 𝓛 (linker_at at old) }
    ensures* { sem 𝓛 (linker_left at (λ new. IsInstallReady sites.now old links.old result told.new links.new new)) }
{
    (*(at as *mut Linker)).install_ready(alloc, sites, links, told)
}
