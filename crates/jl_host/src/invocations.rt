//! Invocations of a method, as numbers.

ghost use Rattle.std.specs.Prelude.{◌≡◌, ◌≤◌, ◌++◌, map, drop, length};
ghost use Rattle.jl_host.specs.Asking as asking;
ghost use Rattle.jl_host.specs.Asking.{invocation_shown};
ghost use Rattle.jl_host.specs.Copies.{IsCopied};

use crate::told::{DONE, TOO_SHORT};
use jl_class::{Kind, Site, Sites};

/// An invocation in a method's code.
#[repr(C)]
#[derive(Clone, Copy, Debug, PartialEq, Eq)]
pub struct Invocation {
    /// Its place, in bytes from the code's start (JVMS SE 17 §4.9.1).
    pub pc: u32,
    /// Which instruction it is (§6.5): 182 invokevirtual, 183 invokespecial, 184 invokestatic, 185 invokeinterface, 186 invokedynamic.
    pub opcode: u32,
}

/// The opcode of the instruction.
fn opcode(kind: Kind) -> u32
    ensures { result ≡ asking.opcode kind }
{
    match kind {
        Kind::Virtual => 182,
        Kind::Special => 183,
        Kind::Static => 184,
        Kind::Interface => 185,
        Kind::Dynamic => 186,
    }
}

/// An invocation as numbers.
fn shown(site: &Site<'_>) -> Invocation
    ensures { result ≡ invocation_shown site.now }
{
    Invocation {
        pc: u32::from(site.pc()),
        opcode: opcode(site.kind()),
    }
}

/// Copies the invocations to the front of the array, if they fit there, and tells how many there are.
pub(crate) fn copy_invocations(sites: &Sites<'_>, out: &mut [Invocation], count: &mut usize) -> u32
    ensures { IsCopied (map invocation_shown sites.now) out.old result out.new count.new }
{
    *count = sites.len();
    if sites.len() > out.len() {
        return TOO_SHORT;
    }
    write_invocations(sites, out);
    DONE
}

/// Writes the invocations to the front of the array, which has room for them.
fn write_invocations(sites: &Sites<'_>, out: &mut [Invocation])
    requires { length sites.now ≤ length out.old }
    ensures { out.new ≡ map invocation_shown sites.now ++ drop (length sites.now) out.old }
{
    let _count = sites.len();
    let mut place = 0;
    while let Some(site) = sites.at(place) {
        out[place] = shown(&site);
        place += 1;
    }
}
