//! What is asked of a core's classes and methods.

ghost use Rattle.std.specs.Prelude.{◌≡◌, option_copied, option_map, map};
ghost use Rattle.jl_types.specs.Values.Members.{lookup};
ghost use Rattle.jl_core.specs.State.{world_of};
ghost use Rattle.jl_host.specs.Awaiting as awaiting;
ghost use Rattle.jl_host.specs.Numbers.{unknown_class, no_such_place};
ghost use Rattle.jl_host.specs.Asking.{IsWrittenIf, IsCopiedIf, class_name, method_in, invocation_shown};

use crate::arrays::copy_text;
use crate::awaited::awaited;
use crate::invocations::{Invocation, copy_invocations};
use crate::reading::method_of;
use crate::told::{DONE, NO_SUCH_PLACE, UNKNOWN_CLASS};
use jl_class::Method;
use jl_core::Core;
use jl_names::Name;
use jl_types::{ClassId, LoaderId, SiteNo};

/// Writes the number of the class that the loader finds under the name, if it finds one. Takes no memory.
pub(crate) fn find_class(core: &Core, loader: u32, name: &[u8], class: &mut u32) -> u32
    ensures { IsWrittenIf unknown_class (lookup (world_of core.now).classes loader name.now) class.old result class.new }
{
    match core.world().classes.lookup(LoaderId::new(loader), name) {
        Some(found) => {
            *class = found.number();
            DONE
        }
        None => UNKNOWN_CLASS,
    }
}

/// Copies the name of the class, if there is one of this number. Takes no memory.
pub(crate) fn copy_class_name(core: &Core, class: u32, out: &mut [u8], count: &mut usize) -> u32
    ensures { IsCopiedIf unknown_class (class_name class (world_of core.now)) out.old count.old result out.new count.new }
{
    match core.world().classes.class_at(ClassId::new(class)) {
        Some(row) => copy_text(row.file().name().as_slice(), out, count),
        None => UNKNOWN_CLASS,
    }
}

/// Copies this name, if there is one. Takes no memory.
pub(crate) fn copy_name(name: Option<&Name>, out: &mut [u8], count: &mut usize) -> u32
    ensures { IsCopiedIf unknown_class (option_copied name.entry) out.old count.old result out.new count.new }
{
    match name {
        Some(name) => copy_text(name.as_slice(), out, count),
        None => UNKNOWN_CLASS,
    }
}

/// Copies the name of the class for which the site waits, if it waits for one. Takes no memory.
pub(crate) fn copy_awaited(core: &Core, site: u32, out: &mut [u8], count: &mut usize) -> u32
    ensures { IsCopiedIf unknown_class (awaiting.awaited site (world_of core.now)) out.old count.old result out.new count.new }
{
    match awaited(core.world(), SiteNo::new(site)) {
        Some(name) => copy_text(name, out, count),
        None => UNKNOWN_CLASS,
    }
}

/// The method at the place of the class. Takes no memory.
fn method_at<'a>(core: &'a Core, class: u32, method: u32) -> Option<Method<'a>>
    ensures { result ≡ method_in class method (world_of core.now) }
{
    let method = method_of(class, method)?;
    core.world().classes.method_at(&method)
}

/// Copies the name of the method, if there is one at this place. Takes no memory.
pub(crate) fn copy_method_name(
    core: &Core,
    class: u32,
    method: u32,
    out: &mut [u8],
    count: &mut usize,
) -> u32
    ensures { IsCopiedIf no_such_place (option_map (λ m. m.name) (method_in class method (world_of core.now))) out.old count.old result out.new count.new }
{
    match method_at(core, class, method) {
        Some(method) => copy_text(method.name().as_slice(), out, count),
        None => NO_SUCH_PLACE,
    }
}

/// Copies the descriptor of the method, if there is one at this place. Takes no memory.
pub(crate) fn copy_method_type(
    core: &Core,
    class: u32,
    method: u32,
    out: &mut [u8],
    count: &mut usize,
) -> u32
    ensures { IsCopiedIf no_such_place (option_map (λ m. m.ty) (method_in class method (world_of core.now))) out.old count.old result out.new count.new }
{
    match method_at(core, class, method) {
        Some(method) => copy_text(method.ty().as_slice(), out, count),
        None => NO_SUCH_PLACE,
    }
}

/// Copies the invocations of the method, if there is one at this place. Takes no memory.
pub(crate) fn copy_invocations_of(
    core: &Core,
    class: u32,
    method: u32,
    out: &mut [Invocation],
    count: &mut usize,
) -> u32
    ensures { IsCopiedIf no_such_place (option_map (λ m. map invocation_shown m.sites) (method_in class method (world_of core.now)))
        out.old count.old result out.new count.new }
{
    match method_at(core, class, method) {
        Some(method) => copy_invocations(&method.sites(), out, count),
        None => NO_SUCH_PLACE,
    }
}
