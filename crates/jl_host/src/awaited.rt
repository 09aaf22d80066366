//! The class for which a site waits.

ghost use Rattle.std.specs.Prelude.{◌≡◌, option_copied};
ghost use Rattle.jl_types.specs.Linkage.Resolution as resolution;
ghost use Rattle.jl_host.specs.Awaiting as awaiting;

use jl_class::Operand;
use jl_hierarchy::Classes;
use jl_names::LentName;
use jl_pool::Reference;
use jl_relink::{World, invocation_at};
use jl_resolve::{found_in, named_class, resolve_reference};
use jl_types::{ClassId, Missing, ResolveAnswer, SiteNo};

/// The name of the class for which the site waits, if it waits for one. Takes no memory.
pub(crate) fn awaited(world: &World, site: SiteNo) -> Option<&[u8]>
    ensures { option_copied result ≡ awaiting.awaited site world.now }
{
    let place = world.places.get_index(site.number() as usize)?;
    if !world.classes.is_present(place.class) {
        return None;
    }
    let invocation = invocation_at(&world.classes, place)?;
    awaited_by(&world.classes, place.class, invocation.operand())
}

/// The name of the class for which an invocation in the caller's class waits that names this, if it waits for one.
fn awaited_by<'a>(
    classes: &'a Classes,
    caller: ClassId,
    operand: &Operand<LentName<'a>>,
) -> Option<&'a [u8]>
    ensures { option_copied result ≡ awaiting.awaited_by classes.now caller operand.now }
{
    match operand {
        Operand::Method(reference) => awaited_by_reference(classes, caller, reference),
        Operand::CallSite(_) => None,
    }
}

/// The name of the class for which this reference in the caller's class waits, if it waits for one.
fn awaited_by_reference<'a>(
    classes: &'a Classes,
    caller: ClassId,
    reference: &Reference<LentName<'a>>,
) -> Option<&'a [u8]>
    ensures { option_copied result ≡ awaiting.awaited_by_answer classes.now caller reference.now (resolution.resolved classes.now caller reference.now) }
{
    match resolve_reference(classes, caller, reference) {
        Err(ResolveAnswer::NotReady(missing)) => {
            missing_named(classes, caller, reference, missing)
        }
        _ => None,
    }
}

/// The name of the class that is missing.
fn missing_named<'a>(
    classes: &'a Classes,
    caller: ClassId,
    reference: &Reference<LentName<'a>>,
    missing: Missing,
) -> Option<&'a [u8]>
    ensures { option_copied result ≡ awaiting.missing_named classes.now caller reference.now missing }
{
    match missing {
        Missing::Named => Some(reference.owner.as_slice()),
        Missing::CallerHost => nest_host_named(classes, caller),
        Missing::MethodHost => method_host_named(classes, caller, reference),
    }
}

/// The nest host that the class's file names.
fn nest_host_named(classes: &Classes, class: ClassId) -> Option<&[u8]>
    ensures { option_copied result ≡ awaiting.nest_host_named classes.now class }
{
    Some(classes.class_at(class)?.file().nest_host()?.as_slice())
}

/// The nest host that the file names of the class whose method the reference finds.
fn method_host_named<'a>(
    classes: &'a Classes,
    caller: ClassId,
    reference: &Reference<LentName<'_>>,
) -> Option<&'a [u8]>
    ensures { option_copied result ≡ awaiting.method_host_named classes.now caller reference.now }
{
    let named = named_class(classes, caller, reference)?;
    let name = reference.name.as_slice();
    let ty = reference.ty.as_slice();
    let method = found_in(classes, named, reference.itf, name, ty)?;
    nest_host_named(classes, method.class)
}
