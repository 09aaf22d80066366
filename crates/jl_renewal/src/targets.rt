//! The targets of call sites under new numbers.

ghost use Rattle.std.specs.Prelude.{◌≡◌, IfOk};
ghost use Rattle.jl_renewal.specs.Numbers.{renumbered, renumbered_target};

use crate::numbers::Renumbering;
use jl_types::{CallSiteId, ClassId, MethodId, Part, SwitchId, Target};
use std::alloc::{AllocError, Global};

/// The target under new numbers, 0 for what goes. It goes as deep as the target, and no call site has one that
/// is deeper than 64.
pub(crate) fn renumbered_target(
    alloc: Global,
    numbers: &Renumbering,
    target: &Target,
) -> Result<Target, AllocError>
    ensures { IfOk result (λ renumbered. renumbered ≡ renumbered_target numbers.now target.now) }
{
    match &target.part {
        Part::Method(method) => Ok(Target::method(renumbered_method(numbers, method))),
        Part::Guard(point, first, fallback) => {
            let first = Box::new(alloc, renumbered_target(alloc, numbers, first)?)?;
            let fallback = Box::new(alloc, renumbered_target(alloc, numbers, fallback)?)?;
            let point = numbers.switch(*point).unwrap_or(SwitchId::new(0));
            Ok(Target::guard(point, first, fallback))
        }
        Part::Invoker(site) => Ok(Target::invoker(
            numbers.call_site(*site).unwrap_or(CallSiteId::new(0)),
        )),
    }
}

/// The method under its class's new number, 0 if that goes.
pub(crate) fn renumbered_method(numbers: &Renumbering, method: &MethodId) -> MethodId
    ensures { result ≡ record method.now { class = renumbered numbers.now.classes method.now.class } }
{
    MethodId {
        class: renumbered_class(numbers, method.class),
        index: method.index,
    }
}

/// The class's new number, 0 if it goes.
pub(crate) fn renumbered_class(numbers: &Renumbering, class: ClassId) -> ClassId
    ensures { result ≡ renumbered numbers.now.classes class }
{
    numbers.class(class).unwrap_or(ClassId::new(0))
}
