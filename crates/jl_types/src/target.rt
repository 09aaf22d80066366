//! What call sites run.

ghost use Rattle.std.specs.Prelude.{◌≡◌};
ghost use Rattle.jl_types.specs.Values.Target as target;

use crate::call_site_id::CallSiteId;
use crate::ids::MethodId;
use crate::switch_id::SwitchId;
use std::marker::Model;

/// The kinds of call sites (java.lang.invoke). A mutable and a volatile one act alike here: a new target is seen by the
/// next event.
#[derive(Clone, Copy, Debug, PartialEq, Eq)]
pub enum CallSiteKind {
    Constant,
    Mutable,
    Volatile,
}

/// What a call site runs. A clause sees the tree, without where its parts lie in memory.
#[cycle(target)]
#[derive(Debug, Drop)]
pub struct Target {
    pub part: Part,
}

/// The part of a target at its top.
#[cycle(target)]
#[derive(Debug, Drop)]
pub enum Part {
    /// A static method.
    Method(MethodId),
    /// The first while the switch point is valid, and then the second (java.lang.invoke.SwitchPoint.guardWithTest).
    Guard(SwitchId, Box<Target>, Box<Target>),
    /// Whatever the call site runs (java.lang.invoke.CallSite.dynamicInvoker).
    Invoker(CallSiteId),
}

impl Model for Target {
    ghost use Rattle.jl_types.specs.Values.Target.{Target, depth};
    ghost use Rattle.jl_types.specs.ForProofs.TargetCode.{target_code};

    ghost Value = { Target };

    ghost coded = { target_code };

    ghost use Rattle.jl_types.specs.ForProofs.Whole.{whole};

    ghost view = { λ t. whole t.part };

    ghost size = { depth };

    ghost use Rattle.jl_types.specs.ForProofs.WholeFalls.{part_le_depth};

    ghost size_decreases = { λ t h. part_le_depth t.part };
}

impl Target {
    /// The target that is this method.
    pub fn method(method: MethodId) -> Target
        ensures { result ≡ target.Method method }
    {
        Target {
            part: Part::Method(method),
        }
    }

    /// The guard of two targets.
    pub fn guard(point: SwitchId, first: Box<Target>, fallback: Box<Target>) -> Target
        ensures { result ≡ target.Guard point first.value fallback.value }
    {
        Target {
            part: Part::Guard(point, first, fallback),
        }
    }

    /// The target that runs whatever the call site runs (CallSite.dynamicInvoker).
    pub fn invoker(site: CallSiteId) -> Target
        ensures { result ≡ target.Invoker site }
    {
        Target {
            part: Part::Invoker(site),
        }
    }
}
