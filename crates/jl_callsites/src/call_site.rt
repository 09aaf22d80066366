//! A call site as it is kept.

ghost use Rattle.std.specs.Prelude.{◌≡◌, IfOk};
ghost use Rattle.jl_types.specs.Events.Verdict as events;

use crate::copy::copy_target;
use jl_names::Name;
use jl_types::{CallSiteKind, Target};
use std::alloc::{AllocError, Global};
use std::marker::Model;

/// A call site (java.lang.invoke.CallSite): its kind, its type, and what it runs.
#[derive(Debug)]
pub struct CallSite {
    kind: CallSiteKind,
    ty: Name,
    target: Target,
}

/// Written out, so that what drops one makes one call of it and doesn't take apart what it holds.
impl Drop for CallSite {
    fn drop(self) {
        let CallSite {
            kind: _kind,
            ty: _ty,
            target: _target,
        } = self;
    }
}

impl Model for CallSite {
    ghost use Rattle.jl_types.specs.Values.World.{CallSite};
    ghost use Rattle.jl_callsites.specs.ForProofs.{call_site_code};

    ghost Value = { CallSite };

    ghost coded = { call_site_code };

    ghost view = { λ c. record { kind = c.kind; ty = c.ty; target = c.target } };
}

impl CallSite {
    /// A call site of this kind and type that runs the target.
    pub(crate) fn new(kind: CallSiteKind, ty: Name, target: Target) -> Self
        ensures { result ≡ record { kind = kind; ty = ty; target = target } }
    {
        CallSite { kind, ty, target }
    }

    /// Its kind.
    pub fn kind(&self) -> CallSiteKind
        ensures { result ≡ self.now.kind }
    {
        self.kind
    }

    /// The descriptor of the methods that it may run (CallSite.type).
    pub fn ty(&self) -> &Name
        ensures { result.now ≡ self.now.ty }
    {
        &self.ty
    }

    /// What it runs (CallSite.getTarget).
    pub fn target(&self) -> &Target
        ensures { result.now ≡ self.now.target }
    {
        &self.target
    }

    /// Whether it keeps its target for good (ConstantCallSite).
    pub(crate) fn is_constant(&self) -> bool
        ensures { result ≡ events.is_constant self.now.kind }
    {
        match self.kind {
            CallSiteKind::Constant => true,
            CallSiteKind::Mutable => false,
            CallSiteKind::Volatile => false,
        }
    }

    /// It runs this target from now on.
    pub(crate) fn retarget(&mut self, target: Target)
        ensures { self.new ≡ record self.old { target = target } }
    {
        self.target = target;
    }

    /// A copy of the call site.
    pub(crate) fn copy(&self, alloc: Global) -> Result<CallSite, AllocError>
        ensures { IfOk result (λ copy. copy ≡ self.now) }
    {
        Ok(CallSite {
            kind: self.kind,
            ty: self.ty.copy(alloc)?,
            target: copy_target(alloc, &self.target)?,
        })
    }
}
