//! Why an event is refused.

ghost use Rattle.std.specs.Prelude.{◌≡◌};
ghost use Rattle.jl_types.specs.declared.refusal.OrMemory.TheVariants as or_memory;
ghost use Rattle.jl_types.specs.declared.refusal.Refusal.TheVariants as refusal;

use crate::call_site_id::CallSiteId;
use crate::class_id::ClassId;
use crate::link::Link;
use crate::loader_id::LoaderId;
use crate::site_no::SiteNo;
use crate::switch_id::SwitchId;
use jl_names::Name;
use std::alloc::{AllocError, AllocFailed};
use std::fmt::Display;
use thiserror::Error;

/// Why a class isn't defined (JVMS SE 17 §5.3.5).
#[derive(Debug, Drop, Error)]
pub enum DefineFault {
    /// There is no such loader, or it is retired.
    #[error("Define.UnknownLoader")]
    UnknownLoader,
    /// The loader has recorded a class under this name.
    #[error("Define.AlreadyRecorded")]
    AlreadyRecorded,
    /// The class is its own superclass or superinterface (ClassCircularityError).
    #[error("Define.NamesItself")]
    NamesItself,
    /// The loader has recorded no class under the name of the superclass or of this superinterface.
    #[error("Define.MissingParent")]
    MissingParent(Name),
    /// The superclass is an interface.
    #[error("Define.SuperIsInterface")]
    SuperIsInterface,
    /// The superclass is final.
    #[error("Define.FinalSuper")]
    FinalSuper,
    /// This superinterface is no interface.
    #[error("Define.NotAnInterface")]
    NotAnInterface(Name),
    /// The superclass or this superinterface isn't accessible to the class (§5.4.4).
    #[error("Define.InaccessibleParent")]
    InaccessibleParent(Name),
    /// java/lang/Object, in a loader other than 0.
    #[error("Define.SecondObject")]
    SecondObject,
    /// There are as many classes as there may be.
    #[error("Define.Full")]
    Full,
}

/// Why a loader doesn't record a class of another one.
#[derive(Clone, Copy, Debug, PartialEq, Eq, Error)]
pub enum DelegateFault {
    /// One of the two loaders was never made, or is retired.
    #[error("Delegate.UnknownLoader")]
    UnknownLoader,
    /// The other loader has recorded no class under the name.
    #[error("Delegate.NotRecorded")]
    NotRecorded,
    /// The loader has recorded a class under the name, which may be the same one.
    #[error("Delegate.AlreadyRecorded")]
    AlreadyRecorded,
}

/// Why a loader isn't retired.
#[derive(Clone, Copy, Debug, PartialEq, Eq, Error)]
pub enum RetireFault {
    /// There is no such loader, or it is retired.
    #[error("Retire.UnknownLoader")]
    UnknownLoader,
    /// Loader 0 stays.
    #[error("Retire.FirstLoader")]
    FirstLoader,
    /// This class of a loader that stays has an ancestor in it.
    #[error("Retire.Inherited")]
    Inherited(ClassId),
    /// This loader, which stays, records a class of it.
    #[error("Retire.Recorded")]
    Recorded(LoaderId),
    /// The target of this call site names a method of one of its classes.
    #[error("Retire.Targeted")]
    Targeted(CallSiteId),
}

/// Why call sites and switch points aren't let go.
#[derive(Clone, Copy, Debug, PartialEq, Eq, Error)]
pub enum ReleaseFault {
    /// This call site was never made, or is released. It is the first such one of the list.
    #[error("Release.UnknownCallSite")]
    UnknownCallSite(CallSiteId),
    /// This switch point was never made, or is released. It is the first such one of the list.
    #[error("Release.UnknownSwitch")]
    UnknownSwitch(SwitchId),
    /// This call site stays, and its target invokes one of those that go, even if only on a side that isn't taken. It is the least such
    /// call site.
    #[error("Release.Invoked")]
    Invoked(CallSiteId),
    /// This call site stays, and its target guards by one of the switch points that go, even if only on a side that isn't taken. It is
    /// the least such call site.
    #[error("Release.Guarded")]
    Guarded(CallSiteId),
}

/// Why a call site or a switch point isn't made or changed (java.lang.invoke).
#[derive(Clone, Copy, Debug, PartialEq, Eq, Error)]
pub enum CallSiteFault {
    /// There is no such call site, or it is released.
    #[error("CallSite.UnknownCallSite")]
    UnknownCallSite,
    /// A constant call site keeps its target (UnsupportedOperationException).
    #[error("CallSite.Constant")]
    Constant,
    /// A method's type isn't the call site's (WrongMethodTypeException).
    #[error("CallSite.WrongType")]
    WrongType,
    /// There is no such method, or its class is retired, or its name begins with `<`.
    #[error("CallSite.UnknownMethod")]
    UnknownMethod,
    /// The method isn't static.
    #[error("CallSite.NotStatic")]
    NotStatic,
    /// There is no such switch point, or it is released.
    #[error("CallSite.UnknownSwitch")]
    UnknownSwitch,
    /// The target is deeper than 64, or has more than 255 parts.
    #[error("CallSite.TooDeep")]
    TooDeep,
    /// There are as many of them as there may be.
    #[error("CallSite.Full")]
    Full,
    /// The target invokes this call site, which doesn't come before the one that gets the target.
    #[error("CallSite.InvokerOrder")]
    InvokerOrder(CallSiteId),
}

/// Why a change isn't made.
#[derive(Debug, Drop, Error)]
#[error_bound(F: Display)]
pub enum OrMemory<F> {
    /// This speaks against it.
    #[error("{0}")]
    Fault(F),
    /// Want of memory.
    #[error("Memory")]
    Memory,
}

/// Why an invocation is never linked here.
#[derive(Clone, Copy, Debug, PartialEq, Eq, Error)]
pub enum NotLinkable {
    /// It names a method of an array type.
    #[error("NotLinkable.ArrayReceiver")]
    ArrayReceiver,
    /// It names a method of java/lang/invoke/MethodHandle or java/lang/invoke/VarHandle.
    #[error("NotLinkable.PolymorphicSignature")]
    PolymorphicSignature,
}

/// Why an event is refused. Nothing changes then.
#[derive(Debug, Drop, Error)]
pub enum Refusal {
    /// A class isn't defined.
    #[error("{0}")]
    Define(DefineFault),
    /// There is no such class, or it is retired.
    #[error("UnknownClass")]
    UnknownClass,
    /// The class has no invocation at the place.
    #[error("NoSuchPlace")]
    NoSuchPlace,
    /// The invocation is never linked here.
    #[error("{0}")]
    NotLinkable(NotLinkable),
    /// As many places are requested as there may be.
    #[error("SitesFull")]
    SitesFull,
    /// A call site or a switch point isn't made or changed.
    #[error("{0}")]
    CallSite(CallSiteFault),
    /// The site is no invokedynamic.
    #[error("NotDynamic")]
    NotDynamic,
    /// The site is bound to this call site.
    #[error("AlreadyBound")]
    AlreadyBound(CallSiteId),
    /// The call site's type isn't the invokedynamic's descriptor.
    #[error("TypeMismatch")]
    TypeMismatch,
    /// The link isn't the one that the site has from scratch now, which is this.
    #[error("Stale")]
    Stale {
        site: SiteNo,
        present: Link,
    },
    /// The site has no link from scratch now.
    #[error("NotReady")]
    NotReady {
        site: SiteNo,
    },
    /// No place was requested under this number; or the site is to be bound, and its class is retired.
    #[error("UnknownSite")]
    UnknownSite {
        site: SiteNo,
    },
    /// The site comes twice.
    #[error("Repeated")]
    Repeated {
        site: SiteNo,
    },
    /// No rows, or more than 256.
    #[error("BatchSize")]
    BatchSize,
    /// Want of memory.
    #[error("Memory")]
    Memory,
    /// A loader doesn't record a class of another one.
    #[error("{0}")]
    Delegate(DelegateFault),
    /// There are as many loaders as there may be.
    #[error("LoadersFull")]
    LoadersFull,
    /// A loader isn't retired.
    #[error("{0}")]
    Retire(RetireFault),
    /// None of several loaders is retired, since this one can't be.
    #[error("{fault}")]
    RetireAll {
        /// The first one that can't.
        loader: LoaderId,
        /// Why it can't.
        fault: RetireFault,
    },
    /// Call sites and switch points aren't let go.
    #[error("{0}")]
    Release(ReleaseFault),
}

/// Why the sites of a batch aren't taken, whether to prepare links or to install them.
#[derive(Clone, Copy, Debug, PartialEq, Eq, Error)]
pub enum SitesFault {
    /// No place was requested under this number.
    #[error("UnknownSite")]
    Unknown(SiteNo),
    /// The site comes twice.
    #[error("Repeated")]
    Repeated(SiteNo),
}

/// Why links aren't prepared.
#[derive(Clone, Copy, Debug, PartialEq, Eq, Error)]
pub enum PrepareFault {
    /// No place was requested under this number.
    #[error("Prepare.UnknownSite")]
    UnknownSite(SiteNo),
    /// The site has no link from scratch.
    #[error("Prepare.NotReady")]
    NotReady(SiteNo),
    /// The site comes twice.
    #[error("Prepare.Repeated")]
    Repeated(SiteNo),
    /// No sites, or more than 256.
    #[error("Prepare.BatchSize")]
    BatchSize,
    /// Want of memory.
    #[error("Memory")]
    Memory,
}

impl From<SitesFault> for Refusal {
    ghost use Rattle.jl_types.specs.Events.Verdict.{of_sites};

    ghost from_gives = { λ fault r. r ≡ of_sites fault };

    fn from(fault: SitesFault) -> Refusal {
        match fault {
            SitesFault::Unknown(site) => Refusal::UnknownSite { site },
            SitesFault::Repeated(site) => Refusal::Repeated { site },
        }
    }
}

impl From<SitesFault> for PrepareFault {
    ghost use Rattle.jl_types.specs.Events.Preparation.{of_sites};

    ghost from_gives = { λ fault f. f ≡ of_sites fault };

    fn from(fault: SitesFault) -> PrepareFault {
        match fault {
            SitesFault::Unknown(site) => PrepareFault::UnknownSite(site),
            SitesFault::Repeated(site) => PrepareFault::Repeated(site),
        }
    }
}

impl<F> From<AllocError> for OrMemory<F> {
    ghost from_gives = { λ _ f. f ≡ or_memory.Memory };

    fn from(_e: AllocError) -> OrMemory<F> {
        OrMemory::Memory
    }
}

impl From<AllocError> for Refusal {
    ghost from_gives = { λ _ f. f ≡ refusal.Memory };

    fn from(_e: AllocError) -> Refusal {
        Refusal::Memory
    }
}

impl<T: Drop> From<AllocFailed<T>> for Refusal {
    ghost from_gives = { λ _ f. f ≡ refusal.Memory };

    fn from(_e: AllocFailed<T>) -> Refusal {
        Refusal::Memory
    }
}
