//! The results of resolution, of selection and of a call.

ghost use Rattle.std.specs.Prelude.{◌≡◌, ◌≢◌, MatchBool};

use crate::class_id::ClassId;
use crate::ids::MethodId;

/// What an invocation throws (JVMS SE 17 §5.4.3.3, §5.4.3.4, §6.5), by the names of java.lang.
#[derive(Clone, Copy, Debug, PartialEq, Eq)]
pub enum Throwable {
    NoSuchMethodError,
    IllegalAccessError,
    IncompatibleClassChangeError,
    AbstractMethodError,
    NullPointerException,
}

/// What an invocation does once its receiver is known.
#[derive(Clone, Copy, Debug, PartialEq, Eq)]
pub enum Outcome {
    /// This method runs.
    Run(MethodId),
    /// This is thrown.
    Throws(Throwable),
}

/// What an invocation is made on.
#[derive(Clone, Copy, Debug, PartialEq, Eq)]
pub enum Recv {
    /// The null reference.
    Null,
    /// An object of this class.
    Of(ClassId),
}

/// Whose class isn't there yet.
#[derive(Clone, Copy, Debug, PartialEq, Eq)]
pub enum Missing {
    /// The class that the instruction names.
    Named,
    /// The nest host of the caller's class.
    CallerHost,
    /// The nest host of the class that declares the method.
    MethodHost,
}

/// Why a site has no link.
#[derive(Clone, Copy, Debug, PartialEq, Eq)]
pub enum Unlinked {
    /// A class that linking needs isn't there yet.
    NotReady(Missing),
    /// An invokedynamic to which no call site is bound.
    Unbound,
    /// The site's class is retired, or the call site to which it is bound is released.
    Gone,
    /// No place was requested under this number.
    NoSite,
}

/// The answer to a call.
#[derive(Clone, Copy, Debug, PartialEq, Eq)]
pub enum Answer {
    /// This method runs.
    Run(MethodId),
    /// This is thrown.
    Throws(Throwable),
    /// No object can be such a receiver here. Its class is absent, an interface or abstract; or, at invokevirtual, it isn't
    /// the class that the instruction names or a subclass of that.
    BadReceiver,
    /// The site can't be linked now.
    Unlinked(Unlinked),
}

/// The answer to a call that is given at once, without a look at the classes.
#[derive(Clone, Copy, Debug, PartialEq, Eq)]
pub enum Fast {
    /// This answer.
    Now(Answer),
    /// None: a look at the classes is needed.
    Miss,
    /// None, now and later: links are no longer published to the caller.
    Closed,
}

/// Whether two answers are equal, which they are by value.
pub fn same_answer(a: Answer, b: Answer) -> bool
    ensures { MatchBool result (a ≡ b) (a ≢ b) }
{
    a == b
}

/// Why a method isn't resolved (JVMS SE 17 §5.4.3.3, §5.4.3.4).
#[derive(Clone, Copy, Debug, PartialEq, Eq)]
pub enum ResolveAnswer {
    /// A class that resolution needs isn't there yet.
    NotReady(Missing),
    /// Resolution fails with this.
    Fault(Throwable),
}

/// What selection picks (JVMS SE 17 §5.4.6).
#[derive(Clone, Copy, Debug, PartialEq, Eq)]
pub enum Chosen {
    /// This method, which may be abstract.
    Method(MethodId),
    /// None, since two or more maximally-specific superinterface methods aren't abstract.
    Several,
    /// None, since there is none.
    Nothing,
}

/// The answer to a call with this outcome.
impl From<Outcome> for Answer {
    ghost use Rattle.jl_types.specs.Linkage.Calls.{answered};

    ghost from_gives = { λ outcome answer. answer ≡ answered outcome };

    fn from(outcome: Outcome) -> Answer {
        match outcome {
            Outcome::Run(method) => Answer::Run(method),
            Outcome::Throws(throwable) => Answer::Throws(throwable),
        }
    }
}
