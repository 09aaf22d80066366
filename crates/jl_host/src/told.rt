//! What an event made, or why it was refused, as numbers.

ghost use Rattle.std.specs.Prelude.{◌≡◌};
ghost use Rattle.jl_host.specs.Numbers as numbers;
ghost use Rattle.jl_host.specs.Telling as telling;

use jl_classfile::ClassFault;
use jl_code::CodeFault;
use jl_names::Name;
use jl_pool::PoolFault;
use jl_types::{
    CallSiteFault, DefineFault, DelegateFault, Made, NotLinkable, PrepareFault, Refusal,
    ReleaseFault, Reply, RetireFault,
};

/// The status of a call that did what was asked.
pub const DONE: u32 = 0;

/// The status of a call with the number or the name of a class that isn't there: the number of that refusal.
pub const UNKNOWN_CLASS: u32 = 2;

/// The status of a call with the place of a method that isn't there: the number of that refusal.
pub const NO_SUCH_PLACE: u32 = 3;

/// The status of a call for more sites than may be requested: the number of that refusal.
pub const SITES_FULL: u32 = 5;

/// The status of a call that wanted memory: the number of that refusal.
pub const MEMORY: u32 = 15;

/// The status of a definition by bytes that are no class file.
pub const NO_CLASS_FILE: u32 = 32;

/// The status of a call with a kind, a type, a target or a link that is none, or with a number that is too large.
pub const MALFORMED: u32 = 33;

/// The status of a call on a linker that isn't open, on a seat that was never refreshed, or on a view that was never taken.
pub const CLOSED: u32 = 34;

/// The status of an opening of a linker that is open.
pub const OPEN_ALREADY: u32 = 35;

/// The status of a call whose array is too short.
pub const TOO_SHORT: u32 = 36;

/// The status of a renewal of which an event names what its host has released.
pub const RELEASED: u32 = 37;

/// What an event made, or why it was refused: each number that says nothing is 0.
#[repr(C)]
#[derive(Clone, Copy, Debug, PartialEq, Eq)]
pub struct Told {
    /// Of the loader, class, site, call site or switch point that the event made or found; or of the loader that keeps several from going.
    pub number: u32,
    /// Why, more closely, by the status.
    pub fault: u32,
    /// Where, by the status or the fault.
    pub place: u32,
    /// Why, still more closely: of a class file's pool or code.
    pub cause: u32,
    /// The pc of a fault of a code.
    pub at: u32,
    /// How many links the event removed, at most 2^32 - 1.
    pub dropped: u32,
}

impl Told {
    /// One that says nothing.
    pub fn nothing() -> Told
        ensures { result ≡ telling.nothing }
    {
        Told {
            number: 0,
            fault: 0,
            place: 0,
            cause: 0,
            at: 0,
            dropped: 0,
        }
    }

    /// One with a fault.
    fn fault(fault: u32) -> Told
        ensures { result ≡ telling.with_fault fault }
    {
        Told {
            fault,
            ..Told::nothing()
        }
    }

    /// One with a fault and a place.
    fn at_place(fault: u32, place: u32) -> Told
        ensures { result ≡ telling.at_place fault place }
    {
        Told {
            fault,
            place,
            ..Told::nothing()
        }
    }

    /// One with a place.
    fn place(place: u32) -> Told
        ensures { result ≡ telling.with_place place }
    {
        Told {
            place,
            ..Told::nothing()
        }
    }
}

/// The number that was given.
fn number_of(made: &Made) -> u32
    ensures { result ≡ numbers.number_of made.now }
{
    match made {
        Made::Nothing => 0,
        Made::Loader(loader) => loader.number(),
        Made::Class(class) => class.number(),
        Made::Site(site) => site.number(),
        Made::CallSite(call_site) => call_site.number(),
        Made::Switch(point) => point.number(),
    }
}

/// The number of a refusal: its status.
pub(crate) fn status_of_refusal(refusal: &Refusal) -> u32
    ensures { result ≡ numbers.status_of_refusal refusal.now }
{
    match refusal {
        Refusal::Define(_) => 1,
        Refusal::UnknownClass => 2,
        Refusal::NoSuchPlace => 3,
        Refusal::NotLinkable(_) => 4,
        Refusal::SitesFull => 5,
        Refusal::CallSite(_) => 6,
        Refusal::NotDynamic => 7,
        Refusal::AlreadyBound(_) => 8,
        Refusal::TypeMismatch => 9,
        Refusal::Stale { .. } => 10,
        Refusal::NotReady { .. } => 11,
        Refusal::UnknownSite { .. } => 12,
        Refusal::Repeated { .. } => 13,
        Refusal::BatchSize => 14,
        Refusal::Memory => 15,
        Refusal::Delegate(_) => 16,
        Refusal::LoadersFull => 17,
        Refusal::Retire(_) => 19,
        Refusal::RetireAll { .. } => 19,
        Refusal::Release(_) => 20,
    }
}

/// The number of a definition's fault.
fn define_number(fault: &DefineFault) -> u32
    ensures { result ≡ numbers.define_number fault.now }
{
    match fault {
        DefineFault::UnknownLoader => 1,
        DefineFault::AlreadyRecorded => 2,
        DefineFault::NamesItself => 3,
        DefineFault::MissingParent(_) => 4,
        DefineFault::SuperIsInterface => 5,
        DefineFault::FinalSuper => 6,
        DefineFault::NotAnInterface(_) => 7,
        DefineFault::InaccessibleParent(_) => 8,
        DefineFault::SecondObject => 9,
        DefineFault::Full => 10,
    }
}

/// The number of a call site's fault.
fn call_site_number(fault: &CallSiteFault) -> u32
    ensures { result ≡ numbers.call_site_number fault.now }
{
    match fault {
        CallSiteFault::UnknownCallSite => 1,
        CallSiteFault::Constant => 2,
        CallSiteFault::WrongType => 3,
        CallSiteFault::UnknownMethod => 4,
        CallSiteFault::NotStatic => 5,
        CallSiteFault::UnknownSwitch => 6,
        CallSiteFault::TooDeep => 7,
        CallSiteFault::Full => 8,
        CallSiteFault::InvokerOrder(_) => 9,
    }
}

/// The call site that a call site's fault is about, if any.
fn invoked_in(fault: &CallSiteFault) -> u32
    ensures { result ≡ numbers.invoked_in fault.now }
{
    match fault {
        CallSiteFault::InvokerOrder(invoked) => invoked.number(),
        _ => 0,
    }
}

/// What is told of a loader that isn't retired.
fn told_of_retirement(fault: &RetireFault) -> Told
    ensures { result ≡ telling.told_of_retirement fault.now }
{
    match fault {
        RetireFault::UnknownLoader => Told::fault(1),
        RetireFault::FirstLoader => Told::fault(2),
        RetireFault::Inherited(class) => Told::at_place(3, class.number()),
        RetireFault::Recorded(loader) => Told::at_place(4, loader.number()),
        RetireFault::Targeted(call_site) => Told::at_place(5, call_site.number()),
    }
}

/// What is told of call sites and switch points that aren't let go.
fn told_of_release(fault: &ReleaseFault) -> Told
    ensures { result ≡ telling.told_of_release fault.now }
{
    match fault {
        ReleaseFault::UnknownCallSite(call_site) => Told::at_place(1, call_site.number()),
        ReleaseFault::UnknownSwitch(point) => Told::at_place(2, point.number()),
        ReleaseFault::Invoked(call_site) => Told::at_place(3, call_site.number()),
        ReleaseFault::Guarded(call_site) => Told::at_place(4, call_site.number()),
    }
}

/// What is told of a refusal.
fn told_of_refusal(refusal: &Refusal) -> Told
    ensures { result ≡ telling.told_of_refusal refusal.now }
{
    match refusal {
        Refusal::Define(fault) => Told::fault(define_number(fault)),
        Refusal::NotLinkable(NotLinkable::ArrayReceiver) => Told::fault(1),
        Refusal::NotLinkable(NotLinkable::PolymorphicSignature) => Told::fault(2),
        Refusal::CallSite(fault) => Told::at_place(call_site_number(fault), invoked_in(fault)),
        Refusal::Delegate(DelegateFault::UnknownLoader) => Told::fault(1),
        Refusal::Delegate(DelegateFault::NotRecorded) => Told::fault(2),
        Refusal::Delegate(DelegateFault::AlreadyRecorded) => Told::fault(3),
        Refusal::AlreadyBound(call_site) => Told::place(call_site.number()),
        Refusal::Stale { site, .. } => Told::place(site.number()),
        Refusal::NotReady { site } => Told::place(site.number()),
        Refusal::UnknownSite { site } => Told::place(site.number()),
        Refusal::Repeated { site } => Told::place(site.number()),
        Refusal::UnknownClass => Told::nothing(),
        Refusal::NoSuchPlace => Told::nothing(),
        Refusal::SitesFull => Told::nothing(),
        Refusal::NotDynamic => Told::nothing(),
        Refusal::TypeMismatch => Told::nothing(),
        Refusal::BatchSize => Told::nothing(),
        Refusal::Memory => Told::nothing(),
        Refusal::LoadersFull => Told::nothing(),
        Refusal::Retire(fault) => told_of_retirement(fault),
        Refusal::RetireAll { loader, fault } => Told {
            number: loader.number(),
            ..told_of_retirement(fault)
        },
        Refusal::Release(fault) => told_of_release(fault),
    }
}

/// The status of an event with this outcome, and what is told of it.
pub(crate) fn tell(outcome: &Result<Reply, Refusal>, told: &mut Told) -> u32
    ensures status { result ≡ telling.status_of outcome.now }
    ensures told { told.new ≡ telling.told_of outcome.now }
{
    match outcome {
        Ok(reply) => {
            *told = Told {
                number: number_of(&reply.made),
                dropped: reply.dropped.as_slice().len().min(u32::MAX as usize) as u32,
                ..Told::nothing()
            };
            DONE
        }
        Err(refusal) => {
            *told = told_of_refusal(refusal);
            status_of_refusal(refusal)
        }
    }
}

/// The class that the refusal of the event tells of by its name, if it does.
pub(crate) fn class_named(outcome: Result<Reply, Refusal>) -> Option<Name>
    ensures { result ≡ telling.class_named outcome }
{
    match outcome {
        Err(Refusal::Define(DefineFault::MissingParent(name))) => Some(name),
        Err(Refusal::Define(DefineFault::NotAnInterface(name))) => Some(name),
        Err(Refusal::Define(DefineFault::InaccessibleParent(name))) => Some(name),
        _ => None,
    }
}

/// The status of sites that weren't prepared, and what is told of them.
pub(crate) fn tell_unprepared(fault: PrepareFault, told: &mut Told) -> u32
    ensures status { result ≡ numbers.status_of_unprepared fault }
    ensures told { told.new ≡ telling.told_of_unprepared fault }
{
    match fault {
        PrepareFault::NotReady(site) => {
            *told = Told::place(site.number());
            11
        }
        PrepareFault::UnknownSite(site) => {
            *told = Told::place(site.number());
            12
        }
        PrepareFault::Repeated(site) => {
            *told = Told::place(site.number());
            13
        }
        PrepareFault::BatchSize => {
            *told = Told::nothing();
            14
        }
        PrepareFault::Memory => {
            *told = Told::nothing();
            MEMORY
        }
    }
}

/// What is told of a fault of a constant pool.
fn told_of_pool(fault: PoolFault) -> Told
    ensures { result ≡ telling.told_of_pool fault }
{
    match fault {
        PoolFault::Truncated => pool(1, 0),
        PoolFault::BadTag(entry) => pool(2, entry),
        PoolFault::BadIndex(entry) => pool(3, entry),
        PoolFault::BadUtf8(entry) => pool(4, entry),
        PoolFault::BadDescriptor(entry) => pool(5, entry),
        PoolFault::Memory => pool(0, 0),
    }
}

/// What is told of a fault at a pool's entry.
fn pool(cause: u32, entry: u16) -> Told
    ensures { result ≡ telling.in_pool cause entry }
{
    Told {
        number: 0,
        fault: 5,
        place: u32::from(entry),
        cause,
        ..Told::nothing()
    }
}

/// What is told of a fault of a method's code.
fn told_of_code(method: u16, fault: CodeFault) -> Told
    ensures { result ≡ telling.told_of_code method fault }
{
    match fault {
        CodeFault::BadOpcode(pc) => code(method, 1, pc),
        CodeFault::CutShort(pc) => code(method, 2, pc),
        CodeFault::BadSwitch(pc) => code(method, 3, pc),
        CodeFault::BadOperand(pc) => code(method, 4, pc),
        CodeFault::BadLayout => code(method, 5, 0),
        CodeFault::Memory => code(method, 0, 0),
    }
}

/// What is told of a fault at a pc.
fn code(method: u16, cause: u32, pc: u16) -> Told
    ensures { result ≡ telling.in_code method cause pc }
{
    Told {
        number: 0,
        fault: 10,
        place: u32::from(method),
        cause,
        at: u32::from(pc),
        ..Told::nothing()
    }
}

/// What is told of bytes that are no class file.
fn told_of_file(fault: ClassFault) -> Told
    ensures { result ≡ telling.told_of_file fault }
{
    match fault {
        ClassFault::TooLarge => Told::fault(1),
        ClassFault::BadMagic => Told::fault(2),
        ClassFault::BadVersion => Told::fault(3),
        ClassFault::Truncated => Told::fault(4),
        ClassFault::Pool(fault) => told_of_pool(fault),
        ClassFault::ModuleFile => Told::fault(6),
        ClassFault::BadSuper => Told::fault(7),
        ClassFault::DuplicateMethod(method) => Told::at_place(8, u32::from(method)),
        ClassFault::TwoCodes(method) => Told::at_place(9, u32::from(method)),
        ClassFault::Code(method, fault) => told_of_code(method, fault),
        ClassFault::TrailingBytes => Told::fault(11),
        ClassFault::BadMember(member) => Told::at_place(12, member),
        ClassFault::BadLink(number) => Told::at_place(13, u32::from(number)),
        ClassFault::BadNest => Told::fault(14),
        ClassFault::Memory => Told::nothing(),
    }
}

/// The status of bytes that are no class file or weren't read, and what is told of them.
pub(crate) fn tell_file(fault: ClassFault, told: &mut Told) -> u32
    ensures status { result ≡ numbers.status_of_file fault }
    ensures told { told.new ≡ telling.told_of_file fault }
{
    *told = told_of_file(fault);
    match fault {
        ClassFault::Memory => MEMORY,
        _ => NO_CLASS_FILE,
    }
}

/// Nothing is asked for, for this reason.
pub(crate) fn unasked(reason: u32, told: &mut Told) -> u32
    ensures status { result ≡ reason }
    ensures told { told.new ≡ telling.nothing }
{
    *told = Told::nothing();
    reason
}

/// An event names what a renewal has released: this, after so many events.
pub(crate) fn tell_released(place: u32, before: usize, told: &mut Told) -> u32
    ensures status { result ≡ numbers.released }
    ensures told { told.new ≡ telling.told_of_released place before }
{
    *told = Told {
        number: before.min(u32::MAX as usize) as u32,
        place,
        ..Told::nothing()
    };
    RELEASED
}
