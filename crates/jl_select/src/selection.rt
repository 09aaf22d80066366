//! Selection (JVMS SE 17 §5.4.6), and what invokevirtual and invokeinterface make of it (§6.5).

ghost use Rattle.std.specs.Prelude.{◌≡◌, ◌+◌, ◌^◌, ◌<◌, length, if◌then◌else◌};
ghost use Rattle.jl_types.specs.Values.Ancestry.{superclasses, is_ancestor};
ghost use Rattle.jl_types.specs.Linkage.Overriding as overriding;
ghost use Rattle.jl_types.specs.Linkage.Selection as selection;
ghost use Rattle.jl_select.specs.ForProofs.Walks.{own_passing, first_passing};

use crate::overriding::can_override;
use jl_hierarchy::{Classes, NameAndType};
use jl_types::{Chosen, ClassId, MethodId, Outcome, Throwable, Work};

/// The method that selection picks for a receiver's class and the resolved method (JVMS SE 17 §5.4.6). Takes no memory.
pub fn chosen(classes: &Classes, receiver: ClassId, resolved: &MethodId) -> Chosen
    requires { receiver < length classes.now.rows }
    ensures { result ≡ selection.chosen classes.now receiver resolved.now }
{
    if classes.is_private(resolved) {
        return Chosen::Method(*resolved);
    }
    let Some(method) = classes.method_at(resolved) else {
        return Chosen::Nothing;
    };
    let (name, ty) = (method.name(), method.ty());
    let sought = NameAndType::of(name.as_slice(), ty.as_slice());
    match overriding(classes, receiver, resolved, &sought) {
        Some(found) => Chosen::Method(found),
        None => classes.default_by(receiver, &sought),
    }
}

/// Gives what [`chosen`] gives, and counts one tick for the selection walk. Takes no memory.
pub fn chosen_counted(
    classes: &Classes,
    receiver: ClassId,
    resolved: &MethodId,
    work: &mut Work,
) -> Chosen
    requires there { receiver < length classes.now.rows }
    requires fits { work.old + 1 < 2 ^ 64 }
    ensures chosen { result ≡ selection.chosen classes.now receiver resolved.now }
    ensures ticks { work.new ≡ work.old + 1 }
{
    work.tick();
    chosen(classes, receiver, resolved)
}

/// The outcome of an invokevirtual of the resolved method for a receiver's class.
pub fn select(classes: &Classes, receiver: ClassId, resolved: &MethodId) -> Outcome
    requires { receiver < length classes.now.rows }
    ensures { result ≡ selection.virtual_outcome classes.now receiver resolved.now }
{
    ending(classes, chosen(classes, receiver, resolved))
}

/// Gives what [`select`] gives, and counts one tick for the selection walk. Takes no memory.
pub fn select_counted(
    classes: &Classes,
    receiver: ClassId,
    resolved: &MethodId,
    work: &mut Work,
) -> Outcome
    requires there { receiver < length classes.now.rows }
    requires fits { work.old + 1 < 2 ^ 64 }
    ensures outcome { result ≡ selection.virtual_outcome classes.now receiver resolved.now }
    ensures ticks { work.new ≡ work.old + 1 }
{
    ending(classes, chosen_counted(classes, receiver, resolved, work))
}

/// The outcome of an invokeinterface of the resolved method for a receiver's class, through a reference that names this interface.
pub fn select_interface(
    classes: &Classes,
    receiver: ClassId,
    named: ClassId,
    resolved: &MethodId,
) -> Outcome
    requires { receiver < length classes.now.rows }
    ensures { result ≡ selection.interface_outcome classes.now receiver named resolved.now }
{
    if !classes.is_ancestor(named, receiver) {
        return Outcome::Throws(Throwable::IncompatibleClassChangeError);
    }
    interface_ending(classes, chosen(classes, receiver, resolved))
}

/// Gives what [`select_interface`] gives. If the receiver's class is or implements the interface, it counts one tick for the
/// selection walk. Else there is no walk and no tick. Takes no memory.
pub fn select_interface_counted(
    classes: &Classes,
    receiver: ClassId,
    named: ClassId,
    resolved: &MethodId,
    work: &mut Work,
) -> Outcome
    requires there { receiver < length classes.now.rows }
    requires fits { work.old + 1 < 2 ^ 64 }
    ensures outcome { result ≡ selection.interface_outcome classes.now receiver named resolved.now }
    ensures ticks { work.new ≡ work.old + (if is_ancestor classes.now named receiver then 1 else 0) }
{
    if classes.is_ancestor(named, receiver) {
        interface_ending(classes, chosen_counted(classes, receiver, resolved, work))
    } else {
        Outcome::Throws(Throwable::IncompatibleClassChangeError)
    }
}

/// The outcome of a choice.
pub(crate) fn ending(classes: &Classes, choice: Chosen) -> Outcome
    ensures { result ≡ selection.ending classes.now choice }
{
    match choice {
        Chosen::Method(method) => {
            if classes.is_abstract(&method) {
                Outcome::Throws(Throwable::AbstractMethodError)
            } else {
                Outcome::Run(method)
            }
        }
        Chosen::Several => Outcome::Throws(Throwable::IncompatibleClassChangeError),
        Chosen::Nothing => Outcome::Throws(Throwable::AbstractMethodError),
    }
}

/// The outcome of a choice at invokeinterface: a method that is neither public nor private is not accessible.
fn interface_ending(classes: &Classes, choice: Chosen) -> Outcome
    ensures { result ≡ selection.interface_ending classes.now choice }
{
    match choice {
        Chosen::Method(method) => {
            if classes.is_public(&method) || classes.is_private(&method) {
                ending(classes, Chosen::Method(method))
            } else {
                Outcome::Throws(Throwable::IllegalAccessError)
            }
        }
        Chosen::Several => ending(classes, Chosen::Several),
        Chosen::Nothing => ending(classes, Chosen::Nothing),
    }
}

/// The first declaration, in the class and its superclasses upward, that can override the resolved method.
fn overriding(
    classes: &Classes,
    receiver: ClassId,
    resolved: &MethodId,
    sought: &NameAndType<'_>,
) -> Option<MethodId>
    ensures { result ≡ first_passing (λ m. overriding.can_override classes.now m resolved.now) classes.now sought.now.name sought.now.ty
        (superclasses classes.now receiver) }
{
    let mut at = receiver;
    loop {
        if let Some(found) = own_overriding(classes, at, resolved, sought) {
            return Some(found);
        }
        match classes.superclass(at) {
            Some(superclass) => at = superclass,
            None => return None,
        }
    }
}

/// The class's own declaration, if it can override the resolved method.
fn own_overriding(
    classes: &Classes,
    class: ClassId,
    resolved: &MethodId,
    sought: &NameAndType<'_>,
) -> Option<MethodId>
    ensures { result ≡ own_passing (λ m. overriding.can_override classes.now m resolved.now) classes.now sought.now.name sought.now.ty class }
{
    let found = classes.declared_by(class, sought)?;
    if can_override(classes, &found, resolved) {
        Some(found)
    } else {
        None
    }
}
