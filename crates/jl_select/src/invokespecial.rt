//! The outcome of an invokespecial (JVMS SE 17 §6.5.invokespecial).

ghost use Rattle.std.specs.Prelude.{◌≡◌, ◌+◌, ◌^◌, ◌<◌, not, length, option_map, IfSome, MatchOption};
ghost use Rattle.jl_types.specs.Values.Members as members;
ghost use Rattle.jl_types.specs.Linkage.Resolution as resolution;
ghost use Rattle.jl_types.specs.Linkage.Selection as selection;
ghost use Rattle.jl_select.specs.ForProofs.Walks.{own_passing};

use crate::selection::ending;
use jl_hierarchy::{Classes, NameAndType};
use jl_names::LentName;
use jl_pool::Reference;
use jl_resolve::named_class;
use jl_types::{Chosen, ClassId, MethodId, Outcome, Work};

/// The outcome of an invokespecial of the reference, in the caller's class. None if the caller isn't there, or if its loader
/// hasn't recorded the class or interface that the reference names. Takes no memory.
pub fn special(
    classes: &Classes,
    caller: ClassId,
    reference: &Reference<LentName<'_>>,
) -> Option<Outcome>
    ensures { result ≡ option_map (λ named. selection.special_outcome classes.now caller named reference.now)
        (resolution.named_class classes.now caller reference.now) }
{
    let named = named_class(classes, caller, reference)?;
    let start = special_start(classes, caller, named, reference);
    Some(ending(classes, special_choice(classes, start, reference)))
}

/// Gives what [`special`] gives, and counts one tick for the special search, or none if the result is None. Takes no memory.
pub fn special_counted(
    classes: &Classes,
    caller: ClassId,
    reference: &Reference<LentName<'_>>,
    work: &mut Work,
) -> Option<Outcome>
    requires fits { work.old + 1 < 2 ^ 64 }
    ensures outcome { result ≡ option_map (λ named. selection.special_outcome classes.now caller named reference.now)
        (resolution.named_class classes.now caller reference.now) }
    ensures ticks { MatchOption result (work.new ≡ work.old) (λ _. work.new ≡ work.old + 1) }
{
    let outcome = special(classes, caller, reference)?;
    work.tick();
    Some(outcome)
}

/// Where the search begins: at the caller's direct superclass if a proper superclass of the caller is named and the method isn't
/// `<init>`, and else at the named class.
fn special_start(
    classes: &Classes,
    caller: ClassId,
    named: ClassId,
    reference: &Reference<LentName<'_>>,
) -> Option<ClassId>
    requires caller { caller < length classes.now.rows }
    requires named { named < length classes.now.rows }
    ensures same { result ≡ selection.special_start classes.now caller named reference.now }
    ensures there { IfSome result (λ class. class < length classes.now.rows) }
{
    if reference.name.as_slice() != b"<init>".as_slice()
        && !classes.is_interface(named)
        && classes.is_proper_subclass(caller, named)
    {
        classes.superclass(caller)
    } else {
        Some(named)
    }
}

/// What the search gives from the class where it begins.
fn special_choice(
    classes: &Classes,
    start: Option<ClassId>,
    reference: &Reference<LentName<'_>>,
) -> Chosen
    requires { IfSome start (λ class. class < length classes.now.rows) }
    ensures { result ≡ selection.special_choice classes.now reference.now start }
{
    let Some(class) = start else {
        return Chosen::Nothing;
    };
    let sought = NameAndType::of(reference.name.as_slice(), reference.ty.as_slice());
    match special_found(classes, class, &sought) {
        Some(method) => Chosen::Method(method),
        None => classes.default_by(class, &sought),
    }
}

/// The instance method that the search finds before the defaults.
fn special_found(classes: &Classes, class: ClassId, sought: &NameAndType<'_>) -> Option<MethodId>
    ensures { result ≡ selection.special_found classes.now sought.now.name sought.now.ty class }
{
    if classes.is_interface(class) {
        match own_instance(classes, class, sought) {
            Some(method) => Some(method),
            None => classes.declared_in_object(sought.name(), sought.ty()),
        }
    } else {
        special_in_class(classes, class, sought)
    }
}

/// The first instance method of this name and descriptor, in the class and its superclasses upward.
fn special_in_class(classes: &Classes, class: ClassId, sought: &NameAndType<'_>) -> Option<MethodId>
    ensures { result ≡ selection.special_in_class classes.now sought.now.name sought.now.ty class }
{
    let mut at = class;
    loop {
        if let Some(method) = own_instance(classes, at, sought) {
            return Some(method);
        }
        match classes.superclass(at) {
            Some(superclass) => at = superclass,
            None => return None,
        }
    }
}

/// The class's own instance method of this name and descriptor.
fn own_instance(classes: &Classes, class: ClassId, sought: &NameAndType<'_>) -> Option<MethodId>
    ensures { result ≡ own_passing (λ m. not (members.is_static classes.now m)) classes.now sought.now.name sought.now.ty class }
{
    let method = classes.declared_by(class, sought)?;
    if !classes.is_static(&method) {
        Some(method)
    } else {
        None
    }
}
