//! The lists of receivers, as a class is added to some of them.

ghost use Rattle.std.specs.Prelude.{◌≡◌, ◌<◌, ◌&&◌, not, length, if◌then◌else◌, [], ◌∷◌, All, OnOk, IfOk};
ghost use Rattle.jl_class.specs.Flags.{has_flag, INTERFACE, ABSTRACT};
ghost use Rattle.jl_hierarchy.specs.ForProofs.Kept.{HasRoom, Rises, IsAppended, lists};

use jl_class::{ABSTRACT, ClassFile, INTERFACE, has_flag};
use jl_types::ClassId;
use std::alloc::{AllocError, Global};

/// Whether objects may be of the file's class: it is neither an interface nor abstract.
pub(crate) fn is_concrete(file: &ClassFile) -> bool
    ensures { result ≡ (not (has_flag file.now.flags INTERFACE) && not (has_flag file.now.flags ABSTRACT)) }
{
    !has_flag(file.flags(), INTERFACE) && !has_flag(file.flags(), ABSTRACT)
}

/// Those of a class's ancestors that get it as a receiver: all of them or none.
pub(crate) fn receiving<'a>(is_concrete: bool, ancestors: &'a [ClassId]) -> &'a [ClassId]
    ensures { result.now ≡ (if is_concrete then ancestors.now else []) }
{
    if is_concrete { ancestors } else { &[] }
}

/// The receivers of a class, rising.
pub(crate) type Receivers = Vec<ClassId>;

/// The receivers of a class that has none below it.
pub(crate) fn own_receivers(
    alloc: Global,
    is_concrete: bool,
    class: ClassId,
) -> Result<Receivers, AllocError>
    ensures { IfOk result (λ own. own.items ≡ (if is_concrete then class ∷ [] else [])) }
{
    let mut own = Vec::new(alloc);
    if is_concrete {
        own.push(class)?;
    }
    Ok(own)
}

/// Makes room for one class more in the list of each of these.
pub(crate) fn reserve_each(below: &mut [Receivers], classes: &[ClassId]) -> Result<(), AllocError>
    requires { All (λ c. c < length below.old) classes.now }
    ensures lists { lists below.new ≡ lists below.old }
    ensures room { OnOk result (All (HasRoom below.new) classes.now) }
{
    for class in classes {
        below[class.number() as usize].reserve(1)?;
    }
    Ok(())
}

/// Appends the class to the list of each of these, which have room for it.
pub(crate) fn append_to_each(below: &mut [Receivers], classes: &[ClassId], class: ClassId)
    requires there { All (λ c. c < length below.old) classes.now }
    requires rising { Rises classes.now }
    requires room { All (HasRoom below.old) classes.now }
    ensures { IsAppended classes.now class (lists below.old) (lists below.new) }
{
    for to in classes {
        below[to.number() as usize].push_reserved(class);
    }
}
