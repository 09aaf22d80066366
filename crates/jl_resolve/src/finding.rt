//! What a name and a descriptor find (JVMS SE 17 §5.4.3.3, §5.4.3.4), before access is looked at.

ghost use Rattle.std.specs.Prelude.{◌≡◌, ◌<◌, [], ◌∷◌, length};
ghost use Rattle.jl_types.specs.Linkage.Resolution as resolution;
ghost use Rattle.jl_types.specs.Linkage.Resolution.{first_of, first_element, only, pick, defaults, candidates};

use jl_hierarchy::{Classes, NameAndType};
use jl_types::{Chosen, ClassId, MethodId};

/// What is found in a class (JVMS SE 17 §5.4.3.3). It is the first of these that there is:
///
/// - the first declaration in the class and its superclasses upward
/// - the one maximally-specific superinterface method that isn't abstract
/// - of the superinterface methods that are neither private nor static, the one whose interface has the least number
pub fn found_in_class(classes: &Classes, class: ClassId, name: &[u8], ty: &[u8]) -> Option<MethodId>
    requires { class < length classes.now.rows }
    ensures { result ≡ resolution.found_in_class classes.now name.now ty.now class }
{
    let sought = NameAndType::of(name, ty);
    match classes.declared_upward_by(class, &sought) {
        Some(method) => Some(method),
        None => found_in_superinterfaces(classes, class, &sought),
    }
}

/// What is found in an interface (JVMS SE 17 §5.4.3.4). It is the first of these that there is:
///
/// - its own declaration
/// - the public non-static declaration of java/lang/Object
/// - what its superinterfaces have, as for a class
pub fn found_in_interface(
    classes: &Classes,
    interface: ClassId,
    name: &[u8],
    ty: &[u8],
) -> Option<MethodId>
    requires { interface < length classes.now.rows }
    ensures { result ≡ resolution.found_in_interface classes.now name.now ty.now interface }
{
    let sought = NameAndType::of(name, ty);
    if let Some(method) = classes.declared_by(interface, &sought) {
        return Some(method);
    }
    match classes.declared_in_object(name, ty) {
        Some(method) => Some(method),
        None => found_in_superinterfaces(classes, interface, &sought),
    }
}

/// The one maximally-specific superinterface method that isn't abstract. Else, of the superinterface methods that are neither
/// private nor static, the one whose interface has the least number.
fn found_in_superinterfaces(
    classes: &Classes,
    class: ClassId,
    sought: &NameAndType<'_>,
) -> Option<MethodId>
    requires { class < length classes.now.rows }
    ensures { result ≡ first_of (only (pick (defaults classes.now sought.now.name sought.now.ty class))
        ∷ first_element (candidates classes.now sought.now.name sought.now.ty class) ∷ []) }
{
    match classes.default_by(class, sought) {
        Chosen::Method(method) => Some(method),
        Chosen::Several => classes.first_candidate_by(class, sought),
        Chosen::Nothing => classes.first_candidate_by(class, sought),
    }
}
