//! How the invocation of a site selects its method.

ghost use Rattle.std.specs.Prelude.{◌≡◌, ◌∷◌, []};
ghost use Rattle.jl_types.specs.declared.key.Key.TheVariants as key;
ghost use Rattle.jl_deps.specs.declared.form.Form.TheVariants.{Other};
ghost use Rattle.jl_deps.specs.Forms as forms;

use crate::kept::Footprint;
use jl_types::{ClassId, Key, MethodId};

/// How the invocation of a site selects its method: by the class of its receiver and the method that it resolves to, as an invokevirtual or
/// an invokeinterface does (JVMS SE 17 §6.5). All else is other. Sites of one such form that name one class have one link.
#[derive(Clone, Copy, Debug, PartialEq, Eq, Hash)]
pub enum Form {
    Virtual(MethodId),
    Interface(MethodId),
    Other,
}

/// What the link of a site rests on, and how its invocation selects.
#[derive(Drop)]
pub struct Rests {
    pub footprint: Footprint,
    pub form: Form,
}

impl Form {
    /// Whether it is by the class of the receiver.
    pub(crate) fn selects(&self) -> bool
        ensures { result ≡ forms.selects self.now }
    {
        match self {
            Form::Virtual(_) => true,
            Form::Interface(_) => true,
            Form::Other => false,
        }
    }
}

impl Rests {
    /// It rests on nothing.
    pub(crate) fn nothing() -> Rests
        ensures { result ≡ record { footprint = []; form = Other } }
    {
        Rests {
            footprint: Footprint::nothing(),
            form: Form::Other,
        }
    }

    /// It selects by this form, and rests on the receivers of the class.
    pub(crate) fn selecting(class: ClassId, form: Form) -> Rests
        ensures { result ≡ record { footprint = key.Receivers class ∷ []; form = form } }
    {
        Rests {
            footprint: Footprint::one(Key::Receivers(class)),
            form,
        }
    }
}
