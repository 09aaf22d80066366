//! Tests of the constants of a pool.

ghost use Rattle.std.specs.Prelude.{◌≡◌, Option, Some, IsTrue, OnOk, IfErr, ◌&&◌, ◌||◌, [], ◌∷◌, true, false};
ghost use Rattle.std.specs.Option.{option_map_or};
ghost use Rattle.jl_pool.specs.Constants.{handle_tags};
ghost use Rattle.jl_pool.specs.declared.pool_fault.PoolFault.{PoolFault};
ghost use Rattle.jl_pool.specs.Faults.{AllAt};
ghost use Rattle.jl_pool.specs.Pools.{constant_at, text_at, begins_array, has_tag, is_linked, HasText, IsTyped};
ghost use Rattle.jl_pool.specs.ForProofs.Entries.{IsTextFault, IsNameFault, IsCheckFault};
ghost use Rattle.jl_pool.specs.ForProofs.Forms.{form_of, takes_slots, is_class_text, is_typed};

use crate::constant::Constant;
use crate::form::Form;
use crate::kept_constant::KeptConstant;
use crate::pool::Pool;
use crate::pool_fault::PoolFault;
use jl_names::is_text;

/// Whether what an entry names is of the right kinds.
#[derive(Clone, Copy)]
struct Names {
    /// Each number holds a constant of the right kind.
    linked: bool,
    /// Each text is a class name or a descriptor of the right kind.
    typed: bool,
}

impl Names {
    /// The tests of an entry that names no class name and no descriptor.
    fn of_link(linked: bool) -> Names
        ensures { result ≡ record { linked = linked; typed = true } }
    {
        Names {
            linked,
            typed: true,
        }
    }
}

impl Pool {
    /// Looks for the first Utf8 that is no modified UTF-8, then for the first constant that names a wrong one, and then for
    /// the first that names a descriptor of a wrong kind. The texts are gone over only if one of them is known to be bad,
    /// to find the first such one.
    pub(crate) fn check(&self, bad: bool) -> Result<(), PoolFault>
        requires { bad ≡ false → AllAt HasText self.now }
        ensures texts { OnOk result (AllAt HasText self.now) }
        ensures links { OnOk result (AllAt (λ c. IsTrue (is_linked self.now c)) self.now) }
        ensures types { OnOk result (AllAt (IsTyped self.now) self.now) }
        ensures fault { IfErr result (IsCheckFault self.now) }
    {
        match self.check_texts(bad) {
            Ok(()) => self.check_names(),
            fault => fault,
        }
    }

    /// Looks for the first constant that names a wrong one, and then for the first that names a descriptor of a wrong kind, by
    /// one pass over the entries.
    fn check_names(&self) -> Result<(), PoolFault>
        ensures links { OnOk result (AllAt (λ c. IsTrue (is_linked self.now c)) self.now) }
        ensures types { OnOk result (AllAt (IsTyped self.now) self.now) }
        ensures fault { IfErr result (IsNameFault self.now) }
    {
        let mut untyped = None;
        for number in 0..self.count() {
            let names = self.names(number);
            if !names.linked {
                return Err(PoolFault::BadIndex(number));
            }
            untyped = untyped.or((!names.typed).then_some(number));
        }
        match untyped {
            Some(number) => Err(PoolFault::BadDescriptor(number)),
            None => Ok(()),
        }
    }

    /// Looks for the first Utf8 that is no modified UTF-8, if there may be one.
    fn check_texts(&self, bad: bool) -> Result<(), PoolFault>
        requires { bad ≡ false → AllAt HasText self.now }
        ensures ok { OnOk result (AllAt HasText self.now) }
        ensures fault { IfErr result (IsTextFault self.now) }
    {
        if !bad {
            return Ok(());
        }
        for number in 0..self.count() {
            if let Some(Constant::Utf8(text)) = self.constant(number) {
                if !is_text(text.as_bytes()) {
                    return Err(PoolFault::BadUtf8(number));
                }
            }
        }
        Ok(())
    }

    /// The tests of what stands at a number.
    fn names(&self, number: u16) -> Names
        ensures linked { result.linked ≡ option_map_or (is_linked self.now) (constant_at self.now number) true }
        ensures typed { result.typed ≡ option_map_or (is_typed self.now) (constant_at self.now number) true }
    {
        match self.entry(number) {
            KeptConstant::Nothing
            | KeptConstant::Utf8(_, _, _)
            | KeptConstant::Integer(_)
            | KeptConstant::Float(_)
            | KeptConstant::Long(_)
            | KeptConstant::Double(_) => Names::of_link(true),
            KeptConstant::String(text) | KeptConstant::Module(text) | KeptConstant::Package(text) =>
                { Names::of_link(self.has_tag(1, text)) }
            KeptConstant::MethodHandle(kind, reference) => Names::of_link(self.refers(
                kind, reference,
            )),
            KeptConstant::Class(name) => Names {
                linked: self.has_tag(1, name),
                typed: self.is_class_text(name),
            },
            KeptConstant::MethodType(ty) => Names {
                linked: self.has_tag(1, ty),
                typed: is_method(self.form(ty)),
            },
            KeptConstant::NameAndType(name, ty) => Names {
                linked: self.has_tag(1, name) & self.has_tag(1, ty),
                typed: is_descriptor(self.form(ty)),
            },
            KeptConstant::Fieldref(owner, signed) => Names {
                linked: self.is_member(owner, signed),
                typed: is_field(self.descriptor_form(signed)),
            },
            KeptConstant::Methodref(owner, signed)
            | KeptConstant::InterfaceMethodref(owner, signed) => Names {
                linked: self.is_member(owner, signed),
                typed: is_method(self.descriptor_form(signed)),
            },
            KeptConstant::Dynamic(_, signed) => Names {
                linked: self.has_tag(12, signed),
                typed: is_field(self.descriptor_form(signed)),
            },
            KeptConstant::InvokeDynamic(_, signed) => Names {
                linked: self.has_tag(12, signed),
                typed: is_method(self.descriptor_form(signed)),
            },
        }
    }

    /// Whether a class, and a name and type stand at these numbers.
    fn is_member(&self, owner: u16, signed: u16) -> bool
        ensures { result ≡ (has_tag self.now (7 ∷ []) owner && has_tag self.now (12 ∷ []) signed) }
    {
        self.has_tag(7, owner) & self.has_tag(12, signed)
    }

    /// Whether a method handle of this kind may refer to what stands at the number.
    fn refers(&self, kind: u8, number: u16) -> bool
        ensures { result ≡ has_tag self.now (handle_tags kind) number }
    {
        match kind {
            1..=4 => self.has_tag(9, number),
            5 | 8 => self.has_tag(10, number),
            6 | 7 => self.has_tag(10, number) || self.has_tag(11, number),
            9 => self.has_tag(11, number),
            _ => false,
        }
    }

    /// Whether the text at a number is a class name or the descriptor of an array.
    #[tactic(auto, unfolding(crate::specs::ForProofs::Forms::form_of))]
    fn is_class_text(&self, number: u16) -> bool
        ensures { result ≡ option_map_or is_class_text (text_at self.now number) false }
    {
        match (self.utf8(number), self.form(number)) {
            (Some(text), Some(form)) => {
                form.class_name || (form.field && begins_array(text.as_slice()))
            }
            _ => false,
        }
    }
}

/// Whether the form is there, and of a field's descriptor.
fn is_field(form: Option<Form>) -> bool
    ensures { result ≡ option_map_or (λ f. f.field) form false }
{
    match form {
        Some(form) => form.field,
        None => false,
    }
}

/// Whether the form is there, and of a method's descriptor.
fn is_method(form: Option<Form>) -> bool
    ensures { result ≡ option_map_or takes_slots form false }
{
    match form {
        Some(form) => form.slots.is_some(),
        None => false,
    }
}

/// Whether the form is there, and of a descriptor.
fn is_descriptor(form: Option<Form>) -> bool
    ensures { result ≡ option_map_or (λ f. f.field || takes_slots f) form false }
{
    match form {
        Some(form) => form.field | form.slots.is_some(),
        None => false,
    }
}

/// Whether a descriptor is an array's.
fn begins_array(text: &[u8]) -> bool
    ensures { result ≡ begins_array text.now }
{
    match text {
        [first, ..] => *first == b'[',
        [] => false,
    }
}
