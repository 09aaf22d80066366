//! What sites rest on, as it is kept.

ghost use Rattle.std.specs.Prelude.{◌≡◌, ◌∷◌, [], IfOk};
ghost use Rattle.jl_deps.specs.ForProofs.Packed.{rests_of};

use crate::form::{Form, Rests};
use crate::kept::{Footprint, Kept};
use jl_names::Seq;
use jl_types::{ClassId, Key, MethodId};
use std::alloc::AllocError;
use std::marker::Model;
use std::mem::size_of;
use std::slice;
use std::sync::Arc;

/// What the link of a site rests on and its form, in sixteen bytes. A clause sees both.
pub struct KeptRests {
    kept: Packed,
}

/// The keys and the form side by side. The method of a form stands as its index and its class, which share eight bytes with the variant.
#[derive(Drop)]
enum Packed {
    Nothing(Form),
    OneVirtual(u16, ClassId, Key),
    OneInterface(u16, ClassId, Key),
    OneOther(Key),
    SeveralVirtual(u16, ClassId, Arc<Seq<Key>>),
    SeveralInterface(u16, ClassId, Arc<Seq<Key>>),
    SeveralOther(Arc<Seq<Key>>),
}

const _: () = prove!(size_of::<KeptRests>() == 16);

/// Written out, so that what drops one makes one call of it and doesn't take apart what it holds.
impl Drop for KeptRests {
    fn drop(self) {
        let KeptRests { kept: _kept } = self;
    }
}

impl Model for KeptRests {
    ghost use Rattle.jl_deps.specs.declared.form.Rests.{Rests};
    ghost use Rattle.jl_deps.specs.ForProofs.Packed.{rests_of};

    ghost Value = { Rests };

    ghost view = { λ r. rests_of r.kept };
}

impl KeptRests {
    /// What is kept of this. Takes no memory.
    pub fn new(rests: Rests) -> Self
        ensures { result ≡ rests }
    {
        let Rests { footprint, form } = rests;
        let kept = match footprint.into_kept() {
            Kept::Nothing => Packed::Nothing(form),
            Kept::One(key) => one(key, &form),
            Kept::Several(keys) => several(keys, &form),
        };
        KeptRests { kept }
    }

    /// The keys, in order. Takes no memory.
    pub fn keys(&self) -> &[Key]
        ensures { result.now ≡ self.now.footprint }
    {
        match &self.kept {
            Packed::Nothing(_) => &[],
            Packed::OneVirtual(_, _, key) => slice::from_ref(key),
            Packed::OneInterface(_, _, key) => slice::from_ref(key),
            Packed::OneOther(key) => slice::from_ref(key),
            Packed::SeveralVirtual(_, _, keys) => keys.as_slice(),
            Packed::SeveralInterface(_, _, keys) => keys.as_slice(),
            Packed::SeveralOther(keys) => keys.as_slice(),
        }
    }

    /// The form. Takes no memory.
    pub fn form(&self) -> Form
        ensures { result ≡ self.now.form }
    {
        match &self.kept {
            Packed::Nothing(form) => *form,
            Packed::OneVirtual(index, class, _) | Packed::SeveralVirtual(index, class, _) => {
                Form::Virtual(MethodId {
                    class: *class,
                    index: *index,
                })
            }
            Packed::OneInterface(index, class, _) | Packed::SeveralInterface(index, class, _) => {
                Form::Interface(MethodId {
                    class: *class,
                    index: *index,
                })
            }
            Packed::OneOther(_) | Packed::SeveralOther(_) => Form::Other,
        }
    }

    /// The keys and the form. A list of more than one key is shared. More copies than can be counted are an error.
    pub fn again(&self) -> Result<Rests, AllocError>
        ensures { IfOk result (λ copy. copy ≡ self.now) }
    {
        Ok(Rests {
            footprint: self.footprint()?,
            form: self.form(),
        })
    }

    /// The keys. A list of more than one key is shared. More copies than can be counted are an error.
    fn footprint(&self) -> Result<Footprint, AllocError>
        ensures { IfOk result (λ footprint. footprint ≡ self.now.footprint) }
    {
        match &self.kept {
            Packed::Nothing(_) => Ok(Footprint::nothing()),
            Packed::OneVirtual(_, _, key) => Ok(Footprint::one(*key)),
            Packed::OneInterface(_, _, key) => Ok(Footprint::one(*key)),
            Packed::OneOther(key) => Ok(Footprint::one(*key)),
            Packed::SeveralVirtual(_, _, keys) => Ok(Footprint::several(Arc::try_clone(keys)?)),
            Packed::SeveralInterface(_, _, keys) => Ok(Footprint::several(Arc::try_clone(keys)?)),
            Packed::SeveralOther(keys) => Ok(Footprint::several(Arc::try_clone(keys)?)),
        }
    }
}

/// The key beside the form.
fn one(key: Key, form: &Form) -> Packed
    ensures { rests_of result ≡ record { footprint = key ∷ []; form = form.now } }
{
    match form {
        Form::Virtual(method) => Packed::OneVirtual(method.index, method.class, key),
        Form::Interface(method) => Packed::OneInterface(method.index, method.class, key),
        Form::Other => Packed::OneOther(key),
    }
}

/// The keys beside the form.
fn several(keys: Arc<Seq<Key>>, form: &Form) -> Packed
    ensures { rests_of result ≡ record { footprint = keys.value; form = form.now } }
{
    match form {
        Form::Virtual(method) => Packed::SeveralVirtual(method.index, method.class, keys),
        Form::Interface(method) => Packed::SeveralInterface(method.index, method.class, keys),
        Form::Other => Packed::SeveralOther(keys),
    }
}
