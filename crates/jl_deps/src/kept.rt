//! Footprints as they are kept.

ghost use Rattle.std.specs.Prelude.{◌≡◌, ◌∷◌, [], IfOk};
ghost use Rattle.jl_deps.specs.ForProofs.Kept.{keys_of};

use jl_names::Seq;
use jl_types::Key;
use std::alloc::{AllocError, Global};
use std::marker::Model;
use std::mem::size_of;
use std::sync::Arc;
use std::{fmt, slice};

/// What the link of a site rests on: keys, rising, none of them twice. One key or none takes no memory of its own. More keys stand apart,
/// and copies share them. A clause sees the keys.
pub struct Footprint {
    kept: Kept,
}

/// What is kept of each footprint.
#[derive(Drop)]
pub(crate) enum Kept {
    Nothing,
    One(Key),
    Several(Arc<Seq<Key>>),
}

const _: () = prove!(size_of::<Footprint>() == 16);

/// Written out, so that what drops one makes one call of it and doesn't take apart what it holds.
impl Drop for Footprint {
    fn drop(self) {
        let Footprint { kept: _kept } = self;
    }
}

impl Model for Footprint {
    ghost use Rattle.std.specs.Prelude.{List};
    ghost use Rattle.jl_types.specs.declared.key.Key.{Key};
    ghost use Rattle.jl_deps.specs.ForProofs.Kept.{keys_of};

    ghost Value = { List Key };

    ghost view = { λ f. keys_of f.kept };
}

/// A footprint is printed as the list of its keys.
impl fmt::Debug for Footprint {
    fn fmt<W: fmt::Write>(&self, f: &mut fmt::Formatter<W>) -> fmt::Result {
        f.debug_struct("Seq")
            .field("items", &self.as_slice())
            .finish()
    }
}

impl Footprint {
    /// No keys. Takes no memory.
    pub fn nothing() -> Self
        ensures { result ≡ [] }
    {
        Footprint {
            kept: Kept::Nothing,
        }
    }

    /// This key alone. Takes no memory.
    pub fn one(key: Key) -> Self
        ensures { result ≡ key ∷ [] }
    {
        Footprint {
            kept: Kept::One(key),
        }
    }

    /// These keys, in order. One key or none takes no memory.
    pub fn of(alloc: Global, keys: Vec<Key>) -> Result<Self, AllocError>
        ensures { IfOk result (λ footprint. footprint ≡ keys.items) }
    {
        match keys.as_slice() {
            [] => Ok(Footprint::nothing()),
            [key] => Ok(Footprint::one(*key)),
            _ => Ok(Footprint {
                kept: Kept::Several(Arc::new(alloc, Seq::of(keys))?),
            }),
        }
    }

    /// More than one key, which others may share. Takes no memory.
    pub(crate) fn several(keys: Arc<Seq<Key>>) -> Self
        ensures { result ≡ keys.value }
    {
        Footprint {
            kept: Kept::Several(keys),
        }
    }

    /// What is kept of it. Takes no memory.
    pub(crate) fn into_kept(self) -> Kept
        ensures { keys_of result ≡ self }
    {
        let Footprint { kept } = self;
        kept
    }

    /// The keys, in order. Takes no memory.
    pub fn as_slice(&self) -> &[Key]
        ensures { result.now ≡ self.now }
    {
        match &self.kept {
            Kept::Nothing => &[],
            Kept::One(key) => slice::from_ref(key),
            Kept::Several(keys) => keys.as_slice(),
        }
    }
}
