//! The ancestors of a class.

ghost use Rattle.std.specs.Prelude.{◌≡◌, ◌++◌, ◌∷◌, [], IfOk};

use jl_names::Seq;
use jl_pages::Again;
use jl_types::ClassId;
use std::alloc::{AllocError, Global};
use std::marker::Model;

/// The ancestors of a class, rising, itself the last. A clause sees the list.
#[derive(Drop)]
pub(crate) struct AncestorList {
    all: Seq<ClassId>,
}

impl Model for AncestorList {
    ghost use Rattle.std.specs.Prelude.{List, ℕ};

    ghost Value = { List ℕ };

    ghost view = { λ k. k.all };
}

impl AncestorList {
    /// These ancestors, and the class itself.
    pub(crate) fn of(
        alloc: Global,
        proper: &[ClassId],
        class: ClassId,
    ) -> Result<AncestorList, AllocError>
        ensures { IfOk result (λ list. list ≡ proper.now ++ class ∷ []) }
    {
        let mut all = Vec::with_capacity(alloc, proper.len() + 1)?;
        all.extend_from_slice(proper)?;
        all.push(class)?;
        Ok(AncestorList { all: Seq::of(all) })
    }

    /// The ancestors, in order.
    pub(crate) fn as_slice(&self) -> &[ClassId]
        ensures { result.now ≡ self.now }
    {
        self.all.as_slice()
    }
}

impl Again for AncestorList {
    fn again(&self, alloc: Global) -> Result<AncestorList, AllocError> {
        Ok(AncestorList {
            all: Seq::of(self.as_slice().to_vec(alloc)?),
        })
    }
}
