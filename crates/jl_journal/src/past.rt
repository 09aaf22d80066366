//! A list that only proofs read. It takes no memory, and its methods do nothing at run time.
//!
//! Its functions are proved by hand, as any function is that writes what only proofs read.

ghost use Rattle.std.specs.Prelude.{◌≡◌, List, [], ◌∷◌, ◌++◌};
ghost use Rattle.std.specs.Borrow.{ftrue};

use std::marker::{Model, PhantomData};

/// What is past. A clause reads it as `items`.
#[derive(Drop)]
pub(crate) struct Past<T> {
    of: PhantomData<T>,
    pub ghost items: { List T },
}

impl<T> Model for Past<T> {
    ghost also_owns = { λ _. ftrue };
}

impl<T> Past<T> {
    /// Nothing is past.
    pub(crate) fn none() -> Past<T>
        ensures { result.items ≡ [] }
    {
        Past { of: PhantomData }
    }

    /// What is past, and this element after it.
    pub(crate) fn and(&self, element: &T) -> Past<T>
        ensures { result.items ≡ self.now.items ++ element.now ∷ [] }
    {
        Past { of: PhantomData }
    }

    /// A copy of what is past.
    pub(crate) fn again(&self) -> Past<T>
        ensures { result.items ≡ self.now.items }
    {
        Past { of: PhantomData }
    }
}
