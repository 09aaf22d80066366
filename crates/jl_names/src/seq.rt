//! A list that is made once and then only read.

ghost use Rattle.std.specs.Prelude.{◌≡◌};
ghost use Rattle.std.specs.Cmp.Lexicographic.{pointwise, lists_equiv, lists_per};
ghost use Rattle.std.specs.Hash as fed;
ghost use Rattle.std.specs.Hash.{items_Alike};

use std::hash::{Hash, Hasher};
use std::marker::Model;

/// A list that is made once and then only read. A clause sees the list itself.
#[derive(Debug)]
pub struct Seq<T> {
    items: Vec<T>,
}

/// Written out, so that what drops one makes one call of it and doesn't take apart what it holds.
impl<T: Drop> Drop for Seq<T> {
    fn drop(self) {
        let Seq { items: _items } = self;
    }
}

impl<T> Model for Seq<T> {
    ghost use Rattle.std.specs.Prelude.{List};

    ghost Value = { List T };

    ghost view = { λ s. s.items.items };
}

impl<T> Seq<T> {
    ghost use Rattle.std.specs.Prelude.{◌<◌, length, slice_get, Some};

    /// The list of these items.
    pub fn of(items: Vec<T>) -> Self
        ensures { result ≡ items.items }
    {
        Seq { items }
    }

    /// The items, in order.
    pub fn as_slice(&self) -> &[T]
        ensures { result.now ≡ self.now }
    {
        self.items.as_slice()
    }

    /// The item at the place alone.
    pub fn into_item(self, place: usize) -> T
    where
        T: Drop,
        requires { place < length self }
        ensures { Some result ≡ slice_get self place }
    {
        let Seq { mut items } = self;
        items.swap_remove(place)
    }
}

/// Lists are equal if their items are, one by one.
impl<T: PartialEq> PartialEq for Seq<T> {
    ghost eq = { pointwise T.eq };

    ghost laws = { lists_per T.laws };

    fn eq(&self, other: &Self) -> bool {
        self.as_slice() == other.as_slice()
    }
}

impl<T: Eq> Eq for Seq<T> {
    ghost laws = { lists_equiv T.Eq.laws };
}

/// A list has the hash of its slice.
impl<T: Hash> Hash for Seq<T> {
    ghost hash_input = { fed.slice T.hash_input };

    ghost respects_eq = { (items_Alike (record { fed = T.respects_eq })).fed };

    fn hash<H: Hasher>(&self, state: &mut H) {
        self.as_slice().hash(state);
    }
}
