//! Ancestors and receivers, which are kept.

ghost use Rattle.std.specs.Prelude.{◌≡◌, ◌<◌, length};
ghost use Rattle.jl_types.specs.Values.Members as members;
ghost use Rattle.jl_types.specs.Values.Ancestry as ancestry;
ghost use Rattle.jl_types.specs.Values.Ancestry.{AreOrdered};

use crate::classes::Classes;
use crate::receiving::is_concrete;
use jl_types::ClassId;

impl Classes {
    /// The ancestors of the class, by rising number, itself the last: its superclasses and all superinterfaces.
    pub fn ancestors(&self, class: ClassId) -> &[ClassId]
        requires { class < length self.now.rows }
        ensures ordered { AreOrdered self.now.rows }
        ensures listed { result.now ≡ ancestry.ancestors self.now.rows class }
    {
        self.above.at(class.number() as usize).as_slice()
    }

    /// Whether the first class is the second one or an ancestor of it, by a search in the ancestors that are kept. A class that
    /// isn't there has no ancestors.
    pub fn is_ancestor(&self, ancestor: ClassId, class: ClassId) -> bool
        ensures { result ≡ ancestry.is_ancestor self.now ancestor class }
    {
        if !self.has_class(class) {
            return false;
        }
        self.ancestors(class).binary_search(&ancestor).is_ok()
    }

    /// Whether the first class is an ancestor of the second one, and not that itself.
    pub fn is_proper_ancestor(&self, ancestor: ClassId, class: ClassId) -> bool
        ensures { result ≡ ancestry.is_proper_ancestor self.now ancestor class }
    {
        ancestor != class && self.is_ancestor(ancestor, class)
    }

    /// Whether objects may be of the class: it is neither an interface nor abstract, and its loader isn't retired.
    pub fn is_concrete(&self, class: ClassId) -> bool
        ensures { result ≡ members.is_concrete self.now class }
    {
        match self.class_at(class) {
            Some(row) => is_concrete(row.file()) && !self.is_retired(row.loader()),
            None => false,
        }
    }

    /// The receivers of the class: the classes that have it among their ancestors, as it has itself, and that are neither an
    /// interface, nor abstract, nor retired.
    pub fn receivers(&self, class: ClassId) -> &[ClassId]
        requires { class < length self.now.rows }
        ensures { result.now ≡ ancestry.receivers self.now class }
    {
        self.below.as_slice()[class.number() as usize].as_slice()
    }
}
