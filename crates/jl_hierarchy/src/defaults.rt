//! Superinterface methods (JVMS SE 17 §5.4.3.3).

ghost use Rattle.std.specs.Prelude.{◌≡◌, ◌<◌, length};
ghost use Rattle.jl_types.specs.Linkage.Resolution.{candidates, defaults, first_element, pick};
ghost use Rattle.jl_hierarchy.specs.ForProofs.Defaults as by_ancestor;

use crate::classes::Classes;
use crate::name_and_type::NameAndType;
use jl_types::{Chosen, ClassId, MethodId};

impl Classes {
    /// The method of the sought name and descriptor that a superinterface of the class declares, neither private nor static. Of several
    /// it is that of the superinterface of least number.
    pub fn first_candidate_by(&self, class: ClassId, sought: &NameAndType<'_>) -> Option<MethodId>
        requires { class < length self.now.rows }
        ensures { result ≡ first_element (candidates self.now sought.now.name sought.now.ty class) }
    {
        for ancestor in self.ancestors(class) {
            if let Some(method) = self.candidate(class, *ancestor, sought) {
                return Some(method);
            }
        }
        None
    }

    /// The maximally-specific superinterface method of the sought name and descriptor that isn't abstract; or that there are several, or
    /// none.
    pub fn default_by(&self, class: ClassId, sought: &NameAndType<'_>) -> Chosen
        requires { class < length self.now.rows }
        ensures { result ≡ pick (defaults self.now sought.now.name sought.now.ty class) }
    {
        let mut found = None;
        for ancestor in self.ancestors(class) {
            let Some(method) = self.default_of(class, *ancestor, sought) else {
                continue;
            };
            if found.is_some() {
                return Chosen::Several;
            }
            found = Some(method);
        }
        match found {
            Some(method) => Chosen::Method(method),
            None => Chosen::Nothing,
        }
    }

    /// The method that the ancestor declares, if it is a superinterface of the class and the method is neither private nor
    /// static.
    fn candidate(
        &self,
        class: ClassId,
        ancestor: ClassId,
        sought: &NameAndType<'_>,
    ) -> Option<MethodId>
        ensures { result ≡ by_ancestor.candidate_at self.now sought.now.name sought.now.ty class ancestor }
    {
        if !self.is_interface(ancestor) || ancestor == class {
            return None;
        }
        let method = self.declared_by(ancestor, sought)?;
        if self.is_private(&method) || self.is_static(&method) {
            return None;
        }
        Some(method)
    }

    /// The candidate that the ancestor declares, if it isn't abstract and no subinterface of the ancestor declares another
    /// one.
    fn default_of(
        &self,
        class: ClassId,
        ancestor: ClassId,
        sought: &NameAndType<'_>,
    ) -> Option<MethodId>
        requires { class < length self.now.rows }
        ensures { result ≡ by_ancestor.default_at self.now sought.now.name sought.now.ty class ancestor }
    {
        let method = self.candidate(class, ancestor, sought)?;
        if !self.is_abstract(&method) && !self.is_redeclared(class, method.class, sought) {
            Some(method)
        } else {
            None
        }
    }

    /// Whether a superinterface of the class that is a proper subinterface of this one declares a method of the name and descriptor
    /// that is neither private nor static.
    fn is_redeclared(&self, class: ClassId, interface: ClassId, sought: &NameAndType<'_>) -> bool
        requires { class < length self.now.rows }
        ensures { result ≡ by_ancestor.is_redeclared self.now sought.now.name sought.now.ty class interface }
    {
        self.ancestors(class).iter().any(|lower| {
            self.is_proper_ancestor(interface, *lower)
                && self.candidate(class, *lower, sought).is_some()
        })
    }
}
