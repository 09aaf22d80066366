//! Which classes have a subclass that declares a method again that they see.

ghost use Rattle.std.specs.Prelude.{◌≡◌, ◌<◌, ◌^◌, ℕ, Some, true, false, length, IfOk, IfSome, OnOk};
ghost use Rattle.std.specs.List.{list_any};
ghost use Rattle.jl_types.specs.Values.Members as members;
ghost use Rattle.jl_types.specs.Values.Ancestry as ancestry;
ghost use Rattle.jl_hierarchy.specs.Redeclared.{is_listed, has_method, sees, declares_print, sees_print, line_above, is_above, is_on};
ghost use Rattle.jl_hierarchy.specs.Redeclared.{AreLines, IsNotRedeclared, IsTold};

use crate::classes::Classes;
use crate::marks::Mark;
use crate::name_and_type::NameAndType;
use crate::row::{methods_of, print_of_method};
use jl_class::Methods;
use jl_types::{Class, ClassId};
use std::alloc::{AllocError, Global};

/// How many classes a definition looks at for each method, on the average, and how many besides. Past these it marks every method
/// at each ancestor, so that a class of many methods far below the top costs little more than its ancestors.
const LOOKS_A_METHOD: usize = 16;

const LOOKS_BESIDES: usize = 256;

impl Classes {
    /// What the definition of the class marks: each method's print at its superclasses, up to the first that declares one of that
    /// print. The classes above that one that see such a method were marked when that one was defined.
    ///
    /// None, if every method is to be marked at each ancestor. It is so if the marks take too many looks; or if they did so a class
    /// or two above, and the class is as deep.
    pub(crate) fn marks_of(
        &self,
        alloc: Global,
        row: &Class,
    ) -> Result<Option<Vec<Mark>>, AllocError>
        ensures { IfOk result (λ found. IfSome found (λ marks. (s p : ℕ) → has_method p row.now.file.methods ≡ true
            → is_on s (line_above self.now row.now) ≡ true → sees_print self.now p s ≡ true
            → IsTold self.now p (is_listed marks.items) s)) }
    {
        let Some(superclass) = row.superclass() else {
            return Ok(Some(Vec::new(alloc)));
        };
        if self.is_deep(superclass) {
            return Ok(None);
        }
        self.marks_of_each(alloc, superclass, &methods_of(row))
    }

    /// Whether every method is marked at the class or at its superclass, and the class has 16 superclasses or more.
    fn is_deep(&self, class: ClassId) -> bool {
        let Some(superclass) = self.superclass(class) else {
            return false;
        };
        (self.marks.has_every(class) || self.marks.has_every(superclass))
            && self.has_superclasses(class, LOOKS_A_METHOD)
    }

    /// Whether the class has so many superclasses or more.
    fn has_superclasses(&self, class: ClassId, count: usize) -> bool {
        let mut at = class;
        for _ in 0..count {
            let Some(superclass) = self.superclass(at) else {
                return false;
            };
            at = superclass;
        }
        true
    }

    /// The marks of each of these methods. None, if they take too many looks.
    fn marks_of_each(
        &self,
        alloc: Global,
        superclass: ClassId,
        methods: &Methods<'_>,
    ) -> Result<Option<Vec<Mark>>, AllocError>
        requires { length methods.now < 2 ^ 16 }
        ensures { IfOk result (λ found. IfSome found (λ marks. (s p : ℕ) → has_method p methods.now ≡ true
            → ancestry.is_subclass self.now superclass s ≡ true → sees_print self.now p s ≡ true
            → IsTold self.now p (is_listed marks.items) s)) }
    {
        let mut marks = Vec::new(alloc);
        let mut looks = LOOKS_A_METHOD * methods.len() + LOOKS_BESIDES;
        let mut place = 0;
        while let Some(method) = methods.at(place) {
            let print = print_of_method(&method);
            let Some(left) = self.mark_upward(superclass, print, looks, &mut marks)? else {
                return Ok(None);
            };
            looks = left;
            place += 1;
        }
        Ok(Some(marks))
    }

    /// Marks the print at the class and upward, to the first that declares a method of it. If none does, it marks none of them. It
    /// answers how many looks are left, or None if there were too few.
    fn mark_upward(
        &self,
        class: ClassId,
        print: u64,
        looks: usize,
        marks: &mut Vec<Mark>,
    ) -> Result<Option<usize>, AllocError>
        ensures kept { OnOk result ((s p : ℕ) → is_listed marks.old.items s p ≡ true → is_listed marks.new.items s p ≡ true) }
        ensures told { IfOk result (λ left. IfSome left (λ n. (s : ℕ) → ancestry.is_subclass self.now class s ≡ true
            → sees_print self.now print s ≡ true → IsTold self.now print (is_listed marks.new.items) s)) }
    {
        let start = marks.len();
        let mut left = looks;
        let mut at = class;
        while left > 0 {
            left -= 1;
            marks.push(Mark { class: at, print })?;
            if self.declares_print(at, print) {
                return Ok(Some(left));
            }
            let Some(superclass) = self.superclass(at) else {
                marks.truncate(start);
                return Ok(Some(left));
            };
            at = superclass;
        }
        Ok(None)
    }

    /// Whether the class declares a method of this print.
    fn declares_print(&self, class: ClassId, print: u64) -> bool
        ensures { result ≡ declares_print self.now print class }
    {
        match self.row_at(class) {
            Some(row) => row.has_print(print),
            None => false,
        }
    }

    /// Whether a proper subclass of the class may declare such a method, which the class sees: one look at what is marked.
    pub fn is_redeclared_below(&self, class: ClassId, sought: &NameAndType<'_>) -> bool
        ensures { result ≡ false → sees self.now sought.now.name sought.now.ty class ≡ true
            → IsNotRedeclared self.now sought.now.name sought.now.ty class }
    {
        // Opens the classes' invariant: what must be marked is.
        let _ = self.class_at(class);
        self.marks.has(class, sought.print())
    }

    /// Whether it is known that each ancestor of a class that isn't an interface is one of its superclasses.
    pub fn are_superclass_chains(&self) -> bool
        ensures { result ≡ true → AreLines self.now.rows }
    {
        self.are_superclass_chains
    }

    /// Whether each ancestor of the class that is made, unless it is an interface, is an ancestor of its superclass. It is so if this
    /// is known of the classes that are there, and the superclass of each direct superinterface is an ancestor of its superclass.
    pub(crate) fn is_line(&self, row: &Class) -> bool
        ensures { result ≡ true → (a : ℕ) → list_any (λ p. ancestry.is_ancestor self.now a p) (ancestry.parents row.now) ≡ true
            → members.is_interface self.now a ≡ false → is_above self.now row.now a ≡ true }
    {
        if !self.are_superclass_chains() {
            return false;
        }
        for interface in row.interfaces() {
            if !self.is_on_line(row, *interface) {
                return false;
            }
        }
        true
    }

    /// Whether `interface` is an interface, and its superclass is an ancestor of the superclass of the class that is made.
    fn is_on_line(&self, row: &Class, interface: ClassId) -> bool
        ensures { result ≡ true → AreLines self.now.rows → (a : ℕ) → ancestry.is_ancestor self.now a interface ≡ true
            → members.is_interface self.now a ≡ false → is_above self.now row.now a ≡ true }
    {
        if !self.is_interface(interface) {
            return false;
        }
        self.has_above(row, self.superclass(interface))
    }

    /// Whether the class, if there is one, is an ancestor of the superclass of the class that is made.
    fn has_above(&self, row: &Class, upper: Option<ClassId>) -> bool
        ensures { result ≡ true → (s : ℕ) → upper ≡ Some s → is_above self.now row.now s ≡ true }
    {
        match (upper, row.superclass()) {
            (None, _) => true,
            (Some(upper), Some(superclass)) => self.is_ancestor(upper, superclass),
            (Some(_), None) => false,
        }
    }
}
