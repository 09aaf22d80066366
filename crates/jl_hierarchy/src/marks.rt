//! Marks of methods that a subclass declares again.

ghost use Rattle.std.specs.Prelude.{◌≡◌, ℕ, [], None, true, OnOk, IfSome};
ghost use Rattle.jl_hierarchy.specs.Redeclared.{tells, is_listed, is_every, is_marked, is_on};

use indexmap::IndexSet;
use jl_types::ClassId;
use std::alloc::{AllocError, Global};
use std::marker::Model;
use std::sync::Arc;

/// A class, and the print of a method that it sees.
#[derive(Clone, Copy, PartialEq, Eq, Hash)]
pub(crate) struct Mark {
    pub(crate) class: ClassId,
    pub(crate) print: u64,
}

/// Marks, each once, and by number the classes of which every method is marked. A clause sees both lists.
pub(crate) struct Redeclared {
    marks: IndexSet<Mark>,
    every: Vec<bool>,
}

/// Written out, so that what drops one makes one call of it and doesn't take apart what it holds.
impl Drop for Redeclared {
    fn drop(self) {
        let Redeclared {
            marks: _marks,
            every: _every,
        } = self;
    }
}

impl Model for Redeclared {
    ghost use Rattle.jl_hierarchy.specs.Redeclared.{Marked};

    ghost Value = { Marked };

    ghost view = { λ m. (m.marks.keys, m.every.items) };
}

impl Clone for Redeclared {
    ghost is_clone = { λ marks copy. copy ≡ marks };

    fn clone(&self) -> Result<Redeclared, AllocError> {
        Ok(Redeclared {
            marks: self.marks.clone()?,
            every: self.every.clone()?,
        })
    }
}

impl Redeclared {
    /// No marks.
    pub(crate) fn new(alloc: Global) -> Self
        ensures { result ≡ ([], []) }
    {
        Redeclared {
            marks: IndexSet::new(alloc),
            every: Vec::new(alloc),
        }
    }

    /// Whether the method of this print is marked at the class.
    pub(crate) fn has(&self, class: ClassId, print: u64) -> bool
        ensures { result ≡ is_marked self.now class print }
    {
        self.has_every(class) || self.marks.contains(&Mark { class, print })
    }

    /// Whether every method is marked at the class.
    pub(crate) fn has_every(&self, class: ClassId) -> bool
        ensures { result ≡ is_every self.now.1 class }
    {
        match self.every.get(class.number() as usize) {
            Some(every) => *every,
            None => false,
        }
    }

    /// Adds the mark, if it isn't there. On an error nothing has changed.
    fn add(&mut self, mark: Mark) -> Result<(), AllocError>
        ensures kept { (s p : ℕ) → is_marked self.old s p ≡ true → is_marked self.new s p ≡ true }
        ensures added { OnOk result ((s p : ℕ) → tells s p mark ≡ true → is_marked self.new s p ≡ true) }
    {
        self.marks.insert(mark)?;
        Ok(())
    }

    /// Marks every method at the class.
    fn add_every(&mut self, class: ClassId) -> Result<(), AllocError>
        ensures kept { (s p : ℕ) → is_marked self.old s p ≡ true → is_marked self.new s p ≡ true }
        ensures added { OnOk result ((p : ℕ) → is_marked self.new class p ≡ true) }
    {
        set_every(&mut self.every, class.number() as usize)
    }
}

/// Sets the test of this number, and makes those before it that aren't there.
fn set_every(every: &mut Vec<bool>, number: usize) -> Result<(), AllocError>
    ensures kept { (s : ℕ) → is_every every.old.items s ≡ true → is_every every.new.items s ≡ true }
    ensures added { OnOk result (is_every every.new.items number ≡ true) }
{
    while every.len() <= number {
        every.push(false)?;
    }
    every.as_mut_slice()[number] = true;
    Ok(())
}

/// Adds the marks that aren't there. If no list of marks is given, it marks every method at each of these classes. Marks that
/// others hold, too, are copied before the first new one. On an error some of the marks are added.
pub(crate) fn add_marks(
    shared: &mut Arc<Redeclared>,
    marks: &Option<Vec<Mark>>,
    classes: &[ClassId],
) -> Result<(), AllocError>
    ensures kept { (s p : ℕ) → is_marked shared.old.value s p ≡ true → is_marked shared.new.value s p ≡ true }
    ensures each { OnOk result (IfSome marks.now (λ ms. (s p : ℕ) → is_listed ms.items s p ≡ true → is_marked shared.new.value s p ≡ true)) }
    ensures every { OnOk result (marks.now ≡ None → (s p : ℕ) → is_on s classes.now ≡ true → is_marked shared.new.value s p ≡ true) }
{
    match marks {
        Some(marks) => add_each(shared, marks.as_slice()),
        None => add_every(shared, classes),
    }
}

/// Adds those of these marks that aren't there. On an error some of them are added.
fn add_each(shared: &mut Arc<Redeclared>, marks: &[Mark]) -> Result<(), AllocError>
    ensures kept { (s p : ℕ) → is_marked shared.old.value s p ≡ true → is_marked shared.new.value s p ≡ true }
    ensures added { OnOk result ((s p : ℕ) → is_listed marks.now s p ≡ true → is_marked shared.new.value s p ≡ true) }
{
    for mark in marks {
        if shared.has(mark.class, mark.print) {
            continue;
        }
        let own = Arc::make_mut(shared)?;
        own.add(*mark)?;
    }
    Ok(())
}

/// Marks every method at each of these classes. On an error some of them are done.
fn add_every(shared: &mut Arc<Redeclared>, classes: &[ClassId]) -> Result<(), AllocError>
    ensures kept { (s p : ℕ) → is_marked shared.old.value s p ≡ true → is_marked shared.new.value s p ≡ true }
    ensures added { OnOk result ((s p : ℕ) → is_on s classes.now ≡ true → is_marked shared.new.value s p ≡ true) }
{
    for class in classes {
        if shared.has_every(*class) {
            continue;
        }
        let own = Arc::make_mut(shared)?;
        own.add_every(*class)?;
    }
    Ok(())
}
