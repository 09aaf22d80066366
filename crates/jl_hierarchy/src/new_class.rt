//! What the definition of a class adds.

ghost use Rattle.std.specs.Prelude.{◌≡◌, ◌==◌, ◌<◌, ◌++◌, ◌∷◌, [], ℕ, length, filter_map, option_and_then, option_to_list};
ghost use Rattle.std.specs.Prelude.{true, All, IfOk, OnOk, if◌then◌else◌};
ghost use Rattle.jl_class.specs.Flags.{extends_object};
ghost use Rattle.jl_types.specs.Values.Members as members;
ghost use Rattle.std.specs.List.{flat_map, list_any};
ghost use Rattle.jl_types.specs.Values.Ancestry as ancestry;
ghost use Rattle.jl_types.specs.Values.Ancestry.{AreOrdered};
ghost use Rattle.jl_hierarchy.specs.ForProofs.Kept.{Rises};
ghost use Rattle.jl_types.specs.Events.Definitions as definitions;

use crate::classes::Classes;
use crate::receiving::is_concrete;
use crate::row::Row;
use jl_class::ClassFile;
use jl_names::{Name, Seq};
use jl_types::{Class, ClassId, LoaderId};
use std::alloc::{AllocError, Global};

impl Classes {
    /// The class that the loader makes of the file, as it is kept.
    pub(crate) fn row_made(
        &self,
        alloc: Global,
        loader: LoaderId,
        file: ClassFile,
    ) -> Result<Row, AllocError>
        ensures row { IfOk result (λ row. row ≡ definitions.class_made self.now loader file) }
        ensures interface { OnOk result (extends_object file.flags file.superclass ≡ true) }
    {
        let superclass = self.found_superclass(loader, &file);
        let interfaces = self.found_all(alloc, loader, file.interfaces())?;
        let class = Class::new(loader, file, superclass, Seq::of(interfaces));
        Row::new(alloc, class)
    }

    /// The class that the loader has recorded under the superclass's name.
    fn found_superclass(&self, loader: LoaderId, file: &ClassFile) -> Option<ClassId>
        ensures found { result ≡ option_and_then (members.lookup self.now loader) file.now.superclass }
        ensures interface { extends_object file.now.flags file.now.superclass ≡ true }
    {
        self.lookup(loader, file.superclass()?.as_slice())
    }

    /// The classes that the loader has recorded under these names, in order.
    fn found_all(
        &self,
        alloc: Global,
        loader: LoaderId,
        names: &[Name],
    ) -> Result<Vec<ClassId>, AllocError>
        ensures { IfOk result (λ found. found.items ≡ filter_map (members.lookup self.now loader) names.now) }
    {
        let mut found = Vec::with_capacity(alloc, names.len())?;
        for name in names {
            let Some(class) = self.lookup(loader, name.as_slice()) else {
                continue;
            };
            found.push(class)?;
        }
        Ok(found)
    }

    /// The ancestors of the class that comes next, without itself: those of its parents, each once, by rising number.
    pub(crate) fn proper_ancestors(
        &self,
        alloc: Global,
        row: &Class,
    ) -> Result<Vec<ClassId>, AllocError>
        requires { AreOrdered (self.now.rows ++ row.now ∷ []) }
        ensures all { IfOk result (λ proper. proper.items ++ length self.now.rows ∷ []
            ≡ ancestry.ancestors (self.now.rows ++ row.now ∷ []) (length self.now.rows)) }
        ensures rising { IfOk result (λ proper. Rises proper.items) }
        ensures there { IfOk result (λ proper. All (λ a. a < length self.now.rows) proper.items) }
        ensures members { IfOk result (λ proper. (a : ℕ) → list_any (λ k. k == a) proper.items
            ≡ list_any (λ p. ancestry.is_ancestor self.now a p) (ancestry.parents row.now)) }
    {
        let parents = parents_of(alloc, row.superclass(), row.interfaces())?;
        let proper = self.joined_ancestors(alloc, &parents)?;
        Ok(proper)
    }

    /// The classes that would get one receiver more if the loader defined the class of the file, by rising number. They are its
    /// ancestors and itself, which would get the next number. If no object may be of it, there are none.
    pub fn gaining_receiver(
        &self,
        alloc: Global,
        loader: LoaderId,
        file: &ClassFile,
    ) -> Result<Vec<ClassId>, AllocError>
        ensures { IfOk result (λ gaining. gaining.items
            ≡ (if members.is_concrete (definitions.defined self.now loader file.now) (length self.now.rows)
            then ancestry.ancestors (definitions.defined self.now loader file.now).rows (length self.now.rows) else [])) }
    {
        if !is_concrete(file) || self.is_retired(loader) {
            return Ok(Vec::new(alloc));
        }
        let gaining = self.ancestors_if_defined(alloc, loader, file)?;
        Ok(gaining)
    }

    /// The ancestors, by rising number, of the class that the loader would make of the file, and itself as the last.
    fn ancestors_if_defined(
        &self,
        alloc: Global,
        loader: LoaderId,
        file: &ClassFile,
    ) -> Result<Vec<ClassId>, AllocError>
        ensures { IfOk result (λ all. all.items
            ≡ ancestry.ancestors (definitions.defined self.now loader file.now).rows (length self.now.rows)) }
    {
        let class = ClassId::new(self.rows.len() as u32);
        let superclass = self.found_superclass(loader, file);
        let interfaces = self.found_all(alloc, loader, file.interfaces())?;
        let parents = parents_of(alloc, superclass, &interfaces)?;
        let mut all = self.joined_ancestors(alloc, &parents)?;
        all.push(class)?;
        Ok(all)
    }

    /// The ancestors of these classes, each once, by rising number.
    pub(crate) fn joined_ancestors(
        &self,
        alloc: Global,
        classes: &[ClassId],
    ) -> Result<Vec<ClassId>, AllocError>
        requires there { All (λ p. p < length self.now.rows) classes.now }
        requires ordered { AreOrdered self.now.rows }
        ensures rising { IfOk result (λ joined. Rises joined.items) }
        ensures members { IfOk result (λ joined. (a : ℕ) → list_any (λ k. k == a) joined.items
            ≡ list_any (λ p. ancestry.is_ancestor self.now a p) classes.now) }
    {
        let mut joined = self.ancestors_of_all(alloc, classes)?;
        joined.sort_unstable();
        joined.dedup();
        Ok(joined)
    }

    /// The ancestors of these classes, one class after another.
    fn ancestors_of_all(
        &self,
        alloc: Global,
        classes: &[ClassId],
    ) -> Result<Vec<ClassId>, AllocError>
        requires { All (λ p. p < length self.now.rows) classes.now }
        ensures { IfOk result (λ all. all.items ≡ flat_map (ancestry.ancestors self.now.rows) classes.now) }
    {
        let mut all = Vec::new(alloc);
        for class in classes {
            all.extend_from_slice(self.ancestors(*class))?;
        }
        Ok(all)
    }
}

/// The superclass, if there is one, and then the superinterfaces.
fn parents_of(
    alloc: Global,
    superclass: Option<ClassId>,
    interfaces: &[ClassId],
) -> Result<Vec<ClassId>, AllocError>
    ensures { IfOk result (λ parents. parents.items ≡ option_to_list superclass ++ interfaces.now) }
{
    match superclass {
        Some(superclass) => {
            let mut parents = Vec::new(alloc);
            parents.push(superclass)?;
            parents.extend_from_slice(interfaces)?;
            Ok(parents)
        }
        None => interfaces.to_vec(alloc),
    }
}
