//! Which class files become classes.

ghost use Rattle.std.specs.Prelude.{◌≡◌, List, length, reverse, All, IfOk, OnOk, is_some, slice_get, true, Some, None};
ghost use Rattle.std.specs.List.{range_with_len};
ghost use Rattle.jl_class.specs.Class.{ClassFile};
ghost use Rattle.jl_types.specs.Events.Definitions.{define_fault, defined};
ghost use Rattle.jl_report.specs.Gathering.{most_classes, Gathers, IsRefused, numbers};
ghost use Rattle.jl_report.specs.ForProofs.Waiting.{AreOf, AreRefused, IsNext, IsNextInRound, places, queue};

use jl_class::ClassFile;
use jl_hierarchy::Classes;
use jl_types::{DefineFault, LoaderId};
use std::alloc::{AllocError, Global};
use std::mem;

/// The most classes of a report.
const MOST_CLASSES: u32 = 65_536;

/// Why the file at this place makes no class.
#[derive(Debug, Drop)]
pub struct Refused {
    pub place: usize,
    pub fault: DefineFault,
}

/// A file that waits for its definition, and its place among all files.
#[derive(Drop)]
pub(crate) struct Waiting {
    place: usize,
    file: ClassFile,
}

/// Files that wait for their definition, in rounds. A file waits until its parents are there, so files may come in any order; parents had
/// best come first.
#[derive(Drop)]
pub struct Rounds {
    /// Those whose turn comes in this round, the next one last.
    waiting: Vec<Waiting>,
    /// Those that had their turn in this round.
    left: Vec<Waiting>,
}

impl Rounds {
    /// These files, the first one next.
    ///
    /// # Errors
    ///
    /// Want of memory.
    pub fn of(alloc: Global, files: Vec<ClassFile>) -> Result<Self, AllocError>
        ensures places { IfOk result (λ rounds. places (queue rounds) ≡ reverse (range_with_len 0 (length files.items))) }
        ensures files { IfOk result (λ rounds. AreOf files.items (queue rounds)) }
    {
        Ok(Rounds {
            waiting: every_file(alloc, files)?,
            left: Vec::new(alloc),
        })
    }

    /// Takes out the next file whose class loader 0 may define, if it may define one of them.
    ///
    /// # Errors
    ///
    /// Want of memory. A file may be lost then.
    pub fn next(&mut self, classes: &Classes) -> Result<Option<ClassFile>, AllocError>
        ensures { IfOk result (λ file. IsNext classes.now self.old self.new file) }
    {
        match self.next_in_round(classes)? {
            Some(file) => Ok(Some(file)),
            None => self.next_in_round(classes),
        }
    }

    /// Takes out the next file of this round whose class loader 0 may define. If there is none, another round begins.
    fn next_in_round(&mut self, classes: &Classes) -> Result<Option<ClassFile>, AllocError>
        ensures { IfOk result (λ file. IsNextInRound classes.now self.old self.new file) }
    {
        while let Some(one) = self.waiting.pop() {
            if !is_barred(classes, &one.file) {
                return Ok(Some(one.file));
            }
            self.left.push(one)?;
        }
        self.left.reverse();
        mem::swap(&mut self.waiting, &mut self.left);
        Ok(None)
    }

    /// Why loader 0 may define none of the files that are left, the last one first.
    ///
    /// # Errors
    ///
    /// Want of memory.
    pub fn refusals(self, alloc: Global, classes: &Classes) -> Result<Vec<Refused>, AllocError>
        requires { AreRefused classes.now self }
        ensures places { IfOk result (λ refused. numbers refused.items ≡ reverse (places self.waiting.items)) }
        ensures refused { IfOk result (λ refused. (files : List ClassFile) → AreOf files self.waiting.items
            → All (IsRefused files classes.now) refused.items) }
    {
        let mut waiting = self.waiting;
        let mut refused = Vec::with_capacity(alloc, waiting.len())?;
        while let Some(one) = waiting.pop() {
            refused.push(refusal(classes, one))?;
        }
        Ok(refused)
    }
}

/// The loader that defines all classes.
pub(crate) fn first_loader() -> LoaderId
    ensures { result ≡ 0 }
{
    LoaderId::new(0)
}

/// Whether loader 0 may not define the class of the file.
pub(crate) fn is_barred(classes: &Classes, file: &ClassFile) -> bool
    ensures { result ≡ is_some (define_fault most_classes classes.now 0 file.now) }
{
    !classes.admits(first_loader(), file, MOST_CLASSES)
}

/// Loader 0 makes classes of these files, beside those that are there. Of the files that are told it makes none: in the end it may define
/// none of them.
///
/// # Errors
///
/// Want of memory. Some classes may be made then.
pub fn define_all(
    alloc: Global,
    classes: &mut Classes,
    files: Vec<ClassFile>,
) -> Result<Vec<Refused>, AllocError>
    ensures each { IfOk result (λ refused.
        Gathers files.items classes.new classes.old (range_with_len 0 (length files.items)) (numbers refused.items)) }
    ensures refused { IfOk result (λ refused. All (IsRefused files.items classes.new) refused.items) }
{
    let mut rounds = Rounds::of(alloc, files)?;
    while let Some(file) = rounds.next(classes)? {
        define_one(alloc, classes, file)?;
    }
    rounds.refusals(alloc, classes)
}

/// The files, each with its place, the first one last.
fn every_file(alloc: Global, files: Vec<ClassFile>) -> Result<Vec<Waiting>, AllocError>
    ensures places { IfOk result (λ all. places all.items ≡ reverse (range_with_len 0 (length files.items))) }
    ensures files { IfOk result (λ all. AreOf files.items all.items) }
{
    let mut files = files;
    let mut all = Vec::with_capacity(alloc, files.len())?;
    while let Some(file) = files.pop() {
        all.push(Waiting {
            place: files.len(),
            file,
        })?;
    }
    Ok(all)
}

/// Loader 0 defines the class of the file.
pub(crate) fn define_one(
    alloc: Global,
    classes: &mut Classes,
    file: ClassFile,
) -> Result<(), AllocError>
    requires { define_fault most_classes classes.old 0 file ≡ None }
    ensures { OnOk result (classes.new ≡ defined classes.old 0 file) }
{
    let _class = classes.add(alloc, first_loader(), file)?;
    Ok(())
}

/// Why loader 0 may not define the file.
fn refusal(classes: &Classes, one: Waiting) -> Refused
    requires { is_some (define_fault most_classes classes.now 0 one.file) ≡ true }
    ensures place { result.place ≡ one.place }
    ensures fault { (files : List ClassFile) → slice_get files one.place ≡ Some one.file → IsRefused files classes.now result }
{
    Refused {
        place: one.place,
        fault: classes
            .admitted(first_loader(), one.file, MOST_CLASSES)
            .unwrap_err(),
    }
}
