//! Laws of sketches and their class files.

ghost use Rattle.std.specs.Prelude.{◌≡◌, ◌<◌, ◌≤◌, ◌+◌, ℕ, List, None, IsFalse};
ghost use Rattle.jl_names.specs.MethodTypes.{TakesSlots};
ghost use Rattle.jl_classfile.specs.ClassFiles.{IsClass};
ghost use Rattle.jl_classfile.specs.Layouts.{file_text};
ghost use Rattle.jl_classfile.specs.Parts.{Parts};
ghost use Rattle.jl_classfile.specs.Shown.{shown};
ghost use Rattle.jl_sketch.specs.declared.sketch.Sketch.{Sketch};
ghost use Rattle.jl_sketch.specs.Counts.{count_byte};
ghost use Rattle.jl_sketch.specs.Faults.{is_too_big, first_without_code};
ghost use Rattle.jl_sketch.specs.Layouts.{sketch_layout};
ghost use Rattle.jl_sketch.specs.Names.{AreFlags, NamesParts, class_of};

/// Every number of a sketch's class file names, by its pool, what the sketch says.
pub fn numbers_name_their_parts()
    ensures { (sketch : Sketch) → NamesParts sketch }
{}

/// A class file that is read from a sketch's bytes lies as the sketch's does.
pub fn one_layout_of_a_sketch()
    ensures { (sketch : Sketch) (parts : Parts) → AreFlags sketch → IsFalse (is_too_big sketch)
        → IsClass (file_text (sketch_layout sketch)) parts → parts.layout ≡ sketch_layout sketch }
{}

/// A class file that is read from a sketch's bytes shows what the sketch says: the declarations, the nest, and the
/// invocations in each method's code with their pcs.
pub fn a_sketch_is_shown()
    ensures { (sketch : Sketch) (parts : Parts) → AreFlags sketch → IsFalse (is_too_big sketch) → first_without_code sketch ≡ None
        → IsClass (file_text (sketch_layout sketch)) parts → shown parts ≡ class_of sketch }
{}

/// The count of an invokeinterface is one for the receiver and the slots of the descriptor's parameters, 255 at most in
/// all. It is 0 if there is no such number.
pub fn counts_of_slots()
    ensures counted { (ty : List ℕ) (slots : ℕ) → TakesSlots ty slots → slots ≤ 254 → count_byte ty ≡ slots + 1 }
    ensures none { (ty : List ℕ) → ((slots : ℕ) → TakesSlots ty slots → 254 < slots) → count_byte ty ≡ 0 }
{}
