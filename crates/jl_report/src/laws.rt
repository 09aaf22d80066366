//! The laws of a report: contracts of functions that do nothing.

ghost use Rattle.std.specs.Prelude.{◌≡◌, ℕ, List, Some, None, true, false, length, slice_get, option_and_then};
ghost use Rattle.std.specs.List.{list_any, IsDistinct};
ghost use Rattle.jl_names.specs.MethodTypes.{Signature, method_text, IsSignature};
ghost use Rattle.jl_pool.specs.declared.reference.CallSiteSpecifier.{CallSiteSpecifier};
ghost use Rattle.jl_class.specs.Class.{ClassFile};
ghost use Rattle.jl_class.specs.Site.{Site};
ghost use Rattle.jl_class.specs.declared.site.Operand.TheVariants as operand;
ghost use Rattle.jl_types.specs.declared.ids.Place.{Place};
ghost use Rattle.jl_types.specs.declared.ids.MethodId.{MethodId};
ghost use Rattle.jl_types.specs.declared.link.Link.{Link};
ghost use Rattle.jl_types.specs.Values.World.{World, Classes};
ghost use Rattle.jl_types.specs.Values.Members.{lookup};
ghost use Rattle.jl_types.specs.Linkage.Stages.{bound_to};
ghost use Rattle.jl_types.specs.Linkage.Links.{scratch};
ghost use Rattle.jl_types.specs.Events.Definitions.{define_fault, defined};
ghost use Rattle.jl_types.specs.Events.Footprints.{footprint, meets};
ghost use Rattle.jl_hierarchy.specs.Constancy.{AreInOrder};
ghost use Rattle.jl_hierarchy.specs.Redeclared.{AreLines};
ghost use Rattle.jl_relink.specs.Placed.{asking};
ghost use Rattle.jl_report.specs.declared.invocation.Invocation.{Invocation};
ghost use Rattle.jl_report.specs.declared.row.Row.{Row};
ghost use Rattle.jl_report.specs.declared.row.Finding.TheVariants as finding;
ghost use Rattle.jl_report.specs.Reports.{row_of};
ghost use Rattle.jl_report.specs.Drops.{keys_of, now_changed, has_changing_link, is_open};
ghost use Rattle.jl_report.specs.Methods.{is_same, looked_at, runs, methods_run};
ghost use Rattle.jl_report.specs.Finals.{overrides_final, AreDerived, is_final_call};
ghost use Rattle.jl_report.specs.Made.{class_of, made_by, meets_made, marks_of, meets_marks};
ghost use Rattle.jl_report.specs.Gathering.{most_classes};

/// In each world of the same classes a site that is bound to no call site has the link that a report of its place has, and rests on the
/// same keys. It is so whatever else is requested, and whatever call sites there are.
pub fn reported_links_are_from_scratch()
    ensures links { (w : World) (s : ℕ) (place : Place) → slice_get w.places s ≡ Some place → bound_to w s ≡ None
        → scratch w s ≡ scratch (asking w.classes place) 0 }
    ensures rests_on { (w : World) (s : ℕ) (place : Place) → slice_get w.places s ≡ Some place → bound_to w s ≡ None
        → footprint w s ≡ footprint (asking w.classes place) 0 }
{}

/// Among classes that came in order a row that has a link is the same one once a further class is defined that doesn't drop the link.
/// No link is dropped of a row that rests on nothing that the class changes, nor of one with no link or a megamorphic one. Links are
/// dropped of open rows alone: a row with a link that isn't open is the same one whichever class is defined, and isn't open then.
pub fn undropped_links_stay()
    ensures undropped { (cs : Classes) (file : ClassFile) (invocation : Invocation) (l : Link) → AreInOrder cs
        → define_fault most_classes cs 0 file ≡ None → (row_of cs invocation).finding ≡ finding.Linked l
        → now_changed (defined cs 0 file) (keys_of cs file) (row_of cs invocation) ≡ None
        → row_of (defined cs 0 file) invocation ≡ row_of cs invocation }
    ensures untouched { (cs : Classes) (file : ClassFile) (invocation : Invocation) (l : Link) → AreInOrder cs
        → define_fault most_classes cs 0 file ≡ None → (row_of cs invocation).finding ≡ finding.Linked l
        → meets (row_of cs invocation).rests_on (keys_of cs file) ≡ false
        → row_of (defined cs 0 file) invocation ≡ row_of cs invocation }
    ensures unchanging { (cs : Classes) (file : ClassFile) (invocation : Invocation) → AreInOrder cs → define_fault most_classes cs 0 file ≡ None
        → has_changing_link (row_of cs invocation).finding ≡ false
        → now_changed (defined cs 0 file) (keys_of cs file) (row_of cs invocation) ≡ None }
    ensures closed { (cs : Classes) (file : ClassFile) (invocation : Invocation) → AreInOrder cs
        → define_fault most_classes cs 0 file ≡ None → is_open cs (row_of cs invocation) ≡ false
        → now_changed (defined cs 0 file) (keys_of cs file) (row_of cs invocation) ≡ None }
    ensures stays { (cs : Classes) (file : ClassFile) (invocation : Invocation) (l : Link) → AreInOrder cs
        → define_fault most_classes cs 0 file ≡ None → (row_of cs invocation).finding ≡ finding.Linked l
        → is_open cs (row_of cs invocation) ≡ false → row_of (defined cs 0 file) invocation ≡ row_of cs invocation }
    ensures remains { (cs : Classes) (file : ClassFile) (invocation : Invocation) (l : Link) → AreInOrder cs
        → define_fault most_classes cs 0 file ≡ None → (row_of cs invocation).finding ≡ finding.Linked l
        → is_open cs (row_of cs invocation) ≡ false → is_open (defined cs 0 file) (row_of (defined cs 0 file) invocation) ≡ false }
{}

/// No class that a JVM takes drops the link of a row that runs a FINAL method of the class that it names, or of a superclass, though the
/// row may be open. Among classes that came in order a further class leaves the row and its mark, if the classes with the further one
/// are derived (JVMS SE 17 §5.3.5). They are derived if the others are, the further class overrides no FINAL method, and each ancestor
/// of a class that isn't an interface is one of its superclasses.
pub fn final_calls_stay()
    ensures kept { (cs : Classes) (file : ClassFile) (invocation : Invocation) → AreInOrder cs → define_fault most_classes cs 0 file ≡ None
        → AreDerived (defined cs 0 file) → is_final_call cs (row_of cs invocation) ≡ true
        → now_changed (defined cs 0 file) (keys_of cs file) (row_of cs invocation) ≡ None }
    ensures stays { (cs : Classes) (file : ClassFile) (invocation : Invocation) → AreInOrder cs → define_fault most_classes cs 0 file ≡ None
        → AreDerived (defined cs 0 file) → is_final_call cs (row_of cs invocation) ≡ true
        → row_of (defined cs 0 file) invocation ≡ row_of cs invocation }
    ensures remains { (cs : Classes) (file : ClassFile) (invocation : Invocation) → AreInOrder cs → define_fault most_classes cs 0 file ≡ None
        → AreDerived (defined cs 0 file) → is_final_call cs (row_of cs invocation) ≡ true
        → is_final_call (defined cs 0 file) (row_of (defined cs 0 file) invocation) ≡ true }
    ensures derived { (cs : Classes) (file : ClassFile) → AreInOrder cs → AreDerived cs
        → overrides_final (defined cs 0 file) (length cs.rows) ≡ false → AreLines (defined cs 0 file).rows → AreDerived (defined cs 0 file) }
{}

/// Of the methods that a row is told to run each is run by a call, each that a call runs is told, and two are different ones.
pub fn told_methods_run()
    ensures run { (cs : Classes) (row : Row) (m : MethodId)
        → list_any (λ n. is_same n m) (methods_run cs row) ≡ list_any (λ n. is_same n m) (runs cs row (looked_at row.rests_on)) }
    ensures apart { (cs : Classes) (row : Row) → IsDistinct is_same (methods_run cs row) }
{}

/// An invokedynamic whose descriptor is the text of a signature (JVMS SE 17 §4.3.3) makes an object of the class or interface that loader 0
/// has recorded by the name of the signature's result, if that is one. And the marks of the classes tell of each row whether it meets such
/// objects.
pub fn made_objects_are_marked()
    ensures results { (cs : Classes) (site : Site) (specifier : CallSiteSpecifier (List ℕ)) (m : Signature)
        → site.operand ≡ operand.CallSite specifier → IsSignature m → specifier.ty ≡ method_text m
        → made_by cs site ≡ option_and_then (lookup cs 0) (option_and_then class_of m.returns) }
    ensures marks { (cs : Classes) (row : Row) → meets_marks (marks_of cs) row ≡ meets_made cs row }
{}
