//! Why a class isn't defined (JVMS SE 17 §5.3.5).

ghost use Rattle.std.specs.Prelude.{◌≡◌, not, is_none, option_map, Some, None, position, IfOk};
ghost use Rattle.std.specs.Prelude.{IfErr, IfSome, OnOk, option_and_then, ◌+◌, ◌<◌, ◌^◌};
ghost use Rattle.std.specs.Option.{option_copied};
ghost use Rattle.jl_types.specs.Values.Members as members;
ghost use Rattle.jl_types.specs.Events.Definitions as definitions;
ghost use Rattle.jl_types.specs.Linkage.Resolution.{first_of};
ghost use Rattle.std.specs.Prelude.{option_to_list};
ghost use Rattle.std.specs.List.{list_any};
ghost use Rattle.jl_hierarchy.specs.ForProofs.Faults.{first_faults, superclass_faults, parent_faults, named_class, first_place};
ghost use Rattle.jl_hierarchy.specs.ForProofs.Faults.{fault_of, IsThere, is_open_row, is_fit_superclass, is_fit_interface, has_unfit_parent};

use crate::classes::Classes;
use crate::nests::is_among;
use jl_class::{ClassFile, FINAL, INTERFACE, PUBLIC, has_flag};
use jl_names::{Name, package_of};
use jl_types::{Class, DefineFault, LoaderId};

/// A fault of a definition, which tells a parent not by its name but by its place among the parents: the superclass, if there is
/// one, and then the superinterfaces.
#[derive(Drop)]
enum FaultAt {
    /// One that names no parent.
    Plain(DefineFault),
    /// A parent that isn't recorded.
    Missing(usize),
    /// A superinterface that is no interface, by its place among the superinterfaces alone.
    NoInterface(usize),
    /// A parent that isn't accessible.
    Closed(usize),
}

impl Classes {
    /// The file, if the loader may define its class (JVMS SE 17 §5.3.5) and there are fewer than `most_classes` so far. Takes no
    /// memory.
    ///
    /// This is the first half of [`define`](Classes::define), for a caller that makes room of its own between the two. If the class
    /// has no fault, each parent is looked up only once by its name.
    ///
    /// # Errors
    ///
    /// The first fault of the definition.
    pub fn admitted(
        &self,
        loader: LoaderId,
        file: ClassFile,
        most_classes: u32,
    ) -> Result<ClassFile, DefineFault>
        ensures same { IfOk result (λ f. f ≡ file) }
        ensures accepted { OnOk result (definitions.define_fault most_classes self.now loader file ≡ None) }
        ensures fault { IfErr result (λ f. definitions.define_fault most_classes self.now loader file ≡ Some f) }
    {
        match self.fault_at(loader, &file, most_classes as usize) {
            None => Ok(file),
            Some(FaultAt::Plain(fault)) => Err(fault),
            Some(FaultAt::Missing(place)) => {
                Err(DefineFault::MissingParent(file.into_parent(place)))
            }
            Some(FaultAt::NoInterface(place)) => {
                Err(DefineFault::NotAnInterface(file.into_interface(place)))
            }
            Some(FaultAt::Closed(place)) => {
                Err(DefineFault::InaccessibleParent(file.into_parent(place)))
            }
        }
    }

    /// Whether the loader may define the class of the file and there are fewer than `most_classes` so far. It is what
    /// [`admitted`](Classes::admitted) tells, for a caller that keeps the file. Takes no memory.
    pub fn admits(&self, loader: LoaderId, file: &ClassFile, most_classes: u32) -> bool
        ensures { result ≡ is_none (definitions.define_fault most_classes self.now loader file.now) }
    {
        self.fault_at(loader, file, most_classes as usize).is_none()
    }

    /// The first fault of the definition.
    fn fault_at(&self, loader: LoaderId, file: &ClassFile, most_classes: usize) -> Option<FaultAt>
        ensures first { definitions.define_fault most_classes self.now loader file.now ≡ option_and_then (fault_of file.now) result }
        ensures there { IfSome result (IsThere file.now) }
    {
        if let Some(fault) = self.first_fault(loader, file) {
            return Some(FaultAt::Plain(fault));
        }
        if let Some(fault) = self.parent_fault(loader, file) {
            return Some(fault);
        }
        if self.rows.len() >= most_classes {
            return Some(FaultAt::Plain(DefineFault::Full));
        }
        None
    }

    /// The first fault of a parent. Which one it is is looked for only if there is one.
    fn parent_fault(&self, loader: LoaderId, file: &ClassFile) -> Option<FaultAt>
        ensures first { first_of (parent_faults self.now loader file.now) ≡ option_and_then (fault_of file.now) result }
        ensures there { IfSome result (IsThere file.now) }
    {
        if !self.has_unfit_parent(loader, file) {
            return None;
        }
        if let Some(place) = self.missing_parent(loader, file) {
            return Some(FaultAt::Missing(place));
        }
        if let Some(fault) = self.superclass_fault(loader, file) {
            return Some(FaultAt::Plain(fault));
        }
        if let Some(place) = self.no_interface(loader, file) {
            return Some(FaultAt::NoInterface(place));
        }
        if let Some(place) = self.inaccessible_parent(loader, file) {
            return Some(FaultAt::Closed(place));
        }
        None
    }

    /// Whether the superclass or a superinterface has a fault. It finds each once by its name.
    fn has_unfit_parent(&self, loader: LoaderId, file: &ClassFile) -> bool
        ensures { result ≡ has_unfit_parent self.now loader file.now }
    {
        self.has_unfit_superclass(loader, file) || self.has_unfit_interface(loader, file)
    }

    /// Whether the superclass, if there is one, has a fault.
    fn has_unfit_superclass(&self, loader: LoaderId, file: &ClassFile) -> bool
        ensures { result ≡ list_any (λ name. not (is_fit_superclass self.now loader file.now name)) (option_to_list file.now.superclass) }
    {
        match file.superclass() {
            Some(name) => !self.is_fit_superclass(loader, file, name),
            None => false,
        }
    }

    /// Whether one of the listed superinterfaces has a fault.
    fn has_unfit_interface(&self, loader: LoaderId, file: &ClassFile) -> bool
        ensures { result ≡ list_any (λ name. not (is_fit_interface self.now loader file.now name)) file.now.interfaces }
    {
        file.interfaces()
            .iter()
            .any(|name| !self.is_fit_interface(loader, file, name))
    }

    /// Whether the class of this name may be the superclass: it is recorded, open to the class, no interface and not final.
    fn is_fit_superclass(&self, loader: LoaderId, file: &ClassFile, name: &Name) -> bool
        ensures { result ≡ is_fit_superclass self.now loader file.now name.now }
    {
        match self.named(loader, name.as_slice()) {
            Some(row) => {
                !has_flag(row.file().flags(), INTERFACE)
                    && !has_flag(row.file().flags(), FINAL)
                    && is_open_to(row, loader, file)
            }
            None => false,
        }
    }

    /// Whether the class of this name may be a superinterface: it is recorded, open to the class, and an interface.
    fn is_fit_interface(&self, loader: LoaderId, file: &ClassFile, name: &Name) -> bool
        ensures { result ≡ is_fit_interface self.now loader file.now name.now }
    {
        match self.named(loader, name.as_slice()) {
            Some(row) => {
                has_flag(row.file().flags(), INTERFACE) && is_open_to(row, loader, file)
            }
            None => false,
        }
    }

    /// The first of the faults that are tested before the parents are looked up.
    fn first_fault(&self, loader: LoaderId, file: &ClassFile) -> Option<DefineFault>
        ensures { result ≡ first_of (first_faults self.now loader file.now) }
    {
        if self.lacks_loader(loader) {
            return Some(DefineFault::UnknownLoader);
        }
        let name = file.name().as_slice();
        if name == b"java/lang/Object".as_slice() && loader.number() != 0 {
            return Some(DefineFault::SecondObject);
        }
        if self.lookup(loader, name).is_some() {
            return Some(DefineFault::AlreadyRecorded);
        }
        match file.superclass() {
            Some(superclass) if name == superclass.as_slice() => Some(DefineFault::NamesItself),
            _ if is_among(name, file.interfaces()) => Some(DefineFault::NamesItself),
            _ => None,
        }
    }

    /// The place of the first parent that the loader hasn't recorded, the superclass before the superinterfaces.
    fn missing_parent(&self, loader: LoaderId, file: &ClassFile) -> Option<usize>
        ensures { result ≡ position (λ name. is_none (members.lookup self.now loader name)) (definitions.parent_names file.now) }
    {
        place_of_parent(
            self.lacks_superclass(loader, file),
            self.missing_interface(loader, file),
        )
    }

    /// The place of the first superinterface that the loader hasn't recorded.
    fn missing_interface(&self, loader: LoaderId, file: &ClassFile) -> Option<usize>
        ensures first { result ≡ position (λ name. is_none (members.lookup self.now loader name)) file.now.interfaces }
        ensures few { IfSome result (λ place. place + 1 < 2 ^ 64) }
    {
        file.interfaces()
            .iter()
            .position(|name| self.lookup(loader, name.as_slice()).is_none())
    }

    /// Whether the loader hasn't recorded the superclass, if there is one.
    fn lacks_superclass(&self, loader: LoaderId, file: &ClassFile) -> Option<bool>
        ensures { result ≡ option_map (λ name. is_none (members.lookup self.now loader name)) file.now.superclass }
    {
        Some(self.lookup(loader, file.superclass()?.as_slice()).is_none())
    }

    /// The first of the faults of the superclass alone.
    fn superclass_fault(&self, loader: LoaderId, file: &ClassFile) -> Option<DefineFault>
        ensures { result ≡ first_of (superclass_faults self.now loader file.now) }
    {
        let row = self.named(loader, file.superclass()?.as_slice())?;
        if has_flag(row.file().flags(), INTERFACE) {
            return Some(DefineFault::SuperIsInterface);
        }
        if has_flag(row.file().flags(), FINAL) {
            return Some(DefineFault::FinalSuper);
        }
        None
    }

    /// The place of the first listed superinterface that is no interface.
    fn no_interface(&self, loader: LoaderId, file: &ClassFile) -> Option<usize>
        ensures { result ≡ position (λ name. not (definitions.named_test (members.is_interface self.now) self.now loader name)) file.now.interfaces }
    {
        file.interfaces().iter().position(|name| match self.named(loader, name.as_slice()) {
            Some(row) => !has_flag(row.file().flags(), INTERFACE),
            None => true,
        })
    }

    /// The place of the first parent that isn't accessible to the class, the superclass before the superinterfaces.
    fn inaccessible_parent(&self, loader: LoaderId, file: &ClassFile) -> Option<usize>
        ensures { result ≡ position (λ name. not (definitions.is_open_parent self.now loader file.now name)) (definitions.parent_names file.now) }
    {
        place_of_parent(
            self.has_closed_superclass(loader, file),
            self.inaccessible_interface(loader, file),
        )
    }

    /// The place of the first superinterface that isn't accessible to the class.
    fn inaccessible_interface(&self, loader: LoaderId, file: &ClassFile) -> Option<usize>
        ensures first { result ≡ position (λ name. not (definitions.is_open_parent self.now loader file.now name)) file.now.interfaces }
        ensures few { IfSome result (λ place. place + 1 < 2 ^ 64) }
    {
        file.interfaces()
            .iter()
            .position(|name| !self.is_open_parent(loader, file, name))
    }

    /// Whether the superclass isn't accessible to the class, if there is one.
    fn has_closed_superclass(&self, loader: LoaderId, file: &ClassFile) -> Option<bool>
        ensures { result ≡ option_map (λ name. not (definitions.is_open_parent self.now loader file.now name)) file.now.superclass }
    {
        Some(!self.is_open_parent(loader, file, file.superclass()?))
    }

    /// Whether the parent of this name is accessible to the class that the loader makes of the file: it is public, or in the run-time
    /// package of that class.
    fn is_open_parent(&self, loader: LoaderId, file: &ClassFile, name: &Name) -> bool
        ensures { result ≡ definitions.is_open_parent self.now loader file.now name.now }
    {
        match self.named(loader, name.as_slice()) {
            Some(row) => is_open_to(row, loader, file),
            None => false,
        }
    }

    /// The class that the loader has recorded under the name.
    fn named(&self, loader: LoaderId, name: &[u8]) -> Option<&Class>
        ensures { option_copied result ≡ named_class self.now loader name.now }
    {
        self.class_at(self.lookup(loader, name)?)
    }
}

/// Whether the class is accessible to the one that the loader makes of the file.
fn is_open_to(row: &Class, loader: LoaderId, file: &ClassFile) -> bool
    ensures { result ≡ is_open_row row.now loader file.now }
{
    has_flag(row.file().flags(), PUBLIC)
        || row.loader() == loader
            && package_of(row.file().name().as_slice()) == package_of(file.name().as_slice())
}

/// The first place among the parents that passes a test, from whether the superclass, if there is one, passes it, and from the
/// first place among the superinterfaces that does.
fn place_of_parent(superclass: Option<bool>, interface: Option<usize>) -> Option<usize>
    requires { IfSome interface (λ place. place + 1 < 2 ^ 64) }
    ensures { result ≡ first_place superclass interface }
{
    match superclass {
        Some(true) => Some(0),
        Some(false) => Some(interface? + 1),
        None => interface,
    }
}
