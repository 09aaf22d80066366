//! Fills the pool: each constant after its parts (JVMS SE 17 §4.4).

ghost use Rattle.std.specs.Prelude.{◌≡◌, fold, IfOk, OnOk};
ghost use Rattle.jl_sketch.specs.Constants.{with_text, with_class, with_signed, with_method, with_call, with_declared};
ghost use Rattle.jl_sketch.specs.Constants.{with_class_if_any, with_host, with_members, sketch_constants};

use crate::check::has_code;
use crate::constants::{Constants, NewConstant};
use crate::sketch::{Call, MethodName, Sketch, SketchMethod};
use jl_classfile::{CODE, NEST_HOST, NEST_MEMBERS};
use jl_names::Name;
use std::alloc::{AllocError, Global};

impl<'a> Constants<'a> {
    /// Enters the text, unless it is there.
    fn enter_text(&mut self, text: &'a [u8]) -> Result<(), AllocError>
        ensures { OnOk result (self.new ≡ with_text self.old text.now) }
    {
        self.enter(NewConstant::Utf8(text))
    }

    /// Enters the class of this name, after its name.
    fn enter_class(&mut self, name: &'a Name) -> Result<(), AllocError>
        ensures { OnOk result (self.new ≡ with_class self.old name.now) }
    {
        self.enter_text(name.as_slice())?;
        self.enter(self.class(name))
    }

    /// Enters the classes of these names, in order.
    fn enter_classes(&mut self, names: &'a [Name]) -> Result<(), AllocError>
        ensures { OnOk result (self.new ≡ fold with_class self.old names.now) }
    {
        for name in names {
            self.enter_class(name)?;
        }
        Ok(())
    }

    /// Enters the class of this name, if there is one.
    fn enter_class_if_any(&mut self, name: &'a Option<Name>) -> Result<(), AllocError>
        ensures { OnOk result (self.new ≡ with_class_if_any self.old name.now) }
    {
        match name {
            Some(name) => self.enter_class(name),
            None => Ok(()),
        }
    }

    /// Enters the name and type, after both texts.
    fn enter_signed(&mut self, name: &'a Name, ty: &'a Name) -> Result<(), AllocError>
        ensures { OnOk result (self.new ≡ with_signed self.old name.now ty.now) }
    {
        self.enter_text(name.as_slice())?;
        self.enter_text(ty.as_slice())?;
        self.enter(self.signed(name, ty))
    }

    /// Enters the method, of an interface or not, after its class and its name and type.
    fn enter_method(&mut self, itf: bool, method: &'a MethodName) -> Result<(), AllocError>
        ensures { OnOk result (self.new ≡ with_method itf self.old method.now) }
    {
        self.enter_class(&method.owner)?;
        self.enter_signed(&method.name, &method.ty)?;
        self.enter(self.method(itf, method))
    }

    /// Enters what the call names.
    fn enter_call(&mut self, call: &'a Call) -> Result<(), AllocError>
        ensures { OnOk result (self.new ≡ with_call self.old call.now) }
    {
        match call {
            Call::Virtual(method) => self.enter_method(false, method),
            Call::Special(itf, method) => self.enter_method(*itf, method),
            Call::Static(itf, method) => self.enter_method(*itf, method),
            Call::Interface(method) => self.enter_method(true, method),
            Call::Dynamic(name, ty) => {
                self.enter_signed(name, ty)?;
                self.enter(self.call_site(name, ty))
            }
        }
    }

    /// Enters what the calls name, in order.
    fn enter_calls(&mut self, calls: &'a [Call]) -> Result<(), AllocError>
        ensures { OnOk result (self.new ≡ fold with_call self.old calls.now) }
    {
        for call in calls {
            self.enter_call(call)?;
        }
        Ok(())
    }

    /// Enters what the declaration of the method names: its name, its descriptor, `Code`, and its calls.
    fn enter_declared(&mut self, method: &'a SketchMethod) -> Result<(), AllocError>
        ensures { OnOk result (self.new ≡ with_declared self.old method.now) }
    {
        self.enter_text(method.name.as_slice())?;
        self.enter_text(method.ty.as_slice())?;
        if has_code(method.flags) {
            self.enter_text(CODE)?;
        }
        self.enter_calls(method.calls.as_slice())
    }

    /// Enters what the declarations of the methods name, in order.
    fn enter_methods(&mut self, methods: &'a [SketchMethod]) -> Result<(), AllocError>
        ensures { OnOk result (self.new ≡ fold with_declared self.old methods.now) }
    {
        for method in methods {
            self.enter_declared(method)?;
        }
        Ok(())
    }

    /// Enters `NestHost` and the class, if there is a nest host.
    fn enter_host(&mut self, host: &'a Option<Name>) -> Result<(), AllocError>
        ensures { OnOk result (self.new ≡ with_host self.old host.now) }
    {
        let Some(host) = host else {
            return Ok(());
        };
        self.enter_text(NEST_HOST)?;
        self.enter_class(host)
    }

    /// Enters `NestMembers` and the classes, if there are nest members.
    fn enter_members(&mut self, members: &'a [Name]) -> Result<(), AllocError>
        ensures { OnOk result (self.new ≡ with_members self.old members.now) }
    {
        if members.is_empty() {
            return Ok(());
        }
        self.enter_text(NEST_MEMBERS)?;
        self.enter_classes(members)
    }

    /// The constants of a sketch.
    pub(crate) fn of(alloc: Global, sketch: &'a Sketch) -> Result<Self, AllocError>
        ensures { IfOk result (λ constants. constants ≡ sketch_constants sketch.now) }
    {
        let mut constants = Constants::new(alloc);
        constants.enter_class(&sketch.name)?;
        constants.enter_class_if_any(&sketch.superclass)?;
        constants.enter_classes(sketch.interfaces.as_slice())?;
        constants.enter_methods(sketch.methods.as_slice())?;
        constants.enter_host(&sketch.host)?;
        constants.enter_members(sketch.members.as_slice())?;
        Ok(constants)
    }
}
