//! The constants of a class file that is written, each once (JVMS SE 17 §4.4).

ghost use Rattle.std.specs.Prelude.{◌≡◌, [], length, map, OnOk};
ghost use Rattle.jl_sketch.specs.Constants.{enter, number, class_constant, signed_constant, method_constant, call_site_constant, call_constant};
ghost use Rattle.jl_sketch.specs.ForProofs.Entries.{constant_of};

use crate::sketch::{Call, MethodName};
use indexmap::IndexSet;
use jl_names::Name;
use std::alloc::{AllocError, Global};
use std::marker::Model;

/// A constant. A number names another one, counted from 1.
#[derive(Clone, Copy, PartialEq, Eq, Hash)]
pub(crate) enum NewConstant<'a> {
    Utf8(&'a [u8]),
    Class(usize),
    NameAndType(usize, usize),
    Methodref(usize, usize),
    InterfaceMethodref(usize, usize),
    /// Of the bootstrap method 0.
    InvokeDynamic(usize),
}

/// Constants in the order in which they were entered.
pub(crate) struct Constants<'a> {
    entries: IndexSet<NewConstant<'a>>,
}

/// Written out, so that what drops one makes one call of it and doesn't take apart what it holds.
impl<'a> Drop for Constants<'a> {
    fn drop(self) {
        let Constants { entries: _entries } = self;
    }
}

impl<'a> Model for Constants<'a> {
    ghost use Rattle.std.specs.Prelude.{List, map};
    ghost use Rattle.jl_pool.specs.declared.constant.Constant.{Constant};
    ghost use Rattle.jl_sketch.specs.ForProofs.Entries.{constant_of};

    ghost Value = { List Constant };

    ghost view = { λ c. map constant_of c.entries.keys };
}

impl<'a> Constants<'a> {
    /// No constants.
    pub(crate) fn new(alloc: Global) -> Self
        ensures { result ≡ [] }
    {
        Constants {
            entries: IndexSet::new(alloc),
        }
    }

    /// How many there are.
    pub(crate) fn len(&self) -> usize
        ensures { result ≡ length self.now }
    {
        self.entries.len()
    }

    /// The constants, in order.
    pub(crate) fn as_slice(&self) -> &[NewConstant<'a>]
        ensures { map constant_of result.now ≡ self.now }
    {
        self.entries.as_slice()
    }

    /// Enters a constant, unless an equal one is there.
    #[tactic(auto, unfolding(crate::specs::Constants::enter))]
    pub(crate) fn enter(&mut self, entry: NewConstant<'a>) -> Result<(), AllocError>
        ensures { OnOk result (self.new ≡ enter self.old (constant_of entry.entry)) }
    {
        self.entries.insert(entry)?;
        Ok(())
    }

    /// The number of the constant, or 0 if it isn't there.
    #[tactic(auto, unfolding(crate::specs::Constants::number))]
    pub(crate) fn number(&self, entry: NewConstant<'a>) -> usize
        ensures { result ≡ number self.now (constant_of entry.entry) }
    {
        // The length is what says that `index + 1` fits.
        let _len = self.entries.len();
        match self.entries.get_index_of(&entry) {
            Some(index) => index + 1,
            None => 0,
        }
    }

    /// The Class of a name.
    pub(crate) fn class(&self, name: &'a Name) -> NewConstant<'a>
        ensures { constant_of result ≡ class_constant self.now name.now }
    {
        NewConstant::Class(self.number(NewConstant::Utf8(name.as_slice())))
    }

    /// The NameAndType of a name and a descriptor.
    pub(crate) fn signed(&self, name: &'a Name, ty: &'a Name) -> NewConstant<'a>
        ensures { constant_of result ≡ signed_constant self.now name.now ty.now }
    {
        let name = self.number(NewConstant::Utf8(name.as_slice()));
        let ty = self.number(NewConstant::Utf8(ty.as_slice()));
        NewConstant::NameAndType(name, ty)
    }

    /// The InterfaceMethodref of a method, or its Methodref.
    pub(crate) fn method(&self, itf: bool, method: &'a MethodName) -> NewConstant<'a>
        ensures { constant_of result ≡ method_constant self.now itf method.now }
    {
        let owner = self.number(self.class(&method.owner));
        let signed = self.number(self.signed(&method.name, &method.ty));
        if itf {
            NewConstant::InterfaceMethodref(owner, signed)
        } else {
            NewConstant::Methodref(owner, signed)
        }
    }

    /// The InvokeDynamic of a name and a descriptor.
    pub(crate) fn call_site(&self, name: &'a Name, ty: &'a Name) -> NewConstant<'a>
        ensures { constant_of result ≡ call_site_constant self.now name.now ty.now }
    {
        NewConstant::InvokeDynamic(self.number(self.signed(name, ty)))
    }

    /// What a call names.
    pub(crate) fn called(&self, call: &'a Call) -> NewConstant<'a>
        ensures { constant_of result ≡ call_constant self.now call.now }
    {
        match call {
            Call::Virtual(method) => self.method(false, method),
            Call::Special(itf, method) => self.method(*itf, method),
            Call::Static(itf, method) => self.method(*itf, method),
            Call::Interface(method) => self.method(true, method),
            Call::Dynamic(name, ty) => self.call_site(name, ty),
        }
    }
}
