//! Calls that no code makes, bytes that aren't defined yet, and links in one call.

ghost use Rattle.jl_host.specs.Linkers.{IsCheckUpTo};
ghost use Rattle.jl_host.specs.Calling.{IsSelect, IsResolve, IsClassAccessible};
ghost use Rattle.jl_host.specs.Linking.{IsLink, IsInstallReady};

use super::Linker;
use crate::calling::{tell_access, tell_call, tell_resolution};
use crate::shown::{CallAnswer, LinkShown, ResolutionShown};
use crate::told::{CLOSED, MALFORMED, Told, unasked};
use jl_types::{ClassId, Place};
use std::alloc::Global;

impl Linker {
    /// The answer to a call of the method at the place of the class, as reflection, method handles and native code make it. A static method
    /// or an instance initialization method is called itself; of others one is selected by the receiver (§5.4.6). Takes no memory.
    pub fn select(&mut self, class: u32, method: u32, receiver: u32, answer: &mut CallAnswer) -> u32
        ensures { IsSelect class method receiver self.old answer.old result answer.new self.new }
    {
        match &self.opened {
            Some(opened) => tell_call(
                &opened.core().world().classes,
                class,
                method,
                receiver,
                answer,
            ),
            None => CLOSED,
        }
    }

    /// What a reference to the method of this name and descriptor in the class `named` resolves to for the class `from` (§5.4.3.3,
    /// §5.4.3.4, §5.4.4). The method that is found is told, too, accessible or not. Takes no memory.
    pub fn resolve(
        &mut self,
        from: u32,
        named: u32,
        name: &[u8],
        ty: &[u8],
        resolution: &mut ResolutionShown,
    ) -> u32
        ensures { IsResolve from named name.now ty.now self.old resolution.old result resolution.new self.new }
    {
        let Some(opened) = &self.opened else {
            return CLOSED;
        };
        let classes = &opened.core().world().classes;
        let (from, named) = (ClassId::new(from), ClassId::new(named));
        tell_resolution(classes, from, named, name, ty, resolution)
    }

    /// Whether the class is accessible to the class `from` (§5.4.4): 1, or 0. Takes no memory.
    pub fn class_accessible(&mut self, from: u32, class: u32, accessible: &mut u32) -> u32
        ensures { IsClassAccessible from class self.old accessible.old result accessible.new self.new }
    {
        let Some(opened) = &self.opened else {
            return CLOSED;
        };
        let (from, class) = (ClassId::new(from), ClassId::new(class));
        tell_access(&opened.core().world().classes, from, class, accessible)
    }

    /// Whether the bytes are a class file (JVMS SE 17 §4) whose major version is at most `newest`, by [`jl_classfile::read_class_up_to`].
    /// Nothing is defined.
    pub fn check_up_to(&mut self, alloc: Global, newest: u16, bytes: &[u8], told: &mut Told) -> u32
        ensures { IsCheckUpTo newest bytes.now self.old result told.new self.new }
    {
        match &mut self.opened {
            Some(opened) => opened.check_up_to(alloc, newest, bytes, told),
            None => unasked(CLOSED, told),
        }
    }

    /// Requests the invocation at the pc of a method, looks its link up and installs it unless there is one, and writes the link. What is
    /// told names the site, also if that has no link now.
    pub fn link(
        &mut self,
        alloc: Global,
        class: u32,
        method: u32,
        pc: u32,
        link: &mut LinkShown,
        told: &mut Told,
    ) -> u32
        ensures { IsLink class method pc self.old link.old result told.new link.new self.new }
    {
        let Some(opened) = &mut self.opened else {
            return unasked(CLOSED, told);
        };
        let Ok(method) = u16::try_from(method) else {
            return unasked(MALFORMED, told);
        };
        let class = ClassId::new(class);
        opened.link(alloc, Place { class, method, pc }, told, link)
    }

    /// Installs the links of those of the sites that have one from scratch now, 1 to 256 of them: all of these or none. Writes what is
    /// installed at each of the sites then to the front of the array.
    pub fn install_ready(
        &mut self,
        alloc: Global,
        sites: &[u32],
        links: &mut [LinkShown],
        told: &mut Told,
    ) -> u32
        ensures { IsInstallReady sites.now self.old links.old result told.new links.new self.new }
    {
        match &mut self.opened {
            Some(opened) => opened.install_ready(alloc, sites, links, told),
            None => unasked(CLOSED, told),
        }
    }
}
