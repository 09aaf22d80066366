//! One call that requests an invocation and installs its link.

ghost use Rattle.jl_types.specs.declared.event.EventOf.TheVariants as event;
ghost use Rattle.jl_types.specs.Events.History.{installed};
ghost use Rattle.jl_core.specs.State.{events};
ghost use Rattle.jl_host.specs.Linking.{IsInstalledOnce, IsLinked, IsLinkedAt};

use crate::opened::Opened;
use crate::shown::{LinkShown, link_shown};
use crate::told::{DONE, Told, unasked};
use jl_types::{Event, Place, SiteNo};
use std::alloc::Global;

impl Opened {
    /// Requests the place, installs the link of its site unless there is one, and shows it.
    pub(crate) fn link(
        &mut self,
        alloc: Global,
        place: Place,
        told: &mut Told,
        link: &mut LinkShown,
    ) -> u32
        ensures { IsLinked (event.Request place) self.old link.old result told.new link.new self.new }
    {
        let status = self.submit(alloc, Event::Request(place), told);
        if status != DONE {
            return status;
        }
        self.link_site(alloc, SiteNo::new(told.number), told, link)
    }

    /// Installs the link of the site unless there is one, and shows it.
    fn link_site(
        &mut self,
        alloc: Global,
        site: SiteNo,
        told: &mut Told,
        link: &mut LinkShown,
    ) -> u32
        ensures { IsLinkedAt site self.old result told.new link.new self.new }
    {
        let status = self.install_once(alloc, site, told);
        told.number = site.number();
        *link = link_shown(self.core().links().get(site));
        status
    }

    /// Installs the link of the site unless there is one.
    fn install_once(&mut self, alloc: Global, site: SiteNo, told: &mut Told) -> u32
        ensures { IsInstalledOnce site (installed (events self.old.session.core) site) self.old result told.new self.new }
    {
        match self.core().links().get(site) {
            Some(_) => unasked(DONE, told),
            None => self.install(alloc, &[site], told),
        }
    }
}
