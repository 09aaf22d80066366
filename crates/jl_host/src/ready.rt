//! The links of those of several sites that have one.

ghost use Rattle.std.specs.Prelude.{◌≡◌, ◌⊎◌, ◌≤◌, length, IfOk};
ghost use Rattle.jl_types.specs.Linkage.Links.{scratch};
ghost use Rattle.jl_host.specs.Numbers.{memory};
ghost use Rattle.jl_host.specs.Linking as linking;
ghost use Rattle.jl_host.specs.Linking.{IsInstalledIfAny, IsNotReadied, IsReadied, IsReadyIn, links_at, ready_among};

use crate::arrays::sites_from;
use crate::opened::Opened;
use crate::shown::{LinkShown, link_shown};
use crate::told::{DONE, MEMORY, TOO_SHORT, Told, unasked};
use jl_core::Core;
use jl_relink::{World, link_of};
use jl_types::SiteNo;
use std::alloc::{AllocError, Global};

impl Opened {
    /// Installs the links of those of the sites that have one now, and shows what each of the sites has then.
    pub(crate) fn install_ready(
        &mut self,
        alloc: Global,
        sites: &[u32],
        links: &mut [LinkShown],
        told: &mut Told,
    ) -> u32
        ensures { IsReadyIn sites.now self.old links.old result told.new links.new self.new }
    {
        if links.len() < sites.len() {
            return unasked(TOO_SHORT, told);
        }
        let Ok(sites) = sites_from(alloc, sites) else {
            return unasked(MEMORY, told);
        };
        self.install_ready_in(alloc, sites.as_slice(), links, told)
    }

    /// Installs the links of those of the sites that have one now, and shows what each of the sites has then. The links have room for them.
    fn install_ready_in(
        &mut self,
        alloc: Global,
        sites: &[SiteNo],
        links: &mut [LinkShown],
        told: &mut Told,
    ) -> u32
        requires { length sites.now ≤ length links.old }
        ensures { IsReadied sites.now self.old links.old result told.new links.new self.new
            ⊎ IsNotReadied memory self.old links.old result told.new links.new self.new }
    {
        let Ok(ready) = ready_of(alloc, self.core().world(), sites) else {
            return unasked(MEMORY, told);
        };
        let status = self.install_any(alloc, ready.as_slice(), told);
        if status == DONE {
            show_links(self.core(), sites, links);
        }
        status
    }

    /// Installs the links of the sites, if there are any.
    fn install_any(&mut self, alloc: Global, sites: &[SiteNo], told: &mut Told) -> u32
        ensures { IsInstalledIfAny sites.now self.old result told.new self.new }
    {
        match sites {
            [] => unasked(DONE, told),
            _ => self.install(alloc, sites, told),
        }
    }
}

/// Those of the sites that have a link now.
fn ready_of(alloc: Global, world: &World, sites: &[SiteNo]) -> Result<Vec<SiteNo>, AllocError>
    ensures { IfOk result (λ ready. ready.items ≡ ready_among world.now sites.now) }
{
    sites
        .iter()
        .filter_map(|site| if_linked(world, *site))
        .collect(alloc)
}

/// The site, if it has a link now.
fn if_linked(world: &World, site: SiteNo) -> Option<SiteNo>
    ensures { result ≡ linking.if_linked site (scratch world.now site) }
{
    match link_of(world, site) {
        Ok(_) => Some(site),
        Err(_) => None,
    }
}

/// Writes what is installed at each of the sites to the front of the array, which has room for them.
fn show_links(core: &Core, sites: &[SiteNo], links: &mut [LinkShown])
    requires { length sites.now ≤ length links.old }
    ensures { links.new ≡ links_at core.now sites.now links.old }
{
    for (place, site) in sites.iter().enumerate() {
        links[place] = link_shown(core.links().get(*site));
    }
}
