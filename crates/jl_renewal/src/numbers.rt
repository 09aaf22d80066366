//! The numbers that what stays has in the fresh core.

ghost use Rattle.std.specs.Prelude.{◌≡◌, ◌<◌, ◌^◌, IfOk};
ghost use Rattle.jl_renewal.specs.Numbers.{numbered, how_many, new_number};

use jl_types::{CallSiteId, ClassId, LoaderId, SiteNo, SwitchId};
use std::alloc::{AllocError, Global};
use std::marker::Model;

/// Of each old loader, class, site, call site and switch point its number in the fresh core, or none if it is gone. A clause sees
/// these lists.
pub struct Renumbering {
    pub(crate) loaders: Vec<Option<u32>>,
    pub(crate) classes: Vec<Option<u32>>,
    pub(crate) sites: Vec<Option<u32>>,
    pub(crate) call_sites: Vec<Option<u32>>,
    pub(crate) switches: Vec<Option<u32>>,
}

/// Written out, so that what drops one makes one call of it and doesn't take apart what it holds.
impl Drop for Renumbering {
    fn drop(self) {
        let Renumbering {
            loaders: _loaders,
            classes: _classes,
            sites: _sites,
            call_sites: _call_sites,
            switches: _switches,
        } = self;
    }
}

impl Model for Renumbering {
    ghost use Rattle.jl_renewal.specs.Numbers.{Numbers};

    ghost Value = { Numbers };

    ghost view = { λ r. record {
      loaders = r.loaders.items;
      classes = r.classes.items;
      sites = r.sites.items;
      call_sites = r.call_sites.items;
      switches = r.switches.items;
    } };
}

impl Renumbering {
    /// The loader's number in the fresh core.
    pub fn loader(&self, old: LoaderId) -> Option<LoaderId>
        ensures { result ≡ new_number self.now.loaders old }
    {
        Some(LoaderId::new(new_number(self.loaders.as_slice(), old.number())?))
    }

    /// The class's number in the fresh core.
    pub fn class(&self, old: ClassId) -> Option<ClassId>
        ensures { result ≡ new_number self.now.classes old }
    {
        Some(ClassId::new(new_number(self.classes.as_slice(), old.number())?))
    }

    /// The site's number in the fresh core.
    pub fn site(&self, old: SiteNo) -> Option<SiteNo>
        ensures { result ≡ new_number self.now.sites old }
    {
        Some(SiteNo::new(new_number(self.sites.as_slice(), old.number())?))
    }

    /// The call site's number in the fresh core.
    pub fn call_site(&self, old: CallSiteId) -> Option<CallSiteId>
        ensures { result ≡ new_number self.now.call_sites old }
    {
        Some(CallSiteId::new(new_number(self.call_sites.as_slice(), old.number())?))
    }

    /// The switch point's number in the fresh core.
    pub fn switch(&self, old: SwitchId) -> Option<SwitchId>
        ensures { result ≡ new_number self.now.switches old }
    {
        Some(SwitchId::new(new_number(self.switches.as_slice(), old.number())?))
    }

    /// Of each old loader, in order, its number in the fresh core, or none.
    pub fn loaders(&self) -> &[Option<u32>]
        ensures { result.now ≡ self.now.loaders }
    {
        self.loaders.as_slice()
    }

    /// Of each old class, in order, its number in the fresh core, or none.
    pub fn classes(&self) -> &[Option<u32>]
        ensures { result.now ≡ self.now.classes }
    {
        self.classes.as_slice()
    }

    /// Of each old site, in order, its number in the fresh core, or none.
    pub fn sites(&self) -> &[Option<u32>]
        ensures { result.now ≡ self.now.sites }
    {
        self.sites.as_slice()
    }

    /// Of each old call site, in order, its number in the fresh core, or none.
    pub fn call_sites(&self) -> &[Option<u32>]
        ensures { result.now ≡ self.now.call_sites }
    {
        self.call_sites.as_slice()
    }

    /// Of each old switch point, in order, its number in the fresh core, or none.
    pub fn switches(&self) -> &[Option<u32>]
        ensures { result.now ≡ self.now.switches }
    {
        self.switches.as_slice()
    }
}

/// The new number of what had this one, if it stays.
fn new_number(numbers: &[Option<u32>], old: u32) -> Option<u32>
    ensures { result ≡ new_number numbers.now old }
{
    *numbers.get(old as usize)?
}

/// The next numbers for those that stay, in order.
pub(crate) fn numbered(alloc: Global, stays: &[bool]) -> Result<Vec<Option<u32>>, AllocError>
    requires { how_many stays.now < 2 ^ 32 }
    ensures { IfOk result (λ numbers. numbers.items ≡ numbered stays.now) }
{
    let mut numbers = Vec::with_capacity(alloc, stays.len())?;
    let mut next = 0u32;
    for one in stays {
        numbers.push(one.then_some(next))?;
        next += u32::from(*one);
    }
    Ok(numbers)
}

/// How many stay.
pub(crate) fn how_many(stays: &[bool]) -> usize
    ensures { result ≡ how_many stays.now }
{
    // Bounds the count.
    let _most = stays.len();
    let mut count = 0;
    for one in stays {
        count += usize::from(*one);
    }
    count
}
