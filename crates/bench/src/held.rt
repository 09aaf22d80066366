//! The numbers that the owner of a core holds, and those that it has let go.

use jl_names::Seq;
use jl_renewal::{Released, Renumbering};
use jl_types::{CallSiteId, ClassId, LoaderId, SwitchId};
use std::alloc::{AllocError, Global};
use std::collections::VecDeque;

/// How many loaders are held before the oldest is retired.
const LOADERS: usize = 100;

/// How many call sites, and how many switch points, are held before the oldest is let go.
const OF_A_KIND: usize = 5_000;

/// How many switch points are made before one becomes invalid.
const VALID: usize = 2_500;

/// A number of a core.
trait Number: Copy + Drop {
    /// The number in the fresh core, if what has this one stays.
    fn renewed(self, numbers: &Renumbering) -> Option<Self>;
}

impl Number for LoaderId {
    fn renewed(self, numbers: &Renumbering) -> Option<LoaderId> {
        numbers.loader(self)
    }
}

impl Number for CallSiteId {
    fn renewed(self, numbers: &Renumbering) -> Option<CallSiteId> {
        numbers.call_site(self)
    }
}

impl Number for SwitchId {
    fn renewed(self, numbers: &Renumbering) -> Option<SwitchId> {
        numbers.switch(self)
    }
}

/// The loaders, but for loader 0, the call sites and the switch points that are held, the oldest first, and those that were let go.
pub(crate) struct Held {
    /// The class of loader 0 whose methods call sites run.
    pub(crate) methods: ClassId,
    pub(crate) call_sites: VecDeque<CallSiteId>,
    loaders: VecDeque<LoaderId>,
    points: VecDeque<SwitchId>,
    gone_call_sites: VecDeque<CallSiteId>,
    gone_points: VecDeque<SwitchId>,
}

/// Written out, so that what drops one makes one call of it and doesn't take apart what it holds.
impl Drop for Held {
    fn drop(self) {
        let Held {
            methods: _methods,
            call_sites: _call_sites,
            loaders: _loaders,
            points: _points,
            gone_call_sites: _gone_call_sites,
            gone_points: _gone_points,
        } = self;
    }
}

impl Held {
    /// Only the class. Takes no memory.
    pub(crate) fn new(alloc: Global, methods: ClassId) -> Held {
        Held {
            methods,
            call_sites: VecDeque::new(alloc),
            loaders: VecDeque::new(alloc),
            points: VecDeque::new(alloc),
            gone_call_sites: VecDeque::new(alloc),
            gone_points: VecDeque::new(alloc),
        }
    }

    /// Holds the loader, and gives the one that is to be retired.
    pub(crate) fn hold_loader(&mut self, loader: LoaderId) -> Result<Option<LoaderId>, AllocError> {
        hold(&mut self.loaders, loader, LOADERS)
    }

    /// Holds the call site, and lets the oldest go.
    pub(crate) fn hold_call_site(&mut self, site: CallSiteId) -> Result<(), AllocError> {
        let oldest = hold(&mut self.call_sites, site, OF_A_KIND)?;
        let_go(&mut self.gone_call_sites, oldest)
    }

    /// Holds the switch point, and lets the oldest go.
    pub(crate) fn hold_point(&mut self, point: SwitchId) -> Result<(), AllocError> {
        let oldest = hold(&mut self.points, point, OF_A_KIND)?;
        let_go(&mut self.gone_points, oldest)
    }

    /// The switch point that is to become invalid.
    pub(crate) fn ending_point(&self) -> Option<SwitchId> {
        let place = self.points.len().checked_sub(VALID)?;
        self.points.get(place).copied()
    }

    /// What was let go.
    pub(crate) fn released(&self, alloc: Global) -> Result<Released, AllocError> {
        let call_sites = listed(alloc, &self.gone_call_sites)?;
        let switches = listed(alloc, &self.gone_points)?;
        Ok(Released {
            call_sites,
            switches,
        })
    }

    /// Takes over the numbers of the fresh core. What was let go and stays is still let go.
    pub(crate) fn take_over(&mut self, numbers: &Renumbering) -> Result<(), AllocError> {
        self.methods = numbers.class(self.methods).unwrap_or(self.methods);
        take_over(&mut self.loaders, numbers)?;
        take_over(&mut self.call_sites, numbers)?;
        take_over(&mut self.points, numbers)?;
        take_over(&mut self.gone_call_sites, numbers)?;
        take_over(&mut self.gone_points, numbers)
    }
}

/// Holds one more. If there are more than so many, gives the oldest, which isn't held any more.
fn hold<N: Number>(held: &mut VecDeque<N>, one: N, most: usize) -> Result<Option<N>, AllocError> {
    held.push_back(one)?;
    if held.len() > most {
        return Ok(held.pop_front());
    }
    Ok(None)
}

/// Adds the one that is let go, if any is.
fn let_go<N: Number>(gone: &mut VecDeque<N>, oldest: Option<N>) -> Result<(), AllocError> {
    if let Some(oldest) = oldest {
        gone.push_back(oldest)?;
    }
    Ok(())
}

/// These numbers, in order.
fn listed<N: Number>(alloc: Global, numbers: &VecDeque<N>) -> Result<Seq<N>, AllocError> {
    let mut list = Vec::new(alloc);
    for number in numbers.iter() {
        list.push(*number)?;
    }
    Ok(Seq::of(list))
}

/// Puts the numbers of the fresh core in the place of these, in order, and leaves out what is gone.
fn take_over<N: Number>(held: &mut VecDeque<N>, numbers: &Renumbering) -> Result<(), AllocError> {
    for _ in 0..held.len() {
        if let Some(old) = held.pop_front() {
            let_go(held, old.renewed(numbers))?;
        }
    }
    Ok(())
}
