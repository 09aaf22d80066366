//! Loaders that are to go at once.

ghost use Rattle.std.specs.Prelude.{◌≡◌, [], IfOk};
ghost use Rattle.jl_types.specs.Events.Retirement.{gone_with, is_listed};

use indexmap::IndexSet;
use jl_types::LoaderId;
use std::alloc::{AllocError, Global};
use std::marker::Model;

/// Loaders that are to go at once, with a look-up by number. A clause sees them as they were listed.
pub struct Leaving {
    pub(crate) listed: Vec<LoaderId>,
    /// The listed loaders, each once.
    pub(crate) loaders: IndexSet<LoaderId>,
}

// Written out, since a derived drop is proved anew in each crate that lets one go.
impl Drop for Leaving {
    fn drop(self) {
        let Leaving {
            listed: _listed,
            loaders: _loaders,
        } = self;
    }
}

impl Model for Leaving {
    ghost use Rattle.std.specs.Prelude.{List, ℕ, [], ◌≡◌};
    ghost use Rattle.jl_types.specs.Events.Retirement.{gone_with};

    ghost Value = { List ℕ };

    ghost view = { λ l. l.listed.items };

    ghost invariant = { λ l. l.loaders.keys ≡ gone_with [] l.listed.items };
}

impl Leaving {
    /// These loaders, of which one may come twice.
    pub fn new(alloc: Global, listed: &[LoaderId]) -> Result<Self, AllocError>
        ensures { IfOk result (λ leaving. leaving ≡ listed.now) }
    {
        let loaders = each_once(alloc, listed)?;
        Ok(Leaving {
            listed: listed.to_vec(alloc)?,
            loaders,
        })
    }

    /// Whether the loader is one of them.
    pub fn has(&self, loader: LoaderId) -> bool
        ensures { result ≡ is_listed self.now loader }
    {
        // Opens the invariant, by which the set has what is listed.
        let _ = &self.listed;
        self.loaders.contains(&loader)
    }
}

/// The loaders, each once.
pub(crate) fn each_once(
    alloc: Global,
    listed: &[LoaderId],
) -> Result<IndexSet<LoaderId>, AllocError>
    ensures { IfOk result (λ loaders. loaders.keys ≡ gone_with [] listed.now) }
{
    let mut loaders = IndexSet::new(alloc);
    for loader in listed {
        loaders.insert(*loader)?;
    }
    Ok(loaders)
}

/// Whether the loader is one of these.
pub(crate) fn is_listed(listed: &[LoaderId], loader: LoaderId) -> bool
    ensures { result ≡ is_listed listed.now loader }
{
    listed.iter().any(|other| *other == loader)
}
