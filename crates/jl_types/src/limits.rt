//! How many of each kind a linker ever gives numbers to.

ghost use Rattle.std.specs.Prelude.{◌≡◌, ◌↔◌, true};
ghost use Rattle.jl_types.specs.Events.Limits as limits;
ghost use Rattle.jl_types.specs.Events.Limits.{AreAllowed};

/// The greatest limit that a linker may have of loaders, of classes, of call sites and of switch points: 2^20.
pub const MOST_OF_A_KIND: u32 = 1 << 20;

/// How many of each kind a linker ever gives numbers to. A number is never given again, so what is retired counts.
#[derive(Clone, Copy, Debug, PartialEq, Eq)]
pub struct Limits {
    /// Requested sites: at least 1.
    pub sites: u32,
    /// Loaders: at least 1, since loader 0 is there from the beginning, and at most 2^20.
    pub loaders: u32,
    /// Classes: at most 2^20.
    pub classes: u32,
    /// Call sites: at most 2^20.
    pub call_sites: u32,
    /// Switch points: at most 2^20.
    pub switches: u32,
}

impl Limits {
    /// Those of the programs, with this many sites: 1,024 loaders, and 65,536 classes, call sites and switch points.
    pub fn fixed(sites: u32) -> Self
        ensures { result ≡ limits.fixed sites }
    {
        Limits {
            sites,
            loaders: 1_024,
            classes: 65_536,
            call_sites: 65_536,
            switches: 65_536,
        }
    }

    /// Whether a linker may have them.
    pub fn are_allowed(&self) -> bool
        ensures { (result ≡ true) ↔ AreAllowed self.now }
    {
        self.sites >= 1
            && self.loaders >= 1
            && self.loaders <= MOST_OF_A_KIND
            && self.classes <= MOST_OF_A_KIND
            && self.call_sites <= MOST_OF_A_KIND
            && self.switches <= MOST_OF_A_KIND
    }
}
