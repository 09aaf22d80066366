//! What the owner of a core has let go.

use jl_names::Seq;
use jl_types::{CallSiteId, SwitchId};

/// The call sites and switch points that the owner of a core has let go, in any order: it asks for none of them again. A number that
/// was never given, or that is released, is passed over.
#[derive(Debug, Drop)]
pub struct Released {
    pub call_sites: Seq<CallSiteId>,
    pub switches: Seq<SwitchId>,
}
