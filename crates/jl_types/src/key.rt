//! What a link rests on that an event may change.

use crate::call_site_id::CallSiteId;
use crate::class_id::ClassId;
use crate::switch_id::SwitchId;

/// What a link from scratch rests on that an event may change.
#[derive(Clone, Copy, Debug, PartialEq, Eq, PartialOrd, Ord, Hash)]
pub enum Key {
    /// The receivers of the class.
    Receivers(ClassId),
    /// The target of the call site.
    Target(CallSiteId),
    /// That the switch point is valid.
    Valid(SwitchId),
}
