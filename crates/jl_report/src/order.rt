//! The order in which classes are reported.

ghost use Rattle.std.specs.Prelude.{◌≡◌, OnOk, OnErr, IsPermutation};
ghost use Rattle.jl_report.specs.Order as order;

use jl_hierarchy::Classes;
use jl_types::ClassId;
use std::alloc::{AllocError, Global};

/// Puts the classes into the order of their names.
///
/// # Errors
///
/// Want of memory. The classes are as they were then.
pub fn order_by_name(
    alloc: Global,
    classes: &Classes,
    listed: &mut [ClassId],
) -> Result<(), AllocError>
    ensures same { IsPermutation listed.old listed.new }
    ensures order { OnOk result (order.AreByName classes.now listed.new) }
    ensures err { OnErr result (listed.new ≡ listed.old) }
{
    listed.sort_by(alloc, |a, b| name_of(classes, *a).cmp(name_of(classes, *b)))
}

/// The name of the class.
fn name_of(classes: &Classes, class: ClassId) -> &[u8]
    ensures { result.now ≡ order.name_of classes.now class }
{
    match classes.class_at(class) {
        Some(row) => row.file().name().as_slice(),
        None => b"".as_slice(),
    }
}
