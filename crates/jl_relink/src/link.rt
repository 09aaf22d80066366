//! The link of an invocation that selects by its receiver.

ghost use Rattle.std.specs.Prelude.{◌≡◌, ◌+◌, ◌^◌, ◌<◌, ◌≤◌, length, All};
ghost use Rattle.jl_types.specs.Values.Ancestry as ancestry;
ghost use Rattle.jl_types.specs.Linkage.Links.{table_or_mega, virtual_link};
ghost use Rattle.jl_types.specs.declared.link.TableKind.TheVariants.{Interface};
ghost use Rattle.jl_relink.specs.ForProofs.Counts.{most_of};
ghost use Rattle.jl_relink.specs.ForProofs.Rows.{rows_of, selected_link};

use crate::by_rows::virtual_by_rows;
use crate::known::all_run_counted;
use crate::receivers::{common_run, table_of};
use crate::selection::{Selection, outcome_counted};
use jl_hierarchy::Classes;
use jl_types::{ClassId, Link, MOST_ROWS, Outcome, TableKind, Work};

/// The link of the invocation: Direct if an invokevirtual's method is private or its receivers all run the same method, else
/// a table of up to eight receivers, else Mega. It takes one tick at most for each receiver that it looks at, and one for a
/// private method. If it is known that no subclass redeclares the method, no receiver is looked at. That is one selection for
/// all of them, and takes one tick.
pub(crate) fn selected_link(classes: &Classes, selection: &Selection, work: &mut Work) -> Link
    requires named { selection.now.named < length classes.now.rows }
    requires fits { work.old + most_of classes.now selection.now < 2 ^ 64 }
    ensures link { result ≡ selected_link classes.now selection.now }
    ensures ticks { work.new ≤ work.old + most_of classes.now selection.now }
{
    match selection.kind {
        TableKind::Virtual => {
            if classes.is_private(&selection.method) {
                return Link::Direct(outcome_counted(classes, selection, selection.named, work));
            }
            if all_run_counted(classes, selection, work) {
                return Link::Direct(Outcome::Run(selection.method));
            }
            virtual_link(
                classes,
                selection,
                receivers_of(classes, selection.named),
                work,
            )
        }
        TableKind::Interface => interface_link(
            classes,
            selection,
            receivers_of(classes, selection.named),
            work,
        ),
    }
}

/// The link of an invokevirtual whose receivers these are: each is walked once at most.
fn virtual_link(
    classes: &Classes,
    selection: &Selection,
    receivers: &[ClassId],
    work: &mut Work,
) -> Link
    requires there { All (λ x. x < length classes.now.rows) receivers.now }
    requires fits { work.old + length receivers.now < 2 ^ 64 }
    ensures link { result ≡ virtual_link (rows_of classes.now selection.now receivers.now) }
    ensures ticks { work.new ≤ work.old + length receivers.now }
{
    if receivers.len() > MOST_ROWS {
        return match common_run(classes, selection, receivers, work) {
            Some(method) => Link::Direct(Outcome::Run(method)),
            None => Link::Mega,
        };
    }
    let table = table_of(classes, selection, receivers, work);
    virtual_by_rows(table.as_slice())
}

/// The link of an invokeinterface whose receivers these are: each is walked once at most.
fn interface_link(
    classes: &Classes,
    selection: &Selection,
    receivers: &[ClassId],
    work: &mut Work,
) -> Link
    requires there { All (λ x. x < length classes.now.rows) receivers.now }
    requires fits { work.old + length receivers.now < 2 ^ 64 }
    ensures link { result ≡ table_or_mega Interface (rows_of classes.now selection.now receivers.now) }
    ensures ticks { work.new ≤ work.old + length receivers.now }
{
    if receivers.len() > MOST_ROWS {
        return Link::Mega;
    }
    Link::Table(
        TableKind::Interface,
        table_of(classes, selection, receivers, work),
    )
}

/// The receivers of the class.
pub(crate) fn receivers_of(classes: &Classes, class: ClassId) -> &[ClassId]
    requires { class < length classes.now.rows }
    ensures receivers { result.now ≡ ancestry.receivers classes.now class }
    ensures there { All (λ x. x < length classes.now.rows) result.now }
{
    classes.receivers(class)
}
