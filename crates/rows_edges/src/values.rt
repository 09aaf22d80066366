//! Plain values of jl_types: each call once.

use jl_types::{
    Answer, CallSiteId, ClassId, Link, LoaderId, MethodId, Missing, Outcome, SiteNo, SwitchId,
    Table, TableKind, Throwable, Unlinked, same_answer, same_link,
};

fn runs() -> Outcome {
    Outcome::Run(MethodId {
        class: ClassId::new(1),
        index: 2,
    })
}

#[test]
fn numbers(rt: HostRuntime) {
    let rows = [
        LoaderId::new(7).number(),
        ClassId::new(7).number(),
        SiteNo::new(7).number(),
        CallSiteId::new(7).number(),
        SwitchId::new(7).number(),
    ];
    assert!(rt; rows == [7; 5]);
}

fn full() -> Table {
    let mut table = Table::new();
    table.push(ClassId::new(0), runs());
    table.push(ClassId::new(1), runs());
    table.push(ClassId::new(2), runs());
    table.push(ClassId::new(3), runs());
    table.push(ClassId::new(4), runs());
    table.push(ClassId::new(5), runs());
    table.push(ClassId::new(6), runs());
    table.push(
        ClassId::new(7),
        Outcome::Throws(Throwable::AbstractMethodError),
    );
    table
}

#[test]
fn fills_a_table(rt: HostRuntime) {
    assert!(rt; !Table::new().is_full());
    assert!(rt; full().is_full());
}

#[test]
fn keeps_the_rows_of_a_table(rt: HostRuntime) {
    let table = full();
    let last = (
        ClassId::new(7),
        Outcome::Throws(Throwable::AbstractMethodError),
    );
    assert!(rt; table.as_slice().len() == 8);
    assert!(rt; table.as_slice().last() == Some(&last));
}

/// A link by a full table.
fn of(kind: TableKind) -> Link {
    Link::Table(kind, full())
}

#[test]
fn compares_tables_by_value(rt: HostRuntime) {
    assert!(rt; same_link(of(TableKind::Virtual), of(TableKind::Virtual)));
    assert!(rt; !same_link(of(TableKind::Virtual), of(TableKind::Interface)));
}

#[test]
fn compares_links_by_value(rt: HostRuntime) {
    assert!(rt;
        !same_link(
            of(TableKind::Virtual),
            Link::Table(TableKind::Virtual, Table::new())
        )
    );
    assert!(rt; same_link(Link::Mega, Link::Mega));
}

/// That a site isn't ready for want of this.
fn waits(missing: Missing) -> Answer {
    Answer::Unlinked(Unlinked::NotReady(missing))
}

#[test]
fn compares_answers_by_value(rt: HostRuntime) {
    assert!(rt; same_answer(waits(Missing::Named), waits(Missing::Named)));
    assert!(rt; !same_answer(waits(Missing::Named), waits(Missing::CallerHost)));
}

#[test]
fn compares_answers_of_two_kinds(rt: HostRuntime) {
    assert!(rt;
        !same_answer(
            waits(Missing::Named),
            Answer::Throws(Throwable::AbstractMethodError)
        )
    );
}
