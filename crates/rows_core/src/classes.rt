//! Small classes, as constant rows.

use rows_files::CallRow::*;
use rows_files::{CallRow, MethodRow};

/// A class of these.
#[derive(Clone, Copy)]
pub(crate) enum Class {
    Object,
    A,
    B,
    C,
    D,
    E,
    Abstract,
    M,
    Alone,
    Z,
    Many,
    T,
    Itself,
    Two,
    Heir,
    Half,
    Last,
    Caller,
}

/// A class: its name, flags, superclass and superinterfaces, the calls that its first method makes, how often, and its other methods.
pub(crate) struct ClassRow {
    pub(crate) name: &'static str,
    pub(crate) flags: u16,
    pub(crate) superclass: Option<&'static str>,
    pub(crate) interfaces: &'static [&'static str],
    pub(crate) calls: &'static [CallRow],
    pub(crate) times: usize,
    pub(crate) methods: &'static [MethodRow],
}

/// java/lang/Object.
const OBJECT: &ClassRow = &ClassRow {
    name: rows_files::OBJECT,
    flags: 33,
    superclass: None,
    interfaces: &[],
    calls: &[],
    times: 1,
    methods: &[],
};

/// It has f.
const A: &ClassRow = &ClassRow {
    name: "A",
    flags: 33,
    superclass: Some(rows_files::OBJECT),
    interfaces: &[],
    calls: &[],
    times: 1,
    methods: &[("f", "()V", 1)],
};

/// It has A's f.
const B: &ClassRow = &ClassRow {
    name: "B",
    flags: 33,
    superclass: Some("A"),
    interfaces: &[],
    calls: &[],
    times: 1,
    methods: &[],
};

/// It is below A and has its own f, as D and E.
const C: &ClassRow = &ClassRow {
    name: "C",
    flags: 33,
    superclass: Some("A"),
    interfaces: &[],
    calls: &[],
    times: 1,
    methods: &[("f", "()V", 1)],
};

const D: &ClassRow = &ClassRow {
    name: "D",
    flags: 33,
    superclass: Some("A"),
    interfaces: &[],
    calls: &[],
    times: 1,
    methods: &[("f", "()V", 1)],
};

const E: &ClassRow = &ClassRow {
    name: "E",
    flags: 33,
    superclass: Some("A"),
    interfaces: &[],
    calls: &[],
    times: 1,
    methods: &[("f", "()V", 1)],
};

/// No object is of this class.
const ABSTRACT: &ClassRow = &ClassRow {
    name: "Abstract",
    flags: 1057,
    superclass: Some("A"),
    interfaces: &[],
    calls: &[],
    times: 1,
    methods: &[("f", "()V", 1)],
};

/// It calls A.f, and a static method of its own.
const M: &ClassRow = &ClassRow {
    name: "M",
    flags: 33,
    superclass: Some(rows_files::OBJECT),
    interfaces: &[],
    calls: &[Virtual("A", "f"), Static("M", "s")],
    times: 1,
    methods: &[("s", "()V", 9)],
};

/// It is below java/lang/Object alone, as Z is.
const ALONE: &ClassRow = &ClassRow {
    name: "Alone",
    flags: 33,
    superclass: Some(rows_files::OBJECT),
    interfaces: &[],
    calls: &[],
    times: 1,
    methods: &[("f", "()V", 1)],
};

const Z: &ClassRow = &ClassRow {
    name: "Z",
    flags: 33,
    superclass: Some(rows_files::OBJECT),
    interfaces: &[],
    calls: &[],
    times: 1,
    methods: &[("f", "()V", 1)],
};

/// It calls Z.f a thousand times.
const MANY: &ClassRow = &ClassRow {
    name: "Many",
    flags: 33,
    superclass: Some(rows_files::OBJECT),
    interfaces: &[],
    calls: &[Virtual("Z", "f")],
    times: 1000,
    methods: &[],
};

/// It has two invokedynamic and the static methods 1, 2 and 3.
const T: &ClassRow = &ClassRow {
    name: "T",
    flags: 33,
    superclass: Some(rows_files::OBJECT),
    interfaces: &[],
    calls: &[Dynamic("d"), Dynamic("e")],
    times: 1,
    methods: &[("n", "()V", 9), ("o", "()V", 9), ("p", "()V", 9)],
};

/// Its one method calls itself.
const SELF: &ClassRow = &ClassRow {
    name: "N",
    flags: 33,
    superclass: Some(rows_files::OBJECT),
    interfaces: &[],
    calls: &[Static("N", "m")],
    times: 1,
    methods: &[],
};

/// It has f and g.
const TWO: &ClassRow = &ClassRow {
    name: "Two",
    flags: 33,
    superclass: Some(rows_files::OBJECT),
    interfaces: &[],
    calls: &[],
    times: 1,
    methods: &[("f", "()V", 1), ("g", "()V", 1)],
};

/// It has Two's f and g, as Last has.
const HEIR: &ClassRow = &ClassRow {
    name: "Heir",
    flags: 33,
    superclass: Some("Two"),
    interfaces: &[],
    calls: &[],
    times: 1,
    methods: &[],
};

/// It has its own f, and Two's g.
const HALF: &ClassRow = &ClassRow {
    name: "Half",
    flags: 33,
    superclass: Some("Two"),
    interfaces: &[],
    calls: &[],
    times: 1,
    methods: &[("f", "()V", 1)],
};

const LAST: &ClassRow = &ClassRow {
    name: "Last",
    flags: 33,
    superclass: Some("Two"),
    interfaces: &[],
    calls: &[],
    times: 1,
    methods: &[],
};

/// It calls Two.f and Two.g, twice.
const CALLER: &ClassRow = &ClassRow {
    name: "Caller",
    flags: 33,
    superclass: Some(rows_files::OBJECT),
    interfaces: &[],
    calls: &[Virtual("Two", "f"), Virtual("Two", "g")],
    times: 2,
    methods: &[],
};

/// What the class has.
pub(crate) fn row_of(class: Class) -> &'static ClassRow {
    match class {
        Class::Object => OBJECT,
        Class::A => A,
        Class::B => B,
        Class::C => C,
        Class::D => D,
        Class::E => E,
        Class::Abstract => ABSTRACT,
        Class::M => M,
        Class::Alone => ALONE,
        Class::Z => Z,
        Class::Many => MANY,
        Class::T => T,
        Class::Itself => SELF,
        Class::Two => TWO,
        Class::Heir => HEIR,
        Class::Half => HALF,
        Class::Last => LAST,
        Class::Caller => CALLER,
    }
}
