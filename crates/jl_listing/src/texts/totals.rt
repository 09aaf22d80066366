//! How many invocations of each instruction have which shape, in words.

use crate::texts::links::push_number;
use crate::told::Note;
use jl_class::Kind;
use jl_json::instruction;
use jl_report::{Row, Shape, Totals};
use std::alloc::AllocError;

const KINDS: [Kind; 5] = [
    Kind::Virtual,
    Kind::Special,
    Kind::Static,
    Kind::Interface,
    Kind::Dynamic,
];

/// The shapes, in words.
const SHAPES: [(Shape, &str); 8] = [
    (Shape::Direct, "direct"),
    (Shape::Table, "table"),
    (Shape::Mega, "mega"),
    (Shape::NoReceivers, "no receivers"),
    (Shape::Throws, "throws"),
    (Shape::Waits, "waits for a class"),
    (Shape::Unbound, "waits for its call site"),
    (Shape::NotLinkable, "not linkable"),
];

/// The instructions by name.
pub(crate) const KINDS_BY_NAME: [Kind; 5] = [
    Kind::Dynamic,
    Kind::Interface,
    Kind::Special,
    Kind::Static,
    Kind::Virtual,
];

/// The shapes by the keys that stand for them in JSON.
pub(crate) const SHAPES_BY_KEY: [(Shape, &str); 8] = [
    (Shape::Direct, "direct"),
    (Shape::Mega, "mega"),
    (Shape::NoReceivers, "noReceivers"),
    (Shape::NotLinkable, "notLinkable"),
    (Shape::Table, "table"),
    (Shape::Throws, "throws"),
    (Shape::Unbound, "unbound"),
    (Shape::Waits, "waits"),
];

/// How many invocations of each instruction have each shape, and in how many classes and methods.
pub(crate) struct Summary {
    pub(crate) totals: Totals,
    /// Those of tables and megamorphic links whose receivers all run one method.
    pub(crate) one_method: Totals,
    /// Those whose receivers run two.
    pub(crate) two_methods: Totals,
    /// Those for which an invokedynamic may make further receivers.
    pub(crate) made: Totals,
    pub(crate) classes: u64,
    pub(crate) methods: u64,
    /// How many class files are of a version above those of SE 17, those that aren't reported among them.
    pub(crate) later: u64,
    /// How many invocations of these classes aren't reported, since others are asked for.
    pub(crate) other_invocations: u64,
    /// How many classes aren't reported, since others are asked for.
    pub(crate) other_classes: u64,
}

/// Written out, so that what drops one makes one call of it and doesn't take apart what it holds.
impl Drop for Summary {
    fn drop(self) {
        let Summary {
            totals: _totals,
            one_method: _one_method,
            two_methods: _two_methods,
            made: _made,
            classes: _classes,
            methods: _methods,
            later: _later,
            other_invocations: _other_invocations,
            other_classes: _other_classes,
        } = self;
    }
}

impl Summary {
    /// None.
    pub(crate) fn new() -> Self {
        Summary {
            totals: Totals::new(),
            one_method: Totals::new(),
            two_methods: Totals::new(),
            made: Totals::new(),
            classes: 0,
            methods: 0,
            later: 0,
            other_invocations: 0,
            other_classes: 0,
        }
    }

    /// Counts one more.
    pub(crate) fn add(&mut self, row: &Row, note: &Note) {
        self.totals.add(row);
        match note.method_count() {
            Some(1) => self.one_method.add(row),
            Some(2) => self.two_methods.add(row),
            _ => {}
        }
        if note.is_made {
            self.made.add(row);
        }
    }

    /// How many there are of the instruction.
    fn of_kind(&self, kind: Kind) -> u64 {
        let mut sum: u64 = 0;
        for (shape, _) in &SHAPES {
            sum = sum.saturating_add(self.totals.count(kind, *shape));
        }
        sum
    }

    /// How many there are.
    fn all(&self) -> u64 {
        let mut sum: u64 = 0;
        for kind in &KINDS {
            sum = sum.saturating_add(self.of_kind(*kind));
        }
        sum
    }

    /// Appends them, those that there are.
    pub(crate) fn push(&self, out: &mut String) -> Result<(), AllocError> {
        push_number(self.all(), out)?;
        out.push_str(" invocations in ")?;
        push_number(self.methods, out)?;
        out.push_str(" methods of ")?;
        push_number(self.classes, out)?;
        out.push_str(" classes\n")?;
        for kind in &KINDS {
            self.push_kind(*kind, out)?;
        }
        self.push_later(out)
    }

    /// Appends how many class files are of a version above those of SE 17, and how they are linked, if there are any.
    fn push_later(&self, out: &mut String) -> Result<(), AllocError> {
        if self.later == 0 {
            return Ok(());
        }
        let head = "class files above 61.0";
        let count = self.later;
        write!(out, "{head:<28}{count:>12}  linked as SE 17 says\n")
    }

    /// Appends how many invocations there are of this instruction, and of each shape.
    fn push_kind(&self, kind: Kind, out: &mut String) -> Result<(), AllocError> {
        let all = self.of_kind(kind);
        if all == 0 {
            return Ok(());
        }
        let name = instruction(kind);
        write!(out, "{name:<28}{all:>12}\n")?;
        for (shape, name) in &SHAPES {
            push_share(name, self.totals.count(kind, *shape), all, out)?;
            let one = self.one_method.count(kind, *shape);
            push_share("  of one method", one, all, out)?;
            let two = self.two_methods.count(kind, *shape);
            push_share("  of two methods", two, all, out)?;
            let made = self.made.count(kind, *shape);
            push_share("  with made receivers", made, all, out)?;
        }
        Ok(())
    }
}

/// Appends the share, if it is any.
fn push_share(name: &str, count: u64, all: u64, out: &mut String) -> Result<(), AllocError> {
    if count == 0 {
        return Ok(());
    }
    let tenths = (u128::from(count) * 1000)
        .checked_div(u128::from(all))
        .unwrap_or(0);
    let whole = tenths / 10;
    let rest = tenths % 10;
    write!(out, "    {name:<24}{count:>12}{whole:>6}.{rest} %\n")
}
