//! Which invocations are reported.

use crate::texts::push_name;
use jl_hierarchy::Classes;
use jl_report::{Row, Shape, is_open};
use std::alloc::{AllocError, Global};

/// The words by which invocations are chosen.
pub(crate) const FORMS: &[&str] = &["direct", "table", "mega", "fault", "waits", "open"];

/// What is to be found of an invocation that is asked for.
#[derive(Clone, Copy, Debug, PartialEq, Eq)]
pub enum Choice {
    /// One method.
    Direct,
    /// A table of its receivers, an empty one among them.
    Table,
    /// Too many receivers for a table.
    Mega,
    /// Its link, which a further class may change.
    Open,
    /// It throws.
    Fault,
    /// It waits for a class, or for its call site.
    Waits,
}

impl Choice {
    /// The choice of this word, if there is one.
    pub(crate) fn named(word: &str) -> Option<Choice> {
        match word {
            "direct" => Some(Choice::Direct),
            "table" => Some(Choice::Table),
            "mega" => Some(Choice::Mega),
            "open" => Some(Choice::Open),
            "fault" => Some(Choice::Fault),
            "waits" => Some(Choice::Waits),
            _ => None,
        }
    }

    /// Whether the finding of the row is such.
    fn takes(self, classes: &Classes, row: &Row) -> bool {
        let shape = Shape::of(&row.finding);
        match self {
            Choice::Direct => shape == Shape::Direct,
            Choice::Table => shape == Shape::Table || shape == Shape::NoReceivers,
            Choice::Mega => shape == Shape::Mega,
            Choice::Open => is_open(classes, row),
            Choice::Fault => shape == Shape::Throws,
            Choice::Waits => shape == Shape::Waits || shape == Shape::Unbound,
        }
    }
}

/// Which invocations are reported.
#[derive(Debug)]
pub struct Chosen {
    /// Those of which one of these is found, or all if there are none.
    pub choices: Vec<Choice>,
    /// Those in classes whose names begin with one of these, or all if there are none. Parts of a name are joined by `/`.
    pub prefixes: Vec<String>,
}

/// Written out, so that what drops one makes one call of it and doesn't take apart what it holds.
impl Drop for Chosen {
    fn drop(self) {
        let Chosen {
            choices: _choices,
            prefixes: _prefixes,
        } = self;
    }
}

impl Chosen {
    /// Those of which one of these is found, in classes whose names begin with one of these texts. A dot stands for `/`, too.
    pub(crate) fn new(
        alloc: Global,
        choices: Vec<Choice>,
        texts: Vec<String>,
    ) -> Result<Chosen, AllocError> {
        let mut prefixes = Vec::with_capacity(alloc, texts.len())?;
        for text in &texts {
            prefixes.push(text.replace(alloc, ".", "/")?)?;
        }
        Ok(Chosen { choices, prefixes })
    }

    /// Whether the invocation of the row is reported, if its class is.
    pub(crate) fn takes_row(&self, classes: &Classes, row: &Row) -> bool {
        if self.choices.is_empty() {
            return true;
        }
        for choice in &self.choices {
            if choice.takes(classes, row) {
                return true;
            }
        }
        false
    }

    /// Whether the class of this name is reported.
    pub(crate) fn takes_class(&self, alloc: Global, name: &[u8]) -> Result<bool, AllocError> {
        if self.prefixes.is_empty() {
            return Ok(true);
        }
        let mut text = String::new(alloc);
        push_name(alloc, name, &mut text)?;
        for prefix in &self.prefixes {
            if text.as_str().starts_with(prefix.as_str()) {
                return Ok(true);
            }
        }
        Ok(false)
    }
}
