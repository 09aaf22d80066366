//! Classes that aren't there, and what hangs on each: invocations that wait, and classes that are left out.

use crate::texts::names::{push_line, push_name};
use indexmap::{IndexMap, IndexSet};
use jl_class::{Operand, Site};
use jl_names::Name;
use jl_report::{Finding, Row};
use jl_types::{Missing, Unlinked};
use std::alloc::{AllocError, Global};

/// So many classes are told.
const MOST_TOLD: usize = 10;

/// What hangs on a class that isn't there.
#[derive(Clone, Copy)]
struct Hanging {
    /// Invocations that wait for it, or for a class that is left out since it isn't there.
    invocations: u64,
    /// Classes that would be reported, and are left out since it isn't there.
    classes: u64,
}

/// The classes that aren't there: those that invocations name, and parents, if none of the files has them.
pub(crate) struct MissingClasses {
    /// The parent that isn't there, of each class that is left out for that.
    parents: IndexMap<String, String>,
    /// Those of these classes that would be reported.
    reported: IndexSet<String>,
    hanging: IndexMap<String, Hanging>,
}

/// Written out, so that what drops one makes one call of it and doesn't take apart what it holds.
impl Drop for MissingClasses {
    fn drop(self) {
        let MissingClasses {
            parents: _parents,
            reported: _reported,
            hanging: _hanging,
        } = self;
    }
}

/// A class that isn't there, and what hangs on it.
#[derive(Clone, Copy)]
pub(crate) struct MissingClass<'a> {
    pub(crate) name: &'a str,
    pub(crate) invocations: u64,
    pub(crate) classes: u64,
}

/// A name as text.
fn text_of(alloc: Global, name: &[u8]) -> Result<String, AllocError> {
    let mut text = String::new(alloc);
    push_name(alloc, name, &mut text)?;
    Ok(text)
}

impl MissingClasses {
    /// None.
    pub(crate) fn new(alloc: Global) -> Self {
        MissingClasses {
            parents: IndexMap::new(alloc),
            reported: IndexSet::new(alloc),
            hanging: IndexMap::new(alloc),
        }
    }

    /// Notes that the class of this name is left out, since this parent isn't there.
    pub(crate) fn add_parent(
        &mut self,
        alloc: Global,
        name: &Name,
        parent: &Name,
        is_reported: bool,
    ) -> Result<(), AllocError> {
        if is_reported {
            self.reported.insert(text_of(alloc, name.as_slice())?)?;
        }
        let name = text_of(alloc, name.as_slice())?;
        self.parents
            .insert(name, text_of(alloc, parent.as_slice())?)?;
        Ok(())
    }

    /// The class that isn't there in any file, if the class of this name is left out for it; or the name itself. (Of classes that are each
    /// other's parents none comes first.)
    fn root_of<'a>(&'a self, name: &'a str) -> &'a str {
        let mut root = name;
        for _ in 0..self.parents.len().saturating_add(1) {
            match self.parents.get(root) {
                Some(parent) => root = parent.as_str(),
                None => return root,
            }
        }
        name
    }

    /// Counts the classes that are left out, each at its root.
    pub(crate) fn count_classes(&mut self, alloc: Global) -> Result<(), AllocError> {
        let mut counts: IndexMap<String, u64> = IndexMap::new(alloc);
        for name in &self.reported {
            let root = self.root_of(name.as_str());
            if self.parents.get(root).is_none() {
                let count = counts.get(root).copied().unwrap_or(0);
                counts.insert(String::from_str(alloc, root)?, count.saturating_add(1))?;
            }
        }
        for (name, classes) in counts {
            let invocations = 0;
            self.hanging.insert(
                name,
                Hanging {
                    invocations,
                    classes,
                },
            )?;
        }
        Ok(())
    }

    /// Counts the invocation, if it waits for the class that it names.
    pub(crate) fn add(
        &mut self,
        alloc: Global,
        site: &Site<'_>,
        row: &Row,
    ) -> Result<(), AllocError> {
        let (Finding::Unlinked(Unlinked::NotReady(Missing::Named)), Operand::Method(reference)) = (
            &row.finding,
            site.operand(),
        ) else {
            return Ok(());
        };
        let name = text_of(alloc, reference.owner.as_slice())?;
        let root = String::from_str(alloc, self.root_of(name.as_str()))?;
        let mut hanging = Hanging {
            invocations: 0,
            classes: 0,
        };
        if let Some(before) = self.hanging.get(root.as_str()) {
            hanging = *before;
        }
        hanging.invocations = hanging.invocations.saturating_add(1);
        self.hanging.insert(root, hanging)?;
        Ok(())
    }

    /// The classes that aren't there, those first on which most hangs.
    pub(crate) fn sorted(&self, alloc: Global) -> Result<Vec<MissingClass<'_>>, AllocError> {
        let mut sorted = Vec::with_capacity(alloc, self.hanging.len())?;
        for (name, hanging) in &self.hanging {
            let name = name.as_str();
            let invocations = hanging.invocations;
            let classes = hanging.classes;
            sorted.push(MissingClass {
                name,
                invocations,
                classes,
            })?;
        }
        sorted.sort_by(|a, b| {
            let most = b.weight().cmp(&a.weight());
            most.then(a.name.cmp(b.name))
        })?;
        Ok(sorted)
    }

    /// The circles of classes that are each other's parents.
    pub(crate) fn circles(&self, alloc: Global) -> Result<Vec<String>, AllocError> {
        let mut circles = Vec::new(alloc);
        // The turn in which a class was met first.
        let mut met = IndexMap::new(alloc);
        for (turn, name) in self.parents.keys().enumerate() {
            if let Some(first) = self.met_again(&mut met, turn, name.as_str())? {
                circles.push(self.circle_at(alloc, first)?)?;
            }
        }
        Ok(circles)
    }

    /// The class that is met again in this turn, from the class of this name upward, if no earlier turn has met one.
    fn met_again<'a>(
        &'a self,
        met: &mut IndexMap<&'a str, usize>,
        turn: usize,
        name: &'a str,
    ) -> Result<Option<&'a str>, AllocError> {
        let mut at = name;
        for _ in 0..self.parents.len().saturating_add(1) {
            match met.get(at) {
                Some(first) if *first == turn => return Ok(Some(at)),
                Some(_) => return Ok(None),
                None => {}
            }
            met.insert(at, turn)?;
            match self.parents.get(at) {
                Some(parent) => at = parent.as_str(),
                None => return Ok(None),
            }
        }
        Ok(None)
    }

    /// The least name on the circle on which this class is.
    fn least_on_circle<'a>(&'a self, first: &'a str) -> &'a str {
        let mut least = first;
        let mut at = first;
        for _ in 0..self.parents.len() {
            match self.parents.get(at) {
                Some(parent) => at = parent.as_str(),
                None => break,
            }
            if at == first {
                break;
            }
            if at < least {
                least = at;
            }
        }
        least
    }

    /// The circle on which this class is, from its least name on, each class before its parent.
    fn circle_at(&self, alloc: Global, met: &str) -> Result<String, AllocError> {
        let first = self.least_on_circle(met);
        let mut text = String::from_str(alloc, first)?;
        let mut at = first;
        for _ in 0..self.parents.len() {
            let Some(parent) = self.parents.get(at) else {
                break;
            };
            at = parent.as_str();
            write!(text, " below {at}")?;
            if at == first {
                break;
            }
        }
        Ok(text)
    }

    /// Appends the classes on which most hangs, and those that are each other's parents, if there are any.
    pub(crate) fn push(&self, alloc: Global, out: &mut String) -> Result<(), AllocError> {
        if !self.hanging.is_empty() {
            push_missing_classes(alloc, &self.sorted(alloc)?, out)?;
        }
        push_circles(alloc, &self.circles(alloc)?, out)
    }
}

impl<'a> MissingClass<'a> {
    /// How much hangs on it.
    fn weight(&self) -> u64 {
        self.invocations.saturating_add(self.classes)
    }
}

/// Appends how many classes there are, and of the first of them how many invocations wait for each, and how many classes are left out below it.
fn push_missing_classes(
    alloc: Global,
    sorted: &[MissingClass<'_>],
    out: &mut String,
) -> Result<(), AllocError> {
    let all = sorted.len();
    let head = "classes that are missing";
    write!(out, "{head:<28}{all:>12}\n")?;
    for one in sorted.iter().take(MOST_TOLD) {
        let name = one.name;
        let invocations = one.invocations;
        let mut line = String::new(alloc);
        write!(line, "    {invocations:>12}  {name}")?;
        if one.classes > 0 {
            let classes = one.classes;
            write!(line, ", below which {classes} classes are left out")?;
        }
        push_line(line.as_str(), out)?;
    }
    if all > MOST_TOLD {
        out.push_str("              ..\n")?;
    }
    Ok(())
}

/// Appends how many circles of parents there are, and the first of them.
fn push_circles(alloc: Global, circles: &[String], out: &mut String) -> Result<(), AllocError> {
    let all = circles.len();
    if all == 0 {
        return Ok(());
    }
    let head = "circles of parents";
    write!(out, "{head:<28}{all:>12}\n")?;
    for circle in circles.iter().take(MOST_TOLD) {
        let mut line = String::from_str(alloc, "    ")?;
        line.push_str(circle.as_str())?;
        push_line(line.as_str(), out)?;
    }
    if all > MOST_TOLD {
        out.push_str("    ..\n")?;
    }
    Ok(())
}
