//! The rows that share a place.

ghost use Rattle.std.specs.Prelude.{◌≡◌};
ghost use Rattle.jl_memo.specs.Memos.{is_of, outcome_in, in_set, with_row};

use jl_types::{ClassId, Outcome, SiteNo};

/// The outcome of the calls of a site on objects of a class (JVMS SE 17 §5.4.6, §6.5).
#[derive(Clone, Copy)]
pub struct Row {
    pub site: SiteNo,
    pub class: ClassId,
    pub outcome: Outcome,
}

/// The two rows of a place.
#[derive(Clone, Copy)]
pub struct Set {
    pub newer: Option<Row>,
    pub older: Option<Row>,
}

impl Set {
    /// What a row says of the site's calls on objects of the class.
    pub(crate) fn get(&self, site: SiteNo, class: ClassId) -> Option<Outcome>
        ensures { result ≡ in_set self.now site class }
    {
        match outcome_in(&self.newer, site, class) {
            Some(outcome) => Some(outcome),
            None => outcome_in(&self.older, site, class),
        }
    }

    /// The two rows once this one is the newer one. The one that was newer is the older one then, unless it was of the same calls.
    pub(crate) fn with(&self, row: Row) -> Set
        ensures { result ≡ with_row self.now row }
    {
        if is_of(&self.newer, row.site, row.class) {
            Set {
                newer: Some(row),
                older: self.older,
            }
        } else {
            Set {
                newer: Some(row),
                older: self.newer,
            }
        }
    }
}

/// Whether there is a row, and of these calls.
fn is_of(row: &Option<Row>, site: SiteNo, class: ClassId) -> bool
    ensures { result ≡ is_of row.now site class }
{
    match row {
        Some(row) => row.site == site && row.class == class,
        None => false,
    }
}

/// What the row says of these calls.
fn outcome_in(row: &Option<Row>, site: SiteNo, class: ClassId) -> Option<Outcome>
    ensures { result ≡ outcome_in row.now site class }
{
    match row {
        Some(row) => {
            if row.site == site && row.class == class {
                Some(row.outcome)
            } else {
                None
            }
        }
        None => None,
    }
}
