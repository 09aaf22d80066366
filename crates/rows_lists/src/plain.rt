//! What sites rest on as a plain list, beside which an index is tried: keys stand by twelve numbers, of which four are each of a kind, and
//! forms by four.

use jl_deps::{Footprint, Form, Index};
use jl_types::{CallSiteId, ClassId, Key, MethodId, SiteNo, SwitchId};
use std::alloc::{AllocError, Global};

/// How many keys there are.
const KEYS: u32 = 12;

/// How many sites there are.
pub(crate) const SITES: u32 = 64;

/// How many forms there are.
pub(crate) const FORMS: u32 = 4;

/// The last form, by which no site selects.
const OTHER: u32 = 3;

/// The form of this number: an invokevirtual of one method and of another, an invokeinterface of the first one, and none of these.
pub(crate) fn form(number: u32) -> Form {
    let method = MethodId {
        class: ClassId::new(1),
        index: if number == 1 { 1 } else { 0 },
    };
    match number {
        0 | 1 => Form::Virtual(method),
        2 => Form::Interface(method),
        _ => Form::Other,
    }
}

/// A set of keys, by their numbers: key n is there if bit n is set.
pub(crate) type KeySet = u32;

/// What a site rests on: keys, and the number of its form.
#[derive(Clone, Copy)]
pub(crate) struct Row {
    pub(crate) keys: KeySet,
    pub(crate) form: u32,
}

/// What each site rests on, if anything.
#[derive(Drop)]
pub(crate) struct Plain {
    rows: Vec<Option<Row>>,
}

/// The keys of the set, rising.
pub(crate) fn keys(alloc: Global, set: KeySet) -> Result<Footprint, AllocError> {
    let mut keys = Vec::new(alloc);
    for number in 0..KEYS {
        if set & (1 << number) != 0 {
            let place = number % 4;
            let key = match number / 4 {
                0 => Key::Receivers(ClassId::new(place)),
                1 => Key::Target(CallSiteId::new(place)),
                _ => Key::Valid(SwitchId::new(place)),
            };
            keys.push(key)?;
        }
    }
    Footprint::of(alloc, keys)
}

impl Plain {
    /// No site rests on anything.
    pub(crate) fn new(alloc: Global) -> Result<Plain, AllocError> {
        let mut rows = Vec::new(alloc);
        for _ in 0..SITES {
            rows.push(None)?;
        }
        Ok(Plain { rows })
    }

    /// The site rests on this, or on nothing.
    pub(crate) fn set(&mut self, site: u32, row: Option<Row>) {
        if let Some(slot) = self.rows.get_mut(site as usize) {
            *slot = row;
        }
    }

    /// Whether the index has the site's footprint and form, and no other.
    pub(crate) fn agrees_at(
        &self,
        alloc: Global,
        index: &Index,
        site: u32,
    ) -> Result<bool, AllocError> {
        let found = index.rests(SiteNo::new(site));
        match self.rows.get(site as usize) {
            Some(Some(row)) => {
                let want = keys(alloc, row.keys)?;
                Ok(match found {
                    Some(rests) => {
                        rests.keys() == want.as_slice() && rests.form() == form(row.form)
                    }
                    None => false,
                })
            }
            _ => Ok(found.is_none()),
        }
    }

    /// The sites whose footprints have a key of the set, rising.
    pub(crate) fn touched(&self, alloc: Global, set: KeySet) -> Result<Vec<SiteNo>, AllocError> {
        let mut sites = Vec::new(alloc);
        for site in 0..SITES {
            if let Some(Some(row)) = self.rows.get(site as usize) {
                if row.keys & set != 0 {
                    sites.push(SiteNo::new(site))?;
                }
            }
        }
        Ok(sites)
    }

    /// What the site rests on, if anything.
    fn row(&self, site: u32) -> Option<Row> {
        self.rows.get(site as usize).copied().flatten()
    }

    /// Whether the sites select by one form and rest on one key.
    fn alike(&self, site: u32, other: u32) -> bool {
        match (self.row(site), self.row(other)) {
            (Some(row), Some(with)) => {
                row.form != OTHER && row.form == with.form && row.keys & with.keys != 0
            }
            _ => false,
        }
    }

    /// The site, and all that select alike on one of its keys, rising.
    pub(crate) fn together(&self, alloc: Global, site: u32) -> Result<Vec<SiteNo>, AllocError> {
        let mut sites = Vec::new(alloc);
        for other in 0..SITES {
            if other == site || self.alike(other, site) {
                sites.push(SiteNo::new(other))?;
            }
        }
        Ok(sites)
    }

    /// Whether one of the sites is this one or like it.
    fn stands(&self, sites: &[SiteNo], site: u32) -> bool {
        for other in sites {
            if other.number() == site || self.alike(site, other.number()) {
                return true;
            }
        }
        false
    }

    /// The keys of the set that a site of the form rests on.
    fn keys_of_form(&self, set: KeySet, form: u32) -> KeySet {
        let mut found = 0;
        for row in self.rows.as_slice() {
            if let Some(row) = row {
                if row.form == form {
                    found |= row.keys & set;
                }
            }
        }
        found
    }

    /// How many sites are asked under the keys at most: one of each form under each key, and those that don't select.
    fn most_asked(&self, set: KeySet) -> usize {
        let mut most: usize = 0;
        for form in 0..OTHER {
            let keys = self.keys_of_form(set, form);
            most = most.saturating_add(keys.count_ones() as usize);
        }
        for site in 0..SITES {
            if let Some(row) = self.row(site) {
                if row.form == OTHER && row.keys & set != 0 {
                    most = most.saturating_add(1);
                }
            }
        }
        most
    }

    /// Whether these may be the sites that are asked under the keys, if the others are those that the keys touch.
    pub(crate) fn may_be_asked(&self, set: KeySet, asked: &[SiteNo], touched: &[SiteNo]) -> bool {
        for site in asked {
            if !touched.contains(site) {
                return false;
            }
        }
        for site in touched {
            if !self.stands(asked, site.number()) {
                return false;
            }
        }
        asked.is_sorted() && asked.len() <= self.most_asked(set)
    }
}
