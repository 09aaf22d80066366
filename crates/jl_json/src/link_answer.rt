//! Outcomes and links.

ghost use Rattle.std.specs.Prelude.{◌≡◌, IfOk};
ghost use Rattle.serde_json.specs.View.{view};
ghost use Rattle.jl_json.specs.LinkAnswers as answers;
ghost use Rattle.jl_json.specs.LinkAnswers.{method_id_data, outcome_data};
ghost use Rattle.jl_json.specs.LinkAnswers.{table_kind_name, table_row_data, link_data};
ghost use Rattle.jl_json.specs.LinkAnswers.{site_link_data, site_links_data};
ghost use Rattle.jl_json.specs.LinkAnswers.{links_data, farm_data, prepared_data};

use crate::object::{double, pair, single, single_text};
use crate::to_json::{ToJson, array_value};
use jl_types::{ClassId, Link, MethodId, Outcome, SiteNo, TableKind, Throwable};
use serde_json::Value;
use std::alloc::{AllocError, Global};

/// The throwable's name in java.lang.
pub fn throwable_name(throwable: Throwable) -> &'static str
    ensures { result.now ≡ answers.throwable_name throwable }
{
    match throwable {
        Throwable::NoSuchMethodError => "NoSuchMethodError",
        Throwable::IllegalAccessError => "IllegalAccessError",
        Throwable::IncompatibleClassChangeError => "IncompatibleClassChangeError",
        Throwable::AbstractMethodError => "AbstractMethodError",
        Throwable::NullPointerException => "NullPointerException",
    }
}

/// The name of the kind of a table.
pub fn table_kind(kind: TableKind) -> &'static str
    ensures { result.now ≡ table_kind_name kind }
{
    match kind {
        TableKind::Virtual => "virtual",
        TableKind::Interface => "interface",
    }
}

/// A method.
fn method_id_value(alloc: Global, method: MethodId) -> Result<Value, AllocError>
    ensures { IfOk result (λ v. view v ≡ method_id_data method) }
{
    let class = method.class.number();
    let index = method.index;
    pair(alloc, Value::from(class), Value::from(index))
}

/// An outcome: the method that runs, by its class and its place there, or the name of what is
/// thrown (JVMS SE 17 §6.5).
///
/// # Errors
///
/// Want of memory.
pub fn outcome_value(alloc: Global, outcome: Outcome) -> Result<Value, AllocError>
    ensures { IfOk result (λ v. view v ≡ outcome_data outcome) }
{
    match outcome {
        Outcome::Run(method) => single(alloc, "run", method_id_value(alloc, method)?),
        Outcome::Throws(fault) => single_text(alloc, "throws", throwable_name(fault)),
    }
}

/// A class with the outcome on its objects.
impl ToJson for (ClassId, Outcome) {
    ghost written = { table_row_data };

    #[tactic(auto, unfolding(crate::specs::LinkAnswers::table_row_data))]
    fn to_json(&self, alloc: Global) -> Result<Value, AllocError> {
        let outcome = outcome_value(alloc, self.1)?;
        pair(alloc, Value::from(self.0.number()), outcome)
    }
}

/// A link: the outcome of its site's calls, by the class of the receiver if the outcome depends on it.
///
/// # Errors
///
/// Want of memory.
#[tactic(auto, unfolding(crate::specs::LinkAnswers::link_data))]
pub fn link_value(alloc: Global, link: Link) -> Result<Value, AllocError>
    ensures { IfOk result (λ v. view v ≡ link_data link) }
{
    match link {
        Link::Fault(fault) => single_text(alloc, "fault", throwable_name(fault)),
        Link::Plain(method) => single(alloc, "plain", method_id_value(alloc, method)?),
        Link::Direct(outcome) => single(alloc, "direct", outcome_value(alloc, outcome)?),
        Link::Table(kind, ref table) => {
            let rows = array_value(alloc, table.as_slice())?;
            let kind = Value::try_from_str(alloc, table_kind(kind))?;
            double(alloc, "kind", kind, "table", rows)
        }
        Link::Mega => single(alloc, "mega", Value::Bool(true)),
    }
}

/// A site with its link.
impl ToJson for (SiteNo, Link) {
    ghost written = { site_link_data };

    #[tactic(auto, unfolding(crate::specs::LinkAnswers::site_link_data))]
    fn to_json(&self, alloc: Global) -> Result<Value, AllocError> {
        let link = link_value(alloc, self.1)?;
        pair(alloc, Value::from(self.0.number()), link)
    }
}

/// The answer that lists sites with their links, in the order given.
///
/// # Errors
///
/// Want of memory.
#[tactic(auto, unfolding(crate::specs::LinkAnswers::site_links_data))]
pub fn links_value(alloc: Global, links: &[(SiteNo, Link)]) -> Result<Value, AllocError>
    ensures { IfOk result (λ v. view v ≡ links_data links.now) }
{
    let links = array_value(alloc, links)?;
    single(alloc, "links", links)
}

/// The last answer of a farm: the links that it leaves, in the order given, and its reports.
///
/// # Errors
///
/// Want of memory.
#[tactic(auto, unfolding(crate::specs::LinkAnswers::site_links_data))]
pub fn farm_value(
    alloc: Global,
    links: &[(SiteNo, Link)],
    reports: Value,
) -> Result<Value, AllocError>
    ensures { IfOk result (λ v. view v ≡ farm_data links.now (view reports)) }
{
    let links = array_value(alloc, links)?;
    double(alloc, "links", links, "reports", reports)
}

/// The answer to a preparation: the number of the batch, and its sites with their links, in the order
/// given.
///
/// # Errors
///
/// Want of memory.
#[tactic(auto, unfolding(crate::specs::LinkAnswers::site_links_data))]
pub fn prepared_value(
    alloc: Global,
    batch: u32,
    rows: &[(SiteNo, Link)],
) -> Result<Value, AllocError>
    ensures { IfOk result (λ v. view v ≡ prepared_data batch rows.now) }
{
    let rows = array_value(alloc, rows)?;
    double(alloc, "prepared", Value::from(batch), "rows", rows)
}
