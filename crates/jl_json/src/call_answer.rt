//! The answer to a call.

ghost use Rattle.std.specs.Prelude.{◌≡◌, IfOk};
ghost use Rattle.serde_json.specs.View.{view};
ghost use Rattle.jl_json.specs.CallAnswers.{missing_name, unlinked_data, answer_data};

use crate::link_answer::outcome_value;
use crate::object::single_text;
use jl_types::{Answer, Missing, Outcome, Unlinked};
use serde_json::{Value, json};
use std::alloc::{AllocError, Global};

/// Whose class isn't there.
fn missing(missing: Missing) -> &'static str
    ensures { result.now ≡ missing_name missing }
{
    match missing {
        Missing::Named => "named",
        Missing::CallerHost => "callerHost",
        Missing::MethodHost => "methodHost",
    }
}

/// Why a site has no link.
fn unlinked_value(alloc: Global, reason: Unlinked) -> Result<Value, AllocError>
    ensures { IfOk result (λ v. view v ≡ unlinked_data reason) }
{
    match reason {
        Unlinked::NotReady(class) => {
            let class = missing(class);
            json!(in alloc; {"unlinked": "NotReady", "wants": class})
        }
        Unlinked::Unbound => single_text(alloc, "unlinked", "Unbound"),
        Unlinked::Gone => single_text(alloc, "unlinked", "Gone"),
        Unlinked::NoSite => single_text(alloc, "unlinked", "NoSite"),
    }
}

/// The answer to a call (JVMS SE 17 §6.5): its outcome, or why there is none.
///
/// # Errors
///
/// Want of memory.
#[tactic(auto, unfolding(crate::specs::CallAnswers::answer_data))]
pub fn answer_value(alloc: Global, answer: Answer) -> Result<Value, AllocError>
    ensures { IfOk result (λ v. view v ≡ answer_data answer) }
{
    match answer {
        Answer::Run(method) => outcome_value(alloc, Outcome::Run(method)),
        Answer::Throws(fault) => outcome_value(alloc, Outcome::Throws(fault)),
        Answer::BadReceiver => single_text(alloc, "refused", "BadReceiver"),
        Answer::Unlinked(reason) => unlinked_value(alloc, reason),
    }
}
