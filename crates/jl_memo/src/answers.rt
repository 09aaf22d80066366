//! Answers by a link, and at a megamorphic one by a memo.

ghost use Rattle.std.specs.Prelude.{◌≡◌};
ghost use Rattle.jl_memo.specs.Answers as by_memo;

use crate::memo::Memo;
use crate::set::Row;
use jl_cache::KeptSlot;
use jl_types::{Answer, ClassId, Fast, Link, Outcome, Recv, SiteNo, Throwable};

/// The answer at once to a call of the site, by the link that stands there, with so many classes. At a megamorphic link it is by what is
/// remembered. Takes no memory.
pub fn answer(memo: &Memo, slot: &KeptSlot, classes: usize, site: SiteNo, recv: Recv) -> Fast
    ensures { result ≡ by_memo.answer_with memo.now slot.now classes site recv }
{
    if slot.is_mega() {
        return remembered_answer(memo, site, recv);
    }
    slot.answer(classes, recv)
}

/// The answer to a call of the site by what is remembered alone. Takes no memory.
pub fn recalled(memo: &Memo, site: SiteNo, recv: Recv) -> Fast
    ensures { result ≡ by_memo.recalled memo.now site recv }
{
    match recv {
        Recv::Null => Fast::Miss,
        Recv::Of(class) => outcome_answer(memo.get(site, class)),
    }
}

/// Remembers the outcome of a call of the site, if its link is megamorphic and the call has an outcome for its receiver's class.
/// Takes no memory.
pub fn told(memo: &mut Memo, link: &Option<Link>, site: SiteNo, recv: Recv, answer: Answer)
    ensures { memo.new ≡ by_memo.told memo.old link.now site recv answer }
{
    if matches!(link, Some(Link::Mega)) {
        note(memo, site, recv, outcome_of(answer));
    }
}

/// The answer to a call of a site with a megamorphic link, by what is remembered. Takes no memory.
pub fn remembered_answer(memo: &Memo, site: SiteNo, recv: Recv) -> Fast
    ensures { result ≡ by_memo.remembered_answer memo.now site recv }
{
    match recv {
        Recv::Null => Fast::Now(Answer::Throws(Throwable::NullPointerException)),
        Recv::Of(class) => outcome_answer(memo.get(site, class)),
    }
}

/// The answer of an outcome, if there is one.
fn outcome_answer(outcome: Option<Outcome>) -> Fast
    ensures { result ≡ by_memo.outcome_answer outcome }
{
    match outcome {
        Some(outcome) => Fast::Now(Answer::from(outcome)),
        None => Fast::Miss,
    }
}

/// The outcome that the answer is.
fn outcome_of(answer: Answer) -> Option<Outcome>
    ensures { result ≡ by_memo.outcome_of answer }
{
    match answer {
        Answer::Run(method) => Some(Outcome::Run(method)),
        Answer::Throws(throwable) => Some(Outcome::Throws(throwable)),
        Answer::BadReceiver => None,
        Answer::Unlinked(_) => None,
    }
}

/// Remembers the outcome, if there is one, of the call on an object.
fn note(memo: &mut Memo, site: SiteNo, recv: Recv, outcome: Option<Outcome>)
    ensures { memo.new ≡ by_memo.noted memo.old site recv outcome }
{
    match recv {
        Recv::Null => {}
        Recv::Of(class) => match outcome {
            None => {}
            Some(outcome) => memo.put(Row {
                site,
                class,
                outcome,
            }),
        },
    }
}
