//! Which links an event took.

ghost use Rattle.std.specs.Prelude.{◌≡◌, ◌==◌, ◌&&◌, ◌||◌, ◌+◌, ◌^◌, ◌<◌, ◌≤◌, ℕ, length, sum_by, false, Some, is_some, IfOk, IfSome, OnOk};
ghost use Rattle.std.specs.List.{AllByRecursion, list_any};
ghost use Rattle.jl_types.specs.Linkage.Links as links;
ghost use Rattle.jl_types.specs.Linkage.Links.{scratch};
ghost use Rattle.jl_types.specs.Linkage.Stages.{stage};
ghost use Rattle.jl_types.specs.Events.History.{kept};
ghost use Rattle.jl_types.specs.Events.Footprints.{most_for};
ghost use Rattle.jl_cache.specs.Links.{link_at};
ghost use Rattle.jl_relink.specs.Receivers.{TellsStay};
ghost use Rattle.jl_deps.specs.Forms.{form_of};
ghost use Rattle.jl_deps.specs.Indexes.{rests_at};
ghost use Rattle.jl_deps.specs.ForProofs.Lists.{form_in};
ghost use Rattle.jl_settle.specs.Settling.{goes, MayBeAsked, most_asked};

use jl_cache::Cache;
use jl_deps::{Form, Index};
use jl_relink::{World, link_counted, stays_with_receiver};
use jl_select::select_counted;
use jl_types::{ClassId, Link, MethodId, Outcome, SiteNo, Work};
use std::alloc::{AllocError, Global};

/// Those of the sites whose links aren't the ones from scratch any more.
pub(crate) fn lost_among(
    alloc: Global,
    world: &World,
    links: &Cache,
    index: &Index,
    sites: &[SiteNo],
    defined: &Option<ClassId>,
    work: &mut Work,
) -> Result<Vec<SiteNo>, AllocError>
    requires there { IfSome defined.now (λ x. x < length world.now.classes.rows) }
    requires each { AllByRecursion (MayBeAsked world.now defined.now (link_at links.now) index.now) sites.now }
    requires fits { work.old + sum_by (most_asked world.now defined.now) sites.now < 2 ^ 64 }
    ensures ticks { OnOk result (work.new ≤ work.old + sum_by (most_asked world.now defined.now) sites.now) }
    ensures lost { IfOk result (λ lost. (s : ℕ) → list_any (λ t. t == s) lost.items
        ≡ (list_any (λ t. t == s) sites.now && goes world.now (link_at links.now) s)) }
{
    let mut lost = Vec::new(alloc);
    for site in sites {
        let goes = is_lost(world, links, index, *site, defined, work);
        push_if(&mut lost, goes, *site)?;
    }
    Ok(lost)
}

/// Adds the site, if so.
pub(crate) fn push_if(sites: &mut Vec<SiteNo>, goes: bool, site: SiteNo) -> Result<(), AllocError>
    ensures { OnOk result ((s : ℕ) → list_any (λ t. t == s) sites.new.items
        ≡ (list_any (λ t. t == s) sites.old.items || ((site == s) && goes))) }
{
    if goes {
        sites.push(site)?;
    }
    Ok(())
}

/// Whether the site has a link that isn't the one from scratch any more.
fn is_lost(
    world: &World,
    links: &Cache,
    index: &Index,
    site: SiteNo,
    defined: &Option<ClassId>,
    work: &mut Work,
) -> bool
    requires there { IfSome defined.now (λ x. x < length world.now.classes.rows) }
    requires asked { MayBeAsked world.now defined.now (link_at links.now) index.now site }
    requires fits { work.old + most_asked world.now defined.now site < 2 ^ 64 }
    ensures ticks { work.new ≤ work.old + most_asked world.now defined.now site }
    ensures lost { result ≡ goes world.now (link_at links.now) site }
{
    let Some(kept) = links.kept(site) else {
        return false;
    };
    match defined {
        Some(receiver) => {
            let link = kept.get();
            let form = form_at(index, site);
            !stays_by_form(world, site, &form, &link, *receiver, work)
        }
        None => !is_still(world, site, kept.get(), work),
    }
}

/// How the site selects, if its link rests on something.
fn form_at(index: &Index, site: SiteNo) -> Form
    ensures { result ≡ form_in (rests_at index.now site) }
{
    match index.rests(site) {
        Some(rests) => rests.form(),
        None => Form::Other,
    }
}

/// Whether the site's link stays once there is this receiver more. For an invokevirtual the form tells the resolved method, so nothing is
/// resolved. One tick at most.
fn stays_by_form(
    world: &World,
    site: SiteNo,
    form: &Form,
    link: &Link,
    receiver: ClassId,
    work: &mut Work,
) -> bool
    requires form { form.now ≡ form_of world.now.classes (stage world.now site) }
    requires there { receiver < length world.now.classes.rows }
    requires fits { work.old + 1 < 2 ^ 64 }
    ensures stays { TellsStay world.now site link.now receiver result }
    ensures ticks { work.new ≤ work.old + 1 }
{
    let (Form::Virtual(selected), Link::Direct(Outcome::Run(method))) = (form, link) else {
        return stays_with_receiver(world, site, link, receiver, work);
    };
    runs(
        select_counted(&world.classes, receiver, selected, work),
        method,
    )
}

/// Whether the outcome is that this method runs.
fn runs(outcome: Outcome, method: &MethodId) -> bool
    ensures { result ≡ links.runs method.now outcome }
{
    match outcome {
        Outcome::Run(run) => run == *method,
        Outcome::Throws(_) => false,
    }
}

/// Whether the site's link from scratch is this one.
fn is_still(world: &World, site: SiteNo, link: Link, work: &mut Work) -> bool
    requires fits { work.old + most_for world.now site < 2 ^ 64 }
    ensures ticks { work.new ≤ work.old + most_for world.now site }
    ensures still { result ≡ is_some (kept false (Some link) (scratch world.now site)) }
{
    match link_counted(world, site, work) {
        Ok(now) => link == now,
        Err(_) => false,
    }
}
