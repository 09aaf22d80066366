//! Commands of call sites and switch points, and what is asked of them.

use crate::classes;
use crate::targets::target;
use crate::told::Told;
use crate::words::{self, named, switch_points, text};
use jl_relink::World;
use jl_types::{CallSiteFault, CallSiteId, CallSiteKind, SwitchId, Target};

/// The kind of a call site (java.lang.invoke).
fn kind(told: &mut Told, word: &str) -> CallSiteKind {
    match word {
        "mutable" => CallSiteKind::Mutable,
        "volatile" => CallSiteKind::Volatile,
        "constant" => CallSiteKind::Constant,
        _ => {
            told.refuse();
            CallSiteKind::Constant
        }
    }
}

/// Makes a call site of this target, by the words of its kind and its type, and tells it.
fn new_site(told: &mut Told, world: &mut World, of: &str, ty: &str, to: Target) {
    let kind = kind(told, of);
    if let Some(ty) = named(told, text(ty)) {
        match world.sites.new_site(&world.classes, kind, ty, to, 65_536) {
            Ok(site) => told.show(&site.number()),
            Err(fault) => told.not_made(fault),
        }
    }
}

/// Makes so many call sites, each of which runs what the one before runs, and tells the last one.
fn chain(told: &mut Told, world: &mut World, count: u32) {
    told.put("None");
    for _ in 0..count {
        let before = u32::try_from(world.sites.call_site_count()).unwrap_or(0);
        let invoked = Target::invoker(CallSiteId::new(before.saturating_sub(1)));
        told.clear();
        new_site(told, world, "mutable", "()V", invoked);
    }
}

/// Tells whether a change was made, or why not.
fn change(told: &mut Told, answer: Result<(), CallSiteFault>) {
    match answer {
        Ok(()) => told.put("Ok"),
        Err(fault) => told.call_site_fault(fault),
    }
}

/// Tells what is asked of the call sites.
fn tell(told: &mut Told, world: &mut World, words: &[&str]) {
    match *words {
        ["is-valid", point] => {
            let point = SwitchId::new(words::number(told, point));
            told.show(&world.sites.is_valid(point));
        }
        ["runs", site] => {
            let site = words::call_site(told, site);
            told.found(world.sites.method_of(site));
        }
        ["call-site-at", site] => {
            let site = words::call_site(told, site);
            match world.sites.call_site_at(site) {
                Some(site) => {
                    told.show(&site.kind());
                    told.name(site.ty().as_slice());
                }
                None => told.put("None"),
            }
        }
        ["counts"] => {
            told.show(&world.sites.call_site_count());
            told.show(&world.sites.switch_count());
        }
        _ => classes::obey(told, &mut world.classes, words),
    }
}

/// Obeys the command, if it changes the call sites and switch points.
pub(crate) fn obey(told: &mut Told, world: &mut World, words: &[&str]) {
    match *words {
        ["switch-point"] => match world.sites.new_switch(65_536) {
            Ok(point) => told.show(&point.number()),
            Err(fault) => told.not_made(fault),
        },
        ["invalidate", ref points @ ..] => {
            let points = switch_points(told, points);
            change(told, world.sites.invalidate_all(&points));
        }
        ["call-site", of, ty, ref to @ ..] => {
            if let Some(to) = target(told, to) {
                new_site(told, world, of, ty, to);
            }
        }
        ["call-site-chain", count] => {
            let count = words::number(told, count);
            chain(told, world, count);
        }
        ["set-target", site, ref to @ ..] => {
            let site = words::call_site(told, site);
            if let Some(to) = target(told, to) {
                change(told, world.sites.set_target(&world.classes, site, to));
            }
        }
        _ => tell(told, world, words),
    }
}
