//! Commands of sites and their links, and what the links rest on.

use crate::targets::target;
use crate::told::Told;
use crate::words::{self, switch_points};
use crate::{call_sites, definitions};
use jl_deps::{footprint_of, keys_of};
use jl_names::Seq;
use jl_relink::{World, dispatch, link_counted, link_of, stays_with_receiver};
use jl_types::{ClassId, Event, Place, Recv, SiteNo, Work};

/// How many sites there may be.
const MOST_SITES: usize = 65_536;

/// Requests the place, and tells its site.
fn request(told: &mut Told, world: &mut World, place: Place) {
    let site = world.places.len();
    if let Some(site) = world.places.get_index_of(&place) {
        told.show(&site);
    } else if site < MOST_SITES && world.places.push(told.alloc(), place).is_ok() {
        told.show(&site);
    } else {
        told.lack();
    }
}

/// Requests the instructions of these pcs, and tells their sites.
fn request_all(told: &mut Told, world: &mut World, method: &str, pcs: &[&str]) {
    let method = words::method(told, method);
    for pc in pcs {
        let place = Place {
            class: method.class,
            method: method.index,
            pc: words::number(told, pc),
        };
        request(told, world, place);
    }
}

/// A receiver: `null`, or an object of a class.
fn receiver(told: &mut Told, word: &str) -> Recv {
    match word {
        "null" => Recv::Null,
        _ => Recv::Of(words::class(told, word)),
    }
}

/// Tells the answers to the calls of the site on these receivers.
fn call_all(told: &mut Told, world: &World, site: &str, receivers: &[&str]) {
    let site = words::site(told, site);
    for word in receivers {
        let receiver = receiver(told, word);
        told.call(dispatch(world, site, receiver));
    }
}

/// The change of these words.
fn event(told: &mut Told, words: &[&str]) -> Option<Event> {
    match *words {
        ["define", by, name, ref rest @ ..] => {
            let by = words::loader(told, by);
            let file = definitions::file(told, name, rest)?;
            Some(Event::Define(by, file))
        }
        ["set-target", site, ref to @ ..] => {
            let site = words::call_site(told, site);
            let to = target(told, to)?;
            Some(Event::SetTarget(site, to))
        }
        ["invalidate", ref points @ ..] => {
            Some(Event::Invalidate(Seq::of(switch_points(told, points))))
        }
        ["switch-point"] => Some(Event::NewSwitch),
        _ => {
            told.refuse();
            None
        }
    }
}

/// Tells the keys of the change of these words.
fn keys(told: &mut Told, world: &World, words: &[&str]) {
    if let Some(event) = event(told, words) {
        match keys_of(told.alloc(), world, &event) {
            Ok(keys) => told.keys(keys.as_slice()),
            Err(_) => told.lack(),
        }
    }
}

/// How many ticks the link of the site takes.
fn ticks(world: &World, site: SiteNo) -> u64 {
    // Shows how few classes there are, which bounds the work.
    let _count = world.classes.class_count();
    let mut work = Work::new();
    let _link = link_counted(world, site, &mut work);
    work.ticks()
}

/// Tells whether the link of the site stays with this receiver, too, and how many ticks that takes.
fn stays(told: &mut Told, world: &World, site: SiteNo, class: ClassId) {
    if !world.classes.has_class(class) {
        return told.put("no class");
    }
    let Ok(link) = link_of(world, site) else {
        return told.put("no link");
    };
    let mut work = Work::new();
    told.show(&stays_with_receiver(world, site, &link, class, &mut work));
    told.show(&work.ticks());
}

/// Binds the site to the call site.
fn bind(told: &mut Told, world: &mut World, site: &str, call_site: &str) {
    let (site, call_site) = (words::site(told, site), words::call_site(told, call_site));
    match world.bindings.insert(site, call_site) {
        Ok(_) => told.put("Ok"),
        Err(_) => told.lack(),
    }
}

/// A copy takes the place of all.
fn copy(told: &mut Told, world: &mut World) {
    match world.copy(told.alloc()) {
        Ok(copy) => {
            *world = copy;
            told.put("copied");
        }
        Err(_) => told.lack(),
    }
}

/// Tells what is asked of a site.
fn tell_site(told: &mut Told, world: &World, question: &str, site: &str) {
    let site = words::site(told, site);
    match question {
        "link" => match link_of(world, site) {
            Ok(link) => told.link(&link),
            Err(unlinked) => told.show(&unlinked),
        },
        "footprint" => match footprint_of(told.alloc(), world, site) {
            Ok(footprint) => told.keys(footprint.as_slice()),
            Err(_) => told.lack(),
        },
        _ => told.show(&ticks(world, site)),
    }
}

/// Obeys the command, and tells what it is answered.
pub(crate) fn answer(told: &mut Told, world: &mut World, words: &[&str]) {
    match *words {
        ["request", method, ref pcs @ ..] => request_all(told, world, method, pcs),
        ["call", site, ref receivers @ ..] => call_all(told, world, site, receivers),
        ["bind", site, call_site] => bind(told, world, site, call_site),
        ["keys", ref change @ ..] => keys(told, world, change),
        [question @ ("link" | "footprint" | "ticks"), site] => {
            tell_site(told, world, question, site)
        }
        ["stays", site, class] => {
            let (site, class) = (words::site(told, site), words::class(told, class));
            stays(told, world, site, class);
        }
        ["copy"] => copy(told, world),
        _ => call_sites::obey(told, world, words),
    }
}
