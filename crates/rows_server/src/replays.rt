//! A storm of retargets, and what threads did at once, done once more by one core, in the order of the serials.

use crate::deeds::{Deed, event, install, sites_from, turned};
use crate::workers::{Shared, Told, Worker};
use jl_core::Core;
use jl_server::Name;
use jl_types::{Event, Reply};
use std::alloc::Global;
use std::sync::Wait;
use std::sync::atomic::Ordering;
use std::thread;

/// Two threads of the storm retarget, and two others install.
const THREADS: usize = 4;

/// What each of the threads does.
const ROUNDS: u32 = 1000;

/// So often all threads meet, and those that install do so once while the others wait.
const STRETCH: u32 = 100;

/// The install of all links as they are then.
pub(crate) const ALL: &Deed = &Deed::Install(15);

/// Waits until all threads have come, as often as this one.
fn meet<K: Name, R: Wait, S: Wait + Drop>(shared: &Shared<'_, K, R, S>) {
    let threads = THREADS as u64;
    let before = shared.come.fetch_add(1, Ordering::SeqCst);
    let all = (before / threads).saturating_add(1).saturating_mul(threads);
    for _ in shared.rt.forever() {
        if shared.come.load(Ordering::SeqCst) >= all {
            break;
        }
        thread::yield_now();
    }
}

/// What the thread of this number does, if it is one of the storm: it retargets, or installs. The first install of a stretch, at which
/// the others wait, is accepted.
pub(crate) fn storm<K: Name, R: Wait, S: Wait + Drop>(
    shared: &Shared<'_, K, R, S>,
    worker: &mut Worker<K>,
    index: usize,
) {
    if index >= THREADS {
        return;
    }
    let installs = index >= 2;
    for round in 0..ROUNDS {
        let is_first = round % STRETCH == 0;
        if is_first {
            meet(shared);
        }
        if is_first && !installs {
            meet(shared);
        }
        let deed = if installs { *ALL } else { turned(round) };
        let _accepted = shared.does(worker, &deed);
        if is_first && installs {
            meet(shared);
        }
    }
}

/// All accepted events by rising serial, if nothing went wrong.
pub(crate) fn gathered<K: Name>(alloc: Global, workers: &mut [Worker<K>]) -> Option<Vec<Told>> {
    let mut all = Vec::new(alloc);
    let mut wrong = 0u64;
    for worker in workers {
        wrong |= worker.wrong;
        all.append(&mut worker.told).ok()?;
    }
    all.sort_unstable_by_key(|told| told.serial);
    if wrong == 0 { Some(all) } else { None }
}

/// The deed's event, made again. An install is of the links as they are in the core.
fn event_again(alloc: Global, core: &Core, deed: &Deed) -> Option<Event> {
    match deed {
        Deed::Install(bits) => match &sites_from(alloc, *bits) {
            Ok(sites) => install(core.prepare(alloc, sites.as_slice())),
            Err(_) => None,
        },
        _ => event(alloc, deed),
    }
}

/// Whether the core accepts the event, and answers it as it was answered.
fn is_again(alloc: Global, core: &mut Core, told: &Told) -> bool {
    let Some(event) = event_again(alloc, core, &told.deed) else {
        return false;
    };
    match &core.apply(alloc, event) {
        Ok(Reply { made, dropped }) => {
            *made == told.reply.made && dropped.as_slice() == told.reply.dropped.as_slice()
        }
        Err(_) => false,
    }
}

/// Whether the serials are those from 1 on, each once.
pub(crate) fn are_dense(all: &[Told]) -> bool {
    let mut so = true;
    let mut serial = 0u64;
    for told in all {
        serial = serial.saturating_add(1);
        so = so && told.serial == serial;
    }
    so
}

/// Whether the core that does all that in the order of the serials is answered the same, and has the server's links.
fn is_same<K: Name, R: Wait, S: Wait + Drop>(
    shared: &Shared<'_, K, R, S>,
    worker: &mut Worker<K>,
    core: &mut Core,
    all: &[Told],
) -> bool {
    let mut same = true;
    for told in all {
        same = is_again(shared.alloc, core, told) && same;
    }
    let Shared {
        rt,
        alloc,
        server,
        ..
    } = shared;
    match (
        &core.list_links(*alloc),
        &server.links(*rt, *alloc, &mut worker.caller),
    ) {
        (Ok(links), Ok(list)) => {
            same && list.serial == all.len() as u64 && list.rows.as_slice() == links.as_slice()
        }
        _ => false,
    }
}

/// Whether a new core does so.
pub(crate) fn is_replayed<K: Name, R: Wait, S: Wait + Drop>(
    shared: &Shared<'_, K, R, S>,
    worker: &mut Worker<K>,
    all: &[Told],
) -> bool {
    match Core::new(shared.alloc, 64) {
        Ok(mut core) => is_same(shared, worker, &mut core, all),
        Err(_) => false,
    }
}

/// Whether no retarget of the storm was refused, and what is accepted for certain was: the first install, and in each stretch those that
/// nobody disturbs. After these the first change at each of the four call sites takes a link.
pub(crate) fn are_enough(all: &[Told]) -> bool {
    let (mut retargets, mut installs, mut losses) = (0u64, 0u64, 0u64);
    for told in all {
        match told.deed {
            Deed::Retarget(..) => {
                retargets = retargets.saturating_add(1);
                if !told.reply.dropped.as_slice().is_empty() {
                    losses = losses.saturating_add(1);
                }
            }
            Deed::Install(_) => installs = installs.saturating_add(1),
            _ => {}
        }
    }
    retargets >= 2000 && installs >= 21 && losses >= 40
}
