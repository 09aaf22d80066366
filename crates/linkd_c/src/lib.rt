//! The C interface: `include/linkd.h` declares these functions, and says what a caller owes.
//!
//! What linkers, seats, memos, views and renewals are, and how a caller makes one of a block of memory, the header says. Each function is one call of
//! jl_host, and says of what lies at the handle what that call says of its value; `specs/Handle` says what lies there.
#![tactic(auto)]

ghost use Rattle.std.specs.Prelude.{◌≡◌, List, Option, None};
ghost use types.Logic.{sem};
ghost use Rattle.jl_host.specs.Linkers.{Opened, IsOpen, IsOpenWith, limits_of, IsNewLoader, IsDefine, IsDefineUpTo, IsDelegate, IsRequest, IsNewCallSite};
ghost use Rattle.jl_host.specs.Linkers.{IsSetTarget, IsNewSwitch, IsInvalidate, IsBind, IsInstall, IsDropped, IsCall, IsLinkOf, IsAnswer, IsTake};
ghost use Rattle.jl_host.specs.Seats.{SeatView, IsRefresh, IsSeatCall, IsSeatAnswer};
ghost use Rattle.jl_host.specs.Memos.{IsMemoOpen, IsMemoAsk, IsMemoCall, IsSeatCallWith};
ghost use Rattle.jl_host.specs.Targets.{IsNewCallSiteOf, IsSetTargetOf};
ghost use Rattle.jl_host.specs.Views.{IsViewTake, IsViewCall, IsViewSerial, IsViewPrepare, IsInstallLinks};
ghost use Rattle.jl_host.specs.Renewals.{IsCounts, IsCountsPresent, IsRenew, arrays_of, released_of};
ghost use Rattle.jl_relink.specs.Preparations.{Snapshot};
ghost use Rattle.jl_memo.specs.declared.set.Set.{Set};
ghost use Rattle.linkd_c.specs.Handle.{linker_at, linker_left, renewed_left, linker_room, linker_bytes, linker_multiple};
ghost use Rattle.linkd_c.specs.Handle.{seat_at, seat_left, both_left, seat_room, seat_bytes, seat_multiple};
ghost use Rattle.linkd_c.specs.Handle.{memo_at, memo_left, asked_left, called_left, memo_room, memo_bytes, memo_multiple};
ghost use Rattle.linkd_c.specs.Handle.{view_at, view_left, taken_left, view_room, view_bytes, view_multiple};

mod asked;
mod calls;
mod handles;
mod renewals;
mod retirements;
mod work;

pub use handles::{Linkd, LinkdMemo, LinkdRenewal, LinkdSeat, LinkdView};
use jl_host::{CallAnswer, Counts, LinkRow, LinkShown, Linker, Memo, Seat, TargetPart, Told, View};
use std::alloc::Global;

/// Which header the library is of: LINKD_VERSION there.
#[unsafe(no_mangle)]
pub extern "C" fn linkd_version() -> u32
    ensures { result ≡ 12 }
{
    12
}

/// The bytes of a linker.
#[unsafe(no_mangle)]
pub extern "C" fn linkd_size() -> usize
    ensures { result ≡ linker_bytes }
{
    std::mem::size_of::<Linker>()
}

/// The number that a linker's address is a multiple of.
#[unsafe(no_mangle)]
pub extern "C" fn linkd_align() -> usize
    ensures { result ≡ linker_multiple }
{
    std::mem::align_of::<Linker>()
}

/// Makes a linker that isn't open of room for one.
#[unsafe(no_mangle)]
pub unsafe extern "C" fn linkd_blank(at: *mut Linkd)
    requires* { sem 𝓛 (linker_room at) }
    ensures* { sem 𝓛 (linker_at at None) }
{
    (at as *mut Linker).write(Linker::blank());
}

/// Lets all go that the linker has. It has no memory but its block then.
#[unsafe(no_mangle)]
pub unsafe extern "C" fn linkd_close(at: *mut Linkd)
    ghost old: { Option Opened }
    requires* { sem 𝓛 (linker_at at old) }
    ensures* { sem 𝓛 (linker_left at (λ new. new ≡ None)) }
{
    (*(at as *mut Linker)).close();
}

/// Opens the linker, without classes; so many places may be requested.
#[unsafe(no_mangle)]
pub unsafe extern "C" fn linkd_open(alloc: Global, at: *mut Linkd, max_sites: u32) -> u32
    ghost old: { Option Opened }
    requires* { sem 𝓛 (linker_at at old) }
    ensures* { sem 𝓛 (linker_left at (λ new. IsOpen max_sites old result new)) }
{
    (*(at as *mut Linker)).open(alloc, max_sites)
}

/// Opens the linker, without classes; of each kind so many numbers are ever given.
#[unsafe(no_mangle)]
pub unsafe extern "C" fn linkd_open_with(
    alloc: Global,
    at: *mut Linkd,
    sites: u32,
    loaders: u32,
    classes: u32,
    call_sites: u32,
    switches: u32,
) -> u32
    ghost old: { Option Opened }
    requires* { sem 𝓛 (linker_at at old) }
    ensures* { sem 𝓛 (linker_left at (λ new. IsOpenWith (limits_of sites loaders classes call_sites switches) old result new)) }
{
    (*(at as *mut Linker)).open_with(alloc, sites, loaders, classes, call_sites, switches)
}

/// One loader more.
#[unsafe(no_mangle)]
pub unsafe extern "C" fn linkd_new_loader(alloc: Global, at: *mut Linkd, told: &mut Told) -> u32
    ghost old: { Option Opened }
    requires* { sem 𝓛 (linker_at at old) }
    ensures* { sem 𝓛 (linker_left at (λ new. IsNewLoader old result told.new new)) }
{
    (*(at as *mut Linker)).new_loader(alloc, told)
}

/// The loader defines the class of a class file (JVMS SE 17 §4, §5.3.5) whose major version is at most 61, that of SE 17.
#[unsafe(no_mangle)]
pub unsafe extern "C" fn linkd_define(
    alloc: Global,
    at: *mut Linkd,
    loader: u32,
    bytes: &[u8],
    told: &mut Told,
) -> u32
    ghost old: { Option Opened }
    requires* { sem 𝓛 (linker_at at old) }
    ensures* { sem 𝓛 (linker_left at (λ new. IsDefine loader bytes.now old result told.new new)) }
{
    (*(at as *mut Linker)).define(alloc, loader, bytes, told)
}

/// The loader defines the class of a class file whose major version is at most `newest`. One above 61 is read as 61 is.
#[unsafe(no_mangle)]
pub unsafe extern "C" fn linkd_define_up_to(
    alloc: Global,
    at: *mut Linkd,
    loader: u32,
    newest: u16,
    bytes: &[u8],
    told: &mut Told,
) -> u32
    ghost old: { Option Opened }
    requires* { sem 𝓛 (linker_at at old) }
    ensures* { sem 𝓛 (linker_left at (λ new. IsDefineUpTo newest loader bytes.now old result told.new new)) }
{
    (*(at as *mut Linker)).define_up_to(alloc, loader, newest, bytes, told)
}

/// The loader finds under the name the class that the loader `to` finds (§5.3).
#[unsafe(no_mangle)]
pub unsafe extern "C" fn linkd_delegate(
    alloc: Global,
    at: *mut Linkd,
    loader: u32,
    name: &[u8],
    to: u32,
    told: &mut Told,
) -> u32
    ghost old: { Option Opened }
    requires* { sem 𝓛 (linker_at at old) }
    ensures* { sem 𝓛 (linker_left at (λ new. IsDelegate loader name.now to old result told.new new)) }
{
    (*(at as *mut Linker)).delegate(alloc, loader, name, to, told)
}

/// The invocation at the pc of the class's method is to be linked.
#[unsafe(no_mangle)]
pub unsafe extern "C" fn linkd_request(
    alloc: Global,
    at: *mut Linkd,
    class: u32,
    method: u32,
    pc: u32,
    told: &mut Told,
) -> u32
    ghost old: { Option Opened }
    requires* { sem 𝓛 (linker_at at old) }
    ensures* { sem 𝓛 (linker_left at (λ new. IsRequest class method pc old result told.new new)) }
{
    (*(at as *mut Linker)).request(alloc, class, method, pc, told)
}

/// One call site more, of this kind, this type and with this first target (java.lang.invoke).
#[unsafe(no_mangle)]
pub unsafe extern "C" fn linkd_new_call_site(
    alloc: Global,
    at: *mut Linkd,
    kind: u32,
    ty: &[u8],
    target: &[u8],
    told: &mut Told,
) -> u32
    ghost old: { Option Opened }
    requires* { sem 𝓛 (linker_at at old) }
    ensures* { sem 𝓛 (linker_left at (λ new. IsNewCallSite kind ty.now target.now old result told.new new)) }
{
    (*(at as *mut Linker)).new_call_site(alloc, kind, ty, target, told)
}

/// One call site more, of this kind, this type and with the first target that the parts are (java.lang.invoke).
#[unsafe(no_mangle)]
pub unsafe extern "C" fn linkd_new_call_site_of(
    alloc: Global,
    at: *mut Linkd,
    kind: u32,
    ty: &[u8],
    parts: &[TargetPart],
    told: &mut Told,
) -> u32
    ghost old: { Option Opened }
    requires* { sem 𝓛 (linker_at at old) }
    ensures* { sem 𝓛 (linker_left at (λ new. IsNewCallSiteOf kind ty.now parts.now old result told.new new)) }
{
    (*(at as *mut Linker)).new_call_site_of(alloc, kind, ty, parts, told)
}

/// The call site gets another target.
#[unsafe(no_mangle)]
pub unsafe extern "C" fn linkd_set_target(
    alloc: Global,
    at: *mut Linkd,
    call_site: u32,
    target: &[u8],
    told: &mut Told,
) -> u32
    ghost old: { Option Opened }
    requires* { sem 𝓛 (linker_at at old) }
    ensures* { sem 𝓛 (linker_left at (λ new. IsSetTarget call_site target.now old result told.new new)) }
{
    (*(at as *mut Linker)).set_target(alloc, call_site, target, told)
}

/// The call site gets another target, which the parts are.
#[unsafe(no_mangle)]
pub unsafe extern "C" fn linkd_set_target_of(
    alloc: Global,
    at: *mut Linkd,
    call_site: u32,
    parts: &[TargetPart],
    told: &mut Told,
) -> u32
    ghost old: { Option Opened }
    requires* { sem 𝓛 (linker_at at old) }
    ensures* { sem 𝓛 (linker_left at (λ new. IsSetTargetOf call_site parts.now old result told.new new)) }
{
    (*(at as *mut Linker)).set_target_of(alloc, call_site, parts, told)
}

/// One switch point more, valid.
#[unsafe(no_mangle)]
pub unsafe extern "C" fn linkd_new_switch(alloc: Global, at: *mut Linkd, told: &mut Told) -> u32
    ghost old: { Option Opened }
    requires* { sem 𝓛 (linker_at at old) }
    ensures* { sem 𝓛 (linker_left at (λ new. IsNewSwitch old result told.new new)) }
{
    (*(at as *mut Linker)).new_switch(alloc, told)
}

/// The switch points become invalid for good.
#[unsafe(no_mangle)]
pub unsafe extern "C" fn linkd_invalidate(
    alloc: Global,
    at: *mut Linkd,
    switches: &[u32],
    told: &mut Told,
) -> u32
    ghost old: { Option Opened }
    requires* { sem 𝓛 (linker_at at old) }
    ensures* { sem 𝓛 (linker_left at (λ new. IsInvalidate switches.now old result told.new new)) }
{
    (*(at as *mut Linker)).invalidate(alloc, switches, told)
}

/// The invokedynamic's bootstrap method gave this call site (§6.5).
#[unsafe(no_mangle)]
pub unsafe extern "C" fn linkd_bind(
    alloc: Global,
    at: *mut Linkd,
    site: u32,
    call_site: u32,
    told: &mut Told,
) -> u32
    ghost old: { Option Opened }
    requires* { sem 𝓛 (linker_at at old) }
    ensures* { sem 𝓛 (linker_left at (λ new. IsBind site call_site old result told.new new)) }
{
    (*(at as *mut Linker)).bind(alloc, site, call_site, told)
}

/// Links the sites from scratch and installs their links, all or none.
#[unsafe(no_mangle)]
pub unsafe extern "C" fn linkd_install(
    alloc: Global,
    at: *mut Linkd,
    sites: &[u32],
    told: &mut Told,
) -> u32
    ghost old: { Option Opened }
    requires* { sem 𝓛 (linker_at at old) }
    ensures* { sem 𝓛 (linker_left at (λ new. IsInstall sites.now old result told.new new)) }
{
    (*(at as *mut Linker)).install(alloc, sites, told)
}

/// Installs these links, each of which is its site's from scratch now, all or none.
#[unsafe(no_mangle)]
pub unsafe extern "C" fn linkd_install_links(
    alloc: Global,
    at: *mut Linkd,
    rows: &[LinkRow],
    told: &mut Told,
    present: &mut LinkShown,
) -> u32
    ghost old: { Option Opened }
    requires* { sem 𝓛 (linker_at at old) }
    ensures* { sem 𝓛 (linker_left at (λ new. IsInstallLinks rows.now old present.old result told.new present.new new)) }
{
    (*(at as *mut Linker)).install_links(alloc, rows, told, present)
}

/// Copies the sites whose links the last accepted event removed. Takes no memory.
#[unsafe(no_mangle)]
pub unsafe extern "C" fn linkd_dropped(at: *mut Linkd, out: &mut [u32], length: &mut usize) -> u32
    ghost old: { Option Opened }
    requires* { sem 𝓛 (linker_at at old) }
    ensures* { sem 𝓛 (linker_left at (λ new. IsDropped old out.old length.old result out.new length.new new)) }
{
    (*(at as *mut Linker)).dropped(out, length)
}

/// The answer to a call now, linked or not. Takes no memory.
#[unsafe(no_mangle)]
pub unsafe extern "C" fn linkd_call(
    at: *mut Linkd,
    site: u32,
    receiver: u32,
    answer: &mut CallAnswer,
) -> u32
    ghost old: { Option Opened }
    requires* { sem 𝓛 (linker_at at old) }
    ensures* { sem 𝓛 (linker_left at (λ new. IsCall site receiver old answer.old result answer.new new)) }
{
    (*(at as *mut Linker)).call(site, receiver, answer)
}

/// The link that is installed at the site. Takes no memory.
#[unsafe(no_mangle)]
pub unsafe extern "C" fn linkd_link_of(at: *mut Linkd, site: u32, link: &mut LinkShown) -> u32
    ghost old: { Option Opened }
    requires* { sem 𝓛 (linker_at at old) }
    ensures* { sem 𝓛 (linker_left at (λ new. IsLinkOf site old link.old result link.new new)) }
{
    (*(at as *mut Linker)).link_of(site, link)
}

/// How many of each there ever were. Takes no memory.
#[unsafe(no_mangle)]
pub unsafe extern "C" fn linkd_counts(at: *mut Linkd, counts: &mut Counts) -> u32
    ghost old: { Option Opened }
    requires* { sem 𝓛 (linker_at at old) }
    ensures* { sem 𝓛 (linker_left at (λ new. IsCounts old result counts.new new)) }
{
    (*(at as *mut Linker)).counts(counts)
}

/// How many of each are present.
#[unsafe(no_mangle)]
pub unsafe extern "C" fn linkd_counts_present(
    alloc: Global,
    at: *mut Linkd,
    counts: &mut Counts,
) -> u32
    ghost old: { Option Opened }
    requires* { sem 𝓛 (linker_at at old) }
    ensures* { sem 𝓛 (linker_left at (λ new. IsCountsPresent old result counts.new new)) }
{
    (*(at as *mut Linker)).counts_present(alloc, counts)
}

/// Opens the other linker over what stays of this one, and writes the new numbers.
#[unsafe(no_mangle)]
pub unsafe extern "C" fn linkd_renew_into(
    alloc: Global,
    at: *mut Linkd,
    fresh: *mut Linkd,
    max_sites: u32,
    released_call_sites: &[u32],
    released_switches: &[u32],
    loaders: &mut [u32],
    classes: &mut [u32],
    sites: &mut [u32],
    call_sites: &mut [u32],
    switches: &mut [u32],
) -> u32
    ghost old: { Option Opened × Option Opened }
    requires* linker { sem 𝓛 (linker_at at old.0) }
    requires* fresh { sem 𝓛 (linker_at fresh old.1) }
    ensures* { sem 𝓛 (renewed_left at fresh (λ new. IsRenew (released_of released_call_sites.now released_switches.now) max_sites old.0 old.1
        (arrays_of loaders.old classes.old sites.old call_sites.old switches.old) result new.0 new.1
        (arrays_of loaders.new classes.new sites.new call_sites.new switches.new))) }
{
    (*(at as *mut Linker)).renew(
        alloc,
        &mut *(fresh as *mut Linker),
        max_sites,
        released_call_sites,
        released_switches,
        loaders,
        classes,
        sites,
        call_sites,
        switches,
    )
}

/// Answers any command of a session, as text, and keeps the answer.
#[unsafe(no_mangle)]
pub unsafe extern "C" fn linkd_answer(
    alloc: Global,
    at: *mut Linkd,
    line: &[u8],
    length: &mut usize,
) -> u32
    ghost old: { Option Opened }
    requires* { sem 𝓛 (linker_at at old) }
    ensures* { sem 𝓛 (linker_left at (λ new. IsAnswer line.now old length.old result length.new new)) }
{
    (*(at as *mut Linker)).answer(alloc, line, length)
}

/// Copies the text of the last answer. Takes no memory.
#[unsafe(no_mangle)]
pub unsafe extern "C" fn linkd_take(at: *mut Linkd, out: &mut [u8], length: &mut usize) -> u32
    ghost old: { Option Opened }
    requires* { sem 𝓛 (linker_at at old) }
    ensures* { sem 𝓛 (linker_left at (λ new. IsTake old out.old length.old result out.new length.new new)) }
{
    (*(at as *mut Linker)).take(out, length)
}

/// The bytes of a seat.
#[unsafe(no_mangle)]
pub extern "C" fn linkd_seat_size() -> usize
    ensures { result ≡ seat_bytes }
{
    std::mem::size_of::<Seat>()
}

/// The number that a seat's address is a multiple of.
#[unsafe(no_mangle)]
pub extern "C" fn linkd_seat_align() -> usize
    ensures { result ≡ seat_multiple }
{
    std::mem::align_of::<Seat>()
}

/// Makes a seat that has seen nothing of room for one.
#[unsafe(no_mangle)]
pub unsafe extern "C" fn linkd_seat_blank(at: *mut LinkdSeat)
    requires* { sem 𝓛 (seat_room at) }
    ensures* { sem 𝓛 (seat_at at None) }
{
    (at as *mut Seat).write(Seat::blank());
}

/// Gives the seat the linker's links and its count of classes as they are now.
#[unsafe(no_mangle)]
pub unsafe extern "C" fn linkd_seat_refresh(
    alloc: Global,
    at: *mut LinkdSeat,
    from: *mut Linkd,
) -> u32
    ghost old: { Option SeatView × Option Opened }
    requires* seat { sem 𝓛 (seat_at at old.0) }
    requires* linker { sem 𝓛 (linker_at from old.1) }
    ensures* { sem 𝓛 (both_left at from (λ new. IsRefresh old.0 old.1 result new.0 new.1)) }
{
    (*(at as *mut Seat)).refresh(alloc, &mut *(from as *mut Linker))
}

/// The answer at once to a call, by the links of the last refresh. Takes no lock and no memory.
#[unsafe(no_mangle)]
pub unsafe extern "C" fn linkd_seat_call(
    at: *mut LinkdSeat,
    site: u32,
    receiver: u32,
    answer: &mut CallAnswer,
) -> u32
    ghost old: { Option SeatView }
    requires* { sem 𝓛 (seat_at at old) }
    ensures* { sem 𝓛 (seat_left at (λ new. IsSeatCall site receiver old answer.old result answer.new new)) }
{
    (*(at as *mut Seat)).call(site, receiver, answer)
}

/// The answer at once to a call, in 64 bits: a miss if the seat was never refreshed. Takes no lock and no memory.
#[unsafe(no_mangle)]
pub unsafe extern "C" fn linkd_seat_answer(at: *mut LinkdSeat, site: u32, receiver: u32) -> u64
    ghost old: { Option SeatView }
    requires* { sem 𝓛 (seat_at at old) }
    ensures* { sem 𝓛 (seat_left at (λ new. IsSeatAnswer site receiver old result new)) }
{
    (*(at as *mut Seat)).answer(site, receiver)
}

/// Lets go what the seat has seen. It has no memory but its block then.
#[unsafe(no_mangle)]
pub unsafe extern "C" fn linkd_seat_leave(at: *mut LinkdSeat)
    ghost old: { Option SeatView }
    requires* { sem 𝓛 (seat_at at old) }
    ensures* { sem 𝓛 (seat_left at (λ new. new ≡ None)) }
{
    (*(at as *mut Seat)).leave();
}

/// The answer at once to a call by the links of the last refresh, and at a megamorphic link by what the memo remembers. No lock, no memory.
#[unsafe(no_mangle)]
pub unsafe extern "C" fn linkd_seat_call_with(
    at: *mut LinkdSeat,
    with: *mut LinkdMemo,
    site: u32,
    receiver: u32,
    answer: &mut CallAnswer,
) -> u32
    ghost old: { Option SeatView × Option (List Set) }
    requires* seat { sem 𝓛 (seat_at at old.0) }
    requires* memo { sem 𝓛 (memo_at with old.1) }
    ensures* { sem 𝓛 (called_left at with (λ new. IsSeatCallWith site receiver old.0 old.1 answer.old result answer.new new.0 new.1)) }
{
    (*(at as *mut Seat)).call_with(&mut *(with as *mut Memo), site, receiver, answer)
}

/// The bytes of a memo.
#[unsafe(no_mangle)]
pub extern "C" fn linkd_memo_size() -> usize
    ensures { result ≡ memo_bytes }
{
    std::mem::size_of::<Memo>()
}

/// The number that a memo's address is a multiple of.
#[unsafe(no_mangle)]
pub extern "C" fn linkd_memo_align() -> usize
    ensures { result ≡ memo_multiple }
{
    std::mem::align_of::<Memo>()
}

/// Makes a memo that isn't open of room for one.
#[unsafe(no_mangle)]
pub unsafe extern "C" fn linkd_memo_blank(at: *mut LinkdMemo)
    requires* { sem 𝓛 (memo_room at) }
    ensures* { sem 𝓛 (memo_at at None) }
{
    (at as *mut Memo).write(Memo::blank());
}

/// Opens the memo, with room for two calls in each of so many sets.
#[unsafe(no_mangle)]
pub unsafe extern "C" fn linkd_memo_open(alloc: Global, at: *mut LinkdMemo, sets: u32) -> u32
    ghost old: { Option (List Set) }
    requires* { sem 𝓛 (memo_at at old) }
    ensures* { sem 𝓛 (memo_left at (λ new. IsMemoOpen sets old result new)) }
{
    (*(at as *mut Memo)).open(alloc, sets)
}

/// The answer to a call now, linked or not; remembered if the site's link is megamorphic. Takes no memory.
#[unsafe(no_mangle)]
pub unsafe extern "C" fn linkd_memo_ask(
    at: *mut LinkdMemo,
    from: *mut Linkd,
    site: u32,
    receiver: u32,
    answer: &mut CallAnswer,
) -> u32
    ghost old: { Option (List Set) × Option Opened }
    requires* memo { sem 𝓛 (memo_at at old.0) }
    requires* linker { sem 𝓛 (linker_at from old.1) }
    ensures* { sem 𝓛 (asked_left at from (λ new. IsMemoAsk site receiver old.0 old.1 answer.old result answer.new new.0 new.1)) }
{
    (*(at as *mut Memo)).ask(&mut *(from as *mut Linker), site, receiver, answer)
}

/// The answer to a call that the memo remembers, by itself. Takes no lock and no memory.
#[unsafe(no_mangle)]
pub unsafe extern "C" fn linkd_memo_call(
    at: *mut LinkdMemo,
    site: u32,
    receiver: u32,
    answer: &mut CallAnswer,
) -> u32
    ghost old: { Option (List Set) }
    requires* { sem 𝓛 (memo_at at old) }
    ensures* { sem 𝓛 (memo_left at (λ new. IsMemoCall site receiver old answer.old result answer.new new)) }
{
    (*(at as *mut Memo)).call(site, receiver, answer)
}

/// Lets go what the memo remembers. It has no memory but its block then.
#[unsafe(no_mangle)]
pub unsafe extern "C" fn linkd_memo_close(at: *mut LinkdMemo)
    ghost old: { Option (List Set) }
    requires* { sem 𝓛 (memo_at at old) }
    ensures* { sem 𝓛 (memo_left at (λ new. new ≡ None)) }
{
    (*(at as *mut Memo)).close();
}

/// The bytes of a view.
#[unsafe(no_mangle)]
pub extern "C" fn linkd_view_size() -> usize
    ensures { result ≡ view_bytes }
{
    std::mem::size_of::<View>()
}

/// The number that a view's address is a multiple of.
#[unsafe(no_mangle)]
pub extern "C" fn linkd_view_align() -> usize
    ensures { result ≡ view_multiple }
{
    std::mem::align_of::<View>()
}

/// Makes a view that has seen nothing of room for one.
#[unsafe(no_mangle)]
pub unsafe extern "C" fn linkd_view_blank(at: *mut LinkdView)
    requires* { sem 𝓛 (view_room at) }
    ensures* { sem 𝓛 (view_at at None) }
{
    (at as *mut View).write(View::blank());
}

/// Gives the view what there is to link now.
#[unsafe(no_mangle)]
pub unsafe extern "C" fn linkd_view_take(alloc: Global, at: *mut LinkdView, from: *mut Linkd) -> u32
    ghost old: { Option Snapshot × Option Opened }
    requires* view { sem 𝓛 (view_at at old.0) }
    requires* linker { sem 𝓛 (linker_at from old.1) }
    ensures* { sem 𝓛 (taken_left at from (λ new. IsViewTake old.0 old.1 result new.0 new.1)) }
{
    (*(at as *mut View)).take(alloc, &mut *(from as *mut Linker))
}

/// After how many accepted events the view was taken. Takes no lock and no memory.
#[unsafe(no_mangle)]
pub unsafe extern "C" fn linkd_view_serial(at: *mut LinkdView, serial: &mut u64) -> u32
    ghost old: { Option Snapshot }
    requires* { sem 𝓛 (view_at at old) }
    ensures* { sem 𝓛 (view_left at (λ new. IsViewSerial old serial.old result serial.new new)) }
{
    (*(at as *mut View)).serial(serial)
}

/// The answer to a call as it was when the view was taken, linked or not. Takes no lock and no memory.
#[unsafe(no_mangle)]
pub unsafe extern "C" fn linkd_view_call(
    at: *mut LinkdView,
    site: u32,
    receiver: u32,
    answer: &mut CallAnswer,
) -> u32
    ghost old: { Option Snapshot }
    requires* { sem 𝓛 (view_at at old) }
    ensures* { sem 𝓛 (view_left at (λ new. IsViewCall site receiver old answer.old result answer.new new)) }
{
    (*(at as *mut View)).call(site, receiver, answer)
}

/// The links of the sites from scratch, as they were when the view was taken. Takes no lock.
#[unsafe(no_mangle)]
pub unsafe extern "C" fn linkd_view_prepare(
    alloc: Global,
    at: *mut LinkdView,
    sites: &[u32],
    links: &mut [LinkShown],
    told: &mut Told,
) -> u32
    ghost old: { Option Snapshot }
    requires* { sem 𝓛 (view_at at old) }
    ensures* { sem 𝓛 (view_left at (λ new. IsViewPrepare sites.now old links.old result links.new told.new new)) }
{
    (*(at as *mut View)).prepare(alloc, sites, links, told)
}

/// Lets go what the view has seen. It has no memory but its block then.
#[unsafe(no_mangle)]
pub unsafe extern "C" fn linkd_view_leave(at: *mut LinkdView)
    ghost old: { Option Snapshot }
    requires* { sem 𝓛 (view_at at old) }
    ensures* { sem 𝓛 (view_left at (λ new. new ≡ None)) }
{
    (*(at as *mut View)).leave();
}
