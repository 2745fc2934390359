//! Threads call the timer of one core again and again.
ghost use Rattle.std.specs.Prelude.{◌≡◌, ◌<◌, ◌^◌, IfSome};
ghost use Rattle.xl_store.specs.Stores.{IsOf};

use std::alloc::Global;
use std::collections::LinkedList;
use std::sync::Wait;
use std::thread;
use std::thread::Threads;
use xl_base::NodeNo;
use xl_core::{Core, CoreEvent, Settings};
use xl_io::PlainKeeper;
use xl_lists::List;
use xl_store::{Entry, Pass, Retention, Store};
use xl_tags::Keys;
use xl_trie::Trie;

type Stored = Store<Trie, PlainKeeper>;

/// More turns than anybody asks for.
const TURNS: u64 = 1 << 40;

/// One of seven validators.
fn core_of(alloc: Global) -> Option<Core<Trie>> {
    let me = NodeNo::new(1)?;
    let list = List::new(&[1, 2, 3, 4, 5, 6, 7], 5).ok()?;
    // What every list is, for whose members there are keys.
    let _ = list.quorum();
    let settings = Settings {
        me,
        list,
        keys: Keys::of_schedule(me),
        limit: 16,
        validating: true,
        speak: 1,
    };
    Core::open(alloc, settings, 1_000, 0).ok()
}

fn beat<W: Wait>(rt: &W, store: &Stored, mut pass: Pass, times: u64) -> Option<Pass>
    requires pass { IsOf store.now pass }
    ensures pass { IfSome result (λ done. IsOf store.now done) }
{
    for _ in 0..times {
        store.timer(rt, &mut pass, 1_000).ok()?;
    }
    Some(pass)
}

fn beat_in<W: Threads + Wait + Sync>(
    rt: &W,
    store: &Stored,
    pass: Pass,
    times: u64,
    halvings: u32,
) -> Option<Pass>
    requires pass { IsOf store.now pass }
    ensures pass { IfSome result (λ done. IsOf store.now done) }
{
    if halvings == 0 || pass.share() < 2 {
        return beat(rt, store, pass, times);
    }
    let (first, second) = store.split(pass);
    let (left, right) = thread::join(
        rt,
        move || -> Option<Pass>
            requires { IsOf store.now first × (0 < halvings) }
            ensures { IfSome result (λ done. IsOf store.entry.now done) }
        { beat_in(rt, store, first, times / 2, halvings - 1) },
        move || -> Option<Pass>
            requires { IsOf store.now second × (0 < halvings) }
            ensures { IfSome result (λ done. IsOf store.entry.now done) }
        { beat_in(rt, store, second, times / 2, halvings - 1) },
    );
    Some(store.join(left?, right?))
}

/// What a closed store hands out: how many entries.
fn entries(store: Stored, pass: Pass) -> Option<u64>
    requires pass { IsOf store pass }
{
    if pass.is_whole() {
        Some(store.close(pass).left?.entries.len())
    } else {
        None
    }
}

/// How many entries the timers make, shared out to threads.
fn made_in<W: Threads + Wait + Sync>(
    rt: &W,
    store: Stored,
    pass: Pass,
    times: u64,
    halvings: u32,
) -> Option<u64>
    requires pass { IsOf store pass }
{
    let pass = beat_in(rt, &store, pass, times, halvings)?;
    entries(store, pass)
}

/// A store that keeps its entries, and its first pass.
fn stored(alloc: Global) -> Option<(Stored, Pass)>
    ensures pass { IfSome result (λ opened. IsOf opened.0 opened.1) }
{
    let keeper = PlainKeeper::new(alloc, 4).ok()?;
    match Store::open(alloc, core_of(alloc)?, keeper, TURNS) {
        Ok(opened) => Some(opened),
        Err(_) => None,
    }
}

/// Timers of a store, this many in all, shared out to threads.
pub fn of_store<W: Threads + Wait + Sync>(
    rt: &W,
    alloc: Global,
    times: u64,
    halvings: u32,
) -> Option<u64> {
    let (store, pass) = stored(alloc)?;
    made_in(rt, store, pass, times, halvings)
}

/// A timer, or a frame that is refused, by turns: whether it had its turn.
fn call<W: Wait>(rt: &W, store: &Stored, pass: &mut Pass, number: u64) -> bool
    requires pass { IsOf store.now pass.old }
    ensures pass { IsOf store.now pass.new }
{
    if number % 2 == 0 {
        store.timer(rt, pass, 1_000).is_ok()
    } else {
        store.frame(rt, pass, 1_000, &[0; 78]).is_ok()
    }
}

/// Whether this many calls had their turns.
fn call_all<W: Wait>(rt: &W, store: &Stored, mut pass: Pass, times: u64) -> bool
    requires pass { IsOf store.now pass }
{
    for number in 0..times {
        if !call(rt, store, &mut pass, number) {
            return false;
        }
    }
    true
}

/// A store that keeps no entry, and its first pass.
fn unkept(alloc: Global) -> Option<(Stored, Pass)>
    ensures pass { IfSome result (λ opened. IsOf opened.0 opened.1) }
{
    let keeper = PlainKeeper::new(alloc, 4).ok()?;
    match Store::open_with(alloc, core_of(alloc)?, keeper, TURNS, Retention::Nothing) {
        Ok(opened) => Some(opened),
        Err(_) => None,
    }
}

/// Timers and frames of a store that keeps no entry, this many in all. Each frame is refused.
pub fn of_unkept<W: Wait>(rt: &W, alloc: Global, times: u64) -> Option<u64> {
    let (store, pass) = unkept(alloc)?;
    call_all(rt, &store, pass, times).then_some(times)
}

/// Timers of a core alone.
pub fn of_core(alloc: Global, times: u64) -> Option<u64> {
    let mut keeper = PlainKeeper::new(alloc, 4).ok()?;
    let mut core = core_of(alloc)?;
    for _ in 0..times {
        core.timer(1_000, &mut keeper);
    }
    Some(times)
}

/// Entries alone.
pub fn of_entries(alloc: Global, times: u64) -> Option<u64> {
    core_of(alloc)?;
    let mut entries = LinkedList::new(alloc);
    for _ in 0..times {
        let entry = Entry {
            event: CoreEvent::Timer { now: 1_000 },
            outcome: None,
        };
        entries.push_back(entry).ok()?;
    }
    Some(entries.len() as u64)
}
