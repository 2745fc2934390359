ghost use Rattle.std.specs.Prelude.{IfSome, IsSome};
ghost use Rattle.xl_tags.specs.Rings.{key_of};
ghost use Rattle.xl_store.specs.Stores.{start_of, IsOf};

use crate::fixtures::{FRAME, Stored, frames_and_greetings, stored};
use std::alloc::Global;
use std::sync::Wait;
use std::sync::atomic::{AtomicU64, Ordering};
use std::test::Fail;
use std::thread;
use std::thread::Threads;
use xl_base::NodeNo;
use xl_links::{Gate, LinkScript, MemClock, MemLink};
use xl_peers::{End, Host, session};
use xl_store::Pass;

/// One gate of two sessions. It holds the first call of whichever comes first until the first call of the other was
/// answered.
#[derive(Drop)]
struct Turnstile {
    came: AtomicU64,
    answered: AtomicU64,
    missed: AtomicU64,
}

impl Turnstile {
    fn new() -> Self {
        Turnstile {
            came: AtomicU64::new(0),
            answered: AtomicU64::new(0),
            missed: AtomicU64::new(0),
        }
    }
}

impl Gate for Turnstile {
    fn pass(&self, call: u64) {
        if call == 2 {
            self.answered.store(1, Ordering::SeqCst);
        }
        if call != 1 || self.came.swap(1, Ordering::SeqCst) == 1 {
            return;
        }
        for _ in 0..100_000_000u32 {
            if self.answered.load(Ordering::SeqCst) == 1 {
                return;
            }
        }
        self.missed.store(1, Ordering::SeqCst);
    }
}

/// A session of a test.
fn hold<W: Wait>(
    rt: &W,
    alloc: Global,
    store: &Stored,
    pass: Pass,
    member: NodeNo,
    mut link: MemLink,
    gate: &Turnstile,
) -> (Pass, End)
    requires pass { IsOf store.now pass }
    requires peer { IsSome (key_of (start_of store.now).node.keys member) }
    ensures { IsOf store.now result.0 }
{
    let clock = MemClock::new(1_000);
    let host = Host {
        rt,
        alloc,
        gate,
        clock: &clock,
    };
    session(&host, store, pass, member, &mut link)
}

/// Two sessions, each in a thread of its own.
fn hold_two<W: Threads + Wait + Sync>(
    rt: &W,
    alloc: Global,
    store: &Stored,
    pass: Pass,
    member: NodeNo,
    links: (MemLink, MemLink),
    gate: &Turnstile,
) -> Option<(Pass, End, End)>
    requires pass { IsOf store.now pass }
    requires peer { IsSome (key_of (start_of store.now).node.keys member) }
    ensures pass { IfSome result (λ done. IsOf store.now done.0) }
{
    if pass.share() < 2 {
        return None;
    }
    let (left, right) = links;
    let (one, other) = store.split(pass);
    let (first, second) = thread::join(
        rt,
        move || -> (Pass, End)
            requires pass { IsOf store.now one }
            requires peer { IsSome (key_of (start_of store.now).node.keys member) }
            ensures { IsOf store.entry.now result.0 }
        { hold(rt, alloc, store, one, member, left, gate) },
        move || -> (Pass, End)
            requires pass { IsOf store.now other }
            requires peer { IsSome (key_of (start_of store.now).node.keys member) }
            ensures { IsOf store.entry.now result.0 }
        { hold(rt, alloc, store, other, member, right, gate) },
    );
    Some((store.join(first.0, second.0), first.1, second.1))
}

/// A link that has one frame to give.
fn link(alloc: Global) -> Result<MemLink, Fail> {
    Ok(MemLink::new(alloc, FRAME.to_vec(alloc)?, 78, LinkScript::new(alloc), 0)?)
}

/// How many frames and greetings a closed store's journal has.
fn counted(store: Stored, pass: Pass) -> Option<(u64, u64)>
    requires pass { IsOf store pass }
{
    if pass.is_whole() {
        Some(frames_and_greetings(store.close(pass).left?.entries))
    } else {
        None
    }
}

/// How many frames and greetings two sessions make, each of which ends with its link.
fn made_by_two<W: Threads + Wait + Sync>(
    rt: &W,
    alloc: Global,
    store: Stored,
    pass: Pass,
    member: NodeNo,
    links: (MemLink, MemLink),
    gate: &Turnstile,
) -> Option<(u64, u64)>
    requires pass { IsOf store pass }
    requires peer { IsSome (key_of (start_of store).node.keys member) }
{
    let (pass, first, second) = hold_two(rt, alloc, &store, pass, member, links, gate)?;
    if first == End::End && second == End::End {
        counted(store, pass)
    } else {
        None
    }
}

/// The session that comes first waits in its gate for the other, which is answered meanwhile.
#[test]
fn a_session_that_waits_keeps_no_turn(rt: HostRuntime) -> Result<(), Fail> {
    let alloc = rt.alloc();
    let gate = Turnstile::new();
    let links = (link(alloc)?, link(alloc)?);
    let member = NodeNo::new(2).ok_or("no member")?;
    let (store, pass) = stored(alloc, 100, member)?;
    let made = made_by_two(&rt, alloc, store, pass, member, links, &gate);
    assert!(rt; made == Some((2, 2)) && gate.missed.load(Ordering::SeqCst) == 0);
    Ok(())
}
