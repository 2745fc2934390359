ghost use Rattle.std.specs.Prelude.{◌≡◌, ◌≤◌, ℕ, length, map, nat_eq, IsSome};
ghost use Rattle.std.specs.List.{AllByRecursion, IsDistinct};
ghost use Rattle.xl_tags.specs.Rings.{key_of};
ghost use Rattle.xl_turns.specs.Passes.{known};
ghost use Rattle.xl_turns.specs.Knowing.{newcomer};
ghost use Rattle.xl_store.specs.Stores.{start_of, turns_of, retention_of, IsOf};
ghost use Rattle.xl_heartbeat.specs.Bulletins.{ToldIf};
ghost use Rattle.xl_heartbeat.specs.Outputs.{output};
ghost use Rattle.xl_heartbeat.specs.Recording.{Recorded};
ghost use Rattle.xl_workers.specs.Linking.{contact_of, target_of, hub_seen};
ghost use Rattle.xl_workers.specs.Sharing.{setting};
ghost use Rattle.xl_workers.specs.Runs.{doing_of};
ghost use Rattle.xl_workers.specs.Working.{TookLast, Lived, RecordsAll, end_of, end_without};

use crate::ends::RunEnd;
use crate::hiring::hire_all;
use crate::joining::join_crew;
use crate::linking::{NoLinks, open_door, open_links};
use crate::plan::Plan;
use crate::starting::can_run;
use crate::submitting::submit_all;
use crate::worker::run;
use std::fs::Files;
use std::sync::Wait;
use std::thread::Threads;
use xl_base::Bytes;
use xl_board::Board;
use xl_heartbeat::{Ending, Outlets, take_reports};
use xl_io::{Discard, Keeper, Sink};
use xl_ledger::Branch;
use xl_links::{Clock, Gate, Hub};
use xl_peers::Host;
use xl_store::{Pass, Recorder, Store, StoreEnd};

/// Takes the last reports, and writes their lines. If a write's fault ended the heartbeat they aren't written: what
/// the output holds would be no front of all lines then. What the store hands on is recorded all the same.
fn take_last<W: Wait, B: Branch + Drop, K: Keeper + Drop, O: Sink, R: Recorder>(
    rt: &W,
    store: &Store<B, K>,
    sink: &mut O,
    recorder: &mut Option<R>,
    pass: &mut Pass,
    beats: Ending,
) -> Ending
    requires pass { IsOf store.now pass.old }
    ensures pass { IsOf store.now pass.new }
    ensures last { TookLast (start_of store.now) (turns_of store.now) beats
        (known pass.old) (output (O.held sink.old) (O.faults sink.old)) result
        (known pass.new) (output (O.held sink.new) (O.faults sink.new)) }
    ensures recorded { Recorded R.records (retention_of store.now) (start_of store.now)
        (known pass.old) (known pass.new) recorder.old recorder.new }
{
    match beats {
        Ending::WriteFault => take_reports(rt, store, &mut Discard, recorder, pass),
        Ending::Done | Ending::OutOfMemory | Ending::StoreFull(_) => take_reports(
            rt, store, sink, recorder, pass,
        ),
    }
}

/// How a run ends that has no turn for a submit.
fn end_of(end: StoreEnd) -> RunEnd
    ensures { result ≡ end_of end }
{
    match end {
        StoreEnd::OutOfMemory => RunEnd::OutOfMemory,
        StoreEnd::StoreFull(limit) => RunEnd::StoreFull(limit),
    }
}

/// How a run ends that has no links.
fn end_without(why: NoLinks) -> RunEnd
    ensures { result ≡ end_without why }
{
    match why {
        NoLinks::LinkFault(member) => RunEnd::LinkFault(member),
        NoLinks::OutOfMemory => RunEnd::OutOfMemory,
    }
}

/// How many threads a run needs beside those of its members.
fn threads_beside(door: &Option<Bytes>) -> usize
    ensures { result ≤ 2 }
{
    if door.is_some() { 2 } else { 1 }
}

/// Submits the ids, opens the links and the door, and has a porter and a worker for each peer beside the heartbeat. When
/// all have ended, their passes are joined and the last reports are taken. If there aren't threads for all of them,
/// nothing is done.
pub(crate) fn live<
    W: Threads + Wait + Files + Sync,
    B: Branch + Drop + Send,
    K: Keeper + Drop + Send,
    H: Hub,
    G: Gate + Sync,
    C: Clock + Sync,
    O: Sink + Send,
    D: Board + Drop + Send,
    R: Recorder + Drop + Send,
>(
    host: &Host<'_, W, G, C>,
    store: &Store<B, K>,
    mut pass: Pass,
    plan: Plan,
    hub: &mut H,
    sink: &mut O,
    outlets: &mut Outlets<D, R>,
) -> (RunEnd, Pass)
    requires pass { IsOf store.now pass }
    requires new { known pass ≡ newcomer }
    requires peers { AllByRecursion (λ m. IsSome (key_of (start_of store.now).node.keys m))
        (map contact_of plan.contacts.items) }
    requires once { IsDistinct nat_eq (map contact_of plan.contacts.items) }
    requires few { length plan.contacts.items ≤ 64 }
    ensures pass { IsOf store.now result.1 }
    ensures later { H.faults hub.old ≤ H.faults hub.new }
    ensures unopened { (n : ℕ) → result.0 ≡ RunEnd.StoreFull n → hub.new ≡ hub.old }
    ensures unstarted { result.0 ≡ RunEnd.TooFewThreads → hub.new ≡ hub.old }
    ensures lived { Lived (setting (start_of store.now) (turns_of store.now) (C.may_give host.now.clock.now) (H.gives hub.old))
        (doing_of plan.submits.items (map target_of plan.contacts.items) plan.door plan.pulse
        (hub_seen (H.faults hub.old) (H.asked hub.old)) (hub_seen (H.faults hub.new) (H.asked hub.new))
        (output (O.held sink.old) (O.faults sink.old)) (output (O.held sink.new) (O.faults sink.new)))
        result.0 (known result.1) }
    ensures told { ToldIf D.show_gives (start_of store.now) outlets.old.bulletin (known result.1).seen outlets.new.bulletin }
    ensures recorded { RecordsAll R.records (retention_of store.now) (turns_of store.now) (known result.1)
        outlets.old.recorder outlets.new.recorder }
{
    let Plan {
        submits,
        contacts,
        door,
        pulse,
        ..
    } = plan;
    if !can_run(host.rt, contacts.len() + threads_beside(&door)) {
        return (RunEnd::TooFewThreads, pass);
    }
    match submit_all(host.rt, store, &mut pass, &submits, host.clock) {
        Ok(()) => {}
        Err(end) => return (end_of(end), pass),
    }
    let peers = match open_links(host.alloc, hub, contacts) {
        Ok(peers) => peers,
        Err(why) => return (end_without(why), pass),
    };
    let Ok(room) = Vec::with_capacity(host.alloc, peers.len()) else {
        return (RunEnd::OutOfMemory, pass);
    };
    let door = match open_door(hub, door) {
        Ok(door) => door,
        Err(_) => return (RunEnd::DoorFault, pass),
    };
    let (first, mut heart) = store.split(pass);
    let (first, mut crew) = hire_all(store, first, peers, door, room);
    let beats = run(host, store, &mut heart, &mut crew, &pulse, sink, outlets);
    let one = store.join(first, heart);
    let mut pass = join_crew(store, one, crew);
    let last = take_last(
        host.rt,
        store,
        sink,
        &mut outlets.recorder,
        &mut pass,
        beats.run,
    );
    (RunEnd::Ran { beats, last }, pass)
}
