ghost use Rattle.std.specs.Prelude.{◌≡◌, length};
ghost use Rattle.xl_turns.specs.Passes.{known};
ghost use Rattle.xl_store.specs.Stores.{start_of, turns_of, retention_of, IsOf};
ghost use Rattle.xl_heartbeat.specs.Outputs.{output};
ghost use Rattle.xl_heartbeat.specs.Beats.{Heartbeat};
ghost use Rattle.xl_heartbeat.specs.Bulletins.{ToldIf};
ghost use Rattle.xl_heartbeat.specs.Recording.{Recorded};
ghost use Rattle.xl_workers.specs.Doors.{HasKept};
ghost use Rattle.xl_workers.specs.Serving.{IsReady, HasServed, AreReady, HaveServed};

use crate::hiring::Crew;
use crate::linking::Peer;
use crate::porter::{Porter, keep};
use std::fs::Files;
use std::sync::Wait;
use std::thread;
use std::thread::Threads;
use xl_board::Board;
use xl_heartbeat::{BeatEnd, Outlets, Pulse, beat};
use xl_io::{Keeper, Sink};
use xl_ledger::Branch;
use xl_links::{Clock, Door, Gate, Link};
use xl_peers::{Host, attend};
use xl_store::{Pass, Recorder, Store};

/// What serves one member, in a thread of its own if one can be made.
#[derive(Drop)]
pub struct Worker<L> {
    pub peer: Peer<L>,
    pub pass: Pass,
}

/// Serves the worker's member over its link.
fn work<W: Wait, B: Branch + Drop, K: Keeper + Drop, L: Link, G: Gate, C: Clock>(
    host: &Host<'_, W, G, C>,
    store: &Store<B, K>,
    worker: &mut Worker<L>,
)
    requires ready { IsReady store.now worker.old }
    ensures served { HasServed store.now (C.may_give host.now.clock.now) L.shows worker.old worker.new }
{
    let member = worker.peer.member;
    attend(host, store, &mut worker.pass, member, &mut worker.peer.link);
}

/// All workers side by side.
pub(crate) fn work_all<
    W: Threads + Wait + Sync,
    B: Branch + Drop + Send,
    K: Keeper + Drop + Send,
    L: Link + Send,
    G: Gate + Sync,
    C: Clock + Sync,
>(host: &Host<'_, W, G, C>, store: &Store<B, K>, workers: &mut [Worker<L>])
    requires ready { AreReady store.now workers.old }
    ensures served { HaveServed store.now (C.may_give host.now.clock.now) L.shows workers.old workers.new }
    ensures long { length workers.new ≡ length workers.old }
{
    thread::for_each_mut(
        host.rt,
        workers,
        64,
        &|_, w: &mut Worker<L>|
            requires { IsReady store.now w.now }
            ensures { HasServed store.entry.now (C.may_give host.entry.now.clock.now) L.shows w.entry.now w.exit.now }
        { work(host, store, w) },
    );
}

/// The heartbeat, which tells on the bulletin and hands on to the recorder, if there are these.
fn beat_on<
    W: Wait + Files,
    B: Branch + Drop,
    K: Keeper + Drop,
    O: Sink,
    C: Clock,
    D: Board + Drop,
    R: Recorder + Drop,
>(
    rt: &W,
    store: &Store<B, K>,
    clock: &C,
    sink: &mut O,
    pulse: &Pulse,
    outlets: &mut Outlets<D, R>,
    pass: &mut Pass,
) -> BeatEnd
    requires pass { IsOf store.now pass.old }
    ensures pass { IsOf store.now pass.new }
    ensures heartbeat { Heartbeat (start_of store.now) (turns_of store.now) (C.may_give clock.now) pulse.now
        (known pass.old) (output (O.held sink.old) (O.faults sink.old)) result
        (known pass.new) (output (O.held sink.new) (O.faults sink.new)) }
    ensures told { ToldIf D.show_gives (start_of store.now) outlets.old.bulletin (known pass.new).seen outlets.new.bulletin }
    ensures recorded { Recorded R.records (retention_of store.now) (start_of store.now)
        (known pass.old) (known pass.new) outlets.old.recorder outlets.new.recorder }
{
    let taken = Outlets {
        bulletin: outlets.bulletin.take(),
        recorder: outlets.recorder.take(),
    };
    let left = beat(rt, store, clock, sink, pulse, taken, pass);
    *outlets = left.outlets;
    left.end
}

/// The porter beside all workers.
fn serve<
    W: Threads + Wait + Sync,
    B: Branch + Drop + Send,
    K: Keeper + Drop + Send,
    L: Link + Send,
    D: Door + Send,
    G: Gate + Sync,
    C: Clock + Sync,
>(host: &Host<'_, W, G, C>, store: &Store<B, K>, porter: &mut Porter<D>, workers: &mut [Worker<L>])
    requires porter { IsOf store.now porter.old.pass }
    requires ready { AreReady store.now workers.old }
    ensures kept { HasKept store.now (C.may_give host.now.clock.now) D.shows porter.old porter.new }
    ensures served { HaveServed store.now (C.may_give host.now.clock.now) L.shows workers.old workers.new }
    ensures long { length workers.new ≡ length workers.old }
{
    // If no thread can be started they run one after the other, and each until the node is to stop.
    thread::join_mut(
        host.rt,
        &mut ||
            requires { IsOf store.now porter.now.pass }
            ensures { HasKept store.entry.now (C.may_give host.entry.now.clock.now) D.shows porter.entry.now porter.exit.now }
        { keep(host, store, porter) },
        &mut ||
            requires { AreReady store.now workers.now }
            ensures { HaveServed store.entry.now (C.may_give host.entry.now.clock.now) L.shows workers.entry.now workers.exit.now
                × (length workers.exit.now ≡ length workers.entry.now) }
        { work_all(host, store, workers) },
    );
}

/// The whole crew: the porter too, if there is a door.
fn serve_all<
    W: Threads + Wait + Sync,
    B: Branch + Drop + Send,
    K: Keeper + Drop + Send,
    L: Link + Send,
    D: Door + Send,
    G: Gate + Sync,
    C: Clock + Sync,
>(host: &Host<'_, W, G, C>, store: &Store<B, K>, crew: &mut Crew<L, D>)
    requires porter { IsOf store.now crew.old.porter.pass }
    requires ready { AreReady store.now crew.old.workers.items }
    ensures kept { HasKept store.now (C.may_give host.now.clock.now) D.shows crew.old.porter crew.new.porter }
    ensures served { HaveServed store.now (C.may_give host.now.clock.now) L.shows crew.old.workers.items crew.new.workers.items }
    ensures long { length crew.new.workers.items ≡ length crew.old.workers.items }
{
    if crew.porter.door.is_some() {
        serve(host, store, &mut crew.porter, crew.workers.as_mut_slice());
    } else {
        work_all(host, store, crew.workers.as_mut_slice());
    }
}

/// The whole crew beside the heartbeat, until all have ended.
pub(crate) fn run<
    W: Threads + Wait + Files + Sync,
    B: Branch + Drop + Send,
    K: Keeper + Drop + Send,
    L: Link + Send,
    P: Door + Send,
    G: Gate + Sync,
    C: Clock + Sync,
    O: Sink + Send,
    D: Board + Drop + Send,
    R: Recorder + Drop + Send,
>(
    host: &Host<'_, W, G, C>,
    store: &Store<B, K>,
    pass: &mut Pass,
    crew: &mut Crew<L, P>,
    pulse: &Pulse,
    sink: &mut O,
    outlets: &mut Outlets<D, R>,
) -> BeatEnd
    requires pass { IsOf store.now pass.old }
    requires porter { IsOf store.now crew.old.porter.pass }
    requires ready { AreReady store.now crew.old.workers.items }
    ensures pass { IsOf store.now pass.new }
    ensures heartbeat { Heartbeat (start_of store.now) (turns_of store.now) (C.may_give host.now.clock.now) pulse.now
        (known pass.old) (output (O.held sink.old) (O.faults sink.old)) result
        (known pass.new) (output (O.held sink.new) (O.faults sink.new)) }
    ensures told { ToldIf D.show_gives (start_of store.now) outlets.old.bulletin (known pass.new).seen outlets.new.bulletin }
    ensures recorded { Recorded R.records (retention_of store.now) (start_of store.now)
        (known pass.old) (known pass.new) outlets.old.recorder outlets.new.recorder }
    ensures kept { HasKept store.now (C.may_give host.now.clock.now) P.shows crew.old.porter crew.new.porter }
    ensures served { HaveServed store.now (C.may_give host.now.clock.now) L.shows crew.old.workers.items crew.new.workers.items }
    ensures long { length crew.new.workers.items ≡ length crew.old.workers.items }
{
    // If no thread can be started the second closure runs first, in this one: the crew then finds the stop asked.
    let ((), beats) = thread::join_mut(
        host.rt,
        &mut ||
            requires { IsOf store.now crew.now.porter.pass × AreReady store.now crew.now.workers.items }
            ensures { HasKept store.entry.now (C.may_give host.entry.now.clock.now) P.shows crew.entry.now.porter crew.exit.now.porter
                × HaveServed store.entry.now (C.may_give host.entry.now.clock.now) L.shows crew.entry.now.workers.items crew.exit.now.workers.items
                × (length crew.exit.now.workers.items ≡ length crew.entry.now.workers.items) }
        { serve_all(host, store, crew) },
        &mut || -> BeatEnd
            requires { IsOf store.now pass.now }
            ensures { IsOf store.entry.now pass.exit.now
                × Heartbeat (start_of store.entry.now) (turns_of store.entry.now) (C.may_give host.entry.now.clock.now) pulse.entry.now
                (known pass.entry.now) (output (O.held sink.entry.now) (O.faults sink.entry.now)) result
                (known pass.exit.now) (output (O.held sink.exit.now) (O.faults sink.exit.now))
                × ToldIf D.show_gives (start_of store.entry.now) outlets.entry.now.bulletin (known pass.exit.now).seen outlets.exit.now.bulletin
                × Recorded R.records (retention_of store.entry.now) (start_of store.entry.now)
                (known pass.entry.now) (known pass.exit.now) outlets.entry.now.recorder outlets.exit.now.recorder }
        { beat_on(host.rt, store, host.clock, sink, pulse, outlets, pass) },
    );
    beats
}
