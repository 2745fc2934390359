ghost use Rattle.std.specs.Prelude.{◌≡◌, ◌*◌, ◌≤◌, ◌^◌, [], length};
ghost use Rattle.std.specs.Vec.{vec_capacity};
ghost use Rattle.std.specs.List.{AllByRecursion};
ghost use Rattle.xl_turns.specs.Passes.{known};
ghost use Rattle.xl_store.specs.Stores.{IsOf};
ghost use Rattle.xl_workers.specs.Serving.{IsPeer};
ghost use Rattle.xl_workers.specs.Hiring.{Hired, HiredAll};

use crate::linking::Peer;
use crate::porter::Porter;
use crate::worker::Worker;
use xl_io::Keeper;
use xl_ledger::Branch;
use xl_store::{Pass, Store};

/// All that serve: the porter and the workers.
#[derive(Drop)]
pub struct Crew<L, D> {
    pub porter: Porter<D>,
    pub workers: Vec<Worker<L>>,
}

/// A porter for the door and a worker for each peer, each with a part of the pass. It takes no memory.
pub(crate) fn hire_all<B: Branch + Drop, K: Keeper + Drop, L: Drop, D: Drop>(
    store: &Store<B, K>,
    first: Pass,
    peers: Vec<Peer<L>>,
    door: Option<D>,
    room: Vec<Worker<L>>,
) -> (Pass, Crew<L, D>)
    requires first { IsOf store.now first }
    requires peers { AllByRecursion (IsPeer store.now) peers.items }
    requires share { 2 * 2 ^ length peers.items ≤ (known first).share }
    requires room { room.items ≡ [] }
    requires fits { length peers.items ≤ vec_capacity room }
    ensures { HiredAll store.now first peers.items door result.0 result.1 }
{
    let (first, pass) = store.split(first);
    let porter = Porter { door, pass };
    let (first, workers) = hire(store, first, peers, room);
    (first, Crew { porter, workers })
}

/// A worker for each peer, in a room that was taken for them, each with a part of the pass. It takes no memory.
fn hire<B: Branch + Drop, K: Keeper + Drop, L: Drop>(
    store: &Store<B, K>,
    first: Pass,
    peers: Vec<Peer<L>>,
    room: Vec<Worker<L>>,
) -> (Pass, Vec<Worker<L>>)
    requires first { IsOf store.now first }
    requires peers { AllByRecursion (IsPeer store.now) peers.items }
    requires share { 2 ^ length peers.items ≤ (known first).share }
    requires room { room.items ≡ [] }
    requires fits { length peers.items ≤ vec_capacity room }
    ensures { Hired store.now first peers.items result.0 [] result.1.items }
{
    let mut pass = first;
    let mut rest = peers;
    let mut workers = room;
    while !rest.is_empty() {
        let peer = rest.remove(0);
        let (mine, theirs) = store.split(pass);
        pass = mine;
        workers.push_reserved(Worker { peer, pass: theirs });
    }
    (pass, workers)
}
