ghost use Rattle.std.specs.Prelude.{◌≡◌, ◌<◌, ◌≤◌, ◌^◌, ℕ, length, map, nat_eq, IsSome, IfOk, IfErr, OnErr};
ghost use Rattle.std.specs.List.{AllByRecursion, IsDistinct};
ghost use Rattle.xl_tags.specs.Rings.{key_of};
ghost use Rattle.xl_turns.specs.Histories.{Runs};
ghost use Rattle.xl_core.specs.CoreLives.{core_after};
ghost use Rattle.xl_store.specs.Entries.{Leads, life_of};
ghost use Rattle.xl_store.specs.Closing.{KeepsAll};
ghost use Rattle.xl_store.specs.Recording.{RecordsIf, all_batches};
ghost use Rattle.xl_store.specs.Retentions.{left_of};
ghost use Rattle.xl_heartbeat.specs.Bulletins.{ToldIf};
ghost use Rattle.xl_heartbeat.specs.Outputs.{output};
ghost use Rattle.xl_workers.specs.Linking.{contact_of, hub_seen, target_of};
ghost use Rattle.xl_workers.specs.Sharing.{setting};
ghost use Rattle.xl_workers.specs.Runs.{doing_of, NodeRun};

use crate::ends::RunEnd;
use crate::living::live;
use crate::plan::Plan;
use std::fs::Files;
use std::sync::Wait;
use std::thread::Threads;
use xl_board::Board;
use xl_core::Core;
use xl_heartbeat::Outlets;
use xl_io::{Keeper, Sink};
use xl_ledger::Branch;
use xl_links::{Clock, Gate, Hub};
use xl_peers::Host;
use xl_store::{Closed, Recorder, Spared, Store};

/// What a run leaves.
#[derive(Drop)]
pub struct Ran<B: Branch, K> {
    pub end: RunEnd,
    pub closed: Closed<B, K>,
}

/// Runs a validator over a core and its keeper. It submits the plan's ids, opens a link to each of its members and the
/// door, if the plan has one, and serves all of these side by side with the heartbeat until that ends the run. The
/// heartbeat tells on the bulletin, if there is one, how the node is. Then it takes the last reports and closes the store.
/// What the store hands on of its journal when reports are taken goes to the recorder, if there is one.
///
/// Before all that it starts a thread for each member, one for the door if the plan has one, and one more, which end at
/// once. A run that has fewer would serve some members alone, and not say so. The members are peers of the core, and none
/// stands twice. If there was no memory for the store, core and keeper come back, and nothing happened. What it leaves
/// tells how every other run ended.
pub fn node<
    W: Threads + Wait + Files + Sync,
    B: Branch + Drop + Send,
    K: Keeper + Drop + Send,
    H: Hub,
    G: Gate + Sync,
    C: Clock + Sync,
    O: Sink + Send,
    D: Board + Drop + Send,
    R: Recorder + Drop + Send,
>(
    host: &Host<'_, W, G, C>,
    core: Core<B>,
    keeper: K,
    plan: Plan,
    hub: &mut H,
    sink: &mut O,
    outlets: &mut Outlets<D, R>,
) -> Result<Ran<B, K>, Spared<B, K>>
    requires turns { (0 < plan.turns) × (plan.turns ≤ 2 ^ 62) }
    requires peers { AllByRecursion (λ m. IsSome (key_of core.node.keys m)) (map contact_of plan.contacts.items) }
    requires once { IsDistinct nat_eq (map contact_of plan.contacts.items) }
    requires few { length plan.contacts.items ≤ 64 }
    // the journal is one legal history, which leads to the core, and leaves the keeper
    ensures legal { IfOk result (λ ran. Runs Leads core ran.closed.journal ran.closed.core) }
    ensures life { IfOk result (λ ran. ran.closed.core ≡ core_after core (life_of ran.closed.journal)) }
    ensures keeper { IfOk result (λ ran. KeepsAll K.held K.saves K.faults K.save_gives
        core ran.closed.journal keeper ran.closed.keeper) }
    ensures limit { IfOk result (λ ran. length ran.closed.journal ≤ plan.turns) }
    // as much of it is left as the store keeps, and all that it handed on before went to the recorder
    ensures kept { IfOk result (λ ran. ran.closed.left ≡ left_of plan.retention ran.closed.journal) }
    ensures recorded { IfOk result (λ ran. RecordsIf R.records (all_batches plan.retention ran.closed.journal)
        outlets.old.recorder outlets.new.recorder) }
    // its places are shared out, its lines are the output, and the hub was asked for links and a door as the plan says
    ensures run { IfOk result (λ ran. NodeRun
        (setting core plan.turns (C.may_give host.now.clock.now) (H.gives hub.old))
        (doing_of plan.submits.items (map target_of plan.contacts.items) plan.door plan.pulse
        (hub_seen (H.faults hub.old) (H.asked hub.old)) (hub_seen (H.faults hub.new) (H.asked hub.new))
        (output (O.held sink.old) (O.faults sink.old)) (output (O.held sink.new) (O.faults sink.new)))
        ran.end ran.closed.journal) }
    ensures unopened { IfOk result (λ ran. (n : ℕ) → ran.end ≡ RunEnd.StoreFull n → hub.new ≡ hub.old) }
    ensures unstarted { IfOk result (λ ran. ran.end ≡ RunEnd.TooFewThreads → hub.new ≡ hub.old) }
    ensures later { H.faults hub.old ≤ H.faults hub.new }
    // what the board was handed is the texts of how the core was, at places of the journal
    ensures told { IfOk result (λ ran. ToldIf D.show_gives core outlets.old.bulletin ran.closed.journal outlets.new.bulletin) }
    ensures untold { OnErr result (outlets.new ≡ outlets.old) }
    ensures spared { IfErr result (λ spared. (spared.core ≡ core) × (spared.keeper ≡ keeper)) }
    ensures nothing { OnErr result ((hub.new ≡ hub.old) × (sink.new ≡ sink.old)) }
{
    let opened = Store::open_with(host.alloc, core, keeper, plan.turns, plan.retention);
    let (store, pass) = match opened {
        Ok(opened) => opened,
        Err(spared) => return Err(spared),
    };
    let (end, pass) = live(host, &store, pass, plan, hub, sink, outlets);
    let closed = store.close(pass);
    Ok(Ran { end, closed })
}
