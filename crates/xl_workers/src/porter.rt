ghost use Rattle.std.specs.Prelude.{◌≡◌};
ghost use Rattle.xl_store.specs.Stores.{IsOf};
ghost use Rattle.xl_workers.specs.Doors.{HasKept};

use std::sync::Wait;
use xl_door::attend;
use xl_io::Keeper;
use xl_ledger::Branch;
use xl_links::{Clock, Door, Gate};
use xl_peers::Host;
use xl_store::{Pass, Store};

/// What attends the door, if there is one, in a thread of its own if one can be made.
#[derive(Drop)]
pub struct Porter<D> {
    pub door: Option<D>,
    pub pass: Pass,
}

/// Attends the door until the node is to stop.
pub(crate) fn keep<W: Wait, B: Branch + Drop, K: Keeper + Drop, D: Door, G: Gate, C: Clock>(
    host: &Host<'_, W, G, C>,
    store: &Store<B, K>,
    porter: &mut Porter<D>,
)
    requires pass { IsOf store.now porter.old.pass }
    ensures { HasKept store.now (C.may_give host.now.clock.now) D.shows porter.old porter.new }
{
    match &mut porter.door {
        Some(door) => {
            attend(host.rt, host.clock, store, &mut porter.pass, door);
        }
        None => {}
    }
}
