ghost use Rattle.std.specs.Prelude.{◌≡◌, map};
ghost use Rattle.std.specs.List.{AllByRecursion};
ghost use mathlib.Core.List.{IsPrefix};
ghost use Rattle.xl_turns.specs.Knowing.{joined};
ghost use Rattle.xl_turns.specs.Passes.{known};
ghost use Rattle.xl_store.specs.Stores.{IsOf};
ghost use Rattle.xl_workers.specs.Joining.{joined_all, knows, IsHis, HasSeen};

use crate::hiring::Crew;
use crate::porter::Porter;
use crate::worker::Worker;
use xl_io::Keeper;
use xl_ledger::Branch;
use xl_store::{Pass, Store};

/// One pass of all: the first, then the porter's, and then the workers'. Door and links are let go of.
pub(crate) fn join_crew<B: Branch + Drop, K: Keeper + Drop, L: Drop, D: Drop>(
    store: &Store<B, K>,
    first: Pass,
    crew: Crew<L, D>,
) -> Pass
    requires first { IsOf store.now first }
    requires porter { IsOf store.now crew.porter.pass }
    requires workers { AllByRecursion (IsHis store.now) crew.workers.items }
    ensures pass { IsOf store.now result }
    ensures known { known result ≡ joined_all (joined (known first) (known crew.porter.pass)) (map knows crew.workers.items) }
    ensures first { IsPrefix (known first).seen (known result).seen }
    ensures porter { IsPrefix (known crew.porter.pass).seen (known result).seen }
    ensures each { AllByRecursion (HasSeen (known result).seen) crew.workers.items }
{
    let Crew { porter, workers } = crew;
    let Porter { door: _, pass } = porter;
    let both = store.join(first, pass);
    join_all(store, both, workers)
}

/// One pass of all: the first, and then the workers' in their order. Their links are let go of.
fn join_all<B: Branch + Drop, K: Keeper + Drop, L: Drop>(
    store: &Store<B, K>,
    first: Pass,
    workers: Vec<Worker<L>>,
) -> Pass
    requires first { IsOf store.now first }
    requires workers { AllByRecursion (IsHis store.now) workers.items }
    ensures pass { IsOf store.now result }
    ensures known { known result ≡ joined_all (known first) (map knows workers.items) }
    ensures first { IsPrefix (known first).seen (known result).seen }
    ensures each { AllByRecursion (HasSeen (known result).seen) workers.items }
{
    let mut pass = first;
    let mut rest = workers;
    while !rest.is_empty() {
        let Worker {
            peer: _,
            pass: other,
        } = rest.remove(0);
        pass = store.join(pass, other);
    }
    pass
}
