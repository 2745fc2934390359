ghost use Rattle.std.specs.Prelude.{◌≡◌, OnOk, IfErr};
ghost use Rattle.xl_turns.specs.Passes.{known};
ghost use Rattle.xl_store.specs.Stores.{start_of, turns_of, IsOf};
ghost use Rattle.xl_workers.specs.Submits.{Submitted, SubmittedFront};

use std::sync::Wait;
use xl_base::TxId;
use xl_io::Keeper;
use xl_ledger::Branch;
use xl_links::Clock;
use xl_store::{Pass, Store, StoreEnd};

/// Submits the ids in order, whatever the core answers, until one has no turn.
pub(crate) fn submit_all<W: Wait, B: Branch + Drop, K: Keeper + Drop, C: Clock>(
    rt: &W,
    store: &Store<B, K>,
    pass: &mut Pass,
    ids: &[TxId],
    clock: &C,
) -> Result<(), StoreEnd>
    requires pass { IsOf store.now pass.old }
    ensures pass { IsOf store.now pass.new }
    ensures all { OnOk result (Submitted (start_of store.now) (C.may_give clock.now)
        (known pass.old) ids.now (known pass.new)) }
    ensures front { IfErr result (λ end. SubmittedFront (start_of store.now) (turns_of store.now)
        (C.may_give clock.now) (known pass.old) ids.now end (known pass.new)) }
{
    for id in ids {
        match store.submit(rt, pass, clock.now(), *id) {
            Ok(_) => {}
            Err(end) => return Err(end),
        }
    }
    Ok(())
}
