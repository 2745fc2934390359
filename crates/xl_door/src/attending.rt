ghost use Rattle.std.specs.Prelude.{◌≡◌, [], IfOk, OnErr};
ghost use Rattle.xl_turns.specs.Passes.{known};
ghost use Rattle.xl_store.specs.Stores.{start_of, turns_of, IsOf};
ghost use Rattle.xl_door.specs.Attending.{Attends, Follows};

use crate::ends::Attended;
use crate::hearing::hear;
use std::sync::Wait;
use xl_base::OutOfMemory;
use xl_io::Keeper;
use xl_ledger::Branch;
use xl_links::{Clock, Door};
use xl_store::{Pass, Store, StoreEnd};

/// How long to wait before the store is asked again, in milliseconds.
const PAUSE: u32 = 1000;

/// Takes the door's lines and submits those that are ids, until the node is to stop or all turns of the store are drawn.
///
/// The store is asked whether to stop before each line. It is asked again a second later if memory runs out for the
/// question, and if the door fails.
pub fn attend<W: Wait, B: Branch + Drop, K: Keeper + Drop, D: Door, C: Clock>(
    rt: &W,
    clock: &C,
    store: &Store<B, K>,
    pass: &mut Pass,
    door: &mut D,
) -> Attended
    requires pass { IsOf store.now pass.old }
    ensures pass { IsOf store.now pass.new }
    ensures attends { Attends (start_of store.now) (turns_of store.now) (C.may_give clock.now)
        (known pass.old) (D.shows door.old) result (known pass.new) (D.shows door.new) }
{
    for _ in rt.forever() {
        match round(rt, clock, store, pass, door) {
            Ok(None) => {}
            Ok(Some(attended)) => return attended,
            Err(_) => clock.wait(PAUSE),
        }
    }
    unreachable!()
}

/// Asks whether to stop, takes the next line if the node isn't to, and answers why the attending is over, if it is. It
/// fails only if memory ran out for the question, and then nothing happened.
fn round<W: Wait, B: Branch + Drop, K: Keeper + Drop, D: Door, C: Clock>(
    rt: &W,
    clock: &C,
    store: &Store<B, K>,
    pass: &mut Pass,
    door: &mut D,
) -> Result<Option<Attended>, OutOfMemory>
    requires pass { IsOf store.now pass.old }
    ensures pass { IsOf store.now pass.new }
    ensures follows { IfOk result (λ attended.
        Follows (start_of store.now) (turns_of store.now) (C.may_give clock.now)
        (known pass.old) (D.shows door.old) attended (known pass.new) (D.shows door.new)) }
    ensures nothing { OnErr result ((known pass.new ≡ known pass.old) × (door.new ≡ door.old)) }
{
    match store.stopped(rt, pass) {
        Ok(answer) => {
            if answer {
                return Ok(Some(Attended::Stopped));
            }
            Ok(hear(rt, clock, store, pass, door))
        }
        Err(StoreEnd::OutOfMemory) => Err(OutOfMemory),
        Err(StoreEnd::StoreFull(limit)) => Ok(Some(Attended::StoreFull(limit))),
    }
}
