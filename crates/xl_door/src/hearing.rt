// The next line of a door, and its answer.
ghost use Rattle.std.specs.Prelude.{◌≡◌, ◌≤◌, length, IfSome};
ghost use Rattle.xl_turns.specs.Passes.{known};
ghost use Rattle.xl_store.specs.Stores.{start_of, turns_of, IsOf};
ghost use Rattle.xl_door.specs.Hearing.{Hears, IsFull, IsSaid, Tells};
ghost use Rattle.xl_door.specs.Replies.{id_of, longest_line, text_of};

use crate::ends::Attended;
use crate::replies::{LONGEST_ANSWER, Reply, put_reply};
use hex::FromHex;
use std::sync::Wait;
use xl_base::TxId;
use xl_io::Keeper;
use xl_ledger::Branch;
use xl_links::{Arrival, Clock, Door};
use xl_store::{Pass, Store, StoreEnd};

/// How many digits an id has.
const LONGEST_LINE: usize = 64;

/// How long to wait before a door is asked again that failed, in milliseconds.
const PAUSE: u32 = 1000;

/// Takes the next line, if one comes within a second, and answers it. It tells why the attending is over, if it is.
pub(crate) fn hear<W: Wait, B: Branch + Drop, K: Keeper + Drop, D: Door, C: Clock>(
    rt: &W,
    clock: &C,
    store: &Store<B, K>,
    pass: &mut Pass,
    door: &mut D,
) -> Option<Attended>
    requires pass { IsOf store.now pass.old }
    ensures pass { IsOf store.now pass.new }
    ensures hears { Hears (start_of store.now) (C.may_give clock.now)
        (known pass.old) (D.shows door.old) (known pass.new) (D.shows door.new) }
    ensures over { IfSome result (λ why. IsFull (turns_of store.now) (known pass.new) why) }
{
    let mut room = [0; LONGEST_LINE];
    match door.next(&mut room) {
        Arrival::Line(length) => {
            let (reply, over) = reply_to(rt, clock, store, pass, &room[..length]);
            tell(door, reply);
            over
        }
        Arrival::Long => {
            tell(door, Reply::TooLong);
            None
        }
        Arrival::Idle => None,
        Arrival::Failed => {
            clock.wait(PAUSE);
            None
        }
    }
}

/// Submits the id that the line is. It answers what came of that, and why the attending is over, if it is.
fn reply_to<W: Wait, B: Branch + Drop, K: Keeper + Drop, C: Clock>(
    rt: &W,
    clock: &C,
    store: &Store<B, K>,
    pass: &mut Pass,
    line: &[u8],
) -> (Reply, Option<Attended>)
    requires pass { IsOf store.now pass.old }
    requires line { length line.now ≤ longest_line }
    ensures pass { IsOf store.now pass.new }
    ensures said { IsSaid (start_of store.now) (C.may_give clock.now)
        (known pass.old) line.now result.0 (known pass.new) }
    ensures over { IfSome result.1 (λ why. IsFull (turns_of store.now) (known pass.new) why) }
{
    let Some(id) = id_of(line) else {
        return (Reply::NoId, None);
    };
    match store.submit(rt, pass, clock.now(), id) {
        Ok(Ok(())) => (Reply::Taken, None),
        Ok(Err(why)) => (Reply::Refused(why), None),
        Err(StoreEnd::OutOfMemory) => (Reply::NoTurn, None),
        Err(StoreEnd::StoreFull(limit)) => (Reply::NoTurn, Some(Attended::StoreFull(limit))),
    }
}

/// The id that a line is.
fn id_of(line: &[u8]) -> Option<TxId>
    ensures { result ≡ id_of line.now }
{
    match <[u8; 32]>::from_hex(line) {
        Ok(bytes) => Some(TxId(bytes)),
        Err(_) => None,
    }
}

/// Answers the client whose line was given last.
fn tell<D: Door>(door: &mut D, reply: Reply)
    ensures { Tells (text_of reply) (D.shows door.old) (D.shows door.new) }
{
    let mut room = [0; LONGEST_ANSWER];
    let length = put_reply(&mut room, reply);
    match door.answer(&room[..length]) {
        Ok(()) => {}
        Err(_) => {}
    }
}
