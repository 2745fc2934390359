ghost use Rattle.std.specs.Prelude.{◌≡◌, length, IsSome};
ghost use Rattle.xl_tags.specs.Rings.{key_of};
ghost use Rattle.xl_wire.specs.Lengths.{longest_frame};
ghost use Rattle.xl_store.specs.Stores.{start_of, IsOf};
ghost use Rattle.xl_peers.specs.Going.{DrainsOnce, DrainsAll, Tells};

use crate::ends::{End, end_of};
use crate::sending::send;
use std::sync::Wait;
use xl_base::NodeNo;
use xl_io::Keeper;
use xl_ledger::Branch;
use xl_links::Link;
use xl_store::{Pass, Store};

/// Writes what one drain gives, and answers how much that was. The drain takes a turn of the store.
fn drain_once<W: Wait, B: Branch + Drop, K: Keeper + Drop, L: Link>(
    rt: &W,
    store: &Store<B, K>,
    pass: &mut Pass,
    member: NodeNo,
    link: &mut L,
    room: &mut [u8],
) -> Result<usize, End>
    requires pass { IsOf store.now pass.old }
    requires peer { IsSome (key_of (start_of store.now).node.keys member) }
    requires room { length room.old ≡ longest_frame }
    ensures pass { IsOf store.now pass.new }
    ensures room { length room.new ≡ longest_frame }
    ensures drained { DrainsOnce store.now member pass.old (L.shows link.old) result pass.new (L.shows link.new) }
{
    match store.drain(rt, pass, member, room) {
        Ok(count) => match send(link, &room[..count]) {
            Ok(()) => Ok(count),
            Err(_) => Err(End::LinkFault),
        },
        Err(end) => Err(end_of(end)),
    }
}

/// Writes all that waits for the member, if the link says that its peer may be spoken to. If not, all of it waits on.
pub(crate) fn tell<W: Wait, B: Branch + Drop, K: Keeper + Drop, L: Link>(
    rt: &W,
    store: &Store<B, K>,
    pass: &mut Pass,
    member: NodeNo,
    link: &mut L,
    room: &mut [u8],
) -> Result<(), End>
    requires pass { IsOf store.now pass.old }
    requires peer { IsSome (key_of (start_of store.now).node.keys member) }
    requires room { length room.old ≡ longest_frame }
    ensures pass { IsOf store.now pass.new }
    ensures room { length room.new ≡ longest_frame }
    ensures told { Tells store.now member pass.old (L.shows link.old) result pass.new (L.shows link.new) }
{
    if !link.may_tell() {
        return Ok(());
    }
    drain(rt, store, pass, member, link, room)
}

/// Writes all that waits for the member, until a drain gives nothing.
fn drain<W: Wait, B: Branch + Drop, K: Keeper + Drop, L: Link>(
    rt: &W,
    store: &Store<B, K>,
    pass: &mut Pass,
    member: NodeNo,
    link: &mut L,
    room: &mut [u8],
) -> Result<(), End>
    requires pass { IsOf store.now pass.old }
    requires peer { IsSome (key_of (start_of store.now).node.keys member) }
    requires room { length room.old ≡ longest_frame }
    ensures pass { IsOf store.now pass.new }
    ensures room { length room.new ≡ longest_frame }
    ensures drained { DrainsAll store.now member pass.old (L.shows link.old) result pass.new (L.shows link.new) }
{
    for _ in rt.forever() {
        match drain_once(rt, store, pass, member, link, room) {
            Ok(0) => return Ok(()),
            Ok(_) => {}
            Err(end) => return Err(end),
        }
    }
    unreachable!()
}
