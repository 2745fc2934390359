ghost use Rattle.std.specs.Prelude.{◌≡◌, ℕ, [], length, false, IsSome};
ghost use Rattle.xl_tags.specs.Rings.{key_of};
ghost use Rattle.xl_wire.specs.Lengths.{longest_frame};
ghost use Rattle.xl_turns.specs.Passes.{known};
ghost use Rattle.xl_store.specs.Stores.{start_of, turns_of, IsOf};
ghost use Rattle.xl_peers.specs.Sessions.{Session, NeedsMore};
ghost use Rattle.xl_peers.specs.Going.{Hears, Turns};

use crate::asking::{ask, greet};
use crate::draining::tell;
use crate::ends::End;
use crate::handing::hand;
use crate::host::Host;
use crate::reading::read;
use std::sync::Wait;
use xl_base::NodeNo;
use xl_io::Keeper;
use xl_ledger::Branch;
use xl_links::{Clock, Gate, Link};
use xl_store::{Pass, Store};
use xl_wire::{Feed, LONGEST_FRAME};

/// What came in on a connection, and how often its frames passed the gate.
#[derive(Drop)]
struct Inbox {
    feed: Feed,
    passes: u64,
}

/// Serves one connection on a link whose `open` answered Open.
///
/// It ends if the link ends or fails, the node is to stop, what comes begins no frame, memory runs out, or all turns of
/// the store are drawn. The member is a peer of the core that the store was opened with.
pub fn session<W: Wait, B: Branch + Drop, K: Keeper + Drop, L: Link, G: Gate, C: Clock>(
    host: &Host<'_, W, G, C>,
    store: &Store<B, K>,
    mut pass: Pass,
    member: NodeNo,
    link: &mut L,
) -> (Pass, End)
    requires pass { IsOf store.now pass }
    requires peer { IsSome (key_of (start_of store.now).node.keys member) }
    ensures pass { IsOf store.now result.0 }
    ensures session { Session (start_of store.now) (turns_of store.now) (C.may_give host.now.clock.now) member
        (known pass) (L.shows link.old) result.1 (known result.0) (L.shows link.new) }
{
    let end = talk(host, store, &mut pass, member, link);
    (pass, end)
}

/// A session, whose pass is lent.
pub fn talk<W: Wait, B: Branch + Drop, K: Keeper + Drop, L: Link, G: Gate, C: Clock>(
    host: &Host<'_, W, G, C>,
    store: &Store<B, K>,
    pass: &mut Pass,
    member: NodeNo,
    link: &mut L,
) -> End
    requires pass { IsOf store.now pass.old }
    requires peer { IsSome (key_of (start_of store.now).node.keys member) }
    ensures pass { IsOf store.now pass.new }
    ensures session { Session (start_of store.now) (turns_of store.now) (C.may_give host.now.clock.now) member
        (known pass.old) (L.shows link.old) result (known pass.new) (L.shows link.new) }
{
    let Ok(feed) = Feed::open(host.alloc) else {
        return End::OutOfMemory;
    };
    let Ok(mut room) = vec![in host.alloc; 0; LONGEST_FRAME] else {
        return End::OutOfMemory;
    };
    let mut inbox = Inbox { feed, passes: 0 };
    turns(host, store, pass, member, link, &mut inbox, &mut room)
}

/// Greets the member, and takes one turn after the other, with an empty feed and a room for the longest frame.
fn turns<W: Wait, B: Branch + Drop, K: Keeper + Drop, L: Link, G: Gate, C: Clock>(
    host: &Host<'_, W, G, C>,
    store: &Store<B, K>,
    pass: &mut Pass,
    member: NodeNo,
    link: &mut L,
    inbox: &mut Inbox,
    room: &mut [u8],
) -> End
    requires pass { IsOf store.now pass.old }
    requires peer { IsSome (key_of (start_of store.now).node.keys member) }
    requires feed { inbox.old.feed ≡ record { held = []; refused = false } }
    requires room { length room.old ≡ longest_frame }
    ensures pass { IsOf store.now pass.new }
    ensures session { Session (start_of store.now) (turns_of store.now) (C.may_give host.now.clock.now) member
        (known pass.old) (L.shows link.old) result (known pass.new) (L.shows link.new) }
{
    match greet(host.rt, store, pass, member) {
        Ok(()) => {}
        Err(end) => return end,
    }
    for _ in host.rt.forever() {
        match turn(host, store, pass, member, link, inbox, room) {
            Ok(()) => {}
            Err(end) => return end,
        }
    }
    unreachable!()
}

/// Reads once, and hands over the frames that came.
fn hear<W: Wait, B: Branch + Drop, K: Keeper + Drop, L: Link, G: Gate, C: Clock>(
    host: &Host<'_, W, G, C>,
    store: &Store<B, K>,
    pass: &mut Pass,
    link: &mut L,
    passes: &mut u64,
    feed: &mut Feed,
    room: &mut [u8],
) -> Result<(), End>
    requires pass { IsOf store.now pass.old }
    requires takes { feed.old.refused ≡ false }
    requires needs { NeedsMore feed.old.held }
    requires room { length room.old ≡ longest_frame }
    ensures pass { IsOf store.now pass.new }
    ensures room { length room.new ≡ longest_frame }
    ensures heard { (member : ℕ) → Hears store.now (C.may_give host.now.clock.now) member
        pass.old (L.shows link.old) feed.old result pass.new (L.shows link.new) feed.new }
{
    match read(link, room) {
        Ok(Some(count)) => hand(host, store, pass, passes, link, feed, &room[..count]),
        Ok(None) => Ok(()),
        Err(end) => Err(end),
    }
}

/// Asks whether to stop, writes what waits for the member if that may be spoken to, reads once, and hands over the
/// frames that came.
fn turn<W: Wait, B: Branch + Drop, K: Keeper + Drop, L: Link, G: Gate, C: Clock>(
    host: &Host<'_, W, G, C>,
    store: &Store<B, K>,
    pass: &mut Pass,
    member: NodeNo,
    link: &mut L,
    inbox: &mut Inbox,
    room: &mut [u8],
) -> Result<(), End>
    requires pass { IsOf store.now pass.old }
    requires peer { IsSome (key_of (start_of store.now).node.keys member) }
    requires takes { inbox.old.feed.refused ≡ false }
    requires needs { NeedsMore inbox.old.feed.held }
    requires room { length room.old ≡ longest_frame }
    ensures pass { IsOf store.now pass.new }
    ensures room { length room.new ≡ longest_frame }
    ensures turned { Turns store.now (C.may_give host.now.clock.now) member
        pass.old (L.shows link.old) inbox.old.feed result pass.new (L.shows link.new) inbox.new.feed }
{
    match ask(host.rt, store, pass) {
        Ok(()) => {}
        Err(end) => return Err(end),
    }
    match tell(host.rt, store, pass, member, link, room) {
        Ok(()) => {}
        Err(end) => return Err(end),
    }
    hear(
        host,
        store,
        pass,
        link,
        &mut inbox.passes,
        &mut inbox.feed,
        room,
    )
}
