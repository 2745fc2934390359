ghost use Rattle.std.specs.Prelude.{◌≡◌, ◌<◌, ◌≤◌, IsSome, IfOk, OnErr, Ok, None};
ghost use Rattle.xl_tags.specs.Rings.{key_of};
ghost use Rattle.xl_turns.specs.declared.view.Knowledge.{Knowledge};
ghost use Rattle.xl_turns.specs.Passes.{known};
ghost use Rattle.xl_links.specs.Links.{Wire};
ghost use Rattle.xl_store.specs.declared.entry.Entry.{Entry};
ghost use Rattle.xl_store.specs.Stores.{start_of, turns_of, IsOf};
ghost use Rattle.xl_peers.specs.Serving.{Serving, Serves, Follows, IsOpened};
ghost use Rattle.xl_peers.specs.Serving.Round.{Asks, Opens};

use crate::ends::{Served, served_of};
use crate::host::Host;
use crate::talking::talk;
use std::sync::Wait;
use xl_base::{NodeNo, OutOfMemory};
use xl_io::Keeper;
use xl_ledger::Branch;
use xl_links::{Clock, Gate, Link, Opening};
use xl_store::{Pass, Store, StoreEnd};

/// How long to wait before the store is asked again, in milliseconds.
const PAUSE: u32 = 1000;

/// Serves one connection after the other over the link, until the node is to stop or all turns of the store are drawn.
///
/// The store is asked whether to stop before each opening. It is asked again a second after an opening that found no
/// peer or failed, after a session's end that isn't one of these two, and if memory runs out. The member is a peer
/// of the core that the store was opened with.
pub fn serve<W: Wait, B: Branch + Drop, K: Keeper + Drop, L: Link, G: Gate, C: Clock>(
    host: &Host<'_, W, G, C>,
    store: &Store<B, K>,
    mut pass: Pass,
    member: NodeNo,
    link: &mut L,
) -> (Pass, Served)
    requires pass { IsOf store.now pass }
    requires peer { IsSome (key_of (start_of store.now).node.keys member) }
    ensures pass { IsOf store.now result.0 }
    ensures serves { Serves (start_of store.now) (turns_of store.now) (C.may_give host.now.clock.now) member
        (known pass) (L.shows link.old) result.1 (known result.0) (L.shows link.new) }
{
    let served = attend(host, store, &mut pass, member, link);
    (pass, served)
}

/// A serving, whose pass is lent.
pub fn attend<W: Wait, B: Branch + Drop, K: Keeper + Drop, L: Link, G: Gate, C: Clock>(
    host: &Host<'_, W, G, C>,
    store: &Store<B, K>,
    pass: &mut Pass,
    member: NodeNo,
    link: &mut L,
) -> Served
    requires pass { IsOf store.now pass.old }
    requires peer { IsSome (key_of (start_of store.now).node.keys member) }
    ensures pass { IsOf store.now pass.new }
    ensures serves { Serves (start_of store.now) (turns_of store.now) (C.may_give host.now.clock.now) member
        (known pass.old) (L.shows link.old) result (known pass.new) (L.shows link.new) }
{
    for _ in host.rt.forever() {
        match round(host, store, pass, member, link) {
            Ok(None) => host.clock.wait(PAUSE),
            Ok(Some(served)) => return served,
            Err(_) => host.clock.wait(PAUSE),
        }
    }
    unreachable!()
}

/// Asks whether to stop, connects if the node isn't to, and answers why the serving is over, if it is. It fails only
/// if memory ran out for the question, and then nothing happened.
fn round<W: Wait, B: Branch + Drop, K: Keeper + Drop, L: Link, G: Gate, C: Clock>(
    host: &Host<'_, W, G, C>,
    store: &Store<B, K>,
    pass: &mut Pass,
    member: NodeNo,
    link: &mut L,
) -> Result<Option<Served>, OutOfMemory>
    requires pass { IsOf store.now pass.old }
    requires peer { IsSome (key_of (start_of store.now).node.keys member) }
    ensures pass { IsOf store.now pass.new }
    ensures follows { IfOk result (λ served. (k : Knowledge Entry) (w : Wire)
        → Serving (start_of store.now) (C.may_give host.now.clock.now) member k w Asks (known pass.old) (L.shows link.old)
        → Follows (start_of store.now) (turns_of store.now) (C.may_give host.now.clock.now) member k w served
        (known pass.new) (L.shows link.new)) }
    // If the serving goes on, the store was asked and the link was opened.
    ensures turn { result ≡ Ok None → (known pass.old).drawn < (known pass.new).drawn }
    ensures opened { result ≡ Ok None → IsOpened (L.shows link.old) (L.shows link.new) }
    ensures nothing { OnErr result ((known pass.new ≡ known pass.old) × (link.new ≡ link.old)) }
{
    match store.stopped(host.rt, pass) {
        Ok(answer) => {
            if answer {
                return Ok(Some(Served::Stopped));
            }
            Ok(connect(host, store, pass, member, link))
        }
        Err(StoreEnd::OutOfMemory) => Err(OutOfMemory),
        Err(StoreEnd::StoreFull(limit)) => Ok(Some(Served::StoreFull(limit))),
    }
}

/// Opens the link, holds a session if that answers Open, and answers why the serving is over, if it is.
fn connect<W: Wait, B: Branch + Drop, K: Keeper + Drop, L: Link, G: Gate, C: Clock>(
    host: &Host<'_, W, G, C>,
    store: &Store<B, K>,
    pass: &mut Pass,
    member: NodeNo,
    link: &mut L,
) -> Option<Served>
    requires pass { IsOf store.now pass.old }
    requires peer { IsSome (key_of (start_of store.now).node.keys member) }
    ensures pass { IsOf store.now pass.new }
    ensures follows { (k : Knowledge Entry) (w : Wire)
        → Serving (start_of store.now) (C.may_give host.now.clock.now) member k w Opens (known pass.old) (L.shows link.old)
        → Follows (start_of store.now) (turns_of store.now) (C.may_give host.now.clock.now) member k w result
        (known pass.new) (L.shows link.new) }
    ensures drawn { (known pass.old).drawn ≤ (known pass.new).drawn }
    ensures opened { IsOpened (L.shows link.old) (L.shows link.new) }
{
    match link.open() {
        Opening::Open => {
            let end = talk(host, store, pass, member, link);
            served_of(end)
        }
        Opening::NotYet => None,
        Opening::Failed => None,
    }
}
