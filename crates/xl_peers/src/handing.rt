ghost use Rattle.std.specs.Prelude.{◌≡◌, false, OnOk, IfErr};
ghost use Rattle.xl_wire.specs.Raws.{SpellsRaw, raw_frame};
ghost use Rattle.xl_store.specs.Stores.{IsOf, Refused};
ghost use Rattle.xl_peers.specs.Sessions.{NeedsMore};
ghost use Rattle.xl_peers.specs.Going.{HandsOver, HandsNext, HandsAll, HandsPiece};

use crate::ends::{End, end_of};
use crate::host::Host;
use crate::judging::judgement_of;
use std::sync::Wait;
use xl_io::Keeper;
use xl_ledger::Branch;
use xl_links::{Clock, Gate, Link};
use xl_store::{Pass, Store, StoreEnd};
use xl_wire::{Feed, Next, Raw};

/// Hands a frame to the core, between two passes of the gate, and tells the link how it was judged.
fn hand_frame<W: Wait, B: Branch + Drop, K: Keeper + Drop, L: Link, G: Gate, C: Clock>(
    host: &Host<'_, W, G, C>,
    store: &Store<B, K>,
    pass: &mut Pass,
    passes: &mut u64,
    link: &mut L,
    raw: &Raw<'_>,
    frame: &[u8],
) -> Result<(), StoreEnd>
    requires pass { IsOf store.now pass.old }
    requires whole { SpellsRaw (raw_frame raw.now) frame.now }
    ensures pass { IsOf store.now pass.new }
    ensures wire { L.shows link.new ≡ L.shows link.old }
    ensures handed { OnOk result (HandsOver store.now (C.may_give host.now.clock.now) pass.old frame.now pass.new) }
    ensures refused { IfErr result (λ end. Refused store.now pass.old end pass.new) }
{
    host.gate.pass(passes.wrapping_add(1));
    let answer = store.whole_frame(host.rt, pass, host.clock.now(), raw, frame);
    *passes = passes.wrapping_add(2);
    host.gate.pass(*passes);
    match answer {
        Ok(taken) => {
            link.judged(judgement_of(&taken));
            Ok(())
        }
        Err(end) => Err(end),
    }
}

/// Hands the next frame that the feed holds to the core, and answers whether there was one.
fn hand_next<W: Wait, B: Branch + Drop, K: Keeper + Drop, L: Link, G: Gate, C: Clock>(
    host: &Host<'_, W, G, C>,
    store: &Store<B, K>,
    pass: &mut Pass,
    passes: &mut u64,
    link: &mut L,
    feed: &mut Feed,
) -> Result<bool, End>
    requires pass { IsOf store.now pass.old }
    requires takes { feed.old.refused ≡ false }
    ensures pass { IsOf store.now pass.new }
    ensures wire { L.shows link.new ≡ L.shows link.old }
    ensures handed { HandsNext store.now (C.may_give host.now.clock.now) pass.old feed.old result pass.new feed.new }
{
    match feed.next() {
        Next::Frame(raw, frame) => {
            match hand_frame(host, store, pass, passes, link, &raw, frame) {
                Ok(()) => Ok(true),
                Err(end) => Err(end_of(end)),
            }
        }
        Next::Need(_) => Ok(false),
        Next::Refused(refusal) => Err(End::Framing(refusal)),
    }
}

/// Hands the frames that the feed holds to the core, the kth between the gate's passes 2k - 1 and 2k.
fn hand_held<W: Wait, B: Branch + Drop, K: Keeper + Drop, L: Link, G: Gate, C: Clock>(
    host: &Host<'_, W, G, C>,
    store: &Store<B, K>,
    pass: &mut Pass,
    passes: &mut u64,
    link: &mut L,
    feed: &mut Feed,
) -> Result<(), End>
    requires pass { IsOf store.now pass.old }
    requires takes { feed.old.refused ≡ false }
    ensures pass { IsOf store.now pass.new }
    ensures wire { L.shows link.new ≡ L.shows link.old }
    ensures handed { HandsAll store.now (C.may_give host.now.clock.now) pass.old feed.old result pass.new feed.new }
{
    for _ in host.rt.forever() {
        match hand_next(host, store, pass, passes, link, feed) {
            Ok(true) => {}
            Ok(false) => return Ok(()),
            Err(end) => return Err(end),
        }
    }
    unreachable!()
}

/// Hands each frame that the piece makes whole to the core.
pub(crate) fn hand<W: Wait, B: Branch + Drop, K: Keeper + Drop, L: Link, G: Gate, C: Clock>(
    host: &Host<'_, W, G, C>,
    store: &Store<B, K>,
    pass: &mut Pass,
    passes: &mut u64,
    link: &mut L,
    feed: &mut Feed,
    piece: &[u8],
) -> Result<(), End>
    requires pass { IsOf store.now pass.old }
    requires takes { feed.old.refused ≡ false }
    requires needs { NeedsMore feed.old.held }
    ensures pass { IsOf store.now pass.new }
    ensures wire { L.shows link.new ≡ L.shows link.old }
    ensures handed { HandsPiece store.now (C.may_give host.now.clock.now) pass.old feed.old piece.now result pass.new feed.new }
{
    let mut rest = piece;
    while !rest.is_empty() {
        let count = feed.push(rest);
        rest = &rest[count..];
        match hand_held(host, store, pass, passes, link, feed) {
            Ok(()) => {}
            Err(end) => return Err(end),
        }
    }
    Ok(())
}
