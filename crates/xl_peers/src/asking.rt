ghost use Rattle.std.specs.Prelude.{◌≡◌, ◌<◌, Bool, ℕ, List, OnOk, IfErr, IsSome};
ghost use Rattle.xl_tags.specs.Rings.{key_of};
ghost use Rattle.xl_turns.specs.Passes.{known};
ghost use Rattle.xl_links.specs.Links.{Wire};
ghost use Rattle.xl_store.specs.Stores.{start_of, turns_of, IsOf};
ghost use Rattle.xl_peers.specs.Sessions.Phase.{Greets, Asks, Looks};
ghost use Rattle.xl_peers.specs.Going.{Goes, Ends};

use crate::ends::{End, end_of};
use std::sync::Wait;
use xl_base::NodeNo;
use xl_io::Keeper;
use xl_ledger::Branch;
use xl_store::{Pass, Store};

/// Greets the member.
pub(crate) fn greet<W: Wait, B: Branch + Drop, K: Keeper + Drop>(
    rt: &W,
    store: &Store<B, K>,
    pass: &mut Pass,
    member: NodeNo,
) -> Result<(), End>
    requires pass { IsOf store.now pass.old }
    requires peer { IsSome (key_of (start_of store.now).node.keys member) }
    ensures pass { IsOf store.now pass.new }
    ensures on { OnOk result ((may : ℕ → Bool) (w : Wire) (held : List ℕ)
        → Goes (start_of store.now) may member Greets Asks (known pass.old) w held (known pass.new) w held) }
    ensures ends { IfErr result (λ end. (may : ℕ → Bool) (w : Wire) (held : List ℕ)
        → Ends (start_of store.now) may member (turns_of store.now) Greets
        (known pass.old) w held (known pass.new) w end) }
{
    match store.greet(rt, pass, member) {
        Ok(()) => Ok(()),
        Err(end) => Err(end_of(end)),
    }
}

/// Asks whether the node is to stop.
pub(crate) fn ask<W: Wait, B: Branch + Drop, K: Keeper + Drop>(
    rt: &W,
    store: &Store<B, K>,
    pass: &mut Pass,
) -> Result<(), End>
    requires pass { IsOf store.now pass.old }
    ensures pass { IsOf store.now pass.new }
    ensures on { OnOk result ((may : ℕ → Bool) (member : ℕ) (w : Wire) (held : List ℕ)
        → Goes (start_of store.now) may member Asks Looks (known pass.old) w held (known pass.new) w held) }
    ensures turn { OnOk result ((known pass.old).drawn < (known pass.new).drawn) }
    ensures ends { IfErr result (λ end. (may : ℕ → Bool) (member : ℕ) (w : Wire) (held : List ℕ)
        → Ends (start_of store.now) may member (turns_of store.now) Asks
        (known pass.old) w held (known pass.new) w end) }
{
    match store.stopped(rt, pass) {
        Ok(answer) => {
            if answer {
                return Err(End::Stopped);
            }
            Ok(())
        }
        Err(end) => Err(end_of(end)),
    }
}
