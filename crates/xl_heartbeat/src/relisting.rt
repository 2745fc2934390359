ghost use Rattle.std.specs.Prelude.{◌≡◌, ◌/◌, ◌≤◌, IfOk, IfErr};
ghost use Rattle.std.specs.Bool.{Decides};
ghost use Rattle.xl_base.specs.Moments.{greatest_millis};
ghost use Rattle.xl_turns.specs.Passes.{known};
ghost use Rattle.xl_store.specs.Stores.{start_of, IsOf, Refused};
ghost use Rattle.xl_heartbeat.specs.Relisting.{made_at, IsOtherList};
ghost use Rattle.xl_heartbeat.specs.Going.{Relisted};

use crate::standing::Standing;
use std::sync::Wait;
use xl_base::{Millis, secs_of};
use xl_io::Keeper;
use xl_ledger::Branch;
use xl_lists::List;
use xl_publish::Publishing;
use xl_store::{Pass, Store, StoreEnd};

/// Sets the publishers' list of a moment in force, if it is another than the one last set. If the core refuses it, since
/// a member has no key, the one last set stays in force, and the next beat asks again.
pub(crate) fn relist_at<W: Wait, B: Branch + Drop, K: Keeper + Drop>(
    rt: &W,
    store: &Store<B, K>,
    standing: &mut Standing,
    now: Millis,
    pass: &mut Pass,
) -> Result<(), StoreEnd>
    requires pass { IsOf store.now pass.old }
    requires moment { now ≤ greatest_millis }
    ensures pass { IsOf store.now pass.new }
    ensures relisted { IfOk result (λ _. Relisted (start_of store.now) (made_at standing.old.publishing now) now
        standing.old (known pass.old) standing.new (known pass.new)) }
    ensures refused { IfErr result (λ end. Refused store.now pass.old end pass.new) }
{
    let Some(list) = other_list(&standing.publishing, &standing.set, now) else {
        return Ok(());
    };
    match store.relist(rt, pass, now, list.copy()) {
        Ok(Ok(())) => {
            standing.set = list;
            Ok(())
        }
        Ok(Err(_)) => Ok(()),
        Err(end) => Err(end),
    }
}

/// The publishers' list of a moment, if it is another than this one.
fn other_list(publishing: &Option<Publishing>, set: &List, now: Millis) -> Option<List>
    requires moment { now ≤ greatest_millis }
    ensures other { IsOtherList (made_at publishing.now now) set.now result }
{
    let list = list_at(publishing, now)?;
    if is_same(&list, set) {
        None
    } else {
        Some(list)
    }
}

/// The publishers' list of a moment.
fn list_at(publishing: &Option<Publishing>, now: Millis) -> Option<List>
    requires moment { now ≤ greatest_millis }
    ensures { result ≡ made_at publishing.now now }
{
    match publishing {
        None => None,
        Some(publishing) => publishing
            .publishers
            .list_at(secs_of(now), publishing.threshold),
    }
}

/// Whether two lists have the same members and the same quorum.
fn is_same(a: &List, b: &List) -> bool
    ensures { Decides result (a.now ≡ b.now) }
{
    a.quorum() == b.quorum() && a.members() == b.members()
}
