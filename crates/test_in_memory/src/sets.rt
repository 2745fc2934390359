//! Updates of our set by the votes, of members that hold sets that are all alike, or all different.

ghost use Rattle.std.specs.Prelude.{◌≤◌};
ghost use Rattle.xl_base.specs.Sets.{IsSet};

use crate::rising::is_set;
use std::alloc::Global;
use xl_base::{NodeNo, TxId};
use xl_disputes::Disputes;

fn member(number: u32) -> NodeNo
    requires some { 1 ≤ number }
    requires most { number ≤ 64 }
{
    NodeNo::new(number).unwrap()
}

/// The member holds this set, and its position names it.
fn join(disputes: &mut Disputes, number: u32, set: &[TxId])
    requires some { 1 ≤ number }
    requires most { number ≤ 64 }
    requires valid { IsSet set.now }
{
    let id = disputes.hold(member(number), set);
    disputes.position(member(number), id);
}

fn id_of(number: u8, kind: u8) -> TxId {
    let mut id = [0; 32];
    id[0] = number;
    id[1] = kind;
    TxId(id)
}

/// So many ids of one number.
fn ids_of(alloc: Global, number: u8, count: u16) -> Option<Vec<TxId>> {
    let mut ids = Vec::new(alloc);
    for kind in 0..count.min(256) {
        ids.push(id_of(number, kind as u8)).ok()?;
    }
    Some(ids)
}

/// So many members hold and name 256 different ids each, and our own set has 256 others.
fn all_different(alloc: Global, members: u8) -> Option<Disputes>
    requires { members ≤ 64 }
{
    let mut disputes = Disputes::open(alloc).ok()?;
    for number in 0..=members {
        let ids = ids_of(alloc, number, 256)?;
        if !is_set(&ids) {
            return None;
        }
        if number == 0 {
            disputes.own(&ids);
        } else {
            join(&mut disputes, u32::from(number), &ids);
        }
    }
    Some(disputes)
}

/// So many members hold and name our own set, of 32 ids.
fn all_alike(alloc: Global, members: u32) -> Option<Disputes>
    requires { members ≤ 64 }
{
    let ids = ids_of(alloc, 1, 32)?;
    if !is_set(&ids) {
        return None;
    }
    let mut disputes = Disputes::open(alloc).ok()?;
    disputes.own(&ids);
    for number in 1..=members {
        join(&mut disputes, number, &ids);
    }
    Some(disputes)
}

/// Updates of which none changes our set, of which the last one is counted: of members that hold our own set.
pub fn alike(alloc: Global, members: u32) -> Option<bool>
    requires { members ≤ 64 }
{
    let mut disputes = all_alike(alloc, members)?;
    Some(disputes.update(50, true))
}

/// An update by which our set goes, and one that changes nothing: of members that hold different sets.
pub fn different(alloc: Global, members: u8) -> Option<bool>
    requires { members ≤ 64 }
{
    let mut disputes = all_different(alloc, members)?;
    Some(disputes.update(25, true) && !disputes.update(25, true))
}
