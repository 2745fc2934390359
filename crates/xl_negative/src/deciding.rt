// What a decision changes.
ghost use Rattle.std.specs.Prelude.{◌≡◌, ◌≤◌, ◌<◌, ◌==◌, not, filter, length, Some, IfOk, IfSome};
ghost use Rattle.xl_ledger.specs.Chains.{seq_at};
ghost use Rattle.xl_nunl.specs.Lists.{IsNegative};
ghost use Rattle.xl_nunl.specs.Deciding.{negative_after};
ghost use Rattle.xl_negative.specs.Ringing.{ring_keeping};
ghost use Rattle.xl_negative.specs.Seats.{members_of};
ghost use Rattle.xl_negative.specs.Writing.{change_at, change_by, change_of, flag_in as flag_of, is_flag as is_flag_of};

use crate::scores::scores_at;
use crate::seat::Seat;
use std::alloc::Global;
use std::marker::Model;
use xl_base::{LedgerId, MOST_MEMBERS, NodeNo, OutOfMemory, Seq};
use xl_ledger::{LedgerNo, Registry};
use xl_lists::List;
use xl_nunl::decide;

/// Each so manieth sequence is a flag.
const FLAGS: Seq = 256;

/// What a node goes over to: the members of its full list that it leaves out from now on, and the list without them.
#[derive(Drop)]
pub struct Change {
    pub negative: Vec<NodeNo>,
    pub list: List,
}

impl Model for Change {
    ghost use Rattle.xl_negative.specs.Seats.{members_of};
    ghost use Rattle.xl_negative.specs.Writing.{Change as TheChange};

    ghost Value = { TheChange };

    ghost view = { λ c. record { negative = c.negative.items; list = c.list } };
}

/// What the node of this number changes at a report of its own, by what it heard.
pub fn change_at(
    alloc: Global,
    seat: &Seat,
    i: NodeNo,
    registry: &Registry,
    seq: Seq,
    id: &LedgerId,
) -> Result<Option<Change>, OutOfMemory>
    ensures value { IfOk result (λ change. change ≡ change_at ring_keeping seat.now i registry.now.headers seq id.now) }
    ensures lawful { IfOk result (λ change. IfSome change (λ c. IsNegative (members_of seat.now.full) c.negative)) }
{
    if !is_flag(seq) {
        return Ok(None);
    }
    match flag_in(registry, seq, id) {
        Some(flag) => change_by(alloc, seat, i, registry, flag),
        None => Ok(None),
    }
}

/// What it changes at a flag ledger that it knows.
fn change_by(
    alloc: Global,
    seat: &Seat,
    i: NodeNo,
    registry: &Registry,
    flag: LedgerNo,
) -> Result<Option<Change>, OutOfMemory>
    requires known { flag < length registry.now.headers }
    requires high { 255 ≤ seq_at registry.now.headers flag }
    ensures value { IfOk result (λ change. change ≡ change_by ring_keeping seat.now i registry.now.headers (Some flag) seat.now.full) }
    ensures lawful { IfOk result (λ change. IfSome change (λ c. IsNegative (members_of seat.now.full) c.negative)) }
{
    let negative = seat.negative();
    match seat.full() {
        Some(full) => {
            let scores = scores_at(alloc, seat, registry, flag)?;
            change_with(alloc, full, negative, &scores, i)
        }
        None => Ok(None),
    }
}

/// What the decision of a node with these scores changes, if it does.
fn change_with(
    alloc: Global,
    full: &List,
    negative: &[NodeNo],
    scores: &[u32; MOST_MEMBERS],
    me: NodeNo,
) -> Result<Option<Change>, OutOfMemory>
    requires { IsNegative full.now.members negative.now }
    ensures value { IfOk result (λ change. change ≡ change_of full.now.members negative.now scores.now me) }
    // So what is left out then may be handed in at the next flag ledger.
    ensures lawful { IfOk result (λ change. IfSome change (λ c. IsNegative full.now.members c.negative)) }
{
    let decided = decide(full, negative, scores, me);
    if decided.left.is_none() && decided.joined.is_none() {
        return Ok(None);
    }
    let negative = left_out(alloc, negative, &decided.left, &decided.joined)?;
    Ok(Some(Change {
        negative,
        list: decided.list,
    }))
}

/// Those that are left out, if one comes back and one more is left out.
fn left_out(
    alloc: Global,
    negative: &[NodeNo],
    left: &Option<NodeNo>,
    joined: &Option<NodeNo>,
) -> Result<Vec<NodeNo>, OutOfMemory>
    ensures { IfOk result (λ then. then.items ≡ negative_after negative.now left.now joined.now) }
{
    let mut then = match left {
        Some(left) => others(alloc, negative, *left)?,
        None => Vec::from_slice(alloc, negative)?,
    };
    if let Some(joined) = joined {
        then.push(*joined)?;
    }
    Ok(then)
}

/// All of them but one.
fn others(alloc: Global, members: &[NodeNo], one: NodeNo) -> Result<Vec<NodeNo>, OutOfMemory>
    ensures { IfOk result (λ others. others.items ≡ filter (λ m. not (m == one)) members.now) }
{
    let mut others = Vec::new(alloc);
    for &member in members {
        if member != one {
            others.push(member)?;
        }
    }
    Ok(others)
}

/// The ledger of an id, if it is known and of this sequence.
fn flag_in(registry: &Registry, seq: Seq, id: &LedgerId) -> Option<LedgerNo>
    ensures value { result ≡ flag_of registry.now.headers seq id.now }
    ensures known { IfSome result (λ flag. flag < length registry.now.headers) }
    ensures seq { IfSome result (λ flag. seq_at registry.now.headers flag ≡ seq) }
{
    let ledger = registry.find(id)?;
    if registry.seq_of(ledger) == seq {
        Some(ledger)
    } else {
        None
    }
}

fn is_flag(seq: Seq) -> bool
    ensures { result ≡ is_flag_of seq }
{
    seq % FLAGS == 0 && 0 < seq
}
