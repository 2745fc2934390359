// The scores of all numbers.
ghost use Rattle.std.specs.Prelude.{◌≡◌, ◌≤◌, ◌<◌, length, IfOk};
ghost use Rattle.xl_ledger.specs.Chains.{seq_at};
ghost use Rattle.xl_negative.specs.Ringing.{kept_scores};

use crate::seat::Seat;
use std::alloc::Global;
use xl_base::{GREATEST_NODE_NO, MOST_MEMBERS, NodeNo, OutOfMemory};
use xl_ledger::{LedgerNo, Registry};
use xl_nunl::Scores;

/// The scores of all numbers from 1 on at a flag ledger, by what a node heard.
pub fn scores_at(
    alloc: Global,
    seat: &Seat,
    registry: &Registry,
    flag: LedgerNo,
) -> Result<[u32; MOST_MEMBERS], OutOfMemory>
    requires known { flag < length registry.now.headers }
    requires high { 255 ≤ seq_at registry.now.headers flag }
    ensures { IfOk result (λ scores. scores ≡ kept_scores registry.now.headers seat.now.heard flag) }
{
    match seat.heard() {
        Some(heard) => Ok(all_scores(heard, registry, flag)),
        None => {
            let nothing = Scores::open(alloc)?;
            Ok(all_scores(&nothing, registry, flag))
        }
    }
}

fn all_scores(heard: &Scores, registry: &Registry, flag: LedgerNo) -> [u32; MOST_MEMBERS]
    requires known { flag < length registry.now.headers }
    requires high { 255 ≤ seq_at registry.now.headers flag }
    ensures { result ≡ kept_scores registry.now.headers heard.now flag }
{
    let mut walk = registry.walk();
    let mut scores = [0; MOST_MEMBERS];
    for below in 0..GREATEST_NODE_NO {
        let member = NodeNo::new(below + 1).unwrap();
        scores[below as usize] = heard.score(member, &mut walk, flag);
    }
    scores
}
