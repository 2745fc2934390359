// What is noted of a node before it is asked something: what that may change.
ghost use Rattle.std.specs.Prelude.{◌≡◌, IfOk};
ghost use Rattle.xl_noted.specs.Asking.{
  IsBeatNoted,
  is_open as is_open_by,
  is_still as is_still_by,
  issue_noted,
};

use crate::heard::NotedVote;
use crate::noted::NotedRound;
use std::alloc::Global;
use xl_base::{Millis, OutOfMemory, Seq};
use xl_core::Node;
use xl_ledger::LedgerNo;
use xl_rounds::{Phase, Round};
use xl_trie::Trie;

/// What may be new once a node has issued, or was refused to.
#[derive(Clone, Copy)]
pub struct NotedIssue {
    /// Of its own validation.
    pub vote: NotedVote,
    /// The last sequence that was saved.
    pub kept: Seq,
    /// The sequence whose save failed, if one did.
    pub failed_save: Option<Seq>,
}

/// What may be new once a timer has come to an open round in which no member had a position.
#[derive(Drop)]
pub struct NotedBeat {
    pub time: Millis,
    /// The ledger that the next one is to follow.
    pub previous: LedgerNo,
    pub round: NotedRound,
}

impl NotedIssue {
    pub fn of(node: &Node<Trie>) -> NotedIssue
        ensures { result ≡ issue_noted node.now }
    {
        NotedIssue {
            vote: NotedVote::of(node, node.me()),
            kept: node.kept(),
            failed_save: node.failed_save(),
        }
    }
}

/// Whether a round is open.
pub fn is_open(round: &Round) -> bool
    ensures { result ≡ is_open_by round.now.phase }
{
    matches!(round.phase(), Phase::Open)
}

/// Whether a round is open still, on the same ledger.
pub fn is_still(previous: LedgerNo, round: &Round) -> bool
    ensures { result ≡ is_still_by previous round.now }
{
    is_open(round) && round.previous() == previous
}

impl NotedBeat {
    /// Refused only when memory runs out.
    pub fn of(alloc: Global, node: &Node<Trie>) -> Result<NotedBeat, OutOfMemory>
        ensures { IfOk result (IsBeatNoted node.now) }
    {
        let round = node.round();
        Ok(NotedBeat {
            time: node.time(),
            previous: round.previous(),
            round: NotedRound::of(alloc, round)?,
        })
    }
}
