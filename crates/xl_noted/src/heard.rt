// What is noted of a node before it hears a frame: what the frame may change.
ghost use Rattle.std.specs.Prelude.{◌≡◌};
ghost use Rattle.xl_noted.specs.Hearing.{ledgers_noted, pending_noted, position_noted, vote_noted};

use xl_base::{Millis, NodeNo};
use xl_core::{LastReport, Node, Report};
use xl_trie::Trie;
use xl_wire::{Proposal, Validation};

/// What may be new once a node has heard a validation of a member.
#[derive(Clone, Copy)]
pub struct NotedVote {
    pub time: Millis,
    pub member: NodeNo,
    pub row: Option<Validation>,
    pub last: LastReport,
    pub preferred: Option<Report>,
}

/// What may be new once a node has heard a proposal of a member.
#[derive(Clone, Copy)]
pub struct NotedPosition {
    pub time: Millis,
    pub member: NodeNo,
    pub position: Option<Proposal>,
    pub proposers: u32,
    pub agreeing: u32,
}

/// What may be new once a node has heard a header.
#[derive(Clone, Copy)]
pub struct NotedLedgers {
    pub time: Millis,
    pub ledgers: u32,
    pub preferred: Option<Report>,
}

/// What may be new once a node has heard a transaction.
#[derive(Clone, Copy)]
pub struct NotedPending {
    pub time: Millis,
    /// How many transactions are pending.
    pub pending: usize,
}

impl NotedVote {
    pub fn of(node: &Node<Trie>, member: NodeNo) -> NotedVote
        ensures { result ≡ vote_noted node.now member }
    {
        NotedVote {
            time: node.time(),
            member,
            row: node.current(member),
            last: *node.last(),
            preferred: node.preferred(),
        }
    }
}

impl NotedPosition {
    pub fn of(node: &Node<Trie>, member: NodeNo) -> NotedPosition
        ensures { result ≡ position_noted node.now member }
    {
        let round = node.round();
        NotedPosition {
            time: node.time(),
            member,
            position: round.position_of(member),
            proposers: round.proposers(),
            agreeing: round.agreeing(),
        }
    }
}

impl NotedLedgers {
    pub fn of(node: &Node<Trie>) -> NotedLedgers
        ensures { result ≡ ledgers_noted node.now }
    {
        NotedLedgers {
            time: node.time(),
            ledgers: node.registry().len(),
            preferred: node.preferred(),
        }
    }
}

impl NotedPending {
    pub fn of(node: &Node<Trie>) -> NotedPending
        ensures { result ≡ pending_noted node.now }
    {
        NotedPending {
            time: node.time(),
            pending: node.round().pending().len(),
        }
    }
}
