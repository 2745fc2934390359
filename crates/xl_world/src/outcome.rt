ghost use Rattle.std.specs.Prelude.{◌≡◌, []};

use std::alloc::Global;
use std::marker::Model;
use xl_base::{LedgerId, NodeNo, Seq};
use xl_core::{Issued, Refusal, Report};

/// What is told of an event.
#[derive(Clone, Copy, PartialEq, Eq)]
pub enum Outcome {
    /// The node's votes chose this ledger, on which it started a round.
    Switched {
        node: NodeNo,
        seq: Seq,
        id: LedgerId,
    },
    /// The node built this ledger, and validated it so, or not.
    Built {
        node: NodeNo,
        seq: Seq,
        id: LedgerId,
        issued: Issued,
    },
    /// The node refused it, or has no room for the ledger that it was to build, or didn't validate what it built since
    /// that was refused.
    Refused {
        node: NodeNo,
        refusal: Refusal,
    },
    /// The node reports the ledger as fully validated.
    Full {
        node: NodeNo,
        seq: Seq,
        id: LedgerId,
    },
    /// The ledger that the node prefers, if there is a vote.
    Preferred {
        node: NodeNo,
        at: Option<Report>,
    },
    /// What the node heard of the ledger that a member of its list last reported, if it did.
    Heard {
        node: NodeNo,
        member: NodeNo,
        id: Option<LedgerId>,
    },
}

/// All that is told of an event, in order. Contracts see it as a list.
#[derive(Drop)]
pub struct Happened {
    outcomes: Vec<Outcome>,
}

impl Model for Happened {
    ghost use Rattle.std.specs.Prelude.{List};
    ghost use Rattle.xl_world.specs.declared.outcome.Outcome.{Outcome};

    ghost Value = { List Outcome };

    ghost view = { λ h. h.outcomes.items };
}

impl Happened {
    pub fn from_vec(outcomes: Vec<Outcome>) -> Happened
        ensures { result ≡ outcomes.items }
    {
        Happened { outcomes }
    }

    /// Nothing is told.
    pub fn nothing(alloc: Global) -> Happened
        ensures { result ≡ [] }
    {
        Happened::from_vec(Vec::new(alloc))
    }

    pub fn as_slice(&self) -> &[Outcome]
        ensures { result.now ≡ self.now }
    {
        &self.outcomes
    }
}
