// What is noted of a node before an event.
ghost use Rattle.std.specs.Prelude.{◌≡◌, IfOk, OnOk};
ghost use Rattle.xl_noted.specs.Noted.{noted, round_noted};
ghost use Rattle.xl_noted.specs.Seen.{noted_seen, round_seen};

use crate::members::{NotedMember, note_members, note_members_again};
use std::alloc::Global;
use xl_base::{Millis, OutOfMemory, Seq, TxId};
use xl_core::{LastReport, Node, Report};
use xl_lists::List;
use xl_rounds::{Mode, Phase, Round};
use xl_trie::Trie;
use xl_wire::Proposal;

/// A node's round, beside the members' positions themselves.
#[derive(Drop)]
pub struct NotedRound {
    pub phase: Phase,
    pub mode: Mode,
    /// When the round began, in milliseconds.
    pub started: Millis,
    /// The node's own position.
    pub position: Proposal,
    /// The node's own set.
    pub own: Vec<TxId>,
    /// The transactions that are pending, rising.
    pub pending: Vec<TxId>,
    /// How many members have a position.
    pub proposers: u32,
    /// How many members' positions name the node's set.
    pub agreeing: u32,
}

/// What a node holds.
#[derive(Drop)]
pub struct Noted {
    /// Its time, in milliseconds.
    pub time: Millis,
    /// The last sequence that was saved.
    pub kept: Seq,
    /// The sequence whose save failed, if one did.
    pub failed_save: Option<Seq>,
    pub list: List,
    /// The members of its list.
    pub members: Vec<NotedMember>,
    /// How many ledgers it knows.
    pub ledgers: u32,
    pub last: LastReport,
    /// The ledger that the votes prefer, if there is a vote.
    pub preferred: Option<Report>,
    pub round: NotedRound,
}

impl NotedRound {
    /// A node's round now. Refused only when memory runs out.
    pub fn of(alloc: Global, round: &Round) -> Result<NotedRound, OutOfMemory>
        ensures { IfOk result (λ noted. round_seen noted ≡ round_noted round.now) }
    {
        Ok(NotedRound {
            phase: round.phase(),
            mode: round.mode(),
            started: round.started(),
            position: round.position(),
            own: Vec::from_slice(alloc, round.own_set())?,
            pending: Vec::from_slice(alloc, round.pending())?,
            proposers: round.proposers(),
            agreeing: round.agreeing(),
        })
    }

    /// A round is noted in place of this one.
    fn renew(&mut self, round: &Round) -> Result<(), OutOfMemory>
        ensures { OnOk result (round_seen self.new ≡ round_noted round.now) }
    {
        self.phase = round.phase();
        self.mode = round.mode();
        self.started = round.started();
        self.position = round.position();
        hold(&mut self.own, round.own_set())?;
        hold(&mut self.pending, round.pending())?;
        self.proposers = round.proposers();
        self.agreeing = round.agreeing();
        Ok(())
    }
}

/// A vector holds these ids, and no others.
fn hold(ids: &mut Vec<TxId>, held: &[TxId]) -> Result<(), OutOfMemory>
    ensures { OnOk result (ids.new.items ≡ held.now) }
{
    ids.clear();
    ids.extend_from_slice(held)?;
    Ok(())
}

impl Noted {
    /// What a node holds now. Refused only when memory runs out.
    pub fn of(alloc: Global, node: &Node<Trie>) -> Result<Noted, OutOfMemory>
        ensures { IfOk result (λ now. noted_seen now ≡ noted node.now) }
    {
        Ok(Noted {
            time: node.time(),
            kept: node.kept(),
            failed_save: node.failed_save(),
            list: node.list().copy(),
            members: note_members(alloc, node)?,
            ledgers: node.registry().len(),
            last: *node.last(),
            preferred: node.preferred(),
            round: NotedRound::of(alloc, node.round())?,
        })
    }

    /// What a node holds now is noted in place of what was noted, in the same memory if there is enough.
    pub fn renew(&mut self, node: &Node<Trie>) -> Result<(), OutOfMemory>
        ensures { OnOk result (noted_seen self.new ≡ noted node.now) }
    {
        self.time = node.time();
        self.kept = node.kept();
        self.failed_save = node.failed_save();
        self.list = node.list().copy();
        note_members_again(node, &mut self.members)?;
        self.ledgers = node.registry().len();
        self.last = *node.last();
        self.preferred = node.preferred();
        self.round.renew(node.round())
    }
}
