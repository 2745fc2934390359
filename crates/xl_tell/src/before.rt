// What is noted of the node at which a part of an event happens.
ghost use Rattle.std.specs.Prelude.{◌≡◌, ◌≤◌, ℕ, Bool, IfOk, IsTrue, OnOk, Some};
ghost use Rattle.xl_base.specs.declared.ids.LedgerId.{LedgerId};
ghost use Rattle.xl_core.specs.Hearing.{speech_of};
ghost use Rattle.xl_core.specs.Node.{Issue, Timer};
ghost use Rattle.xl_noted.specs.Noted.{noted};
ghost use Rattle.xl_noted.specs.Seen.{noted_seen};
ghost use Rattle.xl_tell.specs.Before.{Delivers, IsBrief, Says, SaysSet, Tells, TellsOf, asked_of, frame_noted, heard_noted, number_of};
ghost use Rattle.xl_tell.specs.Nodes.{node_of};
ghost use Rattle.xl_world.specs.Sending.{body_said};

use crate::brief::{brief_node, is_beat, is_within};
use crate::delivery::{frame_of, is_known, is_set, saying};
use crate::nodes::{node_asked, node_of as node_number};
use crate::sent::Speller;
use std::alloc::Global;
use xl_base::{Millis, NodeNo, OutOfMemory};
use xl_core::Node;
use xl_noted::{
    Noted, NotedBeat, NotedIssue, NotedLedgers, NotedPending, NotedPosition, NotedVote,
};
use xl_sched::{Ask, Event, What};
use xl_told::Hashed;
use xl_trie::Trie;
use xl_world::{Said, Sent, World};

/// What is noted before a part of an event.
#[derive(Drop)]
pub enum Before {
    Nobody,
    /// All that the node of this number holds, in a box, since all are as large as the largest.
    Whole {
        number: NodeNo,
        noted: Box<Noted>,
    },
    /// What it holds that may be new once it has heard a validation.
    Vote {
        number: NodeNo,
        noted: NotedVote,
    },
    /// What it holds that may be new once it has heard a proposal.
    Position {
        number: NodeNo,
        noted: NotedPosition,
    },
    /// What it holds that may be new once it has heard a header.
    Ledgers {
        number: NodeNo,
        noted: NotedLedgers,
    },
    /// What it holds that may be new once it has heard a transaction.
    Pending {
        number: NodeNo,
        noted: NotedPending,
    },
    /// What it holds that may be new once it has been asked to issue.
    Issue {
        number: NodeNo,
        noted: NotedIssue,
    },
    /// Its time and its round, which alone may be new once a timer has come to it.
    Beat {
        number: NodeNo,
        noted: NotedBeat,
    },
    /// Its time, which alone may be new once it has heard a set, or the header of a ledger that it knows.
    Time {
        number: NodeNo,
        noted: Millis,
    },
}

impl Before {
    /// The node of which it is, if it is one.
    pub fn number(&self) -> Option<NodeNo>
        ensures { result ≡ number_of self.now }
    {
        match self {
            Before::Nobody => None,
            Before::Whole { number, .. } => Some(*number),
            Before::Vote { number, .. } => Some(*number),
            Before::Position { number, .. } => Some(*number),
            Before::Ledgers { number, .. } => Some(*number),
            Before::Pending { number, .. } => Some(*number),
            Before::Issue { number, .. } => Some(*number),
            Before::Beat { number, .. } => Some(*number),
            Before::Time { number, .. } => Some(*number),
        }
    }
}

/// All that a node holds, in the place of what was noted before, if there is one.
fn note_all(
    alloc: Global,
    node: &Node<Trie>,
    spare: &mut Option<Box<Noted>>,
) -> Result<Box<Noted>, OutOfMemory>
    ensures { IfOk result (λ all. noted_seen all.value ≡ noted node.now) }
{
    match spare.take() {
        Some(mut all) => {
            all.renew(node)?;
            Ok(all)
        }
        None => Ok(Box::new(alloc, Noted::of(alloc, node)?)?),
    }
}

/// All that the node of a number holds.
fn note_whole(
    alloc: Global,
    world: &World,
    event: &Event,
    number: NodeNo,
    spare: &mut Option<Box<Noted>>,
    before: &mut Before,
) -> Result<(), OutOfMemory>
    requires { node_of world.now event.now.what ≡ Some number }
    ensures { OnOk result (Tells world.now event.now before.new) }
{
    match world.node(number) {
        Some(core) => {
            let noted = note_all(alloc, core.node(), spare)?;
            *before = Before::Whole { number, noted };
            Ok(())
        }
        None => {
            *before = Before::Nobody;
            Ok(())
        }
    }
}

/// What a node of this number holds that this may change, which a member says.
fn note_said(node: &Node<Trie>, number: NodeNo, member: NodeNo, said: &Said, before: &mut Before)
    ensures { before.new ≡ heard_noted number node.now member (speech_of (body_said said.now)) }
{
    match said {
        Said::Validation(_) => {
            let noted = NotedVote::of(node, member);
            *before = Before::Vote { number, noted };
        }
        Said::Proposal(_) => {
            let noted = NotedPosition::of(node, member);
            *before = Before::Position { number, noted };
        }
        Said::Header(_) => {
            let noted = NotedLedgers::of(node);
            *before = Before::Ledgers { number, noted };
        }
        Said::Tx(_) => {
            let noted = NotedPending::of(node);
            *before = Before::Pending { number, noted };
        }
    }
}

/// The same, but of a header that it knows and refuses nothing but its time.
fn note_heard(
    node: &Node<Trie>,
    number: NodeNo,
    member: NodeNo,
    said: &Said,
    hashed: &mut Hashed,
    before: &mut Before,
)
    ensures { before.new ≡ frame_noted number node.now member (speech_of (body_said said.now)) }
{
    if is_known(node, hashed, said) {
        let noted = node.time();
        *before = Before::Time { number, noted };
        return;
    }
    note_said(node, number, member, said, before);
}

/// What is noted of this node, which receives the frame that is delivered, if what it says is kept in place of bytes.
fn note_listener(
    alloc: Global,
    world: &World,
    event: &Event,
    frame: &Sent<'_>,
    node: &Node<Trie>,
    speller: &mut Speller,
    before: &mut Before,
) -> Result<(), OutOfMemory>
    requires delivers { Delivers world.now event.now.what frame.now }
    requires brief { IsBrief world.now frame.now.to event.now.at frame.now.from node.now }
    ensures { OnOk result (Tells world.now event.now before.new) }
{
    let (number, member) = (frame.to(), frame.from());
    if let Some(said) = frame.said() {
        saying(member, number, said);
        note_heard(node, number, member, said, &mut speller.hashed, before);
        return Ok(());
    }
    if is_set(frame, &mut speller.room) {
        let noted = node.time();
        *before = Before::Time { number, noted };
        return Ok(());
    }
    note_whole(alloc, world, event, number, &mut speller.spare, before)
}

/// What is noted of the receiver of a frame that is delivered.
fn note_receiver(
    alloc: Global,
    world: &World,
    event: &Event,
    frame: &Sent<'_>,
    speller: &mut Speller,
    before: &mut Before,
) -> Result<(), OutOfMemory>
    requires { Delivers world.now event.now.what frame.now }
    ensures { OnOk result (Tells world.now event.now before.new) }
{
    if let Some(node) = brief_node(world, frame.to(), event.at, frame.from()) {
        return note_listener(alloc, world, event, frame, node, speller, before);
    }
    note_whole(alloc, world, event, frame.to(), &mut speller.spare, before)
}

/// What an issue may change of the node of this number, in the second of its time. Answers whether that was noted.
fn note_issue(node: &Node<Trie>, number: NodeNo, at: Millis, before: &mut Before) -> bool
    ensures { IsTrue result → (seq : ℕ) (id : LedgerId) (full : Bool) →
        TellsOf number node.now (Issue at seq id full) before.new }
{
    let list = node.list();
    let _members = list.members();
    if !list.has(node.me()) || !is_within(node, at) {
        return false;
    }
    let noted = NotedIssue::of(node);
    *before = Before::Issue { number, noted };
    true
}

/// What a timer may change of the node of this number, if that is its round alone. Answers whether that was noted.
fn note_beat(
    alloc: Global,
    node: &Node<Trie>,
    number: NodeNo,
    at: Millis,
    before: &mut Before,
) -> Result<bool, OutOfMemory>
    ensures { IfOk result (λ noted. IsTrue noted → TellsOf number node.now (Timer at) before.new) }
{
    if !is_beat(node, at) {
        return Ok(false);
    }
    let noted = NotedBeat::of(alloc, node)?;
    *before = Before::Beat { number, noted };
    Ok(true)
}

/// What may be new of the node of this number once it was asked this, if that is little. Answers whether it was noted.
fn note_ask(
    alloc: Global,
    node: &Node<Trie>,
    number: NodeNo,
    at: Millis,
    ask: &Ask,
    before: &mut Before,
) -> Result<bool, OutOfMemory>
    ensures { IfOk result (λ noted. IsTrue noted → TellsOf number node.now (asked_of at ask.now) before.new) }
{
    match ask {
        Ask::Issue { .. } => Ok(note_issue(node, number, at, before)),
        Ask::Timer { .. } => note_beat(alloc, node, number, at, before),
    }
}

/// What is noted of the node that is asked this.
fn note_asked(
    alloc: Global,
    world: &World,
    event: &Event,
    ask: &Ask,
    spare: &mut Option<Box<Noted>>,
    before: &mut Before,
) -> Result<(), OutOfMemory>
    requires { event.now.what ≡ What.Ask ask.now }
    ensures { OnOk result (Tells world.now event.now before.new) }
{
    let number = node_asked(ask);
    let _reports = world.reports();
    let Some(core) = world.node(number) else {
        *before = Before::Nobody;
        return Ok(());
    };
    if note_ask(alloc, core.node(), number, event.at, ask, before)? {
        return Ok(());
    }
    note_whole(alloc, world, event, number, spare, before)
}

/// What is noted of the node of a part, if there is one.
fn note_node(
    alloc: Global,
    world: &World,
    event: &Event,
    spare: &mut Option<Box<Noted>>,
    before: &mut Before,
) -> Result<(), OutOfMemory>
    ensures { OnOk result (Tells world.now event.now before.new) }
{
    match node_number(world, &event.what) {
        Some(number) => note_whole(alloc, world, event, number, spare, before),
        None => {
            *before = Before::Nobody;
            Ok(())
        }
    }
}

/// What is noted of the node of a part that is no delivery, if there is one.
fn note_else(
    alloc: Global,
    world: &World,
    event: &Event,
    spare: &mut Option<Box<Noted>>,
    before: &mut Before,
) -> Result<(), OutOfMemory>
    ensures { OnOk result (Tells world.now event.now before.new) }
{
    match &event.what {
        What::Ask(ask) => note_asked(alloc, world, event, ask, spare, before),
        _ => note_node(alloc, world, event, spare, before),
    }
}

/// Notes in place, as it is large, what a part of an event may change. The speller's room is written over.
pub fn note_before(
    alloc: Global,
    world: &World,
    event: &Event,
    speller: &mut Speller,
    before: &mut Before,
) -> Result<(), OutOfMemory>
    ensures { OnOk result (Tells world.now event.now before.new) }
{
    match frame_of(world, &event.what) {
        Some(frame) => note_receiver(alloc, world, event, &frame, speller, before),
        None => note_else(alloc, world, event, &mut speller.spare, before),
    }
}
