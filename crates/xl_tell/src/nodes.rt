// The node at which something happens, and what it holds.
ghost use Rattle.std.specs.Prelude.{◌≡◌, ◌++◌, OnOk, option_map};
ghost use Rattle.std.specs.String.{string_bytes};
ghost use Rattle.xl_tell.specs.Before.{told_by, told_of};
ghost use Rattle.xl_tell.specs.Nodes.{all_opened, node_of, opened_in};
ghost use Rattle.xl_world.specs.Schedule.{frame_at, node_asked};
ghost use Rattle.xl_world.specs.World.{core_in};

use crate::before::Before;
use xl_base::{NodeNo, OutOfMemory};
use xl_core::Node;
use xl_held::{
    push_beat_told, push_changed, push_header_heard, push_issue_told, push_opened,
    push_proposal_heard, push_set_heard, push_tx_heard, push_vote_heard,
};
use xl_sched::{Ask, Reader, What};
use xl_told::Hashed;
use xl_trie::Trie;
use xl_world::{Sent, World};

/// The node that is asked.
pub fn node_asked(ask: &Ask) -> NodeNo
    ensures { result ≡ node_asked ask.now }
{
    match *ask {
        Ask::Issue { node, .. } | Ask::Timer { node } => node,
    }
}

/// The sent frame of a place, from 1 on.
pub fn frame_at(world: &World, place: u64) -> Option<Sent<'_>>
    ensures { result ≡ frame_at world.now.sent place }
{
    let Some(before) = place.checked_sub(1) else {
        return None;
    };
    world.sent().get(before as usize)
}

/// Who receives the sent frame of a place, from 1 on.
fn receiver_of(world: &World, place: u64) -> Option<NodeNo>
    ensures { result ≡ option_map (λ frame. frame.to) (frame_at world.now.sent place) }
{
    match frame_at(world, place) {
        Some(frame) => Some(frame.to()),
        None => None,
    }
}

/// The node at which something happens, if it is one.
pub fn node_of(world: &World, what: &What) -> Option<NodeNo>
    ensures { result ≡ node_of world.now what.now }
{
    match what {
        What::Ask(ask) => Some(node_asked(ask)),
        What::Timers => None,
        What::Submit { node, .. } => Some(*node),
        What::Deliver { place } => receiver_of(world, *place),
        What::All => None,
        What::Drop => None,
        What::Greet { node, .. } => Some(*node),
        What::Restart { node } => Some(*node),
        What::Cut { ask, .. } => Some(node_asked(ask)),
        What::Fail { ask, .. } => Some(node_asked(ask)),
        What::List { node, .. } => Some(*node),
        What::Lie { to, .. } => Some(*to),
        What::Raw { to, .. } => Some(*to),
        What::Prefer { node } => Some(*node),
        What::Heard { node } => Some(*node),
    }
}

/// What a node holds that it didn't hold when this was noted.
fn push_told_of(
    text: &mut String,
    reader: &Reader,
    hashed: &mut Hashed,
    before: &Before,
    node: &Node<Trie>,
) -> Result<(), OutOfMemory>
    ensures { OnOk result (string_bytes text.new ≡ string_bytes text.old
        ++ told_of reader.now.names before.now node.now) }
{
    match before {
        Before::Nobody => Ok(()),
        Before::Whole { number, noted } => push_changed(
            text, reader, hashed, *number, &**noted, node,
        ),
        Before::Vote { number, noted } => {
            push_vote_heard(text, reader, hashed, *number, noted, node)
        }
        Before::Position { number, noted } => {
            push_proposal_heard(text, reader, hashed, *number, noted, node)
        }
        Before::Ledgers { number, noted } => {
            push_header_heard(text, reader, hashed, *number, noted, node)
        }
        Before::Pending { number, noted } => {
            push_tx_heard(text, reader, hashed, *number, noted, node)
        }
        Before::Issue { number, noted } => {
            push_issue_told(text, reader, hashed, *number, noted, node)
        }
        Before::Beat { number, noted } => {
            push_beat_told(text, reader, hashed, *number, noted, node)
        }
        Before::Time { number, noted } => push_set_heard(text, *number, *noted, node),
    }
}

/// What the node holds that it didn't hold when it was noted.
pub fn push_told(
    text: &mut String,
    reader: &Reader,
    hashed: &mut Hashed,
    before: &Before,
    world: &World,
) -> Result<(), OutOfMemory>
    ensures { OnOk result (string_bytes text.new ≡ string_bytes text.old
        ++ told_by reader.now.names before.now world.now) }
{
    let Some(number) = before.number() else {
        return Ok(());
    };
    match world.node(number) {
        Some(core) => push_told_of(text, reader, hashed, before, core.node()),
        None => Ok(()),
    }
}

/// What the node of a number holds that was just opened.
fn push_opened_in(
    text: &mut String,
    reader: &Reader,
    hashed: &mut Hashed,
    number: NodeNo,
    world: &World,
) -> Result<(), OutOfMemory>
    ensures { OnOk result (string_bytes text.new
        ≡ string_bytes text.old ++ opened_in reader.now.names number (core_in world.now number)) }
{
    match world.node(number) {
        Some(core) => push_opened(text, reader, hashed, number, core.node()),
        None => Ok(()),
    }
}

/// What all nodes hold that were just opened.
pub fn push_all_opened(
    text: &mut String,
    reader: &Reader,
    hashed: &mut Hashed,
    world: &World,
) -> Result<(), OutOfMemory>
    ensures { OnOk result (string_bytes text.new ≡ string_bytes text.old ++ all_opened reader.now.names world.now) }
{
    for &number in world.numbers() {
        push_opened_in(text, reader, hashed, number, world)?;
    }
    Ok(())
}
