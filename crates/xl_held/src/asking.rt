// What a node holds that was asked something.
ghost use Rattle.std.specs.Prelude.{◌≡◌, ◌++◌, [], OnOk};
ghost use Rattle.std.specs.String.{string_bytes};
ghost use Rattle.xl_held.specs.Asking.{beat_told, beaten, issue_told};
ghost use Rattle.xl_held.specs.Changes.{proposals_changed, unless};
ghost use Rattle.xl_noted.specs.Asking.{is_still as is_still_by};
ghost use Rattle.xl_noted.specs.Seen.{round_seen};

use crate::hearing::push_heard_row;
use crate::members::push_new_proposals;
use crate::reports::push_new_reports;
use crate::rounds::{push_new_agreement, push_new_part};
use crate::settings::{push_new_issuing, push_new_kept, push_new_time};
use xl_base::{NodeNo, OutOfMemory};
use xl_core::Node;
use xl_noted::{NotedBeat, NotedIssue, NotedRound, is_still};
use xl_sched::Reader;
use xl_told::Hashed;
use xl_trie::Trie;

/// What a node of this number holds that it didn't hold before it was asked to issue.
pub fn push_issue_told(
    text: &mut String,
    reader: &Reader,
    hashed: &mut Hashed,
    number: NodeNo,
    before: &NotedIssue,
    node: &Node<Trie>,
) -> Result<(), OutOfMemory>
    ensures { OnOk result (string_bytes text.new
        ≡ string_bytes text.old ++ issue_told reader.now.names number before.now node.now) }
{
    push_new_time(text, number, before.vote.time, node.time())?;
    push_new_kept(text, number, before.kept, node.kept())?;
    push_new_issuing(text, number, &before.failed_save, &node.failed_save())?;
    push_heard_row(text, reader, hashed, number, &before.vote, node)?;
    push_new_reports(
        text,
        reader,
        hashed,
        number,
        &before.vote.last,
        &before.vote.preferred,
        node,
    )
}

/// The positions of members, if none had one.
fn push_first_proposals(
    text: &mut String,
    reader: &Reader,
    hashed: &mut Hashed,
    number: NodeNo,
    node: &Node<Trie>,
) -> Result<(), OutOfMemory>
    ensures { OnOk result (string_bytes text.new
        ≡ string_bytes text.old ++ proposals_changed reader.now.names number [] node.now) }
{
    if node.round().proposers() == 0 {
        return Ok(());
    }
    push_new_proposals(text, reader, hashed, number, &[], node)
}

/// What is new of a round in which no member had a position.
fn push_beat(
    text: &mut String,
    reader: &Reader,
    hashed: &mut Hashed,
    number: NodeNo,
    before: &NotedRound,
    node: &Node<Trie>,
) -> Result<(), OutOfMemory>
    ensures { OnOk result (string_bytes text.new
        ≡ string_bytes text.old ++ beaten reader.now.names number (round_seen before.now) node.now) }
{
    let round = node.round();
    push_new_part(text, reader, hashed, number, before, round)?;
    push_first_proposals(text, reader, hashed, number, node)?;
    push_new_agreement(text, number, before.agreeing, before.proposers, round)
}

/// The same, unless the round is open still, on the same ledger.
fn push_new_beat(
    text: &mut String,
    reader: &Reader,
    hashed: &mut Hashed,
    number: NodeNo,
    before: &NotedBeat,
    node: &Node<Trie>,
) -> Result<(), OutOfMemory>
    ensures { OnOk result (string_bytes text.new ≡ string_bytes text.old
        ++ unless (is_still_by before.now.previous node.now.round)
        (beaten reader.now.names number (round_seen before.now.round) node.now)) }
{
    if is_still(before.previous, node.round()) {
        return Ok(());
    }
    push_beat(text, reader, hashed, number, &before.round, node)
}

/// The same before a timer came to an open round in which no member had a position.
pub fn push_beat_told(
    text: &mut String,
    reader: &Reader,
    hashed: &mut Hashed,
    number: NodeNo,
    before: &NotedBeat,
    node: &Node<Trie>,
) -> Result<(), OutOfMemory>
    ensures { OnOk result (string_bytes text.new ≡ string_bytes text.old
        ++ beat_told reader.now.names number before.now.time before.now.previous (round_seen before.now.round) node.now) }
{
    push_new_time(text, number, before.time, node.time())?;
    push_new_beat(text, reader, hashed, number, before, node)
}
