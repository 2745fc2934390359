// What a node holds that has heard something of a member.
ghost use Rattle.std.specs.Prelude.{◌≡◌, ◌==◌, ◌++◌, length, OnOk};
ghost use Rattle.std.specs.String.{string_bytes};
ghost use Rattle.xl_held.specs.Changes.{unless};
ghost use Rattle.xl_held.specs.Hearing.{header_heard, proposal_heard, set_heard, tx_heard, vote_heard};
ghost use Rattle.xl_held.specs.Lines.{pending_line, proposal_line, row_line};
ghost use Rattle.xl_noted.specs.Same.{is_same_position as is_same_position_by, is_same_row as is_same_row_by};
ghost use Rattle.xl_rounds.specs.Positions.{position_of};
ghost use Rattle.xl_validations.specs.Rows.{current_of};

use crate::ledgers::push_new_ledgers;
use crate::members::{push_proposal_line, push_row_line};
use crate::reports::{push_new_preference, push_new_reports};
use crate::rounds::{push_ids_line, push_new_agreement};
use crate::settings::push_new_time;
use xl_base::{Millis, NodeNo, OutOfMemory, TxId};
use xl_core::Node;
use xl_noted::{
    NotedLedgers, NotedPending, NotedPosition, NotedVote, is_same_position, is_same_row,
};
use xl_rounds::Round;
use xl_sched::Reader;
use xl_told::Hashed;
use xl_trie::Trie;

/// The member's row, if it is new.
pub fn push_heard_row(
    text: &mut String,
    reader: &Reader,
    hashed: &mut Hashed,
    number: NodeNo,
    before: &NotedVote,
    node: &Node<Trie>,
) -> Result<(), OutOfMemory>
    ensures { OnOk result (string_bytes text.new ≡ string_bytes text.old
        ++ unless (is_same_row_by before.now.row (current_of node.now.rows before.now.member))
        (row_line reader.now.names number before.now.member (current_of node.now.rows before.now.member))) }
{
    let row = node.current(before.member);
    if is_same_row(&before.row, &row) {
        return Ok(());
    }
    push_row_line(text, reader, hashed, number, before.member, &row)
}

/// The member's position, if it is new.
fn push_heard_position(
    text: &mut String,
    reader: &Reader,
    hashed: &mut Hashed,
    number: NodeNo,
    before: &NotedPosition,
    round: &Round,
) -> Result<(), OutOfMemory>
    ensures { OnOk result (string_bytes text.new ≡ string_bytes text.old
        ++ unless (is_same_position_by before.now.position (position_of round.now.positions before.now.member))
        (proposal_line reader.now.names number before.now.member (position_of round.now.positions before.now.member))) }
{
    let position = round.position_of(before.member);
    if is_same_position(&before.position, &position) {
        return Ok(());
    }
    push_proposal_line(text, reader, hashed, number, before.member, &position)
}

/// The transactions that are pending, if they aren't as many as before.
fn push_more_pending(
    text: &mut String,
    reader: &Reader,
    hashed: &mut Hashed,
    number: NodeNo,
    before: usize,
    ids: &[TxId],
) -> Result<(), OutOfMemory>
    ensures { OnOk result (string_bytes text.new ≡ string_bytes text.old
        ++ unless (before == length ids.now) (pending_line reader.now.names number ids.now)) }
{
    if before == ids.len() {
        return Ok(());
    }
    push_ids_line(text, reader, hashed, number, " pending ", ids)
}

/// What a node of this number holds that it didn't hold before it heard a validation.
pub fn push_vote_heard(
    text: &mut String,
    reader: &Reader,
    hashed: &mut Hashed,
    number: NodeNo,
    before: &NotedVote,
    node: &Node<Trie>,
) -> Result<(), OutOfMemory>
    ensures { OnOk result (string_bytes text.new
        ≡ string_bytes text.old ++ vote_heard reader.now.names number before.now node.now) }
{
    push_new_time(text, number, before.time, node.time())?;
    push_heard_row(text, reader, hashed, number, before, node)?;
    push_new_reports(
        text,
        reader,
        hashed,
        number,
        &before.last,
        &before.preferred,
        node,
    )
}

/// The same before it heard a proposal.
pub fn push_proposal_heard(
    text: &mut String,
    reader: &Reader,
    hashed: &mut Hashed,
    number: NodeNo,
    before: &NotedPosition,
    node: &Node<Trie>,
) -> Result<(), OutOfMemory>
    ensures { OnOk result (string_bytes text.new
        ≡ string_bytes text.old ++ proposal_heard reader.now.names number before.now node.now) }
{
    push_new_time(text, number, before.time, node.time())?;
    push_heard_position(text, reader, hashed, number, before, node.round())?;
    push_new_agreement(
        text,
        number,
        before.agreeing,
        before.proposers,
        node.round(),
    )
}

/// The same before it heard a header.
pub fn push_header_heard(
    text: &mut String,
    reader: &Reader,
    hashed: &mut Hashed,
    number: NodeNo,
    before: &NotedLedgers,
    node: &Node<Trie>,
) -> Result<(), OutOfMemory>
    ensures { OnOk result (string_bytes text.new
        ≡ string_bytes text.old ++ header_heard reader.now.names number before.now node.now) }
{
    push_new_time(text, number, before.time, node.time())?;
    push_new_ledgers(text, reader, hashed, number, before.ledgers, node)?;
    push_new_preference(
        text,
        reader,
        hashed,
        number,
        &before.preferred,
        &node.preferred(),
    )
}

/// The same before it heard a transaction.
pub fn push_tx_heard(
    text: &mut String,
    reader: &Reader,
    hashed: &mut Hashed,
    number: NodeNo,
    before: &NotedPending,
    node: &Node<Trie>,
) -> Result<(), OutOfMemory>
    ensures { OnOk result (string_bytes text.new
        ≡ string_bytes text.old ++ tx_heard reader.now.names number before.now node.now) }
{
    push_new_time(text, number, before.time, node.time())?;
    push_more_pending(
        text,
        reader,
        hashed,
        number,
        before.pending,
        node.round().pending(),
    )
}

/// The same before it heard a set, when this was its time.
pub fn push_set_heard(
    text: &mut String,
    number: NodeNo,
    before: Millis,
    node: &Node<Trie>,
) -> Result<(), OutOfMemory>
    ensures { OnOk result (string_bytes text.new ≡ string_bytes text.old ++ set_heard number before node.now) }
{
    push_new_time(text, number, before, node.time())
}
