// The rows and the positions of the members of a node's list.
ghost use Rattle.std.specs.Prelude.{◌≡◌, ◌++◌, OnOk};
ghost use Rattle.std.specs.String.{string_bytes};
ghost use Rattle.xl_held.specs.Changes.{proposal_changed, proposals_changed, row_changed, rows_changed};
ghost use Rattle.xl_held.specs.Lines.{proposal_line, row_line};

use crate::words::{push_position, push_row};
use xl_base::{NodeNo, OutOfMemory};
use xl_core::Node;
use xl_noted::{NotedMember, is_position_kept, is_row_kept};
use xl_sched::Reader;
use xl_told::{Hashed, push_of};
use xl_trie::Trie;
use xl_wire::{Proposal, Validation};

pub fn push_row_line(
    text: &mut String,
    reader: &Reader,
    hashed: &mut Hashed,
    number: NodeNo,
    member: NodeNo,
    row: &Option<Validation>,
) -> Result<(), OutOfMemory>
    ensures { OnOk result (string_bytes text.new
        ≡ string_bytes text.old ++ row_line reader.now.names number member row.now) }
{
    push_of(text, "held ", number)?;
    push_of(text, " row ", member)?;
    text.push(' ')?;
    push_row(text, reader, hashed, row)?;
    text.push('\n')?;
    Ok(())
}

fn push_new_row(
    text: &mut String,
    reader: &Reader,
    hashed: &mut Hashed,
    number: NodeNo,
    before: &[NotedMember],
    node: &Node<Trie>,
    member: NodeNo,
) -> Result<(), OutOfMemory>
    ensures { OnOk result (string_bytes text.new
        ≡ string_bytes text.old ++ row_changed reader.now.names number before.now node.now member) }
{
    let row = node.current(member);
    if is_row_kept(before, member, &row) {
        return Ok(());
    }
    push_row_line(text, reader, hashed, number, member, &row)
}

/// What is new of the rows.
pub fn push_new_rows(
    text: &mut String,
    reader: &Reader,
    hashed: &mut Hashed,
    number: NodeNo,
    before: &[NotedMember],
    node: &Node<Trie>,
) -> Result<(), OutOfMemory>
    ensures { OnOk result (string_bytes text.new
        ≡ string_bytes text.old ++ rows_changed reader.now.names number before.now node.now) }
{
    for &member in node.list().members() {
        push_new_row(text, reader, hashed, number, before, node, member)?;
    }
    Ok(())
}

pub fn push_proposal_line(
    text: &mut String,
    reader: &Reader,
    hashed: &mut Hashed,
    number: NodeNo,
    member: NodeNo,
    position: &Option<Proposal>,
) -> Result<(), OutOfMemory>
    ensures { OnOk result (string_bytes text.new
        ≡ string_bytes text.old ++ proposal_line reader.now.names number member position.now) }
{
    push_of(text, "held ", number)?;
    push_of(text, " proposal ", member)?;
    text.push(' ')?;
    push_position(text, reader, hashed, position)?;
    text.push('\n')?;
    Ok(())
}

fn push_new_proposal(
    text: &mut String,
    reader: &Reader,
    hashed: &mut Hashed,
    number: NodeNo,
    before: &[NotedMember],
    node: &Node<Trie>,
    member: NodeNo,
) -> Result<(), OutOfMemory>
    ensures { OnOk result (string_bytes text.new
        ≡ string_bytes text.old ++ proposal_changed reader.now.names number before.now node.now member) }
{
    let position = node.round().position_of(member);
    if is_position_kept(before, member, &position) {
        return Ok(());
    }
    push_proposal_line(text, reader, hashed, number, member, &position)
}

/// What is new of the positions.
pub fn push_new_proposals(
    text: &mut String,
    reader: &Reader,
    hashed: &mut Hashed,
    number: NodeNo,
    before: &[NotedMember],
    node: &Node<Trie>,
) -> Result<(), OutOfMemory>
    ensures { OnOk result (string_bytes text.new
        ≡ string_bytes text.old ++ proposals_changed reader.now.names number before.now node.now) }
{
    for &member in node.list().members() {
        push_new_proposal(text, reader, hashed, number, before, node, member)?;
    }
    Ok(())
}
