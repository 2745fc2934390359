// What a node holds.
ghost use Rattle.std.specs.Prelude.{◌≡◌, ◌++◌, OnOk};
ghost use Rattle.std.specs.String.{string_bytes};
ghost use Rattle.xl_held.specs.Changes.{changed_lines, opened_lines};
ghost use Rattle.xl_noted.specs.Seen.{noted_seen};

use crate::ledgers::push_new_ledgers;
use crate::members::{push_new_proposals, push_new_rows};
use crate::reports::{push_new_reports, push_reports};
use crate::rounds::{push_agreement_line, push_new_agreement, push_new_part, push_part};
use crate::settings::{push_new_settings, push_settings};
use xl_base::{NodeNo, OutOfMemory};
use xl_core::Node;
use xl_noted::Noted;
use xl_sched::Reader;
use xl_told::Hashed;
use xl_trie::Trie;

/// What a node of this number holds that it didn't hold when it was noted.
pub fn push_changed(
    text: &mut String,
    reader: &Reader,
    hashed: &mut Hashed,
    number: NodeNo,
    before: &Noted,
    node: &Node<Trie>,
) -> Result<(), OutOfMemory>
    ensures { OnOk result (string_bytes text.new
        ≡ string_bytes text.old ++ changed_lines reader.now.names number (noted_seen before.now) node.now) }
{
    let members = before.members.as_slice();
    let round = node.round();
    push_new_settings(text, number, before, node)?;
    push_new_rows(text, reader, hashed, number, members, node)?;
    push_new_ledgers(text, reader, hashed, number, before.ledgers, node)?;
    push_new_reports(
        text,
        reader,
        hashed,
        number,
        &before.last,
        &before.preferred,
        node,
    )?;
    push_new_part(text, reader, hashed, number, &before.round, round)?;
    push_new_proposals(text, reader, hashed, number, members, node)?;
    push_new_agreement(
        text,
        number,
        before.round.agreeing,
        before.round.proposers,
        round,
    )
}

/// What a node of this number holds that was just opened.
pub fn push_opened(
    text: &mut String,
    reader: &Reader,
    hashed: &mut Hashed,
    number: NodeNo,
    node: &Node<Trie>,
) -> Result<(), OutOfMemory>
    ensures { OnOk result (string_bytes text.new
        ≡ string_bytes text.old ++ opened_lines reader.now.names number node.now) }
{
    let round = node.round();
    push_settings(text, number, node)?;
    push_reports(text, reader, hashed, number, node)?;
    push_part(text, reader, hashed, number, round)?;
    push_agreement_line(text, number, round)
}
