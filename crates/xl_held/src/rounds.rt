// A node's own part in its round.
ghost use Rattle.std.specs.Prelude.{◌≡◌, ◌==◌, ◌&&◌, ◌++◌, OnOk};
ghost use Rattle.std.specs.String.{string_bytes};
ghost use Rattle.xl_held.specs.Changes.{agreement_since, is_same_round, round_changed, round_opened, unless};
ghost use Rattle.xl_held.specs.Lines.{agreement_line, ids_line, position_line, round_line};
ghost use Rattle.xl_noted.specs.Same.{are_same_ids, is_same_proposal};
ghost use Rattle.xl_noted.specs.Seen.{round_seen};
ghost use Rattle.xl_rounds.specs.Positions.{count_agreeing, count};

use crate::words::{push_held, push_last_number, push_mode, push_phase};
use xl_base::{NodeNo, OutOfMemory, TxId};
use xl_noted::{
    NotedRound, are_same_ids as have_same_ids, is_same_mode, is_same_phase,
    is_same_proposal as has_same_proposal,
};
use xl_rounds::Round;
use xl_sched::Reader;
use xl_told::{Hashed, push_ids, push_numbered, push_of, push_proposal};
use xl_wire::Proposal;

fn push_round_line(text: &mut String, number: NodeNo, round: &Round) -> Result<(), OutOfMemory>
    ensures { OnOk result (string_bytes text.new ≡ string_bytes text.old ++ round_line number round.now) }
{
    push_held(text, number, " round ")?;
    push_phase(text, round.phase())?;
    text.push(' ')?;
    push_mode(text, round.mode())?;
    push_last_number(text, round.started())
}

fn push_position_line(
    text: &mut String,
    reader: &Reader,
    hashed: &mut Hashed,
    number: NodeNo,
    position: &Proposal,
) -> Result<(), OutOfMemory>
    ensures { OnOk result (string_bytes text.new
        ≡ string_bytes text.old ++ position_line reader.now.names number position.now) }
{
    push_held(text, number, " position ")?;
    push_proposal(text, reader, hashed, position)?;
    text.push('\n')?;
    Ok(())
}

/// A line of a word and ids.
pub fn push_ids_line(
    text: &mut String,
    reader: &Reader,
    hashed: &mut Hashed,
    number: NodeNo,
    word: &str,
    ids: &[TxId],
) -> Result<(), OutOfMemory>
    ensures { OnOk result (string_bytes text.new
        ≡ string_bytes text.old ++ ids_line reader.now.names number word.now ids.now) }
{
    push_held(text, number, word)?;
    push_ids(text, reader, hashed, ids)?;
    text.push('\n')?;
    Ok(())
}

pub fn push_agreement_line(
    text: &mut String,
    number: NodeNo,
    round: &Round,
) -> Result<(), OutOfMemory>
    ensures { OnOk result (string_bytes text.new ≡ string_bytes text.old ++ agreement_line number round.now) }
{
    push_of(text, "held ", number)?;
    push_numbered(text, " agreement ", u64::from(round.agreeing()))?;
    push_last_number(text, u64::from(round.proposers()))
}

fn has_same_round(before: &NotedRound, round: &Round) -> bool
    ensures { result ≡ is_same_round (round_seen before.now) round.now }
{
    is_same_phase(before.phase, round.phase())
        && is_same_mode(before.mode, round.mode())
        && before.started == round.started()
}

fn push_new_round(
    text: &mut String,
    number: NodeNo,
    before: &NotedRound,
    round: &Round,
) -> Result<(), OutOfMemory>
    ensures { OnOk result (string_bytes text.new ≡ string_bytes text.old
        ++ unless (is_same_round (round_seen before.now) round.now) (round_line number round.now)) }
{
    if has_same_round(before, round) {
        return Ok(());
    }
    push_round_line(text, number, round)
}

fn push_new_position(
    text: &mut String,
    reader: &Reader,
    hashed: &mut Hashed,
    number: NodeNo,
    before: &Proposal,
    position: &Proposal,
) -> Result<(), OutOfMemory>
    ensures { OnOk result (string_bytes text.new ≡ string_bytes text.old
        ++ unless (is_same_proposal before.now position.now) (position_line reader.now.names number position.now)) }
{
    if has_same_proposal(before, position) {
        return Ok(());
    }
    push_position_line(text, reader, hashed, number, position)
}

/// Ids behind their word, if they are new.
fn push_new_ids(
    text: &mut String,
    reader: &Reader,
    hashed: &mut Hashed,
    number: NodeNo,
    word: &str,
    before: &[TxId],
    ids: &[TxId],
) -> Result<(), OutOfMemory>
    ensures { OnOk result (string_bytes text.new ≡ string_bytes text.old
        ++ unless (are_same_ids before.now ids.now) (ids_line reader.now.names number word.now ids.now)) }
{
    if have_same_ids(before, ids) {
        return Ok(());
    }
    push_ids_line(text, reader, hashed, number, word, ids)
}

/// What is new of its own part in its round.
pub fn push_new_part(
    text: &mut String,
    reader: &Reader,
    hashed: &mut Hashed,
    number: NodeNo,
    before: &NotedRound,
    round: &Round,
) -> Result<(), OutOfMemory>
    ensures { OnOk result (string_bytes text.new
        ≡ string_bytes text.old ++ round_changed reader.now.names number (round_seen before.now) round.now) }
{
    push_new_round(text, number, before, round)?;
    push_new_position(
        text,
        reader,
        hashed,
        number,
        &before.position,
        &round.position(),
    )?;
    push_new_ids(
        text,
        reader,
        hashed,
        number,
        " set ",
        before.own.as_slice(),
        round.own_set(),
    )?;
    push_new_ids(
        text,
        reader,
        hashed,
        number,
        " pending ",
        before.pending.as_slice(),
        round.pending(),
    )
}

fn has_same_agreement(agreeing: u32, proposers: u32, round: &Round) -> bool
    ensures { result ≡ (agreeing == count_agreeing round.now.positions && proposers == count round.now.positions) }
{
    agreeing == round.agreeing() && proposers == round.proposers()
}

/// How many of the members' positions name its set, if they and the positions aren't as many as these.
pub fn push_new_agreement(
    text: &mut String,
    number: NodeNo,
    agreeing: u32,
    proposers: u32,
    round: &Round,
) -> Result<(), OutOfMemory>
    ensures { OnOk result (string_bytes text.new
        ≡ string_bytes text.old ++ agreement_since number agreeing proposers round.now) }
{
    if has_same_agreement(agreeing, proposers, round) {
        return Ok(());
    }
    push_agreement_line(text, number, round)
}

/// Its own part in its round.
pub fn push_part(
    text: &mut String,
    reader: &Reader,
    hashed: &mut Hashed,
    number: NodeNo,
    round: &Round,
) -> Result<(), OutOfMemory>
    ensures { OnOk result (string_bytes text.new
        ≡ string_bytes text.old ++ round_opened reader.now.names number round.now) }
{
    push_round_line(text, number, round)?;
    push_position_line(text, reader, hashed, number, &round.position())?;
    push_ids_line(text, reader, hashed, number, " set ", round.own_set())?;
    push_ids_line(text, reader, hashed, number, " pending ", round.pending())
}
