// Words that several lines share, added to a text.
ghost use Rattle.std.specs.Prelude.{◌≡◌, ◌<◌, ◌/◌, ◌%◌, ◌++◌, ◌∷◌, [], codes, decimal, IfSome, IsTrue, None, OnOk};
ghost use Rattle.std.specs.List.{flat_map};
ghost use Rattle.std.specs.String.{string_bytes};
ghost use Rattle.xl_running.specs.Texts.{id_text, space};
ghost use Rattle.xl_sched.specs.Names.{name_of};
ghost use Rattle.xl_told.specs.Words.{
  fullness_text,
  ids_text,
  list_text,
  members_text,
  proposal_text,
  set_text,
  tx_text,
  validated_text,
  validation_text,
};

use crate::hashed::Hashed;
use itoa::Buffer;
use xl_base::{LedgerId, NodeNo, OutOfMemory, Seq, SetId, TxId};
use xl_lists::List;
use xl_sched::{Reader, printed_token};
use xl_wire::{Proposal, Validation};

/// A number below ten.
#[inline(always)]
fn push_digit(text: &mut String, digit: u8) -> Result<(), OutOfMemory>
    requires { digit < 10 }
    ensures { OnOk result (string_bytes text.new ≡ string_bytes text.old ++ decimal digit) }
{
    text.push((b'0' + digit) as char)?;
    Ok(())
}

/// Two digits.
#[inline(always)]
fn push_pair(text: &mut String, pair: u64) -> Result<(), OutOfMemory>
    requires { pair < 100 }
    ensures { OnOk result (string_bytes text.new
        ≡ string_bytes text.old ++ decimal (pair / 10) ++ decimal (pair % 10)) }
{
    push_digit(text, (pair / 10) as u8)?;
    push_digit(text, (pair % 10) as u8)
}

/// A number below 100.
#[inline(always)]
fn push_short(text: &mut String, number: u64) -> Result<(), OutOfMemory>
    requires { number < 100 }
    ensures { OnOk result (string_bytes text.new ≡ string_bytes text.old ++ decimal number) }
{
    if number < 10 {
        return push_digit(text, number as u8);
    }
    push_pair(text, number)
}

/// A number of more than four digits.
// A formatter of std would take the text away and give it back.
fn push_digits(text: &mut String, number: u64) -> Result<(), OutOfMemory>
    ensures { OnOk result (string_bytes text.new ≡ string_bytes text.old ++ decimal number) }
{
    let mut digits = Buffer::new();
    text.push_str(digits.format(number))?;
    Ok(())
}

/// A number that may have several digits.
fn push_several(text: &mut String, number: u64) -> Result<(), OutOfMemory>
    ensures { OnOk result (string_bytes text.new ≡ string_bytes text.old ++ decimal number) }
{
    if number < 100 {
        return push_short(text, number);
    }
    if number < 10_000 {
        push_short(text, number / 100)?;
        return push_pair(text, number % 100);
    }
    push_digits(text, number)
}

/// A number, in decimal digits.
// Most have one digit, which is put where this is called.
#[inline(always)]
pub fn push_number(text: &mut String, number: u64) -> Result<(), OutOfMemory>
    ensures { OnOk result (string_bytes text.new ≡ string_bytes text.old ++ decimal number) }
{
    if number < 10 {
        return push_digit(text, number as u8);
    }
    push_several(text, number)
}

/// A word and a number.
// A word that is known where this is called is copied as it stands there.
#[inline(always)]
pub fn push_numbered(text: &mut String, word: &str, number: u64) -> Result<(), OutOfMemory>
    ensures { OnOk result (string_bytes text.new ≡ string_bytes text.old ++ word.now ++ decimal number) }
{
    text.push_str(word)?;
    push_number(text, number)
}

/// A word and the number of a member.
#[inline(always)]
pub fn push_of(text: &mut String, word: &str, member: NodeNo) -> Result<(), OutOfMemory>
    ensures { OnOk result (string_bytes text.new ≡ string_bytes text.old ++ word.now ++ decimal member) }
{
    push_numbered(text, word, u64::from(member.get()))
}

/// An id, by the first declared name that stands for it, or in digits.
pub fn push_id(
    text: &mut String,
    reader: &Reader,
    hashed: &mut Hashed,
    id: &LedgerId,
) -> Result<(), OutOfMemory>
    ensures { OnOk result (string_bytes text.new ≡ string_bytes text.old ++ id_text reader.now.names id.now) }
{
    match reader.name_of(&id.0) {
        Some(name) => printed_token(name, text),
        None => hashed.push_digits(text, id),
    }
}

pub fn push_set_id(
    text: &mut String,
    reader: &Reader,
    hashed: &mut Hashed,
    id: &SetId,
) -> Result<(), OutOfMemory>
    ensures { OnOk result (string_bytes text.new ≡ string_bytes text.old ++ set_text reader.now.names id.now) }
{
    push_id(text, reader, hashed, &LedgerId(id.0))
}

pub fn push_tx(
    text: &mut String,
    reader: &Reader,
    hashed: &mut Hashed,
    id: &TxId,
) -> Result<(), OutOfMemory>
    ensures { OnOk result (string_bytes text.new ≡ string_bytes text.old ++ tx_text reader.now.names id.now) }
{
    push_id(text, reader, hashed, &LedgerId(id.0))
}

/// The numbers of members, each behind a comma.
fn push_other_members(text: &mut String, others: &[NodeNo]) -> Result<(), OutOfMemory>
    ensures { OnOk result (string_bytes text.new
        ≡ string_bytes text.old ++ flat_map (λ other. codes "," ++ decimal other) others.now) }
{
    for other in others {
        push_of(text, ",", *other)?;
    }
    Ok(())
}

/// The numbers of members, with a comma between each two.
fn push_members(text: &mut String, members: &[NodeNo]) -> Result<(), OutOfMemory>
    ensures { OnOk result (string_bytes text.new ≡ string_bytes text.old ++ members_text members.now) }
{
    let Some((first, others)) = members.split_first() else {
        return Ok(());
    };
    push_number(text, u64::from(first.get()))?;
    push_other_members(text, others)
}

/// A quorum and the members.
pub fn push_list(text: &mut String, list: &List) -> Result<(), OutOfMemory>
    ensures { OnOk result (string_bytes text.new ≡ string_bytes text.old ++ list_text list.now) }
{
    push_number(text, u64::from(list.quorum()))?;
    text.push(' ')?;
    push_members(text, list.members())
}

/// Ids of transactions, each behind a comma.
fn push_other_ids(
    text: &mut String,
    reader: &Reader,
    hashed: &mut Hashed,
    others: &[TxId],
) -> Result<(), OutOfMemory>
    ensures { OnOk result (string_bytes text.new
        ≡ string_bytes text.old ++ flat_map (λ other. codes "," ++ tx_text reader.now.names other) others.now) }
{
    for other in others {
        text.push(',')?;
        push_tx(text, reader, hashed, other)?;
    }
    Ok(())
}

/// Ids of transactions, with a comma between each two, or `-` for none.
pub fn push_ids(
    text: &mut String,
    reader: &Reader,
    hashed: &mut Hashed,
    ids: &[TxId],
) -> Result<(), OutOfMemory>
    ensures { OnOk result (string_bytes text.new ≡ string_bytes text.old ++ ids_text reader.now.names ids.now) }
{
    let Some((first, others)) = ids.split_first() else {
        text.push('-')?;
        return Ok(());
    };
    push_tx(text, reader, hashed, first)?;
    push_other_ids(text, reader, hashed, others)
}

pub fn push_fullness(text: &mut String, full: bool) -> Result<(), OutOfMemory>
    ensures { OnOk result (string_bytes text.new ≡ string_bytes text.old ++ fullness_text full) }
{
    if full {
        text.push_str("full")?;
    } else {
        text.push_str("partial")?;
    }
    Ok(())
}

/// The ledger that was last reported, if it is told, as one token more.
fn push_validated(
    text: &mut String,
    reader: &Reader,
    hashed: &mut Hashed,
    validated: &Option<LedgerId>,
) -> Result<(), OutOfMemory>
    ensures { OnOk result (string_bytes text.new
        ≡ string_bytes text.old ++ validated_text reader.now.names validated.now) }
{
    match validated {
        Some(id) => {
            text.push(' ')?;
            push_id(text, reader, hashed, id)
        }
        None => Ok(()),
    }
}

/// A ledger, by its sequence and its id.
pub fn push_ledger(
    text: &mut String,
    reader: &Reader,
    hashed: &mut Hashed,
    seq: Seq,
    id: &LedgerId,
) -> Result<(), OutOfMemory>
    ensures { OnOk result (string_bytes text.new
        ≡ string_bytes text.old ++ decimal seq ++ space ++ id_text reader.now.names id.now) }
{
    push_number(text, u64::from(seq))?;
    text.push(' ')?;
    push_id(text, reader, hashed, id)
}

/// A validation, word after word.
pub(crate) fn push_validation_words(
    text: &mut String,
    reader: &Reader,
    hashed: &mut Hashed,
    validation: &Validation,
) -> Result<(), OutOfMemory>
    ensures { OnOk result (string_bytes text.new
        ≡ string_bytes text.old ++ validation_text reader.now.names validation.now) }
{
    push_ledger(text, reader, hashed, validation.seq, &validation.id)?;
    text.push(' ')?;
    push_number(text, u64::from(validation.signed))?;
    text.push(' ')?;
    push_fullness(text, validation.full)?;
    push_validated(text, reader, hashed, &validation.validated)
}

fn is_nameless_if_told(reader: &Reader, validated: &Option<LedgerId>) -> bool
    ensures { IsTrue result → IfSome validated.now (λ id. name_of reader.now.names id.0 ≡ None) }
{
    match validated {
        Some(id) => has_no_name(reader, &id.0),
        None => true,
    }
}

/// Whether none of a validation's ids has a name.
fn is_nameless_vote(reader: &Reader, validation: &Validation) -> bool
    ensures { IsTrue result → validation_text reader.now.names validation.now ≡ validation_text [] validation.now }
{
    if !has_no_name(reader, &validation.id.0) {
        return false;
    }
    is_nameless_if_told(reader, &validation.validated)
}

pub fn push_validation(
    text: &mut String,
    reader: &Reader,
    hashed: &mut Hashed,
    validation: &Validation,
) -> Result<(), OutOfMemory>
    ensures { OnOk result (string_bytes text.new
        ≡ string_bytes text.old ++ validation_text reader.now.names validation.now) }
{
    if is_nameless_vote(reader, validation) {
        return hashed.push_validation(text, reader, validation);
    }
    push_validation_words(text, reader, hashed, validation)
}

/// The numbers of a proposal, each behind a space.
fn push_proposal_numbers(text: &mut String, proposal: &Proposal) -> Result<(), OutOfMemory>
    ensures { OnOk result (string_bytes text.new ≡ string_bytes text.old
        ++ (space ++ decimal proposal.now.pseq ++ space ++ decimal proposal.now.close ++ space ++ decimal proposal.now.time)) }
{
    push_numbered(text, " ", u64::from(proposal.pseq))?;
    push_numbered(text, " ", u64::from(proposal.close))?;
    push_numbered(text, " ", u64::from(proposal.time))
}

/// A proposal with its ids in digits.
pub(crate) fn push_nameless(
    text: &mut String,
    hashed: &mut Hashed,
    proposal: &Proposal,
) -> Result<(), OutOfMemory>
    ensures { OnOk result (string_bytes text.new ≡ string_bytes text.old ++ proposal_text [] proposal.now) }
{
    hashed.push_digits(text, &proposal.prev)?;
    text.push(' ')?;
    hashed.push_digits(text, &LedgerId(proposal.set.0))?;
    push_proposal_numbers(text, proposal)
}

fn push_named(
    text: &mut String,
    reader: &Reader,
    hashed: &mut Hashed,
    proposal: &Proposal,
) -> Result<(), OutOfMemory>
    ensures { OnOk result (string_bytes text.new
        ≡ string_bytes text.old ++ proposal_text reader.now.names proposal.now) }
{
    push_id(text, reader, hashed, &proposal.prev)?;
    text.push(' ')?;
    push_set_id(text, reader, hashed, &proposal.set)?;
    push_proposal_numbers(text, proposal)
}

fn has_no_name(reader: &Reader, id: &[u8; 32]) -> bool
    ensures { IsTrue result → name_of reader.now.names id.now ≡ None }
{
    reader.name_of(id).is_none()
}

/// Whether none of a proposal's ids has a name.
fn is_nameless(reader: &Reader, proposal: &Proposal) -> bool
    ensures { IsTrue result → proposal_text reader.now.names proposal.now ≡ proposal_text [] proposal.now }
{
    if !has_no_name(reader, &proposal.prev.0) {
        return false;
    }
    has_no_name(reader, &proposal.set.0)
}

pub fn push_proposal(
    text: &mut String,
    reader: &Reader,
    hashed: &mut Hashed,
    proposal: &Proposal,
) -> Result<(), OutOfMemory>
    ensures { OnOk result (string_bytes text.new
        ≡ string_bytes text.old ++ proposal_text reader.now.names proposal.now) }
{
    if is_nameless(reader, proposal) {
        return hashed.push_proposal(text, proposal);
    }
    push_named(text, reader, hashed, proposal)
}
