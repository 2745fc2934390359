// The lines, added to a text.
ghost use Rattle.std.specs.Prelude.{◌≡◌, ◌≤◌, ◌++◌, length, take, decimal, OnOk, IfOk};
ghost use Rattle.std.specs.String.{string_bytes};
ghost use Rattle.hex.specs.Hex.{encode_lower};
ghost use Rattle.xl_show.specs.Texts.{proposal_text, fullness_text, vote_text, validated_text, validation_text, header_text, body_text, frame_line, values_text, refusal_line, short_line, limit_line, count_line};

use crate::limits::MOST_BYTES;
use std::alloc::Global;
use std::fmt::Write;
use xl_base::{LedgerId, OutOfMemory, TxId, set_id};
use xl_ledger::{Header, id_of, read_header};
use xl_wire::{Body, Frame, Ids, Proposal, Validation, WireRefusal};

/// The number of the refusal where the input ends within a frame.
const SHORT: u32 = 45;

/// The number of the refusal where a byte too many comes.
const LIMIT: u32 = 35;

/// A frame's line: who says what to whom.
pub fn push_frame(alloc: Global, text: &mut String, frame: &Frame<'_>) -> Result<(), OutOfMemory>
    ensures { OnOk result (string_bytes text.new ≡ string_bytes text.old ++ frame_line frame.now) }
{
    let (from, to) = (frame.from, frame.to);
    write!(text, "frame {from} {to} ")?;
    push_body(alloc, text, &frame.body)?;
    text.push('\n')?;
    Ok(())
}

fn push_body(alloc: Global, text: &mut String, body: &Body<'_>) -> Result<(), OutOfMemory>
    ensures { OnOk result (string_bytes text.new ≡ string_bytes text.old ++ body_text body.now) }
{
    match body {
        Body::Proposal(proposal) => push_proposal(alloc, text, proposal),
        Body::Validation(validation) => {
            text.push_str("validation ")?;
            push_validation(alloc, text, validation)
        }
        Body::Header(bytes) => push_header(alloc, text, &read_header(bytes)),
        Body::TxSet(ids) => push_set(alloc, text, ids),
        Body::Tx(id) => {
            text.push_str("tx ")?;
            push_digits(alloc, text, &id.0)
        }
    }
}

fn push_proposal(alloc: Global, text: &mut String, proposal: &Proposal) -> Result<(), OutOfMemory>
    ensures { OnOk result (string_bytes text.new ≡ string_bytes text.old ++ proposal_text proposal.now) }
{
    text.push_str("proposal ")?;
    push_digits(alloc, text, &proposal.prev.0)?;
    text.push(' ')?;
    push_digits(alloc, text, &proposal.set.0)?;
    let (pseq, close, time) = (proposal.pseq, proposal.close, proposal.time);
    write!(text, " {pseq} {close} {time}")?;
    Ok(())
}

fn push_validation(
    alloc: Global,
    text: &mut String,
    validation: &Validation,
) -> Result<(), OutOfMemory>
    ensures { OnOk result (string_bytes text.new ≡ string_bytes text.old ++ validation_text validation.now) }
{
    push_vote(alloc, text, validation)?;
    text.push(' ')?;
    text.push_str(fullness(validation.full))?;
    push_validated(alloc, text, &validation.validated)
}

/// The id of the ledger that was last reported, if there is one, as one token more.
fn push_validated(
    alloc: Global,
    text: &mut String,
    validated: &Option<LedgerId>,
) -> Result<(), OutOfMemory>
    ensures { OnOk result (string_bytes text.new ≡ string_bytes text.old ++ validated_text validated.now) }
{
    match validated {
        Some(id) => {
            text.push(' ')?;
            push_digits(alloc, text, &id.0)
        }
        None => Ok(()),
    }
}

fn push_vote(alloc: Global, text: &mut String, validation: &Validation) -> Result<(), OutOfMemory>
    ensures { OnOk result (string_bytes text.new ≡ string_bytes text.old ++ vote_text validation.now) }
{
    let (seq, signed) = (validation.seq, validation.signed);
    write!(text, "{seq} ")?;
    push_digits(alloc, text, &validation.id.0)?;
    write!(text, " {signed}")?;
    Ok(())
}

#[tactic(auto, unfolding(crate::specs::Texts::fullness_text))]
fn fullness(full: bool) -> &'static str
    ensures { result.now ≡ fullness_text full }
{
    if full { "full" } else { "partial" }
}

fn push_header(alloc: Global, text: &mut String, header: &Header) -> Result<(), OutOfMemory>
    ensures { OnOk result (string_bytes text.new ≡ string_bytes text.old ++ header_text header.now) }
{
    let (seq, close) = (header.seq, header.close);
    write!(text, "header {seq} ")?;
    push_digits(alloc, text, &id_of(header).0)?;
    text.push(' ')?;
    push_digits(alloc, text, &header.parent.0)?;
    write!(text, " {close}")?;
    Ok(())
}

fn push_set(alloc: Global, text: &mut String, ids: &Ids<'_>) -> Result<(), OutOfMemory>
    ensures { OnOk result (string_bytes text.new ≡ string_bytes text.old ++ body_text (Body.TxSet ids.now)) }
{
    let count = ids.len();
    let ids = list_of(alloc, ids)?;
    write!(text, "set {count} ")?;
    push_digits(alloc, text, &set_id(&ids).0)
}

/// The ids as a list.
fn list_of(alloc: Global, ids: &Ids<'_>) -> Result<Vec<TxId>, OutOfMemory>
    ensures { IfOk result (λ list. list.items ≡ ids.now) }
{
    let mut list = Vec::new(alloc);
    for i in 0..ids.len() {
        list.push(ids.get(i))?;
    }
    Ok(list)
}

/// Bytes as lower-case hexadecimal digits.
fn push_digits(alloc: Global, text: &mut String, bytes: &[u8; 32]) -> Result<(), OutOfMemory>
    ensures { OnOk result (string_bytes text.new ≡ string_bytes text.old ++ encode_lower bytes.now) }
{
    let digits = hex::encode(alloc, bytes.as_slice())?;
    text.push_str(digits.as_str())?;
    Ok(())
}

/// The line where bytes are refused.
pub fn push_refusal(
    text: &mut String,
    place: usize,
    refusal: WireRefusal,
) -> Result<(), OutOfMemory>
    ensures { OnOk result (string_bytes text.new ≡ string_bytes text.old ++ refusal_line place refusal) }
{
    let code = refusal.code();
    write!(text, "bad {place} {code} ")?;
    push_values(text, refusal)?;
    text.push('\n')?;
    Ok(())
}

fn push_values(text: &mut String, refusal: WireRefusal) -> Result<(), OutOfMemory>
    ensures { OnOk result (string_bytes text.new ≡ string_bytes text.old ++ values_text refusal) }
{
    match refusal {
        WireRefusal::Magic(place) | WireRefusal::Order(place) => push_number(text, place as u64),
        WireRefusal::Version(byte) | WireRefusal::Kind(byte) | WireRefusal::Flags(byte) => {
            push_number(text, u64::from(byte))
        }
        WireRefusal::Length { kind, length } => {
            write!(text, "{kind} {length}")?;
            Ok(())
        }
        WireRefusal::Count(count) => push_number(text, u64::from(count)),
    }
}

fn push_number(text: &mut String, number: u64) -> Result<(), OutOfMemory>
    ensures { OnOk result (string_bytes text.new ≡ string_bytes text.old ++ decimal number) }
{
    write!(text, "{number}")?;
    Ok(())
}

/// The line where the input ends within a frame.
pub fn push_short(text: &mut String, place: usize, lack: usize) -> Result<(), OutOfMemory>
    ensures { OnOk result (string_bytes text.new ≡ string_bytes text.old ++ short_line place lack) }
{
    writeln!(text, "bad {place} {SHORT} {lack}")?;
    Ok(())
}

/// The line where a byte too many comes.
pub fn push_limit(text: &mut String) -> Result<(), OutOfMemory>
    ensures { OnOk result (string_bytes text.new ≡ string_bytes text.old ++ limit_line) }
{
    writeln!(text, "bad {MOST_BYTES} {LIMIT} {MOST_BYTES}")?;
    Ok(())
}

/// The line at the end of whole frames.
pub fn push_count(text: &mut String, count: usize) -> Result<(), OutOfMemory>
    ensures { OnOk result (string_bytes text.new ≡ string_bytes text.old ++ count_line count) }
{
    writeln!(text, "frames {count}")?;
    Ok(())
}
