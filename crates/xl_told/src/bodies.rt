// What a frame says, added to a text.
ghost use Rattle.std.specs.Prelude.{◌≡◌, ◌++◌, OnOk};
ghost use Rattle.std.specs.String.{string_bytes};
ghost use Rattle.xl_ledger.specs.Headers.{header_id};
ghost use Rattle.xl_told.specs.Bodies.{body_text, header_text, said_text};
ghost use Rattle.xl_wire.specs.Frames.{decoded_of};

use crate::hashed::Hashed;
use crate::words::{
    push_id, push_number, push_numbered, push_proposal, push_set_id, push_tx, push_validation,
};
use xl_base::{LedgerId, OutOfMemory};
use xl_ledger::{Header, read_header};
use xl_sched::Reader;
use xl_wire::{Body, Decoded, Ids, decode};

fn push_header(
    text: &mut String,
    reader: &Reader,
    hashed: &mut Hashed,
    header: &Header,
    id: &LedgerId,
) -> Result<(), OutOfMemory>
    requires { id.now ≡ header_id header.now }
    ensures { OnOk result (string_bytes text.new
        ≡ string_bytes text.old ++ header_text reader.now.names header.now) }
{
    push_numbered(text, "header ", u64::from(header.seq))?;
    text.push(' ')?;
    push_id(text, reader, hashed, id)?;
    text.push(' ')?;
    push_id(text, reader, hashed, &header.parent)?;
    push_numbered(text, " ", u64::from(header.close))
}

fn push_set(
    text: &mut String,
    reader: &Reader,
    hashed: &mut Hashed,
    ids: &Ids<'_>,
) -> Result<(), OutOfMemory>
    ensures { OnOk result (string_bytes text.new
        ≡ string_bytes text.old ++ body_text reader.now.names (Body.TxSet ids.now)) }
{
    push_numbered(text, "set ", ids.len() as u64)?;
    text.push(' ')?;
    let id = hashed.set_id(ids)?;
    push_set_id(text, reader, hashed, &id)
}

/// What a body says.
pub fn push_body(
    text: &mut String,
    reader: &Reader,
    hashed: &mut Hashed,
    body: &Body<'_>,
) -> Result<(), OutOfMemory>
    ensures { OnOk result (string_bytes text.new ≡ string_bytes text.old ++ body_text reader.now.names body.now) }
{
    match body {
        Body::Proposal(proposal) => {
            text.push_str("proposal ")?;
            push_proposal(text, reader, hashed, proposal)
        }
        Body::Validation(validation) => {
            text.push_str("validation ")?;
            push_validation(text, reader, hashed, validation)
        }
        Body::Header(bytes) => {
            let id = hashed.header_id(bytes);
            push_header(text, reader, hashed, &read_header(bytes), &id)
        }
        Body::TxSet(ids) => push_set(text, reader, hashed, ids),
        Body::Tx(id) => {
            text.push_str("tx ")?;
            push_tx(text, reader, hashed, id)
        }
    }
}

/// What the bytes of a frame say.
pub fn push_said(
    text: &mut String,
    reader: &Reader,
    hashed: &mut Hashed,
    bytes: &[u8],
) -> Result<(), OutOfMemory>
    ensures { OnOk result (string_bytes text.new
        ≡ string_bytes text.old ++ said_text reader.now.names (decoded_of bytes.now)) }
{
    match decode(bytes) {
        Decoded::Whole(frame, _) => push_body(text, reader, hashed, &frame.body),
        Decoded::Need(_) | Decoded::Refused(_) => Ok(text.push_str("none")?),
    }
}
