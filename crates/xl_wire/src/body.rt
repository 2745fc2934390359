ghost use Rattle.std.specs.Prelude.{◌≡◌, ◌↔◌, IsTrue, Ok, length};
ghost use Rattle.xl_wire.specs.Bodies.{body_of, proposal_in, validation_in, validated_in, flags_refusal, version_of, SpellsBody};
ghost use Rattle.xl_wire.specs.declared.body.Body.{Body};
ghost use Rattle.xl_base.specs.Refusals.{unless_refused};
ghost use Rattle.xl_wire.specs.Kinds.{can_hold};

use crate::kinds::{HEADER, PROPOSAL, TX_SET, VALIDATION};
use crate::lengths::VALIDATION_BODY;
use crate::{Ids, Proposal, Raw, Validation, WireRefusal};
use byteorder::{BigEndian, ByteOrder};
use xl_base::{LedgerId, SetId, TxId, bytes_at};

/// What a frame says.
#[derive(Drop)]
pub enum Body<'a> {
    Proposal(Proposal),
    Validation(Validation),
    /// A ledger's header, as its bytes.
    Header([u8; 118]),
    TxSet(Ids<'a>),
    Tx(TxId),
}

/// Reads the body of a frame, or tells why it is refused: Flags, Count or Order.
pub fn read_body<'a>(raw: &Raw<'a>) -> Result<Body<'a>, WireRefusal>
    ensures exact { result ≡ body_of raw.now.kind raw.now.body.now }
    // What is read is what the bytes spell.
    ensures whole { (body : Body) → (result ≡ Ok body) ↔ SpellsBody body raw.now.kind raw.now.body.now }
    // Of version 2 are the validations that tell what their sender last reported, and nothing else.
    ensures version { (body : Body) → result ≡ Ok body → raw.now.version ≡ version_of body }
{
    read(raw.kind, raw.body)
}

fn read(kind: u8, bytes: &[u8]) -> Result<Body<'_>, WireRefusal>
    requires { IsTrue (can_hold kind (length bytes.now)) }
    ensures exact { result ≡ body_of kind bytes.now }
    ensures whole { (body : Body) → (result ≡ Ok body) ↔ SpellsBody body kind bytes.now }
{
    read_kind(kind, bytes)
}

fn read_kind(kind: u8, bytes: &[u8]) -> Result<Body<'_>, WireRefusal>
    requires { IsTrue (can_hold kind (length bytes.now)) }
    ensures { result ≡ body_of kind bytes.now }
{
    match kind {
        PROPOSAL => Ok(Body::Proposal(read_proposal(bytes))),
        VALIDATION => Ok(Body::Validation(read_validation(bytes)?)),
        HEADER => Ok(Body::Header(read_header(bytes))),
        TX_SET => Ok(Body::TxSet(Ids::read(bytes)?)),
        _ => Ok(Body::Tx(TxId(bytes_at(bytes, 0)))),
    }
}

fn read_proposal(bytes: &[u8]) -> Proposal
    requires { length bytes.now ≡ 76 }
    ensures { result ≡ proposal_in bytes.now }
{
    Proposal {
        prev: LedgerId(bytes_at(bytes, 0)),
        set: SetId(bytes_at(bytes, 32)),
        pseq: BigEndian::read_u32(&bytes[64..]),
        close: BigEndian::read_u32(&bytes[68..]),
        time: BigEndian::read_u32(&bytes[72..]),
    }
}

fn read_validation(bytes: &[u8]) -> Result<Validation, WireRefusal>
    requires { IsTrue (can_hold 2 (length bytes.now)) }
    ensures { result ≡ unless_refused (flags_refusal bytes.now) (validation_in bytes.now) }
{
    let flags = bytes[40];
    if flags > 1 {
        return Err(WireRefusal::Flags(flags));
    }
    Ok(Validation {
        id: LedgerId(bytes_at(bytes, 0)),
        seq: BigEndian::read_u32(&bytes[32..]),
        signed: BigEndian::read_u32(&bytes[36..]),
        full: flags == 1,
        validated: read_validated(bytes),
    })
}

fn read_validated(bytes: &[u8]) -> Option<LedgerId>
    requires { IsTrue (can_hold 2 (length bytes.now)) }
    ensures { result ≡ validated_in bytes.now }
{
    if bytes.len() > VALIDATION_BODY {
        Some(LedgerId(bytes_at(bytes, VALIDATION_BODY)))
    } else {
        None
    }
}

fn read_header(bytes: &[u8]) -> [u8; 118]
    requires { length bytes.now ≡ 118 }
    ensures { result ≡ bytes.now }
{
    let mut header = [0; 118];
    header.copy_from_slice(bytes);
    header
}
