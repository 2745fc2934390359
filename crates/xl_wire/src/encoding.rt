ghost use Rattle.std.specs.Prelude.{◌≡◌, ◌+◌, ◌*◌, ◌^◌, ◌<◌, ◌≤◌, [], ◌∷◌, ◌++◌, length, take, drop, IfSome};
ghost use Rattle.byteorder.specs.Endian.{big_bytes};
ghost use Rattle.xl_wire.specs.Bodies.{IsBody, IsProposal, IsValidation, IsTxSet, body_bytes, flags_of, version_for, version_of, kind_of, proposal_bytes, validation_bytes, validated_bytes, vote_bytes, set_bytes};
ghost use Rattle.xl_wire.specs.Frames.{Spells};
ghost use Rattle.xl_base.specs.Putting.{Puts};
ghost use Rattle.xl_wire.specs.Writing.{body_length, frame_length, validated_length};

use crate::kinds::{FIRST, HEADER, PROPOSAL, SECOND, TX, TX_SET, VALIDATION};
use crate::lengths::{AROUND, COUNT, HEAD, HEADER_BODY, ID, PROPOSAL_BODY, VALIDATION_BODY};
use crate::{Body, Frame, Ids, Proposal, Validation};
use xl_base::{LedgerId, put, put_field, put_u16, put_u32};

/// Writes the frame's one spelling at the front of the room, answers its length, and leaves the rest.
pub fn encode(frame: &Frame<'_>, room: &mut [u8]) -> usize
    requires { frame_length frame.now ≤ length room.old }
    ensures long { result ≡ frame_length frame.now }
    ensures spelled { Spells frame.now (take result room.new) }
    ensures rest { drop result room.new ≡ drop result room.old }
{
    let length = frame.body.len();
    put_head(
        room,
        version_of(&frame.body),
        kind_of(&frame.body),
        length as u16,
    );
    put_u32(room, 6, frame.from);
    put_u32(room, 10, frame.to);
    put_body(room, &frame.body);
    put_field(room, HEAD + length, &frame.tag);
    AROUND + length
}

/// The version in which a validation is that tells this.
fn version_for(validated: &Option<LedgerId>) -> u8
    ensures { result ≡ version_for validated.now }
{
    match validated {
        Some(_) => SECOND,
        None => FIRST,
    }
}

fn version_of(body: &Body<'_>) -> u8
    ensures { result ≡ version_of body.now }
{
    match body {
        Body::Validation(validation) => version_for(&validation.validated),
        _ => FIRST,
    }
}

fn kind_of(body: &Body<'_>) -> u8
    ensures { result ≡ kind_of body.now }
{
    match body {
        Body::Proposal(_) => PROPOSAL,
        Body::Validation(_) => VALIDATION,
        Body::Header(_) => HEADER,
        Body::TxSet(_) => TX_SET,
        Body::Tx(_) => TX,
    }
}

/// The mark, the version, the kind, and the body's length.
fn put_head(room: &mut [u8], version: u8, kind: u8, body_length: u16)
    requires { 6 ≤ length room.old }
    ensures { Puts 0 ((0x58 ∷ 0x4C ∷ version ∷ kind ∷ []) ++ big_bytes 2 body_length) room.old room.new }
{
    put(room, 0, &[0x58, 0x4C, version, kind]);
    put_u16(room, 4, body_length);
}

fn put_body(room: &mut [u8], body: &Body<'_>)
    requires { HEAD + body_length body.now ≤ length room.old }
    ensures puts { Puts HEAD (body_bytes body.now) room.old room.new }
    ensures fits { IsBody body.now }
{
    match body {
        Body::Proposal(proposal) => put_proposal(room, proposal),
        Body::Validation(validation) => put_validation(room, validation),
        Body::Header(header) => put_header(room, header),
        Body::TxSet(ids) => put_set(room, ids),
        Body::Tx(id) => put_field(room, HEAD, &id.0),
    }
}

fn put_proposal(room: &mut [u8], proposal: &Proposal)
    requires { HEAD + PROPOSAL_BODY ≤ length room.old }
    ensures puts { Puts HEAD (proposal_bytes proposal.now) room.old room.new }
    ensures fits { IsProposal proposal.now }
{
    put_field(room, HEAD, &proposal.prev.0);
    put_field(room, HEAD + 32, &proposal.set.0);
    put_u32(room, HEAD + 64, proposal.pseq);
    put_u32(room, HEAD + 68, proposal.close);
    put_u32(room, HEAD + 72, proposal.time);
}

fn put_validation(room: &mut [u8], validation: &Validation)
    requires { HEAD + (VALIDATION_BODY + validated_length validation.now.validated) ≤ length room.old }
    ensures puts { Puts HEAD (validation_bytes validation.now) room.old room.new }
    ensures fits { IsValidation validation.now }
{
    put_vote(room, validation);
    put_validated(room, &validation.validated);
}

/// What both versions have of a validation.
fn put_vote(room: &mut [u8], validation: &Validation)
    requires { HEAD + VALIDATION_BODY ≤ length room.old }
    ensures puts { Puts HEAD (vote_bytes validation.now) room.old room.new }
    ensures id { length validation.now.id.0 ≡ 32 }
    ensures seq { validation.now.seq < 2 ^ 32 }
    ensures signed { validation.now.signed < 2 ^ 32 }
{
    put_field(room, HEAD, &validation.id.0);
    put_u32(room, HEAD + 32, validation.seq);
    put_u32(room, HEAD + 36, validation.signed);
    put(room, HEAD + 40, &[flags_of(validation.full)]);
}

fn put_validated(room: &mut [u8], validated: &Option<LedgerId>)
    requires { HEAD + VALIDATION_BODY + validated_length validated.now ≤ length room.old }
    ensures puts { Puts (HEAD + VALIDATION_BODY) (validated_bytes validated.now) room.old room.new }
    ensures fits { IfSome validated.now (λ id. length id.0 ≡ 32) }
{
    if let Some(id) = validated {
        put_field(room, HEAD + VALIDATION_BODY, &id.0);
    }
}

fn flags_of(full: bool) -> u8
    ensures { result ≡ flags_of full }
{
    if full { 1 } else { 0 }
}

fn put_header(room: &mut [u8], header: &[u8; 118])
    requires { HEAD + HEADER_BODY ≤ length room.old }
    ensures puts { Puts HEAD header.now room.old room.new }
    ensures fits { length header.now ≡ 118 }
{
    put(room, HEAD, header);
}

fn put_set(room: &mut [u8], ids: &Ids<'_>)
    requires { HEAD + (2 + 32 * length ids.now) ≤ length room.old }
    ensures puts { Puts HEAD (set_bytes ids.now) room.old room.new }
    ensures fits { IsTxSet ids.now }
{
    put_u16(room, HEAD, ids.len() as u16);
    for i in 0..ids.len() {
        put_field(room, HEAD + COUNT + ID * i, &ids.get(i).0);
    }
}
