// What a node makes of bytes, before any row is asked.
ghost use Rattle.std.specs.Prelude.{◌≡◌, IfOk};
ghost use Rattle.std.specs.Result.{result_err};
ghost use Rattle.xl_tags.specs.Opening.{HasKeys, refusal_of};
ghost use Rattle.xl_wire.specs.Raws.{SpellsRaw, raw_frame};
ghost use Rattle.xl_wire.specs.Bodies.{body_of};
ghost use Rattle.xl_core.specs.Hearing.{bytes_with, frame_with, spoken_in, BeginsWith};
ghost use Rattle.xl_core.specs.Replies.{IsOpened};

use crate::Refusal;
use crate::taken::Heard;
use xl_base::{NodeNo, TxId};
use xl_ledger::Header;
use xl_lists::List;
use xl_tags::{Keys, TagRefusal, open_as_sealed, open_raw};
use xl_wire::{Ids, Proposal, Raw, Validation};

/// What members say, as contracts speak of it. The code takes it from the body of a frame where that was read.
#[derive(Drop)]
pub enum Speech<'a> {
    Validation(Validation),
    Header(Header),
    Proposal(Proposal),
    TxSet(Ids<'a>),
    Tx(TxId),
}

/// What a frame says, and the member that says it.
#[derive(Drop)]
pub struct Spoken<'a> {
    pub from: NodeNo,
    pub what: Speech<'a>,
}

/// How the tag of a frame is taken.
#[derive(Clone, Copy)]
pub enum Tags {
    /// As it is: it is to be the one under our key.
    Tested,
    /// As the one under our key, whatever it is.
    Assumed,
}

/// Opens the frame with which the bytes begin, and answers who sent it. If it answers None, it writes why.
///
/// Refused if more bytes follow it, or if it isn't opened, in this order.
pub fn opened(
    keys: &Keys,
    list: &List,
    tags: Tags,
    raw: &Raw<'_>,
    bytes: &[u8],
    heard: &mut Result<Heard, Refusal>,
) -> Option<NodeNo>
    requires begins { BeginsWith (raw_frame raw.now) bytes.now }
    requires keyed { HasKeys keys.now list.now.members }
    ensures { IsOpened (spoken_in keys.now list.now.members (bytes_with tags keys.now bytes.now))
        (body_of raw.now.kind raw.now.body.now) result heard.new }
{
    if raw.length < bytes.len() {
        *heard = Err(Refusal::Extra(bytes.len() - raw.length));
        return None;
    }
    match open(keys, list, tags, raw, bytes) {
        Ok(from) => Some(from),
        Err(why) => {
            *heard = Err(Refusal::Tag(why));
            None
        }
    }
}

/// Opens a whole frame, and answers who sent it.
fn open(
    keys: &Keys,
    list: &List,
    tags: Tags,
    raw: &Raw<'_>,
    bytes: &[u8],
) -> Result<NodeNo, TagRefusal>
    requires whole { SpellsRaw (raw_frame raw.now) bytes.now }
    requires keyed { HasKeys keys.now list.now.members }
    ensures refusal { result_err result
        ≡ refusal_of keys.now list.now.members (frame_with tags keys.now (raw_frame raw.now)) }
    ensures sender { IfOk result (λ member. member ≡ raw.now.from) }
{
    match tags {
        Tags::Tested => open_raw(keys, list, raw, bytes),
        Tags::Assumed => open_as_sealed(keys, list, raw),
    }
}
