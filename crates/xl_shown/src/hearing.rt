// What is heard in the bytes that come.
ghost use Rattle.std.specs.Prelude.{◌≡◌};
ghost use Rattle.xl_core.specs.Deeds.{answer_of};
ghost use Rattle.xl_core.specs.Hearing.{BeginsWith, speech_of};
ghost use Rattle.xl_shown.specs.Showing.{IsHeardIfAny, MayHear, frame_in as frame_in_event, heard_unless_refused, hears_nothing_by, said_in_speech};
ghost use Rattle.xl_tags.specs.Opening.{HasKeys};
ghost use Rattle.xl_wire.specs.Raws.{raw_frame};

use std::alloc::Global;
use xl_audit::AuditedCore;
use xl_base::{Bytes, NodeNo};
use xl_core::{CoreAnswer, CoreEvent, Refusal};
use xl_lists::{List, SaidLedger};
use xl_tags::{Keys, open_as_sealed};
use xl_wire::{Body, Parted, Raw, read_body, split};

/// A frame that is heard: it has the right tag, and comes from a listed member.
#[derive(Clone, Copy, PartialEq, Eq)]
pub struct Heard {
    pub from: NodeNo,
    /// The validation in it, if it is one.
    pub said: Option<SaidLedger>,
}

/// The validation that a body is, if it is one.
fn said_in(from: NodeNo, body: &Body<'_>) -> Option<SaidLedger>
    ensures { result ≡ said_in_speech from (speech_of body.now) }
{
    match body {
        Body::Validation(v) => Some(SaidLedger {
            member: from,
            seq: v.seq,
            id: v.id,
        }),
        _ => None,
    }
}

/// What is heard in the frame with which the bytes begin, if its tag is right.
fn heard_frame(keys: &Keys, list: &List, raw: &Raw<'_>, bytes: &[u8]) -> Option<Heard>
    requires begins { BeginsWith (raw_frame raw.now) bytes.now }
    requires keyed { HasKeys keys.now list.now.members }
    ensures { IsHeardIfAny keys.now list.now.members bytes.now result }
{
    if raw.length < bytes.len() {
        return None;
    }
    match open_as_sealed(keys, list, raw) {
        Ok(from) => match read_body(raw) {
            Ok(body) => Some(Heard {
                from,
                said: said_in(from, &body),
            }),
            Err(_) => None,
        },
        Err(_) => None,
    }
}

fn heard_bytes(keys: &Keys, list: &List, bytes: &[u8]) -> Option<Heard>
    requires keyed { HasKeys keys.now list.now.members }
    ensures { IsHeardIfAny keys.now list.now.members bytes.now result }
{
    match split(bytes) {
        Parted::Whole(raw) => heard_frame(keys, list, &raw, bytes),
        Parted::Need(_) => None,
        Parted::Refused(_) => None,
    }
}

/// The bytes that come.
pub fn frame_in(alloc: Global, event: CoreEvent) -> Bytes
    ensures { result ≡ frame_in_event event }
{
    match event {
        CoreEvent::Frame { bytes, .. } => bytes,
        _ => Bytes::from_vec(Vec::new(alloc)),
    }
}

/// What a core hears in an event if the tag of the frame is right, which isn't looked at here.
pub fn heard_if_sealed(core: &AuditedCore, event: &CoreEvent) -> Option<Heard>
    ensures { MayHear core.now event.now result }
{
    let node = core.node();
    match event {
        CoreEvent::Frame { bytes, .. } => heard_bytes(node.keys(), node.list(), bytes.as_slice()),
        _ => None,
    }
}

/// Whether a core refused an event for what nothing is heard in.
fn hears_nothing(answer: &CoreAnswer) -> bool
    ensures { result ≡ hears_nothing_by (answer_of answer.now) }
{
    match answer {
        CoreAnswer::Refused(
            Refusal::Frame(_) | Refusal::Short(_) | Refusal::Extra(_) | Refusal::Tag(_),
        ) => true,
        _ => false,
    }
}

/// What a core heard, by what it answered: that it doesn't refuse the tag.
pub fn heard_by_answer(may_hear: Option<Heard>, answer: &CoreAnswer) -> Option<Heard>
    ensures { result ≡ heard_unless_refused may_hear (answer_of answer.now) }
{
    if hears_nothing(answer) {
        None
    } else {
        may_hear
    }
}
