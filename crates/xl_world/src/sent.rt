// What was sent: every frame of every node, as its bytes.
ghost use Rattle.std.specs.Prelude.{◌≡◌, ◌≤◌, ◌++◌, IfOk, IfSome, IsTrue, ℕ, length, take};
ghost use Rattle.std.specs.Str.{bytes_eq};
ghost use Rattle.xl_core.specs.Hearing.{bytes_as_sealed};
ghost use Rattle.xl_tags.specs.Rings.{schedule_ring};
ghost use Rattle.xl_tags.specs.Sealing.{before_tag};
ghost use Rattle.xl_wire.specs.Lengths.{longest_frame};
ghost use Rattle.xl_world.specs.Indexes.{tag_in};
ghost use Rattle.xl_world.specs.Sending.{IsTag, with_address, body_said, said_to, sent_as};
ghost use Rattle.xl_world.specs.Worlds.{kept_seen};

use crate::lie::put_blank;
use crate::said::Said;
use std::alloc::Global;
use std::marker::Model;
use xl_base::{Bytes, NodeNo, OutOfMemory, put};
use xl_tags::{hmac, pair_key};
use xl_wire::{LONGEST_FRAME, Parted, split};

/// Where a frame has the last byte of its receiver's number. What is said to several differs there alone, until it is
/// sealed.
pub(crate) const ADDRESS: usize = 13;

/// A frame that a node has sent to one receiver, sealed under the key that the schedule gives the two.
///
/// Its tag is computed when it is looked at: what is kept of the frame may have any.
#[derive(Drop)]
pub struct Sent<'a> {
    from: NodeNo,
    to: NodeNo,
    kept: KeptFrame<'a>,
}

/// What is kept of a frame.
#[derive(Clone, Copy)]
pub enum KeptFrame<'a> {
    Bytes {
        /// The frame with any tag, and any byte at `ADDRESS`.
        kept: &'a [u8],
        /// The byte there.
        address: u8,
    },
    Said(&'a Said),
}

impl<'a> Model for Sent<'a> {
    ghost use Rattle.xl_world.specs.Sending.{Sent as TheSent};

    ghost Value = { TheSent };

    ghost use Rattle.xl_world.specs.Worlds.{IsShort, sent_seen};

    ghost view = { sent_seen };

    ghost invariant = { λ f. IsShort f };
}

impl<'a> Sent<'a> {
    /// A sent frame, of which these bytes are kept but for this one.
    pub(crate) fn new(from: NodeNo, to: NodeNo, kept: &'a [u8], address: u8) -> Sent<'a>
        requires short { length kept.now ≤ longest_frame }
        ensures { result ≡ sent_as from to (with_address address kept.now) }
    {
        Sent {
            from,
            to,
            kept: KeptFrame::Bytes { kept, address },
        }
    }

    /// A sent frame that says this.
    pub(crate) fn saying(from: NodeNo, to: NodeNo, said: &'a Said) -> Sent<'a>
        ensures { result ≡ said_to from to (body_said said.now) }
    {
        Sent {
            from,
            to,
            kept: KeptFrame::Said(said),
        }
    }

    /// What it says, if that is kept in place of bytes.
    pub fn said(&self) -> Option<&'a Said>
        ensures { IfSome result (λ said. self.now ≡ said_to self.now.from self.now.to (body_said said.now)) }
    {
        match self.kept {
            KeptFrame::Said(said) => Some(said),
            KeptFrame::Bytes { .. } => None,
        }
    }

    /// Who sent it.
    pub fn from(&self) -> NodeNo
        ensures { result ≡ self.now.from }
    {
        self.from
    }

    /// Whom it was sent to.
    pub fn to(&self) -> NodeNo
        ensures { result ≡ self.now.to }
    {
        self.to
    }

    /// Writes the frame with any tag to the front of a room, and answers how many bytes it has.
    pub fn put(&self, room: &mut [u8; LONGEST_FRAME]) -> usize
        ensures within { result ≤ longest_frame }
        ensures kept { self.now ≡ sent_as self.now.from self.now.to (take result room.new) }
    {
        match self.kept {
            KeptFrame::Bytes { kept, address } => put_kept(kept, address, room),
            KeptFrame::Said(said) => put_blank(self.from, self.to, said.body(), &mut *room),
        }
    }

    /// Its tag, if it is a frame. The room is written over.
    pub(crate) fn tag(&self, room: &mut [u8; LONGEST_FRAME]) -> Option<[u8; 32]>
        ensures { IfSome result (λ tag. tag ≡ tag_in self.now.bytes) }
    {
        let length = self.put(&mut *room);
        tag_for(self.to, &room[..length])
    }

    /// Whether another one has the same bytes, by what is kept of them.
    pub(crate) fn is_again(&self, other: &Sent<'_>) -> bool
        ensures { IsTrue result → self.now.bytes ≡ other.now.bytes }
    {
        if self.from != other.from || self.to != other.to {
            return false;
        }
        is_kept_again(&self.kept, &other.kept)
    }

    /// Whether these are its bytes.
    pub fn is(&self, bytes: &[u8]) -> bool
        ensures { result ≡ bytes_eq self.now.bytes bytes.now }
    {
        let mut room = [0; LONGEST_FRAME];
        let length = self.put(&mut room);
        is_sealed_as(self.to, &room[..length], bytes)
    }

    /// Its bytes, in memory of their own.
    pub fn bytes(&self, alloc: Global) -> Result<Bytes, OutOfMemory>
        ensures { IfOk result (λ bytes. bytes ≡ self.now.bytes) }
    {
        let mut room = [0; LONGEST_FRAME];
        let length = self.put(&mut room);
        sealed_bytes(alloc, self.to, &room[..length])
    }
}

/// Writes what is kept of a frame, with its byte at `ADDRESS`, to the front of a room. Answers how many bytes it has.
fn put_kept(kept: &[u8], address: u8, room: &mut [u8; LONGEST_FRAME]) -> usize
    requires short { length kept.now ≤ longest_frame }
    ensures within { result ≤ longest_frame }
    ensures written { take result room.new ≡ with_address address kept.now }
{
    put(room, 0, kept);
    room[ADDRESS] = address;
    kept.len()
}

/// Whether what is kept of two frames between the same two is the same.
fn is_kept_again(one: &KeptFrame<'_>, other: &KeptFrame<'_>) -> bool
    ensures { IsTrue result → (from to : ℕ) → kept_seen from to one.now ≡ kept_seen from to other.now }
{
    match (one, other) {
        (
            KeptFrame::Bytes {
                kept: first,
                address: own,
            },
            KeptFrame::Bytes { kept, address },
        ) => own == address && is_same_to_others(first, kept),
        (KeptFrame::Said(first), KeptFrame::Said(said)) => first.is(said),
        _ => false,
    }
}

/// Whether two frames differ by their byte at `ADDRESS` at most. What is too short for one is no frame.
pub(crate) fn is_same_to_others(one: &[u8], other: &[u8]) -> bool
    ensures { IsTrue result → (address : ℕ) → with_address address one.now ≡ with_address address other.now }
{
    if one.len() != other.len() || one.len() <= ADDRESS {
        return false;
    }
    one[..ADDRESS] == other[..ADDRESS] && one[ADDRESS + 1..] == other[ADDRESS + 1..]
}

/// Whether these are the bytes of a frame to this receiver, of which those are kept.
fn is_sealed_as(to: NodeNo, kept: &[u8], bytes: &[u8]) -> bool
    ensures { result ≡ bytes_eq (bytes_as_sealed (schedule_ring to) kept.now) bytes.now }
{
    match tag_for(to, kept) {
        Some(tag) => is_joined(before_tag(kept), &tag, bytes),
        None => kept == bytes,
    }
}

/// The bytes of a frame to this receiver, of which these are kept.
fn sealed_bytes(alloc: Global, to: NodeNo, kept: &[u8]) -> Result<Bytes, OutOfMemory>
    ensures { IfOk result (λ bytes. bytes ≡ bytes_as_sealed (schedule_ring to) kept.now) }
{
    match tag_for(to, kept) {
        Some(tag) => joined(alloc, before_tag(kept), &tag),
        None => joined(alloc, kept, &[]),
    }
}

/// All of these bytes but the last 32.
fn before_tag(bytes: &[u8]) -> &[u8]
    ensures { result.now ≡ before_tag bytes.now }
{
    &bytes[..bytes.len().saturating_sub(32)]
}

/// These bytes, one behind the other.
fn joined(alloc: Global, front: &[u8], last: &[u8]) -> Result<Bytes, OutOfMemory>
    ensures { IfOk result (λ bytes. bytes ≡ front.now ++ last.now) }
{
    let mut bytes = Vec::from_slice(alloc, front)?;
    bytes.extend_from_slice(last)?;
    Ok(Bytes::from_vec(bytes))
}

/// Whether the bytes are these, one behind the other.
fn is_joined(front: &[u8], last: &[u8], bytes: &[u8]) -> bool
    ensures { result ≡ bytes_eq (front.now ++ last.now) bytes.now }
{
    if bytes.len() < front.len() {
        return false;
    }
    let first = &bytes[..front.len()];
    let rest = &bytes[front.len()..];
    first == front && rest == last
}

/// The tag that a frame to this receiver has, of which these bytes are kept, unless they are no frame.
fn tag_for(to: NodeNo, kept: &[u8]) -> Option<[u8; 32]>
    ensures { IsTag to kept.now result }
{
    let Parted::Whole(raw) = split(kept) else {
        return None;
    };
    if raw.length < kept.len() {
        return None;
    }
    match NodeNo::new(raw.from) {
        Some(from) if from != to => Some(hmac(&pair_key(to, from), before_tag(kept))),
        _ => Some(raw.tag),
    }
}
