// Whether bytes were sent, without a walk over all that was sent.
ghost use Rattle.std.specs.Prelude.{◌≡◌, ◌+◌, ◌≤◌, ◌<◌, None, length, true, false, IfSome};
ghost use Rattle.xl_world.specs.Indexes.{tag_in, is_at, IsIndex};
ghost use Rattle.xl_world.specs.Forgeries.{was_sent};

use crate::Sent;
use crate::frames::{SentFrames, is_at, was_sent};
use std::alloc::Global;
use std::collections::BTreeMap;
use xl_wire::LONGEST_FRAME;

/// Where sent frames stand by their tags: the first of each tag.
///
/// Frames are added when bytes are looked up, so that a schedule that hands in no bytes pays nothing. A frame that was
/// sent again is found where it was sent first. Where two different frames have one tag, or memory runs out, the
/// index is given up, and all frames are looked at.
#[derive(Drop)]
pub struct TagIndex {
    places: BTreeMap<[u8; 32], usize>,
    /// How many of the first frames it has.
    indexed: usize,
    given_up: bool,
}

impl TagIndex {
    pub fn new(alloc: Global) -> TagIndex
        ensures none { result.indexed ≡ 0 }
    {
        TagIndex {
            places: BTreeMap::new(alloc),
            indexed: 0,
            given_up: false,
        }
    }

    /// It is given up, and says nothing of any frame.
    pub fn give_up(&mut self)
        ensures given_up { self.new.given_up ≡ true }
        ensures none { self.new.indexed ≡ 0 }
    {
        self.indexed = 0;
        self.given_up = true;
    }

    /// Whether these bytes were sent. The room is written over.
    pub fn has(&mut self, sent: &SentFrames, bytes: &[u8], room: &mut [u8; LONGEST_FRAME]) -> bool
        requires { IsIndex self.old sent.now }
        ensures value { result ≡ was_sent sent.now bytes.now }
        ensures index { IsIndex self.new sent.now }
        // No frame is indexed twice.
        ensures later { self.old.indexed ≤ self.new.indexed }
    {
        self.extend(sent, room);
        match tag_of(bytes) {
            Some(tag) if !self.given_up => self.finds(sent, bytes, &tag),
            _ => was_sent(sent, bytes),
        }
    }

    /// Whether the first frame of this tag is these bytes.
    fn finds(&self, sent: &SentFrames, bytes: &[u8], tag: &[u8; 32]) -> bool
        requires index { IsIndex self.now sent.now }
        requires kept { self.now.given_up ≡ false }
        requires all { self.now.indexed ≡ length sent.now }
        requires tag { tag.now ≡ tag_in bytes.now }
        ensures { result ≡ was_sent sent.now bytes.now }
    {
        let Some(&place) = self.places.get(tag) else {
            return false;
        };
        is_at(sent, place, bytes)
    }

    /// Adds the frames that it hasn't, unless it is given up.
    fn extend(&mut self, sent: &SentFrames, room: &mut [u8; LONGEST_FRAME])
        requires { IsIndex self.old sent.now }
        ensures index { IsIndex self.new sent.now }
        ensures all { self.new.given_up ≡ false → self.new.indexed ≡ length sent.now }
        ensures later { self.old.indexed ≤ self.new.indexed }
    {
        while !self.given_up && self.indexed < sent.len() {
            self.add(sent, room);
        }
    }

    /// Adds the next frame, or gives the index up.
    fn add(&mut self, sent: &SentFrames, room: &mut [u8; LONGEST_FRAME])
        requires index { IsIndex self.old sent.now }
        requires more { self.old.indexed < length sent.now }
        requires kept { self.old.given_up ≡ false }
        ensures index { IsIndex self.new sent.now }
        ensures added { self.new.given_up ≡ false → self.new.indexed ≡ self.old.indexed + 1 }
        ensures same { self.new.given_up ≡ true → self.new.indexed ≡ self.old.indexed }
        ensures later { self.old.indexed ≤ self.new.indexed }
    {
        // A place below a count of frames, so the next one is a place too.
        let _count = sent.len();
        let place = self.indexed;
        let Some(frame) = sent.get(place) else {
            self.given_up = true;
            return;
        };
        let Some(tag) = frame.tag(room) else {
            self.given_up = true;
            return;
        };
        if let Some(&first) = self.places.get(&tag) {
            if is_again(sent, first, &frame) {
                self.indexed = place + 1;
            } else {
                self.given_up = true;
            }
            return;
        }
        match self.places.insert(tag, place) {
            Ok(_) => self.indexed = place + 1,
            Err(_) => self.given_up = true,
        }
    }
}

/// Whether the frame of a place, from 0 on, is this one again.
fn is_again(sent: &SentFrames, place: usize, frame: &Sent<'_>) -> bool
    ensures { result ≡ true → is_at sent.now place frame.now.bytes ≡ true }
{
    match sent.get(place) {
        Some(first) => first.is_again(frame),
        None => false,
    }
}

/// The last 32 bytes, if there are that many.
fn tag_of(bytes: &[u8]) -> Option<[u8; 32]>
    ensures some { IfSome result (λ tag. tag ≡ tag_in bytes.now) }
    ensures none { result ≡ None → length bytes.now < 32 }
{
    if bytes.len() < 32 {
        return None;
    }
    let mut tag = [0; 32];
    tag.copy_from_slice(&bytes[bytes.len() - 32..]);
    Some(tag)
}
