// All that was sent, and how much of it stands before the mark.
ghost use Rattle.std.specs.Prelude.{◌≡◌, ◌≤◌, [], length, slice_get, take, OnOk, OnErr};
ghost use Rattle.xl_wire.specs.Lengths.{longest_frame};
ghost use Rattle.xl_world.specs.Indexes.{Traffic as TheTraffic, with_frame};
ghost use Rattle.xl_world.specs.Forgeries.{was_sent};
ghost use Rattle.xl_world.specs.Sending.{body_said, said_to, sent_as};

use crate::Sent;
use crate::frames::SentFrames;
use crate::index::TagIndex;
use crate::said::Said;
use std::alloc::Global;
use std::marker::Model;
use xl_base::{NodeNo, OutOfMemory};
use xl_wire::LONGEST_FRAME;

/// The sent frames in order, the mark, and the index of the frames by their tags.
#[derive(Drop)]
pub struct Traffic {
    frames: SentFrames,
    /// How many frames stand before the mark.
    mark: usize,
    index: TagIndex,
}

impl Model for Traffic {
    ghost use Rattle.xl_world.specs.Indexes.{Traffic as TheTraffic};

    ghost Value = { TheTraffic };

    ghost use Rattle.xl_world.specs.Worlds.{traffic_seen, IsTraffic};

    ghost view = { traffic_seen };

    ghost invariant = { λ t. IsTraffic t };
}

impl Traffic {
    /// Nothing was sent.
    pub fn new(alloc: Global) -> Traffic
        ensures frames { result.frames ≡ [] }
        ensures mark { result.mark ≡ 0 }
    {
        Traffic {
            frames: SentFrames::new(alloc),
            mark: 0,
            index: TagIndex::new(alloc),
        }
    }

    /// Every sent frame, in order.
    pub fn sent(&self) -> &SentFrames
        ensures { result.now ≡ self.now.frames }
    {
        &self.frames
    }

    pub fn mark(&self) -> usize
        ensures value { result ≡ self.now.mark }
        ensures within { result ≤ length self.now.frames }
    {
        self.mark
    }

    /// The frame of a place, from 0 on.
    pub fn frame(&self, place: usize) -> Option<Sent<'_>>
        ensures { result ≡ slice_get self.now.frames place }
    {
        self.frames.get(place)
    }

    /// A frame is sent, of which these bytes are kept.
    pub fn push(&mut self, from: NodeNo, to: NodeNo, kept: &[u8]) -> Result<(), OutOfMemory>
        requires short { length kept.now ≤ longest_frame }
        ensures sent { OnOk result (self.new ≡ with_frame self.old (sent_as from to kept.now)) }
        ensures err { OnErr result (self.new ≡ self.old) }
    {
        self.frames.push(from, to, kept)?;
        Ok(())
    }

    /// A frame is sent that says this.
    pub fn push_said(&mut self, from: NodeNo, to: NodeNo, said: &Said) -> Result<(), OutOfMemory>
        ensures sent { OnOk result (self.new ≡ with_frame self.old (said_to from to (body_said said.now))) }
        ensures err { OnErr result (self.new ≡ self.old) }
    {
        self.frames.push_said(from, to, said)?;
        Ok(())
    }

    /// No more frames are kept than so many of the first, and the mark is this one. The index is given up, since it may
    /// hold later frames.
    pub fn cut_back(&mut self, count: usize, mark: usize)
        requires within { count ≤ length self.old.frames }
        requires mark { mark ≤ count }
        ensures frames { self.new.frames ≡ take count self.old.frames }
        ensures mark { self.new.mark ≡ mark }
    {
        self.frames.truncate(count);
        self.mark = mark;
        self.index.give_up();
    }

    /// The mark moves to the end.
    pub fn move_mark(&mut self)
        ensures frames { self.new.frames ≡ self.old.frames }
        ensures mark { self.new.mark ≡ length self.old.frames }
    {
        self.mark = self.frames.len();
    }

    /// Whether these bytes were sent. The room is written over.
    pub fn has(&mut self, bytes: &[u8], room: &mut [u8; LONGEST_FRAME]) -> bool
        ensures value { result ≡ was_sent self.old.frames bytes.now }
        ensures same { self.new ≡ self.old }
    {
        self.index.has(&self.frames, bytes, room)
    }
}
