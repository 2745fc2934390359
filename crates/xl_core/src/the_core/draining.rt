// What waits at a core is handed out: frames for a member, and reports.
ghost use Rattle.std.specs.Prelude.{◌≡◌, ◌↔◌, ◌≤◌, [], ℕ, IsSome, IsTrue, length};
ghost use Rattle.xl_io.specs.Keepers.{Held};
ghost use Rattle.xl_tags.specs.Rings.{key_of};
ghost use Rattle.xl_core.specs.Answers.{Gave};
ghost use Rattle.xl_core.specs.Core.{all_frames, core_reply, is_idle, core_happens, Marks};
ghost use Rattle.xl_core.specs.Items.{lost_for};
ghost use Rattle.xl_core.specs.Queues.{frames_in};
ghost use Rattle.xl_core.specs.declared.event.CoreEvent.TheVariants.{Drain};
ghost use Rattle.xl_core.specs.Stops.{IsCovered};
ghost use Rattle.xl_core.specs.Replies.{Drains, DrainsBlank, HandsOut, core_for};
ghost use Rattle.xl_core.specs.Issuing.Save.{Kept};
ghost use Rattle.xl_wire.specs.Lengths.{longest_frame};

use super::Core;
use super::greeting::{hand_chain, is_greeted};
use super::marks::{is_idle, is_marked, noted};
use super::outgoing::{drain, lost_for};
use super::untaken::take_reports;
use crate::Report;
use crate::sending::TagPlace;
use xl_base::NodeNo;
use xl_ledger::Branch;

impl<B: Branch + Drop> Core<B> {
    /// Writes frames for a peer into the room, as many as fit: first of the headers with which it is greeted, then of
    /// what waits for it, the oldest first. What was written is taken out. Answers how many bytes were written; the
    /// rest of the room is as it was. A frame is sealed here and nowhere else.
    pub fn drain(&mut self, member: NodeNo, room: &mut [u8]) -> usize
        requires peer { IsSome (key_of self.old.node.keys member) }
        requires room { longest_frame ≤ length room.old }
        ensures step { Drains self.old member self.new result room.old room.new }
        // It answers 0 exactly if nothing is left but items that are passed over.
        ensures nothing { (result ≡ 0) ↔ (frames_in (all_frames self.old member) ≡ []) }
        ensures stop { (held : Held) → IsCovered held self.old → IsCovered held self.new }
    {
        self.write(member, TagPlace::Sealed, room)
    }

    /// Writes frames as `drain` does, except that it seals none: the last 32 bytes of each, where its tag goes, are zero.
    /// `frame_as_sealed` hears such a frame as the sealed one.
    pub fn drain_blank(&mut self, member: NodeNo, room: &mut [u8]) -> usize
        requires peer { IsSome (key_of self.old.node.keys member) }
        requires room { longest_frame ≤ length room.old }
        ensures step { DrainsBlank self.old member self.new result room.old room.new }
        // It answers 0 exactly if nothing is left but items that are passed over.
        ensures nothing { (result ≡ 0) ↔ (frames_in (all_frames self.old member) ≡ []) }
        ensures stop { (held : Held) → IsCovered held self.old → IsCovered held self.new }
    {
        self.write(member, TagPlace::Blank, room)
    }

    /// Writes frames for a peer into the room, with their tags or without.
    fn write(&mut self, member: NodeNo, tags: TagPlace, room: &mut [u8]) -> usize
        requires peer { IsSome (key_of self.old.node.keys member) }
        ensures step { Drains (core_for tags self.old) member (core_for tags self.new) result room.old room.new }
        ensures node { self.new.node ≡ self.old.node }
    {
        let at = hand_chain(&mut self.greetings, &self.node, member, tags, room);
        if !is_greeted(&self.greetings, &self.node, member) {
            return at;
        }
        let count = drain(&mut self.waiting, &self.node, member, tags, &mut room[at..]);
        let idle = is_idle(&self.greetings, &self.waiting, member);
        self.marks = noted(self.marks, member, idle);
        at + count
    }

    /// For whom something is left, as bits: the one at place n - 1, from the lowest on, is that of the member of number
    /// n. A drain for a member whose bit is clear gives nothing, and changes nothing.
    pub fn waiting(&self) -> u64
        ensures { Marks result self.now }
    {
        self.marks
    }

    /// Whether a member wasn't greeted since the core opened, and nothing waits for it: a drain for it gives nothing
    /// then, and changes nothing.
    pub fn is_idle(&self, member: NodeNo) -> bool
        ensures value { result ≡ is_idle self.now member }
        ensures idle { IsTrue result → (room : ℕ)
            → core_happens self.now (Drain member room) Kept ≡ core_reply self.now (Gave member []) }
    {
        !is_marked(self.marks, member)
    }

    /// How many items for a member were lost, since its queue was full or they were passed over: none for one that is
    /// no peer.
    pub fn lost(&self, member: NodeNo) -> u64
        ensures { result ≡ lost_for self.now.node self.now.waiting member }
    {
        lost_for(&self.waiting, &self.node, member)
    }

    /// Takes out the oldest reports that no one has taken, as many as the room holds, and answers how many. The rest of
    /// the room is as it was.
    pub fn reports(&mut self, room: &mut [Report]) -> usize
        ensures step { HandsOut self.old self.new result room.old room.new }
        ensures stop { (held : Held) → IsCovered held self.old → IsCovered held self.new }
    {
        take_reports(&mut self.untaken, room)
    }

    /// How many reports were dropped, since too many waited to be taken.
    pub fn lost_reports(&self) -> u64
        ensures { result ≡ self.now.untaken.lost }
    {
        self.untaken.lost()
    }
}
