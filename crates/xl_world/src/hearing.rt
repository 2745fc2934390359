// What was sent, and what liars say, comes to a place.
ghost use Rattle.std.specs.Prelude.{◌≡◌, ◌≢◌, ◌≤◌, IsTrue, List, ℕ};
ghost use Rattle.xl_base.specs.Moments.{greatest_millis};
ghost use Rattle.xl_core.specs.Deeds.{answer_of};
ghost use Rattle.xl_core.specs.Replies.{taken_answer};
ghost use Rattle.xl_core.specs.Sending.{has_spelling};
ghost use Rattle.xl_core.specs.declared.event.CoreEvent.TheVariants.{Frame as FrameComes};
ghost use Rattle.xl_lists.specs.Lists.{is_on};
ghost use Rattle.xl_sched.specs.Fits.{IsFitLied};
ghost use Rattle.xl_world.specs.declared.place.Fate.TheVariants.{Saved};
ghost use Rattle.xl_world.specs.Rested.{IsRested};
ghost use Rattle.xl_world.specs.Schedule.{lied_body, lied_bytes};
ghost use Rattle.xl_world.specs.Seen.{CarriesTo, IsAnswer, place_after};

use crate::Sent;
use crate::act::{NodeAnswer, take_report};
use crate::lie::{put_blank_lie, said_by};
use crate::place::{Fate, NodeCore, Place};
use xl_base::{Millis, NodeNo};
use xl_core::{CoreAnswer, Deed, Hashes, Refusal, Taken};
use xl_sched::Lied;
use xl_wire::{Body, LONGEST_FRAME};

/// Tells what came of a frame, in its place at once: an answer is large.
fn tell_taken(outcome: Result<Taken, Refusal>, answer: &mut CoreAnswer)
    ensures { answer_of answer.new ≡ taken_answer outcome }
{
    match outcome {
        Ok(taken) => *answer = CoreAnswer::Took(taken),
        Err(why) => *answer = CoreAnswer::Refused(why),
    }
}

/// Whether a core hears a member: another one that is listed.
fn is_heard(core: &NodeCore, from: NodeNo) -> bool
    ensures other { IsTrue result → from ≢ core.now.node.me }
    ensures listed { IsTrue result → IsTrue (is_on core.now.node.list.members from) }
{
    from != core.node().me() && core.list().has(from)
}

impl Place {
    /// A sent frame comes to its receiver. If it is known what the frame says, no bytes are made of it.
    pub fn hears_sent(
        &mut self,
        now: Millis,
        frame: &Sent<'_>,
        room: &mut [u8; LONGEST_FRAME],
        hashes: &mut Hashes,
        answer: &mut NodeAnswer,
    )
        requires rested { IsRested self.old.core }
        requires moment { now ≤ greatest_millis }
        requires mine { frame.now.to ≡ self.old.core.node.me }
        ensures place { self.new ≡ place_after self.old (FrameComes now frame.now.bytes) Saved }
        ensures answer { IsAnswer self.old (FrameComes now frame.now.bytes) Saved answer.new }
    {
        let from = frame.from();
        // Members' numbers, for which there are keys.
        let _from = from.get();
        let _me = self.core.node().me().get();
        match frame.said() {
            Some(said) if is_heard(&self.core, from) => {
                self.hears_body(now, from, &said.body(), hashes, answer);
            }
            _ => self.hears_bytes(now, frame, room, hashes, answer),
        }
    }

    /// What a liar says comes to its receiver, with the right tag.
    pub fn hears_lie(
        &mut self,
        now: Millis,
        from: NodeNo,
        lie: &Lied,
        room: &mut [u8; LONGEST_FRAME],
        hashes: &mut Hashes,
        answer: &mut NodeAnswer,
    )
        requires rested { IsRested self.old.core }
        requires moment { now ≤ greatest_millis }
        requires fit { IsFitLied lie.now }
        ensures place { self.new
            ≡ place_after self.old (FrameComes now (lied_bytes from self.old.core.node.me lie.now)) Saved }
        ensures answer { IsAnswer self.old
            (FrameComes now (lied_bytes from self.old.core.node.me lie.now)) Saved answer.new }
        ensures said { IsTrue (has_spelling from self.old.core.node.me (lied_body lie.now)) }
    {
        match said_by(lie) {
            Some(said) => {
                let to = self.core.node().me();
                self.hears_sent(now, &Sent::saying(from, to, &said), room, hashes, answer);
            }
            None => self.hears_long_lie(now, from, lie, room, hashes, answer),
        }
    }

    /// The same of a lie whose frame is made, since what it says may be long.
    #[inline(never)]
    fn hears_long_lie(
        &mut self,
        now: Millis,
        from: NodeNo,
        lie: &Lied,
        room: &mut [u8; LONGEST_FRAME],
        hashes: &mut Hashes,
        answer: &mut NodeAnswer,
    )
        requires rested { IsRested self.old.core }
        requires moment { now ≤ greatest_millis }
        requires fit { IsFitLied lie.now }
        ensures place { self.new
            ≡ place_after self.old (FrameComes now (lied_bytes from self.old.core.node.me lie.now)) Saved }
        ensures answer { IsAnswer self.old
            (FrameComes now (lied_bytes from self.old.core.node.me lie.now)) Saved answer.new }
        ensures said { IsTrue (has_spelling from self.old.core.node.me (lied_body lie.now)) }
    {
        // A deed may hold a list, whose type is known here once one is read.
        let _list = self.core.list();
        let length = put_blank_lie(from, self.core.node().me(), lie, &mut *room);
        let deed = Deed::Sealed {
            now,
            bytes: &room[..length],
        };
        self.happens(&deed, Fate::Saved, hashes, answer);
    }

    /// The core hears what a listed member says in a frame, which asks no save. The report that arises is taken.
    #[inline(never)]
    fn hears_body(
        &mut self,
        now: Millis,
        from: NodeNo,
        body: &Body<'_>,
        hashes: &mut Hashes,
        answer: &mut NodeAnswer,
    )
        requires rested { IsRested self.old.core }
        requires moment { now ≤ greatest_millis }
        requires other { from ≢ self.old.core.node.me }
        requires listed { IsTrue (is_on self.old.core.node.list.members from) }
        ensures place { (bytes : List ℕ) → CarriesTo self.old.core from body.now bytes
            → self.new ≡ place_after self.old (FrameComes now bytes) Saved }
        ensures answer { (bytes : List ℕ) → CarriesTo self.old.core from body.now bytes
            → IsAnswer self.old (FrameComes now bytes) Saved answer.new }
    {
        answer.asked = None;
        answer.said = None;
        answer.report = None;
        answer.relisted = false;
        tell_taken(
            self.core.frame_saying(now, from, body, hashes),
            &mut answer.told,
        );
        take_report(&mut self.core, &mut answer.report);
    }

    /// The core hears a frame as its bytes, which are written into the room.
    fn hears_bytes(
        &mut self,
        now: Millis,
        frame: &Sent<'_>,
        room: &mut [u8; LONGEST_FRAME],
        hashes: &mut Hashes,
        answer: &mut NodeAnswer,
    )
        requires rested { IsRested self.old.core }
        requires moment { now ≤ greatest_millis }
        requires mine { frame.now.to ≡ self.old.core.node.me }
        ensures place { self.new ≡ place_after self.old (FrameComes now frame.now.bytes) Saved }
        ensures answer { IsAnswer self.old (FrameComes now frame.now.bytes) Saved answer.new }
    {
        // A deed may hold a list, whose type is known here once one is read.
        let _list = self.core.list();
        let length = frame.put(room);
        let deed = Deed::Sealed {
            now,
            bytes: &room[..length],
        };
        self.happens(&deed, Fate::Saved, hashes, answer);
    }
}
