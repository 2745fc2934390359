// What comes to a node: frames that were sent, bytes that nobody need have sent, and what liars say.
ghost use Rattle.std.specs.Prelude.{◌≡◌, ◌≤◌, ◌++◌, ℕ, if◌then◌else◌, slice_get, IsTrue, OnOk};
ghost use Rattle.xl_base.specs.Counts.{one_more};
ghost use Rattle.xl_base.specs.Moments.{greatest_millis};
ghost use Rattle.xl_core.specs.Hearing.{bytes_as_sealed};
ghost use Rattle.xl_core.specs.declared.event.CoreEvent.TheVariants.{Frame};
ghost use Rattle.xl_sched.specs.Fits.{IsFitLied};
ghost use Rattle.xl_tags.specs.Rings.{schedule_ring};
ghost use Rattle.xl_world.specs.Ends.{Grows};
ghost use Rattle.xl_world.specs.Rested.{IsAtRest};
ghost use Rattle.xl_world.specs.Schedule.{delivery_of, hand_steps, lied_bytes, outcomes_at, steps_at, told_in};
ghost use Rattle.xl_world.specs.Seen.{MayDo, deed_event};
ghost use Rattle.xl_world.specs.Stands.{AreSeats};
ghost use Rattle.xl_world.specs.World.{run};

use super::Network;
use crate::Outcome;
use crate::act::{NodeAnswer, Seat, position_of};
use crate::forged::{is_forged, is_liar};
use crate::lie::put_lie;
use crate::place::Fate;
use crate::seat_table::Seats;
use xl_base::{Millis, NodeNo, OutOfMemory};
use xl_core::Deed;
use xl_sched::{Lied, What};
use xl_wire::LONGEST_FRAME;

impl Network {
    /// The sent frame of a place, from 0 on, is handed to its receiver; to a liar that does nothing. It isn't forged,
    /// since it was sent.
    pub(super) fn deliver(
        &mut self,
        at: Millis,
        place: usize,
        seats: &Seats,
        answer: &mut NodeAnswer,
        told: &mut Vec<Outcome>,
    ) -> Result<(), OutOfMemory>
        requires moment { at ≤ greatest_millis }
        requires seats { AreSeats seats.now self.old.places }
        requires rest { IsAtRest self.old }
        ensures world { OnOk result
            (self.new ≡ run self.old (delivery_of self.old at (slice_get self.old.sent place))) }
        ensures told { OnOk result (told.new.items
            ≡ told.old.items ++ told_in self.old (delivery_of self.old at (slice_get self.old.sent place))) }
        ensures grows { Grows self.old self.new }
    {
        let Some(frame) = self.traffic.frame(place) else {
            return Ok(());
        };
        let to = frame.to();
        let Some(k) = seats.seat_of(&self.places, to) else {
            return Ok(());
        };
        let receiver = &mut self.places[k];
        receiver.hears_sent(at, &frame, &mut self.room, &mut self.hashes, answer);
        let seat = Seat {
            number: to,
            place: k,
        };
        self.settle(seat, answer, told)
    }

    /// The sent frames after the mark are handed to their receivers, and the mark moves to the end.
    pub(super) fn deliver_all(
        &mut self,
        at: Millis,
        seats: &Seats,
        answer: &mut NodeAnswer,
        told: &mut Vec<Outcome>,
    ) -> Result<(), OutOfMemory>
        requires moment { at ≤ greatest_millis }
        requires seats { AreSeats seats.now self.old.places }
        requires rest { IsAtRest self.old }
        ensures world { OnOk result (self.new ≡ run self.old (steps_at self.old at What.All)) }
        ensures told { OnOk result (told.new.items ≡ told.old.items ++ outcomes_at self.old at What.All) }
        ensures grows { Grows self.old self.new }
    {
        for place in self.traffic.mark()..self.traffic.sent().len() {
            self.deliver(at, place, seats, answer, told)?;
        }
        self.traffic.move_mark();
        Ok(())
    }

    /// Bytes are handed to a node that no node need have sent.
    pub(super) fn hand_in(
        &mut self,
        at: Millis,
        to: NodeNo,
        bytes: &[u8],
        answer: &mut NodeAnswer,
        told: &mut Vec<Outcome>,
    ) -> Result<(), OutOfMemory>
        requires moment { at ≤ greatest_millis }
        requires rest { IsAtRest self.old }
        ensures world { OnOk result (self.new ≡ run self.old (hand_steps self.old at to bytes.now)) }
        ensures told { OnOk result (told.new.items
            ≡ told.old.items ++ told_in self.old (hand_steps self.old at to bytes.now)) }
        ensures grows { Grows self.old self.new }
    {
        let forged = is_forged(
            &self.liars,
            &mut self.traffic,
            &self.places,
            to,
            bytes,
            &mut self.room,
        );
        let deed = handed(at, bytes, forged);
        self.act(to, &deed, Fate::Saved, answer, told)?;
        self.forged = counted(self.forged, forged);
        Ok(())
    }

    /// What a liar says comes to a node. It isn't forged, since a declared liar signed it, and its tag is the right one,
    /// so neither is looked at.
    pub(super) fn lie(
        &mut self,
        at: Millis,
        from: NodeNo,
        to: NodeNo,
        lie: &Lied,
        answer: &mut NodeAnswer,
        told: &mut Vec<Outcome>,
    ) -> Result<(), OutOfMemory>
        requires moment { at ≤ greatest_millis }
        requires rest { IsAtRest self.old }
        requires fit { IsFitLied lie.now }
        ensures world { OnOk result (self.new ≡ run self.old (hand_steps self.old at to (lied_bytes from to lie.now))) }
        ensures told { OnOk result (told.new.items
            ≡ told.old.items ++ told_in self.old (hand_steps self.old at to (lied_bytes from to lie.now))) }
        ensures grows { Grows self.old self.new }
    {
        if !is_liar(&self.liars, from.get()) {
            return self.hand_in_lie(at, from, to, lie, answer, told);
        }
        let Some(k) = position_of(&self.places, to) else {
            return Ok(());
        };
        let receiver = &mut self.places[k];
        receiver.hears_lie(at, from, lie, &mut self.room, &mut self.hashes, answer);
        let seat = Seat {
            number: to,
            place: k,
        };
        self.settle(seat, answer, told)
    }

    /// The frame of a lie is handed to a node, and may be forged: nobody declared its sender as a liar.
    // Its frame is large, and in the caller's each lie would pay for it.
    #[inline(never)]
    fn hand_in_lie(
        &mut self,
        at: Millis,
        from: NodeNo,
        to: NodeNo,
        lie: &Lied,
        answer: &mut NodeAnswer,
        told: &mut Vec<Outcome>,
    ) -> Result<(), OutOfMemory>
        requires moment { at ≤ greatest_millis }
        requires rest { IsAtRest self.old }
        requires fit { IsFitLied lie.now }
        ensures world { OnOk result (self.new ≡ run self.old (hand_steps self.old at to (lied_bytes from to lie.now))) }
        ensures told { OnOk result (told.new.items
            ≡ told.old.items ++ told_in self.old (hand_steps self.old at to (lied_bytes from to lie.now))) }
        ensures grows { Grows self.old self.new }
    {
        let mut room = [0; LONGEST_FRAME];
        let length = put_lie(from, to, lie, &mut room);
        self.hand_in(at, to, &room[..length], answer, told)
    }
}

/// How bytes come to a node. If they are forged their tag is known to be right, and isn't looked at again.
fn handed(at: Millis, bytes: &[u8], forged: bool) -> Deed<'_>
    requires moment { at ≤ greatest_millis }
    ensures event { (to : ℕ) → (IsTrue forged → bytes_as_sealed (schedule_ring to) bytes.now ≡ bytes.now)
        → deed_event to result ≡ Frame at bytes.now }
    ensures may { (to : ℕ) → MayDo to result }
{
    if forged {
        Deed::Sealed { now: at, bytes }
    } else {
        Deed::Frame { now: at, bytes }
    }
}

/// The count, with one more if something was forged.
fn counted(count: u64, forged: bool) -> u64
    ensures { result ≡ (if forged then one_more count else count) }
{
    if forged {
        count.saturating_add(1)
    } else {
        count
    }
}
