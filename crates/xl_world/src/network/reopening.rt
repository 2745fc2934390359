// A node is opened anew: after a restart, and after a save that was cut off.
ghost use Rattle.std.specs.Prelude.{◌≡◌, ◌≤◌, ◌++◌, OnOk};
ghost use Rattle.xl_base.specs.Moments.{greatest_millis};
ghost use Rattle.xl_world.specs.Ends.{Grows};
ghost use Rattle.xl_world.specs.Rested.{IsAtRest};
ghost use Rattle.xl_world.specs.Schedule.{outcomes_at, steps_at};
ghost use Rattle.xl_world.specs.Seen.{put_again, with_places};
ghost use Rattle.xl_world.specs.World.{place_at, run};

use super::Network;
use super::asking::asked_by;
use crate::Outcome;
use crate::act::{NodeAnswer, Seat, position_of};
use crate::anew::{disk_at, reopen_at};
use crate::place::{Disk, Fate};
use xl_base::{Millis, NodeNo, OutOfMemory};
use xl_sched::{Ask, What};

impl Network {
    /// The node of a number, if there is one, is opened anew in its place, with what its disk then holds.
    fn reopen(&mut self, at: Millis, node: NodeNo, disk: Disk) -> Result<(), OutOfMemory>
        requires { at ≤ greatest_millis }
        ensures places { OnOk result (self.new
            ≡ with_places self.old (put_again at disk (place_at node self.old.places) self.old.places)) }
        ensures grows { Grows self.old self.new }
    {
        reopen_at(self.alloc, &mut self.places, node, at, disk)
    }

    /// Opens a node anew with the number that its disk holds.
    pub(super) fn restart(&mut self, at: Millis, node: NodeNo) -> Result<(), OutOfMemory>
        requires moment { at ≤ greatest_millis }
        requires rest { IsAtRest self.old }
        ensures world { OnOk result (self.new ≡ run self.old (steps_at self.old at (What.Restart node))) }
        ensures grows { Grows self.old self.new }
    {
        match disk_at(&self.places, node) {
            Some(disk) => self.reopen(at, node, disk.restored(disk.found())),
            None => Ok(()),
        }
    }

    /// A node is asked something, and its save is cut off, which leaves the new number or the old one; it is opened
    /// anew then. If no save is asked, it is opened anew after what it was asked came to its end.
    pub(super) fn cut(
        &mut self,
        at: Millis,
        new: bool,
        ask: &Ask,
        answer: &mut NodeAnswer,
        told: &mut Vec<Outcome>,
    ) -> Result<(), OutOfMemory>
        requires moment { at ≤ greatest_millis }
        requires rest { IsAtRest self.old }
        ensures world { OnOk result (self.new ≡ run self.old (steps_at self.old at (What.Cut new ask.now))) }
        ensures told { OnOk result (told.new.items ≡ told.old.items ++ outcomes_at self.old at (What.Cut new ask.now)) }
        ensures grows { Grows self.old self.new }
    {
        let (node, deed) = asked_by(at, ask);
        let Some(k) = position_of(&self.places, node) else {
            return Ok(());
        };
        let place = &mut self.places[k];
        let disk = place.disk;
        // A save that is cut off is tried as one that fails: what comes of it ends with the node, and its disk is as
        // it was before.
        place.happens(&deed, Fate::Unwritten, &mut self.hashes, answer);
        match answer.asked {
            Some(seq) => self.reopen(at, node, disk.restored(disk.left_by(new, seq))),
            None => {
                let seat = Seat {
                    number: node,
                    place: k,
                };
                self.settle(seat, answer, told)?;
                self.reopen(at, node, disk.restored(disk.found()))
            }
        }
    }
}
