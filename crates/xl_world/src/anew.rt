// Nodes that are opened anew, each with a number that its disk may hold.
ghost use Rattle.std.specs.Prelude.{◌≡◌, ◌≤◌, OnOk};
ghost use Rattle.xl_base.specs.Moments.{greatest_millis};
ghost use Rattle.xl_world.specs.Seen.{disk_in, place_again, put_again};
ghost use Rattle.xl_world.specs.World.{place_at};

use crate::act::position_of;
use crate::place::{Disk, Place};
use std::alloc::Global;
use xl_base::{Millis, NodeNo, OutOfMemory};

/// The disk of the node of a number, if there is one.
pub fn disk_at(places: &[Place], i: NodeNo) -> Option<Disk>
    ensures { result ≡ disk_in i places.now }
{
    match position_of(places, i) {
        Some(k) => {
            let place = &places[k];
            Some(place.disk)
        }
        None => None,
    }
}

impl Place {
    /// The node is opened anew with the number that this disk holds, which is its own from then on.
    fn reopen(&mut self, alloc: Global, now: Millis, disk: Disk) -> Result<(), OutOfMemory>
        requires { now ≤ greatest_millis }
        ensures { OnOk result (self.new ≡ place_again self.old now disk) }
    {
        self.core.reopen(alloc, now, disk.in_force)?;
        self.disk = disk;
        Ok(())
    }
}

/// The node of a number, if there is one, is opened anew in its place.
pub fn reopen_at(
    alloc: Global,
    places: &mut [Place],
    i: NodeNo,
    now: Millis,
    disk: Disk,
) -> Result<(), OutOfMemory>
    requires { now ≤ greatest_millis }
    ensures { OnOk result (places.new ≡ put_again now disk (place_at i places.old) places.old) }
{
    match position_of(places, i) {
        Some(k) => {
            let place = &mut places[k];
            place.reopen(alloc, now, disk)
        }
        None => Ok(()),
    }
}
