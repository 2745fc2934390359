ghost use Rattle.std.specs.Prelude.{◌≡◌, Some, None};
ghost use Rattle.xl_links.specs.Hubs.{silent_doorway, silent_wire};
ghost use Rattle.xl_links.specs.Requests.{offers, requests};

use crate::door::memory::MemDoor;
use crate::hub::{Hub, Way};
use crate::link::plain::PlainLink;
use std::alloc::Global;
use xl_base::{Bytes, NodeNo};
use xl_io::Failed;

/// A hub in memory that never fails: its count of faults is 0. Its links are to members that say nothing, and nobody
/// comes to its doors. It tells nothing of what it is asked for.
#[derive(Drop)]
pub struct PlainHub {
    alloc: Global,
}

impl PlainHub {
    /// A hub for any member.
    pub fn new(alloc: Global) -> Self
        ensures gives { ⟦<PlainHub as Hub>⟧.gives result ≡ offers (λ _. Some silent_wire) (Some silent_doorway) }
        ensures faults { ⟦<PlainHub as Hub>⟧.faults result ≡ 0 }
    {
        PlainHub { alloc }
    }
}

impl Hub for PlainHub {
    type L = PlainLink;

    type D = MemDoor;

    ghost gives = { λ _. offers (λ _. Some silent_wire) (Some silent_doorway) };

    ghost asked = { λ _. requests None None };

    ghost faults = { λ _. 0 };

    fn open_link(&mut self, _member: NodeNo, _way: Way) -> Result<PlainLink, Failed> {
        Ok(PlainLink::silent(self.alloc))
    }

    fn open_door(&mut self, _address: Bytes) -> Result<MemDoor, Failed> {
        Ok(MemDoor::silent(self.alloc))
    }
}
