ghost use Rattle.std.specs.Prelude.{◌≡◌, length};

use crate::door::{Arrival, Door};
use std::alloc::Global;
use xl_base::Bytes;
use xl_io::Failed;

/// A door in memory, whose clients have these lines to say. It tells them, and the answers. An answer fails if memory
/// runs out.
#[derive(Drop)]
pub struct MemDoor {
    lines: Vec<Bytes>,
    given: usize,
    took: Vec<u8>,
    faults: u64,
}

impl MemDoor {
    ghost use Rattle.std.specs.Prelude.{[], Some};
    ghost use Rattle.xl_links.specs.Doors.{doorway_of};

    /// A door with these lines.
    pub fn new(alloc: Global, lines: Vec<Bytes>) -> Self
        ensures { doorway_of result ≡ record { left = Some lines.items; took = Some []; faults = 0 } }
    {
        MemDoor {
            lines,
            given: 0,
            took: Vec::new(alloc),
            faults: 0,
        }
    }

    /// A door to which nobody comes.
    pub fn silent(alloc: Global) -> Self
        ensures { doorway_of result ≡ record { left = Some []; took = Some []; faults = 0 } }
    {
        Self::new(alloc, Vec::new(alloc))
    }

    /// The answers that were taken.
    pub fn took(&self) -> &[u8]
        ensures { Some result.now ≡ (doorway_of self.now).took }
    {
        &self.took
    }
}

impl Door for MemDoor {
    ghost use Rattle.xl_links.specs.Doors.{doorway_of};

    ghost shows = { doorway_of };

    fn next(&mut self, room: &mut [u8]) -> Arrival {
        let Some(line) = self.lines.get(self.given) else {
            return Arrival::Idle;
        };
        let line = line.as_slice();
        self.given += 1;
        if line.len() > room.len() {
            return Arrival::Long;
        }
        room[..line.len()].copy_from_slice(line);
        Arrival::Line(line.len())
    }

    fn answer(&mut self, text: &[u8]) -> Result<(), Failed> {
        if self.took.extend_from_slice(text).is_ok() {
            return Ok(());
        }
        self.faults = self.faults.saturating_add(1);
        Err(Failed)
    }
}
