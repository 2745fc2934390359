// Frames of journals, with the bytes of all of them in one vector.
ghost use Rattle.std.specs.Prelude.{◌≡◌, ◌<◌, ◌++◌, ◌∷◌, [], Some, length, slice_get, OnOk};
ghost use Rattle.xl_given.specs.Cutting.{noted_as};
ghost use Rattle.xl_given.specs.Kept.{noted_seen};

use crate::Noted;
use std::alloc::Global;
use std::marker::Model;
use xl_base::{NodeNo, OutOfMemory};

/// Where a frame stands among the bytes of all, and whose it is.
#[derive(Clone, Copy)]
struct Place {
    begins: usize,
    ends: usize,
    entry: u64,
    journal: u32,
    member: NodeNo,
}

/// Frames of journals, as they were read, which contracts see as a list.
#[derive(Drop)]
pub struct NotedFrames {
    places: Vec<Place>,
    bytes: Vec<u8>,
}

impl Model for NotedFrames {
    ghost use Rattle.std.specs.Prelude.{List};
    ghost use Rattle.xl_given.specs.Given.{Noted as TheNoted};
    ghost use Rattle.xl_given.specs.Kept.{AreWithin, frames_seen};

    ghost Value = { List TheNoted };

    ghost view = { frames_seen };

    ghost invariant = { λ f. AreWithin f };
}

impl NotedFrames {
    pub fn new(alloc: Global) -> NotedFrames
        ensures { result ≡ [] }
    {
        NotedFrames {
            places: Vec::new(alloc),
            bytes: Vec::new(alloc),
        }
    }

    pub fn len(&self) -> usize
        ensures { result ≡ length self.now }
    {
        self.places.len()
    }

    /// The frame of a place, from 0 on.
    pub fn at(&self, place: usize) -> Noted<'_>
        requires { place < length self.now }
        ensures { slice_get self.now place ≡ Some (noted_seen result) }
    {
        let kept = self.places[place];
        Noted {
            member: kept.member,
            journal: kept.journal,
            entry: kept.entry,
            frame: &self.bytes[kept.begins..kept.ends],
        }
    }

    /// An entry of a journal has one more frame.
    pub fn push(
        &mut self,
        member: NodeNo,
        journal: u32,
        entry: u64,
        frame: &[u8],
    ) -> Result<(), OutOfMemory>
        ensures { OnOk result (self.new ≡ self.old ++ noted_as member journal entry frame.now ∷ []) }
    {
        let begins = self.bytes.len();
        self.bytes.extend_from_slice(frame)?;
        self.places.push(Place {
            begins,
            ends: begins + frame.len(),
            entry,
            journal,
            member,
        })?;
        Ok(())
    }
}
