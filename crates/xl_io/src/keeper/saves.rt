ghost use Rattle.std.specs.Prelude.{◌≡◌, IfOk, option_map};
ghost use Rattle.xl_io.specs.Saves.{no_saves, with_save};

use std::alloc::Global;
use std::marker::Model;
use xl_base::{OutOfMemory, Seq};

/// The numbers that were asked to be saved. From the first one on for which there is no room, none is told.
#[derive(Drop)]
pub(crate) struct Saves {
    seqs: Vec<Seq>,
    whole: bool,
}

impl Model for Saves {
    ghost use Rattle.std.specs.Prelude.{◌-◌, Some, None, vec_len, vec_capacity, if◌then◌else◌};
    ghost use Rattle.xl_io.specs.Saves.{SaveList};

    ghost Value = { SaveList };

    ghost view = { λ s. record {
      told = if s.whole then Some s.seqs.items else None;
      room = vec_capacity s.seqs - vec_len s.seqs;
    } };
}

impl Saves {
    pub(crate) fn with_room(alloc: Global, room: usize) -> Result<Self, OutOfMemory>
        ensures { IfOk result (λ saves. saves ≡ no_saves room) }
    {
        Ok(Saves {
            seqs: Vec::with_capacity(alloc, room)?,
            whole: true,
        })
    }

    /// Lists the number. It takes no memory.
    pub(crate) fn push(&mut self, seq: Seq)
        ensures { self.new ≡ with_save self.old seq }
    {
        if self.seqs.len() < self.seqs.capacity() {
            self.seqs.push_reserved(seq);
        } else {
            self.whole = false;
        }
    }

    /// The numbers, if they are known.
    pub(crate) fn told(&self) -> Option<&[Seq]>
        ensures { option_map (λ seqs. seqs.now) result ≡ self.now.told }
    {
        self.whole.then_some(self.seqs.as_slice())
    }
}
