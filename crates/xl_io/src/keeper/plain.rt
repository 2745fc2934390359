ghost use Rattle.std.specs.Prelude.{◌≡◌, Some, IfOk, option_map};
ghost use Rattle.xl_io.specs.Keepers.{holding};
ghost use Rattle.xl_io.specs.Saves.{no_saves};

use super::saves::Saves;
use crate::{Failed, Keeper};
use std::alloc::Global;
use xl_base::{OutOfMemory, Seq};

/// A keeper in memory that never fails: its count of faults is 0. It tells its saves while there is room for them.
#[derive(Drop)]
pub struct PlainKeeper {
    seq: Seq,
    saves: Saves,
}

impl PlainKeeper {
    ghost use Rattle.xl_io.specs.Memory.{plain_saves};

    /// A keeper that never saved, with room to tell this many saves.
    pub fn new(alloc: Global, room: usize) -> Result<Self, OutOfMemory>
        ensures held { IfOk result (λ keeper. ⟦<PlainKeeper as Keeper>⟧.held keeper ≡ Some (holding 0)) }
        ensures saves { IfOk result (λ keeper. plain_saves keeper ≡ no_saves room) }
    {
        Ok(PlainKeeper {
            seq: 0,
            saves: Saves::with_room(alloc, room)?,
        })
    }

    /// All numbers that were asked to be saved, if they are known.
    pub fn saves(&self) -> Option<&[Seq]>
        ensures { option_map (λ seqs. seqs.now) result ≡ ⟦<PlainKeeper as Keeper>⟧.saves self.now }
    {
        self.saves.told()
    }
}

impl Keeper for PlainKeeper {
    ghost use Rattle.std.specs.Prelude.{IsOk};
    ghost use Rattle.xl_io.specs.Memory.{plain_held, plain_saves};
    ghost use Rattle.xl_io.specs.Saves.{with_save};

    ghost held = { plain_held };

    ghost saves = { λ keeper. (plain_saves keeper).told };

    ghost faults = { λ _. 0 };

    fn load(&mut self) -> Result<Seq, Failed> {
        Ok(self.seq)
    }

    fn save(&mut self, seq: Seq) -> Result<(), Failed>
        ensures ok { IsOk result }
        ensures held { plain_held self.new ≡ Some (holding seq) }
        ensures list { plain_saves self.new ≡ with_save (plain_saves self.old) seq }
    {
        self.saves.push(seq);
        self.seq = seq;
        Ok(())
    }

    fn faults(&self) -> u64 {
        0
    }
}
