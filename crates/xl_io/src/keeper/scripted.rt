ghost use Rattle.std.specs.Prelude.{◌≡◌, ◌≤◌, Some, IfOk, option_map};
ghost use Rattle.xl_io.specs.Keepers.{holding};
ghost use Rattle.xl_io.specs.Saves.{no_saves};

use super::saves::Saves;
use crate::failures::Failures;
use crate::{Failed, Keeper};
use std::alloc::Global;
use xl_base::{OutOfMemory, Seq};

/// A save that failed: the number that was asked, and whether it was written all the same.
#[derive(Clone, Copy, PartialEq, Eq)]
struct FailedSave {
    seq: Seq,
    written: bool,
}

/// A keeper in memory, and the calls that are to fail. It tells its saves while there is room for them.
#[derive(Drop)]
pub struct MemKeeper {
    in_force: Seq,
    failed: Option<FailedSave>,
    saves: Saves,
    failures: Failures,
    written: Vec<u64>,
}

impl MemKeeper {
    ghost use Rattle.xl_io.specs.Memory.{fault_script, list_of_saves, next_load, written_script};
    ghost use Rattle.xl_io.specs.Scripts.{script_of};

    /// A keeper that never saved, with room to tell this many saves.
    ///
    /// The calls whose numbers, from 1, are listed as failing fail. A save that fails leaves the number in force for
    /// the next load, or the one that was asked if it is listed as written too.
    pub fn new(
        alloc: Global,
        room: usize,
        failing: Vec<u64>,
        written: Vec<u64>,
    ) -> Result<Self, OutOfMemory>
        ensures held { IfOk result (λ keeper. ⟦<MemKeeper as Keeper>⟧.held keeper ≡ Some (holding 0)) }
        ensures next { IfOk result (λ keeper. next_load keeper ≡ 0) }
        ensures saves { IfOk result (λ keeper. list_of_saves keeper ≡ no_saves room) }
        ensures faults { IfOk result (λ keeper. ⟦<MemKeeper as Keeper>⟧.faults keeper ≡ 0) }
        ensures failing { IfOk result (λ keeper. fault_script keeper ≡ script_of failing.items) }
        ensures written { IfOk result (λ keeper. written_script keeper ≡ script_of written.items) }
    {
        Ok(MemKeeper {
            in_force: 0,
            failed: None,
            saves: Saves::with_room(alloc, room)?,
            failures: Failures::new(failing),
            written,
        })
    }

    /// All numbers that were asked to be saved, if they are known.
    pub fn saves(&self) -> Option<&[Seq]>
        ensures { option_map (λ seqs. seqs.now) result ≡ ⟦<MemKeeper as Keeper>⟧.saves self.now }
    {
        self.saves.told()
    }

    /// The number that the next load answers.
    fn next_load(&self) -> Seq
        ensures { result ≡ next_load self.now }
    {
        match self.failed {
            Some(save) if save.written => save.seq,
            _ => self.in_force,
        }
    }

    /// Holds the number alone.
    fn hold(&mut self, seq: Seq)
        ensures { self.new ≡ record self.old { in_force = seq; failed = None } }
    {
        self.in_force = seq;
        self.failed = None;
    }
}

impl Keeper for MemKeeper {
    ghost use Rattle.std.specs.Prelude.{◌↔◌, is_ok, IfSome, IsErr, IsTrue, OnOk, OnErr};
    ghost use Rattle.xl_base.specs.Faults.{Rose};
    ghost use Rattle.xl_io.specs.Keepers.{MayHold};
    ghost use Rattle.xl_io.specs.Memory.{
      fault_script,
      held_after,
      keeper_faults,
      list_of_saves,
      next_after,
      next_load,
      numbers_held,
      written_script,
    };
    ghost use Rattle.xl_io.specs.Saves.{with_save};
    ghost use Rattle.xl_io.specs.Scripts.{called, next_fails};

    ghost held = { numbers_held };

    ghost saves = { λ keeper. (list_of_saves keeper).told };

    ghost faults = { keeper_faults };

    fn load(&mut self) -> Result<Seq, Failed>
        ensures loaded { IfOk result (λ seq. IfSome (numbers_held self.old) (λ held. MayHold held seq)) }
        ensures alone { IfOk result (λ seq. numbers_held self.new ≡ Some (holding seq)) }
        ensures left { OnErr result (numbers_held self.new ≡ numbers_held self.old) }
        ensures later { keeper_faults self.old ≤ keeper_faults self.new }
        ensures failed { OnErr result (Rose (keeper_faults self.old) (keeper_faults self.new)) }
        ensures exact { OnOk result (keeper_faults self.new ≡ keeper_faults self.old) }

        // What the script makes of it.
        ensures answer { IfOk result (λ seq. seq ≡ next_load self.old) }
        ensures next { next_load self.new ≡ next_load self.old }
        ensures list { list_of_saves self.new ≡ list_of_saves self.old }
        ensures failing { fault_script self.new ≡ called (fault_script self.old) }
        ensures written { written_script self.new ≡ called (written_script self.old) }
        ensures scripted { IsErr result ↔ IsTrue (next_fails (fault_script self.old)) }
    {
        if self.failures.next_fails() {
            return Err(Failed);
        }
        let loaded = self.next_load();
        self.hold(loaded);
        Ok(loaded)
    }

    fn save(&mut self, seq: Seq) -> Result<(), Failed>
        ensures held { numbers_held self.new ≡ held_after self.old seq (is_ok result) }
        ensures later { keeper_faults self.old ≤ keeper_faults self.new }
        ensures failed { OnErr result (Rose (keeper_faults self.old) (keeper_faults self.new)) }
        ensures exact { OnOk result (keeper_faults self.new ≡ keeper_faults self.old) }

        // What the script makes of it.
        ensures next { next_load self.new ≡ next_after self.old seq (is_ok result) }
        ensures list { list_of_saves self.new ≡ with_save (list_of_saves self.old) seq }
        ensures failing { fault_script self.new ≡ called (fault_script self.old) }
        ensures written { written_script self.new ≡ called (written_script self.old) }
        ensures scripted { IsErr result ↔ IsTrue (next_fails (fault_script self.old)) }
    {
        self.saves.push(seq);
        if self.failures.next_fails() {
            let written = self.written.contains(&self.failures.calls());
            self.failed = Some(FailedSave { seq, written });
            return Err(Failed);
        }
        self.hold(seq);
        Ok(())
    }

    fn faults(&self) -> u64 {
        self.failures.count()
    }
}
