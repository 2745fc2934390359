// A disk whose next save meets a known fate.
ghost use Rattle.std.specs.Prelude.{◌≡◌};

use crate::place::{Disk, Fate};
use xl_base::Seq;
use xl_io::Failed;

/// A disk, the fate of its next save, and the number that it was asked to save.
#[derive(Clone, Copy)]
pub struct Fated {
    pub disk: Disk,
    pub fate: Fate,
    pub asked: Option<Seq>,
}

impl xl_io::Keeper for Fated {
    ghost use Rattle.std.specs.Prelude.{Some, None, true, false};
    ghost use Rattle.xl_world.specs.Disk.{answers_ok, after_save};

    ghost held = { λ f. Some (record { in_force = f.disk.in_force; asked = f.disk.asked }) };

    ghost saves = { λ f. None };

    ghost faults = { λ f. f.disk.faults };

    ghost save_gives = { λ old seq ok new.
        (ok ≡ answers_ok old.fate)
        × (new.disk ≡ after_save old.disk (Some seq) old.fate)
        × (new.asked ≡ Some seq) };

    fn load(&mut self) -> Result<Seq, Failed> {
        let seq = self.disk.in_force;
        self.disk = self.disk.restored(seq);
        Ok(seq)
    }

    fn save(&mut self, seq: Seq) -> Result<(), Failed> {
        self.asked = Some(seq);
        match self.fate {
            Fate::Saved => {
                self.disk = self.disk.restored(seq);
                Ok(())
            }
            Fate::Unwritten => {
                self.disk = self.disk.after_failed(seq, false);
                Err(Failed)
            }
            Fate::Written => {
                self.disk = self.disk.after_failed(seq, true);
                Err(Failed)
            }
        }
    }

    fn faults(&self) -> u64 {
        self.disk.faults
    }
}
