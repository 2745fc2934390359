ghost use Rattle.std.specs.Prelude.{◌≡◌, ℕ, ◌≤◌, Bool, List, Some, option_map, is_ok, IfSome, IfOk, OnOk, OnErr};
ghost use Rattle.std.specs.declared.option.Option.{Option};
ghost use Rattle.xl_base.specs.Faults.{Rose};
ghost use Rattle.xl_io.specs.Keepers.{Held, MayHold, holding, after_save, AddsSave};

pub mod plain;
mod saves;
pub mod scripted;

use crate::Failed;
use xl_base::Seq;

/// Where a node keeps the last sequence that it issued, so that it outlives a stop. One that never saved loads 0.
pub trait Keeper {
    /// The numbers that a stop at this moment may leave, if they are known.
    ghost held: { Self → Option Held };

    /// All numbers that were asked to be saved, first to last, if they are known.
    ghost saves: { Self → Option (List ℕ) };

    /// How often a call has failed, up to the greatest `u64`.
    ghost faults: { Self → ℕ };

    /// What a load that answers a number leaves beside that. A keeper in memory has nothing to say here; one over a
    /// medium whose text is told says that this text is the number's.
    ghost load_gives: { Self → ℕ → Self → Type 0 } = { λ _ _ _. Unit {0} };

    /// What a save leaves beside that, by whether it was answered with Ok. A keeper over a real disk says nothing
    /// here; one whose answers are known, as that of a network in memory, says what it holds then.
    ghost save_gives: { Self → ℕ → Bool → Self → Type 0 } = { λ _ _ _ _. Unit {0} };

    /// Answers a number that it may hold, and holds that one alone from then on. `Failed` leaves it.
    fn load(&mut self) -> Result<Seq, Failed>
        ensures loaded { IfOk result (λ seq. IfSome (held self.old) (λ held. MayHold held seq)) }
        ensures alone { IfOk result (λ seq. held self.new ≡ option_map (λ _. holding seq) (held self.old)) }
        ensures left { OnErr result (held self.new ≡ held self.old) }
        ensures gives { IfOk result (λ seq. load_gives self.old seq self.new) }
        ensures saves { saves self.new ≡ saves self.old }
        ensures later { faults self.old ≤ faults self.new }
        ensures failed { OnErr result (Rose (faults self.old) (faults self.new)) }
        ensures exact { OnOk result (faults self.new ≡ faults self.old) };

    /// Holds the number alone from then on. After `Failed` it holds the one in force, and may hold this one.
    fn save(&mut self, seq: Seq) -> Result<(), Failed>
        ensures held { held self.new ≡ option_map (λ held. after_save held (Some seq) (is_ok result)) (held self.old) }
        ensures saves { AddsSave (saves self.old) (saves self.new) seq }
        ensures gives { save_gives self.old seq (is_ok result) self.new }
        ensures later { faults self.old ≤ faults self.new }
        ensures failed { OnErr result (Rose (faults self.old) (faults self.new)) }
        ensures exact { OnOk result (faults self.new ≡ faults self.old) };

    /// How often a call has failed, up to the greatest `u64`.
    fn faults(&self) -> u64
        ensures { result ≡ faults self.now };
}
