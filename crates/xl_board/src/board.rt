ghost use Rattle.std.specs.Prelude.{◌≡◌, ℕ, ◌≤◌, Bool, List, is_ok, OnOk, OnErr};
ghost use Rattle.std.specs.declared.option.Option.{Option};
ghost use Rattle.xl_base.specs.Faults.{Rose};
ghost use Rattle.xl_board.specs.Boards.{Shows};

use xl_io::Failed;

/// Where one text stands for whoever reads it, until the next one takes its place.
pub trait Board {
    /// The text that a reader finds at this moment, if it is known: none before the first.
    ghost stands: { Self → Option (Option (List ℕ)) };

    /// How often a call has failed, up to the greatest `u64`.
    ghost faults: { Self → ℕ };

    /// What a call leaves beside that, by the text that it was handed and by whether it was answered with Ok. A board
    /// over a real disk says nothing here.
    ghost show_gives: { Self → List ℕ → Bool → Self → Type 0 } = { λ _ _ _ _. Unit {0} };

    /// Puts the text in the place of the one that stands there. After `Failed` either of them stands.
    fn show(&mut self, text: &[u8]) -> Result<(), Failed>
        ensures stands { Shows text.now (is_ok result) (stands self.old) (stands self.new) }
        ensures gives { show_gives self.old text.now (is_ok result) self.new }
        ensures later { faults self.old ≤ faults self.new }
        ensures failed { OnErr result (Rose (faults self.old) (faults self.new)) }
        ensures exact { OnOk result (faults self.new ≡ faults self.old) };

    /// How often a call has failed, up to the greatest `u64`.
    fn faults(&self) -> u64
        ensures { result ≡ faults self.now };
}
