ghost use Rattle.std.specs.Prelude.{◌≡◌, ◌≤◌};
ghost use Rattle.xl_base.specs.Counts.{one_more};

use std::marker::Model;

/// A count of steps, which stops at the greatest `u64`.
#[derive(Drop)]
pub struct Steps {
    taken: u64,
}

impl Model for Steps {
    ghost use Rattle.std.specs.Prelude.{ℕ};

    ghost Value = { ℕ };

    ghost view = { λ a. a.taken };
}

impl Steps {
    /// No steps.
    pub fn new() -> Self
        ensures { result ≡ 0 }
    {
        Steps { taken: 0 }
    }

    /// One step more.
    pub fn tick(&mut self)
        ensures count { self.new ≡ one_more self.old }
        ensures later { self.old ≤ self.new }
    {
        self.taken = self.taken.saturating_add(1);
    }

    pub fn taken(&self) -> u64
        ensures { result ≡ self.now }
    {
        self.taken
    }
}
