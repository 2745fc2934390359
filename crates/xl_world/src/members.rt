// The declared numbers of a world.
ghost use Rattle.std.specs.Prelude.{◌≡◌, ◌≢◌, ◌<◌, ◌+◌, ℕ, suc, true, All, IsTrue};
ghost use Rattle.std.specs.Int.{bit_at};
ghost use Rattle.xl_core.specs.Core.{is_idle};
ghost use Rattle.xl_world.specs.Emptying.{others};
ghost use Rattle.xl_world.specs.Marked.{AreMarked, IsMarked};

use crate::place::NodeCore;
use std::marker::Model;
use xl_base::NodeNo;

/// All declared numbers, rising.
#[derive(Drop)]
pub struct Members {
    numbers: Vec<NodeNo>,
    /// The bit of each is set: that of number n stands at place n - 1, from the lowest on.
    marks: u64,
}

impl Model for Members {
    ghost use Rattle.std.specs.Prelude.{List, ℕ};
    ghost use Rattle.xl_world.specs.Marked.{AreMarked};

    ghost Value = { List ℕ };

    ghost view = { λ m. m.numbers.items };

    ghost invariant = { λ m. AreMarked m.marks m.numbers.items };
}

/// The place of a number's bit.
fn place_of(number: NodeNo) -> u32
    ensures place { result + 1 ≡ number }
    ensures most { result < 64 }
{
    number.get() - 1
}

/// The marks, with that of a number set.
fn marked(marks: u64, number: NodeNo) -> u64
    ensures own { IsMarked result number }
    ensures others { (place : ℕ) → bit_at marks place ≡ 1 → bit_at result place ≡ 1 }
{
    marks | 1 << place_of(number)
}

/// The marks of these numbers.
fn marks_of(numbers: &[NodeNo]) -> u64
    ensures { AreMarked result numbers.now }
{
    let mut marks = 0;
    for &number in numbers {
        marks = marked(marks, number);
    }
    marks
}

/// Whether nothing is left at a core for any marked number but its own.
fn nothing_left(core: &NodeCore, marks: u64) -> bool
    ensures { IsTrue result → (place : ℕ) → place < 64 → bit_at marks place ≡ 1 → suc place ≢ core.now.node.me
        → is_idle core.now (suc place) ≡ true }
{
    let own = 1 << place_of(core.node().me());
    core.waiting() & marks & !own == 0
}

impl Members {
    pub fn new(numbers: Vec<NodeNo>) -> Members
        ensures { result ≡ numbers.items }
    {
        let marks = marks_of(&numbers);
        Members { numbers, marks }
    }

    pub fn as_slice(&self) -> &[NodeNo]
        ensures { result.now ≡ self.now }
    {
        &self.numbers
    }

    /// Whether nothing is left at a core for any other number. One word tells that of all.
    pub fn are_idle(&self, core: &NodeCore) -> bool
        ensures { IsTrue result → All (λ m. is_idle core.now m ≡ true) (others self.now core.now.node.me) }
    {
        nothing_left(core, self.marks)
    }
}
