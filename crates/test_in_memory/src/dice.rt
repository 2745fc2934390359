ghost use Rattle.std.specs.Prelude.{◌<◌, ◌≤◌};

use xl_base::NodeNo;

/// Numbers by splitmix64: the same ones from the same seed.
#[derive(Drop)]
pub struct Dice {
    pub state: u64,
}

impl Dice {
    pub fn roll(&mut self) -> u64 {
        self.state = self.state.wrapping_add(0x9E37_79B9_7F4A_7C15);
        let mixed = (self.state ^ (self.state >> 30)).wrapping_mul(0xBF58_476D_1CE4_E5B9);
        let mixed = (mixed ^ (mixed >> 27)).wrapping_mul(0x94D0_49BB_1331_11EB);
        mixed ^ (mixed >> 31)
    }

    /// A number below this one.
    pub fn below(&mut self, end: usize) -> usize
        requires { 0 < end }
        ensures { result < end }
    {
        (self.roll() % end as u64) as usize
    }

    /// One of the first twelve members.
    pub fn member(&mut self) -> NodeNo {
        NodeNo::new(self.below(12) as u32 + 1).unwrap()
    }
}
