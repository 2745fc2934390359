// What is known of a world beside its nodes.
ghost use Rattle.std.specs.Prelude.{◌≡◌};

use crate::World;
use xl_base::NodeNo;
use xl_lists::SaidLedger;

impl World {
    /// All declared numbers, rising.
    pub fn numbers(&self) -> &[NodeNo]
        ensures { result.now ≡ self.now.numbers }
    {
        self.network.numbers.as_slice()
    }

    /// How many of the sent frames stand before the mark.
    pub fn mark(&self) -> usize
        ensures { result ≡ self.now.mark }
    {
        self.network.traffic.mark()
    }

    /// Every validation that a node ever issued, in order.
    pub fn said(&self) -> &[SaidLedger]
        ensures { result.now ≡ self.now.said }
    {
        &self.network.said
    }
}
