// What is known of a node's round.
ghost use Rattle.std.specs.Prelude.{◌≡◌};

use super::Node;
use xl_ledger::Branch;
use xl_rounds::Round;

impl<B: Branch + Drop> Node<B> {
    /// The round that it takes part in.
    pub fn round(&self) -> &Round
        ensures { result.now ≡ self.now.round }
    {
        &self.round
    }
}
