ghost use Rattle.std.specs.Prelude.{◌≡◌};
ghost use Rattle.xl_validations.specs.Rows.{current_of};

use super::Node;
use xl_base::NodeNo;
use xl_ledger::Branch;
use xl_wire::Validation;

impl<B: Branch + Drop> Node<B> {
    /// A member's current validation. None exactly if it has no row, or its row has none.
    pub fn current(&self, member: NodeNo) -> Option<Validation>
        ensures { result ≡ current_of self.now.rows member }
    {
        self.table.current(member)
    }
}
