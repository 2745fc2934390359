use crate::LedgerNo;
use xl_base::NodeNo;

/// A member's vote for a ledger.
#[derive(Clone, Copy, PartialEq, Eq)]
pub struct Vote {
    pub member: NodeNo,
    pub ledger: LedgerNo,
}
