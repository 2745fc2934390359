use xl_base::{LedgerId, NodeNo, Seq};

/// A member said that this ledger is the one of this sequence.
#[derive(Clone, Copy, PartialEq, Eq)]
pub struct SaidLedger {
    pub member: NodeNo,
    pub seq: Seq,
    pub id: LedgerId,
}
