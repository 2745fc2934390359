use crate::List;
use xl_base::{LedgerId, NodeNo, Seq};

/// A node reported a ledger as fully validated, under the list that was in force then.
#[derive(Drop)]
pub struct Report {
    pub node: NodeNo,
    pub list: List,
    pub seq: Seq,
    pub id: LedgerId,
}
