use xl_base::{LedgerId, Secs, SetId};

/// A member's word for the set of transactions and the close time of the next ledger.
#[derive(Clone, Copy, PartialEq, Eq)]
pub struct Proposal {
    /// The ledger that the next one is to follow.
    pub prev: LedgerId,
    pub set: SetId,
    /// How often the member has changed its position in this round. The greatest number says that it leaves.
    pub pseq: u32,
    /// The close time that is proposed.
    pub close: Secs,
    /// The second at which it was made.
    pub time: Secs,
}
