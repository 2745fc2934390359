use xl_base::{LedgerId, Secs, Seq};

/// A member's word that a ledger is the one of its sequence.
#[derive(Clone, Copy, PartialEq, Eq)]
pub struct Validation {
    pub id: LedgerId,
    pub seq: Seq,
    /// The second at which it was signed.
    pub signed: Secs,
    /// A partial validation is a vote for the branch and counts for no quorum.
    pub full: bool,
    /// The ledger that its sender last reported as fully validated, or no ledger's id if there is none. A validation
    /// of version 2 tells it, one of version 1 doesn't.
    pub validated: Option<LedgerId>,
}
