use xl_base::{LedgerId, Seq};
use xl_wire::Validation;

/// A ledger that a node holds to be fully validated: a quorum of its list's current full validations name it.
#[derive(Clone, Copy, PartialEq, Eq)]
pub struct Report {
    pub seq: Seq,
    pub id: LedgerId,
}

/// A validation that a node has issued, and what it reports by its own row.
#[derive(Clone, Copy, PartialEq, Eq)]
pub struct OwnValidation {
    pub validation: Validation,
    pub report: Option<Report>,
}
