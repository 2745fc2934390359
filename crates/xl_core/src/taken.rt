use crate::{Refusal, Report};
use xl_base::{LedgerId, SetId};

/// What a node took of a frame.
#[derive(Clone, Copy, PartialEq, Eq)]
pub enum Taken {
    /// A validation, into its sender's row.
    Validation,
    /// A header of this id, to the known ledgers.
    Header(LedgerId),
    /// A proposal, as the sender's position.
    Position,
    /// A proposal on a later or an unknown ledger, which waits for a round on that.
    Later,
    /// A proposal by which the sender leaves the round.
    Gone,
    /// A set of this id, as the one that the sender holds.
    Set(SetId),
    /// A transaction, to the pending ones.
    Pending,
}

/// What stands where a node writes what it hears, before it does.
pub(crate) const UNHEARD: Result<Heard, Refusal> = Err(Refusal::Short(0));

/// What a node took of a frame, and what it reports then.
#[derive(Clone, Copy, PartialEq, Eq)]
pub struct Heard {
    pub taken: Taken,
    pub report: Option<Report>,
}
