use xl_base::{LedgerId, SetId, TxId};
use xl_wire::{Proposal, Validation};

/// What waits for a peer until it is sent in a frame.
#[derive(Clone, Copy, PartialEq, Eq)]
pub enum Item {
    Validation(Validation),
    /// A transaction that was handed in.
    Tx(TxId),
    /// Our set, by its id: it isn't sent once ours has another.
    TxSet(SetId),
    /// Our position.
    Proposal(Proposal),
    /// The header of a known ledger, by the ledger's id.
    Header(LedgerId),
}
