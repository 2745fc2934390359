ghost use Rattle.std.specs.Prelude.{◌≡◌};
ghost use Rattle.xl_rounds.specs.Codes.{code_of};

use xl_base::{LedgerId, NodeNo, Secs, TxId};

/// Why a round doesn't take a transaction or a proposal. Each cause is told only if no earlier one of its call
/// holds.
#[derive(Clone, Copy, PartialEq, Eq)]
pub enum RoundRefusal {
    /// The transaction is pending.
    Pending(TxId),
    /// This many transactions are pending, as many as may be.
    PoolFull(u32),
    /// The proposal builds on another ledger than ours, which is given, and on one that is known and not later than
    /// ours.
    WrongPrev(LedgerId),
    /// Its propose sequence isn't above that of the member's position, which is given.
    OldPosition(u32),
    /// The member left this round.
    Left(NodeNo),
    /// It was made twenty seconds or more before the second now, which is given.
    StaleProposal(Secs),
}

impl RoundRefusal {
    /// The number of the refusal.
    pub fn code(self) -> u32
        ensures { result ≡ code_of self }
    {
        match self {
            RoundRefusal::Pending(_) => 24,
            RoundRefusal::PoolFull(_) => 25,
            RoundRefusal::WrongPrev(_) => 26,
            RoundRefusal::OldPosition(_) => 27,
            RoundRefusal::Left(_) => 28,
            RoundRefusal::StaleProposal(_) => 29,
        }
    }
}
