ghost use Rattle.std.specs.Prelude.{◌≡◌, if◌then◌else◌};
ghost use Rattle.xl_core.specs.declared.timer_answer.Issued.TheVariants.{Full, Partial};

use crate::Refusal;
use xl_base::{LedgerId, Seq};

/// How a node validated a ledger that it built.
#[derive(Clone, Copy, PartialEq, Eq)]
pub enum Issued {
    /// By a full validation.
    Full,
    /// By a partial one.
    Partial,
    /// Not at all: it isn't a validator, or the members moved on without it.
    Silent,
    /// Its validation was refused: as not after the last saved sequence, for a save that failed, or because this one
    /// did.
    Refused(Refusal),
}

/// What came of a node's timer.
#[derive(Clone, Copy, PartialEq, Eq)]
pub enum TimerAnswer {
    Nothing,
    /// It closed the round's open phase.
    Closed,
    /// It renewed its position, and the round goes on.
    Updated,
    /// The votes chose the ledger of this sequence and id, on which it started a round.
    Switched(Seq, LedgerId),
    /// The next ledger is agreed on, but this many ledgers are known, as many as may be.
    NoRoom(u32),
    /// It built the next ledger, and started a round on it.
    Built {
        seq: Seq,
        id: LedgerId,
        /// Whether the members moved on without it.
        moved_on: bool,
        issued: Issued,
    },
}

/// How a validation was issued.
pub(crate) fn full_or_partial(full: bool) -> Issued
    ensures { result ≡ (if full then Full else Partial) }
{
    if full { Issued::Full } else { Issued::Partial }
}
