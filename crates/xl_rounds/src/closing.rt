ghost use Rattle.std.specs.Prelude.{◌≡◌};
ghost use Rattle.xl_rounds.specs.Closing.{should_close as should_close_of};

use xl_base::Millis;

/// A round or a wait above it is too long.
const LONGEST_MS: Millis = 600_000;

/// How long a round waits if nothing is pending.
const IDLE_MS: Millis = 15_000;

/// How long it waits if something is.
const LEAST_OPEN_MS: Millis = 2_000;

/// What says whether the open phase closes.
#[derive(Clone, Copy)]
pub(crate) struct Waiting {
    /// How long the previous round took.
    pub(crate) previous_ms: Millis,
    /// How long this one has waited.
    pub(crate) elapsed: Millis,
    /// The members that have closed: their positions.
    pub(crate) closed: u32,
    /// The members other than us that have validated the previous ledger.
    pub(crate) validated: u32,
    /// The members' positions at the end of the previous round.
    pub(crate) previous_proposers: u32,
    /// The pending transactions.
    pub(crate) pending: usize,
}

/// Whether the open phase closes.
pub(crate) fn should_close(waiting: Waiting) -> bool
    ensures { result ≡ should_close_of waiting }
{
    let elapsed = waiting.elapsed;
    let others = u64::from(waiting.closed) + u64::from(waiting.validated);
    if waiting.previous_ms > LONGEST_MS || elapsed > LONGEST_MS {
        return true;
    }
    if others > u64::from(waiting.previous_proposers) / 2 {
        return true;
    }
    if waiting.pending == 0 {
        return elapsed >= IDLE_MS;
    }
    elapsed >= LEAST_OPEN_MS && elapsed >= waiting.previous_ms / 2
}
