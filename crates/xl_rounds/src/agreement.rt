ghost use Rattle.std.specs.Prelude.{◌≡◌, ◌≤◌, ◌<◌, ◌*◌, ◌/◌};
ghost use Rattle.xl_rounds.specs.Agreement.{consensus, is_short as is_short_of};

use xl_base::Millis;

/// No consensus is found before this time.
pub(crate) const LEAST_MS: Millis = 1_950;

/// This many percent make a consensus.
const CONSENSUS_PERCENT: u64 = 80;

/// What says whether there is consensus.
#[derive(Clone, Copy)]
pub(crate) struct Tally {
    /// How long this round has taken since it closed.
    pub(crate) round_ms: Millis,
    /// How long the previous round took.
    pub(crate) previous_ms: Millis,
    /// The members' positions.
    pub(crate) positions: u32,
    /// The members' positions at the end of the previous round.
    pub(crate) previous_proposers: u32,
    /// The positions, ours among them if we propose, that name our set.
    pub(crate) agree: u32,
    /// The positions, ours among them if we propose.
    pub(crate) total: u32,
    /// The votes for ledgers that build on the previous one, directly or not.
    pub(crate) finished: u32,
}

/// Whether the members agree.
#[derive(Clone, Copy, PartialEq, Eq)]
pub(crate) enum Consensus {
    No,
    Yes,
    /// They agreed on another ledger, and have gone on from it.
    MovedOn,
}

/// Fewer than three quarters of the previous round's proposers have a position, and the round hasn't taken longer than
/// that one.
fn is_short(t: Tally) -> bool
    requires { LEAST_MS ≤ t.round_ms }
    ensures { result ≡ is_short_of t }
{
    u64::from(t.positions) < u64::from(t.previous_proposers) * 3 / 4
        && t.round_ms - LEAST_MS < t.previous_ms
}

/// A share in percent, rounded down.
fn percent(part: u32, whole: u32) -> u64
    requires { 0 < whole }
    ensures { result ≡ part * 100 / whole }
{
    u64::from(part) * 100 / u64::from(whole)
}

/// Whether there is consensus.
pub(crate) fn consensus_of(t: Tally) -> Consensus
    requires { t.positions ≤ t.total }
    ensures { result ≡ consensus t }
{
    if t.round_ms <= LEAST_MS {
        return Consensus::No;
    }
    if is_short(t) {
        return Consensus::No;
    }
    if t.positions == 0 {
        return Consensus::Yes;
    }
    if percent(t.agree, t.total) >= CONSENSUS_PERCENT {
        return Consensus::Yes;
    }
    if percent(t.finished, t.positions) >= CONSENSUS_PERCENT {
        return Consensus::MovedOn;
    }
    Consensus::No
}
