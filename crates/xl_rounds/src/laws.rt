ghost use Rattle.std.specs.Prelude.{◌≡◌};
ghost use Rattle.xl_rounds.specs.declared.agreement.TheConstants.{CONSENSUS_PERCENT, LEAST_MS};
ghost use Rattle.xl_rounds.specs.declared.closing.TheConstants.{IDLE_MS, LEAST_OPEN_MS, LONGEST_MS};
ghost use Rattle.xl_rounds.specs.declared.pending.TheConstants.{POOL};
ghost use Rattle.xl_rounds.specs.declared.positions.TheConstants.{FRESH_SECS};
ghost use Rattle.xl_rounds.specs.declared.round.TheConstants.{LEAVING};
ghost use Rattle.xl_rounds.specs.declared.round.heartbeat.TheConstants.{LAST_SEQUENCE, LEAST_FORMER_MS, RENEWED_SECS};
ghost use Rattle.xl_rounds.specs.declared.setting.TheConstants.{USUAL_RESOLUTION};
ghost use Rattle.xl_rounds.specs.Laws.{NoneWaitsInVain, PositionsAreNewer, ReadyIsAgreed};
ghost use Rattle.xl_rounds.specs.Numbers.{consensus_percent, fresh_secs, idle_ms, last_sequence, least_former_ms, least_ms, least_open_ms, leaving, longest_ms, most_pending, renewed_secs, usual_resolution};

/// The laws of rounds, which have no code: they speak of every round, whatever comes.
pub fn rounds()
    // A round that is ready, the members not having moved on, has no positions, or four fifths of them name our set.
    ensures agreed { ReadyIsAgreed }
    // A member's position gives way to a newer one alone, or goes.
    ensures newer { PositionsAreNewer }
    // After a start no proposal waits that could be handed to the rule now, or never will be.
    ensures waiting { NoneWaitsInVain }
{}

/// The law of the constants, which has no code: each is the number that the definitions give.
pub fn law_of_constants()
    ensures longest { LONGEST_MS ≡ longest_ms }
    ensures idle { IDLE_MS ≡ idle_ms }
    ensures open { LEAST_OPEN_MS ≡ least_open_ms }
    ensures least { LEAST_MS ≡ least_ms }
    ensures former { LEAST_FORMER_MS ≡ least_former_ms }
    ensures fresh { FRESH_SECS ≡ fresh_secs }
    ensures renewed { RENEWED_SECS ≡ renewed_secs }
    ensures consensus { CONSENSUS_PERCENT ≡ consensus_percent }
    ensures leaving { LEAVING ≡ leaving }
    ensures last { LAST_SEQUENCE ≡ last_sequence }
    ensures resolution { USUAL_RESOLUTION ≡ usual_resolution }
    ensures pending { POOL ≡ most_pending }
{}
