ghost use Rattle.std.specs.Prelude.{◌≡◌};
ghost use Rattle.xl_ledger.specs.Limits.{least_limit, greatest_limit};
ghost use Rattle.xl_ledger.specs.Votes.{BranchesAreSame, PreferredAreSame, TipsAreSame};
ghost use Rattle.xl_ledger.specs.declared.registry.TheConstants.{LEAST_LIMIT, GREATEST_LIMIT};

/// The law of votes in another order, which has no code: the same votes in whatever order say the same of each ledger.
pub fn law_of_votes()
    // As many votes are for a ledger.
    ensures tips { TipsAreSame }
    // As many are for it or one below it.
    ensures branches { BranchesAreSame }
    // The same ledger is preferred.
    ensures preferred { PreferredAreSame }
{}

/// What the limits are, which has no code.
pub fn limits()
    ensures least { LEAST_LIMIT ≡ least_limit }
    ensures greatest { GREATEST_LIMIT ≡ greatest_limit }
{}
