ghost use Rattle.std.specs.Prelude.{◌≡◌, ◌==◌};
ghost use Rattle.xl_disputes.specs.Tallies.{held_by, exchanged, IsWithin, IsFitting, no_tally};
ghost use Rattle.xl_disputes.specs.Standings.{votes_by};

use crate::Votes;
use std::marker::Model;

/// Which sets have an id, and how many positions stand for one of them: sums over the sets that have it.
#[derive(Clone, Copy)]
pub(crate) struct Tally {
    /// A member's set gives the member's own bit, so bit m - 1 says whether the set of member m has the id. The 64 bits
    /// stand in two halves, so that no row is padded to a multiple of eight bytes.
    lower: u32,
    upper: u32,
    /// Each set gives the positions that stand for it.
    yays: u32,
    /// Our own set gives 1.
    ours: u32,
}

impl Model for Tally {
    ghost use Rattle.std.specs.Prelude.{◌+◌, ◌*◌, ◌/◌, ◌%◌, ◌^◌, ◌<◌};
    ghost use Rattle.xl_disputes.specs.Tallies.{Tally as Sums};

    ghost Value = { Sums };

    ghost view = { λ t. record { members = t.upper * 2 ^ 32 + t.lower; yays = t.yays; ours = t.ours } };

    ghost invariant = { λ t. t.lower < 2 ^ 32 };

    ghost inverse = { λ t. record {
      lower = t.members % 2 ^ 32;
      upper = t.members / 2 ^ 32;
      yays = t.yays;
      ours = t.ours;
    } };
}

impl Tally {
    pub(crate) fn new(members: u64, yays: u32, ours: u32) -> Tally
        ensures { result ≡ record { members = members; yays = yays; ours = ours } }
    {
        Tally {
            lower: (members & 0xffff_ffff) as u32,
            upper: (members >> 32) as u32,
            yays,
            ours,
        }
    }

    fn members(self) -> u64
        ensures { result ≡ self.members }
    {
        (u64::from(self.upper) << 32) + u64::from(self.lower)
    }

    /// What an id has that is in no set.
    pub(crate) fn none() -> Tally
        ensures { result ≡ no_tally }
    {
        Tally::new(0, 0, 0)
    }

    /// Whether no set has the id.
    pub(crate) fn is_none(self) -> bool
        ensures { result ≡ (held_by self == 0) }
    {
        self.members() == 0 && self.ours == 0
    }

    /// The votes that it stands for, if this many positions vote.
    pub(crate) fn votes(self, voters: u32) -> Votes
        ensures { result ≡ votes_by voters self }
    {
        Votes {
            yays: self.yays,
            nays: voters.saturating_sub(self.yays),
            ours: self.ours > 0,
        }
    }

    /// With one part taken out, and another put in.
    pub(crate) fn exchange(self, from: Tally, to: Tally) -> Tally
        requires within { IsWithin from self }
        requires fitting { IsFitting (exchanged from to self) }
        ensures { result ≡ exchanged from to self }
    {
        Tally::new(
            self.members() - from.members() + to.members(),
            self.yays - from.yays + to.yays,
            self.ours - from.ours + to.ours,
        )
    }
}
