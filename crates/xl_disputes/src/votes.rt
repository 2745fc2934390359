ghost use Rattle.std.specs.Prelude.{◌≡◌};
ghost use Rattle.xl_disputes.specs.Votes.{threshold as threshold_of, weight as weight_of, next_vote as next_vote_of};

/// How the members' positions vote on a transaction, and whether our own set has it. Our own position is in neither
/// count.
#[derive(Clone, Copy, PartialEq, Eq)]
pub struct Votes {
    /// The members whose position's set is held and has it.
    pub yays: u32,
    /// The members whose position's set is held and hasn't it.
    pub nays: u32,
    pub ours: bool,
}

/// The weight, in percent, that a yes vote must exceed once this percent of the previous round's time has passed.
pub fn threshold(percent: u64) -> u32
    ensures { result ≡ threshold_of percent }
{
    match percent {
        0..50 => 50,
        50..85 => 65,
        85..200 => 70,
        _ => 95,
    }
}

impl Votes {
    /// Our next vote, if a yes vote must weigh more than `needed` percent. It stays if every other vote is ours already.
    pub(crate) fn next(self, needed: u32, proposing: bool) -> bool
        ensures { result ≡ next_vote_of needed proposing self }
    {
        let stays = if self.ours {
            self.nays == 0
        } else {
            self.yays == 0
        };
        if stays {
            self.ours
        } else if proposing {
            self.weight() > u64::from(needed)
        } else {
            self.yays > self.nays
        }
    }

    /// The share of yes votes, ours counted, in percent, rounded down.
    fn weight(self) -> u64
        ensures { result ≡ weight_of self }
    {
        let ours = if self.ours { 100 } else { 0 };
        (u64::from(self.yays) * 100 + ours) / (u64::from(self.yays) + u64::from(self.nays) + 1)
    }
}
