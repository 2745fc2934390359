ghost use Rattle.std.specs.Prelude.{◌≡◌, ◌-◌, ◌+◌, ◌<◌, slice_index_or, slice_set};
ghost use Rattle.xl_voting.specs.Tallying.{none_latest};

use std::marker::Model;
use xl_base::{MOST_MEMBERS, NodeNo, Seq};

/// The sequence of each node's last flag report, or 0, and how many flag reports there were.
#[derive(Drop)]
pub struct Latest {
    seqs: [Seq; MOST_MEMBERS],
    count: u64,
}

impl Model for Latest {
    ghost use Rattle.xl_voting.specs.Tallying.{IsCounted, LatestFlags};

    ghost Value = { LatestFlags };

    ghost view = { λ l. record { seqs = l.seqs; count = l.count } };

    ghost invariant = { λ l. IsCounted l.seqs l.count };
}

impl Latest {
    /// No flag report.
    pub fn new() -> Latest
        ensures { result ≡ none_latest }
    {
        Latest {
            seqs: [0; MOST_MEMBERS],
            count: 0,
        }
    }

    /// The sequence of a node's last flag report, or 0.
    pub fn of(&self, node: NodeNo) -> Seq
        ensures { result ≡ slice_index_or self.now.seqs (node - 1) 0 }
    {
        self.seqs[place_of(node)]
    }

    /// A node's flag report of a later sequence.
    pub fn report(&mut self, node: NodeNo, seq: Seq)
        requires { slice_index_or self.old.seqs (node - 1) 0 < seq }
        ensures seqs { self.new.seqs ≡ slice_set self.old.seqs (node - 1) seq }
        ensures count { self.new.count ≡ self.old.count + 1 }
    {
        self.seqs[place_of(node)] = seq;
        self.count += 1;
    }

    /// How many flag reports there were.
    pub fn count(&self) -> u64
        ensures { result ≡ self.now.count }
    {
        self.count
    }
}

/// The place of a node's number.
fn place_of(node: NodeNo) -> usize
    ensures value { result ≡ node - 1 }
    ensures within { result < 64 }
{
    node.get() as usize - 1
}
