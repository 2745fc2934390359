ghost use Rattle.std.specs.Prelude.{◌≡◌, ◌≤◌, ◌<◌, length, All, IfOk, IfErr, IsTrue, OnOk};
ghost use Rattle.xl_flags.specs.Votes.{most_amendments};
ghost use Rattle.xl_flags.specs.declared.refusal.FlagRefusal.TheVariants.{TooMany};
ghost use Rattle.xl_voting.specs.Tallying.{nothing_tallied, tally_keeping};
ghost use Rattle.xl_voting.specs.Reports.{is_due};

use crate::latest::Latest;
use std::alloc::Global;
use std::marker::Model;
use xl_base::{NodeNo, OutOfMemory, Secs, Seq};
use xl_flags::{FlagNews, FlagRefusal, FlagVotes};
use xl_sched::Favor;

/// A flag ledger's sequence is divisible by this.
const FLAG: u32 = 256;

/// Votes and flag reports so far.
#[derive(Drop)]
pub struct Tally {
    votes: FlagVotes,
    latest: Latest,
}

impl Model for Tally {
    ghost use Rattle.xl_voting.specs.Tallying.{Tallying};

    ghost Value = { Tallying };

    ghost view = { λ t. record { kept = t.votes; last = t.latest.seqs; count = t.latest.count } };
}

impl Tally {
    /// No votes and no reports. It takes no memory.
    pub fn new(alloc: Global) -> Tally
        ensures { result ≡ nothing_tallied }
    {
        Tally {
            votes: FlagVotes::open(alloc),
            latest: Latest::new(),
        }
    }

    /// A member votes from here on. Refused if too many amendments would be named, or as `OutOfMemory`.
    pub fn vote(&mut self, favor: &Favor) -> Result<(), FlagRefusal>
        ensures voted { OnOk result (self.new ≡ tally_keeping.voted self.old favor.now.member favor.now.fee favor.now.ids) }
        ensures many { IfErr result (λ e. e ≡ TooMany
            → most_amendments < tally_keeping.named self.old favor.now.member favor.now.fee favor.now.ids) }
        ensures few { OnOk result
            (tally_keeping.named self.old favor.now.member favor.now.fee favor.now.ids ≤ most_amendments) }
    {
        self.votes
            .favor(favor.member, favor.fee, favor.ids.as_slice())
    }

    /// Whether a node's report of this sequence may be a flag report.
    pub fn is_due(&self, node: NodeNo, seq: Seq) -> bool
        ensures value { result ≡ is_due tally_keeping self.now node seq }
        ensures later { IsTrue result → tally_keeping.last self.now node < seq }
    {
        seq % FLAG == 0 && self.latest.of(node) < seq
    }

    /// A node's flag report, of a ledger that closed then and that these members validated. What it says.
    pub fn report(
        &mut self,
        node: NodeNo,
        seq: Seq,
        close: Secs,
        counted: &[NodeNo],
    ) -> Result<FlagNews, OutOfMemory>
        requires later { tally_keeping.last self.old node < seq }
        requires few { length counted.now ≤ 64 }
        requires members { All (λ m. (1 ≤ m) × (m ≤ 64)) counted.now }
        ensures said { IfOk result (λ news. news ≡ tally_keeping.news self.old node seq close counted.now) }
        ensures reported { OnOk result (self.new ≡ tally_keeping.reported self.old node seq close counted.now) }
    {
        let news = self.votes.decide(node, seq, close, counted)?;
        self.latest.report(node, seq);
        Ok(news)
    }

    /// How many flag reports there were.
    pub fn count(&self) -> u64
        ensures { result ≡ tally_keeping.count self.now }
    {
        self.latest.count()
    }
}
