ghost use Rattle.std.specs.Prelude.{◌≡◌, ◌≢◌, ◌+◌, ◌<◌, ◌≤◌, length, slice_get, Some};
ghost use Rattle.xl_ledger.specs.Chains.{header_at, id_at, seq_at, chain, common_of, AreLedgers};
ghost use Rattle.xl_ledger.specs.Jumps.{jump_of};
ghost use Rattle.xl_ledger.specs.Limits.{greatest_limit, levels};
ghost use Rattle.xl_base.specs.Counts.{one_more};
ghost use Rattle.xl_ledger.specs.Walks.{start_of, GoesOn, TakesStep};

use crate::ledger::LEVELS;
use crate::{Header, LedgerNo, Registry};
use std::marker::Model;
use xl_base::{LedgerId, Seq, Steps};

/// The one way along the chains of a registry, which counts its steps: jumps that it takes, and headers that it reads.
///
/// It stays on its registry, and hands out neither that nor its count of steps.
#[derive(Drop)]
pub struct Walk<'a> {
    registry: &'a Registry,
    steps: Steps,
}

impl<'a> Model for Walk<'a> {
    ghost use Rattle.xl_ledger.specs.Walks.{Walked};

    ghost Value = { Walked };

    ghost view = { λ w. record { ledgers = w.registry.now; taken = w.steps } };
}

impl<'a> Walk<'a> {
    pub(crate) fn new(registry: &'a Registry) -> Walk<'a>
        ensures { result ≡ start_of registry.now }
    {
        Walk {
            registry,
            steps: Steps::new(),
        }
    }

    /// How many steps it took.
    pub fn taken(&self) -> u64
        ensures { result ≡ self.now.taken }
    {
        self.steps.taken()
    }

    /// How many ledgers are known, the root among them. No step.
    pub fn len(&self) -> u32
        ensures value { result ≡ length self.now.ledgers.headers }
        ensures ledgers { AreLedgers self.now.ledgers.headers }
    {
        self.registry.len()
    }

    /// The id of a ledger. No step.
    pub fn id_at(&self, ledger: LedgerNo) -> LedgerId
        requires { ledger < length self.now.ledgers.headers }
        ensures { result ≡ id_at self.now.ledgers.headers ledger }
    {
        self.registry.id_at(ledger)
    }

    /// The sequence of a ledger. No step.
    pub fn seq_of(&self, ledger: LedgerNo) -> Seq
        requires { ledger < length self.now.ledgers.headers }
        ensures value { result ≡ seq_at self.now.ledgers.headers ledger }
        ensures below { result < greatest_limit }
        ensures ledgers { AreLedgers self.now.ledgers.headers }
    {
        self.registry.seq_of(ledger)
    }

    /// The header of a ledger. One step.
    pub fn header(&mut self, ledger: LedgerNo) -> &'a Header
        requires { ledger < length self.old.ledgers.headers }
        ensures value { result.now ≡ header_at self.old.ledgers.headers ledger }
        ensures goes_on { GoesOn self.old self.new }
        ensures step { self.new.taken ≡ one_more self.old.taken }
    {
        self.steps.tick();
        self.registry.header(ledger)
    }

    /// The ledger of this sequence on the chain of a ledger: one jump for each bit of how far up it is, so at most 18
    /// steps.
    ///
    /// No step where the sequence is the ledger's own, and at least one elsewhere.
    pub fn ancestor(&mut self, ledger: LedgerNo, seq: Seq) -> LedgerNo
        requires known { ledger < length self.old.ledgers.headers }
        requires above { seq ≤ seq_at self.old.ledgers.headers ledger }
        ensures value { slice_get (chain self.old.ledgers.headers ledger) seq ≡ Some result }
        ensures known { result < length self.old.ledgers.headers }
        ensures sequence { seq_at self.old.ledgers.headers result ≡ seq }
        ensures goes_on { GoesOn self.old self.new }
        ensures still { seq ≡ seq_at self.old.ledgers.headers ledger → self.new ≡ self.old }
        ensures step { seq ≢ seq_at self.old.ledgers.headers ledger → TakesStep self.old self.new }
        ensures most { self.new.taken ≤ self.old.taken + 18 }
    {
        let mut at = ledger;
        while self.seq_of(at) > seq {
            let left = self.seq_of(at) - seq;
            at = self.jump(at, left.ilog2());
        }
        at
    }

    /// The last ledger that the chains of two ledgers have in common, in at most 54 steps: at most 18 bring both to one
    /// sequence, and then each takes at most 18.
    ///
    /// No step where it is one ledger, and at least one where the ledgers differ.
    pub fn common(&mut self, a: LedgerNo, b: LedgerNo) -> LedgerNo
        requires a_known { a < length self.old.ledgers.headers }
        requires b_known { b < length self.old.ledgers.headers }
        ensures value { result ≡ common_of self.old.ledgers.headers a b }
        ensures known { result < length self.old.ledgers.headers }
        ensures goes_on { GoesOn self.old self.new }
        ensures still { a ≡ b → self.new ≡ self.old }
        ensures step { a ≢ b → TakesStep self.old self.new }
        ensures most { self.new.taken ≤ self.old.taken + 54 }
    {
        let a_seq = self.seq_of(a);
        let b_seq = self.seq_of(b);
        // What they share isn't below the higher of the two.
        if a_seq > b_seq {
            let left = self.ancestor(a, b_seq);
            self.meet(left, b)
        } else {
            let right = self.ancestor(b, a_seq);
            self.meet(a, right)
        }
    }

    /// The same for two ledgers of one sequence.
    ///
    /// From the farthest jump down, both take each that leads them to different ledgers. So they end just below the
    /// ledger that they share.
    fn meet(&mut self, a: LedgerNo, b: LedgerNo) -> LedgerNo
        requires a_known { a < length self.old.ledgers.headers }
        requires b_known { b < length self.old.ledgers.headers }
        requires ledgers { AreLedgers self.old.ledgers.headers }
        requires one_seq { seq_at self.old.ledgers.headers a ≡ seq_at self.old.ledgers.headers b }
        requires low { seq_at self.old.ledgers.headers a < greatest_limit }
        ensures value { result ≡ common_of self.old.ledgers.headers a b }
        ensures known { result < length self.old.ledgers.headers }
        ensures goes_on { GoesOn self.old self.new }
        ensures still { a ≡ b → self.new ≡ self.old }
        ensures step { a ≢ b → TakesStep self.old self.new }
        ensures most { self.new.taken ≤ self.old.taken + 36 }
    {
        if a == b {
            return a;
        }
        let mut left = a;
        let mut right = b;
        let mut level = LEVELS as u32;
        while level > 0 {
            level -= 1;
            if self.leads_to(left, level) != self.leads_to(right, level) {
                left = self.jump(left, level);
                right = self.jump(right, level);
            }
        }
        self.jump(left, 0)
    }

    /// Where a jump leads. No step, since it isn't taken.
    fn leads_to(&self, ledger: LedgerNo, level: u32) -> LedgerNo
        requires known { ledger < length self.now.ledgers.headers }
        requires level { level < levels }
        ensures { result ≡ jump_of self.now.ledgers.headers ledger level }
    {
        self.registry.jump(ledger, level)
    }

    /// Takes a jump. One step.
    fn jump(&mut self, ledger: LedgerNo, level: u32) -> LedgerNo
        requires known { ledger < length self.old.ledgers.headers }
        requires level { level < levels }
        ensures value { result ≡ jump_of self.old.ledgers.headers ledger level }
        ensures goes_on { GoesOn self.old self.new }
        ensures step { self.new.taken ≡ one_more self.old.taken }
    {
        self.steps.tick();
        self.registry.jump(ledger, level)
    }
}
