ghost use Rattle.std.specs.Prelude.{◌≡◌, ◌<◌, ◌≤◌, length, vec_len, vec_capacity};
ghost use Rattle.xl_ledger.specs.Votes.{without, tip_of};

use crate::preferring::{branch, prefer};
use std::alloc::Global;
use xl_base::{NodeNo, OutOfMemory, Seq};
use xl_ledger::{Branch, LedgerNo, Registry, Vote, Walk};

/// A list of votes, whose room is taken when it is opened.
#[derive(Drop)]
pub struct Plain {
    votes: Vec<Vote>,
    members: u32,
    ghost few: { members ≤ 64 },
    ghost within: { vec_len votes ≤ members },
    ghost reserved: { members ≤ vec_capacity votes },
}

fn count_for(votes: &[Vote], ledger: LedgerNo) -> usize
    ensures value { result ≡ tip_of votes.now ledger }
    ensures few { result ≤ length votes.now }
{
    votes.iter().filter(|vote| vote.ledger == ledger).count()
}

fn drop_votes_of(votes: &mut Vec<Vote>, member: NodeNo)
    ensures without { votes.new.items ≡ without votes.old.items member }
    ensures fewer { vec_len votes.new ≤ vec_len votes.old }
    ensures room { vec_capacity votes.new ≡ vec_capacity votes.old }
{
    votes.retain(|vote| vote.member != member);
}

impl Branch for Plain {
    ghost use Rattle.std.specs.Prelude.{◌<◌, ◌++◌, [], ◌∷◌, None, length, All};
    ghost use Rattle.std.proofs.Common.{subst, sym};
    ghost use Rattle.std.proofs.Math.Nat.{lt_trans};
    ghost use Rattle.std.proofs.Math.Numerals.{lt-add-one};
    ghost use Rattle.std.proofs.lemmas.List.{length_push};
    ghost use Rattle.std.proofs.lemmas.List.Elements.{All-weaker};
    ghost use Rattle.xl_ledger.specs.Votes.{AreKnown};

    ghost JUMPS = { None };

    const JUMPS: Option<u64> = None;

    ghost votes = { λ p. p.votes.items };

    ghost room = { λ p. p.members };

    ghost goes_with = { λ p ledgers. AreKnown ledgers p.votes.items };

    fn open(alloc: Global, members: u32) -> Result<Self, OutOfMemory> {
        Ok(Plain {
            votes: Vec::with_capacity(alloc, members as usize)?,
            members,
        })
    }

    fn vote(&mut self, _registry: &Registry, member: NodeNo, ledger: LedgerNo) {
        self.votes.push_reserved(Vote { member, ledger });
    }

    fn unvote(&mut self, _registry: &Registry, member: NodeNo) {
        drop_votes_of(&mut self.votes, member);
    }

    fn tip(&self, _registry: &Registry, ledger: LedgerNo) -> u32 {
        count_for(&self.votes, ledger) as u32
    }

    fn branch(&self, registry: &Registry, ledger: LedgerNo) -> u32 {
        branch(&self.votes, &mut registry.walk(), ledger) as u32
    }

    fn preferred(&self, walk: &mut Walk<'_>, largest: Seq) -> Option<LedgerNo> {
        if self.votes.is_empty() {
            return None;
        }
        Some(prefer(&self.votes, walk, largest))
    }

    // A ledger that was known is still, since there is one more.
    ghost grows = { λ p ledgers h ok known.
        All-weaker (λ v. v.ledger < length ledgers) (λ v. v.ledger < length (ledgers ++ h ∷ []))
        (λ v lt. subst (λ n. v.ledger < n) (sym (length_push ledgers h)) (lt_trans lt (lt-add-one (length ledgers))))
        p.votes.items known };
}
