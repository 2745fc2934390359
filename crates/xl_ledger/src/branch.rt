ghost use Rattle.std.specs.Prelude.{◌≡◌, ◌+◌, ◌<◌, ◌≤◌, ◌++◌, ℕ, List, [], ◌∷◌, length, Option, IfSome, IfOk, IsTrue, IsFalse};
ghost use Rattle.xl_ledger.specs.declared.header.Header.{Header};
ghost use Rattle.xl_ledger.specs.Chains.{AreLedgers};
ghost use Rattle.xl_ledger.specs.declared.vote.Vote.{Vote};
ghost use Rattle.xl_ledger.specs.Votes.{has_voted, without, tip_of, branch_of, preferred_of};
ghost use Rattle.xl_ledger.specs.Walks.{GoesOn};

use crate::{LedgerNo, Registry, Walk};
use std::alloc::Global;
use xl_base::{NodeNo, OutOfMemory, Seq};

/// Members' votes for ledgers, and the branch that they prefer. No call after `open` takes memory.
///
/// It goes with one registry: each call is handed that registry, or a walk on it, whatever was added to it meanwhile.
pub trait Branch: Sized {
    ghost JUMPS: { Option ℕ };

    /// At most this many steps a call of `preferred` takes, if that is known.
    const JUMPS: Option<u64>;

    /// The votes that stand.
    ghost votes: { Self → List Vote };

    /// How many members may vote.
    ghost room: { Self → ℕ };

    /// The registry that it goes with has these ledgers.
    ghost goes_with: { Self → List Header → Type 0 };

    /// No votes, with room for those of this many members, or `OutOfMemory`.
    fn open(alloc: Global, members: u32) -> Result<Self, OutOfMemory>
        requires { members ≤ 64 }
        ensures votes { IfOk result (λ branch. votes branch ≡ []) }
        ensures room { IfOk result (λ branch. room branch ≡ members) }
        ensures goes { IfOk result (λ branch. (ledgers : List Header) → AreLedgers ledgers
            → goes_with branch ledgers) };

    /// Takes the vote of a member that has none.
    fn vote(&mut self, registry: &Registry, member: NodeNo, ledger: LedgerNo)
        requires goes { goes_with self.old registry.now.headers }
        requires known { ledger < length registry.now.headers }
        requires new { IsFalse (has_voted (votes self.old) member) }
        requires fits { length (votes self.old) < room self.old }
        ensures votes { votes self.new ≡ votes self.old ++ record { member = member; ledger = ledger } ∷ [] }
        ensures room { room self.new ≡ room self.old }
        ensures goes { goes_with self.new registry.now.headers };

    /// Takes the vote of a member back.
    fn unvote(&mut self, registry: &Registry, member: NodeNo)
        requires goes { goes_with self.old registry.now.headers }
        requires voted { IsTrue (has_voted (votes self.old) member) }
        ensures votes { votes self.new ≡ without (votes self.old) member }
        ensures room { room self.new ≡ room self.old }
        ensures goes { goes_with self.new registry.now.headers };

    /// How many votes are for this ledger.
    fn tip(&self, registry: &Registry, ledger: LedgerNo) -> u32
        requires goes { goes_with self.now registry.now.headers }
        requires known { ledger < length registry.now.headers }
        ensures { result ≡ tip_of (votes self.now) ledger };

    /// How many votes are for this ledger or one below it.
    fn branch(&self, registry: &Registry, ledger: LedgerNo) -> u32
        requires goes { goes_with self.now registry.now.headers }
        requires known { ledger < length registry.now.headers }
        ensures { result ≡ branch_of registry.now.headers (votes self.now) ledger };

    /// The ledger that the votes prefer, or None exactly if there are none. It is the root, or the end of the way
    /// from there to the best child, again and again, as long as that one's margin exceeds the uncommitted votes.
    fn preferred(&self, walk: &mut Walk<'_>, largest: Seq) -> Option<LedgerNo>
        requires { goes_with self.now walk.old.ledgers.headers }
        ensures value { result ≡ preferred_of walk.old.ledgers.headers (votes self.now) largest }
        ensures goes_on { GoesOn walk.old walk.new }
        ensures steps { IfSome JUMPS (λ most. walk.new.taken ≤ walk.old.taken + most) };

    /// It goes with the registry still when a header is added.
    ghost grows: { (branch : Self) (ledgers : List Header) (h : Header) → AreLedgers ledgers
        → goes_with branch ledgers → goes_with branch (ledgers ++ h ∷ []) };
}
