ghost use Rattle.std.specs.Prelude.{◌≡◌, ◌+◌, ◌<◌, ◌≤◌, map, length, take, Some, IsSome, is_some, if◌then◌else◌, IfSome, IfOk, OnOk, OnErr};
ghost use Rattle.std.specs.Result.{result_err};
ghost use Rattle.xl_lists.specs.Lists.{IsValid};
ghost use Rattle.xl_ledger.specs.Walks.{GoesOn};
ghost use Rattle.xl_validations.specs.Rows.{
  row_of,
  largest_of,
  current_of,
  heard_of,
  relisted,
  refusal_of,
  empty_row,
  with_validation,
  at_member,
  row_at,
  count_full,
  named,
};
ghost use Rattle.xl_validations.specs.Votes.{preferred, finished, choose_by, choose};
ghost use Rattle.xl_validations.specs.Tallies.{IsTallied, IsTalliedByAny, IsNewest};

use crate::tally::{cast_for, ledger_named, revote, take_back_expired, take_back_unlisted};
use crate::{Rows, ValRefusal};
use std::alloc::Global;
use std::marker::Model;
use xl_base::{LedgerId, MOST_MEMBERS, NodeNo, OutOfMemory, Secs, Seq};
use xl_ledger::{Branch, LedgerNo, Registry, Walk};
use xl_lists::List;
use xl_wire::Validation;

/// The rows of a list's members, and the branch of ledgers that has their votes. No call after `open` takes memory.
///
/// It goes with one registry. After each ledger that is added there, and before any other call that is handed the
/// registry, comes one `header_known`.
#[derive(Drop)]
pub struct Table<B> {
    me: NodeNo,
    rows: Rows,
    branch: B,
}

impl<B> Model for Table<B> {
    ghost use Rattle.xl_validations.specs.Tallies.{Table};

    ghost Value = { Table B };

    ghost view = { λ t. record { me = t.me; rows = t.rows; branch = t.branch } };
}

impl<B: Branch> Table<B> {
    /// An empty row for each member of the list of a node, and no vote.
    pub fn open(alloc: Global, list: &List, me: NodeNo) -> Result<Table<B>, OutOfMemory>
        ensures me { IfOk result (λ table. table.me ≡ me) }
        ensures rows { IfOk result (λ table. table.rows ≡ map empty_row list.now.members) }
        ensures tally { IfOk result (λ table. IsTalliedByAny B.goes_with B.votes B.room table) }
        ensures valid { IsValid list.now }
    {
        let rows = Rows::open(alloc, list)?;
        let branch = B::open(alloc, MOST_MEMBERS as u32)?;
        Ok(Table { me, rows, branch })
    }

    /// Takes a member's validation into its row. The member's vote is then for the ledger that it names, if that is
    /// known and of its sequence.
    ///
    /// Refused as stale, as a repeat, as a conflict, or as old, tested in this order; the table then stays as it was.
    pub fn take(
        &mut self,
        registry: &Registry,
        from: NodeNo,
        v: &Validation,
        now: Secs,
    ) -> Result<(), ValRefusal>
        requires listed { IsSome (row_of self.old.rows from) }
        requires tally { IsTallied B.goes_with B.votes B.room self.old registry.now.headers }
        ensures answer { result_err result ≡ refusal_of self.old.rows from now v.now }
        ensures taken { OnOk result (self.new.rows ≡ at_member from (with_validation v.now) self.old.rows) }
        ensures me { self.new.me ≡ self.old.me }
        ensures tally { IsTallied B.goes_with B.votes B.room self.new registry.now.headers }
        ensures refused { OnErr result (self.new ≡ self.old) }
    {
        let before = self.rows.current(from);
        self.rows.take(from, v, now)?;
        let after = ledger_named(registry, &Some(*v));
        revote(
            &mut self.branch,
            registry,
            from,
            ledger_named(registry, &before),
            after,
        );
        Ok(())
    }

    /// Removes the validations that are no longer current at a second, and their votes. Each row keeps its greatest
    /// sequence.
    pub fn expire(&mut self, registry: &Registry, now: Secs)
        requires tally { IsTallied B.goes_with B.votes B.room self.old registry.now.headers }
        ensures rows { self.new.rows ≡ map (row_at now) self.old.rows }
        ensures me { self.new.me ≡ self.old.me }
        ensures tally { IsTallied B.goes_with B.votes B.room self.new registry.now.headers }
    {
        take_back_expired(&mut self.branch, registry, self.rows.as_slice(), now);
        self.rows.expire(now);
    }

    /// Takes the votes of the validations that waited for the ledger that was added last. The rows stay.
    pub fn header_known(&mut self, registry: &Registry, ledger: LedgerNo)
        requires newest { IsNewest registry.now.headers ledger }
        requires tally { IsTallied B.goes_with B.votes B.room self.old (take ledger registry.now.headers) }
        ensures rows { self.new.rows ≡ self.old.rows }
        ensures me { self.new.me ≡ self.old.me }
        ensures tally { IsTallied B.goes_with B.votes B.room self.new registry.now.headers }
    {
        cast_for(&mut self.branch, registry, self.rows.as_slice(), ledger);
    }

    /// Goes over to another list: members that stay keep their rows and votes, those of the others go, and each new one
    /// has an empty row.
    pub fn relist(&mut self, registry: &Registry, list: List)
        requires tally { IsTallied B.goes_with B.votes B.room self.old registry.now.headers }
        ensures rows { self.new.rows ≡ relisted list.members self.old.rows }
        ensures me { self.new.me ≡ self.old.me }
        ensures tally { IsTallied B.goes_with B.votes B.room self.new registry.now.headers }
    {
        // Each list is valid.
        let _members = list.members();
        take_back_unlisted(&mut self.branch, registry, self.rows.as_slice(), &list);
        self.rows.relist(&list);
    }

    /// Whether the member has a row: it is on the list.
    pub fn has(&self, member: NodeNo) -> bool
        ensures { result ≡ is_some (row_of self.now.rows member) }
    {
        self.rows.has(member)
    }

    /// How many members' current full validations are of this sequence and name this id: at most 64.
    pub fn count_full(&self, seq: Seq, id: &LedgerId) -> u32
        ensures { result ≡ count_full seq id.now self.now.rows }
    {
        self.rows.count_full(seq, id)
    }

    /// How many members other than the node itself have a current validation, full or partial, that names this id: at
    /// most 64.
    pub fn named(&self, id: &LedgerId) -> u32
        ensures { result ≡ named self.now.me id.now self.now.rows }
    {
        self.rows.named(self.me, id)
    }

    /// The greatest sequence taken from a member; 0 at first, and for one without a row.
    pub fn largest(&self, member: NodeNo) -> Seq
        ensures { result ≡ largest_of self.now.rows member }
    {
        self.rows.largest(member)
    }

    /// A member's current validation, or None exactly if it has no row, or its row has none.
    pub fn current(&self, member: NodeNo) -> Option<Validation>
        ensures { result ≡ current_of self.now.rows member }
    {
        self.rows.current(member)
    }

    /// The ledger that a member last reported, as its current validation tells. None exactly if it has no row, or
    /// its row has no current validation, or that doesn't tell.
    pub fn heard(&self, member: NodeNo) -> Option<LedgerId>
        ensures { result ≡ heard_of self.now.rows member }
    {
        self.rows.heard(member)
    }

    /// How many votes are for ledgers below this one.
    pub fn finished(&self, registry: &Registry, ledger: LedgerNo) -> u32
        requires known { ledger < length registry.now.headers }
        requires tally { IsTallied B.goes_with B.votes B.room self.now registry.now.headers }
        ensures { result ≡ finished registry.now.headers self.now.rows ledger }
    {
        let branch = self.branch.branch(registry, ledger);
        branch.saturating_sub(self.branch.tip(registry, ledger))
    }

    /// The ledger that the votes prefer, if the largest sequence issued is this one. None exactly if there is no
    /// vote. At most as many steps as the branch says.
    pub fn preferred(&self, walk: &mut Walk<'_>, largest: Seq) -> Option<LedgerNo>
        requires tally { IsTallied B.goes_with B.votes B.room self.now walk.old.ledgers.headers }
        ensures value { result ≡ preferred walk.old.ledgers.headers self.now.rows largest }
        ensures known { IfSome result (λ ledger. ledger < length walk.old.ledgers.headers) }
        ensures goes_on { GoesOn walk.old walk.new }
        ensures steps { IfSome B.JUMPS (λ most. walk.new.taken ≤ walk.old.taken + most) }
    {
        self.branch.preferred(walk, largest)
    }

    /// The ledger to go on with from the current one: the preferred one, unless the current one or a ledger above it is
    /// preferred, or one that follows it at once, or none. At most 18 steps more than `preferred` takes.
    pub fn choose(&self, walk: &mut Walk<'_>, current: LedgerNo, largest: Seq) -> LedgerNo
        requires known { current < length walk.old.ledgers.headers }
        requires tally { IsTallied B.goes_with B.votes B.room self.now walk.old.ledgers.headers }
        ensures value { result ≡ choose walk.old.ledgers.headers self.now.rows current largest }
        ensures known { result < length walk.old.ledgers.headers }
        ensures goes_on { GoesOn walk.old walk.new }
        ensures steps { IfSome B.JUMPS (λ most. walk.new.taken ≤ walk.old.taken + most + 18) }
    {
        match self.preferred(walk, largest) {
            Some(preferred) if goes_elsewhere(walk, current, preferred) => preferred,
            _ => current,
        }
    }
}

/// Whether a preferred ledger is one to go on with: it is later than the current one, but doesn't follow it at once, or
/// isn't on its chain.
fn goes_elsewhere(walk: &mut Walk<'_>, current: LedgerNo, preferred: LedgerNo) -> bool
    requires current { current < length walk.old.ledgers.headers }
    requires preferred { preferred < length walk.old.ledgers.headers }
    ensures value { choose_by walk.old.ledgers.headers current (Some preferred)
        ≡ (if result then preferred else current) }
    ensures goes_on { GoesOn walk.old walk.new }
    ensures most { walk.new.taken ≤ walk.old.taken + 18 }
{
    let seq = walk.seq_of(current);
    let preferred_seq = walk.seq_of(preferred);
    if seq < preferred_seq {
        walk.ancestor(preferred, preferred_seq - 1) != current
    } else {
        walk.ancestor(current, preferred_seq) != preferred
    }
}
