ghost use Rattle.std.specs.Prelude.{◌≡◌, ◌<◌, length, IfOk, OnOk};
ghost use Rattle.test_in_memory.specs.Ballots.{IsReady};
ghost use Rattle.xl_ledger.specs.Votes.{has_voted, without};

use crate::dice::Dice;
use std::alloc::Global;
use xl_base::{LedgerId, NodeNo, OutOfMemory};
use xl_ledger::{Branch, Header, LedgerNo, Registry, Vote, id_of, root_header};

/// A form of a branch on a registry of its own, and the votes that it was given.
#[derive(Drop)]
struct Ballot<B> {
    registry: Registry,
    ids: Vec<LedgerId>,
    cast: Vec<Vote>,
    branch: B,
}

/// How many votes are for a ledger, and how many for it or one below it, and which ledger is preferred where one of
/// three sequences was issued.
type Answer = (u32, u32, [Option<LedgerNo>; 3]);

fn is_cast(votes: &[Vote], member: NodeNo) -> bool
    ensures { result ≡ has_voted votes.now member }
{
    votes.iter().any(|vote| vote.member == member)
}

fn drop_votes_of(votes: &mut Vec<Vote>, member: NodeNo)
    ensures { votes.new.items ≡ without votes.old.items member }
{
    votes.retain(|vote| vote.member != member);
}

impl<B: Branch + Drop> Ballot<B> {
    fn open(alloc: Global) -> Result<Ballot<B>, OutOfMemory>
        ensures { IfOk result (IsReady B.goes_with B.votes B.room) }
    {
        let registry = Registry::open(alloc, 96)?;
        registry.len();
        Ok(Ballot {
            registry,
            ids: Vec::new(alloc),
            cast: Vec::new(alloc),
            branch: B::open(alloc, 12)?,
        })
    }

    /// The root, or a ledger that was added, mostly one of the last.
    fn pick(&self, dice: &mut Dice) -> LedgerNo
        ensures { result < length self.now.registry.headers }
    {
        self.registry.len();
        let count = self.ids.len();
        let most = if dice.below(4) == 0 {
            count
        } else {
            count.min(8)
        };
        let Some(id) = self.ids.get(count - dice.below(most + 1)) else {
            return LedgerNo::root();
        };
        match self.registry.find(id) {
            Some(ledger) => ledger,
            None => LedgerNo::root(),
        }
    }

    /// Adds a ledger that follows this one, unless there is no room.
    fn grow(&mut self, parent: LedgerNo, dice: &mut Dice) -> Result<(), OutOfMemory>
        requires known { parent < length self.old.registry.headers }
        requires ready { IsReady B.goes_with B.votes B.room self.old }
        ensures ready { IsReady B.goes_with B.votes B.room self.new }
    {
        let mut tx_hash = [0; 32];
        tx_hash[..8].copy_from_slice(&dice.roll().to_be_bytes());
        let header = Header {
            seq: self.registry.seq_of(parent) + 1,
            parent: self.registry.id_at(parent),
            tx_hash,
            ..root_header()
        };
        if self.registry.add(&header).is_ok() {
            self.ids.push(id_of(&header))?;
        }
        Ok(())
    }

    fn take_back(&mut self, member: NodeNo)
        requires { IsReady B.goes_with B.votes B.room self.old }
        ensures ready { IsReady B.goes_with B.votes B.room self.new }
        ensures registry { self.new.registry ≡ self.old.registry }
    {
        if is_cast(&self.cast, member) {
            self.branch.unvote(&self.registry, member);
            drop_votes_of(&mut self.cast, member);
        }
    }

    /// The member votes for this ledger, in place of an older vote. Each of twelve has one, so there is room.
    fn vote(&mut self, member: NodeNo, ledger: LedgerNo) -> Result<(), OutOfMemory>
        requires known { ledger < length self.old.registry.headers }
        requires ready { IsReady B.goes_with B.votes B.room self.old }
        ensures { OnOk result (IsReady B.goes_with B.votes B.room self.new) }
    {
        self.take_back(member);
        if !is_cast(&self.cast, member) && self.cast.len() < 12 {
            self.cast.push(Vote { member, ledger })?;
            self.branch.vote(&self.registry, member, ledger);
        }
        Ok(())
    }

    fn call(&mut self, dice: &mut Dice) -> Result<(), OutOfMemory>
        requires { IsReady B.goes_with B.votes B.room self.old }
        ensures { OnOk result (IsReady B.goes_with B.votes B.room self.new) }
    {
        let ledger = self.pick(dice);
        match dice.below(8) {
            0..=2 => self.grow(ledger, dice)?,
            3 => self.take_back(dice.member()),
            _ => self.vote(dice.member(), ledger)?,
        }
        Ok(())
    }

    fn ask(&self, dice: &mut Dice) -> Answer
        requires { IsReady B.goes_with B.votes B.room self.now }
    {
        let ledger = self.pick(dice);
        let mut walk = self.registry.walk();
        let preferred = [
            self.branch.preferred(&mut walk, 0),
            self.branch.preferred(&mut walk, dice.below(12) as u32),
            self.branch.preferred(&mut walk, dice.below(24) as u32),
        ];
        let tip = self.branch.tip(&self.registry, ledger);
        (tip, self.branch.branch(&self.registry, ledger), preferred)
    }
}

/// After how many of so many calls two forms differ that are opened here.
fn differing_from<A: Branch + Drop, B: Branch + Drop>(
    alloc: Global,
    seed: u64,
    calls: u64,
) -> Result<u64, OutOfMemory> {
    let mut dice = Dice { state: seed };
    let mut again = Dice { state: seed };
    let mut one: Ballot<A> = Ballot::open(alloc)?;
    let mut other: Ballot<B> = Ballot::open(alloc)?;
    let mut differ: u64 = 0;
    for _ in 0..calls {
        one.call(&mut dice)?;
        other.call(&mut again)?;
        if one.ask(&mut dice) != other.ask(&mut again) {
            differ = differ.saturating_add(1);
        }
    }
    Ok(differ)
}

/// The same of calls for each 250 of which the forms are opened anew.
pub fn differing<A: Branch + Drop, B: Branch + Drop>(
    alloc: Global,
    calls: u64,
) -> Result<u64, OutOfMemory> {
    let mut differ: u64 = 0;
    for seed in 0..calls / 250 {
        differ = differ.saturating_add(differing_from::<A, B>(alloc, seed, 250)?);
    }
    Ok(differ)
}
