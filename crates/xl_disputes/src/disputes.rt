ghost use Rattle.std.specs.Prelude.{◌≡◌, ◌≢◌, ◌↔◌, ◌-◌, ◌<◌, ◌≤◌, length, drop, map, replicate, All, None, true, IsTrue, IsFalse, IfOk};
ghost use Rattle.xl_base.specs.Sets.{set_id_of, IsSet};
ghost use Rattle.xl_disputes.specs.Disputes.{
  nothing_known,
  with_own,
  with_held,
  with_position,
  without_position,
  without_positions,
  without_member,
  votes_of,
};
ghost use Rattle.xl_disputes.specs.Next.{next_set, winners};
ghost use Rattle.xl_disputes.specs.Standings.{weighed, standings, IsLast};

use crate::set::SET_IDS;
use crate::shares::{PLACES, Shares};
use crate::{HashedSets, Votes, threshold};
use std::alloc::Global;
use std::marker::Model;
use xl_base::{MOST_MEMBERS, NodeNo, OutOfMemory, SetId, TxId};

/// The place of our own set. A member's place is its number.
const OWN: usize = 0;

/// Our own set, each member's held set, and the set id that each member's position names. `open` takes all memory.
#[derive(Drop)]
pub struct Disputes {
    shares: Shares,
    /// The set ids of the members' positions, from member 1 on.
    positions: [Option<SetId>; MOST_MEMBERS],
    /// No member above this number has a position, or a held set.
    last: usize,
    /// Whether each set stands for the positions that name it. Else they are counted once votes are asked for.
    settled: bool,
    /// Room for our next set.
    next: Vec<TxId>,
}

impl Model for Disputes {
    ghost use Rattle.std.specs.Prelude.{vec_capacity};
    ghost use Rattle.xl_disputes.specs.Disputes.{Known};
    ghost use Rattle.xl_disputes.specs.Standings.{known_of, IsReady};

    ghost Value = { Known };

    ghost view = { λ a. known_of a.shares a.positions };

    ghost invariant = { λ a. IsReady a.shares a.positions a.last (vec_capacity a.next) a.settled };
}

/// The place of a member's position.
fn place_of(member: NodeNo) -> usize
    ensures value { result ≡ member - 1 }
    ensures within { result < MOST_MEMBERS }
{
    member.get() as usize - 1
}

/// The place of a member's set.
fn holding_of(member: NodeNo) -> usize
    ensures value { result ≡ member }
    ensures some { 1 ≤ result }
    ensures within { result < PLACES }
{
    member.get() as usize
}

/// No position is left, if none stands behind the first ones. Only these are written.
fn clear_first(positions: &mut [Option<SetId>; MOST_MEMBERS], last: usize)
    requires within { last ≤ 64 }
    requires unnamed { All (λ position. position ≡ None) (drop last positions.old) }
    ensures { positions.new ≡ replicate 64 None }
{
    for place in 0..last {
        positions[place] = None;
    }
}

/// Lets each set stand for the positions that name it, if no member above the last one has a position or a set.
fn settle(shares: &mut Shares, positions: &[Option<SetId>; MOST_MEMBERS], last: usize)
    requires places { length shares.old ≡ PLACES }
    requires ends { IsLast last shares.old positions.now }
    ensures { shares.new ≡ weighed (standings shares.old positions.now) shares.old }
{
    let mut weights = [0; PLACES];
    shares.count_standings(&positions[..last], &mut weights);
    shares.weigh_all(&weights[..last + 1]);
}

/// The same, unless each does already.
fn settle_unless(
    settled: bool,
    shares: &mut Shares,
    positions: &[Option<SetId>; MOST_MEMBERS],
    last: usize,
)
    requires places { length shares.old ≡ PLACES }
    requires ends { IsLast last shares.old positions.now }
    requires weights { settled ≡ true → map (λ h. h.weight) shares.old ≡ standings shares.old positions.now }
    ensures { shares.new ≡ weighed (standings shares.old positions.now) shares.old }
{
    if !settled {
        settle(shares, positions, last);
    }
}

impl Disputes {
    /// No held set, no position, and an empty set of our own, with room for every other, or `OutOfMemory`.
    pub fn open(alloc: Global) -> Result<Disputes, OutOfMemory>
        ensures { IfOk result (λ disputes. disputes ≡ nothing_known) }
    {
        Ok(Disputes {
            shares: Shares::open(alloc)?,
            positions: [None; MOST_MEMBERS],
            last: 0,
            settled: true,
            next: Vec::with_capacity(alloc, SET_IDS)?,
        })
    }

    /// No held set, no position, and an empty set of our own, as when it was opened. It takes no memory.
    pub fn reset(&mut self)
        ensures { self.new ≡ nothing_known }
    {
        self.shares.reset();
        clear_first(&mut self.positions, self.last);
        self.last = 0;
        self.settled = true;
    }

    /// Makes these ids our own set.
    pub fn own(&mut self, set: &[TxId])
        requires { IsSet set.now }
        ensures { self.new ≡ with_own self.old set.now }
    {
        self.own_with(set, &mut HashedSets::none());
    }

    /// The same, and the set isn't hashed if it was lately.
    pub fn own_with(&mut self, set: &[TxId], hashed: &mut HashedSets)
        requires { IsSet set.now }
        ensures { self.new ≡ with_own self.old set.now }
    {
        self.shares.take(OWN, set, hashed);
        self.settled = false;
    }

    /// Our own set.
    pub fn own_set(&self) -> &[TxId]
        ensures value { result.now ≡ self.now.own }
        ensures valid { IsSet self.now.own }
    {
        self.shares.own().ids()
    }

    /// The id of our own set.
    pub fn own_id(&self) -> SetId
        ensures { result ≡ set_id_of self.now.own }
    {
        self.shares.own().id()
    }

    /// Makes these ids the member's held set, in place of an older one, and returns their id.
    pub fn hold(&mut self, member: NodeNo, set: &[TxId]) -> SetId
        requires { IsSet set.now }
        ensures named { result ≡ set_id_of set.now }
        ensures taken { self.new ≡ with_held self.old member set.now }
    {
        self.hold_with(member, set, &mut HashedSets::none())
    }

    /// The same, and the set isn't hashed if it was lately.
    pub fn hold_with(&mut self, member: NodeNo, set: &[TxId], hashed: &mut HashedSets) -> SetId
        requires { IsSet set.now }
        ensures named { result ≡ set_id_of set.now }
        ensures taken { self.new ≡ with_held self.old member set.now }
    {
        let place = holding_of(member);
        let id = self.shares.take(place, set, hashed);
        self.last = self.last.max(place);
        self.settled = false;
        id
    }

    /// The member's position names this set, in place of an older one. The set need not be held.
    pub fn position(&mut self, member: NodeNo, set: SetId)
        ensures { self.new ≡ with_position self.old member set }
    {
        self.positions[place_of(member)] = Some(set);
        self.last = self.last.max(holding_of(member));
        self.settled = false;
    }

    /// The member has no position any more. What it holds stays.
    pub fn leave(&mut self, member: NodeNo)
        ensures { self.new ≡ without_position self.old member }
    {
        self.positions[place_of(member)] = None;
        self.settled = false;
    }

    /// No member has a position any more.
    pub fn clear(&mut self)
        ensures { self.new ≡ without_positions self.old }
    {
        clear_first(&mut self.positions, self.last);
        self.settled = false;
    }

    /// The member has neither a position nor a held set any more.
    pub fn forget(&mut self, member: NodeNo)
        ensures { self.new ≡ without_member self.old member }
    {
        self.shares.release(holding_of(member));
        self.positions[place_of(member)] = None;
        self.settled = false;
    }

    /// The votes on a transaction, or None if no counted set has it. Counted are our own set and all held ones.
    pub fn votes_of(&mut self, tx: &TxId) -> Option<Votes>
        ensures value { result ≡ votes_of self.old tx.now }
        ensures same { self.new ≡ self.old }
    {
        settle_unless(self.settled, &mut self.shares, &self.positions, self.last);
        self.settled = true;
        let tally = self.shares.tally(tx);
        if tally.is_none() {
            None
        } else {
            Some(tally.votes(self.shares.voters()))
        }
    }

    /// Decides each transaction of the counted sets by its votes, once `percent` percent of the previous round's time
    /// have passed. Those that win become our own set, the 256 lowest if there are more. All votes are decided on the
    /// same counts. Returns whether our set changed.
    pub fn update(&mut self, percent: u64, proposing: bool) -> bool
        ensures changed { IsTrue result ↔ (next_set self.old percent proposing ≢ self.old.own) }
        ensures same { IsFalse result ↔ (next_set self.old percent proposing ≡ self.old.own) }
        ensures taken { self.new ≡ with_own self.old (next_set self.old percent proposing) }
    {
        self.update_above(threshold(percent), proposing)
    }

    /// The same with a known threshold: a yes vote must weigh more than `needed` percent.
    pub fn update_above(&mut self, needed: u32, proposing: bool) -> bool
        ensures changed { IsTrue result ↔ (winners self.old needed proposing ≢ self.old.own) }
        ensures same { IsFalse result ↔ (winners self.old needed proposing ≡ self.old.own) }
        ensures taken { self.new ≡ with_own self.old (winners self.old needed proposing) }
    {
        self.update_with(needed, proposing, &mut HashedSets::none())
    }

    /// The same, and our set isn't hashed if it was lately.
    pub fn update_with(&mut self, needed: u32, proposing: bool, hashed: &mut HashedSets) -> bool
        ensures changed { IsTrue result ↔ (winners self.old needed proposing ≢ self.old.own) }
        ensures same { IsFalse result ↔ (winners self.old needed proposing ≡ self.old.own) }
        ensures taken { self.new ≡ with_own self.old (winners self.old needed proposing) }
    {
        settle_unless(self.settled, &mut self.shares, &self.positions, self.last);
        self.settled = true;
        self.shares.pick(&mut self.next, needed, proposing);
        let changed = self.next.as_slice() != self.shares.own().ids();
        if changed {
            self.shares.replace(OWN, &self.next, hashed);
            self.settled = false;
        }
        changed
    }
}
