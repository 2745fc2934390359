ghost use Rattle.std.specs.Prelude.{
  ◌≡◌,
  ◌≤◌,
  ◌<◌,
  ◌+◌,
  not,
  [],
  length,
  take,
  map,
  filter_map,
  count_by,
  option_map,
  slice_index_or,
  None,
  Some,
  IfOk,
};
ghost use Rattle.xl_base.specs.Sets.{set_id_of, IsSet};
ghost use Rattle.xl_closetime.specs.Choices.{choose_close as choose_close_of};
ghost use Rattle.xl_closetime.specs.Resolutions.{IsResolution};
ghost use Rattle.xl_rounds.specs.Heartbeats.{is_same_set};
ghost use Rattle.xl_rounds.specs.Positions.{
  no_positions,
  position_of,
  with_position,
  without_positions,
  without_member,
  with_held,
  with_own,
  count as count_of,
  is_old as is_old_of,
  unless_old as unless_old_of,
  without_old,
  next_set,
  close_times as close_times_of,
  names as names_of,
  count_agreeing as agreeing_of,
  times_of,
};
ghost use Rattle.xl_rounds.specs.Rest.{is_old_position as is_old_position_of, one_if as one_if_of, without_old_at};

use crate::kept::Kept;
use crate::members::{member_at, place_of};
use std::alloc::Global;
use std::marker::Model;
use xl_base::{MOST_MEMBERS, NodeNo, OutOfMemory, Secs, SetId, TxId};
use xl_closetime::{Choice, choose_close};
use xl_disputes::{Disputes, HashedSets};
use xl_wire::Proposal;

/// A position is old once this many seconds have passed since it was taken.
const FRESH_SECS: Secs = 20;

/// The members' positions, the sets that members hold, and our own set. No call after `open` takes memory.
#[derive(Drop)]
pub(crate) struct Positions {
    members: Kept,
    /// How many there are.
    count: u32,
    /// The sets, and what the positions say of them.
    disputes: Disputes,
}

impl Model for Positions {
    ghost use Rattle.xl_rounds.specs.Positions.{Positions};
    ghost use Rattle.xl_rounds.specs.Rest.{AreNamed};

    ghost Value = { Positions };

    ghost view = { λ a. record { members = a.members; held = a.disputes.held; own = a.disputes.own } };

    ghost invariant = { λ a. AreNamed a.members a.count a.disputes.positions };
}

/// Whether a position is too old to stand.
pub(crate) fn is_old(now: Secs, p: &Proposal) -> bool
    ensures { result ≡ is_old_of now p.now }
{
    p.time <= now.saturating_sub(FRESH_SECS)
}

/// Whether it is a position that is too old to stand.
fn is_old_position(now: Secs, position: &Option<Proposal>) -> bool
    ensures kept { result ≡ is_old_position_of now position.now }
{
    match position {
        Some(p) => is_old(now, p),
        None => false,
    }
}

/// How many positions it is: one or none.
fn one_if(position: &Option<Proposal>) -> u32
    ensures value { result ≡ one_if_of position.now }
    ensures most { result ≤ 1 }
{
    match position {
        Some(_) => 1,
        None => 0,
    }
}

fn names(id: &SetId, position: &Option<Proposal>) -> bool
    ensures { result ≡ names_of id.now position.now }
{
    match position {
        Some(p) => p.set == *id,
        None => false,
    }
}

/// Writes the close times of the positions into the front of the room, and says how many they are.
fn close_times(members: &Kept, room: &mut [Secs]) -> usize
    requires places { length members.now ≡ 64 }
    requires fits { 64 ≤ length room.old }
    ensures len { result ≡ length (times_of members.now) }
    ensures within { result ≤ 64 }
    ensures times { take result room.new ≡ times_of members.now }
{
    let mut len = 0;
    let mut place = members.next(0);
    while place < MOST_MEMBERS {
        if let Some(p) = members.at(place) {
            room[len] = p.close;
            len += 1;
        }
        place = members.next(place + 1);
    }
    len
}

/// How many positions name a set.
fn naming(members: &Kept, id: &SetId) -> u32
    requires places { length members.now ≡ 64 }
    ensures value { result ≡ count_by (names_of id.now) members.now }
    ensures most { result ≤ 64 }
{
    let mut count = 0;
    let mut place = members.next(0);
    while place < MOST_MEMBERS {
        if names(id, members.at(place)) {
            count += 1;
        }
        place = members.next(place + 1);
    }
    count
}

impl Positions {
    /// No position, no held set, and an empty set of our own.
    pub(crate) fn open(alloc: Global) -> Result<Positions, OutOfMemory>
        ensures { IfOk result (λ positions. positions ≡ no_positions []) }
    {
        Ok(Positions {
            members: Kept::none(alloc)?,
            count: 0,
            disputes: Disputes::open(alloc)?,
        })
    }

    /// No position, no held set, and an empty set of our own, as when it was opened.
    pub(crate) fn reset(&mut self)
        ensures { self.new ≡ no_positions [] }
    {
        self.members.clear();
        self.count = 0;
        self.disputes.reset();
    }

    /// The member's position, if it has one.
    pub(crate) fn of(&self, member: NodeNo) -> Option<Proposal>
        ensures { result ≡ position_of self.now member }
    {
        *self.members.at(place_of(member))
    }

    /// The member's position is this proposal, in place of an older one.
    pub(crate) fn put(&mut self, member: NodeNo, p: &Proposal)
        ensures { self.new ≡ with_position member (Some p.now) self.old }
    {
        let place = place_of(member);
        let had = one_if(self.members.at(place));
        self.members.put(place, p);
        self.count = self.count + 1 - had;
        self.disputes.position(member, p.set);
    }

    /// The member has no position any more.
    pub(crate) fn remove(&mut self, member: NodeNo)
        ensures { self.new ≡ with_position member None self.old }
    {
        let place = place_of(member);
        let had = one_if(self.members.at(place));
        self.members.remove(place);
        self.count -= had;
        self.disputes.leave(member);
    }

    /// No member has a position any more.
    pub(crate) fn clear(&mut self)
        ensures { self.new ≡ without_positions self.old }
    {
        self.members.clear();
        self.count = 0;
        self.disputes.clear();
    }

    /// Removes the positions that are too old to stand.
    pub(crate) fn remove_old(&mut self, now: Secs)
        ensures { self.new ≡ without_old now self.old }
    {
        let mut place = self.members.next(0);
        while place < MOST_MEMBERS {
            self.remove_if_old(place, now);
            place = self.members.next(place + 1);
        }
    }

    fn remove_if_old(&mut self, place: usize, now: Secs)
        requires { place < 64 }
        ensures { self.new ≡ without_old_at now place self.old }
    {
        if is_old_position(now, self.members.at(place)) {
            self.remove(member_at(place));
        }
    }

    /// These ids are what the member holds, in place of older ones. Tells their id.
    pub(crate) fn hold(&mut self, member: NodeNo, set: &[TxId], hashed: &mut HashedSets) -> SetId
        requires { IsSet set.now }
        ensures named { result ≡ set_id_of set.now }
        ensures held { self.new ≡ with_held member set.now self.old }
    {
        self.disputes.hold_with(member, set, hashed)
    }

    /// The member has neither a position nor a held set any more.
    pub(crate) fn forget(&mut self, member: NodeNo)
        ensures { self.new ≡ without_member member self.old }
    {
        let place = place_of(member);
        let had = one_if(self.members.at(place));
        self.members.remove(place);
        self.count -= had;
        self.disputes.forget(member);
    }

    /// These ids are our own set.
    pub(crate) fn own(&mut self, set: &[TxId], hashed: &mut HashedSets)
        requires { IsSet set.now }
        ensures { self.new ≡ with_own set.now self.old }
    {
        self.disputes.own_with(set, hashed);
    }

    pub(crate) fn own_set(&self) -> &[TxId]
        ensures value { result.now ≡ self.now.own }
        ensures valid { IsSet self.now.own }
    {
        self.disputes.own_set()
    }

    pub(crate) fn own_id(&self) -> SetId
        ensures { result ≡ set_id_of self.now.own }
    {
        self.disputes.own_id()
    }

    /// Our set is the next one by the votes, if a yes vote must weigh more than `needed` percent. Tells whether it
    /// changed.
    pub(crate) fn update(&mut self, needed: u32, proposing: bool, hashed: &mut HashedSets) -> bool
        ensures changed { result ≡ not (is_same_set (next_set needed proposing self.old) self.old.own) }
        ensures voted { self.new ≡ with_own (next_set needed proposing self.old) self.old }
    {
        self.disputes.update_with(needed, proposing, hashed)
    }

    /// How many members have a position.
    pub(crate) fn count(&self) -> u32
        ensures value { result ≡ count_of self.now }
        ensures most { result ≤ 64 }
    {
        self.count
    }

    /// How many positions name our set.
    pub(crate) fn agreeing(&self) -> u32
        ensures value { result ≡ agreeing_of self.now }
        ensures most { result ≤ 64 }
    {
        naming(&self.members, &self.own_id())
    }

    /// The close time that the positions give, and whether it is agreed on.
    pub(crate) fn choose_close(&self, own: Secs, proposing: bool, threshold: u32, r: u8) -> Choice
        requires percent { threshold ≤ 100 }
        requires resolution { IsResolution r }
        ensures { result ≡ choose_close_of (close_times_of self.now) own proposing threshold r }
    {
        let mut room = [0; MOST_MEMBERS];
        let len = close_times(&self.members, &mut room);
        choose_close(&room[..len], own, proposing, threshold, r)
    }
}
