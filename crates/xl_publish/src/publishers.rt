ghost use Rattle.std.specs.Prelude.{◌≡◌, ◌↔◌, ◌≤◌, ◌-◌, IfNone, OnSome, is_some, IsOk, count_by, SomeIff, if◌then◌else◌};
ghost use Rattle.xl_publish.specs.Fields.{publisher_in, seq_in, roll_in, IsShaped};
ghost use Rattle.xl_base.specs.Members.{greatest_node_no};
ghost use Rattle.xl_publish.specs.Forces.{is_named, is_supported, list_of, list_at, members_at, names_in, stands_for};
ghost use Rattle.xl_publish.specs.Refusing.{refusal_of, tag_refusal, IsPublisher, IsRight};
ghost use Rattle.xl_publish.specs.declared.roll.Roll.{Roll};
ghost use Rattle.xl_publish.specs.Orders.{is_below};
ghost use Rattle.xl_publish.specs.Rolls.{RisesFrom};
ghost use Rattle.xl_publish.specs.Runs.{KeepsTheGreatest, IsInAnyOrder};
ghost use Rattle.xl_publish.specs.Registers.{no_publishers, key_of, kept_of, is_new, after_key, after_roll, after_took, took_of, answer_to};

use crate::kept::KeptRoll;
use crate::reading::{
    is_below, is_in_force, names, publisher_in, said_in, said_refusal, seq_in, shape_refusal,
    tag_in,
};
use crate::roll::GREATEST_PUBLISHER;
use crate::{RollMembers, RollRefusal};
use std::array;
use std::marker::Model;
use xl_base::{GREATEST_NODE_NO, NodeNo, Secs};
use xl_lists::{List, default_quorum};
use xl_tags::{hmac, is_same_tag};

/// There are at most this many publishers, one for each number.
const MOST_PUBLISHERS: usize = GREATEST_PUBLISHER as usize;

/// What became of a roll that isn't refused.
#[derive(Clone, Copy, PartialEq, Eq)]
pub enum Took {
    /// It is its publisher's kept roll now.
    New,
    /// The kept roll stays, which has this sequence.
    Kept(u32),
}

/// The keys of publishers, and the kept roll of each. No call takes memory.
#[derive(Drop)]
pub struct Publishers {
    /// In the order of the publishers, from 1 on.
    keys: [Option<[u8; 32]>; MOST_PUBLISHERS],
    kept: [Option<KeptRoll>; MOST_PUBLISHERS],
}

impl Model for Publishers {
    ghost use Rattle.xl_publish.specs.Registers.{Register, IsRegister};

    ghost Value = { Register };

    ghost view = { λ p. record { keys = p.keys; kept = p.kept } };

    ghost invariant = { λ p. IsRegister (record { keys = p.keys; kept = p.kept }) };
}

impl Publishers {
    /// No publisher has a key yet.
    pub fn new() -> Publishers
        ensures { result ≡ no_publishers }
    {
        Publishers {
            keys: [None; MOST_PUBLISHERS],
            kept: array::repeat(None),
        }
    }

    /// The same keys and rolls once more.
    pub fn copy(&self) -> Publishers
        ensures { result ≡ self.now }
    {
        Publishers {
            keys: self.keys,
            kept: copies(&self.kept),
        }
    }

    /// Keeps the key of a publisher. It is false for a number outside 1 to 16 and for one that has a key, which then
    /// stays.
    pub fn put(&mut self, publisher: u32, key: [u8; 32]) -> bool
        ensures new { result ≡ is_new self.old publisher }
        ensures kept { self.new ≡ after_key self.old publisher key }
    {
        let Some(place) = place_of(publisher) else {
            return false;
        };
        if self.keys[place].is_some() {
            return false;
        }
        self.keys[place] = Some(key);
        true
    }

    /// Whether the publisher of a number has a key.
    pub fn has(&self, publisher: u32) -> bool
        ensures { result ≡ is_some (key_of self.now publisher) }
    {
        self.key(publisher).is_some()
    }

    /// Takes a roll. It is kept where it is above its publisher's kept roll, by its sequence and then by its bytes, or
    /// if there is none.
    ///
    /// Refused for the mark, the version, the count, as too short, as too long, for an unknown publisher, for the tag,
    /// for a member, or for the seconds, in this order.
    pub fn take(&mut self, bytes: &[u8]) -> Result<Took, RollRefusal>
        ensures answer { result ≡ answer_to self.old bytes.now }
        ensures taken { self.new ≡ after_roll self.old bytes.now }
        // So the kept roll of a publisher is the greatest of its rolls that were taken, whatever came before.
        ensures greatest { KeepsTheGreatest self.old bytes.now self.new }
        // What is taken is what a right roll is spelled under its publisher's key.
        ensures right { (roll : Roll) →
            (IsOk result × (roll_in bytes.now ≡ roll)) ↔ IsRight self.old.keys roll bytes.now }
    {
        self.judge(bytes)
    }

    /// The list in force at a second: the members that at least this many publishers' kept rolls name then, with the
    /// usual quorum. There is none exactly if no member is, or the threshold is 0.
    pub fn list_at(&self, now: Secs, threshold: u32) -> Option<List>
        ensures value { result ≡ list_at self.now.kept now threshold }
        // Where the same rolls were taken, in whatever order and however often, the same list is in force.
        ensures alike { IsInAnyOrder self.now now threshold result }
    {
        self.in_force(now, threshold)
    }

    /// Whether a kept roll names the member.
    pub fn names(&self, member: NodeNo) -> bool
        ensures { result ≡ is_named self.now.kept member }
    {
        self.kept.iter().any(|kept| names_in(kept, member))
    }

    /// Takes a roll, unless it is refused.
    fn judge(&mut self, bytes: &[u8]) -> Result<Took, RollRefusal>
        ensures answer { result ≡ answer_to self.old bytes.now }
        ensures taken { self.new ≡ after_roll self.old bytes.now }
    {
        match self.refusal(bytes) {
            Some(refusal) => Err(refusal),
            None => Ok(self.keep(bytes)),
        }
    }

    /// The first cause for which bytes aren't taken.
    pub(crate) fn refusal(&self, bytes: &[u8]) -> Option<RollRefusal>
        ensures value { result ≡ refusal_of self.now.keys bytes.now }
        ensures shaped { IfNone result (IsShaped bytes.now) }
        ensures known { IfNone result (IsPublisher (publisher_in bytes.now)) }
    {
        if let Some(refusal) = shape_refusal(bytes) {
            return Some(refusal);
        }
        if let Some(refusal) = self.tag_refusal(bytes) {
            return Some(refusal);
        }
        said_refusal(bytes)
    }

    /// Unknown or BadTag.
    fn tag_refusal(&self, bytes: &[u8]) -> Option<RollRefusal>
        requires { IsShaped bytes.now }
        ensures value { result ≡ tag_refusal (key_of self.now (publisher_in bytes.now)) bytes.now }
        ensures known { IfNone result (IsPublisher (publisher_in bytes.now)) }
    {
        let publisher = publisher_in(bytes);
        let Some(key) = self.key(publisher) else {
            return Some(RollRefusal::Unknown(publisher));
        };
        let read = tag_in(bytes);
        let computed = hmac(&key, said_in(bytes));
        if is_same_tag(&read, &computed) {
            None
        } else {
            Some(RollRefusal::BadTag { read, computed })
        }
    }

    /// The key of a publisher.
    fn key(&self, publisher: u32) -> Option<[u8; 32]>
        ensures value { result ≡ key_of self.now publisher }
        ensures known { OnSome result (IsPublisher publisher) }
    {
        let place = publisher.checked_sub(1)?;
        *self.keys.get(place as usize)?
    }

    /// Keeps a right roll, unless the kept one is as great.
    pub(crate) fn keep(&mut self, bytes: &[u8]) -> Took
        requires shaped { IsShaped bytes.now }
        requires known { IsPublisher (publisher_in bytes.now) }
        ensures answer { result ≡ took_of (kept_of self.old (publisher_in bytes.now)) bytes.now }
        ensures kept { self.new ≡ after_took self.old result bytes.now }
    {
        let place = publisher_in(bytes) as usize - 1;
        let took = beside(&self.kept[place], bytes);
        if took == Took::New {
            self.kept[place] = Some(KeptRoll::of(bytes));
        }
        took
    }

    fn in_force(&self, now: Secs, threshold: u32) -> Option<List>
        ensures { result ≡ list_at self.now.kept now threshold }
    {
        if threshold == 0 {
            return None;
        }
        usual_list(self.members_at(now, threshold).as_slice())
    }

    /// The members in force.
    fn members_at(&self, now: Secs, threshold: u32) -> RollMembers
        ensures value { result ≡ members_at self.now.kept now threshold }
        ensures rising { RisesFrom 0 result }
    {
        let mut members = RollMembers::none();
        for number in 1..GREATEST_NODE_NO + 1 {
            if self.supports(member(number), now, threshold) {
                members.push(number);
            }
        }
        members
    }

    /// Whether at least this many publishers stand for the member.
    fn supports(&self, member: NodeNo, now: Secs, threshold: u32) -> bool
        ensures { result ≡ is_supported self.now.kept now threshold member }
    {
        threshold <= self.supporters(member, now) as u32
    }

    fn supporters(&self, member: NodeNo, now: Secs) -> usize
        ensures value { result ≡ count_by (stands_for now member) self.now.kept }
        ensures most { result ≤ 16 }
    {
        self.kept
            .iter()
            .filter(|kept| stands_for(kept, member, now))
            .count()
    }
}

fn copies(kept: &[Option<KeptRoll>; MOST_PUBLISHERS]) -> [Option<KeptRoll>; MOST_PUBLISHERS]
    ensures { result ≡ kept.now }
{
    let mut copies = array::repeat(None);
    for place in 0..MOST_PUBLISHERS {
        copies[place] = copied(&kept[place]);
    }
    copies
}

fn copied(kept: &Option<KeptRoll>) -> Option<KeptRoll>
    ensures { result ≡ kept.now }
{
    match kept {
        Some(roll) => Some(KeptRoll::of(roll.as_slice())),
        None => None,
    }
}

/// What becomes of a right roll where this is its publisher's kept one.
fn beside(kept: &Option<KeptRoll>, bytes: &[u8]) -> Took
    requires { IsShaped bytes.now }
    ensures { result ≡ took_of kept.now bytes.now }
{
    match kept {
        None => Took::New,
        Some(kept) => above(kept.as_slice(), bytes),
    }
}

/// Whether a roll is above the kept one.
fn above(kept: &[u8], bytes: &[u8]) -> Took
    requires kept { IsShaped kept.now }
    requires roll { IsShaped bytes.now }
    ensures { result ≡ (if is_below kept.now bytes.now then Took.New else Took.Kept (seq_in kept.now)) }
{
    if is_below(kept, bytes) {
        Took::New
    } else {
        Took::Kept(seq_in(kept))
    }
}

/// The place of a publisher's key and of its roll.
fn place_of(publisher: u32) -> Option<usize>
    ensures { SomeIff result (IsPublisher publisher) (publisher - 1) }
{
    if 1 <= publisher && publisher <= GREATEST_PUBLISHER {
        Some(publisher as usize - 1)
    } else {
        None
    }
}

/// Whether the kept roll of a publisher names the member.
fn names_in(kept: &Option<KeptRoll>, member: NodeNo) -> bool
    ensures { result ≡ names_in member kept.now }
{
    match kept {
        None => false,
        Some(roll) => names(roll.as_slice(), member),
    }
}

/// Whether it also is in force.
fn stands_for(kept: &Option<KeptRoll>, member: NodeNo, now: Secs) -> bool
    ensures { result ≡ stands_for now member kept.now }
{
    match kept {
        None => false,
        Some(roll) => {
            let roll = roll.as_slice();
            is_in_force(roll, now) && names(roll, member)
        }
    }
}

/// The list of rising members with the usual quorum, if there are any.
fn usual_list(members: &[u32]) -> Option<List>
    requires { RisesFrom 0 members.now }
    ensures { result ≡ list_of members.now }
{
    if members.is_empty() {
        return None;
    }
    List::new(members, default_quorum(members.len() as u32)).ok()
}

/// The member of a number that one may have.
fn member(number: u32) -> NodeNo
    requires least { 1 ≤ number }
    requires greatest { number ≤ greatest_node_no }
    ensures { result ≡ number }
{
    NodeNo::new(number).unwrap()
}
